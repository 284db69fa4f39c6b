//! What the definitions say, as contracts of functions that do nothing.
ghost use Rattle.std.specs.Prelude.{◌≡◌, ◌≢◌, ◌<◌, ◌≤◌, ◌⊎◌, ℕ, List, All, encode_utf8_all};
ghost use Rattle.html_text.specs.Escaped.{Shows};
ghost use Rattle.node_status.specs.Page.{page_piece};
ghost use Rattle.node_status.specs.Rows.{ShownRow};
ghost use Rattle.node_status.specs.Screen.{screen_text};
ghost use Rattle.node_status.specs.declared.page.TheConstants.{STYLE};

/// Whatever the rows are, what is shown on a terminal are characters of which none is a control (U+0000 to U+001F, and U+007F to U+009F) but
/// the ends of lines (10).
pub fn screens_have_no_controls()
    ensures { (rows : List ShownRow) → (chars : List ℕ) × (encode_utf8_all chars ≡ screen_text rows)
        × All (λ c. (c ≡ 10) ⊎ (32 ≤ c) × ((c < 127) ⊎ (160 ≤ c))) chars }
{}

/// So none of its bytes is one.
pub fn screens_have_no_control_bytes()
    ensures { (rows : List ShownRow) → All (λ b. (b ≡ 10) ⊎ (32 ≤ b) × (b ≢ 127)) (screen_text rows) }
{}

/// What stands in a page for a text is read as that text.
pub fn pieces_show_their_texts()
    ensures { (text : List ℕ) → Shows (page_piece text) text }
{}

/// The style has no `<` (60), so it ends nowhere but where the page ends it.
pub fn the_style_has_no_tag()
    ensures { All (λ b. b ≢ 60) STYLE.now }
{}
