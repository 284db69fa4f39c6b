//! What the definitions say, as contracts of functions that do nothing.
ghost use Rattle.std.specs.Prelude.{◌≡◌, ◌≢◌, ℕ, List, All};
ghost use Rattle.html_text.specs.Escaped.{Shows};

/// A piece shows one text at most.
pub fn one_text_is_shown()
    ensures { (piece a b : List ℕ) → Shows piece a → Shows piece b → a ≡ b }
{}

/// A piece has no `"` (34), `'` (39), `<` (60) or `>` (62), so it ends no attribute, and begins and ends no tag.
pub fn pieces_have_no_marks()
    ensures { (piece text : List ℕ) → Shows piece text → All (λ b. (b ≢ 34) × (b ≢ 39) × (b ≢ 60) × (b ≢ 62)) piece }
{}
