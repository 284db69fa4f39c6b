//! Text in an HTML page.
#![tactic(auto)]

ghost use Rattle.std.specs.Prelude.{◌≡◌, ℕ, List, ◌++◌, OnErr, OnOk, encode_utf8, string_bytes};
ghost use Rattle.html_text.specs.Escaped.{Shows};

pub mod laws;

use std::alloc::AllocError;

/// Appends text to a page, so that a browser reads exactly it there, between tags and in an attribute within quotes (but not in `script`
/// and `style`, where references are not read). HTML itself knows no U+0000, and reads a carriage return as the end of a line. O(n).
/// Returns `Err` only if out of memory, and then the page is as it was.
pub fn push_escaped(page: &mut String, text: &str) -> Result<(), AllocError>
    ensures ok { OnOk result ((piece : List ℕ) × (string_bytes page.new ≡ string_bytes page.old ++ piece) × Shows piece text.now) }
    ensures err { OnErr result (string_bytes page.new ≡ string_bytes page.old) }
{
    let start = page.len();
    for char in text.chars() {
        if let Err(error) = push_char(page, char) {
            page.truncate(start);
            return Err(error);
        }
    }
    Ok(())
}

// Appends a character, or the reference that stands for it.
fn push_char(page: &mut String, char: char) -> Result<(), AllocError>
    ensures ok { OnOk result ((piece : List ℕ) × (string_bytes page.new ≡ string_bytes page.old ++ piece) × Shows piece (encode_utf8 char)) }
    ensures err { OnErr result (string_bytes page.new ≡ string_bytes page.old) }
{
    match char {
        '"' => page.push_str("&quot;"),
        '&' => page.push_str("&amp;"),
        '\'' => page.push_str("&#39;"),
        '<' => page.push_str("&lt;"),
        '>' => page.push_str("&gt;"),
        _ => page.push(char),
    }
}
