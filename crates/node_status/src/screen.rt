//! A status as a person reads it on a terminal.
ghost use Rattle.std.specs.Prelude.{◌≡◌, ◌++◌, ◌-◌, ◌<◌, [], ◌∷◌, IfOk, OnErr, OnOk, length, string_bytes};
ghost use Rattle.node_status.specs.Rows.{status_rows};
ghost use Rattle.node_status.specs.Screen.{code_text, escaped, hex_digit, row_text, marked_text, named_text, padding, screen_text, shown_text};

use crate::rows::{Mark, Row, rows_of};
use crate::status::Status;
use std::alloc::{AllocError, Global};

/// Appends what a person reads of the status on a terminal of 80 columns. Of a text from elsewhere, as a name, each control character (U+0000 to
/// U+001F, and U+007F to U+009F) and the backslash are shown as `\x` and two digits, so that no name can do anything to a terminal. O(n). Returns
/// `Err` only if out of memory, and then the screen is as it was.
pub fn push_screen(screen: &mut String, status: &Status) -> Result<(), AllocError>
    ensures ok { OnOk result (string_bytes screen.new ≡ string_bytes screen.old ++ screen_text (status_rows status.now)) }
    ensures err { OnErr result (string_bytes screen.new ≡ string_bytes screen.old) }
{
    let text = screen_of(*screen.allocator(), status)?;
    screen.push_str(text.as_str())
}

fn screen_of(alloc: Global, status: &Status) -> Result<String, AllocError>
    ensures { IfOk result (λ text. string_bytes text ≡ screen_text (status_rows status.now)) }
{
    let rows = rows_of(alloc, status)?;
    let mut text = String::new(alloc);
    push_rows(&mut text, rows.as_slice())?;
    Ok(text)
}

fn push_rows(text: &mut String, rows: &[Row]) -> Result<(), AllocError>
    ensures { OnOk result (string_bytes text.new ≡ string_bytes text.old ++ screen_text rows.now) }
{
    for row in rows {
        push_row(text, row)?;
    }
    Ok(())
}

fn push_row(text: &mut String, row: &Row) -> Result<(), AllocError>
    ensures { OnOk result (string_bytes text.new ≡ string_bytes text.old ++ row_text row.now) }
{
    match row.mark {
        Mark::Title => push_title(text, row),
        Mark::Heading => push_heading(text, row),
        Mark::Good => push_named(text, row),
        Mark::Busy => push_named(text, row),
        Mark::Bad => push_named(text, row),
        Mark::Note => push_words(text, "  ", row),
        Mark::Trouble => push_words(text, "! ", row),
    }
}

fn push_title(text: &mut String, row: &Row) -> Result<(), AllocError>
    ensures { OnOk result (string_bytes text.new ≡ string_bytes text.old ++ marked_text Mark.Title row.now) }
{
    push_shown(text, row.name.as_str())?;
    text.push_str(", ")?;
    push_shown(text, row.words.as_str())?;
    text.push_str("\n")
}

fn push_heading(text: &mut String, row: &Row) -> Result<(), AllocError>
    ensures { OnOk result (string_bytes text.new ≡ string_bytes text.old ++ marked_text Mark.Heading row.now) }
{
    text.push_str("\n")?;
    push_shown(text, row.name.as_str())?;
    text.push_str("\n")
}

fn push_named(text: &mut String, row: &Row) -> Result<(), AllocError>
    ensures { OnOk result (string_bytes text.new ≡ string_bytes text.old ++ named_text row.now) }
{
    push_shown(text, row.name.as_str())?;
    push_padding(text, row.name.as_str())?;
    text.push_str(" ")?;
    push_shown(text, row.words.as_str())?;
    text.push_str("\n")
}

fn push_padding(text: &mut String, name: &str) -> Result<(), AllocError>
    ensures { OnOk result (string_bytes text.new ≡ string_bytes text.old ++ padding name.now) }
{
    for _spaces in 0..missing(name) {
        text.push_str(" ")?;
    }
    Ok(())
}

fn missing(name: &str) -> usize
    ensures { result ≡ 14 - length name.now }
{
    14usize.saturating_sub(name.len())
}

fn push_words(text: &mut String, mark: &str, row: &Row) -> Result<(), AllocError>
    ensures { OnOk result (string_bytes text.new ≡ string_bytes text.old ++ (mark.now ++ shown_text row.now.words ++ (10 ∷ []))) }
{
    text.push_str(mark)?;
    push_shown(text, row.words.as_str())?;
    text.push_str("\n")
}

// Appends a text, with each control character and the backslash as `\x` and two digits.
fn push_shown(text: &mut String, shown: &str) -> Result<(), AllocError>
    ensures { OnOk result (string_bytes text.new ≡ string_bytes text.old ++ shown_text shown.now) }
{
    for char in shown.chars() {
        push_char(text, char)?;
    }
    Ok(())
}

fn push_char(text: &mut String, char: char) -> Result<(), AllocError>
    ensures { OnOk result (string_bytes text.new ≡ string_bytes text.old ++ escaped char) }
{
    match char {
        '\0'..='\u{1f}' => push_code(text, char as u8),
        '\\' => push_code(text, b'\\'),
        '\u{7f}'..='\u{9f}' => push_code(text, char as u8),
        _ => text.push(char),
    }
}

// Appends `\x` and the two digits of a character.
fn push_code(text: &mut String, char: u8) -> Result<(), AllocError>
    ensures { OnOk result (string_bytes text.new ≡ string_bytes text.old ++ code_text char) }
{
    text.push_str("\\x")?;
    push_hex_digit(text, char / 16)?;
    push_hex_digit(text, char % 16)
}

fn push_hex_digit(text: &mut String, digit: u8) -> Result<(), AllocError>
    requires { digit < 16 }
    ensures { OnOk result (string_bytes text.new ≡ string_bytes text.old ++ (hex_digit digit ∷ [])) }
{
    let byte = if digit < 10 {
        b'0' + digit
    } else {
        b'a' - 10 + digit
    };
    text.push(byte as char)
}
