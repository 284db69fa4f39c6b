//! Recognizes the name of a file's conflict copy: `.sync-conflict-`, date, time and device before its extension.
ghost use Rattle.std.specs.Prelude.{◌≡◌, ◌↔◌, ◌-◌, ◌≤◌, IsTrue, length};
ghost use Rattle.std.specs.List.{list_all};
ghost use Rattle.sync_names.specs.Copies.{IsConflictCopy, is_digit, is_base32_character, is_date_and_time, is_mark, is_marked_at};

use crate::{SafeName, text};

// The length of the part that a conflict copy's name has between the stem and the extension.
const MARK: usize = 38;

/// Whether a name is that of a conflict copy of the other, whatever its moment and device: in the same folder, the last
/// component with `.sync-conflict-`, eight digits, `-`, six digits, `-` and seven characters of base32's alphabet before its
/// extension. Does not allocate. O(n).
pub fn is_conflict_copy(copy: &SafeName, name: &SafeName) -> bool
    ensures { IsTrue result ↔ IsConflictCopy name.now copy.now }
{
    let (_, last) = text::split_last_component(name.as_str());
    let (_, extension) = text::split_extension(last);
    is_marked(
        copy.as_str().as_bytes(),
        name.as_str().as_bytes(),
        extension.len(),
    )
}

/// Whether the text is the name with a mark before its end of so many bytes.
fn is_marked(text: &[u8], name: &[u8], end: usize) -> bool
    requires { end ≤ length name.now }
    ensures { result ≡ is_marked_at (length name.now - end) name.now text.now }
{
    if text.len() < MARK || text.len() - MARK != name.len() {
        return false;
    }
    let front = name.len() - end;
    text[..front] == name[..front]
        && text[front + MARK..] == name[front..]
        && is_mark(&text[front..front + MARK])
}

/// Whether the text is `.sync-conflict-`, eight digits, `-`, six digits, `-` and seven characters of base32's alphabet.
fn is_mark(text: &[u8]) -> bool
    ensures { result ≡ is_mark text.now }
{
    text.len() == MARK
        && text.starts_with(b".sync-conflict-")
        && is_date_and_time(&text[15..31])
        && are_base32_characters(&text[31..38])
}

fn is_date_and_time(text: &[u8]) -> bool
    requires { length text.now ≡ 16 }
    ensures { result ≡ is_date_and_time text.now }
{
    are_digits(&text[0..8]) && text[8] == b'-' && are_digits(&text[9..15]) && text[15] == b'-'
}

fn are_digits(text: &[u8]) -> bool
    ensures { result ≡ list_all is_digit text.now }
{
    text.iter().all(|b| *b >= b'0' && *b <= b'9')
}

fn are_base32_characters(text: &[u8]) -> bool
    ensures { result ≡ list_all is_base32_character text.now }
{
    text.iter().all(|b| is_base32_character(*b))
}

fn is_base32_character(b: u8) -> bool
    ensures { result ≡ is_base32_character b }
{
    b >= b'A' && b <= b'Z' || b >= b'2' && b <= b'7'
}
