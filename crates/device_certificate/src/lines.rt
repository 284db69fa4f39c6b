//! The lines of a PEM file's text without blanks at their ends, and those between two given lines.
ghost use Rattle.std.specs.Prelude.{◌≡◌, ◌∷◌, true, false, IfOk, MatchOption};
ghost use Rattle.std.specs.List.{list_any, after_first, before_first, concat};
ghost use Rattle.std.specs.Iterator.{YieldsFirstRef, item_count};
ghost use Rattle.device_certificate.specs.Lines.{is_blank, trimmed, is_line, lines, lines_of, lines_left};

use std::alloc::{AllocError, Global};

/// The lines of a text, without the blanks at their ends. Each is found when it is asked for; nothing is allocated.
#[derive(Clone, Copy, Drop)]
pub(crate) struct Lines<'a> {
    text: Option<&'a [u8]>,
}

impl<'a> Lines<'a> {
    /// All lines of the text.
    pub(crate) fn new(text: &'a [u8]) -> Self
        ensures { lines_left result ≡ lines text.now }
    {
        Lines { text: Some(text) }
    }

    /// The lines after the first that is the wanted one, if there is one. O(n).
    pub(crate) fn after(self, wanted: &[u8]) -> Option<Lines<'a>>
        ensures { MatchOption result
            (list_any (is_line wanted.now) (lines_left self.entry) ≡ false)
            (λ rest. (list_any (is_line wanted.now) (lines_left self.entry) ≡ true) × (lines_left rest ≡ after_first (is_line wanted.now) (lines_left self.entry))) }
    {
        let mut lines = self;
        while let Some(line) = lines.next() {
            if line == wanted {
                return Some(lines);
            }
        }
        None
    }

    /// The lines before the first that is the wanted one, put together. O(n); returns `Err` if they could not be allocated.
    pub(crate) fn until(self, alloc: Global, wanted: &[u8]) -> Result<Vec<u8>, AllocError>
        ensures { IfOk result (λ found. found.items ≡ concat (before_first (is_line wanted.now) (lines_left self.entry))) }
    {
        let mut found = Vec::new(alloc);
        for line in self {
            if line == wanted {
                break;
            }
            found.extend_from_slice(line)?;
        }
        Ok(found)
    }
}

impl<'a> Iterator for Lines<'a> {
    type Item = &'a [u8];

    ghost next_gives = { YieldsFirstRef lines_left };

    ghost remaining = { item_count lines_left };

    fn next(&mut self) -> Option<&'a [u8]> {
        let text = self.text?;
        let (line, rest) = first_line(text);
        self.text = rest;
        Some(line)
    }
}

// The first line, and the text after its line feed, if it has one.
fn first_line(text: &[u8]) -> (&[u8], Option<&[u8]>)
    ensures { lines text.now ≡ result.0.now ∷ lines_of result.1 }
{
    match text.iter().position(|c| *c == b'\n') {
        Some(end) => (trimmed(&text[..end]), Some(&text[end + 1..])),
        None => (trimmed(text), None),
    }
}

fn trimmed(line: &[u8]) -> &[u8]
    ensures { result.now ≡ trimmed line.now }
{
    let mut end = line.len();
    while end > 0 && is_blank(line[end - 1]) {
        end -= 1;
    }
    &line[..end]
}

fn is_blank(c: u8) -> bool
    ensures { result ≡ is_blank c }
{
    c == b' ' || c == b'\t' || c == b'\r'
}
