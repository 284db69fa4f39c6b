//! String fields of messages: texts in UTF-8.
ghost use Rattle.std.specs.Prelude.{◌≡◌, [], IfOk, IsOk, string_bytes};

use crate::items::Copied;
use std::alloc::{AllocError, Global};
use std::marker::Model;

/// A text. Contracts see its bytes in UTF-8.
#[derive(Debug, Drop)]
pub struct Text {
    text: String,
}

impl Model for Text {
    ghost use Rattle.std.specs.Prelude.{List, ℕ};

    ghost Value = { List ℕ };

    ghost use Rattle.std.specs.Prelude.{string_bytes};

    ghost view = { λ s. string_bytes s.text };
}

impl Text {
    /// The empty text. Does not allocate.
    pub fn new(alloc: Global) -> Self
        ensures { result ≡ [] }
    {
        Text {
            text: String::new(alloc),
        }
    }

    /// A copy of a text. Fails only if allocation fails, and never if the text is empty.
    pub fn from_str(alloc: Global, text: &str) -> Result<Self, AllocError>
        ensures value { IfOk result (λ s. s ≡ text.now) }
        ensures empty { text.now ≡ [] → IsOk result }
    {
        if text.is_empty() {
            return Ok(Text::new(alloc));
        }
        Ok(Text {
            text: String::from_str(alloc, text)?,
        })
    }

    /// The text of a string. Does not allocate.
    pub fn from_string(text: String) -> Self
        ensures { result ≡ string_bytes text }
    {
        Text { text }
    }

    /// The string. Does not allocate.
    pub fn into_string(self) -> String
        ensures { string_bytes result ≡ self }
    {
        let Text { text } = self;
        text
    }

    /// The text. O(1).
    pub fn as_str(&self) -> &str
        ensures { result.now ≡ self.now }
    {
        self.text.as_str()
    }
}

impl Copied for Text {
    ghost needs_no_memory = { λ text. text ≡ [] };

    fn copy(&self) -> Result<Text, AllocError> {
        Text::from_str(*self.text.allocator(), self.text.as_str())
    }
}
