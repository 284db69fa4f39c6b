//! The lines of an input that comes in pieces.
ghost use Rattle.std.specs.Prelude.{◌≡◌, ◌++◌, ◌∷◌, [], ◌↔◌, OnOk, IsTrue, option_copied};
ghost use Rattle.bepd_pair.specs.Words.{Text};

use std::alloc::{AllocError, Global};

/// The most bytes of a line, without its line feed.
const MAX_LINE_BYTES: usize = 65_536;

/// A line of which not all may have come yet. Of a longer one than [`MAX_LINE_BYTES`] only that it is too long is kept.
#[derive(Drop)]
pub(crate) struct Line {
    bytes: Vec<u8>,
    is_long: bool,
}

impl Line {
    ghost use Rattle.bepd_pair.specs.Input.{HasCome, kept_line};

    /// Nothing has come of it. Does not allocate.
    pub(crate) fn new(alloc: Global) -> Line
        ensures { HasCome result [] }
    {
        Line {
            bytes: Vec::new(alloc),
            is_long: false,
        }
    }

    /// Adds the next byte of the line. Returns `Err` only if out of memory.
    pub(crate) fn push(&mut self, byte: u8) -> Result<(), AllocError>
        ensures { OnOk result ((bytes : Text) → HasCome self.old bytes → HasCome self.new (bytes ++ byte ∷ [])) }
    {
        if self.bytes.len() >= MAX_LINE_BYTES {
            self.is_long = true;
            return Ok(());
        }
        self.bytes.push(byte)?;
        Ok(())
    }

    /// Whether nothing has come of it.
    pub(crate) fn is_empty(&self) -> bool
        ensures { (bytes : Text) → HasCome self.now bytes → (IsTrue result ↔ (bytes ≡ [])) }
    {
        self.bytes.is_empty() && !self.is_long
    }

    /// Its bytes, unless it is too long.
    pub(crate) fn bytes(&self) -> Option<&[u8]>
        ensures { (bytes : Text) → HasCome self.now bytes → option_copied result ≡ kept_line bytes }
    {
        if self.is_long {
            return None;
        }
        Some(self.bytes.as_slice())
    }

    /// Begins the next line.
    pub(crate) fn clear(&mut self)
        ensures { HasCome self.new [] }
    {
        self.bytes.clear();
        self.is_long = false;
    }
}
