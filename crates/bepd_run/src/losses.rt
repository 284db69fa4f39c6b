//! What is lost of lines that can't be written.
ghost use Rattle.std.specs.Prelude.{◌≡◌, IfOk, codes, cond, false};
ghost use Rattle.std.specs.String.{string_bytes};
ghost use Rattle.bepd_run.specs.Losses.{lines_of, lost, notice, open_after, told, written};

use std::alloc::{AllocError, Global};

/// What is lost of the lines for a writer, and not told yet; and whether what was written ends within a line.
#[derive(Clone, Copy, Debug, PartialEq, Eq)]
pub(crate) struct Losses {
    /// How many lines ended in what is lost, up to `u64::MAX`.
    pub(crate) lines: u64,
    /// Whether it ends within a line, whose rest is to be lost too.
    pub(crate) is_cut: bool,
    /// Whether what was written ends within a line.
    pub(crate) is_open: bool,
}

impl Losses {
    /// Nothing is lost, and nothing is written.
    pub(crate) fn none() -> Losses
        ensures lines { result.lines ≡ 0 }
        ensures cut { result.is_cut ≡ false }
        ensures open { result.is_open ≡ false }
    {
        Losses {
            lines: 0,
            is_cut: false,
            is_open: false,
        }
    }

    /// These bytes are lost too.
    pub(crate) fn lose(&mut self, bytes: &[u8])
        ensures { self.new ≡ lost self.old bytes.now }
    {
        self.lines = self.lines.saturating_add(lines_in(bytes));
        self.is_cut = is_open_after(self.is_cut, bytes);
    }

    /// These bytes were written.
    pub(crate) fn write(&mut self, bytes: &[u8])
        ensures { self.new ≡ written self.old bytes.now }
    {
        self.is_open = is_open_after(self.is_open, bytes);
    }

    /// All that is lost was told, by its notice.
    pub(crate) fn clear(&mut self)
        ensures { self.new ≡ told self.old }
    {
        if self.lines > 0 {
            self.lines = 0;
            self.is_open = false;
        }
    }

    /// `(N lines left out)`, on a line of its own. Returns `Err` only if out of memory.
    pub(crate) fn notice(&self, alloc: Global) -> Result<String, AllocError>
        ensures { IfOk result (λ text. string_bytes text ≡ notice self.now) }
    {
        let start = notice_start(self.is_open);
        format!(in alloc; "{start}{} lines left out)\n", self.lines)
    }
}

/// How a notice begins: on a line of its own.
fn notice_start(is_open: bool) -> &'static str
    ensures { result.now ≡ cond is_open (codes "\n(") (codes "(") }
{
    if is_open { "\n(" } else { "(" }
}

/// How many lines end among these bytes.
fn lines_in(bytes: &[u8]) -> u64
    ensures { result ≡ lines_of bytes.now }
{
    bytes.iter().filter(|byte| **byte == b'\n').count() as u64
}

/// Whether a line is open after these bytes, if one was before or wasn't.
fn is_open_after(is_open: bool, bytes: &[u8]) -> bool
    ensures { result ≡ open_after is_open bytes.now }
{
    match bytes.last() {
        Some(byte) => *byte != b'\n',
        None => is_open,
    }
}
