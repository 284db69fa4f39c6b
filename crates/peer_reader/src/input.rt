//! What a reader reads, and the clock that it reads by.
ghost use Rattle.std.specs.Prelude.{ℕ, IfErr};
ghost use Rattle.std.specs.Io.{ReadsAtMost};
ghost use Rattle.std.specs.Io.KnownBytes.{ReadConsumes};
ghost use Rattle.std.specs.IoError.{error_kind};
ghost use Rattle.std.specs.declared.io.ErrorKind.{ErrorKind};

use std::io::{self, Read};
use std::time::Clock;
use sync_version::Moment;

/// A clock that never goes back. Each [`Clock`] is one.
pub trait ReaderClock {
    /// What it showed: the seconds at the look before, and those at this one.
    ghost shows: { Self → ℕ → ℕ → Type 0 };

    /// The seconds now, or those at the look before where it can't be read.
    fn moment_after(&self, last: Moment) -> Moment
        ensures { shows self.now last result };
}

impl<R: Clock> ReaderClock for R {
    ghost use Rattle.std.specs.Prelude.{⊤};

    ghost shows = { λ _ _ _. ⊤ };

    fn moment_after(&self, last: Moment) -> Moment {
        match self.monotonic() {
            Ok(time) => Moment::new(time.as_secs()).unwrap_or(last),
            Err(_) => last,
        }
    }
}

/// A stream of bytes whose reads may fail. Each [`Read`] is one.
pub trait PeerStream: Read {
    /// A read that failed: what there was before it, how it failed, and what there is after it.
    ghost fails: { Self → ErrorKind → Self → Type 0 };

    /// Reads as [`read`](Read::read) does.
    fn read_some(&mut self, buffer: &mut [u8]) -> io::Result<usize>
        ensures bound { ReadsAtMost result buffer.new }
        ensures bytes { ReadConsumes (Self.remaining self.old) (Self.remaining self.new) result buffer.new }
        ensures failed { IfErr result (λ error. fails self.old (error_kind error) self.new) };
}

impl<I: Read> PeerStream for I {
    ghost use Rattle.std.specs.Prelude.{⊤};

    ghost fails = { λ _ _ _. ⊤ };

    fn read_some(&mut self, buffer: &mut [u8]) -> io::Result<usize> {
        self.read(buffer)
    }
}
