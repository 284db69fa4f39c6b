//! How a listing ends.
ghost use Rattle.std.specs.Prelude.{◌≡◌, Some};
ghost use Rattle.bepd.specs.Endings.{ending_text, failure_text, status_of};
ghost use Rattle.bepd.specs.declared.ending.Failure.TheVariants.{OutOfMemory};

use bep_frames::FrameFault;
use std::alloc::AllocError;
use std::error::Error;
use std::fmt::{self, Display, Formatter};

/// Why a listing was not written whole.
#[derive(Clone, Copy, Debug, PartialEq, Eq)]
pub enum Failure {
    /// Memory ran out.
    OutOfMemory,
    /// A read failed, or the input has more than 2^40 bytes.
    Read,
    /// A write failed.
    Write,
}

impl Display for Failure {
    ghost output = { λ failure. Some (failure_text failure) };

    fn fmt<W: fmt::Write>(&self, f: &mut Formatter<W>) -> fmt::Result {
        match self {
            Failure::OutOfMemory => f.write_str("fault 33 OutOfMemory"),
            Failure::Read | Failure::Write => f.write_str("fault read or write"),
        }
    }
}

impl Error for Failure {}

impl From<AllocError> for Failure {
    ghost from_gives = { λ _ failure. failure ≡ OutOfMemory };

    fn from(_error: AllocError) -> Failure {
        Failure::OutOfMemory
    }
}

/// How a listing ended. Displayed, it is the line for standard error; [`Ending::Done`] is an empty one.
#[derive(Clone, Copy, Debug, PartialEq, Eq)]
pub enum Ending {
    /// The input was read to its end, after a whole frame or none.
    Done,
    /// The input ended within a frame, of which it had so many bytes.
    Rest(usize),
    /// The input was read up to this fault.
    Fault(FrameFault),
    /// Lines may be missing.
    Failed(Failure),
}

impl Ending {
    /// The exit status of a program that ends so: 0 done, 2 a fault of the stream, 3 a rest, 4 out of memory, 5 a
    /// failed read or write.
    pub fn status(self) -> u8
        ensures { result ≡ status_of self }
    {
        match self {
            Ending::Done => 0,
            Ending::Fault(_) => 2,
            Ending::Rest(_) => 3,
            Ending::Failed(Failure::OutOfMemory) => 4,
            Ending::Failed(Failure::Read | Failure::Write) => 5,
        }
    }
}

impl Display for Ending {
    ghost output = { λ ending. Some (ending_text ending) };

    fn fmt<W: fmt::Write>(&self, f: &mut Formatter<W>) -> fmt::Result {
        match self {
            Ending::Done => Ok(()),
            Ending::Rest(count) => write!(f, "rest {count}"),
            Ending::Fault(fault) => write!(f, "fault {} {fault}", fault.number()),
            Ending::Failed(failure) => write!(f, "{failure}"),
        }
    }
}
