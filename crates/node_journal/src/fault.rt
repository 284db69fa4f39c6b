//! Why a frame is not appended to a journal, and why a journal file is not read.
ghost use Rattle.std.specs.Prelude.{◌≡◌};
ghost use Rattle.node_journal.specs.declared.fault.WriteFault.TheVariants.{OutOfMemory as NoMemory};

use std::alloc::AllocError;
use thiserror::Error;

/// Why a frame is not appended.
#[derive(Clone, Copy, Debug, PartialEq, Eq, Error)]
pub enum WriteFault {
    /// It says nothing: it isn't whole, and has no folder and no mark.
    #[error("the frame is empty")]
    Empty,
    /// Its message has 2^32 bytes or more.
    #[error("the frame is too long")]
    TooLong,
    /// Memory ran out.
    #[error("out of memory")]
    OutOfMemory,
}

impl From<AllocError> for WriteFault {
    ghost from_gives = { λ _ e. e ≡ NoMemory };

    fn from(_error: AllocError) -> WriteFault {
        WriteFault::OutOfMemory
    }
}

/// Why a journal is not read.
#[derive(Clone, Copy, Debug, PartialEq, Eq, Error)]
pub enum JournalFault {
    /// The bytes don't begin with the header of a journal.
    #[error("not a journal")]
    BadHeader,
    /// The journal is another device's.
    #[error("the journal of another device")]
    OtherDevice,
    /// Memory ran out.
    #[error("out of memory")]
    OutOfMemory,
}

impl From<AllocError> for JournalFault {
    ghost use Rattle.node_journal.specs.declared.fault.JournalFault.TheVariants.{OutOfMemory as NoRoom};

    ghost from_gives = { λ _ e. e ≡ NoRoom };

    fn from(_error: AllocError) -> JournalFault {
        JournalFault::OutOfMemory
    }
}
