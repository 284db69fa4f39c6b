//! What a pull comes to.
ghost use Rattle.std.specs.Prelude.{◌≡◌, Some};
ghost use Rattle.sync_pull.specs.Answers.{failure_name, failure_number, refusal_name, refusal_number, stop_of};
ghost use Rattle.sync_pull.specs.declared.answer.Stop.TheVariants.{OutOfMemory};

use file_store::StoreRefusal;
use std::alloc::AllocError;
use std::fmt::{self, Display, Formatter};
use thiserror::Error;

/// What the pull of a name came to.
#[derive(Clone, Copy, Debug, PartialEq, Eq)]
pub enum PullAnswer {
    /// The target is in place and is the local record, under this sequence.
    Done(u64),
    /// There is no best, the local record is as good, or the best is deleted and there is no local record.
    NotNeeded,
    /// A pull of the name is open already.
    Busy,
    /// The best is live, and neither a file nor a directory.
    Unsupported,
    /// The local version is no longer the one over which the pull began.
    LocalMoved,
    /// The best of the name is no longer what the pull began for.
    Superseded,
    /// The folder refused a call, or memory is out.
    Refused(PullRefusal),
    /// The store or the sources of blocks did not do what the pull needs.
    Failed(PullFailure),
}

/// What a pull was refused by. Displayed, it is its name.
#[derive(Clone, Copy, Debug, PartialEq, Eq, Error)]
pub enum PullRefusal {
    /// No sequence is left, except those that the open commits will take.
    SequenceFull,
    /// The history has no room, except for what ends the open pulls.
    HistoryFull,
    /// Out of memory.
    OutOfMemory,
    /// The pull was no longer open when it was to be ended: another folder's ticket of the same number, name and target ended it.
    Stray,
}

impl PullRefusal {
    /// The number under which programs report it: 31 to 34. O(1).
    pub fn number(self) -> u8
        ensures { result ≡ refusal_number self }
    {
        match self {
            PullRefusal::SequenceFull => 31,
            PullRefusal::HistoryFull => 32,
            PullRefusal::OutOfMemory => 33,
            PullRefusal::Stray => 34,
        }
    }
}

impl Display for PullRefusal {
    ghost output = { λ refusal. Some (refusal_name refusal) };

    fn fmt<W: fmt::Write>(&self, f: &mut Formatter<W>) -> fmt::Result {
        f.write_str(match self {
            PullRefusal::SequenceFull => "SequenceFull",
            PullRefusal::HistoryFull => "HistoryFull",
            PullRefusal::OutOfMemory => "OutOfMemory",
            PullRefusal::Stray => "Stray",
        })
    }
}

/// Why a pull failed. Displayed, it is its name.
#[derive(Clone, Copy, Debug, PartialEq, Eq, Error)]
pub enum PullFailure {
    /// The store failed.
    StoreFault,
    /// No place and no device gave the bytes of a block.
    NoSource,
    /// What is at the name is not what the local record says.
    LocalChanged,
    /// Something is at the name of the conflict copy, or that name is not safe.
    ConflictNameTaken,
    /// A directory that was to be replaced or removed has entries.
    NotEmpty,
    /// A parent of the name is there and is not a directory.
    BadParent,
}

impl PullFailure {
    /// The number under which programs report it: 40 to 45. O(1).
    pub fn number(self) -> u8
        ensures { result ≡ failure_number self }
    {
        match self {
            PullFailure::StoreFault => 40,
            PullFailure::NoSource => 41,
            PullFailure::LocalChanged => 42,
            PullFailure::ConflictNameTaken => 43,
            PullFailure::NotEmpty => 44,
            PullFailure::BadParent => 45,
        }
    }
}

impl Display for PullFailure {
    ghost output = { λ failure. Some (failure_name failure) };

    fn fmt<W: fmt::Write>(&self, f: &mut Formatter<W>) -> fmt::Result {
        f.write_str(match self {
            PullFailure::StoreFault => "StoreFault",
            PullFailure::NoSource => "NoSource",
            PullFailure::LocalChanged => "LocalChanged",
            PullFailure::ConflictNameTaken => "ConflictNameTaken",
            PullFailure::NotEmpty => "NotEmpty",
            PullFailure::BadParent => "BadParent",
        })
    }
}

// Why a pull that was begun is not finished.
#[derive(Clone, Copy, Debug, PartialEq, Eq)]
pub(crate) enum Stop {
    OutOfMemory,
    Failed(PullFailure),
}

impl From<StoreRefusal> for Stop {
    ghost use Rattle.std.specs.Prelude.{◌≡◌};
    ghost use Rattle.sync_pull.specs.Answers.{stop_of};

    ghost from_gives = { λ refusal stop. stop ≡ stop_of refusal };

    fn from(refusal: StoreRefusal) -> Stop {
        match refusal {
            StoreRefusal::StoreFault => Stop::Failed(PullFailure::StoreFault),
            StoreRefusal::NotEmpty => Stop::Failed(PullFailure::NotEmpty),
            StoreRefusal::BadParent => Stop::Failed(PullFailure::BadParent),
            StoreRefusal::OutOfMemory => Stop::OutOfMemory,
        }
    }
}

impl From<AllocError> for Stop {
    ghost from_gives = { λ _ stop. stop ≡ OutOfMemory };

    fn from(_failed: AllocError) -> Stop {
        Stop::OutOfMemory
    }
}
