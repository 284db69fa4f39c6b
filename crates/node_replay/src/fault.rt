//! Why records are not recovered from a state file and a journal, and why plans of pulls are not settled.
ghost use Rattle.std.specs.Prelude.{◌≡◌};
ghost use Rattle.node_replay.specs.declared.fault.RecoverFault.TheVariants.{OutOfMemory as NoMemory};

use std::alloc::{AllocError, AllocFailed};
use thiserror::Error;

/// Why a state and a journal are not taken over.
#[derive(Clone, Copy, Debug, PartialEq, Eq, Error)]
pub enum RecoverFault {
    /// The name of a record or of a plan's target is refused.
    #[error("a name is not safe")]
    UnsafeName,
    /// A plan's target is not a valid record of a deletion, a directory or a file.
    #[error("a plan is of no valid record")]
    BadPlan,
    /// Neither the state nor the journal says the number of this device's index of a folder.
    #[error("a folder has no index id")]
    NoIndexId,
    /// No folder has the records and the last sequence that a folder is told to have.
    #[error("no folder has these records")]
    BadRecords,
    /// Memory ran out.
    #[error("out of memory")]
    OutOfMemory,
}

impl From<AllocError> for RecoverFault {
    ghost from_gives = { λ _ e. e ≡ NoMemory };

    fn from(_error: AllocError) -> RecoverFault {
        RecoverFault::OutOfMemory
    }
}

impl<T: Drop> From<AllocFailed<T>> for RecoverFault {
    ghost from_gives = { λ _ e. e ≡ NoMemory };

    fn from(_error: AllocFailed<T>) -> RecoverFault {
        RecoverFault::OutOfMemory
    }
}

/// Why plans are not settled.
#[derive(Clone, Copy, Debug, PartialEq, Eq, Error)]
pub enum SettleFault {
    /// No sequence is left for the record of a plan.
    #[error("no sequence is left")]
    SequenceFull,
    /// Memory ran out.
    #[error("out of memory")]
    OutOfMemory,
}

impl From<AllocError> for SettleFault {
    ghost use Rattle.node_replay.specs.declared.fault.SettleFault.TheVariants.{OutOfMemory as NoRoom};

    ghost from_gives = { λ _ e. e ≡ NoRoom };

    fn from(_error: AllocError) -> SettleFault {
        SettleFault::OutOfMemory
    }
}

impl<T: Drop> From<AllocFailed<T>> for SettleFault {
    ghost use Rattle.node_replay.specs.declared.fault.SettleFault.TheVariants.{OutOfMemory as NoRoom};

    ghost from_gives = { λ _ e. e ≡ NoRoom };

    fn from(_error: AllocFailed<T>) -> SettleFault {
        SettleFault::OutOfMemory
    }
}
