//! Why a folder is not restored.
ghost use Rattle.std.specs.Prelude.{◌≡◌, Some};
ghost use Rattle.folder_core.specs.Faults.{restore_fault_name};
ghost use Rattle.folder_core.specs.declared.restore_fault.RestoreFault.TheVariants.{OutOfMemory};

use std::alloc::AllocError;
use std::fmt::{self, Display, Formatter};
use thiserror::Error;

/// Why a folder could not be restored. Displayed, it is its name.
#[derive(Clone, Copy, Debug, PartialEq, Eq, Error)]
pub enum RestoreFault {
    /// No folder has these records and this last sequence: the last sequence is negative, a device has two records of a
    /// name, or this device's records are not all valid, with distinct sequences from 1 to the last.
    BadRecords,
    /// Memory to sort the records, or to test their sequences, could not be allocated.
    OutOfMemory,
}

impl Display for RestoreFault {
    ghost output = { λ fault. Some (restore_fault_name fault) };

    fn fmt<W: fmt::Write>(&self, f: &mut Formatter<W>) -> fmt::Result {
        f.write_str(match self {
            RestoreFault::BadRecords => "BadRecords",
            RestoreFault::OutOfMemory => "OutOfMemory",
        })
    }
}

impl From<AllocError> for RestoreFault {
    ghost from_gives = { λ _ e. e ≡ OutOfMemory };

    fn from(_failed: AllocError) -> RestoreFault {
        RestoreFault::OutOfMemory
    }
}
