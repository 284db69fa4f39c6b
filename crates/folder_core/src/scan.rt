//! What scans come to.
ghost use Rattle.std.specs.Prelude.{◌≡◌, Some};
ghost use Rattle.folder_core.specs.Faults.{scan_fault_name, scan_fault_number};
ghost use Rattle.folder_core.specs.declared.scan.ScanFault.TheVariants.{OutOfMemory};

use std::alloc::AllocError;
use std::fmt::{self, Display, Formatter};
use sync_version::Version;
use thiserror::Error;

/// What a scan of a name came to.
#[derive(Debug, Drop)]
pub enum ScanAnswer {
    /// What was found is recorded, under this sequence.
    Recorded(u64),
    /// The local record says it already.
    Unchanged,
    /// The local version is not the expected one, but this; `None` if there is no local record.
    Moved(Option<Version>),
    /// A commit of the name is open.
    Busy,
}

/// Why a scan could not be recorded. Displayed, it is its name.
#[derive(Clone, Copy, Debug, PartialEq, Eq, Error)]
pub enum ScanFault {
    /// This device's counter in the local version is 2^64 - 1, and no greater one fits.
    CounterFull,
    /// No sequence is left, except those that the open commits will take.
    SequenceFull,
    /// The record, or the version of the answer, could not be allocated.
    OutOfMemory,
}

impl ScanFault {
    /// The number under which programs report the fault: 30, 31 or 33. O(1).
    pub fn number(self) -> u8
        ensures { result ≡ scan_fault_number self }
    {
        match self {
            ScanFault::CounterFull => 30,
            ScanFault::SequenceFull => 31,
            ScanFault::OutOfMemory => 33,
        }
    }
}

impl Display for ScanFault {
    ghost output = { λ fault. Some (scan_fault_name fault) };

    fn fmt<W: fmt::Write>(&self, f: &mut Formatter<W>) -> fmt::Result {
        f.write_str(match self {
            ScanFault::CounterFull => "CounterFull",
            ScanFault::SequenceFull => "SequenceFull",
            ScanFault::OutOfMemory => "OutOfMemory",
        })
    }
}

impl From<AllocError> for ScanFault {
    ghost from_gives = { λ _ e. e ≡ OutOfMemory };

    fn from(_failed: AllocError) -> ScanFault {
        ScanFault::OutOfMemory
    }
}
