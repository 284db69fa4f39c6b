//! Why what is in one store is not carried to another: not scanned, a page too long, a store that failed, ..
use bep_frames::WriteFault;
use file_store::StoreRefusal;
use std::alloc::{AllocError, AllocFailed};
use thiserror::Error;

/// Why what is in one store does not come to the other.
#[derive(Clone, Copy, Debug, PartialEq, Eq, Error)]
pub enum CarryFault {
    /// The scan did not record what is there, and did not find it recorded.
    #[error("NotScanned")]
    NotScanned,
    /// A page of records has more bytes than a message may have.
    #[error("TooLong")]
    TooLong,
    /// A session did not hear what was said to it.
    #[error("Unheard")]
    Unheard,
    /// The history of a folder has no room.
    #[error("HistoryFull")]
    HistoryFull,
    /// The store that is scanned failed.
    #[error("StoreFault")]
    StoreFault,
    /// Out of memory.
    #[error("OutOfMemory")]
    OutOfMemory,
}

impl From<AllocError> for CarryFault {
    fn from(_failed: AllocError) -> CarryFault {
        CarryFault::OutOfMemory
    }
}

impl<T: Drop> From<AllocFailed<T>> for CarryFault {
    fn from(_failed: AllocFailed<T>) -> CarryFault {
        CarryFault::OutOfMemory
    }
}

impl From<StoreRefusal> for CarryFault {
    fn from(refusal: StoreRefusal) -> CarryFault {
        match refusal {
            StoreRefusal::OutOfMemory => CarryFault::OutOfMemory,
            _ => CarryFault::StoreFault,
        }
    }
}

impl From<WriteFault> for CarryFault {
    fn from(fault: WriteFault) -> CarryFault {
        match fault {
            WriteFault::TooLong => CarryFault::TooLong,
            WriteFault::OutOfMemory => CarryFault::OutOfMemory,
        }
    }
}
