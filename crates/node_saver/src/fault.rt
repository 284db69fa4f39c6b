//! Why records are not saved to a journal: a frame was refused, records came without end, or out of memory.
ghost use Rattle.std.specs.Prelude.{◌≡◌};
ghost use Rattle.node_saver.specs.declared.fault.SaveFault.TheVariants.{OutOfMemory as NoMemory};

use std::alloc::AllocError;
use thiserror::Error;

/// Why records are not saved.
#[derive(Clone, Copy, Debug, PartialEq, Eq, Error)]
pub enum SaveFault {
    /// The journal refused a frame.
    #[error("the journal can't be written")]
    Refused,
    /// Records came as fast as they were appended.
    #[error("the records have no end")]
    Endless,
    /// Memory ran out.
    #[error("out of memory")]
    OutOfMemory,
}

impl From<AllocError> for SaveFault {
    ghost from_gives = { λ _ e. e ≡ NoMemory };

    fn from(_error: AllocError) -> SaveFault {
        SaveFault::OutOfMemory
    }
}
