//! Why the block list of a file is not made: fewer or more bytes than expected, a failed read, out of memory.
ghost use Rattle.std.specs.Prelude.{◌≡◌, Some};
ghost use Rattle.sync_blocks.specs.Faults.{fault_name};
ghost use Rattle.sync_blocks.specs.declared.fault.ReadFault.TheVariants.{OutOfMemory};

use std::alloc::AllocError;
use std::fmt::{self, Display, Formatter};
use thiserror::Error;

/// Why a file's blocks were not read. Displayed, it is its name.
#[derive(Clone, Copy, Debug, PartialEq, Eq, Error)]
pub enum ReadFault {
    /// The reader has fewer bytes than it should.
    Short,
    /// The reader has more bytes than it should.
    Long,
    /// A read failed.
    Read,
    /// The buffer or the list could not be allocated.
    OutOfMemory,
}

impl Display for ReadFault {
    ghost output = { λ fault. Some (fault_name fault) };

    fn fmt<W: fmt::Write>(&self, f: &mut Formatter<W>) -> fmt::Result {
        f.write_str(match self {
            ReadFault::Short => "Short",
            ReadFault::Long => "Long",
            ReadFault::Read => "Read",
            ReadFault::OutOfMemory => "OutOfMemory",
        })
    }
}

impl From<AllocError> for ReadFault {
    ghost from_gives = { λ _ e. e ≡ OutOfMemory };

    fn from(_failed: AllocError) -> ReadFault {
        ReadFault::OutOfMemory
    }
}
