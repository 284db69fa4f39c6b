//! Why a store of files refuses a call: a fault, a directory that isn't empty, a bad parent, or out of memory.
ghost use Rattle.std.specs.Prelude.{◌≡◌, Some};
ghost use Rattle.file_store.specs.Refusals.{number_of, refusal_name};
ghost use Rattle.file_store.specs.declared.refusal.StoreRefusal.TheVariants.{OutOfMemory};

use std::alloc::AllocError;
use std::fmt::{self, Display, Formatter};
use thiserror::Error;

/// Why a store refuses a call. Displayed, it is its name.
#[derive(Clone, Copy, Debug, PartialEq, Eq, Error)]
pub enum StoreRefusal {
    /// The store failed, or the call does not fit what is there.
    StoreFault,
    /// A directory has entries.
    NotEmpty,
    /// A parent of the name is there and is not a directory.
    BadParent,
    /// The call ran out of memory.
    OutOfMemory,
}

impl StoreRefusal {
    /// The number under which programs report the refusal: 40, 44, 45, or 33 for `OutOfMemory`. O(1).
    pub fn number(self) -> u8
        ensures { result ≡ number_of self }
    {
        match self {
            StoreRefusal::StoreFault => 40,
            StoreRefusal::NotEmpty => 44,
            StoreRefusal::BadParent => 45,
            StoreRefusal::OutOfMemory => 33,
        }
    }
}

impl Display for StoreRefusal {
    ghost output = { λ refusal. Some (refusal_name refusal) };

    fn fmt<W: fmt::Write>(&self, f: &mut Formatter<W>) -> fmt::Result {
        f.write_str(match self {
            StoreRefusal::StoreFault => "StoreFault",
            StoreRefusal::NotEmpty => "NotEmpty",
            StoreRefusal::BadParent => "BadParent",
            StoreRefusal::OutOfMemory => "OutOfMemory",
        })
    }
}

impl From<AllocError> for StoreRefusal {
    ghost from_gives = { λ _ refusal. refusal ≡ OutOfMemory };

    fn from(_failed: AllocError) -> StoreRefusal {
        StoreRefusal::OutOfMemory
    }
}
