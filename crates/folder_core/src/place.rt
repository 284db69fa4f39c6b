//! Where a block's bytes are in a local file: the file's name, the offset and the size.
ghost use Rattle.std.specs.Prelude.{◌≡◌, IfOk};

use std::alloc::AllocError;
use sync_names::SafeName;

/// Where bytes of some digest are: in which file, and which of its bytes.
#[derive(Debug, PartialEq, Eq, Drop)]
pub struct Place {
    pub name: SafeName,
    /// In bytes.
    pub offset: u64,
    /// In bytes.
    pub size: u32,
}

impl Place {
    /// The same place once more. Returns `Err` only if out of memory. O(n) time and memory for n bytes of the name.
    pub fn copy(&self) -> Result<Place, AllocError>
        ensures { IfOk result (λ place. place ≡ self.now) }
    {
        Ok(Place {
            name: self.name.copy()?,
            offset: self.offset,
            size: self.size,
        })
    }
}
