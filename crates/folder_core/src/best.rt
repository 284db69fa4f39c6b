//! The best record of a name, which wins over other devices' records (the global version), and who has it.
ghost use Rattle.std.specs.Prelude.{◌≡◌, IfOk};

use bep_messages::Items;
use std::alloc::AllocError;
use sync_record::{DeviceId, Record};

/// The best record of a name, and the devices that have it.
#[derive(Debug, PartialEq, Eq, Drop)]
pub struct Best {
    pub record: Record,
    /// In rising identity.
    pub devices: Items<DeviceId>,
}

impl Best {
    /// The same best once more. Returns `Err` only if out of memory. O(n) time and memory for n devices; the record shares its
    /// memory.
    pub fn copy(&self) -> Result<Best, AllocError>
        ensures { IfOk result (λ best. best ≡ self.now) }
    {
        Ok(Best {
            record: self.record.copy()?,
            devices: self.devices.to_items()?,
        })
    }
}
