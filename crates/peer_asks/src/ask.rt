//! What was asked for, and under which id.
ghost use Rattle.std.specs.Prelude.{◌≡◌, true};
ghost use Rattle.peer_asks.specs.Given.{IsFor};

use crate::book::AskId;
use sync_blocks::Block;
use sync_names::SafeName;
use sync_record::DeviceId;

/// A Request that is under way, or was.
#[derive(Debug, Drop)]
pub struct Ask {
    /// Who is asked.
    pub device: DeviceId,
    /// For a block of this file,
    pub name: SafeName,
    /// this one.
    pub block: Block,
    // Which Request it is.
    pub(crate) id: AskId,
}

impl Ask {
    /// Whether the device is asked for this block of this file.
    pub(crate) fn is_for(&self, device: DeviceId, name: &SafeName, block: &Block) -> bool
        ensures { result ≡ true → IsFor device name.now block.now self.now }
    {
        self.device == device && self.name == *name && self.block == *block
    }
}
