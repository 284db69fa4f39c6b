//! The interface by which a pull fetches blocks from other devices.
ghost use Rattle.std.specs.Prelude.{ℕ, Bool, List, IfOk};

use std::alloc::AllocError;
use sync_blocks::Block;
use sync_names::SafeName;
use sync_record::DeviceId;

/// Where the blocks of other devices come from.
pub trait BlockSource {
    ghost use Rattle.std.specs.Prelude.{ℕ, Bool, List};
    ghost use Rattle.sync_blocks.specs.declared.block.Block.{Block};
    ghost use Rattle.sync_record.specs.Devices.{Identity};
    ghost use Rattle.sync_record.specs.Records.{Name};

    /// Which devices may be asked.
    ghost may_ask: { Identity → Type 0 };

    /// What a device gives: the source before, the device, the name, the block, whether it gave bytes, these, and the source after.
    ghost gives: { Self → Identity → Name → Block → Bool → List ℕ → Self → Type 0 };

    /// Asks a device for the bytes of a block of a name, and leaves them in `bytes`, in place of what is there. Returns `false` if
    /// the device did not give any; what is in `bytes` then means nothing. Whether the bytes are right is for the caller to test.
    /// Returns `Err` only if out of memory.
    fn fetch(
        &mut self,
        device: DeviceId,
        name: &SafeName,
        block: &Block,
        bytes: &mut Vec<u8>,
    ) -> Result<bool, AllocError>
        requires { may_ask device }
        ensures gives { IfOk result (λ given.
            gives self.old device name.now block.now given bytes.new.items self.new) };

    /// Names blocks of a name that may be asked for next, in this order, and the devices that have them. A source may ask for
    /// them ahead, or do nothing; no contract relies on it.
    fn will_ask(&mut self, _devices: &[DeviceId], _name: &SafeName, _blocks: &[Block]) {}
}
