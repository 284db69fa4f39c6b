//! Whether a record's size, block size and block list fit each other.
ghost use Rattle.std.specs.Prelude.{◌≡◌};
ghost use Rattle.sync_record.specs.Validity.{describes_file};

use sync_blocks::{Block, is_block_size, tiles};

/// Whether a file's size, block size and blocks agree, as those of a live record must.
pub(crate) fn describes_file(size: i64, block_size: i32, blocks: &[Block]) -> bool
    ensures { result ≡ describes_file size block_size blocks.now }
{
    let (Ok(size), Ok(block_size)) = (u64::try_from(size), u32::try_from(block_size)) else {
        return false;
    };
    is_block_size(block_size) && tiles(blocks, size, block_size)
}
