//! Whether a block list makes up a file of a size: no gaps, no overlaps, each block but the last of the block size.
ghost use Rattle.std.specs.Prelude.{◌≡◌, ◌↔◌, IsTrue};
ghost use Rattle.sync_blocks.specs.Tiling.{tiles, tiles_from, Tiles};

use crate::Block;

/// Whether the blocks make up a file of `size` bytes: each begins where the one before ends, all except the last have
/// the block size, and the last has 1 byte to the block size. An empty file has no block, or one of size 0. Does not
/// allocate. O(n).
pub fn tiles(blocks: &[Block], size: u64, block_size: u32) -> bool
    ensures value { result ≡ tiles blocks.now size block_size }
    ensures holds { IsTrue result ↔ Tiles blocks.now size block_size }
{
    match blocks {
        [only] if size == 0 => only.offset == 0 && only.size == 0,
        _ => covers(blocks, size, block_size),
    }
}

// Whether the blocks cover all from the file's beginning up to its size, the last with at least 1 byte.
fn covers(blocks: &[Block], size: u64, block_size: u32) -> bool
    ensures { result ≡ tiles_from 0 blocks.now size block_size }
{
    let Some((last, full)) = blocks.split_last() else {
        return size == 0;
    };
    let mut at = 0u64;
    for block in full {
        if block.offset != at || block.size != block_size {
            return false;
        }
        let Some(next) = at.checked_add(u64::from(block_size)) else {
            return false;
        };
        at = next;
    }
    last.offset == at
        && (1..=block_size).contains(&last.size)
        && at.checked_add(u64::from(last.size)) == Some(size)
}
