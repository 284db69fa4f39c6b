//! Whether the first block of a name is at hand, before a file in its way is moved.
ghost use Rattle.std.specs.Prelude.{◌≡◌};
ghost use Rattle.node_pull.specs.Ways.{are_bytes_of, first_with_bytes, is_at_hand, may_make_way};

use sha2::{Digest, Sha256};
use sync_blocks::Block;
use sync_record::{Kind, Record};

/// Whether a file may make way for the best of a name, of whose first block these bytes came: exactly if it is a directory, or a file of which
/// no block has bytes, or one of which the first block that has some has this size and SHA-256 digest. O(n) for n bytes, and blocks without any.
pub(crate) fn may_make_way(best: &Record, bytes: &[u8]) -> bool
    ensures { result ≡ may_make_way best.now bytes.now }
{
    !best.is_deleted() && is_at_hand(best.kind(), best.blocks(), bytes)
}

fn is_at_hand(kind: Kind, blocks: &[Block], bytes: &[u8]) -> bool
    ensures { result ≡ is_at_hand kind blocks.now bytes.now }
{
    match kind {
        Kind::File => match first_with_bytes(blocks) {
            Some(block) => are_bytes_of(&block, bytes),
            None => true,
        },
        Kind::Directory => true,
        Kind::Other => false,
    }
}

/// The first block that has bytes.
pub(crate) fn first_with_bytes(blocks: &[Block]) -> Option<Block>
    ensures { result ≡ first_with_bytes blocks.now }
{
    for block in blocks {
        if block.size > 0 {
            return Some(*block);
        }
    }
    None
}

// Whether the bytes have the block's size and digest.
fn are_bytes_of(block: &Block, bytes: &[u8]) -> bool
    ensures { result ≡ are_bytes_of block.now bytes.now }
{
    bytes.len() as u64 == u64::from(block.size) && Sha256::digest(bytes) == block.hash
}
