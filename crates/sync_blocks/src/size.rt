//! How large blocks are: the block size for a file of so many bytes, a power of two from 128 KiB to 16 MiB.
ghost use Rattle.std.specs.Prelude.{◌≡◌};
ghost use Rattle.sync_blocks.specs.Sizes.{block_size_for, is_block_size};

/// The least block size of a file: 128 KiB. A message that has no block size has this one.
pub const MIN_BLOCK_SIZE: u32 = 131_072;

/// The greatest block size of a file: 16 MiB.
pub const MAX_BLOCK_SIZE: u32 = 16_777_216;

/// The block sizes that files have: the powers of two from 128 KiB to 16 MiB.
const BLOCK_SIZES: [u32; 8] = [
    MIN_BLOCK_SIZE,
    262_144,
    524_288,
    1_048_576,
    2_097_152,
    4_194_304,
    8_388_608,
    MAX_BLOCK_SIZE,
];

/// The block size of a new file of `size` bytes: the least power of two from 128 KiB to 16 MiB of which the file has
/// less than 2000, and otherwise 16 MiB (Block Exchange Protocol v1). Does not allocate. O(1).
pub fn block_size_for(size: u64) -> u32
    ensures { result ≡ block_size_for size }
{
    for block_size in BLOCK_SIZES {
        if size < 2000 * u64::from(block_size) {
            return block_size;
        }
    }
    MAX_BLOCK_SIZE
}

/// Whether files may have this block size: a power of two from 128 KiB to 16 MiB. Does not allocate. O(1).
pub fn is_block_size(size: u32) -> bool
    ensures { result ≡ is_block_size size }
{
    BLOCK_SIZES.contains(&size)
}
