//! What the definitions say, as contracts of functions that do nothing.
ghost use Rattle.std.specs.Prelude.{◌≡◌, ◌↔◌, ℕ, ◌+◌, ◌-◌, ◌*◌, ◌<◌, ◌≤◌, ◌++◌, min, All, List, [], ◌∷◌, Some, None};
ghost use Rattle.std.specs.Prelude.{IsTrue, drop, flat_map, length, slice_get, take};
ghost use Rattle.std.specs.List.{range_with_len};
ghost use Rattle.sha2.specs.Sha256.{sha256};
ghost use Rattle.sync_blocks.specs.declared.block.Block.{Block};
ghost use Rattle.sync_blocks.specs.BlockList.{block_count, block_list, cut};
ghost use Rattle.sync_blocks.specs.Groups.{blocks_from, group_bytes};
ghost use Rattle.sync_blocks.specs.Tiling.{Tiles, same_block, tiles};

/// The test of a tiling is exact, and no block of a tiling ends past the size.
pub fn tiling_is_tested()
    ensures tested { (blocks : List Block) (size block_size : ℕ) →
        IsTrue (tiles blocks size block_size) ↔ Tiles blocks size block_size }
    ensures within { (blocks : List Block) (size block_size : ℕ) →
        IsTrue (tiles blocks size block_size) → All (λ b. b.offset + b.size ≤ size) blocks }
{}

/// The block list of bytes has a block for each multiple of the block size at which bytes are left, of as many bytes
/// as the block size or as are left, with their digest; that of no bytes has one block of no bytes. The cuts,
/// joined, are the bytes.
pub fn block_list_is_by_cuts()
    // The block with number `i`, written as one value: its offset, its size and its digest.
    ensures each { (bytes : List ℕ) (block_size i : ℕ) → 1 ≤ block_size → i * block_size < length bytes →
        slice_get (block_list bytes block_size) i ≡ Some (record {
          offset = i * block_size;
          size = min block_size (length bytes - i * block_size);
          hash = sha256 (take block_size (drop (i * block_size) bytes));
        }) }
    ensures no_other { (bytes : List ℕ) (block_size i : ℕ) → 1 ≤ block_size → 1 ≤ i →
        length bytes ≤ i * block_size → slice_get (block_list bytes block_size) i ≡ None }
    ensures of_none { (block_size : ℕ) → 1 ≤ block_size →
        block_list [] block_size ≡ record { offset = 0; size = 0; hash = sha256 [] } ∷ [] }
    ensures joined { (bytes : List ℕ) (block_size : ℕ) → 1 ≤ block_size →
        flat_map (cut bytes block_size) (range_with_len 0 (block_count (length bytes) block_size)) ≡ bytes }
{}

/// The blocks of a file's parts, one after the other, are those of the file, if all parts but the last are of whole blocks; and those
/// of all its bytes are its block list, unless the file is empty.
pub fn parts_make_the_block_list()
    ensures none { (first block_size : ℕ) → 1 ≤ block_size → blocks_from first [] block_size ≡ [] }
    // One equation: the blocks of both parts together are those of the front, of whole blocks, and then the back's.
    ensures joined { (first : ℕ) (front back : List ℕ) (block_size count : ℕ) → 1 ≤ block_size →
        length front ≡ count * block_size → blocks_from first (front ++ back) block_size
        ≡ blocks_from first front block_size ++ blocks_from (first + length front) back block_size }
    ensures whole { (bytes : List ℕ) (block_size : ℕ) → 1 ≤ block_size → 1 ≤ length bytes →
        blocks_from 0 bytes block_size ≡ block_list bytes block_size }
    ensures group { (block_size : ℕ) → (count : ℕ) × (group_bytes block_size ≡ count * block_size) }
{}

/// The block list of bytes tiles them.
pub fn block_list_tiles()
    ensures { (bytes : List ℕ) (block_size : ℕ) → 1 ≤ block_size →
        IsTrue (tiles (block_list bytes block_size) (length bytes) block_size) }
{}

/// Blocks are equal if their offsets, sizes and digests are, and that is what the test says.
pub fn same_blocks_are_equal()
    ensures { (a b : Block) → IsTrue (same_block a b) ↔ (a ≡ b) }
{}
