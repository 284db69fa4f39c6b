//! The blocks of a file of a store.
ghost use Rattle.std.specs.Prelude.{◌≡◌, ◌≢◌, ◌^◌, ◌≤◌, ℕ, IfErr, IfOk, IsNone, List, MatchOption, OnOk, [], ◌∷◌, ◌++◌, length, true};
ghost use Rattle.sha2.specs.Sha256.{sha256};
ghost use Rattle.file_store.specs.Refusals.{IsPlain, count_after};
ghost use Rattle.file_store.specs.Sequences.{LooksOnly, Since};
ghost use Rattle.file_store.specs.Trees.{bytes_of};
ghost use Rattle.sync_blocks.specs.BlockList.{block_list};
ghost use Rattle.sync_scan.specs.Told.{Fails, ReadsOther, ReadsWhole};

use crate::Progress;
use crate::scanning::Scanning;
use file_store::{FileStore, Gate, GatePlace, StoreRefusal, read_full};
use std::alloc::AllocError;
use std::thread::Threads;
use sync_blocks::laws::{block_list_is_by_cuts, parts_make_the_block_list};
use sync_blocks::{Block, group_len, push_blocks};
use sync_names::SafeName;

/// The block list of a file of `size` bytes, which is read in parts of whole blocks; `None` if it has not as many bytes.
///
/// The gate is passed once for the digests, and before each read of the store. The buffer grows to what is read at once.
/// O(size) time; memory for the list.
pub(crate) fn blocks_of_file<S: FileStore, R: Threads + Sync, G: Gate, P: Progress>(
    scanning: &Scanning<R, G>,
    store: &mut S,
    name: &SafeName,
    size: u64,
    block_size: u32,
    buffer: &mut Vec<u8>,
    progress: &mut P,
) -> Result<Option<Vec<Block>>, StoreRefusal>
    requires some { 1 ≤ block_size }
    requires within { size ≤ 2 ^ 46 }
    ensures read { IfOk result (λ found. MatchOption found
        (S.keeps ≡ true → length (bytes_of ((S.tree store.old).names name.now)) ≢ size)
        (λ blocks. (bytes : List ℕ) × (length bytes ≡ size)
        × (blocks.items ≡ block_list bytes block_size)
        × (S.keeps ≡ true → bytes ≡ bytes_of ((S.tree store.old).names name.now))
        × ((first : S) → LooksOnly S.gives first store.old → ReadsWhole (Since S.gives first) name.now bytes))) }
    ensures other { (first : S) → LooksOnly S.gives first store.old →
        IfOk result (λ found. IsNone found → ReadsOther (Since S.gives first) name.now size) }
    ensures looks { LooksOnly S.gives store.old store.new }
    ensures failed { IfErr result (Fails S.gives name.now) }
    ensures kept { S.keeps ≡ true → S.tree store.new ≡ S.tree store.old }
    ensures refusals { IfErr result IsPlain }
    ensures counted { S.fault_count store.new ≡ count_after result (S.fault_count store.old) }
{
    parts_make_the_block_list();
    block_list_is_by_cuts();
    scanning.gate.at(GatePlace::Digest);
    let mut blocks = Vec::new(scanning.alloc);
    let group = group_len(size, block_size);
    if buffer.len() < group {
        buffer.resize(group, 0)?;
    }
    let bytes = buffer.as_mut_slice();
    let mut done = 0;
    while done < size {
        let next = group.min((size - done) as usize);
        let part = &mut bytes[..next];
        if read_full(store, scanning.gate, name, done, part)? < next {
            return Ok(None);
        }
        push_blocks(
            scanning.rt,
            scanning.alloc,
            done,
            part,
            block_size,
            &mut blocks,
        )?;
        progress.hashed(next as u64);
        done += next as u64;
    }
    if read_full(store, scanning.gate, name, size, &mut [0])? > 0 {
        return Ok(None);
    }
    if size == 0 {
        push_empty_block(&mut blocks)?;
    }
    Ok(Some(blocks))
}

// Adds the one block of an empty file.
fn push_empty_block(blocks: &mut Vec<Block>) -> Result<(), AllocError>
    ensures { OnOk result (blocks.new.items
        ≡ blocks.old.items ++ record { offset = 0; size = 0; hash = sha256 [] } ∷ []) }
{
    blocks.push(Block::of_empty_file())?;
    Ok(())
}
