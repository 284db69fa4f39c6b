//! Whether what is at a name is what its local record says.
ghost use Rattle.std.specs.Prelude.{◌≡◌, ◌↔◌, ◌+◌, ◌^◌, ◌<◌, ◌≤◌, ℕ, All, IfErr, IfOk, IsTrue, List, Ok, drop, length, option_copied, pos, true};
ghost use Rattle.file_store.specs.FullReads.{FillsAll};
ghost use Rattle.file_store.specs.Refusals.{IsPlain, count_after};
ghost use Rattle.file_store.specs.Trees.{IsTree, bytes_of};
ghost use Rattle.sync_pull.specs.Bytes.{AreOf, HasBlock};
ghost use Rattle.file_store.specs.Sequences.{LooksOnly};
ghost use Rattle.sync_pull.specs.Moments.{GivesBlocks, SaysFile, SaysStands};
ghost use Rattle.sync_pull.specs.Standing.{HasRoom, IsFileOf, StandsAs};

use file_store::{FileStore, Gate, GatePlace, Stat, StoreRefusal, read_full};
use sha2::{Digest, Sha256};
use std::alloc::{AllocError, Global};
use sync_blocks::Block;
use sync_names::SafeName;
use sync_record::{Kind, Record};

/// A buffer for the check of a record's blocks, as long as the greatest of them. Fails if out of memory; does not allocate if
/// there are no blocks. O(n) for n blocks.
pub fn room_for(alloc: Global, base: Option<&Record>) -> Result<Vec<u8>, AllocError>
    ensures { IfOk result (λ room. HasRoom (option_copied base.entry) (length room.items)) }
{
    let Some(base) = base else {
        return Ok(Vec::new(alloc));
    };
    let greatest = greatest_size(base.blocks());
    if greatest == 0 {
        return Ok(Vec::new(alloc));
    }
    Vec::from_elem(alloc, 0, greatest as usize)
}

fn greatest_size(blocks: &[Block]) -> u32
    ensures { All (λ b. b.size ≤ result) blocks.now }
{
    let mut greatest = 0u32;
    for block in blocks {
        greatest = block.size.max(greatest);
    }
    greatest
}

/// Whether what is at the name is what its record says: nothing without a record or by a deleted one; a file of the record's
/// size and, unless that is 0, of its blocks; a directory. Never by a record of another kind.
///
/// A file is read once, block after block into the buffer, and only if its size is the record's; the gate is passed before
/// each read and each digest. Allocates only in calls of the store.
#[tactic(auto, using(crate::proofs::MomentLemmas::looked_stat, crate::proofs::MomentLemmas::looked_on))]
pub fn stands_as<S: FileStore, G: Gate>(
    store: &mut S,
    gate: &G,
    name: &SafeName,
    base: Option<&Record>,
    buffer: &mut [u8],
) -> Result<bool, StoreRefusal>
    requires { HasRoom (option_copied base) (length buffer.old) }
    ensures exact { S.keeps ≡ true → IfOk result (λ stands.
        IsTrue stands ↔ StandsAs (option_copied base.entry) ((S.tree store.old).names name.now)) }
    ensures told { result ≡ Ok true → SaysStands S.gives name.now (option_copied base.entry) store.old store.new }
    ensures looks { LooksOnly S.gives store.old store.new }
    ensures kept { S.keeps ≡ true → S.tree store.new ≡ S.tree store.old }
    ensures refusals { IfErr result IsPlain }
    ensures counted { S.fault_count store.new ≡ count_after result (S.fault_count store.old) }
    ensures tree { S.keeps ≡ true → IsTree (S.tree store.new) }
{
    gate.at(GatePlace::StoreRead);
    let there = store.stat(name)?;
    let Some(base) = base else {
        return Ok(there == Stat::Missing);
    };
    if base.is_deleted() {
        return Ok(there == Stat::Missing);
    }
    match (base.kind(), there) {
        (Kind::File, Stat::File(size, _)) => is_file_of(store, gate, name, base, size, buffer),
        (Kind::Directory, Stat::Directory) => Ok(true),
        _ => Ok(false),
    }
}

// Whether the file at the name, of so many bytes, has the record's size and, unless that is 0, its blocks.
#[tactic(auto, using(crate::proofs::MomentLemmas::still, crate::proofs::MomentLemmas::empty_said, crate::proofs::MomentLemmas::whole_said))]
fn is_file_of<S: FileStore, G: Gate>(
    store: &mut S,
    gate: &G,
    name: &SafeName,
    base: &Record,
    size: u64,
    buffer: &mut [u8],
) -> Result<bool, StoreRefusal>
    requires room { All (λ b. b.size ≤ length buffer.old) base.now.blocks }
    ensures exact { S.keeps ≡ true → size ≡ length (bytes_of ((S.tree store.old).names name.now))
        → IfOk result (λ has. IsTrue has ↔ IsFileOf base.now (bytes_of ((S.tree store.old).names name.now))) }
    ensures sized { result ≡ Ok true → base.now.size ≡ pos size }
    ensures told { result ≡ Ok true → SaysFile S.gives name.now base.now store.old size store.new }
    ensures looks { LooksOnly S.gives store.old store.new }
    ensures kept { S.keeps ≡ true → S.tree store.new ≡ S.tree store.old }
    ensures refusals { IfErr result IsPlain }
    ensures counted { S.fault_count store.new ≡ count_after result (S.fault_count store.old) }
{
    if u64::try_from(base.size()) != Ok(size) {
        return Ok(false);
    }
    if size == 0 {
        return Ok(true);
    }
    has_blocks(store, gate, name, base.blocks(), size, buffer)
}

// Whether the file at the name, of so many bytes, is these blocks, one after the other.
#[tactic(auto, using(crate::proofs::MomentLemmas::then_on))]
fn has_blocks<S: FileStore, G: Gate>(
    store: &mut S,
    gate: &G,
    name: &SafeName,
    blocks: &[Block],
    size: u64,
    buffer: &mut [u8],
) -> Result<bool, StoreRefusal>
    requires room { All (λ b. b.size ≤ length buffer.old) blocks.now }
    ensures exact { S.keeps ≡ true → size ≡ length (bytes_of ((S.tree store.old).names name.now))
        → IfOk result (λ has. IsTrue has ↔ AreOf blocks.now (bytes_of ((S.tree store.old).names name.now))) }
    ensures told { result ≡ Ok true → GivesBlocks S.gives name.now store.old blocks.now size store.new }
    ensures looks { LooksOnly S.gives store.old store.new }
    ensures kept { S.keeps ≡ true → S.tree store.new ≡ S.tree store.old }
    ensures refusals { IfErr result IsPlain }
    ensures counted { S.fault_count store.new ≡ count_after result (S.fault_count store.old) }
{
    let mut at = 0;
    for block in blocks {
        if u64::from(block.size) > size - at {
            return Ok(false);
        }
        if !has_block(store, gate, name, block, at, buffer)? {
            return Ok(false);
        }
        at += u64::from(block.size);
    }
    Ok(at == size)
}

// Whether the file has the block's bytes at an offset.
fn has_block<S: FileStore, G: Gate>(
    store: &mut S,
    gate: &G,
    name: &SafeName,
    block: &Block,
    at: u64,
    buffer: &mut [u8],
) -> Result<bool, StoreRefusal>
    requires room { block.now.size ≤ length buffer.old }
    requires fits { at + block.now.size < 2 ^ 64 }
    ensures exact { S.keeps ≡ true → IfOk result (λ has.
        IsTrue has ↔ HasBlock block.now (drop at (bytes_of ((S.tree store.old).names name.now)))) }
    ensures told { result ≡ Ok true → (count : ℕ) × (before bytes : List ℕ)
        × FillsAll S.gives name.now at store.old before (Ok count) store.new bytes × (block.now.size ≤ count)
        × HasBlock block.now bytes }
    ensures looks { LooksOnly S.gives store.old store.new }
    ensures kept { S.keeps ≡ true → S.tree store.new ≡ S.tree store.old }
    ensures refusals { IfErr result IsPlain }
    ensures counted { S.fault_count store.new ≡ count_after result (S.fault_count store.old) }
{
    let part = &mut buffer[..block.size as usize];
    let count = read_full(store, gate, name, at, part)?;
    if count < block.size as usize {
        return Ok(false);
    }
    gate.at(GatePlace::Digest);
    Ok(Sha256::digest(part) == block.hash)
}
