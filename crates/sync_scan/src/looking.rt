//! What is found at a name of a store.
ghost use Rattle.std.specs.Prelude.{◌≡◌, ◌≢◌, ◌≤◌, ◌<◌, ◌^◌, false, IfErr, IfOk, IfSome, IsNone, Ok, Err, length, option_copied, true, List, ℕ};
ghost use Rattle.file_store.specs.Refusals.{IsPlain, count_after};
ghost use Rattle.file_store.specs.Sequences.{LooksOnly, Since};
ghost use Rattle.file_store.specs.Trees.{bytes_of};
ghost use Rattle.sync_blocks.specs.BlockList.{block_list};
ghost use Rattle.sync_blocks.specs.Sizes.{is_block_size};
ghost use Rattle.file_store.specs.Asked.{StatAt};
ghost use Rattle.file_store.specs.declared.node.Stat.{Stat};
ghost use Rattle.sync_names.specs.Refusal.{refusal};
ghost use Rattle.sync_scan.specs.Told.{Fails, HasNoOtherParent, HasOtherParent, Says};
ghost use Rattle.sync_scan.specs.Looks.{IsTold, LeadsTo, are_recorded, file_finding, look_of, look_of_file, recorded_block_size};

use crate::hashing::blocks_of_file;
use crate::scanning::Scanning;
use crate::{Look, Progress};
use bep_messages::Items;
use file_store::{FileStore, Gate, GatePlace, Stat, StoreRefusal, parent_of};
use folder_core::{Finding, FoundContent};
use std::alloc::Global;
use std::thread::Threads;
use sync_blocks::{Block, block_size_for, is_block_size};
use sync_names::{NameFault, SafeName};
use sync_record::{Kind, Record};
use sync_version::Moment;

/// The most bytes of a file that is recorded: 64 TiB.
pub const MAX_FILE_SIZE: u64 = 1 << 46;

/// What is at a name, of which the folder has this local record.
///
/// A file is read whole. It is cut by the block size of the local record, if that is of a live file of as many bytes, and only
/// where the blocks then differ by that of new files. A name at which nothing is because something that is neither a directory nor
/// a file is in a parent's place is skipped.
pub(crate) fn look_at<S: FileStore, R: Threads + Sync, G: Gate, P: Progress>(
    scanning: &Scanning<R, G>,
    store: &mut S,
    name: &SafeName,
    local: Option<&Record>,
    buffer: &mut Vec<u8>,
    progress: &mut P,
) -> Result<Look, StoreRefusal>
    ensures there { S.keeps ≡ true → IfOk result (λ look.
        look ≡ look_of (option_copied local.entry) ((S.tree store.old).names name.now)) }
    ensures told { (first : S) → LooksOnly S.gives first store.old →
        IfOk result (IsTold (Since S.gives first) name.now (option_copied local.entry)) }
    ensures looks { LooksOnly S.gives store.old store.new }
    ensures failed { IfErr result (Fails S.gives name.now) }
    ensures kept { S.keeps ≡ true → S.tree store.new ≡ S.tree store.old }
    ensures refusals { IfErr result IsPlain }
    ensures counted { S.fault_count store.new ≡ count_after result (S.fault_count store.old) }
{
    scanning.gate.at(GatePlace::StoreRead);
    match store.stat(name)? {
        Stat::Missing => {
            if is_below_other(scanning.alloc, store, scanning.gate, name)? {
                Ok(Look::Skipped)
            } else {
                Ok(Look::Gone)
            }
        }
        Stat::Directory => Ok(Look::Found(Finding {
            content: FoundContent::Directory,
            modified_s: 0,
            modified_ns: 0,
        })),
        Stat::File(size, modified) => {
            let file = FileStat { size, modified };
            look_at_file(scanning, store, name, local, file, buffer, progress)
        }
        Stat::Other => Ok(Look::Skipped),
    }
}

// What a store says of a file.
#[derive(Clone, Copy, Debug, PartialEq, Eq)]
struct FileStat {
    size: u64,
    modified: Moment,
}

// A file of which the store says this, unless it has too many bytes.
fn look_at_file<S: FileStore, R: Threads + Sync, G: Gate, P: Progress>(
    scanning: &Scanning<R, G>,
    store: &mut S,
    name: &SafeName,
    local: Option<&Record>,
    file: FileStat,
    buffer: &mut Vec<u8>,
    progress: &mut P,
) -> Result<Look, StoreRefusal>
    ensures there { S.keeps ≡ true → length (bytes_of ((S.tree store.old).names name.now)) ≡ file.size →
        IfOk result (λ look. look ≡ look_of_file (option_copied local.entry)
        (bytes_of ((S.tree store.old).names name.now)) file.modified) }
    ensures told { (first : S) → LooksOnly S.gives first store.old →
        IfOk result (LeadsTo (Since S.gives first) name.now (option_copied local.entry) (Stat.File file.size file.modified)) }
    ensures looks { LooksOnly S.gives store.old store.new }
    ensures failed { IfErr result (Fails S.gives name.now) }
    ensures kept { S.keeps ≡ true → S.tree store.new ≡ S.tree store.old }
    ensures refusals { IfErr result IsPlain }
    ensures counted { S.fault_count store.new ≡ count_after result (S.fault_count store.old) }
{
    let FileStat { size, modified } = file;
    if size > MAX_FILE_SIZE {
        return Ok(Look::Skipped);
    }
    let own = block_size_for(size);
    if let Some(recorded) = recorded_block_size(local, size) {
        let Some(blocks) = blocks_of_file(scanning, store, name, size, recorded, buffer, progress)?
        else {
            return Ok(Look::Changing);
        };
        if recorded == own || are_recorded(local, size, &blocks) {
            return Ok(found_file(size, recorded, blocks, modified));
        }
    }
    let Some(blocks) = blocks_of_file(scanning, store, name, size, own, buffer, progress)? else {
        return Ok(Look::Changing);
    };
    Ok(found_file(size, own, blocks, modified))
}

pub(crate) fn found_file(size: u64, block_size: u32, blocks: Vec<Block>, modified: Moment) -> Look
    ensures { (bytes : List ℕ) → length bytes ≡ size → blocks.items ≡ block_list bytes block_size →
        result ≡ Look.Found (file_finding block_size bytes modified) }
{
    Look::Found(Finding {
        content: FoundContent::File {
            size,
            block_size,
            blocks: Items::from_vec(blocks),
        },
        modified_s: modified.seconds() as i64,
        modified_ns: 0,
    })
}

// The block size of the local record, if that is of a live file of this size.
pub(crate) fn recorded_block_size(local: Option<&Record>, size: u64) -> Option<u32>
    requires { size ≤ 2 ^ 46 }
    ensures value { result ≡ recorded_block_size (option_copied local.entry) size }
    ensures is { IfSome result (λ n. is_block_size n ≡ true) }
{
    let record = local?;
    if record.is_deleted() || record.kind() != Kind::File || record.size() != size as i64 {
        return None;
    }
    let block_size = u32::try_from(record.block_size()).ok()?;
    if is_block_size(block_size) {
        Some(block_size)
    } else {
        None
    }
}

// Whether a file of this size with these blocks is as the local record says. Empty files are the same.
fn are_recorded(local: Option<&Record>, size: u64, blocks: &[Block]) -> bool
    ensures { result ≡ are_recorded (option_copied local.entry) size blocks.now }
{
    match local {
        Some(record) => size == 0 || record.blocks() == blocks,
        None => size == 0 || blocks.is_empty(),
    }
}

// Whether something that is neither a directory nor a file is in the place of a parent of the name. A parent of which no name is
// safe is not asked for.
#[tactic(auto, using(crate::proofs::LookLemmas::no_look))]
fn is_below_other<S: FileStore, G: Gate>(
    alloc: Global,
    store: &mut S,
    gate: &G,
    name: &SafeName,
) -> Result<bool, StoreRefusal>
    ensures none { S.keeps ≡ true → result ≢ Ok true }
    ensures other { (first : S) → LooksOnly S.gives first store.old →
        result ≡ Ok true → HasOtherParent (Since S.gives first) name.now }
    ensures no_other { (first : S) → LooksOnly S.gives first store.old →
        result ≡ Ok false → HasNoOtherParent (Since S.gives first) name.now }
    ensures looks { LooksOnly S.gives store.old store.new }
    ensures failed { IfErr result (Fails S.gives name.now) }
    ensures kept { S.keeps ≡ true → S.tree store.new ≡ S.tree store.old }
    ensures refusals { IfErr result IsPlain }
    ensures counted { S.fault_count store.new ≡ count_after result (S.fault_count store.old) }
{
    let mut rest = name.as_str();
    while let Some(parent) = parent_of(rest) {
        rest = parent;
        if is_other(alloc, store, gate, rest)? {
            return Ok(true);
        }
    }
    Ok(false)
}

// Whether something that is neither a directory nor a file is at the name with this text, if there is such a safe name.
#[tactic(auto, using(crate::proofs::LookLemmas::no_look))]
fn is_other<S: FileStore, G: Gate>(
    alloc: Global,
    store: &mut S,
    gate: &G,
    text: &str,
) -> Result<bool, StoreRefusal>
    ensures none { S.keeps ≡ true → result ≢ Ok true }
    ensures other { (first : S) → LooksOnly S.gives first store.old →
        result ≡ Ok true → Says (Since S.gives first) text.now Stat.Other }
    ensures no_other { (first : S) → LooksOnly S.gives first store.old →
        result ≡ Ok false → IsNone (refusal text.now) →
        (said : Stat) × (said ≢ Stat.Other) × Says (Since S.gives first) text.now said }
    ensures looks { LooksOnly S.gives store.old store.new }
    ensures failed { result ≡ Err StoreRefusal.StoreFault →
        (asked : S) × (new : S) × S.gives asked (StatAt text.now) (Err StoreRefusal.StoreFault) new }
    ensures kept { S.keeps ≡ true → S.tree store.new ≡ S.tree store.old }
    ensures refusals { IfErr result IsPlain }
    ensures counted { S.fault_count store.new ≡ count_after result (S.fault_count store.old) }
{
    match SafeName::parse(alloc, text) {
        Ok(parent) => {
            gate.at(GatePlace::StoreRead);
            Ok(store.stat(&parent)? == Stat::Other)
        }
        Err(NameFault::OutOfMemory) => Err(StoreRefusal::OutOfMemory),
        Err(_) => Ok(false),
    }
}
