//! The scan of a name.
ghost use Rattle.std.specs.Prelude.{◌≡◌, ℕ, IfErr, IfOk, IsTrue, List, length, true};
ghost use Rattle.sync_blocks.specs.Sizes.{block_size_for};
ghost use Rattle.file_store.specs.Refusals.{IsPlain, count_after};
ghost use Rattle.file_store.specs.Sequences.{LooksOnly};
ghost use Rattle.folder_calls.specs.Shared.{CallerView, Sees};
ghost use Rattle.sync_scan.specs.Ahead.{HasBlocks, IsSeen};
ghost use Rattle.sync_scan.specs.AllNames.{ScansOne};
ghost use Rattle.sync_scan.specs.Looks.{MayFindFirst, MayFindSince, file_finding};
ghost use Rattle.sync_scan.specs.Scans.{GoesOn, Scans};
ghost use Rattle.sync_scan.specs.Told.{Fails};

use crate::ahead::{Part, Seen, Sight, Turn};
use crate::asking::{ask, version_of};
use crate::cuts::blocks_in;
use crate::looking::{found_file, look_at};
use crate::scanning::Scanning;
use crate::{Look, NoProgress, Progress, Scanned};
use file_store::{FileStore, Gate, GatePlace, StoreRefusal};
use folder_calls::FolderCalls;
use std::alloc::{AllocError, Global};
use std::thread::Threads;
use sync_blocks::laws::block_list_tiles;
use sync_blocks::{Block, block_size_for};
use sync_names::SafeName;
use sync_version::Moment;

/// Records what is at a name of the store over the local version, which is read before the store is.
///
/// At most one change is asked of the folder, so a version that comes in between is never recorded over: the folder then
/// returns `Moved`. Fails with `StoreFault` if the store does, and with `OutOfMemory`; nothing is recorded then.
pub fn scan_name<S: FileStore, W: FolderCalls, G: Gate>(
    rt: &(impl Threads + Sync),
    alloc: Global,
    store: &mut S,
    calls: &mut W,
    gate: &G,
    name: &SafeName,
    moment: Moment,
) -> Result<Scanned, StoreRefusal>
    ensures folder { W.folder calls.new ≡ W.folder calls.old }
    ensures scans { IfOk result (λ scanned. Scans (W.view calls.old) name.now moment
        (MayFindFirst S.gives (G.shown gate.now S W) W.view store.old (IsTrue S.keeps) (S.tree store.old) name.now)
        scanned (W.view calls.new)) }
    ensures looks { LooksOnly S.gives store.old store.new }
    ensures refused { IfErr result (λ _. Sees (W.view calls.old) (W.view calls.new)) }
    ensures failed { IfErr result (Fails S.gives name.now) }
    ensures kept { S.keeps ≡ true → S.tree store.new ≡ S.tree store.old }
    ensures refusals { IfErr result IsPlain }
    ensures counted { S.fault_count store.new ≡ count_after result (S.fault_count store.old) }
{
    let mut buffer = Vec::new(alloc);
    let scanning = Scanning {
        rt,
        alloc,
        gate,
        moment,
    };
    scan_one(&scanning, store, calls, name, &mut buffer, &mut NoProgress)
}

/// As [`scan_name`], with a buffer for what is read, which grows to need, and with reports of what is hashed.
pub(crate) fn scan_one<S: FileStore, W: FolderCalls, R: Threads + Sync, G: Gate, P: Progress>(
    scanning: &Scanning<R, G>,
    store: &mut S,
    calls: &mut W,
    name: &SafeName,
    buffer: &mut Vec<u8>,
    progress: &mut P,
) -> Result<Scanned, StoreRefusal>
    ensures folder { W.folder calls.new ≡ W.folder calls.old }
    ensures scans { IfOk result (λ scanned. Scans (W.view calls.old) name.now scanning.now.moment
        (MayFindFirst S.gives (G.shown scanning.now.gate.now S W) W.view store.old (IsTrue S.keeps) (S.tree store.old) name.now)
        scanned (W.view calls.new)) }
    ensures looks { LooksOnly S.gives store.old store.new }
    ensures refused { IfErr result (λ _. Sees (W.view calls.old) (W.view calls.new)) }
    ensures failed { IfErr result (Fails S.gives name.now) }
    ensures kept { S.keeps ≡ true → S.tree store.new ≡ S.tree store.old }
    ensures refusals { IfErr result IsPlain }
    ensures counted { S.fault_count store.new ≡ count_after result (S.fault_count store.old) }
{
    block_list_tiles();
    scanning.gate.at(GatePlace::FolderCall);
    let local = calls.local(name)?.value;
    scanning.gate.show(store, calls);
    let look = look_at(scanning, store, name, local.as_ref(), buffer, progress)?;
    let expected = version_of(local.as_ref());
    Ok(ask(calls, scanning.gate, name, expected, look, scanning.moment)?)
}

/// As [`scan_one`], of a name that was seen ahead of its turn.
#[tactic(auto, using(crate::proofs::LookLemmas::no_look))]
pub(crate) fn scan_seen<S: FileStore, W: FolderCalls, R: Threads + Sync, G: Gate, P: Progress>(
    scanning: &Scanning<R, G>,
    store: &mut S,
    calls: &mut W,
    name: &SafeName,
    turn: Turn,
    buffer: &mut Vec<u8>,
    progress: &mut P,
) -> Result<Scanned, StoreRefusal>
    requires seen { (first : CallerView) × (begun : S) × IsSeen (HasBlocks turn.blocks.now) first (W.view calls.old)
        (MayFindSince S.gives (G.shown scanning.now.gate.now S W) W.view begun (IsTrue S.keeps) (S.tree store.old))
        (Fails S.gives) name.now turn.seen }
    ensures folder { W.folder calls.new ≡ W.folder calls.old }
    ensures scans { (first : CallerView) (begun : S) →
        GoesOn first (W.view calls.old) → LooksOnly S.gives begun store.old →
        IsSeen (HasBlocks turn.entry.blocks.now) first (W.view calls.old)
        (MayFindSince S.gives (G.shown scanning.now.gate.now S W) W.view begun (IsTrue S.keeps) (S.tree store.old))
        (Fails S.gives) name.now turn.entry.seen →
        ScansOne first (W.view calls.old) name.now scanning.now.moment
        (MayFindSince S.gives (G.shown scanning.now.gate.now S W) W.view begun (IsTrue S.keeps) (S.tree store.old) name.now)
        (Fails S.gives name.now) result (W.view calls.new) }
    ensures looks { LooksOnly S.gives store.old store.new }
    ensures kept { S.keeps ≡ true → S.tree store.new ≡ S.tree store.old }
{
    block_list_tiles();
    let Turn { seen, blocks } = turn;
    let Seen { local, sight } = seen;
    match sight {
        Sight::Read(part) => {
            let look = read_look(scanning.alloc, blocks, part)?;
            progress.hashed(part.size as u64);
            let version = version_of(local.as_ref());
            Ok(ask(calls, scanning.gate, name, version, look, scanning.moment)?)
        }
        Sight::Changing => Ok(Scanned::Changing),
        Sight::Failed(refusal) => Err(refusal),
        Sight::Later => scan_one(scanning, store, calls, name, buffer, progress),
    }
}

// A file that was read, with its blocks of those of several.
fn read_look(alloc: Global, blocks: &[Block], part: Part) -> Result<Look, AllocError>
    ensures { IfOk result (λ look. (bytes : List ℕ) → length bytes ≡ part.size → HasBlocks blocks.now part bytes →
        look ≡ Look.Found (file_finding (block_size_for part.size) bytes part.modified)) }
{
    let block_size = block_size_for(part.size as u64);
    let count = part.size.div_ceil(block_size as usize).max(1);
    let own = blocks_in(alloc, blocks, part.first, count)?;
    Ok(found_file(part.size as u64, block_size, own, part.modified))
}
