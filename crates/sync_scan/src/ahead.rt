//! What a scan of all names reads ahead of the changes.
ghost use Rattle.std.specs.Prelude.{◌≡◌, ◌≢◌, ◌<◌, ◌≤◌, ◌^◌, [], ◌∷◌, ℕ, IfErr, IfOk, IsTrue, List, OnOk, length, map, false, option_copied, take, true};
ghost use mathlib.Core.List.{IsPrefix};
ghost use Rattle.std.specs.List.{AllZip};
ghost use Rattle.file_store.specs.Calls.{stat_of};
ghost use Rattle.file_store.specs.Sequences.{LooksOnly, Since};
ghost use Rattle.file_store.specs.Trees.{Tree, bytes_of};
ghost use Rattle.folder_calls.specs.Shared.{CallerView, Sees};
ghost use Rattle.sync_record.specs.Records.{Name};
ghost use Rattle.sync_scan.specs.Ahead.{AreSeen, HasBlocks, HasBytes, IsSeen, SightIs, cut_block};
ghost use Rattle.sync_scan.specs.Looks.{MayFind, MayFindSince};
ghost use Rattle.sync_scan.specs.Scans.{GoesOn};
ghost use Rattle.sync_scan.specs.declared.scanned.Look.TheVariants.{Changing};
ghost use Rattle.sync_scan.specs.Told.{Fails, ReadsOther, ReadsWhole, Says};

use crate::cuts::{Cut, hash_cuts, push_cuts};
use crate::looking::recorded_block_size;
use crate::scanning::Scanning;
use file_store::{FileStore, Gate, GatePlace, Listed, Stat, StoreRefusal, read_full};
use folder_calls::FolderCalls;
use std::alloc::{AllocError, Global};
use std::collections::VecDeque;
use std::thread::Threads;
use sync_blocks::{Block, block_size_for};
use sync_names::SafeName;
use sync_record::Record;
use sync_version::Moment;

/// So many names are looked at before the changes of the first of them.
const MAX_NAMES: usize = 256;

/// As many bytes of files are read before the changes of the first of them.
const MAX_BYTES: usize = 64 * 1024 * 1024;

/// A larger file waits for its turn.
const MAX_PART: usize = 8 * 1024 * 1024;

/// Where the content of a file is among what was read of several, and its first block among theirs.
#[derive(Clone, Copy, Debug, PartialEq, Eq)]
pub(crate) struct Part {
    pub(crate) start: usize,
    pub(crate) size: usize,
    pub(crate) modified: Moment,
    pub(crate) first: usize,
}

/// What was seen of a name ahead of its change.
#[derive(Debug, Drop)]
pub(crate) enum Sight {
    /// A file, which was read.
    Read(Part),
    /// A file whose size changed while it was read.
    Changing,
    /// The store failed, or memory is out.
    Failed(StoreRefusal),
    /// It is looked at when its turn comes.
    Later,
}

/// What was seen of a name ahead of its change, after its local record was read.
#[derive(Debug, Drop)]
pub(crate) struct Seen {
    pub(crate) local: Option<Record>,
    pub(crate) sight: Sight,
}

/// The turn of a name: what was seen of it, with the blocks of the files that were read then.
#[derive(Debug, Drop)]
pub(crate) struct Turn<'a> {
    pub(crate) seen: Seen,
    pub(crate) blocks: &'a [Block],
}

/// What was read ahead of the next names, with the blocks of their files.
#[derive(Debug, Drop)]
pub(crate) struct Ahead {
    pub(crate) seen: VecDeque<Seen>,
    pub(crate) blocks: Vec<Block>,
}

impl Ahead {
    ghost use Rattle.std.specs.Prelude.{◌≡◌, []};

    /// Of no name.
    pub(crate) fn none(alloc: Global) -> Ahead
        ensures { result.seen.items ≡ [] }
    {
        Ahead {
            seen: VecDeque::new(alloc),
            blocks: Vec::new(alloc),
        }
    }
}

// What was read of several files, one after the other from the front of a buffer.
#[derive(Debug, Drop)]
struct Batch {
    // The cuts for their blocks.
    cuts: Vec<Cut>,
    // How many bytes of the buffer are theirs.
    filled: usize,
}

/// What was seen of the first of these names, the others of which may have been seen too. Where none was seen, it reads ahead.
pub(crate) fn next_seen<S: FileStore, W: FolderCalls, R: Threads + Sync, G: Gate>(
    scanning: &Scanning<R, G>,
    store: &mut S,
    calls: &mut W,
    entries: &[Listed],
    ahead: &mut Ahead,
    buffer: &mut Vec<u8>,
) -> Seen
    ensures folder { W.folder calls.new ≡ W.folder calls.old }
    ensures sees { Sees (W.view calls.old) (W.view calls.new) }
    ensures seen { (first : CallerView) (begun : S) (tree : Tree) (n : Name) (rest : List Name) →
        GoesOn first (W.view calls.old) → LooksOnly S.gives begun store.old → (IsTrue S.keeps → S.tree store.old ≡ tree) →
        map (λ e. e.name) entries.now ≡ n ∷ rest →
        AreSeen ahead.old first (W.view calls.old)
        (MayFindSince S.gives (G.shown scanning.now.gate.now S W) W.view begun (IsTrue S.keeps) tree) (Fails S.gives) (n ∷ rest) →
        IsSeen (HasBlocks ahead.new.blocks.items) first (W.view calls.new)
        (MayFindSince S.gives (G.shown scanning.now.gate.now S W) W.view begun (IsTrue S.keeps) tree) (Fails S.gives) n result
        × AreSeen ahead.new first (W.view calls.new)
        (MayFindSince S.gives (G.shown scanning.now.gate.now S W) W.view begun (IsTrue S.keeps) tree) (Fails S.gives) rest }
    ensures looks { LooksOnly S.gives store.old store.new }
    ensures kept { S.keeps ≡ true → S.tree store.new ≡ S.tree store.old }
{
    fill_ahead(scanning, store, calls, entries, ahead, buffer);
    match ahead.seen.pop_front() {
        Some(seen) => seen,
        None => Seen {
            local: None,
            sight: Sight::Later,
        },
    }
}

// Reads ahead of these names, unless some of them were seen.
#[tactic(auto, using(crate::proofs::LookLemmas::no_look))]
fn fill_ahead<S: FileStore, W: FolderCalls, R: Threads + Sync, G: Gate>(
    scanning: &Scanning<R, G>,
    store: &mut S,
    calls: &mut W,
    entries: &[Listed],
    ahead: &mut Ahead,
    buffer: &mut Vec<u8>,
)
    ensures folder { W.folder calls.new ≡ W.folder calls.old }
    ensures sees { Sees (W.view calls.old) (W.view calls.new) }
    ensures seen { (first : CallerView) (begun : S) (tree : Tree) →
        GoesOn first (W.view calls.old) → LooksOnly S.gives begun store.old → (IsTrue S.keeps → S.tree store.old ≡ tree) →
        AreSeen ahead.old first (W.view calls.old)
        (MayFindSince S.gives (G.shown scanning.now.gate.now S W) W.view begun (IsTrue S.keeps) tree) (Fails S.gives)
        (map (λ e. e.name) entries.now) →
        AreSeen ahead.new first (W.view calls.new)
        (MayFindSince S.gives (G.shown scanning.now.gate.now S W) W.view begun (IsTrue S.keeps) tree) (Fails S.gives)
        (map (λ e. e.name) entries.now) }
    ensures looks { LooksOnly S.gives store.old store.new }
    ensures kept { S.keeps ≡ true → S.tree store.new ≡ S.tree store.old }
{
    if !ahead.seen.is_empty() {
        return;
    }
    *ahead = look_ahead(scanning, store, calls, entries, buffer);
}

/// Reads ahead of the changes of these names, and hashes their files side by side: up to 64 MiB of files of up to 8 MiB, and up
/// to 256 names. What is out of memory is left for the turn of its name.
pub(crate) fn look_ahead<S: FileStore, W: FolderCalls, R: Threads + Sync, G: Gate>(
    scanning: &Scanning<R, G>,
    store: &mut S,
    calls: &mut W,
    entries: &[Listed],
    buffer: &mut Vec<u8>,
) -> Ahead
    ensures folder { W.folder calls.new ≡ W.folder calls.old }
    ensures sees { Sees (W.view calls.old) (W.view calls.new) }
    ensures seen { AreSeen result (W.view calls.old) (W.view calls.new)
        (MayFindSince S.gives (G.shown scanning.now.gate.now S W) W.view store.old (IsTrue S.keeps) (S.tree store.old)) (Fails S.gives)
        (map (λ e. e.name) entries.now) }
    ensures looks { LooksOnly S.gives store.old store.new }
    ensures kept { S.keeps ≡ true → S.tree store.new ≡ S.tree store.old }
{
    let mut batch = Batch {
        cuts: Vec::new(scanning.alloc),
        filled: 0,
    };
    let Ok(seen) = read_ahead(scanning, store, calls, entries, buffer, &mut batch) else {
        return Ahead::none(scanning.alloc);
    };
    match hash_read(scanning, &buffer[..batch.filled], &batch.cuts) {
        Ok(blocks) => Ahead { seen, blocks },
        Err(AllocError) => Ahead::none(scanning.alloc),
    }
}

// The blocks that the cuts stand for, in order. Of no cut the gate is not passed.
fn hash_read<R: Threads + Sync, G: Gate>(
    scanning: &Scanning<R, G>,
    bytes: &[u8],
    cuts: &[Cut],
) -> Result<Vec<Block>, AllocError>
    ensures { IfOk result (λ v. v.items ≡ map (cut_block bytes.now) cuts.now) }
{
    if cuts.is_empty() {
        return Ok(Vec::new(scanning.alloc));
    }
    scanning.gate.at(GatePlace::Digest);
    hash_cuts(scanning.rt, scanning.alloc, bytes, cuts)
}

// Reads ahead of these names.
fn read_ahead<S: FileStore, W: FolderCalls, R: Threads + Sync, G: Gate>(
    scanning: &Scanning<R, G>,
    store: &mut S,
    calls: &mut W,
    entries: &[Listed],
    buffer: &mut Vec<u8>,
    batch: &mut Batch,
) -> Result<VecDeque<Seen>, AllocError>
    requires empty { batch.old.filled ≡ 0 }
    ensures folder { W.folder calls.new ≡ W.folder calls.old }
    ensures sees { Sees (W.view calls.old) (W.view calls.new) }
    ensures within { IfOk result (λ _. batch.new.filled ≤ length buffer.new.items) }
    ensures seen { IfOk result (λ seen. (k : ℕ) × AllZip (IsSeen (HasBytes (take batch.new.filled buffer.new.items) batch.new.cuts.items)
        (W.view calls.old) (W.view calls.new)
        (MayFindSince S.gives (G.shown scanning.now.gate.now S W) W.view store.old (IsTrue S.keeps) (S.tree store.old)) (Fails S.gives))
        (take k (map (λ e. e.name) entries.now)) seen.items) }
    ensures looks { LooksOnly S.gives store.old store.new }
    ensures kept { S.keeps ≡ true → S.tree store.new ≡ S.tree store.old }
{
    let mut seen = VecDeque::with_capacity(scanning.alloc, MAX_NAMES)?;
    for entry in entries {
        if seen.len() == MAX_NAMES || batch.filled > MAX_BYTES - MAX_PART {
            return Ok(seen);
        }
        let next = see(store, calls, scanning.gate, &entry.name, buffer, batch)?;
        seen.push_back(next)?;
    }
    Ok(seen)
}

// Reads the local record of a name, and then what is there.
fn see<S: FileStore, W: FolderCalls, G: Gate>(
    store: &mut S,
    calls: &mut W,
    gate: &G,
    name: &SafeName,
    buffer: &mut Vec<u8>,
    batch: &mut Batch,
) -> Result<Seen, AllocError>
    requires within { batch.old.filled ≤ length buffer.old.items }
    requires room { batch.old.filled ≤ 2 ^ 26 }
    ensures folder { W.folder calls.new ≡ W.folder calls.old }
    ensures sees { Sees (W.view calls.old) (W.view calls.new) }
    ensures within { IfOk result (λ _. batch.new.filled ≤ length buffer.new.items) }
    ensures bytes { IfOk result (λ _. IsPrefix (take batch.old.filled buffer.old.items) (take batch.new.filled buffer.new.items)) }
    ensures cuts { IfOk result (λ _. IsPrefix batch.old.cuts.items batch.new.cuts.items) }
    ensures seen { IfOk result (IsSeen (HasBytes (take batch.new.filled buffer.new.items) batch.new.cuts.items)
        (W.view calls.old) (W.view calls.new)
        (MayFindSince S.gives (G.shown gate.now S W) W.view store.old (IsTrue S.keeps) (S.tree store.old)) (Fails S.gives) name.now) }
    ensures looks { LooksOnly S.gives store.old store.new }
    ensures kept { S.keeps ≡ true → S.tree store.new ≡ S.tree store.old }
{
    gate.at(GatePlace::FolderCall);
    let local = calls.local(name)?.value;
    gate.show(store, calls);
    let sight = sight_of(store, gate, name, local.as_ref(), buffer, batch)?;
    Ok(Seen { local, sight })
}

// What is at a name. A file of up to 8 MiB is read, unless it is to be cut by another block size than that of new files.
fn sight_of<S: FileStore, G: Gate>(
    store: &mut S,
    gate: &G,
    name: &SafeName,
    local: Option<&Record>,
    buffer: &mut Vec<u8>,
    batch: &mut Batch,
) -> Result<Sight, AllocError>
    requires within { batch.old.filled ≤ length buffer.old.items }
    requires room { batch.old.filled ≤ 2 ^ 26 }
    ensures within { IfOk result (λ _. batch.new.filled ≤ length buffer.new.items) }
    ensures bytes { IfOk result (λ _. IsPrefix (take batch.old.filled buffer.old.items) (take batch.new.filled buffer.new.items)) }
    ensures cuts { IfOk result (λ _. IsPrefix batch.old.cuts.items batch.new.cuts.items) }
    ensures sight { (first : S) → LooksOnly S.gives first store.old →
        IfOk result (SightIs (HasBytes (take batch.new.filled buffer.new.items) batch.new.cuts.items)
        (MayFind (Since S.gives first) (IsTrue S.keeps) (S.tree store.old) name.now (option_copied local.entry))
        (Fails S.gives name.now)) }
    ensures looks { LooksOnly S.gives store.old store.new }
    ensures kept { S.keeps ≡ true → S.tree store.new ≡ S.tree store.old }
{
    gate.at(GatePlace::StoreRead);
    match store.stat(name) {
        Ok(stat) => sight_of_file(store, gate, name, local, stat, buffer, batch),
        Err(refusal) => Ok(Sight::Failed(refusal)),
    }
}

// What was said to be at a name. A file is read if it has up to 8 MiB and is to be cut by the block size of new files.
#[tactic(auto, using(crate::proofs::LookLemmas::no_look))]
fn sight_of_file<S: FileStore, G: Gate>(
    store: &mut S,
    gate: &G,
    name: &SafeName,
    local: Option<&Record>,
    stat: Stat,
    buffer: &mut Vec<u8>,
    batch: &mut Batch,
) -> Result<Sight, AllocError>
    requires within { batch.old.filled ≤ length buffer.old.items }
    requires room { batch.old.filled ≤ 2 ^ 26 }
    ensures within { IfOk result (λ _. batch.new.filled ≤ length buffer.new.items) }
    ensures bytes { IfOk result (λ _. IsPrefix (take batch.old.filled buffer.old.items) (take batch.new.filled buffer.new.items)) }
    ensures cuts { IfOk result (λ _. IsPrefix batch.old.cuts.items batch.new.cuts.items) }
    ensures sight { (first : S) → LooksOnly S.gives first store.old → Says (Since S.gives first) name.now stat →
        (IsTrue S.keeps → stat ≡ stat_of ((S.tree store.old).names name.now)) →
        IfOk result (SightIs (HasBytes (take batch.new.filled buffer.new.items) batch.new.cuts.items)
        (MayFind (Since S.gives first) (IsTrue S.keeps) (S.tree store.old) name.now (option_copied local.entry))
        (Fails S.gives name.now)) }
    ensures looks { LooksOnly S.gives store.old store.new }
    ensures kept { S.keeps ≡ true → S.tree store.new ≡ S.tree store.old }
{
    let Stat::File(size, modified) = stat else {
        return Ok(Sight::Later);
    };
    let own = block_size_for(size);
    if size > MAX_PART as u64 {
        return Ok(Sight::Later);
    }
    if recorded_block_size(local, size).unwrap_or(own) != own {
        return Ok(Sight::Later);
    }
    read_part(store, gate, name, size as usize, modified, buffer, batch)
}

// Reads a file of this size.
#[tactic(auto, using(crate::proofs::LookLemmas::no_look))]
fn read_part<S: FileStore, G: Gate>(
    store: &mut S,
    gate: &G,
    name: &SafeName,
    size: usize,
    modified: Moment,
    buffer: &mut Vec<u8>,
    batch: &mut Batch,
) -> Result<Sight, AllocError>
    requires small { size ≤ 2 ^ 23 }
    requires within { batch.old.filled ≤ length buffer.old.items }
    requires room { batch.old.filled ≤ 2 ^ 26 }
    ensures within { IfOk result (λ _. batch.new.filled ≤ length buffer.new.items) }
    ensures bytes { IfOk result (λ _. IsPrefix (take batch.old.filled buffer.old.items) (take batch.new.filled buffer.new.items)) }
    ensures cuts { IfOk result (λ _. IsPrefix batch.old.cuts.items batch.new.cuts.items) }
    ensures read { (first : S) → LooksOnly S.gives first store.old →
        IfOk result (SightIs (λ part bytes. HasBytes (take batch.new.filled buffer.new.items) batch.new.cuts.items part bytes
        × (part.size ≡ size) × (part.modified ≡ modified)
        × ReadsWhole (Since S.gives first) name.now bytes
        × (S.keeps ≡ true → bytes ≡ bytes_of ((S.tree store.old).names name.now)))
        (λ look. (look ≡ Changing → ReadsOther (Since S.gives first) name.now size
        × (S.keeps ≡ true → length (bytes_of ((S.tree store.old).names name.now)) ≢ size)))
        (Fails S.gives name.now)) }
    ensures looks { LooksOnly S.gives store.old store.new }
    ensures kept { S.keeps ≡ true → S.tree store.new ≡ S.tree store.old }
{
    let (start, first) = (batch.filled, batch.cuts.len());
    let end = start + size;
    grow(buffer, end)?;
    match read_whole(store, gate, name, &mut buffer[start..end]) {
        Ok(true) => {}
        Ok(false) => return Ok(Sight::Changing),
        Err(refusal) => return Ok(Sight::Failed(refusal)),
    }
    let block_size = block_size_for(size as u64);
    push_cuts(&mut batch.cuts, start, size, block_size)?;
    batch.filled = end;
    Ok(Sight::Read(Part {
        start,
        size,
        modified,
        first,
    }))
}

// Adds bytes so that the buffer has so many.
fn grow(buffer: &mut Vec<u8>, len: usize) -> Result<(), AllocError>
    ensures grown { OnOk result (len ≤ length buffer.new.items) }
    ensures front { OnOk result (IsPrefix buffer.old.items buffer.new.items) }
{
    if len <= buffer.len() {
        return Ok(());
    }
    buffer.resize(len, 0)
}

// Reads a file that is as long as the buffer. Returns whether it is.
fn read_whole<S: FileStore, G: Gate>(
    store: &mut S,
    gate: &G,
    name: &SafeName,
    part: &mut [u8],
) -> Result<bool, StoreRefusal>
    requires { length part.old < 2 ^ 63 }
    ensures read { (first : S) → LooksOnly S.gives first store.old →
        result ≡ Ok true → ReadsWhole (Since S.gives first) name.now part.new }
    ensures there { result ≡ Ok true → S.keeps ≡ true →
        part.new ≡ bytes_of ((S.tree store.old).names name.now) }
    ensures other { (first : S) → LooksOnly S.gives first store.old →
        result ≡ Ok false → ReadsOther (Since S.gives first) name.now (length part.old) }
    ensures looks { LooksOnly S.gives store.old store.new }
    ensures not_there { result ≡ Ok false → S.keeps ≡ true →
        length (bytes_of ((S.tree store.old).names name.now)) ≢ length part.old }
    ensures failed { IfErr result (Fails S.gives name.now) }
    ensures kept { S.keeps ≡ true → S.tree store.new ≡ S.tree store.old }
{
    let size = part.len();
    if read_full(store, gate, name, 0, part)? < size {
        return Ok(false);
    }
    if read_full(store, gate, name, size as u64, &mut [0])? > 0 {
        return Ok(false);
    }
    Ok(true)
}
