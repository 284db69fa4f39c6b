//! The scan of all names.
ghost use Rattle.std.specs.Prelude.{◌≡◌, [], IsTrue, List, None, Some, false, map, true};
ghost use Rattle.file_store.specs.Listings.{AreAscending, IsListing};
ghost use Rattle.file_store.specs.Sequences.{LooksOnly};
ghost use Rattle.file_store.specs.declared.node.Listing.{Listing};
ghost use Rattle.sync_scan.specs.AllNames.{GoesOver, HasListed, ScansAll, ScansEach, ScansOne, Tried, UnlessBelow, is_below_any, sum_after};
ghost use Rattle.sync_scan.specs.Looks.{MayFindSince};
ghost use Rattle.sync_scan.specs.Told.{Fails};
ghost use Rattle.sync_scan.specs.Stops.{IsFaultCounted, empty_sum};
ghost use Rattle.sync_scan.specs.declared.sum.ScanStop.TheVariants.{StoreFault};

use crate::ahead::{Ahead, Turn, next_seen};
use crate::missing::missing_names;
use crate::name::{scan_one, scan_seen};
use crate::scanning::Scanning;
use crate::sum::stop_by;
use crate::{Progress, ScanStop, ScanSum, Scanned};
use file_store::{FileStore, Gate, Listed, StoreRefusal, is_below};
use folder_calls::FolderCalls;
use std::alloc::{AllocError, Global};
use std::thread::Threads;
use sync_names::SafeName;
use sync_version::Moment;

/// Scans all names of the store, in byte order, and then those of which the folder has a live local record and that the store
/// does not list, in byte order.
///
/// What stands below a directory that could not be read is skipped: it is not recorded as deleted. `SequenceFull`,
/// `HistoryFull`, out of memory and a store that cannot list its names stop the scan; what was recorded before stays. Anything
/// else but `Recorded` and `Unchanged` counts as other.
///
/// One buffer of at most 64 MiB, or one block, serves all files. O(n log n) for n names, and the time to read all files.
pub fn scan_all<S: FileStore, W: FolderCalls, G: Gate, P: Progress>(
    rt: &(impl Threads + Sync),
    alloc: Global,
    store: &mut S,
    calls: &mut W,
    gate: &G,
    moment: Moment,
    progress: &mut P,
) -> ScanSum
    ensures folder { W.folder calls.new ≡ W.folder calls.old }
    // One relation over the whole scan: how the store lists, what may be found at a name, and what fails are handed in.
    ensures scans { ScansAll (HasListed S.gives (IsTrue S.keeps) (S.tree store.old) store.old)
        (MayFindSince S.gives (G.shown gate.now S W) W.view store.old (IsTrue S.keeps) (S.tree store.old))
        (Fails S.gives) (W.view calls.old) moment result (W.view calls.new) }
    ensures looks { LooksOnly S.gives store.old store.new }
    ensures faulted { result.stopped ≡ Some StoreFault →
        IsFaultCounted (S.fault_count store.old) (S.fault_count store.new) }
    ensures kept { S.keeps ≡ true → S.tree store.new ≡ S.tree store.old }
{
    let listing = match store.list() {
        Ok(listing) => listing,
        Err(refusal) => return ScanSum::new().stopped_by(stop_by(refusal)),
    };
    let scanning = Scanning {
        rt,
        alloc,
        gate,
        moment,
    };
    let mut buffer = Vec::new(alloc);
    let sum = scan_listed(
        &scanning,
        store,
        calls,
        &listing.entries,
        &mut buffer,
        progress,
    );
    if sum.stopped.is_some() {
        return sum;
    }
    match missing_names(alloc, calls, gate, &listing.entries) {
        Ok(names) => {
            let missing = Missing {
                names: &names,
                unread: &listing.unread,
            };
            scan_missing(
                &scanning,
                store,
                calls,
                &missing,
                &mut buffer,
                progress,
                sum,
            )
        }
        Err(AllocError) => sum.stopped_by(ScanStop::OutOfMemory),
    }
}

// Scans the listed names in their order, up to one that stops the scan.
fn scan_listed<S: FileStore, W: FolderCalls, R: Threads + Sync, G: Gate, P: Progress>(
    scanning: &Scanning<R, G>,
    store: &mut S,
    calls: &mut W,
    entries: &[Listed],
    buffer: &mut Vec<u8>,
    progress: &mut P,
) -> ScanSum
    ensures folder { W.folder calls.new ≡ W.folder calls.old }
    ensures scans { (tried : List Tried) × ScansEach (W.view calls.old) (W.view calls.old) scanning.now.moment
        (MayFindSince S.gives (G.shown scanning.now.gate.now S W) W.view store.old (IsTrue S.keeps) (S.tree store.old))
        (Fails S.gives) tried (W.view calls.new)
        × GoesOver (map (λ e. e.name) entries.now) tried result.stopped
        × (result ≡ sum_after empty_sum tried) }
    ensures looks { LooksOnly S.gives store.old store.new }
    ensures kept { S.keeps ≡ true → S.tree store.new ≡ S.tree store.old }
{
    let mut sum = ScanSum::new();
    let mut ahead = Ahead::none(scanning.alloc);
    for (index, entry) in entries.iter().enumerate() {
        let seen = next_seen(
            scanning,
            store,
            calls,
            &entries[index..],
            &mut ahead,
            buffer,
        );
        let turn = Turn {
            seen,
            blocks: &ahead.blocks,
        };
        let came_to = scan_seen(scanning, store, calls, &entry.name, turn, buffer, progress);
        sum.count(&came_to);
        progress.came_to(&entry.name, &came_to);
        progress.scanned(index as u64 + 1, entries.len() as u64);
        if sum.stopped.is_some() {
            return sum;
        }
    }
    sum
}

// The names that are not listed, and the directories that could not be read.
#[derive(Debug, Drop)]
struct Missing<'a> {
    names: &'a [SafeName],
    unread: &'a [SafeName],
}

// Scans the names that are not listed in their order, up to one that stops the scan. What stands below an unread directory is
// skipped.
fn scan_missing<S: FileStore, W: FolderCalls, R: Threads + Sync, G: Gate, P: Progress>(
    scanning: &Scanning<R, G>,
    store: &mut S,
    calls: &mut W,
    missing: &Missing,
    buffer: &mut Vec<u8>,
    progress: &mut P,
    sum: ScanSum,
) -> ScanSum
    requires { sum.stopped ≡ None }
    ensures folder { W.folder calls.new ≡ W.folder calls.old }
    ensures scans { (tried : List Tried) × ScansEach (W.view calls.old) (W.view calls.old) scanning.now.moment
        (UnlessBelow missing.now.unread.now (MayFindSince S.gives (G.shown scanning.now.gate.now S W) W.view store.old (IsTrue S.keeps) (S.tree store.old)))
        (Fails S.gives) tried (W.view calls.new)
        × GoesOver missing.now.names.now tried result.stopped
        × (result ≡ sum_after sum tried) }
    ensures looks { LooksOnly S.gives store.old store.new }
    ensures kept { S.keeps ≡ true → S.tree store.new ≡ S.tree store.old }
{
    let mut sum = sum;
    for name in missing.names {
        let scanned = scan_missing_name(
            scanning,
            store,
            calls,
            name,
            missing.unread,
            buffer,
            progress,
        );
        sum.count(&scanned);
        if sum.stopped.is_some() {
            return sum;
        }
    }
    sum
}

// Scans a name that is not listed, unless it is below an unread directory.
#[tactic(auto, using(crate::proofs::LookLemmas::no_look))]
fn scan_missing_name<S: FileStore, W: FolderCalls, R: Threads + Sync, G: Gate, P: Progress>(
    scanning: &Scanning<R, G>,
    store: &mut S,
    calls: &mut W,
    name: &SafeName,
    unread: &[SafeName],
    buffer: &mut Vec<u8>,
    progress: &mut P,
) -> Result<Scanned, StoreRefusal>
    ensures folder { W.folder calls.new ≡ W.folder calls.old }
    ensures scans { ScansOne (W.view calls.old) (W.view calls.old) name.now scanning.now.moment
        (UnlessBelow unread.now (MayFindSince S.gives (G.shown scanning.now.gate.now S W) W.view store.old (IsTrue S.keeps) (S.tree store.old)) name.now)
        (Fails S.gives name.now) result (W.view calls.new) }
    ensures looks { LooksOnly S.gives store.old store.new }
    ensures kept { S.keeps ≡ true → S.tree store.new ≡ S.tree store.old }
{
    if is_below_any(unread, name) {
        return Ok(Scanned::Skipped);
    }
    let scanned = scan_one(scanning, store, calls, name, buffer, progress);
    progress.came_to(name, &scanned);
    scanned
}

// Whether the name is below one of the directories.
fn is_below_any(directories: &[SafeName], name: &SafeName) -> bool
    ensures { result ≡ is_below_any directories.now name.now }
{
    directories
        .iter()
        .any(|directory| is_below(name.as_str(), directory.as_str()))
}
