//! Whether a folder is there, away or held, and what is recorded of it with it.
ghost use Rattle.std.specs.Prelude.{◌≡◌, ◌↔◌, ◌≢◌, IsTrue};
ghost use Rattle.node_files.specs.declared.marked.Whereabouts.TheVariants.{Unknown};
ghost use Rattle.node_folder.specs.Held.{is_back, is_lost};

use crate::folder::{FolderWorker, NodeFolder};
use file_store::{FileStore, Stat};
use folder_calls::FolderCalls;
use node_context::{Context, Event, ScanEvent};
use node_files::{Marked, Whereabouts};
use std::alloc::AllocError;
use std::sync::{Mutex, Wait};
use std::time::Clock;

/// How many names must be recorded of a folder for it to wait where none of them is there. Where it is doubted one is enough.
const MIN_NAMES: u64 = 10;

/// One that waits is back once one name of so many is missing at most.
const NAMES_A_MISSING: u64 = 10;

/// How many records are read at once.
const PAGE_RECORDS: usize = 64;

/// Where a folder is, as it was told last, and whether its names were looked for since it came, for all threads.
#[derive(Drop)]
pub struct Presence {
    told: Mutex<Told>,
}

// What stands under the lock.
#[derive(Drop)]
struct Told {
    at: Whereabouts,
    // Whether it waits even where one name is recorded: it was away before, or nobody says whose its marker is.
    is_doubted: bool,
    is_checked: bool,
    is_held: bool,
}

impl Presence {
    /// It is taken to be there, and nobody looked for its names yet. Does not allocate.
    pub fn new(is_doubted: bool) -> Presence {
        Presence {
            told: Mutex::new(Told {
                at: Whereabouts::There,
                is_doubted,
                is_checked: false,
                is_held: false,
            }),
        }
    }

    /// Whether its names were looked for since it came, and are there, or need not be.
    pub fn is_checked<R: Wait>(&self, rt: &R) -> bool {
        self.told.lock(rt).is_checked
    }

    /// Whether it was told that it waits, since none of its names is there.
    pub fn is_held<R: Wait>(&self, rt: &R) -> bool {
        self.told.lock(rt).is_held
    }

    // Its names are there, or need not be. Returns whether it waited.
    fn check<R: Wait>(&self, rt: &R) -> bool {
        let mut told = self.told.lock(rt);
        let was_held = told.is_held;
        told.is_checked = true;
        told.is_held = false;
        was_held
    }

    // Whether it waits even where one name is recorded.
    fn is_doubted<R: Wait>(&self, rt: &R) -> bool {
        self.told.lock(rt).is_doubted
    }

    // Takes where it is now. Returns whether that is news.
    fn take<R: Wait>(&self, rt: &R, at: Whereabouts) -> bool {
        let mut told = self.told.lock(rt);
        if !is_news(told.at, at) {
            return false;
        }
        told.at = at;
        told.is_doubted = true;
        told.is_checked = false;
        told.is_held = false;
        true
    }

    // It waits. Returns whether that is news.
    fn hold<R: Wait>(&self, rt: &R) -> bool {
        let mut told = self.told.lock(rt);
        let is_news = !told.is_held;
        told.is_held = true;
        is_news
    }
}

// Whether it is to be told that a folder is there or not, after this was told last.
fn is_news(told: Whereabouts, at: Whereabouts) -> bool
    ensures { IsTrue result ↔ ((at ≢ told) × (at ≢ Unknown)) }
{
    at != told && at != Whereabouts::Unknown
}

/// The names of the folder are there, or need not be. Where it waited, that it is back is told.
pub fn release<R: Clock + Wait, G>(cx: &Context<R, G>, folder: &NodeFolder) {
    if folder.presence.check(cx.rt) {
        cx.tell(&Event::Scan(folder.id(), ScanEvent::Back));
    }
}

/// Whether the folder is there, for a pull: one that came while nobody looked at it is looked at now. O(n) for n recorded names then, and else O(1).
pub fn is_there<R, S, W, G>(cx: &Context<R, G>, worker: &mut FolderWorker<S, W>) -> bool
where
    R: Clock + Wait,
    S: FileStore + Marked,
    W: FolderCalls,
{
    match worker.look(cx.rt) {
        Whereabouts::There => true,
        // (one that waits is looked at now and then, by who scans it)
        Whereabouts::Held if !worker.folder.presence.is_held(cx.rt) => {
            look_at_folder(cx, worker) == Whereabouts::There
        }
        _ => false,
    }
}

/// Where the folder is now, which is told where it is news. One of whose names that are recorded none is there is held, where there are ten or more of them at the
/// start, or any where it came back or nobody says whose its marker is: that is told too, and so is its end, once nine of ten are there. O(n) for n such names, and else O(1).
pub fn look_at_folder<R, S, W, G>(
    cx: &Context<R, G>,
    worker: &mut FolderWorker<S, W>,
) -> Whereabouts
where
    R: Clock + Wait,
    S: FileStore + Marked,
    W: FolderCalls,
{
    let folder = worker.folder;
    let at = worker.look(cx.rt);
    let found = match at {
        Whereabouts::Held => Whereabouts::There,
        at => at,
    };
    if folder.presence.take(cx.rt, found) {
        tell_whereabouts(cx, folder, found);
    }
    if found == Whereabouts::Away {
        // (only now: what comes back is doubted, and until then another directory in its place was away)
        worker.store.let_go();
    }
    if found != Whereabouts::There || folder.presence.is_checked(cx.rt) {
        return found;
    }
    if folder.presence.is_held(cx.rt) {
        return look_at_held(cx, worker);
    }
    let is_doubted = folder.presence.is_doubted(cx.rt);
    match names_lost(worker) {
        Ok(count) if !is_lost(count, is_doubted) => {
            release(cx, folder);
            Whereabouts::There
        }
        Ok(count) => {
            if folder.presence.hold(cx.rt) {
                let path = folder.settings.path.as_str();
                cx.tell(&Event::Scan(folder.id(), ScanEvent::Held(path, count)));
            }
            Whereabouts::Held
        }
        Err(AllocError) => Whereabouts::Unknown,
    }
}

// Where a folder is that waits: there, once its names are. One after another they may come back, as while a backup is read: what isn't there yet isn't gone.
fn look_at_held<R, S, W, G>(cx: &Context<R, G>, worker: &mut FolderWorker<S, W>) -> Whereabouts
where
    R: Clock + Wait,
    S: FileStore,
    W: FolderCalls,
{
    match are_back(worker) {
        Ok(true) => {
            release(cx, worker.folder);
            Whereabouts::There
        }
        Ok(false) => Whereabouts::Held,
        Err(AllocError) => Whereabouts::Unknown,
    }
}

fn tell_whereabouts<R: Clock + Wait, G>(cx: &Context<R, G>, folder: &NodeFolder, at: Whereabouts) {
    let event = match at {
        Whereabouts::There | Whereabouts::Unsettled => ScanEvent::Back,
        Whereabouts::Away => ScanEvent::Away(folder.settings.path.as_str()),
        Whereabouts::InUse => ScanEvent::InUse,
        Whereabouts::Held | Whereabouts::Unknown => return,
    };
    cx.tell(&Event::Scan(folder.id(), event));
}

// Whether a folder waits of which none of so many names is there.
fn is_lost(count: u64, is_doubted: bool) -> bool
    ensures { result ≡ is_lost count is_doubted }
{
    if is_doubted {
        count > 0
    } else {
        count >= MIN_NAMES
    }
}

// Whether a folder that waits is back, of whose names so many are missing, of so many.
fn is_back(missing: u64, all: u64) -> bool
    ensures { result ≡ is_back missing all }
{
    missing <= all / NAMES_A_MISSING
}

// Whether nearly all of the files and directories are there that are recorded. Reads on until too many are missing.
fn are_back<S: FileStore, W: FolderCalls>(
    worker: &mut FolderWorker<S, W>,
) -> Result<bool, AllocError> {
    let FolderWorker { store, calls, .. } = worker;
    let counts = calls.counts().value;
    let all = counts.files.saturating_add(counts.directories);
    let (mut missing, mut after) = (0u64, 0u64);
    for _ in 0..u64::MAX {
        let page = calls.local_since(after, PAGE_RECORDS)?.value;
        let Some(last) = page.as_slice().last() else {
            break;
        };
        after = last.sequence();
        for record in page.as_slice() {
            if !record.is_deleted() && matches!(store.stat(record.name()), Ok(Stat::Missing)) {
                missing = missing.saturating_add(1);
            }
        }
        if !is_back(missing, all) {
            return Ok(false);
        }
    }
    Ok(true)
}

// How many files and directories are recorded, where none of them is there; 0 where one is, or may be.
fn names_lost<S: FileStore, W: FolderCalls>(
    worker: &mut FolderWorker<S, W>,
) -> Result<u64, AllocError> {
    let FolderWorker { store, calls, .. } = worker;
    let (mut count, mut after) = (0u64, 0u64);
    for _ in 0..u64::MAX {
        let page = calls.local_since(after, PAGE_RECORDS)?.value;
        let Some(last) = page.as_slice().last() else {
            break;
        };
        after = last.sequence();
        for record in page.as_slice() {
            if record.is_deleted() {
                continue;
            }
            if !matches!(store.stat(record.name()), Ok(Stat::Missing)) {
                return Ok(0);
            }
            count = count.saturating_add(1);
        }
    }
    Ok(count)
}
