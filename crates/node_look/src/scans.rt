//! The scans of names that a look told.
use crate::restless::DueName;
use file_store::{FileStore, Gate, StoreRefusal};
use folder_calls::FolderCalls;
use folder_core::ScanAnswer;
use node_context::{Context, Event, Host, ScanEvent, SkipWhy};
use node_files::{Marked, Whereabouts};
use node_folder::{FolderWorker, is_left_over, is_recorded};
use std::alloc::{AllocError, Global};
use std::mem::replace;
use std::thread::for_each_mut;
use sync_names::SafeName;
use sync_scan::{ScanSum, Scanned, scan_name};
use sync_version::Moment;

/// How many threads scan names of a folder that changed at once.
pub const LOOKERS: usize = 4;

/// From how many names on one more thread scans.
const NAMES_A_THREAD: usize = 64;

/// What one thread scans names of a folder with.
#[derive(Drop)]
pub struct Looker<'x, S, W> {
    pub(crate) worker: FolderWorker<'x, S, W>,
    ready: Vec<DueName>,
    sum: ScanSum,
}

impl<'x, S, W> Looker<'x, S, W> {
    /// One that has scanned nothing yet. Does not allocate.
    pub fn new(alloc: Global, worker: FolderWorker<'x, S, W>) -> Looker<'x, S, W> {
        Looker {
            worker,
            ready: Vec::new(alloc),
            sum: NOTHING,
        }
    }
}

// Nothing was scanned.
const NOTHING: ScanSum = ScanSum {
    recorded: 0,
    unchanged: 0,
    other: 0,
    stopped: None,
};

/// Scans names, by several threads where there are many. Returns those that are to be scanned once more. What was recorded is told.
pub(crate) fn scan_ready<'x, R, S, W, G>(
    cx: &Context<'x, R, G>,
    lookers: &mut [Looker<'x, S, W>],
    ready: Vec<DueName>,
) -> Result<Vec<DueName>, AllocError>
where
    R: Host,
    S: FileStore + Marked + Drop + Send,
    W: FolderCalls + Drop + Send,
    G: Gate + Sync,
{
    let Some(moment) = moment_for(cx, lookers) else {
        return Ok(ready);
    };
    let threads = (ready.len() / NAMES_A_THREAD + 1).min(lookers.len());
    let Some(lookers) = lookers.get_mut(..threads) else {
        return Ok(ready);
    };
    share_out(lookers, ready)?;
    for_each_mut(
        cx.rt,
        lookers,
        threads.max(1),
        &|_, looker| scan_share(cx, looker, moment),
    );
    gather(cx, lookers)
}

// The moment of scans that begin now.
fn moment_for<R: Host, S, W, G>(cx: &Context<R, G>, lookers: &[Looker<S, W>]) -> Option<Moment> {
    let looker = lookers.first()?;
    Some(looker.worker.folder.times.next(cx))
}

// Gives each the next of the names, as many to each.
fn share_out<S, W>(lookers: &mut [Looker<S, W>], ready: Vec<DueName>) -> Result<(), AllocError> {
    let share = ready.len() / lookers.len().max(1) + 1;
    let mut place = 0usize;
    for one in ready {
        if let Some(looker) = lookers.get_mut(place / share) {
            looker.ready.push(one)?;
        }
        place = place.saturating_add(1);
    }
    Ok(())
}

// Scans the names of one of them.
fn scan_share<'x, R, S, W, G>(cx: &Context<'x, R, G>, looker: &mut Looker<'x, S, W>, moment: Moment)
where
    R: Host,
    S: FileStore + Marked,
    W: FolderCalls,
    G: Gate,
{
    let Looker { worker, ready, sum } = looker;
    for one in ready.iter_mut() {
        if cx.is_stopping() {
            return;
        }
        let scanned = scan_one(cx, worker, &one.name, moment);
        one.is_left = is_left_over(&scanned);
        if !one.is_left {
            note_skip(cx, worker, &one.name, SkipWhy::of(&scanned));
        }
        count(sum, &scanned);
    }
}

// Notes why a name was left out, if it was. (What a folder that went away or a node that stops comes to says nothing of the name.)
fn note_skip<R: Host, S: Marked, W, G>(
    cx: &Context<R, G>,
    worker: &mut FolderWorker<S, W>,
    name: &SafeName,
    why: Option<SkipWhy>,
) {
    if why.is_some() && (cx.is_stopping() || worker.store.look() != Whereabouts::There) {
        return;
    }
    let folder = worker.folder;
    folder.skips.note(cx, folder.id(), name, why);
}

// Scans a name. That a change of it was recorded is told.
fn scan_one<'x, R, S, W, G>(
    cx: &Context<'x, R, G>,
    worker: &mut FolderWorker<'x, S, W>,
    name: &SafeName,
    moment: Moment,
) -> Result<Scanned, StoreRefusal>
where
    R: Host,
    S: FileStore,
    W: FolderCalls,
    G: Gate,
{
    let FolderWorker {
        folder,
        store,
        calls,
    } = worker;
    let scanned = scan_name(cx.rt, cx.alloc, store, calls, cx.gate, name, moment);
    if is_recorded(&scanned) {
        cx.tell(&Event::Scan(folder.id(), ScanEvent::Recorded(name)));
    }
    scanned
}

fn count(sum: &mut ScanSum, scanned: &Result<Scanned, StoreRefusal>) {
    match scanned {
        Ok(Scanned::Answered(Ok(ScanAnswer::Recorded(_)))) => {
            sum.recorded = sum.recorded.saturating_add(1);
        }
        Ok(Scanned::Answered(Ok(ScanAnswer::Unchanged))) => {
            sum.unchanged = sum.unchanged.saturating_add(1);
        }
        _ => sum.other = sum.other.saturating_add(1),
    }
}

// Tells what they recorded. Returns the names that are to be scanned once more.
fn gather<R: Host, S, W, G>(
    cx: &Context<R, G>,
    lookers: &mut [Looker<S, W>],
) -> Result<Vec<DueName>, AllocError> {
    let mut left = Vec::new(cx.alloc);
    let mut all = NOTHING;
    for looker in lookers.iter_mut() {
        let sum = replace(&mut looker.sum, NOTHING);
        all.recorded = all.recorded.saturating_add(sum.recorded);
        all.unchanged = all.unchanged.saturating_add(sum.unchanged);
        all.other = all.other.saturating_add(sum.other);
        for one in replace(&mut looker.ready, Vec::new(cx.alloc)) {
            if one.is_left {
                left.push(one)?;
            }
        }
    }
    if all.recorded > 0 {
        if let Some(looker) = lookers.first() {
            cx.tell(&Event::Scan(looker.worker.folder.id(), ScanEvent::Scanned(all)));
        }
    }
    Ok(left)
}
