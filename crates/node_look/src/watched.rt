//! The looks at a folder, each as often as it is to be.
use crate::finder::{Finder, Scope};
use crate::first::first_names;
use crate::known::know_placed;
use crate::look::{Found, Look};
use crate::names::Names;
use crate::restless::DueName;
use crate::scans::{Looker, scan_ready};
use file_store::{FileStore, Gate};
use folder_calls::FolderCalls;
use folder_look::Looking;
use node_context::{Context, Event, Host, ScanEvent};
use node_files::{Marked, Whereabouts};
use node_folder::{Noticed, look_at_folder};
use std::alloc::{AllocError, Global};
use std::time::{Clock, Duration};
use sync_names::SafeName;

/// How many milliseconds pass before it is looked once more whether the names of a folder are there of which none was.
const HELD_MILLIS: u64 = 60_000;

/// How many pass before it is looked once more whether a folder is back that was away.
const AWAY_MILLIS: u64 = 1000;

/// How many milliseconds lie between two looks at what scans and pulls told, and at names that changed.
const STEP: u64 = 250;

/// A folder, for who looks at it.
#[derive(Drop)]
pub struct WatchedFolder<'x, S, W> {
    // The first of them looks.
    lookers: Vec<Looker<'x, S, W>>,
    look: Look,
    names: Names,
    // When its directories, and all entries, are looked at next, in milliseconds since an arbitrary start; never, where looks are off.
    directories_due: Option<u64>,
    all_due: Option<u64>,
}

impl<'x, S, W> WatchedFolder<'x, S, W> {
    /// A folder that was not looked at yet, whose names these scan. Does not allocate.
    pub fn new(alloc: Global, lookers: Vec<Looker<'x, S, W>>) -> WatchedFolder<'x, S, W> {
        WatchedFolder {
            lookers,
            look: Look::none(alloc),
            names: Names::none(alloc),
            directories_due: None,
            all_due: None,
        }
    }
}

/// Looks at a folder for the first time, before anything else is done with it, and scans the names that may have changed while nobody looked. What changes from
/// now on is seen.
pub fn begin_looks<'x, R, S, W, G>(cx: &Context<'x, R, G>, folder: &mut WatchedFolder<'x, S, W>)
where
    R: Host,
    S: FileStore + Marked + Drop + Send,
    W: FolderCalls + Drop + Send,
    G: Gate + Sync,
{
    // (out of memory, or where it is away, it is looked at later)
    let _ = look_first(cx, folder);
}

/// Looks at the folder as often as it is to be, and has the names that changed scanned, until the node stops.
pub fn run_looks<'x, R, S, W, G>(cx: &Context<'x, R, G>, folder: &mut WatchedFolder<'x, S, W>)
where
    R: Host,
    S: FileStore + Marked + Drop + Send,
    W: FolderCalls + Drop + Send,
    G: Gate + Sync,
{
    for _ in cx.rt.forever() {
        if cx.pause_for(Duration::from_millis(STEP)) {
            return;
        }
        // (out of memory, what is not told now waits for the next change of it, or the next scan of all)
        let _ = step(cx, folder);
    }
}

// The milliseconds since an arbitrary start.
fn milliseconds<R: Clock>(rt: &R) -> u64 {
    match rt.monotonic() {
        Ok(time) => u64::try_from(time.as_millis()).unwrap_or(u64::MAX),
        Err(_) => 0,
    }
}

// Looks for the first time, unless the folder isn't there, or is held.
fn look_first<'x, R, S, W, G>(
    cx: &Context<'x, R, G>,
    folder: &mut WatchedFolder<'x, S, W>,
) -> Result<(), AllocError>
where
    R: Host,
    S: FileStore + Marked + Drop + Send,
    W: FolderCalls + Drop + Send,
    G: Gate + Sync,
{
    let WatchedFolder {
        lookers,
        look,
        names,
        directories_due,
        all_due,
    } = folder;
    let Some(looker) = lookers.first_mut() else {
        return Ok(());
    };
    let worker = &mut looker.worker;
    let settings = &worker.folder.settings;
    if settings.looking == Looking::Off {
        worker.folder.notes.see(cx.rt);
        return Ok(());
    }
    let began = milliseconds(cx.rt);
    match look_at_folder(cx, worker) {
        Whereabouts::There => {}
        Whereabouts::Held => {
            *directories_due = after(began, Some(HELD_MILLIS));
            return Ok(());
        }
        _ => return Ok(()),
    }
    let found = find(cx, &worker.store, settings.path.as_str(), look, Scope::All)?;
    if worker.look(cx.rt) != Whereabouts::There || found.is_empty() {
        return Ok(());
    }
    look.take(found)?;
    cx.tell(&Event::Scan(settings.id.as_str(), ScanEvent::Looked));
    let now = milliseconds(cx.rt);
    let took = u32::try_from(now.saturating_sub(began)).unwrap_or(u32::MAX);
    *all_due = after(now, settings.looking.pause_of_all(look.len(), took));
    *directories_due = after(
        now,
        settings
            .looking
            .pause_of_directories(look.directories.len() as u64, took),
    );
    worker.folder.notes.see(cx.rt);
    let first = first_names(look, &mut worker.calls)?;
    if !first.is_empty() {
        let left = scan_ready(cx, lookers.as_mut_slice(), first)?;
        names.add_left(left, now)?;
    }
    Ok(())
}

// So many milliseconds after a time.
fn after(now: u64, pause: Option<u64>) -> Option<u64> {
    Some(now.saturating_add(pause?))
}

// What is to be done now.
fn step<'x, R, S, W, G>(
    cx: &Context<'x, R, G>,
    folder: &mut WatchedFolder<'x, S, W>,
) -> Result<(), AllocError>
where
    R: Host,
    S: FileStore + Marked + Drop + Send,
    W: FolderCalls + Drop + Send,
    G: Gate + Sync,
{
    let now = milliseconds(cx.rt);
    let Some(looker) = folder.lookers.first_mut() else {
        return Ok(());
    };
    let is_seen = looker.worker.folder.notes.is_seen(cx.rt);
    let Noticed { placed, asked } = looker.worker.folder.notes.take(cx.rt);
    folder.names.ask(asked)?;
    if !is_seen {
        return match folder.directories_due {
            Some(due) if now < due => Ok(()),
            _ => look_first(cx, folder),
        };
    }
    let ready = look_again(cx, folder, placed, now)?;
    if !ready.is_empty() {
        let left = scan_if_there(cx, folder.lookers.as_mut_slice(), ready)?;
        folder.names.add_left(left, milliseconds(cx.rt))?;
    }
    Ok(())
}

// Scans names, where the folder is there. Returns those that are to be scanned once more.
fn scan_if_there<'x, R, S, W, G>(
    cx: &Context<'x, R, G>,
    lookers: &mut [Looker<'x, S, W>],
    ready: Vec<DueName>,
) -> Result<Vec<DueName>, AllocError>
where
    R: Host,
    S: FileStore + Marked + Drop + Send,
    W: FolderCalls + Drop + Send,
    G: Gate + Sync,
{
    let is_there = match lookers.first_mut() {
        Some(looker) => looker.worker.look(cx.rt) == Whereabouts::There,
        None => false,
    };
    if !is_there {
        return Ok(ready);
    }
    scan_ready(cx, lookers, ready)
}

// Whether it is time.
fn is_due(due: Option<u64>, now: u64) -> bool {
    match due {
        Some(due) => due <= now,
        None => false,
    }
}

// Looks at the folder, where that is due, and at names that changed. Returns those that are to be scanned now.
fn look_again<'x, R, S, W, G>(
    cx: &Context<'x, R, G>,
    folder: &mut WatchedFolder<'x, S, W>,
    placed: Vec<SafeName>,
    now: u64,
) -> Result<Vec<DueName>, AllocError>
where
    R: Host,
    S: FileStore + Marked,
    W: FolderCalls,
{
    let WatchedFolder {
        lookers,
        look,
        names,
        directories_due,
        all_due,
    } = folder;
    let Some(looker) = lookers.first_mut() else {
        return Ok(Vec::new(cx.alloc));
    };
    let worker = &mut looker.worker;
    let settings = &worker.folder.settings;
    let path = settings.path.as_str();
    let ready = settle(
        cx,
        &worker.store,
        path,
        &mut worker.calls,
        names,
        placed,
        now,
    )?;
    let is_all = is_due(*all_due, now);
    if is_all || is_due(*directories_due, now) {
        let at = look_at_folder(cx, worker);
        if at != Whereabouts::There {
            let later = after(now, Some(pause_of(at)));
            *directories_due = later;
            if is_all {
                *all_due = later;
            }
            return Ok(ready);
        }
        let scope = if is_all {
            Scope::All
        } else {
            Scope::Directories
        };
        let found = find(cx, &worker.store, path, look, scope)?;
        let ended = milliseconds(cx.rt);
        let took = u32::try_from(ended.saturating_sub(now)).unwrap_or(u32::MAX);
        if worker.look(cx.rt) == Whereabouts::There {
            names.add(look.changes(found.as_slice())?, now)?;
            look.take(found)?;
            cx.tell(&Event::Scan(settings.id.as_str(), ScanEvent::Looked));
        }
        if is_all {
            names.known.clear();
            *all_due = after(ended, settings.looking.pause_of_all(look.len(), took));
        }
        let count = look.directories.len() as u64;
        *directories_due = after(ended, settings.looking.pause_of_directories(count, took));
    }
    if all_due.is_none() {
        names.known.clear();
    }
    Ok(ready)
}

// How many milliseconds pass before a folder that is away or held is looked at again.
fn pause_of(at: Whereabouts) -> u64 {
    match at {
        Whereabouts::Held => HELD_MILLIS,
        _ => AWAY_MILLIS,
    }
}

// What a look finds.
fn find<R: Host, S: Marked, G>(
    cx: &Context<R, G>,
    store: &S,
    path: &str,
    look: &Look,
    scope: Scope,
) -> Result<Vec<Found>, AllocError> {
    let mut finder = Finder::new(cx, store, path);
    finder.look(look, scope)
}

// The names that are to be scanned now, after pulls have put files at these.
fn settle<R: Host, S: Marked, W: FolderCalls, G>(
    cx: &Context<R, G>,
    store: &S,
    path: &str,
    calls: &mut W,
    names: &mut Names,
    placed: Vec<SafeName>,
    now: u64,
) -> Result<Vec<DueName>, AllocError> {
    let mut finder = Finder::new(cx, store, path);
    know_placed(&mut names.known, &mut finder, calls, placed)?;
    names.settle(&mut finder, now)
}
