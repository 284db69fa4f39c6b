//! The scans of folders, when they are due or asked for, and what is told of them.
use crate::folder::FolderWorker;
use crate::left_over::{is_left_over, is_recorded};
use crate::notes::Notes;
use crate::presence::look_at_folder;
use crate::schedule::{FolderScan, ScanOutcome, ScanSchedule, spread};
use crate::skips::LeftOut;
use crate::trash::{TrashSchedule, first_turn};
use file_store::{FileStore, Gate, StoreRefusal};
use folder_calls::FolderCalls;
use node_context::{Connections, Context, Event, Host, Log, ScanEvent, moment};
use node_files::{Marked, Whereabouts};
use std::sync::Wait;
use std::time::Clock;
use sync_names::SafeName;
use sync_scan::{Progress, ScanSum, Scanned, scan_all};

/// How long nothing is scanned, where nothing is to be, before it is looked again whether the node stops. (A year: it is woken then.)
const NEVER_SECONDS: u64 = 31_536_000;

/// A folder, for the scanner.
#[derive(Drop)]
pub struct ScannedFolder<'x, S, W> {
    worker: FolderWorker<'x, S, W>,
    schedule: ScanSchedule,
    trash: TrashSchedule,
}

impl<'x, S, W> ScannedFolder<'x, S, W> {
    /// A folder that was not scanned yet.
    pub fn new(worker: FolderWorker<'x, S, W>) -> ScannedFolder<'x, S, W> {
        let settings = &worker.folder.settings;
        let schedule = ScanSchedule::new(spread(settings.rescan, settings.index_id));
        let trash = TrashSchedule::new(settings.trash_days);
        ScannedFolder {
            worker,
            schedule,
            trash,
        }
    }
}

/// Scans the folder again as often as it asks for, until the node stops.
pub fn run_scanner<R, S, W, G>(cx: &Context<R, G>, folder: &mut ScannedFolder<S, W>)
where
    R: Host,
    S: FileStore + Marked,
    W: FolderCalls,
    G: Gate,
{
    for _ in cx.rt.forever() {
        let turn = first_turn(folder.schedule.left(), folder.trash.left());
        let seconds = turn.unwrap_or(NEVER_SECONDS);
        if cx.pause(seconds) {
            return;
        }
        folder.schedule.pass(seconds);
        folder.trash.pass(seconds);
        scan_due(cx, folder);
        empty_trash(cx, folder);
    }
}

/// Scans the folder, if that is to be done now; at first it is.
pub fn scan_due<R, S, W, G>(cx: &Context<R, G>, folder: &mut ScannedFolder<S, W>)
where
    R: Host,
    S: FileStore + Marked,
    W: FolderCalls,
    G: Gate,
{
    if folder.schedule.is_due() {
        let outcome = scan_if_there(cx, folder);
        folder.schedule.settle(outcome);
    }
}

// Removes the folder's old versions, if that is to be done now, and tells how many there were. Where the folder is away, that is tried again in an hour.
fn empty_trash<R, S, W, G>(cx: &Context<R, G>, folder: &mut ScannedFolder<S, W>)
where
    R: Host,
    S: FileStore + Marked,
    W: FolderCalls,
    G: Gate,
{
    let Some(before) = folder.trash.take_turn(moment(cx.rt).seconds()) else {
        return;
    };
    if let Ok(count) = folder.worker.store.remove_versions(before) {
        if count > 0 {
            let settings = &folder.worker.folder.settings;
            let (id, days) = (settings.id.as_str(), settings.trash_days);
            cx.tell(&Event::Scan(id, ScanEvent::Emptied(count as u64, days)));
        }
    }
}

// Scans a folder, if it is there with its names, and was looked at, so that what changes while it is scanned is seen. Where what the last run left in it is to
// be looked at first, the node stops, to begin anew.
fn scan_if_there<R, S, W, G>(cx: &Context<R, G>, folder: &mut ScannedFolder<S, W>) -> ScanOutcome
where
    R: Host,
    S: FileStore + Marked,
    W: FolderCalls,
    G: Gate,
{
    match look_at_folder(cx, &mut folder.worker) {
        Whereabouts::There => {}
        Whereabouts::Unsettled => {
            cx.stop();
            return ScanOutcome::Away;
        }
        Whereabouts::Away | Whereabouts::Held | Whereabouts::InUse | Whereabouts::Unknown => {
            return ScanOutcome::Away;
        }
    }
    if !folder.worker.folder.notes.is_seen(cx.rt) {
        return ScanOutcome::Unseen;
    }
    scan_folder(cx, &mut folder.worker, true).outcome()
}

/// Scans all names of a folder, and keeps what is left out. What came of it is told, and how far it is, if `is_told`.
pub fn scan_folder<R, S, W, G>(
    cx: &Context<R, G>,
    worker: &mut FolderWorker<S, W>,
    is_told: bool,
) -> FolderScan
where
    R: Host,
    S: FileStore + Marked,
    W: FolderCalls,
    G: Gate,
{
    let FolderWorker {
        folder,
        store,
        calls,
    } = worker;
    let moment = folder.times.next(cx);
    let mut seen = Seen {
        rt: cx.rt,
        id: folder.id(),
        log: cx.log,
        is_told,
        left_out: LeftOut::new(cx),
        notes: &folder.notes,
        connections: cx.connections,
        count: 0,
        names: 0,
        listed: 0,
        bytes: 0,
    };
    seen.tell();
    let sum = scan_all(cx.rt, cx.alloc, store, calls, cx.gate, moment, &mut seen);
    let scan = FolderScan {
        sum,
        seen: seen.count,
    };
    let is_whole = scan.outcome() == ScanOutcome::Whole;
    if is_told {
        tell_scan(cx, folder.id(), sum);
    }
    folder
        .skips
        .take(cx, folder.id(), store, seen.left_out, &sum);
    cx.tell(&Event::Scan(folder.id(), ScanEvent::Over(is_whole)));
    scan
}

// Tells what a scan came to. One that ended with the node stopped there.
fn tell_scan<R: Clock + Wait, G>(cx: &Context<R, G>, id: &str, sum: ScanSum) {
    let is_news = sum.recorded > 0 || sum.other > 0 || sum.stopped.is_some();
    if is_news && cx.is_stopping() {
        cx.tell(&Event::Scan(id, ScanEvent::Ended(sum)));
    } else if is_news {
        cx.tell(&Event::Scan(id, ScanEvent::Scanned(sum)));
    }
}

// What a scan that is under way says: how far it is, in lines if that is to be told, what it leaves out, and which names are to be scanned again soon.
#[derive(Drop)]
struct Seen<'a, R> {
    rt: &'a R,
    id: &'a str,
    log: &'a Log,
    is_told: bool,
    left_out: LeftOut<'a, R>,
    notes: &'a Notes,
    connections: &'a Connections,
    // How many names it came to.
    count: u64,
    // How many of the listing were scanned, of how many, and how many bytes were read.
    names: u64,
    listed: u64,
    bytes: u64,
}

impl<R: Clock + Wait> Seen<'_, R> {
    // Says how far it is.
    fn tell(&self) {
        let event = Event::Scan(self.id, ScanEvent::At(self.names, self.listed, self.bytes));
        if self.is_told {
            self.log.tell(self.rt, &event);
        } else {
            self.log.note(self.rt, &event);
        }
    }
}

impl<R: Clock + Wait> Progress for Seen<'_, R> {
    fn hashed(&mut self, bytes: u64) {
        self.bytes = self.bytes.saturating_add(bytes);
        self.tell();
    }

    fn scanned(&mut self, names: u64, listed: u64) {
        self.names = names;
        self.listed = listed;
        self.tell();
    }

    fn came_to(&mut self, name: &SafeName, scanned: &Result<Scanned, StoreRefusal>) {
        self.count = self.count.saturating_add(1);
        if is_recorded(scanned) {
            self.log
                .tell(self.rt, &Event::Scan(self.id, ScanEvent::Recorded(name)));
        }
        self.left_out.came_to(name, scanned);
        // (once the node stops each name is a fault)
        if is_left_over(scanned) && !self.connections.is_stopping(self.rt) {
            self.notes.ask(self.rt, name);
        }
    }
}
