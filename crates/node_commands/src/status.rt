//! How a node, its folders and its peers are, as one value.
ghost use Rattle.std.specs.Prelude.{◌≡◌, None};
ghost use Rattle.node_commands.specs.Status.{progress_of, state_of};

use folder_calls::FolderCalls;
use folder_core::Counts;
use node_context::{
    Context, Doing, FolderBoard, HeldMemory, Host, PeerBoard, Standing, VERSION, moment,
};
use node_files::{Marked, Whereabouts};
use node_folder::FolderWorker;
use node_status::{FolderState, FolderStatus, Noted, PeerStatus, Progress, Status};
use std::alloc::{AllocError, Global};
use sync_record::DeviceId;

/// How many names that a scan left out are listed of a folder.
const MOST_LEFT_OUT: usize = 10;

/// How the node of this name is, with its folders and its peers. Each folder's counts are of one moment. O(n) for what is listed, which is a hundred names a folder at
/// most.
pub(crate) fn status_of<R: Host, S: Marked, W: FolderCalls, G>(
    cx: &Context<R, G>,
    name: &str,
    folders: &mut [FolderWorker<S, W>],
    peers: &[DeviceId],
) -> Result<Status, AllocError> {
    let alloc = cx.alloc;
    let mut status = Status {
        version: String::from_str(alloc, VERSION)?,
        name: String::from_str(alloc, name)?,
        device: own_device(alloc, folders)?,
        made: moment(cx.rt).seconds(),
        memory: cx.rt.memory_held(),
        not_written: None,
        folders: Vec::new(alloc),
        peers: Vec::new(alloc),
    };
    for worker in folders.iter_mut() {
        let folder = folder_status(cx, status.made, worker)?;
        status.folders.push(folder)?;
    }
    let board = cx.log.board().lock(cx.rt);
    status.not_written = copied(alloc, &board.not_written)?;
    for (place, peer) in peers.iter().enumerate() {
        let is_up = cx.connections.is_up(cx.rt, place);
        status
            .peers
            .push(peer_status(alloc, *peer, is_up, board.peer(*peer))?)?;
    }
    drop(board);
    Ok(status)
}

// The identity of this device, in hexadecimal digits; nothing where there is no folder.
fn own_device<S, W: FolderCalls>(
    alloc: Global,
    folders: &[FolderWorker<S, W>],
) -> Result<String, AllocError> {
    match folders.first() {
        Some(worker) => hex::encode(alloc, worker.calls.me().bytes()),
        None => Ok(String::new(alloc)),
    }
}

/// Where a folder is now; `None` if out of memory.
pub(crate) fn standing_of<R: Host, S: Marked, W, G>(
    cx: &Context<R, G>,
    worker: &mut FolderWorker<S, W>,
) -> Option<Standing> {
    let is_held = worker.folder.presence.is_held(cx.rt);
    match worker.look(cx.rt) {
        Whereabouts::Held if is_held => Some(Standing::Held),
        // (one that has just come, and whose names are looked for soon)
        Whereabouts::There | Whereabouts::Held => Some(Standing::There),
        Whereabouts::InUse => Some(Standing::InUse),
        Whereabouts::Away | Whereabouts::Unsettled => Some(Standing::Away),
        Whereabouts::Unknown => None,
    }
}

fn folder_status<R: Host, S: Marked, W: FolderCalls, G>(
    cx: &Context<R, G>,
    made: u64,
    worker: &mut FolderWorker<S, W>,
) -> Result<FolderStatus, AllocError> {
    let alloc = cx.alloc;
    let Some(standing) = standing_of(cx, worker) else {
        return Err(AllocError);
    };
    let settings = &worker.folder.settings;
    let (left_out, left_out_more) = worker.folder.skips.noted(cx.rt, MOST_LEFT_OUT)?;
    let mut status = FolderStatus {
        id: String::from_str(alloc, settings.id.as_str())?,
        path: String::from_str(alloc, settings.path.as_str())?,
        state: FolderState::UpToDate,
        progress: None,
        files: 0,
        directories: 0,
        needed: 0,
        received: 0,
        rate: 0,
        scanned: None,
        looked: None,
        history: Progress {
            at: 0,
            of: settings.history_limit,
        },
        conflicts: Vec::new(alloc),
        failed: Vec::new(alloc),
        failed_more: 0,
        left_out,
        left_out_more,
    };
    let doing = match cx.log.board().lock(cx.rt).folder(settings.id.as_str()) {
        Some(board) => list_noted(alloc, &mut status, board)?,
        None => Doing::idle(),
    };
    let counts = worker.calls.counts();
    status.history.at = counts.at;
    status.rate = doing.rate(made);
    count(&mut status, standing, &doing, &counts.value);
    Ok(status)
}

// Lists what was told of names of a folder. Returns what it is doing.
fn list_noted(
    alloc: Global,
    status: &mut FolderStatus,
    board: &FolderBoard,
) -> Result<Doing, AllocError> {
    for noted in board.conflicts.iter().rev() {
        status.conflicts.push(copy_of(alloc, noted)?)?;
    }
    for noted in board.failed.iter() {
        status.failed.push(copy_of(alloc, noted)?)?;
    }
    status.failed_more = board.failed_more;
    Ok(board.doing)
}

// Says what a folder is in by its counts. Where nothing is needed, no name has failed.
fn count(status: &mut FolderStatus, standing: Standing, doing: &Doing, counts: &Counts) {
    let has_failed = !status.failed.is_empty();
    status.state = state_of(standing, doing, has_failed, counts.needed);
    status.progress = progress_of(status.state, doing, counts.needed);
    status.received = doing.came;
    status.scanned = doing.scanned;
    status.looked = doing.looked;
    status.files = counts.files;
    status.directories = counts.directories;
    status.needed = counts.needed;
    if counts.needed == 0 {
        status.failed.clear();
        status.failed_more = 0;
    }
}

// What a folder is in that is there or not, by what was told of it and how many names are needed.
fn state_of(standing: Standing, doing: &Doing, has_failed: bool, needed: u64) -> FolderState
    ensures { result ≡ state_of standing doing.now has_failed needed }
{
    match standing {
        Standing::Away => FolderState::Away,
        Standing::InUse => FolderState::InUse,
        Standing::Held => FolderState::Held,
        Standing::There if doing.round.is_some() && needed > 0 => FolderState::Pulling,
        Standing::There if doing.has_no_room => FolderState::NoRoom,
        Standing::There if doing.scan.is_some() => FolderState::Scanning,
        Standing::There if needed > 0 && has_failed => FolderState::Failing,
        Standing::There if needed > 0 => FolderState::Behind,
        Standing::There => FolderState::UpToDate,
    }
}

// How far it is.
fn progress_of(state: FolderState, doing: &Doing, needed: u64) -> Option<Progress>
    ensures { result ≡ progress_of state doing.now needed }
{
    match state {
        FolderState::Scanning => doing.scan,
        FolderState::Pulling => Some(Progress {
            at: doing.pulled,
            of: doing.pulled.saturating_add(needed),
        }),
        FolderState::UpToDate
        | FolderState::Behind
        | FolderState::Failing
        | FolderState::NoRoom
        | FolderState::Away
        | FolderState::InUse
        | FolderState::Held => None,
    }
}

fn peer_status(
    alloc: Global,
    device: DeviceId,
    is_up: bool,
    board: Option<&PeerBoard>,
) -> Result<PeerStatus, AllocError> {
    let mut status = PeerStatus {
        device: hex::encode(alloc, device.bytes())?,
        is_up,
        since: None,
        name: None,
        program: None,
        from: None,
        why: None,
    };
    if let Some(board) = board {
        status.since = board.since;
        status.name = copied(alloc, &board.name)?;
        status.program = copied(alloc, &board.program)?;
        status.from = copied(alloc, &board.from)?;
        if !is_up {
            status.why = copied(alloc, &board.why)?;
        }
    }
    Ok(status)
}

fn copied(alloc: Global, text: &Option<String>) -> Result<Option<String>, AllocError> {
    match text {
        Some(text) => Ok(Some(String::from_str(alloc, text.as_str())?)),
        None => Ok(None),
    }
}

fn copy_of(alloc: Global, noted: &Noted) -> Result<Noted, AllocError> {
    Ok(Noted {
        name: String::from_str(alloc, noted.name.as_str())?,
        when: noted.when,
        why: String::from_str(alloc, noted.why.as_str())?,
    })
}
