//! Rounds of pulls: what is needed of each folder, again and again.
use crate::batch::{Batch, Puller, needs_peer, pull_batch, pull_side};
use crate::turn::Turn;
use file_store::{FileStore, Gate};
use folder_calls::FolderCalls;
use node_context::{Context, Event, Host, PullEvent};
use node_files::Marked;
use node_folder::{NodeFolder, is_there};
use node_need::{PullOrder, Retries, Wanted};
use peer_asks::PeerBook;
use std::alloc::{AllocError, Global};
use std::mem::replace;
use std::sync::Wait;
use std::thread::for_each_mut;
use std::time::{Clock, Duration};
use sync_record::DeviceId;

/// How many milliseconds lie between two rounds of which the first pulled something, so that what peers announced meanwhile is pulled soon.
const LEAST_PAUSE: u64 = 25;

/// How many lie between two rounds where nothing is pulled. Each such round is followed by twice the pause, up to this one.
const MOST_PAUSE: u64 = 500;

/// How many threads pull files of a folder side by side: a small file waits for the disk, and the next one need not.
pub const PULLERS: usize = 12;

/// A folder, for the rounds.
#[derive(Drop)]
pub struct PulledFolder<'x, S, W> {
    folder: &'x NodeFolder,
    pullers: Vec<Puller<'x, S, W>>,
    // Those that it is shared with.
    peers: Vec<PeerBook<'x>>,
    // The greatest sequence that is known of each.
    known: Vec<u64>,
    retries: Retries,
    // How many changes its history had when nothing was needed. With no more, nothing is needed still.
    idle_at: Option<u64>,
}

impl<'x, S: Drop, W: FolderCalls + Drop> PulledFolder<'x, S, W> {
    /// A folder that is pulled by these, from these peers. Fails only if out of memory.
    pub fn new(
        alloc: Global,
        folder: &'x NodeFolder,
        pullers: Vec<Puller<'x, S, W>>,
        peers: Vec<PeerBook<'x>>,
    ) -> Result<PulledFolder<'x, S, W>, AllocError> {
        let mut pullers = pullers;
        let mut known = Vec::with_capacity(alloc, peers.len())?;
        if let Some(puller) = pullers.first_mut() {
            for peer in peers.iter() {
                known.push(puller.worker.calls.known(peer.device).value)?;
            }
        }
        Ok(PulledFolder {
            folder,
            pullers,
            peers,
            known,
            retries: Retries::new(alloc),
            idle_at: None,
        })
    }
}

/// Pulls what is needed of a folder, and again each half second, or sooner after something was pulled and at the start, until the node stops. A history that is full
/// makes it stop.
pub fn run_rounds<'x, R, S, W, G>(cx: &Context<'x, R, G>, folder: &mut PulledFolder<'x, S, W>)
where
    R: Host,
    S: FileStore + Marked + Drop + Send,
    W: FolderCalls + Drop + Send,
    G: Gate + Sync,
{
    let mut pause = LEAST_PAUSE;
    let mut last = None;
    for _ in cx.rt.forever() {
        if cx.is_stopping() {
            return;
        }
        let second = second_of(cx.rt);
        // (without a clock each round is taken for one that a second lies before)
        let is_later = second.is_none() || second != last;
        last = second;
        // (out of memory ends a round; the next one begins anew)
        let has_pulled = matches!(pull_round(cx, folder, is_later), Ok(true));
        if is_full(folder) {
            cx.tell(&Event::Pull(folder.folder.id(), PullEvent::HistoryFull));
            cx.stop();
        }
        pause = if has_pulled {
            LEAST_PAUSE
        } else {
            pause.saturating_mul(2).min(MOST_PAUSE)
        };
        if cx.pause_for(Duration::from_millis(pause)) {
            return;
        }
    }
}

// The second that it is, since an arbitrary start.
fn second_of<R: Clock>(rt: &R) -> Option<u64> {
    match rt.monotonic() {
        Ok(time) => Some(time.as_secs()),
        Err(_) => None,
    }
}

// Whether the history has no room for a pull any more, but has changes.
fn is_full<S, W: FolderCalls>(folder: &mut PulledFolder<S, W>) -> bool {
    let limit = folder.folder.settings.history_limit;
    let Some(puller) = folder.pullers.first_mut() else {
        return false;
    };
    let me = puller.worker.calls.me();
    let at = puller.worker.calls.known(me).at;
    at > 0 && at.saturating_add(1) >= limit
}

// Pulls each needed name of a folder once, but those that are left alone. Returns whether any was pulled. Whether a second lies between this round and the
// last one tells whether the time passes for which names are left alone.
fn pull_round<'x, R, S, W, G>(
    cx: &Context<'x, R, G>,
    folder: &mut PulledFolder<'x, S, W>,
    is_later: bool,
) -> Result<bool, AllocError>
where
    R: Host,
    S: FileStore + Marked + Drop + Send,
    W: FolderCalls + Drop + Send,
    G: Gate + Sync,
{
    let up = up_of(cx, folder.peers.as_slice())?;
    let Some(order) = order_of(cx, folder, up.as_slice(), is_later)? else {
        return Ok(false);
    };
    let up = up.len();
    let mut has_pulled = false;
    tell_begun(cx, folder);
    let turn = Turn::first(cx.alloc)?;
    for wanted in order.live.iter().filter(|wanted| !wanted.is_empty()) {
        turn.begin(cx.rt);
        let wanted = wanted.as_slice();
        pull_side_by_side(cx, folder, wanted, &turn);
        if settle(cx, folder, wanted, up)? {
            has_pulled = true;
        }
    }
    let deleted = order.deleted.as_slice();
    pull_in_turn(cx, folder, deleted)?;
    if settle(cx, folder, deleted, up)? {
        has_pulled = true;
    }
    folder.retries.end_round(has_pulled);
    tell_over(cx, folder);
    Ok(has_pulled)
}

// How many names of a folder are needed.
fn needed_of<S, W: FolderCalls>(folder: &mut PulledFolder<S, W>) -> u64 {
    match folder.pullers.first_mut() {
        Some(puller) => puller.worker.calls.counts().value.needed,
        None => 0,
    }
}

// Tells that a round begins, and how many names are needed.
fn tell_begun<R: Host, S, W: FolderCalls, G>(cx: &Context<R, G>, folder: &mut PulledFolder<S, W>) {
    let needed = needed_of(folder);
    cx.tell(&Event::Pull(folder.folder.id(), PullEvent::Begun(needed)));
}

// Tells that it is over, and how many are needed then.
fn tell_over<R: Host, S, W: FolderCalls, G>(cx: &Context<R, G>, folder: &mut PulledFolder<S, W>) {
    let needed = needed_of(folder);
    cx.tell(&Event::Pull(folder.folder.id(), PullEvent::Over(needed)));
}

// What is to be pulled of a folder now, if anything is needed, and the folder is there.
fn order_of<R, S, W, G>(
    cx: &Context<R, G>,
    folder: &mut PulledFolder<S, W>,
    up: &[DeviceId],
    is_later: bool,
) -> Result<Option<PullOrder>, AllocError>
where
    R: Host,
    S: FileStore + Marked,
    W: FolderCalls,
{
    let PulledFolder {
        folder,
        pullers,
        peers,
        known,
        retries,
        idle_at,
        ..
    } = folder;
    let Some(puller) = pullers.first_mut() else {
        return Ok(None);
    };
    let calls = &mut puller.worker.calls;
    let me = calls.me();
    let at = calls.known(me).at;
    if *idle_at == Some(at) {
        return Ok(None);
    }
    tell_received(
        cx,
        folder.id(),
        calls,
        peers.as_slice(),
        known.as_mut_slice(),
    );
    let needed = calls.need(None, usize::MAX)?.value;
    retries.keep(needed.as_slice());
    if needed.as_slice().is_empty() {
        cx.tell(&Event::Pull(folder.id(), PullEvent::Over(0)));
        *idle_at = Some(at);
        return Ok(None);
    }
    if !is_there(cx, &mut puller.worker) {
        return Ok(None);
    }
    let calls = &mut puller.worker.calls;
    let order = PullOrder::new(cx.alloc, calls, needed.as_slice(), retries, up, is_later)?;
    Ok(Some(order))
}

// Tells of each peer that more of its index came.
fn tell_received<R: Host, W: FolderCalls, G>(
    cx: &Context<R, G>,
    id: &str,
    calls: &mut W,
    peers: &[PeerBook],
    known: &mut [u64],
) {
    for (peer, known) in peers.iter().zip(known.iter_mut()) {
        let device = peer.device;
        let now = calls.known(device).value;
        if now > *known {
            cx.tell(&Event::Pull(id, PullEvent::Received(device, now)));
        }
        *known = now;
    }
}

// The names that could not be pulled are left alone for a time. Returns whether any was pulled.
fn settle<R: Host, S, W, G>(
    cx: &Context<R, G>,
    folder: &mut PulledFolder<S, W>,
    wanted: &[Wanted],
    up: usize,
) -> Result<bool, AllocError> {
    let PulledFolder {
        folder,
        pullers,
        retries,
        ..
    } = folder;
    let mut has_pulled = false;
    for puller in pullers.iter_mut() {
        if replace(&mut puller.has_pulled, false) {
            has_pulled = true;
        }
        for miss in puller.failed.iter() {
            if miss.lacks_room && retries.lack_room() {
                cx.tell(&Event::Pull(folder.id(), PullEvent::NoRoom));
            }
            if let Some(wanted) = wanted.get(miss.place) {
                retries.begin(wanted.told(miss.told)?, up, miss.lacks_room)?;
            }
        }
        puller.failed.clear();
    }
    Ok(has_pulled)
}

// Pulls names by all pullers, each the next one that none has.
fn pull_side_by_side<'x, R, S, W, G>(
    cx: &Context<'x, R, G>,
    folder: &mut PulledFolder<'x, S, W>,
    wanted: &[Wanted],
    turn: &Turn,
)
where
    R: Host,
    S: FileStore + Marked + Drop + Send,
    W: FolderCalls + Drop + Send,
    G: Gate + Sync,
{
    let PulledFolder { pullers, peers, .. } = folder;
    let batch = Batch {
        peers: peers.as_slice(),
        wanted,
        turn,
        is_patient: true,
    };
    let threads = hands_for(wanted).min(pullers.len());
    let Some(pullers) = pullers.as_mut_slice().get_mut(..threads) else {
        return;
    };
    for_each_mut(
        cx.rt,
        pullers,
        threads.max(1),
        &|_, puller| pull_side(cx, &batch, puller),
    );
}

// How many pull such names side by side: of files one for each, and one for what else comes while they wait for a peer.
fn hands_for(wanted: &[Wanted]) -> usize {
    match wanted.first() {
        Some(first) if needs_peer(&first.best) => wanted.len().saturating_add(1),
        _ => 1,
    }
}

// Pulls names one after another.
fn pull_in_turn<'x, R, S, W, G>(
    cx: &Context<'x, R, G>,
    folder: &mut PulledFolder<'x, S, W>,
    wanted: &[Wanted],
) -> Result<(), AllocError>
where
    R: Host,
    S: FileStore + Marked,
    W: FolderCalls,
    G: Gate,
{
    let PulledFolder { pullers, peers, .. } = folder;
    let Some(puller) = pullers.first_mut() else {
        return Ok(());
    };
    let batch = Batch {
        peers: peers.as_slice(),
        wanted,
        turn: &Turn::first(cx.alloc)?,
        is_patient: false,
    };
    pull_batch(cx, &batch, puller)
}

/// Those of a folder's peers that are up. Fails only if out of memory.
pub(crate) fn up_of<R: Host, G>(
    cx: &Context<R, G>,
    peers: &[PeerBook],
) -> Result<Vec<DeviceId>, AllocError> {
    let mut up = Vec::with_capacity(cx.alloc, peers.len())?;
    for peer in peers.iter() {
        if peer.book.connection(cx.rt).is_some() {
            up.push(peer.device)?;
        }
    }
    Ok(up)
}
