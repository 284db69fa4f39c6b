//! What else is needed of a folder, while some of its pullers wait for a peer.
use crate::batch::{Batch, Puller, pull_batch};
use crate::rounds::up_of;
use crate::turn::Turn;
use file_store::{FileStore, Gate};
use folder_calls::FolderCalls;
use node_context::{Context, Host};
use node_files::Marked;
use node_folder::is_there;
use node_need::{PullOrder, Retries};
use std::alloc::AllocError;
use std::mem::replace;
use std::time::Duration;
use sync_names::SafeName;
use sync_record::DeviceId;

/// How many milliseconds lie between two looks at whether something else came.
const LOOK_PAUSE: u64 = 250;

/// Pulls what else comes, as long as names of the batch are in hand and somebody waits for a peer: it is as if the round had ended, but for those names, and for
/// deletions, which wait for them, since a directory goes last. Nobody waits for a peer here. What can't be pulled is left to the next round.
pub(crate) fn pull_besides<'x, R, S, W, G>(
    cx: &Context<'x, R, G>,
    batch: &Batch<'_, '_, '_, 'x>,
    puller: &mut Puller<'x, S, W>,
)
where
    R: Host,
    S: FileStore + Marked,
    W: FolderCalls,
    G: Gate,
{
    let failed = replace(&mut puller.failed, Vec::new(cx.alloc));
    let mut last = None;
    for _ in cx.rt.forever() {
        if !batch.turn.is_waited(cx.rt) || cx.pause_for(Duration::from_millis(LOOK_PAUSE)) {
            break;
        }
        // (out of memory, it is looked again where something changes)
        let _ = pull_if_changed(cx, batch, puller, &mut last);
    }
    puller.failed = failed;
}

// Pulls what is needed now, unless the history has as many changes as the last time, and as many peers are up.
fn pull_if_changed<'x, R, S, W, G>(
    cx: &Context<'x, R, G>,
    batch: &Batch<'_, '_, '_, 'x>,
    puller: &mut Puller<'x, S, W>,
    last: &mut Option<(u64, usize)>,
) -> Result<(), AllocError>
where
    R: Host,
    S: FileStore + Marked,
    W: FolderCalls,
    G: Gate,
{
    let up = up_of(cx, batch.peers)?;
    let me = puller.worker.calls.me();
    let now = (puller.worker.calls.known(me).at, up.len());
    if replace(last, Some(now)) == Some(now) {
        return Ok(());
    }
    let needed = needed_besides(cx, batch, puller)?;
    if !is_there(cx, &mut puller.worker) {
        return Ok(());
    }
    pull_live(cx, batch, puller, needed.as_slice(), up.as_slice())
}

// The needed names that nobody has in hand.
fn needed_besides<'x, R, S, W, G>(
    cx: &Context<'x, R, G>,
    batch: &Batch<'_, '_, '_, 'x>,
    puller: &mut Puller<'x, S, W>,
) -> Result<Vec<SafeName>, AllocError>
where
    R: Host,
    W: FolderCalls,
{
    let in_hand = batch.turn.in_hand(cx.rt, cx.alloc)?;
    let mut needed = puller.worker.calls.need(None, usize::MAX)?.value.into_vec();
    needed.retain(|name| {
        !in_hand.iter().any(
            |place| matches!(batch.wanted.get(*place), Some(wanted) if wanted.name == *name),
        )
    });
    Ok(needed)
}

// Pulls those of these names that have a live best, one after another.
fn pull_live<'x, R, S, W, G>(
    cx: &Context<'x, R, G>,
    batch: &Batch<'_, '_, '_, 'x>,
    puller: &mut Puller<'x, S, W>,
    needed: &[SafeName],
    up: &[DeviceId],
) -> Result<(), AllocError>
where
    R: Host,
    S: FileStore + Marked,
    W: FolderCalls,
    G: Gate,
{
    let mut retries = Retries::new(cx.alloc);
    let calls = &mut puller.worker.calls;
    let order = PullOrder::new(cx.alloc, calls, needed, &mut retries, up, false)?;
    for wanted in order.live.iter() {
        let turn = Turn::first(cx.alloc)?;
        let besides = Batch {
            peers: batch.peers,
            wanted: wanted.as_slice(),
            turn: &turn,
            is_patient: false,
        };
        pull_batch(cx, &besides, puller)?;
        puller.failed.clear();
    }
    Ok(())
}
