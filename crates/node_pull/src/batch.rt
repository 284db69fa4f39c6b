//! Names of a folder that are pulled side by side.
use crate::besides::pull_besides;
use crate::changes::change_of;
use crate::patient::PatientSource;
use crate::puller::pull;
use crate::turn::Turn;
use file_store::{FileStore, Gate, GatePlace};
use folder_calls::FolderCalls;
use node_context::{Context, Event, Host, PullEvent};
use node_files::Marked;
use node_folder::{FolderWorker, NodeFolder};
use node_need::{Miss, Wanted};
use peer_asks::{FolderPeer, PeerBook, PeerSource};
use std::alloc::{AllocError, Global};
use std::io;
use std::sync::Wait;
use sync_names::SafeName;
use sync_pull::{PullAnswer, PullFailure};
use sync_record::{Kind, Record};

/// Names that are pulled, each by whoever comes next, and the peers that are asked.
#[derive(Drop)]
pub(crate) struct Batch<'p, 'w, 't, 'x> {
    pub(crate) peers: &'p [PeerBook<'x>],
    pub(crate) wanted: &'w [Wanted],
    pub(crate) turn: &'t Turn,
    // Whether a fetch may wait for a peer.
    pub(crate) is_patient: bool,
}

/// What a puller asks for blocks.
pub(crate) type Source<'c, 'x, R, G> = PatientSource<
    'c,
    'x,
    R,
    G,
    PeerSource<'x, R, FolderPeer<'x>>,
>;

/// What a thread pulls names of a folder with.
#[derive(Drop)]
pub struct Puller<'x, S, W> {
    pub(crate) worker: FolderWorker<'x, S, W>,
    // The names that it could not pull.
    pub(crate) failed: Vec<Miss>,
    // Whether it pulled any.
    pub(crate) has_pulled: bool,
}

impl<'x, S, W> Puller<'x, S, W> {
    /// One that has pulled nothing yet. Does not allocate.
    pub fn new(alloc: Global, worker: FolderWorker<'x, S, W>) -> Puller<'x, S, W> {
        Puller {
            worker,
            failed: Vec::new(alloc),
            has_pulled: false,
        }
    }
}

/// Pulls the next name, as long as there is one and the node does not stop; then, where others still have one and wait for a peer, what else comes. Out of memory, the others
/// are left to the next round.
pub(crate) fn pull_side<'x, R, S, W, G>(
    cx: &Context<'x, R, G>,
    batch: &Batch<'_, '_, '_, 'x>,
    puller: &mut Puller<'x, S, W>,
)
where
    R: Host,
    S: FileStore + Marked,
    W: FolderCalls,
    G: Gate,
{
    let _ = pull_batch(cx, batch, puller);
    if batch.turn.leads(cx.rt) {
        pull_besides(cx, batch, puller);
    }
}

/// Pulls the next name, as long as there is one and the node does not stop. Where nobody is connected any more, the files that are left wait for the next round. Out of
/// memory, all do.
pub(crate) fn pull_batch<'x, R, S, W, G>(
    cx: &Context<'x, R, G>,
    batch: &Batch<'_, '_, '_, 'x>,
    puller: &mut Puller<'x, S, W>,
) -> Result<(), AllocError>
where
    R: Host,
    S: FileStore + Marked,
    W: FolderCalls,
    G: Gate,
{
    let id = puller.worker.folder.id();
    let source = PeerSource::new(cx.rt, cx.alloc, id, batch.peers)?;
    let mut source = PatientSource::new(cx, id, source, batch.peers, batch.turn, batch.is_patient);
    for _ in batch.wanted {
        if cx.is_stopping() {
            return Ok(());
        }
        let Some(place) = batch.turn.take(cx.rt, batch.wanted.len()) else {
            return Ok(());
        };
        let pulled = pull_next(cx, batch, puller, &mut source, place);
        batch.turn.put_back(cx.rt, place);
        pulled?;
    }
    Ok(())
}

// Pulls the name at a place, unless the disk has no room for it, or it needs a peer and none is connected.
fn pull_next<'x, R, S, W, G>(
    cx: &Context<'x, R, G>,
    batch: &Batch<'_, '_, '_, 'x>,
    puller: &mut Puller<'x, S, W>,
    source: &mut Source<'_, 'x, R, G>,
    place: usize,
) -> Result<(), AllocError>
where
    R: Host,
    S: FileStore + Marked,
    W: FolderCalls,
    G: Gate,
{
    let Some(wanted) = batch.wanted.get(place) else {
        return Ok(());
    };
    if needs_peer(&wanted.best) && !source.is_any_up() {
        return Ok(());
    }
    if !batch.turn.has_room(cx.rt, &wanted.best) {
        return Ok(puller.failed.push(wanted.miss_for_room(place))?);
    }
    let id = puller.worker.folder.id();
    let answer = pull(cx, &mut puller.worker, source, &wanted.name);
    notice(cx, &mut puller.worker, wanted, answer)?;
    if puller.note(cx.rt, batch.turn, wanted, place, answer)? {
        let said = match answer {
            PullAnswer::Failed(PullFailure::StoreFault) => puller.worker.store.last_error(),
            _ => None,
        };
        tell_answer(cx, id, wanted, answer, said);
    }
    if !is_failure(answer) {
        let needed = puller.worker.calls.counts().value.needed;
        cx.tell(&Event::Pull(id, PullEvent::At(needed)));
    }
    Ok(())
}

// Whether a name that was pulled so is needed as before.
fn is_failure(answer: PullAnswer) -> bool {
    matches!(
        answer,
        PullAnswer::Failed(_) | PullAnswer::Refused(_) | PullAnswer::Unsupported
    )
}

// Tells who looks at the folder what a pull of a name did that is no change of anybody here, and what is to be scanned at once.
fn notice<R: Host, S, W: FolderCalls, G: Gate>(
    cx: &Context<R, G>,
    worker: &mut FolderWorker<S, W>,
    wanted: &Wanted,
    answer: PullAnswer,
) -> Result<(), AllocError> {
    let FolderWorker { folder, calls, .. } = worker;
    match answer {
        PullAnswer::Done(_) if !wanted.best.is_deleted() => {
            folder.notes.place(cx.rt, &wanted.name);
            ask_parents(cx, folder, calls, &wanted.name)
        }
        PullAnswer::Failed(PullFailure::LocalChanged) => {
            folder.notes.ask(cx.rt, &wanted.name);
            Ok(())
        }
        _ => Ok(()),
    }
}

// Asks for a scan of the directories of a name that are not recorded, from the last one up to the first that is: a pull has made them.
fn ask_parents<R: Host, W: FolderCalls, G: Gate>(
    cx: &Context<R, G>,
    folder: &NodeFolder,
    calls: &mut W,
    name: &SafeName,
) -> Result<(), AllocError> {
    for (parent, _) in name.as_str().rmatch_indices('/') {
        let Some(parent) = name.as_str().get(..parent) else {
            break;
        };
        let Ok(parent) = SafeName::parse(cx.alloc, parent) else {
            return Err(AllocError);
        };
        cx.gate.at(GatePlace::FolderCall);
        let is_recorded = match calls.local(&parent)?.value {
            Some(record) => !record.is_deleted(),
            None => false,
        };
        if is_recorded {
            break;
        }
        folder.notes.ask(cx.rt, &parent);
    }
    Ok(())
}

/// Whether the bytes of a best come from peers.
pub(crate) fn needs_peer(best: &Record) -> bool {
    !best.is_deleted() && best.kind() == Kind::File
}

impl<'x, S: Marked, W> Puller<'x, S, W> {
    // Keeps what a pull came to. Returns whether it is to be told: not where the disk has no room, which is told once for all, and not a failure that was told already.
    fn note<R: Wait>(
        &mut self,
        rt: &R,
        turn: &Turn,
        wanted: &Wanted,
        place: usize,
        answer: PullAnswer,
    ) -> Result<bool, AllocError> {
        match answer {
            PullAnswer::Done(_) => self.has_pulled = true,
            PullAnswer::Failed(PullFailure::StoreFault) if self.worker.store.lacks_room() => {
                turn.lack_room(rt, &wanted.best);
                self.failed.push(wanted.miss_for_room(place))?;
                return Ok(false);
            }
            PullAnswer::Failed(_) | PullAnswer::Unsupported => {
                self.failed.push(wanted.miss(place, answer))?;
                return Ok(wanted.told != Some(answer));
            }
            _ => {}
        }
        Ok(true)
    }
}

// Tells what a pull of a name came to. That the node stops is no failure of the name.
fn tell_answer<R: Host, G>(
    cx: &Context<R, G>,
    id: &str,
    wanted: &Wanted,
    answer: PullAnswer,
    said: Option<io::Error>,
) {
    let name = &wanted.name;
    if cx.is_stopping() && !matches!(answer, PullAnswer::Done(_)) {
        return;
    }
    let event = match answer {
        PullAnswer::Done(_) => PullEvent::Pulled(name, change_of(&wanted.local, &wanted.best)),
        PullAnswer::Failed(why) => PullEvent::Failed(name, why, said),
        PullAnswer::Refused(why) => PullEvent::Refused(name, why),
        PullAnswer::Unsupported => PullEvent::Unsupported(name),
        PullAnswer::NotNeeded
        | PullAnswer::Busy
        | PullAnswer::LocalMoved
        | PullAnswer::Superseded => return,
    };
    cx.tell(&Event::Pull(id, event));
}
