//! The pull of one name.
use crate::batch::Source;
use crate::obstacle::pull_past;
use file_store::{FileStore, Gate, GatePlace};
use folder_calls::FolderCalls;
use node_context::{Context, Event, Host, PullEvent, moment};
use node_files::Marked;
use node_folder::FolderWorker;
use std::alloc::AllocError;
use sync_names::SafeName;
use sync_pull::{PullAnswer, PullFailure, pull_name};
use sync_record::Kind;
use sync_scan::scan_name;

/// Pulls the best of a name, past a file that is where one of its directories is to be, if that may make way.
pub(crate) fn pull<R, S, W, G>(
    cx: &Context<R, G>,
    worker: &mut FolderWorker<S, W>,
    source: &mut Source<'_, '_, R, G>,
    name: &SafeName,
) -> PullAnswer
where
    R: Host,
    S: FileStore + Marked,
    W: FolderCalls,
    G: Gate,
{
    match pull_once(cx, worker, source, name) {
        PullAnswer::Failed(PullFailure::BadParent) => pull_past(cx, worker, source, name),
        answer => answer,
    }
}

/// Pulls it, if nothing is in the way. A file that was there before, and is kept as a conflict copy, is recorded.
pub(crate) fn pull_once<R, S, W, G>(
    cx: &Context<R, G>,
    worker: &mut FolderWorker<S, W>,
    source: &mut Source<'_, '_, R, G>,
    name: &SafeName,
) -> PullAnswer
where
    R: Host,
    S: FileStore + Marked,
    W: FolderCalls,
    G: Gate,
{
    // (out of memory, the file gets the time at which it is written)
    let _ = set_modified(cx, worker, name);
    let answer = pull_name(
        cx.rt,
        cx.alloc,
        &mut worker.store,
        &mut worker.calls,
        source,
        cx.gate,
        name,
        moment(cx.rt),
        worker.folder.settings.max_conflicts,
    );
    source.let_go(name);
    let moved = worker.store.take_moved();
    if let (PullAnswer::Done(_), Some(copy)) = (answer, &moved) {
        keep_copy(cx, worker, copy);
    }
    answer
}

/// Tells under which name a file is kept, and records it, so that the peers hear of it before the next scan of all. (What can't be recorded is
/// left to that.)
pub(crate) fn keep_copy<R, S, W, G>(
    cx: &Context<R, G>,
    worker: &mut FolderWorker<S, W>,
    copy: &SafeName,
)
where
    R: Host,
    S: FileStore,
    W: FolderCalls,
    G: Gate,
{
    cx.tell(&Event::Pull(worker.folder.id(), PullEvent::Kept(copy)));
    let moment = worker.folder.times.of_new(cx.rt);
    let _ = scan_name(
        cx.rt,
        cx.alloc,
        &mut worker.store,
        &mut worker.calls,
        cx.gate,
        copy,
        moment,
    );
}

// A file that is put in place gets the modification time of the best.
fn set_modified<R, S, W, G>(
    cx: &Context<R, G>,
    worker: &mut FolderWorker<S, W>,
    name: &SafeName,
) -> Result<(), AllocError>
where
    S: Marked,
    W: FolderCalls,
    G: Gate,
{
    cx.gate.at(GatePlace::FolderCall);
    let Some(best) = worker.calls.best(name)?.value else {
        return Ok(());
    };
    if !best.record.is_deleted() && best.record.kind() == Kind::File {
        let (seconds, nanoseconds) = best.record.modified();
        worker
            .store
            .set_modified(name, seconds, nanoseconds_of(nanoseconds));
    }
    Ok(())
}

// The part of a second that was announced; none where it is not one.
fn nanoseconds_of(announced: i32) -> u32 {
    match u32::try_from(announced) {
        Ok(nanoseconds) if nanoseconds < 1_000_000_000 => nanoseconds,
        _ => 0,
    }
}
