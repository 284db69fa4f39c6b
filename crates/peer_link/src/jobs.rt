//! What each worker of a connection is given, and what it leaves.
ghost use Rattle.std.specs.Prelude.{All, IfOk};
ghost use Rattle.std.specs.List.{AllZip};
ghost use Rattle.peer_conn.specs.Turns.{OnlySees};
ghost use Rattle.peer_conn.specs.Words.{IsSameEnded, IsSameQueue};
ghost use Rattle.peer_link.specs.Links.{HasReadAll};
ghost use Rattle.peer_reader.specs.Hears.{IsApart};
ghost use Rattle.peer_server.specs.Answered.{Stays};

use crate::inbox::LinkInbox;
use crate::line::Line;
use crate::start::Start;
use crate::told::ToldFolders;
use bep_frames::{Message, WriteFault};
use bep_messages::{ClusterConfig, Hello, Request};
use crossbeam_channel::Receiver;
use file_store::{FileStore, Gate};
use folder_calls::FolderCalls;
use peer_asks::{RequesterEnd, run_requester};
use peer_conn::{
    Bell, Ended, IndexerEnd, IndexerFolder, KeptCalls, Seat, Taker, WriterFault, run_indexer,
    run_writer,
};
use peer_reader::{ReaderEnd, ReaderFolder, run_reader};
use peer_server::{PeerRequest, ServerEnd, ServerFolder, run_server};
use std::alloc::Global;
use std::io::{Read, Write};
use std::sync::Wait;
use std::time::Clock;
use sync_record::DeviceId;

#[derive(Drop)]
pub(crate) struct ReadJob<'a, R, I, W, L> {
    pub(crate) peer: DeviceId,
    pub(crate) reader: I,
    pub(crate) folders: Vec<ReaderFolder<W>>,
    pub(crate) inbox: LinkInbox<'a, R, L>,
}

#[derive(Drop)]
pub(crate) struct HasRead<W> {
    pub(crate) end: ReaderEnd,
    pub(crate) told: ToldFolders,
    pub(crate) folders: Vec<ReaderFolder<W>>,
}

/// Reads until there is a reason to end. Then no one waits for a Response any more, and the line is hung up.
pub(crate) fn read<R, I, W, G, L>(
    rt: &R,
    alloc: Global,
    start: &Start,
    job: ReadJob<R, I, W, L>,
    gate: &G,
    line: &L,
) -> HasRead<W>
where
    R: Clock + Wait,
    I: Read + Drop,
    W: FolderCalls + Drop,
    G: Gate,
    L: Line,
    requires { All (IsApart W.view job.peer) job.folders.items }
    ensures { HasReadAll W.view W.folder job.entry.peer (I.remaining job.entry.reader) job.entry.folders.items result.end result.folders.items }
{
    let ReadJob {
        peer,
        mut reader,
        mut folders,
        mut inbox,
    } = job;
    if !start.is_on(rt) {
        line.hang_up();
    }
    let end = run_reader(
        rt,
        alloc,
        &mut reader,
        peer,
        folders.as_mut_slice(),
        gate,
        &mut inbox,
    );
    let told = inbox.close();
    line.hang_up();
    HasRead { end, told, folders }
}

#[derive(Drop)]
pub(crate) struct IndexJob<W> {
    pub(crate) config: ClusterConfig,
    pub(crate) configs: Receiver<ClusterConfig>,
    pub(crate) folders: Vec<IndexerFolder<W>>,
    pub(crate) seat: Seat<Message>,
}

#[derive(Drop)]
pub(crate) struct HasIndexed<W> {
    pub(crate) seat: Ended<Message>,
    pub(crate) end: IndexerEnd,
    pub(crate) folders: Vec<IndexerFolder<W>>,
}

/// Tells the peer the folders until there is a reason to end, and hangs the line up.
pub(crate) fn index<R: Clock + Wait, W: KeptCalls + Drop, L: Line>(
    rt: &R,
    alloc: Global,
    start: &Start,
    job: IndexJob<W>,
    line: &L,
) -> HasIndexed<W>
    ensures same { IsSameEnded job.seat result.seat }
    ensures stays { AllZip (OnlySees W.folder W.view) job.folders.items result.folders.items }
{
    let IndexJob {
        config,
        mut configs,
        mut folders,
        seat,
    } = job;
    if !start.is_on(rt) {
        return HasIndexed {
            seat: seat.end(),
            end: IndexerEnd::OutOfMemory,
            folders,
        };
    }
    let (seat, end) = run_indexer(
        rt,
        alloc,
        config,
        &mut configs,
        folders.as_mut_slice(),
        seat,
    );
    line.hang_up();
    HasIndexed { seat, end, folders }
}

#[derive(Drop)]
pub(crate) struct ServeJob<S, W> {
    pub(crate) requests: Receiver<PeerRequest>,
    pub(crate) folders: Vec<ServerFolder<S, W>>,
    pub(crate) seat: Seat<Message>,
}

#[derive(Drop)]
pub(crate) struct HasServed<S, W> {
    pub(crate) seat: Ended<Message>,
    pub(crate) end: ServerEnd,
    pub(crate) folders: Vec<ServerFolder<S, W>>,
}

/// Answers the peer's Requests until there is a reason to end, and hangs the line up.
pub(crate) fn serve<R, S, W, G, L>(
    rt: &R,
    alloc: Global,
    start: &Start,
    job: ServeJob<S, W>,
    gate: &G,
    line: &L,
) -> HasServed<S, W>
where
    R: Clock + Wait,
    S: FileStore + Drop,
    W: FolderCalls + Drop,
    G: Gate,
    L: Line,
    ensures same { IsSameEnded job.seat result.seat }
    ensures stays { AllZip (Stays S.keeps S.tree W.folder W.view) job.folders.items result.folders.items }
{
    let ServeJob {
        requests,
        mut folders,
        seat,
    } = job;
    if !start.is_on(rt) {
        return HasServed {
            seat: seat.end(),
            end: ServerEnd::OutOfMemory,
            folders,
        };
    }
    let (seat, end) = run_server(rt, alloc, requests, folders.as_mut_slice(), gate, seat);
    line.hang_up();
    HasServed { seat, end, folders }
}

/// What those are given that put messages for the peer.
#[derive(Drop)]
pub(crate) struct PutJobs<S, W> {
    pub(crate) indexing: IndexJob<W>,
    pub(crate) serving: ServeJob<S, W>,
    pub(crate) requesting: RequestJob,
}

#[derive(Drop)]
pub(crate) struct RequestJob {
    pub(crate) requests: Receiver<Request>,
    pub(crate) seat: Seat<Message>,
}

#[derive(Drop)]
pub(crate) struct HasRequested {
    pub(crate) seat: Ended<Message>,
    pub(crate) end: RequesterEnd,
}

/// Puts Requests until the book has another connection or none.
pub(crate) fn request<R: Clock + Wait>(rt: &R, start: &Start, job: RequestJob) -> HasRequested
    ensures { IsSameEnded job.seat result.seat }
{
    let RequestJob { requests, seat } = job;
    if !start.is_on(rt) {
        return HasRequested {
            seat: seat.end(),
            end: RequesterEnd::Gone,
        };
    }
    let (seat, end) = run_requester(rt, requests, seat);
    HasRequested { seat, end }
}

#[derive(Drop)]
pub(crate) struct WriteJob<'a, O> {
    pub(crate) hello: &'a Hello,
    pub(crate) taker: Taker<Message>,
    pub(crate) bell: Bell,
    pub(crate) writer: O,
}

/// The taker and the stream, or why the writer stopped.
pub(crate) type HasWritten<O> = Result<(Taker<Message>, O), WriterFault>;

/// Writes until the seats have ended. A writer that fails hangs the line up, and drops its taker, so that no seat waits for it.
pub(crate) fn write<R: Clock + Wait, O: Write + Drop, L: Line>(
    rt: &R,
    alloc: Global,
    start: &Start,
    job: WriteJob<O>,
    line: &L,
) -> HasWritten<O>
    ensures { IfOk result (λ written. IsSameQueue job.entry.taker written.0) }
{
    let WriteJob {
        hello,
        mut taker,
        mut bell,
        mut writer,
    } = job;
    if !start.is_on(rt) {
        line.hang_up();
        return Err(WriterFault::Frame(WriteFault::OutOfMemory));
    }
    match run_writer(rt, alloc, hello, &mut taker, &mut bell, &mut writer) {
        Ok(()) => Ok((taker, writer)),
        Err(fault) => {
            line.hang_up();
            Err(fault)
        }
    }
}
