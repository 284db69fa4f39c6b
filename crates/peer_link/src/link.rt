//! The workers of a connection.
ghost use Rattle.std.specs.Prelude.{◌≡◌, All, IfErr, IfOk};
ghost use Rattle.std.specs.List.{AllZip};
ghost use Rattle.peer_conn.specs.Turns.{OnlySees};
ghost use Rattle.peer_conn.specs.Words.{IsSameEnded, IsSameQueue};
ghost use Rattle.peer_link.specs.Links.{AreEnded, HasReadAll};
ghost use Rattle.peer_reader.specs.Hears.{IsApart};
ghost use Rattle.peer_server.specs.Answered.{Stays};

use crate::channels::Channels;
use crate::end::LinkEnd;
use crate::folders::LinkFolders;
use crate::inbox::LinkInbox;
use crate::jobs::{
    HasIndexed, HasRead, HasRequested, HasServed, HasWritten, IndexJob, PutJobs, ReadJob,
    RequestJob, ServeJob, WriteJob, index, read, request, serve, write,
};
use crate::limits::QUEUE_MESSAGES;
use crate::line::Line;
use crate::start::Start;
use crate::told::ToldFolders;
use bep_frames::Message;
use bep_messages::{ClusterConfig, Hello};
use file_store::{FileStore, Gate};
use peer_asks::AskBook;
use peer_conn::{Ended, KeptCalls, OutQueue, WriterFault, finish_writer};
use std::alloc::Global;
use std::io::{Read, Write};
use std::sync::Wait;
use std::thread::{Threads, join};
use std::time::Clock;
use sync_record::DeviceId;

/// Who is there, and what it is told first.
#[derive(Drop)]
pub struct Greeting<'a> {
    /// The peer.
    pub peer: DeviceId,
    /// Of this device.
    pub hello: &'a Hello,
    /// Of this device.
    pub config: ClusterConfig,
}

/// The streams of a connection, and what hangs it up.
#[derive(Drop)]
pub struct Streams<'a, I, O, L> {
    /// Gives what the peer says.
    pub reader: I,
    /// Takes what it is told.
    pub writer: O,
    /// Hangs the connection up.
    pub line: &'a L,
}

/// Runs a connection until its peer, either stream or a worker ends it, and returns how the workers ended. Five threads work on it: the
/// reader makes the peer's changes, the server answers its Requests, the indexer tells it the folders, the requester puts the Requests of
/// the book, and the writer writes what these put. The book begins and ends with the connection.
///
/// Once the reader, the writer, the indexer or the server ended, the line is hung up, and so the others end too. To end the connection from
/// this side, hang up. That is done here too where the peer says or sends something that the connection can't go on with ([`Anew`](crate::Anew)). Where not all threads
/// begin within 10 seconds, it ends, and the writer, the indexer and the server say that memory is out.
/// Returns the folders in `Err` only where memory for the channels or the folders' ids runs out; then nothing was read or written.
pub fn run_link<R, I, O, S, W, G, L>(
    rt: &R,
    alloc: Global,
    greeting: Greeting,
    folders: LinkFolders<S, W>,
    gate: &G,
    book: &AskBook,
    streams: Streams<I, O, L>,
) -> Result<LinkEnd<S, W>, LinkFolders<S, W>>
where
    R: Clock + Sync + Threads + Wait,
    I: Read + Drop + Send,
    O: Write + Drop + Send,
    S: FileStore + Drop + Send,
    W: KeptCalls + Drop + Send,
    G: Gate + Sync,
    L: Line + Sync,
    requires { All (IsApart W.view greeting.peer) folders.read.items }
    ensures read { IfOk result (λ end. HasReadAll W.view W.folder greeting.entry.peer (I.remaining streams.entry.reader)
        folders.read.items end.reader end.folders.read.items) }
    ensures indexed { IfOk result (λ end. AllZip (OnlySees W.folder W.view) folders.indexed.items
        end.folders.indexed.items) }
    ensures served { IfOk result (λ end. AllZip (Stays S.keeps S.tree W.folder W.view) folders.served.items
        end.folders.served.items) }
    ensures given_back { IfErr result (λ left. left ≡ folders) }
{
    let Greeting {
        peer,
        hello,
        config,
    } = greeting;
    let Streams {
        reader,
        writer,
        line,
    } = streams;
    let Ok((indexer, server, requester, taker, bell)) = OutQueue::open::<Message>(
        alloc,
        QUEUE_MESSAGES,
    ) else {
        return Err(folders);
    };
    let Ok(channels) = Channels::open(alloc) else {
        return Err(folders);
    };
    let Channels {
        to_indexer,
        configs,
        to_server,
        requests,
        to_requester,
        asks,
    } = channels;
    let Ok(told) = ToldFolders::new(alloc, peer, folders.read.as_slice()) else {
        return Err(folders);
    };
    let start = Start::new();
    book.begin(rt, to_requester);
    let inbox = LinkInbox::new(rt, alloc, line, (to_indexer, to_server), book, told);
    let reading = ReadJob {
        peer,
        reader,
        folders: folders.read,
        inbox,
    };
    let putting = PutJobs {
        indexing: IndexJob {
            config,
            configs,
            folders: folders.indexed,
            seat: indexer,
        },
        serving: ServeJob {
            requests,
            folders: folders.served,
            seat: server,
        },
        requesting: RequestJob {
            requests: asks,
            seat: requester,
        },
    };
    let writing = WriteJob {
        hello,
        taker,
        bell,
        writer,
    };
    let (written, (has_read, (has_indexed, (has_served, has_requested)))) = join(
        rt,
        || -> HasWritten<O>
            ensures { IfOk result (λ written. IsSameQueue writing.entry.taker written.0) }
        { write(rt, alloc, &start, writing, line) },
        || -> Workers<S, W>
            requires { All (IsApart W.view reading.peer) reading.folders.items }
            ensures read { HasReadAll W.view W.folder reading.entry.peer (I.remaining reading.entry.reader)
                reading.entry.folders.items result.0.end result.0.folders.items }
            ensures indexer { IsSameEnded putting.indexing.seat result.1.0.seat }
            ensures server { IsSameEnded putting.serving.seat result.1.1.0.seat }
            ensures requester { IsSameEnded putting.requesting.seat result.1.1.1.seat }
            ensures indexed { AllZip (OnlySees W.folder W.view) putting.indexing.folders.items result.1.0.folders.items }
            ensures served { AllZip (Stays S.keeps S.tree W.folder W.view) putting.serving.folders.items result.1.1.0.folders.items }
        { work(rt, alloc, &start, reading, putting, gate, line) },
    );
    let written = finish(
        rt,
        alloc,
        written,
        has_indexed.seat,
        has_served.seat,
        has_requested.seat,
    );
    Ok(LinkEnd {
        reader: has_read.end,
        told: has_read.told,
        indexer: has_indexed.end,
        server: has_served.end,
        requester: has_requested.end,
        written,
        folders: LinkFolders {
            read: has_read.folders,
            served: has_served.folders,
            indexed: has_indexed.folders,
        },
    })
}

type Putters<S, W> = (HasIndexed<W>, (HasServed<S, W>, HasRequested));

type Workers<S, W> = (HasRead<W>, Putters<S, W>);

// Reads, and puts messages, each on a thread of its own.
fn work<R, I, S, W, G, L>(
    rt: &R,
    alloc: Global,
    start: &Start,
    reading: ReadJob<R, I, W, L>,
    putting: PutJobs<S, W>,
    gate: &G,
    line: &L,
) -> Workers<S, W>
where
    R: Clock + Sync + Threads + Wait,
    I: Read + Drop + Send,
    S: FileStore + Drop + Send,
    W: KeptCalls + Drop + Send,
    G: Gate + Sync,
    L: Line + Sync,
    requires { All (IsApart W.view reading.peer) reading.folders.items }
    ensures read { HasReadAll W.view W.folder reading.entry.peer (I.remaining reading.entry.reader)
        reading.entry.folders.items result.0.end result.0.folders.items }
    ensures indexer { IsSameEnded putting.indexing.seat result.1.0.seat }
    ensures server { IsSameEnded putting.serving.seat result.1.1.0.seat }
    ensures requester { IsSameEnded putting.requesting.seat result.1.1.1.seat }
    ensures indexed { AllZip (OnlySees W.folder W.view) putting.indexing.folders.items result.1.0.folders.items }
    ensures served { AllZip (Stays S.keeps S.tree W.folder W.view) putting.serving.folders.items result.1.1.0.folders.items }
{
    join(
        rt,
        || -> HasRead<W>
            requires { All (IsApart W.view reading.peer) reading.folders.items }
            ensures { HasReadAll W.view W.folder reading.entry.peer (I.remaining reading.entry.reader)
                reading.entry.folders.items result.end result.folders.items }
        { read(rt, alloc, start, reading, gate, line) },
        || -> Putters<S, W>
            ensures indexer { IsSameEnded putting.indexing.seat result.0.seat }
            ensures server { IsSameEnded putting.serving.seat result.1.0.seat }
            ensures requester { IsSameEnded putting.requesting.seat result.1.1.seat }
            ensures indexed { AllZip (OnlySees W.folder W.view) putting.indexing.folders.items result.0.folders.items }
            ensures served { AllZip (Stays S.keeps S.tree W.folder W.view) putting.serving.folders.items result.1.0.folders.items }
        { put(rt, alloc, start, putting, gate, line) },
    )
}

// Indexes, serves and requests, each on a thread of its own.
fn put<R, S, W, G, L>(
    rt: &R,
    alloc: Global,
    start: &Start,
    jobs: PutJobs<S, W>,
    gate: &G,
    line: &L,
) -> Putters<S, W>
where
    R: Clock + Sync + Threads + Wait,
    S: FileStore + Drop + Send,
    W: KeptCalls + Drop + Send,
    G: Gate + Sync,
    L: Line + Sync,
    ensures indexer { IsSameEnded jobs.indexing.seat result.0.seat }
    ensures server { IsSameEnded jobs.serving.seat result.1.0.seat }
    ensures requester { IsSameEnded jobs.requesting.seat result.1.1.seat }
    ensures indexed { AllZip (OnlySees W.folder W.view) jobs.indexing.folders.items result.0.folders.items }
    ensures served { AllZip (Stays S.keeps S.tree W.folder W.view) jobs.serving.folders.items result.1.0.folders.items }
{
    let PutJobs {
        indexing,
        serving,
        requesting,
    } = jobs;
    join(
        rt,
        || -> HasIndexed<W>
            ensures same { IsSameEnded indexing.seat result.seat }
            ensures stays { AllZip (OnlySees W.folder W.view) indexing.folders.items result.folders.items }
        { index(rt, alloc, start, indexing, line) },
        || -> (HasServed<S, W>, HasRequested)
            ensures server { IsSameEnded serving.seat result.0.seat }
            ensures requester { IsSameEnded requesting.seat result.1.seat }
            ensures served { AllZip (Stays S.keeps S.tree W.folder W.view) serving.folders.items result.0.folders.items }
        {
            join(
                rt,
                || -> HasServed<S, W>
                    ensures same { IsSameEnded serving.seat result.seat }
                    ensures stays { AllZip (Stays S.keeps S.tree W.folder W.view) serving.folders.items result.folders.items }
                { serve(rt, alloc, start, serving, gate, line) },
                || -> HasRequested
                    ensures { IsSameEnded requesting.seat result.seat }
                { request(rt, start, requesting) },
            )
        },
    )
}

// Writes what is left.
fn finish<R: Wait, O: Write + Drop>(
    rt: &R,
    alloc: Global,
    written: HasWritten<O>,
    indexer: Ended<Message>,
    server: Ended<Message>,
    requester: Ended<Message>,
) -> Result<(), WriterFault>
    requires { IfOk written (λ it. AreEnded it.0 indexer server requester) }
{
    let (mut taker, mut writer) = written?;
    finish_writer(
        rt,
        alloc,
        &mut taker,
        indexer,
        server,
        requester,
        &mut writer,
    )
}
