//! A run of a node: its folders are opened, its threads run, and its folders are closed.
ghost use Rattle.std.specs.Prelude.{IfOk};
ghost use Rattle.std.specs.Thread.{IsSend, IsSync};
ghost use Rattle.node_threads.specs.Left.{AreLeft};

use crate::answering::{Answering, Console, answer_all, answering_of, end_of};
use crate::callers::{Callers, each_caller, work_callers};
use crate::folders::{Opened, StartFolder, close_all, open_all, rooms_for};
use crate::peers::{Listeners, NodePeer, end_at_stop};
use crate::saver::{Saver, saved_first};
use crate::threads::{IndexIds, Work, work_and_save};
use crate::workers::{Files, FolderFiles, Node};
use file_store::Gate;
use folder_core::FolderCore;
use folder_shared::{Member, SharedFolder};
use node_commands::{CommandLines, CommandsEnd};
use node_context::{Context, Host, Log, NodeFault};
use node_files::Stores;
use node_peer::Reach;
use node_saver::DiskJournal;
use std::alloc::{AllocError, Global};
use std::io::{self, Write};
use std::sync::Wait;
use std::thread::join;

/// What a node begins with.
#[derive(Drop)]
pub struct NodeStart<C> {
    /// The folders.
    pub folders: Vec<StartFolder<C>>,
    /// How the connections with the peers come about.
    pub listeners: Listeners,
    /// Whether peers are believed what they say that they were told of this device's records. If not, the node ends where one was told more than is on the disk.
    pub believes_all: bool,
}

/// What a node is told, and what it reads and writes beside its folders.
#[derive(Drop)]
pub struct NodeOutside<'a, G, J, T> {
    /// The name of this device.
    pub name: &'a str,
    /// The peers.
    pub peers: &'a [NodePeer],
    /// Where a test may hold what its workers do.
    pub gate: &'a G,
    /// What happens is written there, and is on the disk before peers are told of it.
    pub journal: &'a mut J,
    /// Where its folders are.
    pub stores: &'a T,
    /// What is told of it.
    pub log: &'a Log,
}

/// What a node leaves.
#[derive(Drop)]
pub struct NodeEnd<C> {
    /// The records of each folder, in their order.
    pub cores: Vec<C>,
    /// For each peer, in their order, the numbers of its index of each folder that is shared with it, of which there are records; none where memory
    /// for them ran out.
    pub kept: Vec<Vec<u64>>,
    /// For each folder, in their order, the sequence up to which this device's records are in the journal; none where memory for them ran out.
    pub saved: Vec<u64>,
    /// Whether a peer says that it was told more of this device's records than were on the disk when the node began.
    pub is_behind: bool,
    /// How the commands ended; an error where one can't be read, or an answer can't be written.
    pub answered: io::Result<CommandsEnd>,
}

/// Keeps folders alike with peers, and answers the commands of the consoles, each on a thread of its own, until those of one are read to `quit` or to their
/// end, or until the history of a folder is full or a peer was told more than is on the disk: then the connections end, and the node's threads with them.
///
/// Each folder is scanned once, and then as often as it asks for, and looked at for what changed; after the first scan what is needed of it is pulled, twice a second. Each peer has a
/// connection, whose workers are those of [`run_link`](peer_link::run_link): one that this device makes is made again 10 seconds after it ended, and of one
/// that the peer makes there is one at a time: a further one takes its place once its ClusterConfig lists both devices. A connection that ends ends nothing else. What is recorded is written to the
/// journal, and peers are told of it once it is there; a pull puts a file in place once the journal has its plan. All of it is there at the end, unless the
/// journal can't be written.
///
/// Fails before anything is read or written where a folder has open pulls, or memory or threads run out.
pub fn run_node<R, T, C, G, J, L, O>(
    rt: &R,
    alloc: Global,
    start: NodeStart<C>,
    outside: NodeOutside<G, J, T>,
    consoles: &mut [Console<L, O>],
) -> Result<NodeEnd<C>, NodeFault>
where
    R: Host,
    T: Stores + Sync,
    T::Store: Send,
    C: FolderCore + Drop + Send + Sync,
    G: Gate + Sync,
    J: DiskJournal + Send,
    L: CommandLines + Send,
    O: Write + Send,
    ensures left { IfOk result (λ end. AreLeft C.state start.folders.items end.cores.items) }
{
    let NodeStart {
        folders,
        listeners: Listeners { reaches },
        believes_all,
    } = start;
    let opened = open_all(rt, alloc, folders, outside.peers.len(), believes_all)?;
    for reach in reaches.iter() {
        end_at_stop(rt, &opened.connections, reach)?;
    }
    // (made now, so that what is recorded from here on isn't lost for want of them)
    let cores = Vec::with_capacity(alloc, opened.shared.len())?;
    let rooms = rooms_for(alloc, opened.shared.len())?;
    let left = run_opened(rt, alloc, &opened, reaches.as_slice(), outside, consoles)?;
    let saved = saved_of(rt, alloc, &opened).unwrap_or(Vec::new(alloc));
    let is_behind = opened.keeper.is_behind(rt);
    let Opened { shared, .. } = opened;
    let cores = close_all(rt, alloc, cores, rooms, shared)?;
    let Left { kept, answered } = left;
    Ok(NodeEnd {
        cores,
        kept,
        saved,
        is_behind,
        answered,
    })
}

// Up to which sequences the records of the folders are in the journal.
fn saved_of<R: Wait, C: FolderCore + Drop>(
    rt: &R,
    alloc: Global,
    opened: &Opened<C>,
) -> Result<Vec<u64>, AllocError> {
    let count = opened.folders.len();
    let mut saved = Vec::with_capacity(alloc, count)?;
    for place in 0..count {
        saved.push(opened.keeper.kept_up_to(rt, place))?;
    }
    Ok(saved)
}

// What the threads leave.
#[derive(Drop)]
struct Left {
    kept: IndexIds,
    answered: io::Result<CommandsEnd>,
}

// Runs the threads of a node over its folders.
fn run_opened<'x, R, T, C, G, J, L, O>(
    rt: &'x R,
    alloc: Global,
    opened: &'x Opened<C>,
    reaches: &'x [Reach],
    outside: NodeOutside<'x, G, J, T>,
    consoles: &mut [Console<L, O>],
) -> Result<Left, NodeFault>
where
    R: Host,
    T: Stores + Sync,
    T::Store: Send,
    C: FolderCore + Drop + Send + Sync,
    G: Gate + Sync,
    J: DiskJournal + Send,
    L: CommandLines + Send,
    O: Write + Send,
{
    let cx = Context {
        rt,
        alloc,
        gate: outside.gate,
        log: outside.log,
        connections: &opened.connections,
    };
    let folders = opened.folders.as_slice();
    let node = Node {
        name: outside.name,
        folders,
        peers: outside.peers,
        books: opened.books.as_slice(),
        keeper: &opened.keeper,
    };
    let files = Files {
        rt,
        alloc,
        connections: &opened.connections,
        stores: outside.stores,
        folders,
        keeper: &opened.keeper,
    };
    let work = Work {
        files: &files,
        node,
    };
    let shared = opened.shared.as_slice();
    run_members(&cx, &work, reaches, shared, outside.journal, consoles)
}

// Does all that a node does, by members of the shared folders.
fn run_members<'x, R, G, F, C, J, L, O>(
    cx: &Context<'x, R, G>,
    work: &Work<'_, 'x, F>,
    reaches: &'x [Reach],
    shared: &'x [SharedFolder<C>],
    journal: &mut J,
    consoles: &mut [Console<L, O>],
) -> Result<Left, NodeFault>
where
    R: Host,
    G: Gate + Sync,
    F: FolderFiles + Sync,
    F::Store: Send,
    C: FolderCore + Drop + Send + Sync,
    J: DiskJournal + Send,
    L: CommandLines + Send,
    O: Write + Send,
{
    let (rt, alloc) = (cx.rt, cx.alloc);
    let (keeper, folders) = (work.node.keeper, work.node.folders);
    let mut callers = Callers {
        workers: work_callers(rt, alloc, shared, work.node.peers)?,
        savers: each_caller(rt, alloc, shared)?,
    };
    let mut answering = answering_of(alloc, consoles)?;
    let mut saver = Saver {
        folders: saved_first(rt, alloc, keeper, folders)?,
        journal,
    };
    let all = answering.as_mut_slice();
    let kept = run_threads(cx, work, reaches, shared, &mut saver, &mut callers, all)?;
    Ok(Left {
        kept,
        answered: end_of(answering.as_slice()),
    })
}

// Works, saves the records and answers the commands, each on threads of its own. The node stops once the commands end.
fn run_threads<'x, R, G, F, C, J, L, O>(
    cx: &Context<'x, R, G>,
    work: &Work<'_, 'x, F>,
    reaches: &'x [Reach],
    shared: &'x [SharedFolder<C>],
    saver: &mut Saver<'_, J>,
    callers: &mut Callers<Member<'x, C, R>>,
    answering: &mut [Answering<'_, L, O>],
) -> Result<IndexIds, NodeFault>
where
    R: Host,
    G: Gate + Sync,
    F: FolderFiles + Sync,
    F::Store: Send,
    C: FolderCore + Drop + Send + Sync,
    J: DiskJournal + Send,
    L: CommandLines + Send,
    O: Write + Send,
{
    let Callers { workers, savers } = callers;
    let (files, node) = (work.files, work.node);
    let (kept, ()) = join(
        cx.rt,
        || -> Result<IndexIds, NodeFault>
            requires { IsSync R.row × IsSync G.row × IsSync F.row × IsSend J.row × IsSync C.row × IsSend C.row × IsSend F.Store.row }
        {
            work_and_save(
                cx,
                work,
                reaches,
                workers.as_mut_slice(),
                saver,
                savers.as_mut_slice(),
            )
        },
        || -> ()
            requires { IsSync R.row × IsSync G.row × IsSync F.row × IsSync C.row × IsSend C.row × IsSend F.Store.row × IsSend L.row × IsSend O.row }
        { answer_all(cx, files, shared, node, answering) },
    );
    kept
}
