//! Nodes, one after another, and the state that each leaves.
ghost use Rattle.std.specs.Prelude.{◌≡◌, ◌≢◌, ℕ, IfOk};
ghost use Rattle.bepd_run.specs.Renumbered.{all_renumbered};
ghost use Rattle.bepd_run.specs.Starts.{IsLeft, IsStart};

use crate::failure::RunFailure;
use crate::files::StateFiles;
use crate::journal::StateJournal;
use crate::last_run::FolderPlans;
use crate::marks::doubt;
use crate::naming::listen_failure;
use crate::plans::settle_all;
use crate::starts::{
    Core, all_shares, begin_again, folders_of, index_ids_of, peers_of, renumbered, saved_up_to,
};
use file_store::OpenGate;
use node_commands::{CommandLines, CommandsEnd};
use node_config::Config;
use node_context::{Event, Log, NodeFault};
use node_files::Stores;
use node_resume::{Share, index_id_at, resume_all, state_left};
use node_socket::RunEnd;
use node_state::State;
use node_threads::{
    Console, Listeners, NodeEnd, NodeOutside, NodePeer, NodeStart, StartFolder, UnixSockets,
    listen_all, run_node,
};
use std::alloc::{AllocError, Global};
use std::io::{self, Write};
use std::net::{Net, TcpListener, TcpStream};
use std::sync::Wait;
use std::thread::Threads;
use std::time::Clock;

/// What a node begins with.
#[derive(Drop)]
pub(crate) struct NextNode {
    pub(crate) folders: Vec<StartFolder<Core>>,
    pub(crate) index_ids: Vec<u64>,
    pub(crate) peers: Vec<NodePeer>,
    // The folders that are shared with each peer.
    shares: Vec<Vec<Share>>,
    listeners: Listeners,
    // Whether its peers are believed what they say that they were told.
    believes_all: bool,
}

impl NextNode {
    /// By the configuration and the state. Where something may be missing that peers were told (`is_left`), all indexes have a new number.
    pub(crate) fn new<R: Clock + Net<Listener = TcpListener, Stream = TcpStream> + UnixSockets>(
        rt: &R,
        alloc: Global,
        config: &Config,
        state: &State,
        is_left: bool,
    ) -> Result<NextNode, RunFailure>
        ensures { IfOk result (λ node. (new_index_id : ℕ) × (new_index_id ≢ 0) × IsStart config.now state.now new_index_id is_left node) }
    {
        let resumed = resume_all(alloc, config, state, new_index_id(rt), is_left)?;
        let folders = folders_of(alloc, config, resumed)?;
        let index_ids = index_ids_of(alloc, folders.as_slice())?;
        let shares = all_shares(alloc, config, state)?;
        let peers = peers_of(alloc, config, shares.as_slice())?;
        let listeners = match listen_all(rt, alloc, peers.as_slice()) {
            Ok(listeners) => listeners,
            Err(fault) => return Err(listen_failure(alloc, config, fault)),
        };
        Ok(NextNode {
            folders,
            index_ids,
            peers,
            shares,
            listeners,
            believes_all: false,
        })
    }
}

// The number of an index that begins now.
fn new_index_id<R: Clock>(rt: &R) -> u64
    ensures { result ≢ 0 }
{
    match rt.since_1970() {
        Ok(time) => index_id_at(time.as_nanos()),
        Err(_) => index_id_at(0),
    }
}

/// What nodes read and write.
#[derive(Drop)]
pub(crate) struct Outside<'a, T, R> {
    /// Where their folders are.
    pub(crate) stores: &'a T,
    /// What is told of them.
    pub(crate) log: &'a Log,
    /// What happens is written there.
    pub(crate) journal: StateJournal<'a, R>,
    /// The plans of folders that are away.
    pub(crate) plans: Vec<FolderPlans>,
    /// Whether a peer of an earlier node was told more than was on the disk.
    pub(crate) was_behind: bool,
}

// Where one of them reads and writes.
#[derive(Drop)]
struct NodePlace<'a, 'j, T, R> {
    stores: &'a T,
    log: &'a Log,
    journal: &'j mut StateJournal<'a, R>,
}

/// Runs nodes, one after another, until the commands were read to `quit` or to their end, or can't be read or answered any more. (A node ends before that
/// where a history is full, or a folder is back in which the last run may have left something, or the state is an older one than a peer was told of, or was removed.)
/// Then the state is written. Returns whether all commands were answered.
pub(crate) fn run_nodes<R, T, L, O>(
    rt: &R,
    alloc: Global,
    config: &Config,
    node: NextNode,
    outside: Outside<T, R>,
    run: &RunEnd,
    consoles: &mut [Console<L, O>],
) -> Result<io::Result<()>, RunFailure>
where
    R: Clock
        + Net<Listener = TcpListener, Stream = TcpStream>
        + StateFiles
        + Sync
        + Threads
        + UnixSockets
        + Wait,
    T: Stores + Sync,
    T::Store: Send,
    L: CommandLines + Drop + Send,
    O: Write + Drop + Send,
{
    let (mut node, mut outside) = (node, outside);
    for _ in rt.forever() {
        let place = NodePlace {
            stores: outside.stores,
            log: outside.log,
            journal: &mut outside.journal,
        };
        let left = run_once(rt, alloc, config, node, place, consoles)?;
        match follow(rt, alloc, config, left, &mut outside, run)? {
            After::Ended(answered) => return Ok(answered),
            After::Next(next) => node = next,
        }
    }
    unreachable!()
}

// What follows a node.
#[derive(Drop)]
enum After {
    // The end, with whether all commands were answered: the state is written.
    Ended(io::Result<()>),
    // Another node.
    Next(NextNode),
}

// Takes what a node leaves.
fn follow<R, T>(
    rt: &R,
    alloc: Global,
    config: &Config,
    left: NodeLeft,
    outside: &mut Outside<T, R>,
    run: &RunEnd,
) -> Result<After, RunFailure>
where
    R: Clock + Net<Listener = TcpListener, Stream = TcpStream> + StateFiles + UnixSockets + Wait,
    T: Stores,
{
    let NodeLeft {
        state,
        saved,
        is_behind,
        answered,
    } = left;
    outside.was_behind |= is_behind;
    let state = if is_behind {
        told_anew(rt, alloc, config, state, outside)?
    } else {
        state
    };
    match answered {
        Ok(CommandsEnd::Stopped) => {
            if outside.journal.bring_back(&state, outside.plans.as_slice()) {
                outside.log.tell(rt, &Event::KeptAgain);
                run.renew(rt);
            }
            let node = next_node(rt, alloc, config, &state, saved.as_slice(), outside)?;
            Ok(After::Next(node))
        }
        Ok(CommandsEnd::Read) => ended(&state, Ok(()), outside),
        Err(error) => ended(&state, Err(error), outside),
    }
}

// The commands ended so, and the state is written.
fn ended<R: StateFiles, T>(
    state: &State,
    answered: io::Result<()>,
    outside: &mut Outside<T, R>,
) -> Result<After, RunFailure> {
    outside.journal.replace(state, outside.plans.as_slice())?;
    Ok(After::Ended(answered))
}

// The state, in which all indexes have a new number, so that everything is told again. It is written.
fn told_anew<R: Clock + StateFiles, T>(
    rt: &R,
    alloc: Global,
    config: &Config,
    state: State,
    outside: &mut Outside<T, R>,
) -> Result<State, RunFailure> {
    let state = with_new_number(rt, alloc, config, state)?;
    outside.journal.replace(&state, outside.plans.as_slice())?;
    Ok(state)
}

// The node that begins with the state after one that stopped, and whose records are in the journal up to these sequences.
fn next_node<R, T>(
    rt: &R,
    alloc: Global,
    config: &Config,
    state: &State,
    saved: &[u64],
    outside: &mut Outside<T, R>,
) -> Result<NextNode, RunFailure>
where
    R: Clock + Net<Listener = TcpListener, Stream = TcpStream> + StateFiles + UnixSockets,
    T: Stores,
{
    let mut node = NextNode::new(rt, alloc, config, state, false)?;
    doubt(rt, alloc, node.folders.as_mut_slice())?;
    // (a peer that says so once more is a bad one, and harms itself alone)
    node.believes_all = outside.was_behind;
    begin_again(alloc, outside.stores, node.folders.as_slice());
    let folders = settle_all(alloc, outside.stores, node.folders, &mut outside.plans)?;
    node.folders = saved_up_to(folders, saved);
    Ok(node)
}

// The state, in which the index of each folder has a new number.
fn with_new_number<R: Clock>(
    rt: &R,
    alloc: Global,
    config: &Config,
    state: State,
) -> Result<State, AllocError>
    ensures { IfOk result (λ all. (new_index_id : ℕ) × (new_index_id ≢ 0) × (all.folders ≡ all_renumbered config.now new_index_id state.folders)) }
{
    let numbers = vec![in alloc; new_index_id(rt); config.folders.as_slice().len()]?;
    renumbered(alloc, config, numbers.as_slice(), state)
}

// What a node leaves.
#[derive(Drop)]
pub(crate) struct NodeLeft {
    state: State,
    // The sequences up to which its records are in the journal.
    saved: Vec<u64>,
    // Whether a peer was told more than was on the disk.
    is_behind: bool,
    // How the commands ended.
    answered: io::Result<CommandsEnd>,
}

// Runs a node.
fn run_once<R, T, L, O>(
    rt: &R,
    alloc: Global,
    config: &Config,
    node: NextNode,
    place: NodePlace<T, R>,
    consoles: &mut [Console<L, O>],
) -> Result<NodeLeft, RunFailure>
where
    R: Clock
        + Net<Listener = TcpListener, Stream = TcpStream>
        + StateFiles
        + Sync
        + Threads
        + UnixSockets
        + Wait,
    T: Stores + Sync,
    T::Store: Send,
    L: CommandLines + Drop + Send,
    O: Write + Drop + Send,
    ensures left { IfOk result (λ left. IsLeft config.now node left.state) }
{
    let NextNode {
        folders,
        index_ids,
        peers,
        shares,
        listeners,
        believes_all,
    } = node;
    let count = config.folders.as_slice().len();
    if folders.len() != count || index_ids.len() != count {
        return Err(RunFailure::from(NodeFault::NoFolder));
    }
    let start = NodeStart {
        folders,
        listeners,
        believes_all,
    };
    let NodePlace {
        stores,
        log,
        journal,
    } = place;
    let outside = NodeOutside {
        name: config.name.as_str(),
        peers: peers.as_slice(),
        gate: &OpenGate,
        journal,
        stores,
        log,
    };
    let NodeEnd {
        cores,
        kept,
        saved,
        is_behind,
        answered,
    } = run_node(rt, alloc, start, outside, consoles)?;
    let state = state_left(
        alloc,
        config,
        index_ids.as_slice(),
        shares.as_slice(),
        cores,
        kept.as_slice(),
    )?;
    Ok(NodeLeft {
        state,
        saved,
        is_behind,
        answered,
    })
}
