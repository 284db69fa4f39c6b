//! What a run has before its threads start: the last state and journal loaded, its folders made ready, pulls settled.
use crate::begun::{keep_all, make_ready, told_alone};
use crate::failure::RunFailure;
use crate::files::StateFiles;
use crate::journal::StateJournal;
use crate::last_run::{FolderPlans, LastRun, StatePaths, read_last_run};
use crate::marks::{all_forgotten, doubt, require_marks, write_marks};
use crate::naming::at_state;
use crate::nodes::NextNode;
use crate::plans::settle_all;
use crate::starts::renumbered;
use bep_messages::Text;
use node_config::Config;
use node_files::Stores;
use node_state::State;
use node_threads::UnixSockets;
use std::alloc::{AllocError, Global};
use std::net::{Net, TcpListener, TcpStream};
use std::sync::Wait;
use std::thread;
use std::time::{Clock, Duration};

/// How many seconds a run waits first where something may be missing that peers were told. What the last run recorded in its last seconds must not get the
/// same version again: a version is the second of its scan, or one or two more where scans of a name met.
const IN_DOUBT: u64 = 3;

/// What a run has before its threads begin.
#[derive(Drop)]
pub(crate) struct ReadyRun<'a, R> {
    pub(crate) node: NextNode,
    pub(crate) journal: StateJournal<'a, R>,
    pub(crate) plans: Vec<FolderPlans>,
}

impl<'a, R> ReadyRun<'a, R> {
    /// By what the last run left. Notes what is to be told of the folders. Fails by the state file, the addresses and the folders, in this order.
    pub(crate) fn new<T>(
        rt: &'a R,
        alloc: Global,
        stores: &T,
        config: &Config,
        paths: &'a StatePaths<'a>,
        notes: &mut Vec<Text>,
    ) -> Result<ReadyRun<'a, R>, RunFailure>
    where
        R: Clock
            + Net<Listener = TcpListener, Stream = TcpStream>
            + StateFiles
            + UnixSockets
            + Wait,
        T: Stores,
    {
        let last = last_run(rt, alloc, config, paths)?;
        let node = begun(rt, alloc, stores, config, &last)?;
        *notes = noted(rt, alloc, config, &last.state, &node)?;
        if let Some(about) = told_alone(config) {
            notes.push(Text::from_str(alloc, about)?)?;
        }
        settled(rt, alloc, stores, config, paths, node, last)
    }
}

// What the last run left. Where something of it may be missing that peers were told, it is waited for some seconds.
fn last_run<R: Clock + StateFiles + Wait>(
    rt: &R,
    alloc: Global,
    config: &Config,
    paths: &StatePaths,
) -> Result<LastRun, RunFailure> {
    let last = match read_last_run(rt, alloc, config.device, paths) {
        Ok(last) => last,
        Err(failure) => return Err(at_state(alloc, paths.state, failure)),
    };
    if last.is_in_doubt {
        thread::sleep(rt, Duration::from_secs(IN_DOUBT));
    }
    Ok(last)
}

// The node that begins after it.
fn begun<R, T>(
    rt: &R,
    alloc: Global,
    stores: &T,
    config: &Config,
    last: &LastRun,
) -> Result<NextNode, RunFailure>
where
    R: Clock + Net<Listener = TcpListener, Stream = TcpStream> + StateFiles + UnixSockets,
    T: Stores,
{
    let mut node = NextNode::new(rt, alloc, config, &last.state, last.is_in_doubt)?;
    let folders = node.folders.as_slice();
    keep_all(stores, config)?;
    require_marks(rt, alloc, config.device, last, folders, false)?;
    make_ready(alloc, stores, folders)?;
    require_marks(rt, alloc, config.device, last, folders, true)?;
    doubt(rt, alloc, node.folders.as_mut_slice())?;
    Ok(node)
}

// What is to be told of its folders, which are marked then.
fn noted<R: StateFiles>(
    rt: &R,
    alloc: Global,
    config: &Config,
    state: &State,
    node: &NextNode,
) -> Result<Vec<Text>, AllocError> {
    let folders = node.folders.as_slice();
    let notes = all_forgotten(rt, alloc, config.device, state, folders)?;
    write_marks(rt, alloc, config.device, folders)?;
    Ok(notes)
}

// Settles the plans of the last run, and has the journal go on, or begin anew.
fn settled<'a, R: StateFiles, T: Stores>(
    rt: &'a R,
    alloc: Global,
    stores: &T,
    config: &Config,
    paths: &'a StatePaths<'a>,
    node: NextNode,
    last: LastRun,
) -> Result<ReadyRun<'a, R>, RunFailure> {
    let LastRun {
        state,
        mut plans,
        journal: found,
        state_len,
        is_in_doubt,
    } = last;
    let mut node = node;
    node.folders = settle_all(alloc, stores, node.folders, &mut plans)?;
    let journal = match &found {
        Some(found) if !is_in_doubt => {
            StateJournal::behind(rt, alloc, config.device, paths, found, state_len)?
        }
        _ => {
            let state = renumbered(alloc, config, node.index_ids.as_slice(), state)?;
            StateJournal::anew(rt, alloc, config.device, paths, &state, plans.as_slice())?
        }
    };
    Ok(ReadyRun {
        node,
        journal,
        plans,
    })
}
