//! What the last run left: its state file, and the journal behind it.
use crate::failure::RunFailure;
use crate::files::StateFiles;
use crate::naming::file_failure;
use bep_messages::{Copied, Items, Text};
use node_journal::{Journal, JournalEnd, JournalFault, JournalHeader, frames_behind, read_journal};
use node_replay::{PullPlan, RecoverFault, RecoveredFolder, recover};
use node_state::{Problem, State, StateFault, StoredFolder, read_state};
use sha2::{Digest, Sha256};
use std::alloc::{AllocError, Global};
use sync_record::DeviceId;

/// Where a state file and its journal are.
#[derive(Drop)]
pub(crate) struct StatePaths<'a> {
    pub(crate) state: &'a str,
    // The state that is to be put in place.
    pub(crate) new_state: String,
    pub(crate) journal: String,
    // The journal that is to be put in place.
    pub(crate) new_journal: String,
    // The file of which a run has the lock.
    pub(crate) lock: String,
}

impl<'a> StatePaths<'a> {
    /// Those of the state file at this path.
    pub(crate) fn new(alloc: Global, state: &'a str) -> Result<StatePaths<'a>, AllocError> {
        Ok(StatePaths {
            state,
            new_state: format!(in alloc; "{state}.new")?,
            journal: format!(in alloc; "{state}.journal")?,
            new_journal: format!(in alloc; "{state}.journal.new")?,
            lock: format!(in alloc; "{state}.lock")?,
        })
    }
}

/// The pulls of a folder of which nobody looked yet whether they put something in place.
#[derive(Drop)]
pub(crate) struct FolderPlans {
    pub(crate) id: Text,
    /// The number of this device's index of the folder.
    pub(crate) index_id: u64,
    pub(crate) plans: Items<PullPlan>,
}

/// A journal that goes on.
#[derive(Drop)]
pub(crate) struct FoundJournal {
    pub(crate) header: JournalHeader,
    /// How many of its bytes count.
    pub(crate) len: u64,
    /// Whether it stands where the next one is made.
    pub(crate) is_new: bool,
}

/// What the last run left.
#[derive(Drop)]
pub(crate) struct LastRun {
    pub(crate) state: State,
    pub(crate) plans: Vec<FolderPlans>,
    /// The journal behind the state, if there is one.
    pub(crate) journal: Option<FoundJournal>,
    /// How many bytes the state file has.
    pub(crate) state_len: u64,
    /// Whether something may be missing that peers were told: there is a state or a journal, and the one is not known by the other, or something in the
    /// journal is no frame.
    pub(crate) is_in_doubt: bool,
}

/// Reads what the last run left. A journal of another device, or of another state, counts for nothing.
pub(crate) fn read_last_run<R: StateFiles>(
    files: &R,
    alloc: Global,
    device: DeviceId,
    paths: &StatePaths,
) -> Result<LastRun, RunFailure> {
    let bytes = read_at(files, alloc, paths.state)?;
    let (state, of) = match &bytes {
        Some(bytes) => {
            let bytes = bytes.as_slice();
            (
                read_state(alloc, device, bytes)?,
                StateBytes::new(bytes, true),
            )
        }
        None => (no_state(alloc), StateBytes::new(&[], false)),
    };
    with_journal(files, alloc, device, paths, state, &of)
}

// The state of which nothing is written.
fn no_state(alloc: Global) -> State {
    State {
        folders: Items::new(alloc),
    }
}

// What is known of the bytes of a state.
#[derive(Clone, Copy, Debug)]
struct StateBytes {
    is_there: bool,
    len: u64,
    digest: [u8; 32],
}

impl StateBytes {
    fn new(bytes: &[u8], is_there: bool) -> StateBytes {
        StateBytes {
            is_there,
            len: bytes.len() as u64,
            digest: Sha256::digest(bytes),
        }
    }
}

// The state with the journal behind it, if there is one, under one of its two names.
fn with_journal<R: StateFiles>(
    files: &R,
    alloc: Global,
    device: DeviceId,
    paths: &StatePaths,
    state: State,
    of: &StateBytes,
) -> Result<LastRun, RunFailure> {
    let mut has_journal = false;
    for is_new in [false, true] {
        let path = if is_new {
            paths.new_journal.as_str()
        } else {
            paths.journal.as_str()
        };
        match journal_at(files, alloc, device, path, &state, of)? {
            Looked::Nothing => {}
            Looked::Unfit => has_journal = true,
            Looked::Found(found) => return Ok(continued(found, is_new, of)),
        }
    }
    Ok(LastRun {
        state,
        plans: Vec::new(alloc),
        journal: None,
        state_len: of.len,
        is_in_doubt: of.is_there || has_journal,
    })
}

// What is at the path of a journal.
#[derive(Drop)]
enum Looked {
    Nothing,
    // A file that is no journal of this device, or one of another state.
    Unfit,
    Found(Behind),
}

// What a journal behind a state comes to with it.
#[derive(Drop)]
struct Behind {
    state: State,
    plans: Vec<FolderPlans>,
    header: JournalHeader,
    // How many of its bytes count.
    len: u64,
    // Whether something in it is no frame.
    is_broken: bool,
}

// Looks for a journal behind the state at a path.
fn journal_at<R: StateFiles>(
    files: &R,
    alloc: Global,
    device: DeviceId,
    path: &str,
    state: &State,
    of: &StateBytes,
) -> Result<Looked, RunFailure> {
    let Some(bytes) = read_at(files, alloc, path)? else {
        return Ok(Looked::Nothing);
    };
    match read_journal(alloc, device, bytes.as_slice()) {
        Ok(journal) => joined(alloc, device, state, &journal, of),
        Err(JournalFault::OutOfMemory) => Err(RunFailure::OutOfMemory),
        Err(_) => Ok(Looked::Unfit),
    }
}

// What a journal comes to with the state, if it is behind that.
fn joined(
    alloc: Global,
    device: DeviceId,
    state: &State,
    journal: &Journal,
    of: &StateBytes,
) -> Result<Looked, RunFailure> {
    let Some(frames) = frames_behind(journal, &of.digest) else {
        return Ok(Looked::Unfit);
    };
    let recovered = recover(alloc, device, state, frames)?;
    let (state, plans) = divided(alloc, recovered)?;
    Ok(Looked::Found(Behind {
        state,
        plans,
        header: journal.header,
        len: journal.kept.len as u64,
        is_broken: journal.kept.end == JournalEnd::Broken,
    }))
}

// The run goes on with that.
fn continued(found: Behind, is_new: bool, of: &StateBytes) -> LastRun {
    let Behind {
        state,
        plans,
        header,
        len,
        is_broken,
    } = found;
    LastRun {
        state,
        plans,
        journal: Some(FoundJournal {
            header,
            len,
            is_new,
        }),
        state_len: of.len,
        is_in_doubt: is_broken,
    }
}

// The bytes of the file at a path, if there is one.
fn read_at<R: StateFiles>(
    files: &R,
    alloc: Global,
    path: &str,
) -> Result<Option<Vec<u8>>, RunFailure> {
    match files.read_file(alloc, path) {
        Ok(bytes) => Ok(bytes),
        Err(error) => Err(file_failure(alloc, "state", path, error)),
    }
}

// The state, and the plans of the folders that have any.
fn divided(
    alloc: Global,
    folders: Items<RecoveredFolder>,
) -> Result<(State, Vec<FolderPlans>), AllocError> {
    let mut stored = Items::<StoredFolder>::new(alloc);
    let mut plans = Vec::new(alloc);
    for folder in folders.into_vec() {
        let RecoveredFolder {
            stored: folder,
            plans: told,
        } = folder;
        if !told.as_slice().is_empty() {
            plans.push(FolderPlans {
                id: folder.id.copy()?,
                index_id: folder.index_id,
                plans: told,
            })?;
        }
        stored.push(folder)?;
    }
    Ok((State { folders: stored }, plans))
}

impl From<RecoverFault> for RunFailure {
    fn from(fault: RecoverFault) -> RunFailure {
        match fault {
            RecoverFault::OutOfMemory => RunFailure::OutOfMemory,
            _ => RunFailure::State(StateFault::BadState(Problem::Records)),
        }
    }
}
