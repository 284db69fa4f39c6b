//! The lock file of a state: no two runs have it.
use crate::failure::RunFailure;
use crate::files::StateFiles;
use crate::last_run::StatePaths;
use crate::naming::file_failure;
use bep_messages::Text;
use std::alloc::{AllocError, Global};
use std::fs::{File, Files, TryLockError};

/// Takes a state, for as long as the file that is returned is open: `<state>.lock`, under a lock of the system. Fails with `StateInUse` where another run has it.
pub(crate) fn lock_state<F: StateFiles>(
    files: &F,
    alloc: Global,
    paths: &StatePaths,
) -> Result<File, RunFailure> {
    let path = paths.lock.as_str();
    match files.lock_file(path) {
        Ok(file) => Ok(file),
        Err(TryLockError::WouldBlock) => Err(in_use(alloc, paths.state)),
        Err(TryLockError::Error(error)) => Err(file_failure(alloc, "state", path, error)),
    }
}

// Another run has the state.
fn in_use(alloc: Global, state: &str) -> RunFailure {
    match Text::from_str(alloc, state) {
        Ok(path) => RunFailure::StateInUse(path),
        Err(_) => RunFailure::OutOfMemory,
    }
}

/// Whether another run has the state, or a folder: what stands before `.lock`.
pub(crate) fn is_locked<R: Files<File = File>>(
    rt: &R,
    alloc: Global,
    state: &str,
) -> Result<bool, AllocError> {
    let path = format!(in alloc; "{state}.lock")?;
    let Ok(file) = File::open(rt, path.as_str()) else {
        return Ok(false);
    };
    Ok(matches!(file.try_lock(), Err(TryLockError::WouldBlock)))
}
