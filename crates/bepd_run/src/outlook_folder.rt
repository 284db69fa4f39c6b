//! What a run would meet at its start where a folder is.
use crate::failure::RunFailure;
use crate::files::StateFiles;
use crate::last_run::LastRun;
use crate::lock::is_locked;
use crate::marks::{told_elsewhere, told_forgotten};
use crate::probing::{can_be_written, is_directory};
use crate::recorded::{Recorded, is_known, recorded_of};
use bep_messages::Text;
use folder_core::{Counts, FolderCore};
use node_config::FolderConfig;
use node_state::State;
use std::alloc::{AllocError, Global};
use std::fs::{self, File, Files};
use std::io::Write;
use sync_record::DeviceId;

/// Looks at a folder, with what is recorded of it, if that is known. Returns why a run would end by it, if it would; where it would end anyway (`is_over`) that isn't looked for.
pub(crate) fn folder_stop<R: Files<File = File> + StateFiles, O: Write>(
    rt: &R,
    alloc: Global,
    device: DeviceId,
    folder: &FolderConfig,
    last: Option<&LastRun>,
    is_over: bool,
    output: &mut O,
) -> Result<Option<RunFailure>, RunFailure> {
    let counts = match last {
        Some(last) => counts_of(&last.state, &folder.id),
        None => None,
    };
    let is_recorded = matches!(&counts, Some(counts) if is_known(counts));
    let is_new = last.is_some().then_some(!is_recorded);
    let is_ready = tell_folder(rt, alloc, folder, is_new, output)?;
    if is_over {
        return Ok(None);
    }
    if is_new == Some(true) && !is_ready {
        return Ok(Some(no_folder(alloc, folder)?));
    }
    if is_in_use(rt, alloc, folder)? {
        let path = Text::from_str(alloc, folder.path.as_str())?;
        return Ok(Some(RunFailure::FolderInUse(path)));
    }
    let Some(last) = last else {
        return Ok(None);
    };
    let recorded = match &counts {
        Some(counts) => recorded_of(true, counts),
        None if last.is_in_doubt => Recorded::NoNames,
        None => Recorded::Nothing,
    };
    if let Some(stop) = elsewhere(rt, alloc, device, folder, recorded)? {
        return Ok(Some(stop));
    }
    if let Some(about) = told_forgotten(rt, alloc, device, &last.state, &folder.id, &folder.path)? {
        let about = about.as_str();
        writeln!(output, "{about}")?;
    }
    Ok(None)
}

// A new folder can't begin there.
fn no_folder(alloc: Global, folder: &FolderConfig) -> Result<RunFailure, AllocError> {
    let (id, path) = (folder.id.as_str(), folder.path.as_str());
    let about = format!(in alloc;
        "folder {id}: {path}: no directory is there, or it can't be written"
    )?;
    Ok(RunFailure::NoFolder(Text::from_string(about)))
}

// Whether another run has the folder.
fn is_in_use<R: Files<File = File>>(
    rt: &R,
    alloc: Global,
    folder: &FolderConfig,
) -> Result<bool, AllocError> {
    let path = folder.path.as_str();
    is_locked(
        rt,
        alloc,
        format!(in alloc; "{path}/.stfolder/bepd")?.as_str(),
    )
}

// Why a run would end where what is at the folder's path is another one, if it is.
fn elsewhere<R: StateFiles>(
    rt: &R,
    alloc: Global,
    device: DeviceId,
    folder: &FolderConfig,
    recorded: Recorded,
) -> Result<Option<RunFailure>, AllocError> {
    match told_elsewhere(rt, alloc, device, &folder.id, &folder.path, recorded)? {
        Some(found) => Ok(Some(RunFailure::NoFolder(found.about))),
        None => Ok(None),
    }
}

// What is recorded of the folder with this id, if it is stored.
fn counts_of(state: &State, id: &Text) -> Option<Counts> {
    for stored in state.folders.as_slice() {
        if stored.id.as_str() == id.as_str() {
            return Some(stored.folder.counts());
        }
    }
    None
}

// What a run would find where the folder is, of which nothing may have been recorded, if that is known. Returns whether a run could begin there with such a one.
fn tell_folder<R: Files<File = File>, O: Write>(
    rt: &R,
    alloc: Global,
    folder: &FolderConfig,
    is_new: Option<bool>,
    output: &mut O,
) -> Result<bool, RunFailure> {
    let (id, path) = (folder.id.as_str(), folder.path.as_str());
    if !is_directory(rt, path) {
        let why = no_directory(rt, path);
        writeln!(output, "folder {id}: {path}: {why}")?;
        return Ok(false);
    }
    let can_be_written = can_be_written(rt, alloc, path)?;
    if !can_be_written {
        writeln!(output, "folder {id}: {path}: can't be written")?;
    }
    let marker = format!(in alloc; "{path}/.stfolder")?;
    if fs::metadata(rt, marker.as_str()).is_ok() {
        if is_in_use(rt, alloc, folder)? {
            writeln!(output, "folder {id}: {path}: another run has it")?;
        }
        return Ok(true);
    }
    match is_new {
        Some(true) => {
            writeln!(
                output,
                "folder {id}: no marker yet, it is made at the start"
            )?;
        }
        Some(false) => {
            writeln!(
                output,
                "folder {id}: no marker, it is away until .stfolder is there"
            )?;
        }
        None => {}
    }
    Ok(can_be_written)
}

// What is wrong with a path at which no directory is.
fn no_directory<R: Files>(rt: &R, path: &str) -> &'static str {
    match fs::symlink_metadata(rt, path) {
        Ok(_) => "it is no directory, or a link that leads to none",
        Err(_) => "nothing is there: make the directory, or mount its disk",
    }
}
