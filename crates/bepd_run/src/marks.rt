//! What the marker of a folder says of whose it is: so a path that leads elsewhere is noticed before what is missing there counts as deleted, and a mistyped id
//! before what was recorded under the right one is dropped.
ghost use Rattle.std.specs.Prelude.{◌≡◌};
ghost use Rattle.bepd_run.specs.Marks.{is_elsewhere};

use crate::failure::RunFailure;
use crate::files::StateFiles;
use crate::last_run::LastRun;
use crate::recorded::{Recorded, is_stored, recorded_of};
use crate::starts::Core;
use bep_messages::Text;
use folder_core::FolderCore;
use node_state::State;
use node_threads::StartFolder;
use std::alloc::{AllocError, Global};
use std::io::ErrorKind;
use std::str;
use sync_record::DeviceId;

/// Fails where a directory is at a folder's path whose marker a run made for another folder, or as another device, and where names are recorded of the folder and no run
/// made the marker. What another device had of the same folder is taken where nothing is, or may be, stored of it. One that isn't there, or has no marker, is away or new, and one whose marker is no directory says nothing. Before the folders are taken only
/// those fail that no run had: that another run has one goes before whose it is, and taking one makes the file.
pub(crate) fn require_marks<F: StateFiles>(
    files: &F,
    alloc: Global,
    device: DeviceId,
    last: &LastRun,
    folders: &[StartFolder<Core>],
    are_taken: bool,
) -> Result<(), RunFailure> {
    for folder in folders {
        let (id, path) = (&folder.settings.id, &folder.settings.path);
        let recorded = recorded_of(may_be_stored(last, id), &folder.core.counts());
        if let Some(found) = told_elsewhere(files, alloc, device, id, path, recorded)? {
            if are_taken || !found.has_mark {
                return Err(RunFailure::NoFolder(found.about));
            }
        }
    }
    Ok(())
}

/// Whether something is stored of the folder with this id, or may be: in a journal that counts for nothing, as one of another device.
pub(crate) fn may_be_stored(last: &LastRun, id: &Text) -> bool {
    last.is_in_doubt || is_stored(&last.state, id)
}

/// That what is at a folder's path isn't the folder.
#[derive(Drop)]
pub(crate) struct Elsewhere {
    /// Which one, and what to do.
    pub(crate) about: Text,
    /// Whether its marker was made for another one, and not by nobody.
    pub(crate) has_mark: bool,
}

/// Says that what is at the path of a folder isn't that folder, if it isn't.
pub(crate) fn told_elsewhere<F: StateFiles>(
    files: &F,
    alloc: Global,
    device: DeviceId,
    id: &Text,
    path: &Text,
    recorded: Recorded,
) -> Result<Option<Elsewhere>, AllocError> {
    let (id, path) = (id.as_str(), path.as_str());
    if !files.is_directory(format!(in alloc; "{path}/.stfolder")?.as_str()) {
        return Ok(None);
    }
    let at = mark_path(alloc, path)?;
    let own = mark_text(alloc, device, id)?;
    let Found::Read(found) = mark_at(files, alloc, at.as_str())? else {
        return Ok(None);
    };
    let found = match &found {
        Some(bytes) => Some(bytes.as_slice()),
        None => None,
    };
    let folder = folder_text(alloc, id)?;
    if !is_elsewhere(recorded, found, own.as_bytes(), folder.as_bytes()) {
        return Ok(None);
    }
    let about = match (found, recorded) {
        (Some(text), Recorded::Names) => since_kept_as(alloc, id, path, at.as_str(), text)?,
        (Some(text), _) => kept_as(alloc, id, path, at.as_str(), text)?,
        (None, _) => format!(in alloc;
            "folder {id}: {path}: the names that are recorded of the folder were in another directory, or on another disk: mend the path, or mount the disk. If they belong here, make the file {at} empty: what is missing here is deleted on all devices then"
        )?,
    };
    Ok(Some(Elsewhere {
        about: Text::from_string(about),
        has_mark: found.is_some(),
    }))
}

// What the file of a marker has.
#[derive(Drop)]
enum Found {
    // Nothing, where there is none.
    Read(Option<Vec<u8>>),
    // It can't be read.
    Unread,
}

// Reads the file of a marker.
fn mark_at<F: StateFiles>(files: &F, alloc: Global, at: &str) -> Result<Found, AllocError> {
    match files.read_file(alloc, at) {
        Ok(found) => Ok(Found::Read(found)),
        Err(error) if error.kind() == ErrorKind::OutOfMemory => Err(AllocError),
        Err(_) => Ok(Found::Unread),
    }
}

// Says of a folder of which no name is recorded that its marker was made for another one, by this text.
fn kept_as(
    alloc: Global,
    id: &str,
    path: &str,
    at: &str,
    text: &[u8],
) -> Result<String, AllocError> {
    let whose = whose(alloc, text)?;
    format!(in alloc;
        "folder {id}: {path}: a run had this directory as {whose}: mend the id, `device` or the path in the configuration. If {id} is to begin anew there, make the file {at} empty: what was deleted here can come back then"
    )
}

// Says of a folder of which names are recorded that a run has made its marker for another one since, by this text.
fn since_kept_as(
    alloc: Global,
    id: &str,
    path: &str,
    at: &str,
    text: &[u8],
) -> Result<String, AllocError> {
    let whose = whose(alloc, text)?;
    format!(in alloc;
        "folder {id}: {path}: a run had this directory as {whose} last: mend the id, `device` or the path in the configuration, or mount the disk. If that run was a mistake, and the names that are recorded of {id} belong here, make the file {at} empty: what is missing here is deleted on all devices then"
    )
}

// Whose a marker with this text is, on one line.
fn whose(alloc: Global, text: &[u8]) -> Result<String, AllocError> {
    let mut whose = String::new(alloc);
    let Ok(text) = str::from_utf8(text) else {
        whose.push_str("something else")?;
        return Ok(whose);
    };
    for line in text.lines() {
        if !whose.is_empty() {
            whose.push_str(", ")?;
        }
        whose.push_str(line)?;
    }
    Ok(whose)
}

/// Says that the state has nothing of a folder that a run had, as this device or another one, if it is so.
pub(crate) fn told_forgotten<F: StateFiles>(
    files: &F,
    alloc: Global,
    device: DeviceId,
    state: &State,
    id: &Text,
    path: &Text,
) -> Result<Option<Text>, AllocError> {
    if is_stored(state, id) {
        return Ok(None);
    }
    let (id, path) = (id.as_str(), path.as_str());
    let (own, folder) = (mark_text(alloc, device, id)?, folder_text(alloc, id)?);
    let Found::Read(Some(text)) = mark_at(files, alloc, mark_path(alloc, path)?.as_str())? else {
        return Ok(None);
    };
    let text = text.as_slice();
    let about = if text == own.as_bytes() {
        format!(in alloc;
            "folder {id}: nothing is recorded of it, though a run of this device had it: if its state was another file, end this run and mend `state` in the configuration, or what was deleted here and on other devices can come back"
        )?
    } else if text.ends_with(folder.as_bytes()) {
        let whose = whose(alloc, text)?;
        format!(in alloc;
            "folder {id}: nothing is recorded of it, and a run had it as {whose}: if that was this device, end this run and mend `device` and `state` in the configuration, or what was deleted here and on other devices can come back"
        )?
    } else {
        return Ok(None);
    };
    Ok(Some(Text::from_string(about)))
}

/// Says so of each folder of which it is so.
pub(crate) fn all_forgotten<F: StateFiles>(
    files: &F,
    alloc: Global,
    device: DeviceId,
    state: &State,
    folders: &[StartFolder<Core>],
) -> Result<Vec<Text>, AllocError> {
    let mut all = Vec::new(alloc);
    for folder in folders {
        let (id, path) = (&folder.settings.id, &folder.settings.path);
        if let Some(about) = told_forgotten(files, alloc, device, state, id, path)? {
            all.push(about)?;
        }
    }
    Ok(all)
}

/// Notes of each folder whether it is doubted: its marker's file is empty, as one that a run made where a folder came back as another directory, and of the names that are
/// recorded of it none is there. O(n) for n such names.
pub(crate) fn doubt<F: StateFiles>(
    files: &F,
    alloc: Global,
    folders: &mut [StartFolder<Core>],
) -> Result<(), AllocError> {
    for folder in folders.iter_mut() {
        folder.is_doubted = is_unclaimed(files, alloc, folder)?
            && has_lost_names(files, alloc, folder)?;
    }
    Ok(())
}

// Whether the folder has a marker's file, and that is empty.
fn is_unclaimed<F: StateFiles>(
    files: &F,
    alloc: Global,
    folder: &StartFolder<Core>,
) -> Result<bool, AllocError> {
    let at = mark_path(alloc, folder.settings.path.as_str())?;
    match mark_at(files, alloc, at.as_str())? {
        Found::Read(Some(text)) => Ok(text.is_empty()),
        Found::Read(None) | Found::Unread => Ok(false),
    }
}

// How many records are read at once.
const PAGE_RECORDS: usize = 64;

// Whether names are recorded of the folder, and none of them is there.
fn has_lost_names<F: StateFiles>(
    files: &F,
    alloc: Global,
    folder: &StartFolder<Core>,
) -> Result<bool, AllocError> {
    let path = folder.settings.path.as_str();
    let (mut after, mut is_lost) = (0u64, false);
    for _ in 0..u64::MAX {
        let page = folder.core.local_since(after, PAGE_RECORDS)?;
        let Some(last) = page.as_slice().last() else {
            break;
        };
        after = last.sequence();
        for record in page.as_slice() {
            if record.is_deleted() {
                continue;
            }
            let name = record.name().as_str();
            if files.is_there(format!(in alloc; "{path}/{name}")?.as_str()) {
                return Ok(false);
            }
            is_lost = true;
        }
    }
    Ok(is_lost)
}

/// Writes into the marker of each folder that this run has whose it is, but for those that are doubted. Where that can't be written, nothing is noticed later.
pub(crate) fn write_marks<F: StateFiles>(
    files: &F,
    alloc: Global,
    device: DeviceId,
    folders: &[StartFolder<Core>],
) -> Result<(), AllocError> {
    for folder in folders.iter().filter(|folder| !folder.is_doubted) {
        let settings = &folder.settings;
        let at = mark_path(alloc, settings.path.as_str())?;
        let own = mark_text(alloc, device, settings.id.as_str())?;
        // (where the folder isn't there, or has no marker, there is no such file)
        if let Ok(Some(found)) = files.read_file(alloc, at.as_str()) {
            if found.as_slice() != own.as_bytes() {
                let _ = files.make_file(at.as_str(), own.as_bytes());
            }
        }
    }
    Ok(())
}

// The file of a marker that a run locks.
fn mark_path(alloc: Global, path: &str) -> Result<String, AllocError> {
    format!(in alloc; "{path}/.stfolder/bepd.lock")
}

// What it has.
fn mark_text(alloc: Global, device: DeviceId, id: &str) -> Result<String, AllocError> {
    let device = hex::encode(alloc, device.bytes())?;
    let folder = folder_text(alloc, id)?;
    format!(in alloc; "device {device}{folder}")
}

// How it ends, whichever device it is of.
fn folder_text(alloc: Global, id: &str) -> Result<String, AllocError> {
    format!(in alloc; "\nfolder {id}\n")
}

// Whether a marker with this text, if it has one, is another one's than the folder's, of which its own text and the end of that are these. An empty one was made by a
// run of before.
fn is_elsewhere(recorded: Recorded, found: Option<&[u8]>, own: &[u8], folder: &[u8]) -> bool
    ensures { result ≡ is_elsewhere recorded found.entry own.now folder.now }
{
    match found {
        None => recorded == Recorded::Names,
        Some(text) => {
            let is_taken_over = recorded == Recorded::Nothing && text.ends_with(folder);
            !text.is_empty() && text != own && !is_taken_over
        }
    }
}
