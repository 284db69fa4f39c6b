//! Versions that are old.
ghost use Rattle.std.specs.Prelude.{IfErr};
ghost use Rattle.file_store.specs.Refusals.{IsPlain};

use crate::dir::{Dir, Parents, enter, find, open_one};
use crate::disk::Disk;
use crate::found::Found;
use crate::kept_versions::VERSIONS;
use crate::version_name::is_version_before;
use crate::walk::join;
use file_store::StoreRefusal;
use std::alloc::AllocError;
use std::fs;
use std::io::Read;
use std::os::fd::AsRawFd;
use std::rt::Files;

/// How many bytes of a directory's names are read at once.
const NAMES: usize = 32_768;

/// Removes the versions of moments before so many seconds since 1970, and the directories below `.stversions` that are empty then. Returns how many files
/// were removed. What can't be read or removed is passed over, and no link is followed. A fault if the folder itself is gone.
pub(crate) fn remove_versions<R: Files>(disk: &Disk<R>, before: u64) -> Result<usize, StoreRefusal>
where
    R::File: AsRawFd,
    ensures { IfErr result IsPlain }
{
    disk.root_id()?;
    let mut folders = Vec::new(disk.alloc);
    let top = String::from_str(disk.alloc, VERSIONS)?;
    folders.push(top).map_err(AllocError::from)?;
    let mut removed = 0usize;
    for at in 0..usize::MAX {
        let Some(folder) = folders.get(at) else {
            break;
        };
        let folder = String::from_str(disk.alloc, folder.as_str())?;
        let count = remove_from(disk, folder.as_str(), before, &mut folders)?;
        removed = removed.saturating_add(count);
    }
    // (what is in a directory was found after it)
    for folder in folders.iter().rev() {
        if folder.as_str() != VERSIONS {
            remove_if_empty(disk, folder.as_str())?;
        }
    }
    Ok(removed)
}

// Removes those in one directory, and adds the directories in it.
fn remove_from<R: Files>(
    disk: &Disk<R>,
    folder: &str,
    before: u64,
    folders: &mut Vec<String>,
) -> Result<usize, StoreRefusal>
where
    R::File: AsRawFd,
    ensures { IfErr result IsPlain }
{
    let mut dir = None;
    match enter(disk, &mut dir, folder) {
        Ok(Parents::There) => {}
        Err(StoreRefusal::OutOfMemory) => return Err(StoreRefusal::OutOfMemory),
        _ => return Ok(0),
    }
    let at = open_one(&dir)?;
    let mut removed = 0usize;
    for last in &names_in(disk, at)? {
        let path = at.path_of(disk.alloc, last.as_str())?;
        match disk.look(path.as_str()) {
            Ok(Found::Directory(_)) => {
                let below = join(disk.alloc, folder, last.as_str())?;
                folders.push(below).map_err(AllocError::from)?;
            }
            Ok(Found::File(_)) if is_version_before(last.as_str(), before) => {
                if fs::remove_file(&disk.files, path.as_str()).is_ok() {
                    removed = removed.saturating_add(1);
                }
            }
            _ => {}
        }
    }
    Ok(removed)
}

// The names in a directory, but for those that are not UTF-8: no version has one. None where it can't be read to its end.
fn names_in<R: Files>(disk: &Disk<R>, at: &Dir<R::File>) -> Result<Vec<String>, StoreRefusal>
    ensures { IfErr result IsPlain }
{
    let mut found = Vec::new(disk.alloc);
    let mut buffer = vec![in disk.alloc; 0u8; NAMES]?;
    let path = at.path_of(disk.alloc, "")?;
    let Ok(mut names) = disk.or_fault(disk.files.open_dir(path.as_str())) else {
        return Ok(found);
    };
    for _ in 0..u64::MAX {
        match names.read(&mut buffer) {
            Ok(0) => break,
            Ok(count) => add_names(disk, &buffer[..count], &mut found)?,
            Err(_) => return Ok(Vec::new(disk.alloc)),
        }
    }
    Ok(found)
}

// Adds some names, each ended by the byte 0.
fn add_names<R: Files>(
    disk: &Disk<R>,
    names: &[u8],
    found: &mut Vec<String>,
) -> Result<(), StoreRefusal>
    ensures { IfErr result IsPlain }
{
    for name in names.split(|&byte| byte == 0) {
        match std::str::from_utf8(name) {
            Ok(name) if !name.is_empty() => {
                let name = String::from_str(disk.alloc, name)?;
                found.push(name).map_err(AllocError::from)?;
            }
            _ => {}
        }
    }
    Ok(())
}

// Removes a directory, if it is empty.
fn remove_if_empty<R: Files>(disk: &Disk<R>, folder: &str) -> Result<(), StoreRefusal>
where
    R::File: AsRawFd,
    ensures { IfErr result IsPlain }
{
    let mut dir = None;
    match find(disk, &mut dir, folder) {
        Ok(entry) => {
            if let Found::Directory(_) = entry.found {
                let _ = fs::remove_dir(&disk.files, entry.path.as_str());
            }
            Ok(())
        }
        Err(StoreRefusal::OutOfMemory) => Err(StoreRefusal::OutOfMemory),
        Err(_) => Ok(()),
    }
}
