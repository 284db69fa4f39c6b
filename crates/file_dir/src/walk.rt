//! All names of the folder.
ghost use Rattle.std.specs.Prelude.{◌≡◌, true, map, bytes_eq, IfOk, IfErr};
ghost use Rattle.std.specs.List.{Any, Contains};
ghost use Rattle.file_store.specs.Listings.{AreAscending, IsInOrder};
ghost use Rattle.file_store.specs.Names.{Name};
ghost use Rattle.file_store.specs.Refusals.{IsPlain};
ghost use Rattle.file_store.specs.declared.node.Listed.{Listed};

use crate::dir::{Dir, Parents, enter, folder_of, last_of, open_one};
use crate::disk::Disk;
use crate::found::Found;
use crate::skipped::{SkipReason, Skipped};
use file_store::{Kind, Listed, Listing, StoreRefusal};
use std::alloc::{AllocError, Global};
use std::io::Read;
use std::os::fd::AsRawFd;
use std::rt::Files;
use sync_names::{NameFault, SafeName, is_temporary};

/// How many bytes of a directory's names are read at once.
const NAMES: usize = 32_768;

/// What a walk through the folder has found.
#[derive(Drop)]
pub(crate) struct Walk {
    /// The safe names of files and directories.
    listed: Vec<Listed>,
    /// The names of directories that could not be read.
    unread: Vec<SafeName>,
    /// The names of temporary files.
    pub(crate) temps: Vec<String>,
    /// The names that are left out, and why.
    skipped: Vec<Skipped>,
    /// The names of directories that are still to be read.
    folders: Vec<String>,
}

/// The most bytes of a component whose temporary name most file systems can hold.
const LONGEST: usize = 240;

/// The safe names of files and directories, and those of directories that can't be read. What is left out is noted.
pub(crate) fn list<R: Files>(
    disk: &Disk<R>,
    skipped: &mut Vec<Skipped>,
) -> Result<Listing, StoreRefusal>
where
    R::File: AsRawFd,
    ensures order { IfOk result IsInOrder }
    ensures refusals { IfErr result IsPlain }
{
    let walk = walk_folder(disk)?;
    *skipped = walk.skipped;
    skipped.sort_by(|a, b| a.name.as_str().cmp(b.name.as_str()))?;
    Ok(Listing {
        entries: in_order(walk.listed)?,
        unread: names_in_order(walk.unread)?,
    })
}

/// The entries in the order of their names, each name once, though a directory that changes while it is read may show one twice.
fn in_order(mut entries: Vec<Listed>) -> Result<Vec<Listed>, AllocError>
    ensures order { IfOk result (λ kept. AreAscending (map (λ e. e.name) kept.items)) }
    ensures all { IfOk result (λ kept. (e : Listed) → Contains entries.items e → Any (λ k. bytes_eq e.name k.name ≡ true) kept.items) }
    ensures no_more { IfOk result (λ kept. (e : Listed) → Contains kept.items e → Contains entries.items e) }
{
    entries.sort_by(|a, b| a.name.cmp(&b.name))?;
    entries.dedup_by(|a, b| a.name == b.name);
    Ok(entries)
}

/// The names in order, each once.
fn names_in_order(mut names: Vec<SafeName>) -> Result<Vec<SafeName>, AllocError>
    ensures order { IfOk result (λ kept. AreAscending kept.items) }
    ensures all { IfOk result (λ kept. (n : Name) → Contains names.items n → Contains kept.items n) }
    ensures no_more { IfOk result (λ kept. (n : Name) → Contains kept.items n → Contains names.items n) }
{
    names.sort()?;
    names.dedup();
    Ok(names)
}

/// Walks through the folder once. A directory is entered when those before it were read, so the stack does not grow with
/// their depth. Fails if the folder itself can't be read, or is gone when all was read. Another directory that can't be read is
/// unread; one that is gone is passed over.
pub(crate) fn walk_folder<R: Files>(disk: &Disk<R>) -> Result<Walk, StoreRefusal>
where
    R::File: AsRawFd,
    ensures { IfErr result IsPlain }
{
    let mut dir = None;
    let mut found = Walk {
        listed: Vec::new(disk.alloc),
        unread: Vec::new(disk.alloc),
        temps: Vec::new(disk.alloc),
        skipped: Vec::new(disk.alloc),
        folders: Vec::new(disk.alloc),
    };
    let mut buffer = vec![in disk.alloc; 0u8; NAMES]?;
    read_folder(disk, &mut dir, "", &mut buffer, &mut found)?;
    for _ in 0..u64::MAX {
        let Some(folder) = found.folders.pop() else {
            break;
        };
        read_below(disk, &mut dir, folder.as_str(), &mut buffer, &mut found)?;
    }
    disk.root_id()?;
    Ok(found)
}

/// Adds what is in a directory below the folder. If that can't be read to its end, the directory is unread, and nothing that is
/// in it is added.
fn read_below<R: Files>(
    disk: &Disk<R>,
    dir: &mut Option<Dir<R::File>>,
    folder: &str,
    buffer: &mut [u8],
    found: &mut Walk,
) -> Result<(), StoreRefusal>
where
    R::File: AsRawFd,
    ensures { IfErr result IsPlain }
{
    let (listed, unread) = (found.listed.len(), found.unread.len());
    let (skipped, folders) = (found.skipped.len(), found.folders.len());
    match read_folder(disk, dir, folder, buffer, found) {
        Err(StoreRefusal::StoreFault) => {
            found.listed.truncate(listed);
            found.unread.truncate(unread);
            found.skipped.truncate(skipped);
            found.folders.truncate(folders);
            add_unread(disk.alloc, folder, found)
        }
        answer => answer,
    }
}

/// Adds what is in a directory, and nothing if it is gone. A fault if it can't be read to its end, or if the folder itself is gone.
fn read_folder<R: Files>(
    disk: &Disk<R>,
    dir: &mut Option<Dir<R::File>>,
    folder: &str,
    buffer: &mut [u8],
    found: &mut Walk,
) -> Result<(), StoreRefusal>
where
    R::File: AsRawFd,
    ensures { IfErr result IsPlain }
{
    match enter(disk, dir, folder)? {
        Parents::There => {}
        Parents::Missing => return Ok(()),
        Parents::Blocked => return Err(StoreRefusal::StoreFault),
    }
    let at = open_one(dir)?;
    let path = at.path_of(disk.alloc, "")?;
    let mut names = disk.or_fault(disk.files.open_dir(path.as_str()))?;
    for _ in 0..u64::MAX {
        match names.read(buffer) {
            Ok(0) => break,
            Ok(count) => add_names(disk, at, folder, &buffer[..count], found)?,
            Err(_) => return Err(StoreRefusal::StoreFault),
        }
    }
    Ok(())
}

/// Adds a directory that can't be read, or the nearest directory above it that has a safe name. A fault if none has one.
fn add_unread(alloc: Global, folder: &str, found: &mut Walk) -> Result<(), StoreRefusal>
    ensures { IfErr result IsPlain }
{
    skip(
        found,
        String::from_str(alloc, folder)?,
        SkipReason::Unreadable,
    )?;
    let mut name = folder;
    for _ in 0..folder.len() {
        match SafeName::parse(alloc, name) {
            Ok(name) => {
                found.unread.push(name).map_err(AllocError::from)?;
                return Ok(());
            }
            Err(NameFault::OutOfMemory) => return Err(StoreRefusal::OutOfMemory),
            Err(_) => name = folder_of(name),
        }
    }
    Err(StoreRefusal::StoreFault)
}

/// Adds what is at some names in a directory, each ended by the byte 0.
fn add_names<R: Files>(
    disk: &Disk<R>,
    at: &Dir<R::File>,
    folder: &str,
    names: &[u8],
    found: &mut Walk,
) -> Result<(), StoreRefusal>
    ensures { IfErr result IsPlain }
{
    for name in names.split(|&byte| byte == 0) {
        if !name.is_empty() {
            add_name(disk, at, folder, name, found)?;
        }
    }
    Ok(())
}

/// Adds what is at a name in a directory. A name that isn't UTF-8 is left out.
fn add_name<R: Files>(
    disk: &Disk<R>,
    at: &Dir<R::File>,
    folder: &str,
    name: &[u8],
    found: &mut Walk,
) -> Result<(), StoreRefusal>
    ensures { IfErr result IsPlain }
{
    let Ok(last) = std::str::from_utf8(name) else {
        let shown = String::from_utf8_lossy(disk.alloc, name)?;
        let shown = join(disk.alloc, folder, shown.as_str())?;
        return skip(found, shown, SkipReason::NotUtf8);
    };
    let name = join(disk.alloc, folder, last)?;
    let path = at.path_of(disk.alloc, last)?;
    if is_temporary(last) {
        add_temporary(disk, path.as_str(), name, found)
    } else {
        add_safe(disk, path.as_str(), name, found)
    }
}

fn skip(found: &mut Walk, name: String, why: SkipReason) -> Result<(), StoreRefusal>
    ensures { IfErr result IsPlain }
{
    found
        .skipped
        .push(Skipped { name, why })
        .map_err(AllocError::from)?;
    Ok(())
}

/// Adds a file under a temporary name. A directory with such a name isn't listed, but there may be safe names in it.
fn add_temporary<R: Files>(
    disk: &Disk<R>,
    path: &str,
    name: String,
    found: &mut Walk,
) -> Result<(), StoreRefusal>
    ensures { IfErr result IsPlain }
{
    match disk.look(path) {
        Ok(Found::Directory(_)) => found.folders.push(name).map_err(AllocError::from)?,
        Ok(Found::File(_)) => found.temps.push(name).map_err(AllocError::from)?,
        Ok(Found::Nothing | Found::Link | Found::Special) => {}
        Err(_) => add_unread(disk.alloc, name.as_str(), found)?,
    }
    Ok(())
}

/// Adds a file or a directory under a safe name. A name that isn't safe is left out, as then are all names below it. What
/// can't be looked at, as a disk that is gone, counts as a directory that can't be read.
fn add_safe<R: Files>(
    disk: &Disk<R>,
    path: &str,
    name: String,
    found: &mut Walk,
) -> Result<(), StoreRefusal>
    ensures { IfErr result IsPlain }
{
    let name = match SafeName::parse(disk.alloc, name.as_str()) {
        Ok(name) => name,
        Err(NameFault::OutOfMemory) => return Err(StoreRefusal::OutOfMemory),
        Err(NameFault::NotNfc) => return skip(found, name, SkipReason::NotNfc),
        Err(_) => return Ok(()),
    };
    match disk.look(path) {
        Ok(Found::Directory(_)) => {
            let folder = String::from_str(disk.alloc, name.as_str())?;
            found.folders.push(folder).map_err(AllocError::from)?;
            add_listed(disk.alloc, name, Kind::Directory, found)
        }
        Ok(Found::File(_)) => add_listed(disk.alloc, name, Kind::File, found),
        Ok(Found::Link) => skip_safe(disk.alloc, &name, SkipReason::Link, found),
        Ok(Found::Special) => skip_safe(disk.alloc, &name, SkipReason::Special, found),
        Ok(Found::Nothing) => Ok(()),
        Err(_) => {
            found.unread.push(name.copy()?).map_err(AllocError::from)?;
            skip_safe(disk.alloc, &name, SkipReason::Unreadable, found)?;
            add_listed(disk.alloc, name, Kind::Directory, found)
        }
    }
}

fn skip_safe(
    alloc: Global,
    name: &SafeName,
    why: SkipReason,
    found: &mut Walk,
) -> Result<(), StoreRefusal>
    ensures { IfErr result IsPlain }
{
    let name = String::from_str(alloc, name.as_str())?;
    skip(found, name, why)
}

fn add_listed(
    alloc: Global,
    name: SafeName,
    kind: Kind,
    found: &mut Walk,
) -> Result<(), StoreRefusal>
    ensures { IfErr result IsPlain }
{
    if last_of(name.as_str()).len() > LONGEST {
        skip_safe(alloc, &name, SkipReason::TooLong, found)?;
    }
    let entry = Listed { name, kind };
    found.listed.push(entry).map_err(AllocError::from)?;
    Ok(())
}

/// A name in a directory.
pub(crate) fn join(alloc: Global, folder: &str, last: &str) -> Result<String, AllocError> {
    let mut name = String::from_str(alloc, folder)?;
    if !folder.is_empty() {
        name.push('/')?;
    }
    name.push_str(last)?;
    Ok(name)
}
