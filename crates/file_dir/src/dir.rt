//! Open directories of the folder, and the paths of what is in them.
//!
//! The system follows whatever link a path has at that moment. So the directory of a name is opened component by component, each of which must be the
//! directory that was looked at, and what is in it is reached by way of the open directory (`/proc/self/fd/N/NAME`): that leads to it wherever it
//! was moved to, and through no link. Where it is, the link `/proc/self/fd/N` says.
ghost use Rattle.std.specs.Prelude.{IfErr};
ghost use Rattle.file_store.specs.Refusals.{IsPlain};

use crate::disk::Disk;
use crate::found::{FileId, Found};
use crate::refuse::or_fault;
use file_store::StoreRefusal;
use std::alloc::{AllocError, Global};
use std::fs;
use std::fs::OpenFile;
use std::io::ErrorKind;
use std::os::fd::AsRawFd;
use std::rt::Files;

/// A directory of the folder that is open.
#[derive(Drop)]
pub(crate) struct Dir<F> {
    /// Its name, which is empty for the folder itself.
    pub(crate) name: String,
    /// `/proc/self/fd/N`.
    link: String,
    /// What the link said when it was opened.
    place: String,
    /// The folder at that time.
    root: FileId,
    pub(crate) file: F,
}

/// What the directory of a name is.
#[derive(Clone, Copy, PartialEq, Eq)]
pub(crate) enum Parents {
    /// It and those above it are directories.
    There,
    /// It or one above it is missing, and those above that are directories.
    Missing,
    /// It or one above it is something else, as a symbolic link.
    Blocked,
}

/// What is at a name, and the path by which it is reached.
#[derive(Drop)]
pub(crate) struct Entry {
    pub(crate) path: String,
    pub(crate) found: Found,
}

impl<F> Dir<F> {
    /// The path of what has this name in the directory.
    pub(crate) fn path_of(&self, alloc: Global, last: &str) -> Result<String, AllocError> {
        let mut path = String::from_str(alloc, self.link.as_str())?;
        path.push('/')?;
        path.push_str(last)?;
        Ok(path)
    }
}

impl<F: OpenFile + Drop> Dir<F> {
    /// Waits until what has changed in the directory has reached the disk. A file system that can't do that for a directory
    /// is not asked for more; any other error is a fault.
    pub(crate) fn sync(&self) -> Result<(), StoreRefusal>
        ensures { IfErr result IsPlain }
    {
        match self.file.sync_all() {
            Err(error) if is_not_done_here(error.kind()) => Ok(()),
            answer => or_fault(answer),
        }
    }
}

/// Whether an error says that a file system does not do what it was asked for: `EINVAL`, or `ENOSYS` or `EOPNOTSUPP`.
fn is_not_done_here(kind: ErrorKind) -> bool {
    kind == ErrorKind::InvalidInput || kind == ErrorKind::Unsupported
}

/// Whether the directory is still where it was opened, below the same folder. Where that can't be found out, it is not. Fails only if out of memory.
fn is_in_place<R: Files>(disk: &Disk<R>, dir: &Dir<R::File>) -> Result<bool, StoreRefusal>
    ensures { IfErr result IsPlain }
{
    match disk.root_id() {
        Ok(root) if root == dir.root => {}
        _ => return Ok(false),
    }
    if dir.name.is_empty() {
        return Ok(true);
    }
    stands(disk, dir)
}

/// A fault unless the directory is still in its place.
pub(crate) fn require_in_place<R: Files>(
    disk: &Disk<R>,
    dir: &Dir<R::File>,
) -> Result<(), StoreRefusal>
    ensures { IfErr result IsPlain }
{
    if is_in_place(disk, dir)? {
        Ok(())
    } else {
        Err(StoreRefusal::StoreFault)
    }
}

// Where the open directory with this link is.
fn place_of<R: Files>(disk: &Disk<R>, link: &str) -> Result<String, StoreRefusal>
    ensures { IfErr result IsPlain }
{
    match disk.files.read_link(disk.alloc, link) {
        Ok(place) => Ok(place.into_string()),
        Err(error) if error.kind() == ErrorKind::OutOfMemory => Err(StoreRefusal::OutOfMemory),
        Err(_) => Err(StoreRefusal::StoreFault),
    }
}

/// Another handle of the same directory.
pub(crate) fn copy_of<R: Files>(
    disk: &Disk<R>,
    dir: &Dir<R::File>,
) -> Result<Dir<R::File>, StoreRefusal>
where
    R::File: AsRawFd,
    ensures { IfErr result IsPlain }
{
    let file = or_fault(dir.file.try_clone())?;
    Ok(Dir {
        name: String::from_str(disk.alloc, dir.name.as_str())?,
        link: link_of(disk.alloc, &file)?,
        place: String::from_str(disk.alloc, dir.place.as_str())?,
        root: dir.root,
        file,
    })
}

fn link_of<F: AsRawFd>(alloc: Global, file: &F) -> Result<String, AllocError> {
    let number = file.as_raw_fd();
    format!(in alloc; "/proc/self/fd/{number}")
}

/// Opens the directory with this name, unless it is the open one and still in its place; then that is the open one. O(n) for a name of n bytes, and
/// three calls of the system for each component, or two calls where it is open.
pub(crate) fn enter<R: Files>(
    disk: &Disk<R>,
    dir: &mut Option<Dir<R::File>>,
    name: &str,
) -> Result<Parents, StoreRefusal>
where
    R::File: AsRawFd,
    ensures { IfErr result IsPlain }
{
    if let Some(open) = dir {
        if open.name.as_str() == name && is_in_place(disk, open)? {
            return Ok(Parents::There);
        }
    }
    *dir = None;
    let mut at = open_root(disk)?;
    for component in name.split('/') {
        if component.is_empty() {
            continue;
        }
        let path = at.path_of(disk.alloc, component)?;
        let opened = match disk.look(path.as_str())? {
            Found::Directory(id) => open_below(disk, &at, path.as_str(), id)?,
            Found::Nothing => None,
            Found::File(_) | Found::Link | Found::Special => return Ok(Parents::Blocked),
        };
        let Some(opened) = opened else {
            return Ok(Parents::Missing);
        };
        at = opened;
    }
    at.name = String::from_str(disk.alloc, name)?;
    *dir = Some(at);
    Ok(Parents::There)
}

/// Whether the directory is where it was opened. Where that can't be found out, it is not. Fails only if out of memory.
pub(crate) fn stands<R: Files>(disk: &Disk<R>, at: &Dir<R::File>) -> Result<bool, StoreRefusal>
    ensures { IfErr result IsPlain }
{
    match place_of(disk, at.link.as_str()) {
        Ok(place) => Ok(place.as_str() == at.place.as_str()),
        Err(StoreRefusal::OutOfMemory) => Err(StoreRefusal::OutOfMemory),
        Err(_) => Ok(false),
    }
}

/// Opens the folder itself.
pub(crate) fn open_root<R: Files>(disk: &Disk<R>) -> Result<Dir<R::File>, StoreRefusal>
where
    R::File: AsRawFd,
    ensures { IfErr result IsPlain }
{
    let root = disk.root_id()?;
    let file = disk.or_fault(fs::open(&disk.files, disk.root()))?;
    require(&file, root)?;
    let link = link_of(disk.alloc, &file)?;
    let place = place_of(disk, link.as_str())?;
    Ok(Dir {
        name: String::new(disk.alloc),
        link,
        place,
        root,
        file,
    })
}

/// Opens the directory that was just looked at in another one, unless it is gone. A fault where it is none below that one any more.
pub(crate) fn open_below<R: Files>(
    disk: &Disk<R>,
    at: &Dir<R::File>,
    path: &str,
    id: FileId,
) -> Result<Option<Dir<R::File>>, StoreRefusal>
where
    R::File: AsRawFd,
    ensures { IfErr result IsPlain }
{
    // (with the slash a pipe that came there is refused, and not waited for)
    let inside = format!(in disk.alloc; "{path}/")?;
    let file = match fs::open(&disk.files, inside.as_str()) {
        Ok(file) => file,
        Err(error) if error.kind() == ErrorKind::NotFound => return Ok(None),
        Err(error) => return disk.or_fault(Err(error)),
    };
    require(&file, id)?;
    let link = link_of(disk.alloc, &file)?;
    let place = place_of(disk, link.as_str())?;
    if !is_below(place.as_str(), at.place.as_str()) {
        return Err(StoreRefusal::StoreFault);
    }
    Ok(Some(Dir {
        name: String::new(disk.alloc),
        link,
        place,
        root: at.root,
        file,
    }))
}

// A fault unless the open file is that one.
fn require<F: OpenFile>(file: &F, id: FileId) -> Result<(), StoreRefusal>
    ensures { IfErr result IsPlain }
{
    let metadata = or_fault(file.metadata())?;
    if FileId::new(&metadata) == id {
        Ok(())
    } else {
        Err(StoreRefusal::StoreFault)
    }
}

// Whether a place is below another one.
fn is_below(place: &str, above: &str) -> bool {
    match place.strip_prefix(above) {
        Some(rest) => rest.starts_with('/') || above.ends_with('/'),
        None => false,
    }
}

/// What is at a name, and its path: nothing, and no path, if its directory isn't one.
pub(crate) fn find<R: Files>(
    disk: &Disk<R>,
    dir: &mut Option<Dir<R::File>>,
    name: &str,
) -> Result<Entry, StoreRefusal>
where
    R::File: AsRawFd,
    ensures { IfErr result IsPlain }
{
    let parents = enter(disk, dir, folder_of(name))?;
    match (parents, dir) {
        (Parents::There, Some(open)) => {
            let path = open.path_of(disk.alloc, last_of(name))?;
            let found = disk.look(path.as_str())?;
            Ok(Entry { path, found })
        }
        _ => Ok(Entry {
            path: String::new(disk.alloc),
            found: Found::Nothing,
        }),
    }
}

/// The open directory, which there is.
pub(crate) fn open_one<F>(dir: &Option<Dir<F>>) -> Result<&Dir<F>, StoreRefusal>
    ensures { IfErr result IsPlain }
{
    match dir {
        Some(dir) => Ok(dir),
        None => Err(StoreRefusal::StoreFault),
    }
}

/// The name of the directory that a name is in; empty for the folder itself.
pub(crate) fn folder_of(name: &str) -> &str {
    match name.rsplit_once('/') {
        Some((folder, _)) => folder,
        None => "",
    }
}

/// The last component of a name.
pub(crate) fn last_of(name: &str) -> &str {
    match name.rsplit_once('/') {
        Some((_, last)) => last,
        None => name,
    }
}
