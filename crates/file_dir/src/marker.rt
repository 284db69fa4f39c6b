//! The marker of the folder.
ghost use Rattle.std.specs.Prelude.{◌≡◌, IfErr};
ghost use Rattle.file_store.specs.Refusals.{IsPlain};

use crate::dir::{Dir, find, open_one};
use crate::disk::Disk;
use crate::found::{FileId, Found};
use crate::made::make_directory;
use file_store::StoreRefusal;
use std::alloc::AllocError;
use std::fs::{File, OpenOptions, TryLockError};
use std::io;
use std::os::fd::AsRawFd;
use std::rt::Files;

/// The marker's name, which is no safe name.
const MARKER: &str = ".stfolder";

/// The name of the file in the marker that a run locks.
const LOCK: &str = "bepd.lock";

/// A folder that no other run has, for as long as this is kept.
#[derive(Drop)]
pub struct MarkerLock {
    // The file, unless it can't be opened, under a lock of the system where the disk has such locks.
    _file: Option<File>,
    id: MarkerId,
}

/// Which file was locked, whatever its path. Two directories have other ones, also where one is put in the place of the other.
#[derive(Clone, Copy)]
pub struct MarkerId {
    // Nothing where it could not be opened.
    file: Option<FileId>,
}

impl MarkerLock {
    /// Which file it is of. O(1).
    pub fn id(&self) -> MarkerId
        ensures { result ≡ self.now.id }
    {
        self.id
    }
}

/// Why a folder can't be locked.
#[derive(Clone, Copy, Debug, PartialEq, Eq)]
pub enum LockRefusal {
    /// Another run has the folder.
    InUse,
    /// The folder has no marker.
    StoreFault,
    /// Out of memory.
    OutOfMemory,
}

impl From<AllocError> for LockRefusal {
    fn from(_failed: AllocError) -> LockRefusal {
        LockRefusal::OutOfMemory
    }
}

/// Whether the folder has its marker, a directory or a file.
pub(crate) fn has_marker<R: Files>(
    disk: &Disk<R>,
    dir: &mut Option<Dir<R::File>>,
) -> Result<bool, StoreRefusal>
where
    R::File: AsRawFd,
    ensures { IfErr result IsPlain }
{
    Ok(match find(disk, dir, MARKER)?.found {
        Found::Directory(_) | Found::File(_) => true,
        Found::Nothing | Found::Link | Found::Special => false,
    })
}

/// Whether the folder's marker, or the file in it that a run locks, is that one. Where that one could not be opened, any is.
pub(crate) fn is_marked_by<R: Files>(
    disk: &Disk<R>,
    dir: &mut Option<Dir<R::File>>,
    id: MarkerId,
) -> Result<bool, StoreRefusal>
where
    R::File: AsRawFd,
    ensures { IfErr result IsPlain }
{
    let Some(id) = id.file else {
        return Ok(true);
    };
    let entry = find(disk, dir, MARKER)?;
    if is_it(&entry.found, id) {
        return Ok(true);
    }
    match entry.found {
        Found::Directory(_) => {
            let path = entry.path.as_str();
            let inside = format!(in disk.alloc; "{path}/{LOCK}")?;
            Ok(is_it(&disk.look(inside.as_str())?, id))
        }
        _ => Ok(false),
    }
}

// Whether what was found is that file or directory.
fn is_it(found: &Found, id: FileId) -> bool {
    match found {
        Found::Directory(other) => *other == id,
        Found::File(facts) => facts.id == id,
        Found::Nothing | Found::Link | Found::Special => false,
    }
}

/// Makes the marker, a directory, unless it is there. A fault if a link or the like is at its name.
pub(crate) fn make_marker<R: Files>(
    disk: &Disk<R>,
    dir: &mut Option<Dir<R::File>>,
) -> Result<(), StoreRefusal>
where
    R::File: AsRawFd,
    ensures { IfErr result IsPlain }
{
    let entry = find(disk, dir, MARKER)?;
    match entry.found {
        Found::Directory(_) | Found::File(_) => Ok(()),
        Found::Nothing => {
            let mut lacks_room = false;
            let at = open_one(dir)?;
            make_directory(disk, at, entry.path.as_str(), None, &mut lacks_room)
        }
        Found::Link | Found::Special => Err(StoreRefusal::StoreFault),
    }
}

/// Locks the file in the marker, or the marker itself where that is a file or can't be written.
pub(crate) fn lock_marker<R: Files<File = File>>(
    disk: &Disk<R>,
    dir: &mut Option<Dir<File>>,
) -> Result<MarkerLock, LockRefusal> {
    let entry = match find(disk, dir, MARKER) {
        Ok(entry) => entry,
        Err(StoreRefusal::OutOfMemory) => return Err(LockRefusal::OutOfMemory),
        Err(_) => return Err(LockRefusal::StoreFault),
    };
    let path = entry.path.as_str();
    let file = match entry.found {
        Found::Directory(_) => {
            let inside = format!(in disk.alloc; "{path}/{LOCK}")?;
            let mut options = OpenOptions::new();
            options.read(true).write(true).create(true);
            options
                .open(&disk.files, inside.as_str())
                .or_else(|_| marker_itself(disk, path))
        }
        Found::File(_) => marker_itself(disk, path),
        Found::Nothing | Found::Link | Found::Special => return Err(LockRefusal::StoreFault),
    };
    locked(file)
}

fn marker_itself<R: Files<File = File>>(disk: &Disk<R>, path: &str) -> io::Result<File> {
    File::open(&disk.files, path)
}

// Locks an open file, if it is one. Where there are no such locks nothing is locked.
fn locked(file: io::Result<File>) -> Result<MarkerLock, LockRefusal> {
    let Ok(file) = file else {
        return Ok(MarkerLock {
            _file: None,
            id: MarkerId { file: None },
        });
    };
    let id = match file.metadata() {
        Ok(metadata) => Some(FileId::new(&metadata)),
        Err(_) => None,
    };
    match file.try_lock() {
        Err(TryLockError::WouldBlock) => Err(LockRefusal::InUse),
        Ok(()) | Err(TryLockError::Error(_)) => Ok(MarkerLock {
            _file: Some(file),
            id: MarkerId { file: id },
        }),
    }
}
