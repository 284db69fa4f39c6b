//! Files that are kept as versions when they are replaced or removed.
//!
//! At each moment the file is at its name or at its version's, or at both. No version is put over another one: the first name that is free is taken, of the
//! moment and those after it.
ghost use Rattle.std.specs.Prelude.{IfErr};
ghost use Rattle.file_store.specs.Refusals.{IsPlain};

use crate::dir::{Dir, folder_of, last_of};
use crate::disk::Disk;
use crate::found::FileFacts;
use crate::made::make_parents;
use crate::replaced::{put_new, remove_if_there, replace_kept, require_kept};
use crate::version_name::version_name;
use crate::walk::join;
use file_store::StoreRefusal;
use std::alloc::Global;
use std::fs::{self, OpenOptions};
use std::io::ErrorKind;
use std::os::fd::AsRawFd;
use std::os::unix::fs::OpenOptionsExt;
use std::rt::Files;
use std::time::Clock;
use sync_names::SafeName;
use sync_version::Moment;

/// The folder's directory of versions, which is no safe name.
pub(crate) const VERSIONS: &str = ".stversions";

/// The permissions of the directories there: a version can be read by nobody who could not read the file, as in a directory that others may not search.
const PRIVATE_DIRECTORY: u32 = 0o700;

/// The permissions of what holds a version's name until the file is there.
const PRIVATE: u32 = 0o600;

/// How many moments are tried, from now on, until one is free.
const MOMENTS: u64 = 3_600;

/// Where the versions of a file are, and when it is now.
#[derive(Drop)]
pub(crate) struct Place<F> {
    dir: Dir<F>,
    last: String,
    now: u64,
}

impl<F> Place<F> {
    // The path of the version so many seconds after now. A fault if no clock shows that moment.
    fn path_after(&self, alloc: Global, seconds: u64) -> Result<String, StoreRefusal>
        ensures { IfErr result IsPlain }
    {
        let Some(moment) = Moment::new(self.now.saturating_add(seconds)) else {
            return Err(StoreRefusal::StoreFault);
        };
        let last = version_name(alloc, self.last.as_str(), moment)?;
        Ok(self.dir.path_of(alloc, last.as_str())?)
    }
}

/// The place of the versions of a name's file. Missing directories are made, and reach the disk. A fault if a link or a file is in the place of one, or if the
/// clock can't be read. Notes whether the disk lacks room.
pub(crate) fn place_of<R: Files + Clock>(
    disk: &Disk<R>,
    name: &SafeName,
    lacks_room: &mut bool,
) -> Result<Place<R::File>, StoreRefusal>
where
    R::File: AsRawFd,
    ensures { IfErr result IsPlain }
{
    let Ok(now) = disk.files.since_1970() else {
        return Err(StoreRefusal::StoreFault);
    };
    let folder = folder_of(name.as_str());
    let folder = match folder.is_empty() {
        true => String::from_str(disk.alloc, VERSIONS)?,
        false => join(disk.alloc, VERSIONS, folder)?,
    };
    let mode = Some(PRIVATE_DIRECTORY);
    let mut dir = None;
    match make_parents(disk, &mut dir, folder.as_str(), mode, lacks_room) {
        Ok(()) => {}
        Err(StoreRefusal::OutOfMemory) => return Err(StoreRefusal::OutOfMemory),
        Err(_) => return Err(StoreRefusal::StoreFault),
    }
    match dir {
        Some(dir) => Ok(Place {
            dir,
            last: String::from_str(disk.alloc, last_of(name.as_str()))?,
            now: now.as_secs(),
        }),
        None => Err(StoreRefusal::StoreFault),
    }
}

/// Moves a temporary file over another file in the directory, which is kept as a version. A fault if that one changed since it was looked at, also while it was
/// replaced, or can't be kept; then it is there, and no version of it. Notes whether the disk lacks room.
pub(crate) fn replace_to<R: Files>(
    disk: &Disk<R>,
    dir: &Dir<R::File>,
    place: &Place<R::File>,
    temp: &str,
    path: &str,
    old: &FileFacts,
    lacks_room: &mut bool,
) -> Result<(), StoreRefusal>
    ensures { IfErr result IsPlain }
{
    if let Some(kept) = link_to(disk, place, path, lacks_room)? {
        return replace_kept(disk, dir, temp, path, kept.as_str(), old);
    }
    let kept = move_to(disk, dir, place, path, old, lacks_room)?;
    let moved = disk.or_no_room(fs::rename(&disk.files, temp, path), lacks_room);
    if moved.is_err() {
        put_new(disk, kept.as_str(), path)?;
    }
    moved
}

/// Removes a file from the directory, which is kept as a version. A fault if it changed since it was looked at, also while it was removed, or can't be kept; then
/// it is put back, unless something else came there meanwhile, which then stays, and the version with it. Notes whether the disk lacks room.
pub(crate) fn remove_to<R: Files>(
    disk: &Disk<R>,
    dir: &Dir<R::File>,
    place: &Place<R::File>,
    path: &str,
    old: &FileFacts,
    lacks_room: &mut bool,
) -> Result<(), StoreRefusal>
    ensures { IfErr result IsPlain }
{
    move_to(disk, dir, place, path, old, lacks_room)?;
    Ok(())
}

// Gives a file the name of a version too, which reaches the disk. Returns its path, or nothing on a file system without hard links.
fn link_to<R: Files>(
    disk: &Disk<R>,
    place: &Place<R::File>,
    path: &str,
    lacks_room: &mut bool,
) -> Result<Option<String>, StoreRefusal>
    ensures { IfErr result IsPlain }
{
    for seconds in 0..MOMENTS {
        let kept = place.path_after(disk.alloc, seconds)?;
        match fs::hard_link(&disk.files, path, kept.as_str()) {
            Ok(()) => {
                if let Err(refusal) = place.dir.sync() {
                    remove_if_there(disk, kept.as_str())?;
                    return Err(refusal);
                }
                return Ok(Some(kept));
            }
            Err(error) if error.kind() == ErrorKind::AlreadyExists => {}
            Err(error) => {
                return match disk.or_no_room::<()>(Err(error), lacks_room) {
                    Err(_) if *lacks_room => Err(StoreRefusal::StoreFault),
                    _ => Ok(None),
                };
            }
        }
    }
    Err(StoreRefusal::StoreFault)
}

// Moves a file to the name of a version, which reaches the disk, and returns its path. A fault if it changed; then it is put back, as `remove_to` says.
fn move_to<R: Files>(
    disk: &Disk<R>,
    dir: &Dir<R::File>,
    place: &Place<R::File>,
    path: &str,
    old: &FileFacts,
    lacks_room: &mut bool,
) -> Result<String, StoreRefusal>
    ensures { IfErr result IsPlain }
{
    let kept = hold_name(disk, place, lacks_room)?;
    if let Err(refusal) = disk.or_no_room(
        fs::rename(&disk.files, path, kept.as_str()),
        lacks_room,
    ) {
        remove_if_there(disk, kept.as_str())?;
        return Err(refusal);
    }
    match settle(disk, dir, place, kept.as_str(), old) {
        Ok(()) => Ok(kept),
        Err(refusal) => {
            put_new(disk, kept.as_str(), path)?;
            Err(refusal)
        }
    }
}

// Has a file that was moved to a version's name reach the disk there, unless it changed.
fn settle<R: Files>(
    disk: &Disk<R>,
    dir: &Dir<R::File>,
    place: &Place<R::File>,
    kept: &str,
    old: &FileFacts,
) -> Result<(), StoreRefusal>
    ensures { IfErr result IsPlain }
{
    require_kept(disk, dir, kept, old)?;
    place.dir.sync()
}

// Makes an empty file at the first name of a version that is free, so that no other is put there, and what is moved there replaces nothing else.
fn hold_name<R: Files>(
    disk: &Disk<R>,
    place: &Place<R::File>,
    lacks_room: &mut bool,
) -> Result<String, StoreRefusal>
    ensures { IfErr result IsPlain }
{
    let mut options = OpenOptions::new();
    options.write(true).create_new(true).mode(PRIVATE);
    for seconds in 0..MOMENTS {
        let kept = place.path_after(disk.alloc, seconds)?;
        match options.open(&disk.files, kept.as_str()) {
            Ok(_) => return Ok(kept),
            Err(error) if error.kind() == ErrorKind::AlreadyExists => {}
            Err(error) => {
                disk.or_no_room::<()>(Err(error), lacks_room)?;
            }
        }
    }
    Err(StoreRefusal::StoreFault)
}
