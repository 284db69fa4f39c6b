//! Calls on files and directories in their places.
ghost use Rattle.std.specs.Prelude.{◌≡◌, ◌≢◌, ◌≤◌, length, Err, IfOk, IfErr};
ghost use Rattle.file_store.specs.Refusals.{IsPlain};
ghost use Rattle.file_store.specs.declared.refusal.StoreRefusal.TheVariants.{NotEmpty, BadParent};

use crate::dir::{
    Dir, Entry, Parents, enter, find, folder_of, last_of, open_one, require_in_place,
};
use crate::disk::Disk;
use crate::found::Found;
use crate::kept_versions::{place_of, remove_to};
use crate::look::{Look, is_as_seen};
use crate::made::{make_and_open, make_parents};
use crate::mode::directory_of;
use crate::opened::{Opened, reopen};
use crate::replaced::{kept_path, put_new, remove_by_way_of};
use file_store::{Stat, StoreRefusal};
use std::fs;
use std::io::ErrorKind;
use std::os::fd::AsRawFd;
use std::rt::Files;
use std::time::Clock;
use sync_names::SafeName;

/// What is at a name, which then is the last look.
pub(crate) fn stat<R: Files>(
    disk: &Disk<R>,
    dir: &mut Option<Dir<R::File>>,
    look: &mut Option<Look>,
    name: &str,
) -> Result<Stat, StoreRefusal>
where
    R::File: AsRawFd,
    ensures { IfErr result IsPlain }
{
    *look = None;
    let found = find(disk, dir, name)?.found;
    *look = Some(Look::new(String::from_str(disk.alloc, name)?, found));
    Ok(match found {
        Found::Nothing => Stat::Missing,
        Found::Link | Found::Special => Stat::Other,
        Found::Directory(_) => Stat::Directory,
        Found::File(file) => Stat::File(file.len, file.modified),
    })
}

pub(crate) fn read_at<R: Files>(
    disk: &Disk<R>,
    dir: &mut Option<Dir<R::File>>,
    slot: &mut Option<Opened<R::File>>,
    name: &str,
    offset: u64,
    buffer: &mut [u8],
) -> Result<usize, StoreRefusal>
where
    R::File: AsRawFd,
    ensures bound { IfOk result (λ k. k ≤ length buffer.new) }
    ensures refusals { IfErr result IsPlain }
{
    let Entry { path, found } = find(disk, dir, name)?;
    let Found::File(file) = found else {
        return Ok(0);
    };
    if file.len <= offset {
        return Ok(0);
    }
    reopen(disk, slot, name, path.as_str(), file.id)?;
    let left = usize::try_from(file.len - offset).unwrap_or(usize::MAX);
    let room = buffer.len().min(left);
    match slot {
        Some(opened) => opened.read_at(offset, &mut buffer[..room]),
        None => Err(StoreRefusal::StoreFault),
    }
}

/// Moves a file to where nothing is. Both its folders reach the disk before this returns.
pub(crate) fn rename<R: Files>(
    disk: &Disk<R>,
    dir: &mut Option<Dir<R::File>>,
    look: &mut Option<Look>,
    from: &str,
    to: &str,
) -> Result<(), StoreRefusal>
where
    R::File: AsRawFd,
    ensures { result ≢ Err NotEmpty }
{
    *look = None;
    let gone = Look::gone(String::from_str(disk.alloc, from)?);
    match enter(disk, dir, folder_of(to))? {
        Parents::There => {}
        Parents::Missing => return Err(StoreRefusal::StoreFault),
        Parents::Blocked => return Err(StoreRefusal::BadParent),
    }
    let new = open_one(dir)?;
    let mut other = None;
    if folder_of(from) != folder_of(to) {
        enter(disk, &mut other, folder_of(from))?;
        let old = open_one(&other)?;
        move_between(disk, old, new, last_of(from), last_of(to))?;
    } else {
        move_between(disk, new, new, last_of(from), last_of(to))?;
    }
    *look = Some(gone);
    new.sync()?;
    match &other {
        Some(old) => old.sync(),
        None => Ok(()),
    }
}

// Moves a file from one directory to another, where nothing is at its name. It is moved back where one of them is no longer in its place.
fn move_between<R: Files>(
    disk: &Disk<R>,
    old: &Dir<R::File>,
    new: &Dir<R::File>,
    from: &str,
    to: &str,
) -> Result<(), StoreRefusal>
    ensures { IfErr result IsPlain }
{
    let from = old.path_of(disk.alloc, from)?;
    let to = new.path_of(disk.alloc, to)?;
    let (Found::File(_), Found::Nothing) = (disk.look(from.as_str())?, disk.look(to.as_str())?)
    else {
        return Err(StoreRefusal::StoreFault);
    };
    disk.or_fault(fs::rename(&disk.files, from.as_str(), to.as_str()))?;
    let moved = require_both(disk, old, new);
    if moved.is_err() {
        put_new(disk, to.as_str(), from.as_str())?;
    }
    moved
}

fn require_both<R: Files>(
    disk: &Disk<R>,
    old: &Dir<R::File>,
    new: &Dir<R::File>,
) -> Result<(), StoreRefusal>
    ensures { IfErr result IsPlain }
{
    require_in_place(disk, old)?;
    require_in_place(disk, new)
}

/// Removes a file; its directory reaches the disk before this returns. A fault if it changed since the last look, if that was at it, also while it was
/// removed; then it is there again. It is kept as a version, if those are kept.
pub(crate) fn remove<R: Files + Clock>(
    disk: &Disk<R>,
    dir: &mut Option<Dir<R::File>>,
    look: &mut Option<Look>,
    lacks_room: &mut bool,
    name: &SafeName,
) -> Result<(), StoreRefusal>
where
    R::File: AsRawFd,
    ensures { IfErr result IsPlain }
{
    let last = look.take();
    let Entry { path, found } = find(disk, dir, name.as_str())?;
    if !is_as_seen(&last, name.as_str(), &found) {
        return Err(StoreRefusal::StoreFault);
    }
    let Found::File(old) = found else {
        return Err(StoreRefusal::StoreFault);
    };
    let open = open_one(dir)?;
    let gone = Look::gone(String::from_str(disk.alloc, name.as_str())?);
    if disk.habits.keeps_versions {
        let place = place_of(disk, name, lacks_room)?;
        remove_to(disk, open, &place, path.as_str(), &old, lacks_room)?;
    } else {
        let kept = kept_path(disk, open, name)?;
        remove_by_way_of(disk, open, kept.as_str(), path.as_str(), &old)?;
    }
    *look = Some(gone);
    open.sync()
}

pub(crate) fn make_dir<R: Files>(
    disk: &Disk<R>,
    dir: &mut Option<Dir<R::File>>,
    lacks_room: &mut bool,
    name: &str,
) -> Result<(), StoreRefusal>
where
    R::File: AsRawFd,
    ensures { result ≢ Err NotEmpty }
{
    let mode = directory_of(disk.habits);
    make_parents(disk, dir, folder_of(name), mode, lacks_room)?;
    let open = open_one(dir)?;
    let path = open.path_of(disk.alloc, last_of(name))?;
    make_and_open(disk, open, path.as_str(), mode, lacks_room)?;
    Ok(())
}

/// Removes an empty directory; the one that it was in reaches the disk before this returns.
pub(crate) fn remove_dir<R: Files>(
    disk: &Disk<R>,
    dir: &mut Option<Dir<R::File>>,
    look: &mut Option<Look>,
    name: &str,
) -> Result<(), StoreRefusal>
where
    R::File: AsRawFd,
    ensures { result ≢ Err BadParent }
{
    *look = None;
    let Entry { path, found } = find(disk, dir, name)?;
    let Found::Directory(_) = found else {
        return Err(StoreRefusal::StoreFault);
    };
    let path = path.as_str();
    let gone = Look::gone(String::from_str(disk.alloc, name)?);
    match fs::remove_dir(&disk.files, path) {
        Ok(()) => {}
        Err(error) if error.kind() == ErrorKind::DirectoryNotEmpty => {
            return Err(StoreRefusal::NotEmpty);
        }
        Err(error) => return disk.or_fault(Err(error)),
    }
    let open = open_one(dir)?;
    if let Err(refusal) = require_in_place(disk, open) {
        disk.or_fault(fs::create_dir(&disk.files, path))?;
        return Err(refusal);
    }
    *look = Some(gone);
    open.sync()
}
