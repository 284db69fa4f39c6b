//! Temporary files.
ghost use Rattle.std.specs.Prelude.{◌≢◌, Err, IfErr};
ghost use Rattle.file_store.specs.Refusals.{IsPlain};
ghost use Rattle.file_store.specs.declared.refusal.StoreRefusal.TheVariants.{NotEmpty};

use crate::changes;
use crate::dir::{Dir, Entry, copy_of, find, folder_of, last_of, open_one, require_in_place};
use crate::disk::Disk;
use crate::found::Found;
use crate::kept_versions::{place_of, replace_to};
use crate::look::{Look, is_as_seen};
use crate::made::make_parents;
use crate::mode::{create, directory_of, permissions_at};
use crate::opened::{Access, Opened, open};
use crate::replaced::{kept_path, put_temp, remove_if_there, replace};
use file_store::{Stat, StoreRefusal};
use std::fs;
use std::os::fd::AsRawFd;
use std::rt::Files;
use std::time::{Clock, SystemTime};
use sync_names::{SafeName, temp_name};

/// What a store writes.
#[derive(Drop)]
pub(crate) struct Writing<F> {
    /// The temporary file that is open, and its directory, by which it is reached wherever that is moved to.
    pub(crate) open: Option<(Dir<F>, Opened<F>)>,
    /// The modification time that the file of this name is to have.
    pub(crate) modified: Option<(String, SystemTime)>,
    /// Whether the last fault came of a disk without room.
    pub(crate) lacks_room: bool,
}

impl<F> Writing<F> {
    /// Nothing.
    pub(crate) fn new() -> Writing<F> {
        Writing {
            open: None,
            modified: None,
            lacks_room: false,
        }
    }

    fn modified_of(&self, name: &SafeName) -> Option<SystemTime> {
        match &self.modified {
            Some((of, time)) if of.as_str() == name.as_str() => Some(*time),
            _ => None,
        }
    }
}

/// Makes an empty temporary file, which then is the open one, and missing parents. What was at its path is removed; a
/// symbolic link there is not followed, and a directory is a fault. If a file is at the name, no others than those who may
/// read that file may read the temporary one; if none is, none but those whom the folder's habits allow.
pub(crate) fn make_temp<R: Files>(
    disk: &Disk<R>,
    dir: &mut Option<Dir<R::File>>,
    writing: &mut Writing<R::File>,
    name: &SafeName,
) -> Result<(), StoreRefusal>
where
    R::File: AsRawFd,
    ensures { result ≢ Err NotEmpty }
{
    let temp = temp_name(name)?;
    writing.open = None;
    writing.lacks_room = false;
    let mode = directory_of(disk.habits);
    let lacks_room = &mut writing.lacks_room;
    make_parents(disk, dir, folder_of(name.as_str()), mode, lacks_room)?;
    let at = open_one(dir)?;
    let path = at.path_of(disk.alloc, last_of(temp.as_str()))?;
    let replaced = at.path_of(disk.alloc, last_of(name.as_str()))?;
    remove_if_there(disk, path.as_str())?;
    let file = create(disk, path.as_str(), replaced.as_str(), lacks_room)?;
    if let Err(refusal) = require_in_place(disk, at) {
        remove_if_there(disk, path.as_str())?;
        return Err(refusal);
    }
    let opened = Opened::new(String::from_str(disk.alloc, temp.as_str())?, file, None)?;
    writing.open = Some((copy_of(disk, at)?, opened));
    Ok(())
}

/// Opens the temporary file of a name, unless it is open. A fault if none is there.
fn open_temp<R: Files>(
    disk: &Disk<R>,
    dir: &mut Option<Dir<R::File>>,
    writing: &mut Writing<R::File>,
    temp: &str,
) -> Result<(), StoreRefusal>
where
    R::File: AsRawFd,
    ensures { IfErr result IsPlain }
{
    let Entry { path, found } = find(disk, dir, temp)?;
    let Found::File(file) = found else {
        return Err(StoreRefusal::StoreFault);
    };
    if let Some((_, opened)) = &writing.open {
        if opened.is_of(temp, file.id) {
            return Ok(());
        }
    }
    writing.open = None;
    let opened = open(disk, Access::Writing, temp, path.as_str(), file.id)?;
    writing.open = Some((copy_of(disk, open_one(dir)?)?, opened));
    Ok(())
}

pub(crate) fn write_at<R: Files>(
    disk: &Disk<R>,
    dir: &mut Option<Dir<R::File>>,
    writing: &mut Writing<R::File>,
    name: &SafeName,
    offset: u64,
    bytes: &[u8],
) -> Result<(), StoreRefusal>
where
    R::File: AsRawFd,
    ensures { IfErr result IsPlain }
{
    let temp = temp_name(name)?;
    open_temp(disk, dir, writing, temp.as_str())?;
    match &mut writing.open {
        Some((_, opened)) => opened.write_at(offset, bytes, &mut writing.lacks_room),
        None => Err(StoreRefusal::StoreFault),
    }
}

/// What is at a name. Where the name's temporary file is the open one, that reaches the disk before the look.
pub(crate) fn stat<R: Files>(
    disk: &Disk<R>,
    dir: &mut Option<Dir<R::File>>,
    writing: &mut Writing<R::File>,
    look: &mut Option<Look>,
    name: &SafeName,
) -> Result<Stat, StoreRefusal>
where
    R::File: AsRawFd,
    ensures { IfErr result IsPlain }
{
    sync_temp(disk, writing, name)?;
    changes::stat(disk, dir, look, name.as_str())
}

/// Has the temporary file of a name reach the disk, with the permissions of the file that it is to replace, or those of the folder's habits, and the modification time that it is to
/// have, if it is the open one. Does nothing if it is not, or if nothing was written since the last time. After a failure it is not the open one any
/// more, so that no later success says more than is so.
fn sync_temp<R: Files>(
    disk: &Disk<R>,
    writing: &mut Writing<R::File>,
    name: &SafeName,
) -> Result<(), StoreRefusal>
    ensures { IfErr result IsPlain }
{
    let modified = writing.modified_of(name);
    let Some((dir, opened)) = &mut writing.open else {
        return Ok(());
    };
    let temp = temp_name(name)?;
    if !opened.is_at(temp.as_str()) {
        return Ok(());
    }
    let path = dir.path_of(disk.alloc, last_of(name.as_str()))?;
    let lacks_room = &mut writing.lacks_room;
    let synced = sync_for(disk, opened, path.as_str(), modified, lacks_room);
    if synced.is_err() {
        writing.open = None;
    }
    synced
}

/// Gives a temporary file the permissions of the file at a path, or those of the folder's habits, if there are any, and the modification time, if there is one, and has it reach the disk.
fn sync_for<R: Files>(
    disk: &Disk<R>,
    opened: &mut Opened<R::File>,
    path: &str,
    modified: Option<SystemTime>,
    lacks_room: &mut bool,
) -> Result<(), StoreRefusal>
    ensures { IfErr result IsPlain }
{
    if let Some(mode) = permissions_at(&disk.look(path)?, disk.habits) {
        opened.set_mode(mode)?;
    }
    if let Some(modified) = modified {
        opened.set_modified(modified);
    }
    opened.sync(lacks_room)
}

/// Puts the temporary file in its place, with the permissions of the file that it replaces. Its bytes reach the disk before,
/// unless they have by [`stat`], and the new name before this returns. A fault if what is there is not what was there at the last look, if that
/// was at this name; then it stays there. The file that it replaces is kept as a version, if those are kept.
pub(crate) fn commit_temp<R: Files + Clock>(
    disk: &Disk<R>,
    dir: &mut Option<Dir<R::File>>,
    writing: &mut Writing<R::File>,
    look: &mut Option<Look>,
    name: &SafeName,
) -> Result<(), StoreRefusal>
where
    R::File: AsRawFd,
    ensures { IfErr result IsPlain }
{
    let last = look.take();
    let temp = temp_name(name)?;
    open_temp(disk, dir, writing, temp.as_str())?;
    sync_temp(disk, writing, name)?;
    let at = open_one(dir)?;
    let temp = at.path_of(disk.alloc, last_of(temp.as_str()))?;
    let path = at.path_of(disk.alloc, last_of(name.as_str()))?;
    let found = disk.look(path.as_str())?;
    if !is_as_seen(&last, name.as_str(), &found) {
        return Err(StoreRefusal::StoreFault);
    }
    match found {
        Found::Nothing => put_temp(disk, at, temp.as_str(), path.as_str())?,
        Found::File(old) if disk.habits.keeps_versions => {
            let lacks_room = &mut writing.lacks_room;
            let place = place_of(disk, name, lacks_room)?;
            let temp = temp.as_str();
            replace_to(disk, at, &place, temp, path.as_str(), &old, lacks_room)?;
        }
        Found::File(old) => {
            let kept = kept_path(disk, at, name)?;
            replace(disk, at, temp.as_str(), path.as_str(), kept.as_str(), &old)?;
        }
        Found::Directory(_) | Found::Link | Found::Special => {
            return Err(StoreRefusal::StoreFault);
        }
    }
    writing.open = None;
    writing.modified = None;
    at.sync()
}

/// Removes the temporary file of a name, if there is one, also where its directory was moved away while it was open.
pub(crate) fn drop_temp<R: Files>(
    disk: &Disk<R>,
    dir: &mut Option<Dir<R::File>>,
    writing: &mut Writing<R::File>,
    name: &SafeName,
) -> Result<(), StoreRefusal>
where
    R::File: AsRawFd,
    ensures { IfErr result IsPlain }
{
    let temp = temp_name(name)?;
    if let Some((at, opened)) = writing.open.take() {
        if opened.is_at(temp.as_str()) {
            let path = at.path_of(disk.alloc, last_of(temp.as_str()))?;
            let _ = fs::remove_file(&disk.files, path.as_str());
        }
    }
    let Entry { path, found } = find(disk, dir, temp.as_str())?;
    match found {
        Found::Nothing => Ok(()),
        _ => remove_if_there(disk, path.as_str()),
    }
}
