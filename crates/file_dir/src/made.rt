//! Directories that are made.
ghost use Rattle.std.specs.Prelude.{◌≢◌, Err, IfErr};
ghost use Rattle.file_store.specs.Refusals.{IsPlain};
ghost use Rattle.file_store.specs.declared.refusal.StoreRefusal.TheVariants.{NotEmpty};

use crate::dir::{Dir, Parents, enter, open_below, open_root, stands};
use crate::disk::Disk;
use crate::found::Found;
use crate::mode::{create_directory, give_directory};
use file_store::StoreRefusal;
use std::fs;
use std::io::ErrorKind;
use std::os::fd::AsRawFd;
use std::rt::Files;
use sync_names::is_temporary;

/// Opens the directory with this name, as [`enter`], where missing directories are made, with these permissions if there are any, which then reach the disk. Fails with `BadParent` if something
/// else than a directory is there. None is made at the name of a temporary file, which may be needed for that file: that is a fault. Notes whether the disk
/// lacks room for one.
pub(crate) fn make_parents<R: Files>(
    disk: &Disk<R>,
    dir: &mut Option<Dir<R::File>>,
    name: &str,
    mode: Option<u32>,
    lacks_room: &mut bool,
) -> Result<(), StoreRefusal>
where
    R::File: AsRawFd,
    ensures { result ≢ Err NotEmpty }
{
    match enter(disk, dir, name)? {
        Parents::There => return Ok(()),
        Parents::Blocked => return Err(StoreRefusal::BadParent),
        Parents::Missing => {}
    }
    let mut at = open_root(disk)?;
    for component in name.split('/') {
        at = open_or_make(disk, &at, component, mode, lacks_room)?;
    }
    at.name = String::from_str(disk.alloc, name)?;
    *dir = Some(at);
    Ok(())
}

fn open_or_make<R: Files>(
    disk: &Disk<R>,
    at: &Dir<R::File>,
    component: &str,
    mode: Option<u32>,
    lacks_room: &mut bool,
) -> Result<Dir<R::File>, StoreRefusal>
where
    R::File: AsRawFd,
    ensures { result ≢ Err NotEmpty }
{
    let path = at.path_of(disk.alloc, component)?;
    match disk.look(path.as_str())? {
        Found::Directory(_) => open_made(disk, at, path.as_str()),
        Found::File(_) | Found::Link | Found::Special => Err(StoreRefusal::BadParent),
        Found::Nothing if is_temporary(component) => Err(StoreRefusal::StoreFault),
        Found::Nothing => make_or_open(disk, at, path.as_str(), mode, lacks_room),
    }
}

/// Makes a directory in an open one, and opens it, as [`make_and_open`]. Where another store made it meanwhile, as several do that share a folder, that one
/// is opened once it is on the disk.
fn make_or_open<R: Files>(
    disk: &Disk<R>,
    at: &Dir<R::File>,
    path: &str,
    mode: Option<u32>,
    lacks_room: &mut bool,
) -> Result<Dir<R::File>, StoreRefusal>
where
    R::File: AsRawFd,
    ensures { IfErr result IsPlain }
{
    disk.forget_error();
    let refusal = match make_and_open(disk, at, path, mode, lacks_room) {
        Ok(made) => return Ok(made),
        Err(refusal) => refusal,
    };
    match disk.last_error() {
        Some(error) if error.kind() == ErrorKind::AlreadyExists => {
            at.sync()?;
            open_made(disk, at, path)
        }
        _ => Err(refusal),
    }
}

/// Makes a directory in an open one, as [`make_directory`], and opens it. It has exactly these permissions, if there are any.
pub(crate) fn make_and_open<R: Files>(
    disk: &Disk<R>,
    at: &Dir<R::File>,
    path: &str,
    mode: Option<u32>,
    lacks_room: &mut bool,
) -> Result<Dir<R::File>, StoreRefusal>
where
    R::File: AsRawFd,
    ensures { IfErr result IsPlain }
{
    make_directory(disk, at, path, mode, lacks_room)?;
    let opened = open_made(disk, at, path)?;
    if let Some(mode) = mode {
        give_directory(&opened.file, mode)?;
    }
    Ok(opened)
}

// Opens a directory in an open one, which is there.
fn open_made<R: Files>(
    disk: &Disk<R>,
    at: &Dir<R::File>,
    path: &str,
) -> Result<Dir<R::File>, StoreRefusal>
where
    R::File: AsRawFd,
    ensures { IfErr result IsPlain }
{
    let opened = match disk.look(path)? {
        Found::Directory(id) => open_below(disk, at, path, id)?,
        _ => None,
    };
    match opened {
        Some(opened) => Ok(opened),
        None => Err(StoreRefusal::StoreFault),
    }
}

/// Makes a directory in an open one, which then reaches the disk. It has no more permissions than these, if there are any. It is taken back where that one is
/// no longer in its place. Notes whether the disk lacks room for it.
pub(crate) fn make_directory<R: Files>(
    disk: &Disk<R>,
    at: &Dir<R::File>,
    path: &str,
    mode: Option<u32>,
    lacks_room: &mut bool,
) -> Result<(), StoreRefusal>
    ensures { IfErr result IsPlain }
{
    create_directory(disk, path, mode, lacks_room)?;
    let refusal = match stands(disk, at) {
        Ok(true) => return at.sync(),
        Ok(false) => StoreRefusal::StoreFault,
        Err(refusal) => refusal,
    };
    let _ = fs::remove_dir(&disk.files, path);
    Err(refusal)
}
