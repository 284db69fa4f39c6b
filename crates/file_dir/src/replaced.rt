//! Files put into the place of others, and files removed, where others may write to them at any time.
//!
//! The system replaces or removes whatever is at a path at that moment. So the file is kept under another name meanwhile, and is put back if it turns out
//! that it was changed, or that its directory is no longer in its place. It can't be kept where there are no hard links, or where that name is too long
//! for the file system.
ghost use Rattle.std.specs.Prelude.{IfErr};
ghost use Rattle.file_store.specs.Refusals.{IsPlain};

use crate::dir::{Dir, last_of, require_in_place};
use crate::disk::Disk;
use crate::found::{FileFacts, Found};
use file_store::StoreRefusal;
use std::alloc::AllocError;
use std::fs;
use std::io::ErrorKind;
use std::rt::Files;
use sync_names::{SafeName, replaced_name};

/// The path at which the file of a name in the directory is kept while it is replaced or removed.
pub(crate) fn kept_path<R: Files>(
    disk: &Disk<R>,
    dir: &Dir<R::File>,
    name: &SafeName,
) -> Result<String, AllocError> {
    let kept = replaced_name(name)?;
    dir.path_of(disk.alloc, last_of(kept.as_str()))
}

/// Moves a temporary file over another file in the directory. A fault if that one changed since it was looked at, also while it was replaced; then it
/// is put back. A file that can't be kept is replaced all the same.
pub(crate) fn replace<R: Files>(
    disk: &Disk<R>,
    dir: &Dir<R::File>,
    temp: &str,
    path: &str,
    kept: &str,
    old: &FileFacts,
) -> Result<(), StoreRefusal>
    ensures { IfErr result IsPlain }
{
    // (what a call left that did not end)
    let _ = fs::remove_file(&disk.files, kept);
    if fs::hard_link(&disk.files, path, kept).is_err() {
        return move_in_place(disk, dir, temp, path);
    }
    replace_kept(disk, dir, temp, path, kept, old)?;
    // (what can't be removed now is by the next run, since something is at the name)
    let _ = fs::remove_file(&disk.files, kept);
    Ok(())
}

/// Moves a temporary file over a file that is kept at another path too. A fault if that one changed since it was looked at; then it is put back, and kept no
/// more.
pub(crate) fn replace_kept<R: Files>(
    disk: &Disk<R>,
    dir: &Dir<R::File>,
    temp: &str,
    path: &str,
    kept: &str,
    old: &FileFacts,
) -> Result<(), StoreRefusal>
    ensures { IfErr result IsPlain }
{
    if fs::rename(&disk.files, temp, path).is_err() {
        remove_if_there(disk, kept)?;
        return Err(StoreRefusal::StoreFault);
    }
    let replaced = require_kept(disk, dir, kept, old);
    if replaced.is_err() {
        disk.or_fault(fs::rename(&disk.files, kept, path))?;
    }
    replaced
}

/// A fault unless the directory is in its place, and the file that is kept has the bytes that it had when it was looked at.
pub(crate) fn require_kept<R: Files>(
    disk: &Disk<R>,
    dir: &Dir<R::File>,
    kept: &str,
    old: &FileFacts,
) -> Result<(), StoreRefusal>
    ensures { IfErr result IsPlain }
{
    require_in_place(disk, dir)?;
    if is_kept(disk, kept, old) {
        Ok(())
    } else {
        Err(StoreRefusal::StoreFault)
    }
}

// Moves a file in the directory, if that is in its place.
fn move_in_place<R: Files>(
    disk: &Disk<R>,
    dir: &Dir<R::File>,
    from: &str,
    to: &str,
) -> Result<(), StoreRefusal>
    ensures { IfErr result IsPlain }
{
    require_in_place(disk, dir)?;
    disk.or_fault(fs::rename(&disk.files, from, to))
}

/// Moves a file to where nothing is. A fault if something came there meanwhile, on a file system that has hard links; else that is replaced.
pub(crate) fn put_new<R: Files>(disk: &Disk<R>, from: &str, to: &str) -> Result<(), StoreRefusal>
    ensures { IfErr result IsPlain }
{
    match fs::hard_link(&disk.files, from, to) {
        Ok(()) if fs::remove_file(&disk.files, from).is_ok() => Ok(()),
        Ok(()) => {
            // (one file at two names would be neither put nor left)
            disk.or_fault(fs::remove_file(&disk.files, to))?;
            Err(StoreRefusal::StoreFault)
        }
        Err(error) if error.kind() == ErrorKind::AlreadyExists => Err(StoreRefusal::StoreFault),
        Err(_) => disk.or_fault(fs::rename(&disk.files, from, to)),
    }
}

/// Puts a temporary file where nothing is in the directory, as [`put_new`]. It is taken back where the directory is no longer in its place.
pub(crate) fn put_temp<R: Files>(
    disk: &Disk<R>,
    dir: &Dir<R::File>,
    temp: &str,
    path: &str,
) -> Result<(), StoreRefusal>
    ensures { IfErr result IsPlain }
{
    match fs::hard_link(&disk.files, temp, path) {
        Ok(()) => {
            let put = leave(disk, dir, temp);
            if put.is_err() {
                disk.or_fault(fs::remove_file(&disk.files, path))?;
            }
            put
        }
        Err(error) if error.kind() == ErrorKind::AlreadyExists => Err(StoreRefusal::StoreFault),
        Err(_) => {
            disk.or_fault(fs::rename(&disk.files, temp, path))?;
            let put = require_in_place(disk, dir);
            if put.is_err() {
                disk.or_fault(fs::rename(&disk.files, path, temp))?;
            }
            put
        }
    }
}

// Removes what is at a path of the directory, if that is in its place.
fn leave<R: Files>(disk: &Disk<R>, dir: &Dir<R::File>, path: &str) -> Result<(), StoreRefusal>
    ensures { IfErr result IsPlain }
{
    require_in_place(disk, dir)?;
    disk.or_fault(fs::remove_file(&disk.files, path))
}

/// Removes a file by way of the path at which it is kept. A fault if it changed since it was looked at, also while it was removed; then it is
/// put back, unless something else came there meanwhile, which then stays, and the file with it under that path. A file that can't be kept is removed all the
/// same.
pub(crate) fn remove_by_way_of<R: Files>(
    disk: &Disk<R>,
    dir: &Dir<R::File>,
    kept: &str,
    path: &str,
    old: &FileFacts,
) -> Result<(), StoreRefusal>
    ensures { IfErr result IsPlain }
{
    if fs::rename(&disk.files, path, kept).is_err() {
        return leave(disk, dir, path);
    }
    let removed = remove_kept(disk, dir, kept, old);
    if removed.is_err() {
        put_new(disk, kept, path)?;
    }
    removed
}

// Removes the file that is kept, unless it changed.
fn remove_kept<R: Files>(
    disk: &Disk<R>,
    dir: &Dir<R::File>,
    kept: &str,
    old: &FileFacts,
) -> Result<(), StoreRefusal>
    ensures { IfErr result IsPlain }
{
    require_kept(disk, dir, kept, old)?;
    disk.or_fault(fs::remove_file(&disk.files, kept))
}

// Whether the file that is kept has the bytes that it had when it was looked at. Where that can't be found out, it has not.
fn is_kept<R: Files>(disk: &Disk<R>, kept: &str, old: &FileFacts) -> bool {
    match disk.look(kept) {
        Ok(Found::File(now)) => now.has_bytes_of(old),
        _ => false,
    }
}

/// Removes what is at a path, unless nothing is. A directory is a fault.
pub(crate) fn remove_if_there<R: Files>(disk: &Disk<R>, path: &str) -> Result<(), StoreRefusal>
    ensures { IfErr result IsPlain }
{
    match fs::remove_file(&disk.files, path) {
        Ok(()) => Ok(()),
        Err(error) if error.kind() == ErrorKind::NotFound => Ok(()),
        Err(_) => Err(StoreRefusal::StoreFault),
    }
}
