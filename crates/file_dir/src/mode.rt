//! Who may read, write and run a file.
ghost use Rattle.std.specs.Prelude.{◌≡◌, IfErr};
ghost use Rattle.file_dir.specs.Modes.{directory_of, directory_permissions, permissions_at, permissions_of, temporary_permissions};
ghost use Rattle.file_store.specs.Refusals.{IsPlain};

use crate::disk::Disk;
use crate::found::Found;
use crate::habits::Habits;
use crate::refuse::or_fault;
use file_store::StoreRefusal;
use std::fs::{DirBuilder, OpenFile, OpenOptions, Permissions, create_dir};
use std::os::unix::fs::{DirBuilderExt, MetadataExt, OpenOptionsExt, PermissionsExt};
use std::rt::Files;

/// The bits of a mode that say who may read, write and run a file. Those that let it run as another user are left out.
const PERMISSIONS: u32 = 0o777;

/// Who may read a file.
const READERS: u32 = 0o444;

/// The bits of a mode besides those.
const SPECIAL: u32 = 0o7000;

/// The owner may read and write.
const OWNER: u32 = 0o600;

/// The permissions that a file with this mode leaves to the one that replaces it. O(1).
pub(crate) fn permissions_of(mode: u32) -> u32
    ensures { result ≡ permissions_of mode }
{
    mode & PERMISSIONS
}

/// The permissions of a temporary file that is to replace a file with this mode: those of that file, and the owner may read
/// and write it. O(1).
pub(crate) fn temporary_permissions(mode: u32) -> u32
    ensures { result ≡ temporary_permissions mode }
{
    permissions_of(mode) | OWNER
}

/// The permissions of a directory that is made where files have this mode: it may be searched by whom it may be read by. O(1).
pub(crate) fn directory_permissions(mode: u32) -> u32
    ensures { result ≡ directory_permissions mode }
{
    permissions_of(mode) | (mode & READERS) / 4
}

/// The permissions of what is put where that is: those of the file there, else those of the folder's habits, if it has any. O(1).
pub(crate) fn permissions_at(found: &Found, habits: Habits) -> Option<u32>
    ensures { result ≡ permissions_at found.now habits }
{
    match found {
        Found::File(old) => Some(permissions_of(old.mode)),
        Found::Nothing | Found::Directory(_) | Found::Link | Found::Special => match habits.mode {
            Some(mode) => Some(permissions_of(mode)),
            None => None,
        },
    }
}

/// The permissions of a directory that is made in a folder with these habits, if they say any. O(1).
pub(crate) fn directory_of(habits: Habits) -> Option<u32>
    ensures { result ≡ directory_of habits }
{
    match habits.mode {
        Some(mode) => Some(directory_permissions(mode)),
        None => None,
    }
}

/// Makes an empty file at a path where nothing is: one that may be put at another path, with no more permissions than [`permissions_at`] says of that, but for
/// those of its owner, or else with those of any new file. Notes whether the disk lacks room for it.
pub(crate) fn create<R: Files>(
    disk: &Disk<R>,
    path: &str,
    replaced: &str,
    lacks_room: &mut bool,
) -> Result<R::File, StoreRefusal>
    ensures { IfErr result IsPlain }
{
    let mut options = OpenOptions::new();
    options.write(true).create_new(true);
    if let Some(mode) = permissions_at(&disk.look(replaced)?, disk.habits) {
        let mode = temporary_permissions(mode);
        options.mode(mode);
        let file = disk.or_no_room(options.open(&disk.files, path), lacks_room)?;
        set_mode(&file, mode)?;
        return Ok(file);
    }
    disk.or_no_room(options.open(&disk.files, path), lacks_room)
}

/// Makes a directory at a path where nothing is, with no more permissions than these, if there are any. Notes whether the disk lacks room for it.
pub(crate) fn create_directory<R: Files>(
    disk: &Disk<R>,
    path: &str,
    mode: Option<u32>,
    lacks_room: &mut bool,
) -> Result<(), StoreRefusal>
    ensures { IfErr result IsPlain }
{
    match mode {
        Some(mode) => {
            let mut builder = DirBuilder::new();
            builder.mode(mode);
            disk.or_no_room(builder.create(&disk.files, path), lacks_room)
        }
        None => disk.or_no_room(create_dir(&disk.files, path), lacks_room),
    }
}

/// Gives an open directory these permissions. What else its mode says, as that what is made in it is of its group, stays.
pub(crate) fn give_directory<F: OpenFile>(file: &F, mode: u32) -> Result<(), StoreRefusal>
    ensures { IfErr result IsPlain }
{
    let metadata = or_fault(file.metadata())?;
    let now = permissions_of(metadata.mode());
    if now == mode {
        return Ok(());
    }
    let others = metadata.mode() & SPECIAL;
    or_fault(file.set_permissions(Permissions::from_mode(others | mode)))
}

/// Gives an open file these permissions. It isn't changed if it has them, as on a file system where all files have the same.
pub(crate) fn set_mode<F: OpenFile>(file: &F, mode: u32) -> Result<(), StoreRefusal>
    ensures { IfErr result IsPlain }
{
    let metadata = or_fault(file.metadata())?;
    if permissions_of(metadata.mode()) == mode {
        return Ok(());
    }
    or_fault(file.set_permissions(Permissions::from_mode(mode)))
}
