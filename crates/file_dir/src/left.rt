//! What an earlier run left.
ghost use Rattle.std.specs.Prelude.{IfErr};
ghost use Rattle.file_store.specs.Refusals.{IsPlain};

use crate::dir::{Dir, Entry, find, folder_of, last_of, open_one};
use crate::disk::Disk;
use crate::found::Found;
use crate::replaced::{put_new, remove_if_there};
use crate::walk::{join, walk_folder};
use file_store::StoreRefusal;
use std::alloc::Global;
use std::os::fd::AsRawFd;
use std::rt::Files;
use sync_names::{NameFault, SafeName, replaced_component};

/// Removes all temporary files, and puts back those that were just replaced or removed, where nothing is at their names. Returns how many there were.
/// After an error some may have been removed.
pub(crate) fn remove_temps<R: Files>(disk: &Disk<R>) -> Result<usize, StoreRefusal>
where
    R::File: AsRawFd,
    ensures { IfErr result IsPlain }
{
    let temps = walk_folder(disk)?.temps;
    let mut dir = None;
    for temp in &temps {
        remove_left(disk, &mut dir, temp.as_str())?;
    }
    Ok(temps.len())
}

fn remove_left<R: Files>(
    disk: &Disk<R>,
    dir: &mut Option<Dir<R::File>>,
    temp: &str,
) -> Result<(), StoreRefusal>
where
    R::File: AsRawFd,
    ensures { IfErr result IsPlain }
{
    let name = name_of_kept(disk.alloc, temp)?;
    let is_missing = match &name {
        Some(name) => is_nothing(&find(disk, dir, name.as_str())?.found),
        None => false,
    };
    let Entry { path: left, found } = find(disk, dir, temp)?;
    let Found::File(_) = found else {
        return Ok(());
    };
    match name {
        Some(name) if is_missing => {
            let path = open_one(dir)?.path_of(disk.alloc, last_of(name.as_str()))?;
            put_new(disk, left.as_str(), path.as_str())
        }
        _ => remove_if_there(disk, left.as_str()),
    }
}

fn is_nothing(found: &Found) -> bool {
    matches!(found, Found::Nothing)
}

// The name whose file was kept under this one while it was replaced or removed.
fn name_of_kept(alloc: Global, temp: &str) -> Result<Option<SafeName>, StoreRefusal>
    ensures { IfErr result IsPlain }
{
    let Some(last) = replaced_component(last_of(temp)) else {
        return Ok(None);
    };
    match SafeName::from_string(join(alloc, folder_of(temp), last)?) {
        Ok(name) => Ok(Some(name)),
        Err(NameFault::OutOfMemory) => Err(StoreRefusal::OutOfMemory),
        Err(_) => Ok(None),
    }
}
