//! Files and directories that commands put into a peer's store.
ghost use Rattle.std.specs.Prelude.{◌≡◌, false};
ghost use Rattle.file_store.specs.Stores.{mem_tree};
ghost use Rattle.file_store.specs.Trees.{is_directory};
ghost use Rattle.bepd_pair.specs.Files.{CannotBeRemoved, ChangesFiles, ChangesStore, IsNoPlaceForDirectory, IsNoPlaceForFile, directory_put, file_put};
ghost use Rattle.file_store.specs.Calls.{removed};

use crate::refused::Refused;
use file_store::{FileStore, MemStore, Stat, StoreRefusal};
use std::alloc::Global;
use sync_names::SafeName;
use sync_version::Moment;

/// Puts a file with this text, modified at the moment, in place of a file that is there. Missing parents are made.
pub(crate) fn put(
    alloc: Global,
    store: &mut MemStore,
    name: &str,
    text: &str,
    moment: Moment,
) -> Result<(), Refused>
    ensures { ChangesFiles name.now (IsNoPlaceForFile (mem_tree store.old) name.now) (mem_tree store.old)
        (file_put (mem_tree store.old) name.now text.now moment) result (mem_tree store.new) }
{
    let name = SafeName::parse(alloc, name)?;
    Ok(put_file(store, &name, text, moment)?)
}

/// Makes a directory, and missing parents. One that is there stays.
pub(crate) fn make_dir(alloc: Global, store: &mut MemStore, name: &str) -> Result<(), Refused>
    ensures { ChangesFiles name.now (IsNoPlaceForDirectory (mem_tree store.old) name.now) (mem_tree store.old)
        (directory_put (mem_tree store.old) name.now) result (mem_tree store.new) }
{
    let name = SafeName::parse(alloc, name)?;
    Ok(put_directory(store, &name)?)
}

/// Removes a file or an empty directory.
pub(crate) fn delete(alloc: Global, store: &mut MemStore, name: &str) -> Result<(), Refused>
    ensures { ChangesFiles name.now (CannotBeRemoved (mem_tree store.old) name.now) (mem_tree store.old)
        (removed (mem_tree store.old) name.now) result (mem_tree store.new) }
{
    let name = SafeName::parse(alloc, name)?;
    Ok(remove(store, &name)?)
}

fn put_file(
    store: &mut MemStore,
    name: &SafeName,
    text: &str,
    moment: Moment,
) -> Result<(), StoreRefusal>
    ensures { ChangesStore (IsNoPlaceForFile (mem_tree store.old) name.now) (mem_tree store.old)
        (file_put (mem_tree store.old) name.now text.now moment) result (mem_tree store.new) }
{
    match store.stat(name)? {
        Stat::Directory => Err(StoreRefusal::StoreFault),
        _ => write_file(store, name, text, moment),
    }
}

/// Puts a file where no directory is.
fn write_file(
    store: &mut MemStore,
    name: &SafeName,
    text: &str,
    moment: Moment,
) -> Result<(), StoreRefusal>
    requires { is_directory ((mem_tree store.old).names name.now) ≡ false }
    ensures { ChangesStore (IsNoPlaceForFile (mem_tree store.old) name.now) (mem_tree store.old)
        (file_put (mem_tree store.old) name.now text.now moment) result (mem_tree store.new) }
{
    store.make_temp(name)?;
    store.write_at(name, 0, text.as_bytes())?;
    store.commit_temp(name)?;
    let _ = store.set_modified(name, moment);
    Ok(())
}

fn put_directory(store: &mut MemStore, name: &SafeName) -> Result<(), StoreRefusal>
    ensures { ChangesStore (IsNoPlaceForDirectory (mem_tree store.old) name.now) (mem_tree store.old)
        (directory_put (mem_tree store.old) name.now) result (mem_tree store.new) }
{
    match store.stat(name)? {
        Stat::Directory => Ok(()),
        _ => store.make_dir(name),
    }
}

fn remove(store: &mut MemStore, name: &SafeName) -> Result<(), StoreRefusal>
    ensures { ChangesStore (CannotBeRemoved (mem_tree store.old) name.now) (mem_tree store.old)
        (removed (mem_tree store.old) name.now) result (mem_tree store.new) }
{
    match store.stat(name)? {
        Stat::Directory => store.remove_dir(name),
        _ => store.remove(name),
    }
}
