//! The calls of a folder in an index count at least the names whose best they change, as their contracts promise it: each of these does what
//! the call of its name does. What begins, enters or closes a pull changes no record.
ghost use Rattle.std.specs.Prelude.{◌≡◌, ◌≢◌, IsTrue, Some, option_copied};
ghost use Rattle.folder_core.specs.Calls.{Changes, finish_answer, index_answer, scan_answer};
ghost use Rattle.folder_core.specs.Steps.{is_recordable};
ghost use Rattle.folder_core.specs.declared.change.Change.TheVariants.{Finish, Forget, IndexFull, IndexMore, ScanFound, ScanGone};
ghost use Rattle.proof_node.specs.NewBests.{CountsNewBests};

use bep_messages::Items;
use folder_core::{Commit, Finding, FolderCore, ScanAnswer, ScanFault, Stray};
use folder_db::IndexedFolder;
use std::alloc::AllocError;
use sync_names::SafeName;
use sync_record::{Assembled, DeviceId, Record};
use sync_version::{Moment, Version};

/// A scan that finds something, recorded or not.
pub fn scan_found(
    folder: &mut IndexedFolder,
    name: &SafeName,
    expected: Option<&Version>,
    found: &Finding,
    moment: Moment,
) -> Result<ScanAnswer, ScanFault>
    requires { IsTrue (is_recordable found.now.content) }
    ensures changes { Changes folder.old.folder
        (ScanFound name.now (option_copied expected.entry) found.now moment)
        (scan_answer result) folder.new.folder }
    ensures counts { CountsNewBests folder.old.folder.announced folder.old.choices
        folder.new.folder.announced folder.new.choices }
{
    folder.scan_found(name, expected, found, moment)
}

/// A scan that finds nothing, recorded or not.
pub fn scan_gone(
    folder: &mut IndexedFolder,
    name: &SafeName,
    expected: Option<&Version>,
    moment: Moment,
) -> Result<ScanAnswer, ScanFault>
    ensures changes { Changes folder.old.folder
        (ScanGone name.now (option_copied expected.entry) moment)
        (scan_answer result) folder.new.folder }
    ensures counts { CountsNewBests folder.old.folder.announced folder.old.choices
        folder.new.folder.announced folder.new.choices }
{
    folder.scan_gone(name, expected, moment)
}

/// An index that is taken, or for which memory is out.
pub fn index_full(
    folder: &mut IndexedFolder,
    device: DeviceId,
    records: Items<Record>,
) -> Result<(), AllocError>
    requires { device ≢ folder.old.folder.me }
    ensures changes { Changes folder.old.folder (IndexFull device records)
        (index_answer result) folder.new.folder }
    ensures counts { CountsNewBests folder.old.folder.announced folder.old.choices
        folder.new.folder.announced folder.new.choices }
{
    folder.index_full(device, records)
}

/// An update of an index that is taken, or for which memory is out.
pub fn index_more(
    folder: &mut IndexedFolder,
    device: DeviceId,
    records: Items<Record>,
) -> Result<(), AllocError>
    requires { device ≢ folder.old.folder.me }
    ensures changes { Changes folder.old.folder (IndexMore device records)
        (index_answer result) folder.new.folder }
    ensures counts { CountsNewBests folder.old.folder.announced folder.old.choices
        folder.new.folder.announced folder.new.choices }
{
    folder.index_more(device, records)
}

/// A device that is forgotten, unless memory is out.
pub fn forget(folder: &mut IndexedFolder, device: DeviceId) -> Result<(), AllocError>
    requires { device ≢ folder.old.folder.me }
    ensures changes { Changes folder.old.folder (Forget device)
        (index_answer result) folder.new.folder }
    ensures counts { CountsNewBests folder.old.folder.announced folder.old.choices
        folder.new.folder.announced folder.new.choices }
{
    folder.forget(device)
}

/// A commit that is finished, or is stray.
pub fn finish(
    folder: &mut IndexedFolder,
    commit: Commit,
    assembled: &Assembled,
) -> Result<u64, Stray>
    requires { assembled.now ≡ commit.target }
    ensures changes { Changes folder.old.folder (Finish commit assembled.now)
        (Some (finish_answer result)) folder.new.folder }
    ensures counts { CountsNewBests folder.old.folder.announced folder.old.choices
        folder.new.folder.announced folder.new.choices }
{
    folder.finish(commit, assembled)
}
