//! The folders of a document.
ghost use Rattle.std.specs.Prelude.{◌≡◌, []};
ghost use Rattle.toml.specs.View.{items_view, table_view, view};
ghost use Rattle.node_config.specs.Folders.{checked_id, files_of, folder_of, folders_after, folders_at, has_id, id_at, numbers_of};
ghost use Rattle.std.specs.List.{list_any};
ghost use Rattle.node_config.specs.Values.{Finds, Reads};

use crate::config::FolderConfig;
use crate::fault::ConfigFault;
use crate::folder_numbers::FolderNumber;
use crate::key::{Key, Problem, TablePlace};
use crate::mode::mode_at;
use crate::path::path_at;
use crate::values::{number_at, table_of, text_at, value_at};
use bep_messages::{Items, Text};
use std::alloc::Global;
use toml::{Table, Value};

/// The folders of a document.
pub(crate) fn read_folders(
    alloc: Global,
    document: &Table,
) -> Result<Items<FolderConfig>, ConfigFault>
    ensures { Reads (folders_at (table_view document.now)) result }
{
    match value_at(document, Key::Folder) {
        None => Ok(Items::new(alloc)),
        Some(Value::Array(values)) => read_each(alloc, values),
        Some(_) => Err(ConfigFault::BadKey {
            place: TablePlace::Node,
            key: Key::Folder,
            problem: Problem::NotTables,
        }),
    }
}

/// The folders of these tables.
fn read_each(alloc: Global, values: &[Value]) -> Result<Items<FolderConfig>, ConfigFault>
    ensures { Reads (folders_after [] (items_view values.now)) result }
{
    let mut folders = Items::new(alloc);
    for value in values {
        let folder = read_folder(alloc, folders.as_slice(), value)?;
        folders.push(folder)?;
    }
    Ok(folders)
}

/// The folder of a table, after the earlier ones.
fn read_folder(
    alloc: Global,
    earlier: &[FolderConfig],
    value: &Value,
) -> Result<FolderConfig, ConfigFault>
    ensures { Reads (folder_of earlier.now (view value.now)) result }
{
    let table = table_of(value, Key::Folder)?;
    let place = TablePlace::Folder(earlier.len() + 1);
    let id = id_at(earlier, table, place)?;
    let path = path_at(table, place, Key::Path)?;
    let numbers = read_numbers(table, place)?;
    let files = read_files(table, place)?;
    Ok(FolderConfig {
        id: Text::from_str(alloc, id)?,
        path: Text::from_str(alloc, path)?,
        history_limit: numbers.history_limit,
        max_conflicts: numbers.max_conflicts,
        rescan: numbers.rescan,
        look: numbers.look,
        trash_days: files.trash_days,
        mode: files.mode,
    })
}

/// The numbers of a folder that say when, and how much.
#[derive(Clone, Copy)]
struct Numbers {
    history_limit: u64,
    max_conflicts: i32,
    rescan: u64,
    look: i32,
}

/// The numbers of a table.
fn read_numbers(table: &Table, place: TablePlace) -> Result<Numbers, ConfigFault>
    ensures { result ≡ numbers_of (table_view table.now) place }
{
    let history_limit = number_at(table, place, FolderNumber::HistoryLimit)?;
    let max_conflicts = number_at(table, place, FolderNumber::MaxConflicts)?;
    let rescan = number_at(table, place, FolderNumber::Rescan)?;
    let look = number_at(table, place, FolderNumber::Look)?;
    Ok(Numbers {
        history_limit: history_limit as u64,
        max_conflicts: max_conflicts as i32,
        rescan: rescan as u64,
        look: look as i32,
    })
}

/// What is done with files that are replaced, and with new ones.
#[derive(Clone, Copy)]
struct FileRules {
    trash_days: u64,
    mode: Option<u32>,
}

/// What a table says of files that are replaced, and of new ones.
fn read_files(table: &Table, place: TablePlace) -> Result<FileRules, ConfigFault>
    ensures { result ≡ files_of (table_view table.now) place }
{
    let trash_days = number_at(table, place, FolderNumber::TrashDays)?;
    let mode = mode_at(table, place)?;
    Ok(FileRules {
        trash_days: trash_days as u64,
        mode,
    })
}

/// The id of a table, after the earlier folders.
fn id_at<'a>(
    earlier: &[FolderConfig],
    table: &'a Table,
    place: TablePlace,
) -> Result<&'a str, ConfigFault>
    ensures { Finds (λ text. text.now) (id_at earlier.now (table_view table.now) place) result }
{
    checked_id(earlier, place, text_at(table, place, Key::Id)?)
}

/// An id that is not empty, and not that of an earlier folder.
fn checked_id<'a>(
    earlier: &[FolderConfig],
    place: TablePlace,
    id: &'a str,
) -> Result<&'a str, ConfigFault>
    ensures { Finds (λ text. text.now) (checked_id earlier.now place id.now) result }
{
    if id.is_empty() {
        return Err(ConfigFault::BadKey {
            place,
            key: Key::Id,
            problem: Problem::Empty,
        });
    }
    if is_known(earlier, id) {
        return Err(ConfigFault::BadKey {
            place,
            key: Key::Id,
            problem: Problem::Repeats,
        });
    }
    Ok(id)
}

/// Whether one of the folders has this id.
fn is_known(folders: &[FolderConfig], id: &str) -> bool
    ensures { result ≡ list_any (has_id id.now) folders.now }
{
    folders.iter().any(|folder| folder.id.as_str() == id)
}
