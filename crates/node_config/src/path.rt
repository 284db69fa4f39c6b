//! The paths of a document.
ghost use Rattle.std.specs.Prelude.{◌≡◌};
ghost use Rattle.toml.specs.View.{table_view};
ghost use Rattle.node_config.specs.Paths.{checked_path, is_of_home, optional_path_at, path_at};
ghost use Rattle.node_config.specs.Values.{Finds, Reads};

use crate::fault::ConfigFault;
use crate::key::{Key, Problem, TablePlace};
use crate::values::{text_at, text_of, value_at};
use bep_messages::Text;
use std::alloc::Global;
use toml::Table;

/// The path of a required key.
pub(crate) fn path_at(table: &Table, place: TablePlace, key: Key) -> Result<&str, ConfigFault>
    ensures { Finds (λ text. text.now) (path_at (table_view table.now) place key) result }
{
    checked_path(text_at(table, place, key)?, place, key)
}

/// A copy of the path of a required key.
pub(crate) fn copied_path_at(
    alloc: Global,
    table: &Table,
    place: TablePlace,
    key: Key,
) -> Result<Text, ConfigFault>
    ensures { Reads (path_at (table_view table.now) place key) result }
{
    Ok(Text::from_str(alloc, path_at(table, place, key)?)?)
}

/// A copy of the path of a key that may be absent.
pub(crate) fn optional_path_at(
    alloc: Global,
    table: &Table,
    place: TablePlace,
    key: Key,
) -> Result<Option<Text>, ConfigFault>
    ensures { Reads (optional_path_at (table_view table.now) place key) result }
{
    let Some(value) = value_at(table, key) else {
        return Ok(None);
    };
    let path = checked_path(text_of(value, place, key)?, place, key)?;
    Ok(Some(Text::from_str(alloc, path)?))
}

/// A path that is not empty, and that is no shell's way to say the home directory.
fn checked_path(path: &str, place: TablePlace, key: Key) -> Result<&str, ConfigFault>
    ensures { Finds (λ text. text.now) (checked_path place key path.now) result }
{
    if path.is_empty() {
        return Err(ConfigFault::BadKey {
            place,
            key,
            problem: Problem::Empty,
        });
    }
    if is_of_home(path) {
        return Err(ConfigFault::BadKey {
            place,
            key,
            problem: Problem::BeginsWithTilde,
        });
    }
    Ok(path)
}

/// Whether a shell reads the path as one in the home directory.
fn is_of_home(path: &str) -> bool
    ensures { result ≡ is_of_home path.now }
{
    path == "~" || path.as_bytes().starts_with(b"~/")
}
