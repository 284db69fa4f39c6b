//! The value of a key of a table.
ghost use Rattle.std.specs.Prelude.{◌≡◌, IfOk, MatchOption, Some, None};
ghost use Rattle.toml.specs.Data.{get_member};
ghost use Rattle.toml.specs.View.{array_view, table_view, view};
ghost use Rattle.node_config.specs.FolderNumbers.{IsIn, range_of};
ghost use Rattle.node_config.specs.Keys.{key_name};
ghost use Rattle.node_config.specs.Values.{Finds, Reads, array_at, device_at, integer_of, no_device, number_at, number_of_value, required_at, table_of, text_at, text_of};

use crate::fault::ConfigFault;
use crate::folder_numbers::{FolderNumber, NumberRange, NumberRule};
use crate::key::{Key, Problem, TablePlace};
use bep_messages::Text;
use device_text::{DeviceFault, read_device};
use std::alloc::Global;
use sync_record::DeviceId;
use toml::value::Array;
use toml::{Table, Value};

/// The value of a key, if the key is there.
pub(crate) fn value_at(table: &Table, key: Key) -> Option<&Value>
    ensures { MatchOption result (get_member (key_name key) (table_view table.now) ≡ None) (λ value. get_member (key_name key) (table_view table.now) ≡ Some (view value.now)) }
{
    table.get(key.name())
}

/// The value of a required key.
fn required_at(table: &Table, place: TablePlace, key: Key) -> Result<&Value, ConfigFault>
    ensures { Finds (λ value. view value.now) (required_at (table_view table.now) place key) result }
{
    match value_at(table, key) {
        Some(value) => Ok(value),
        None => Err(ConfigFault::BadKey {
            place,
            key,
            problem: Problem::Absent,
        }),
    }
}

/// The string that is the value of a key.
pub(crate) fn text_of(value: &Value, place: TablePlace, key: Key) -> Result<&str, ConfigFault>
    ensures { Finds (λ text. text.now) (text_of place key (view value.now)) result }
{
    match value.as_str() {
        Some(text) => Ok(text),
        None => Err(ConfigFault::BadKey {
            place,
            key,
            problem: Problem::NotString,
        }),
    }
}

/// The string of a required key.
pub(crate) fn text_at(table: &Table, place: TablePlace, key: Key) -> Result<&str, ConfigFault>
    ensures { Finds (λ text. text.now) (text_at (table_view table.now) place key) result }
{
    text_of(required_at(table, place, key)?, place, key)
}

/// A copy of the string of a required key.
pub(crate) fn copied_text_at(
    alloc: Global,
    table: &Table,
    place: TablePlace,
    key: Key,
) -> Result<Text, ConfigFault>
    ensures { Reads (text_at (table_view table.now) place key) result }
{
    Ok(Text::from_str(alloc, text_at(table, place, key)?)?)
}

/// The array of a required key.
pub(crate) fn array_at(table: &Table, place: TablePlace, key: Key) -> Result<&Array, ConfigFault>
    ensures { Finds (λ values. array_view values.now) (array_at (table_view table.now) place key) result }
{
    match required_at(table, place, key)?.as_array() {
        Some(values) => Ok(values),
        None => Err(ConfigFault::BadKey {
            place,
            key,
            problem: Problem::NotStrings,
        }),
    }
}

/// The integer that a value is, or for which its word stands.
fn integer_of(value: &Value, number: FolderNumber) -> Option<i64>
    ensures { result ≡ integer_of number (view value.now) }
{
    match value.as_str() {
        Some(word) => number.word(word),
        None => value.as_integer(),
    }
}

/// The number that is the value of its key, if it is in the range.
fn number_of_value(
    value: &Value,
    place: TablePlace,
    number: FolderNumber,
) -> Result<i64, ConfigFault>
    ensures value { result ≡ number_of_value place number (view value.now) }
    ensures range { IfOk result (IsIn (range_of number)) }
{
    let NumberRule { key, range, .. } = number.rule();
    let Some(found) = integer_of(value, number) else {
        return Err(ConfigFault::BadKey {
            place,
            key,
            problem: number.no_number(),
        });
    };
    let NumberRange { low, high, .. } = range;
    if low <= found && found <= high {
        Ok(found)
    } else {
        Err(ConfigFault::BadKey {
            place,
            key,
            problem: Problem::OutOfRange { low, high },
        })
    }
}

/// A number of a folder, or its default where the key is absent.
pub(crate) fn number_at(
    table: &Table,
    place: TablePlace,
    number: FolderNumber,
) -> Result<i64, ConfigFault>
    ensures value { result ≡ number_at (table_view table.now) place number }
    ensures range { IfOk result (IsIn (range_of number)) }
{
    let NumberRule { key, range, .. } = number.rule();
    match value_at(table, key) {
        Some(value) => number_of_value(value, place, number),
        None => Ok(range.default),
    }
}

/// The identity of a required `device`.
pub(crate) fn device_at(table: &Table, place: TablePlace) -> Result<DeviceId, ConfigFault>
    ensures { result ≡ device_at (table_view table.now) place }
{
    let text = text_at(table, place, Key::Device)?;
    match read_device(text) {
        Ok(device) => Ok(device),
        Err(fault) => Err(ConfigFault::BadKey {
            place,
            key: Key::Device,
            problem: no_device(fault),
        }),
    }
}

/// What is wrong with a text that is no identity.
fn no_device(fault: DeviceFault) -> Problem
    ensures { result ≡ no_device fault }
{
    match fault {
        DeviceFault::Length => Problem::NotDevice,
        DeviceFault::Character => Problem::NotDeviceCharacter,
        DeviceFault::Check { group } => Problem::Mistyped { group },
    }
}

/// The table that a value of an array of tables is.
pub(crate) fn table_of(value: &Value, key: Key) -> Result<&Table, ConfigFault>
    ensures { Finds (λ table. table_view table.now) (table_of key (view value.now)) result }
{
    match value.as_table() {
        Some(table) => Ok(table),
        None => Err(ConfigFault::BadKey {
            place: TablePlace::Node,
            key,
            problem: Problem::NotTables,
        }),
    }
}
