//! The permission bits of a folder's new files.
ghost use Rattle.std.specs.Prelude.{◌≡◌, [], ◌∷◌};
ghost use Rattle.toml.specs.Data.{as_str};
ghost use Rattle.toml.specs.View.{table_view, view};
ghost use Rattle.node_config.specs.Modes.{is_octal_from, mode_at, mode_of, mode_of_text, mode_or_none};

use crate::fault::ConfigFault;
use crate::key::{Key, Problem, TablePlace};
use crate::values::value_at;
use toml::{Table, Value};

/// The mode of a folder's table, if one is there.
pub(crate) fn mode_at(table: &Table, place: TablePlace) -> Result<Option<u32>, ConfigFault>
    ensures { result ≡ mode_at (table_view table.now) place }
{
    let Some(value) = value_at(table, Key::Mode) else {
        return Ok(None);
    };
    match mode_of_value(value) {
        Some(mode) => Ok(Some(mode)),
        None => Err(ConfigFault::BadKey {
            place,
            key: Key::Mode,
            problem: Problem::NotMode,
        }),
    }
}

/// The mode that a value writes.
fn mode_of_value(value: &Value) -> Option<u32>
    ensures { result ≡ mode_of_text (as_str (view value.now)) }
{
    match value.as_str() {
        Some(text) => mode_of(text),
        None => None,
    }
}

/// The number that three octal digits write, of which the first is 6 or 7.
fn mode_of(text: &str) -> Option<u32>
    ensures { result ≡ mode_of text.now }
{
    match text.as_bytes() {
        [owner, group, others] => mode_of_digits(*owner, *group, *others),
        _ => None,
    }
}

/// The number that the digits of the owner, of the group and of others write.
fn mode_of_digits(owner: u8, group: u8, others: u8) -> Option<u32>
    ensures { result ≡ mode_of (owner ∷ group ∷ others ∷ []) }
{
    if !is_octal_from(b'6', owner) || !is_octal_from(b'0', group) || !is_octal_from(b'0', others) {
        return None;
    }
    let owner = u32::from(owner - b'0');
    let group = u32::from(group - b'0');
    let others = u32::from(others - b'0');
    Some(owner * 0o100 + (group * 0o10 + others))
}

/// Whether the byte is a digit from this one up to 7.
fn is_octal_from(least: u8, byte: u8) -> bool
    ensures { result ≡ is_octal_from least byte }
{
    least <= byte && byte <= b'7'
}
