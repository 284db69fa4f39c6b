//! How programs print a record: its kind, its size, its version and its name.
#![tactic(auto)]

ghost use Rattle.std.specs.Prelude.{◌≡◌, ◌++◌, OnOk, flat_map};
ghost use Rattle.std.specs.List.{list_any};
ghost use Rattle.record_lines.specs.Lines.{counter_text, escaped, is_escaped, kind_word, name_text, record_text, version_text};

use itoa::Buffer;
use std::alloc::AllocError;
use sync_names::SafeName;
use sync_record::{Kind, Record};
use sync_version::Version;

/// Appends `KIND SIZE VERSION NAME` of a record. O(n) for n bytes of the text. Returns `Err` only if out of memory, and then a part
/// of it may have been appended.
pub fn push_record(line: &mut Vec<u8>, record: &Record) -> Result<(), AllocError>
    ensures { OnOk result (line.new.items ≡ line.old.items ++ record_text «record».now) }
{
    line.extend_from_slice(word(record).as_bytes())?;
    line.push(b' ')?;
    let mut digits = Buffer::new();
    line.extend_from_slice(digits.format(record.size()).as_bytes())?;
    line.push(b' ')?;
    push_version(line, record.version())?;
    line.push(b' ')?;
    push_name(line, record.name())
}

/// `gone` for a deleted record, else what it is of.
fn word(record: &Record) -> &'static str
    ensures { result.now ≡ kind_word «record».now }
{
    if record.is_deleted() {
        return "gone";
    }
    match record.kind() {
        Kind::File => "file",
        Kind::Directory => "dir",
        Kind::Other => "other",
    }
}

/// Appends `ID:VALUE` for each counter, in rising order of the ids, or `-` where there is none.
fn push_version(line: &mut Vec<u8>, version: &Version) -> Result<(), AllocError>
    ensures { OnOk result (line.new.items ≡ line.old.items ++ version_text version.now) }
{
    let Some((first, others)) = version.counters().split_first() else {
        line.push(b'-')?;
        return Ok(());
    };
    push_counter(line, *first)?;
    for counter in others {
        line.push(b',')?;
        push_counter(line, *counter)?;
    }
    Ok(())
}

fn push_counter(line: &mut Vec<u8>, counter: (u64, u64)) -> Result<(), AllocError>
    ensures { OnOk result (line.new.items ≡ line.old.items ++ counter_text counter) }
{
    let (id, value) = counter;
    let mut digits = [0; 16];
    hex::encode_to_slice(id.to_be_bytes(), &mut digits).unwrap();
    line.extend_from_slice(&digits)?;
    line.push(b':')?;
    let mut decimals = Buffer::new();
    line.extend_from_slice(decimals.format(value).as_bytes())?;
    Ok(())
}

/// Appends a name, escaped: a control or the backslash as `\x` and two hexadecimal digits. O(n). Returns `Err` only if out of
/// memory, and then a part of it may have been appended.
pub fn push_name(line: &mut Vec<u8>, name: &SafeName) -> Result<(), AllocError>
    ensures { OnOk result (line.new.items ≡ line.old.items ++ name_text name.now) }
{
    push_text(line, name.as_str())
}

/// Appends a text as [`push_name`] does a name: so it is a part of one line, whatever is in it. O(n), at once where nothing is
/// escaped.
pub fn push_text(line: &mut Vec<u8>, text: &str) -> Result<(), AllocError>
    ensures { OnOk result (line.new.items ≡ line.old.items ++ name_text text.now) }
{
    let bytes = text.as_bytes();
    if has_escapes(bytes) {
        push_escaped(line, bytes)?;
    } else {
        line.extend_from_slice(bytes)?;
    }
    Ok(())
}

/// Whether a byte of a text is written as an escape: a control or the backslash.
fn is_escaped(byte: u8) -> bool
    ensures { result ≡ is_escaped byte }
{
    byte < 32 || byte == b'\\' || byte == 127
}

/// Whether any byte is written as an escape.
fn has_escapes(bytes: &[u8]) -> bool
    ensures { result ≡ list_any is_escaped bytes.now }
{
    bytes.iter().any(|byte| is_escaped(*byte))
}

/// Appends bytes, those escaped that are to be.
fn push_escaped(line: &mut Vec<u8>, bytes: &[u8]) -> Result<(), AllocError>
    ensures { OnOk result (line.new.items ≡ line.old.items ++ flat_map escaped bytes.now) }
{
    for byte in bytes {
        push_byte(line, *byte)?;
    }
    Ok(())
}

/// Appends a byte of a text: a control or the backslash as `\x` and two hexadecimal digits, any other as it is.
fn push_byte(line: &mut Vec<u8>, byte: u8) -> Result<(), AllocError>
    ensures { OnOk result (line.new.items ≡ line.old.items ++ escaped byte) }
{
    if is_escaped(byte) {
        let mut digits = [0; 2];
        hex::encode_to_slice([byte], &mut digits).unwrap();
        line.extend_from_slice(b"\\x")?;
        line.extend_from_slice(&digits)?;
    } else {
        line.push(byte)?;
    }
    Ok(())
}
