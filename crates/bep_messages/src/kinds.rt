//! What one field makes of a value, by its kind. A content under another wire type than the kind's
//! leaves the value as it was.
ghost use Rattle.std.specs.Prelude.{◌≡◌, ◌≤◌, ◌∷◌, [], ◌++◌, ℕ, List, None, length, OnOk, IfErr};
ghost use Rattle.std.specs.Str.{IsUtf8};
ghost use Rattle.bep_wire.specs.Content.{content_of, content_in};
ghost use Rattle.bep_messages.specs.Tables.{Int32, Int64, Uint32, Uint64, Enum, Boolean, Words, Octets, Digest};
ghost use Rattle.bep_messages.specs.Contents.{scalar, byte_lists};
ghost use Rattle.bep_messages.specs.Faults.{bytes_fault, text_fault, Reports};
ghost use Rattle.bep_messages.specs.Memory.{HoldsBytes, ScalarTakes};
ghost use Rattle.bep_messages.specs.declared.fault.MessageFault.TheVariants.{OutOfMemory};

use crate::fault::MessageFault;
use crate::items::Items;
use crate::octets;
use crate::text::Text;
use bep_wire::{Field, Value};
use std::alloc::Global;

pub fn uint64(old: u64, value: Value) -> u64
    ensures { (held : List ℕ) → result ≡ scalar Uint64 old (content_of value held ∷ []) }
{
    match value {
        Value::Varint(number) => number,
        Value::Eight | Value::Bytes | Value::Four => old,
    }
}

pub fn uint32(old: u32, value: Value) -> u32
    ensures { (held : List ℕ) → result ≡ scalar Uint32 old (content_of value held ∷ []) }
{
    match value {
        Value::Varint(number) => (number % (1 << 32)) as u32,
        Value::Eight | Value::Bytes | Value::Four => old,
    }
}

pub fn int64(old: i64, value: Value) -> i64
    ensures { (held : List ℕ) → result ≡ scalar Int64 old (content_of value held ∷ []) }
{
    match value {
        Value::Varint(number) => number.cast_signed(),
        Value::Eight | Value::Bytes | Value::Four => old,
    }
}

pub fn int32(old: i32, value: Value) -> i32
    ensures { (held : List ℕ) → result ≡ scalar Int32 old (content_of value held ∷ []) }
{
    match value {
        Value::Varint(number) => ((number % (1 << 32)) as u32).cast_signed(),
        Value::Eight | Value::Bytes | Value::Four => old,
    }
}

pub fn enumeration(old: i32, value: Value) -> i32
    ensures { (held : List ℕ) → result ≡ scalar Enum old (content_of value held ∷ []) }
{
    int32(old, value)
}

pub fn boolean(old: bool, value: Value) -> bool
    ensures { (held : List ℕ) → result ≡ scalar Boolean old (content_of value held ∷ []) }
{
    match value {
        Value::Varint(number) => number != 0,
        Value::Eight | Value::Bytes | Value::Four => old,
    }
}

pub fn octets(
    slot: &mut octets::Octets,
    alloc: Global,
    source: &[u8],
    field: Field,
) -> Result<(), MessageFault>
    requires start { field.start ≤ field.end }
    requires end { field.end ≤ length source.now }
    ensures ok { OnOk result (slot.new ≡ scalar Octets slot.old (content_in source.now field ∷ [])) }
    ensures fault { IfErr result (Reports None) }
    ensures memory { IfErr result (λ e. e ≡ OutOfMemory → ScalarTakes Octets (content_in source.now field)) }
{
    if let Value::Bytes = field.value {
        *slot = octets::Octets::from_slice(alloc, &source[field.start..field.end])?;
    }
    Ok(())
}

pub fn digest(
    slot: &mut octets::ShortOctets,
    alloc: Global,
    source: &[u8],
    field: Field,
) -> Result<(), MessageFault>
    requires start { field.start ≤ field.end }
    requires end { field.end ≤ length source.now }
    ensures ok { OnOk result (slot.new ≡ scalar Digest slot.old (content_in source.now field ∷ [])) }
    ensures fault { IfErr result (Reports None) }
    ensures memory { IfErr result (λ e. e ≡ OutOfMemory → ScalarTakes Digest (content_in source.now field)) }
{
    if let Value::Bytes = field.value {
        *slot = octets::ShortOctets::from_slice(alloc, &source[field.start..field.end])?;
    }
    Ok(())
}

pub fn words(
    slot: &mut Text,
    alloc: Global,
    source: &[u8],
    field: Field,
) -> Result<(), MessageFault>
    requires start { field.start ≤ field.end }
    requires end { field.end ≤ length source.now }
    ensures ok { OnOk result ((bytes_fault text_fault (content_in source.now field) ≡ None)
        × (slot.new ≡ scalar Words slot.old (content_in source.now field ∷ []))) }
    ensures fault { IfErr result (Reports (bytes_fault text_fault (content_in source.now field))) }
    ensures memory { IfErr result (λ e. e ≡ OutOfMemory → ScalarTakes Words (content_in source.now field)) }
{
    if let Value::Bytes = field.value {
        match std::str::from_utf8(&source[field.start..field.end]) {
            Ok(text) => *slot = Text::from_str(alloc, text)?,
            Err(_) => return Err(MessageFault::NotUtf8),
        }
    }
    Ok(())
}

pub fn texts(
    slot: &mut Items<Text>,
    alloc: Global,
    source: &[u8],
    field: Field,
) -> Result<(), MessageFault>
    requires start { field.start ≤ field.end }
    requires end { field.end ≤ length source.now }
    ensures ok { OnOk result ((bytes_fault text_fault (content_in source.now field) ≡ None)
        × (slot.new ≡ slot.old ++ byte_lists (content_in source.now field ∷ []))) }
    ensures fault { IfErr result (Reports (bytes_fault text_fault (content_in source.now field))) }
    ensures memory { IfErr result (λ e. e ≡ OutOfMemory → HoldsBytes IsUtf8 (content_in source.now field)) }
{
    if let Value::Bytes = field.value {
        let mut text = Text::new(alloc);
        words(&mut text, alloc, source, field)?;
        slot.push(text)?;
    }
    Ok(())
}
