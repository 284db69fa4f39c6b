//! Protobuf fields decoded from bytes: varints, keys with field number and wire type, and length-delimited values.
ghost use Rattle.std.specs.Prelude.{◌≡◌, ◌≤◌, ◌<◌, Ok, Err, None, Some, length, drop, slice_range, MatchResult, MatchOption, IfOk, IfErr, map};
ghost use Rattle.bep_wire.specs.Content.{wire_of, item_in, content_in};
ghost use Rattle.bep_wire.specs.Grammar.{NoField};
ghost use Rattle.bep_wire.specs.Reading.{varint_at, piece_at, content_at, field_at};
ghost use Rattle.bep_wire.specs.Fields.{fields, broken};
ghost use Rattle.bep_wire.specs.declared.fault.FieldsFault.TheVariants.{OutOfMemory};
ghost use Rattle.bep_wire.specs.Places.{FindsField, ReadsField, AreFields, ReportsFault};

use crate::fault::{FieldsFault, WireFault};
use crate::field::{Field, MAX_FIELD_NUMBER, MAX_VARINT_LEN, Value};
use std::alloc::Global;

/// The varint at a place, and the place after it. Bits past 64 are dropped.
fn varint(source: &[u8], from: usize) -> Result<(u64, usize), WireFault>
    ensures { MatchResult result
        (λ x. (varint_at (drop from source.now) ≡ Ok (x.0, drop x.1 source.now))
        × (from < x.1) × (x.1 ≤ length source.now))
        (λ e. varint_at (drop from source.now) ≡ Err e) }
{
    // Keys and most lengths have one byte.
    if from < source.len() {
        let only = source[from];
        if only < 128 {
            return Ok((only as u64, from + 1));
        }
    }
    varint_of_groups(source, from)
}

/// The same, however many bytes it has.
fn varint_of_groups(source: &[u8], from: usize) -> Result<(u64, usize), WireFault>
    ensures { MatchResult result
        (λ x. (varint_at (drop from source.now) ≡ Ok (x.0, drop x.1 source.now))
        × (from < x.1) × (x.1 ≤ length source.now))
        (λ e. varint_at (drop from source.now) ≡ Err e) }
{
    let mut value: u64 = 0;
    let mut at = from;
    for turn in 0..MAX_VARINT_LEN {
        if at >= source.len() {
            return Err(WireFault::Truncated);
        }
        let byte = source[at];
        at += 1;
        let low = (byte % 128) as u64;
        value = value.wrapping_add(low << (7 * turn));
        if byte < 128 {
            return Ok((value, at));
        }
    }
    Err(WireFault::LongVarint)
}

/// Where so many bytes from a place on end.
#[tactic(auto, unfolding(crate::specs::Reading::piece_at))]
fn piece(source: &[u8], from: usize, len: u64) -> Result<usize, WireFault>
    requires { from ≤ length source.now }
    ensures { MatchResult result
        (λ end. (piece_at len (drop from source.now) ≡ Ok (slice_range source.now from end, drop end source.now))
        × (from ≤ end) × (end ≤ length source.now))
        (λ e. piece_at len (drop from source.now) ≡ Err e) }
{
    if ((source.len() - from) as u64) < len {
        return Err(WireFault::Truncated);
    }
    Ok(from + len as usize)
}

/// The field of a number and a wire type, whose key ends at a place.
#[tactic(auto, unfolding(crate::specs::Reading::content_at))]
fn field_after(number: u32, wire: u64, source: &[u8], from: usize) -> Result<Field, WireFault>
    requires { from ≤ length source.now }
    ensures { MatchResult result
        (λ x. (content_at (wire_of wire) (drop from source.now)
        ≡ Ok (content_in source.now x, drop x.start source.now, drop x.end source.now))
        × (x.number ≡ number) × (from ≤ x.start) × (x.start ≤ x.end) × (x.end ≤ length source.now))
        (λ e. content_at (wire_of wire) (drop from source.now) ≡ Err e) }
{
    let (value, start, end) = match wire {
        0 => {
            let (value, end) = varint(source, from)?;
            (Value::Varint(value), from, end)
        }
        1 => (Value::Eight, from, piece(source, from, 8)?),
        2 => {
            let (len, start) = varint(source, from)?;
            (Value::Bytes, start, piece(source, start, len)?)
        }
        5 => (Value::Four, from, piece(source, from, 4)?),
        3 | 4 => return Err(WireFault::Group),
        _ => return Err(WireFault::BadKey),
    };
    Ok(Field {
        number,
        value,
        start,
        end,
    })
}

#[tactic(auto, unfolding(crate::specs::Reading::field_at))]
fn field(source: &[u8], from: usize) -> Result<Option<Field>, WireFault>
    ensures { MatchResult result
        (λ found. MatchOption found (length source.now ≤ from)
        (λ f. (field_at (drop from source.now)
        ≡ Ok (item_in source.now f, drop f.start source.now, drop f.end source.now))
        × (from < f.start) × (f.start ≤ f.end) × (f.end ≤ length source.now)))
        (λ e. (from < length source.now) × (field_at (drop from source.now) ≡ Err e)) }
{
    if from >= source.len() {
        return Ok(None);
    }
    let (key, after) = varint(source, from)?;
    let number = key / 8;
    if number == 0 || number > MAX_FIELD_NUMBER as u64 {
        return Err(WireFault::BadKey);
    }
    let field = field_after(number as u32, key % 8, source, after)?;
    Ok(Some(field))
}

/// The field that begins at a place of a byte list, with the place of the bytes that it holds, or
/// `None` if no byte is left there, also for a place past the end.
///
/// Fails with `Truncated`, `LongVarint`, `BadKey` or `Group` exactly if bytes are left and no field
/// begins. Does not allocate and reads no byte twice; O(1), since it reads at most two varints.
pub fn next_field(source: &[u8], from: usize) -> Result<Option<Field>, WireFault>
    // What is returned is a field there by the grammar, and a fault is one by the grammar.
    ensures grammar { MatchResult result (FindsField source.now from) (NoField (drop from source.now)) }
    // It is the first of the one reading of the bytes from the place on.
    ensures reading { MatchResult result (ReadsField source.now from) (λ e. fields (drop from source.now) ≡ broken e) }
{
    field(source, from)
}

/// All fields of a byte list, in order.
///
/// Fails with the first fault of the bytes, exactly if they have one, or with `OutOfMemory` if
/// allocation fails for the list. O(n); no byte of the source is copied.
pub fn read_fields(alloc: Global, source: &[u8]) -> Result<Vec<Field>, FieldsFault>
    // They are fields by the grammar, one after the other, from the first byte to the last,
    ensures places { IfOk result (λ found. AreFields source.now 0 found.items) }
    // and are the fields of the one reading of the bytes, which has no fault.
    ensures items { IfOk result (λ found. (fields source.now).items ≡ map (item_in source.now) found.items) }
    ensures whole { IfOk result (λ _. (fields source.now).fault ≡ None) }
    // A fault of the bytes is the one that ends their reading.
    ensures fault { IfErr result (ReportsFault (fields source.now).fault) }
    // The list allocates only for a field: not if the bytes begin with a fault, or are empty.
    ensures memory { IfErr result (λ e. e ≡ OutOfMemory → 0 < length (fields source.now).items) }
{
    let mut found = Vec::new(alloc);
    let mut at = 0;
    while let Some(field) = next_field(source, at)? {
        found.push(field)?;
        at = field.end;
    }
    Ok(found)
}
