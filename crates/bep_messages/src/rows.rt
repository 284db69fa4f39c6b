//! One row of a message, written by its kind, unless it has its default.
ghost use Rattle.std.specs.Prelude.{◌≤◌, ◌<◌, map, OnOk, OnErr};
ghost use Rattle.std.specs.List.{AllByRecursion};
ghost use Rattle.bep_wire.specs.Written.{bytes_field};
ghost use Rattle.bep_messages.specs.Tables.{Int32, Int64, Uint32, Uint64, Enum, Boolean, Words, Octets, Digest};
ghost use Rattle.bep_messages.specs.Forms.{number_form, bytes_form, list_form, scalar_form, form, ScalarFits, Fits, IsShort, IsText};
ghost use Rattle.bep_messages.specs.Writing.{Adds, Lacks};

use crate::items::Items;
use crate::message::ProtoMessage;
use crate::octets;
use crate::text::Text;
use crate::writer::Writer;
use bep_wire::MAX_FIELD_NUMBER;
use std::alloc::AllocError;

#[tactic(auto, unfolding(crate::specs::Forms::number_form))]
fn varint(out: &mut Writer, number: u32, value: u64) -> Result<(), AllocError>
    ensures ok { OnOk result (Adds out.old (number_form number value) out.new) }
    ensures err { OnErr result (Lacks out.old (number_form number value) out.new) }
{
    if value == 0 {
        return Ok(());
    }
    out.put_number(number, value)
}

pub fn uint64(out: &mut Writer, number: u32, value: &u64) -> Result<(), AllocError>
    ensures ok { OnOk result (Adds out.old (scalar_form number Uint64 value.now) out.new) }
    ensures fits { ScalarFits Uint64 value.now }
    ensures err { OnErr result (Lacks out.old (scalar_form number Uint64 value.now) out.new) }
{
    varint(out, number, *value)
}

pub fn uint32(out: &mut Writer, number: u32, value: &u32) -> Result<(), AllocError>
    ensures ok { OnOk result (Adds out.old (scalar_form number Uint32 value.now) out.new) }
    ensures fits { ScalarFits Uint32 value.now }
    ensures err { OnErr result (Lacks out.old (scalar_form number Uint32 value.now) out.new) }
{
    varint(out, number, *value as u64)
}

pub fn int64(out: &mut Writer, number: u32, value: &i64) -> Result<(), AllocError>
    ensures ok { OnOk result (Adds out.old (scalar_form number Int64 value.now) out.new) }
    ensures fits { ScalarFits Int64 value.now }
    ensures err { OnErr result (Lacks out.old (scalar_form number Int64 value.now) out.new) }
{
    varint(out, number, value.cast_unsigned())
}

pub fn int32(out: &mut Writer, number: u32, value: &i32) -> Result<(), AllocError>
    ensures ok { OnOk result (Adds out.old (scalar_form number Int32 value.now) out.new) }
    ensures fits { ScalarFits Int32 value.now }
    ensures err { OnErr result (Lacks out.old (scalar_form number Int32 value.now) out.new) }
{
    let wide = *value as i64;
    varint(out, number, wide.cast_unsigned())
}

pub fn enumeration(out: &mut Writer, number: u32, value: &i32) -> Result<(), AllocError>
    ensures ok { OnOk result (Adds out.old (scalar_form number Enum value.now) out.new) }
    ensures fits { ScalarFits Enum value.now }
    ensures err { OnErr result (Lacks out.old (scalar_form number Enum value.now) out.new) }
{
    int32(out, number, value)
}

pub fn boolean(out: &mut Writer, number: u32, value: &bool) -> Result<(), AllocError>
    ensures ok { OnOk result (Adds out.old (scalar_form number Boolean value.now) out.new) }
    ensures err { OnErr result (Lacks out.old (scalar_form number Boolean value.now) out.new) }
{
    varint(out, number, if *value { 1 } else { 0 })
}

#[tactic(auto, unfolding(crate::specs::Forms::bytes_form))]
fn bytes(out: &mut Writer, number: u32, bytes: &[u8]) -> Result<(), AllocError>
    requires low { 0 < number }
    requires high { number ≤ MAX_FIELD_NUMBER }
    ensures ok { OnOk result (Adds out.old (bytes_form number bytes.now) out.new) }
    ensures short { IsShort bytes.now }
    ensures err { OnErr result (Lacks out.old (bytes_form number bytes.now) out.new) }
{
    if bytes.is_empty() {
        return Ok(());
    }
    out.put_bytes(number, bytes)
}

pub fn octets(out: &mut Writer, number: u32, value: &octets::Octets) -> Result<(), AllocError>
    requires low { 0 < number }
    requires high { number ≤ MAX_FIELD_NUMBER }
    ensures ok { OnOk result (Adds out.old (scalar_form number Octets value.now) out.new) }
    ensures fits { ScalarFits Octets value.now }
    ensures err { OnErr result (Lacks out.old (scalar_form number Octets value.now) out.new) }
{
    bytes(out, number, value.as_slice())
}

pub fn digest(out: &mut Writer, number: u32, hash: &octets::ShortOctets) -> Result<(), AllocError>
    requires low { 0 < number }
    requires high { number ≤ MAX_FIELD_NUMBER }
    ensures ok { OnOk result (Adds out.old (scalar_form number Digest hash.now) out.new) }
    ensures fits { ScalarFits Digest hash.now }
    ensures err { OnErr result (Lacks out.old (scalar_form number Digest hash.now) out.new) }
{
    bytes(out, number, hash.as_slice())
}

pub fn words(out: &mut Writer, number: u32, value: &Text) -> Result<(), AllocError>
    requires low { 0 < number }
    requires high { number ≤ MAX_FIELD_NUMBER }
    ensures ok { OnOk result (Adds out.old (scalar_form number Words value.now) out.new) }
    ensures fits { ScalarFits Words value.now }
    ensures err { OnErr result (Lacks out.old (scalar_form number Words value.now) out.new) }
{
    bytes(out, number, value.as_str().as_bytes())
}

pub fn one<M: ProtoMessage>(out: &mut Writer, number: u32, value: &M) -> Result<(), AllocError>
    requires low { 0 < number }
    requires high { number ≤ MAX_FIELD_NUMBER }
    ensures ok { OnOk result (Adds out.old (bytes_form number (form M.table (M.parts value.now))) out.new) }
    ensures fits { OnOk result
        (Fits M.table (M.parts value.now) × IsShort (form M.table (M.parts value.now))) }
    ensures err { OnErr result (Lacks out.old (bytes_form number (form M.table (M.parts value.now))) out.new) }
{
    let from = out.len();
    value.write(out)?;
    if out.len() > from {
        out.put_head(number, from)?;
    }
    Ok(())
}

/// An element of a list of messages, also an empty one.
fn element<M: ProtoMessage>(out: &mut Writer, number: u32, value: &M) -> Result<(), AllocError>
    requires low { 0 < number }
    requires high { number ≤ MAX_FIELD_NUMBER }
    ensures ok { OnOk result (Adds out.old (bytes_field number (form M.table (M.parts value.now))) out.new) }
    ensures fits { OnOk result
        (Fits M.table (M.parts value.now) × IsShort (form M.table (M.parts value.now))) }
    ensures err { OnErr result (Lacks out.old (bytes_field number (form M.table (M.parts value.now))) out.new) }
{
    let from = out.len();
    value.write(out)?;
    out.put_head(number, from)
}

pub fn list<M: ProtoMessage>(
    out: &mut Writer,
    number: u32,
    values: &Items<M>,
) -> Result<(), AllocError>
    requires low { 0 < number }
    requires high { number ≤ MAX_FIELD_NUMBER }
    ensures ok { OnOk result (Adds out.old (list_form number (form M.table) (map M.parts values.now)) out.new) }
    ensures fits { OnOk result
        (AllByRecursion (λ m. Fits M.table m × IsShort (form M.table m)) (map M.parts values.now)) }
    ensures err { OnErr result (Lacks out.old (list_form number (form M.table) (map M.parts values.now)) out.new) }
{
    for value in values.as_slice() {
        element(out, number, value)?;
    }
    Ok(())
}

pub fn texts(out: &mut Writer, number: u32, values: &Items<Text>) -> Result<(), AllocError>
    requires low { 0 < number }
    requires high { number ≤ MAX_FIELD_NUMBER }
    ensures ok { OnOk result (Adds out.old (list_form number (λ t. t) values.now) out.new) }
    ensures fits { OnOk result (AllByRecursion IsText values.now) }
    ensures err { OnErr result (Lacks out.old (list_form number (λ t. t) values.now) out.new) }
{
    for value in values.as_slice() {
        text(out, number, value)?;
    }
    Ok(())
}

/// An element of a list of texts, also an empty one.
fn text(out: &mut Writer, number: u32, value: &Text) -> Result<(), AllocError>
    requires low { 0 < number }
    requires high { number ≤ MAX_FIELD_NUMBER }
    ensures ok { OnOk result (Adds out.old (bytes_field number value.now) out.new) }
    ensures fits { IsText value.now }
    ensures err { OnErr result (Lacks out.old (bytes_field number value.now) out.new) }
{
    out.put_bytes(number, value.as_str().as_bytes())
}
