//! What one field makes of a message in a message, and of a list of messages.
ghost use Rattle.std.specs.Prelude.{◌≡◌, ◌≤◌, ◌∷◌, [], ◌++◌, None, length, map, OnOk, IfErr};
ghost use Rattle.bep_wire.specs.Content.{content_in};
ghost use Rattle.bep_wire.specs.Fields.{fields};
ghost use Rattle.bep_messages.specs.Contents.{byte_lists, merged};
ghost use Rattle.bep_messages.specs.Faults.{bytes_fault, message_fault, Reports};
ghost use Rattle.bep_messages.specs.Memory.{HoldsBytes, TakesMemory, ElementTakes};
ghost use Rattle.bep_messages.specs.declared.fault.MessageFault.TheVariants.{OutOfMemory};
ghost use Rattle.bep_messages.specs.Values.{empty, values};

use crate::fault::MessageFault;
use crate::items::Items;
use crate::message::ProtoMessage;
use bep_wire::{Field, Value};
use std::alloc::Global;

pub fn one<M: ProtoMessage>(
    slot: &mut M,
    alloc: Global,
    source: &[u8],
    field: Field,
) -> Result<(), MessageFault>
    requires start { field.start ≤ field.end }
    requires end { field.end ≤ length source.now }
    ensures ok { OnOk result ((bytes_fault (message_fault M.table) (content_in source.now field) ≡ None)
        × (M.parts slot.new
        ≡ merged (values M.table) (M.parts slot.old) (byte_lists (content_in source.now field ∷ [])))) }
    ensures fault { IfErr result (Reports (bytes_fault (message_fault M.table) (content_in source.now field))) }
    ensures memory { IfErr result (λ e. e ≡ OutOfMemory → HoldsBytes (TakesMemory M.table) (content_in source.now field)) }
{
    match field.value {
        Value::Bytes => slot.merge(alloc, &source[field.start..field.end]),
        Value::Varint(_) | Value::Eight | Value::Four => Ok(()),
    }
}

pub fn list<M: ProtoMessage>(
    slot: &mut Items<M>,
    alloc: Global,
    source: &[u8],
    field: Field,
) -> Result<(), MessageFault>
    requires start { field.start ≤ field.end }
    requires end { field.end ≤ length source.now }
    // The field has no fault, and its message, if it has one, is put behind the list: both are of the same bytes.
    ensures ok { OnOk result ((bytes_fault (message_fault M.table) (content_in source.now field) ≡ None)
        × (map M.parts slot.new ≡ map M.parts slot.old
        ++ map (λ bytes. values M.table (empty M.table) (fields bytes).items)
        (byte_lists (content_in source.now field ∷ [])))) }
    ensures fault { IfErr result (Reports (bytes_fault (message_fault M.table) (content_in source.now field))) }
    ensures memory { IfErr result (λ e. e ≡ OutOfMemory → HoldsBytes (ElementTakes M.table) (content_in source.now field)) }
{
    match field.value {
        Value::Bytes => {
            let mut item = M::make_empty(alloc);
            item.merge(alloc, &source[field.start..field.end])?;
            slot.push(item)?;
            Ok(())
        }
        Value::Varint(_) | Value::Eight | Value::Four => Ok(()),
    }
}
