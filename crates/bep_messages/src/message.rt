//! The trait of all protobuf messages: decode, encode and merge, by a table of the message's fields.
ghost use Rattle.std.specs.Prelude.{◌≡◌, ◌≢◌, ◌≤◌, ◌<◌, ◌+◌, ◌∷◌, [], true, None, Ok, Err, ◌++◌, length, OnOk, OnErr, IfErr, vec_len, vec_capacity};
ghost use Rattle.bep_wire.specs.Content.{item_in};
ghost use Rattle.bep_wire.specs.Fields.{fields};
ghost use Rattle.bep_messages.specs.Tables.{Table, Values, rises};
ghost use Rattle.bep_messages.specs.Faults.{item_fault, message_fault, Reports};
ghost use Rattle.bep_messages.specs.Memory.{ItemTakes, TakesMemory};
ghost use Rattle.bep_messages.specs.declared.fault.MessageFault.TheVariants.{OutOfMemory};
ghost use Rattle.bep_messages.specs.Values.{empty, values, decoded};
ghost use Rattle.bep_messages.specs.Forms.{form, Fits};
ghost use Rattle.bep_messages.specs.Writing.{Adds, Lacks};

use crate::fault::MessageFault;
use crate::writer::Writer;
use bep_wire::{Field, next_field};
use std::alloc::{AllocError, Global};
use std::mem;

/// A message with a table of its fields: what is common to all messages is written here once. The
/// bodies of an impl are the message's table, expanded by the macros `empty_fields`, `take_field` and `write_rows`.
pub trait ProtoMessage: Drop {
    /// The message's fields, by rising number.
    ghost table: { Table };

    /// The fields' values in the order of the table, and the message that has these.
    ghost parts: { Self → Values table };

    ghost whole: { Values table → Self };

    /// The message without a field. Does not allocate.
    fn make_empty(alloc: Global) -> Self
        ensures { parts result ≡ empty table };

    /// Merges one field of the source. If it fails, the message may have any value.
    fn put(&mut self, alloc: Global, source: &[u8], field: Field) -> Result<(), MessageFault>
        requires start { field.start ≤ field.end }
        requires end { field.end ≤ length source.now }
        ensures ok { OnOk result ((item_fault table (item_in source.now field) ≡ None)
            × (parts self.new ≡ values table (parts self.old) (item_in source.now field ∷ []))) }
        ensures fault { IfErr result (Reports (item_fault table (item_in source.now field))) }
        ensures memory { IfErr result (λ e. e ≡ OutOfMemory → ItemTakes table (item_in source.now field)) };

    /// Writes the fields that aren't their defaults. If it fails, any bytes may have been written.
    fn write(&self, out: &mut Writer) -> Result<(), AllocError>
        ensures ok { OnOk result (Adds out.old (form table (parts self.now)) out.new) }
        ensures fits { OnOk result (Fits table (parts self.now)) }
        ensures err { OnErr result (Lacks out.old (form table (parts self.now)) out.new) };

    ghost table_rises: { rises 0 table ≡ true };

    ghost whole_of_parts: { (m : Self) → whole (parts m) ≡ m };

    /// Merges the fields of a byte list. If it fails, the message may have any value.
    final fn merge(&mut self, alloc: Global, bytes: &[u8]) -> Result<(), MessageFault>
        ensures ok { OnOk result ((message_fault table bytes.now ≡ None)
            × (parts self.new ≡ values table (parts self.old) (fields bytes.now).items)) }
        ensures fault { IfErr result (Reports (message_fault table bytes.now)) }
        ensures memory { IfErr result (λ e. e ≡ OutOfMemory → TakesMemory table bytes.now) }
    {
        let mut at = 0;
        while let Some(field) = next_field(bytes, at)? {
            self.put(alloc, bytes, field)?;
            at = field.end;
        }
        Ok(())
    }

    /// The message of a byte list.
    ///
    /// Fails with the first fault from left to right, which may be that of a message in it, exactly if
    /// there is one; or with `OutOfMemory` if allocation fails, which only a field before the first
    /// fault that is kept in memory can cause (`specs/Memory.antt`). O(n); each content is copied once.
    final fn decode(alloc: Global, bytes: &[u8]) -> Result<Self, MessageFault>
        ensures decoded { result ≢ Err MessageFault.OutOfMemory → result ≡ decoded table whole bytes.now }
        ensures memory { result ≡ Err MessageFault.OutOfMemory → TakesMemory table bytes.now }
    {
        let mut message = Self::make_empty(alloc);
        message.merge(alloc, bytes)?;
        Ok(message)
    }

    /// Appends the written form of the message, which decodes to the message.
    ///
    /// Fails only if allocation fails, and then the vector has the bytes that it had. O(n) for each
    /// level of messages in messages; the form is made in place.
    #[tactic(auto, unfolding(crate::specs::Writing::len))]
    final fn encode(&self, out: &mut Vec<u8>) -> Result<(), AllocError>
        ensures ok { OnOk result (out.new.items ≡ out.old.items ++ form table (parts self.now)) }
        ensures again { OnOk result (decoded table whole (form table (parts self.now)) ≡ Ok self.now) }
        ensures err { OnErr result (out.new.items ≡ out.old.items) }
        // It fails only where room for the written form was missing.
        ensures full { OnErr result (vec_capacity out.old < vec_len out.old + length (form table (parts self.now))) }
        ensures capacity { vec_capacity out.old ≤ vec_capacity out.new }
    {
        let alloc = *out.allocator();
        let mut writer = Writer::new(mem::replace(out, Vec::new(alloc)));
        match self.write(&mut writer) {
            Ok(()) => {
                *out = writer.finish();
                Ok(())
            }
            Err(error) => {
                *out = writer.undo();
                Err(error)
            }
        }
    }
}
