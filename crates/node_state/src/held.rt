//! The bytes that fields of one number hold.
ghost use Rattle.std.specs.Prelude.{◌≡◌, ◌≢◌, ◌<◌, ◌≤◌, ◌∷◌, [], ℕ, List, None, Some, drop, length, slice_range, if◌then◌else◌, IfErr, IfNone, IfOk, IfSome};
ghost use Rattle.bep_messages.specs.Contents.{byte_lists, contents};
ghost use Rattle.bep_messages.specs.Faults.{message_fault};
ghost use Rattle.bep_messages.specs.Values.{value};
ghost use Rattle.bep_wire.specs.Content.{content_of};
ghost use Rattle.bep_wire.specs.Fields.{fields};
ghost use Rattle.node_state.specs.declared.fault.StateFault.TheVariants.{OutOfMemory};
ghost use Rattle.node_state.specs.Reading.{HoldsFirst, HoldsNone};

use crate::fault::{Problem, StateFault};
use bep_messages::{MessageFault, ProtoMessage};
use bep_wire::{Field, Value, WireFault, next_field};
use std::alloc::Global;

// Whether the field is of the number and of wire type 2.
fn is_held(field: &Field, number: u32) -> bool
    ensures { (bytes : List ℕ) →
        byte_lists (contents number (record { number = field.now.number; content = content_of field.now.value bytes } ∷ []))
        ≡ (if result then bytes ∷ [] else []) }
{
    match field.value {
        Value::Bytes => field.number == number,
        Value::Varint(_) | Value::Eight | Value::Four => false,
    }
}

/// The place of what is held by the first field of a number and wire type 2 from a place on. Fails exactly where the
/// bytes have a fault before such a field. Does not allocate. O(n) for n fields up to it.
pub(crate) fn next_held(
    source: &[u8],
    from: usize,
    number: u32,
) -> Result<Option<(usize, usize)>, WireFault>
    ensures places { IfOk result (λ found. IfSome found (λ p.
        (from < p.1) × (p.0 ≤ p.1) × (p.1 ≤ length source.now))) }
    ensures none { IfOk result (λ found. IfNone found (HoldsNone number (drop from source.now))) }
    ensures first { IfOk result (λ found. IfSome found (λ p.
        HoldsFirst number (drop from source.now) (slice_range source.now p.0 p.1) (drop p.1 source.now))) }
    ensures fault { IfErr result (λ f. (fields (drop from source.now)).fault ≡ Some f) }
{
    let mut at = from;
    while let Some(field) = next_field(source, at)? {
        at = field.end;
        if is_held(&field, number) {
            return Ok(Some((field.start, field.end)));
        }
    }
    Ok(None)
}

/// The message of a byte list, with the fault that a state has if there is none.
pub(crate) fn read_message<M: ProtoMessage>(alloc: Global, bytes: &[u8]) -> Result<M, StateFault>
    ensures ok { IfOk result (λ m. (message_fault M.table bytes.now ≡ None) × (M.parts m ≡ value M.table bytes.now)) }
    ensures err { IfErr result (λ e. e ≢ OutOfMemory → message_fault M.table bytes.now ≢ None) }
{
    let mut message = M::make_empty(alloc);
    match message.merge(alloc, bytes) {
        Ok(()) => Ok(message),
        Err(MessageFault::OutOfMemory) => Err(StateFault::OutOfMemory),
        Err(fault) => Err(StateFault::BadState(Problem::Unreadable(fault))),
    }
}
