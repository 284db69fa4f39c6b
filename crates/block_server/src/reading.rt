//! A part of a file, read from the store.
ghost use Rattle.std.specs.Prelude.{◌≡◌, ◌≢◌, ◌+◌, ◌-◌, ◌^◌, ◌<◌, ◌≤◌, IfErr, IfOk, MatchOption, MatchResult, Option, false, length, nat_le, true};
ghost use Rattle.file_store.specs.Calls.{stat_of};
ghost use Rattle.file_store.specs.Trees.{bytes_of};
ghost use Rattle.file_store.specs.declared.node.Node.{Node};
ghost use Rattle.file_store.specs.Refusals.{IsPlain, count_after};
ghost use Rattle.file_store.specs.Asked.{StatAt};
ghost use Rattle.file_store.specs.declared.node.Stat.{Stat};
ghost use Rattle.block_server.specs.PartsGiven.{GivesPart, size_said};
ghost use Rattle.block_server.specs.PartsRead.{ReadsPart};

use crate::part::Part;
use bep_messages::Octets;
use file_store::{FileStore, Gate, GatePlace, Stat, StoreRefusal, read_full};
use std::alloc::{AllocError, Global};

/// The bytes of the part; `None` if the store failed, or has fewer bytes there. Where the store says beforehand that it has
/// fewer, nothing is allocated.
pub(crate) fn read_part<S: FileStore, G: Gate>(
    alloc: Global,
    store: &mut S,
    gate: &G,
    part: &Part,
) -> Result<Option<Octets>, AllocError>
    requires { part.now.offset + part.now.size < 2 ^ 64 }
    ensures reads { IfOk result (λ read. ReadsPart S.keeps part.now.offset part.now.size
        (bytes_of ((S.tree store.old).names part.now.name)) (S.fault_count store.old) read
        (S.fault_count store.new)) }
    ensures given { IfOk result (λ read. GivesPart S.gives part.now.name part.now.offset
        part.now.size store.old read store.new) }
    ensures kept { S.keeps ≡ true → S.tree store.new ≡ S.tree store.old }
    ensures out_of_memory { IfErr result (λ _. S.fault_count store.new ≡ S.fault_count store.old) }
{
    match has_part(store, gate, part) {
        Ok(true) => {}
        Ok(false) => return Ok(None),
        Err(StoreRefusal::OutOfMemory) => return Err(AllocError),
        Err(_) => return Ok(None),
    }
    let mut bytes = Vec::from_elem(alloc, 0, part.size as usize)?;
    match read_full(store, gate, &part.name, part.offset, &mut bytes) {
        Ok(count) => Ok(all_read(bytes, count)),
        Err(StoreRefusal::OutOfMemory) => Err(AllocError),
        Err(_) => Ok(None),
    }
}

// The bytes, if so many were read that there is no other among them.
fn all_read(bytes: Vec<u8>, count: usize) -> Option<Octets>
    ensures { MatchOption result (count ≢ length bytes.items)
        (λ read. (count ≡ length bytes.items) × (read ≡ bytes.items)) }
{
    if count == bytes.len() {
        Some(Octets::from_vec(bytes))
    } else {
        None
    }
}

// Whether the store says that it has so many bytes there.
fn has_part<S: FileStore, G: Gate>(
    store: &mut S,
    gate: &G,
    part: &Part,
) -> Result<bool, StoreRefusal>
    ensures enough { S.keeps ≡ true → IfOk result (λ enough. enough ≡ nat_le part.now.size
        (length (bytes_of ((S.tree store.old).names part.now.name)) - part.now.offset)) }
    ensures none { IfOk result (λ enough. enough ≡ false → 1 ≤ part.now.size) }
    ensures said { MatchResult result
        (λ enough. (said : Stat) × S.gives store.old (StatAt part.now.name) (Ok said) store.new
        × (enough ≡ nat_le part.now.size (size_said said - part.now.offset)))
        (λ refusal. S.gives store.old (StatAt part.now.name) (Err refusal) store.new) }
    ensures kept { S.keeps ≡ true → S.tree store.new ≡ S.tree store.old }
    ensures refusals { IfErr result IsPlain }
    ensures counted { S.fault_count store.new ≡ count_after result (S.fault_count store.old) }
{
    gate.at(GatePlace::StoreRead);
    let stat = store.stat(&part.name)?;
    Ok(u64::from(part.size) <= size_of(stat).saturating_sub(part.offset))
}

// How many bytes the file has, 0 if there is none.
fn size_of(stat: Stat) -> u64
    ensures there { (node : Option Node) → stat ≡ stat_of node → result ≡ length (bytes_of node) }
    ensures said { result ≡ size_said stat }
{
    match stat {
        Stat::File(size, _) => size,
        Stat::Missing | Stat::Directory | Stat::Other => 0,
    }
}
