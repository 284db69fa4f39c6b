//! Bytes of a file read from a store at an offset, until the buffer is full or the file ends.
ghost use Rattle.std.specs.Prelude.{◌≡◌, ◌+◌, ◌^◌, ◌<◌, ◌≤◌, IfErr, IfOk, drop, length, take, true};
ghost use Rattle.file_store.specs.Refusals.{IsPlain, count_after};
ghost use Rattle.file_store.specs.FullReads.{FillsAll};
ghost use Rattle.file_store.specs.Sequences.{LooksOnly};
ghost use Rattle.file_store.specs.Trees.{bytes_of};

use crate::{FileStore, Gate, GatePlace, StoreRefusal};
use sync_names::SafeName;

/// Reads bytes of a file from an offset on until the buffer is full or the file ends. Returns how many; 0 if no file is there.
///
/// `read_at` may give less than was asked, so it is called until it gives nothing. The gate is passed before each of its calls.
/// Does not allocate. O(n) calls at most, and one or two of a store that gives all that it has.
pub fn read_full<S: FileStore, G: Gate>(
    store: &mut S,
    gate: &G,
    name: &SafeName,
    offset: u64,
    buffer: &mut [u8],
) -> Result<usize, StoreRefusal>
    requires { offset + length buffer.old < 2 ^ 64 }
    ensures bound { IfOk result (λ n. n ≤ length buffer.new) }
    // All bytes that the file has there and the buffer has room for, and no others.
    ensures reads { S.keeps ≡ true → IfOk result (λ n. take n buffer.new
        ≡ take (length buffer.old) (drop offset (bytes_of ((S.tree store.old).names name.now)))) }
    ensures kept { S.keeps ≡ true → S.tree store.new ≡ S.tree store.old }
    // Of every store: no byte is another than those that it gave.
    ensures given { FillsAll S.gives name.now offset store.old buffer.old result store.new buffer.new }
    ensures looks { LooksOnly S.gives store.old store.new }
    ensures refusals { IfErr result IsPlain }
    ensures counted { S.fault_count store.new ≡ count_after result (S.fault_count store.old) }
{
    let mut filled = 0;
    while filled < buffer.len() {
        gate.at(GatePlace::StoreRead);
        let count = store.read_at(name, offset + filled as u64, &mut buffer[filled..])?;
        if count == 0 {
            return Ok(filled);
        }
        filled += count;
    }
    Ok(filled)
}
