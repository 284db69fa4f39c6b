//! Varints and length-delimited protobuf fields encoded, appended to a vector of bytes.
ghost use Rattle.std.specs.Prelude.{◌≡◌, ◌+◌, ◌*◌, ◌<◌, ◌≤◌, ◌++◌, length, OnOk, OnErr, vec_len, vec_capacity};
ghost use Rattle.bep_wire.specs.Written.{shortest, bytes_field};

use crate::field::{MAX_FIELD_NUMBER, MAX_VARINT_LEN};
use std::alloc::AllocError;
use std::marker::Model;

/// The shortest varint of a number, in an array of its own. Contracts see its bytes.
#[derive(Drop)]
struct Shortest {
    bytes: [u8; MAX_VARINT_LEN],
    len: usize,
}

impl Model for Shortest {
    ghost use Rattle.std.specs.Prelude.{List, ℕ, ◌≤◌, take};
    ghost use Rattle.bep_wire.specs.declared.field.TheConstants.{MAX_VARINT_LEN};

    ghost Value = { List ℕ };

    ghost view = { λ v. take v.len v.bytes };

    ghost invariant = { λ v. v.len ≤ MAX_VARINT_LEN };
}

impl Shortest {
    fn new(value: u64) -> Shortest
        ensures { result ≡ shortest value }
    {
        let mut bytes = [0u8; MAX_VARINT_LEN];
        let mut len = 0;
        let mut rest = value;
        while rest >= 128 {
            bytes[len] = (rest % 128) as u8 + 128;
            len += 1;
            rest /= 128;
        }
        bytes[len] = rest as u8;
        Shortest {
            bytes,
            len: len + 1,
        }
    }

    fn as_slice(&self) -> &[u8]
        ensures bytes { result.now ≡ self.now }
        ensures few { length self.now ≤ MAX_VARINT_LEN }
    {
        &self.bytes[..self.len]
    }
}

/// Appends the shortest varint of a number: 1 to `MAX_VARINT_LEN` bytes.
///
/// Fails only if allocation fails, and then the vector is as it was. O(1), except for the growth.
pub fn put_varint(out: &mut Vec<u8>, value: u64) -> Result<(), AllocError>
    ensures ok { OnOk result (out.new.items ≡ out.old.items ++ shortest value) }
    ensures err { OnErr result (out.new.items ≡ out.old.items) }
    // It fails only where room for the varint was missing.
    ensures full { OnErr result (vec_capacity out.old < vec_len out.old + length (shortest value)) }
    ensures capacity { vec_capacity out.old ≤ vec_capacity out.new }
{
    out.extend_from_slice(Shortest::new(value).as_slice())
}

/// Appends a field of wire type 2: the key of the number, the length of the bytes, both as shortest
/// varints, and the bytes. The number is from 1 to `MAX_FIELD_NUMBER`.
///
/// Fails only if allocation fails, and then the vector is as it was. O(n) in the bytes; the vector
/// grows at most once.
pub fn put_bytes(out: &mut Vec<u8>, number: u32, bytes: &[u8]) -> Result<(), AllocError>
    requires low { 0 < number }
    requires high { number ≤ MAX_FIELD_NUMBER }
    ensures ok { OnOk result (out.new.items ≡ out.old.items ++ bytes_field number bytes.now) }
    ensures err { OnErr result (out.new.items ≡ out.old.items) }
    // It fails only where room for the field was missing.
    ensures full { OnErr result (vec_capacity out.old < vec_len out.old + length (bytes_field number bytes.now)) }
    ensures capacity { vec_capacity out.old ≤ vec_capacity out.new }
{
    let key = Shortest::new(8 * number as u64 + 2);
    let len = Shortest::new(bytes.len() as u64);
    out.reserve(key.len + len.len + bytes.len())?;
    out.extend_from_slice(key.as_slice()).unwrap();
    out.extend_from_slice(len.as_slice()).unwrap();
    out.extend_from_slice(bytes).unwrap();
    Ok(())
}
