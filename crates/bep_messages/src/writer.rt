//! The writer that messages are encoded to: it appends fields, puts lengths before nested messages, and can undo all.
ghost use Rattle.std.specs.Prelude.{◌≡◌, ◌≤◌, ◌<◌, ◌+◌, ◌-◌, ◌^◌, [], ◌++◌, length, take, drop, OnOk, OnErr, vec_capacity};
ghost use Rattle.bep_wire.specs.Written.{number_field, bytes_field};
ghost use Rattle.bep_messages.specs.Writing.{Writing, len};

use bep_wire::{MAX_FIELD_NUMBER, put_bytes, put_varint};
use std::alloc::AllocError;
use std::marker::Model;

/// A vector to which messages are appended. Contracts see the bytes that it had, which
/// stay as they are, and those that were written.
#[derive(Debug, Drop)]
pub struct Writer {
    bytes: Vec<u8>,
    start: usize,
}

impl Model for Writer {
    ghost use Rattle.std.specs.Prelude.{◌≤◌, length, take, drop, vec_capacity};
    ghost use Rattle.bep_messages.specs.Writing.{Writing};

    ghost Value = { Writing };

    ghost view = { λ w. record {
      kept = take w.start w.bytes.items;
      written = drop w.start w.bytes.items;
      capacity = vec_capacity w.bytes;
    } };

    ghost invariant = { λ w. w.start ≤ length w.bytes.items };
}

#[tactic(auto, unfolding(crate::specs::Writing::len))]
impl Writer {
    /// A writer that has written no bytes yet. Does not allocate.
    pub fn new(bytes: Vec<u8>) -> Writer
        ensures kept { result.kept ≡ bytes.items }
        ensures written { result.written ≡ [] }
        ensures capacity { result.capacity ≡ vec_capacity bytes }
    {
        let start = bytes.len();
        Writer { bytes, start }
    }

    /// The vector with what was written.
    pub fn finish(self) -> Vec<u8>
        ensures items { result.items ≡ self.kept ++ self.written }
        ensures capacity { vec_capacity result ≡ self.capacity }
    {
        let Writer { bytes, start: _ } = self;
        bytes
    }

    /// The vector as it was.
    pub fn undo(self) -> Vec<u8>
        ensures items { result.items ≡ self.kept }
        ensures capacity { vec_capacity result ≡ self.capacity }
    {
        let Writer { mut bytes, start } = self;
        bytes.truncate(start);
        bytes
    }

    /// How many bytes were written.
    pub fn len(&self) -> usize
        ensures { result ≡ length self.now.written }
    {
        self.bytes.len() - self.start
    }

    /// Appends a field of wire type 0: key and number.
    pub fn put_number(&mut self, number: u32, value: u64) -> Result<(), AllocError>
        ensures ok { OnOk result (self.new.written ≡ self.old.written ++ number_field number value) }
        ensures kept { self.new.kept ≡ self.old.kept }
        ensures longer { OnOk result (len self.new ≡ len self.old + length (number_field number value)) }
        ensures full { OnErr result (self.old.capacity < len self.old + length (number_field number value)) }
        ensures capacity { self.old.capacity ≤ self.new.capacity }
    {
        put_varint(&mut self.bytes, 8 * number as u64)?;
        put_varint(&mut self.bytes, value)?;
        Ok(())
    }

    /// Appends a field of wire type 2: key, length and bytes. The number is from 1 to `MAX_FIELD_NUMBER`.
    pub fn put_bytes(&mut self, number: u32, bytes: &[u8]) -> Result<(), AllocError>
        requires low { 0 < number }
        requires high { number ≤ MAX_FIELD_NUMBER }
        ensures ok { OnOk result (self.new.written ≡ self.old.written ++ bytes_field number bytes.now) }
        ensures kept { self.new.kept ≡ self.old.kept }
        ensures longer { OnOk result (len self.new ≡ len self.old + length (bytes_field number bytes.now)) }
        ensures full { OnErr result (self.old.capacity < len self.old + length (bytes_field number bytes.now)) }
        ensures capacity { self.old.capacity ≤ self.new.capacity }
    {
        put_bytes(&mut self.bytes, number, bytes)
    }

    /// Makes what was written from a place on the content of a field of wire type 2: puts key and
    /// length before it. The number is from 1 to `MAX_FIELD_NUMBER`. O(n) in the bytes from the place on,
    /// which are moved once.
    pub fn put_head(&mut self, number: u32, from: usize) -> Result<(), AllocError>
        requires place { from ≤ length self.old.written }
        requires high { number ≤ MAX_FIELD_NUMBER }
        ensures ok { OnOk result (self.new.written
            ≡ take from self.old.written ++ bytes_field number (drop from self.old.written)) }
        ensures kept { self.new.kept ≡ self.old.kept }
        ensures longer { OnOk result (len self.new + length (drop from self.old.written)
            ≡ len self.old + length (bytes_field number (drop from self.old.written))) }
        ensures full { OnErr result (self.old.capacity + length (drop from self.old.written)
            < len self.old + length (bytes_field number (drop from self.old.written))) }
        ensures capacity { self.old.capacity ≤ self.new.capacity }
        // A vector's length has 64 bits.
        ensures short { length self.old.written < 2 ^ 64 }
    {
        let begin = self.start + from;
        let end = self.bytes.len();
        put_varint(&mut self.bytes, 8 * number as u64 + 2)?;
        put_varint(&mut self.bytes, (end - begin) as u64)?;
        to_front(self.bytes.as_mut_slice(), begin, end);
        Ok(())
    }
}

/// Puts the bytes from `end` on before those from `begin` to `end`.
fn to_front(bytes: &mut [u8], begin: usize, end: usize)
    requires order { begin ≤ end }
    requires within { end ≤ length bytes.old }
    ensures { bytes.new ≡ take begin bytes.old ++ (drop end bytes.old ++ drop begin (take end bytes.old)) }
{
    let head = bytes.len() - end;
    bytes[begin..].rotate_right(head);
}
