//! A protobuf field: its number, its wire type, and the place of its bytes; how long a varint is at most.
/// The greatest field number (Protocol Buffers, language guide for proto3, "Assigning Field Numbers").
pub const MAX_FIELD_NUMBER: u32 = 536_870_911;

/// The greatest length of a varint in bytes (Protocol Buffers encoding, "Base 128 Varints").
pub const MAX_VARINT_LEN: usize = 10;

/// What a field holds, by the wire type of its key
/// (Protocol Buffers encoding, "Message Structure").
#[derive(Clone, Copy, Debug, PartialEq, Eq)]
pub enum Value {
    /// Wire type 0: a number of 64 bits, already read.
    Varint(u64),
    /// Wire type 1: the eight bytes of the field's place.
    Eight,
    /// Wire type 2: all bytes of the field's place.
    Bytes,
    /// Wire type 5: the four bytes of the field's place.
    Four,
}

/// A field of a byte list, its source. The bytes that it holds stay there: those from
/// `start` to before `end`. Of a varint they are the varint, under wire type 2 what follows the length.
#[derive(Clone, Copy, Debug, PartialEq, Eq)]
pub struct Field {
    /// The field number, from 1 to `MAX_FIELD_NUMBER`.
    pub number: u32,
    pub value: Value,
    /// Where the bytes that the field holds begin, counted from the source's first byte.
    pub start: usize,
    /// Where they end; the next field's key begins here.
    pub end: usize,
}
