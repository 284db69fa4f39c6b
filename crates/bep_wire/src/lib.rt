//! Protobuf fields of a byte list, read and written (Protocol Buffers encoding).
//!
//! A byte list is fields when it is empty, or a key, what the key's wire type asks for, and a byte
//! list that is again fields (`specs/Grammar.antt`). A list that isn't fields has one fault.
#![tactic(auto)]

mod fault;
mod field;
pub mod laws;
mod reading;
mod writing;

pub use fault::{FieldsFault, WireFault};
pub use field::{Field, MAX_FIELD_NUMBER, MAX_VARINT_LEN, Value};
pub use reading::{next_field, read_fields};
pub use writing::{put_bytes, put_varint};
