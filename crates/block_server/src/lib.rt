//! The answers to a peer's requests: bytes of files, read from the store.
//!
//! The definitions in `specs/` say what a request is answered (`Served.antt`); [`answer`] answers it.
#![tactic(auto)]

mod answering;
mod code;
pub mod laws;
mod part;
mod reading;

pub use answering::answer;
pub use code::Code;
pub use part::MAX_PART_SIZE;
