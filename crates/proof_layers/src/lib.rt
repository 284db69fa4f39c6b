//! The layers on each other: a scan, an index, a session and a pull carry what is in one store to another.
//!
//! What each layer promises is enough for the next one to promise something, up to the whole: the other store then holds under the
//! name what the first one holds.
#![tactic(auto)]

mod carrying;
mod fault;
pub mod laws;
mod pages;
mod saying;
mod sending;
mod serving;

pub use carrying::carry;
pub use fault::CarryFault;
pub use saying::{connect, pass};
pub use sending::send_index;
