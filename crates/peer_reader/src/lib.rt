//! The reader of a connection: the peer's bytes become the changes of the shared folders that its stream names, and what else it says
//! is passed on (Block Exchange Protocol v1).
//!
//! Which changes those are is said of the events of a [`Session`](bep_session::Session) (`specs/Effects.antt`).
#![tactic(auto)]

mod counts;
mod folder;
mod hearing;
mod inbox;
mod input;
pub mod laws;
mod reading;
mod records;
mod stop;

pub use counts::ReaderCounts;
pub use folder::{ReaderFolder, are_apart};
pub use hearing::{Passed, hear};
pub use inbox::Inbox;
pub use input::{PeerStream, ReaderClock};
pub use reading::{ReaderEnd, run_reader};
pub use stop::ReaderStop;
