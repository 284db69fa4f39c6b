//! The protocol of one connection as a value without threads (Block Exchange Protocol v1): bytes go in, events come out, and it
//! knows which Requests wait for their Response, and when a Ping or a time-out is due.
//!
//! The events are those of the stream's messages and of the ids that are open (`specs/Events.antt`, `specs/Sessions.antt`), however
//! the stream is cut. What the definitions imply is proved in [`laws`].
#![tactic(auto)]

mod bits;
mod conversation;
mod event;
mod fault;
mod ids;
pub mod laws;
mod pieces;
mod session;
mod times;

pub use event::Event;
pub use fault::{AskRefusal, SessionFault};
pub use ids::MAX_ASKS;
pub use session::Session;
pub use times::{Tick, ping_due, timed_out};
