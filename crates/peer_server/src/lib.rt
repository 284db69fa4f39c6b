//! The worker of a connection that answers the peer's Requests.
//!
//! [`run_server`] answers one after the other, by [`block_server::answer`] over the folder that is asked for, and puts each Response
//! by the seat of the server. The definitions in `specs/` say what it puts.
#![tactic(auto)]

mod answering;
pub mod laws;
mod request;
mod server;

pub use request::{PeerRequest, ServerFolder};
pub use server::{ServerEnd, run_server};
