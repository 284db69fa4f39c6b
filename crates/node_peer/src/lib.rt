//! A peer of a node: how it is reached, what it is told first, and its connections.
#![tactic(auto)]

mod accept;
mod arrivals;
mod connection;
mod dial;
mod greeted;
mod guest;
mod peer;
mod shares;
mod socket;
mod told;

pub use peer::{Peer, PeerWorker, Reach, run_peer};
pub use socket::{Listener, UnixSockets};
