//! Two whole peers in one process, which do what commands say, one a line.
//!
//! Each peer has a folder, a store in memory, and its end of a connection with the other, over which indexes and blocks go as
//! frames. What a command comes to is written as lines. [`pair`] reads the commands and does them.
#![tactic(auto)]

mod actions;
mod command;
mod context;
mod files;
mod indexes;
mod input;
mod link;
mod output;
mod peer;
mod peers;
mod playing;
mod pulls;
mod refused;
mod scans;

pub use playing::{PairFailure, pair};
