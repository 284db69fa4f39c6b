//! `bepd new`: a first configuration, and what a device with Syncthing as the peer takes beside it.
#![tactic(auto)]

mod failure;
mod fresh;
mod numbers;
mod purpose;
mod recipe;
mod syncthing;

pub use failure::NewFailure;
pub use fresh::new_config;
pub use purpose::{Link, NewWords, Purpose, Way, WordFault, purpose_of};
