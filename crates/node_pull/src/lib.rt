//! How a node pulls: round after round, several names side by side, past what is in the way.
#![tactic(auto)]

mod batch;
mod beginning;
mod besides;
mod changes;
mod obstacle;
mod patience;
mod patient;
mod puller;
mod rounds;
mod turn;

pub use batch::Puller;
pub use rounds::{PULLERS, PulledFolder, run_rounds};
