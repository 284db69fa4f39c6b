//! The state file of a node: what is kept of its folders from one run to the next, written and read.
#![tactic(auto)]

mod edition;
mod entry;
mod fault;
mod front;
mod held;
mod kept;
pub mod laws;
mod peer;
mod reading;
mod state;
mod writing;

pub use edition::Edition;
pub use fault::{Problem, StateFault};
pub use kept::{KeptIndexes, PeerIndex};
pub use reading::read_state;
pub use state::{State, StoredFolder};
pub use writing::write_state;
