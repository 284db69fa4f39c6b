//! What a run takes over from the state of the last one, and what it leaves for the next.
#![tactic(auto)]

mod finding;
mod leaving;
mod numbers;
mod resuming;
mod shares;

pub use leaving::state_left;
pub use numbers::index_id_at;
pub use resuming::{ResumedFolder, resume_all};
pub use shares::{Share, shares_of};
