//! What a run takes over from a state and the journal behind it: the records as they were last told, and the pulls that may
//! have ended just before.
#![tactic(auto)]

mod fault;
mod finding;
mod finished;
pub mod laws;
mod laying;
mod opening;
mod plan;
mod recovering;
mod settling;
mod told;
mod written;

pub use fault::{RecoverFault, SettleFault};
pub use opening::open_plans;
pub use plan::PullPlan;
pub use recovering::{RecoveredFolder, recover};
pub use settling::{Disk, is_open, settle};
pub use written::plan_message;
