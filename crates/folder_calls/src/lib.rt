//! The folder as a worker calls it, alone or beside others: the history of its changes.
//!
//! The definitions in `specs/` say what a history is and what a call returns to its caller; [`FolderCalls`] has the calls.
#![tactic(auto)]

mod at;
mod calls;
mod check;
mod entry;
mod history;
pub mod laws;
mod lone;
mod lone_state;
mod planned;
mod pull;
mod recorded;
mod refusal;

pub use at::At;
pub use calls::FolderCalls;
pub use check::replays;
pub use entry::Entry;
pub use history::History;
pub use lone::Lone;
pub use lone_state::LoneState;
pub use planned::{Outside, Plan};
pub use pull::{BeginAnswer, EnterAllocError, EnterRefusal, PullCommit, PullTicket};
pub use recorded::RecordedFolder;
pub use refusal::{HistoryFull, ScanRefusal};
