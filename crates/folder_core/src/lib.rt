//! The folder as one device keeps it: what each device announces of each name, the best of a name, and the changes.
//!
//! The definitions in `specs/` are the folder's rules; [`FolderCore`] has its calls, [`PlainFolder`] is their first body, and
//! [`make`] takes a change as a value.
#![tactic(auto)]

mod announcement;
mod answer;
mod best;
mod change;
mod choice;
mod copies;
mod counts;
mod finding;
mod folder;
pub mod laws;
mod place;
pub mod plain;
mod pull;
mod pull_info;
mod pull_stage;
mod restore_fault;
mod runs;
mod scan;

pub use announcement::Announcement;
pub use answer::Answer;
pub use best::Best;
pub use change::Change;
pub use choice::{devices_with, is_needed_over, place_of_best};
pub use counts::Counts;
pub use finding::{Finding, FoundContent};
pub use folder::FolderCore;
pub use place::Place;
pub use plain::PlainFolder;
pub use pull::{BeginAnswer, Commit, EnterFault, Stray, Ticket};
pub use pull_info::PullInfo;
pub use pull_stage::PullStage;
pub use restore_fault::RestoreFault;
pub use runs::{Partway, make, make_all};
pub use scan::{ScanAnswer, ScanFault};
