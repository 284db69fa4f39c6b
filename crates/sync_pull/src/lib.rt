//! Needed files made from blocks, and put in the place of exactly what the pull began on.
//!
//! Before a commit is entered only the temporary file of the name is written. The definitions in `specs/` say what a file is
//! made of, and what each step does to the store and asks of the folder.
#![tactic(auto)]

mod answer;
mod base;
mod commit;
mod commit_pull;
mod copy;
mod ends;
mod fetch;
pub mod laws;
mod max_conflicts;
mod old_copies;
mod plan;
mod pull;
mod pulling;
mod replace;
mod source;

pub use answer::{PullAnswer, PullFailure, PullRefusal};
pub use base::{room_for, stands_as};
pub use commit::{Standing, put_in_place, standing_of};
pub use copy::{make_copy, move_back};
pub use max_conflicts::MaxConflicts;
pub use old_copies::remove_old_copies;
pub use plan::is_copy_due;
pub use pull::pull_name;
pub use source::BlockSource;
