//! The worker that watches a folder for edits: it looks at file attributes alone, and has changed names scanned.
//!
//! What a look tells only says which names are scanned now. A scan reads what is there, and records nothing else, so a look that tells too much costs time,
//! and one that tells too little leaves a change to the next scan of all.
#![tactic(auto)]

mod finder;
mod first;
mod known;
mod look;
mod names;
mod recorded;
mod restless;
mod scans;
mod watched;

pub use scans::{LOOKERS, Looker};
pub use watched::{WatchedFolder, begin_looks, run_looks};
