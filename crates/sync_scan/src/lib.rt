//! The scanner: what stands in a store of files becomes changes of a folder.
//!
//! [`scan_name`] looks at one name, and [`scan_all`] at all names of the store and of the folder. The local version of a name
//! is read before the store is, and is what the one change of the folder expects: a change that comes in between is never
//! recorded over. The definitions in `specs/` say what is found and what is asked of the folder.
#![tactic(auto)]

mod ahead;
mod all;
mod asking;
mod cuts;
mod hashing;
pub mod laws;
mod looking;
mod missing;
mod name;
mod progress;
mod scanned;
mod scanning;
mod sum;

pub use all::scan_all;
pub use looking::MAX_FILE_SIZE;
pub use name::scan_name;
pub use progress::{NoProgress, Progress};
pub use scanned::{Look, Scanned};
pub use sum::{ScanStop, ScanSum};
