//! A store of files in a folder of a disk.
//!
//! [`DirStore`] is a `file_store::FileStore` on a directory of the system. What it may touch on the disk is the folder's
//! safe names, their temporary files and their versions; symbolic links are not followed. No contract can say what a disk holds, so the
//! trait's clauses on the tree hold under a premise that this store never meets, and its tests say what it does.
#![tactic(auto)]

mod changes;
mod dir;
mod disk;
mod found;
mod habits;
mod kept_versions;
pub mod laws;
mod left;
mod look;
mod made;
mod marker;
mod mode;
mod old_versions;
mod opened;
mod refuse;
mod replaced;
mod skipped;
mod stamp;
mod store;
mod temps;
mod version_name;
mod walk;

pub use habits::Habits;
pub use marker::{LockRefusal, MarkerId, MarkerLock};
pub use skipped::{SkipReason, Skipped};
pub use store::DirStore;
