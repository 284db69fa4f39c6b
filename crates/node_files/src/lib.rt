//! The files of a node's folders: under a marker, by the store of a disk.
#![tactic(auto)]

mod ends;
mod marked;
mod root;
mod seen;
mod store;
mod stores;

pub use ends::Ends;
pub use marked::{Marked, Whereabouts};
pub use seen::time_of;
pub use store::FolderStore;
pub use stores::{Disks, Stores};
