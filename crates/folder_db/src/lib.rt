//! A folder that is kept in an index: [`IndexedFolder`] answers as the plain folder does, and a call costs what it changes or
//! returns, and not what the folder has.
//!
//! Contracts see the folder's state, and beside it how often the best of a name was chosen anew: a change chooses those of the names
//! whose records it changes, and a read chooses none.
#![tactic(auto)]

mod accept;
mod commits;
mod filled;
mod folder;
mod message;

pub use folder::IndexedFolder;
