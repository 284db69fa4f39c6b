//! What is on the disk of a node's folders, and who waits for that: peers for records that they may then be told, and pulls for their plans, without
//! which they put nothing in place.
//!
//! Which plans are on the disk is decided by a value, `Plans`, whose contracts say it (`specs/Plans.antt`); the locks and the waiting are around it. Where a peer
//! was told of more than was on the disk when the node began, that is noticed here (`specs/Claims.antt`).
#![tactic(auto)]

mod calls;
mod claims;
mod keeper;
mod plans;

pub use calls::{FolderKeeper, PlannedCalls};
pub use keeper::{Keeper, Unsaved};
pub use plans::PlannedPull;
