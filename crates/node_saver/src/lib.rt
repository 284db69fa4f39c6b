//! What a node appends to its journal: the records of its folders, in pages, and the pulls that may change them.
//!
//! The disk is told of a folder as a peer is, page after page, and before all peers: what stands in the journal up to a sequence may be told
//! (`specs/Saving.antt`).
#![tactic(auto)]

mod fault;
mod frames;
mod journal;
mod saving;

pub use fault::SaveFault;
pub use frames::{SavedFolder, closing_frame, plan_over, plans_frame};
pub use journal::{DiskJournal, FrameJournal};
pub use saving::save_records;
