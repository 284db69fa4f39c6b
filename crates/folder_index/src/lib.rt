//! What devices announce of a folder, kept so that its reads are fast: [`Index`] is made of [`ByName`], which has the records
//! of each name, with the best of the name and whether it is needed, which are found when a record of the name changes, and
//! not when they are asked for; of [`BySequence`], which has this device's records in the order of their sequences; and of
//! [`ByDigest`], which has the places of the blocks of its live files.
//!
//! Contracts say of each what it has, in the words of `folder_core`'s rules, and not how it is kept.
#![tactic(auto)]

mod by_digest;
mod by_name;
mod by_sequence;
mod chunks;
mod entries;
mod group;
mod groups;
mod index;
mod latest;
pub mod laws;
mod local;
mod name_entries;
mod noted;
mod numbers;
mod totals;

pub use by_digest::ByDigest;
pub use by_name::ByName;
pub use by_sequence::BySequence;
pub use folder_core::{Announcement, Best, Place};
pub use index::Index;
pub use sync_names::SafeName;
pub use sync_record::{Block, DeviceId, Record};
pub use totals::Totals;
