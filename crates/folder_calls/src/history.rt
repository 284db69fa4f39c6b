//! The history of a folder as contracts see it: the folder at its opening, and the accepted changes since then.
use crate::Entry;
use bep_messages::Items;
use folder_core::PlainFolder;

/// What a [`RecordedFolder`](crate::RecordedFolder) keeps, as contracts see it; no value of it is made.
pub struct History {
    /// What the folder was when it was opened.
    pub opening: PlainFolder,
    /// The accepted changes since then, in their order.
    pub entries: Items<Entry>,
    /// How many entries there may be, with those that the open pulls will add.
    pub limit: u64,
    /// How many passes were given out.
    pub passes: u64,
}
