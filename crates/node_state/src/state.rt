//! What a node keeps from one run to the next, as a value: each folder's id, index id, records and peers' index ids.
use crate::kept::KeptIndexes;
use bep_messages::{Items, Text};
use folder_core::PlainFolder;

/// What is kept of a folder from one run to the next.
#[derive(Debug, Drop)]
pub struct StoredFolder {
    pub id: Text,
    /// The number of this device's index of the folder.
    pub index_id: u64,
    /// Its records and the last sequence given. Open pulls are not written.
    pub folder: PlainFolder,
    /// The ids of the peers' indexes that its records are of.
    pub peers: KeptIndexes,
}

/// What a node keeps from one run to the next: its folders, in any order.
#[derive(Debug, Drop)]
pub struct State {
    pub folders: Items<StoredFolder>,
}
