//! What a peer is told next of this device's records: an Index, an IndexUpdate, or nothing.
use bep_messages::Items;
use sync_record::Record;

/// What a peer is to be told next of those of this device's records that are kept.
#[derive(Debug, PartialEq, Eq, Drop)]
pub struct KeptPage {
    pub page: Page,
    /// Whether records wait to be kept, and are told then.
    pub is_waiting: bool,
}

/// What a peer is to be told next of this device's records (Block Exchange Protocol v1, "Index" and "Index Update").
#[derive(Debug, PartialEq, Eq, Drop)]
pub enum Page {
    /// These records and no others: what the peer knew before no longer counts.
    Index(Items<Record>),
    /// These records too, at least one. One of a name that the peer knows takes the place of the older one.
    IndexUpdate(Items<Record>),
    /// There is nothing to tell.
    Nothing,
}
