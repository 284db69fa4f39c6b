//! The interface that the reader of a connection passes ClusterConfigs, Requests and Responses to.
use crate::hearing::Passed;

/// Where what a reader passes on goes: to the indexer, to the server, and to who asked.
pub trait Inbox {
    /// Takes what an event gives to others than the folders. It may wait, and the peer is then not read.
    fn take(&mut self, passed: Passed);

    /// The id of a Request of this device that is under way and of which the reader was not told yet, if there is one.
    fn next_ask(&mut self) -> Option<i32>;
}
