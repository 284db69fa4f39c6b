//! How many messages wait to be written to a peer, how many of its Requests wait, and how long their names may be.
/// How many messages the out-queue of a connection holds.
pub const QUEUE_MESSAGES: usize = 4;

/// How many of the peer's Requests wait for their Response here. With more the peer is not read until one was answered.
pub const MAX_QUEUED_REQUESTS: usize = 1_024;

/// The longest name, in bytes, that a Request is queued with: no path of Linux is longer. One with a longer name is answered as
/// one with a name that no file may have.
pub const MAX_REQUEST_NAME_BYTES: usize = 4_096;
