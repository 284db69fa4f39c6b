//! What the server of a connection answers, and over what.
use bep_messages::Request;

/// A Request of the peer, with the place of its folder among those that are shared with the peer; `None` if it is for a folder
/// that is not shared.
#[derive(Debug, Drop)]
pub struct PeerRequest {
    /// The place, from 0.
    pub folder: Option<usize>,
    /// What is asked for.
    pub request: Request,
}

/// A folder that is shared with the peer, as the server reads it.
#[derive(Drop)]
pub struct ServerFolder<S, W> {
    /// Its files.
    pub store: S,
    /// Its records.
    pub calls: W,
}
