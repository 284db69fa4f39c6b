//! What a peer's message means on its connection, as an event: Hello, ClusterConfig, Index, Request, Response, Close.
use crate::fault::SessionFault;
use bep_messages::{ClusterConfig, Hello, Index, IndexUpdate, Request, Response, Text};

/// What a message of the peer means on its connection. A Ping and a DownloadProgress mean nothing.
#[derive(Debug, Drop)]
pub enum Event {
    /// The peer's Hello.
    PeerHello(Hello),
    /// What the peer shares. It replaces what an earlier one said.
    PeerConfig(ClusterConfig),
    /// All records that the peer has of a folder.
    Full(Index),
    /// Records that the peer has besides.
    More(IndexUpdate),
    /// The peer asks for bytes.
    Asked(Request),
    /// The Response to a Request whose id was open; the id is free again.
    Answered(Response),
    /// A Response whose id, which is this one, wasn't open. Programs report it under the number 51; the connection stays.
    UnknownResponse(i32),
    /// A message of another type, which is this one. It isn't read.
    Skipped(i32),
    /// The peer closes the connection, for this reason. It is the last event.
    PeerClosed(Text),
    /// The stream breaks the protocol. It is the last event.
    Ended(SessionFault),
}
