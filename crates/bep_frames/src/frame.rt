//! What a frame holds: a Hello, or a message after a header; and the type number of each message.
use bep_messages::{
    Close, ClusterConfig, DownloadProgress, Hello, Index, IndexUpdate, Ping, Request, Response,
};

/// Calls a macro with the type and the name of each message, after what the caller hands over.
macro_rules! each_message {
    ($then:ident!$given:tt) => {
        $then! {
            $given
            0 ClusterConfig,
            1 Index,
            2 IndexUpdate,
            3 Request,
            4 Response,
            5 DownloadProgress,
            6 Ping,
            7 Close
        }
    };
}

pub(crate) use each_message;

/// A message after a header (Block Exchange Protocol v1, "Post-authentication Messages"), by its type.
#[derive(Debug, Drop)]
pub enum Message {
    /// Type 0.
    ClusterConfig(ClusterConfig),
    /// Type 1.
    Index(Index),
    /// Type 2.
    IndexUpdate(IndexUpdate),
    /// Type 3.
    Request(Request),
    /// Type 4.
    Response(Response),
    /// Type 5.
    DownloadProgress(DownloadProgress),
    /// Type 6.
    Ping(Ping),
    /// Type 7.
    Close(Close),
}

/// One frame of a stream.
#[derive(Debug, Drop)]
pub enum Frame {
    /// The first, where a Hello is due.
    Hello(Hello),
    /// Any later one, of a known type.
    Message(Message),
    /// Any later one of another type, which is this one. Its message isn't read.
    Unknown(i32),
}
