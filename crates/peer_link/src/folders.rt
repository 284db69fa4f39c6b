//! The folders that are shared with a peer, for the reader, the server and the indexer of its connection.
use peer_conn::IndexerFolder;
use peer_reader::ReaderFolder;
use peer_server::ServerFolder;

/// The folders that are shared with the peer, in the same order for each worker. Each worker calls them by calls of its own.
#[derive(Drop)]
pub struct LinkFolders<S, W> {
    /// For the reader.
    pub read: Vec<ReaderFolder<W>>,
    /// For the server.
    pub served: Vec<ServerFolder<S, W>>,
    /// For the indexer.
    pub indexed: Vec<IndexerFolder<W>>,
}
