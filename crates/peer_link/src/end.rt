//! How each worker of a connection ended: reader, indexer, server, requester and writer.
use crate::folders::LinkFolders;
use crate::told::ToldFolders;
use peer_asks::RequesterEnd;
use peer_conn::{IndexerEnd, WriterFault};
use peer_reader::ReaderEnd;
use peer_server::ServerEnd;

/// How the workers of a connection ended.
#[derive(Drop)]
pub struct LinkEnd<S, W> {
    /// The reader, and what it counted.
    pub reader: ReaderEnd,
    /// What the peer said of the folders, and whether the connection couldn't go on with that.
    pub told: ToldFolders,
    /// The indexer.
    pub indexer: IndexerEnd,
    /// The server.
    pub server: ServerEnd,
    /// The requester.
    pub requester: RequesterEnd,
    /// The writer. Since the line is hung up once the reader ended, its last writes mostly fail.
    pub written: Result<(), WriterFault>,
    /// The folders, as the workers left them.
    pub folders: LinkFolders<S, W>,
}
