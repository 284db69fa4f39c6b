//! A folder that is shared with a peer, as the reader of the connection has it.
ghost use Rattle.std.specs.Prelude.{◌↔◌, All, IsTrue};
ghost use Rattle.peer_reader.specs.Hears.{IsApart};

use bep_messages::Text;
use folder_calls::FolderCalls;
use sync_record::DeviceId;

/// A folder that is shared with the peer.
#[derive(Drop)]
pub struct ReaderFolder<W> {
    /// The folder's id.
    pub id: Text,
    /// The number of the peer's index of which the folder has records, or 0 for none.
    pub kept_index_id: u64,
    /// Whether the peer's last ClusterConfig has the folder.
    pub is_told: bool,
    /// The calls of the folder.
    pub calls: W,
}

/// Whether the peer is another device than this one, by each folder, as [`run_reader`](crate::run_reader) requires. Does not
/// allocate. O(n) for n folders.
pub fn are_apart<W: FolderCalls>(folders: &[ReaderFolder<W>], peer: DeviceId) -> bool
    ensures { IsTrue result ↔ All (IsApart W.view peer) folders.now }
{
    folders.iter().all(|folder| is_apart(folder, peer))
}

fn is_apart<W: FolderCalls>(folder: &ReaderFolder<W>, peer: DeviceId) -> bool
    ensures { IsTrue result ↔ IsApart W.view peer folder.now }
{
    folder.calls.me() != peer
}
