//! A peer: its folder, and its store.
ghost use Rattle.std.specs.Prelude.{◌≡◌, IfOk};
ghost use Rattle.bepd_pair.specs.Devices.{identity_of};

use crate::command::Side;
use file_store::MemStore;
use folder_calls::Lone;
use folder_core::FolderCore;
use folder_db::IndexedFolder;
use index_sender::IndexSender;
use std::alloc::{AllocError, Global};
use sync_pull::MaxConflicts;
use sync_record::DeviceId;

/// How many changes a folder's history takes.
const HISTORY_LIMIT: u64 = 1_000_000;

/// A peer of a folder.
#[derive(Drop)]
pub(crate) struct Peer {
    pub(crate) side: Side,
    pub(crate) store: MemStore,
    pub(crate) calls: Lone<IndexedFolder>,
    pub(crate) sender: IndexSender,
    pub(crate) most: MaxConflicts,
}

impl Peer {
    ghost use Rattle.bepd_pair.specs.Playing.{IsNewPeer};

    /// A peer of an empty folder, with no file. Fails if out of memory.
    pub(crate) fn new(alloc: Global, side: Side) -> Result<Peer, AllocError>
        ensures { IfOk result (IsNewPeer side) }
    {
        let folder = IndexedFolder::new(alloc, device_of(side));
        if folder.counts().pulls != 0 {
            return Err(AllocError);
        }
        let Ok(calls) = Lone::open(alloc, folder, HISTORY_LIMIT) else {
            return Err(AllocError);
        };
        Ok(Peer {
            side,
            store: MemStore::new(alloc),
            calls,
            sender: IndexSender::new(None),
            most: MaxConflicts::new(-1).unwrap(),
        })
    }
}

/// The identity of a peer: its number in the first eight bytes, and then 0.
pub(crate) fn device_of(side: Side) -> DeviceId
    ensures { result ≡ identity_of side }
{
    let mut bytes = [0; 32];
    bytes[7] = match side {
        Side::A => 1,
        Side::B => 2,
    };
    DeviceId::new(bytes)
}
