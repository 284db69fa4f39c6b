//! What the threads of a node work on: all that can fail is done here, before they begin.
ghost use Rattle.std.specs.Prelude.{◌≡◌, IfOk};
ghost use Rattle.node_threads.specs.Workers.{IsShared};

use crate::callers::{Lender, WorkerCalls};
use crate::peers::{NodePeer, Share};
use bep_messages::Text;
use file_store::FileStore;
use folder_calls::FolderCalls;
use node_context::{Connections, NodeFault};
use node_files::{FolderStore, Marked, Stores};
use node_folder::{FolderWorker, GivesUp, NodeFolder, ScannedFolder, WorkerEnds};
use node_keeper::{FolderKeeper, Keeper};
use node_look::{LOOKERS, Looker, WatchedFolder};
use node_peer::{Peer, PeerWorker, Reach};
use node_pull::{PULLERS, PulledFolder, Puller};
use peer_asks::{AskBook, PeerBook};
use peer_conn::IndexerFolder;
use peer_link::LinkFolders;
use peer_reader::ReaderFolder;
use peer_server::ServerFolder;
use std::alloc::{AllocError, Global};
use std::sync::Wait;
use sync_record::DeviceId;

/// What the workers of a node are told.
#[derive(Clone, Copy)]
pub(crate) struct Node<'x> {
    /// The name of this device.
    pub(crate) name: &'x str,
    pub(crate) folders: &'x [NodeFolder],
    pub(crate) peers: &'x [NodePeer],
    /// The Requests to each peer.
    pub(crate) books: &'x [AskBook],
    /// What is on the disk of its folders.
    pub(crate) keeper: &'x Keeper,
}

/// How the workers of a node read and write its folders.
pub(crate) trait FolderFiles {
    ghost use Rattle.std.specs.Prelude.{ℕ};

    /// By what a worker does.
    type Store: FileStore + Marked + Drop;

    /// It is of the folder at this place.
    ghost is_at: { Self → ℕ → Self.Store → Type 0 };

    /// That of the folder at a place, for one worker. Fails where no folder is there.
    fn at(&self, place: usize, gives_up: GivesUp) -> Result<Self::Store, NodeFault>
        ensures { IfOk result (is_at self.now place) };
}

/// The folders' files by these stores.
#[derive(Drop)]
pub(crate) struct Files<'x, R, T> {
    pub(crate) rt: &'x R,
    pub(crate) alloc: Global,
    pub(crate) connections: &'x Connections,
    pub(crate) stores: &'x T,
    pub(crate) folders: &'x [NodeFolder],
    pub(crate) keeper: &'x Keeper,
}

impl<'x, R: Wait, T: Stores> FolderFiles for Files<'x, R, T> {
    type Store = FolderStore<'x, T, T::Store, WorkerEnds<'x, R>>;

    ghost use Rattle.std.specs.Prelude.{◌≡◌, Some, slice_get};
    ghost use Rattle.node_files.specs.Paths.{path_of};
    ghost use Rattle.node_folder.specs.declared.folder.NodeFolder.{NodeFolder};

    ghost is_at = { λ files place store.
        (folder : NodeFolder) × (slice_get files.folders.now place ≡ Some folder) × (path_of store ≡ folder.settings.path) };

    fn at(
        &self,
        place: usize,
        gives_up: GivesUp,
    ) -> Result<FolderStore<'x, T, T::Store, WorkerEnds<'x, R>>, NodeFault> {
        let folders = self.folders;
        let Some(folder) = folders.get(place) else {
            return Err(NodeFault::NoFolder);
        };
        let keeper = FolderKeeper::new(self.rt, self.keeper, place);
        let ends = WorkerEnds::new(self.rt, self.connections, gives_up, keeper);
        Ok(FolderStore::new(self.alloc, ends, self.stores, folder.settings.path.as_str()))
    }
}

/// What scans, looks, pulls and has connections.
#[derive(Drop)]
pub(crate) struct Workers<'x, S, W> {
    pub(crate) folders: Vec<WorkedFolder<'x, S, W>>,
    pub(crate) peers: Vec<PeerWorker<'x, S, W>>,
}

/// What scans a folder, looks at it and pulls it.
#[derive(Drop)]
pub(crate) struct WorkedFolder<'x, S, W> {
    pub(crate) scanned: ScannedFolder<'x, S, W>,
    pub(crate) watched: WatchedFolder<'x, S, W>,
    pub(crate) pulled: PulledFolder<'x, S, W>,
}

/// The workers of a node. The callers are taken in the order in which they are made (`callers.rt`).
pub(crate) fn workers_of<'x, 'b, F: FolderFiles, W: FolderCalls, R: Wait>(
    alloc: Global,
    files: &F,
    node: Node<'x>,
    reaches: &'x [Reach],
    callers: &mut Lender<'x, 'b, W, R>,
) -> Result<Workers<'x, F::Store, WorkerCalls<'x, 'b, W, R>>, NodeFault> {
    let mut folders = Vec::with_capacity(alloc, node.folders.len())?;
    for (place, folder) in node.folders.iter().enumerate() {
        folders.push(worked(alloc, files, node, folder, place, callers)?)?;
    }
    let peers = peers_of(alloc, files, node, reaches, callers)?;
    Ok(Workers { folders, peers })
}

// What works on the folder at a place.
fn worked<'x, 'b, F: FolderFiles, W: FolderCalls, R: Wait>(
    alloc: Global,
    files: &F,
    node: Node<'x>,
    folder: &'x NodeFolder,
    place: usize,
    callers: &mut Lender<'x, 'b, W, R>,
) -> Result<WorkedFolder<'x, F::Store, WorkerCalls<'x, 'b, W, R>>, NodeFault> {
    let scanner = worker_of(files, folder, place, GivesUp::AtStop, callers)?;
    let watched = watched(alloc, files, folder, place, callers)?;
    let pulled = pulled(alloc, files, node, folder, place, callers)?;
    Ok(WorkedFolder {
        scanned: ScannedFolder::new(scanner),
        watched,
        pulled,
    })
}

// A worker of the folder at a place.
fn worker_of<'x, 'b, F: FolderFiles, W: FolderCalls, R: Wait>(
    files: &F,
    folder: &'x NodeFolder,
    place: usize,
    gives_up: GivesUp,
    callers: &mut Lender<'x, 'b, W, R>,
) -> Result<FolderWorker<'x, F::Store, WorkerCalls<'x, 'b, W, R>>, NodeFault> {
    let store = files.at(place, gives_up)?;
    let calls = callers.next(place)?;
    Ok(FolderWorker {
        folder,
        store,
        calls,
    })
}

/// A worker of each folder, in their order, by these callers, for the commands.
pub(crate) fn answered_of<'x, 'b, F: FolderFiles, W: FolderCalls, R: Wait>(
    alloc: Global,
    files: &F,
    node: Node<'x>,
    callers: &mut Lender<'x, 'b, W, R>,
) -> Result<Vec<FolderWorker<'x, F::Store, WorkerCalls<'x, 'b, W, R>>>, NodeFault> {
    let mut workers = Vec::with_capacity(alloc, node.folders.len())?;
    for (place, folder) in node.folders.iter().enumerate() {
        workers.push(worker_of(files, folder, place, GivesUp::AtQuit, callers)?)?;
    }
    Ok(workers)
}

fn watched<'x, 'b, F: FolderFiles, W: FolderCalls, R: Wait>(
    alloc: Global,
    files: &F,
    folder: &'x NodeFolder,
    place: usize,
    callers: &mut Lender<'x, 'b, W, R>,
) -> Result<WatchedFolder<'x, F::Store, WorkerCalls<'x, 'b, W, R>>, NodeFault> {
    let mut lookers = Vec::with_capacity(alloc, LOOKERS)?;
    for _ in 0..LOOKERS {
        let worker = worker_of(files, folder, place, GivesUp::AtStop, callers)?;
        lookers.push(Looker::new(alloc, worker))?;
    }
    Ok(WatchedFolder::new(alloc, lookers))
}

fn pulled<'x, 'b, F: FolderFiles, W: FolderCalls, R: Wait>(
    alloc: Global,
    files: &F,
    node: Node<'x>,
    folder: &'x NodeFolder,
    place: usize,
    callers: &mut Lender<'x, 'b, W, R>,
) -> Result<PulledFolder<'x, F::Store, WorkerCalls<'x, 'b, W, R>>, NodeFault> {
    let books = books_of(alloc, node, place)?;
    let mut pullers = Vec::with_capacity(alloc, PULLERS)?;
    for _ in 0..PULLERS {
        let worker = worker_of(files, folder, place, GivesUp::AtStop, callers)?;
        pullers.push(Puller::new(alloc, worker))?;
    }
    Ok(PulledFolder::new(alloc, folder, pullers, books)?)
}

// The peers that the folder at a place is shared with.
fn books_of<'x>(
    alloc: Global,
    node: Node<'x>,
    folder: usize,
) -> Result<Vec<PeerBook<'x>>, AllocError> {
    let mut books = Vec::new(alloc);
    for at in 0..node.peers.len() {
        let (Some(peer), Some(book)) = (node.peers.get(at), node.books.get(at)) else {
            break;
        };
        if peer.shares.iter().any(|share| share.folder == folder) {
            let device = peer.device;
            books.extend_from_slice(&[PeerBook { device, book }])?;
        }
    }
    Ok(books)
}

fn peers_of<'x, 'b, F: FolderFiles, W: FolderCalls, R: Wait>(
    alloc: Global,
    files: &F,
    node: Node<'x>,
    reaches: &'x [Reach],
    callers: &mut Lender<'x, 'b, W, R>,
) -> Result<Vec<PeerWorker<'x, F::Store, WorkerCalls<'x, 'b, W, R>>>, NodeFault> {
    let mut workers = Vec::with_capacity(alloc, node.peers.len())?;
    let mut place = 0usize;
    for reach in reaches {
        let (Some(peer), Some(book)) = (node.peers.get(place), node.books.get(place)) else {
            break;
        };
        let folders = link_folders(alloc, files, node, peer, callers)?;
        workers.push(PeerWorker {
            peer: Peer {
                place,
                device: peer.device,
                name: node.name,
                book,
            },
            reach,
            folders,
        })?;
        place = place.saturating_add(1);
    }
    Ok(workers)
}

fn link_folders<'x, 'b, F: FolderFiles, W: FolderCalls, R: Wait>(
    alloc: Global,
    files: &F,
    node: Node,
    peer: &NodePeer,
    callers: &mut Lender<'x, 'b, W, R>,
) -> Result<LinkFolders<F::Store, WorkerCalls<'x, 'b, W, R>>, NodeFault> {
    let count = peer.shares.len();
    let mut read = Vec::with_capacity(alloc, count)?;
    let mut served = Vec::with_capacity(alloc, count)?;
    let mut indexed = Vec::with_capacity(alloc, count)?;
    for share in peer.shares.iter() {
        let shared = share_folder(alloc, files, node.folders, share, callers)?;
        read.push(shared.read)?;
        served.push(shared.served)?;
        indexed.push(shared.indexed)?;
    }
    Ok(LinkFolders {
        read,
        served,
        indexed,
    })
}

// A folder, as the workers of a connection have it.
#[derive(Drop)]
pub(crate) struct SharedWith<S, W> {
    read: ReaderFolder<W>,
    served: ServerFolder<S, W>,
    indexed: IndexerFolder<W>,
}

// The folder of a share: under its id to the peer, from its files, with its index id and the peer's.
fn share_folder<'x, 'b, F: FolderFiles, W: FolderCalls, R: Wait>(
    alloc: Global,
    files: &F,
    folders: &[NodeFolder],
    share: &Share,
    callers: &mut Lender<'x, 'b, W, R>,
) -> Result<SharedWith<F::Store, WorkerCalls<'x, 'b, W, R>>, NodeFault>
    ensures { IfOk result (IsShared (F.is_at files.now) folders.now share.now) }
{
    let Some(folder) = folders.get(share.folder) else {
        return Err(NodeFault::NoFolder);
    };
    let (id, told_id) = (
        Text::from_str(alloc, folder.id())?,
        Text::from_str(alloc, folder.id())?,
    );
    let store = files.at(share.folder, GivesUp::Never)?;
    let place = share.folder;
    let (reader, server, indexer) = (
        callers.next(place)?,
        callers.next(place)?,
        callers.next(place)?,
    );
    Ok(SharedWith {
        read: ReaderFolder {
            id,
            kept_index_id: share.kept_index_id,
            is_told: false,
            calls: reader,
        },
        served: ServerFolder {
            store,
            calls: server,
        },
        indexed: IndexerFolder {
            id: told_id,
            index_id: folder.settings.index_id,
            calls: indexer,
        },
    })
}

/// The identities of peers.
pub(crate) fn devices_of(alloc: Global, peers: &[NodePeer]) -> Result<Vec<DeviceId>, AllocError> {
    let mut devices = Vec::with_capacity(alloc, peers.len())?;
    for peer in peers {
        devices.push(peer.device)?;
    }
    Ok(devices)
}
