//! The folders that a node begins with, and what is left of them.
ghost use Rattle.std.specs.Prelude.{◌≡◌, [], IfOk};
ghost use Rattle.node_threads.specs.Left.{AreClosed, AreOpened, IsClosed, IsOpened};

use folder_core::FolderCore;
use folder_shared::{Pass, SharedFolder};
use node_context::{Connections, NodeFault};
use node_folder::{FolderSettings, NodeFolder};
use node_keeper::Keeper;
use node_pull::PULLERS;
use peer_asks::AskBook;
use std::alloc::{AllocError, Global};
use std::sync::Wait;

/// A folder as a node begins with it.
#[derive(Drop)]
pub struct StartFolder<C> {
    /// How it is kept.
    pub settings: FolderSettings,
    /// Its records, without open pulls.
    pub core: C,
    /// The sequence up to which this device's records are on the disk.
    pub kept: u64,
    /// Whether pulls of the last run may have put something in place that wasn't looked at yet, since the folder is away.
    pub is_unsettled: bool,
    /// Whether none of its names is there, and nobody said whose its marker is: then it waits, however few they are.
    pub is_doubted: bool,
}

/// What a node shares among its threads.
#[derive(Drop)]
pub(crate) struct Opened<C: FolderCore + Drop> {
    pub(crate) folders: Vec<NodeFolder>,
    pub(crate) shared: Vec<SharedFolder<C>>,
    pub(crate) books: Vec<AskBook>,
    pub(crate) connections: Connections,
    pub(crate) keeper: Keeper,
}

/// Opens each folder, with an empty history. There is no connection with any of so many peers yet, which may be believed all that they say they were told.
pub(crate) fn open_all<R: Wait, C: FolderCore + Drop>(
    rt: &R,
    alloc: Global,
    folders: Vec<StartFolder<C>>,
    peers: usize,
    believes_all: bool,
) -> Result<Opened<C>, NodeFault>
    ensures opened { IfOk result (λ opened. AreOpened C.state folders.items opened.shared.items) }
{
    let keeper = keeper_of(alloc, folders.as_slice(), believes_all)?;
    let mut opened = Vec::with_capacity(alloc, folders.len())?;
    let mut shared = Vec::with_capacity(alloc, folders.len())?;
    for folder in folders {
        let StartFolder {
            settings,
            core,
            is_unsettled,
            is_doubted,
            ..
        } = folder;
        let history_limit = settings.history_limit;
        opened.push(NodeFolder::new(alloc, settings, is_unsettled, is_doubted))?;
        shared.push(open_folder(rt, alloc, core, history_limit)?)?;
    }
    Ok(Opened {
        folders: opened,
        shared,
        books: books_for(alloc, peers)?,
        connections: Connections::new(alloc, peers)?,
        keeper,
    })
}

// What is on the disk of each folder.
fn keeper_of<C>(
    alloc: Global,
    folders: &[StartFolder<C>],
    believes_all: bool,
) -> Result<Keeper, AllocError> {
    let mut kept = Vec::with_capacity(alloc, folders.len())?;
    for folder in folders {
        kept.push(folder.kept)?;
    }
    Keeper::new(alloc, kept.as_slice(), PULLERS, believes_all)
}

// A book for each of so many peers.
fn books_for(alloc: Global, count: usize) -> Result<Vec<AskBook>, AllocError> {
    let mut books = Vec::with_capacity(alloc, count)?;
    for _ in 0..count {
        books.push(AskBook::new(alloc))?;
    }
    Ok(books)
}

fn open_folder<R: Wait, C: FolderCore + Drop>(
    rt: &R,
    alloc: Global,
    core: C,
    history_limit: u64,
) -> Result<SharedFolder<C>, NodeFault>
    ensures { IfOk result (IsOpened C.state (C.state core) history_limit) }
{
    if core.counts().pulls != 0 {
        return Err(NodeFault::OpenPulls);
    }
    match SharedFolder::open(rt, alloc, core, history_limit) {
        Ok(folder) => Ok(folder),
        Err(_) => Err(NodeFault::OutOfMemory),
    }
}

/// Room for the last pass of each of so many folders.
pub(crate) fn rooms_for<C: FolderCore + Drop>(
    alloc: Global,
    count: usize,
) -> Result<Vec<Vec<Pass<C>>>, AllocError> {
    let mut rooms = Vec::with_capacity(alloc, count)?;
    for _ in 0..count {
        rooms.push(Vec::with_capacity(alloc, 1)?)?;
    }
    Ok(rooms)
}

/// The records of each folder, once no thread has it any more.
pub(crate) fn close_all<R: Wait, C: FolderCore + Drop>(
    rt: &R,
    alloc: Global,
    mut cores: Vec<C>,
    mut rooms: Vec<Vec<Pass<C>>>,
    shared: Vec<SharedFolder<C>>,
) -> Result<Vec<C>, NodeFault>
    requires { cores.items ≡ [] }
    ensures { IfOk result (λ cores. AreClosed C.state shared.items cores.items) }
{
    for folder in shared {
        let room = rooms.pop().unwrap_or(Vec::new(alloc));
        cores.push(close(rt, room, folder)?)?;
    }
    Ok(cores)
}

fn close<R: Wait, C: FolderCore + Drop>(
    rt: &R,
    mut passes: Vec<Pass<C>>,
    folder: SharedFolder<C>,
) -> Result<C, NodeFault>
    ensures { IfOk result (λ core. IsClosed C.state folder (C.state core)) }
{
    let Ok(pass) = folder.pass(rt) else {
        return Err(NodeFault::PassesFull);
    };
    passes.clear();
    passes.push(pass)?;
    let (core, _) = folder.close(rt, passes);
    Ok(core)
}
