//! The threads of a node that work: those that save, scan and pull, and one for each peer.
ghost use Rattle.std.specs.Prelude.{◌≡◌, map, IfOk};
ghost use Rattle.node_threads.specs.Workers.{kept_numbers};

use crate::callers::Lender;
use crate::saver::{Saver, run_saver};
use crate::workers::{FolderFiles, Node, WorkedFolder, Workers, workers_of};
use file_store::{FileStore, Gate};
use folder_calls::FolderCalls;
use folder_core::FolderCore;
use folder_shared::Member;
use node_context::{Context, Host, NodeFault};
use node_files::Marked;
use node_folder::{ScannedFolder, run_scanner, scan_due};
use node_keeper::Keeper;
use node_look::{begin_looks, run_looks};
use node_peer::{Reach, run_peer};
use node_pull::{PulledFolder, run_rounds};
use node_saver::DiskJournal;
use peer_conn::KeptCalls;
use peer_link::LinkFolders;
use peer_reader::ReaderFolder;
use std::alloc::{AllocError, Global};
use std::thread::{for_each_mut, join, map_vec};

/// For each peer, the numbers of its indexes that are kept.
pub(crate) type IndexIds = Vec<Vec<u64>>;

/// What a node works with: its folders' files, and what it is told.
#[derive(Drop)]
pub(crate) struct Work<'f, 'x, F> {
    pub(crate) files: &'f F,
    pub(crate) node: Node<'x>,
}

/// Works, and has what happens written to the journal, until nothing happens any more. Where it can't work, the node stops.
pub(crate) fn work_and_save<'x, R, G, F, J, C>(
    cx: &Context<'x, R, G>,
    work: &Work<'_, 'x, F>,
    reaches: &'x [Reach],
    workers: &mut [Member<'x, C, R>],
    saver: &mut Saver<'_, J>,
    savers: &mut [Member<'x, C, R>],
) -> Result<IndexIds, NodeFault>
where
    R: Host,
    G: Gate + Sync,
    F: FolderFiles + Sync,
    F::Store: Send,
    J: DiskJournal + Send,
    C: FolderCore + Drop + Send + Sync,
{
    let (files, node, keeper) = (work.files, work.node, work.node.keeper);
    let (kept, ()) = join(
        cx.rt,
        || {
            let kept = work_by_members(cx, files, node, reaches, workers);
            if kept.is_err() {
                cx.stop();
            }
            keeper.end(cx.rt);
            kept
        },
        || save_by_members(cx, keeper, saver, savers),
    );
    kept
}

// (What a call over a folder's `Member`s costs the prover grows with the bounds of its function, so there are three, with no more bounds than they need.)
fn work_by_members<'x, R, G, F, C>(
    cx: &Context<'x, R, G>,
    files: &F,
    node: Node<'x>,
    reaches: &'x [Reach],
    callers: &mut [Member<'x, C, R>],
) -> Result<IndexIds, NodeFault>
where
    R: Host,
    G: Gate + Sync,
    F: FolderFiles,
    F::Store: Send,
    C: FolderCore + Drop + Send + Sync,
{
    work_by(cx, files, node, reaches, callers)
}

fn save_by_members<'x, R, G, J, C>(
    cx: &Context<'x, R, G>,
    keeper: &Keeper,
    saver: &mut Saver<'_, J>,
    callers: &mut [Member<'x, C, R>],
)
where
    R: Host,
    J: DiskJournal,
    C: FolderCore + Drop,
{
    run_saver(cx, keeper, saver, callers)
}

// Works by these callers.
fn work_by<'x, R, G, F, W>(
    cx: &Context<'x, R, G>,
    files: &F,
    node: Node<'x>,
    reaches: &'x [Reach],
    callers: &mut [W],
) -> Result<IndexIds, NodeFault>
where
    R: Host,
    G: Gate + Sync,
    F: FolderFiles,
    F::Store: Send,
    W: FolderCalls + Send,
{
    let mut callers = Lender::new(cx.rt, cx.alloc, node.keeper, callers)?;
    let workers = workers_of(cx.alloc, files, node, reaches, &mut callers)?;
    // (out of memory they are forgotten, and the peers send their indexes anew)
    Ok(match run_workers(cx, workers) {
        Ok(left) => kept_of(cx.alloc, left).unwrap_or(Vec::new(cx.alloc)),
        Err(_) => Vec::new(cx.alloc),
    })
}

// Works on each folder, and has connections, until the node stops.
fn run_workers<'x, R, G, S, W>(
    cx: &Context<'x, R, G>,
    workers: Workers<'x, S, W>,
) -> Result<Vec<LinkFolders<S, W>>, AllocError>
where
    R: Host,
    G: Gate + Sync,
    S: FileStore + Marked + Drop + Send,
    W: KeptCalls + Drop + Send,
{
    let Workers { folders, peers } = workers;
    let mut folders = folders;
    let ((), left) = join(
        cx.rt,
        || work_on_all(cx, folders.as_mut_slice()),
        || map_vec(cx.rt, peers, &|worker| run_peer(cx, worker)),
    );
    left
}

// Works on each folder, by threads of its own.
fn work_on_all<'x, R, G, S, W>(cx: &Context<'x, R, G>, folders: &mut [WorkedFolder<'x, S, W>])
where
    R: Host,
    G: Gate + Sync,
    S: FileStore + Marked + Drop + Send,
    W: KeptCalls + Drop + Send,
{
    let threads = folders.len().max(1);
    for_each_mut(cx.rt, folders, threads, &|_, folder| work_on(cx, folder));
}

// Scans a folder, looks at it, and pulls it, until the node stops. It is looked at before it is scanned, so that what changes meanwhile is seen, and nothing is
// pulled before it was scanned once.
fn work_on<'x, R, G, S, W>(cx: &Context<'x, R, G>, folder: &mut WorkedFolder<'x, S, W>)
where
    R: Host,
    G: Gate + Sync,
    S: FileStore + Marked + Drop + Send,
    W: KeptCalls + Drop + Send,
{
    let WorkedFolder {
        scanned,
        watched,
        pulled,
    } = folder;
    begin_looks(cx, watched);
    let ((), ()) = join(
        cx.rt,
        || scan_and_pull(cx, scanned, pulled),
        || run_looks(cx, watched),
    );
}

// Scans a folder and then, until the node stops, scans and pulls it.
fn scan_and_pull<'x, R, G, S, W>(
    cx: &Context<'x, R, G>,
    scanned: &mut ScannedFolder<'x, S, W>,
    pulled: &mut PulledFolder<'x, S, W>,
)
where
    R: Host,
    G: Gate + Sync,
    S: FileStore + Marked + Drop + Send,
    W: KeptCalls + Drop + Send,
{
    scan_due(cx, scanned);
    let ((), ()) = join(
        cx.rt,
        || run_scanner(cx, scanned),
        || run_rounds(cx, pulled),
    );
}

// For each peer, the numbers of its indexes that are kept.
fn kept_of<S: Drop, W: Drop>(
    alloc: Global,
    left: Vec<LinkFolders<S, W>>,
) -> Result<IndexIds, AllocError>
    ensures { IfOk result (λ all. map (λ kept. kept.items) all.items ≡ map (λ folders. kept_numbers folders.read.items) left.items) }
{
    let mut all = Vec::with_capacity(alloc, left.len())?;
    for folders in left {
        all.push(kept_numbers(alloc, folders.read.as_slice())?)?;
    }
    Ok(all)
}

fn kept_numbers<W>(alloc: Global, read: &[ReaderFolder<W>]) -> Result<Vec<u64>, AllocError>
    ensures { IfOk result (λ kept. kept.items ≡ kept_numbers read.now) }
{
    let mut kept = Vec::with_capacity(alloc, read.len())?;
    for folder in read {
        kept.push(folder.kept_index_id)?;
    }
    Ok(kept)
}
