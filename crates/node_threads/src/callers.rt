//! The callers of each folder: its scanner, those who look at it, its pullers, and three for each peer that it is shared with.
use crate::peers::NodePeer;
use folder_core::FolderCore;
use folder_shared::{Member, SharedFolder};
use node_commands::Histories;
use node_context::{Lent, LentCalls, NodeFault, lend_all, next_of};
use node_keeper::{FolderKeeper, Keeper, PlannedCalls};
use node_look::LOOKERS;
use node_pull::PULLERS;
use std::alloc::Global;
use std::sync::Wait;

/// Who calls the folders of a node, but for who answers: those who work (in the order of `work_callers`), and one of each folder for who saves.
#[derive(Drop)]
pub(crate) struct Callers<W> {
    pub(crate) workers: Vec<W>,
    pub(crate) savers: Vec<W>,
}

/// Those who work, in this order: of each folder its scanner, those who look at it and its pullers; and then of each peer a reader, a server and an indexer of
/// each folder that is shared with it.
pub(crate) fn work_callers<'a, C: FolderCore + Drop, R: Wait>(
    rt: &'a R,
    alloc: Global,
    folders: &'a [SharedFolder<C>],
    peers: &[NodePeer],
) -> Result<Vec<Member<'a, C, R>>, NodeFault> {
    let mut callers = Vec::new(alloc);
    for folder in folders {
        add_callers(rt, folder, FOLDER_CALLERS, &mut callers)?;
    }
    for peer in peers {
        for share in peer.shares.iter() {
            let Some(folder) = folders.get(share.folder) else {
                return Err(NodeFault::NoFolder);
            };
            add_callers(rt, folder, SHARE_CALLERS, &mut callers)?;
        }
    }
    Ok(callers)
}

/// How many callers work on a folder.
const FOLDER_CALLERS: usize = 1 + LOOKERS + PULLERS;

/// How many callers there are for a folder that is shared with a peer.
const SHARE_CALLERS: usize = 3;

/// A caller of each folder.
pub(crate) fn each_caller<'a, C: FolderCore + Drop, R: Wait>(
    rt: &'a R,
    alloc: Global,
    folders: &'a [SharedFolder<C>],
) -> Result<Vec<Member<'a, C, R>>, NodeFault> {
    let mut callers = Vec::with_capacity(alloc, folders.len())?;
    for folder in folders {
        add_caller(rt, folder, &mut callers)?;
    }
    Ok(callers)
}

fn add_callers<'a, C: FolderCore + Drop, R: Wait>(
    rt: &'a R,
    folder: &'a SharedFolder<C>,
    count: usize,
    callers: &mut Vec<Member<'a, C, R>>,
) -> Result<(), NodeFault> {
    for _ in 0..count {
        add_caller(rt, folder, callers)?;
    }
    Ok(())
}

fn add_caller<'a, C: FolderCore + Drop, R: Wait>(
    rt: &'a R,
    folder: &'a SharedFolder<C>,
    callers: &mut Vec<Member<'a, C, R>>,
) -> Result<(), NodeFault> {
    let Ok(pass) = folder.pass(rt) else {
        return Err(NodeFault::PassesFull);
    };
    match callers.push(Member::new(folder, rt, pass)) {
        Ok(()) => Ok(()),
        Err(_) => Err(NodeFault::OutOfMemory),
    }
}

/// Calls that are lent to workers, one after the other, each with the keeper of its folder.
#[derive(Drop)]
pub(crate) struct Lender<'x, 'b, W, R> {
    rt: &'x R,
    keeper: &'x Keeper,
    callers: LentCalls<'b, W>,
}

/// A worker's calls, which are lent to it, and whose pulls wait for their plans.
pub(crate) type WorkerCalls<'x, 'b, W, R> = PlannedCalls<'x, Lent<'b, W>, R>;

impl<'x, 'b, W, R: Wait> Lender<'x, 'b, W, R> {
    /// Lends these. Fails only if out of memory.
    pub(crate) fn new(
        rt: &'x R,
        alloc: Global,
        keeper: &'x Keeper,
        callers: &'b mut [W],
    ) -> Result<Lender<'x, 'b, W, R>, NodeFault> {
        let callers = lend_all(alloc, callers)?;
        Ok(Lender {
            rt,
            keeper,
            callers,
        })
    }

    /// The next of them, for the folder at this place. Fails where there are fewer than workers.
    pub(crate) fn next(&mut self, place: usize) -> Result<WorkerCalls<'x, 'b, W, R>, NodeFault> {
        let calls = next_of(&mut self.callers)?;
        let keeper = FolderKeeper::new(self.rt, self.keeper, place);
        Ok(PlannedCalls::new(calls, keeper))
    }
}

/// The histories of folders with a lock each.
#[derive(Drop)]
pub(crate) struct SharedHistories<'a, C: FolderCore + Drop, R> {
    pub(crate) rt: &'a R,
    pub(crate) folders: &'a [SharedFolder<C>],
}

impl<C: FolderCore + Drop, R: Wait> Histories for SharedHistories<'_, C, R> {
    fn verify(&self, place: usize) -> Result<bool, NodeFault> {
        let Some(folder) = self.folders.get(place) else {
            return Err(NodeFault::NoFolder);
        };
        let Ok(mut pass) = folder.pass(self.rt) else {
            return Err(NodeFault::PassesFull);
        };
        Ok(folder.verify(self.rt, &mut pass)?)
    }
}
