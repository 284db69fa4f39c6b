//! A folder's calls, lent to a worker and given back.
use crate::fault::NodeFault;
use bep_messages::Items;
use folder_calls::{
    At, BeginAnswer, EnterAllocError, EnterRefusal, FolderCalls, HistoryFull, PullCommit,
    PullTicket, ScanRefusal,
};
use folder_core::{Best, Counts, Finding, Place, ScanAnswer, Stray};
use std::alloc::{AllocError, Global};
use std::vec::IntoIter;
use sync_names::SafeName;
use sync_record::{Assembled, DeviceId, Record};
use sync_version::{Moment, Version};

/// The calls of a folder that another one has. Let go of, they are given back, so code that takes calls by value need not be told how those
/// end that it is lent.
#[derive(Drop)]
pub struct Lent<'a, W> {
    pub calls: &'a mut W,
}

/// Calls that are lent, one after the other.
pub type LentCalls<'a, W> = IntoIter<Lent<'a, W>>;

/// Lends these. Fails only if out of memory.
pub fn lend_all<'a, W>(alloc: Global, callers: &'a mut [W]) -> Result<LentCalls<'a, W>, NodeFault> {
    let mut lent = Vec::with_capacity(alloc, callers.len())?;
    let each = callers.iter_mut();
    for calls in each {
        if lent.push(Lent { calls }).is_err() {
            return Err(NodeFault::OutOfMemory);
        }
    }
    Ok(lent.into_iter())
}

/// The next of these. Fails where there are fewer than workers.
pub fn next_of<'a, W>(each: &mut LentCalls<'a, W>) -> Result<Lent<'a, W>, NodeFault> {
    match each.next() {
        Some(lent) => Ok(lent),
        None => Err(NodeFault::PassesFull),
    }
}

impl<W: FolderCalls> FolderCalls for Lent<'_, W> {
    type Folder = W::Folder;

    ghost folder = { λ n. W.folder n.calls.now };

    ghost view = { λ n. W.view n.calls.now };

    fn me(&self) -> DeviceId {
        self.calls.me()
    }

    fn scan_found(
        &mut self,
        name: &SafeName,
        expected: Option<&Version>,
        found: &Finding,
        moment: Moment,
    ) -> Result<At<Result<ScanAnswer, ScanRefusal>>, AllocError> {
        self.calls.scan_found(name, expected, found, moment)
    }

    fn scan_gone(
        &mut self,
        name: &SafeName,
        expected: Option<&Version>,
        moment: Moment,
    ) -> Result<At<Result<ScanAnswer, ScanRefusal>>, AllocError> {
        self.calls.scan_gone(name, expected, moment)
    }

    fn index_full(
        &mut self,
        device: DeviceId,
        records: Items<Record>,
    ) -> Result<At<Result<(), HistoryFull>>, AllocError> {
        self.calls.index_full(device, records)
    }

    fn index_more(
        &mut self,
        device: DeviceId,
        records: Items<Record>,
    ) -> Result<At<Result<(), HistoryFull>>, AllocError> {
        self.calls.index_more(device, records)
    }

    fn forget(&mut self, device: DeviceId) -> Result<At<Result<(), HistoryFull>>, AllocError> {
        self.calls.forget(device)
    }

    fn begin_pull(
        &mut self,
        name: &SafeName,
    ) -> Result<At<Result<BeginAnswer, HistoryFull>>, AllocError> {
        self.calls.begin_pull(name)
    }

    fn enter_commit(
        &mut self,
        ticket: PullTicket,
    ) -> Result<At<Result<PullCommit, EnterRefusal>>, EnterAllocError> {
        self.calls.enter_commit(ticket)
    }

    fn finish(&mut self, commit: PullCommit, assembled: Assembled) -> At<Result<u64, Stray>> {
        self.calls.finish(commit, assembled)
    }

    fn give_up(&mut self, ticket: PullTicket) -> At<bool> {
        self.calls.give_up(ticket)
    }

    fn abort(&mut self, commit: PullCommit) -> At<bool> {
        self.calls.abort(commit)
    }

    fn best(&mut self, name: &SafeName) -> Result<At<Option<Best>>, AllocError> {
        self.calls.best(name)
    }

    fn bests(
        &mut self,
        after: Option<&SafeName>,
        limit: usize,
    ) -> Result<At<Items<Best>>, AllocError> {
        self.calls.bests(after, limit)
    }

    fn local(&mut self, name: &SafeName) -> Result<At<Option<Record>>, AllocError> {
        self.calls.local(name)
    }

    fn need(
        &mut self,
        after: Option<&SafeName>,
        limit: usize,
    ) -> Result<At<Items<SafeName>>, AllocError> {
        self.calls.need(after, limit)
    }

    fn local_since(
        &mut self,
        sequence: u64,
        limit: usize,
    ) -> Result<At<Items<Record>>, AllocError> {
        self.calls.local_since(sequence, limit)
    }

    fn find_block(&mut self, hash: &[u8; 32]) -> Result<At<Option<Place>>, AllocError> {
        self.calls.find_block(hash)
    }

    fn known(&mut self, device: DeviceId) -> At<u64> {
        self.calls.known(device)
    }

    fn counts(&mut self) -> At<Counts> {
        self.calls.counts()
    }
}
