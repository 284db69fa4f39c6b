//! A shared folder as the calls of one worker.
ghost use Rattle.std.specs.Prelude.{◌≡◌};
ghost use Rattle.std.proofs.Props.{props};
ghost use Rattle.std.specs.Coded.{codes};
ghost use Rattle.folder_core.specs.Codes.{coded_folder};
ghost use Rattle.folder_calls.specs.Codes.{coded_history};
ghost use Rattle.folder_shared.specs.Passes.{IsPassOf, view_of};

use crate::{LockedFolder, Pass, SharedFolder};
use bep_messages::Items;
use folder_calls::{
    At, BeginAnswer, EnterAllocError, EnterRefusal, FolderCalls, HistoryFull, PullCommit,
    PullTicket, ScanRefusal,
};
use folder_core::{Best, Counts, Finding, FolderCore, Place, ScanAnswer, Stray};
use std::alloc::AllocError;
use std::sync::Wait;
use sync_names::SafeName;
use sync_record::{Assembled, DeviceId, Record};
use sync_version::{Moment, Version};

/// A worker of a shared folder: it makes its calls by a pass of its own, and need not know that others make theirs.
#[derive(Drop)]
pub struct Member<'a, C: FolderCore + Drop, R: Wait> {
    folder: &'a LockedFolder<C>,
    rt: &'a R,
    pass: Pass<C>,
    ghost of: { IsPassOf folder.now pass } by { Prim.hlevel
        (props, codes, coded_history, coded_folder) },
}

impl<'a, C: FolderCore + Drop, R: Wait> Member<'a, C, R> {
    /// The worker that makes its calls by this pass. O(1).
    pub fn new(folder: &'a SharedFolder<C>, rt: &'a R, pass: Pass<C>) -> Member<'a, C, R>
        requires { IsPassOf folder.now.locked pass }
        ensures { (result.folder.now ≡ folder.now.locked) × (result.pass ≡ pass) }
    {
        Member {
            folder: &folder.locked,
            rt,
            pass,
        }
    }

    /// The pass, with what was seen by it. O(1).
    pub fn into_pass(self) -> Pass<C>
        ensures same { result ≡ self.entry.pass }
        ensures of { IsPassOf self.entry.folder.now result }
    {
        let Member {
            folder: _,
            rt: _,
            pass,
        } = self;
        pass
    }
}

impl<'a, C: FolderCore + Drop, R: Wait> FolderCalls for Member<'a, C, R> {
    type Folder = LockedFolder<C>;

    ghost folder = { λ m. m.folder.now };

    ghost view = { λ m. view_of m.folder.now m.pass };

    fn me(&self) -> DeviceId {
        self.folder.me()
    }

    fn scan_found(
        &mut self,
        name: &SafeName,
        expected: Option<&Version>,
        found: &Finding,
        moment: Moment,
    ) -> Result<At<Result<ScanAnswer, ScanRefusal>>, AllocError> {
        self.folder
            .scan_found(self.rt, &mut self.pass, name, expected, found, moment)
    }

    fn scan_gone(
        &mut self,
        name: &SafeName,
        expected: Option<&Version>,
        moment: Moment,
    ) -> Result<At<Result<ScanAnswer, ScanRefusal>>, AllocError> {
        self.folder
            .scan_gone(self.rt, &mut self.pass, name, expected, moment)
    }

    fn index_full(
        &mut self,
        device: DeviceId,
        records: Items<Record>,
    ) -> Result<At<Result<(), HistoryFull>>, AllocError> {
        self.folder
            .index_full(self.rt, &mut self.pass, device, records)
    }

    fn index_more(
        &mut self,
        device: DeviceId,
        records: Items<Record>,
    ) -> Result<At<Result<(), HistoryFull>>, AllocError> {
        self.folder
            .index_more(self.rt, &mut self.pass, device, records)
    }

    fn forget(&mut self, device: DeviceId) -> Result<At<Result<(), HistoryFull>>, AllocError> {
        self.folder.forget(self.rt, &mut self.pass, device)
    }

    fn begin_pull(
        &mut self,
        name: &SafeName,
    ) -> Result<At<Result<BeginAnswer, HistoryFull>>, AllocError> {
        self.folder.begin_pull(self.rt, &mut self.pass, name)
    }

    fn enter_commit(
        &mut self,
        ticket: PullTicket,
    ) -> Result<At<Result<PullCommit, EnterRefusal>>, EnterAllocError> {
        self.folder.enter_commit(self.rt, &mut self.pass, ticket)
    }

    fn finish(&mut self, commit: PullCommit, assembled: Assembled) -> At<Result<u64, Stray>> {
        self.folder
            .finish(self.rt, &mut self.pass, commit, assembled)
    }

    fn give_up(&mut self, ticket: PullTicket) -> At<bool> {
        self.folder.give_up(self.rt, &mut self.pass, ticket)
    }

    fn abort(&mut self, commit: PullCommit) -> At<bool> {
        self.folder.abort(self.rt, &mut self.pass, commit)
    }

    fn best(&mut self, name: &SafeName) -> Result<At<Option<Best>>, AllocError> {
        self.folder.best(self.rt, &mut self.pass, name)
    }

    fn bests(
        &mut self,
        after: Option<&SafeName>,
        limit: usize,
    ) -> Result<At<Items<Best>>, AllocError> {
        self.folder.bests(self.rt, &mut self.pass, after, limit)
    }

    fn local(&mut self, name: &SafeName) -> Result<At<Option<Record>>, AllocError> {
        self.folder.local(self.rt, &mut self.pass, name)
    }

    fn need(
        &mut self,
        after: Option<&SafeName>,
        limit: usize,
    ) -> Result<At<Items<SafeName>>, AllocError> {
        self.folder.need(self.rt, &mut self.pass, after, limit)
    }

    fn local_since(
        &mut self,
        sequence: u64,
        limit: usize,
    ) -> Result<At<Items<Record>>, AllocError> {
        self.folder
            .local_since(self.rt, &mut self.pass, sequence, limit)
    }

    fn find_block(&mut self, hash: &[u8; 32]) -> Result<At<Option<Place>>, AllocError> {
        self.folder.find_block(self.rt, &mut self.pass, hash)
    }

    fn known(&mut self, device: DeviceId) -> At<u64> {
        self.folder.known(self.rt, &mut self.pass, device)
    }

    fn counts(&mut self) -> At<Counts> {
        self.folder.counts(self.rt, &mut self.pass)
    }
}
