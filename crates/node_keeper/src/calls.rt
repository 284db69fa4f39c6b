//! A folder's calls, by which pulls wait for their plans.
ghost use Rattle.std.specs.Prelude.{◌≡◌, IfOk};

use crate::keeper::Keeper;
use crate::plans::PlannedPull;
use bep_messages::Items;
use folder_calls::{
    At, BeginAnswer, EnterAllocError, EnterRefusal, FolderCalls, HistoryFull, PullCommit,
    PullTicket, ScanRefusal,
};
use folder_core::{Best, Counts, Finding, Place, ScanAnswer, Stray};
use peer_conn::KeptCalls;
use std::alloc::AllocError;
use std::sync::Wait;
use sync_names::SafeName;
use sync_record::{Assembled, DeviceId, Record};
use sync_version::{Moment, Version};

/// What is on the disk of one of a node's folders.
#[derive(Drop)]
pub struct FolderKeeper<'a, R> {
    rt: &'a R,
    keeper: &'a Keeper,
    // The folder's place.
    place: usize,
}

impl<'a, R: Wait> FolderKeeper<'a, R> {
    /// Of the folder at this place.
    pub fn new(rt: &'a R, keeper: &'a Keeper, place: usize) -> FolderKeeper<'a, R> {
        FolderKeeper { rt, keeper, place }
    }

    /// Waits until the plan of a name's pull is on the disk, if one is open. Returns `false` where it could not be written, or noted: what was prepared for the name
    /// may not be put in place then.
    pub fn is_ready(&self, name: &SafeName) -> bool {
        self.keeper.is_ready(self.rt, self.place, name)
    }

    fn may_be_told(&self, told: u64, claimed: u64) -> bool {
        self.keeper.may_be_told(self.rt, self.place, told, claimed)
    }

    fn note(&self, number: u64, plan: Result<PlannedPull, AllocError>) {
        self.keeper.note(self.rt, self.place, number, plan);
    }

    fn end_pull(&self, number: u64) {
        self.keeper.end_pull(self.rt, self.place, number);
    }
}

/// The calls of a folder that tell a keeper which pulls are open, before any of them can put something in place, and where a peer goes on behind records that it
/// was not told: then they give none. Else they are the calls that they are made of.
#[derive(Drop)]
pub struct PlannedCalls<'a, W, R> {
    calls: W,
    keeper: FolderKeeper<'a, R>,
    // The greatest sequence of a local record that they gave.
    told: u64,
}

impl<'a, W, R> PlannedCalls<'a, W, R> {
    /// These calls, with the keeper of their folder.
    pub fn new(calls: W, keeper: FolderKeeper<'a, R>) -> PlannedCalls<'a, W, R>
        ensures { result.calls ≡ calls }
    {
        PlannedCalls {
            calls,
            keeper,
            told: 0,
        }
    }
}

// What the pull of this ticket may put in place. Returns `Err` only if a record has 2^63 - 1 copies.
fn plan_of(ticket: &PullTicket) -> Result<PlannedPull, AllocError>
    ensures { IfOk result (λ plan. (plan.base ≡ ticket.now.base) × (plan.target ≡ ticket.now.target)) }
{
    let base = match ticket.base() {
        Some(base) => Some(base.copy()?),
        None => None,
    };
    Ok(PlannedPull {
        base,
        target: ticket.target().copy()?,
    })
}

impl<W: FolderCalls, R: Wait> FolderCalls for PlannedCalls<'_, W, R> {
    type Folder = W::Folder;

    ghost folder = { λ n. W.folder n.calls };

    ghost view = { λ n. W.view n.calls };

    fn me(&self) -> DeviceId {
        self.calls.me()
    }

    fn scan_found(
        &mut self,
        name: &SafeName,
        expected: Option<&Version>,
        found: &Finding,
        moment: Moment,
    ) -> Result<At<Result<ScanAnswer, ScanRefusal>>, AllocError> {
        self.calls.scan_found(name, expected, found, moment)
    }

    fn scan_gone(
        &mut self,
        name: &SafeName,
        expected: Option<&Version>,
        moment: Moment,
    ) -> Result<At<Result<ScanAnswer, ScanRefusal>>, AllocError> {
        self.calls.scan_gone(name, expected, moment)
    }

    fn index_full(
        &mut self,
        device: DeviceId,
        records: Items<Record>,
    ) -> Result<At<Result<(), HistoryFull>>, AllocError> {
        self.calls.index_full(device, records)
    }

    fn index_more(
        &mut self,
        device: DeviceId,
        records: Items<Record>,
    ) -> Result<At<Result<(), HistoryFull>>, AllocError> {
        self.calls.index_more(device, records)
    }

    fn forget(&mut self, device: DeviceId) -> Result<At<Result<(), HistoryFull>>, AllocError> {
        self.calls.forget(device)
    }

    fn begin_pull(
        &mut self,
        name: &SafeName,
    ) -> Result<At<Result<BeginAnswer, HistoryFull>>, AllocError> {
        let begun = self.calls.begin_pull(name)?;
        if let Ok(BeginAnswer::Begun(ticket)) = &begun.value {
            self.keeper.note(ticket.number(), plan_of(ticket));
        }
        Ok(begun)
    }

    fn enter_commit(
        &mut self,
        ticket: PullTicket,
    ) -> Result<At<Result<PullCommit, EnterRefusal>>, EnterAllocError> {
        let number = ticket.number();
        let entered = self.calls.enter_commit(ticket)?;
        if let Err(EnterRefusal::Stray) = &entered.value {
            self.keeper.end_pull(number);
        }
        Ok(entered)
    }

    fn finish(&mut self, commit: PullCommit, assembled: Assembled) -> At<Result<u64, Stray>> {
        self.keeper.end_pull(commit.number());
        self.calls.finish(commit, assembled)
    }

    fn give_up(&mut self, ticket: PullTicket) -> At<bool> {
        self.keeper.end_pull(ticket.number());
        self.calls.give_up(ticket)
    }

    fn abort(&mut self, commit: PullCommit) -> At<bool> {
        self.keeper.end_pull(commit.number());
        self.calls.abort(commit)
    }

    fn best(&mut self, name: &SafeName) -> Result<At<Option<Best>>, AllocError> {
        self.calls.best(name)
    }

    fn bests(
        &mut self,
        after: Option<&SafeName>,
        limit: usize,
    ) -> Result<At<Items<Best>>, AllocError> {
        self.calls.bests(after, limit)
    }

    fn local(&mut self, name: &SafeName) -> Result<At<Option<Record>>, AllocError> {
        self.calls.local(name)
    }

    fn need(
        &mut self,
        after: Option<&SafeName>,
        limit: usize,
    ) -> Result<At<Items<SafeName>>, AllocError> {
        self.calls.need(after, limit)
    }

    fn local_since(
        &mut self,
        sequence: u64,
        limit: usize,
    ) -> Result<At<Items<Record>>, AllocError> {
        if sequence > self.told && !self.keeper.may_be_told(self.told, sequence) {
            return Err(AllocError);
        }
        let page = self.calls.local_since(sequence, limit)?;
        if let Some(last) = page.value.as_slice().last() {
            self.told = self.told.max(last.sequence());
        }
        Ok(page)
    }

    fn find_block(&mut self, hash: &[u8; 32]) -> Result<At<Option<Place>>, AllocError> {
        self.calls.find_block(hash)
    }

    fn known(&mut self, device: DeviceId) -> At<u64> {
        self.calls.known(device)
    }

    fn counts(&mut self) -> At<Counts> {
        self.calls.counts()
    }
}

/// How far the records are kept is what the keeper says when it is asked: of that nothing is known here.
impl<W: FolderCalls, R: Wait> KeptCalls for PlannedCalls<'_, W, R> {
    ghost use Rattle.std.specs.Prelude.{⊤};

    ghost says = { λ _ _. ⊤ };

    fn kept_up_to(&self) -> u64 {
        let FolderKeeper { rt, keeper, place } = &self.keeper;
        keeper.kept_up_to(*rt, *place)
    }

    fn ask_to_keep(&self) {
        let FolderKeeper { rt, keeper, .. } = &self.keeper;
        keeper.ask(*rt);
    }
}
