//! The changes of a shared folder.
ghost use Rattle.std.specs.Prelude.{◌≡◌, ◌≢◌, IfErr, IfOk, IsTrue, Some, option_copied};
ghost use Rattle.folder_core.specs.Calls.{close_answer, finish_answer};
ghost use Rattle.folder_core.specs.Steps.{is_recordable};
ghost use Rattle.folder_core.specs.declared.change.Change.TheVariants.{Forget, IndexFull, IndexMore, ScanFound, ScanGone, BeginPull, EnterCommit, Finish, GiveUp, Abort};
ghost use Rattle.folder_calls.specs.Calls.{GivesBack, begin_value, enter_value, index_value, scan_value, answered_at, answer_at};
ghost use Rattle.folder_calls.specs.Shared.{ChangesAt};
ghost use Rattle.folder_shared.specs.Passes.{IsPassOf, opening_of, view_of};

use crate::{LockedFolder, Pass};
use bep_messages::Items;
use folder_calls::{
    At, BeginAnswer, EnterAllocError, EnterRefusal, HistoryFull, PullCommit, PullTicket,
    ScanRefusal,
};
use folder_core::{Finding, FolderCore, ScanAnswer, Stray};
use std::alloc::AllocError;
use std::convert::Infallible;
use std::sync::Wait;
use sync_names::SafeName;
use sync_record::{Assembled, DeviceId, Record};
use sync_version::{Moment, Version};

/// A change that is accepted becomes the last entry of the history, with its answer, as one of the pass's; all else adds no
/// entry. Without an answer nothing was changed, and the pass has seen no more.
impl<C: FolderCore + Drop> LockedFolder<C> {
    /// Records what is found at a name, if its local version is still the expected one. The version is raised by this device
    /// at the moment. Returns `Moved` with the local version if it is another, and `Busy` while a commit of the name is open.
    pub fn scan_found<R: Wait>(
        &self,
        rt: &R,
        pass: &mut Pass<C>,
        name: &SafeName,
        expected: Option<&Version>,
        found: &Finding,
        moment: Moment,
    ) -> Result<At<Result<ScanAnswer, ScanRefusal>>, AllocError>
        requires pass { IsPassOf self.now pass.old }
        requires found { IsTrue (is_recordable found.now.content) }
        ensures pass { IsPassOf self.now pass.new × (pass.new.number ≡ pass.old.number) }
        ensures changes { ChangesAt (view_of self.now pass.old)
            (ScanFound name.now (option_copied expected.entry) found.now moment)
            (answered_at scan_value result) (view_of self.now pass.new) }
    {
        let mut recorded = self.lend(rt, pass);
        let answer = recorded.scan_found(pass.number, name, expected, found, moment);
        self.hand_in(rt, pass, recorded, answer)
    }

    /// Records that nothing is at a name, if its local version is still the expected one. The version is raised by this
    /// device at the moment. Returns `Moved` with the local version if it is another, and `Busy` while a commit of the name is
    /// open.
    pub fn scan_gone<R: Wait>(
        &self,
        rt: &R,
        pass: &mut Pass<C>,
        name: &SafeName,
        expected: Option<&Version>,
        moment: Moment,
    ) -> Result<At<Result<ScanAnswer, ScanRefusal>>, AllocError>
        requires pass { IsPassOf self.now pass.old }
        ensures pass { IsPassOf self.now pass.new × (pass.new.number ≡ pass.old.number) }
        ensures changes { ChangesAt (view_of self.now pass.old)
            (ScanGone name.now (option_copied expected.entry) moment)
            (answered_at scan_value result)
            (view_of self.now pass.new) }
    {
        let mut recorded = self.lend(rt, pass);
        let answer = recorded.scan_gone(pass.number, name, expected, moment);
        self.hand_in(rt, pass, recorded, answer)
    }

    /// The device announces these records and no others; of several under one name the last counts.
    pub fn index_full<R: Wait>(
        &self,
        rt: &R,
        pass: &mut Pass<C>,
        device: DeviceId,
        records: Items<Record>,
    ) -> Result<At<Result<(), HistoryFull>>, AllocError>
        requires pass { IsPassOf self.now pass.old }
        requires device { device ≢ (opening_of self.now).me }
        ensures pass { IsPassOf self.now pass.new × (pass.new.number ≡ pass.old.number) }
        ensures changes { ChangesAt (view_of self.now pass.old) (IndexFull device records)
            (answered_at index_value result) (view_of self.now pass.new) }
    {
        let mut recorded = self.lend(rt, pass);
        let answer = recorded.index_full(pass.number, device, records);
        self.hand_in(rt, pass, recorded, answer)
    }

    /// The device announces these records too; of several under one name the last counts.
    pub fn index_more<R: Wait>(
        &self,
        rt: &R,
        pass: &mut Pass<C>,
        device: DeviceId,
        records: Items<Record>,
    ) -> Result<At<Result<(), HistoryFull>>, AllocError>
        requires pass { IsPassOf self.now pass.old }
        requires device { device ≢ (opening_of self.now).me }
        ensures pass { IsPassOf self.now pass.new × (pass.new.number ≡ pass.old.number) }
        ensures changes { ChangesAt (view_of self.now pass.old) (IndexMore device records)
            (answered_at index_value result) (view_of self.now pass.new) }
    {
        let mut recorded = self.lend(rt, pass);
        let answer = recorded.index_more(pass.number, device, records);
        self.hand_in(rt, pass, recorded, answer)
    }

    /// The device announces nothing.
    pub fn forget<R: Wait>(
        &self,
        rt: &R,
        pass: &mut Pass<C>,
        device: DeviceId,
    ) -> Result<At<Result<(), HistoryFull>>, AllocError>
        requires pass { IsPassOf self.now pass.old }
        requires device { device ≢ (opening_of self.now).me }
        ensures pass { IsPassOf self.now pass.new × (pass.new.number ≡ pass.old.number) }
        ensures changes { ChangesAt (view_of self.now pass.old) (Forget device)
            (answered_at index_value result)
            (view_of self.now pass.new) }
    {
        let mut recorded = self.lend(rt, pass);
        let answer = recorded.forget(pass.number, device);
        self.hand_in(rt, pass, recorded, answer)
    }

    /// Begins to pull the best of a name, and answers the first of these that applies: `Busy` if a pull of the name is
    /// open, `NotNeeded` if there is no best, if the local record is as good or if the best is deleted and there is no local record,
    /// and `Unsupported` if the best is live and neither a file nor a directory. Otherwise the pull is open, under the least positive number that no open pull has.
    pub fn begin_pull<R: Wait>(
        &self,
        rt: &R,
        pass: &mut Pass<C>,
        name: &SafeName,
    ) -> Result<At<Result<BeginAnswer, HistoryFull>>, AllocError>
        requires pass { IsPassOf self.now pass.old }
        ensures pass { IsPassOf self.now pass.new × (pass.new.number ≡ pass.old.number) }
        ensures changes { ChangesAt (view_of self.now pass.old) (BeginPull name.now)
            (answered_at begin_value result) (view_of self.now pass.new) }
    {
        let mut recorded = self.lend(rt, pass);
        let answer = recorded.begin_pull(pass.number, name);
        self.hand_in(rt, pass, recorded, answer)
    }

    /// Enters the commit of a pull, and fails with the first of these that applies: `Stray`, `LocalMoved`, `Superseded`,
    /// `SequenceFull` and `HistoryFull`. Every ticket but a stray one comes back.
    pub fn enter_commit<R: Wait>(
        &self,
        rt: &R,
        pass: &mut Pass<C>,
        ticket: PullTicket,
    ) -> Result<At<Result<PullCommit, EnterRefusal>>, EnterAllocError>
        requires pass { IsPassOf self.now pass.old }
        ensures pass { IsPassOf self.now pass.new × (pass.new.number ≡ pass.old.number) }
        ensures changes { ChangesAt (view_of self.now pass.old) (EnterCommit ticket)
            (answered_at enter_value result) (view_of self.now pass.new) }
        ensures given_back { IfOk result (λ reply. IfErr reply.value (GivesBack ticket)) }
        ensures out_of_memory { IfErr result (λ refused. refused.0 ≡ ticket) }
    {
        let mut recorded = self.lend(rt, pass);
        let answer = recorded.enter_commit(pass.number, ticket);
        self.hand_in(rt, pass, recorded, answer)
    }

    /// Announces the target of a commit, whose file is in place, as the local record, with what the base had seen added
    /// to its version; closes the pull, and returns the record's sequence. A stray commit changes nothing. Does not
    /// allocate.
    pub fn finish<R: Wait>(
        &self,
        rt: &R,
        pass: &mut Pass<C>,
        commit: PullCommit,
        assembled: Assembled,
    ) -> At<Result<u64, Stray>>
        requires pass { IsPassOf self.now pass.old }
        requires assembled { assembled ≡ commit.target }
        ensures pass { IsPassOf self.now pass.new × (pass.new.number ≡ pass.old.number) }
        ensures changes { ChangesAt (view_of self.now pass.old) (Finish commit assembled)
            (Some (answer_at finish_answer result)) (view_of self.now pass.new) }
    {
        let mut recorded = self.lend(rt, pass);
        let value = recorded.finish(pass.number, commit, assembled);
        let reply: Result<At<_>, Infallible> = self.hand_in(rt, pass, recorded, Ok(value));
        match reply {
            Ok(reply) => reply,
            Err(never) => match never {},
        }
    }

    /// Closes a pull whose commit was not entered. Returns `false` if the ticket is stray; then nothing changes. Does not
    /// allocate.
    pub fn give_up<R: Wait>(&self, rt: &R, pass: &mut Pass<C>, ticket: PullTicket) -> At<bool>
        requires pass { IsPassOf self.now pass.old }
        ensures pass { IsPassOf self.now pass.new × (pass.new.number ≡ pass.old.number) }
        ensures changes { ChangesAt (view_of self.now pass.old) (GiveUp ticket)
            (Some (answer_at close_answer result)) (view_of self.now pass.new) }
    {
        let mut recorded = self.lend(rt, pass);
        let value = recorded.give_up(pass.number, ticket);
        let reply: Result<At<_>, Infallible> = self.hand_in(rt, pass, recorded, Ok(value));
        match reply {
            Ok(reply) => reply,
            Err(never) => match never {},
        }
    }

    /// Closes a pull whose commit was entered; the local record stays. Returns `false` if the commit is stray; then
    /// nothing changes. Does not allocate.
    pub fn abort<R: Wait>(&self, rt: &R, pass: &mut Pass<C>, commit: PullCommit) -> At<bool>
        requires pass { IsPassOf self.now pass.old }
        ensures pass { IsPassOf self.now pass.new × (pass.new.number ≡ pass.old.number) }
        ensures changes { ChangesAt (view_of self.now pass.old) (Abort commit)
            (Some (answer_at close_answer result)) (view_of self.now pass.new) }
    {
        let mut recorded = self.lend(rt, pass);
        let value = recorded.abort(pass.number, commit);
        let reply: Result<At<_>, Infallible> = self.hand_in(rt, pass, recorded, Ok(value));
        match reply {
            Ok(reply) => reply,
            Err(never) => match never {},
        }
    }
}
