//! A folder for one caller.
ghost use Rattle.std.specs.Prelude.{IsTrue, ◌≢◌, ◌∷◌, [], map, ◌≡◌, ◌≤◌, IfErr, IfOk, IfSome, None, Option, Some, false, length, option_copied, option_map, true};
ghost use Rattle.std.specs.FinMap.{len};
ghost use Rattle.folder_core.specs.Calls.{close_answer, finish_answer};
ghost use Rattle.folder_core.specs.Reads.{Bests, Best as BestOf, CountAll, FindBlock, Known, Local, LocalSince, Need};
ghost use Rattle.folder_core.specs.Steps.{is_recordable};
ghost use Rattle.folder_core.specs.declared.change.Change.TheVariants.{Forget, IndexFull, IndexMore, ScanFound, ScanGone, BeginPull, EnterCommit, Finish, GiveUp, Abort};
ghost use Rattle.folder_calls.specs.LoneStates.{ChangesAfterPlan, ReadsAfterPlan, WithPoint, new_lone, seen_by};
ghost use Rattle.folder_calls.specs.Calls.{GivesBack, begin_value, enter_value, best_entry, index_value, scan_value, answered_at, answer_at};
ghost use Rattle.folder_calls.specs.RecordedFolders.{IsHistory, end};
ghost use Rattle.folder_calls.specs.Shared.{ChangesAt, Closes, ReadsAt};

use crate::{
    At, BeginAnswer, EnterAllocError, EnterRefusal, FolderCalls, HistoryFull, Plan, PullCommit,
    PullTicket, RecordedFolder, ScanRefusal,
};
use bep_messages::Items;
use folder_core::{Best, Counts, Finding, FolderCore, Place, ScanAnswer, Stray};
use std::alloc::{AllocError, Global};
use std::marker::Model;
use sync_names::SafeName;
use sync_record::{Assembled, DeviceId, Record};
use sync_version::{Moment, Version};

/// A folder for one caller, with the history of its changes. The caller's entries are those of pass 1.
///
/// Tests of what calls it may plan a change of another caller ([`Lone::plan`]), whose entry is one of pass 2.
#[derive(Drop)]
pub struct Lone<C: FolderCore> {
    pub(crate) recorded: RecordedFolder<C>,
    seen: u64,
    pub(crate) plan: Option<Plan>,
    pub(crate) planned: bool,
}

impl<C: FolderCore> Model for Lone<C> {
    ghost use Rattle.folder_calls.specs.declared.lone_state.LoneState.{LoneState};
    ghost use Rattle.folder_calls.specs.LoneStates.{IsLone};

    ghost Value = { LoneState };

    ghost use Rattle.folder_calls.specs.Codes.{coded_lone};

    ghost coded = { coded_lone };

    ghost view = { λ l. record {
      history = l.recorded;
      seen = l.seen;
      plan = l.plan;
      planned = l.planned;
    } };

    ghost invariant = { λ l. IsLone
        (record { history = l.recorded; seen = l.seen; plan = l.plan; planned = l.planned }) };
}

impl<C: FolderCore> Lone<C> {
    /// The folder with an empty history, which takes as many entries as its limit. Returns `Err` with the folder only if its
    /// copy could not be allocated. O(n) time and memory for n records, which share their memory.
    pub fn open(alloc: Global, core: C, history_limit: u64) -> Result<Lone<C>, C>
        requires { len (C.state core).pulls ≡ 0 }
        ensures ok { IfOk result (λ lone. lone ≡ new_lone (C.state core) history_limit) }
        ensures err { IfErr result (λ back. C.state back ≡ C.state core) }
    {
        Ok(Lone {
            recorded: RecordedFolder::open(alloc, core, history_limit, 2)?,
            seen: 0,
            plan: None,
            planned: false,
        })
    }

    /// The folder, after the history; the caller has seen the whole of it if nothing was ever planned. O(n) for n entries,
    /// which are dropped.
    pub fn close(self) -> C
        ensures core { C.state result ≡ end self.history }
        ensures history { IsHistory self.history }
        ensures closes { Closes self.history.opening self.history.limit 2 (seen_by self ∷ [])
            (C.state result) }
        ensures whole { self.planned ≡ false → self.seen ≡ length self.history.entries }
    {
        let Lone {
            recorded,
            seen: _,
            plan: _,
            planned: _,
        } = self;
        recorded.into_core()
    }
}

impl<C: FolderCore> FolderCalls for Lone<C> {
    /// Whether a change of another caller was ever planned.
    type Folder = bool;

    ghost folder = { λ l. l.planned };

    ghost view = { λ l. seen_by l };

    fn me(&self) -> DeviceId {
        self.recorded.core().me()
    }

    fn scan_found(
        &mut self,
        name: &SafeName,
        expected: Option<&Version>,
        found: &Finding,
        moment: Moment,
    ) -> Result<At<Result<ScanAnswer, ScanRefusal>>, AllocError>
        requires { IsTrue (is_recordable found.now.content) }
        ensures folder { self.new.planned ≡ self.old.planned }
        ensures changes { ChangesAt (seen_by self.old)
            (ScanFound name.now (option_copied expected.entry) found.now moment)
            (answered_at scan_value result) (seen_by self.new) }
        ensures planned { ChangesAfterPlan self.old
            (ScanFound name.now (option_copied expected.entry) found.now moment)
            (answered_at scan_value result) self.new }
    {
        self.go_on();
        let answer = self.recorded.scan_found(1, name, expected, found, moment);
        with_point(&self.recorded, &mut self.seen, answer)
    }

    fn scan_gone(
        &mut self,
        name: &SafeName,
        expected: Option<&Version>,
        moment: Moment,
    ) -> Result<At<Result<ScanAnswer, ScanRefusal>>, AllocError>
        ensures folder { self.new.planned ≡ self.old.planned }
        ensures changes { ChangesAt (seen_by self.old)
            (ScanGone name.now (option_copied expected.entry) moment)
            (answered_at scan_value result)
            (seen_by self.new) }
        ensures planned { ChangesAfterPlan self.old
            (ScanGone name.now (option_copied expected.entry) moment)
            (answered_at scan_value result) self.new }
    {
        self.go_on();
        let answer = self.recorded.scan_gone(1, name, expected, moment);
        with_point(&self.recorded, &mut self.seen, answer)
    }

    fn index_full(
        &mut self,
        device: DeviceId,
        records: Items<Record>,
    ) -> Result<At<Result<(), HistoryFull>>, AllocError>
        requires { device ≢ (seen_by self.old).opening.me }
        ensures folder { self.new.planned ≡ self.old.planned }
        ensures changes { ChangesAt (seen_by self.old) (IndexFull device records)
            (answered_at index_value result) (seen_by self.new) }
        ensures planned { ChangesAfterPlan self.old (IndexFull device records)
            (answered_at index_value result) self.new }
    {
        self.go_on();
        let answer = self.recorded.index_full(1, device, records);
        with_point(&self.recorded, &mut self.seen, answer)
    }

    fn index_more(
        &mut self,
        device: DeviceId,
        records: Items<Record>,
    ) -> Result<At<Result<(), HistoryFull>>, AllocError>
        requires { device ≢ (seen_by self.old).opening.me }
        ensures folder { self.new.planned ≡ self.old.planned }
        ensures changes { ChangesAt (seen_by self.old) (IndexMore device records)
            (answered_at index_value result) (seen_by self.new) }
        ensures planned { ChangesAfterPlan self.old (IndexMore device records)
            (answered_at index_value result) self.new }
    {
        self.go_on();
        let answer = self.recorded.index_more(1, device, records);
        with_point(&self.recorded, &mut self.seen, answer)
    }

    fn forget(&mut self, device: DeviceId) -> Result<At<Result<(), HistoryFull>>, AllocError>
        requires { device ≢ (seen_by self.old).opening.me }
        ensures folder { self.new.planned ≡ self.old.planned }
        ensures changes { ChangesAt (seen_by self.old) (Forget device)
            (answered_at index_value result)
            (seen_by self.new) }
        ensures planned { ChangesAfterPlan self.old (Forget device)
            (answered_at index_value result) self.new }
    {
        self.go_on();
        let answer = self.recorded.forget(1, device);
        with_point(&self.recorded, &mut self.seen, answer)
    }

    fn begin_pull(
        &mut self,
        name: &SafeName,
    ) -> Result<At<Result<BeginAnswer, HistoryFull>>, AllocError>
        ensures folder { self.new.planned ≡ self.old.planned }
        ensures changes { ChangesAt (seen_by self.old) (BeginPull name.now)
            (answered_at begin_value result)
            (seen_by self.new) }
        ensures planned { ChangesAfterPlan self.old (BeginPull name.now)
            (answered_at begin_value result) self.new }
    {
        self.go_on();
        let answer = self.recorded.begin_pull(1, name);
        with_point(&self.recorded, &mut self.seen, answer)
    }

    fn enter_commit(
        &mut self,
        ticket: PullTicket,
    ) -> Result<At<Result<PullCommit, EnterRefusal>>, EnterAllocError>
        ensures folder { self.new.planned ≡ self.old.planned }
        ensures changes { ChangesAt (seen_by self.old) (EnterCommit ticket)
            (answered_at enter_value result)
            (seen_by self.new) }
        ensures planned { ChangesAfterPlan self.old (EnterCommit ticket)
            (answered_at enter_value result) self.new }
        ensures given_back { IfOk result (λ reply. IfErr reply.value (GivesBack ticket)) }
        ensures out_of_memory { IfErr result (λ refused. refused.0 ≡ ticket) }
    {
        self.go_on();
        let answer = self.recorded.enter_commit(1, ticket);
        with_point(&self.recorded, &mut self.seen, answer)
    }

    fn finish(&mut self, commit: PullCommit, assembled: Assembled) -> At<Result<u64, Stray>>
        requires { assembled ≡ commit.target }
        ensures folder { self.new.planned ≡ self.old.planned }
        ensures changes { ChangesAt (seen_by self.old) (Finish commit assembled)
            (Some (answer_at finish_answer result)) (seen_by self.new) }
        ensures planned { ChangesAfterPlan self.old (Finish commit assembled)
            (Some (answer_at finish_answer result)) self.new }
    {
        self.go_on();
        let value = self.recorded.finish(1, commit, assembled);
        self.seen = self.recorded.len();
        At {
            at: self.seen,
            value,
        }
    }

    fn give_up(&mut self, ticket: PullTicket) -> At<bool>
        ensures folder { self.new.planned ≡ self.old.planned }
        ensures changes { ChangesAt (seen_by self.old) (GiveUp ticket)
            (Some (answer_at close_answer result)) (seen_by self.new) }
        ensures planned { ChangesAfterPlan self.old (GiveUp ticket)
            (Some (answer_at close_answer result)) self.new }
    {
        self.go_on();
        let value = self.recorded.give_up(1, ticket);
        self.seen = self.recorded.len();
        At {
            at: self.seen,
            value,
        }
    }

    fn abort(&mut self, commit: PullCommit) -> At<bool>
        ensures folder { self.new.planned ≡ self.old.planned }
        ensures changes { ChangesAt (seen_by self.old) (Abort commit)
            (Some (answer_at close_answer result))
            (seen_by self.new) }
        ensures planned { ChangesAfterPlan self.old (Abort commit)
            (Some (answer_at close_answer result)) self.new }
    {
        self.go_on();
        let value = self.recorded.abort(1, commit);
        self.seen = self.recorded.len();
        At {
            at: self.seen,
            value,
        }
    }

    fn best(&mut self, name: &SafeName) -> Result<At<Option<Best>>, AllocError>
        ensures folder { self.new.planned ≡ self.old.planned }
        ensures reads { ReadsAt (seen_by self.old) (BestOf name.now)
            (answered_at (λ b. option_map best_entry b) result) (seen_by self.new) }
        ensures planned { ReadsAfterPlan self.old (BestOf name.now)
            (answered_at (λ b. option_map best_entry b) result) self.new }
    {
        self.go_on();
        let answer = self.recorded.core().best(name);
        with_point(&self.recorded, &mut self.seen, answer)
    }

    fn bests(
        &mut self,
        after: Option<&SafeName>,
        limit: usize,
    ) -> Result<At<Items<Best>>, AllocError>
        ensures folder { self.new.planned ≡ self.old.planned }
        ensures reads { ReadsAt (seen_by self.old) (Bests (option_copied after.entry) limit)
            (answered_at (λ page. map best_entry page) result) (seen_by self.new) }
        ensures planned { ReadsAfterPlan self.old (Bests (option_copied after.entry) limit)
            (answered_at (λ page. map best_entry page) result) self.new }
    {
        self.go_on();
        let answer = self.recorded.core().bests(after, limit);
        with_point(&self.recorded, &mut self.seen, answer)
    }

    fn local(&mut self, name: &SafeName) -> Result<At<Option<Record>>, AllocError>
        ensures folder { self.new.planned ≡ self.old.planned }
        ensures reads { ReadsAt (seen_by self.old) (Local name.now) (answered_at (λ r. r) result)
            (seen_by self.new) }
        ensures planned { ReadsAfterPlan self.old (Local name.now) (answered_at (λ r. r) result)
            self.new }
    {
        self.go_on();
        let answer = self.recorded.core().local(name);
        with_point(&self.recorded, &mut self.seen, answer)
    }

    fn need(
        &mut self,
        after: Option<&SafeName>,
        limit: usize,
    ) -> Result<At<Items<SafeName>>, AllocError>
        ensures folder { self.new.planned ≡ self.old.planned }
        ensures reads { ReadsAt (seen_by self.old) (Need (option_copied after.entry) limit)
            (answered_at (λ names. names) result) (seen_by self.new) }
        ensures planned { ReadsAfterPlan self.old (Need (option_copied after.entry) limit)
            (answered_at (λ names. names) result) self.new }
    {
        self.go_on();
        let answer = self.recorded.core().need(after, limit);
        with_point(&self.recorded, &mut self.seen, answer)
    }

    fn local_since(&mut self, sequence: u64, limit: usize) -> Result<At<Items<Record>>, AllocError>
        ensures folder { self.new.planned ≡ self.old.planned }
        ensures reads { ReadsAt (seen_by self.old) (LocalSince sequence limit)
            (answered_at (λ page. page) result) (seen_by self.new) }
        ensures planned { ReadsAfterPlan self.old (LocalSince sequence limit)
            (answered_at (λ page. page) result) self.new }
    {
        self.go_on();
        let answer = self.recorded.core().local_since(sequence, limit);
        with_point(&self.recorded, &mut self.seen, answer)
    }

    fn find_block(&mut self, hash: &[u8; 32]) -> Result<At<Option<Place>>, AllocError>
        ensures folder { self.new.planned ≡ self.old.planned }
        ensures reads { ReadsAt (seen_by self.old) (FindBlock hash.now)
            (answered_at (λ place. place) result) (seen_by self.new) }
        ensures planned { ReadsAfterPlan self.old (FindBlock hash.now)
            (answered_at (λ place. place) result) self.new }
    {
        self.go_on();
        let answer = self.recorded.core().find_block(hash);
        with_point(&self.recorded, &mut self.seen, answer)
    }

    fn known(&mut self, device: DeviceId) -> At<u64>
        ensures folder { self.new.planned ≡ self.old.planned }
        ensures reads { ReadsAt (seen_by self.old) (Known device)
            (Some (answer_at (λ sequence. sequence) result)) (seen_by self.new) }
        ensures planned { ReadsAfterPlan self.old (Known device)
            (Some (answer_at (λ sequence. sequence) result)) self.new }
    {
        self.go_on();
        let value = self.recorded.core().known(device);
        self.seen = self.recorded.len();
        At {
            at: self.seen,
            value,
        }
    }

    fn counts(&mut self) -> At<Counts>
        ensures folder { self.new.planned ≡ self.old.planned }
        ensures reads { ReadsAt (seen_by self.old) CountAll
            (Some (answer_at (λ counts. counts) result)) (seen_by self.new) }
        ensures planned { ReadsAfterPlan self.old CountAll
            (Some (answer_at (λ counts. counts) result)) self.new }
    {
        self.go_on();
        let value = self.recorded.core().counts();
        self.seen = self.recorded.len();
        At {
            at: self.seen,
            value,
        }
    }
}

// What a call returns that got this answer of the folder: its point, which its caller has then seen, if it has an answer.
fn with_point<C: FolderCore, T, E>(
    recorded: &RecordedFolder<C>,
    seen: &mut u64,
    answer: Result<T, E>,
) -> Result<At<T>, E>
    ensures { WithPoint (length recorded.now.entries) answer result seen.old seen.new }
{
    let value = answer?;
    *seen = recorded.len();
    Ok(At { at: *seen, value })
}
