//! The commit of a pull.
ghost use Rattle.std.specs.Prelude.{◌≡◌, ⊤, None, Some, length, true};
ghost use Rattle.file_store.specs.Calls.{ChangesTemp};
ghost use Rattle.sync_pull.specs.Copies.{IsRefused};
ghost use Rattle.sync_pull.specs.Ends.{Ends, EndsCommit};
ghost use Rattle.sync_pull.specs.Faults.{CountsFaults, FailsFor};
ghost use Rattle.sync_pull.specs.Pulled.{IfDone, IfFile, IsDropped, IsEnteredFirst, IsNameKept, IsTakenOrDropped};
ghost use Rattle.sync_pull.specs.Putting.{IsLeft, standing_of};
ghost use Rattle.sync_pull.specs.Replacing.{ChangesAlone, IsCopyAlone, IsOfFile, IsOverBase, IsReplaced, IsSaved, MayEmpty, ReplaceFails};
ghost use Rattle.file_store.specs.Sequences.{CallsOnly, IsOfTemp};
ghost use Rattle.sync_pull.specs.Moments.{ChecksFirst, EntersFirst, IsOfPlace, copy_of};
ghost use Rattle.sync_pull.specs.Standing.{HasRoom};

use crate::ends::{abort, answer_of, finish, give_up, refused};
use crate::replace::{CopyPlan, replace};
use crate::{PullAnswer, PullRefusal, Standing, standing_of};
use file_store::{FileStore, Gate, GatePlace};
use folder_calls::laws::tickets_are_those_that_were_asked_for;
use folder_calls::{At, EnterAllocError, FolderCalls, PullCommit, PullTicket};
use sync_names::SafeName;
use sync_record::{Assembled, Record};

// What a pull has got before its commit is entered: the target, whose bytes are in the temporary file if it is a file, and the
// buffer for the check of the file that is replaced.
#[derive(Drop)]
pub(crate) struct Prepared {
    pub(crate) assembled: Assembled,
    pub(crate) room: Vec<u8>,
}

// Drops the temporary file of a target, if it is a file. What cannot be dropped stays.
pub(crate) fn drop_temp<S: FileStore>(store: &mut S, name: &SafeName, target: &Record)
    ensures dropped { IfFile (standing_of (Some target.now))
        (IsDropped S.gives (S.keeps ≡ true) name.now (S.tree store.new).temps store.new)
        (store.new ≡ store.old) }
    ensures counted { CountsFaults (S.fault_count store.old) (S.fault_count store.new) }
    ensures temp { S.keeps ≡ true → ChangesTemp (S.tree store.old) name.now (S.tree store.new) }
    ensures calls { CallsOnly S.gives (IsOfTemp name.now) store.old store.new }
    ensures drops { CallsOnly S.gives (IsOfPlace name.now None) store.old store.new }
{
    if standing_of(Some(target)) == Standing::File {
        let _ = store.drop_temp(name);
    }
}

// Enters the commit of a pull, replaces what is at the name, and finishes the pull. Otherwise the temporary file is dropped, and
// the pull is given up, or aborted if its commit was entered.
pub(crate) fn commit_pull<S: FileStore, W: FolderCalls, G: Gate>(
    store: &mut S,
    calls: &mut W,
    gate: &G,
    name: &SafeName,
    ticket: PullTicket,
    ready: Prepared,
    plan: &CopyPlan,
) -> PullAnswer
    requires assembled { ready.assembled ≡ ticket.target }
    requires room { HasRoom ticket.base (length ready.room.items) }
    requires of_file { IsOfFile plan.now ticket.base }
    ensures folder { W.folder calls.new ≡ W.folder calls.old }
    ensures ends { Ends (W.view calls.old) ticket result (W.view calls.new) }
    ensures done { S.keeps ≡ true → IfDone result (IsReplaced ticket.base ticket.target plan.now
        name.now (S.tree store.old) (S.tree store.new)) }
    ensures kept { S.keeps ≡ true →
        IsNameKept result name.now (S.tree store.old) (S.tree store.new) }
    ensures saved { S.keeps ≡ true →
        IsSaved plan.now (S.tree store.old) name.now (S.tree store.new) }
    ensures reasons { FailsFor (ReplaceFails (S.keeps ≡ true) ticket.base ticket.target plan.now
        name.now (S.tree store.old) (S.tree store.new) (S.fault_count store.old)
        (S.fault_count store.new)) result }
    ensures left { S.keeps ≡ true → IsLeft
        (MayEmpty (IsRefused S.gives S.tree) ((S.tree store.old).names name.now) name.now plan.now (standing_of ticket.base)
        (standing_of (Some ticket.target)))
        (standing_of (Some ticket.target)) (S.tree store.old) name.now (S.tree store.new) }
    ensures temporary { IfFile (standing_of (Some ticket.target))
        (IsTakenOrDropped result (S.keeps ≡ true → (S.tree store.new).temps name.now ≡ None)
        (IsDropped S.gives (S.keeps ≡ true) name.now (S.tree store.new).temps store.new))
        (S.keeps ≡ true → (S.tree store.new).temps ≡ (S.tree store.old).temps) }
    ensures alone { S.keeps ≡ true →
        ChangesAlone name.now plan.now (S.tree store.old) (S.tree store.new) }
    ensures copy_alone { S.keeps ≡ true →
        IsCopyAlone plan.now name.now (S.tree store.old) (S.tree store.new) }
    ensures entered { S.keeps ≡ true → IsEnteredFirst name.now ticket (W.view calls.old)
        (S.tree store.old) (W.view calls.new) (S.tree store.new) }
    ensures checks { EntersFirst S.gives (λ s v. (w : W) × G.shown gate.now S W s w × (W.view w ≡ v)) name.now ticket
        (IsOfPlace name.now (copy_of plan.now)) (IfDone result ⊥) (W.view calls.old) store.old store.new }
{
    tickets_are_those_that_were_asked_for();
    gate.at(GatePlace::FolderCall);
    let entered = match calls.enter_commit(ticket) {
        Ok(At { at: _, value }) => value,
        Err(EnterAllocError(ticket)) => {
            drop_temp(store, name, ready.assembled.target());
            let answer = PullAnswer::Refused(PullRefusal::OutOfMemory);
            return give_up(calls, gate, ticket, answer);
        }
    };
    match entered {
        Ok(commit) => {
            gate.show(store, calls);
            replace_and_finish(store, calls, gate, name, commit, ready, plan)
        }
        Err(refusal) => {
            drop_temp(store, name, ready.assembled.target());
            refused(calls, gate, refusal)
        }
    }
}

// Replaces what is at the name and finishes the pull, whose commit was entered; otherwise drops the temporary file and aborts it.
fn replace_and_finish<S: FileStore, W: FolderCalls, G: Gate>(
    store: &mut S,
    calls: &mut W,
    gate: &G,
    name: &SafeName,
    commit: PullCommit,
    ready: Prepared,
    plan: &CopyPlan,
) -> PullAnswer
    requires assembled { ready.assembled ≡ commit.target }
    requires room { HasRoom commit.base (length ready.room.items) }
    requires of_file { IsOfFile plan.now commit.base }
    ensures folder { W.folder calls.new ≡ W.folder calls.old }
    ensures ends { EndsCommit (W.view calls.old) commit result (W.view calls.new) }
    ensures done { S.keeps ≡ true → IfDone result (IsReplaced commit.base commit.target plan.now
        name.now (S.tree store.old) (S.tree store.new)) }
    ensures kept { S.keeps ≡ true →
        IsNameKept result name.now (S.tree store.old) (S.tree store.new) }
    ensures saved { S.keeps ≡ true →
        IsSaved plan.now (S.tree store.old) name.now (S.tree store.new) }
    ensures reasons { FailsFor (ReplaceFails (S.keeps ≡ true) commit.base commit.target plan.now
        name.now (S.tree store.old) (S.tree store.new) (S.fault_count store.old)
        (S.fault_count store.new)) result }
    ensures left { S.keeps ≡ true → IsLeft
        (MayEmpty (IsRefused S.gives S.tree) ((S.tree store.old).names name.now) name.now plan.now (standing_of commit.base)
        (standing_of (Some commit.target)))
        (standing_of (Some commit.target)) (S.tree store.old) name.now (S.tree store.new) }
    ensures temporary { IfFile (standing_of (Some commit.target))
        (IsTakenOrDropped result (S.keeps ≡ true → (S.tree store.new).temps name.now ≡ None)
        (IsDropped S.gives (S.keeps ≡ true) name.now (S.tree store.new).temps store.new))
        (S.keeps ≡ true → (S.tree store.new).temps ≡ (S.tree store.old).temps) }
    ensures alone { S.keeps ≡ true →
        ChangesAlone name.now plan.now (S.tree store.old) (S.tree store.new) }
    ensures copy_alone { S.keeps ≡ true →
        IsCopyAlone plan.now name.now (S.tree store.old) (S.tree store.new) }
    ensures over_base { S.keeps ≡ true →
        IsOverBase commit.base name.now (S.tree store.old) (S.tree store.new) }
    ensures checks { ChecksFirst S.gives name.now commit.base (IsOfPlace name.now (copy_of plan.now))
        (IfDone result ⊥) store.old store.new }
{
    let Prepared {
        assembled,
        mut room,
    } = ready;
    let base = commit.base();
    match replace(
        store,
        gate,
        name,
        base,
        commit.target(),
        plan,
        room.as_mut_slice(),
    ) {
        Ok(()) => finish(calls, gate, commit, assembled),
        Err(stop) => {
            drop_temp(store, name, commit.target());
            abort(calls, gate, commit, answer_of(stop))
        }
    }
}
