//! The pull of a name.
ghost use Rattle.std.specs.Prelude.{◌≡◌, ◌≢◌, ⊤, IfOk, None, Some, length, true};
ghost use Rattle.file_store.specs.Calls.{HasBadParent};
ghost use Rattle.folder_core.specs.Steps.{is_copy_due};
ghost use Rattle.folder_calls.specs.Shared.{Sees};
ghost use Rattle.sync_record.specs.Devices.{Identity};
ghost use Rattle.sync_pull.specs.Copies.{IsRefused, TrimsCopies};
ghost use Rattle.sync_pull.specs.Ends.{Ends};
ghost use Rattle.sync_pull.specs.Faults.{CountsStop, FailsFor, IsFaultCounted};
ghost use Rattle.sync_pull.specs.Plans.{IsPlanned, copy_name};
ghost use Rattle.sync_pull.specs.Pulled.{ChangesAndTrims, Comes, IfDone, IfFile, IsCopyFree, IsDropped, IsEnteredFirst, IsNameKept, IsOldOrTarget, IsPullable, IsPulled, IsTakenOrDropped, IsThereOrCopied, PullFails, TrimsAfter};
ghost use Rattle.sync_pull.specs.Putting.{WritesTempAlone, standing_of};
ghost use Rattle.sync_pull.specs.Replacing.{IsOfFile};
ghost use Rattle.file_store.specs.Names.{Name};
ghost use Rattle.file_store.specs.Sequences.{CallsOnly, IsOfTemp};
ghost use Rattle.sync_pull.specs.Moments.{BeginsFirst, EntersFirst, IsOfPull};
ghost use Rattle.sync_pull.specs.Sources.{HasNoSource};
ghost use Rattle.sync_pull.specs.Standing.{HasRoom, IsReadyAs};

use crate::answer::Stop;
use crate::commit_pull::{Prepared, commit_pull, drop_temp};
use crate::ends::{answer_of, give_up};
use crate::fetch::fetch_file;
use crate::plan::plan_copy;
use crate::pulling::Pulling;
use crate::replace::CopyPlan;
use crate::{BlockSource, MaxConflicts, PullAnswer, PullRefusal, remove_old_copies, room_for};
use file_store::{FileStore, Gate, GatePlace};
use folder_calls::{At, BeginAnswer, FolderCalls, PullTicket};
use std::alloc::Global;
use std::thread::Threads;
use sync_blocks::laws::tiling_is_tested;
use sync_names::SafeName;
use sync_names::laws::conflict_names_are_of_copies;
use sync_record::laws::only_well_formed_files_have_blocks;
use sync_record::{Assembled, Kind, Record};
use sync_version::Moment;

// Puts a target together: a file from its blocks, in a new temporary file; there is nothing to put of a directory or a deletion.
#[tactic(auto, using(crate::proofs::MomentLemmas::still))]
fn assemble<S: FileStore, W: FolderCalls, B: BlockSource, R: Threads + Sync, G: Gate>(
    pulling: &Pulling<R, G>,
    store: &mut S,
    calls: &mut W,
    source: &mut B,
    name: &SafeName,
    target: &Record,
) -> Result<Assembled, Stop>
    requires others { (device : Identity) → device ≢ (W.view calls.old).opening.me → B.may_ask device }
    requires target { IsPullable target.now }
    ensures folder { W.folder calls.new ≡ W.folder calls.old }
    ensures sees { Sees (W.view calls.old) (W.view calls.new) }
    ensures target { IfOk result (λ assembled. assembled ≡ target.now) }
    ensures ready { S.keeps ≡ true → IfOk result
        (λ _. IsReadyAs target.now.deleted target.now name.now (S.tree store.new)) }
    ensures counted { CountsStop (HasNoSource B.gives name.now source.new (W.view calls.new) target.now
        (W.view calls.old)) (S.keeps ≡ true → HasBadParent (S.tree store.old) name.now) result
        (S.fault_count store.old) (S.fault_count store.new) }
    ensures still { IfFile (standing_of (Some target.now)) ⊤ (store.new ≡ store.old) }
    ensures temp { S.keeps ≡ true →
        WritesTempAlone name.now (S.tree store.old) (S.tree store.new) }
    ensures calls { CallsOnly S.gives (IsOfTemp name.now) store.old store.new }
{
    if target.is_deleted() {
        return Ok(Assembled::plain(target.copy()?));
    }
    match target.kind() {
        Kind::File => {
            tiling_is_tested();
            only_well_formed_files_have_blocks();
            let file = target.copy()?;
            fetch_file(pulling, store, calls, source, name, file)
        }
        Kind::Directory => Ok(Assembled::plain(target.copy()?)),
        // (no live target of a ticket is of another kind)
        Kind::Other => Ok(Assembled::plain(target.copy()?)),
    }
}

// All that a pull needs before its commit is entered.
#[tactic(auto, using(crate::proofs::MomentLemmas::still))]
fn prepare<S: FileStore, W: FolderCalls, B: BlockSource, R: Threads + Sync, G: Gate>(
    pulling: &Pulling<R, G>,
    store: &mut S,
    calls: &mut W,
    source: &mut B,
    name: &SafeName,
    ticket: &PullTicket,
) -> Result<(Prepared, CopyPlan), Stop>
    requires others { (device : Identity) → device ≢ (W.view calls.old).opening.me → B.may_ask device }
    requires target { IsPullable ticket.now.target }
    ensures folder { W.folder calls.new ≡ W.folder calls.old }
    ensures sees { Sees (W.view calls.old) (W.view calls.new) }
    ensures target { IfOk result (λ made. made.0.assembled ≡ ticket.now.target) }
    ensures room { IfOk result (λ made. HasRoom ticket.now.base (length made.0.room.items)) }
    ensures planned { IfOk result (λ made. IsPlanned pulling.now.max_conflicts pulling.now.moment name.now
        ticket.now.base ticket.now.target made.1) }
    ensures of_file { IfOk result (λ made. IsOfFile made.1 ticket.now.base) }
    ensures ready { S.keeps ≡ true → IfOk result (λ _.
        IsReadyAs ticket.now.target.deleted ticket.now.target name.now (S.tree store.new)) }
    ensures counted { CountsStop (HasNoSource B.gives name.now source.new (W.view calls.new)
        ticket.now.target (W.view calls.old)) (S.keeps ≡ true → HasBadParent (S.tree store.old) name.now) result
        (S.fault_count store.old) (S.fault_count store.new) }
    ensures still { IfFile (standing_of (Some ticket.now.target)) ⊤ (store.new ≡ store.old) }
    ensures temp { S.keeps ≡ true →
        WritesTempAlone name.now (S.tree store.old) (S.tree store.new) }
    ensures calls { CallsOnly S.gives (IsOfTemp name.now) store.old store.new }
{
    let plan = plan_copy(
        name,
        ticket.base(),
        ticket.target(),
        pulling.moment,
        pulling.max_conflicts,
    )?;
    let room = room_for(pulling.alloc, ticket.base())?;
    let assembled = assemble(pulling, store, calls, source, name, ticket.target())?;
    Ok((Prepared { assembled, room }, plan))
}

// Removes older conflict copies after a pull that is done and made one.
#[tactic(auto, using(crate::proofs::MomentLemmas::still))]
fn trim_copies<S: FileStore, G: Gate>(
    store: &mut S,
    gate: &G,
    name: &SafeName,
    plan: &CopyPlan,
    max_conflicts: MaxConflicts,
    answer: PullAnswer,
)
    ensures trims { TrimsAfter plan.now answer (λ copy. S.keeps ≡ true → TrimsCopies (IsRefused S.gives S.tree)
        max_conflicts name.now copy (S.tree store.old) (S.tree store.new)) (store.new ≡ store.old) }
    ensures calls { (q : Name) → CallsOnly S.gives (IsOfPull name.now q) store.old store.new }
{
    if let (CopyPlan::Due(Some(copy)), PullAnswer::Done(_)) = (plan, answer) {
        remove_old_copies(store, gate, name, copy, max_conflicts);
    }
}

// Ends a pull that was begun.
fn pull_begun<S: FileStore, W: FolderCalls, B: BlockSource, R: Threads + Sync, G: Gate>(
    pulling: &Pulling<R, G>,
    store: &mut S,
    calls: &mut W,
    source: &mut B,
    name: &SafeName,
    ticket: PullTicket,
) -> PullAnswer
    requires others { (device : Identity) → device ≢ (W.view calls.old).opening.me → B.may_ask device }
    requires target { IsPullable ticket.target }
    ensures folder { W.folder calls.new ≡ W.folder calls.old }
    ensures ends { Ends (W.view calls.old) ticket result (W.view calls.new) }
    ensures done { S.keeps ≡ true → IfDone result (IsPulled pulling.now.max_conflicts pulling.now.moment
        name.now ticket (S.tree store.old) (S.tree store.new)) }
    ensures kept { S.keeps ≡ true →
        IsNameKept result name.now (S.tree store.old) (S.tree store.new) }
    ensures saved { S.keeps ≡ true → is_copy_due pulling.now.max_conflicts ticket.base ticket.target ≡ true
        → IsThereOrCopied name.now (copy_name name.now pulling.now.moment ticket.base) (S.tree store.old)
        (S.tree store.new) }
    ensures reasons { FailsFor (PullFails pulling.now.max_conflicts pulling.now.moment name.now (S.keeps ≡ true)
        (IsFaultCounted (S.fault_count store.old) (S.fault_count store.new))
        (HasNoSource B.gives name.now source.new (W.view calls.new) ticket.target (W.view calls.old)) ticket
        (S.tree store.old) (S.tree store.new)) result }
    ensures left { S.keeps ≡ true → IsOldOrTarget pulling.now.max_conflicts pulling.now.moment name.now
        (IsRefused S.gives S.tree) ticket (S.tree store.old) (S.tree store.new) }
    ensures temporary { IfFile (standing_of (Some ticket.target))
        (IsTakenOrDropped result (S.keeps ≡ true → (S.tree store.new).temps name.now ≡ None)
        (IsDropped S.gives (S.keeps ≡ true) name.now (S.tree store.new).temps store.new))
        (S.keeps ≡ true → (S.tree store.new).temps ≡ (S.tree store.old).temps) }
    ensures alone { S.keeps ≡ true → ChangesAndTrims pulling.now.max_conflicts pulling.now.moment name.now
        (IsRefused S.gives S.tree) ticket result (S.tree store.old) (S.tree store.new) }
    ensures entered { S.keeps ≡ true → IsEnteredFirst name.now ticket (W.view calls.old)
        (S.tree store.old) (W.view calls.new) (S.tree store.new) }
    ensures free { S.keeps ≡ true → IsCopyFree (is_copy_due pulling.now.max_conflicts ticket.base ticket.target)
        name.now (copy_name name.now pulling.now.moment ticket.base) (S.tree store.old) (S.tree store.new) }
    ensures checks { EntersFirst S.gives (λ s v. (w : W) × G.shown pulling.now.gate.now S W s w × (W.view w ≡ v))
        name.now ticket (IsOfPull name.now (copy_name name.now pulling.now.moment ticket.base)) (IfDone result ⊥)
        (W.view calls.old) store.old store.new }
{
    conflict_names_are_of_copies();
    match prepare(pulling, store, calls, source, name, &ticket) {
        Ok((ready, plan)) => {
            let answer = commit_pull(store, calls, pulling.gate, name, ticket, ready, &plan);
            trim_copies(
                store,
                pulling.gate,
                name,
                &plan,
                pulling.max_conflicts,
                answer,
            );
            answer
        }
        Err(stop) => {
            drop_temp(store, name, ticket.target());
            give_up(calls, pulling.gate, ticket, answer_of(stop))
        }
    }
}

/// Pulls the best of a name, if it is needed: its file is put together from blocks beside what is at the name, and takes the place of
/// exactly what the pull began on.
///
/// Each block comes from a local place that has its digest, or from a device that has the best, in rising identity; `source` asks
/// the devices, and never this one. Before the commit is entered only the temporary file of the name is written. Then what is at the
/// name is compared with the local record by its content, and is kept under the name of a conflict copy if one is due. What could
/// not be finished is given up or aborted, and the temporary file dropped; after that no pull that this call began is open, unless the
/// answer is `Refused(Stray)`.
///
/// After a pull that is done and made a conflict copy, older ones are removed, the least by their bytes first, until with the new one at
/// most `max_conflicts` are left; where the store refuses that, the answer is `Done` all the same.
///
/// The gate is passed before each read of the store, each digest and each call of the folder. After the commit was entered only calls
/// of the store may allocate. A file whose blocks are at hand is read once and written once, and the file that is replaced is
/// read once; a listing of the store is read where older copies may have to be removed. O(n) time for n bytes, which are hashed in a few
/// threads for each processor, and memory for 64 MiB of the new file, or for its greatest block, and for the greatest block of the old one.
pub fn pull_name<S: FileStore, W: FolderCalls, B: BlockSource, G: Gate>(
    rt: &(impl Threads + Sync),
    alloc: Global,
    store: &mut S,
    calls: &mut W,
    source: &mut B,
    gate: &G,
    name: &SafeName,
    moment: Moment,
    max_conflicts: MaxConflicts,
) -> PullAnswer
    requires { (device : Identity) → device ≢ (W.view calls.old).opening.me → B.may_ask device }
    ensures folder { W.folder calls.new ≡ W.folder calls.old }
    // One relation over the whole pull. What the store and the source said, and when they failed, is handed in.
    ensures comes { Comes max_conflicts moment name.now (S.keeps ≡ true)
        (IsFaultCounted (S.fault_count store.old) (S.fault_count store.new))
        (HasNoSource B.gives name.now source.new (W.view calls.new))
        (IsDropped S.gives (S.keeps ≡ true) name.now (S.tree store.new).temps store.new)
        (IsRefused S.gives S.tree) result (W.view calls.old) (S.tree store.old) (W.view calls.new)
        (S.tree store.new) }
    ensures checks { BeginsFirst S.gives (λ s v. (w : W) × G.shown gate.now S W s w × (W.view w ≡ v)) moment name.now
        result (W.view calls.old) store.old (W.view calls.new) store.new }
{
    gate.at(GatePlace::FolderCall);
    let begun = match calls.begin_pull(name) {
        Ok(At { at: _, value }) => value,
        Err(_) => return PullAnswer::Refused(PullRefusal::OutOfMemory),
    };
    match begun {
        Ok(BeginAnswer::Begun(ticket)) => {
            let pulling = Pulling {
                rt,
                alloc,
                gate,
                moment,
                max_conflicts,
            };
            pull_begun(&pulling, store, calls, source, name, ticket)
        }
        Ok(BeginAnswer::NotNeeded) => PullAnswer::NotNeeded,
        Ok(BeginAnswer::Busy) => PullAnswer::Busy,
        Ok(BeginAnswer::Unsupported) => PullAnswer::Unsupported,
        Err(_) => PullAnswer::Refused(PullRefusal::HistoryFull),
    }
}
