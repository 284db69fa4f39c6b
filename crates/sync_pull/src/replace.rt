//! What is done to the store once a commit was entered.
ghost use Rattle.std.specs.Prelude.{◌≡◌, IfErr, IfOk, Some, length, option_copied, true};
ghost use Rattle.file_store.specs.Trees.{IsTree};
ghost use Rattle.sync_pull.specs.Copies.{IsRefused};
ghost use Rattle.sync_pull.specs.Faults.{StopsFor};
ghost use Rattle.sync_pull.specs.Putting.{AreTempsKept, IsInPlace, IsLeft, IsStanding, IsTempTaken, standing_of};
ghost use Rattle.sync_pull.specs.Replacing.{ChangesAlone, CopiedFails, IsCopyAlone, IsCopyKept, IsOfFile, IsOverBase, IsReplaced, IsSaved, IsUntouched, MayEmpty, ReplaceFails};
ghost use Rattle.file_store.specs.Sequences.{CallsOnly};
ghost use Rattle.sync_pull.specs.Moments.{ChecksFirst, IsOfPlace, copy_of};
ghost use Rattle.sync_pull.specs.Standing.{HasRoom};
ghost use Rattle.sync_pull.specs.declared.commit.Standing.TheVariants.{File};
ghost use Rattle.sync_pull.specs.declared.replace.CopyPlan.TheVariants.{Due};

use crate::answer::Stop;
use crate::{PullFailure, Standing, make_copy, move_back, put_in_place, standing_of, stands_as};
use file_store::{FileStore, Gate};
use sync_names::SafeName;
use sync_record::Record;

// Whether the file that is replaced is kept, and under which name; `None` if that is not safe.
#[derive(Debug, Drop)]
pub(crate) enum CopyPlan {
    NotDue,
    Due(Option<SafeName>),
}

// Replaces what is at the name by the target, if it is what the base says, and keeps it as a copy first if that is due.
//
// Fails with `LocalChanged` if something else is there, and then with `ConflictNameTaken` if a copy is due that has no safe
// name or at whose name something is; nothing has changed then. After another failure the copy was moved back, if it could be.
pub(crate) fn replace<S: FileStore, G: Gate>(
    store: &mut S,
    gate: &G,
    name: &SafeName,
    base: Option<&Record>,
    target: &Record,
    plan: &CopyPlan,
    buffer: &mut [u8],
) -> Result<(), Stop>
    requires room { HasRoom (option_copied base) (length buffer.old) }
    requires due { IsOfFile plan.now (option_copied base) }
    ensures replaced { S.keeps ≡ true → IfOk result (λ _. IsReplaced (option_copied base.entry)
        target.now plan.now name.now (S.tree store.old) (S.tree store.new)) }
    ensures untouched { S.keeps ≡ true → IfErr result
        (λ stop. IsUntouched stop (S.tree store.old) (S.tree store.new)) }
    ensures saved { S.keeps ≡ true → IfErr result
        (λ _. IsSaved plan.now (S.tree store.old) name.now (S.tree store.new)) }
    ensures reasons { IfErr result (StopsFor (ReplaceFails (S.keeps ≡ true) (option_copied base.entry)
        target.now plan.now name.now (S.tree store.old) (S.tree store.new) (S.fault_count store.old)
        (S.fault_count store.new))) }
    ensures left { S.keeps ≡ true → IfErr result (λ _.
        IsLeft (MayEmpty (IsRefused S.gives S.tree) ((S.tree store.old).names name.now) name.now plan.now (standing_of (option_copied base.entry))
        (standing_of (Some target.now)))
        (standing_of (Some target.now)) (S.tree store.old) name.now (S.tree store.new)) }
    ensures taken { S.keeps ≡ true → IfOk result (λ _.
        IsTempTaken (standing_of (Some target.now)) name.now (S.tree store.new)) }
    ensures temps { S.keeps ≡ true →
        AreTempsKept (standing_of (Some target.now)) (S.tree store.old) (S.tree store.new) }
    ensures alone { S.keeps ≡ true →
        ChangesAlone name.now plan.now (S.tree store.old) (S.tree store.new) }
    ensures copy_alone { S.keeps ≡ true →
        IsCopyAlone plan.now name.now (S.tree store.old) (S.tree store.new) }
    ensures over_base { S.keeps ≡ true → IsOverBase (option_copied base.entry) name.now
        (S.tree store.old) (S.tree store.new) }
    ensures checks { ChecksFirst S.gives name.now (option_copied base.entry) (IsOfPlace name.now (copy_of plan.now))
        (IfOk result (λ _. ⊥)) store.old store.new }
{
    if !stands_as(store, gate, name, base, buffer)? {
        return Err(Stop::Failed(PullFailure::LocalChanged));
    }
    let wanted = standing_of(Some(target));
    match plan {
        CopyPlan::NotDue => {
            put_in_place(store, name, standing_of(base), wanted)?;
            Ok(())
        }
        CopyPlan::Due(copy) => replace_copied(store, gate, name, copy, wanted),
    }
}

// Keeps the file at the name as a copy, and puts what is wanted in its place.
#[tactic(auto, using(crate::proofs::MomentLemmas::still))]
fn replace_copied<S: FileStore, G: Gate>(
    store: &mut S,
    gate: &G,
    name: &SafeName,
    copy: &Option<SafeName>,
    wanted: Standing,
) -> Result<(), Stop>
    ensures in_place { S.keeps ≡ true → IfOk result
        (λ _. IsInPlace wanted (S.tree store.old) name.now (S.tree store.new)) }
    ensures copied { S.keeps ≡ true → IsStanding File ((S.tree store.old).names name.now)
        → IfOk result (λ _. IsCopyKept (Due copy.now) (S.tree store.old) name.now (S.tree store.new)) }
    ensures untouched { S.keeps ≡ true → IfErr result
        (λ stop. IsUntouched stop (S.tree store.old) (S.tree store.new)) }
    ensures saved { S.keeps ≡ true → IsStanding File ((S.tree store.old).names name.now)
        → IfErr result (λ _. IsSaved (Due copy.now) (S.tree store.old) name.now (S.tree store.new)) }
    ensures reasons { IfErr result (StopsFor (CopiedFails
        ((S.keeps ≡ true) × IsTree (S.tree store.old) × IsStanding File ((S.tree store.old).names name.now))
        copy.now (S.tree store.old) (S.tree store.new) (S.fault_count store.old)
        (S.fault_count store.new))) }
    ensures left { S.keeps ≡ true → IsStanding File ((S.tree store.old).names name.now)
        → IfErr result (λ _. IsLeft
        (MayEmpty (IsRefused S.gives S.tree) ((S.tree store.old).names name.now) name.now (Due copy.now) File wanted) wanted
        (S.tree store.old) name.now (S.tree store.new)) }
    ensures taken { S.keeps ≡ true →
        IfOk result (λ _. IsTempTaken wanted name.now (S.tree store.new)) }
    ensures temps { S.keeps ≡ true → AreTempsKept wanted (S.tree store.old) (S.tree store.new) }
    ensures alone { S.keeps ≡ true →
        ChangesAlone name.now (Due copy.now) (S.tree store.old) (S.tree store.new) }
    ensures copy_alone { S.keeps ≡ true → IsStanding File ((S.tree store.old).names name.now)
        → IsCopyAlone (Due copy.now) name.now (S.tree store.old) (S.tree store.new) }
    ensures calls { CallsOnly S.gives (IsOfPlace name.now copy.now) store.old store.new }
{
    let Some(copy) = copy else {
        return Err(Stop::Failed(PullFailure::ConflictNameTaken));
    };
    if !make_copy(store, gate, name, Some(copy))? {
        return Err(Stop::Failed(PullFailure::ConflictNameTaken));
    }
    if let Err(refusal) = put_in_place(store, name, Standing::Nothing, wanted) {
        move_back(store, name, copy);
        return Err(Stop::from(refusal));
    }
    Ok(())
}
