//! The conflict copy of a file that is to be replaced.
ghost use Rattle.std.specs.Prelude.{◌≡◌, ◌⊎◌, IfErr, IfOk, MatchBool, Some, option_copied, true};
ghost use Rattle.file_store.specs.Asked.{Rename};
ghost use Rattle.file_store.specs.Calls.{renamed};
ghost use Rattle.file_store.specs.Refusals.{count_after};
ghost use Rattle.file_store.specs.Sequences.{CallsOnly};
ghost use Rattle.sync_pull.specs.Moments.{IsOfPlace};
ghost use Rattle.file_store.specs.declared.refusal.StoreRefusal.TheVariants.{StoreFault};
ghost use Rattle.sync_pull.specs.Copies.{IsCopyRefused, IsRefused};
ghost use Rattle.sync_pull.specs.Faults.{CountsFaults};
ghost use Rattle.sync_pull.specs.Putting.{CopyRefused, IsCopied, IsTaken};

use file_store::{FileStore, Gate, GatePlace, Stat, StoreRefusal};
use sync_names::SafeName;

/// Moves the file at a name to the name of its copy, unless there is no such name or something is at it. Returns whether it
/// was moved. After a fault it may have been moved.
///
/// Allocates only in calls of the store. Two calls.
#[tactic(auto, using(crate::proofs::MomentLemmas::still))]
pub fn make_copy<S: FileStore, G: Gate>(
    store: &mut S,
    gate: &G,
    name: &SafeName,
    copy: Option<&SafeName>,
) -> Result<bool, StoreRefusal>
    // Both results in one: the file was moved, or it wasn't, as the copy has no name or something is at it.
    ensures moved { S.keeps ≡ true → IfOk result (λ is_moved. MatchBool is_moved
        (IsCopied (option_copied copy.entry) (S.tree store.old) name.now (S.tree store.new))
        (IsTaken (option_copied copy.entry) (S.tree store.old) × (S.tree store.new ≡ S.tree store.old))) }
    ensures failed { S.keeps ≡ true → IfErr result (λ refusal. (S.tree store.new ≡ S.tree store.old)
        ⊎ ((refusal ≡ StoreFault)
        × IsCopied (option_copied copy.entry) (S.tree store.old) name.now (S.tree store.new))) }
    ensures asked { S.keeps ≡ true → IfErr result (λ _. (S.tree store.new ≡ S.tree store.old)
        ⊎ IsCopyRefused (IsRefused S.gives S.tree) (S.tree store.old) name.now (option_copied copy.entry)) }
    ensures refusals { S.keeps ≡ true → IfErr result (CopyRefused ((s : S) × S.fails s)
        (S.tree store.old) name.now (option_copied copy.entry)) }
    ensures counted { S.fault_count store.new ≡ count_after result (S.fault_count store.old) }
    ensures calls { CallsOnly S.gives (IsOfPlace name.now (option_copied copy.entry)) store.old store.new }
{
    let Some(copy) = copy else {
        return Ok(false);
    };
    gate.at(GatePlace::StoreRead);
    if store.stat(copy)? != Stat::Missing {
        return Ok(false);
    }
    store.rename(name, copy)?;
    Ok(true)
}

/// Tries to move a copy back to its name, and does nothing if it cannot be.
pub fn move_back<S: FileStore>(store: &mut S, name: &SafeName, copy: &SafeName)
    ensures moved { S.keeps ≡ true → (S.tree store.new ≡ S.tree store.old)
        ⊎ (S.tree store.new ≡ renamed (S.tree store.old) copy.now name.now) }
    ensures refused { S.keeps ≡ true → (S.tree store.new ≡ renamed (S.tree store.old) copy.now name.now)
        ⊎ IsRefused S.gives S.tree (S.tree store.old) (Rename copy.now name.now) }
    ensures counted { CountsFaults (S.fault_count store.old) (S.fault_count store.new) }
    ensures calls { CallsOnly S.gives (IsOfPlace name.now (Some copy.now)) store.old store.new }
{
    let _ = store.rename(copy, name);
}
