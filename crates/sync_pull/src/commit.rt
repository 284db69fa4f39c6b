//! A target that is put in the place of what its base says.
ghost use Rattle.std.specs.Prelude.{◌≡◌, IfErr, IfOk, None, option_copied, true};
ghost use Rattle.file_store.specs.Refusals.{count_after};
ghost use Rattle.file_store.specs.Sequences.{CallsOnly};
ghost use Rattle.sync_pull.specs.Moments.{IsOfPlace};
ghost use Rattle.sync_pull.specs.Putting.{AreTempsKept, AreUnlike, ChangesNameAlone, ClearRefused, IsCleared, IsInPlace, IsLeft, IsStanding, IsTempTaken, PutRefused, standing_of};

use file_store::{FileStore, StoreRefusal};
use sync_names::SafeName;
use sync_record::{Kind, Record};

/// What is at a name, or is to be there.
#[derive(Clone, Copy, Debug, PartialEq, Eq)]
pub enum Standing {
    Nothing,
    File,
    Directory,
}

/// What is at a name by its record: nothing without a record, by a deleted one, and by one of another kind. O(1).
pub fn standing_of(record: Option<&Record>) -> Standing
    ensures { result ≡ standing_of (option_copied «record».entry) }
{
    let Some(record) = record else {
        return Standing::Nothing;
    };
    if record.is_deleted() {
        return Standing::Nothing;
    }
    match record.kind() {
        Kind::File => Standing::File,
        Kind::Directory => Standing::Directory,
        Kind::Other => Standing::Nothing,
    }
}

/// Puts what is wanted in the place of what is there: a file by its temporary file, which takes the place of another file at
/// once, a directory, or nothing. What is of another kind is removed first, and is not put back if the rest fails.
///
/// Fails as the store does: with `NotEmpty` if a directory that is there has entries, with `BadParent` if a parent of the
/// name is there and is not a directory. Allocates only in calls of the store. At most two calls.
#[tactic(auto, using(crate::proofs::MomentLemmas::still, crate::proofs::MomentLemmas::once, crate::proofs::MomentLemmas::then_once))]
pub fn put_in_place<S: FileStore>(
    store: &mut S,
    name: &SafeName,
    there: Standing,
    wanted: Standing,
) -> Result<(), StoreRefusal>
    ensures in_place { S.keeps ≡ true → IsStanding there ((S.tree store.old).names name.now)
        → IfOk result (λ _. IsInPlace wanted (S.tree store.old) name.now (S.tree store.new)) }
    ensures taken { S.keeps ≡ true → IfOk result (λ _. IsTempTaken wanted name.now (S.tree store.new)) }
    ensures left { S.keeps ≡ true → IfErr result (λ _.
        IsLeft (AreUnlike there wanted) wanted (S.tree store.old) name.now (S.tree store.new)) }
    ensures refusals { S.keeps ≡ true → IfErr result
        (PutRefused ((s : S) × S.fails s) there wanted (S.tree store.old) name.now) }
    ensures counted { S.fault_count store.new ≡ count_after result (S.fault_count store.old) }
    ensures temps { S.keeps ≡ true → AreTempsKept wanted (S.tree store.old) (S.tree store.new) }
    ensures alone { S.keeps ≡ true → ChangesNameAlone name.now (S.tree store.old) (S.tree store.new) }
    ensures calls { CallsOnly S.gives (IsOfPlace name.now None) store.old store.new }
{
    make_way(store, name, there, wanted)?;
    match wanted {
        Standing::File => store.commit_temp(name),
        Standing::Directory if there != Standing::Directory => store.make_dir(name),
        _ => Ok(()),
    }
}

// Removes what is there if it is of another kind than what is wanted.
#[tactic(auto, using(crate::proofs::MomentLemmas::still, crate::proofs::MomentLemmas::once, crate::proofs::MomentLemmas::then_once))]
fn make_way<S: FileStore>(
    store: &mut S,
    name: &SafeName,
    there: Standing,
    wanted: Standing,
) -> Result<(), StoreRefusal>
    ensures gone { S.keeps ≡ true → IfOk result (λ _.
        IsCleared there wanted (S.tree store.old) name.now (S.tree store.new)) }
    ensures left { S.keeps ≡ true → IfErr result (λ _.
        IsLeft (AreUnlike there wanted) wanted (S.tree store.old) name.now (S.tree store.new)) }
    ensures refusals { S.keeps ≡ true → IfErr result
        (ClearRefused ((s : S) × S.fails s) there wanted (S.tree store.old) name.now) }
    ensures counted { S.fault_count store.new ≡ count_after result (S.fault_count store.old) }
    ensures temps { S.keeps ≡ true → (S.tree store.new).temps ≡ (S.tree store.old).temps }
    ensures alone { S.keeps ≡ true → ChangesNameAlone name.now (S.tree store.old) (S.tree store.new) }
    ensures calls { CallsOnly S.gives (IsOfPlace name.now None) store.old store.new }
{
    match (there, wanted) {
        (Standing::File, Standing::Directory) => store.remove(name),
        (Standing::File, Standing::Nothing) => store.remove(name),
        (Standing::Directory, Standing::File) => store.remove_dir(name),
        (Standing::Directory, Standing::Nothing) => store.remove_dir(name),
        _ => Ok(()),
    }
}
