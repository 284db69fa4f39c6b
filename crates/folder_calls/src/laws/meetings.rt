//! What callers of one folder know after they met, and when the folder is closed.
ghost use Rattle.std.specs.Prelude.{[], ◌∷◌, ◌++◌, ◌≡◌, ◌≤◌, ◌<◌, ◌+◌, ◌⊎◌, ℕ, length, Contains, List};
ghost use Rattle.std.specs.FinMap.{len};
ghost use mathlib.Core.List.{IsPrefix};
ghost use Rattle.folder_core.specs.States.{FolderState, IsFolder};
ghost use Rattle.folder_calls.specs.declared.entry.Entry.{Entry};
ghost use Rattle.folder_calls.specs.Histories.{IsLegal, own_entries, state_after};
ghost use Rattle.folder_calls.specs.Shared.{Closes, IsLegalView, Meets, CallerView, seeing};

/// Of the histories that two callers who meet had seen, one begins the other, and both have then seen the longer one, in which
/// each has the entries that it made. If both were of one folder and legal, they still are. Any two whose histories are like
/// that may meet.
pub fn callers_who_meet_know_the_longer_history()
    // Either caller may have seen more, and the other then sees as much: the two cases of one choice.
    ensures longer { (one other one2 other2 : CallerView) → Meets one other one2 other2 →
        (IsPrefix one.seen other.seen × (one2 ≡ seeing one other.seen) × (other2 ≡ other))
        ⊎ (IsPrefix other.seen one.seen × (one2 ≡ one) × (other2 ≡ seeing other one.seen)) }
    ensures own { (one other one2 other2 : CallerView) → Meets one other one2 other2 →
        (own_entries one.pass one2.seen ≡ own_entries one.pass one.seen)
        × (own_entries other.pass other2.seen ≡ own_entries other.pass other.seen) }
    ensures legal { (one other one2 other2 : CallerView) → Meets one other one2 other2 →
        one.opening ≡ other.opening → one.limit ≡ other.limit → IsLegalView one →
        IsLegalView other →
        IsLegalView one2 × IsLegalView other2 }
    ensures may { (one other : CallerView) → IsPrefix one.seen other.seen →
        own_entries one.pass other.seen ≡ own_entries one.pass one.seen →
        Meets one other (seeing one other.seen) other
        × Meets other one other (seeing one other.seen) }
{}

/// A folder is closed in a state that follows from what each of the callers had seen, by entries that are not its own, and is a
/// folder with room for what ends its open pulls. A caller that has the only pass had seen all, and if
/// these are as many callers as passes, one of them had. A folder may be closed after
/// any legal history that goes on from what its callers had seen.
pub fn closing_keeps_what_callers_saw()
    // The end follows from what a caller had seen by some entries `rest`, of which none is its own.
    ensures follows { (opening : FolderState) (limit passes : ℕ) (callers : List CallerView)
        (end : FolderState) (v : CallerView) →
        Closes opening limit passes callers end → Contains callers v →
        (rest : List Entry) × (end ≡ state_after v.opening (v.seen ++ rest))
        × (own_entries v.pass rest ≡ []) }
    ensures folder { (opening : FolderState) (limit passes : ℕ) (callers : List CallerView)
        (end : FolderState) →
        Closes opening limit passes callers end → IsFolder opening → IsFolder end
        × (len end.pulls ≤ limit) }
    ensures only { (opening : FolderState) (limit : ℕ) (v : CallerView) (end : FolderState) →
        Closes opening limit 1 (v ∷ []) end → end ≡ state_after v.opening v.seen }
    ensures all { (opening : FolderState) (limit : ℕ) (callers : List CallerView)
        (end : FolderState) →
        Closes opening limit (length callers) callers end →
        (v : CallerView) × Contains callers v × (end ≡ state_after v.opening v.seen) }
    // A folder with one known caller may be closed after the history `es`: a premise for each thing that this takes.
    ensures may { (passes : ℕ) (v : CallerView) (es : List Entry) → IsPrefix v.seen es →
        own_entries v.pass es ≡ own_entries v.pass v.seen →
        IsLegal passes v.opening es → length es + len (state_after v.opening es).pulls ≤ v.limit →
        (1 < passes) ⊎ (es ≡ v.seen) →
        Closes v.opening v.limit passes (v ∷ []) (state_after v.opening es) }
{}
