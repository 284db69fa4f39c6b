//! What calls of a folder with a history return to their caller.
ghost use Rattle.std.specs.Prelude.{[], ◌∷◌, ◌++◌, ◌≡◌, ◌≤◌, ◌+◌, ℕ, length, List, Some, None, false, true};
ghost use Rattle.std.specs.FinMap.{len};
ghost use mathlib.Core.List.{IsPrefix};
ghost use Rattle.folder_core.specs.States.{FolderState, IsFolder};
ghost use Rattle.folder_core.specs.Reads.{Query, Reply, Reads};
ghost use Rattle.folder_core.specs.declared.answer.Answer.{Answer};
ghost use Rattle.folder_core.specs.declared.change.Change.{Change};
ghost use Rattle.folder_core.specs.Runs.{ends_pull};
ghost use Rattle.folder_core.specs.Steps.{MayChange, is_accepted, step};
ghost use Rattle.folder_calls.specs.declared.at.At.{At};
ghost use Rattle.folder_calls.specs.declared.entry.Entry.{Entry};
ghost use Rattle.folder_calls.specs.Histories.{IsLegal, state_after, shared_answer, own_entries};
ghost use Rattle.folder_calls.specs.Shared.{CallerView, IsLegalView, ReadsAt, ChangesAt, own_entry, seeing};

/// After a call of a folder with a history the caller's history goes on, of the same folder, limit and pass; it is one that the
/// folder had, and the number that is returned is its length. An accepted change is in it once, as the caller's only new entry
/// and after all that it had seen, and its answer is the shared answer there. Any other answer is the shared answer at the
/// history that the caller then knows, and the call adds no entry. A call that is out of memory changes nothing that the
/// caller knows.
pub fn calls_share_one_history()
    // All that an answered change does to its caller's view: it goes on, of the same folder, limit and pass, and legal.
    ensures grows { (old new : CallerView) (c : Change) (reply : At Answer) →
        ChangesAt old c (Some reply) new →
        IsPrefix old.seen new.seen
        × (new.opening ≡ old.opening) × (new.limit ≡ old.limit) × (new.pass ≡ old.pass)
        × (reply.at ≡ length new.seen) × IsLegalView new }
    // An accepted change is the caller's only new entry, the last, and its answer is that after the entries in `front`.
    ensures entered { (old new : CallerView) (c : Change) (reply : At Answer) →
        ChangesAt old c (Some reply) new → is_accepted reply.value ≡ true →
        (own_entries old.pass new.seen
        ≡ own_entries old.pass old.seen ++ own_entry old c reply.value ∷ [])
        × (front : List Entry) × (new.seen ≡ front ++ own_entry old c reply.value ∷ [])
        × IsPrefix old.seen front × (reply.value ≡ shared_answer old.limit old.opening front c) }
    // An entry that was accepted where the history `es` ends keeps it legal: a premise for each thing that makes it so.
    ensures legal { (passes limit : ℕ) (s : FolderState) (es : List Entry) (e : Entry) →
        IsLegal passes s es →
        1 ≤ e.pass → e.pass ≤ passes → MayChange s.me e.change → is_accepted e.answer ≡ true →
        e.answer ≡ shared_answer limit s es e.change → IsLegal passes s (es ++ e ∷ []) }
    // Another answer adds no entry of the caller, and is the shared one where what the caller has seen now ends.
    ensures not_accepted { (old new : CallerView) (c : Change) (reply : At Answer) →
        ChangesAt old c (Some reply) new → is_accepted reply.value ≡ false →
        (own_entries old.pass new.seen ≡ own_entries old.pass old.seen)
        × (reply.value ≡ shared_answer old.limit old.opening new.seen c) }
    ensures out_of_memory { (old new : CallerView) (c : Change) → ChangesAt old c None new →
        new ≡ old }
    // A read does to the view what `grows` says, adds no entry of the caller, and answers of the state where it ends.
    ensures read { (old new : CallerView) (q : Query) (reply : At (Reply q)) →
        ReadsAt old q (Some reply) new →
        IsPrefix old.seen new.seen
        × (new.opening ≡ old.opening) × (new.limit ≡ old.limit) × (new.pass ≡ old.pass)
        × (reply.at ≡ length new.seen) × IsLegalView new
        × (own_entries old.pass new.seen ≡ own_entries old.pass old.seen)
        × Reads (state_after old.opening new.seen) q reply.value }
    ensures no_read { (old new : CallerView) (q : Query) → ReadsAt old q None new → new ≡ old }
{}

/// A folder that was opened without open pulls shows its caller a history that it had, and every such history leads to a folder and
/// has room for what ends its open pulls: that is never answered with `HistoryFull`.
pub fn views_are_of_folders()
    ensures opened { (s : FolderState) (limit pass : ℕ) → IsFolder s → len s.pulls ≡ 0 → 1 ≤ pass →
        IsLegalView (record { opening = s; limit = limit; pass = pass; seen = [] }) }
    ensures legal { (v : CallerView) → IsLegalView v → (len v.opening.pulls ≡ 0)
        × (passes : ℕ) × (1 ≤ v.pass) × (v.pass ≤ passes) × IsLegal passes v.opening v.seen }
    ensures folder { (v : CallerView) → IsLegalView v → IsFolder (state_after v.opening v.seen) }
    // A change that ends a pull is answered as by the folder itself.
    ensures ends { (v : CallerView) (c : Change) → IsLegalView v → ends_pull c ≡ true →
        shared_answer v.limit v.opening v.seen c ≡ (step (state_after v.opening v.seen) c).0 }
{}

/// Wherever the history went on without the caller, to one that a folder had, the caller's change may be made there, or be
/// answered there without being made, and its reads may be answered there.
pub fn calls_may_be_answered_at_any_point()
    // A change may be made after any history `es` that fits the caller and accepts it. All the premises are on `es`.
    ensures made { (old : CallerView) (es : List Entry) (c : Change) (a : Answer) →
        IsPrefix old.seen es →
        own_entries old.pass es ≡ own_entries old.pass old.seen → IsLegalView (seeing old es) →
        MayChange old.opening.me c →
        a ≡ shared_answer old.limit old.opening es c → is_accepted a ≡ true →
        ChangesAt old c (Some (record { at = length es + 1; value = a }))
        (seeing old (es ++ own_entry old c a ∷ [])) }
    // The same where the answer isn't accepted: then it adds no entry, and the caller has seen `es`.
    ensures declined { (old : CallerView) (es : List Entry) (c : Change) (a : Answer) →
        IsPrefix old.seen es →
        own_entries old.pass es ≡ own_entries old.pass old.seen → IsLegalView (seeing old es) →
        a ≡ shared_answer old.limit old.opening es c → is_accepted a ≡ false →
        ChangesAt old c (Some (record { at = length es; value = a })) (seeing old es) }
    // The same for a read: any reply of the state after `es` may be the one that the caller gets.
    ensures read { (old : CallerView) (es : List Entry) (q : Query) (r : Reply q) →
        IsPrefix old.seen es →
        own_entries old.pass es ≡ own_entries old.pass old.seen → IsLegalView (seeing old es) →
        Reads (state_after old.opening es) q r →
        ReadsAt old q (Some (record { at = length es; value = r })) (seeing old es) }
{}
