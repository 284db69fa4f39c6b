//! What whoever calls a folder with a history may rely on, said of the words in which the clauses of its calls are written.
ghost use Rattle.std.specs.Prelude.{[], ◌∷◌, ◌++◌, ◌≡◌, ◌⊎◌, ◌+◌, ℕ, List, Option, Some, IsTrue};
ghost use Rattle.std.specs.FinMap.{get};
ghost use mathlib.Core.List.{IsPrefix};
ghost use Rattle.sync_version.specs.Versions.{Dominates};
ghost use Rattle.sync_record.specs.Devices.{Identity};
ghost use Rattle.sync_record.specs.Records.{FileRecord, Name};
ghost use Rattle.sync_record.specs.Validity.{is_valid};
ghost use Rattle.folder_core.specs.Announced.{key};
ghost use Rattle.folder_core.specs.Reads.{Best, BestEntry};
ghost use Rattle.folder_core.specs.declared.answer.Answer.{Answer};
ghost use Rattle.folder_core.specs.declared.answer.Answer.TheVariants.{Done, Recorded};
ghost use Rattle.folder_core.specs.declared.change.Change.{Change};
ghost use Rattle.folder_core.specs.declared.change.Change.TheVariants.{Finish};
ghost use Rattle.folder_core.specs.declared.pull_info.PullInfo.{PullInfo};
ghost use Rattle.folder_calls.specs.declared.at.At.{At};
ghost use Rattle.folder_calls.specs.declared.entry.Entry.{Entry};
ghost use Rattle.folder_calls.specs.Histories.{EndsPull, state_after};
ghost use Rattle.folder_calls.specs.Shared.{Meets, ReadsAt, ChangesAt, CallerView, own_entry};

/// No valid version that a device announces dominates the best that a read returns, at the point of the history that the caller then
/// knows.
pub fn no_announced_version_dominates_the_best()
    // No version of a valid record dominates the best's. One clause, as both are of one point: where the view ends.
    ensures { (old new : CallerView) (n : Name) (reply : At (Option BestEntry)) (found : BestEntry)
        (d : Identity)
        (r : FileRecord) →
        ReadsAt old (Best n) (Some reply) new → reply.value ≡ Some found →
        get (state_after old.opening new.seen).announced (key n d) ≡ Some r → IsTrue (is_valid r) →
        ¬ (Dominates r.version found.0.version) }
{}

/// A scan that is recorded and a pull that is finished take the sequence after the last one before them, and it is the last one then.
pub fn each_sequence_is_the_next()
    // The sequence `k` is one above the last one in `front`, just before the entry, and is the last one after it.
    ensures { (old new : CallerView) (c : Change) (reply : At Answer) (k : ℕ) →
        ChangesAt old c (Some reply) new →
        (reply.value ≡ Recorded k) ⊎ (reply.value ≡ Done k) →
        (front : List Entry) × IsPrefix old.seen front
        × (new.seen ≡ front ++ own_entry old c reply.value ∷ [])
        × (k ≡ (state_after old.opening front).last + 1)
        × ((state_after old.opening new.seen).last ≡ k) }
{}

/// A finish ends a pull over the local version on which it began, which is the local one still, with its target, of each of whose
/// blocks some bytes have the size and the digest.
pub fn finishes_end_pulls()
    // A finish that is done ends a pull of `front`, the history just before its entry: both are said of this `front`.
    ensures { (old new : CallerView) (commit : PullInfo) (assembled : FileRecord)
        (reply : At Answer)
        (k : ℕ) →
        ChangesAt old (Finish commit assembled) (Some reply) new → reply.value ≡ Done k →
        (front : List Entry) × IsPrefix old.seen front
        × (new.seen ≡ front ++ own_entry old (Finish commit assembled) reply.value ∷ [])
        × EndsPull old.opening front commit assembled }
{}

/// Two callers who met know one history, which goes on from what each of them had seen.
pub fn callers_who_met_know_one_history()
    ensures { (one other one2 other2 : CallerView) → Meets one other one2 other2 →
        (one2.seen ≡ other2.seen) × IsPrefix one.seen one2.seen × IsPrefix other.seen one2.seen }
{}
