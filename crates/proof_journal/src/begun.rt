//! What the next start has of a folder, wherever its journal was cut.
ghost use Rattle.std.specs.Prelude.{◌≤◌, ◌++◌, [], ℕ, List, length, take};
ghost use Rattle.std.specs.List.{AllByRecursion};
ghost use Rattle.folder_core.specs.States.{FolderState};
ghost use Rattle.proof_journal.specs.Batches.{AreBatches, Batch, all_frames, at_end};
ghost use Rattle.proof_journal.specs.Own.{IsRecoveredBy, SameOwn};
ghost use Rattle.node_journal.specs.Cuts.{IsBeginning, up_to_whole};
ghost use Rattle.node_journal.specs.Format.{HasDigests, IsWritable, journal_bytes};
ghost use Rattle.node_journal.specs.Journals.{IsJournal};
ghost use Rattle.node_journal.specs.declared.header.JournalHeader.{JournalHeader as Header};
ghost use Rattle.node_journal.specs.declared.reading.Journal.{Journal as Read};
ghost use Rattle.node_saver.specs.declared.frames.SavedFolder.{SavedFolder};

use crate::recovered::saved_records_are_recovered;
use node_journal::laws::{a_cut_journal_keeps_what_was_synced, one_reading};

/// A folder was saved in batches, of which the first ones were synced. Wherever its frames are cut behind these, what a start recovers of those
/// that count has the own records and the last sequence that the folder had at the end of a batch: the last one that was synced, or a later one.
/// Where none was synced, it may also be what the folder was before the first one.
pub fn a_start_has_what_was_synced()
    // What a start has is the folder after some first `m` batches, with all that were synced: both are of one `m`.
    ensures { (f : SavedFolder) (s t : FolderState) (synced more : List Batch) (n : ℕ) →
        AreBatches f s [] (synced ++ more) → length (all_frames synced) ≤ n →
        IsRecoveredBy f.id (up_to_whole (take n (all_frames (synced ++ more)))) s t →
        (m : ℕ) × (length synced ≤ m) × SameOwn t (at_end s (take m (synced ++ more))) }
{
    saved_records_are_recovered();
}

/// The same of bytes: a journal that is cut anywhere behind what was synced is read as a beginning of its frames, and what is recovered of what its
/// device reads there is the folder as it was at the end of the last batch that was synced, or of a later one.
pub fn a_cut_journal_has_what_was_synced()
    // Cut behind what was synced, the bytes are read as a beginning of the frames, and this has all that were synced.
    ensures reads { (h : Header) (synced more : List Batch) (n : ℕ) →
        HasDigests h → AllByRecursion IsWritable (all_frames (synced ++ more)) →
        length (journal_bytes h (all_frames synced)) ≤ n →
        IsBeginning h (all_frames (synced ++ more)) (length (all_frames synced)) (take n (journal_bytes h (all_frames (synced ++ more)))) }
    // The two before it in one, from bytes to folder: a premise for each step from what was saved to what is recovered.
    ensures has { (f : SavedFolder) (s t : FolderState) (h : Header) (synced more : List Batch) (n : ℕ) (read : Read) →
        AreBatches f s [] (synced ++ more) → HasDigests h → AllByRecursion IsWritable (all_frames (synced ++ more)) →
        length (journal_bytes h (all_frames synced)) ≤ n →
        IsJournal h.device (take n (journal_bytes h (all_frames (synced ++ more)))) read → IsRecoveredBy f.id read.kept.frames s t →
        (m : ℕ) × (length synced ≤ m) × SameOwn t (at_end s (take m (synced ++ more))) }
{
    a_start_has_what_was_synced();
    a_cut_journal_keeps_what_was_synced();
    one_reading();
}
