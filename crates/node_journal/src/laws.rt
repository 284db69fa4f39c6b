//! What the definitions say, as contracts of functions that do nothing.
ghost use Rattle.std.specs.Prelude.{◌≡◌, ◌≤◌, ◌++◌, ◌∷◌, [], true, ℕ, List, length, take};
ghost use Rattle.std.specs.List.{AllByRecursion};
ghost use Rattle.node_journal.specs.declared.frame.Frame.{Frame};
ghost use Rattle.node_journal.specs.declared.header.JournalHeader.{JournalHeader as Header};
ghost use Rattle.node_journal.specs.declared.kept.KeptFrames.{KeptFrames as Kept};
ghost use Rattle.node_journal.specs.declared.reading.Journal.{Journal as Read};
ghost use Rattle.node_journal.specs.Cuts.{IsBeginning, up_to_whole};
ghost use Rattle.node_journal.specs.Journals.{IsJournal};
ghost use Rattle.sync_record.specs.Devices.{Identity};
ghost use Rattle.node_journal.specs.Format.{HasDigests, IsWritable, journal_bytes};
ghost use Rattle.node_journal.specs.Reading.{Reads};

/// Bytes are read in one way: they are one journal of a device at most.
pub fn one_reading()
    ensures journal { (me : Identity) (bytes : List ℕ) (i j : Read) → IsJournal me bytes i → IsJournal me bytes j → i ≡ j }
    ensures frames { (header : List ℕ) (offset : ℕ) (bytes : List ℕ) (j k : Kept) → Reads header offset bytes j → Reads header offset bytes k →
        j ≡ k }
{}

/// A journal that was written, and then cut anywhere behind what was synced, is read as a beginning of its frames that has all those
/// that were synced, up to its last whole one; and it counts as cut, not as broken. So it needs no premise on where it is cut.
pub fn a_cut_journal_keeps_what_was_synced()
    // One cut journal: its frames can be written, the cut is behind the synced ones, and it is read as a beginning.
    ensures { (h : Header) (synced more : List Frame) (n : ℕ) → HasDigests h → AllByRecursion IsWritable (synced ++ more) →
        length (journal_bytes h synced) ≤ n →
        IsBeginning h (synced ++ more) (length synced) (take n (journal_bytes h (synced ++ more))) }
{}

/// Up to a whole frame all count, and what counts of a journal still counts when it goes on.
pub fn a_whole_frame_keeps_what_is_before()
    ensures all { (fs : List Frame) (f : Frame) → f.is_whole ≡ true → up_to_whole (fs ++ f ∷ []) ≡ fs ++ f ∷ [] }
    ensures more { (fs gs : List Frame) → (rest : List Frame) × (up_to_whole (fs ++ gs) ≡ up_to_whole fs ++ rest) }
{}
