//! What is recovered of the pages that were appended. A law is a function that does nothing, whose contract says of the definitions what
//! follows from them in plainer words.
ghost use Rattle.std.specs.Prelude.{◌++◌, List};
ghost use Rattle.folder_calls.specs.Shared.{CallerView, IsLegalView, now};
ghost use Rattle.folder_core.specs.States.{FolderState};
ghost use Rattle.index_sender.specs.Overlay.{KeepsUp};
ghost use Rattle.index_sender.specs.Pages.{Progress};
ghost use Rattle.index_sender.specs.declared.page.Page.{Page};
ghost use Rattle.proof_journal.specs.Appended.{AreUpdates, HavePages};
ghost use Rattle.proof_journal.specs.Own.{IsEarlierOwn, IsRecoveredBy, SameOwn};
ghost use Rattle.node_journal.specs.declared.frame.Frame.{Frame};
ghost use Rattle.node_saver.specs.Saving.{HasAll};
ghost use Rattle.node_saver.specs.declared.frames.SavedFolder.{SavedFolder};

use folder_calls::laws::local_records_go_on;

/// A folder was opened with the own records of a state, and all that it recorded since was appended, in pages that begin behind the state's
/// last sequence. What is recovered from the state and these frames has then just the folder's own records, and its last sequence: no record
/// that was told is lost, and no sequence is given again.
pub fn saved_records_are_recovered()
    // What is recovered is what the folder has. A premise for each step: opening, pages, frames, and their recovery.
    ensures { (f : SavedFolder) (s t : FolderState) (v : CallerView) (pages : List Page)
        (progress : Progress) (frames : List Frame) →
        IsLegalView v → SameOwn s v.opening → KeepsUp s.last pages progress v → HasAll (now v) progress.cursor →
        AreUpdates pages → HavePages f pages frames → IsRecoveredBy f.id frames s t →
        SameOwn t (now v) }
{
    local_records_go_on();
}

/// Where only the first of the frames are left, the own records of an earlier point are recovered, also while records are still to be appended:
/// what the folder has otherwise came under a sequence above all that is recovered.
pub fn cut_journals_have_an_earlier_point()
    // The same steps without the frames in `lost`, and maybe without pages still to come: then it is an earlier point.
    ensures { (f : SavedFolder) (s t : FolderState) (v : CallerView) (pages : List Page)
        (progress : Progress) (frames lost : List Frame) →
        IsLegalView v → SameOwn s v.opening → KeepsUp s.last pages progress v →
        AreUpdates pages → HavePages f pages (frames ++ lost) → IsRecoveredBy f.id frames s t →
        IsEarlierOwn t (now v) }
{
    local_records_go_on();
}
