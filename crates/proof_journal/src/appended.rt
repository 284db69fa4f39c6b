//! What the saver's pages and frames are.
ghost use Rattle.std.specs.Prelude.{◌≡◌, ◌≢◌, ◌++◌, ◌∷◌, [], ℕ, List, false};
ghost use Rattle.std.specs.List.{AllByRecursion};
ghost use Rattle.folder_calls.specs.Shared.{CallerView, IsLegalView, now};
ghost use Rattle.index_sender.specs.Overlay.{GoesOn};
ghost use Rattle.index_sender.specs.Pages.{Gives, Progress, records_of};
ghost use Rattle.index_sender.specs.declared.page.Page.{Page};
ghost use Rattle.index_sender.specs.declared.page.Page.TheVariants.{Nothing};
ghost use Rattle.folder_core.specs.States.{FolderState};
ghost use Rattle.proof_journal.specs.Appended.{AreUpdates, HavePages, IsSending, TellsNone};
ghost use Rattle.proof_journal.specs.Batches.{Batch, IsBatch};
ghost use Rattle.proof_journal.specs.Own.{SameOwn};
ghost use Rattle.node_journal.specs.declared.frame.Frame.{Frame};
ghost use Rattle.node_journal.specs.declared.plan.Plan.{Plan};
ghost use Rattle.node_saver.specs.Frames.{closing_frame, plans_frame, records_frame};
ghost use Rattle.node_saver.specs.Saving.{AreGiven, HasAll, IsReadAgain, Saves, records_in};
ghost use Rattle.node_saver.specs.declared.frames.SavedFolder.{SavedFolder};
ghost use Rattle.sync_record.specs.Records.{FileRecord};

use folder_calls::laws::views_are_of_folders;
use index_sender::laws::{pages_have_what_is_local, pages_keep_up};
use node_saver::FrameJournal;

/// Pages that a sender gives behind a start are updates, in rising sequence. They are so before the first page, and with the next one, if its
/// records are read again as they were.
pub fn pages_of_a_start_are_updates()
    ensures none { AreUpdates [] }
    // One more page keeps the pages updates: a premise each for the sender, the folder, the page and its records.
    ensures next { (start : ℕ) (pages : List Page) (old new : Progress) (page : Page)
        (before after : CallerView) →
        IsSending start pages old before → IsLegalView after → Gives (now after) old page new →
        AllByRecursion IsReadAgain (records_of page) →
        AreUpdates (pages ++ page ∷ []) × (new.owes_index ≡ false) }
{
    pages_have_what_is_local();
    views_are_of_folders();
}

/// Pages that a sender with a start gives until nothing is left, behind those that were told before, are updates with these, and keep up with the folder, if their records
/// are read again as they were. The sender owes no Index then either, so that the next pages follow in the same way.
pub fn given_pages_are_updates()
    // What holds of the sender holds again with the pages that are given: a premise each for the sender, the folder, the pages and their records.
    ensures { (start : ℕ) (told pages : List Page) (old new : Progress) (point first last : CallerView) →
        IsSending start told old point → GoesOn point first → AreGiven first old (pages ++ Nothing ∷ []) last new →
        AllByRecursion IsReadAgain (records_in pages) → IsSending start (told ++ pages) new last }
{
    pages_keep_up();
    pages_of_a_start_are_updates();
}

/// What `save_records` promises is a batch behind those before, where a journal is a list of frames: what is appended is its body, and the folder is as its caller then knows it.
pub fn a_save_is_a_batch<J: FrameJournal>()
    // A save appends one `body` of frames, and this is a batch. The premises say what the journal, the folder and the
    // sender were before, and what was given and saved, in this order.
    ensures { (f : SavedFolder) (s : FolderState) (frames_of : J → List Frame) (before after : J) (told pages : List Page)
        (old new : Progress) (point first last : CallerView) →
        ((j k : J) (frame : Frame) → J.appends j frame k → frames_of k ≡ frames_of j ++ frame ∷ []) →
        SameOwn s point.opening → IsSending s.last told old point → GoesOn point first →
        Saves J.appends f before pages after → AreGiven first old (pages ++ Nothing ∷ []) last new →
        AllByRecursion IsReadAgain (records_in pages) → HasAll (now last) new.cursor →
        (body : List Frame) × (frames_of after ≡ frames_of before ++ body)
        × IsBatch f s told (record { pages = pages; body = body; view = last; progress = new }) × (new.owes_index ≡ false) }
{
    given_pages_are_updates();
}

/// A frame that is not whole and tells nothing of a folder may stand before the frames of a batch, and behind them.
pub fn batches_may_have_other_frames()
    ensures before { (f : SavedFolder) (s : FolderState) (told : List Page) (b : Batch) (frame : Frame) →
        IsBatch f s told b → TellsNone f.id frame → frame.is_whole ≡ false →
        IsBatch f s told (record b { body = frame ∷ b.body }) }
    ensures behind { (f : SavedFolder) (s : FolderState) (told : List Page) (b : Batch) (frame : Frame) →
        IsBatch f s told b → TellsNone f.id frame → frame.is_whole ≡ false →
        IsBatch f s told (record b { body = b.body ++ frame ∷ [] }) }
{}

/// Where a journal is a list of frames to which each one is appended, pages that are saved stand in it behind those that stood there before.
pub fn appended_pages_are_in_the_journal<J: FrameJournal>()
    // Frames that have the told pages also have the saved ones after a save: the first premise says what appending is.
    ensures { (f : SavedFolder) (frames_of : J → List Frame) (first last : J) (told pages : List Page) →
        ((old new : J) (frame : Frame) → J.appends old frame new → frames_of new ≡ frames_of old ++ frame ∷ []) →
        HavePages f told (frames_of first) → Saves J.appends f first pages last →
        HavePages f (told ++ pages) (frames_of last) }
{}

/// A frame of pulls, one that ends a batch, and one of another folder tell no record of a folder, and may stand between its pages.
pub fn other_frames_tell_none()
    ensures plans { (f : SavedFolder) (id : List ℕ) (plans : List Plan) → TellsNone id (plans_frame f plans) }
    ensures closing { (id : List ℕ) → TellsNone id closing_frame }
    ensures others { (f : SavedFolder) (id : List ℕ) (records : List FileRecord) → f.id ≢ id →
        TellsNone id (records_frame f records) }
    ensures between { (f : SavedFolder) (pages : List Page) (frames : List Frame) (frame : Frame) →
        HavePages f pages frames → TellsNone f.id frame → HavePages f pages (frames ++ frame ∷ []) }
{}
