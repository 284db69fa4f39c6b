//! The records of a folder, saved in pages.
ghost use Rattle.std.specs.Prelude.{◌≡◌, ◌++◌, ◌∷◌, [], ℕ, List, OnOk, option_copied};
ghost use Rattle.std.specs.List.{AllByRecursion};
ghost use Rattle.folder_calls.specs.Shared.{CallerView, IsLegalView, Sees, now};
ghost use Rattle.index_sender.specs.declared.page.Page.{Page as PageOf};
ghost use Rattle.index_sender.specs.declared.page.Page.TheVariants.{Nothing};
ghost use Rattle.index_sender.specs.Overlay.{GoesOn, KeepsUp};
ghost use Rattle.node_saver.specs.Saving.{AreGiven, HasAll, IsReadAgain, Saves, records_in, told};

use crate::frames::{SavedFolder, records_frame};
use crate::{FrameJournal, SaveFault};
use folder_calls::FolderCalls;
use folder_calls::laws::views_are_of_folders;
use index_sender::laws::{nothing_is_left, pages_keep_up};
use index_sender::{IndexSender, Page};
use std::alloc::Global;
use sync_record::Record;

/// Appends the records of a folder that a sender has still to give, in rising sequence, until none is left. All local records up to the sender's cursor
/// then stand in the journal, if those up to where it began did.
///
/// After an error some pages may have been appended, and the sender has given these, or one more. O(n) for n bytes of names, counters and blocks, and one
/// call of the folder for each page.
pub fn save_records<W: FolderCalls, J: FrameJournal>(
    alloc: Global,
    folder: &SavedFolder,
    sender: &mut IndexSender,
    calls: &mut W,
    journal: &mut J,
) -> Result<(), SaveFault>
    ensures folder { W.folder calls.new ≡ W.folder calls.old }
    ensures sees { Sees (W.view calls.old) (W.view calls.new) }
    ensures legal { OnOk result (IsLegalView (W.view calls.new)) }
    // What was appended are the pages that the sender gave until nothing was left, in messages that are read again as the same records. They keep up with the
    // folder, as those that a peer is told.
    ensures saves { OnOk result ((pages : List PageOf) × Saves J.appends folder.now journal.old pages journal.new
        × AreGiven (W.view calls.old) sender.old (pages ++ Nothing ∷ []) (W.view calls.new) sender.new
        × AllByRecursion IsReadAgain (records_in pages)
        × ((start : ℕ) (told : List PageOf) (point : CallerView) → GoesOn point (W.view calls.old) →
        KeepsUp start told sender.old point → KeepsUp start (told ++ pages) sender.new (W.view calls.new))) }
    ensures all { OnOk result (HasAll (now (W.view calls.new)) sender.new.cursor) }
{
    pages_keep_up();
    nothing_is_left();
    views_are_of_folders();
    for _turn in 0..u64::MAX {
        let page = sender.next_page(calls)?;
        let Some(records) = records_of(&page) else {
            return Ok(());
        };
        let frame = records_frame(alloc, folder, records)?;
        journal.append(&frame)?;
    }
    Err(SaveFault::Endless)
}

// The records of a page, unless it is none.
fn records_of(page: &Page) -> Option<&[Record]>
    ensures { option_copied result ≡ told page.now }
{
    match page {
        Page::Index(records) => Some(records.as_slice()),
        Page::IndexUpdate(records) => Some(records.as_slice()),
        Page::Nothing => None,
    }
}
