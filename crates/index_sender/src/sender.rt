//! How far a peer was told this device's index, and the next page of it: up to 1,000 records by rising sequence.
ghost use Rattle.std.specs.Prelude.{◌≡◌, ◌<◌, ◌≤◌, ◌^◌, ◌++◌, ◌∷◌, [], IfErr, IfOk, List, length, take};
ghost use Rattle.std.specs.Prelude.{ℕ};
ghost use Rattle.folder_calls.specs.Shared.{CallerView, IsLegalView, Sees, now};
ghost use Rattle.index_sender.specs.Overlay.{GoesOn, KeepsUp};
ghost use Rattle.index_sender.specs.Pages.{Gives, GivesKept, after_page, page_of, sending_from, up_to};
ghost use Rattle.index_sender.specs.declared.page.Page.{Page as PageOf};

use crate::laws::pages_keep_up;
use crate::{KeptPage, Page};
use bep_messages::Items;
use folder_calls::{At, FolderCalls};
use std::alloc::AllocError;
use std::marker::Model;
use sync_record::Record;

/// The most records of a page.
pub const MAX_PAGE_RECORDS: usize = 1000;

/// How far a peer was told this device's records, which come in rising sequence.
///
/// Without a start the first page is an Index, which also an empty folder has; all others are updates. A record that changes
/// gets a greater sequence, so it comes again, or comes later than it would have: no change between two pages is lost.
#[derive(Debug, Drop)]
pub struct IndexSender {
    cursor: u64,
    owes_index: bool,
}

impl Model for IndexSender {
    ghost use Rattle.std.specs.Prelude.{◌<◌, ◌^◌};
    ghost use Rattle.index_sender.specs.Pages.{Progress};

    ghost Value = { Progress };

    ghost view = { λ s. record { cursor = s.cursor; owes_index = s.owes_index } };

    ghost invariant = { λ s. s.cursor < 2 ^ 63 };
}

impl IndexSender {
    /// A sender of all records, or of those of greater sequence than a start, which the peer then has up to there. A
    /// negative start is 0. O(1).
    pub fn new(start: Option<i64>) -> IndexSender
        ensures { result ≡ sending_from start }
    {
        IndexSender {
            cursor: u64::try_from(start.unwrap_or(0)).unwrap_or(0),
            owes_index: start.is_none(),
        }
    }

    /// The sequence of the last record that was given, or the start. Below 2^63. O(1).
    pub fn cursor(&self) -> u64
        ensures value { result ≡ self.now.cursor }
        ensures fits { result < 2 ^ 63 }
    {
        self.cursor
    }

    /// The next page: the local records of greater sequence than the cursor, in rising sequence, at most 1,000 of them, and
    /// fewer where they have many blocks, as [`FolderCalls::local_since`] says. The first page without a start is an Index,
    /// also with no record; later there is `Nothing` where no record is left.
    ///
    /// Returns `Err` only if out of memory, and then the sender is as it was. One call of the folder; the records are shared,
    /// not copied. O(1) besides.
    pub fn next_page<W: FolderCalls>(&mut self, calls: &mut W) -> Result<Page, AllocError>
        ensures folder { W.folder calls.new ≡ W.folder calls.old }
        ensures sees { Sees (W.view calls.old) (W.view calls.new) }
        ensures gives { IfOk result (λ page.
            IsLegalView (W.view calls.new)
            × Gives (now (W.view calls.new)) self.old page self.new) }
        // What holds of the pages before, at a point from which the history went on, holds with this one.
        ensures keeps_up { IfOk result (λ page. (start : ℕ) (pages : List PageOf) (point : CallerView) →
            GoesOn point (W.view calls.old) → KeepsUp start pages self.old point →
            KeepsUp start (pages ++ page ∷ []) self.new (W.view calls.new)) }
        ensures out_of_memory { IfErr result (λ _.
            (self.new ≡ self.old) × (W.view calls.new ≡ W.view calls.old)) }
    {
        pages_keep_up();
        let At { at: _, value } = calls.local_since(self.cursor, MAX_PAGE_RECORDS)?;
        Ok(self.give(value))
    }

    /// The next page of the records that are kept, which are those up to a sequence: as [`IndexSender::next_page`], without the
    /// records above it. Where there are such, they wait.
    ///
    /// Returns `Err` only if out of memory, and then the sender is as it was. One call of the folder; the records are shared,
    /// not copied. O(n) besides for n records of the page.
    pub fn next_kept_page<W: FolderCalls>(
        &mut self,
        calls: &mut W,
        kept: u64,
    ) -> Result<KeptPage, AllocError>
        ensures folder { W.folder calls.new ≡ W.folder calls.old }
        ensures sees { Sees (W.view calls.old) (W.view calls.new) }
        ensures gives { IfOk result (λ next.
            IsLegalView (W.view calls.new)
            × GivesKept kept (now (W.view calls.new)) self.old next.page next.is_waiting self.new) }
        // What holds of the pages before, at a point from which the history went on, holds with this one.
        ensures keeps_up { IfOk result (λ next. (start : ℕ) (pages : List PageOf) (point : CallerView) →
            GoesOn point (W.view calls.old) → KeepsUp start pages self.old point →
            KeepsUp start (pages ++ next.page ∷ []) self.new (W.view calls.new)) }
        ensures out_of_memory { IfErr result (λ _.
            (self.new ≡ self.old) × (W.view calls.new ≡ W.view calls.old)) }
    {
        pages_keep_up();
        let At { at: _, value } = calls.local_since(self.cursor, MAX_PAGE_RECORDS)?;
        let count = count_up_to(value.as_slice(), kept);
        let is_waiting = count < value.as_slice().len();
        let mut records = value.into_vec();
        records.truncate(count);
        let page = self.give(Items::from_vec(records));
        Ok(KeptPage { page, is_waiting })
    }

    // The page of these records, which are those after the cursor.
    fn give(&mut self, records: Items<Record>) -> Page
        ensures page { result ≡ page_of self.old.owes_index records }
        ensures after { self.new ≡ after_page self.old records }
    {
        let is_index = self.owes_index;
        let is_empty = records.as_slice().is_empty();
        let cursor = match records.as_slice().last() {
            Some(last) => last.sequence(),
            None => self.cursor,
        };
        *self = IndexSender {
            cursor,
            owes_index: false,
        };
        if is_index {
            Page::Index(records)
        } else if is_empty {
            Page::Nothing
        } else {
            Page::IndexUpdate(records)
        }
    }
}

// How many of the records come before the first one above a sequence.
fn count_up_to(records: &[Record], sequence: u64) -> usize
    ensures within { result ≤ length records.now }
    ensures value { take result records.now ≡ up_to sequence records.now }
{
    for at in 0..records.len() {
        if records[at].sequence() > sequence {
            return at;
        }
    }
    records.len()
}
