//! The laws of an index in pages. A law is a function that does nothing, whose contract says of the definitions in `specs/`
//! what follows from them in plainer words.
ghost use Rattle.std.specs.Prelude.{◌≡◌, ◌⊎◌, ◌<◌, ◌≤◌, ◌++◌, ◌∷◌, [], Bool, ℕ, ℤ, List, Option, Some, Contains, length, map, true, false};
ghost use Rattle.std.specs.List.Sorted.{IsStrictlySortedBy};
ghost use Rattle.std.specs.Ordering.{nat_cmp};
ghost use Rattle.std.specs.FinMap.{get};
ghost use Rattle.sync_record.specs.Devices.{Identity};
ghost use Rattle.sync_record.specs.Records.{Name, FileRecord};
ghost use Rattle.folder_core.specs.Announced.{key};
ghost use Rattle.folder_core.specs.declared.change.Change.TheVariants.{IndexFull, IndexMore};
ghost use Rattle.folder_core.specs.Steps.{step};
ghost use Rattle.folder_core.specs.States.{FolderState, IsFolder, local};
ghost use Rattle.folder_calls.specs.Shared.{CallerView, IsLegalView, now};
ghost use Rattle.index_sender.specs.Overlay.{GoesOn, KeepsUp, lay, overlay};
ghost use Rattle.index_sender.specs.Pages.{Gives, GivesKept, Progress, max_page_records, records_of, sending_from};
ghost use Rattle.index_sender.specs.declared.page.Page.{Page};
ghost use Rattle.index_sender.specs.declared.page.Page.TheVariants.{Index, IndexUpdate, Nothing};

use folder_calls::laws::{histories_may_be_divided, local_records_go_on, views_are_of_folders};
use folder_core::laws::{index_full_replaces, index_more_adds, local_records_come_in_pages};

/// What holds of the pages that were given, at a point of the folder, holds of them with the next page, at the point of
/// that page, whatever others, and the sender's caller, changed in between; and it holds before the first page.
pub fn pages_keep_up()
    ensures none { (start : Option ℤ) (v : CallerView) →
        KeepsUp (sending_from start).cursor [] (sending_from start) v }
    // With one more page the pages keep up. The premises: they did before, the folder went on, and it gave the page.
    ensures next { (start : ℕ) (pages : List Page) (old new : Progress) (page : Page)
        (before after : CallerView) →
        KeepsUp start pages old before → GoesOn before after → IsLegalView after →
        Gives (now after) old page new →
        KeepsUp start (pages ++ page ∷ []) new after }
    // A page of what is kept leaves out no change either: what waits comes later.
    ensures kept { (start kept : ℕ) (pages : List Page) (old new : Progress) (page : Page) (is_waiting : Bool)
        (before after : CallerView) →
        KeepsUp start pages old before → GoesOn before after → IsLegalView after →
        GivesKept kept (now after) old page is_waiting new →
        KeepsUp start (pages ++ page ∷ []) new after }
{
    local_records_come_in_pages();
    local_records_go_on();
    histories_may_be_divided();
    views_are_of_folders();
}

/// A page has local records alone, of its point, in rising sequence, at most 1,000: those of greater sequence than the cursor
/// was, up to the cursor after it, and none of these is left out. The cursor is then the sequence of the last of them.
pub fn pages_have_what_is_local()
    // A record of a page is a local one, above the old cursor and up to the new one: all of the same record `r`.
    ensures only { (s : FolderState) (old new : Progress) (page : Page) (r : FileRecord) →
        IsFolder s → Gives s old page new → Contains (records_of page) r →
        (n : Name) × (local s n ≡ Some r) × (old.cursor < r.sequence)
        × (r.sequence ≤ new.cursor) }
    ensures all { (s : FolderState) (old new : Progress) (page : Page) (n : Name)
        (r : FileRecord) → IsFolder s → Gives s old page new →
        local s n ≡ Some r → old.cursor < r.sequence → r.sequence ≤ new.cursor →
        Contains (records_of page) r }
    ensures rise { (s : FolderState) (old new : Progress) (page : Page) → IsFolder s →
        Gives s old page new →
        IsStrictlySortedBy nat_cmp (map (λ r. r.sequence) (records_of page))
        × (length (records_of page) ≤ max_page_records) }
    ensures cursor { (s : FolderState) (old new : Progress) (page : Page) → IsFolder s →
        Gives s old page new →
        (new.cursor ≡ old.cursor)
        ⊎ ((r : FileRecord) × Contains (records_of page) r × (r.sequence ≡ new.cursor)) }
{
    local_records_come_in_pages();
}

/// `Nothing` is given only where no local record has a greater sequence than the cursor, and leaves the sender as it was; so
/// the pages up to then have all local records of greater sequence than the start.
pub fn nothing_is_left()
    ensures stays { (s : FolderState) (old new : Progress) → Gives s old Nothing new → new ≡ old }
    ensures end { (s : FolderState) (old new : Progress) (n : Name) (r : FileRecord) →
        IsFolder s → Gives s old Nothing new → local s n ≡ Some r → r.sequence ≤ new.cursor }
    // Where `Nothing` is given, the pages laid over each other have every local record `r` above the start.
    ensures whole { (start : ℕ) (pages : List Page) (old new : Progress) (v : CallerView)
        (n : Name)
        (r : FileRecord) → IsFolder (now v) → KeepsUp start pages new v →
        Gives (now v) old Nothing new → local (now v) n ≡ Some r → start < r.sequence →
        overlay pages n ≡ Some r }
{
    local_records_come_in_pages();
}

/// A page of what is kept has no record above that sequence, and else it is a page as any other: of the local records of greater
/// sequence than the cursor was, up to the cursor after it, none is left out. `Nothing` is given only where no local record that is kept
/// has a greater sequence than the cursor, and records wait only where a local record is above that sequence.
pub fn pages_have_what_is_kept()
    // A record of a page of what is kept is like one of any page, and its sequence is not above `kept`: all of one `r`.
    ensures only { (kept : ℕ) (s : FolderState) (old new : Progress) (page : Page) (is_waiting : Bool) (r : FileRecord) →
        IsFolder s → GivesKept kept s old page is_waiting new → Contains (records_of page) r →
        (n : Name) × (local s n ≡ Some r) × (old.cursor < r.sequence) × (r.sequence ≤ new.cursor)
        × (r.sequence ≤ kept) }
    // No local record between the old cursor and the new one is left out: three premises say which records these are.
    ensures all { (kept : ℕ) (s : FolderState) (old new : Progress) (page : Page) (is_waiting : Bool) (n : Name) (r : FileRecord) →
        IsFolder s → GivesKept kept s old page is_waiting new →
        local s n ≡ Some r → old.cursor < r.sequence → r.sequence ≤ new.cursor →
        Contains (records_of page) r }
    // Where `Nothing` is given, no kept record is above the cursor: three premises say which records these are.
    ensures end { (kept : ℕ) (s : FolderState) (old new : Progress) (is_waiting : Bool) (n : Name) (r : FileRecord) →
        IsFolder s → GivesKept kept s old Nothing is_waiting new → local s n ≡ Some r → r.sequence ≤ kept →
        r.sequence ≤ new.cursor }
    ensures waits { (kept : ℕ) (s : FolderState) (old new : Progress) (page : Page) →
        IsFolder s → GivesKept kept s old page true new →
        (n : Name) × (r : FileRecord) × (local s n ≡ Some r) × (kept < r.sequence) }
{
    local_records_come_in_pages();
}

/// What a peer's folder has of this device, once it took an Index or an update, is that page laid over what it had.
pub fn peers_have_the_overlay()
    ensures index { (t : FolderState) (me : Identity) (records : List FileRecord) (n : Name) →
        get (step t (IndexFull me records)).1.announced (key n me)
        ≡ lay (λ m. get t.announced (key m me)) (Index records) n }
    ensures update { (t : FolderState) (me : Identity) (records : List FileRecord) (n : Name) →
        get (step t (IndexMore me records)).1.announced (key n me)
        ≡ lay (λ m. get t.announced (key m me)) (IndexUpdate records) n }
{
    index_full_replaces();
    index_more_adds();
}
