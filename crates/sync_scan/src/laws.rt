//! The laws of scans. A law is a function that does nothing, whose contract says of the definitions in `specs/` what follows from
//! them in plainer words.
ghost use Rattle.std.specs.Prelude.{◌≡◌, ◌≢◌, ◌⊎◌, ◌↔◌, ◌^◌, ◌<◌, ◌≤◌, ℕ, pos, Contains, IsTrue, List, Option, Some, get_or, length, true};
ghost use Rattle.std.specs.Cmp.Lexicographic.{slice_cmp};
ghost use Rattle.std.specs.Ordering.{nat_cmp};
ghost use Rattle.std.specs.declared.cmp.Ordering.TheVariants.{Less};
ghost use Rattle.sync_blocks.specs.declared.block.Block.{Block};
ghost use Rattle.sync_blocks.specs.BlockList.{block_list};
ghost use Rattle.sync_record.specs.Records.{FileRecord, Name, is_live};
ghost use Rattle.folder_core.specs.States.{local};
ghost use Rattle.folder_core.specs.declared.finding.Finding.{Finding};
ghost use Rattle.folder_core.specs.declared.finding.FoundContent.TheVariants as content;
ghost use Rattle.folder_calls.specs.Shared.{CallerView, now};
ghost use Rattle.file_store.specs.Sequences.{Since};
ghost use Rattle.file_store.specs.Stores.{mem_gives, mem_tree};
ghost use Rattle.file_store.specs.Trees.{Tree};
ghost use Rattle.file_store.specs.Names.{is_parent};
ghost use Rattle.file_store.specs.declared.mem.MemStore.{MemStore};
ghost use Rattle.file_store.specs.declared.node.Stat.TheVariants.{Directory, File, Missing, Other};
ghost use Rattle.sync_scan.specs.AllNames.{AreMissing, HasListed, ScansAll, UnlessBelow};
ghost use Rattle.sync_scan.specs.Looks.{IsTold, LeadsTo, MayFindFirst, MayFindSince};
ghost use Rattle.sync_scan.specs.Told.{Fails, HasNoOtherParent, HasOtherParent, ReadsOther, ReadsWhole, Says};
ghost use Rattle.sync_scan.specs.declared.scanned.Look.{Look};
ghost use Rattle.sync_scan.specs.declared.scanned.Look.TheVariants.{Changing, Found, Gone, Skipped};
ghost use Rattle.sync_scan.specs.Scans.{AddsOneAtMost, Scans, ScansSince};
ghost use Rattle.sync_scan.specs.declared.scanned.Scanned.{Scanned};
ghost use Rattle.sync_scan.specs.declared.sum.ScanStop.TheVariants.{StoreFault};
ghost use Rattle.sync_scan.specs.declared.sum.ScanSum.{ScanSum};

use file_store::{FileStore, Gate};
use folder_calls::FolderCalls;
use folder_calls::laws::{changes_are_asked_in_order, entries_add_up};

/// What may be found at a name, by what the caller had seen when its record was read: the laws hold whatever that is.
pub trait AnyLook {
    ghost may: { Name → CallerView → Look → Type 0 };
}

/// The scan of a name adds at most one entry to those of its caller: that of a scan of this name, with its answer, if it was
/// accepted.
pub fn a_scan_adds_one_entry_at_most<S: FileStore, W: FolderCalls, G: Gate>()
    // Long by what may be found, which is one premise.
    ensures alone { (gate : G) (begun : S) (tree : Tree) (old new : CallerView) (n : Name) (moment : ℕ) (result : Scanned) →
        Scans old n moment (MayFindFirst S.gives (G.shown gate S W) W.view begun (IsTrue S.keeps) tree n) result new →
        AddsOneAtMost old n moment new }
    // The same for one name of several, whose local record may have been read before the others' changes were made.
    ensures of_several { (gate : G) (begun : S) (tree : Tree) (first old new : CallerView) (n : Name) (moment : ℕ)
        (result : Scanned) →
        ScansSince first old n moment (MayFindSince S.gives (G.shown gate S W) W.view begun (IsTrue S.keeps) tree n)
        result new → AddsOneAtMost old n moment new }
{
    changes_are_asked_in_order();
    entries_add_up();
}

/// Of every store: a deletion is found only where the store said that nothing is at the name, and of no parent of a safe name
/// that something else is there. What the store says is neither a file nor a directory is skipped. Below a directory that could
/// not be read no deletion is found.
pub fn deletions_are_told<S: FileStore, L: AnyLook>()
    ensures missing { (first : S) (n : Name) (local : Option FileRecord) →
        IsTold (Since S.gives first) n local Gone → Says (Since S.gives first) n Missing × HasNoOtherParent (Since S.gives first) n }
    ensures other { (first : S) (n : Name) (local : Option FileRecord) (look : Look) →
        LeadsTo (Since S.gives first) n local Other look → look ≡ Skipped }
    ensures unread { (unread : List Name) (d n : Name) (view : CallerView) →
        Contains unread d → is_parent d n ≡ true → UnlessBelow unread L.may n view Gone → ⊥ }
{}

/// Of every store: what is found is what the store said and gave. A name is skipped only where something else is there, or in a
/// parent's place while nothing is there, or where a file has more than 64 TiB. A directory is found only where one is, and a file
/// only where one is that has as many bytes, which were all read, and of which are its blocks.
pub fn what_is_found_is_told<S: FileStore>()
    // A name is skipped for one of three reasons, and no other: so they are one choice.
    ensures skipped { (first : S) (n : Name) (local : Option FileRecord) →
        IsTold (Since S.gives first) n local Skipped →
        Says (Since S.gives first) n Other
        ⊎ (Says (Since S.gives first) n Missing × HasOtherParent (Since S.gives first) n)
        ⊎ ((size modified : ℕ) × Says (Since S.gives first) n (File size modified) × (2 ^ 46 < size)) }
    ensures changing { (first : S) (n : Name) (local : Option FileRecord) →
        IsTold (Since S.gives first) n local Changing →
        (size modified : ℕ) × Says (Since S.gives first) n (File size modified) × ReadsOther (Since S.gives first) n size }
    ensures directory { (first : S) (n : Name) (local : Option FileRecord) (found : Finding) →
        IsTold (Since S.gives first) n local (Found found) → found.content ≡ content.Directory → Says (Since S.gives first) n Directory }
    // What was found is a file of these `bytes`, which were all read: its size and its blocks are said of them.
    ensures file { (first : S) (n : Name) (local : Option FileRecord) (found : Finding)
        (size block_size : ℕ) (blocks : List Block) →
        IsTold (Since S.gives first) n local (Found found) → found.content ≡ content.File size block_size blocks →
        (modified : ℕ) × (bytes : List ℕ) × Says (Since S.gives first) n (File size modified) × (found.modified_s ≡ pos modified)
        × (size ≤ 2 ^ 46) × (length bytes ≡ size) × ReadsWhole (Since S.gives first) n bytes
        × (blocks ≡ block_list bytes block_size) }
{}

/// A store in memory does not fail, so no scan of all its names stops for that.
pub fn scans_of_memory_stop_for_no_fault<L: AnyLook>()
    ensures { (store : MemStore) (old new : CallerView) (moment : ℕ) (sum : ScanSum) →
        ScansAll (HasListed mem_gives (IsTrue true) (mem_tree store) store) L.may (Fails mem_gives) old moment sum new →
        sum.stopped ≢ Some StoreFault }
{}

/// The names that are scanned after the listed ones ascend by their bytes, so each is there once. Where the folder did not go on
/// meanwhile, they are exactly those that are not listed and of which it has a live local record.
pub fn missing_names_are_not_listed()
    ensures order { (old point : CallerView) (listed names : List Name) → AreMissing old point listed names →
        (i j : ℕ) (none : Name) → i < j → j < length names →
        slice_cmp nat_cmp (get_or names i none) (get_or names j none) ≡ Less }
    // Both directions in one: a name is there exactly if it isn't listed and its local record is live.
    ensures exactly { (point : CallerView) (listed names : List Name) → AreMissing point point listed names →
        (n : Name) → Contains names n
        ↔ ((Contains listed n → ⊥) × ((r : FileRecord) × (local (now point) n ≡ Some r) × IsTrue (is_live r))) }
{}
