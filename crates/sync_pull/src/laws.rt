//! What the definitions say, as contracts of functions that do nothing.
ghost use Rattle.std.specs.Prelude.{◌≡◌, ◌≢◌, ◌+◌, ◌-◌, ◌<◌, ◌≤◌, ◌⊎◌, ℕ, ℤ, [], ◌∷◌, Bool, Contains, IsTrue, List, None, Some, drop, length, pos, slice_get, true};
ghost use Rattle.std.specs.Cmp.Lexicographic.{slice_cmp};
ghost use Rattle.std.specs.Ordering.{nat_cmp};
ghost use Rattle.std.specs.declared.cmp.Ordering.TheVariants.{Less};
ghost use Rattle.file_store.specs.Asked.{ListAll};
ghost use Rattle.file_store.specs.Listings.{AreAscending};
ghost use Rattle.file_store.specs.Names.{Name};
ghost use Rattle.file_store.specs.Stores.{mem_gives, mem_tree};
ghost use Rattle.file_store.specs.Trees.{Tree};
ghost use Rattle.file_store.specs.declared.node.Node.{Node};
ghost use Rattle.file_store.specs.Sequences.{CallsOnly, IsOfTemp};
ghost use Rattle.folder_calls.specs.Shared.{CallerView, Gets, Sees};
ghost use Rattle.folder_core.specs.declared.answer.Answer.TheVariants.{Begun};
ghost use Rattle.folder_core.specs.declared.change.Change.TheVariants.{BeginPull};
ghost use Rattle.folder_core.specs.declared.pull_info.PullInfo.{PullInfo};
ghost use Rattle.sync_record.specs.Assemblies.{put_answer};
ghost use Rattle.sync_record.specs.Devices.{Identity};
ghost use Rattle.sync_record.specs.Records.{FileRecord, is_live_file};
ghost use Rattle.sync_record.specs.declared.put.Put.TheVariants.{Ok};
ghost use Rattle.sync_pull.specs.Chains.{AsksAndSees};
ghost use Rattle.sync_pull.specs.Ends.{enters};
ghost use Rattle.sync_pull.specs.Moments.{BeginsFirst, IsOfPull, SaysStands};
ghost use Rattle.sync_pull.specs.Sources.{HasNoSource, IsWronglyEmpty, best_devices};
ghost use Rattle.sync_pull.specs.declared.answer.PullAnswer.TheVariants.{Busy, Done, NotNeeded, Unsupported};
ghost use Rattle.sync_blocks.specs.Tiling.{Tiles};
ghost use Rattle.sync_blocks.specs.declared.block.Block.{Block};
ghost use Rattle.sync_pull.specs.Bytes.{AreOf, HasBlock};
ghost use Rattle.sync_pull.specs.Copies.{AreOldCopies, IsOldCopy, IsRefused, TrimsCopies, surplus};
ghost use Rattle.sync_pull.specs.Plans.{copy_name};
ghost use Rattle.sync_pull.specs.Pulled.{IsThereOrCopied};

use crate::BlockSource;
use file_store::{FileStore, Gate};
use folder_calls::FolderCalls;

/// Bytes of blocks that make up a file are as many as the file has, and at the offset of each block are as many as the block has,
/// with its digest.
pub fn bytes_of_blocks_are_those_of_the_file()
    ensures size { (blocks : List Block) (size block_size : ℕ) (bytes : List ℕ) →
        Tiles blocks size block_size → AreOf blocks bytes → length bytes ≡ size }
    ensures each { (blocks : List Block) (size block_size i : ℕ) (b : Block) (bytes : List ℕ) →
        Tiles blocks size block_size → AreOf blocks bytes → slice_get blocks i ≡ Some b →
        HasBlock b (drop b.offset bytes) }
{}

/// Of the older conflict copies of a name the greatest by their bytes are kept: as many as may be kept besides the new one, and no
/// fewer.
pub fn the_greatest_copies_are_kept()
    ensures few { (most : ℕ) (copies : List Name) → 0 < most →
        length copies - length (surplus most copies) + 1 ≤ most }
    ensures no_fewer { (most : ℕ) (copies : List Name) → 0 < most → surplus most copies ≢ [] →
        length copies - length (surplus most copies) + 1 ≡ most }
    // Each removed copy is less than each kept one: the premises say of both that they are of the same ascending list.
    ensures greatest { (most : ℕ) (copies : List Name) (removed kept : Name) → AreAscending copies →
        Contains (surplus most copies) removed → Contains copies kept →
        (Contains (surplus most copies) kept → ⊥) → slice_cmp nat_cmp removed kept ≡ Less }
{}

/// When older conflict copies are removed, all else stays as it was, whatever the store refuses.
pub fn what_is_no_older_copy_stays<S: FileStore>()
    ensures { (most : ℤ) (n copy q : Name) (old new : Tree) →
        TrimsCopies (IsRefused S.gives S.tree) most n copy old new → (IsOldCopy n copy old q → ⊥) → new.names q ≡ old.names q }
{}

/// A store in memory refuses to remove no file: unless it refused to list them, exactly those of the older copies are gone that are too
/// many.
pub fn surplus_copies_in_memory_are_gone()
    // One of two: the store refused to list, or of one list of older `copies` exactly the surplus is gone.
    ensures { (most : ℕ) (n copy : Name) (old new : Tree) →
        TrimsCopies (IsRefused mem_gives mem_tree) (pos most) n copy old new →
        (IsRefused mem_gives mem_tree old ListAll × (new ≡ old))
        ⊎ ((copies : List Name) × AreOldCopies n copy old copies
        × ((q : Name) → Contains (surplus most copies) q → new.names q ≡ None)
        × ((q : Name) → (Contains (surplus most copies) q → ⊥) → new.names q ≡ old.names q)) }
{}

/// A file of which a copy is due is not lost: it is still at its name, or at that of its copy.
pub fn a_file_with_a_due_copy_is_kept()
    ensures { (n copy : Name) (old new : Tree) (file : Node) →
        IsThereOrCopied n copy old new → old.names n ≡ Some file →
        (new.names n ≡ Some file) ⊎ (new.names copy ≡ Some file) }
{}

/// Of every store: a pull that is done entered its commit, and then the store said and gave what the base says, before anything was
/// changed but the temporary file of the name.
pub fn what_is_replaced_was_checked_first<S: FileStore, W: FolderCalls, G: Gate>()
    // One chain of points of the folder and moments of the store: a ticket was got, the commit entered, the store
    // compared with the base, and only then changed. Each link begins where the one before it ends.
    ensures { (gate : G) (moment : ℕ) (n : Name) (sequence : ℕ) (old new : CallerView) (before after : S) →
        BeginsFirst S.gives (λ s v. (w : W) × G.shown gate S W s w × (W.view w ≡ v)) moment n (Done sequence) old before new after →
        (t : PullInfo) × (begun entered : CallerView) × Gets old (BeginPull n) (Begun t) begun
        × AsksAndSees begun (enters t ∷ []) entered
        × (mid checked : S) × CallsOnly S.gives (IsOfTemp n) before mid
        × ((w : W) × G.shown gate S W mid w × (W.view w ≡ entered))
        × SaysStands S.gives n t.base mid checked
        × CallsOnly S.gives (IsOfPull n (copy_name n moment t.base)) checked after }
{}

/// Of every store: where a pull is not begun, because it isn't needed, another one is open or the best can't be pulled, the store is as it was.
pub fn what_is_not_begun_changes_nothing<S: FileStore, W: FolderCalls, G: Gate>()
    ensures not_needed { (gate : G) (moment : ℕ) (n : Name) (old new : CallerView) (before after : S) →
        BeginsFirst S.gives (λ s v. (w : W) × G.shown gate S W s w × (W.view w ≡ v)) moment n NotNeeded old before new after →
        after ≡ before }
    ensures busy { (gate : G) (moment : ℕ) (n : Name) (old new : CallerView) (before after : S) →
        BeginsFirst S.gives (λ s v. (w : W) × G.shown gate S W s w × (W.view w ≡ v)) moment n Busy old before new after →
        after ≡ before }
    // The store is as it was where the best can't be pulled. Long by what the gate shows, as in the two clauses before.
    ensures unsupported { (gate : G) (moment : ℕ) (n : Name) (old new : CallerView) (before after : S) →
        BeginsFirst S.gives (λ s v. (w : W) × G.shown gate S W s w × (W.view w ≡ v)) moment n Unsupported old before new after →
        after ≡ before }
{}

/// Of every source: where there is none, the target is a live file with a block that is empty and has another digest than no bytes have,
/// or for which each device that had the best, but this one, was asked, and gave nothing or other bytes.
pub fn each_other_device_was_asked_in_vain<B: BlockSource>()
    // One block `b` has no source: it is wrongly empty, or no device that had the best at `point` gave its bytes.
    ensures { (n : Name) (source : B) (old new : CallerView) (target : FileRecord) →
        HasNoSource B.gives n source new target old →
        IsTrue (is_live_file target) × (point : CallerView) × Sees old point
        × (b : Block) × Contains target.blocks b
        × (IsWronglyEmpty b
        ⊎ ((d : Identity) → Contains (best_devices point n) d → d ≢ old.opening.me →
        (before after : B) × (given : Bool) × (bytes : List ℕ) × B.gives before d n b given bytes after
        × (given ≡ true → put_answer b bytes ≢ Ok))) }
{}
