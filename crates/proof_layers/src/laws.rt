//! Laws: functions without parameters that do nothing, whose contract states what the definitions of several layers imply together.
ghost use Rattle.std.specs.Prelude.{◌≡◌, ℕ, IsTrue, List, None, Option, Some, true};
ghost use Rattle.file_store.specs.Trees.{Tree};
ghost use Rattle.file_store.specs.declared.node.Node.{Node};
ghost use Rattle.folder_calls.specs.Shared.{CallerView, now};
ghost use Rattle.folder_core.specs.States.{local};
ghost use Rattle.sync_record.specs.Contents.{same_content};
ghost use Rattle.sync_record.specs.Records.{FileRecord, Name};
ghost use Rattle.sync_scan.specs.Looks.{MayFindAt, ShownFirst};
ghost use Rattle.sync_scan.specs.Scans.{Scans};
ghost use Rattle.sync_scan.specs.declared.scanned.Scanned.{Scanned};
ghost use Rattle.sync_pull.specs.Standing.{StandsAs};
ghost use Rattle.proof_layers.specs.Alike.{AreAlike, AreCutAlike, HasNoCollision};
ghost use Rattle.proof_layers.specs.Taken.{IsTaken};

use file_store::{FileStore, Gate};
use folder_calls::FolderCalls;
use folder_calls::laws::{
    answers_are_those_of_the_folder, calls_share_one_history, histories_may_be_divided,
    views_are_of_folders,
};
use folder_core::laws::{
    scans_record_what_is_found, scans_record_what_is_gone, unchanged_is_what_was_there,
};
use sync_record::laws::same_content_in_words;

/// Where a scan of a name recorded what it found, or found what was recorded, the local record says what is there: of a store
/// that keeps what is written. And where two records have the same content, and one says what is at a name of one store and the
/// other what is at a name of another, both stores hold alike there: directories, nothing, or files of as many bytes, cut into the
/// same blocks, of which each has the same SHA-256 digest on both sides.
pub fn what_is_pulled_is_what_was_scanned<S: FileStore, W: FolderCalls, G: Gate>()
    // What a scan recorded, or found recorded, is what is there. Long by what may be found, which is one premise.
    ensures scanned { (gate : G) (begun : S) (old new : CallerView) (n : Name) (moment : ℕ) (tree : Tree) (result : Scanned) →
        S.keeps ≡ true →
        Scans old n moment (MayFindAt S.gives (ShownFirst (G.shown gate S W) W.view begun) (IsTrue S.keeps) tree n) result new →
        IsTaken result → StandsAs (local (now new) n) (tree.names n) }
    ensures alike { (r q : FileRecord) (one other : Option Node) → StandsAs (Some r) one →
        StandsAs (Some q) other → IsTrue (same_content r q) → AreAlike one other }
{
    answers_are_those_of_the_folder();
    calls_share_one_history();
    histories_may_be_divided();
    views_are_of_folders();
    scans_record_what_is_found();
    scans_record_what_is_gone();
    unchanged_is_what_was_there();
    same_content_in_words();
}

/// Files that are cut alike have the same bytes where no block of the one has the digest of that of the other, and other bytes.
pub fn files_cut_alike_are_the_same()
    ensures { (one other : List ℕ) (alike : AreCutAlike one other) →
        HasNoCollision alike.blocks one other → one ≡ other }
{}

/// What is alike under a name of two stores is nothing, directories, or files, and these have the same bytes where no block of the one
/// has the digest of that of the other, and other bytes.
pub fn what_is_alike_is_the_same()
    ensures nothing { (other : Option Node) → AreAlike None other → other ≡ None }
    ensures directories { (other : Option Node) → AreAlike (Some Node.Directory) other →
        other ≡ Some Node.Directory }
    // What is alike to a file is a file, of bytes `others`: how both are cut, and when they are the same, is of these.
    ensures files { (bytes : List ℕ) (modified : ℕ) (other : Option Node) →
        AreAlike (Some (Node.File bytes modified)) other →
        (others : List ℕ) × (later : ℕ) × (other ≡ Some (Node.File others later))
        × (alike : AreCutAlike bytes others) × (HasNoCollision alike.blocks bytes others → bytes ≡ others) }
{
    files_cut_alike_are_the_same();
}
