//! What holds of every change.
ghost use Rattle.std.specs.Prelude.{◌≡◌, ◌≢◌, ◌↔◌, ◌⊎◌, ◌<◌, ◌≤◌, ◌+◌, ◌-◌, ◌^◌, ℕ, pos, Option, List, Ok, Err, Some, None, IsTrue, false};
ghost use Rattle.std.specs.FinMap.{empty, get};
ghost use Rattle.sync_version.specs.Versions.{Vector};
ghost use Rattle.sync_record.specs.Assemblies.{IsAssembled};
ghost use Rattle.sync_record.specs.Devices.{Identity};
ghost use Rattle.sync_record.specs.Records.{Name, FileRecord, is_live_file};
ghost use Rattle.sync_record.specs.Validity.{is_valid};
ghost use Rattle.folder_core.specs.Announced.{key};
ghost use Rattle.folder_core.specs.States.{FolderState, IsFolder, IsNumbered, local};
ghost use Rattle.folder_core.specs.Samples.{me};
ghost use Rattle.folder_core.specs.Calls.{Changes, index_answer};
ghost use Rattle.folder_core.specs.declared.change.Change.{Change};
ghost use Rattle.folder_core.specs.declared.change.Change.TheVariants.{ScanFound, ScanGone, IndexFull, IndexMore, Forget, BeginPull, EnterCommit, Finish, GiveUp, Abort};
ghost use Rattle.folder_core.specs.declared.answer.Answer.TheVariants.{Recorded, Applied, Begun};
ghost use Rattle.folder_core.specs.declared.answer.Answer.TheVariants.{Entered, Done, Closed};
ghost use Rattle.folder_core.specs.declared.answer.Answer.{Answer};
ghost use Rattle.folder_core.specs.declared.finding.Finding.{Finding};
ghost use Rattle.folder_core.specs.declared.finding.FoundContent.TheVariants.{File as FoundFile, Directory as FoundDirectory};
ghost use Rattle.folder_core.specs.declared.pull_info.PullInfo.{PullInfo};
ghost use Rattle.folder_core.specs.Steps.{MayChange, step, is_accepted};
ghost use Rattle.std.specs.declared.alloc.AllocError.{AllocError};

/// An answer that isn't accepted leaves the state; accepted are Applied, Closed, Recorded, Done, Begun and Entered, and no
/// others.
pub fn other_answers_keep_the_state()
    ensures kept { (s : FolderState) (c : Change) → is_accepted (step s c).0 ≡ false →
        (step s c).1 ≡ s }
    ensures accepted { (a : Answer) → IsTrue (is_accepted a) ↔
        ((a ≡ Applied) ⊎ ((a ≡ Closed) ⊎ (((k : ℕ) × (a ≡ Recorded k)) ⊎ (((k : ℕ) × (a ≡ Done k))
        ⊎ (((t : PullInfo) × (a ≡ Begun t)) ⊎ ((t : PullInfo) × (a ≡ Entered t))))))) }
{}

/// An empty folder is a folder, and each change that keeps its caller's conditions leads from a folder to a folder.
pub fn changes_keep_folders()
    ensures empty { (me : Identity) →
        IsFolder (record { me = me; announced = empty; last = 0; pulls = empty }) }
    ensures change { (s : FolderState) (c : Change) → IsFolder s → MayChange s.me c →
        IsFolder (step s c).1 }
{}

/// What a caller of a change need not ensure: any index of another device may come, whatever it says; a directory may be found,
/// and a file with what a valid live file has, of a size that fits a record; the commit's target may be finished once each
/// of its blocks has bytes; and all else may be asked at any state.
pub fn callers_ensure_no_more()
    ensures indexes { (s : FolderState) (d : Identity) (records : List FileRecord) → d ≢ s.me →
        MayChange s.me (IndexFull d records) × MayChange s.me (IndexMore d records)
        × MayChange s.me (Forget d) }
    ensures directory { (s : FolderState) (n : Name) (expected : Option Vector) (f : Finding)
        (moment : ℕ) →
        f.content ≡ FoundDirectory → MayChange s.me (ScanFound n expected f moment) }
    // A found file may be reported if one valid live record `r` has its size, which fits, its block size and blocks.
    ensures file { (s : FolderState) (n : Name) (expected : Option Vector) (f : Finding)
        (moment size block_size : ℕ)
        (r : FileRecord) → IsTrue (is_valid r) → IsTrue (is_live_file r) → r.size ≡ pos size →
        size < 2 ^ 63 → r.block_size ≡ pos block_size →
        f.content ≡ FoundFile size block_size r.blocks →
        MayChange s.me (ScanFound n expected f moment) }
    // Five changes of which a caller has nothing to ensure, in one list, as none of them has a premise.
    ensures rest { (s : FolderState) (n : Name) (expected : Option Vector) (moment : ℕ)
        (t : PullInfo) →
        MayChange s.me (ScanGone n expected moment) × MayChange s.me (BeginPull n)
        × MayChange s.me (EnterCommit t)
        × MayChange s.me (GiveUp t) × MayChange s.me (Abort t) }
    ensures finish { (s : FolderState) (t : PullInfo) → IsAssembled t.target →
        MayChange s.me (Finish t t.target) }
{}

/// A folder keeps its device. A record of another device changes only by an index of that device or when it is
/// forgotten, a local record only by a scan of its name or a finish there, and an open pull only by a change of a pull of
/// its name.
pub fn changes_leave_the_rest()
    ensures device { (s : FolderState) (c : Change) → (step s c).1.me ≡ s.me }
    // Another device's record stays, or the change is one of three of that device: one choice among all that may be.
    ensures others { (s : FolderState) (c : Change) (n : Name) (d : Identity) → d ≢ s.me →
        (get (step s c).1.announced (key n d) ≡ get s.announced (key n d))
        ⊎ (((records : List FileRecord) × (c ≡ IndexFull d records))
        ⊎ (((records : List FileRecord) × (c ≡ IndexMore d records)) ⊎ (c ≡ Forget d))) }
    // A local record stays, or the change is a scan of its name or a finish there: one choice among all that may be.
    ensures locals { (s : FolderState) (c : Change) (n : Name) → IsFolder s → MayChange s.me c →
        (local (step s c).1 n ≡ local s n)
        ⊎ (((expected : Option Vector) × (f : Finding) × (moment : ℕ)
        × (c ≡ ScanFound n expected f moment))
        ⊎ (((expected : Option Vector) × (moment : ℕ) × (c ≡ ScanGone n expected moment))
        ⊎ ((t : PullInfo) × (assembled : FileRecord) × (t.name ≡ n) × (c ≡ Finish t assembled)))) }
    // What is open under a name stays, or the change is one of the five of a pull of that name: one choice again.
    ensures pulls { (s : FolderState) (c : Change) (n : Name) →
        (get (step s c).1.pulls n ≡ get s.pulls n)
        ⊎ ((c ≡ BeginPull n) ⊎ ((t : PullInfo) × (t.name ≡ n) × ((c ≡ EnterCommit t)
        ⊎ (((assembled : FileRecord) × (c ≡ Finish t assembled))
        ⊎ ((c ≡ GiveUp t) ⊎ (c ≡ Abort t)))))) }
{}

/// Local sequences stay distinct and at most the last one given; a local record that is new has a greater sequence than
/// all before. Each recorded scan and each finish takes the next sequence, which fits, and nothing else takes one.
pub fn sequences_stay_distinct()
    ensures numbered { (s : FolderState) (c : Change) → IsNumbered s → MayChange s.me c →
        IsNumbered (step s c).1 }
    ensures taken { (s : FolderState) (c : Change) (k : ℕ) → ((step s c).0 ≡ Recorded k)
        ⊎ ((step s c).0 ≡ Done k) →
        (k ≡ s.last + 1) × ((step s c).1.last ≡ k) }
    ensures kept { (s : FolderState) (c : Change) →
        ((step s c).1.last ≡ s.last) ⊎ ((k : ℕ)
        × (((step s c).0 ≡ Recorded k) ⊎ ((step s c).0 ≡ Done k))) }
    ensures fits { (s : FolderState) (c : Change) (k : ℕ) → IsFolder s → MayChange s.me c →
        ((step s c).0 ≡ Recorded k) ⊎ ((step s c).0 ≡ Done k) → k ≤ 2 ^ 63 - 1 }
    ensures new { (s : FolderState) (c : Change) (n : Name) (r : FileRecord) → MayChange s.me c →
        local (step s c).1 n ≡ Some r → (local s n ≡ Some r) ⊎ (s.last < r.sequence) }
{}

/// A call on a folder by itself leads to the step's state with the step's answer, or is out of memory and changes nothing.
pub fn calls_are_steps()
    ensures made { (s t : FolderState) (c : Change) (a : Answer) → Changes s c (Some a) t →
        (a ≡ (step s c).0) × (t ≡ (step s c).1) }
    ensures out_of_memory { (s t : FolderState) (c : Change) → Changes s c None t → t ≡ s }
    ensures answered { (done : Unit {0}) (fault : AllocError) →
        (index_answer (Ok done) ≡ Some Applied) × (index_answer (Err fault) ≡ None) }
{}
