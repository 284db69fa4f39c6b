//! What an answer says of the state in which a change was asked for, and what becomes of an open pull.
ghost use Rattle.std.specs.Prelude.{◌≡◌, ◌≢◌, ◌⊎◌, ◌↔◌, ◌<◌, ◌≤◌, ◌-◌, ℕ, Option, Some, None, IsTrue, true, false, Contains};
ghost use Rattle.std.specs.FinMap.{get, entries};
ghost use Rattle.sync_version.specs.Versions.{Vector};
ghost use Rattle.sync_record.specs.Contents.{same_content};
ghost use Rattle.sync_record.specs.Records.{Name, FileRecord, is_file, is_directory};
ghost use Rattle.sync_record.specs.Validity.{is_valid};
ghost use Rattle.folder_core.specs.Announced.{KeyedRecord, best};
ghost use Rattle.folder_core.specs.Calls.{GivesBack};
ghost use Rattle.folder_core.specs.States.{FolderState, HaveOwnNumbers, NoCommit, Pull, local, local_version, max_sequence, need, open_commits};
ghost use Rattle.folder_core.specs.declared.answer.Answer.TheVariants.{Begun, Entered, Recorded, Stray};
ghost use Rattle.folder_core.specs.declared.change.Change.{Change};
ghost use Rattle.folder_core.specs.declared.change.Change.TheVariants.{ScanFound, ScanGone, BeginPull, EnterCommit, Finish, GiveUp, Abort};
ghost use Rattle.folder_core.specs.declared.finding.Finding.{Finding};
ghost use Rattle.folder_core.specs.declared.pull.EnterFault.TheVariants.{LocalMoved, OutOfMemory, SequenceFull, Superseded};
ghost use Rattle.folder_core.specs.declared.pull_stage.PullStage.TheVariants.{Pulling, Committing};
ghost use Rattle.folder_core.specs.declared.pull_info.PullInfo.{PullInfo};
ghost use Rattle.folder_core.specs.Steps.{HasNewContent, IsFor, is_accepted, step};

/// The ticket of a pull that is begun has the name that was asked for, its local record, and as its target the best, which is
/// valid and needed, and a deletion, a file or a directory. No pull of the name was open, and none has the ticket's number.
pub fn begun_pulls_are_of_the_name()
    // All of one ticket: its name, base, target and number; and that the name was needed and had no open pull.
    ensures { (s : FolderState) (n : Name) (t : PullInfo) → (step s (BeginPull n)).0 ≡ Begun t →
        (t.name ≡ n) × (t.base ≡ local s n) × IsTrue (is_valid t.target)
        × ((t.target.deleted ≡ true) ⊎ ((is_file t.target ≡ true) ⊎ (is_directory t.target ≡ true)))
        × ((e : KeyedRecord) × (best (entries s.announced) n ≡ Some e) × (t.target ≡ e.1))
        × Contains (need s) n × (get s.pulls n ≡ None)
        × (1 ≤ t.number) × ((m : Name) (p : Pull) → get s.pulls m ≡ Some p → p.number ≢ t.number) }
{}

/// A commit that is entered is its ticket. Its pull was open and not yet entered, the local version was that of its begin, the best
/// had the target's version and content, and a sequence was left for it.
pub fn entered_commits_are_their_tickets()
    // `Entered` means that no test refused. The tests are those of one open pull `p`, so they are said together.
    ensures { (s : FolderState) (t c : PullInfo) → (step s (EnterCommit t)).0 ≡ Entered c →
        (c ≡ t) × (p : Pull) × IsFor s t Pulling p × (local_version s t.name ≡ p.base)
        × ((e : KeyedRecord) × (best (entries s.announced) t.target.name ≡ Some e)
        × (e.1.version ≡ t.target.version) × IsTrue (same_content e.1 t.target))
        × (open_commits s < max_sequence - s.last) }
{}

/// A scan is recorded only if the local version was the expected one and no commit of the name was open, and only if it found
/// another content, or that what has a live local record, of any kind, is gone.
pub fn recorded_scans_were_expected()
    // What `Recorded` says of a finding: no commit was open, the version was the expected one, and the content is new.
    ensures found { (s : FolderState) (n : Name) (expected : Option Vector) (f : Finding)
        (moment k : ℕ) →
        (step s (ScanFound n expected f moment)).0 ≡ Recorded k →
        NoCommit s n × (expected ≡ local_version s n)
        × HasNewContent s n f moment }
    // The same for a name that is gone, but for the content: here one local record `r` was there and was live.
    ensures gone { (s : FolderState) (n : Name) (expected : Option Vector) (moment k : ℕ) →
        (step s (ScanGone n expected moment)).0 ≡ Recorded k →
        NoCommit s n × (expected ≡ local_version s n) × (r : FileRecord) × (local s n ≡ Some r)
        × (r.deleted ≡ false) }
{}

/// For a ticket or a commit that is stray no such pull is open.
pub fn stray_pulls_are_not_open()
    ensures ticket { (s : FolderState) (t : PullInfo) →
        ((step s (EnterCommit t)).0 ≡ Stray) ⊎ ((step s (GiveUp t)).0 ≡ Stray) → (p : Pull) →
        ¬ (IsFor s t Pulling p) }
    ensures commit { (s : FolderState) (c : PullInfo) (assembled : FileRecord) →
        ((step s (Finish c assembled)).0 ≡ Stray) ⊎ ((step s (Abort c)).0 ≡ Stray) → (p : Pull) →
        ¬ (IsFor s c Committing p) }
{}

/// An open pull stays as it is, but that its commit may be entered, until an accepted change of its name ends it. No two open pulls
/// have the same number.
pub fn open_pulls_stay()
    // One of two, for each change: the pull stays open, at most entered now, or an accepted change of the name ends it.
    ensures kept { (s : FolderState) (c : Change) (n : Name) (p : Pull) → get s.pulls n ≡ Some p →
        ((q : Pull) × (get (step s c).1.pulls n ≡ Some q)
        × ((q ≡ p) ⊎ (q ≡ record p { stage = Committing })))
        ⊎ ((get (step s c).1.pulls n ≡ None) × (is_accepted (step s c).0 ≡ true)
        × ((t : PullInfo) × (t.name ≡ n) × ((c ≡ GiveUp t)
        ⊎ ((c ≡ Abort t) ⊎ ((r : FileRecord) × (c ≡ Finish t r)))))) }
    ensures numbers { (s : FolderState) (c : Change) → HaveOwnNumbers s →
        HaveOwnNumbers (step s c).1 }
{}

/// Where a commit is not entered, the ticket that comes back is the one that was given.
pub fn tickets_come_back()
    ensures local_moved { (given back : PullInfo) →
        GivesBack given (LocalMoved back) ↔ (back ≡ given) }
    ensures superseded { (given back : PullInfo) →
        GivesBack given (Superseded back) ↔ (back ≡ given) }
    ensures sequence_full { (given back : PullInfo) →
        GivesBack given (SequenceFull back) ↔ (back ≡ given) }
    ensures out_of_memory { (given back : PullInfo) →
        GivesBack given (OutOfMemory back) ↔ (back ≡ given) }
{}
