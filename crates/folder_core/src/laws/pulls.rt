//! What is needed, and what pulls answer and record.
ghost use Rattle.std.specs.Prelude.{[], ◌≡◌, ◌≢◌, ◌↔◌, ◌⊎◌, ◌<◌, ◌≤◌, ◌+◌, ◌-◌, ◌^◌, ℕ, ℤ, pos, unwrap_or, option_map, Option, Some, None, IsTrue, true, false, Contains};
ghost use Rattle.std.specs.List.Sorted.{IsStrictlySortedBy};
ghost use Rattle.std.specs.FinMap.{get, entries};
ghost use Rattle.sync_version.specs.Versions.{Covers};
ghost use Rattle.sync_version.specs.Computed.{merge};
ghost use Rattle.sync_record.specs.Devices.{bytes_cmp};
ghost use Rattle.sync_record.specs.Records.{Name, FileRecord, is_file, is_directory};
ghost use Rattle.sync_record.specs.Contents.{same_content};
ghost use Rattle.sync_record.specs.Validity.{is_valid};
ghost use Rattle.folder_core.specs.Announced.{KeyedRecord, best};
ghost use Rattle.folder_core.specs.States.{FolderState, Pull, IsFolder, local, local_version, max_sequence, need, open_commits};
ghost use Rattle.folder_core.specs.declared.pull_stage.PullStage.TheVariants.{Pulling, Committing};
ghost use Rattle.folder_core.specs.declared.change.Change.TheVariants.{BeginPull, EnterCommit, Finish, GiveUp, Abort};
ghost use Rattle.folder_core.specs.declared.answer.Answer.TheVariants.{Busy, SequenceFull, NotNeeded, Unsupported, Begun};
ghost use Rattle.folder_core.specs.declared.answer.Answer.TheVariants.{Stray, LocalMoved, Superseded, Entered, Done, Closed};
ghost use Rattle.folder_core.specs.declared.pull_info.PullInfo.{PullInfo};
ghost use Rattle.folder_core.specs.Steps.{IsFor, step, is_copy_due};

/// Needed names strictly rise. A name is needed exactly where it has a best, the local record is absent or of
/// another version, and the best isn't a deletion of what isn't there.
pub fn need_is_the_rule()
    ensures rises { (s : FolderState) → IsStrictlySortedBy bytes_cmp (need s) }
    // Exactly when a name is needed: it has a best `e`, and the two conditions after that are on this `e`.
    ensures rule { (s : FolderState) (n : Name) → Contains (need s) n ↔
        ((e : KeyedRecord) × (best (entries s.announced) n ≡ Some e)
        × ((r : FileRecord) → local s n ≡ Some r → r.version ≢ e.1.version)
        × ¬ (IsTrue e.1.deleted × (local s n ≡ None))) }
{}

/// To begin a pull is answered with Busy where one of the name is open, with NotNeeded where the name isn't needed, and
/// with Unsupported where the best is live and neither a file nor a directory. Else it is begun: over the local record,
/// for the best, under the least positive number that no open pull has; and it is open then, as its ticket says.
pub fn begin_pull_takes_the_needed()
    ensures busy { (s : FolderState) (n : Name) (p : Pull) → get s.pulls n ≡ Some p →
        (step s (BeginPull n)).0 ≡ Busy }
    ensures not_needed { (s : FolderState) (n : Name) →
        get s.pulls n ≡ None → ¬ (Contains (need s) n) → (step s (BeginPull n)).0 ≡ NotNeeded }
    // The third test: no pull is open and the name is needed, but its best `e` is of no kind that can be pulled.
    ensures unsupported { (s : FolderState) (n : Name) (e : KeyedRecord) →
        get s.pulls n ≡ None → best (entries s.announced) n ≡ Some e → Contains (need s) n →
        e.1.deleted ≡ false → is_file e.1 ≡ false → is_directory e.1 ≡ false →
        (step s (BeginPull n)).0 ≡ Unsupported }
    // No test refuses. Then there is one ticket, with the name, its local record, the best, and the least free number.
    ensures begun { (s : FolderState) (n : Name) (e : KeyedRecord) →
        get s.pulls n ≡ None → best (entries s.announced) n ≡ Some e → Contains (need s) n →
        (e.1.deleted ≡ true) ⊎ ((is_file e.1 ≡ true) ⊎ (is_directory e.1 ≡ true)) →
        (t : PullInfo) × ((step s (BeginPull n)).0 ≡ Begun t) × (t.name ≡ n) × (t.base ≡ local s n)
        × (t.target ≡ e.1)
        × (1 ≤ t.number) × ((m : Name) (p : Pull) → get s.pulls m ≡ Some p → p.number ≢ t.number)
        × ((k : ℕ) → 1 ≤ k → k < t.number → (m : Name) × (p : Pull) × (get s.pulls m ≡ Some p)
        × (p.number ≡ k)) }
    // The pull that is open after the begin, written as one value: all its fields but the stage come from the ticket.
    ensures opened { (s : FolderState) (n : Name) (t : PullInfo) →
        (step s (BeginPull n)).0 ≡ Begun t →
        get (step s (BeginPull n)).1.pulls n ≡ Some (record {
          number = t.number;
          base = option_map (λ r. r.version) t.base;
          target = t.target;
          stage = Pulling;
        }) }
{}

/// A commit is not entered, in this order: with a ticket that is for no open pull; where the local version isn't that of
/// the begin; where the best hasn't the target's version and content; where no sequence is left. Else the pull is
/// committing.
pub fn entering_is_tested_in_order()
    ensures stray { (s : FolderState) (t : PullInfo) →
        ((p : Pull) → ¬ (IsFor s t Pulling p)) →
        (step s (EnterCommit t)).0 ≡ Stray }
    ensures moved { (s : FolderState) (t : PullInfo) (p : Pull) →
        IsFor s t Pulling p →
        local_version s t.name ≢ p.base → (step s (EnterCommit t)).0 ≡ LocalMoved }
    // The third test: the pull is open and the local version still its base, but the best isn't the target any more.
    ensures superseded { (s : FolderState) (t : PullInfo) (p : Pull) →
        IsFor s t Pulling p →
        local_version s t.name ≡ p.base →
        ((e : KeyedRecord) → best (entries s.announced) t.target.name ≡ Some e →
        e.1.version ≡ t.target.version → same_content e.1 t.target ≡ false) →
        (step s (EnterCommit t)).0 ≡ Superseded }
    // The fourth and last test: the three before it don't refuse, but open commits take all sequences that are left.
    ensures sequence { (s : FolderState) (t : PullInfo) (p : Pull) (e : KeyedRecord) →
        IsFor s t Pulling p →
        local_version s t.name ≡ p.base → best (entries s.announced) t.target.name ≡ Some e →
        e.1.version ≡ t.target.version → IsTrue (same_content e.1 t.target) →
        max_sequence - s.last ≤ open_commits s → (step s (EnterCommit t)).0 ≡ SequenceFull }
    // None of the four tests refuses, with a premise for each of their parts, and the answer is `Entered`.
    ensures entered { (s : FolderState) (t : PullInfo) (p : Pull) (e : KeyedRecord) →
        IsFor s t Pulling p →
        local_version s t.name ≡ p.base → best (entries s.announced) t.target.name ≡ Some e →
        e.1.version ≡ t.target.version → IsTrue (same_content e.1 t.target) →
        open_commits s < max_sequence - s.last → (step s (EnterCommit t)).0 ≡ Entered t }
    ensures committing { (s : FolderState) (t : PullInfo) (p : Pull) →
        get s.pulls t.name ≡ Some p → (step s (EnterCommit t)).0 ≡ Entered t →
        get (step s (EnterCommit t)).1.pulls t.name ≡ Some (record p { stage = Committing }) }
{}

/// A pull ends by a ticket or a commit that is for it, and by no other; and then none of its name is open.
pub fn pulls_end_by_their_tickets()
    ensures done { (s : FolderState) (t : PullInfo) (assembled : FileRecord) (p : Pull) →
        IsFor s t Committing p →
        (step s (Finish t assembled)).0 ≡ Done (s.last + 1) }
    ensures no_commit { (s : FolderState) (t : PullInfo) (assembled : FileRecord) →
        ((p : Pull) → ¬ (IsFor s t Committing p)) →
        (step s (Finish t assembled)).0 ≡ Stray }
    ensures given_up { (s : FolderState) (t : PullInfo) (p : Pull) →
        IsFor s t Pulling p →
        (step s (GiveUp t)).0 ≡ Closed }
    ensures none_to_give_up { (s : FolderState) (t : PullInfo) →
        ((p : Pull) → ¬ (IsFor s t Pulling p)) →
        (step s (GiveUp t)).0 ≡ Stray }
    ensures aborted { (s : FolderState) (t : PullInfo) (p : Pull) →
        IsFor s t Committing p →
        (step s (Abort t)).0 ≡ Closed }
    ensures none_to_abort { (s : FolderState) (t : PullInfo) →
        ((p : Pull) → ¬ (IsFor s t Committing p)) →
        (step s (Abort t)).0 ≡ Stray }
    ensures none_after_giving_up { (s : FolderState) (t : PullInfo) →
        (step s (GiveUp t)).0 ≡ Closed → get (step s (GiveUp t)).1.pulls t.name ≡ None }
    ensures none_after_abort { (s : FolderState) (t : PullInfo) →
        (step s (Abort t)).0 ≡ Closed → get (step s (Abort t)).1.pulls t.name ≡ None }
{}

/// A finish closes the committing pull that its commit is for, and records the valid target with both versions'
/// counters under the next sequence: the local version is still that of the begin.
pub fn finish_records_the_target()
    // A finish that is done ends one open pull `p`: which one, what is recorded of its target, and that it is closed.
    ensures recorded { (s : FolderState) (c : PullInfo) (assembled : FileRecord) (k : ℕ) →
        IsFolder s → (step s (Finish c assembled)).0 ≡ Done k →
        (p : Pull) × (get s.pulls c.name ≡ Some p) × (p.stage ≡ Committing)
        × (p.number ≡ c.number) × (p.target ≡ c.target) × IsTrue (is_valid c.target)
        × (local_version s c.name ≡ p.base) × (k ≡ s.last + 1)
        × (local (step s (Finish c assembled)).1 c.name ≡ Some (record c.target {
          version = merge (unwrap_or p.base []) c.target.version;
          sequence = k;
        }))
        × (get (step s (Finish c assembled)).1.pulls c.name ≡ None) }
    ensures others { (s : FolderState) (c : PullInfo) (assembled : FileRecord) (k : ℕ) (m : Name) →
        IsFolder s → (step s (Finish c assembled)).0 ≡ Done k → m ≢ c.name →
        local (step s (Finish c assembled)).1 m ≡ local s m }
{}

/// A conflict copy is due exactly where copies are kept, a live file would be replaced by a live target of another content,
/// and neither of their versions has seen the other.
pub fn copies_are_due_in_conflict()
    // Both directions in one: a copy is due exactly if there is a local record `b` with which all of this holds.
    ensures { (most_copies : ℤ) (base : Option FileRecord) (target : FileRecord) →
        IsTrue (is_copy_due most_copies base target) ↔
        ((b : FileRecord) × (base ≡ Some b) × (most_copies ≢ pos 0) × (b.deleted ≡ false)
        × IsTrue (is_file b)
        × (target.deleted ≡ false) × ¬ (Covers b.version target.version)
        × ¬ (Covers target.version b.version)
        × (same_content b target ≡ false)) }
{}
