//! What scans answer and record.
ghost use Rattle.std.specs.Prelude.{[], ◌≡◌, ◌≢◌, ◌⊎◌, ◌<◌, ◌≤◌, ◌+◌, ◌-◌, ◌^◌, ℕ, pos, unwrap_or, Option, List, Some, IsTrue, true, false};
ghost use Rattle.std.specs.FinMap.{get};
ghost use Rattle.sync_version.specs.Versions.{Vector, counter};
ghost use Rattle.sync_version.specs.Computed.{raised};
ghost use Rattle.sync_blocks.specs.declared.block.Block.{Block};
ghost use Rattle.sync_record.specs.Devices.{short_id};
ghost use Rattle.sync_record.specs.Records.{Name, FileRecord, is_file, is_directory};
ghost use Rattle.sync_record.specs.Contents.{same_content};
ghost use Rattle.folder_core.specs.States.{FolderState, Pull, IsFolder, NoCommit, local, local_version, max_sequence, open_commits};
ghost use Rattle.folder_core.specs.declared.pull_stage.PullStage.TheVariants.{Pulling, Committing};
ghost use Rattle.folder_core.specs.declared.change.Change.TheVariants.{ScanFound, ScanGone};
ghost use Rattle.folder_core.specs.declared.answer.Answer.TheVariants.{Busy, Moved, Unchanged, CounterFull, SequenceFull, Recorded};
ghost use Rattle.folder_core.specs.declared.finding.Finding.{Finding};
ghost use Rattle.folder_core.specs.declared.finding.FoundContent.TheVariants.{File as FoundFile, Directory as FoundDirectory};
ghost use Rattle.folder_core.specs.Steps.{HasNewContent, found_record, next_version, own_counter, step};

/// A scan of a finding records nothing, in this order: while a commit of the name is open; where the local version isn't the
/// expected one; where the local record has the content; where the counter, and where the sequence can't rise.
pub fn findings_are_tested_in_order()
    ensures busy { (s : FolderState) (n : Name) (expected : Option Vector) (f : Finding)
        (moment : ℕ) (p : Pull) →
        get s.pulls n ≡ Some p → p.stage ≡ Committing →
        (step s (ScanFound n expected f moment)).0 ≡ Busy }
    ensures moved { (s : FolderState) (n : Name) (expected : Option Vector) (f : Finding)
        (moment : ℕ) →
        NoCommit s n → expected ≢ local_version s n →
        (step s (ScanFound n expected f moment)).0 ≡ Moved (local_version s n) }
    // The third test: no commit is open and the version is as expected, but the local record has this content already.
    ensures unchanged { (s : FolderState) (n : Name) (f : Finding) (moment : ℕ) (r : FileRecord) →
        NoCommit s n → local s n ≡ Some r →
        IsTrue (same_content (found_record s n (next_version s n moment) f) r) →
        (step s (ScanFound n (local_version s n) f moment)).0 ≡ Unchanged }
    // The fourth test: the content is new, but this device's counter in the local version is the greatest.
    ensures counter { (s : FolderState) (n : Name) (f : Finding) (moment : ℕ) →
        NoCommit s n →
        HasNewContent s n f moment →
        own_counter s n ≡ 2 ^ 64 - 1 →
        (step s (ScanFound n (local_version s n) f moment)).0 ≡ CounterFull }
    // The fifth and last test: the counter can rise, but the open commits take all sequences that are left.
    ensures sequence { (s : FolderState) (n : Name) (f : Finding) (moment : ℕ) →
        NoCommit s n →
        HasNewContent s n f moment →
        own_counter s n ≢ 2 ^ 64 - 1 →
        max_sequence - s.last ≤ open_commits s →
        (step s (ScanFound n (local_version s n) f moment)).0 ≡ SequenceFull }
    // None of the five tests refuses: a premise for each but the second, as the local version is the expected one here.
    ensures recorded { (s : FolderState) (n : Name) (f : Finding) (moment : ℕ) →
        NoCommit s n →
        HasNewContent s n f moment →
        own_counter s n ≢ 2 ^ 64 - 1 →
        open_commits s < max_sequence - s.last →
        (step s (ScanFound n (local_version s n) f moment)).0 ≡ Recorded (s.last + 1) }
{}

/// The answer to a finding is Unchanged only where the local record is live and says what was found: a directory, or a
/// file of that size and, where it isn't empty, of that block size and those blocks. So no edit is taken for what was
/// there. And where the record says so, no commit is open and the local version is the expected one, that is the answer.
pub fn unchanged_is_what_was_there()
    // `Unchanged` for a directory means that there is one local record `r`, live and of a directory.
    ensures directory { (s : FolderState) (n : Name) (expected : Option Vector) (f : Finding)
        (moment : ℕ) →
        f.content ≡ FoundDirectory → (step s (ScanFound n expected f moment)).0 ≡ Unchanged →
        (r : FileRecord) × (local s n ≡ Some r) × (r.deleted ≡ false) × IsTrue (is_directory r) }
    // `Unchanged` for a file says of one local record `r`: live, a file, of that size and, if not empty, those blocks.
    ensures file { (s : FolderState) (n : Name) (expected : Option Vector) (f : Finding)
        (size block_size : ℕ) (blocks : List Block) (moment : ℕ) →
        f.content ≡ FoundFile size block_size blocks →
        (step s (ScanFound n expected f moment)).0 ≡ Unchanged →
        (r : FileRecord) × (local s n ≡ Some r) × (r.deleted ≡ false) × IsTrue (is_file r)
        × (r.size ≡ pos size)
        × ((size ≡ 0) ⊎ ((r.block_size ≡ pos block_size) × (r.blocks ≡ blocks))) }
    // The other direction of `directory`: where the local record is like that and no commit is open, it is `Unchanged`.
    ensures same_directory { (s : FolderState) (n : Name) (f : Finding) (moment : ℕ)
        (r : FileRecord) →
        NoCommit s n → f.content ≡ FoundDirectory →
        local s n ≡ Some r → r.deleted ≡ false → IsTrue (is_directory r) →
        (step s (ScanFound n (local_version s n) f moment)).0 ≡ Unchanged }
    // The other direction of `file`, with what that says of the local record `r` as premises.
    ensures same_file { (s : FolderState) (n : Name) (f : Finding)
        (size block_size : ℕ) (blocks : List Block) (moment : ℕ) (r : FileRecord) →
        NoCommit s n → f.content ≡ FoundFile size block_size blocks →
        local s n ≡ Some r → r.deleted ≡ false → IsTrue (is_file r) → r.size ≡ pos size →
        (size ≡ 0) ⊎ ((r.block_size ≡ pos block_size) × (r.blocks ≡ blocks)) →
        (step s (ScanFound n (local_version s n) f moment)).0 ≡ Unchanged }
{}

/// A scan of a name that is gone has the same tests in the same order; it is unchanged where there is no live local
/// record.
pub fn losses_are_tested_in_order()
    ensures busy { (s : FolderState) (n : Name) (expected : Option Vector) (moment : ℕ) (p : Pull) →
        get s.pulls n ≡ Some p → p.stage ≡ Committing →
        (step s (ScanGone n expected moment)).0 ≡ Busy }
    ensures moved { (s : FolderState) (n : Name) (expected : Option Vector) (moment : ℕ) →
        NoCommit s n → expected ≢ local_version s n →
        (step s (ScanGone n expected moment)).0 ≡ Moved (local_version s n) }
    ensures unchanged { (s : FolderState) (n : Name) (moment : ℕ) →
        NoCommit s n →
        ((r : FileRecord) → local s n ≡ Some r → IsTrue r.deleted) →
        (step s (ScanGone n (local_version s n) moment)).0 ≡ Unchanged }
    // The fourth test: the local record is live, but this device's counter in its version is the greatest.
    ensures counter { (s : FolderState) (n : Name) (moment : ℕ) (r : FileRecord) →
        NoCommit s n → local s n ≡ Some r → r.deleted ≡ false →
        counter r.version (short_id s.me) ≡ 2 ^ 64 - 1 →
        (step s (ScanGone n (local_version s n) moment)).0 ≡ CounterFull }
    // The fifth and last test: the counter can rise, but the open commits take all sequences that are left.
    ensures sequence { (s : FolderState) (n : Name) (moment : ℕ) (r : FileRecord) →
        NoCommit s n → local s n ≡ Some r → r.deleted ≡ false →
        counter r.version (short_id s.me) ≢ 2 ^ 64 - 1 → max_sequence - s.last ≤ open_commits s →
        (step s (ScanGone n (local_version s n) moment)).0 ≡ SequenceFull }
    // None of the five tests refuses: the local record `r` is live, and its deletion takes the next sequence.
    ensures recorded { (s : FolderState) (n : Name) (moment : ℕ) (r : FileRecord) →
        NoCommit s n → local s n ≡ Some r → r.deleted ≡ false →
        counter r.version (short_id s.me) ≢ 2 ^ 64 - 1 → open_commits s < max_sequence - s.last →
        (step s (ScanGone n (local_version s n) moment)).0 ≡ Recorded (s.last + 1) }
{}

/// What is recorded of a finding: its content and time, by this device, under the local version raised at the moment
/// and under the next sequence.
pub fn scans_record_what_is_found()
    ensures number { (s : FolderState) (n : Name) (expected : Option Vector) (f : Finding)
        (moment k : ℕ) →
        (step s (ScanFound n expected f moment)).0 ≡ Recorded k → k ≡ s.last + 1 }
    // The local record after a file was found: one value, all of whose fields are given here.
    ensures file { (s : FolderState) (n : Name) (expected : Option Vector) (f : Finding)
        (size block_size : ℕ) (blocks : List Block) (moment k : ℕ) →
        f.content ≡ FoundFile size block_size blocks →
        (step s (ScanFound n expected f moment)).0 ≡ Recorded k →
        local (step s (ScanFound n expected f moment)).1 n ≡ Some (record {
          name = n;
          type_number = pos 0;
          size = pos size;
          permissions = 0;
          modified_s = f.modified_s;
          modified_ns = f.modified_ns;
          modified_by = short_id s.me;
          deleted = false;
          invalid = false;
          no_permissions = true;
          version = raised (unwrap_or (local_version s n) []) (short_id s.me) moment;
          sequence = s.last + 1;
          block_size = pos block_size;
          blocks = blocks;
          symlink_target = [];
        }) }
    // The local record after a directory was found, again as one value: of size 0, without blocks.
    ensures directory { (s : FolderState) (n : Name) (expected : Option Vector) (f : Finding)
        (moment k : ℕ) →
        f.content ≡ FoundDirectory → (step s (ScanFound n expected f moment)).0 ≡ Recorded k →
        local (step s (ScanFound n expected f moment)).1 n ≡ Some (record {
          name = n;
          type_number = pos 1;
          size = pos 0;
          permissions = 0;
          modified_s = f.modified_s;
          modified_ns = f.modified_ns;
          modified_by = short_id s.me;
          deleted = false;
          invalid = false;
          no_permissions = true;
          version = raised (unwrap_or (local_version s n) []) (short_id s.me) moment;
          sequence = s.last + 1;
          block_size = pos 131072;
          blocks = [];
          symlink_target = [];
        }) }
    ensures others { (s : FolderState) (n m : Name) (expected : Option Vector) (f : Finding)
        (moment k : ℕ) →
        (step s (ScanFound n expected f moment)).0 ≡ Recorded k → m ≢ n →
        local (step s (ScanFound n expected f moment)).1 m ≡ local s m }
{}

/// What is recorded of a name that is gone: the local record as a deletion without content at the moment, by this
/// device, under its version raised at the moment and under the next sequence.
pub fn scans_record_what_is_gone()
    ensures number { (s : FolderState) (n : Name) (expected : Option Vector) (moment k : ℕ)
        (r : FileRecord) →
        local s n ≡ Some r → (step s (ScanGone n expected moment)).0 ≡ Recorded k → k ≡ s.last + 1 }
    // The local record after a loss: the one that was there, `r`, with just these fields changed.
    ensures deletion { (s : FolderState) (n : Name) (expected : Option Vector) (moment k : ℕ)
        (r : FileRecord) →
        IsFolder s → local s n ≡ Some r → (step s (ScanGone n expected moment)).0 ≡ Recorded k →
        local (step s (ScanGone n expected moment)).1 n ≡ Some (record r {
          deleted = true;
          size = pos 0;
          blocks = [];
          modified_s = pos moment;
          modified_ns = pos 0;
          modified_by = short_id s.me;
          invalid = false;
          permissions = 0;
          no_permissions = true;
          version = raised r.version (short_id s.me) moment;
          sequence = s.last + 1;
        }) }
    // A loss that is recorded leaves the local record of each other name. Its premises are those of `deletion`.
    ensures others { (s : FolderState) (n m : Name) (expected : Option Vector) (moment k : ℕ)
        (r : FileRecord) →
        IsFolder s → local s n ≡ Some r → (step s (ScanGone n expected moment)).0 ≡ Recorded k →
        m ≢ n →
        local (step s (ScanGone n expected moment)).1 m ≡ local s m }
{}
