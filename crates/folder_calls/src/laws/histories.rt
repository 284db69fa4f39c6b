//! Histories of a folder, and the answers that callers who share one get.
ghost use Rattle.std.specs.Prelude.{[], ◌∷◌, ◌++◌, ◌≡◌, ◌≢◌, ◌↔◌, ◌⊎◌, ◌<◌, ◌≤◌, ◌+◌, ℕ, length, List, Some, None, IsTrue, true, false};
ghost use Rattle.std.specs.FinMap.{entries, len};
ghost use Rattle.sync_record.specs.Records.{FileRecord, Name};
ghost use Rattle.folder_core.specs.Announced.{KeyedRecord, best};
ghost use Rattle.folder_core.specs.States.{FolderState, IsFolder, local};
ghost use Rattle.folder_calls.specs.declared.entry.Entry.{Entry};
ghost use Rattle.folder_calls.specs.Histories.{IsLegal, IsReplay, state_after, shared_answer, own_entries, CommitsAreLegal};
ghost use Rattle.folder_calls.specs.Shared.{CallerView, IsLegalView, seeing};
ghost use Rattle.folder_core.specs.declared.change.Change.{Change};
ghost use Rattle.folder_core.specs.Runs.{ends_pull};
ghost use Rattle.folder_core.specs.declared.answer.Answer.TheVariants.{Begun};
ghost use Rattle.folder_core.specs.declared.answer.Answer.{Answer};
ghost use Rattle.folder_core.specs.declared.answer.Answer.TheVariants.{HistoryFull};
ghost use Rattle.folder_core.specs.declared.pull_info.PullInfo.{PullInfo};
ghost use Rattle.folder_core.specs.Steps.{MayChange, step, is_accepted};

/// In a legal history each finish ends one pull that was begun over the local record and entered there, and not ended
/// before, over the local version of its begin, with its target, of each of whose blocks some bytes have the size and the
/// digest; and each pull is begun over the local record, for the best.
pub fn commits_are_legal()
    ensures finish { CommitsAreLegal }
    // Where the entry `e` begins a pull, its ticket has the local record and the best of the state just before it.
    ensures begin { (passes : ℕ) (opening : FolderState) (front rest : List Entry) (e : Entry)
        (t : PullInfo) →
        IsLegal passes opening (front ++ e ∷ rest) → e.answer ≡ Begun t →
        (t.base ≡ local (state_after opening front) t.name)
        × (b : KeyedRecord) × (best (entries (state_after opening front).announced) t.name
        ≡ Some b) × (t.target ≡ b.1) }
{}

/// The empty history is legal, and one more entry keeps a history legal exactly where its pass was given out, its caller
/// kept the change's conditions, and its answer is accepted and is the step's after the entries before it.
pub fn legal_histories_grow()
    ensures none { (passes : ℕ) (s : FolderState) → IsLegal passes s [] × (state_after s [] ≡ s) }
    // Both directions in one: the longer history is legal exactly if the shorter one is and its last entry fits.
    ensures one_more { (passes : ℕ) (s : FolderState) (es : List Entry) (e : Entry) →
        IsLegal passes s (es ++ e ∷ []) ↔
        (IsLegal passes s es × (1 ≤ e.pass) × (e.pass ≤ passes) × MayChange s.me e.change
        × ((step (state_after s es) e.change).0 ≡ e.answer) × IsTrue (is_accepted e.answer)) }
    ensures leads { (s : FolderState) (es : List Entry) (e : Entry) →
        state_after s (es ++ e ∷ []) ≡ (step (state_after s es) e.change).1 }
    ensures replays { (passes : ℕ) (s t : FolderState) (es : List Entry) →
        IsReplay passes s es t ↔ ((len s.pulls ≡ 0) × IsLegal passes s es
        × (state_after s es ≡ t)) }
{}

/// A legal history of a folder leads to a folder.
pub fn histories_keep_folders()
    ensures { (passes : ℕ) (s : FolderState) (es : List Entry) → IsFolder s → IsLegal passes s es →
        IsFolder (state_after s es) }
{}

/// After a history a change is answered as the step answers, except with HistoryFull where it would be accepted and its
/// entry and those of the pulls that are then open have no room. So an accepted change leaves room for them, and where
/// it was left, what ends an open pull is not answered with HistoryFull.
pub fn histories_keep_room()
    // A change that would be accepted, but has no room, is answered with `HistoryFull`: a premise for each of the two.
    ensures full { (limit : ℕ) (s : FolderState) (es : List Entry) (c : Change) →
        is_accepted (step (state_after s es) c).0 ≡ true →
        limit < length es + 1 + len (step (state_after s es) c).1.pulls →
        shared_answer limit s es c ≡ HistoryFull }
    // In each other case, declined or with room left, the answer is that of the folder by itself.
    ensures answered { (limit : ℕ) (s : FolderState) (es : List Entry) (c : Change) →
        (is_accepted (step (state_after s es) c).0 ≡ false)
        ⊎ (length es + 1 + len (step (state_after s es) c).1.pulls ≤ limit) →
        shared_answer limit s es c ≡ (step (state_after s es) c).0 }
    ensures left { (limit : ℕ) (s : FolderState) (es : List Entry) (c : Change) →
        is_accepted (shared_answer limit s es c) ≡ true →
        length es + 1 + len (step (state_after s es) c).1.pulls ≤ limit }
    // With room left, a change that ends a pull is answered as by the folder itself.
    ensures ends { (limit : ℕ) (s : FolderState) (es : List Entry) (c : Change) →
        length es + len (state_after s es).pulls ≤ limit → ends_pull c ≡ true →
        shared_answer limit s es c ≡ (step (state_after s es) c).0 }
{}

/// The entries of a pass are those that have it, in their order.
pub fn own_entries_are_those_of_the_pass()
    ensures none { (pass : ℕ) → own_entries pass [] ≡ [] }
    ensures own { (pass : ℕ) (es : List Entry) (e : Entry) → e.pass ≡ pass →
        own_entries pass (es ++ e ∷ []) ≡ own_entries pass es ++ e ∷ [] }
    ensures others { (pass : ℕ) (es : List Entry) (e : Entry) → e.pass ≢ pass →
        own_entries pass (es ++ e ∷ []) ≡ own_entries pass es }
{}

/// A beginning of a legal history is legal, and so is what comes after it, from where it leads; the entries of a pass in the whole
/// are those in the one and then those in the other. Entries and open pulls together never become fewer, so a beginning has
/// room if the whole has.
pub fn histories_may_be_divided()
    ensures legal { (passes : ℕ) (s : FolderState) (es fs : List Entry) →
        IsLegal passes s (es ++ fs) ↔
        (IsLegal passes s es × IsLegal passes (state_after s es) fs) }
    ensures leads { (s : FolderState) (es fs : List Entry) →
        state_after s (es ++ fs) ≡ state_after (state_after s es) fs }
    ensures own { (pass : ℕ) (es fs : List Entry) →
        own_entries pass (es ++ fs) ≡ own_entries pass es ++ own_entries pass fs }
    ensures room { (s : FolderState) (es fs : List Entry) →
        length es + len (state_after s es).pulls
        ≤ length (es ++ fs) + len (state_after s (es ++ fs)).pulls }
    ensures view { (v : CallerView) (es fs : List Entry) → IsLegalView (seeing v (es ++ fs)) →
        IsLegalView (seeing v es) }
{}

/// Along a legal history a local record stays, or another comes in its place whose sequence is greater than every sequence before;
/// none disappears. The last sequence never falls.
pub fn local_records_go_on()
    ensures records { (passes : ℕ) (s : FolderState) (es : List Entry) (n : Name) →
        IsLegal passes s es →
        (local (state_after s es) n ≡ local s n)
        ⊎ ((r : FileRecord) × (local (state_after s es) n ≡ Some r) × (s.last < r.sequence)) }
    ensures last { (s : FolderState) (es : List Entry) → s.last ≤ (state_after s es).last }
{}
