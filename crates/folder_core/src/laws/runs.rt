//! What changes that are made one after the other come to.
ghost use Rattle.std.specs.Prelude.{[], ◌∷◌, ◌++◌, ◌≡◌, ◌↔◌, ◌⊎◌, ℕ, List, Some, true};
ghost use Rattle.sync_record.specs.Records.{FileRecord};
ghost use Rattle.sync_version.specs.Versions.{Vector};
ghost use Rattle.folder_core.specs.Calls.{copy_allocates, may_allocate};
ghost use Rattle.folder_core.specs.Runs.{IsPartway, ends_pull, run};
ghost use Rattle.folder_core.specs.States.{FolderState};
ghost use Rattle.folder_core.specs.Steps.{step};
ghost use Rattle.folder_core.specs.declared.answer.Answer.{Answer};
ghost use Rattle.folder_core.specs.declared.answer.Answer.TheVariants.{Begun, Entered, Moved, Recorded};
ghost use Rattle.folder_core.specs.declared.change.Change.{Change};
ghost use Rattle.folder_core.specs.declared.change.Change.TheVariants.{Abort, Finish, GiveUp};
ghost use Rattle.folder_core.specs.declared.pull_info.PullInfo.{PullInfo};

/// Changes are made in their order, each on the state that those before it leave. If memory runs out on the way, the answers are
/// those of the first changes, and the state is the one that these leave.
pub fn changes_are_made_in_order()
    ensures none { (s : FolderState) → run s [] ≡ ([], s) }
    ensures one { (s : FolderState) (c : Change) →
        run s (c ∷ []) ≡ ((step s c).0 ∷ [], (step s c).1) }
    ensures more { (s : FolderState) (cs ds : List Change) →
        run s (cs ++ ds) ≡ ((run s cs).0 ++ (run (run s cs).1 ds).0, (run (run s cs).1 ds).1) }
    ensures partway { (s t : FolderState) (cs : List Change) (answers : List Answer) →
        IsPartway s cs answers t →
        (made rest : List Change) × (cs ≡ made ++ rest) × (answers ≡ (run s made).0)
        × (t ≡ (run s made).1) }
{}

/// A finish, giving up and an abort end a pull, and nothing else does.
pub fn pulls_end_by_three_changes()
    ensures { (c : Change) → (ends_pull c ≡ true)
        ↔ (((t : PullInfo) × (r : FileRecord) × (c ≡ Finish t r))
        ⊎ (((t : PullInfo) × (c ≡ GiveUp t)) ⊎ ((t : PullInfo) × (c ≡ Abort t)))) }
{}

/// The answers with which a scan, a begin or an entered commit may have allocated, and those of which a copy may.
pub fn few_answers_allocate()
    ensures calls { (a : Answer) → (may_allocate a ≡ true)
        ↔ (((k : ℕ) × (a ≡ Recorded k)) ⊎ (((v : Vector) × (a ≡ Moved (Some v)))
        ⊎ (((t : PullInfo) × (a ≡ Begun t)) ⊎ ((t : PullInfo) × (a ≡ Entered t))))) }
    ensures copies { (a : Answer) → (copy_allocates a ≡ true)
        ↔ (((v : Vector) × (a ≡ Moved (Some v)))
        ⊎ (((t : PullInfo) × (a ≡ Begun t)) ⊎ ((t : PullInfo) × (a ≡ Entered t)))) }
{}
