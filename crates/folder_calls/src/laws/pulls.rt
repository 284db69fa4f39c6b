//! Which entries of a history begin, enter and end pulls, and what a finish ends.
ghost use Rattle.std.specs.Prelude.{◌≡◌, ◌↔◌, ◌⊎◌, ◌++◌, ◌∷◌, List, true};
ghost use Rattle.sync_record.specs.Assemblies.{IsAssembled};
ghost use Rattle.sync_record.specs.Records.{FileRecord, Name};
ghost use Rattle.folder_core.specs.States.{FolderState, local_version};
ghost use Rattle.folder_core.specs.Steps.{is_accepted};
ghost use Rattle.folder_core.specs.declared.answer.Answer.{Answer};
ghost use Rattle.folder_core.specs.declared.answer.Answer.TheVariants.{Begun, Entered};
ghost use Rattle.folder_core.specs.declared.change.Change.TheVariants.{Finish, GiveUp, Abort};
ghost use Rattle.folder_core.specs.declared.pull_info.PullInfo.{PullInfo};
ghost use Rattle.folder_calls.specs.Calls.{GivesBack};
ghost use Rattle.folder_calls.specs.Histories.{EndsPull, is_begin_of, is_end_of, is_enter_of, state_after};
ghost use Rattle.folder_calls.specs.declared.entry.Entry.{Entry};
ghost use Rattle.folder_calls.specs.declared.pull.EnterRefusal.TheVariants.{HistoryFull, LocalMoved, SequenceFull, Superseded};

/// The entries that begin a pull of a name, enter its commit and end it are those with such an answer or change of that name.
pub fn entries_of_pulls_are_of_their_name()
    ensures begins { (n : Name) (a : Answer) → (is_begin_of n a ≡ true)
        ↔ ((t : PullInfo) × (a ≡ Begun t) × (t.name ≡ n)) }
    ensures enters { (n : Name) (a : Answer) → (is_enter_of n a ≡ true)
        ↔ ((t : PullInfo) × (a ≡ Entered t) × (t.name ≡ n)) }
    ensures ends { (n : Name) (e : Entry) → (is_end_of n e ≡ true) ↔
        ((is_accepted e.answer ≡ true) × ((t : PullInfo) × (t.name ≡ n)
        × (((r : FileRecord) × (e.change ≡ Finish t r))
        ⊎ ((e.change ≡ GiveUp t) ⊎ (e.change ≡ Abort t))))) }
{}

/// A pull that is ended by a finish was begun by an entry of the history, at which the local version of its name was the same as
/// at the end, and what was put in place is its target, assembled.
pub fn pulls_end_over_what_they_began_on()
    // One entry `begun` began the pull: its place, its ticket and the local version there are all said of this entry.
    ensures { (opening : FolderState) (front : List Entry) (commit : PullInfo)
        (assembled : FileRecord) → EndsPull opening front commit assembled →
        (before between : List Entry) × (begun : Entry) × (ticket : PullInfo)
        × (front ≡ before ++ begun ∷ between) × (begun.answer ≡ Begun ticket)
        × (ticket.number ≡ commit.number) × (ticket.name ≡ commit.name)
        × (ticket.target ≡ commit.target)
        × (local_version (state_after opening before) commit.name
        ≡ local_version (state_after opening front) commit.name)
        × (assembled ≡ commit.target) × IsAssembled assembled }
{}

/// Where a commit is not entered, the ticket that comes back is the one that was given.
pub fn tickets_come_back()
    ensures local_moved { (given back : PullInfo) →
        GivesBack given (LocalMoved back) ↔ (back ≡ given) }
    ensures superseded { (given back : PullInfo) →
        GivesBack given (Superseded back) ↔ (back ≡ given) }
    ensures sequence_full { (given back : PullInfo) →
        GivesBack given (SequenceFull back) ↔ (back ≡ given) }
    ensures history_full { (given back : PullInfo) →
        GivesBack given (HistoryFull back) ↔ (back ≡ given) }
{}
