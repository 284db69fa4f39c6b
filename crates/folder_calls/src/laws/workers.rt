//! What a caller of a folder with a history may say of several of its calls.
ghost use Rattle.std.specs.Prelude.{[], ◌∷◌, ◌++◌, ◌≡◌, ◌⊎◌, ◌↔◌, List, Some, false, filter, true};
ghost use mathlib.Core.List.{IsPrefix};
ghost use Rattle.folder_core.specs.States.{HaveOwnNumbers};
ghost use Rattle.folder_core.specs.Steps.{is_accepted, step};
ghost use Rattle.folder_core.specs.declared.answer.Answer.{Answer};
ghost use Rattle.folder_core.specs.declared.answer.Answer.TheVariants.{Begun, Entered, HistoryFull};
ghost use Rattle.folder_core.specs.declared.change.Change.{Change};
ghost use Rattle.folder_core.specs.declared.change.Change.TheVariants.{BeginPull, EnterCommit};
ghost use Rattle.folder_core.specs.declared.pull_info.PullInfo.{PullInfo};
ghost use Rattle.sync_record.specs.Records.{Name};
ghost use Rattle.folder_calls.specs.Adds.{Adds, Asked, Asks};
ghost use Rattle.folder_calls.specs.Histories.{state_after};
ghost use Rattle.folder_calls.specs.Shared.{Gets, IsLegalView, Sees, ChangesAt, CallerView, now, own_entry};
ghost use Rattle.folder_calls.specs.declared.at.At.{At};
ghost use Rattle.folder_calls.specs.declared.entry.Entry.{Entry};

/// What a call of a change returns is the change's answer. Changes that a caller asks for one after another are one list of changes with
/// their answers, and add the entries of the accepted ones to the caller's, in their order.
pub fn changes_are_asked_in_order()
    ensures one { (old new : CallerView) (c : Change) (reply : At Answer) →
        ChangesAt old c (Some reply) new → Gets old c reply.value new }
    ensures together { (xs ys : List Asked) (one two three : CallerView) → Asks one xs two →
        Asks two ys three → Asks one (xs ++ ys) three }
    ensures adds { (asked : List Asked) (old new : CallerView) → Asks old asked new →
        Adds old (filter (λ m. is_accepted m.1) asked) new }
{}

/// What a caller's calls add to its entries goes together, and what it only sees adds none.
pub fn entries_add_up()
    ensures seen { (old new : CallerView) → Sees old new ↔ Adds old [] new }
    ensures together { (one two three : CallerView) (xs ys : List Asked) → Adds one xs two →
        Adds two ys three → Adds one (xs ++ ys) three }
{}

/// An accepted change gets the answer of the folder after what the caller saw just before its entry, and leaves it as the change leaves
/// it. Any other answer is `HistoryFull`, or that of the folder where what the caller has seen ends. No two pulls that are open
/// there have the same number.
pub fn answers_are_those_of_the_folder()
    // An accepted change is the step of the folder after `front`: entry, answer and state are all said of this `front`.
    ensures accepted { (old new : CallerView) (c : Change) (a : Answer) → Gets old c a new →
        is_accepted a ≡ true →
        (front : List Entry) × IsPrefix old.seen front
        × (new.seen ≡ front ++ own_entry old c a ∷ [])
        × ((step (state_after old.opening front) c).0 ≡ a)
        × ((step (state_after old.opening front) c).1 ≡ now new) }
    ensures other { (old new : CallerView) (c : Change) (a : Answer) → Gets old c a new →
        is_accepted a ≡ false → (a ≡ HistoryFull) ⊎ ((step (now new) c).0 ≡ a) }
    ensures numbers { (v : CallerView) → IsLegalView v → HaveOwnNumbers (now v) }
{}

/// The ticket of a pull that is begun has the name that was asked for, and a commit that is entered is its ticket.
pub fn tickets_are_those_that_were_asked_for()
    ensures begun { (old new : CallerView) (n : Name) (t : PullInfo) →
        Gets old (BeginPull n) (Begun t) new → t.name ≡ n }
    ensures entered { (old new : CallerView) (t c : PullInfo) → Gets old (EnterCommit t)
        (Entered c) new →
        c ≡ t }
{}
