//! What the definitions say, as contracts of functions that do nothing.
ghost use Rattle.std.specs.Prelude.{◌≡◌, ◌++◌, ℕ, List, map};
ghost use Rattle.std.specs.FinMap.{empty};
ghost use Rattle.std.specs.List.{AllByRecursion};
ghost use Rattle.sync_record.specs.Devices.{Identity};
ghost use Rattle.node_state.specs.declared.state.State.{State};
ghost use Rattle.node_state.specs.Meaning.{IsClosed, Means, without_peers, written_state};
ghost use Rattle.node_state.specs.Written.{first_line, second_line};

/// To one device a text means at most one state.
pub fn one_meaning()
    ensures { (me : Identity) (text : List ℕ) (s t : State) → Means me text s → Means me text t → s ≡ t }
{}

/// In a text of version 1 no index id is kept. What is read as version 2 is read as version 1 too, as the same folders
/// without kept index ids.
pub fn version_1_keeps_no_index_numbers()
    ensures none { (me : Identity) (body : List ℕ) (s : State) → Means me (first_line ++ body) s →
        AllByRecursion (λ f. f.peers ≡ empty) s.folders }
    ensures same { (me : Identity) (body : List ℕ) (s : State) → Means me (second_line ++ body) s →
        Means me (first_line ++ body) (record { folders = map without_peers s.folders }) }
{}

/// Of a state without open pulls, where of each peer that is listed a number is kept, all is written: what is read of it is
/// the state itself.
pub fn a_closed_state_is_written_whole()
    ensures { (s : State) → AllByRecursion IsClosed s.folders → written_state s ≡ s }
{}
