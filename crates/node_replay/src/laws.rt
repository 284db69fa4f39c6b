//! What the definitions say, as contracts of functions that do nothing.
ghost use Rattle.std.specs.Prelude.{◌≡◌, ◌++◌, Bool, false, List, map};
ghost use Rattle.folder_core.specs.States.{FolderState};
ghost use Rattle.node_journal.specs.declared.frame.Frame.{Frame};
ghost use Rattle.node_state.specs.declared.state.State.{State as Stored};
ghost use Rattle.sync_record.specs.Devices.{Identity};
ghost use Rattle.node_replay.specs.declared.plan.PullPlan.{PullPlan as Planned};
ghost use Rattle.node_replay.specs.declared.recovering.RecoveredFolder.{RecoveredFolder as Folder};
ghost use Rattle.node_replay.specs.Recovered.{IsRecovery, state_after, with_plans};
ghost use Rattle.node_replay.specs.Settled.{HasNews, is_open, settled};

/// Frames may be cut in two anywhere: what is recovered by those behind, over the state that was recovered by those before, is what
/// is recovered by all; a folder's plans are those of before, and then those behind.
pub fn recovered_goes_on()
    // The two recoveries are premises, the second from the state after the first; together they are one of all frames.
    ensures { (me : Identity) (state : Stored) (front rest : List Frame) (before behind : List Folder) →
        IsRecovery me state front before → IsRecovery me (state_after before) rest behind →
        IsRecovery me state (front ++ rest) (map (with_plans before) behind) }
{}

/// A plan whose base is no longer the local version changes nothing, and neither does one whose target doesn't stand.
pub fn void_plans_change_nothing()
    ensures moved { (s : FolderState) (p : Planned) (stands : Bool) → is_open s p ≡ false → settled s (p, stands) ≡ s }
    ensures absent { (s : FolderState) (p : Planned) → settled s (p, false) ≡ s }
{}

/// A plan that is settled twice is settled once, unless its base had seen its target already.
pub fn plans_are_settled_once()
    ensures { (s : FolderState) (p : Planned) (stands : Bool) → HasNews p →
        settled (settled s (p, stands)) (p, stands) ≡ settled s (p, stands) }
{}
