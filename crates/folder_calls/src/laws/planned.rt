//! What a planned change of another caller does to the calls of a [`Lone`](crate::Lone).
ghost use Rattle.std.specs.Prelude.{◌≡◌, ◌↔◌, ◌≤◌, ◌<◌, ◌-◌, Option, Some, None, length};
ghost use Rattle.folder_core.specs.Reads.{Query, Reads, Reply};
ghost use Rattle.folder_core.specs.declared.answer.Answer.{Answer};
ghost use Rattle.folder_core.specs.declared.change.Change.{Change};
ghost use Rattle.folder_calls.specs.RecordedFolders.{Appends, end};
ghost use Rattle.folder_calls.specs.LoneStates.{ChangesAfterPlan, PlanGoesOn, ReadsAfterPlan, change_of};
ghost use Rattle.folder_calls.specs.declared.at.At.{At};
ghost use Rattle.folder_calls.specs.declared.lone_state.LoneState.{LoneState};
ghost use Rattle.folder_calls.specs.declared.planned.Plan.{Plan};

/// A planned change is asked for just before the call that it was planned for, as one of pass 2, and is appended to the history if it is
/// accepted; then nothing is planned any more. Each call before that brings it one call nearer.
pub fn planned_changes_are_made_before_their_call()
    ensures nothing { (old new : LoneState) → PlanGoesOn None old new ↔ (new ≡ old) }
    ensures later { (p : Plan) (old new : LoneState) → 1 < p.call →
        PlanGoesOn (Some p) old new
        ↔ (new ≡ record old { plan = Some (record p { call = p.call - 1 }) }) }
    // Exactly what happens at the planned call: the change gets some `answer`, as one of pass 2, and no plan is left.
    ensures now { (p : Plan) (old new : LoneState) → p.call ≤ 1 →
        PlanGoesOn (Some p) old new
        ↔ ((answer : Option Answer) × Appends old.history 2 (change_of p.change) answer new.history
        × (new ≡ record old { history = new.history; plan = None })) }
{}

/// While nothing is planned, a change of the caller is one of pass 1, which is appended to the history if it is accepted, and a read is of
/// where the history ends; the caller has then seen all of it. A call that is out of memory changes nothing.
pub fn calls_without_a_plan_are_the_callers()
    // Both directions in one: a change is answered exactly as the history's next one, of pass 1, and all is seen then.
    ensures changes { (old new : LoneState) (c : Change) (reply : At Answer) → old.plan ≡ None →
        ChangesAfterPlan old c (Some reply) new
        ↔ (Appends old.history 1 c (Some reply.value) new.history
        × (reply.at ≡ length new.history.entries)
        × (new ≡ record old { history = new.history; seen = reply.at })) }
    // The same for a read: of the state where the history ends, which doesn't change, and all of which is seen then.
    ensures reads { (old new : LoneState) (q : Query) (reply : At (Reply q)) → old.plan ≡ None →
        ReadsAfterPlan old q (Some reply) new
        ↔ (Reads (end old.history) q reply.value × (reply.at ≡ length old.history.entries)
        × (new ≡ record old { seen = reply.at })) }
    ensures out_of_memory { (old new : LoneState) (c : Change) (q : Query) → old.plan ≡ None →
        (ChangesAfterPlan old c None new ↔ (new ≡ old))
        × (ReadsAfterPlan old q None new ↔ (new ≡ old)) }
{}
