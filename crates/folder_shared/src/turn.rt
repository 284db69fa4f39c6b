//! A call's turn: taking the folder by a pass, and putting it back.
ghost use Rattle.std.specs.Prelude.{◌≡◌, ◌≤◌, IfErr, IfOk, Ok, Err};
ghost use Rattle.folder_calls.specs.declared.history.History.{History};
ghost use Rattle.folder_core.specs.declared.answer.Answer.{Answer as AnswerOf};
ghost use Rattle.folder_core.specs.declared.change.Change.{Change as ChangeOf};
ghost use Rattle.folder_calls.specs.Calls.{answered_at};
ghost use Rattle.folder_calls.specs.RecordedFolders.{Appends, answered};
ghost use Rattle.folder_calls.specs.Shared.{ChangesAt};
ghost use Rattle.folder_shared.specs.declared.shared.Pass.{Pass as PassOf};
ghost use Rattle.folder_shared.specs.Rule.{IsSame};
ghost use Rattle.folder_shared.specs.Passes.{IsGivenBack, IsHeld, IsPassOf, IsPutBack, MayPutBack, opened_of, view_of};

use crate::lock::{put, take};
use crate::rule::Puts;
use crate::{LockedFolder, Pass};
use folder_calls::{At, RecordedFolder};
use folder_core::FolderCore;
use std::sync::Wait;

impl<C: FolderCore + Drop> LockedFolder<C> {
    // Takes the folder, as soon as no other call has it.
    pub(crate) fn lend<R: Wait>(&self, rt: &R, pass: &mut Pass<C>) -> RecordedFolder<C>
        requires { IsPassOf self.now pass.old }
        ensures held { IsHeld self.now pass.old pass.new result }
        ensures given { (1 ≤ pass.new.number) × (pass.new.number ≤ result.passes) }
        ensures same { IsSame result (opened_of self.now) }
    {
        take::<C, R>(rt, &self.receiver, &mut pass.token)
    }

    // Puts the folder back as it was. The pass has then seen the history if there is an answer.
    pub(crate) fn give_back<R: Wait, T, E>(
        &self,
        rt: &R,
        pass: &mut Pass<C>,
        recorded: RecordedFolder<C>,
        answer: Result<T, E>,
    ) -> Result<At<T>, E>
        requires { (before : PassOf C) × IsPassOf self.now before
            × IsHeld self.now before pass.old recorded }
        ensures pass { IsPassOf self.now pass.new × (pass.new.number ≡ pass.old.number) }
        ensures given_back { (before : PassOf C) → IsPassOf self.now before →
            IsHeld self.now before pass.old recorded →
            IsGivenBack self.now before recorded answer result pass.new }
    {
        self.put_back(rt, pass, recorded, answer)
    }

    // Puts the folder back after a change of the pass, which is appended if it was accepted. The pass has then seen the history,
    // with that entry, if there is an answer.
    pub(crate) fn hand_in<R: Wait, T, E>(
        &self,
        rt: &R,
        pass: &mut Pass<C>,
        recorded: RecordedFolder<C>,
        answer: Result<T, E>,
    ) -> Result<At<T>, E>
        requires { (before : PassOf C) × (x : History) × (f : T → AnswerOf) × (change : ChangeOf)
            × IsPassOf self.now before × IsHeld self.now before pass.old x
            × Appends x pass.old.number change (answered f answer) recorded }
        ensures pass { IsPassOf self.now pass.new × (pass.new.number ≡ pass.old.number) }
        ensures changes { (before : PassOf C) (x : History) (f : T → AnswerOf) (change : ChangeOf) →
            IsPassOf self.now before → IsHeld self.now before pass.old x →
            Appends x pass.old.number change (answered f answer) recorded →
            ChangesAt (view_of self.now before) change (answered_at f result)
            (view_of self.now pass.new) }
        ensures answer { IfOk result (λ reply. answer ≡ Ok reply.value) }
        ensures fault { IfErr result (λ fault. answer ≡ Err fault) }
    {
        self.put_back(rt, pass, recorded, answer)
    }

    // Puts the folder back. The pass has then seen the history if there is an answer.
    fn put_back<R: Wait, T, E>(
        &self,
        rt: &R,
        pass: &mut Pass<C>,
        recorded: RecordedFolder<C>,
        answer: Result<T, E>,
    ) -> Result<At<T>, E>
        requires { (before : PassOf C) × (x : History) × IsPassOf self.now before
            × IsHeld self.now before pass.old x × MayPutBack x before.number answer recorded }
        ensures pass { IsPassOf self.now pass.new × (pass.new.number ≡ pass.old.number) }
        ensures put_back { (before : PassOf C) (x : History) → IsPassOf self.now before →
            IsHeld self.now before pass.old x → MayPutBack x before.number answer recorded →
            IsPutBack self.now before recorded answer result pass.new }
    {
        let at = recorded.len();
        put::<C, Puts, R>(rt, &self.sender, &mut pass.token, recorded);
        match answer {
            Ok(value) => {
                pass.seen = at;
                Ok(At { at, value })
            }
            Err(fault) => Err(fault),
        }
    }
}
