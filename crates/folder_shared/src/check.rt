//! The check of the history of a shared folder.
ghost use Rattle.std.specs.Prelude.{◌≡◌, IfErr, IfOk, true};
ghost use Rattle.folder_calls.specs.Shared.{Sees};
ghost use Rattle.folder_shared.specs.Passes.{IsPassOf, view_of};

use crate::{LockedFolder, Pass};
use folder_core::FolderCore;
use std::alloc::AllocError;
use std::sync::Wait;

impl<C: FolderCore + Drop> LockedFolder<C> {
    /// Whether the history leads from the folder that was opened to the one that is kept, by [`folder_calls::replays`]. It does, so this
    /// is for whoever doubts it. The pass has then seen the history. Returns `Err` only if out of memory; then it has seen no
    /// more.
    ///
    /// Other calls wait meanwhile, since the recorded folder cannot be copied: its changes are made once more, at their cost on a plain folder.
    pub fn verify<R: Wait>(&self, rt: &R, pass: &mut Pass<C>) -> Result<bool, AllocError>
        requires { IsPassOf self.now pass.old }
        ensures pass { IsPassOf self.now pass.new × (pass.new.number ≡ pass.old.number) }
        ensures yes { IfOk result (λ yes. yes ≡ true) }
        ensures sees { IfOk result (λ _.
            Sees (view_of self.now pass.old) (view_of self.now pass.new)) }
        ensures out_of_memory { IfErr result
            (λ _. view_of self.now pass.new ≡ view_of self.now pass.old) }
    {
        let recorded = self.lend(rt, pass);
        let answer = recorded.verify();
        let reply = self.give_back(rt, pass, recorded, answer)?;
        Ok(reply.value)
    }
}
