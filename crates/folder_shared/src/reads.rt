//! The reads of a shared folder.
ghost use Rattle.std.specs.Prelude.{◌≡◌, Some, map, option_copied, option_map};
ghost use Rattle.folder_core.specs.Reads.{Bests, Best as BestOf, CountAll, FindBlock, Known as KnownOf, Local, LocalSince, Need};
ghost use Rattle.folder_calls.specs.Calls.{best_entry, answered_at, answer_at};
ghost use Rattle.folder_calls.specs.Shared.{ReadsAt};
ghost use Rattle.folder_shared.specs.Passes.{IsPassOf, view_of};

use crate::{LockedFolder, Pass};
use bep_messages::Items;
use folder_calls::At;
use folder_core::{Best, Counts, FolderCore, Place};
use std::alloc::AllocError;
use std::convert::Infallible;
use std::sync::Wait;
use sync_names::SafeName;
use sync_record::{DeviceId, Record};

impl<C: FolderCore + Drop> LockedFolder<C> {
    /// A copy of the best record of a name, and the devices whose valid record of the name has its version and its
    /// content; `None` where no valid record of the name is announced.
    pub fn best<R: Wait>(
        &self,
        rt: &R,
        pass: &mut Pass<C>,
        name: &SafeName,
    ) -> Result<At<Option<Best>>, AllocError>
        requires { IsPassOf self.now pass.old }
        ensures pass { IsPassOf self.now pass.new × (pass.new.number ≡ pass.old.number) }
        ensures reads { ReadsAt (view_of self.now pass.old) (BestOf name.now)
            (answered_at (λ b. option_map best_entry b) result) (view_of self.now pass.new) }
    {
        let recorded = self.lend(rt, pass);
        let answer = recorded.core().best(name);
        self.give_back(rt, pass, recorded, answer)
    }

    /// The bests of the names greater than `after`, or of all names where it is `None`, in byte order of the names: the
    /// first `limit` of them, or all where there are fewer.
    pub fn bests<R: Wait>(
        &self,
        rt: &R,
        pass: &mut Pass<C>,
        after: Option<&SafeName>,
        limit: usize,
    ) -> Result<At<Items<Best>>, AllocError>
        requires { IsPassOf self.now pass.old }
        ensures pass { IsPassOf self.now pass.new × (pass.new.number ≡ pass.old.number) }
        ensures reads { ReadsAt (view_of self.now pass.old)
            (Bests (option_copied after.entry) limit)
            (answered_at (λ page. map best_entry page) result)
            (view_of self.now pass.new) }
    {
        let recorded = self.lend(rt, pass);
        let answer = recorded.core().bests(after, limit);
        self.give_back(rt, pass, recorded, answer)
    }

    /// The record that this device announces of a name, if there is one.
    pub fn local<R: Wait>(
        &self,
        rt: &R,
        pass: &mut Pass<C>,
        name: &SafeName,
    ) -> Result<At<Option<Record>>, AllocError>
        requires { IsPassOf self.now pass.old }
        ensures pass { IsPassOf self.now pass.new × (pass.new.number ≡ pass.old.number) }
        ensures reads { ReadsAt (view_of self.now pass.old) (Local name.now)
            (answered_at (λ r. r) result) (view_of self.now pass.new) }
    {
        let recorded = self.lend(rt, pass);
        let answer = recorded.core().local(name);
        self.give_back(rt, pass, recorded, answer)
    }

    /// The names greater than `after`, or all names where it is `None`, that this device needs, in byte order: those whose
    /// best is of another version than the local record, and those without a local record unless the best is deleted. The
    /// first `limit` of them, or all where there are fewer.
    pub fn need<R: Wait>(
        &self,
        rt: &R,
        pass: &mut Pass<C>,
        after: Option<&SafeName>,
        limit: usize,
    ) -> Result<At<Items<SafeName>>, AllocError>
        requires { IsPassOf self.now pass.old }
        ensures pass { IsPassOf self.now pass.new × (pass.new.number ≡ pass.old.number) }
        ensures reads { ReadsAt (view_of self.now pass.old)
            (Need (option_copied after.entry) limit) (answered_at (λ names. names) result)
            (view_of self.now pass.new) }
    {
        let recorded = self.lend(rt, pass);
        let answer = recorded.core().need(after, limit);
        self.give_back(rt, pass, recorded, answer)
    }

    /// The local records of greater sequence, in rising sequence: the first `limit` of them, but no more than have
    /// 1,000,000 blocks together, except that one record may have any number; or all where there are fewer.
    pub fn local_since<R: Wait>(
        &self,
        rt: &R,
        pass: &mut Pass<C>,
        sequence: u64,
        limit: usize,
    ) -> Result<At<Items<Record>>, AllocError>
        requires { IsPassOf self.now pass.old }
        ensures pass { IsPassOf self.now pass.new × (pass.new.number ≡ pass.old.number) }
        ensures reads { ReadsAt (view_of self.now pass.old) (LocalSince sequence limit)
            (answered_at (λ page. page) result) (view_of self.now pass.new) }
    {
        let recorded = self.lend(rt, pass);
        let answer = recorded.core().local_since(sequence, limit);
        self.give_back(rt, pass, recorded, answer)
    }

    /// A place of the block with this SHA-256 digest in a live local file, if there is one.
    pub fn find_block<R: Wait>(
        &self,
        rt: &R,
        pass: &mut Pass<C>,
        hash: &[u8; 32],
    ) -> Result<At<Option<Place>>, AllocError>
        requires { IsPassOf self.now pass.old }
        ensures pass { IsPassOf self.now pass.new × (pass.new.number ≡ pass.old.number) }
        ensures reads { ReadsAt (view_of self.now pass.old) (FindBlock hash.now)
            (answered_at (λ place. place) result) (view_of self.now pass.new) }
    {
        let recorded = self.lend(rt, pass);
        let answer = recorded.core().find_block(hash);
        self.give_back(rt, pass, recorded, answer)
    }

    /// The greatest sequence that the device announced, 0 without any; of this device the last one that it gave. Does not
    /// allocate.
    pub fn known<R: Wait>(&self, rt: &R, pass: &mut Pass<C>, device: DeviceId) -> At<u64>
        requires { IsPassOf self.now pass.old }
        ensures pass { IsPassOf self.now pass.new × (pass.new.number ≡ pass.old.number) }
        ensures reads { ReadsAt (view_of self.now pass.old) (KnownOf device)
            (Some (answer_at (λ sequence. sequence) result)) (view_of self.now pass.new) }
    {
        let recorded = self.lend(rt, pass);
        let value = recorded.core().known(device);
        let reply: Result<At<_>, Infallible> = self.give_back(rt, pass, recorded, Ok(value));
        match reply {
            Ok(reply) => reply,
            Err(never) => match never {},
        }
    }

    /// How much the folder has. Does not allocate.
    pub fn counts<R: Wait>(&self, rt: &R, pass: &mut Pass<C>) -> At<Counts>
        requires { IsPassOf self.now pass.old }
        ensures pass { IsPassOf self.now pass.new × (pass.new.number ≡ pass.old.number) }
        ensures reads { ReadsAt (view_of self.now pass.old) CountAll
            (Some (answer_at (λ counts. counts) result)) (view_of self.now pass.new) }
    {
        let recorded = self.lend(rt, pass);
        let value = recorded.core().counts();
        let reply: Result<At<_>, Infallible> = self.give_back(rt, pass, recorded, Ok(value));
        match reply {
            Ok(reply) => reply,
            Err(never) => match never {},
        }
    }
}
