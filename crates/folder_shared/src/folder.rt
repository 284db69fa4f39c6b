//! Opening and closing a shared folder, and giving out its passes.
ghost use Rattle.std.specs.Prelude.{ℕ, ◌≡◌, ◌<◌, ◌≤◌, ◌^◌, [], IfErr, IfOk, length, map};
ghost use Rattle.std.specs.FinMap.{len};
ghost use mathlib.Core.Option.{some};
ghost use lib.ListN.{get_elem?};
ghost use Rattle.folder_calls.specs.RecordedFolders.{new_history};
ghost use Rattle.folder_calls.specs.Shared.{Closes, Meets};
ghost use Rattle.folder_shared.specs.declared.shared.LockedFolder.{LockedFolder as Folder};
ghost use Rattle.folder_shared.specs.Passes.{IsPassOf, IsCountOf, IsFullOf, knows, limit_of, opened_of, opening_of, seen_of, view_of};

use crate::blank::Origin;
use crate::known::Known;
use crate::lock::{put, take};
use crate::mark::marked;
use crate::rule::{Apart, Blank, Both, Compares, Numbers, OneHistory, Opens, Puts};
use crate::shared::{BlankSlot, LockedFolder, Pass, PassCount, PassesFull, SharedFolder};
use crossbeam_channel::bounded_with;
use folder_calls::RecordedFolder;
use folder_core::FolderCore;
use std::alloc::Global;
use std::mem::replace;
use std::ops::Deref;
use std::snapshot::Snapshot;
use std::sync::Wait;
use sync_record::DeviceId;

impl<C: FolderCore + Drop> PassesFull<C> {
    /// The number under which programs report it: 35. O(1).
    pub fn number(&self) -> u8
        ensures { result ≡ 35 }
    {
        35
    }
}

impl<C: FolderCore + Drop> PassCount<C> {
    /// The number of passes. O(1).
    pub fn get(&self) -> u64
        ensures { result ≡ self.now.count }
    {
        self.count
    }
}

impl<C: FolderCore + Drop> Pass<C> {
    /// The number of entries that it has seen. O(1).
    pub fn seen(&self) -> u64
        ensures { (folder : Folder C) → IsPassOf folder self.now →
            result ≡ length (seen_of self.now) }
    {
        self.seen
    }
}

impl<C: FolderCore + Drop> SharedFolder<C> {
    /// The folder with an empty history, which takes as many entries as its limit. The limit counts entries and not bytes: until
    /// the folder is closed each change stays in memory with its records, also those that others have replaced since. Returns
    /// `Err` with the folder only if memory is out. O(n) time and memory for n records, which share their memory.
    pub fn open<R: Wait>(
        rt: &R,
        alloc: Global,
        core: C,
        history_limit: u64,
    ) -> Result<SharedFolder<C>, C>
        requires { len (C.state core).pulls ≡ 0 }
        ensures ok { IfOk result (λ folder. opened_of folder.locked
            ≡ new_history (C.state core) history_limit 0) }
        ensures err { IfErr result (λ back. C.state back ≡ C.state core) }
    {
        let me = core.me();
        let recorded = RecordedFolder::open(alloc, core, history_limit, 0)?;
        let Ok((sender, receiver, mut keeper)) = bounded_with::<
            RecordedFolder<C>,
            Known,
            OneHistory,
            Global,
        >(alloc, 1) else {
            return Err(recorded.into_core());
        };
        let origin = Origin {
            seat: Snapshot::of(&keeper),
            first: Snapshot::of(&recorded),
        };
        let Ok(mark) = marked(alloc, &recorded) else {
            return Err(recorded.into_core());
        };
        let Ok((blank, loan)) = BlankSlot::new(alloc, &origin) else {
            return Err(recorded.into_core());
        };
        put::<C, Opens, R>(rt, &sender, &mut keeper, recorded);
        blank.put_back(keeper, loan);
        let locked = LockedFolder {
            sender,
            receiver,
            mark,
            me,
        };
        Ok(SharedFolder { locked, blank })
    }

    /// One more pass, which has seen nothing of the history. They are numbered from 1 as they are given out. Returns `Err` only after 2^32 of
    /// them.
    pub fn pass<R: Wait>(&self, rt: &R) -> Result<Pass<C>, PassesFull<C>>
        ensures pass { IfOk result (λ pass. IsPassOf self.now.locked pass × (seen_of pass ≡ [])) }
        ensures number { IfOk result (λ pass. (0 < pass.number) × (pass.number ≤ 2 ^ 32)
            × ((knows pass).memo.passes ≡ pass.number)) }
        ensures full { IfErr result (IsFullOf self.now.locked) }
    {
        let (mut blank, loan) = self.blank.take(rt);
        let mut token = self.locked.sender.another::<Blank>(&mut blank);
        self.blank.put_back(blank, loan);
        let mut recorded = take::<C, R>(rt, &self.locked.receiver, &mut token);
        // A call of the recorded folder, after which it is known that what it holds is a history.
        let _ = recorded.len();
        match recorded.add_pass() {
            Some(number) => {
                put::<C, Numbers, R>(rt, &self.locked.sender, &mut token, recorded);
                Ok(Pass {
                    number,
                    seen: 0,
                    token,
                })
            }
            None => {
                put::<C, Puts, R>(rt, &self.locked.sender, &mut token, recorded);
                Err(PassesFull { token })
            }
        }
    }

    /// The folder, and how many passes were given out: no fewer and no more. It is in the state after a history that goes on from what each of these
    /// passes has seen, without further entries of theirs. Of passes that are not among them it may lack what only they had seen.
    pub fn close<R: Wait>(self, rt: &R, mut passes: Vec<Pass<C>>) -> (C, PassCount<C>)
        requires some { 0 < length passes.items }
        requires passes { (i : ℕ) (p : _) → get_elem? passes.items i ≡ some p →
            IsPassOf self.locked p }
        ensures closes { Closes (opening_of self.locked) (limit_of self.locked) result.1.count
            (map (view_of self.locked) passes.items) (C.state result.0) }
        ensures given { (i : ℕ) (p : _) → get_elem? passes.items i ≡ some p →
            p.number ≤ result.1.count }
        ensures count { IsCountOf self.locked result.1 }
    {
        let SharedFolder { locked, blank: _ } = self;
        let LockedFolder {
            sender,
            receiver,
            mark: _,
            me: _,
        } = locked;
        let Some(last) = passes.pop() else {
            unreachable!()
        };
        let Pass {
            number: _,
            seen: _,
            token: mut keeper,
        } = last;
        while let Some(pass) = passes.pop() {
            let Pass {
                number: _,
                seen: _,
                token,
            } = pass;
            sender.absorb::<Both>(&mut keeper, token);
        }
        let recorded = take::<C, R>(rt, &receiver, &mut keeper);
        let count = recorded.passes();
        let core = recorded.into_core();
        let token = keeper;
        (core, PassCount { count, token })
    }
}

impl<C: FolderCore + Drop> Deref for SharedFolder<C> {
    type Target = LockedFolder<C>;

    ghost deref_gives = { λ folder locked. locked ≡ folder.locked };

    fn deref(&self) -> &LockedFolder<C> {
        &self.locked
    }
}

impl<C: FolderCore + Drop> LockedFolder<C> {
    /// This device. O(1).
    pub fn me(&self) -> DeviceId
        ensures { result ≡ (opening_of self.now).me }
    {
        self.me
    }

    /// Two passes meet: both have then seen the longer of the two histories that they had seen. Neither waits for the folder nor
    /// allocates. O(1).
    pub fn meet(&self, one: &mut Pass<C>, other: &mut Pass<C>)
        requires one { IsPassOf self.now one.old }
        requires other { IsPassOf self.now other.old }
        ensures one { IsPassOf self.now one.new × (one.new.number ≡ one.old.number) }
        ensures other { IsPassOf self.now other.new × (other.new.number ≡ other.old.number) }
        ensures meets { Meets (view_of self.now one.old) (view_of self.now other.old)
            (view_of self.now one.new) (view_of self.now other.new) }
    {
        let blank = self.sender.another::<Blank>(&mut one.token);
        let token = replace(&mut other.token, blank);
        self.sender.absorb::<Both>(&mut one.token, token);
        self.sender.learn_as::<Compares>(&mut one.token);
        other.token = self.sender.another::<Apart>(&mut one.token);
        let seen = one.seen.max(other.seen);
        one.seen = seen;
        other.seen = seen;
    }
}
