//! A folder that is kept in an index.
ghost use Rattle.std.specs.Prelude.{◌≡◌, ◌≢◌, [], false, length, map, IfErr, IfOk, IsOk, IsSome, IsTrue, None, OnErr, OnOk, Some, option_copied, option_map};
ghost use Rattle.std.specs.FinMap.{empty, entries, len};
ghost use Rattle.std.specs.FinSet as set;
ghost use Rattle.folder_core.specs.Calls.{Changes, GivesBack, index_answer, may_allocate, scan_answer, begin_answer, enter_answer, finish_answer, close_answer};
ghost use Rattle.folder_core.specs.Plain.{pulls_of};
ghost use Rattle.folder_core.specs.PlainRestores.{given};
ghost use Rattle.folder_core.specs.Reads.{IsSomePlace, best_with_devices, bests_page, counts, known, local_since, need_page, places};
ghost use Rattle.folder_core.specs.Restores.{MayRestore, restored_folder};
ghost use Rattle.folder_core.specs.States.{empty_folder, local};
ghost use Rattle.folder_core.specs.Steps.{is_accepted, is_recordable, step};
ghost use Rattle.folder_core.specs.declared.change.Change.TheVariants.{Forget, IndexFull, IndexMore, ScanFound, ScanGone, BeginPull, EnterCommit, Finish, GiveUp, Abort};
ghost use Rattle.folder_core.specs.declared.restore_fault.RestoreFault.TheVariants.{BadRecords};
ghost use Rattle.sync_record.specs.Infos.{is_natural};
ghost use Rattle.folder_index.specs.Devices.{names_by};
ghost use Rattle.folder_db.specs.Indexed.{choices_after, counted_more, names_in, names_with};

use crate::commits::{ReservedCommit, begin, close, make_ready, take_ready};
use crate::filled::filled;
use crate::message::{clear_all, stale_names};
use bep_messages::Items;
use folder_core::plain::copy::copied_pulls;
use folder_core::plain::message::last_of_each_name;
use folder_core::plain::open_commits;
use folder_core::plain::own::{record_from, version_of};
use folder_core::plain::pull::OpenPull;
use folder_core::plain::pulls::{
    begin_refused, best_to_pull, entry_obstacle, has_pull, not_entered, place_for,
};
use folder_core::plain::scan::{
    found_record, gone_record, is_full, is_gone, is_same, next_version, scan_answer, scan_obstacle,
};
use folder_core::{
    Announcement, BeginAnswer, Best, Change, Commit, Counts, EnterFault, Finding, FolderCore,
    Place, PlainFolder, PullStage, RestoreFault, ScanAnswer, ScanFault, Stray, Ticket,
};
use folder_index::Index;
use std::alloc::{AllocError, Global};
use std::marker::Model;
use sync_names::SafeName;
use sync_record::{Assembled, DeviceId, Record};
use sync_version::{Moment, Version};

/// A folder whose records are kept in an index: by name, with the best of each name and whether it is needed, this device's by
/// sequence too, and the blocks of its live files by digest. So a change costs what it changes, and a read what it returns.
///
/// A commit that is entered reserves in the index what its record needs, so that its end does not allocate.
#[derive(Drop)]
pub struct IndexedFolder {
    pub(crate) index: Index,
    pub(crate) last: u64,
    pub(crate) pulls: Vec<OpenPull>,
    // What stands ready of each open pull, once more: the index keeps two of each local record.
    pub(crate) copies: Vec<Option<Record>>,
}

impl Model for IndexedFolder {
    ghost use Rattle.folder_db.specs.Indexed.{IndexedState, coded_indexed};

    ghost Value = { IndexedState };

    ghost coded = { coded_indexed };

    ghost use Rattle.folder_core.specs.Plain.{pulls_of};
    ghost use Rattle.folder_db.specs.Indexed.{IsIndexed, folder_with};

    ghost view = { λ f. record {
      folder = folder_with f.index f.last (pulls_of f.pulls.items);
      choices = f.index.choices;
    } };

    ghost invariant = { λ f. IsIndexed f.index f.last f.pulls.items f.copies.items };
}

impl IndexedFolder {
    /// The folder of this device in which no device announces anything. Does not allocate. O(1).
    pub fn new(alloc: Global, me: DeviceId) -> IndexedFolder
        ensures { result ≡ record { folder = empty_folder me; choices = 0 } }
    {
        IndexedFolder {
            index: Index::new(alloc, me),
            last: 0,
            pulls: Vec::new(alloc),
            copies: Vec::new(alloc),
        }
    }

    /// The folder of this device that has these records and no open pull; `last` is the last sequence that it gave, 0 if none.
    /// Fails with `BadRecords` where there is no such folder: if `last` is negative, a device has two records of a name, or
    /// this device's records are not all valid, with distinct sequences from 1 to `last`. Fails with `OutOfMemory` only if
    /// there are records and `last` is not negative. A best is chosen once for each record.
    ///
    /// O(n log n + b log b) for n records and b blocks of this device's files; no record is copied.
    pub fn restore(
        alloc: Global,
        me: DeviceId,
        records: Items<Announcement>,
        last: i64,
    ) -> Result<IndexedFolder, RestoreFault>
        ensures allowed { IsOk result → MayRestore me (map given records) last }
        ensures restored { IfOk result
            (λ f. f.folder ≡ restored_folder me (map given records) last) }
        ensures choices { IfOk result
            (λ f. f.choices ≡ counted_more 0 (len f.folder.announced)) }
        ensures refused { IfErr result
            (λ fault. fault ≡ BadRecords → ¬ (MayRestore me (map given records) last)) }
        ensures none { records ≡ [] → IfErr result (λ fault. fault ≡ BadRecords) }
        ensures negative { is_natural last ≡ false → IfErr result (λ fault. fault ≡ BadRecords) }
    {
        let plain = PlainFolder::restore(alloc, me, records, last)?;
        let index = filled(alloc, plain.me(), plain.records())?;
        Ok(IndexedFolder {
            index,
            last: plain.known(me),
            pulls: Vec::new(alloc),
            copies: Vec::new(alloc),
        })
    }

    /// How often the best of a name was chosen, up to the greatest number. O(1).
    pub fn choices(&self) -> u64
        ensures { result ≡ self.now.choices }
    {
        self.index.choices()
    }
}

impl FolderCore for IndexedFolder {
    ghost state = { λ f. f.folder };

    /// O(1).
    fn me(&self) -> DeviceId {
        self.index.me()
    }

    /// O(log n + d^2 + k) for n names, d devices that announce the name and k open pulls, O(b log m) for the b blocks of what is
    /// found and of the local record and m blocks of this device's files, and the copies of the name, the version and the blocks. It
    /// allocates for them, and only where it is recorded or the answer has a version. Where it is recorded, the best of the
    /// name is chosen once.
    fn scan_found(
        &mut self,
        name: &SafeName,
        expected: Option<&Version>,
        found: &Finding,
        moment: Moment,
    ) -> Result<ScanAnswer, ScanFault>
        requires { IsTrue (is_recordable found.now.content) }
        ensures changes { Changes self.old.folder
            (ScanFound name.now (option_copied expected.entry) found.now moment)
            (scan_answer result) self.new.folder }
        ensures memory { scan_answer result ≡ None →
            IsTrue (may_allocate (step self.old.folder
            (ScanFound name.now (option_copied expected.entry) found.now moment)).0) }
        ensures choices { self.new.choices ≡ choices_after (scan_answer result) self.old.choices }
    {
        let alloc = *self.pulls.allocator();
        let me = self.index.me();
        let local = self.index.get(me, name);
        let is_unchanged = is_same(local, &found.content);
        let obstacle = scan_obstacle(
            me,
            &self.pulls,
            self.last,
            name,
            local,
            expected,
            is_unchanged,
        );
        if let Some(obstacle) = obstacle {
            return scan_answer(obstacle, version_of(local));
        }
        let id = me.short_id();
        let version = next_version(alloc, version_of(local), id, moment)?;
        let record = found_record(alloc, name, found, version, id)?;
        let sequence = self.last + 1;
        self.index.set(me, record.with_sequence(sequence))?;
        self.last = sequence;
        Ok(ScanAnswer::Recorded(sequence))
    }

    /// O(log n + d^2 + k) for n names, d devices that announce the name and k open pulls, O(b log m) for the b blocks of the local
    /// record and m blocks of this device's files, and the copies of the name and the version. It allocates for them, and only where
    /// it is recorded or the answer has a version. Where it is recorded, the best of the name is chosen once.
    fn scan_gone(
        &mut self,
        name: &SafeName,
        expected: Option<&Version>,
        moment: Moment,
    ) -> Result<ScanAnswer, ScanFault>
        ensures changes { Changes self.old.folder
            (ScanGone name.now (option_copied expected.entry) moment)
            (scan_answer result) self.new.folder }
        ensures memory { scan_answer result ≡ None →
            IsTrue (may_allocate (step self.old.folder
            (ScanGone name.now (option_copied expected.entry) moment)).0) }
        ensures choices { self.new.choices ≡ choices_after (scan_answer result) self.old.choices }
    {
        let alloc = *self.pulls.allocator();
        let me = self.index.me();
        let local = self.index.get(me, name);
        let is_unchanged = is_gone(local);
        let obstacle = scan_obstacle(
            me,
            &self.pulls,
            self.last,
            name,
            local,
            expected,
            is_unchanged,
        );
        if let Some(obstacle) = obstacle {
            return scan_answer(obstacle, version_of(local));
        }
        let Some(local) = local else { unreachable!() };
        let id = me.short_id();
        let version = next_version(alloc, Some(local.version()), id, moment)?;
        let record = gone_record(local, version, id, moment)?;
        let sequence = self.last + 1;
        self.index.set(me, record.with_sequence(sequence))?;
        self.last = sequence;
        Ok(ScanAnswer::Recorded(sequence))
    }

    /// O(t + m log m + m d^2 + s (log n + d^2)) for t records kept, m records given, s names that the device announces no longer, n
    /// names and d devices that announce a name, and copies of the s names. No record is copied. The best of each name of which the
    /// device announced something or does now is chosen once.
    fn index_full(&mut self, device: DeviceId, records: Items<Record>) -> Result<(), AllocError>
        requires { device ≢ self.old.folder.me }
        ensures changes { Changes self.old.folder (IndexFull device records)
            (index_answer result) self.new.folder }
        ensures choices { OnOk result (self.new.choices ≡ counted_more self.old.choices
            (set.len (names_with records
            (names_by device (entries self.old.folder.announced))))) }
        ensures stay { OnErr result (self.new ≡ self.old) }
    {
        let latest = last_of_each_name(records.into_vec())?;
        let stale = stale_names(&self.index, device, &latest)?;
        self.index.set_all(device, Items::from_vec(latest))?;
        clear_all(&mut self.index, device, &stale);
        Ok(())
    }

    /// O(m (log n + log m + d^2)) for m records given, n names and d devices that announce a name. No record is copied. The best of
    /// each name of the message is chosen once. A message without records does not allocate.
    fn index_more(&mut self, device: DeviceId, records: Items<Record>) -> Result<(), AllocError>
        requires { device ≢ self.old.folder.me }
        ensures changes { Changes self.old.folder (IndexMore device records)
            (index_answer result) self.new.folder }
        ensures choices { OnOk result (self.new.choices
            ≡ counted_more self.old.choices (set.len (names_in records))) }
        ensures stay { OnErr result (self.new ≡ self.old) }
        ensures nothing { records ≡ [] → IsOk result }
    {
        let index = &mut self.index;
        if records.as_slice().is_empty() {
            return Ok(());
        }
        let latest = last_of_each_name(records.into_vec())?;
        index.set_all(device, Items::from_vec(latest))?;
        Ok(())
    }

    /// O(t + m (log n + d^2)) for t records kept, m of them the device's, n names and d devices that announce a name, and copies of
    /// the m names. The best of each of these is chosen once.
    fn forget(&mut self, device: DeviceId) -> Result<(), AllocError>
        requires { device ≢ self.old.folder.me }
        ensures changes { Changes self.old.folder (Forget device)
            (index_answer result) self.new.folder }
        ensures choices { OnOk result (self.new.choices ≡ counted_more self.old.choices
            (length (names_by device (entries self.old.folder.announced)))) }
        ensures stay { OnErr result (self.new ≡ self.old) }
    {
        self.index.forget(device)?;
        Ok(())
    }

    /// O(log n + d^2 + k^2) for n names, d devices that announce the name and k open pulls, and a copy of the name. Only a pull that
    /// begins allocates.
    fn begin_pull(&mut self, name: &SafeName) -> Result<BeginAnswer, AllocError>
        ensures change { Changes self.old.folder (BeginPull name.now) (begin_answer result)
            self.new.folder }
        ensures refused { is_accepted (step self.old.folder (BeginPull name.now)).0 ≡ false →
            IsOk result }
        ensures choices { self.new.choices ≡ self.old.choices }
    {
        let announced = self.index.announcements_of(name);
        let base = record_from(announced, self.index.me());
        let is_open = has_pull(&self.pulls, name);
        let best = match best_to_pull(is_open, announced, base) {
            Ok(best) => best,
            Err(obstacle) => return Ok(begin_refused(obstacle)),
        };
        let info = begin(&mut self.pulls, &mut self.copies, name, base, &best.record)?;
        Ok(BeginAnswer::Begun(Ticket::new(info)))
    }

    /// O(k) for k open pulls.
    fn give_up(&mut self, ticket: Ticket) -> bool
        ensures change { Changes self.old.folder (GiveUp ticket) (Some (close_answer result))
            self.new.folder }
        ensures choices { self.new.choices ≡ self.old.choices }
    {
        let info = ticket.into_info();
        close(&mut self.pulls, &mut self.copies, &info, PullStage::Pulling).is_some()
    }

    /// O(log n + k) for n names and k open pulls.
    fn abort(&mut self, commit: Commit) -> bool
        ensures change { Changes self.old.folder (Abort commit) (Some (close_answer result))
            self.new.folder }
        ensures choices { self.new.choices ≡ self.old.choices }
    {
        let info = commit.into_info();
        let Some(_closed) = close(
            &mut self.pulls,
            &mut self.copies,
            &info,
            PullStage::Committing,
        ) else {
            return false;
        };
        self.index.release(&info.name);
        true
    }

    /// O(log n + d^2 + k) for n names, d devices that announce the name and k open pulls, and O(b log m + w) for b blocks of the
    /// record that it replaces, m blocks of this device's files and w records that ends of commits put since a scan was recorded or
    /// a commit was entered. The best of the name is chosen once.
    fn finish(&mut self, commit: Commit, _assembled: &Assembled) -> Result<u64, Stray>
        requires { _assembled.now ≡ commit.target }
        ensures change { Changes self.old.folder (Finish commit _assembled.now)
            (Some (finish_answer result)) self.new.folder }
        ensures choices { self.new.choices
            ≡ choices_after (Some (finish_answer result)) self.old.choices }
    {
        let info = commit.into_info();
        let Some(ready) = take_ready(&mut self.pulls, &mut self.copies, &info) else {
            return Err(Stray);
        };
        let ReservedCommit { announced, copied } = ready;
        self.last += 1;
        let announced = announced.with_sequence(self.last);
        let copied = copied.with_sequence(self.last);
        self.index.set_reserved(announced, copied);
        Ok(self.last)
    }

    /// O(log n + d^2 + k) for n names, d devices that announce the name and k open pulls, a copy of the target, and what it takes to
    /// settle the records that ends of commits put before ([`Index::settle`]). Only a commit that is entered allocates.
    fn enter_commit(&mut self, ticket: Ticket) -> Result<Commit, EnterFault>
        ensures change { Changes self.old.folder (EnterCommit ticket) (enter_answer result)
            self.new.folder }
        ensures given_back { IfErr result (GivesBack ticket) }
        ensures refused { is_accepted (step self.old.folder (EnterCommit ticket)).0 ≡ false →
            IsSome (enter_answer result) }
        ensures choices { self.new.choices ≡ self.old.choices }
    {
        let alloc = *self.pulls.allocator();
        let Some(place) = place_for(&self.pulls, ticket.info(), PullStage::Pulling) else {
            let info = ticket.into_info();
            drop(info);
            return Err(EnterFault::Stray);
        };
        let pull = &self.pulls[place];
        let group = self.index.announcements_of(ticket.name());
        let local = record_from(group, self.index.me());
        let is_full = is_full(self.last, open_commits(&self.pulls));
        if let Some(obstacle) = entry_obstacle(pull, group, local, is_full) {
            return Err(not_entered(obstacle, ticket));
        }
        let made = make_ready(
            alloc,
            &mut self.index,
            &mut self.pulls,
            &mut self.copies,
            place,
        );
        if made.is_err() {
            return Err(EnterFault::OutOfMemory(ticket));
        }
        Ok(Commit::new(ticket.into_info()))
    }

    /// O(log n + d) for n names and d devices that announce the name, and the copy. A name without a best does not allocate.
    fn best(&self, name: &SafeName) -> Result<Option<Best>, AllocError>
        ensures found { IfOk result (λ b. option_map (λ b. (b.record, b.devices)) b
            ≡ best_with_devices self.now.folder name.now) }
        ensures none { best_with_devices self.now.folder name.now ≡ None → IsOk result }
    {
        self.index.best_with_devices(name)
    }

    /// O(log n) for n names, and O(d) for each name up to the last one of the page, with d devices that announce it, and the
    /// copies. An empty page does not allocate.
    fn bests(&self, after: Option<&SafeName>, limit: usize) -> Result<Items<Best>, AllocError>
        ensures page { IfOk result (λ page. map (λ b. (b.record, b.devices)) page
            ≡ bests_page self.now.folder (option_copied after.entry) limit) }
        ensures none { bests_page self.now.folder (option_copied after.entry) limit ≡ [] →
            IsOk result }
    {
        self.index.bests(after, limit)
    }

    /// O(log n + d) for n names and d devices that announce the name. The record is not copied but shared. A name without a local
    /// record does not allocate.
    fn local(&self, name: &SafeName) -> Result<Option<Record>, AllocError>
        ensures found { IfOk result (λ r. r ≡ local self.now.folder name.now) }
        ensures none { local self.now.folder name.now ≡ None → IsOk result }
    {
        match self.index.get(self.index.me(), name) {
            Some(local) => Ok(Some(local.copy()?)),
            None => Ok(None),
        }
    }

    /// O(log n + p) for n names, p of them up to the last one of the page, and the copies of the names. An empty page does not
    /// allocate.
    fn need(&self, after: Option<&SafeName>, limit: usize) -> Result<Items<SafeName>, AllocError>
        ensures page { IfOk result (λ names. names
            ≡ need_page self.now.folder (option_copied after.entry) limit) }
        ensures none { need_page self.now.folder (option_copied after.entry) limit ≡ [] →
            IsOk result }
    {
        self.index.needed(after, limit)
    }

    /// O(log n + p) for n local records and p of the page, which are not copied but shared, and for each record that the end of a
    /// commit put since a scan was recorded or a commit was entered. An empty page does not allocate.
    fn local_since(&self, sequence: u64, limit: usize) -> Result<Items<Record>, AllocError>
        ensures page { IfOk result (λ page. page ≡ local_since self.now.folder sequence limit) }
        ensures none { local_since self.now.folder sequence limit ≡ [] → IsOk result }
    {
        self.index.page(sequence, limit)
    }

    /// O(log n) for n blocks of local files, and the copy of the name; and the blocks of each record that the end of a commit put
    /// since a scan was recorded or a commit was entered. It does not allocate where there is none.
    fn find_block(&self, hash: &[u8; 32]) -> Result<Option<Place>, AllocError>
        ensures found { IfOk result (λ place. IsSomePlace self.now.folder hash.now place) }
        ensures none { places self.now.folder hash.now ≡ [] → IsOk result }
    {
        self.index.place(hash)
    }

    /// O(n) for n records kept, O(1) for this device.
    fn known(&self, device: DeviceId) -> u64
        ensures { result ≡ known self.now.folder device }
    {
        if device == self.index.me() {
            return self.last;
        }
        self.index.greatest_sequence(device)
    }

    /// O(1).
    fn counts(&self) -> Counts
        ensures { result ≡ counts self.now.folder }
    {
        let totals = self.index.totals();
        Counts {
            files: totals.files,
            directories: totals.directories,
            deletions: totals.deletions,
            needed: totals.needed,
            others: totals.others,
            pulls: self.pulls.len() as u64,
            last: self.last,
        }
    }

    /// O(log n + d^2 + k + b) for n names, d devices that announce the name, k open pulls, and b blocks and counters of what is
    /// found and of the local record; O(1) for an index and `Forget`.
    fn accepts(&self, change: &Change) -> bool
        ensures { result ≡ is_accepted (step self.now.folder change.now).0 }
    {
        match change {
            Change::ScanFound {
                name,
                expected,
                found,
                ..
            } => self.accepts_found(name, expected.as_ref(), found),
            Change::ScanGone { name, expected, .. } => self.accepts_gone(name, expected.as_ref()),
            Change::IndexFull { .. } | Change::IndexMore { .. } | Change::Forget { .. } => true,
            Change::BeginPull { name } => self.accepts_begin(name),
            Change::EnterCommit { ticket } => self.accepts_entry(ticket),
            Change::GiveUp { ticket } => self.has_open(ticket, PullStage::Pulling),
            Change::Finish { commit, .. } | Change::Abort { commit } => {
                self.has_open(commit, PullStage::Committing)
            }
        }
    }

    /// O(n + k) for n records kept and k open pulls. The records are not copied but shared. Where there is neither record
    /// nor pull it does not allocate.
    fn plain_copy(&self) -> Result<PlainFolder, AllocError>
        ensures copy { IfOk result (λ copy. copy ≡ self.now.folder) }
        ensures nothing { self.now.folder.announced ≡ empty → self.now.folder.pulls ≡ empty →
            IsOk result }
    {
        let alloc = *self.pulls.allocator();
        let announcements = self.index.announcements()?;
        let pulls = copied_pulls(alloc, self.pulls.as_slice())?;
        PlainFolder::from_parts(self.index.me(), announcements, self.last, pulls)
    }
}
