//! A folder as one list in order, and, for folders that are kept in another way, what of it does not depend on the list: the open
//! pulls, the tests and records of a scan, and what counts of a message.
ghost use Rattle.std.specs.Prelude.{◌≡◌, ◌≢◌, ◌↔◌, ◌+◌, ◌<◌, ◌≤◌, ℕ, [], All, false, pos, IfErr, IfOk, IsOk, IsSome, IsTrue, None, Some, filter, map, option_copied, option_map, vec_len, vec_capacity};
ghost use Rattle.std.specs.FinMap.{empty, entries};
ghost use Rattle.std.specs.List.{list_all};
ghost use Rattle.folder_core.specs.Calls.{Changes, GivesBack, index_answer, may_allocate, scan_answer, begin_answer, enter_answer, finish_answer, close_answer};
ghost use Rattle.folder_core.specs.Reads.{IsSomePlace, best_with_devices, bests_page, counts, known, local_since, need_page, places};
ghost use Rattle.folder_core.specs.Plain.{IsReady, PullsRise, Rises, commits, filed, folder_of, pulls_of};
ghost use Rattle.folder_core.specs.PlainReads.{is_from};
ghost use Rattle.sync_record.specs.Infos.{is_natural};
ghost use Rattle.folder_core.specs.PlainRestores.{given, is_numbered};
ghost use Rattle.folder_core.specs.Restores.{MayRestore, restored_folder};
ghost use Rattle.folder_core.specs.declared.restore_fault.RestoreFault.TheVariants.{BadRecords};
ghost use Rattle.folder_core.specs.States.{IsFolder, empty_folder, local};
ghost use Rattle.folder_core.specs.declared.change.Change.TheVariants.{Forget, IndexFull, IndexMore, ScanFound, ScanGone, BeginPull, EnterCommit, Finish, GiveUp, Abort};
ghost use Rattle.folder_core.specs.Steps.{is_accepted, is_recordable, step};

mod accept;
mod compare;
pub mod copy;
mod count;
mod find;
mod group;
mod merge;
pub mod message;
mod need;
pub mod own;
pub mod pull;
pub mod pulls;
mod restore;
pub mod scan;
mod since;

use crate::{
    Announcement, BeginAnswer, Best, Change, Commit, Counts, EnterFault, Finding, FolderCore,
    Place, PullStage, RestoreFault, ScanAnswer, ScanFault, Stray, Ticket,
};
use bep_messages::Items;
use compare::{same_entries, same_pulls};
use copy::{copied_entries, copied_pulls};
use count::{deletions, live_directories, live_files, records_of_others};
use find::position_of;
use group::{best_with_devices, bests_of, entries_after, entries_of};
use merge::{merge, put};
use message::last_of_each_name;
use need::{count_needed, needed_names};
use own::{copy_from, greatest_sequence, record_from, version_of};
use pull::OpenPull;
use pulls::{
    begin_refused, best_to_pull, entry_obstacle, has_pull, make_ready, not_entered, open,
    place_for, take, take_ready,
};
use restore::{are_numbered, in_order};
use scan::{
    found_record, gone_record, is_full, is_gone, is_same, next_version, put_next, scan_answer,
    scan_obstacle,
};
use since::records_since;
use std::alloc::{AllocError, Global};
use std::marker::Model;
use sync_names::SafeName;
use sync_record::{Assembled, DeviceId, Record};
use sync_version::{Moment, Version};

/// A folder as one list of records, by name and then by device. A look-up takes O(log n) for n records; a message of m
/// records is sorted and merged with the list from its end, in O(t + m log m) for t records that are after the place of
/// its first.
#[derive(Debug, Drop)]
pub struct PlainFolder {
    me: DeviceId,
    entries: Vec<Announcement>,
    last: u64,
    pulls: Vec<OpenPull>,
}

impl Model for PlainFolder {
    ghost use Rattle.folder_core.specs.States.{FolderState};

    ghost Value = { FolderState };

    ghost use Rattle.folder_core.specs.Codes.{coded_folder};

    ghost coded = { coded_folder };

    ghost use Rattle.folder_core.specs.Plain.{IsPlain, folder_of, pulls_of};
    ghost use Rattle.std.specs.Prelude.{vec_capacity};

    ghost view = { λ f. folder_of f.me f.entries.items f.last (pulls_of f.pulls.items) };

    ghost invariant = { λ f. IsPlain f.me f.entries.items
        (vec_capacity f.entries) f.last f.pulls.items };
}

impl PlainFolder {
    /// The folder of this device in which no device announces anything. Does not allocate. O(1).
    pub fn new(alloc: Global, me: DeviceId) -> PlainFolder
        ensures { result ≡ empty_folder me }
    {
        PlainFolder {
            me,
            entries: Vec::new(alloc),
            last: 0,
            pulls: Vec::new(alloc),
        }
    }
}

impl FolderCore for PlainFolder {
    ghost state = { λ f. f };

    /// O(1).
    fn me(&self) -> DeviceId {
        self.me
    }

    /// O(log n + k + t) for n records kept, k devices that announce the name and t records after its place, which are moved,
    /// and the copies of the name, the version and the blocks, beside the open pulls. It allocates for them, and only where it
    /// is recorded or the answer has a version.
    fn scan_found(
        &mut self,
        name: &SafeName,
        expected: Option<&Version>,
        found: &Finding,
        moment: Moment,
    ) -> Result<ScanAnswer, ScanFault>
        requires { IsTrue (is_recordable found.now.content) }
        ensures changes { Changes self.old
            (ScanFound name.now (option_copied expected.entry) found.now moment)
            (scan_answer result) self.new }
        ensures memory { scan_answer result ≡ None →
            IsTrue (may_allocate (step self.old
            (ScanFound name.now (option_copied expected.entry) found.now moment)).0) }
    {
        let alloc = *self.entries.allocator();
        let group = entries_of(self.entries.as_slice(), name);
        let local = record_from(group, self.me);
        let is_unchanged = is_same(local, &found.content);
        let obstacle = scan_obstacle(
            self.me,
            &self.pulls,
            self.last,
            name,
            local,
            expected,
            is_unchanged,
        );
        if let Some(obstacle) = obstacle {
            return scan_answer(obstacle, version_of(local));
        }
        let id = self.me.short_id();
        let version = next_version(alloc, version_of(local), id, moment)?;
        let record = found_record(alloc, name, found, version, id)?;
        let promised = open_commits(&self.pulls);
        let sequence = put_next(&mut self.entries, self.me, record, self.last, promised)?;
        self.last = sequence;
        Ok(ScanAnswer::Recorded(sequence))
    }

    /// O(log n + k + t) for n records kept, k devices that announce the name and t records after its place, which are moved,
    /// and the copies of the name and the version, beside the open pulls. It allocates for them, and only where it is recorded
    /// or the answer has a version.
    fn scan_gone(
        &mut self,
        name: &SafeName,
        expected: Option<&Version>,
        moment: Moment,
    ) -> Result<ScanAnswer, ScanFault>
        ensures changes { Changes self.old (ScanGone name.now (option_copied expected.entry) moment)
            (scan_answer result) self.new }
        ensures memory { scan_answer result ≡ None →
            IsTrue (may_allocate (step self.old
            (ScanGone name.now (option_copied expected.entry) moment)).0) }
    {
        let alloc = *self.entries.allocator();
        let group = entries_of(self.entries.as_slice(), name);
        let local = record_from(group, self.me);
        let is_unchanged = is_gone(local);
        let obstacle = scan_obstacle(
            self.me,
            &self.pulls,
            self.last,
            name,
            local,
            expected,
            is_unchanged,
        );
        if let Some(obstacle) = obstacle {
            return scan_answer(obstacle, version_of(local));
        }
        let Some(local) = local else { unreachable!() };
        let id = self.me.short_id();
        let version = next_version(alloc, Some(local.version()), id, moment)?;
        let record = gone_record(local, version, id, moment)?;
        let promised = open_commits(&self.pulls);
        let sequence = put_next(&mut self.entries, self.me, record, self.last, promised)?;
        self.last = sequence;
        Ok(ScanAnswer::Recorded(sequence))
    }

    /// O(n + m log m) for n records kept and m given, and O(n + m) where the names given are in order. None is copied;
    /// it allocates for n + m of them. A message without records does not allocate.
    fn index_full(&mut self, device: DeviceId, records: Items<Record>) -> Result<(), AllocError>
        requires { device ≢ self.old.me }
        ensures changes { Changes self.old (IndexFull device records)
            (index_answer result) self.new }
        ensures nothing { records ≡ [] → IsOk result }
    {
        let records = last_of_each_name(records.into_vec())?;
        let room = room_for(&mut self.entries, records.len(), open_commits(&self.pulls))?;
        self.entries.retain(|entry| entry.device != device);
        merge(&mut self.entries, device, records, room);
        Ok(())
    }

    /// O(t + m log m) for m records given and t kept after the place of the first of them, amortized, and O(t + m) where
    /// the names given are in order. None is copied; it allocates for all kept and given ones. A message without records
    /// does not allocate.
    fn index_more(&mut self, device: DeviceId, records: Items<Record>) -> Result<(), AllocError>
        requires { device ≢ self.old.me }
        ensures changes { Changes self.old (IndexMore device records)
            (index_answer result) self.new }
        ensures nothing { records ≡ [] → IsOk result }
    {
        let latest = last_of_each_name(records.into_vec())?;
        let room = room_for(&mut self.entries, latest.len(), open_commits(&self.pulls))?;
        merge(&mut self.entries, device, latest, room);
        Ok(())
    }

    /// O(n) for n records kept. Does not allocate.
    fn forget(&mut self, device: DeviceId) -> Result<(), AllocError>
        requires { device ≢ self.old.me }
        ensures changes { Changes self.old (Forget device) (index_answer result) self.new }
        ensures free { IsOk result }
    {
        self.entries.retain(|kept| kept.device != device);
        Ok(())
    }

    /// O(log n + d^2 + k^2) for n records kept, d devices that announce the name and k open pulls, and a copy of the name.
    /// Only a pull that begins allocates.
    fn begin_pull(&mut self, name: &SafeName) -> Result<BeginAnswer, AllocError>
        ensures change { Changes self.old (BeginPull name.now) (begin_answer result) self.new }
        ensures refused { is_accepted (step self.old (BeginPull name.now)).0 ≡ false → IsOk result }
    {
        let announced = entries_of(self.entries.as_slice(), name);
        let base = record_from(announced, self.me);
        let is_open = has_pull(&self.pulls, name);
        let best = match best_to_pull(is_open, announced, base) {
            Ok(best) => best,
            Err(obstacle) => return Ok(begin_refused(obstacle)),
        };
        let info = open(&mut self.pulls, name, base, &best.record)?;
        Ok(BeginAnswer::Begun(Ticket { info }))
    }

    /// O(k) for k open pulls.
    fn give_up(&mut self, ticket: Ticket) -> bool {
        let Ticket { info } = ticket;
        take(&mut self.pulls, &info, PullStage::Pulling).is_some()
    }

    /// O(k) for k open pulls.
    fn abort(&mut self, commit: Commit) -> bool {
        let Commit { info } = commit;
        take(&mut self.pulls, &info, PullStage::Committing).is_some()
    }

    /// O(k + t) for k open pulls and t records kept after the place of the record.
    fn finish(&mut self, commit: Commit, _assembled: &Assembled) -> Result<u64, Stray> {
        let Commit { info } = commit;
        let Some(ready) = take_ready(&mut self.pulls, &info) else {
            return Err(Stray);
        };
        self.last += 1;
        put(&mut self.entries, self.me, ready.with_sequence(self.last));
        Ok(self.last)
    }

    /// O(log n + d^2 + k) for n records kept, d devices that announce the name and k open pulls, and a copy of the target.
    /// Only a commit that is entered allocates.
    fn enter_commit(&mut self, ticket: Ticket) -> Result<Commit, EnterFault>
        ensures change { Changes self.old (EnterCommit ticket) (enter_answer result) self.new }
        ensures given_back { IfErr result (GivesBack ticket) }
        ensures refused { is_accepted (step self.old (EnterCommit ticket)).0 ≡ false →
            IsSome (enter_answer result) }
    {
        let Some(place) = place_for(&self.pulls, &ticket.info, PullStage::Pulling) else {
            let Ticket { info } = ticket;
            drop(info);
            return Err(EnterFault::Stray);
        };
        let pull = &self.pulls[place];
        let group = entries_of(self.entries.as_slice(), &ticket.info.name);
        let local = record_from(group, self.me);
        let promised = open_commits(&self.pulls);
        let is_full = is_full(self.last, promised);
        if let Some(obstacle) = entry_obstacle(pull, group, local, is_full) {
            return Err(not_entered(obstacle, ticket));
        }
        if make_ready(&mut self.entries, promised, &mut self.pulls, place).is_err() {
            return Err(EnterFault::OutOfMemory(ticket));
        }
        let Ticket { info } = ticket;
        Ok(Commit { info })
    }

    /// O(log n + k^2) for n records kept and k devices that announce the name, and the copy. A name without a best does
    /// not allocate.
    fn best(&self, name: &SafeName) -> Result<Option<Best>, AllocError>
        ensures found { IfOk result (λ b. option_map (λ b. (b.record, b.devices)) b
            ≡ best_with_devices self.now name.now) }
        ensures none { best_with_devices self.now name.now ≡ None → IsOk result }
    {
        let group = entries_of(self.entries.as_slice(), name);
        best_with_devices(*self.entries.allocator(), group)
    }

    /// O(log n) for n records kept, and O(k^2) for each name up to the last one of the page, with k devices that announce
    /// it, and the copies. An empty page does not allocate.
    fn bests(&self, after: Option<&SafeName>, limit: usize) -> Result<Items<Best>, AllocError>
        ensures page { IfOk result (λ page. map (λ b. (b.record, b.devices)) page
            ≡ bests_page self.now (option_copied after.entry) limit) }
        ensures none { bests_page self.now (option_copied after.entry) limit ≡ [] → IsOk result }
    {
        let rest = entries_after(self.entries.as_slice(), after);
        let page = bests_of(*self.entries.allocator(), rest, limit)?;
        Ok(Items::from_vec(page))
    }

    /// O(log n + k) for n records kept and k devices that announce the name. The record is not copied but shared. A name
    /// without a local record does not allocate.
    fn local(&self, name: &SafeName) -> Result<Option<Record>, AllocError>
        ensures found { IfOk result (λ r. r ≡ local self.now name.now) }
        ensures none { local self.now name.now ≡ None → IsOk result }
    {
        copy_from(entries_of(self.entries.as_slice(), name), self.me)
    }

    /// O(log n) for n records kept, and O(k^2) for each name up to the last one of the page, with k devices that announce
    /// it, and the copies of the names. An empty page does not allocate.
    fn need(&self, after: Option<&SafeName>, limit: usize) -> Result<Items<SafeName>, AllocError>
        ensures page { IfOk result (λ names. names
            ≡ need_page self.now (option_copied after.entry) limit) }
        ensures none { need_page self.now (option_copied after.entry) limit ≡ [] → IsOk result }
    {
        let rest = entries_after(self.entries.as_slice(), after);
        let names = needed_names(*self.entries.allocator(), rest, self.me, limit)?;
        Ok(Items::from_vec(names))
    }

    /// O(n + m log m) for n records kept and m local ones of greater sequence. Those of the page are not copied but shared.
    /// An empty page does not allocate.
    fn local_since(&self, sequence: u64, limit: usize) -> Result<Items<Record>, AllocError>
        ensures page { IfOk result (λ page. page ≡ local_since self.now sequence limit) }
        ensures none { local_since self.now sequence limit ≡ [] → IsOk result }
    {
        let alloc = *self.entries.allocator();
        let page = records_since(alloc, self.entries.as_slice(), self.me, sequence, limit)?;
        Ok(Items::from_vec(page))
    }

    /// O(n + b) for n records kept, up to the file that is found, and b blocks of the local files up to it, and the copy of
    /// the name. It does not allocate where there is none.
    fn find_block(&self, hash: &[u8; 32]) -> Result<Option<Place>, AllocError>
        ensures found { IfOk result (λ place. IsSomePlace self.now hash.now place) }
        ensures none { places self.now hash.now ≡ [] → IsOk result }
    {
        position_of(self.entries.as_slice(), self.me, hash)
    }

    /// O(n) for n records kept, O(1) for this device.
    fn known(&self, device: DeviceId) -> u64
        ensures { result ≡ known self.now device }
    {
        if device == self.me {
            return self.last;
        }
        greatest_sequence(self.entries.as_slice(), device)
    }

    /// O(n) for n records kept, and O(k^2) for each name, with k devices that announce it.
    fn counts(&self) -> Counts
        ensures { result ≡ counts self.now }
    {
        let entries = self.entries.as_slice();
        Counts {
            files: live_files(entries, self.me) as u64,
            directories: live_directories(entries, self.me) as u64,
            deletions: deletions(entries, self.me) as u64,
            needed: count_needed(entries, self.me) as u64,
            others: records_of_others(entries, self.me) as u64,
            pulls: self.pulls.len() as u64,
            last: self.last,
        }
    }

    /// O(log n + d^2 + k + b) for n records kept, d devices that announce the name, k open pulls, and b blocks and counters of
    /// what is found and of the local record; O(1) for an index and `Forget`.
    fn accepts(&self, change: &Change) -> bool
        ensures { result ≡ is_accepted (step self.now change.now).0 }
    {
        match change {
            Change::ScanFound {
                name,
                expected,
                found,
                ..
            } => self.accepts_found(name, expected.as_ref(), found),
            Change::ScanGone { name, expected, .. } => self.accepts_gone(name, expected.as_ref()),
            Change::IndexFull { .. } | Change::IndexMore { .. } | Change::Forget { .. } => true,
            Change::BeginPull { name } => self.accepts_begin(name),
            Change::EnterCommit { ticket } => self.accepts_entry(ticket),
            Change::GiveUp { ticket } => self.has_open(ticket, PullStage::Pulling),
            Change::Finish { commit, .. } | Change::Abort { commit } => {
                self.has_open(commit, PullStage::Committing)
            }
        }
    }

    /// O(n + k) for n records kept and k open pulls. The records are not copied but shared. Where there is neither record
    /// nor pull it does not allocate.
    fn plain_copy(&self) -> Result<PlainFolder, AllocError>
        ensures copy { IfOk result (λ copy. copy ≡ self.now) }
        ensures nothing { self.now.announced ≡ empty → self.now.pulls ≡ empty → IsOk result }
    {
        let alloc = *self.entries.allocator();
        let room = self.entries.len() + open_commits(&self.pulls);
        Ok(PlainFolder {
            me: self.me,
            entries: copied_entries(alloc, self.entries.as_slice(), room)?,
            last: self.last,
            pulls: copied_pulls(alloc, self.pulls.as_slice())?,
        })
    }
}

impl PlainFolder {
    /// The folder of this device that has these records and no open pull; `last` is the last sequence that it gave, 0 if none.
    /// Fails with `BadRecords` where there is no such folder: if `last` is negative, a device has two records of a name, or
    /// this device's records are not all valid, with distinct sequences from 1 to `last`. Fails with `OutOfMemory` only if
    /// there are records and `last` is not negative, and never where the records are in order and none is this device's, or one
    /// of this device is not valid or not of a sequence from 1 to `last`.
    ///
    /// O(n log n) for n records; none is copied. Records that are in order, as [`records`](PlainFolder::records) lends them,
    /// are not sorted.
    pub fn restore(
        alloc: Global,
        me: DeviceId,
        records: Items<Announcement>,
        last: i64,
    ) -> Result<PlainFolder, RestoreFault>
        ensures allowed { IsOk result → MayRestore me (map given records) last }
        ensures restored { IfOk result
            (λ folder. folder ≡ restored_folder me (map given records) last) }
        ensures refused { IfErr result
            (λ fault. fault ≡ BadRecords → ¬ (MayRestore me (map given records) last)) }
        ensures none { records ≡ [] → IfErr result (λ fault. fault ≡ BadRecords) }
        ensures negative { is_natural last ≡ false → IfErr result (λ fault. fault ≡ BadRecords) }
        ensures in_order { Rises records → filter (is_from me) records ≡ [] →
            IfErr result (λ fault. fault ≡ BadRecords) }
        ensures numbered { (n : ℕ) → last ≡ pos n → Rises records →
            list_all (λ e. is_numbered n e.record) (filter (is_from me) records) ≡ false →
            IfErr result (λ fault. fault ≡ BadRecords) }
    {
        let Ok(last) = u64::try_from(last) else {
            return Err(RestoreFault::BadRecords);
        };
        let entries = in_order(records.into_vec())?;
        if !are_numbered(alloc, entries.as_slice(), me, last)? {
            return Err(RestoreFault::BadRecords);
        }
        Ok(PlainFolder {
            me,
            entries,
            last,
            pulls: Vec::new(alloc),
        })
    }

    /// The folder of this device that has these announcements, by name and then by device, this last sequence and these open
    /// pulls. Returns `Err` only if out of memory, and never where no commit is open. O(k) for k open pulls, where the list has
    /// room for what the open commits will add, and else O(n + k) for n announcements.
    pub fn from_parts(
        me: DeviceId,
        announcements: Items<Announcement>,
        last: u64,
        pulls: Vec<OpenPull>,
    ) -> Result<PlainFolder, AllocError>
        requires rises { Rises announcements }
        requires pulls_rise { PullsRise pulls.items }
        requires folder { IsFolder (folder_of me announcements last (pulls_of pulls.items)) }
        requires ready { All IsReady pulls.items }
        ensures made { IfOk result
            (λ folder. folder ≡ folder_of me announcements last (pulls_of pulls.items)) }
        ensures none { commits pulls.items ≡ 0 → IsOk result }
    {
        let mut entries = announcements.into_vec();
        entries.reserve(open_commits(&pulls))?;
        Ok(PlainFolder {
            me,
            entries,
            last,
            pulls,
        })
    }

    /// Every record with the device that announces it, by name and then by device. Does not allocate. O(1).
    pub fn records(&self) -> &[Announcement]
        ensures { map filed result.now ≡ entries self.now.announced }
    {
        self.entries.as_slice()
    }

    /// Whether both are the same state: of the same device, with the same records, the same last sequence and the same open
    /// pulls. Of the record over which a pull began only the version counts. Does not allocate. O(s) for s bytes of both.
    pub fn same_state(&self, other: &PlainFolder) -> bool
        ensures { IsTrue result ↔ (self.now ≡ other.now) }
    {
        self.me == other.me
            && self.last == other.last
            && same_entries(self.entries.as_slice(), other.entries.as_slice())
            && same_pulls(self.pulls.as_slice(), other.pulls.as_slice())
    }
}

/// Makes room in the entries for this many more, and for what the open commits will add, and an empty list, with room for
/// just the entries and the new ones where there are new ones. The entries stay as they are. It does not allocate if there
/// are no new ones.
fn room_for(
    entries: &mut Vec<Announcement>,
    new: usize,
    promised: usize,
) -> Result<Vec<Announcement>, AllocError>
    requires { vec_len entries.old + promised ≤ vec_capacity entries.old }
    ensures entries_stay { entries.new.items ≡ entries.old.items }
    ensures len { vec_len entries.new ≡ vec_len entries.old }
    ensures grown { vec_len entries.new + promised ≤ vec_capacity entries.new }
    ensures entries_fit { IfOk result
        (λ _. vec_len entries.new + new + promised ≤ vec_capacity entries.new) }
    ensures is_empty { IfOk result (λ room. room.items ≡ []) }
    ensures room_fits { IfOk result
        (λ room. 0 < new → vec_capacity room ≡ vec_len entries.new + new) }
    ensures nothing { new ≡ 0 → IsOk result }
{
    if new == 0 {
        return Ok(Vec::new(*entries.allocator()));
    }
    let more = new.checked_add(promised).ok_or(AllocError)?;
    entries.reserve(more)?;
    Vec::with_capacity(*entries.allocator(), entries.len() + new)
}

/// How many commits are open. O(k) for k open pulls.
pub fn open_commits(pulls: &[OpenPull]) -> usize
    ensures { result ≡ commits pulls.now }
{
    pulls.iter().filter(|pull| pull.ready.is_some()).count()
}
