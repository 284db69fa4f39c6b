//! What is kept of one name.
ghost use Rattle.std.specs.Prelude.{bytes_eq, IsTrue, true, ◌≡◌, ◌+◌, ◌<◌, ◌≤◌, ◌&&◌, ◌^◌, ℕ, [], All, IfOk, IsOk, List, OnErr, OnOk, filter, length, map, not, option_and_then, option_copied, option_map, if◌then◌else◌, is_some, false, slice_get, Some, None};
ghost use Rattle.std.specs.FinMap.{put};
ghost use Rattle.sync_record.specs.Records.{Name, is_directory, is_live, is_live_file};
ghost use Rattle.folder_core.specs.declared.announcement.Announcement.{Announcement as Entry};
ghost use Rattle.folder_core.specs.Announced.{key, key_cmp};
ghost use Rattle.folder_core.specs.Plain.{devices_with, filed};
ghost use Rattle.folder_core.specs.PlainPulls.{best_in};
ghost use Rattle.folder_core.specs.PlainReads.{is_from, is_needed_over, needed_of, record_from};
ghost use Rattle.folder_index.specs.Groups.{HasRoom, HasSpare, IsChanged, IsGroup, best_of_group, chosen, entries_in, name_in, totals_in};

use crate::entries::record_from;
use crate::name_entries::NameEntries;
use crate::{Best, Totals};
use bep_messages::Items;
use folder_core::{Announcement, devices_with, is_needed_over, place_of_best};
use std::alloc::{AllocError, Global};
use sync_names::SafeName;
use sync_record::{DeviceId, Kind, Record};

/// Where no entry is.
const NOWHERE: u32 = u32::MAX;

/// The records of one name, by device, with the choice of the best of them. A group may have none: then it means nothing. It takes
/// 64 bytes, beside the list of a name of which several devices announce something.
#[derive(Debug, Drop)]
pub(crate) struct Group {
    pub(crate) kept: NameEntries,
    // Where among the entries the best is.
    pub(crate) best_place: u32,
    pub(crate) is_needed: bool,
    // Whether there is to be room for one entry more.
    pub(crate) is_promised: bool,
}

impl Group {
    /// The group of a name with no entries. Does not allocate.
    pub(crate) fn new(alloc: Global, name: SafeName) -> Group
        ensures group { (me : List ℕ) → IsGroup me name result }
        ensures empty { entries_in result ≡ [] }
        ensures needed { result.is_needed ≡ false }
        ensures promised { result.is_promised ≡ false }
    {
        Group {
            kept: NameEntries::Vacant(name, Vec::new(alloc)),
            best_place: NOWHERE,
            is_needed: false,
            is_promised: false,
        }
    }

    /// The group of a record's name with no entries. Does not allocate.
    pub(crate) fn vacant(alloc: Global, announced: Record) -> Group
        ensures group { (me : List ℕ) → IsGroup me announced.name result }
        ensures empty { entries_in result ≡ [] }
        ensures needed { result.is_needed ≡ false }
        ensures promised { result.is_promised ≡ false }
    {
        Group {
            kept: NameEntries::Emptied(announced, Vec::new(alloc)),
            best_place: NOWHERE,
            is_needed: false,
            is_promised: false,
        }
    }

    /// The name. O(1).
    pub(crate) fn name(&self) -> &str
        ensures { result.now ≡ name_in self.now }
    {
        self.kept.name()
    }

    /// The entries, by device. O(1).
    pub(crate) fn entries(&self) -> &[Announcement]
        ensures { result.now ≡ entries_in self.now }
    {
        self.kept.as_slice()
    }

    /// The best of the entries. O(1).
    pub(crate) fn best(&self) -> Option<&Announcement>
        ensures { option_copied result ≡ chosen self.now }
    {
        self.entries().get(self.best_place as usize)
    }

    /// Whether the device has no better local record than the chosen one.
    fn needs_best(&self, me: DeviceId) -> bool
        ensures { result ≡ is_some (option_and_then
            (λ b. if is_needed_over (record_from me (entries_in self.now)) b.record then Some b else None)
            (chosen self.now)) }
    {
        match self.best() {
            Some(best) => is_needed_over(record_from(self.entries(), me), &best.record),
            None => false,
        }
    }

    /// Chooses the best, and whether it is needed, anew. Does not allocate. O(k^2) for k entries.
    fn choose(&mut self, me: DeviceId)
        requires { length (entries_in self.old) < 2 ^ 32 }
        ensures kept { self.new.kept ≡ self.old.kept }
        ensures best { chosen self.new ≡ best_in (entries_in self.new) }
        ensures needed { self.new.is_needed ≡ is_some (needed_of me (entries_in self.new)) }
        ensures promised { self.new.is_promised ≡ self.old.is_promised }
    {
        self.best_place = narrow(place_of_best(self.entries()));
        self.is_needed = self.needs_best(me);
    }

    /// Whether room is promised that a device's record doesn't take.
    fn keeps_promise(&self, me: DeviceId, device: DeviceId) -> bool
        ensures { result ≡ (self.now.is_promised && not (bytes_eq device me)) }
    {
        self.is_promised && device != me
    }

    /// Puts a device's record of the name in its place. This device's takes the room that is promised. Returns `Err` only if
    /// out of memory, and never where that is; then nothing changes. O(k^2) for k entries.
    pub(crate) fn set(
        &mut self,
        alloc: Global,
        me: DeviceId,
        device: DeviceId,
        announced: Record,
    ) -> Result<(), AllocError>
        requires { IsGroup me announced.name self.old }
        ensures group { OnOk result (IsGroup me announced.name self.new) }
        ensures placed { OnOk result (map filed (entries_in self.new)
            ≡ put key_cmp (key announced.name device) announced (map filed (entries_in self.old))) }
        ensures err { OnErr result (IsGroup me announced.name self.new) }
        ensures kept { OnErr result (entries_in self.new ≡ entries_in self.old) }
        ensures promised { OnOk result (self.new.is_promised
            ≡ (self.old.is_promised && not (bytes_eq device me))) }
        ensures promise_stays { OnErr result (self.new.is_promised ≡ self.old.is_promised) }
        ensures fits { IsTrue (self.old.is_promised && bytes_eq device me) → IsOk result }
        ensures roomy { HasSpare device self.old → IsOk result }
    {
        let keeps = self.keeps_promise(me, device);
        let spare = if keeps { 1 } else { 0 };
        self.kept.set(alloc, device, announced, spare)?;
        self.is_promised = keeps;
        self.choose(me);
        Ok(())
    }

    /// Takes a device's record away. Does not allocate. O(k^2) for k entries.
    pub(crate) fn clear(&mut self, alloc: Global, me: DeviceId, device: DeviceId)
        requires { IsGroup me (name_in self.old) self.old }
        ensures group { IsGroup me (name_in self.old) self.new }
        ensures taken { entries_in self.new
            ≡ filter (λ e. not (is_from device e)) (entries_in self.old) }
        ensures promised { self.new.is_promised ≡ self.old.is_promised }
    {
        self.kept.remove(alloc, device);
        self.choose(me);
    }

    /// Puts a device's record of the name in its place, and returns the new totals of all groups. Returns `Err` only if out of
    /// memory; then nothing changes. O(k^2) for k entries.
    pub(crate) fn set_counted(
        &mut self,
        totals: Totals,
        alloc: Global,
        me: DeviceId,
        device: DeviceId,
        announced: Record,
    ) -> Result<Totals, AllocError>
        requires group { IsGroup me announced.name self.old }
        requires room { HasRoom totals (totals_in me self.old) }
        ensures group { IsGroup me announced.name self.new }
        ensures totals { IfOk result
            (λ u. IsChanged totals (totals_in me self.old) (totals_in me self.new) u) }
        ensures placed { OnOk result (map filed (entries_in self.new)
            ≡ put key_cmp (key announced.name device) announced (map filed (entries_in self.old))) }
        ensures kept { OnErr result (entries_in self.new ≡ entries_in self.old) }
        ensures promised { OnOk result (self.new.is_promised
            ≡ (self.old.is_promised && not (bytes_eq device me))) }
        ensures promise_stays { OnErr result (self.new.is_promised ≡ self.old.is_promised) }
        ensures fits { IsTrue (self.old.is_promised && bytes_eq device me) → IsOk result }
        ensures roomy { HasSpare device self.old → IsOk result }
        ensures one_more { IfOk result (λ u. u.others ≤ totals.others + 1) }
    {
        let was = self.totals(me);
        self.set(alloc, me, device, announced)?;
        Ok(totals.changed(was, self.totals(me)))
    }

    /// Takes a device's record away, and returns the new totals of all groups. Does not allocate. O(k^2) for k entries.
    pub(crate) fn clear_counted(
        &mut self,
        totals: Totals,
        alloc: Global,
        me: DeviceId,
        device: DeviceId,
        name: &SafeName,
    ) -> Totals
        requires group { IsGroup me name.now self.old }
        requires room { HasRoom totals (totals_in me self.old) }
        ensures group { IsGroup me name.now self.new }
        ensures totals { IsChanged totals (totals_in me self.old) (totals_in me self.new) result }
        ensures taken { entries_in self.new
            ≡ filter (λ e. not (is_from device e)) (entries_in self.old) }
        ensures promised { self.new.is_promised ≡ self.old.is_promised }
    {
        let was = self.totals(me);
        self.clear(alloc, me, device);
        totals.changed(was, self.totals(me))
    }

    /// Promises room for one entry more, which this device's record takes. Returns `Err` only if out of memory; then nothing
    /// changes. O(k) for k entries.
    pub(crate) fn promise(&mut self, alloc: Global) -> Result<(), AllocError>
        ensures group { (me : List ℕ) (n : Name) → IsGroup me n self.old → IsGroup me n self.new }
        ensures kept { entries_in self.new ≡ entries_in self.old }
        ensures promised { OnOk result (self.new.is_promised ≡ true) }
        ensures promise_stays { OnErr result (self.new.is_promised ≡ self.old.is_promised) }
    {
        self.kept.reserve(alloc, 1)?;
        self.is_promised = true;
        Ok(())
    }

    /// Makes room for a record of the device, beside the room that is promised. Returns `Err` only if out of memory; then nothing
    /// changes. O(k) for k entries.
    pub(crate) fn spare(&mut self, alloc: Global, device: DeviceId) -> Result<(), AllocError>
        ensures group { (me : List ℕ) (n : Name) → IsGroup me n self.old → IsGroup me n self.new }
        ensures kept { entries_in self.new ≡ entries_in self.old }
        ensures promised { self.new.is_promised ≡ self.old.is_promised }
        ensures spare { OnOk result (HasSpare device self.new) }
        ensures stays { HasSpare device self.old → HasSpare device self.new }
    {
        if !self.is_promised && self.kept.is_one_from(device) {
            return Ok(());
        }
        let more = if self.is_promised { 2 } else { 1 };
        self.kept.reserve(alloc, more)
    }

    /// Takes the promise back. Does not allocate. O(1).
    pub(crate) fn take_back(&mut self)
        ensures group { (me : List ℕ) (n : Name) → IsGroup me n self.old → IsGroup me n self.new }
        ensures kept { entries_in self.new ≡ entries_in self.old }
        ensures promised { self.new.is_promised ≡ false }
    {
        self.is_promised = false;
    }

    /// What the group has, counted. O(k) for k entries.
    pub(crate) fn totals(&self, me: DeviceId) -> Totals
        ensures { result ≡ totals_in me self.now }
    {
        let entries = self.entries();
        Totals {
            files: live_files(entries, me) as u64,
            directories: live_directories(entries, me) as u64,
            deletions: deletions(entries, me) as u64,
            needed: if self.is_needed { 1 } else { 0 },
            others: records_of_others(entries, me) as u64,
        }
    }

    /// A copy of the best, and the devices that have it. O(k) for k entries, and the copy. Does not allocate where there is no
    /// best.
    pub(crate) fn best_with_devices(&self, alloc: Global) -> Result<Option<Best>, AllocError>
        ensures found { IfOk result (λ b. option_map (λ b. (b.record, b.devices)) b
            ≡ best_of_group self.now) }
        ensures none { chosen self.now ≡ None → IsOk result }
    {
        let Some(best) = self.best() else {
            return Ok(None);
        };
        let devices = self.devices_with(alloc, best)?;
        Ok(Some(Best {
            record: best.record.copy()?,
            devices: Items::from_vec(devices),
        }))
    }

    /// The devices that have the best. One that is alone is not compared with itself. O(k) for k entries.
    fn devices_with(&self, alloc: Global, best: &Announcement) -> Result<Vec<DeviceId>, AllocError>
        requires { chosen self.now ≡ Some best.now }
        ensures { IfOk result (λ ds. ds.items ≡ devices_with (entries_in self.now) best.now.record) }
    {
        match self.entries() {
            [only] if only.record.is_valid() => {
                let mut devices = Vec::with_capacity(alloc, 1)?;
                devices.push(only.device)?;
                Ok(devices)
            }
            entries => devices_with(alloc, entries, &best.record),
        }
    }
}

/// A place in 32 bits, or `NOWHERE`. O(1).
fn narrow(place: Option<usize>) -> u32
    ensures { (es : List Entry) → length es < 2 ^ 32 →
        slice_get es result ≡ option_and_then (λ i. slice_get es i) place }
{
    match place {
        Some(place) => u32::try_from(place).unwrap_or(NOWHERE),
        None => NOWHERE,
    }
}

/// How many live files the device has. O(k) for k entries.
fn live_files(entries: &[Announcement], device: DeviceId) -> usize
    ensures { result ≡ length (filter
        (λ e. is_from device e && is_live_file e.record) entries.now) }
{
    entries
        .iter()
        .filter(|entry| entry.device == device && is_live_file(entry))
        .count()
}

/// How many live directories the device has. O(k) for k entries.
fn live_directories(entries: &[Announcement], device: DeviceId) -> usize
    ensures { result ≡ length (filter
        (λ e. is_from device e && (is_live e.record && is_directory e.record)) entries.now) }
{
    entries
        .iter()
        .filter(|entry| entry.device == device && is_live_directory(entry))
        .count()
}

/// How many records of deleted names the device has. O(k) for k entries.
fn deletions(entries: &[Announcement], device: DeviceId) -> usize
    ensures { result ≡ length (filter (λ e. is_from device e && e.record.deleted) entries.now) }
{
    entries
        .iter()
        .filter(|entry| entry.device == device && entry.record.is_deleted())
        .count()
}

/// How many records the other devices have. O(k) for k entries.
fn records_of_others(entries: &[Announcement], device: DeviceId) -> usize
    ensures { result ≡ length (filter (λ e. not (is_from device e)) entries.now) }
{
    entries
        .iter()
        .filter(|entry| entry.device != device)
        .count()
}

/// Whether the entry is of a file that isn't deleted.
fn is_live_file(entry: &Announcement) -> bool
    ensures { result ≡ is_live_file entry.now.record }
{
    !entry.record.is_deleted() && entry.record.kind() == Kind::File
}

/// Whether the entry is of a directory that isn't deleted.
fn is_live_directory(entry: &Announcement) -> bool
    ensures { result ≡ (is_live entry.now.record && is_directory entry.now.record) }
{
    !entry.record.is_deleted() && entry.record.kind() == Kind::Directory
}
