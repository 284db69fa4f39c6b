//! All devices' records by name, with the best of each name, and whether it is needed, kept up to date.
ghost use Rattle.std.specs.Prelude.{◌&&◌, ◌≢◌, if◌then◌else◌, IsTrue, not, ◌≡◌, ◌+◌, ◌<◌, ◌≤◌, ◌^◌, ◌==◌, [], false, filter, IfOk, IsOk, None, OnErr, OnOk, map, option_copied, option_map, ◌++◌, ◌-◌, slice_get, take, vec_len};
ghost use Rattle.std.specs.FinMap.{empty, entries, get};
ghost use Rattle.std.specs.FinSet.{contains, empty as no_names};
ghost use Rattle.sync_record.specs.Records.{Name};
ghost use Rattle.folder_core.specs.Announced.{announce, best, is_of, key};
ghost use Rattle.folder_core.specs.Plain.{filed};
ghost use Rattle.folder_core.specs.Reads.{best_with_devices, bests_page, counts, need_page};
ghost use Rattle.folder_index.specs.Groups.{AreNeeded, bests_listed, entries_in, needed_listed, shown};
ghost use Rattle.folder_index.specs.Chunks.{groups_in, keyed};
ghost use Rattle.folder_index.specs.Devices.{greatest_of, names_by, sequences_by, without_device};
ghost use Rattle.folder_index.specs.Indexes.{AreApart, folder, needs, with_promise, with_record, with_records, without_promise, without_record};

use crate::chunks::{Chunks, NOWHERE};
use crate::entries::{greatest_from, push_copies, push_names, record_from};
use crate::group::Group;
use crate::groups::{clear_in, promise_in, put_all, set_in, spare_all, take_back_in};
use crate::noted::{Noted, loosen, note, noted_of, raised, reset};
use crate::{Best, Totals};
use bep_messages::Items;
use folder_core::Announcement;
use std::alloc::{AllocError, Global};
use std::marker::Model;
use std::slice;
use sync_names::SafeName;
use sync_record::{DeviceId, Record};

/// The most records of other devices.
const MAX_OTHERS: u64 = u64::MAX - 1;

/// What devices announce, by name. The best of a name, and whether it is needed, are found when a record of the name changes.
#[derive(Drop)]
pub struct ByName {
    alloc: Global,
    me: DeviceId,
    names: Chunks,
    totals: Totals,
    choices: u64,
    noted: Vec<Noted>,
}

impl Model for ByName {
    ghost use Rattle.folder_index.specs.Indexes.{IndexState, coded_index};

    ghost Value = { IndexState };

    ghost coded = { coded_index };

    ghost use Rattle.folder_index.specs.Chunks.{groups_in};
    ghost use Rattle.folder_index.specs.Noted.{AreKeptByName};
    ghost use Rattle.folder_index.specs.Groups.{index_of};

    ghost view = { λ f. index_of f.me (groups_in f.names) f.choices };

    ghost invariant = { λ f. AreKeptByName f.me f.names f.totals f.noted.items };
}

impl ByName {
    /// No records. Does not allocate. O(1).
    pub fn new(alloc: Global, me: DeviceId) -> ByName
        ensures { result ≡ record { me = me; announced = empty; choices = 0; promised = no_names } }
    {
        ByName {
            alloc,
            me,
            names: Chunks::new(alloc),
            totals: Totals::none(),
            choices: 0,
            noted: Vec::new(alloc),
        }
    }

    /// This device. O(1).
    pub fn me(&self) -> DeviceId
        ensures { result ≡ self.now.me }
    {
        self.me
    }

    /// How often a best was chosen, up to the greatest number. O(1).
    pub fn choices(&self) -> u64
        ensures { result ≡ self.now.choices }
    {
        self.choices
    }

    /// The record that a device announces of a name, if there is one. O(log n + k) for n names and k devices that announce the name.
    pub fn get(&self, device: DeviceId, name: &SafeName) -> Option<&Record>
        ensures { option_copied result ≡ get self.now.announced (key name.now device) }
    {
        match self.names.get(name) {
            Some(group) => record_from(group.entries(), device),
            None => None,
        }
    }

    /// Puts a device's record, in place of what it announced of its name, and chooses the best of the name anew. Returns `Err`
    /// only if out of memory, or if the other devices have 2^64 - 2 records already, and then nothing changes.
    /// O(log n + k^2 + d) for n names, k devices that announce the name and d devices in all.
    pub fn set(&mut self, device: DeviceId, announced: Record) -> Result<(), AllocError>
        ensures ok { OnOk result (self.new ≡ with_record device announced self.old) }
        ensures err { OnErr result (self.new ≡ self.old) }
        ensures promised { device ≡ self.old.me → IsTrue (contains self.old.promised announced.name) →
            IsOk result }
    {
        if device == self.me {
            self.set_own(announced)
        } else {
            self.set_other(device, announced)
        }
    }

    /// Puts a record of this device.
    fn set_own(&mut self, announced: Record) -> Result<(), AllocError>
        ensures ok { OnOk result (self.new ≡ with_record self.old.me announced self.old) }
        ensures err { OnErr result (self.new ≡ self.old) }
        ensures promised { IsTrue (contains self.old.promised announced.name) → IsOk result }
    {
        self.totals = set_in(
            &mut self.names,
            NOWHERE,
            self.totals,
            self.alloc,
            self.me,
            self.me,
            announced,
        )?;
        self.choices = self.choices.saturating_add(1);
        Ok(())
    }

    /// Puts a record of another device, and notes its sequence.
    fn set_other(&mut self, device: DeviceId, announced: Record) -> Result<(), AllocError>
        requires { device ≢ self.old.me }
        ensures ok { OnOk result (self.new ≡ with_record device announced self.old) }
        ensures err { OnErr result (self.new ≡ self.old) }
    {
        if self.totals.others >= MAX_OTHERS {
            return Err(AllocError);
        }
        self.noted.reserve(1)?;
        let old = noted_of(self.noted.as_slice(), device);
        let new = raised(old, slice::from_ref(&announced));
        self.totals = set_in(
            &mut self.names,
            NOWHERE,
            self.totals,
            self.alloc,
            self.me,
            device,
            announced,
        )?;
        note(&mut self.noted, new);
        self.choices = self.choices.saturating_add(1);
        Ok(())
    }

    /// Puts records of another device, no two of one name, each in place of what the device announced of its name, and chooses the bests
    /// of these names anew. Returns `Err` only if out of memory, or if the other devices would have more than 2^64 - 2 records, and then
    /// nothing changes. O(m log n + m k^2 + d) for m records given, n names, k devices that announce a name and d in all.
    pub fn set_all(&mut self, device: DeviceId, records: Items<Record>) -> Result<(), AllocError>
        requires other { device ≢ self.old.me }
        requires apart { AreApart records }
        ensures ok { OnOk result (self.new ≡ with_records device records self.old) }
        ensures err { OnErr result (self.new ≡ self.old) }
    {
        let records = records.into_vec();
        let count = records.len() as u64;
        if count > MAX_OTHERS - self.totals.others {
            return Err(AllocError);
        }
        self.noted.reserve(1)?;
        let old = noted_of(self.noted.as_slice(), device);
        let new = raised(old, records.as_slice());
        let spots = spare_all(
            &mut self.names,
            self.totals,
            self.alloc,
            self.me,
            device,
            records.as_slice(),
        )?;
        self.totals = put_all(
            &mut self.names,
            self.totals,
            self.alloc,
            self.me,
            device,
            records,
            spots.as_slice(),
        );
        if count > 0 {
            note(&mut self.noted, new);
        }
        self.choices = self.choices.saturating_add(count);
        Ok(())
    }

    /// Makes room for a record of this device: the next `set` of one of this name takes it, and doesn't fail. Returns `Err` only
    /// if out of memory, and then nothing changes. O(log n) for n names.
    pub fn reserve(&mut self, name: &SafeName) -> Result<(), AllocError>
        ensures ok { OnOk result (self.new ≡ with_promise name.now self.old) }
        ensures err { OnErr result (self.new ≡ self.old) }
    {
        promise_in(&mut self.names, self.totals, self.alloc, self.me, name)
    }

    /// Whether there is room that was made for a record of this device. O(log n) for n names.
    pub fn is_promised(&self, name: &SafeName) -> bool
        ensures { result ≡ contains self.now.promised name.now }
    {
        match self.names.get(name) {
            Some(group) => group.is_promised,
            None => false,
        }
    }

    /// Gives up the room that was made for a record of this device, if there is any. Does not allocate. O(log n) for n names.
    pub fn release(&mut self, name: &SafeName)
        ensures { self.new ≡ without_promise name.now self.old }
    {
        take_back_in(&mut self.names, self.totals, self.me, name);
    }

    /// Takes away what a device announces of a name, if there is anything, and then chooses the best of the name anew. Does
    /// not allocate. O(log n + k^2 + d) for n names, k devices that announce the name and d devices in all.
    pub fn clear(&mut self, device: DeviceId, name: &SafeName)
        ensures { self.new ≡ without_record device name.now self.old }
    {
        if self.get(device, name).is_none() {
            return;
        }
        self.totals = clear_in(
            &mut self.names,
            self.totals,
            self.alloc,
            self.me,
            device,
            name,
        );
        loosen(&mut self.noted, device);
        self.choices = self.choices.saturating_add(1);
    }

    /// Takes away all that a device announces, name by name. Returns `Err` only if out of memory, and then nothing changes.
    /// O(n + m log n + m d) for n records, of which m are the device's, and d devices, and copies of the names of these.
    pub fn forget(&mut self, device: DeviceId) -> Result<(), AllocError>
        ensures ok { OnOk result (self.new ≡ without_device device self.old) }
        ensures err { OnErr result (self.new ≡ self.old) }
    {
        let names = self.names_of(device)?;
        for name in names.as_slice() {
            self.clear(device, name);
        }
        self.note_nothing(device);
        Ok(())
    }

    /// Notes that a device announces nothing.
    fn note_nothing(&mut self, device: DeviceId)
        requires { (n : Name) → get self.old.announced (key n device) ≡ None }
        ensures { self.new ≡ self.old }
    {
        reset(&mut self.noted, device);
    }

    /// The records of a name, by device, with the devices that announce them. Does not allocate. O(log n) for n names.
    pub fn announcements_of(&self, name: &SafeName) -> &[Announcement]
        ensures { map filed result.now ≡ filter (is_of name.now) (entries self.now.announced) }
    {
        match self.names.get(name) {
            Some(group) => group.entries(),
            None => &[],
        }
    }

    /// The best of a name, and the device that announces it; `None` where no valid record of the name is announced. O(log n) for n names.
    pub fn best(&self, name: &SafeName) -> Option<&Announcement>
        ensures { option_map filed (option_copied result) ≡ best (entries self.now.announced) name.now }
    {
        match self.names.get(name) {
            Some(group) => group.best(),
            None => None,
        }
    }

    /// A copy of the best record of a name, and the devices whose valid record of the name has its version and its content;
    /// `None` where no valid record of the name is announced. Returns `Err` only if out of memory, and never where it is
    /// `None`. O(log n + k) for n names and k devices that announce the name, and the copy.
    pub fn best_with_devices(&self, name: &SafeName) -> Result<Option<Best>, AllocError>
        ensures found { IfOk result (λ b. option_map (λ b. (b.record, b.devices)) b
            ≡ best_with_devices (folder self.now) name.now) }
        ensures none { best_with_devices (folder self.now) name.now ≡ None → IsOk result }
    {
        match self.names.get(name) {
            Some(group) => group.best_with_devices(self.alloc),
            None => Ok(None),
        }
    }

    /// The bests of the names greater than `after`, or of all names where it is `None`, in byte order of the names: the first `limit` of
    /// them, or all where there are fewer. Returns `Err` only if out of memory. O(log n) for n names, and O(k) for each name up to the
    /// last one of the page, with k devices that announce it, and the copies. An empty page does not allocate.
    pub fn bests(&self, after: Option<&SafeName>, limit: usize) -> Result<Items<Best>, AllocError>
        ensures page { IfOk result (λ page. map (λ b. (b.record, b.devices)) page
            ≡ bests_page (folder self.now) (option_copied after.entry) limit) }
        ensures none { bests_page (folder self.now) (option_copied after.entry) limit ≡ [] → IsOk result }
    {
        let start = self.names.start_after(after);
        let mut page = Vec::new(self.alloc);
        push_bests(&mut page, self.alloc, self.names.rest(start), limit)?;
        for chunk in self.names.later(start) {
            push_bests(&mut page, self.alloc, chunk.as_slice(), limit)?;
        }
        Ok(Items::from_vec(page))
    }

    /// Whether this device needs the best of a name: its best is of another version than the local record, or there is no local
    /// record and the best isn't deleted. O(log n) for n names.
    pub fn needs(&self, name: &SafeName) -> bool
        ensures { result ≡ needs self.now name.now }
    {
        match self.names.get(name) {
            Some(group) => group.is_needed,
            None => false,
        }
    }

    /// The names greater than `after`, or all names where it is `None`, that this device needs, in byte order: the first
    /// `limit` of them, or all where there are fewer. Returns `Err` only if out of memory. O(log n + p) for n names, p of them
    /// up to the last one of the page, and the copies. An empty page does not allocate.
    pub fn need(
        &self,
        after: Option<&SafeName>,
        limit: usize,
    ) -> Result<Items<SafeName>, AllocError>
        ensures page { IfOk result (λ page. page
            ≡ need_page (folder self.now) (option_copied after.entry) limit) }
        ensures none { need_page (folder self.now) (option_copied after.entry) limit ≡ [] → IsOk result }
    {
        let start = self.names.start_after(after);
        let mut page = Vec::new(self.alloc);
        push_needed(&mut page, self.names.rest(start), limit)?;
        for chunk in self.names.later(start) {
            push_needed(&mut page, chunk.as_slice(), limit)?;
        }
        Ok(Items::from_vec(page))
    }

    /// The greatest sequence of a device's records, 0 without any. O(d) for d devices; O(n) for n records for this device, and for
    /// another one after a record of it was taken away, or one of a lesser sequence put, until it announces a greater sequence again.
    pub fn greatest_sequence(&self, device: DeviceId) -> u64
        ensures { result ≡ greatest_of (sequences_by device (entries self.now.announced)) }
    {
        let noted = noted_of(self.noted.as_slice(), device);
        if noted.is_exact && device != self.me {
            noted.greatest
        } else {
            self.found_greatest(device)
        }
    }

    /// The same, looked for among all records. O(n) for n records.
    fn found_greatest(&self, device: DeviceId) -> u64
        ensures { result ≡ greatest_of (sequences_by device (entries self.now.announced)) }
    {
        let mut greatest = 0;
        for chunk in self.names.chunks.as_slice() {
            for group in chunk.as_slice() {
                greatest = greatest_from(greatest, group.entries(), device);
            }
        }
        greatest
    }

    /// The names of which a device announces something, in byte order. Returns `Err` only if out of memory. O(n) for n records,
    /// and the copies. It does not allocate where there are none.
    pub fn names_of(&self, device: DeviceId) -> Result<Items<SafeName>, AllocError>
        ensures names { IfOk result (λ names. names ≡ names_by device (entries self.now.announced)) }
        ensures none { names_by device (entries self.now.announced) ≡ [] → IsOk result }
    {
        let mut names = Vec::new(self.alloc);
        for chunk in self.names.chunks.as_slice() {
            for group in chunk.as_slice() {
                push_names(&mut names, group.entries(), device)?;
            }
        }
        Ok(Items::from_vec(names))
    }

    /// Every record with the device that announces it, by name and then by device. The records are not copied but shared. Returns
    /// `Err` only if out of memory. O(n) for n records. It does not allocate where there are none.
    pub fn announcements(&self) -> Result<Items<Announcement>, AllocError>
        ensures all { IfOk result (λ all. map filed all ≡ entries self.now.announced) }
        ensures none { self.now.announced ≡ empty → IsOk result }
    {
        let mut all = Vec::new(self.alloc);
        for chunk in self.names.chunks.as_slice() {
            for group in chunk.as_slice() {
                push_copies(&mut all, group.entries())?;
            }
        }
        Ok(Items::from_vec(all))
    }

    /// How much there is. O(1).
    pub fn totals(&self) -> Totals
        ensures files { result.files ≡ (counts (folder self.now)).files }
        ensures directories { result.directories ≡ (counts (folder self.now)).directories }
        ensures deletions { result.deletions ≡ (counts (folder self.now)).deletions }
        ensures needed { result.needed ≡ (counts (folder self.now)).needed }
        ensures others { result.others ≡ (counts (folder self.now)).others }
    {
        self.totals
    }
}

/// Puts the bests of groups at the end of a page of no more than `limit`, until that is full. Returns `Err` only if out of memory,
/// and never where there are none. O(k) for each group, with k devices that announce its name, and the copies.
fn push_bests(
    page: &mut Vec<Best>,
    alloc: Global,
    groups: &[Group],
    limit: usize,
) -> Result<(), AllocError>
    requires { vec_len page.old ≤ limit }
    ensures fits { vec_len page.new ≤ limit }
    ensures page { OnOk result (map shown page.new.items
        ≡ map shown page.old.items ++ take (limit - vec_len page.old) (bests_listed (map keyed groups.now))) }
    ensures none { take (limit - vec_len page.old) (bests_listed (map keyed groups.now)) ≡ [] → IsOk result }
{
    for group in groups {
        if page.len() == limit {
            break;
        }
        if let Some(best) = group.best_with_devices(alloc)? {
            page.push(best)?;
        }
    }
    Ok(())
}

/// Puts the names of the groups that are needed at the end of a page of no more than `limit`, until that is full. Returns `Err`
/// only if out of memory, and never where there are none. O(n) for n groups, and the copies.
fn push_needed(page: &mut Vec<SafeName>, groups: &[Group], limit: usize) -> Result<(), AllocError>
    requires fits { vec_len page.old ≤ limit }
    requires named { AreNeeded groups.now }
    ensures fits { vec_len page.new ≤ limit }
    ensures page { OnOk result (page.new.items
        ≡ page.old.items ++ take (limit - vec_len page.old) (needed_listed (map keyed groups.now))) }
    ensures none { take (limit - vec_len page.old) (needed_listed (map keyed groups.now)) ≡ [] → IsOk result }
{
    for group in groups {
        if page.len() == limit {
            break;
        }
        if let Some(first) = first_needed(group) {
            page.push(first.record.name().copy()?)?;
        }
    }
    Ok(())
}

/// The first entry of a group that is needed.
fn first_needed(group: &Group) -> Option<&Announcement>
    ensures { option_copied result
        ≡ (if group.now.is_needed then slice_get (entries_in group.now) 0 else None) }
{
    if group.is_needed {
        group.entries().first()
    } else {
        None
    }
}
