//! The records of one name, one of which needs no list.
ghost use Rattle.std.specs.Prelude.{◌≡◌, ◌+◌, ◌<◌, ◌≤◌, ◌^◌, [], IsOk, IsTrue, OnErr, OnOk, filter, length, map, not, vec_capacity, vec_len};
ghost use Rattle.std.specs.FinMap.{put};
ghost use Rattle.folder_core.specs.Announced.{key, key_cmp};
ghost use Rattle.folder_core.specs.Plain.{Rises, filed};
ghost use Rattle.folder_core.specs.PlainReads.{is_from};
ghost use Rattle.folder_index.specs.NameEntries.{AreNamed, entries_kept, is_alone, is_one, is_one_from, name_kept, name_of_first, room_kept, room_of, room_of_none};

use crate::entries::{put, remove_from};
use folder_core::Announcement;
use std::alloc::{AllocError, Global};
use std::mem::replace;
use std::slice;
use sync_names::SafeName;
use sync_record::{DeviceId, Record};

/// The most records of one name.
const MAX_RECORDS: usize = u32::MAX as usize;

/// The records of one name, by device. One record is kept in place, and so most names need no list. Where there are none, the
/// name is kept, or the last record for its name.
#[derive(Debug, Drop)]
pub(crate) enum NameEntries {
    Vacant(SafeName, Vec<Announcement>),
    Emptied(Record, Vec<Announcement>),
    One(Announcement),
    Many(Vec<Announcement>),
}

impl NameEntries {
    /// The name. O(1).
    pub(crate) fn name(&self) -> &str
        ensures { result.now ≡ name_kept self.now }
    {
        match self {
            NameEntries::Vacant(name, _) => name.as_str(),
            NameEntries::Emptied(last, _) => last.name().as_str(),
            NameEntries::One(entry) => entry.record.name().as_str(),
            NameEntries::Many(entries) => match entries.first() {
                Some(entry) => entry.record.name().as_str(),
                None => "",
            },
        }
    }

    /// The records, with the devices that announce them. O(1).
    pub(crate) fn as_slice(&self) -> &[Announcement]
        ensures { result.now ≡ entries_kept self.now }
    {
        match self {
            NameEntries::Vacant(_, entries) => entries.as_slice(),
            NameEntries::Emptied(_, entries) => entries.as_slice(),
            NameEntries::One(entry) => slice::from_ref(entry),
            NameEntries::Many(entries) => entries.as_slice(),
        }
    }

    /// How many records more fit without allocating. O(1).
    fn room(&self) -> usize
        ensures { result ≡ room_kept self.now }
    {
        match self {
            NameEntries::Vacant(_, entries) => room_of_none(entries),
            NameEntries::Emptied(_, entries) => room_of_none(entries),
            NameEntries::One(_) => 0,
            NameEntries::Many(entries) => room_of(entries),
        }
    }

    /// Whether there is one record, and it is the device's. O(1).
    pub(crate) fn is_one_from(&self, device: DeviceId) -> bool
        ensures { result ≡ is_one_from device self.now }
    {
        match self {
            NameEntries::One(entry) => entry.device == device,
            _ => false,
        }
    }

    /// Makes room for so many records more. Returns `Err` only if out of memory, or if there would be more than 2^32 - 1 records,
    /// and then nothing changes. O(k) for k records.
    pub(crate) fn reserve(&mut self, alloc: Global, more: usize) -> Result<(), AllocError>
        ensures kept { entries_kept self.new ≡ entries_kept self.old }
        ensures name { name_kept self.new ≡ name_kept self.old }
        ensures ok { OnOk result (more ≤ room_kept self.new) }
        ensures room { room_kept self.old ≤ room_kept self.new }
        ensures fits { more ≤ room_kept self.old → IsOk result }
    {
        if more <= self.room() {
            return Ok(());
        }
        match self {
            NameEntries::Vacant(_, entries) => grow(entries, more),
            NameEntries::Emptied(_, entries) => grow(entries, more),
            NameEntries::One(_) => self.spread(alloc, more),
            NameEntries::Many(entries) => grow(entries, more),
        }
    }

    /// Puts the one record into a list with room for so many more. Returns `Err` only if out of memory, or if there would be
    /// more than 2^32 - 1 records, and then nothing changes.
    fn spread(&mut self, alloc: Global, more: usize) -> Result<(), AllocError>
        requires { IsTrue (is_one self.old) }
        ensures kept { entries_kept self.new ≡ entries_kept self.old }
        ensures name { name_kept self.new ≡ name_kept self.old }
        ensures ok { OnOk result (more ≤ room_kept self.new) }
        ensures room { room_kept self.old ≤ room_kept self.new }
    {
        let mut entries = Vec::new(alloc);
        grow(&mut entries, more.checked_add(1).ok_or(AllocError)?)?;
        match replace(self, NameEntries::Many(Vec::new(alloc))) {
            NameEntries::One(entry) => {
                entries.push_reserved(entry);
                *self = NameEntries::Many(entries);
            }
            _ => unreachable!(),
        }
        Ok(())
    }

    /// Puts a device's record among the records, in place of the device's. Does not allocate. O(k) for k records.
    fn put(&mut self, device: DeviceId, announced: Record)
        requires rises { Rises (entries_kept self.old) }
        requires named { AreNamed announced.name (entries_kept self.old) }
        requires fits { 1 ≤ room_kept self.old }
        ensures placed { map filed (entries_kept self.new)
            ≡ put key_cmp (key announced.name device) announced (map filed (entries_kept self.old)) }
        ensures name { name_kept self.new ≡ announced.name }
        ensures room { room_kept self.old ≤ room_kept self.new + 1 }
        ensures short { length (entries_kept self.new) < 2 ^ 32 }
    {
        match self {
            NameEntries::Vacant(_, entries) => *self = begun(entries, device, announced),
            NameEntries::Emptied(_, entries) => *self = begun(entries, device, announced),
            NameEntries::One(_) => unreachable!(),
            NameEntries::Many(entries) => put(entries, device, announced),
        }
    }

    /// Puts another record of the device in place of the one.
    fn exchange(&mut self, device: DeviceId, announced: Record)
        requires one { IsTrue (is_one_from device self.old) }
        requires named { AreNamed announced.name (entries_kept self.old) }
        ensures placed { map filed (entries_kept self.new)
            ≡ put key_cmp (key announced.name device) announced (map filed (entries_kept self.old)) }
        ensures name { name_kept self.new ≡ announced.name }
        ensures short { length (entries_kept self.new) < 2 ^ 32 }
    {
        *self = NameEntries::One(Announcement {
            device,
            record: announced,
        });
    }

    /// Puts a device's record among the records, in place of the device's, and leaves room for so many more. Returns `Err` only
    /// if out of memory, or if there would be more than 2^32 - 1 records, and then nothing changes. O(k) for k records.
    pub(crate) fn set(
        &mut self,
        alloc: Global,
        device: DeviceId,
        announced: Record,
        spare: usize,
    ) -> Result<(), AllocError>
        requires rises { Rises (entries_kept self.old) }
        requires named { AreNamed announced.name (entries_kept self.old) }
        requires spare { spare ≤ 1 }
        ensures placed { OnOk result (map filed (entries_kept self.new)
            ≡ put key_cmp (key announced.name device) announced (map filed (entries_kept self.old))) }
        ensures name { OnOk result (name_kept self.new ≡ announced.name) }
        ensures room { OnOk result (spare ≤ room_kept self.new) }
        ensures short { OnOk result (length (entries_kept self.new) < 2 ^ 32) }
        ensures kept { OnErr result (entries_kept self.new ≡ entries_kept self.old) }
        ensures name_stays { OnErr result (name_kept self.new ≡ name_kept self.old) }
        ensures room_stays { OnErr result (room_kept self.old ≤ room_kept self.new) }
        ensures one { IsTrue (is_one_from device self.old) → spare ≡ 0 → IsOk result }
        ensures fits { spare + 1 ≤ room_kept self.old → IsOk result }
    {
        if spare == 0 && self.is_one_from(device) {
            self.exchange(device, announced);
            return Ok(());
        }
        self.reserve(alloc, spare + 1)?;
        self.put(device, announced);
        Ok(())
    }

    /// Takes a device's record away. Does not allocate. O(k) for k records.
    pub(crate) fn remove(&mut self, alloc: Global, device: DeviceId)
        requires rises { Rises (entries_kept self.old) }
        requires named { AreNamed (name_kept self.old) (entries_kept self.old) }
        ensures taken { entries_kept self.new
            ≡ filter (λ e. not (is_from device e)) (entries_kept self.old) }
        ensures name { name_kept self.new ≡ name_kept self.old }
        ensures room { room_kept self.old ≤ room_kept self.new }
    {
        match self {
            NameEntries::Vacant(_, entries) => remove_from(entries, device),
            NameEntries::Emptied(_, entries) => remove_from(entries, device),
            NameEntries::One(entry) => {
                if entry.device == device {
                    self.empty(alloc);
                }
            }
            NameEntries::Many(entries) => {
                if is_alone(entries.as_slice(), device) {
                    self.empty(alloc);
                } else {
                    remove_from(entries, device);
                }
            }
        }
    }

    /// Takes the only record away, and keeps it for its name. Does not allocate.
    fn empty(&mut self, alloc: Global)
        requires { length (entries_kept self.old) ≡ 1 }
        ensures taken { entries_kept self.new ≡ [] }
        ensures name { name_kept self.new ≡ name_kept self.old }
        ensures room { room_kept self.old ≤ room_kept self.new }
    {
        match replace(self, NameEntries::Many(Vec::new(alloc))) {
            NameEntries::Vacant(name, entries) => *self = NameEntries::Vacant(
                name,
                cleared(entries),
            ),
            NameEntries::Emptied(last, entries) => *self = NameEntries::Emptied(
                last,
                cleared(entries),
            ),
            NameEntries::One(entry) => *self = NameEntries::Emptied(entry.record, Vec::new(alloc)),
            NameEntries::Many(entries) => *self = emptied(entries),
        }
    }
}

/// How many records more fit in a list. O(1).
fn room_of(entries: &Vec<Announcement>) -> usize
    ensures { result ≡ room_of entries.now }
{
    entries
        .capacity()
        .min(MAX_RECORDS)
        .saturating_sub(entries.len())
}

/// The same, or one where the list has no memory. O(1).
fn room_of_none(entries: &Vec<Announcement>) -> usize
    ensures { result ≡ room_of_none entries.now }
{
    if entries.capacity() == 0 {
        1
    } else {
        room_of(entries)
    }
}

/// Makes room in a list for so many records more. Returns `Err` only if out of memory, or if there would be more than 2^32 - 1
/// records, and then nothing changes.
fn grow(entries: &mut Vec<Announcement>, more: usize) -> Result<(), AllocError>
    ensures items { entries.new.items ≡ entries.old.items }
    ensures len { vec_len entries.new ≡ vec_len entries.old }
    ensures ok { OnOk result (more ≤ room_of entries.new) }
    ensures fits { OnOk result (vec_len entries.new + more ≤ vec_capacity entries.new) }
    ensures capacity { vec_capacity entries.old ≤ vec_capacity entries.new }
{
    if more > MAX_RECORDS.saturating_sub(entries.len()) {
        return Err(AllocError);
    }
    entries.reserve_exact(more)
}

/// What is kept once a device's record is put into the list of a name that had none.
fn begun(entries: &mut Vec<Announcement>, device: DeviceId, announced: Record) -> NameEntries
    requires rises { Rises entries.old.items }
    requires named { AreNamed announced.name entries.old.items }
    requires fits { 1 ≤ room_of_none entries.old }
    ensures placed { map filed (entries_kept result)
        ≡ put key_cmp (key announced.name device) announced (map filed entries.old.items) }
    ensures name { name_kept result ≡ announced.name }
    ensures room { room_of_none entries.old ≤ room_kept result + 1 }
    ensures short { length (entries_kept result) < 2 ^ 32 }
{
    if entries.capacity() == 0 {
        return NameEntries::One(Announcement {
            device,
            record: announced,
        });
    }
    let alloc = *entries.allocator();
    let mut list = replace(entries, Vec::new(alloc));
    put(&mut list, device, announced);
    NameEntries::Many(list)
}

/// What is kept once the only record of a list is taken away.
fn emptied(entries: Vec<Announcement>) -> NameEntries
    requires { vec_len entries ≡ 1 }
    ensures taken { entries_kept result ≡ [] }
    ensures name { name_kept result ≡ name_of_first entries.items }
    ensures room { room_of entries ≤ room_kept result }
{
    let mut entries = entries;
    match entries.pop() {
        Some(entry) => NameEntries::Emptied(entry.record, entries),
        None => unreachable!(),
    }
}

/// The list without its records. Does not allocate.
fn cleared(entries: Vec<Announcement>) -> Vec<Announcement>
    ensures items { result.items ≡ [] }
    ensures room { room_of_none entries ≤ room_of_none result }
{
    let mut entries = entries;
    entries.clear();
    entries
}

/// Whether the device's entry is the only one.
fn is_alone(entries: &[Announcement], device: DeviceId) -> bool
    ensures { result ≡ is_alone device entries.now }
{
    match entries {
        [entry] => entry.device == device,
        _ => false,
    }
}
