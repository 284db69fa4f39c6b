//! The merge of a message with the list of a folder.
ghost use Rattle.std.specs.Prelude.{◌≡◌, ◌+◌, ◌<◌, ◌≤◌, [], ◌∷◌, ◌++◌, length, map, reverse, option_copied, MatchOption, IfSome, vec_len, vec_capacity};
ghost use Rattle.std.specs.FinMap.{put};
ghost use Rattle.std.specs.List.{insert};
ghost use Rattle.std.specs.Ordering.{is_gt, is_lt};
ghost use Rattle.std.specs.declared.cmp.Ordering.TheVariants.{Less};
ghost use Rattle.folder_core.specs.Announced.{key, key_cmp};
ghost use Rattle.folder_core.specs.Plain.{filed, filed_by, put_all, NamesRise, Rises};

use crate::Announcement;
use std::cmp::Ordering;
use sync_record::{DeviceId, Record};

/// Puts a device's records among the entries, each in its place and in place of the device's record of its name. Does not
/// allocate; `room` holds what is moved. O(t + m log n) for m records and n entries, t of them after the place of the
/// first record, which are moved; the entries before it stay where they are.
pub(super) fn merge(
    entries: &mut Vec<Announcement>,
    device: DeviceId,
    mut records: Vec<Record>,
    mut room: Vec<Announcement>,
)
    requires rises { Rises entries.old.items }
    requires names_rise { NamesRise records.items }
    requires is_empty { room.items ≡ [] }
    requires entries_fit { vec_len entries.old + vec_len records ≤ vec_capacity entries.old }
    requires room_fits { 0 < vec_len records →
        vec_len entries.old + vec_len records ≤ vec_capacity room }
    ensures merged { map filed entries.new.items
        ≡ put_all (map filed entries.old.items) (map (filed_by device) records.items) }
    ensures len { vec_len entries.new ≤ vec_len entries.old + vec_len records }
    ensures capacity { vec_capacity entries.new ≡ vec_capacity entries.old }
{
    move_greater(entries, device, records.as_slice(), &mut room);
    while let Some(entry) = last_entry(entries, device, &mut records) {
        room.push_reserved(entry);
        move_greater(entries, device, records.as_slice(), &mut room);
    }
    put_back(entries, room);
}

/// Moves the entries that are greater than what the device announces in the last of the records to `room`, the last
/// first; none where there is no record. Does not allocate. O(log n + t) for n entries and t that are moved, O(1) where
/// there are none.
fn move_greater(
    entries: &mut Vec<Announcement>,
    device: DeviceId,
    records: &[Record],
    room: &mut Vec<Announcement>,
)
    requires rises { Rises entries.old.items }
    requires names_rise { NamesRise records.now }
    requires fits { 0 < length records.now →
        vec_len entries.old + vec_len room.old ≤ vec_capacity room.old }
    ensures all { put_all (map filed entries.new.items)
        (map (filed_by device) records.now) ++ map filed (reverse room.new.items)
        ≡ put_all (map filed entries.old.items) (map (filed_by device) records.now) ++ map filed
        (reverse room.old.items) }
    ensures rises { Rises entries.new.items }
    ensures len { vec_len entries.new + vec_len room.new ≡ vec_len entries.old + vec_len room.old }
    ensures no_more { vec_len entries.new ≤ vec_len entries.old }
    ensures entries_capacity { vec_capacity entries.new ≡ vec_capacity entries.old }
    ensures room_capacity { vec_capacity room.new ≡ vec_capacity room.old }
{
    let Some(record) = records.last() else {
        return;
    };
    let Some(last) = entries.last() else {
        return;
    };
    if !is_greater(last, device, record) {
        return;
    }
    let kept = entries.partition_point(|entry| !is_greater(entry, device, record));
    while entries.len() > kept {
        if let Some(entry) = entries.pop() {
            room.push_reserved(entry);
        }
    }
}

/// Puts a device's record among the entries, in its place and in place of the device's record of its name. Does not
/// allocate. O(log n + t) for n entries, t of them after the place.
pub(super) fn put(entries: &mut Vec<Announcement>, device: DeviceId, announced: Record)
    requires rises { Rises entries.old.items }
    requires fits { vec_len entries.old < vec_capacity entries.old }
    ensures placed { map filed entries.new.items
        ≡ put key_cmp (key announced.name device) announced (map filed entries.old.items) }
    ensures len { vec_len entries.new ≤ vec_len entries.old + 1 }
    ensures capacity { vec_capacity entries.new ≡ vec_capacity entries.old }
{
    let place = entries.partition_point(|entry| is_less(entry, device, &announced));
    let order = order(entries.get(place), device, &announced);
    let entry = Announcement {
        device,
        record: announced,
    };
    match order {
        Ordering::Less => insert_reserved(entries, place, entry),
        Ordering::Equal => entries[place] = entry,
        Ordering::Greater => insert_reserved(entries, place, entry),
    }
}

/// Inserts an entry at a place, where there is room for it. Does not allocate.
fn insert_reserved(entries: &mut Vec<Announcement>, place: usize, entry: Announcement)
    requires place { place ≤ vec_len entries.old }
    requires fits { vec_len entries.old < vec_capacity entries.old }
    ensures items { entries.new.items ≡ insert entries.old.items place entry }
    ensures len { vec_len entries.new ≡ vec_len entries.old + 1 }
    ensures capacity { vec_capacity entries.new ≡ vec_capacity entries.old }
{
    if entries.insert(place, entry).is_err() {
        unreachable!()
    }
}

/// Whether an entry is before what the device announces, by name and then by device.
fn is_less(entry: &Announcement, device: DeviceId, announced: &Record) -> bool
    ensures { result ≡ is_lt (key_cmp (filed entry.now).0 (key announced.now.name device)) }
{
    order(Some(entry), device, announced) == Ordering::Less
}

/// Whether an entry is after what the device announces, by name and then by device.
fn is_greater(entry: &Announcement, device: DeviceId, announced: &Record) -> bool
    ensures { result ≡ is_gt (key_cmp (filed entry.now).0 (key announced.now.name device)) }
{
    order(Some(entry), device, announced) == Ordering::Greater
}

/// Takes the last of the entries and the records; of equal keys the record. `None` where no record is left.
fn last_entry(
    entries: &mut Vec<Announcement>,
    device: DeviceId,
    records: &mut Vec<Record>,
) -> Option<Announcement>
    requires rises { Rises entries.old.items }
    requires names_rise { NamesRise records.old.items }
    ensures last { MatchOption result
        ((records.old.items ≡ []) × (entries.new.items ≡ entries.old.items))
        (λ e. put_all (map filed entries.old.items) (map (filed_by device) records.old.items)
        ≡ put_all (map filed entries.new.items)
        (map (filed_by device) records.new.items) ++ filed e ∷ []) }
    ensures rises { Rises entries.new.items }
    ensures names_rise { NamesRise records.new.items }
    ensures fewer { IfSome result (λ _.
        vec_len entries.new + vec_len records.new < vec_len entries.old + vec_len records.old) }
    ensures some { IfSome result (λ _. 0 < vec_len records.old) }
    ensures capacity { vec_capacity entries.new ≡ vec_capacity entries.old }
{
    match order(entries.last(), device, records.last()?) {
        Ordering::Greater => return entries.pop(),
        Ordering::Equal => drop(entries.pop()),
        Ordering::Less => {}
    }
    let record = records.pop()?;
    Some(Announcement { device, record })
}

/// Compares an entry with what the device announces, by name and then by device. `Less` where there is no entry.
fn order(entry: Option<&Announcement>, device: DeviceId, announced: &Record) -> Ordering
    ensures { MatchOption (option_copied entry.entry) (result ≡ Less)
        (λ e. result ≡ key_cmp (filed e).0 (key announced.now.name device)) }
{
    let Some(entry) = entry else {
        return Ordering::Less;
    };
    let by_device = entry.device.cmp(&device);
    entry.record.name().cmp(announced.name()).then(by_device)
}

/// Puts back after the entries what was taken from them, the last of it first.
fn put_back(entries: &mut Vec<Announcement>, mut taken: Vec<Announcement>)
    requires { vec_len entries.old + vec_len taken ≤ vec_capacity entries.old }
    ensures items { entries.new.items ≡ entries.old.items ++ reverse taken.items }
    ensures len { vec_len entries.new ≡ vec_len entries.old + vec_len taken }
    ensures capacity { vec_capacity entries.new ≡ vec_capacity entries.old }
{
    while let Some(entry) = taken.pop() {
        entries.push_reserved(entry);
    }
}
