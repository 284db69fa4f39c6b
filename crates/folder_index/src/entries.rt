//! The records of one name, by device.
ghost use Rattle.std.specs.Prelude.{◌≡◌, ◌+◌, ◌<◌, ◌≤◌, ◌++◌, [], IsOk, MatchOption, OnOk, filter, find, fold, map, max, not, option_copied, vec_len, vec_capacity};
ghost use Rattle.std.specs.FinMap.{put};
ghost use Rattle.std.specs.List.{insert};
ghost use Rattle.std.specs.Ordering.{is_lt};
ghost use Rattle.std.specs.declared.cmp.Ordering.TheVariants.{Less};
ghost use Rattle.folder_core.specs.Announced.{key, key_cmp};
ghost use Rattle.folder_core.specs.Plain.{Rises, filed};
ghost use Rattle.folder_core.specs.PlainReads.{is_from, record_from};
ghost use Rattle.folder_index.specs.Devices.{names_from, sequences_from};

use folder_core::Announcement;
use std::alloc::AllocError;
use std::cmp::Ordering;
use sync_names::SafeName;
use sync_record::{DeviceId, Record};

/// The first of the entries that is the device's. O(k) for k entries.
fn entry_from(entries: &[Announcement], device: DeviceId) -> Option<&Announcement>
    ensures { option_copied result ≡ find (is_from device) entries.now }
{
    entries.iter().find(|entry| entry.device == device)
}

/// The device's record among the entries of one name. O(k) for k entries.
pub(crate) fn record_from(entries: &[Announcement], device: DeviceId) -> Option<&Record>
    ensures { option_copied result ≡ record_from device entries.now }
{
    match entry_from(entries, device) {
        Some(entry) => Some(&entry.record),
        None => None,
    }
}

/// Takes the device's record away. Does not allocate. O(k) for k entries.
pub(crate) fn remove_from(entries: &mut Vec<Announcement>, device: DeviceId)
    ensures taken { entries.new.items ≡ filter (λ e. not (is_from device e)) entries.old.items }
    ensures len { vec_len entries.new ≤ vec_len entries.old }
    ensures capacity { vec_capacity entries.new ≡ vec_capacity entries.old }
{
    entries.retain(|entry| entry.device != device);
}

/// Puts a device's record among the entries, in its place and in place of the device's record of its name. Does not
/// allocate. O(k) for k entries.
pub(crate) fn put(entries: &mut Vec<Announcement>, device: DeviceId, announced: Record)
    requires rises { Rises entries.old.items }
    requires fits { vec_len entries.old < vec_capacity entries.old }
    ensures placed { map filed entries.new.items
        ≡ put key_cmp (key announced.name device) announced (map filed entries.old.items) }
    ensures len { vec_len entries.new ≤ vec_len entries.old + 1 }
    ensures capacity { vec_capacity entries.old ≤ vec_capacity entries.new }
{
    let place = entries.partition_point(|entry| is_less(entry, device, &announced));
    let order = order(entries.get(place), device, &announced);
    let entry = Announcement {
        device,
        record: announced,
    };
    match order {
        Ordering::Less => insert_reserved(entries, place, entry),
        Ordering::Equal => entries[place] = entry,
        Ordering::Greater => insert_reserved(entries, place, entry),
    }
}

/// Inserts an entry at a place, where there is room for it. Does not allocate.
fn insert_reserved(entries: &mut Vec<Announcement>, place: usize, entry: Announcement)
    requires place { place ≤ vec_len entries.old }
    requires fits { vec_len entries.old < vec_capacity entries.old }
    ensures items { entries.new.items ≡ insert entries.old.items place entry }
    ensures len { vec_len entries.new ≤ vec_len entries.old + 1 }
    ensures capacity { vec_capacity entries.old ≤ vec_capacity entries.new }
{
    if entries.insert(place, entry).is_err() {
        unreachable!()
    }
}

/// Whether an entry is before what the device announces, by name and then by device.
fn is_less(entry: &Announcement, device: DeviceId, announced: &Record) -> bool
    ensures { result ≡ is_lt (key_cmp (filed entry.now).0 (key announced.now.name device)) }
{
    order(Some(entry), device, announced) == Ordering::Less
}

/// Compares an entry with what the device announces, by name and then by device. `Less` where there is no entry.
fn order(entry: Option<&Announcement>, device: DeviceId, announced: &Record) -> Ordering
    ensures { MatchOption (option_copied entry.entry) (result ≡ Less)
        (λ e. result ≡ key_cmp (filed e).0 (key announced.now.name device)) }
{
    let Some(entry) = entry else {
        return Ordering::Less;
    };
    let by_device = entry.device.cmp(&device);
    entry.record.name().cmp(announced.name()).then(by_device)
}

/// The greater of a number and the greatest sequence of the device's records. O(k) for k entries.
pub(crate) fn greatest_from(greatest: u64, entries: &[Announcement], device: DeviceId) -> u64
    ensures { result ≡ fold max greatest (sequences_from device entries.now) }
{
    entries
        .iter()
        .filter(|entry| entry.device == device)
        .map(|entry| entry.record.sequence())
        .fold(greatest, |greatest, sequence| sequence.max(greatest))
}

/// Puts the names of the device's records at the end of a list. Returns `Err` only if out of memory, and never where there are
/// none. O(k) for k entries, and the copies.
pub(crate) fn push_names(
    names: &mut Vec<SafeName>,
    entries: &[Announcement],
    device: DeviceId,
) -> Result<(), AllocError>
    ensures ok { OnOk result (names.new.items
        ≡ names.old.items ++ names_from device entries.now) }
    ensures none { names_from device entries.now ≡ [] → IsOk result }
{
    for entry in entries {
        if entry.device == device {
            names.push(entry.record.name().copy()?)?;
        }
    }
    Ok(())
}

/// Puts copies of entries at the end of a list. Their records are not copied but shared. Returns `Err` only if out of memory, and
/// never where there are no entries. O(k) for k entries.
pub(crate) fn push_copies(
    all: &mut Vec<Announcement>,
    entries: &[Announcement],
) -> Result<(), AllocError>
    ensures ok { OnOk result (all.new.items ≡ all.old.items ++ entries.now) }
    ensures none { entries.now ≡ [] → IsOk result }
{
    for entry in entries {
        all.push(Announcement {
            device: entry.device,
            record: entry.record.copy()?,
        })?;
    }
    Ok(())
}
