//! What a folder is restored from.
ghost use Rattle.std.specs.Prelude.{◌≡◌, ◌≢◌, ◌↔◌, [], false, AllPairs, IfErr, IfOk, IsOk, IsTrue, filter, map};
ghost use Rattle.std.specs.FinMap.{is_sorted};
ghost use Rattle.std.specs.List.{list_all};
ghost use Rattle.std.specs.List.Sorted.{IsPermutation};
ghost use Rattle.folder_core.specs.Announced.{key_cmp};
ghost use Rattle.folder_core.specs.Plain.{Rises, filed};
ghost use Rattle.folder_core.specs.PlainReads.{is_from};
ghost use Rattle.folder_core.specs.PlainRestores.{AreNumbered, IsOnce, is_numbered};
ghost use Rattle.folder_core.specs.declared.restore_fault.RestoreFault.TheVariants.{BadRecords};

use super::own::entry_from;
use crate::{Announcement, RestoreFault};
use std::alloc::{AllocError, Global};
use std::cmp::Ordering;
use sync_record::{DeviceId, Record};

/// The announcements by name and then by device. Fails with `BadRecords` if a device has two records of a name.
/// O(n log n) for n of them, and O(n) where they are in order; none is copied. It does not allocate where they are in
/// order.
pub(super) fn in_order(mut records: Vec<Announcement>) -> Result<Vec<Announcement>, RestoreFault>
    ensures rises { IfOk result (λ kept. Rises kept.items) }
    ensures same { IfOk result (λ kept. IsPermutation records.items kept.items) }
    ensures repeated { IfErr result (λ fault. fault ≡ BadRecords → ¬ (IsOnce records.items)) }
    ensures in_order { Rises records.items → IsOk result }
    ensures kept { Rises records.items → IfOk result (λ kept. kept.items ≡ records.items) }
{
    if rises(records.as_slice()) {
        return Ok(records);
    }
    records.sort_by(order)?;
    if rises(records.as_slice()) {
        Ok(records)
    } else {
        Err(RestoreFault::BadRecords)
    }
}

/// Whether each announcement is before the next, by name and then by device. O(n) for n of them.
fn rises(entries: &[Announcement]) -> bool
    ensures { result ≡ is_sorted key_cmp (map filed entries.now) }
{
    entries.is_sorted_by(|a, b| order(a, b) == Ordering::Less)
}

/// Compares by name and then by device.
fn order(a: &Announcement, b: &Announcement) -> Ordering
    ensures { result ≡ key_cmp (filed a.now).0 (filed b.now).0 }
{
    let by_device = a.device.cmp(&b.device);
    a.record.name().cmp(b.record.name()).then(by_device)
}

/// Whether the device's records are valid, with distinct sequences from 1 to the last. O(n + k log k) for n entries, k of
/// them the device's. It does not allocate where none is, nor where one is not valid or not of a sequence from 1 to the
/// last.
pub(super) fn are_numbered(
    alloc: Global,
    entries: &[Announcement],
    device: DeviceId,
    last: u64,
) -> Result<bool, AllocError>
    ensures numbered { IfOk result
        (λ b. IsTrue b ↔ AreNumbered last (filter (is_from device) entries.now)) }
    ensures none { filter (is_from device) entries.now ≡ [] → IsOk result }
    ensures each { list_all (λ e. is_numbered last e.record)
        (filter (is_from device) entries.now) ≡ false → IsOk result }
{
    if entry_from(entries, device).is_none() {
        return Ok(true);
    }
    if !each_is_numbered(entries, device, last) {
        return Ok(false);
    }
    let sequences = sequences_of(alloc, entries, device)?;
    Ok(are_distinct(sequences))
}

/// Whether the device's records are valid, with sequences from 1 to the last. O(n) for n entries.
fn each_is_numbered(entries: &[Announcement], device: DeviceId, last: u64) -> bool
    ensures { result ≡ list_all (λ e. is_numbered last e.record)
        (filter (is_from device) entries.now) }
{
    entries
        .iter()
        .filter(|entry| entry.device == device)
        .all(|entry| is_numbered(&entry.record, last))
}

fn is_numbered(announced: &Record, last: u64) -> bool
    ensures { result ≡ is_numbered last announced.now }
{
    announced.is_valid() && 1 <= announced.sequence() && announced.sequence() <= last
}

/// The sequences of the device's records. O(n) for n entries.
fn sequences_of(
    alloc: Global,
    entries: &[Announcement],
    device: DeviceId,
) -> Result<Vec<u64>, AllocError>
    ensures { IfOk result (λ sequences. sequences.items
        ≡ map (λ e. e.record.sequence) (filter (is_from device) entries.now)) }
{
    entries
        .iter()
        .filter(|entry| entry.device == device)
        .map(|entry| entry.record.sequence())
        .collect(alloc)
}

/// Whether no two of the numbers are the same. Does not allocate. O(n log n) for n numbers.
fn are_distinct(mut numbers: Vec<u64>) -> bool
    ensures { IsTrue result ↔ AllPairs (λ m n. m ≢ n) numbers.items }
{
    numbers.sort_unstable();
    numbers.is_sorted_by(|m, n| m < n)
}
