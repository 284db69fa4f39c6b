//! A device's records among the entries.
ghost use Rattle.std.specs.Prelude.{◌≡◌, None, IfOk, IsOk, find, option_copied};
ghost use Rattle.folder_core.specs.PlainReads.{greatest_sequence, is_from, record_from, version_of};

use crate::Announcement;
use std::alloc::AllocError;
use sync_record::{DeviceId, Record};
use sync_version::Version;

/// The first of the entries that is the device's. O(k) for k entries.
pub(super) fn entry_from(entries: &[Announcement], device: DeviceId) -> Option<&Announcement>
    ensures { option_copied result ≡ find (is_from device) entries.now }
{
    entries.iter().find(|entry| entry.device == device)
}

/// The device's record of the entries of one name. O(k) for k entries.
pub fn record_from(entries: &[Announcement], device: DeviceId) -> Option<&Record>
    ensures { option_copied result ≡ record_from device entries.now }
{
    match entry_from(entries, device) {
        Some(entry) => Some(&entry.record),
        None => None,
    }
}

/// The version of the record, if there is one.
pub fn version_of(own: Option<&Record>) -> Option<&Version>
    ensures { option_copied result ≡ version_of (option_copied own.entry) }
{
    match own {
        Some(own) => Some(own.version()),
        None => None,
    }
}

/// A copy of the device's record of the entries of one name. O(k) for k entries. Does not allocate where there is none.
pub(super) fn copy_from(
    group: &[Announcement],
    device: DeviceId,
) -> Result<Option<Record>, AllocError>
    ensures found { IfOk result (λ r. r ≡ record_from device group.now) }
    ensures none { record_from device group.now ≡ None → IsOk result }
{
    match entry_from(group, device) {
        Some(entry) => Ok(Some(entry.record.copy()?)),
        None => Ok(None),
    }
}

/// The greatest sequence of the device's records, 0 without any. O(n) for n entries.
pub(super) fn greatest_sequence(entries: &[Announcement], device: DeviceId) -> u64
    ensures { result ≡ greatest_sequence device entries.now }
{
    entries
        .iter()
        .filter(|entry| entry.device == device)
        .map(|entry| entry.record.sequence())
        .fold(0, |greatest, sequence| sequence.max(greatest))
}
