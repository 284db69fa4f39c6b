//! How much a folder has.
ghost use Rattle.std.specs.Prelude.{◌≡◌, ◌&&◌, filter, length, not};
ghost use Rattle.sync_record.specs.Records.{is_directory, is_live, is_live_file};
ghost use Rattle.folder_core.specs.PlainReads.{is_from};

use super::find::is_live_file;
use crate::Announcement;
use sync_record::{DeviceId, Kind};

/// How many live files the device has. O(n) for n entries.
pub(super) fn live_files(entries: &[Announcement], device: DeviceId) -> usize
    ensures { result ≡ length (filter
        (λ e. is_from device e && is_live_file e.record) entries.now) }
{
    entries
        .iter()
        .filter(|entry| entry.device == device && is_live_file(entry))
        .count()
}

/// How many live directories the device has. O(n) for n entries.
pub(super) fn live_directories(entries: &[Announcement], device: DeviceId) -> usize
    ensures { result ≡ length (filter
        (λ e. is_from device e && (is_live e.record && is_directory e.record)) entries.now) }
{
    entries
        .iter()
        .filter(|entry| entry.device == device && is_live_directory(entry))
        .count()
}

/// How many records of deleted names the device has. O(n) for n entries.
pub(super) fn deletions(entries: &[Announcement], device: DeviceId) -> usize
    ensures { result ≡ length (filter (λ e. is_from device e && e.record.deleted) entries.now) }
{
    entries
        .iter()
        .filter(|entry| entry.device == device && entry.record.is_deleted())
        .count()
}

/// How many records the other devices have. O(n) for n entries.
pub(super) fn records_of_others(entries: &[Announcement], device: DeviceId) -> usize
    ensures { result ≡ length (filter (λ e. not (is_from device e)) entries.now) }
{
    entries
        .iter()
        .filter(|entry| entry.device != device)
        .count()
}

/// Whether the entry is of a directory that isn't deleted.
fn is_live_directory(entry: &Announcement) -> bool
    ensures { result ≡ (is_live entry.now.record && is_directory entry.now.record) }
{
    !entry.record.is_deleted() && entry.record.kind() == Kind::Directory
}
