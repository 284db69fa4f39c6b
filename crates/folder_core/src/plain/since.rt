//! A device's records in rising sequence.
ghost use Rattle.std.specs.Prelude.{◌≡◌, ◌&&◌, ◌||◌, [], IfOk, IsOk, map, nat_le, nat_lt};
ghost use Rattle.std.specs.BTreeMap.{values};
ghost use Rattle.folder_core.specs.PlainReads.{is_from, later_from};
ghost use Rattle.folder_core.specs.Reads.{by_sequence, max_page_blocks, page_of};

use crate::Announcement;
use std::alloc::{AllocError, Global};
use std::collections::BTreeMap;
use sync_record::{DeviceId, Record};

/// The most blocks in a page of more than one record.
const MAX_PAGE_BLOCKS: usize = 1_000_000;

/// Copies of the device's records of greater sequence, in rising sequence, as many as a page has. O(n + m log m) for n
/// entries and m such records, of which only those of the page are copied. Does not allocate where the page is empty.
pub(super) fn records_since(
    alloc: Global,
    entries: &[Announcement],
    device: DeviceId,
    sequence: u64,
    limit: usize,
) -> Result<Vec<Record>, AllocError>
    ensures page { IfOk result (λ page. page.items
        ≡ page_of limit (by_sequence (later_from device sequence entries.now))) }
    ensures none { page_of limit (by_sequence (later_from device sequence entries.now)) ≡ [] →
        IsOk result }
{
    let mut page = Vec::new(alloc);
    if limit == 0 {
        return Ok(page);
    }
    let later = later_by_sequence(alloc, entries, device, sequence)?;
    let mut total = 0usize;
    for record in later.values() {
        total = total.saturating_add(record.blocks().len());
        if !fits(page.len() + 1, total, limit) {
            break;
        }
        page.push(record.copy()?)?;
    }
    Ok(page)
}

/// Whether a page may have this many records with this many blocks: one record may have any number.
fn fits(records: usize, blocks: usize, limit: usize) -> bool
    ensures { result ≡ (nat_le records limit &&
        (nat_le blocks max_page_blocks || nat_le records 1)) }
{
    records <= limit && (blocks <= MAX_PAGE_BLOCKS || records <= 1)
}

/// The device's records of greater sequence, under their sequences. O(n + m log m) for n entries and m such records. Does
/// not allocate where there is none.
fn later_by_sequence(
    alloc: Global,
    entries: &[Announcement],
    device: DeviceId,
    sequence: u64,
) -> Result<BTreeMap<u64, &Record>, AllocError>
    ensures later { IfOk result (λ later. map (λ r. r.now) (values later)
        ≡ by_sequence (later_from device sequence entries.now)) }
    ensures none { later_from device sequence entries.now ≡ [] → IsOk result }
{
    let mut later = BTreeMap::new(alloc);
    for entry in entries {
        if is_later(entry, device, sequence) {
            later.insert(entry.record.sequence(), &entry.record)?;
        }
    }
    Ok(later)
}

/// Whether the entry is the device's and of greater sequence.
fn is_later(entry: &Announcement, device: DeviceId, sequence: u64) -> bool
    ensures { result ≡ (is_from device entry.now && nat_lt sequence entry.now.record.sequence) }
{
    entry.device == device && entry.record.sequence() > sequence
}
