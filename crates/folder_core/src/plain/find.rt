//! Where a block is.
ghost use Rattle.std.specs.Prelude.{◌≡◌, ◌&&◌, [], None, Contains, IfOk, IsOk, MatchOption, bytes_eq, find, option_copied};
ghost use Rattle.sync_record.specs.Records.{is_live_file};
ghost use Rattle.folder_core.specs.PlainReads.{block_from, places_from};

use crate::{Announcement, Place};
use std::alloc::AllocError;
use sync_record::{Block, DeviceId, Kind};

/// Where the device's live files have a block with this digest: in the first of them by name, its first such block. O(n + b)
/// for n entries, up to that file, and b blocks of the device's files, and the copy of the name. Does not allocate where
/// there is none.
pub(super) fn position_of(
    entries: &[Announcement],
    device: DeviceId,
    hash: &[u8; 32],
) -> Result<Option<Place>, AllocError>
    ensures found { IfOk result (λ place.
        MatchOption place (places_from device hash.now entries.now ≡ [])
        (λ p. Contains (places_from device hash.now entries.now) p)) }
    ensures none { places_from device hash.now entries.now ≡ [] → IsOk result }
{
    for entry in entries {
        if let Some(block) = block_from(entry, device, hash) {
            let name = entry.record.name().copy()?;
            let Block { offset, size, .. } = *block;
            return Ok(Some(Place { name, offset, size }));
        }
    }
    Ok(None)
}

/// The first block with this digest, if the entry is a live file of the device.
fn block_from<'a>(entry: &'a Announcement, device: DeviceId, hash: &[u8; 32]) -> Option<&'a Block>
    ensures { option_copied result ≡ block_from device hash.now entry.now }
{
    if entry.device == device && is_live_file(entry) {
        block_with(entry.record.blocks(), hash)
    } else {
        None
    }
}

/// The first block with this digest.
fn block_with<'a>(blocks: &'a [Block], hash: &[u8; 32]) -> Option<&'a Block>
    ensures { option_copied result ≡ find (λ b. bytes_eq b.hash hash.now) blocks.now }
{
    blocks.iter().find(|block| block.hash == *hash)
}

/// Whether the entry is of a file that isn't deleted.
pub(super) fn is_live_file(entry: &Announcement) -> bool
    ensures { result ≡ is_live_file entry.now.record }
{
    !entry.record.is_deleted() && entry.record.kind() == Kind::File
}
