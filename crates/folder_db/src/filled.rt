//! An index that is made of announcements.
ghost use Rattle.std.specs.Prelude.{◌≡◌, [], Some, IfOk, IsOk, length, map};
ghost use Rattle.std.specs.FinMap.{from_sorted, get};
ghost use Rattle.std.specs.FinSet.{empty as no_names};
ghost use Rattle.sync_record.specs.Records.{Name, FileRecord};
ghost use Rattle.folder_core.specs.Announced.{Announced, key, key_cmp};
ghost use Rattle.folder_core.specs.Plain.{Rises, filed};
ghost use Rattle.folder_db.specs.Indexed.{counted_more};

use folder_core::Announcement;
use folder_index::Index;
use std::alloc::{AllocError, Global};
use sync_record::DeviceId;

/// The index of this device that has these announcements, by name and then by device. No two records of this device have the same
/// sequence. The records are not copied but shared. Returns `Err` only if out of memory, and never where there are none. O(n log n + b log b) for n announcements
/// and b blocks of this device's files.
pub(crate) fn filled(
    alloc: Global,
    me: DeviceId,
    announcements: &[Announcement],
) -> Result<Index, AllocError>
    requires rises { Rises announcements.now }
    requires distinct { (m n : Name) (q r : FileRecord) →
        get (from_sorted {R = key_cmp} (map filed announcements.now)) (key m me) ≡ Some q →
        get (from_sorted {R = key_cmp} (map filed announcements.now)) (key n me) ≡ Some r →
        q.sequence ≡ r.sequence → m ≡ n }
    ensures made { IfOk result (λ index. index
        ≡ record {
          me = me;
          announced = from_sorted (map filed announcements.now);
          choices = counted_more 0 (length announcements.now);
          promised = no_names;
        }) }
    ensures none { announcements.now ≡ [] → IsOk result }
{
    let mut index = Index::new(alloc, me);
    for announcement in announcements {
        index.set(announcement.device, announcement.record.copy()?)?;
    }
    Ok(index)
}
