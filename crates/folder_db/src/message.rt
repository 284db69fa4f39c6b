//! What a full index leaves out.
ghost use Rattle.std.specs.Prelude.{bytes_eq, ◌≡◌, IfOk, filter, not};
ghost use Rattle.std.specs.FinMap.{entries};
ghost use Rattle.std.specs.List.{list_any};
ghost use Rattle.folder_core.specs.Plain.{NamesRise};
ghost use Rattle.folder_index.specs.Devices.{names_by, without_names};

use folder_index::Index;
use std::alloc::AllocError;
use sync_names::SafeName;
use sync_record::{DeviceId, Record};

/// The names of which a device announces something and of which there is no record among these, in byte order. The names of
/// the records rise. Returns `Err` only if out of memory. O(n + k log m) for n records in the index, of which k are the
/// device's, and m records given, and the copies of the names.
pub(crate) fn stale_names(
    index: &Index,
    device: DeviceId,
    records: &[Record],
) -> Result<Vec<SafeName>, AllocError>
    ensures { NamesRise records.now → IfOk result (λ names. names.items
        ≡ filter (λ n. not (list_any (λ r. bytes_eq r.name n) records.now))
        (names_by device (entries index.now.announced))) }
{
    let mut names = index.names_of(device)?.into_vec();
    names.retain(|name| !has_name(records, name));
    Ok(names)
}

/// Whether there is a record of the name among these, whose names rise. O(log m) for m records.
fn has_name(records: &[Record], name: &SafeName) -> bool
    ensures { NamesRise records.now →
        result ≡ list_any (λ r. bytes_eq r.name name.now) records.now }
{
    let place = records.partition_point(|record| record.name() < name);
    match records.get(place) {
        Some(record) => record.name() == name,
        None => false,
    }
}

/// Takes away what a device announces of these names. Does not allocate. O(k (log n + d^2)) for k names, n names in the index and
/// d devices that announce a name.
pub(crate) fn clear_all(index: &mut Index, device: DeviceId, names: &[SafeName])
    ensures { index.new ≡ without_names device names.now index.old }
{
    for name in names {
        index.clear(device, name);
    }
}
