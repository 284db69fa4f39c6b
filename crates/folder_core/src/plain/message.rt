//! The records of a message.
ghost use Rattle.std.specs.Prelude.{◌≤◌, IfOk, IsOk, vec_len};
ghost use Rattle.folder_core.specs.Plain.{IsLastOfEach, NamesRise};

use std::alloc::AllocError;
use sync_record::Record;

/// Of a message's records the last under each name, in byte order of the names. Returns `Err` only if out of memory, and
/// never where the names are in order, each once, or where the records are 20 at most. O(m log m) for m records, and O(m)
/// where the names are in order; none is copied.
pub fn last_of_each_name(mut records: Vec<Record>) -> Result<Vec<Record>, AllocError>
    ensures last { IfOk result (λ kept. IsLastOfEach records.items kept.items) }
    ensures no_more { IfOk result (λ kept. vec_len kept ≤ vec_len records) }
    ensures in_order { NamesRise records.items → IsOk result }
    // A sort of so few does not allocate.
    ensures few { vec_len records ≤ 20 → IsOk result }
{
    if records.is_sorted_by(|a, b| a.name() < b.name()) {
        return Ok(records);
    }
    records.reverse();
    records.sort_by(|a, b| a.name().cmp(b.name()))?;
    records.dedup_by(|a, b| a.name() == b.name());
    Ok(records)
}
