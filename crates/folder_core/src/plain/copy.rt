//! A copy of a folder's lists.
ghost use Rattle.std.specs.Prelude.{◌≡◌, ◌≤◌, IfOk, IsOk, length, option_copied, vec_capacity};

use super::pull::OpenPull;
use crate::Announcement;
use std::alloc::{AllocError, Global};
use sync_record::Record;

/// The same entries once more, in a list with this much room. The records are not copied but shared. O(n) for n entries. It
/// does not allocate where there is no room to make.
pub(super) fn copied_entries(
    alloc: Global,
    entries: &[Announcement],
    room: usize,
) -> Result<Vec<Announcement>, AllocError>
    requires { length entries.now ≤ room }
    ensures same { IfOk result (λ copy. copy.items ≡ entries.now) }
    ensures room { IfOk result (λ copy. room ≤ vec_capacity copy) }
    ensures nothing { room ≡ 0 → IsOk result }
{
    let mut copy = Vec::with_capacity(alloc, room)?;
    for entry in entries {
        copy.push_reserved(Announcement {
            device: entry.device,
            record: entry.record.copy()?,
        });
    }
    Ok(copy)
}

/// The same pulls once more. Their records are not copied but shared. O(k) for k pulls. It does not allocate where there is
/// none.
pub fn copied_pulls(alloc: Global, pulls: &[OpenPull]) -> Result<Vec<OpenPull>, AllocError>
    ensures same { IfOk result (λ copy. copy.items ≡ pulls.now) }
    ensures nothing { length pulls.now ≡ 0 → IsOk result }
{
    let mut copy = Vec::with_capacity(alloc, pulls.len())?;
    for pull in pulls {
        copy.push_reserved(OpenPull {
            number: pull.number,
            base: copied(pull.base.as_ref())?,
            target: pull.target.copy()?,
            ready: copied(pull.ready.as_ref())?,
        });
    }
    Ok(copy)
}

/// The same record once more, if there is one. It is not copied but shared.
fn copied(record: Option<&Record>) -> Result<Option<Record>, AllocError>
    ensures { IfOk result (λ copy. copy ≡ option_copied «record».entry) }
{
    match record {
        Some(record) => Ok(Some(record.copy()?)),
        None => Ok(None),
    }
}
