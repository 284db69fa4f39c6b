//! The names whose best is needed.
ghost use Rattle.std.specs.Prelude.{◌≡◌, ◌<◌, [], ◌∷◌, IfOk, IfSome, IsOk, MatchOption, length, option_copied, take};
ghost use Rattle.folder_core.specs.Plain.{Rises};
ghost use Rattle.folder_core.specs.PlainReads.{needed_names, needed_of};

use super::group::{best_of, count_of};
use super::own::record_from;
use crate::{Announcement, is_needed_over};
use std::alloc::{AllocError, Global};
use sync_names::SafeName;
use sync_record::DeviceId;

/// The names whose best the device needs, in byte order: the first `limit` of them. O(k^2) for each name up to the last one
/// of them, with k entries, and the copies. Does not allocate where there is none.
pub(super) fn needed_names(
    alloc: Global,
    entries: &[Announcement],
    device: DeviceId,
    limit: usize,
) -> Result<Vec<SafeName>, AllocError>
    requires { Rises entries.now }
    ensures page { IfOk result (λ names. names.items
        ≡ take limit (needed_names device entries.now)) }
    ensures none { take limit (needed_names device entries.now) ≡ [] → IsOk result }
{
    let mut names = Vec::new(alloc);
    let mut rest = entries;
    while names.len() < limit {
        let Some((best, others)) = next_needed(rest, device) else {
            break;
        };
        names.push(best.record.name().copy()?)?;
        rest = others;
    }
    Ok(names)
}

/// How many names have a best that the device needs. O(k^2) for each name, with k entries. Does not allocate.
pub(super) fn count_needed(entries: &[Announcement], device: DeviceId) -> usize
    requires { Rises entries.now }
    ensures { result ≡ length (needed_names device entries.now) }
{
    let mut count = 0;
    let mut rest = entries;
    while let Some((_, others)) = next_needed(rest, device) {
        count += 1;
        rest = others;
    }
    count
}

/// The first best that the device needs, and the entries of the names after it. O(k^2) for each name up to it, with k
/// entries.
fn next_needed(
    entries: &[Announcement],
    device: DeviceId,
) -> Option<(&Announcement, &[Announcement])>
    requires { Rises entries.now }
    ensures next { MatchOption result (needed_names device entries.now ≡ [])
        (λ r. needed_names device entries.now ≡ r.0.now.record.name ∷ needed_names device r.1.now) }
    ensures rises { IfSome result (λ r. Rises r.1.now) }
    ensures fewer { IfSome result (λ r. length r.1.now < length entries.now) }
{
    let mut rest = entries;
    while let Some(first) = rest.first() {
        let (group, others) = rest.split_at(count_of(rest, first.record.name()));
        if let Some(best) = needed_of(group, device) {
            return Some((best, others));
        }
        rest = others;
    }
    None
}

/// The best of the entries of one name, if the device needs it. O(k^2) for k entries.
fn needed_of(group: &[Announcement], device: DeviceId) -> Option<&Announcement>
    ensures { option_copied result ≡ needed_of device group.now }
{
    let best = best_of(group)?;
    is_needed_over(record_from(group, device), &best.record).then_some(best)
}
