//! The entries of one name, and the best of them.
ghost use Rattle.std.specs.Prelude.{◌≡◌, [], ◌∷◌, None, IfOk, IsOk, map, filter, take, bytes_eq, option_copied, option_map};
ghost use Rattle.std.specs.List.{prefix_len};
ghost use Rattle.folder_core.specs.Plain.{Rises, group_best, listed_bests};
ghost use Rattle.folder_core.specs.PlainPulls.{best_in};
ghost use Rattle.folder_core.specs.Reads.{is_after};

use crate::{Announcement, Best, devices_with, place_of_best};
use bep_messages::Items;
use std::alloc::{AllocError, Global};
use sync_names::SafeName;

/// The entries of a name, which are side by side. O(log n + k) for n entries, k of them of the name.
pub(super) fn entries_of<'a>(entries: &'a [Announcement], name: &SafeName) -> &'a [Announcement]
    requires { Rises entries.now }
    ensures { result.now ≡ filter (λ e. bytes_eq e.record.name name.now) entries.now }
{
    let start = entries.partition_point(|entry| entry.record.name() < name);
    let from = &entries[start..];
    &from[..count_of(from, name)]
}

/// How many of the first entries are of the name. O(k) for k of them.
pub(super) fn count_of(entries: &[Announcement], name: &SafeName) -> usize
    ensures { result ≡ prefix_len (λ e. bytes_eq e.record.name name.now) entries.now }
{
    entries
        .iter()
        .take_while(|entry| entry.record.name() == name)
        .count()
}

/// The entries of the names greater than `after`, or all where it is `None`. O(log n) for n entries.
pub(super) fn entries_after<'a>(
    entries: &'a [Announcement],
    after: Option<&SafeName>,
) -> &'a [Announcement]
    requires { Rises entries.now }
    ensures { result.now ≡ filter (λ e.
        is_after (option_copied after.entry) e.record.name) entries.now }
{
    let Some(after) = after else {
        return entries;
    };
    let end = entries.partition_point(|entry| entry.record.name() <= after);
    &entries[end..]
}

/// The best of each name of the entries, with the devices that have it: the first `limit` of them. O(k^2) for each name
/// up to the last one of them, with k entries, and the copies. Does not allocate where there is none.
pub(super) fn bests_of(
    alloc: Global,
    entries: &[Announcement],
    limit: usize,
) -> Result<Vec<Best>, AllocError>
    requires { Rises entries.now }
    ensures page { IfOk result (λ page. map (λ b. (b.record, b.devices)) page.items
        ≡ take limit (listed_bests entries.now)) }
    ensures none { take limit (listed_bests entries.now) ≡ [] → IsOk result }
{
    let mut page = Vec::new(alloc);
    let mut rest = entries;
    while let Some(first) = rest.first() {
        if page.len() == limit {
            break;
        }
        let (group, others) = rest.split_at(count_of(rest, first.record.name()));
        if let Some(best) = best_with_devices(alloc, group)? {
            page.push(best)?;
        }
        rest = others;
    }
    Ok(page)
}

/// A copy of the best of the entries of one name, and the devices that have it. O(k^2) for k entries, and the copy. Does
/// not allocate where there is no best.
pub(super) fn best_with_devices(
    alloc: Global,
    group: &[Announcement],
) -> Result<Option<Best>, AllocError>
    ensures found { IfOk result (λ b. option_map (λ b. (b.record, b.devices)) b
        ≡ group_best group.now) }
    ensures none { group_best group.now ≡ None → IsOk result }
{
    if let [only] = group {
        return best_alone(alloc, only);
    }
    let Some(best) = best_of(group) else {
        return Ok(None);
    };
    let devices = devices_with(alloc, group, &best.record)?;
    Ok(Some(Best {
        record: best.record.copy()?,
        devices: Items::from_vec(devices),
    }))
}

/// The same of the only entry of a name: it is the best where it is valid.
fn best_alone(alloc: Global, entry: &Announcement) -> Result<Option<Best>, AllocError>
    ensures found { IfOk result (λ b. option_map (λ b. (b.record, b.devices)) b
        ≡ group_best (entry.now ∷ [])) }
    ensures none { group_best (entry.now ∷ []) ≡ None → IsOk result }
{
    if !entry.record.is_valid() {
        return Ok(None);
    }
    let mut devices = Items::new(alloc);
    devices.push(entry.device)?;
    Ok(Some(Best {
        record: entry.record.copy()?,
        devices,
    }))
}

/// The best of the entries of one name. Does not allocate. O(k^2) for k entries.
pub(super) fn best_of(group: &[Announcement]) -> Option<&Announcement>
    ensures { option_copied result ≡ best_in group.now }
{
    group.get(place_of_best(group)?)
}
