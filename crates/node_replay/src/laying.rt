//! Records of this device over those that a folder has.
ghost use Rattle.std.specs.Prelude.{◌≡◌, ◌++◌, ◌<◌, ◌^◌, map, pos, reverse, IfErr, IfOk, OnOk};
ghost use Rattle.std.specs.FinMap.{empty, find, from_sorted};
ghost use Rattle.folder_core.specs.Announced.{Key, announce, key_cmp};
ghost use Rattle.folder_core.specs.Plain.{Rises, filed};
ghost use Rattle.folder_core.specs.PlainRestores.{given};
ghost use Rattle.node_replay.specs.Laid.{by_me};

use folder_core::Announcement;
use std::alloc::{AllocError, Global};
use std::cmp::Ordering;
use sync_record::{DeviceId, Record};

/// What is announced once this device announces these records too; of several of a name the last counts. By name, and then by
/// device. Returns `Err` only if out of memory. The records are moved, or shared. O((n + m) log (n + m)) for n announcements and m
/// records.
pub(crate) fn laid_over(
    alloc: Global,
    me: DeviceId,
    below: &[Announcement],
    told: Vec<Record>,
) -> Result<Vec<Announcement>, AllocError>
    requires { Rises below.now }
    ensures rises { IfOk result (λ kept. Rises kept.items) }
    ensures announced { IfOk result (λ kept. from_sorted {R = key_cmp} (map filed kept.items)
        ≡ announce me told.items (from_sorted (map filed below.now))) }
{
    let mut entries = announced_by(alloc, me, told)?;
    add_copies(&mut entries, below)?;
    first_of_each(entries)
}

// The device's announcements of these records, from the last one on.
fn announced_by(
    alloc: Global,
    me: DeviceId,
    mut told: Vec<Record>,
) -> Result<Vec<Announcement>, AllocError>
    ensures { IfOk result (λ entries. entries.items ≡ map (by_me me) (reverse told.items)) }
{
    let mut entries = Vec::with_capacity(alloc, told.len())?;
    told.reverse();
    for own in told {
        entries.push(Announcement {
            device: me,
            record: own,
        })?;
    }
    Ok(entries)
}

// Appends these announcements, whose records are shared.
fn add_copies(entries: &mut Vec<Announcement>, more: &[Announcement]) -> Result<(), AllocError>
    ensures { OnOk result (entries.new.items ≡ entries.old.items ++ more.now) }
{
    for entry in more {
        entries.push(Announcement {
            device: entry.device,
            record: entry.record.copy()?,
        })?;
    }
    Ok(())
}

// The first announcement of each device and name, by name and then by device.
fn first_of_each(mut entries: Vec<Announcement>) -> Result<Vec<Announcement>, AllocError>
    ensures rises { IfOk result (λ kept. Rises kept.items) }
    ensures first { IfOk result (λ kept. (k : Key) →
        find key_cmp k (map filed kept.items) ≡ find key_cmp k (map filed entries.items)) }
{
    entries.sort_by(order)?;
    entries.dedup_by(|a, b| order(a, b).is_eq());
    Ok(entries)
}

// Compares by name and then by device.
fn order(a: &Announcement, b: &Announcement) -> Ordering
    ensures { result ≡ key_cmp (filed a.now).0 (filed b.now).0 }
{
    let by_device = a.device.cmp(&b.device);
    a.record.name().cmp(b.record.name()).then(by_device)
}
