//! The changes of the groups of names, with what they have in all.
ghost use Rattle.std.specs.Prelude.{◌&&◌, ◌≢◌, bytes_eq, if◌then◌else◌, IsTrue, not, ◌≡◌, ◌+◌, ◌<◌, ◌≤◌, ◌^◌, ◌==◌, false, Contains, length, IfOk, IsOk, OnErr, OnOk, option_copied};
ghost use Rattle.std.specs.FinMap.{insert, remove};
ghost use Rattle.std.specs.FinSet as set;
ghost use Rattle.std.specs.FinSet.{contains};
ghost use Rattle.std.specs.Option.{option_map_or};
ghost use Rattle.sync_record.specs.Records.{FileRecord, Name};
ghost use Rattle.folder_core.specs.Announced.{announce, key};
ghost use Rattle.folder_index.specs.Groups.{HasSpareAt, announced_in, entries_in, promised_in};
ghost use Rattle.folder_index.specs.Chunks.{AreChunked, IsAt, IsGap, groups_in};
ghost use Rattle.folder_index.specs.Indexes.{AreApart};

use crate::Totals;
use crate::chunks::{Chunks, NOWHERE, Spot};
use crate::group::Group;
use std::alloc::{AllocError, Global};
use sync_names::SafeName;
use sync_record::{DeviceId, Record};

/// Puts a device's record among the groups, and returns the new totals. Returns `Err` only if out of memory, and then what is
/// announced stays. The name is looked for at a spot first. O(log n + k^2) for n names and k devices that announce the name.
pub(crate) fn set_in(
    names: &mut Chunks,
    spot: Spot,
    totals: Totals,
    alloc: Global,
    me: DeviceId,
    device: DeviceId,
    announced: Record,
) -> Result<Totals, AllocError>
    requires groups { AreChunked me names.old totals }
    requires others { device ≢ me → totals.others + 2 < 2 ^ 64 }
    ensures groups { IfOk result (λ totals. AreChunked me names.new totals) }
    ensures placed { OnOk result (announced_in (groups_in names.new)
        ≡ insert (announced_in (groups_in names.old)) (key announced.name device) announced) }
    ensures promised { OnOk result (promised_in (groups_in names.new)
        ≡ (if bytes_eq device me then set.remove (promised_in (groups_in names.old)) announced.name else
        promised_in (groups_in names.old))) }
    ensures promises_stay { OnErr result (promised_in (groups_in names.new)
        ≡ promised_in (groups_in names.old)) }
    ensures fits { device ≡ me → IsTrue (contains (promised_in (groups_in names.old)) announced.name) →
        IsOk result }
    ensures groups_stay { OnErr result (AreChunked me names.new totals) }
    ensures kept { OnErr result (announced_in (groups_in names.new) ≡ announced_in (groups_in names.old)) }
    ensures roomy { HasSpareAt device announced.name (groups_in names.old) → IsOk result }
    ensures spares { (n : Name) → n ≢ announced.name → HasSpareAt device n (groups_in names.old) →
        HasSpareAt device n (groups_in names.new) }
    ensures one_more { IfOk result (λ u. u.others ≤ totals.others + 1) }
{
    match names.find_at(spot, announced.name().as_str()) {
        Ok(spot) => names.chunks[spot.chunk][spot.place].set_counted(
            totals, alloc, me, device, announced,
        ),
        Err(gap) => add(names, gap, totals, alloc, me, device, announced),
    }
}

/// Adds the group of a name of which nothing is announced.
fn add(
    names: &mut Chunks,
    gap: Spot,
    totals: Totals,
    alloc: Global,
    me: DeviceId,
    device: DeviceId,
    announced: Record,
) -> Result<Totals, AllocError>
    requires groups { AreChunked me names.old totals }
    requires others { device ≢ me → totals.others + 2 < 2 ^ 64 }
    requires gap { IsGap announced.name gap names.old }
    ensures groups { IfOk result (λ totals. AreChunked me names.new totals) }
    ensures placed { OnOk result (announced_in (groups_in names.new)
        ≡ insert (announced_in (groups_in names.old)) (key announced.name device) announced) }
    ensures promised { promised_in (groups_in names.new) ≡ promised_in (groups_in names.old) }
    ensures err { OnErr result (groups_in names.new ≡ groups_in names.old) }
    ensures groups_stay { OnErr result (AreChunked me names.new totals) }
    ensures spares { (n : Name) → HasSpareAt device n (groups_in names.old) → HasSpareAt device n (groups_in names.new) }
    ensures one_more { IfOk result (λ u. u.others ≤ totals.others + 1) }
{
    let mut group = Group::vacant(alloc, announced.copy()?);
    let totals = group.set_counted(totals, alloc, me, device, announced)?;
    names.insert(alloc, gap, group)?;
    Ok(totals)
}

/// Makes room for each of these records. What is announced and what is promised stays. Returns the spots at which, or near which, their
/// names are, or `Err` only if out of memory. O(m log n) for m records given and n names; where their names rise, and follow one
/// another among all names, O(m).
pub(crate) fn spare_all(
    names: &mut Chunks,
    totals: Totals,
    alloc: Global,
    me: DeviceId,
    device: DeviceId,
    records: &[Record],
) -> Result<Vec<Spot>, AllocError>
    requires { AreChunked me names.old totals }
    ensures groups { AreChunked me names.new totals }
    ensures kept { announced_in (groups_in names.new) ≡ announced_in (groups_in names.old) }
    ensures promises_stay { promised_in (groups_in names.new) ≡ promised_in (groups_in names.old) }
    ensures spares { OnOk result ((r : FileRecord) → Contains records.now r →
        HasSpareAt device r.name (groups_in names.new)) }
{
    let mut spots = Vec::with_capacity(alloc, records.len())?;
    let mut near = NOWHERE;
    for announced in records {
        let spot = spare_in(names, near, totals, alloc, me, device, announced)?;
        spots.push(spot)?;
        near = spot.next();
    }
    Ok(spots)
}

/// Puts records of another device, no two of one name, where there is room for each, and returns the new totals. Each name is looked for
/// at its spot first. Does not allocate. O(m log n + m k^2) for m records given, n names and k devices that announce a name; where
/// the names are at their spots, O(m k^2).
pub(crate) fn put_all(
    names: &mut Chunks,
    totals: Totals,
    alloc: Global,
    me: DeviceId,
    device: DeviceId,
    records: Vec<Record>,
    spots: &[Spot],
) -> Totals
    requires groups { AreChunked me names.old totals }
    requires other { device ≢ me }
    requires fits { totals.others + length records.items + 1 < 2 ^ 64 }
    requires apart { AreApart records.items }
    requires spares { (r : FileRecord) → Contains records.items r →
        HasSpareAt device r.name (groups_in names.old) }
    ensures groups { AreChunked me names.new result }
    ensures placed { announced_in (groups_in names.new)
        ≡ announce device records.items (announced_in (groups_in names.old)) }
    ensures promised { promised_in (groups_in names.new) ≡ promised_in (groups_in names.old) }
{
    let mut totals = totals;
    let mut spots = spots.iter();
    for announced in records {
        let spot = spots.next().copied().unwrap_or(NOWHERE);
        totals = put_spared(names, spot, totals, alloc, me, device, announced);
    }
    totals
}

/// Puts a record of another device, where there is room for it, and returns the new totals. Does not allocate.
fn put_spared(
    names: &mut Chunks,
    spot: Spot,
    totals: Totals,
    alloc: Global,
    me: DeviceId,
    device: DeviceId,
    announced: Record,
) -> Totals
    requires groups { AreChunked me names.old totals }
    requires other { device ≢ me }
    requires fits { totals.others + 2 < 2 ^ 64 }
    requires spare { HasSpareAt device announced.name (groups_in names.old) }
    ensures groups { AreChunked me names.new result }
    ensures placed { announced_in (groups_in names.new)
        ≡ insert (announced_in (groups_in names.old)) (key announced.name device) announced }
    ensures promised { promised_in (groups_in names.new) ≡ promised_in (groups_in names.old) }
    ensures spares { (n : Name) → n ≢ announced.name → HasSpareAt device n (groups_in names.old) →
        HasSpareAt device n (groups_in names.new) }
    ensures one_more { result.others ≤ totals.others + 1 }
{
    match set_in(names, spot, totals, alloc, me, device, announced) {
        Ok(totals) => totals,
        Err(_) => unreachable!(),
    }
}

/// Makes room for a record. What is announced and promised stays. The name is looked for from a spot on first. Returns the spot at which it
/// is, or near which, or `Err` only if out of memory. O(log n) for n names.
fn spare_in(
    names: &mut Chunks,
    near: Spot,
    totals: Totals,
    alloc: Global,
    me: DeviceId,
    device: DeviceId,
    announced: &Record,
) -> Result<Spot, AllocError>
    requires { AreChunked me names.old totals }
    ensures groups { AreChunked me names.new totals }
    ensures kept { announced_in (groups_in names.new) ≡ announced_in (groups_in names.old) }
    ensures promises_stay { promised_in (groups_in names.new) ≡ promised_in (groups_in names.old) }
    ensures spare { OnOk result (HasSpareAt device announced.now.name (groups_in names.new)) }
    ensures spares { (n : Name) → HasSpareAt device n (groups_in names.old) → HasSpareAt device n (groups_in names.new) }
{
    match names.find_near(near, announced.name().as_str()) {
        Ok(spot) => {
            spare_at(names, spot, totals, alloc, me, device, announced)?;
            Ok(spot)
        }
        Err(gap) => {
            add_spare(names, gap, totals, alloc, me, device, announced)?;
            Ok(gap)
        }
    }
}

/// Makes room for a record in the group of its name, which is at a spot. What is announced and promised stays. Returns `Err` only if out of
/// memory.
fn spare_at(
    names: &mut Chunks,
    spot: Spot,
    totals: Totals,
    alloc: Global,
    me: DeviceId,
    device: DeviceId,
    announced: &Record,
) -> Result<(), AllocError>
    requires groups { AreChunked me names.old totals }
    requires at { IsAt announced.now.name spot names.old }
    ensures groups { AreChunked me names.new totals }
    ensures kept { announced_in (groups_in names.new) ≡ announced_in (groups_in names.old) }
    ensures promises_stay { promised_in (groups_in names.new) ≡ promised_in (groups_in names.old) }
    ensures spare { OnOk result (HasSpareAt device announced.now.name (groups_in names.new)) }
    ensures spares { (n : Name) → HasSpareAt device n (groups_in names.old) → HasSpareAt device n (groups_in names.new) }
{
    names.chunks[spot.chunk][spot.place].spare(alloc, device)
}

/// Adds the group of a name of which nothing is announced, with room for this record.
fn add_spare(
    names: &mut Chunks,
    gap: Spot,
    totals: Totals,
    alloc: Global,
    me: DeviceId,
    device: DeviceId,
    announced: &Record,
) -> Result<(), AllocError>
    requires groups { AreChunked me names.old totals }
    requires gap { IsGap announced.now.name gap names.old }
    ensures groups { AreChunked me names.new totals }
    ensures kept { announced_in (groups_in names.new) ≡ announced_in (groups_in names.old) }
    ensures promises_stay { promised_in (groups_in names.new) ≡ promised_in (groups_in names.old) }
    ensures spare { OnOk result (HasSpareAt device announced.now.name (groups_in names.new)) }
    ensures spares { (n : Name) → HasSpareAt device n (groups_in names.old) → HasSpareAt device n (groups_in names.new) }
{
    let mut group = Group::vacant(alloc, announced.copy()?);
    group.spare(alloc, device)?;
    names.insert(alloc, gap, group)?;
    Ok(())
}

/// Promises room for a record of this device. What is announced stays. Returns `Err` only if out of memory, and then the
/// promises stay too. O(log n) for n names.
pub(crate) fn promise_in(
    names: &mut Chunks,
    totals: Totals,
    alloc: Global,
    me: DeviceId,
    name: &SafeName,
) -> Result<(), AllocError>
    requires { AreChunked me names.old totals }
    ensures groups { AreChunked me names.new totals }
    ensures kept { announced_in (groups_in names.new) ≡ announced_in (groups_in names.old) }
    ensures promised { OnOk result (promised_in (groups_in names.new)
        ≡ set.insert (promised_in (groups_in names.old)) name.now) }
    ensures promises_stay { OnErr result (promised_in (groups_in names.new)
        ≡ promised_in (groups_in names.old)) }
{
    match names.find(name.as_str()) {
        Ok(spot) => names.chunks[spot.chunk][spot.place].promise(alloc),
        Err(gap) => add_promised(names, gap, totals, alloc, me, name),
    }
}

/// Adds the group of a name of which nothing is announced, with room for a record.
fn add_promised(
    names: &mut Chunks,
    gap: Spot,
    totals: Totals,
    alloc: Global,
    me: DeviceId,
    name: &SafeName,
) -> Result<(), AllocError>
    requires groups { AreChunked me names.old totals }
    requires gap { IsGap name.now gap names.old }
    ensures groups { AreChunked me names.new totals }
    ensures kept { announced_in (groups_in names.new) ≡ announced_in (groups_in names.old) }
    ensures promised { OnOk result (promised_in (groups_in names.new)
        ≡ set.insert (promised_in (groups_in names.old)) name.now) }
    ensures promises_stay { OnErr result (promised_in (groups_in names.new)
        ≡ promised_in (groups_in names.old)) }
{
    let mut group = Group::new(alloc, name.copy()?);
    group.promise(alloc)?;
    names.insert(alloc, gap, group)?;
    Ok(())
}

/// Takes the promise of a name back. What is announced stays. Does not allocate. O(log n) for n names.
pub(crate) fn take_back_in(names: &mut Chunks, totals: Totals, me: DeviceId, name: &SafeName)
    requires { AreChunked me names.old totals }
    ensures groups { AreChunked me names.new totals }
    ensures kept { announced_in (groups_in names.new) ≡ announced_in (groups_in names.old) }
    ensures promised { promised_in (groups_in names.new)
        ≡ set.remove (promised_in (groups_in names.old)) name.now }
{
    take_back(names, totals, me, name);
    drop_empty(names, totals, me, name);
}

/// Takes the promise of a group back, if there is the group.
fn take_back(names: &mut Chunks, totals: Totals, me: DeviceId, name: &SafeName)
    requires { AreChunked me names.old totals }
    ensures groups { AreChunked me names.new totals }
    ensures kept { announced_in (groups_in names.new) ≡ announced_in (groups_in names.old) }
    ensures promised { promised_in (groups_in names.new)
        ≡ set.remove (promised_in (groups_in names.old)) name.now }
{
    if let Ok(spot) = names.find(name.as_str()) {
        names.chunks[spot.chunk][spot.place].take_back();
    }
}

/// Takes a device's record out of the groups, and returns the new totals. Does not allocate. O(log n + k^2) for n names and k
/// devices that announce the name.
pub(crate) fn clear_in(
    names: &mut Chunks,
    totals: Totals,
    alloc: Global,
    me: DeviceId,
    device: DeviceId,
    name: &SafeName,
) -> Totals
    requires { AreChunked me names.old totals }
    ensures groups { AreChunked me names.new result }
    ensures taken { announced_in (groups_in names.new)
        ≡ remove (announced_in (groups_in names.old)) (key name.now device) }
    ensures promised { promised_in (groups_in names.new) ≡ promised_in (groups_in names.old) }
{
    let totals = clear_group(names, totals, alloc, me, device, name);
    drop_empty(names, totals, me, name);
    totals
}

/// Takes a device's record out of the group of its name, and returns the new totals.
fn clear_group(
    names: &mut Chunks,
    totals: Totals,
    alloc: Global,
    me: DeviceId,
    device: DeviceId,
    name: &SafeName,
) -> Totals
    requires { AreChunked me names.old totals }
    ensures groups { AreChunked me names.new result }
    ensures taken { announced_in (groups_in names.new)
        ≡ remove (announced_in (groups_in names.old)) (key name.now device) }
    ensures promised { promised_in (groups_in names.new) ≡ promised_in (groups_in names.old) }
{
    match names.find(name.as_str()) {
        Ok(spot) => names.chunks[spot.chunk][spot.place].clear_counted(
            totals, alloc, me, device, name,
        ),
        Err(_) => totals,
    }
}

/// Drops the group of a name if it has no entries, and no room is promised. What is announced stays. O(log n) for n names.
fn drop_empty(names: &mut Chunks, totals: Totals, me: DeviceId, name: &SafeName)
    requires { AreChunked me names.old totals }
    ensures groups { AreChunked me names.new totals }
    ensures kept { announced_in (groups_in names.new) ≡ announced_in (groups_in names.old) }
    ensures promised { promised_in (groups_in names.new) ≡ promised_in (groups_in names.old) }
{
    if is_empty(names.get(name)) {
        names.remove(name);
    }
}

/// Whether there is a group, and it has no entries and no promise.
fn is_empty(group: Option<&Group>) -> bool
    ensures { result ≡ option_map_or (λ g. not g.is_promised && length (entries_in g) == 0)
        (option_copied group.entry) false }
{
    match group {
        Some(group) => !group.is_promised && group.entries().is_empty(),
        None => false,
    }
}
