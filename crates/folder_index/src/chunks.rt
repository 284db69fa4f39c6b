//! The groups of names, in the order of the names.
ghost use Rattle.std.specs.Prelude.{bytes_eq, ◌≡◌, ◌+◌, ◌<◌, ◌≤◌, ◌++◌, ◌∷◌, ◌-◌, ◌&&◌, ◌==◌, if◌then◌else◌, [], IfOk, IfSome, IsTrue, MatchResult, None, OnErr, OnOk, drop, false, filter, flat_map, is_some, length, map, nat_lt, not, option_copied, slice_get, take, vec_len};
ghost use Rattle.std.specs.List.{insert, list_all};
ghost use Rattle.std.specs.List.Sorted.{IsStrictlySortedBy};
ghost use Rattle.std.specs.Map.{keys_of};
ghost use Rattle.std.specs.Option.{option_map_or};
ghost use Rattle.std.specs.BTreeMap.{insert_entry, is_at};
ghost use Rattle.std.specs.Map.{lookup, remove_entry};
ghost use Rattle.folder_core.specs.Reads.{is_after};
ghost use Rattle.sync_record.specs.Devices.{bytes_cmp};
ghost use Rattle.folder_index.specs.Groups.{name_in};
ghost use Rattle.folder_index.specs.Chunks.{AreFilled, IsAt, IsCounted, IsGap, IsSearchable, before, begins_by, chunk_at, from_on, groups_in, in_chunk, is_lesser, keyed};

use crate::group::Group;
use std::alloc::{AllocError, Global};
use sync_names::SafeName;

/// The most groups of a chunk.
const MAX_GROUPS: usize = 128;

/// For how many groups a chunk has room at first, and then each time for so many more. One that begins after all others, as where names
/// come in order, has room for all at once.
const ROOM: usize = 16;

/// The most groups of all.
const MAX_COUNT: usize = usize::MAX / 2;

/// The groups of names, in the order of the names, no two of one name. They are kept in chunks, none of which is empty: so a group
/// more moves those of one chunk alone, and chunks that are filled in order are full.
#[derive(Drop)]
pub(crate) struct Chunks {
    pub(crate) chunks: Vec<Vec<Group>>,
    // How many groups there are.
    pub(crate) count: usize,
}

/// Where a group is: the chunk, and the place in the chunk.
#[derive(Debug, Clone, Copy)]
pub(crate) struct Spot {
    pub(crate) chunk: usize,
    pub(crate) place: usize,
}

/// Where no group is.
pub(crate) const NOWHERE: Spot = Spot {
    chunk: usize::MAX,
    place: usize::MAX,
};

impl Spot {
    /// The next spot of the chunk. O(1).
    pub(crate) fn next(self) -> Spot
        ensures chunk { result.chunk ≡ self.chunk }
        ensures place { self.place < usize.MAX → result.place ≡ self.place + 1 }
    {
        Spot {
            chunk: self.chunk,
            place: self.place.saturating_add(1),
        }
    }

    /// The place, if the spot is in this chunk, else one where no group is. O(1).
    fn place_in(self, chunk: usize) -> usize
        ensures { result ≡ (if self.chunk == chunk then self.place else usize.MAX) }
    {
        if self.chunk == chunk {
            self.place
        } else {
            usize::MAX
        }
    }
}

impl Chunks {
    /// No groups. Does not allocate. O(1).
    pub(crate) fn new(alloc: Global) -> Chunks
        ensures empty { groups_in result ≡ [] }
        ensures filled { AreFilled result }
        ensures counted { IsCounted result }
    {
        Chunks {
            chunks: Vec::new(alloc),
            count: 0,
        }
    }

    /// Where the group of a name is, or else where it would be. O(log n) for n groups.
    pub(crate) fn find(&self, name: &str) -> Result<Spot, Spot>
        requires { IsSearchable self.now }
        ensures { MatchResult result
            (λ s. IsAt name.now s self.now)
            (λ s. IsGap name.now s self.now) }
    {
        let begun = count_begun(self.chunks.as_slice(), name);
        self.find_in(begun, NOWHERE, name)
    }

    /// Where the group of a name is, or else where it would be. It is looked for at a spot first. O(1) where it is there, and else O(log n)
    /// for n groups.
    pub(crate) fn find_at(&self, spot: Spot, name: &str) -> Result<Spot, Spot>
        requires { IsSearchable self.now }
        ensures { MatchResult result
            (λ s. IsAt name.now s self.now)
            (λ s. IsGap name.now s self.now) }
    {
        if self.is_at(spot, name) {
            Ok(spot)
        } else {
            self.find(name)
        }
    }

    /// Where the group of a name is, or else where it would be. It is looked for from a spot on first. O(1) where it is there, O(log d) where
    /// it is in one of d chunks after it, and O(log n) for n groups where it is before.
    pub(crate) fn find_near(&self, near: Spot, name: &str) -> Result<Spot, Spot>
        requires { IsSearchable self.now }
        ensures { MatchResult result
            (λ s. IsAt name.now s self.now)
            (λ s. IsGap name.now s self.now) }
    {
        let begun = count_begun_near(self.chunks.as_slice(), near, name);
        self.find_in(begun, near, name)
    }

    /// Whether the group of a name is at a spot. O(1).
    fn is_at(&self, spot: Spot, name: &str) -> bool
        ensures { result ≡ option_map_or (λ c. option_map_or (λ g. bytes_eq (name_in g) name.now) (slice_get c.items spot.place) false)
            (slice_get self.now.chunks.items spot.chunk) false }
    {
        match self.chunks.get(spot.chunk) {
            Some(chunk) => is_named(chunk.as_slice().get(spot.place), name),
            None => false,
        }
    }

    /// Where the group of a name is, or else where it would be, if so many chunks begin with the name or a lesser one. It is looked for at a
    /// spot first. O(log n) for n groups of a chunk.
    fn find_in(&self, begun: usize, near: Spot, name: &str) -> Result<Spot, Spot>
        requires searchable { IsSearchable self.now }
        requires bound { begun ≤ vec_len self.now.chunks }
        requires begun { take begun self.now.chunks.items
            ≡ filter (λ c. begins_by name.now c.items) self.now.chunks.items }
        requires others { drop begun self.now.chunks.items
            ≡ filter (λ c. not (begins_by name.now c.items)) self.now.chunks.items }
        ensures { MatchResult result
            (λ s. IsAt name.now s self.now)
            (λ s. IsGap name.now s self.now) }
    {
        let Some(chunk) = begun.checked_sub(1) else {
            return Err(Spot { chunk: 0, place: 0 });
        };
        let groups = self.chunks[chunk].as_slice();
        let place = count_lesser_near(groups, near.place_in(chunk), name);
        let spot = Spot { chunk, place };
        if is_named(groups.get(place), name) {
            Ok(spot)
        } else {
            Err(spot)
        }
    }

    /// The group of a name, if there is one. O(log n) for n groups.
    pub(crate) fn get(&self, name: &SafeName) -> Option<&Group>
        requires { IsSearchable self.now }
        ensures value { option_copied result ≡ lookup (is_at (bytes_cmp name.now)) (groups_in self.now) }
    {
        match self.find(name.as_str()) {
            Ok(spot) => Some(&self.chunks[spot.chunk][spot.place]),
            Err(_) => None,
        }
    }

    /// Puts a group where there is none of its name. Returns `Err` only if out of memory, or if there are 2^63 - 1 groups already,
    /// and then nothing changes. It moves the groups of one chunk, and the chunks after it where that is full.
    pub(crate) fn insert(
        &mut self,
        alloc: Global,
        gap: Spot,
        group: Group,
    ) -> Result<(), AllocError>
        requires searchable { IsSearchable self.old }
        requires counted { IsCounted self.old }
        requires gap { IsGap (name_in group) gap self.old }
        ensures placed { OnOk result (groups_in self.new
            ≡ insert_entry bytes_cmp (groups_in self.old) (name_in group) group) }
        ensures err { OnErr result (groups_in self.new ≡ groups_in self.old) }
        ensures filled { AreFilled self.new }
        ensures counted { IsCounted self.new }
    {
        if self.count >= MAX_COUNT {
            return Err(AllocError);
        }
        self.place(alloc, gap, group)?;
        self.count += 1;
        Ok(())
    }

    /// Puts a group where there is none of its name, and doesn't count it. Returns `Err` only if out of memory, and then nothing
    /// changes.
    fn place(&mut self, alloc: Global, gap: Spot, group: Group) -> Result<(), AllocError>
        requires searchable { IsSearchable self.old }
        requires gap { IsGap (name_in group) gap self.old }
        ensures placed { OnOk result (groups_in self.new
            ≡ insert_entry bytes_cmp (groups_in self.old) (name_in group) group) }
        ensures err { OnErr result (groups_in self.new ≡ groups_in self.old) }
        ensures filled { AreFilled self.new }
        ensures count { self.new.count ≡ self.old.count }
    {
        match self.chunks.get(gap.chunk) {
            Some(chunk) => {
                if chunk.len() < MAX_GROUPS {
                    self.put(gap, group)
                } else if gap.place == chunk.len() {
                    self.begin(alloc, gap.chunk + 1, group)
                } else {
                    self.split(gap.chunk)?;
                    self.put_again(group)
                }
            }
            None => self.begin(alloc, 0, group),
        }
    }

    /// Puts a group into a chunk. Returns `Err` only if out of memory, and then nothing changes.
    fn put(&mut self, gap: Spot, group: Group) -> Result<(), AllocError>
        requires inside { gap.chunk < vec_len self.old.chunks }
        requires fits { gap.place ≤ length (chunk_at self.old gap.chunk) }
        requires filled { AreFilled self.old }
        ensures placed { OnOk result (groups_in self.new
            ≡ before gap self.old ++ keyed group ∷ from_on gap self.old) }
        ensures err { OnErr result (groups_in self.new ≡ groups_in self.old) }
        ensures filled { AreFilled self.new }
        ensures count { self.new.count ≡ self.old.count }
    {
        put_into(&mut self.chunks[gap.chunk], gap.place, group)
    }

    /// Puts a group where there is none of its name, once a chunk was parted. Returns `Err` only if out of memory, and then nothing
    /// changes.
    fn put_again(&mut self, group: Group) -> Result<(), AllocError>
        requires searchable { IsSearchable self.old }
        requires some { 0 < vec_len self.old.chunks }
        requires absent { lookup (is_at (bytes_cmp (name_in group))) (groups_in self.old) ≡ None }
        ensures placed { OnOk result (groups_in self.new
            ≡ insert_entry bytes_cmp (groups_in self.old) (name_in group) group) }
        ensures err { OnErr result (groups_in self.new ≡ groups_in self.old) }
        ensures filled { AreFilled self.new }
        ensures count { self.new.count ≡ self.old.count }
    {
        match self.find(group.name()) {
            Ok(_) => unreachable!(),
            Err(gap) => self.put(gap, group),
        }
    }

    /// Parts a full chunk in two. Returns `Err` only if out of memory, and then nothing changes.
    fn split(&mut self, at: usize) -> Result<(), AllocError>
        requires at { at < vec_len self.old.chunks }
        requires full { IfSome (slice_get self.old.chunks.items at) (λ v. 128 ≤ vec_len v) }
        requires filled { AreFilled self.old }
        ensures same { groups_in self.new ≡ groups_in self.old }
        ensures filled { AreFilled self.new }
        ensures count { self.new.count ≡ self.old.count }
        ensures some { 0 < vec_len self.new.chunks }
    {
        self.chunks.reserve(1)?;
        let upper = upper_half(&mut self.chunks[at])?;
        if self.chunks.insert(at + 1, upper).is_err() {
            unreachable!()
        }
        Ok(())
    }

    /// Begins a chunk with a group, before the chunk with this number. Returns `Err` only if out of memory, and then nothing
    /// changes.
    fn begin(&mut self, alloc: Global, at: usize, group: Group) -> Result<(), AllocError>
        requires at { at ≤ vec_len self.old.chunks }
        requires filled { AreFilled self.old }
        ensures placed { OnOk result (groups_in self.new
            ≡ flat_map in_chunk (take at self.old.chunks.items) ++ keyed group ∷ flat_map in_chunk (drop at self.old.chunks.items)) }
        ensures err { OnErr result (groups_in self.new ≡ groups_in self.old) }
        ensures filled { AreFilled self.new }
        ensures count { self.new.count ≡ self.old.count }
    {
        let mut chunk = Vec::new(alloc);
        chunk.reserve_exact(room_for(at, self.chunks.len()))?;
        chunk.push_reserved(group);
        self.chunks.insert(at, chunk)?;
        Ok(())
    }

    /// Takes the group of a name away, if there is one. Does not allocate. It moves the groups of one chunk, and the chunks after
    /// it where that had no other.
    pub(crate) fn remove(&mut self, name: &SafeName)
        requires searchable { IsSearchable self.old }
        requires counted { IsCounted self.old }
        ensures taken { groups_in self.new
            ≡ remove_entry (is_at (bytes_cmp name.now)) (groups_in self.old) }
        ensures filled { AreFilled self.new }
        ensures counted { IsCounted self.new }
    {
        if self.take(name) {
            self.count -= 1;
        }
    }

    /// Takes the group of a name away, if there is one, and doesn't count it. Returns whether there was one. Does not allocate.
    fn take(&mut self, name: &SafeName) -> bool
        requires { IsSearchable self.old }
        ensures found { result ≡ is_some (lookup (is_at (bytes_cmp name.now)) (groups_in self.old)) }
        ensures taken { groups_in self.new
            ≡ remove_entry (is_at (bytes_cmp name.now)) (groups_in self.old) }
        ensures filled { AreFilled self.new }
        ensures count { self.new.count ≡ self.old.count }
    {
        let Ok(spot) = self.find(name.as_str()) else {
            return false;
        };
        if self.chunks[spot.chunk].len() == 1 {
            drop(self.chunks.remove(spot.chunk));
        } else {
            drop(self.chunks[spot.chunk].remove(spot.place));
        }
        true
    }
}

impl Chunks {
    /// Where the groups after a name begin, or all. O(log n) for n groups.
    pub(crate) fn start_after(&self, after: Option<&SafeName>) -> Spot
        requires { IsSearchable self.now }
        ensures fits { result.place ≤ length (chunk_at self.now result.chunk) }
        ensures after { from_on result self.now
            ≡ filter (λ h. is_after (option_copied after.entry) h.0) (groups_in self.now) }
    {
        let Some(after) = after else {
            return Spot { chunk: 0, place: 0 };
        };
        match self.find(after.as_str()) {
            Ok(spot) => Spot {
                chunk: spot.chunk,
                place: spot.place + 1,
            },
            Err(spot) => spot,
        }
    }

    /// The groups of the chunk of a spot from there on. O(1).
    pub(crate) fn rest(&self, spot: Spot) -> &[Group]
        requires { spot.place ≤ length (chunk_at self.now spot.chunk) }
        ensures { map keyed result.now ≡ drop spot.place (chunk_at self.now spot.chunk) }
    {
        match self.chunks.get(spot.chunk) {
            Some(chunk) => &chunk.as_slice()[spot.place..],
            None => &[],
        }
    }

    /// The chunks after that of a spot. O(1).
    pub(crate) fn later(&self, spot: Spot) -> &[Vec<Group>]
        ensures { result.now ≡ drop (spot.chunk + 1) self.now.chunks.items }
    {
        let chunks = self.chunks.as_slice();
        let start = spot.chunk.saturating_add(1).min(chunks.len());
        &chunks[start..]
    }
}

/// How many of the chunks begin with this name or a lesser one. O(log n) for n chunks.
fn count_begun(chunks: &[Vec<Group>], name: &str) -> usize
    requires filled { IsTrue (list_all (λ c. nat_lt 0 (vec_len c)) chunks.now) }
    requires ordered { IsStrictlySortedBy bytes_cmp (keys_of (flat_map in_chunk chunks.now)) }
    ensures bound { result ≤ length chunks.now }
    ensures begun { take result chunks.now
        ≡ filter (λ c. begins_by name.now c.items) chunks.now }
    ensures others { drop result chunks.now
        ≡ filter (λ c. not (begins_by name.now c.items)) chunks.now }
{
    chunks.partition_point(|chunk| begins_by(chunk.as_slice(), name))
}

/// How many of the chunks begin with this name or a lesser one. Those after a spot are looked at first: O(log d) for d of them that begin
/// so, and O(log n) for n chunks where no lesser name is right before the spot.
fn count_begun_near(chunks: &[Vec<Group>], near: Spot, name: &str) -> usize
    requires filled { IsTrue (list_all (λ c. nat_lt 0 (vec_len c)) chunks.now) }
    requires ordered { IsStrictlySortedBy bytes_cmp (keys_of (flat_map in_chunk chunks.now)) }
    ensures bound { result ≤ length chunks.now }
    ensures begun { take result chunks.now
        ≡ filter (λ c. begins_by name.now c.items) chunks.now }
    ensures others { drop result chunks.now
        ≡ filter (λ c. not (begins_by name.now c.items)) chunks.now }
{
    if is_after(chunks, near, name) {
        near.chunk + 1 + count_begun_soon(&chunks[near.chunk + 1..], name)
    } else {
        count_begun(chunks, name)
    }
}

/// How many of the chunks begin with this name or a lesser one. The first are looked at first: O(log d) for d that begin so.
fn count_begun_soon(chunks: &[Vec<Group>], name: &str) -> usize
    requires filled { IsTrue (list_all (λ c. nat_lt 0 (vec_len c)) chunks.now) }
    requires ordered { IsStrictlySortedBy bytes_cmp (keys_of (flat_map in_chunk chunks.now)) }
    ensures bound { result ≤ length chunks.now }
    ensures begun { take result chunks.now
        ≡ filter (λ c. begins_by name.now c.items) chunks.now }
    ensures others { drop result chunks.now
        ≡ filter (λ c. not (begins_by name.now c.items)) chunks.now }
{
    let mut end = 0usize;
    while end < chunks.len() && begins_by(chunks[end].as_slice(), name) {
        end = end.saturating_mul(2).saturating_add(1);
    }
    let end = end.min(chunks.len());
    count_begun(&chunks[..end], name)
}

/// Whether there is a group right before a spot, in its chunk, and it has a lesser name. O(1).
fn is_after(chunks: &[Vec<Group>], spot: Spot, name: &str) -> bool
    ensures { result ≡ (nat_lt 0 spot.place && option_map_or
        (λ c. option_map_or (is_lesser name.now) (slice_get c.items (spot.place - 1)) false)
        (slice_get chunks.now spot.chunk) false) }
{
    match (chunks.get(spot.chunk), spot.place.checked_sub(1)) {
        (Some(chunk), Some(before)) => is_lesser_at(chunk.as_slice(), before, name),
        _ => false,
    }
}

/// How many of the groups have lesser names. O(log n) for n groups.
fn count_lesser(groups: &[Group], name: &str) -> usize
    requires { IsStrictlySortedBy bytes_cmp (keys_of (map keyed groups.now)) }
    ensures bound { result ≤ length groups.now }
    ensures lesser { take result groups.now ≡ filter (is_lesser name.now) groups.now }
    ensures others { drop result groups.now
        ≡ filter (λ g. not (is_lesser name.now g)) groups.now }
{
    // By halves, like `partition_point`, but with a branch: the processor goes on with the name that it guesses to be next, and doesn't
    // wait for the memory of this one.
    let mut low = 0;
    let mut high = groups.len();
    while low < high {
        let middle = low + (high - low) / 2;
        if is_lesser(&groups[middle], name) {
            low = middle + 1;
        } else {
            high = middle;
        }
    }
    low
}

/// How many of the groups have lesser names. A number is tried first: O(1) where it is this one, and else O(log n) for n groups.
fn count_lesser_near(groups: &[Group], near: usize, name: &str) -> usize
    requires { IsStrictlySortedBy bytes_cmp (keys_of (map keyed groups.now)) }
    ensures bound { result ≤ length groups.now }
    ensures lesser { take result groups.now ≡ filter (is_lesser name.now) groups.now }
    ensures others { drop result groups.now
        ≡ filter (λ g. not (is_lesser name.now g)) groups.now }
{
    if is_between(groups, near, name) {
        near
    } else {
        count_lesser(groups, name)
    }
}

/// Whether the group before a place has a lesser name, if there is one, and that at the place has not. O(1).
fn is_between(groups: &[Group], place: usize, name: &str) -> bool
    requires { IsStrictlySortedBy bytes_cmp (keys_of (map keyed groups.now)) }
    ensures bound { IsTrue result → place ≤ length groups.now }
    ensures lesser { IsTrue result → take place groups.now ≡ filter (is_lesser name.now) groups.now }
    ensures others { IsTrue result → drop place groups.now
        ≡ filter (λ g. not (is_lesser name.now g)) groups.now }
{
    match place.checked_sub(1) {
        Some(before) if !is_lesser_at(groups, before, name) => false,
        _ => !is_lesser_at(groups, place, name),
    }
}

/// Whether there is a group at a place, and it has a lesser name. O(1).
fn is_lesser_at(groups: &[Group], place: usize, name: &str) -> bool
    ensures { result ≡ option_map_or (is_lesser name.now) (slice_get groups.now place) false }
{
    match groups.get(place) {
        Some(group) => is_lesser(group, name),
        None => false,
    }
}

/// Whether the first of the groups has this name or a lesser one.
fn begins_by(chunk: &[Group], name: &str) -> bool
    ensures { result ≡ begins_by name.now chunk.now }
{
    match chunk.first() {
        Some(group) => group.name() <= name,
        None => true,
    }
}

/// Whether the group has a lesser name.
fn is_lesser(group: &Group, name: &str) -> bool
    ensures { result ≡ is_lesser name.now group.now }
{
    group.name() < name
}

/// Whether there is a group, and it has this name.
fn is_named(group: Option<&Group>, name: &str) -> bool
    ensures { result ≡ option_map_or (λ g. bytes_eq (name_in g) name.now) (option_copied group.entry) false }
{
    match group {
        Some(group) => group.name() == name,
        None => false,
    }
}

/// For how many groups there is room in a chunk that begins before the chunk with this number.
fn room_for(at: usize, chunks: usize) -> usize
    ensures { 1 ≤ result }
{
    if at > 0 && at == chunks {
        MAX_GROUPS
    } else {
        ROOM
    }
}

/// Takes the second half of a chunk away, and most of the room that it leaves. Returns `Err` only if out of memory, and then nothing
/// changes.
fn upper_half(chunk: &mut Vec<Group>) -> Result<Vec<Group>, AllocError>
    requires { 128 ≤ vec_len chunk.old }
    ensures parts { IfOk result (λ upper. chunk.new.items ++ upper.items ≡ chunk.old.items) }
    ensures lower { 0 < vec_len chunk.new }
    ensures upper { IfOk result (λ upper. 0 < vec_len upper) }
    ensures err { OnErr result (chunk.new.items ≡ chunk.old.items) }
{
    let upper = chunk.split_off(MAX_GROUPS / 2)?;
    chunk.shrink_to(MAX_GROUPS / 2 + ROOM);
    Ok(upper)
}

/// Puts a group into a chunk at a place. Returns `Err` only if out of memory, and then nothing changes.
fn put_into(chunk: &mut Vec<Group>, place: usize, group: Group) -> Result<(), AllocError>
    requires { place ≤ vec_len chunk.old }
    ensures items { OnOk result (chunk.new.items ≡ insert chunk.old.items place group) }
    ensures err { OnErr result (chunk.new.items ≡ chunk.old.items) }
    ensures len { vec_len chunk.old ≤ vec_len chunk.new }
    ensures some { OnOk result (0 < vec_len chunk.new) }
{
    if chunk.len() == chunk.capacity() {
        chunk.reserve_exact(ROOM)?;
    }
    chunk.insert(place, group)?;
    Ok(())
}
