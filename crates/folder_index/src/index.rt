//! The index of a folder: all devices' records by name, this device's by sequence, and its blocks by digest.
ghost use Rattle.std.specs.Prelude.{bytes_eq, ◌≡◌, ◌≢◌, ◌↔◌, [], IfOk, IsOk, IsTrue, None, OnErr, OnOk, Some, filter, map, option_copied, option_map, find, slice_get};
ghost use Rattle.std.specs.FinMap.{empty, entries, get};
ghost use Rattle.std.specs.FinSet.{contains, empty as no_names};
ghost use Rattle.folder_core.specs.Announced.{best, is_of, key};
ghost use Rattle.folder_core.specs.Plain.{filed};
ghost use Rattle.folder_core.specs.Reads.{IsSomePlace, best_with_devices, bests_page, counts, local_since, need_page, places};
ghost use Rattle.folder_index.specs.Devices.{greatest_of, names_by, sequences_by, without_device};
ghost use Rattle.folder_index.specs.Digests.{HasNone};
ghost use Rattle.folder_index.specs.Indexes.{AreApart, folder, needs, with_promise, with_record, with_records, without_promise, without_record};
ghost use Rattle.folder_index.specs.Locals.{AreEarlier, HasNoBlock, IsFree, IsIndex, IsPlaceAmong, IsSettled, with_filed};
ghost use Rattle.folder_index.specs.Numbers.{number_of};

use crate::local::{Local, live_blocks, sequence_of};
use crate::{Best, ByName, Totals};
use bep_messages::Items;
use folder_core::{Announcement, Place};
use std::alloc::{AllocError, Global};
use std::marker::Model;
use sync_names::SafeName;
use sync_record::{Block, DeviceId, Record};

/// What devices announce, by name, with this device's records by sequence and the blocks of its live files by digest. Reads
/// ask for what changes have found: none looks at every record.
#[derive(Drop)]
pub struct Index {
    names: ByName,
    local: Local,
}

impl Model for Index {
    ghost use Rattle.folder_index.specs.Indexes.{IndexState, coded_index};

    ghost Value = { IndexState };

    ghost coded = { coded_index };

    ghost use Rattle.folder_index.specs.Locals.{IsIndex};

    ghost view = { λ f. f.names };

    ghost invariant = { λ f. IsIndex f.names f.local };
}

impl Index {
    /// No records. Does not allocate. O(1).
    pub fn new(alloc: Global, me: DeviceId) -> Index
        ensures { result ≡ record { me = me; announced = empty; choices = 0; promised = no_names } }
    {
        Index {
            names: ByName::new(alloc, me),
            local: Local::new(alloc),
        }
    }

    /// This device. O(1).
    pub fn me(&self) -> DeviceId
        ensures { result ≡ self.now.me }
    {
        self.names.me()
    }

    /// How often a best was chosen, up to the greatest number. O(1).
    pub fn choices(&self) -> u64
        ensures { result ≡ self.now.choices }
    {
        self.names.choices()
    }

    /// Puts a device's record, in place of what it announced of its name, and chooses the best of the name anew. The sequence
    /// of a record of this device is none of its records of other names ([`is_free`](Index::is_free) tells). Returns `Err`
    /// only if out of memory, or if the other devices have 2^64 - 2 records already, and then nothing changes.
    /// O(log n + k^2) for n names and k devices that announce the name, and O(b log m) for a file of this device, with b
    /// blocks in the old and the new one and m in all.
    pub fn set(&mut self, device: DeviceId, announced: Record) -> Result<(), AllocError>
        requires { device ≡ self.old.me → IsFree self.old announced.name announced.sequence }
        ensures ok { OnOk result (self.new ≡ with_record device announced self.old) }
        ensures err { OnErr result (self.new ≡ self.old) }
    {
        if device == self.names.me() {
            set_own(&mut self.names, &mut self.local, announced)
        } else {
            self.names.set(device, announced)
        }
    }

    /// Puts records of another device, no two of one name, each in place of what the device announced of its name, and
    /// chooses the bests of these names anew. Returns `Err` only if out of memory, or if the other devices would have more
    /// than 2^64 - 2 records, and then nothing changes. O(m log n + m k^2) for m records given, n names and k devices that
    /// announce a name.
    pub fn set_all(&mut self, device: DeviceId, records: Items<Record>) -> Result<(), AllocError>
        requires other { device ≢ self.old.me }
        requires apart { AreApart records }
        ensures ok { OnOk result (self.new ≡ with_records device records self.old) }
        ensures err { OnErr result (self.new ≡ self.old) }
    {
        self.names.set_all(device, records)
    }

    /// Whether no record of this device of another name has the sequence. O(log n) for n records of this device.
    pub fn is_free(&self, name: &SafeName, sequence: u64) -> bool
        ensures { IsTrue result ↔ IsFree self.now name.now sequence }
    {
        match self.local.get(sequence) {
            Some(announced) => announced.name() == name,
            None => true,
        }
    }

    /// Reserves what a record of this device needs in this index: [`set_reserved`](Index::set_reserved) of a record of this
    /// name then does not allocate. A name that is reserved already stays so. Returns `Err` only if out of memory, and then
    /// nothing changes. O(log n) for n names, and what [`settle`](Index::settle) takes.
    pub fn reserve(&mut self, name: &SafeName) -> Result<(), AllocError>
        ensures ok { OnOk result (self.new ≡ with_promise name.now self.old) }
        ensures err { OnErr result (self.new ≡ self.old) }
    {
        reserve_own(&mut self.names, &mut self.local, name)
    }

    /// Whether something is reserved for a record of this device of the name. O(log n) for n names.
    pub fn is_reserved(&self, name: &SafeName) -> bool
        ensures { result ≡ contains self.now.promised name.now }
    {
        self.names.is_promised(name)
    }

    /// Whether each record of this device has a lesser sequence. O(log n + k) for n records of this device and k that are not
    /// settled.
    pub fn is_next(&self, sequence: u64) -> bool
        ensures { IsTrue result ↔ AreEarlier self.now sequence }
    {
        self.local.latest.are_below(sequence) && self.local.records.are_below(sequence)
    }

    /// Gives up what is reserved for a record of this name, if there is anything. Does not allocate. O(log n) for n names.
    pub fn release(&mut self, name: &SafeName)
        ensures { self.new ≡ without_promise name.now self.old }
    {
        release_own(&mut self.names, &mut self.local, name);
    }

    /// Puts this device's record of a name that is reserved, in place of what it announced of the name, and chooses the best
    /// of the name anew; the name is reserved no longer. The sequence of the record is greater than those of this device's
    /// records, and `copied` is the record once more. Does not allocate. O(log n + d^2) for n names and d devices that
    /// announce the name, and O(b log m + k) for a file of this device, with b blocks in the old one, m in all and k records
    /// that were put so and are not settled yet.
    pub fn set_reserved(&mut self, announced: Record, copied: Record)
        requires reserved { IsTrue (contains self.old.promised announced.name) }
        requires greatest { AreEarlier self.old announced.sequence }
        requires same { copied ≡ announced }
        ensures { self.new ≡ with_record self.old.me announced self.old }
    {
        set_last(&mut self.names, &mut self.local, announced, copied);
    }

    /// Settles the records that [`set_reserved`](Index::set_reserved) put: until then a read of this device's records by
    /// sequence or by block looks at each of them. [`set`](Index::set) of a record of this device and
    /// [`reserve`](Index::reserve) do so too. Returns `Err` only if out of memory; what the index has stays in any case.
    /// O(k log n + b log m + k^2) for n local records, k that are not settled, b blocks of these and m in all.
    pub fn settle(&mut self) -> Result<(), AllocError>
        ensures { self.new ≡ self.old }
    {
        settle_own(&self.names, &mut self.local)
    }

    /// Takes away what a device announces of a name, if there is anything, and then chooses the best of the name anew. Does
    /// not allocate. O(log n + k^2) for n names and k devices that announce the name, and O(b log m) for a file of this device,
    /// with b blocks in the file and m in all.
    pub fn clear(&mut self, device: DeviceId, name: &SafeName)
        ensures { self.new ≡ without_record device name.now self.old }
    {
        if device == self.names.me() {
            clear_own(&mut self.names, &mut self.local, name);
        } else {
            self.names.clear(device, name);
        }
    }

    /// Takes away all that another device announces, name by name. Returns `Err` only if out of memory, and then nothing
    /// changes. O(n + m log n) for n records, of which m are the device's, and copies of the names of these.
    pub fn forget(&mut self, device: DeviceId) -> Result<(), AllocError>
        requires { device ≢ self.old.me }
        ensures ok { OnOk result (self.new ≡ without_device device self.old) }
        ensures err { OnErr result (self.new ≡ self.old) }
    {
        self.names.forget(device)
    }

    /// The record that a device announces of a name, if there is one. O(log n + k) for n names and k devices that announce
    /// the name.
    pub fn get(&self, device: DeviceId, name: &SafeName) -> Option<&Record>
        ensures { option_copied result ≡ get self.now.announced (key name.now device) }
    {
        self.names.get(device, name)
    }

    /// The records of a name, by device, with the devices that announce them. Does not allocate. O(log n) for n names.
    pub fn announcements_of(&self, name: &SafeName) -> &[Announcement]
        ensures { map filed result.now ≡ filter (is_of name.now) (entries self.now.announced) }
    {
        self.names.announcements_of(name)
    }

    /// The best of a name, and the device that announces it; `None` where no valid record of the name is announced. O(log n)
    /// for n names.
    pub fn best(&self, name: &SafeName) -> Option<&Announcement>
        ensures { option_map filed (option_copied result) ≡ best (entries self.now.announced) name.now }
    {
        self.names.best(name)
    }

    /// A copy of the best record of a name, and the devices whose valid record of the name has its version and its content;
    /// `None` where no valid record of the name is announced. Returns `Err` only if out of memory, and never where it is
    /// `None`. O(log n + k) for n names and k devices that announce the name, and the copy.
    pub fn best_with_devices(&self, name: &SafeName) -> Result<Option<Best>, AllocError>
        ensures found { IfOk result (λ b. option_map (λ b. (b.record, b.devices)) b
            ≡ best_with_devices (folder self.now) name.now) }
        ensures none { best_with_devices (folder self.now) name.now ≡ None → IsOk result }
    {
        self.names.best_with_devices(name)
    }

    /// The bests of the names greater than `after`, or of all names where it is `None`, in byte order of the names: the
    /// first `limit` of them, or all where there are fewer. Returns `Err` only if out of memory. O(log n) for n names, and
    /// O(k) for each name up to the last one of the page, with k devices that announce it, and the copies. An empty page does
    /// not allocate.
    pub fn bests(&self, after: Option<&SafeName>, limit: usize) -> Result<Items<Best>, AllocError>
        ensures page { IfOk result (λ page. map (λ b. (b.record, b.devices)) page
            ≡ bests_page (folder self.now) (option_copied after.entry) limit) }
        ensures none { bests_page (folder self.now) (option_copied after.entry) limit ≡ [] → IsOk result }
    {
        self.names.bests(after, limit)
    }

    /// Whether this device needs the best of a name: its best is of another version than the local record, or there is no local
    /// record and the best isn't deleted. O(log n) for n names.
    pub fn needs(&self, name: &SafeName) -> bool
        ensures { result ≡ needs self.now name.now }
    {
        self.names.needs(name)
    }

    /// The names greater than `after`, or all names where it is `None`, that this device needs, in byte order: the first
    /// `limit` of them, or all where there are fewer. Returns `Err` only if out of memory. O(log n + p) for n names, p of them
    /// up to the last one of the page, and the copies. An empty page does not allocate.
    pub fn needed(
        &self,
        after: Option<&SafeName>,
        limit: usize,
    ) -> Result<Items<SafeName>, AllocError>
        ensures page { IfOk result (λ page. page
            ≡ need_page (folder self.now) (option_copied after.entry) limit) }
        ensures none { need_page (folder self.now) (option_copied after.entry) limit ≡ [] → IsOk result }
    {
        self.names.need(after, limit)
    }

    /// The greatest sequence of a device's records, 0 without any. O(d) for d devices; O(n) for n records for this device, and for
    /// another one after a record of it was taken away, or one of a lesser sequence put, until it announces a greater sequence again.
    pub fn greatest_sequence(&self, device: DeviceId) -> u64
        ensures { result ≡ greatest_of (sequences_by device (entries self.now.announced)) }
    {
        self.names.greatest_sequence(device)
    }

    /// The names of which a device announces something, in byte order. Returns `Err` only if out of memory. O(n) for n records,
    /// and the copies. It does not allocate where there are none.
    pub fn names_of(&self, device: DeviceId) -> Result<Items<SafeName>, AllocError>
        ensures names { IfOk result (λ names. names ≡ names_by device (entries self.now.announced)) }
        ensures none { names_by device (entries self.now.announced) ≡ [] → IsOk result }
    {
        self.names.names_of(device)
    }

    /// Every record with the device that announces it, by name and then by device. The records are not copied but shared. Returns
    /// `Err` only if out of memory. O(n) for n records. It does not allocate where there are none.
    pub fn announcements(&self) -> Result<Items<Announcement>, AllocError>
        ensures all { IfOk result (λ all. map filed all ≡ entries self.now.announced) }
        ensures none { self.now.announced ≡ empty → IsOk result }
    {
        self.names.announcements()
    }

    /// How much there is. O(1).
    pub fn totals(&self) -> Totals
        ensures files { result.files ≡ (counts (folder self.now)).files }
        ensures directories { result.directories ≡ (counts (folder self.now)).directories }
        ensures deletions { result.deletions ≡ (counts (folder self.now)).deletions }
        ensures needed { result.needed ≡ (counts (folder self.now)).needed }
        ensures others { result.others ≡ (counts (folder self.now)).others }
    {
        self.names.totals()
    }

    /// The local records of greater sequence, in rising sequence: the first `limit` of them, but no more than have 1,000,000
    /// blocks together, except that one record may have any number; or all where there are fewer. Returns `Err` only if out
    /// of memory. O(log n + p) for n local records and p of the page, which are not copied but shared. An empty page does not
    /// allocate.
    pub fn page(&self, sequence: u64, limit: usize) -> Result<Items<Record>, AllocError>
        ensures page { IfOk result (λ page. page ≡ local_since (folder self.now) sequence limit) }
        ensures none { local_since (folder self.now) sequence limit ≡ [] → IsOk result }
    {
        let latest = self.local.latest.records();
        self.local.records.page_with(latest, sequence, limit)
    }

    /// Where a live local file has a block with this digest; `None` where there is none. Returns `Err` only if out of memory,
    /// and never where there is none. O(log n) for n blocks, once more for each whose digest only begins with the same eight
    /// bytes, and the copy of the name.
    pub fn place(&self, hash: &[u8; 32]) -> Result<Option<Place>, AllocError>
        ensures found { IfOk result (λ place. IsSomePlace (folder self.now) hash.now place) }
        ensures none { places (folder self.now) hash.now ≡ [] → IsOk result }
    {
        let Some((sequence, i)) = self.local.find(hash) else {
            return place_among(self.local.latest.records(), hash);
        };
        match self.local.records.get(sequence) {
            Some(announced) => place_in(announced, i),
            None => unreachable!(),
        }
    }
}

/// Where a live file among the records has a block with this digest; `None` where none has. Returns `Err` only if out of memory,
/// and never where there is none. O(b) for b blocks.
fn place_among(records: &[Record], hash: &[u8; 32]) -> Result<Option<Place>, AllocError>
    ensures found { IfOk result (λ place. IsPlaceAmong records.now hash.now place) }
    ensures none { HasNoBlock records.now hash.now → IsOk result }
{
    for announced in records {
        if let Some(block) = block_with(live_blocks(announced), hash) {
            return Ok(Some(Place {
                name: announced.name().copy()?,
                offset: block.offset,
                size: block.size,
            }));
        }
    }
    Ok(None)
}

/// The first block with this digest. O(b) for b blocks.
fn block_with<'a>(blocks: &'a [Block], hash: &[u8; 32]) -> Option<&'a Block>
    ensures { option_copied result ≡ find (λ b. bytes_eq b.hash hash.now) blocks.now }
{
    blocks.iter().find(|block| block.hash == *hash)
}

/// Where the block at this place of a file is. Returns `Err` only if out of memory.
fn place_in(announced: &Record, i: usize) -> Result<Option<Place>, AllocError>
    ensures { IfOk result (λ place. place ≡ option_map
        (λ b. record { name = announced.now.name; offset = b.offset; size = b.size })
        (slice_get announced.now.blocks i)) }
{
    let Some(block) = announced.blocks().get(i) else {
        return Ok(None);
    };
    Ok(Some(Place {
        name: announced.name().copy()?,
        offset: block.offset,
        size: block.size,
    }))
}

/// Puts a record of this device, under a sequence that no record of another name has. Returns `Err` only if out of memory, and
/// then what is announced stays.
fn set_own(names: &mut ByName, local: &mut Local, announced: Record) -> Result<(), AllocError>
    requires index { IsIndex names.old local.old }
    requires free { IsFree names.old announced.name announced.sequence }
    ensures index { IsIndex names.new local.new }
    ensures ok { OnOk result (names.new ≡ with_record names.old.me announced names.old) }
    ensures err { OnErr result (names.new ≡ names.old) }
{
    settle_own(names, local)?;
    let is_promised = names.is_promised(announced.name());
    put_own(names, local, announced)?;
    if is_promised {
        local.latest.release();
    }
    Ok(())
}

/// Files the records that were put last. Returns `Err` only if out of memory, and then some of them may be filed.
fn settle_own(names: &ByName, local: &mut Local) -> Result<(), AllocError>
    requires { IsIndex names.now local.old }
    ensures index { IsIndex names.now local.new }
    ensures settled { OnOk result (local.new.latest.records ≡ []) }
{
    local.settle()
}

/// Reserves what a record of this device needs. Returns `Err` only if out of memory, and then what is announced and what is
/// promised stays.
fn reserve_own(names: &mut ByName, local: &mut Local, name: &SafeName) -> Result<(), AllocError>
    requires { IsIndex names.old local.old }
    ensures index { IsIndex names.new local.new }
    ensures ok { OnOk result (names.new ≡ with_promise name.now names.old) }
    ensures err { OnErr result (names.new ≡ names.old) }
{
    settle_own(names, local)?;
    if names.is_promised(name) {
        return Ok(());
    }
    local.latest.reserve()?;
    if names.reserve(name).is_err() {
        local.latest.release();
        return Err(AllocError);
    }
    Ok(())
}

/// Gives up what is reserved for a record of this device. Does not allocate.
fn release_own(names: &mut ByName, local: &mut Local, name: &SafeName)
    requires { IsIndex names.old local.old }
    ensures index { IsIndex names.new local.new }
    ensures names { names.new ≡ without_promise name.now names.old }
{
    if names.is_promised(name) {
        local.latest.release();
    }
    names.release(name);
}

/// Puts a record of this device in room that is promised. Does not allocate.
fn set_last(names: &mut ByName, local: &mut Local, announced: Record, copied: Record)
    requires index { IsIndex names.old local.old }
    requires reserved { IsTrue (contains names.old.promised announced.name) }
    requires greatest { AreEarlier names.old announced.sequence }
    requires same { copied ≡ announced }
    ensures index { IsIndex names.new local.new }
    ensures names { names.new ≡ with_record names.old.me announced names.old }
{
    prove!(announced.sequence() < 1 << 63);
    let me = names.me();
    if let Some(replaced) = sequence_of(names.get(me, announced.name())) {
        local.take_out(replaced);
    }
    if names.set(me, announced).is_err() {
        unreachable!()
    }
    local.latest.push(copied);
}

/// Puts a record of this device, under a sequence that no record of another name has, where all are filed. Returns `Err` only if
/// out of memory, and then what is announced stays.
fn put_own(names: &mut ByName, local: &mut Local, announced: Record) -> Result<(), AllocError>
    requires index { IsSettled names.old local.old }
    requires free { IsFree names.old announced.name announced.sequence }
    ensures index { IsSettled names.new local.new }
    ensures ok { OnOk result (names.new ≡ with_record names.old.me announced names.old) }
    ensures err { OnErr result (names.new ≡ names.old) }
    ensures latest { local.new.latest ≡ local.old.latest }
{
    let sequence = announced.sequence();
    match sequence_of(names.get(names.me(), announced.name())) {
        None => add_own(names, local, announced),
        Some(replaced) if replaced == sequence => exchange_own(names, local, announced),
        Some(replaced) => {
            add_own(names, local, announced)?;
            local.unfile(replaced);
            Ok(())
        }
    }
}

/// Puts a record of this device, under a sequence that none of its records has. Returns `Err` only if out of memory, and then
/// nothing changes.
fn add_own(names: &mut ByName, local: &mut Local, announced: Record) -> Result<(), AllocError>
    requires unused { HasNone (number_of local.old.numbers announced.sequence) local.old.places }
    requires absent { get local.old.records announced.sequence ≡ None }
    ensures ok { OnOk result (names.new ≡ with_record names.old.me announced names.old) }
    ensures local { OnOk result (local.new ≡ with_filed announced local.old) }
    ensures err { OnErr result (names.new ≡ names.old) }
    ensures local_stays { OnErr result (local.new ≡ local.old) }
{
    let sequence = announced.sequence();
    local.file(&announced)?;
    if names.set(names.me(), announced).is_err() {
        local.unfile(sequence);
        return Err(AllocError);
    }
    Ok(())
}

/// Puts a record of this device in place of the one of its name and sequence. Returns `Err` only if out of memory, and then
/// what is announced stays.
fn exchange_own(names: &mut ByName, local: &mut Local, announced: Record) -> Result<(), AllocError>
    requires index { IsSettled names.old local.old }
    requires free { IsFree names.old announced.name announced.sequence }
    requires replaced { Some announced.sequence
        ≡ option_map (λ r. r.sequence) (get names.old.announced (key announced.name names.old.me)) }
    ensures index { IsSettled names.new local.new }
    ensures ok { OnOk result (names.new ≡ with_record names.old.me announced names.old) }
    ensures err { OnErr result (names.new ≡ names.old) }
    ensures latest { local.new.latest ≡ local.old.latest }
{
    let copied = announced.copy()?;
    local.prepare(&copied)?;
    if names.set(names.me(), announced).is_err() {
        local.unprepare(&copied);
        return Err(AllocError);
    }
    local.exchange(copied);
    Ok(())
}

/// Takes away this device's record of a name, if there is one. Does not allocate.
fn clear_own(names: &mut ByName, local: &mut Local, name: &SafeName)
    requires { IsIndex names.old local.old }
    ensures index { IsIndex names.new local.new }
    ensures names { names.new ≡ without_record names.old.me name.now names.old }
{
    let me = names.me();
    if let Some(cleared) = sequence_of(names.get(me, name)) {
        local.take_out(cleared);
    }
    names.clear(me, name);
}
