//! What a scan tests, and what it records.
ghost use Rattle.std.specs.Prelude.{◌≡◌, ◌+◌, ◌-◌, ◌<◌, ◌≤◌, ◌^◌, nat_le, false, ◌&&◌, ◌||◌, [], All, None, pos, IfOk, IfSome, IsOk, IsTrue, OnErr, is_some, length, map, option_copied, option_map, unwrap_or, vec_len, vec_capacity};
ghost use Rattle.std.specs.FinMap.{put};
ghost use Rattle.std.specs.Option.{option_map_or};
ghost use Rattle.std.specs.Ordering.{int_eq};
ghost use Rattle.std.specs.Cmp.Lexicographic.{pointwise};
ghost use Rattle.sync_blocks.specs.Tiling.{same_block};
ghost use Rattle.sync_record.specs.Own.{deletion_of};
ghost use Rattle.sync_record.specs.Records.{Name};
ghost use Rattle.sync_record.specs.declared.own.Edit.{Edit};
ghost use Rattle.folder_core.specs.Calls.{may_allocate, scan_answer};
ghost use Rattle.sync_record.specs.Contents.{same_content};
ghost use Rattle.sync_version.specs.Computed.{is_counter_full, raised};
ghost use Rattle.folder_core.specs.Announced.{key, key_cmp};
ghost use Rattle.folder_core.specs.Plain.{Rises, filed};
ghost use Rattle.folder_core.specs.PlainScans.{content_record, first_of, deletion_edit, edit_of, has_commit, is_full, is_gone, obstacle_answer, tests_of};
ghost use Rattle.folder_core.specs.States.{max_sequence};
ghost use Rattle.folder_core.specs.Steps.{is_recordable};
ghost use Rattle.sync_record.specs.Devices.{short_id};

use super::merge::put;
use super::open_commits;
use super::own::version_of;
use super::pull::OpenPull;
use crate::copies::copied_version;
use crate::{Announcement, Finding, FoundContent, ScanAnswer, ScanFault};
use bep_messages::Items;
use std::alloc::{AllocError, Global};
use sync_names::SafeName;
use sync_record::{Block, DeviceId, Edit, Kind, Record};
use sync_version::{Moment, RaiseFault, Version};

/// The greatest sequence.
const MAX_SEQUENCE: u64 = i64::MAX as u64;

/// Why a scan is not recorded.
#[derive(Clone, Copy, Debug, PartialEq, Eq)]
pub enum Obstacle {
    Busy,
    Moved,
    Unchanged,
    CounterFull,
    SequenceFull,
}

/// The first test of a scan that holds, in the order of the rules. Does not allocate. O(v) for v counters.
pub fn first_obstacle(
    is_committing: bool,
    version: Option<&Version>,
    expected: Option<&Version>,
    is_unchanged: bool,
    id: u64,
    is_full: bool,
) -> Option<Obstacle>
    ensures { option_map (obstacle_answer (option_copied version.entry)) result
        ≡ first_of (tests_of is_committing (option_copied version.entry)
        (option_copied expected.entry) is_unchanged id is_full) }
{
    if is_committing {
        return Some(Obstacle::Busy);
    }
    if version != expected {
        return Some(Obstacle::Moved);
    }
    if is_unchanged {
        return Some(Obstacle::Unchanged);
    }
    if is_counter_full(version, id) {
        return Some(Obstacle::CounterFull);
    }
    if is_full {
        return Some(Obstacle::SequenceFull);
    }
    None
}

/// Whether the device's counter in the version can't rise. O(log v) for v counters.
fn is_counter_full(version: Option<&Version>, id: u64) -> bool
    ensures { result ≡ is_counter_full (unwrap_or (option_copied version.entry) []) id }
{
    version.is_some_and(|version| version.counter(id) == u64::MAX)
}

/// What a scan answers for this reason, where this is the local version. Only the version of a `Moved` is copied.
pub fn scan_answer(obstacle: Obstacle, version: Option<&Version>) -> Result<ScanAnswer, ScanFault>
    ensures told { IfSome (scan_answer result)
        (λ answer. answer ≡ obstacle_answer (option_copied version.entry) obstacle) }
    ensures memory { scan_answer result ≡ None →
        IsTrue (may_allocate (obstacle_answer (option_copied version.entry) obstacle)) }
{
    match obstacle {
        Obstacle::Busy => Ok(ScanAnswer::Busy),
        Obstacle::Moved => Ok(ScanAnswer::Moved(copied_version(version)?)),
        Obstacle::Unchanged => Ok(ScanAnswer::Unchanged),
        Obstacle::CounterFull => Err(ScanFault::CounterFull),
        Obstacle::SequenceFull => Err(ScanFault::SequenceFull),
    }
}

/// Whether there is a record, and it is of the content that was found. Does not allocate. O(n) for n blocks.
pub fn is_same(local: Option<&Record>, content: &FoundContent) -> bool
    ensures { (name : Name) (edit : Edit) →
        result ≡ option_map_or (same_content (content_record name edit content.now))
        (option_copied local.entry) false }
{
    match local {
        Some(record) => has_content(record, content),
        None => false,
    }
}

/// Whether the record is of the content that was found. Does not allocate. O(n) for n blocks.
fn has_content(record: &Record, content: &FoundContent) -> bool
    ensures { (name : Name) (edit : Edit) →
        result ≡ same_content (content_record name edit content.now) «record».now }
{
    if record.is_deleted() {
        return false;
    }
    match content {
        FoundContent::Directory => record.kind() == Kind::Directory,
        FoundContent::File {
            size,
            block_size,
            blocks,
        } => record.kind() == Kind::File && has_file(record, *size, *block_size, blocks.as_slice()),
    }
}

/// Whether the record is of a file of this size and, where it isn't empty, of these blocks.
fn has_file(record: &Record, size: u64, block_size: u32, blocks: &[Block]) -> bool
    ensures { result ≡ (int_eq (pos size) «record».now.size &&
        (int_eq (pos size) (pos 0) || (int_eq
        (pos block_size) «record».now.block_size && pointwise same_block blocks.now
        «record».now.blocks))) }
{
    u64::try_from(record.size()).is_ok_and(|kept| kept == size)
        && (size == 0
            || (u32::try_from(record.block_size()).is_ok_and(|kept| kept == block_size)
                && blocks == record.blocks()))
}

/// The record of what was found, of this version by the device of this short id, of sequence 0. The blocks are copied.
/// O(n) for n blocks and bytes of the name.
pub fn found_record(
    alloc: Global,
    name: &SafeName,
    found: &Finding,
    version: Version,
    id: u64,
) -> Result<Record, AllocError>
    requires { IsTrue (is_recordable found.now.content) }
    ensures { IfOk result (λ r. r ≡ content_record name.now
        (edit_of version id found.now) found.now.content) }
{
    let name = name.copy()?;
    let edit = Edit {
        version,
        modified_s: found.modified_s,
        modified_by: id,
        modified_ns: found.modified_ns,
    };
    match &found.content {
        FoundContent::Directory => Record::directory(alloc, name, edit),
        FoundContent::File {
            size,
            block_size,
            blocks,
        } => {
            let blocks = copied_blocks(alloc, blocks.as_slice())?;
            Record::file(alloc, name, *size, *block_size, blocks, edit)
        }
    }
}

/// The record of what is gone, of this version by the device of this short id, deleted at the moment.
pub fn gone_record(
    record: &Record,
    version: Version,
    id: u64,
    moment: Moment,
) -> Result<Record, AllocError>
    ensures { IfOk result (λ r. r ≡ deletion_of «record».now (deletion_edit version id moment)) }
{
    record.deletion(Edit {
        version,
        modified_s: moment.seconds() as i64,
        modified_by: id,
        modified_ns: 0,
    })
}

/// The blocks in a list of their own. Does not allocate where there are none.
fn copied_blocks(alloc: Global, blocks: &[Block]) -> Result<Items<Block>, AllocError>
    ensures value { IfOk result (λ copied. copied ≡ blocks.now) }
    ensures digests { IfOk result (λ copied. All (λ b. length b.hash ≡ 32) copied) }
    ensures none { blocks.now ≡ [] → IsOk result }
{
    let mut copied = Vec::with_capacity(alloc, blocks.len())?;
    for block in blocks {
        copied.push(copied_block(block))?;
    }
    Ok(Items::from_vec(copied))
}

fn copied_block(block: &Block) -> Block
    ensures value { result ≡ block.now }
    ensures digest { length result.hash ≡ 32 }
{
    let Block { offset, size, hash } = *block;
    Block { offset, size, hash }
}

/// The version after a change by this device, whose counter can rise.
pub fn next_version(
    alloc: Global,
    version: Option<&Version>,
    id: u64,
    moment: Moment,
) -> Result<Version, AllocError>
    ensures { IfOk result (λ v. v ≡ raised (unwrap_or (option_copied version.entry) []) id moment) }
{
    match version {
        Some(version) => raised(version, id, moment),
        None => raised(&Version::new(alloc), id, moment),
    }
}

fn raised(version: &Version, id: u64, moment: Moment) -> Result<Version, AllocError>
    ensures { IfOk result (λ v. v ≡ raised version.now id moment) }
{
    match version.raised(id, moment) {
        Ok(version) => Ok(version),
        Err(RaiseFault::CounterFull | RaiseFault::OutOfMemory) => Err(AllocError),
    }
}

/// Puts a record of this device's own in its place under the next sequence, and returns that. `promised` places more are
/// left free in the memory of the entries, as before. A call that is out of memory leaves the entries.
pub(super) fn put_next(
    entries: &mut Vec<Announcement>,
    device: DeviceId,
    announced: Record,
    last: u64,
    promised: usize,
) -> Result<u64, AllocError>
    requires rises { Rises entries.old.items }
    requires promised { vec_len entries.old + promised ≤ vec_capacity entries.old }
    requires fits { last + 1 < 2 ^ 63 }
    ensures sequence { IfOk result (λ sequence. sequence ≡ last + 1) }
    ensures placed { IfOk result (λ sequence. map filed entries.new.items
        ≡ put key_cmp (key announced.name device) (record announced { sequence = sequence })
        (map filed entries.old.items)) }
    ensures err { OnErr result (entries.new.items ≡ entries.old.items) }
    ensures promised { vec_len entries.new + promised ≤ vec_capacity entries.new }
{
    let more = promised.checked_add(1).ok_or(AllocError)?;
    entries.reserve(more)?;
    let sequence = last + 1;
    put(entries, device, announced.with_sequence(sequence));
    Ok(sequence)
}

/// The first test of a scan of the name that holds, of a folder with these open pulls, this last sequence and this local
/// record of the name. Does not allocate. O(k + v) for k open pulls and v counters.
pub fn scan_obstacle(
    me: DeviceId,
    pulls: &[OpenPull],
    last: u64,
    name: &SafeName,
    local: Option<&Record>,
    expected: Option<&Version>,
    is_unchanged: bool,
) -> Option<Obstacle>
    // One equation, as the order counts: the result is the first of the five tests that holds.
    ensures { option_map (obstacle_answer
        (option_map (λ r. r.version) (option_copied local.entry))) result
        ≡ first_of (tests_of (has_commit name.now pulls.now)
        (option_map (λ r. r.version) (option_copied local.entry))
        (option_copied expected.entry) is_unchanged (short_id me) (is_full last pulls.now)) }
{
    first_obstacle(
        has_commit(pulls, name),
        version_of(local),
        expected,
        is_unchanged,
        me.short_id(),
        is_full(last, open_commits(pulls)),
    )
}

/// Whether there is no live record.
pub fn is_gone(local: Option<&Record>) -> bool
    ensures { result ≡ is_gone (option_copied local.entry) }
{
    match local {
        Some(record) => record.is_deleted(),
        None => true,
    }
}

/// Whether a commit of the name is open. O(k) for k open pulls.
fn has_commit(pulls: &[OpenPull], name: &SafeName) -> bool
    ensures { result ≡ has_commit name.now pulls.now }
{
    pulls
        .iter()
        .any(|pull| pull.target.name() == name && pull.ready.is_some())
}

/// Whether no sequence is left, except those that the open commits will take.
pub fn is_full(last: u64, commits: usize) -> bool
    ensures { result ≡ nat_le (max_sequence - last) commits }
{
    MAX_SEQUENCE.saturating_sub(last) <= commits as u64
}
