//! Records from messages, and messages from records.
ghost use Rattle.std.specs.Prelude.{◌≡◌, ◌<◌, ◌^◌, ◌&&◌, [], All, Err, IfOk, IsOk, MatchResult, IfNone, IfSome, None, false, map, not, pos, true};
ghost use Rattle.std.specs.List.{list_all};
ghost use Rattle.std.specs.Ordering.{int_eq};
ghost use Rattle.sync_names.specs.Parsing.{IsQuick, IsToldOf};
ghost use Rattle.sync_names.specs.Refusal.{refusal, shape_refusal};
ghost use Rattle.sync_version.specs.Versions.{IsCanonical};
ghost use Rattle.sync_record.specs.Validity.{FitsBlockInfo, FitsFileInfo};
ghost use Rattle.sync_record.specs.Infos.{block_of, block_info_of, block_size_of, content_of, counter_of, info_of, is_block, natural, plain_of, record_of, version_of};

use crate::Record;
use crate::fields::{Fields, Plain};
use crate::file::describes_file;
use bep_messages::{BlockInfo, Copied, Counter, FileInfo, Items, ShortOctets, Text, Vector};
use std::alloc::{AllocError, Global};
use sync_blocks::{Block, MIN_BLOCK_SIZE};
use sync_names::{NameFault, SafeName};
use sync_version::Version;

// The version of a message's counters.
fn read_version(alloc: Global, counters: &[Counter]) -> Result<Version, AllocError>
    ensures value { IfOk result (λ v. v ≡ version_of counters.now) }
    ensures canonical { IfOk result IsCanonical }
    // Does not allocate if there are no counters.
    ensures free { counters.now ≡ [] → IsOk result }
{
    let mut pairs = Vec::with_capacity(alloc, counters.len())?;
    for counter in counters {
        pairs.push((counter.id, counter.value))?;
    }
    Ok(Version::from_pairs(pairs))
}

// The block of a message, if it can be one.
fn read_block(info: &BlockInfo) -> Option<Block>
    ensures none { IfNone result (is_block info.now ≡ false) }
    ensures some { IfSome result (λ b. (is_block info.now ≡ true) × (b ≡ block_of info.now)) }
    ensures fits { IfSome result FitsBlockInfo }
{
    let offset = u64::try_from(info.offset).ok()?;
    let size = u32::try_from(info.size).ok()?;
    let hash = <[u8; 32]>::try_from(info.hash.as_slice()).ok()?;
    Some(Block { offset, size, hash })
}

// The blocks of a message, if each can be one. Does not allocate if there is none.
fn read_blocks(alloc: Global, infos: &[BlockInfo]) -> Result<Option<Vec<Block>>, AllocError>
    ensures none { IfOk result (λ read. IfNone read (list_all is_block infos.now ≡ false)) }
    ensures some { IfOk result (λ read. IfSome read (λ blocks.
        (list_all is_block infos.now ≡ true) × (blocks.items ≡ map block_of infos.now))) }
    ensures fit { IfOk result (λ read. IfSome read (λ blocks. All FitsBlockInfo blocks.items)) }
    ensures free { infos.now ≡ [] → IsOk result }
{
    let mut blocks = Vec::with_capacity(alloc, infos.len())?;
    for info in infos {
        let Some(block) = read_block(info) else {
            return Ok(None);
        };
        blocks.push(block)?;
    }
    Ok(Some(blocks))
}

// The block size of a message.
fn read_block_size(announced: i32) -> i32
    ensures { result ≡ block_size_of announced }
{
    if announced == 0 {
        MIN_BLOCK_SIZE as i32
    } else {
        announced
    }
}

// The sequence of a message.
fn read_sequence(info: &FileInfo) -> u64
    ensures value { result ≡ natural info.now.sequence }
    ensures fits { result < 2 ^ 63 }
{
    u64::try_from(info.sequence).unwrap_or(0)
}

// The numbers and flags of a message's record, with the message's own mark.
fn read_plain(info: &FileInfo) -> Plain
    ensures { result ≡ plain_of info.now }
{
    Plain {
        type_number: info.kind,
        size: info.size,
        permissions: info.permissions,
        modified_s: info.modified_s,
        modified_ns: info.modified_ns,
        modified_by: info.modified_by,
        deleted: info.deleted,
        invalid: info.invalid,
        no_permissions: info.no_permissions,
        block_size: read_block_size(info.block_size),
    }
}

// The numbers and flags, and the blocks of a live file's message if they make up the file; a file that they don't make
// up is invalid. Allocates only for the blocks of a live file.
fn read_content(
    alloc: Global,
    plain: Plain,
    infos: &[BlockInfo],
) -> Result<(Plain, Vec<Block>), AllocError>
    ensures value { IfOk result (λ read. (read.0, read.1.items) ≡ content_of plain infos.now) }
    ensures fit { IfOk result (λ read. All FitsBlockInfo read.1.items) }
    ensures no_file { (not plain.deleted && int_eq plain.type_number (pos 0)) ≡ false → IsOk result }
    ensures no_blocks { infos.now ≡ [] → IsOk result }
{
    if plain.deleted || plain.type_number != 0 {
        return Ok((plain, Vec::new(alloc)));
    }
    let blocks = read_blocks(alloc, infos)?.filter(|blocks| describes_file(
        plain.size,
        plain.block_size,
        blocks,
    ));
    Ok(match blocks {
        Some(blocks) => (plain, blocks),
        None => {
            let broken = Plain {
                invalid: true,
                ..plain
            };
            (broken, Vec::new(alloc))
        }
    })
}

// The counters of a version's message.
fn write_counters(alloc: Global, pairs: &[(u64, u64)]) -> Result<Items<Counter>, AllocError>
    ensures { IfOk result (λ counters. counters ≡ map counter_of pairs.now) }
{
    let counters = pairs
        .iter()
        .map(|pair| Counter {
            id: pair.0,
            value: pair.1,
        })
        .collect(alloc)?;
    Ok(Items::from_vec(counters))
}

// The blocks of a record's message.
fn write_blocks(alloc: Global, blocks: &[Block]) -> Result<Items<BlockInfo>, AllocError>
    requires fit { All FitsBlockInfo blocks.now }
    ensures { IfOk result (λ infos. infos ≡ map block_info_of blocks.now) }
{
    let mut infos = Vec::with_capacity(alloc, blocks.len())?;
    for block in blocks {
        infos.push(BlockInfo {
            offset: block.offset as i64,
            size: block.size as i32,
            hash: ShortOctets::from_slice(alloc, &block.hash)?,
        })?;
    }
    Ok(Items::from_vec(infos))
}

impl Record {
    /// The record of a message, whose name and symlink target it takes over. Fails exactly as [`SafeName::parse`] of the
    /// name does, or with `OutOfMemory`. The name is tested before anything is allocated.
    ///
    /// A record that isn't well formed becomes invalid and has no blocks, and so has one that isn't a live file. A block
    /// size of 0 is 128 KiB, a negative sequence 0; counters may be in any order. O(n) for n bytes of the message,
    /// but O(m log m) for m counters; at most three allocations, for the counters, the blocks and the record.
    pub fn from_info(alloc: Global, info: FileInfo) -> Result<Record, NameFault>
        ensures answer { MatchResult result (λ r. (refusal info.name ≡ None) × (r ≡ record_of info)) (IsToldOf info.name) }
        ensures shape { IfSome (shape_refusal info.name) (λ fault. result ≡ Err fault) }
        ensures quick { IsQuick info.name → IfSome (refusal info.name) (λ fault. result ≡ Err fault) }
    {
        let plain = read_plain(&info);
        let sequence = read_sequence(&info);
        let FileInfo {
            name,
            version,
            blocks,
            symlink_target,
            ..
        } = info;
        let name = SafeName::from_string(name.into_string())?;
        let version = read_version(alloc, version.counters.as_slice())?;
        let (plain, blocks) = read_content(alloc, plain, blocks.as_slice())?;
        let fields = Fields {
            name,
            version,
            blocks,
            symlink_target,
            plain,
        };
        Ok(Record::from_fields(alloc, sequence, fields)?)
    }

    /// The message of the record, in memory of its own; its record is this one again. Returns `Err` if it could not be
    /// allocated. O(n) for n bytes of names, counters and blocks.
    pub fn to_info(&self) -> Result<FileInfo, AllocError>
        ensures value { IfOk result (λ info. info ≡ info_of self.now) }
        ensures again { IfOk result (λ info. (refusal info.name ≡ None) × (record_of info ≡ self.now)) }
    {
        self.facts();
        write_info(self)
    }
}

fn write_info(source: &Record) -> Result<FileInfo, AllocError>
    ensures { IfOk result (λ info. info ≡ info_of source.now) }
{
    let fields: &Fields = &source.fields;
    let alloc = *fields.blocks.allocator();
    let plain = fields.plain;
    Ok(FileInfo {
        name: Text::from_str(alloc, fields.name.as_str())?,
        kind: plain.type_number,
        size: plain.size,
        permissions: plain.permissions,
        modified_s: plain.modified_s,
        deleted: plain.deleted,
        invalid: plain.invalid,
        no_permissions: plain.no_permissions,
        version: Vector {
            counters: write_counters(alloc, fields.version.counters())?,
        },
        sequence: source.sequence as i64,
        modified_ns: plain.modified_ns,
        modified_by: plain.modified_by,
        block_size: plain.block_size,
        blocks: write_blocks(alloc, &fields.blocks)?,
        symlink_target: fields.symlink_target.copy()?,
    })
}
