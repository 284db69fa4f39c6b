//! The block list of a file, made from a reader: groups of up to 64 MiB are read at once, and their blocks hashed.
ghost use Rattle.std.specs.Prelude.{◌≡◌, ◌+◌, ◌*◌, ◌^◌, ◌<◌, ◌≤◌, ◌++◌, ◌∷◌, ℕ, List, [], min, length};
ghost use Rattle.std.specs.Prelude.{Err, IfErr, IfOk, IfSome, IsOk, OnOk};
ghost use Rattle.std.specs.Io.KnownBytes.{Consumes, IsAtEnd};
ghost use Rattle.sync_blocks.specs.BlockList.{block_at, block_list};
ghost use Rattle.sync_blocks.specs.Groups.{blocks_from, group_bytes};
ghost use Rattle.sync_blocks.specs.Reading.{TakesFront, Tells, TellsEarly};

use crate::filling::fill;
use crate::hashing::push_blocks;
use crate::{Block, ReadFault};
use std::alloc::{AllocError, Global};
use std::io::Read;
use std::thread::Threads;

/// As many whole blocks are read at once as fit this many bytes, and at least one.
const MAX_GROUP_BYTES: u64 = 64 * 1024 * 1024;

/// The block list of the `size` bytes that the reader gives up to its end, each block except the last of `block_size`
/// bytes; of an empty file one block of size 0.
///
/// Fails with `Short` if the reader has fewer bytes, which are then all taken; with `Long` if it has more, and then
/// `size + 1` bytes are taken; with `Read` if a read fails, though an interrupted one is tried again; and with
/// `OutOfMemory` if the buffer or the list could not be allocated. After the last two the reader has given some of its
/// bytes. An empty file needs no buffer: where `size` is 0 and the reader has bytes, it fails with `Long` or `Read`, and
/// does not allocate.
///
/// As many whole blocks as fit 64 MiB, and at least one, are read at once, and hashed in a few threads for each
/// processor; one block is hashed in this thread. O(size) time; memory for the list, and one buffer for the bytes
/// that are read at once.
pub fn blocks_of<R: Read>(
    rt: &(impl Threads + Sync),
    alloc: Global,
    reader: &mut R,
    size: u64,
    block_size: u32,
) -> Result<Vec<Block>, ReadFault>
    requires { 1 ≤ block_size }
    ensures blocks { IfOk result (λ v. (bytes : List ℕ) × Consumes (R.remaining reader.old) (R.remaining reader.new) bytes
        × (length bytes ≡ size) × (v.items ≡ block_list bytes block_size)) }
    ensures end { OnOk result (IsAtEnd (R.remaining reader.new)) }
    ensures known { IfOk result (λ v. IfSome (R.remaining reader.old)
        (λ bytes. (length bytes ≡ size) × (v.items ≡ block_list bytes block_size))) }
    ensures refused { IfErr result (λ fault. Tells fault (R.remaining reader.old) size) }
    ensures short { result ≡ Err ReadFault.Short → IsAtEnd (R.remaining reader.new) }
    ensures long { result ≡ Err ReadFault.Long →
        (bytes : List ℕ) × Consumes (R.remaining reader.old) (R.remaining reader.new) bytes × (length bytes ≡ size + 1) }
    ensures memory { size ≡ 0 → result ≡ Err ReadFault.OutOfMemory → IsAtEnd (R.remaining reader.old) }
    ensures taken { TakesFront (R.remaining reader.old) (R.remaining reader.new) }
{
    let mut list = read_groups(rt, alloc, reader, size, block_size)?;
    if fill(reader, &mut [0])? > 0 {
        return Err(ReadFault::Long);
    }
    if size == 0 {
        push_empty_block(&mut list)?;
    }
    Ok(list)
}

// Adds the one block of an empty file.
fn push_empty_block(blocks: &mut Vec<Block>) -> Result<(), AllocError>
    ensures { (block_size : ℕ) → OnOk result (blocks.new.items ≡ blocks.old.items ++ block_at [] block_size 0 ∷ []) }
{
    blocks.push(Block::of_empty_file())?;
    Ok(())
}

// The blocks of the next `size` bytes; no block of no bytes, for which it neither reads nor allocates.
fn read_groups<R: Read>(
    rt: &(impl Threads + Sync),
    alloc: Global,
    reader: &mut R,
    size: u64,
    block_size: u32,
) -> Result<Vec<Block>, ReadFault>
    requires { 1 ≤ block_size }
    ensures read { IfOk result (λ v. (bytes : List ℕ) × Consumes (R.remaining reader.old) (R.remaining reader.new) bytes
        × (length bytes ≡ size) × (v.items ≡ blocks_from 0 bytes block_size)) }
    ensures none { size ≡ 0 → IsOk result }
    ensures refused { IfErr result (λ fault. TellsEarly fault (R.remaining reader.old) size) }
    ensures short { result ≡ Err ReadFault.Short → IsAtEnd (R.remaining reader.new) }
    ensures taken { TakesFront (R.remaining reader.old) (R.remaining reader.new) }
{
    let mut blocks = Vec::new(alloc);
    if size == 0 {
        return Ok(blocks);
    }
    let mut bytes = vec![in alloc; 0u8; group_len(size, block_size)]?;
    let buffer = bytes.as_mut_slice();
    let mut done = 0;
    while done < size {
        let next = buffer.len().min((size - done) as usize);
        read_group(
            rt,
            alloc,
            reader,
            done,
            &mut buffer[..next],
            block_size,
            &mut blocks,
        )?;
        done += next as u64;
    }
    Ok(blocks)
}

/// How many bytes of a file of `size` bytes are read at once: as many whole blocks as fit 64 MiB, at least one, but no more
/// bytes than the file has. Does not allocate. O(1).
pub fn group_len(size: u64, block_size: u32) -> usize
    requires { 1 ≤ block_size }
    ensures { result ≡ min size (group_bytes block_size) }
{
    let block_size = u64::from(block_size);
    let group = block_size * (MAX_GROUP_BYTES / block_size).max(1);
    group.min(size) as usize
}

// Fills the buffer with the next bytes, which begin at `first` in the file, and adds their blocks.
fn read_group<R: Read>(
    rt: &(impl Threads + Sync),
    alloc: Global,
    reader: &mut R,
    first: u64,
    buffer: &mut [u8],
    block_size: u32,
    blocks: &mut Vec<Block>,
) -> Result<(), ReadFault>
    requires some { 1 ≤ block_size }
    requires fits { first + length buffer.old < 2 ^ 64 }
    ensures read { OnOk result ((bytes : List ℕ) × Consumes (R.remaining reader.old) (R.remaining reader.new) bytes
        × (length bytes ≡ length buffer.old)
        × (blocks.new.items ≡ blocks.old.items ++ blocks_from first bytes block_size)) }
    ensures refused { IfErr result (λ fault. TellsEarly fault (R.remaining reader.old) (length buffer.old)) }
    ensures short { result ≡ Err ReadFault.Short → IsAtEnd (R.remaining reader.new) }
    ensures taken { TakesFront (R.remaining reader.old) (R.remaining reader.new) }
{
    if fill(reader, buffer)? < buffer.len() {
        return Err(ReadFault::Short);
    }
    push_blocks(rt, alloc, first, buffer, block_size, blocks)?;
    Ok(())
}
