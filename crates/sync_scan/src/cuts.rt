//! The blocks of several files, hashed side by side.
ghost use Rattle.std.specs.Prelude.{◌≡◌, ◌+◌, ◌<◌, ◌≤◌, ◌++◌, ◌^◌, IfOk, OnOk, map};
ghost use Rattle.sync_scan.specs.Ahead.{cut_block, file_cuts, run};

use rayon::prelude::*;
use sha2::{Digest, Sha256};
use std::alloc::{AllocError, Global};
use std::thread::Threads;
use sync_blocks::Block;

/// With fewer bytes than this no thread is started.
const BYTES_FOR_THREADS: usize = 1024 * 1024;

/// Where the bytes of a block are among those of several files, and where it begins in its own.
#[derive(Clone, Copy, Debug, PartialEq, Eq)]
pub(crate) struct Cut {
    pub(crate) start: usize,
    pub(crate) size: u32,
    pub(crate) offset: usize,
}

/// Adds the cuts for the blocks of a file of `size` bytes that begin at `start`.
pub(crate) fn push_cuts(
    cuts: &mut Vec<Cut>,
    start: usize,
    size: usize,
    block_size: u32,
) -> Result<(), AllocError>
    requires some { 1 ≤ block_size }
    requires fits { start + size < 2 ^ 63 }
    ensures { OnOk result (cuts.new.items ≡ cuts.old.items ++ file_cuts start size block_size) }
{
    let block_size = block_size as usize;
    let count = size.div_ceil(block_size).max(1);
    for i in 0..count {
        let offset = i * block_size;
        cuts.push(Cut {
            start: start + offset,
            size: block_size.min(size - offset) as u32,
            offset,
        })?;
    }
    Ok(())
}

/// The blocks that the cuts stand for, in order. Of a mebibyte and more they are hashed in a few threads for each processor.
pub(crate) fn hash_cuts(
    rt: &(impl Threads + Sync),
    alloc: Global,
    bytes: &[u8],
    cuts: &[Cut],
) -> Result<Vec<Block>, AllocError>
    ensures { IfOk result (λ v. v.items ≡ map (cut_block bytes.now) cuts.now) }
{
    let least = if bytes.len() < BYTES_FOR_THREADS {
        cuts.len().max(1)
    } else {
        1
    };
    cuts.par_iter()
        .with_min_len(least)
        .map(
            |cut: &Cut| -> Block
                ensures { result ≡ cut_block bytes.entry.now cut.now }
            { hash_cut(bytes, cut) },
        )
        .collect(rt, alloc)
}

// The block that a cut stands for.
fn hash_cut(bytes: &[u8], cut: &Cut) -> Block
    ensures { result ≡ cut_block bytes.now cut.now }
{
    let rest = &bytes[cut.start.min(bytes.len())..];
    let part = &rest[..rest.len().min(cut.size as usize)];
    Block {
        offset: cut.offset as u64,
        size: part.len() as u32,
        hash: Sha256::digest(part),
    }
}

/// So many blocks from a place on.
pub(crate) fn blocks_in(
    alloc: Global,
    blocks: &[Block],
    first: usize,
    count: usize,
) -> Result<Vec<Block>, AllocError>
    ensures { IfOk result (λ v. v.items ≡ run first count blocks.now) }
{
    let rest = &blocks[first.min(blocks.len())..];
    Vec::from_slice(alloc, &rest[..count.min(rest.len())])
}
