//! Bytes cut into blocks of one size and hashed with SHA-256, on several threads.
ghost use Rattle.std.specs.Prelude.{◌≡◌, ◌+◌, ◌*◌, ◌^◌, ◌<◌, ◌≤◌, ◌++◌, length, OnOk};
ghost use Rattle.sync_blocks.specs.Groups.{blocks_from, placed_block};

use crate::Block;
use rayon::prelude::*;
use sha2::{Digest, Sha256};
use std::alloc::{AllocError, Global};
use std::thread::Threads;

/// Adds the blocks of bytes that begin at `first` in the file, in order, each except the last of `block_size` bytes; of no bytes
/// none. If these are the blocks of the next part of a file, all parts before it have to be of whole blocks.
///
/// More than one block are hashed in a few threads for each processor, and one in this thread. Fails if out of memory. O(n) time;
/// memory for the blocks, and as much again while it runs.
pub fn push_blocks(
    rt: &(impl Threads + Sync),
    alloc: Global,
    first: u64,
    bytes: &[u8],
    block_size: u32,
    blocks: &mut Vec<Block>,
) -> Result<(), AllocError>
    requires some { 1 ≤ block_size }
    requires fits { first + length bytes.now < 2 ^ 64 }
    ensures { OnOk result (blocks.new.items ≡ blocks.old.items ++ blocks_from first bytes.now block_size) }
{
    let count = bytes.len().div_ceil(block_size as usize);
    if count == 1 {
        blocks.push(placed_block(first, bytes, block_size, 0))?;
        return Ok(());
    }
    let mut added = (0..count)
        .into_par_iter()
        .with_min_len(1)
        .map(
            |i: usize| -> Block
                requires { (i * block_size < length bytes.now) × (first + length bytes.now < 2 ^ 64) }
                ensures { result ≡ placed_block first bytes.entry.now block_size i }
            { placed_block(first, bytes, block_size, i) },
        )
        .collect::<Vec<_>>(rt, alloc)?;
    blocks.append(&mut added)
}

// Block `i` of bytes that begin at `first` in the file.
fn placed_block(first: u64, bytes: &[u8], block_size: u32, i: usize) -> Block
    requires within { i * block_size < length bytes.now }
    requires fits { first + length bytes.now < 2 ^ 64 }
    ensures { result ≡ placed_block first bytes.now block_size i }
{
    let block_size = block_size as usize;
    let start = i * block_size;
    let rest = &bytes[start..];
    let cut = &rest[..block_size.min(rest.len())];
    Block {
        offset: first + start as u64,
        size: cut.len() as u32,
        hash: Sha256::digest(cut),
    }
}
