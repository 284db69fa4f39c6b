//! What a scan finds at a name: a directory, or a file's size and block list; and its time of modification.
ghost use Rattle.std.specs.Prelude.{◌≡◌, ℕ, [], IfOk, IsOk};
ghost use Rattle.folder_core.specs.Steps.{is_recordable};
ghost use Rattle.folder_core.specs.declared.finding.FoundContent.TheVariants.{Directory, File};

use bep_messages::Items;
use std::alloc::AllocError;
use sync_blocks::{Block, is_block_size, tiles};

/// What a scan finds at a name.
#[derive(Debug, PartialEq, Eq, Drop)]
pub enum FoundContent {
    Directory,
    File {
        /// In bytes, less than 2^63.
        size: u64,
        /// In bytes.
        block_size: u32,
        /// They make up the file, as those of a valid record do.
        blocks: Items<Block>,
    },
}

/// What a scan finds at a name, and when it was modified.
#[derive(Debug, PartialEq, Eq, Drop)]
pub struct Finding {
    pub content: FoundContent,
    /// Whole Unix seconds.
    pub modified_s: i64,
    /// The nanoseconds after them.
    pub modified_ns: i32,
}

impl FoundContent {
    /// Whether a scan may find it: a directory, or a file of less than 2^63 bytes with a block size that files may have, which
    /// the blocks make up. Does not allocate. O(n) for n blocks.
    pub fn is_recordable(&self) -> bool
        ensures { result ≡ is_recordable self.now }
    {
        match self {
            FoundContent::Directory => true,
            FoundContent::File {
                size,
                block_size,
                blocks,
            } => {
                *size < 1 << 63
                    && is_block_size(*block_size)
                    && tiles(blocks.as_slice(), *size, *block_size)
            }
        }
    }

    /// The same content once more. Returns `Err` only if out of memory, and never for a directory or a file without blocks.
    /// O(n) time and memory for n blocks.
    pub fn copy(&self) -> Result<FoundContent, AllocError>
        ensures same { IfOk result (λ content. content ≡ self.now) }
        ensures directory { self.now ≡ Directory → IsOk result }
        ensures no_blocks { (size block_size : ℕ) → self.now ≡ File size block_size [] → IsOk result }
    {
        Ok(match self {
            FoundContent::Directory => FoundContent::Directory,
            FoundContent::File {
                size,
                block_size,
                blocks,
            } => FoundContent::File {
                size: *size,
                block_size: *block_size,
                blocks: blocks.to_items()?,
            },
        })
    }
}

impl Finding {
    /// The same finding once more. Returns `Err` only if out of memory, and never for a directory or a file without blocks.
    /// O(n) time and memory for n blocks.
    pub fn copy(&self) -> Result<Finding, AllocError>
        ensures same { IfOk result (λ finding. finding ≡ self.now) }
        ensures directory { self.now.content ≡ Directory → IsOk result }
        ensures no_blocks { (size block_size : ℕ) →
            self.now.content ≡ File size block_size [] → IsOk result }
    {
        Ok(Finding {
            content: self.content.copy()?,
            modified_s: self.modified_s,
            modified_ns: self.modified_ns,
        })
    }
}
