//! A file put together from its blocks, each checked by size and SHA-256 digest; once it is whole it may be committed.
ghost use Rattle.std.specs.Prelude.{◌≡◌, ◌↔◌, ◌<◌, ◌&&◌, ◌==◌, [], IfOk, IfErr, IsOk, IsTrue, IfSome, false, length, replicate, slice_get};
ghost use Rattle.sha2.specs.Sha256.{sha256};
ghost use Rattle.sync_record.specs.Assemblies.{IsAssembled, is_complete, is_plain, nothing_placed, put_answer, with_put};
ghost use Rattle.sync_record.specs.Records.{is_live_file};
ghost use Rattle.sync_record.specs.Validity.{is_valid};

use crate::{Put, Record};
use sha2::{Digest, Sha256};
use std::alloc::{AllocError, Global};
use std::marker::Model;
use sync_blocks::Block;

/// A file that is put together from its blocks. Contracts see what it is to be, and of each block whether it was put.
#[derive(Debug, Drop)]
pub struct Assembly {
    target: Record,
    placed: Vec<bool>,
}

impl Model for Assembly {
    ghost use Rattle.sync_record.specs.Assemblies.{Assembling, IsAssembling};

    ghost Value = { Assembling };

    ghost view = { λ a. record { target = a.target; placed = a.placed.items } };

    ghost invariant = { λ a. IsAssembling (record { target = a.target; placed = a.placed.items }) };
}

impl Assembly {
    /// Begins to put a valid live file together: no block was put. Returns `Err` if the marks of the blocks could not be
    /// allocated, and never if the file has no blocks. O(n) for n blocks.
    pub fn new(alloc: Global, target: Record) -> Result<Assembly, AllocError>
        requires { IsTrue (is_valid target && is_live_file target) }
        ensures value { IfOk result (λ a. a ≡ nothing_placed target) }
        ensures free { target.blocks ≡ [] → IsOk result }
    {
        let placed = none_placed(alloc, target.blocks().len())?;
        Ok(Assembly { target, placed })
    }

    /// What it is to be. O(1).
    pub fn target(&self) -> &Record
        ensures { result.now ≡ self.now.target }
    {
        &self.target
    }

    /// Puts bytes as a block, which must be one of the target's: `WrongSize` if they are not as many as the block has,
    /// otherwise `WrongHash` if their SHA-256 digest is not the block's, and otherwise `Ok`. Only `Ok` changes anything.
    /// Does not allocate. O(n) for n bytes, of as many as the block has; else O(1).
    pub fn put(&mut self, block: usize, bytes: &[u8]) -> Put
        requires { block < length self.old.target.blocks }
        ensures answer { IfSome (slice_get self.old.target.blocks block) (λ b. result ≡ put_answer b bytes.now) }
        ensures placed { self.new ≡ with_put result block self.old }
    {
        if !has_size(&self.target.blocks()[block], bytes) {
            return Put::WrongSize;
        }
        self.put_hashed(block, bytes, &Sha256::digest(bytes))
    }

    /// As [`put`](Assembly::put), of bytes whose SHA-256 digest is known: blocks may be hashed in other threads before. Does not
    /// allocate. O(1).
    pub fn put_hashed(&mut self, block: usize, bytes: &[u8], digest: &[u8; 32]) -> Put
        requires block { block < length self.old.target.blocks }
        requires digest { digest.now ≡ sha256 bytes.now }
        ensures answer { IfSome (slice_get self.old.target.blocks block) (λ b. result ≡ put_answer b bytes.now) }
        ensures placed { self.new ≡ with_put result block self.old }
    {
        let answer = try_block(&self.target.blocks()[block], bytes, digest);
        if let Put::Ok = answer {
            self.placed[block] = true;
        }
        answer
    }

    /// The file, exactly if every block was put; otherwise the assembly as it was. Does not allocate. O(n) for n blocks.
    pub fn done(self) -> Result<Assembled, Assembly>
        ensures exactly { IsOk result ↔ IsTrue (is_complete self) }
        ensures ok { IfOk result (λ file. file ≡ self.target) }
        ensures err { IfErr result (λ a. a ≡ self) }
    {
        if self.placed.iter().all(|placed| *placed) {
            let Assembly { target, .. } = self;
            Ok(Assembled { target })
        } else {
            Err(self)
        }
    }
}

// The marks of this many blocks, of which none was put. Does not allocate if there is no block.
fn none_placed(alloc: Global, blocks: usize) -> Result<Vec<bool>, AllocError>
    ensures value { IfOk result (λ placed. placed.items ≡ replicate blocks false) }
    ensures free { blocks ≡ 0 → IsOk result }
{
    if blocks == 0 {
        return Ok(Vec::new(alloc));
    }
    Vec::from_elem(alloc, false, blocks)
}

// Whether the bytes are as many as the block has.
fn has_size(block: &Block, bytes: &[u8]) -> bool
    ensures { result ≡ (length bytes.now == block.now.size) }
{
    bytes.len() as u64 == u64::from(block.size)
}

// What the put of the bytes, which have this digest, as the block comes to.
fn try_block(block: &Block, bytes: &[u8], digest: &[u8; 32]) -> Put
    requires { digest.now ≡ sha256 bytes.now }
    ensures { result ≡ put_answer block.now bytes.now }
{
    if !has_size(block, bytes) {
        return Put::WrongSize;
    }
    if *digest != block.hash {
        return Put::WrongHash;
    }
    Put::Ok
}

/// A target that may be committed: a file of which every block was put, a directory or a deletion. Of each block some
/// bytes have the size and the digest. Only [`Assembly::done`] and [`Assembled::plain`] make one; it may be copied and
/// kept, and one that is dropped commits nothing.
#[derive(Debug, Drop)]
pub struct Assembled {
    target: Record,
}

impl Model for Assembled {
    ghost use Rattle.sync_record.specs.Records.{FileRecord};
    ghost use Rattle.sync_record.specs.Assemblies.{IsAssembled};

    ghost Value = { FileRecord };

    ghost view = { λ a. a.target };

    ghost invariant = { λ a. IsAssembled a.target };
}

impl Assembled {
    /// A deletion or a directory, of which there is nothing to put. O(1).
    pub fn plain(target: Record) -> Assembled
        requires { IsTrue (is_plain target) }
        ensures { result ≡ target }
    {
        Assembled { target }
    }

    /// The target. O(1).
    pub fn target(&self) -> &Record
        ensures value { result.now ≡ self.now }
        ensures assembled { IsAssembled self.now }
    {
        &self.target
    }

    /// The same once more, in the memory of this one. Does not allocate. Returns `Err` only if the target already has
    /// 2^63 - 1 copies. O(1).
    pub fn copy(&self) -> Result<Assembled, AllocError>
        ensures { IfOk result (λ a. a ≡ self.now) }
    {
        Ok(Assembled {
            target: self.target.copy()?,
        })
    }

    /// Uses it up, and gives the target. O(1).
    pub fn into_target(self) -> Record
        ensures { result ≡ self }
    {
        let Assembled { target } = self;
        target
    }
}

impl PartialEq for Assembled {
    ghost use Rattle.std.specs.Cmp.{partial_equiv_from_equiv};
    ghost use Rattle.sync_record.specs.Same.{same_record, same_record_equiv};

    ghost eq = { same_record };

    ghost laws = { partial_equiv_from_equiv same_record_equiv };

    /// Whether both have the same target. Does not allocate. O(n), as the comparison of records.
    fn eq(&self, other: &Assembled) -> bool {
        self.target == other.target
    }
}

impl Eq for Assembled {
    ghost use Rattle.sync_record.specs.Same.{same_record_equiv};

    ghost laws = { same_record_equiv };
}
