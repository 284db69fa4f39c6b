//! Where blocks are, found by their SHA-256 digests: a set ordered by the first eight bytes of these.
ghost use Rattle.std.specs.Prelude.{◌≡◌, OnErr, OnOk};
ghost use Rattle.std.specs.FinSet.{empty};
ghost use Rattle.folder_index.specs.Digests.{AreCandidates, HasNone, start_of, with_blocks, without_blocks};

use std::alloc::{AllocError, Global};
use std::collections::BTreeSet;
use std::collections::btree_set::Range;
use std::marker::Model;
use sync_record::Block;

/// Where blocks are, by the first eight bytes of their SHA-256 digests as a big-endian number. Each block has an owner, the
/// number of a file, and its place among the blocks of the file. An entry takes 24 bytes, beside what the set keeps. Contracts
/// see the set of the entries.
#[derive(Drop)]
pub struct ByDigest {
    places: BTreeSet<(u64, u64, usize)>,
}

impl Model for ByDigest {
    ghost use Rattle.std.specs.List.{All};
    ghost use Rattle.std.specs.FinSet.{from_list};
    ghost use Rattle.folder_index.specs.Digests.{FitsIn64Bits, Places, coded_places};

    ghost Value = { Places };

    ghost coded = { coded_places };

    ghost view = { λ f. from_list f.places.keys };

    ghost invariant = { λ f. All FitsIn64Bits f.places.keys };
}

impl ByDigest {
    /// No blocks. Does not allocate. O(1).
    pub fn new(alloc: Global) -> ByDigest
        ensures { result ≡ empty }
    {
        ByDigest {
            places: BTreeSet::new(alloc),
        }
    }

    /// Adds the blocks of an owner that has none. Returns `Err` only if out of memory, and then nothing changes. O(b log n) for
    /// b blocks and n in all.
    pub fn add(&mut self, owner: u64, blocks: &[Block]) -> Result<(), AllocError>
        requires { HasNone owner self.old }
        ensures ok { OnOk result (self.new ≡ with_blocks owner blocks.now self.old) }
        ensures err { OnErr result (self.new ≡ self.old) }
    {
        for (i, block) in blocks.iter().enumerate() {
            let entry = (start_of(&block.hash), owner, i);
            if self.places.insert(entry).is_err() {
                self.remove(owner, &blocks[..i]);
                return Err(AllocError);
            }
        }
        Ok(())
    }

    /// Takes away the blocks of an owner. Does not allocate. O(b log n) for b blocks and n in all.
    pub fn remove(&mut self, owner: u64, blocks: &[Block])
        ensures { self.new ≡ without_blocks owner blocks.now self.old }
    {
        for (i, block) in blocks.iter().enumerate() {
            self.places.remove(&(start_of(&block.hash), owner, i));
        }
    }

    /// The blocks whose digests begin with the same eight bytes as this one: each with these bytes, its owner and its place, in
    /// this order. O(log n) for n blocks, and O(1) for each that is taken from the iterator.
    pub fn candidates(&self, hash: &[u8; 32]) -> Range<'_, (u64, u64, usize)>
        ensures { AreCandidates (start_of hash.now) self.now result }
    {
        let start = start_of(hash);
        self.places
            .range((start, 0, 0)..=(start, u64::MAX, usize::MAX))
    }
}

/// The first eight bytes of a digest as a big-endian number.
fn start_of(hash: &[u8; 32]) -> u64
    ensures { result ≡ start_of hash.now }
{
    let [a, b, c, d, e, f, g, h, ..] = *hash;
    u64::from_be_bytes([a, b, c, d, e, f, g, h])
}
