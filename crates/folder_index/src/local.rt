//! This device's records by their sequences, and the blocks of its live files by their digests.
ghost use Rattle.std.specs.Prelude.{◌≡◌, ◌+◌, ◌<◌, ◌^◌, ℕ, [], IfSome, IsTrue, MatchOption, OnErr, OnOk, false, length, option_copied, option_map, true};
ghost use Rattle.std.specs.FinMap.{contains_key, get};
ghost use Rattle.folder_index.specs.Digests.{HasNone};
ghost use Rattle.folder_index.specs.Latest.{AreRising};
ghost use Rattle.folder_index.specs.Locals.{AreFiled, AreKept, all_local, has_digest, live_blocks, no_local, with_exchanged, with_filed, with_prepared, without_filed, without_local, without_prepared};
ghost use Rattle.folder_index.specs.Numbers.{number_of, other_number_of};

use crate::latest::Latest;
use crate::numbers::Numbers;
use crate::{ByDigest, BySequence};
use std::alloc::{AllocError, Global};
use sync_record::{Block, Kind, Record};

/// This device's records, and the places of the blocks of the live files among them.
#[derive(Drop)]
pub(crate) struct Local {
    pub(crate) records: BySequence,
    pub(crate) places: ByDigest,
    // The numbers under which the blocks are.
    pub(crate) numbers: Numbers,
    // Records that were put last, which are not among these yet, and neither are the places of their blocks.
    pub(crate) latest: Latest,
}

impl Local {
    /// No records. Does not allocate. O(1).
    pub(crate) fn new(alloc: Global) -> Local
        ensures { result ≡ no_local }
    {
        Local {
            records: BySequence::new(alloc),
            places: ByDigest::new(alloc),
            numbers: Numbers::new(alloc),
            latest: Latest::new(alloc),
        }
    }

    /// Files a record under its sequence, which no record has, and the blocks of a live file. Returns `Err` only if out of
    /// memory, and then nothing changes. O(log n + b log m) for n records, b blocks of the file and m in all.
    pub(crate) fn file(&mut self, announced: &Record) -> Result<(), AllocError>
        requires unused { HasNone (number_of self.old.numbers announced.now.sequence) self.old.places }
        ensures ok { OnOk result (self.new ≡ with_filed announced.now self.old) }
        ensures err { OnErr result (self.new ≡ self.old) }
    {
        let number = self.numbers.number(announced.sequence());
        let copied = announced.copy()?;
        self.places.add(number, live_blocks(announced))?;
        if self.records.insert(copied).is_err() {
            self.places.remove(number, live_blocks(announced));
            return Err(AllocError);
        }
        Ok(())
    }

    /// Takes out the record of a sequence, and the blocks of a live file, if it was put last or is filed. Does not allocate.
    /// O(log n + b log m + k) for n records, b blocks of the file, m in all and k records that were put last.
    pub(crate) fn take_out(&mut self, sequence: u64)
        requires { sequence < 2 ^ 63 }
        ensures { self.new ≡ without_local sequence self.old }
    {
        self.latest.remove(sequence);
        self.unfile(sequence);
    }

    /// Takes out the record that is filed under a sequence, and the blocks of a live file. Does not allocate.
    /// O(log n + b log m) for n records, b blocks of the file and m in all.
    pub(crate) fn unfile(&mut self, sequence: u64)
        requires { sequence < 2 ^ 63 }
        ensures { self.new ≡ without_filed sequence self.old }
    {
        if let Some(taken) = self.records.get(sequence) {
            let number = self.numbers.number(sequence);
            self.places.remove(number, live_blocks(taken));
        }
        self.records.remove(sequence);
    }

    /// Puts the blocks of a record that is to take the place of the one of its sequence beside those of that one. Returns
    /// `Err` only if out of memory, and then nothing changes. O(log n + b log m) for n records, b blocks of the file and m in
    /// all.
    pub(crate) fn prepare(&mut self, announced: &Record) -> Result<(), AllocError>
        requires { HasNone (other_number_of self.old.numbers announced.now.sequence) self.old.places }
        ensures ok { OnOk result (self.new ≡ with_prepared announced.now self.old) }
        ensures err { OnErr result (self.new ≡ self.old) }
    {
        let number = self.numbers.other_number(announced.sequence());
        self.places.add(number, live_blocks(announced))?;
        if self.numbers.keep(announced.sequence()).is_err() {
            self.places.remove(number, live_blocks(announced));
            return Err(AllocError);
        }
        Ok(())
    }

    /// Takes the blocks of a record that was prepared away again. Does not allocate. O(b log m) for b blocks of the file and m
    /// in all.
    pub(crate) fn unprepare(&mut self, announced: &Record)
        ensures { self.new ≡ without_prepared announced.now self.old }
    {
        let number = self.numbers.other_number(announced.sequence());
        self.places.remove(number, live_blocks(announced));
    }

    /// Puts a record that was prepared in place of the one of its sequence, and takes away the blocks of that one. Does not
    /// allocate. O(log n + b log m) for n records, b blocks of the old file and m in all.
    pub(crate) fn exchange(&mut self, announced: Record)
        requires prepared { IsTrue (contains_key self.old.numbers announced.sequence) }
        requires present { IsTrue (contains_key self.old.records announced.sequence) }
        ensures { self.new ≡ with_exchanged announced self.old }
    {
        let sequence = announced.sequence();
        if let Some(replaced) = self.records.get(sequence) {
            let number = self.numbers.number(sequence);
            self.places.remove(number, live_blocks(replaced));
        }
        self.numbers.turn(sequence);
        if self.records.insert(announced).is_err() {
            unreachable!()
        }
    }
}

impl Local {
    /// The record of a sequence, if there is one. O(log n + k) for n records and k that were put last.
    pub(crate) fn get(&self, sequence: u64) -> Option<&Record>
        requires { AreRising self.now.latest.records }
        ensures { option_copied result ≡ get (all_local self.now) sequence }
    {
        match self.latest.get(sequence) {
            Some(announced) => Some(announced),
            None => self.records.get(sequence),
        }
    }

    /// A block with this digest of a live file that is filed: the sequence of the file, and the place of the block among its
    /// blocks; `None` where there is none. O(log n + log m) for n records and m blocks in all, and O(log n) more for each block
    /// whose digest only begins with the same eight bytes.
    pub(crate) fn find(&self, hash: &[u8; 32]) -> Option<(u64, usize)>
        requires { AreFiled (number_of self.now.numbers) self.now.records self.now.places }
        ensures { MatchOption result
            ((q i : ℕ) → has_digest self.now.records hash.now q i ≡ false)
            (λ p. has_digest self.now.records hash.now p.0 p.1 ≡ true) }
    {
        for (_, number, i) in self.places.candidates(hash) {
            let sequence = number / 2;
            if self.has_digest(sequence, *i, hash) {
                return Some((sequence, *i));
            }
        }
        None
    }

    /// Whether the block at this place of the live file that is filed under a sequence has this digest. O(log n) for n records.
    fn has_digest(&self, sequence: u64, i: usize, hash: &[u8; 32]) -> bool
        ensures { result ≡ has_digest self.now.records hash.now sequence i }
    {
        let Some(announced) = self.records.get(sequence) else {
            return false;
        };
        match live_blocks(announced).get(i) {
            Some(block) => block.hash == *hash,
            None => false,
        }
    }

    /// Files the first of the records that were put last. Returns `Err` only if out of memory, and then nothing changes.
    /// O(log n + b log m + k) for n records, b blocks of the file, m in all and k records that were put last.
    fn settle_first(&mut self) -> Result<(), AllocError>
        requires kept { AreKept self.old }
        requires some { 0 < length self.old.latest.records }
        ensures kept { AreKept self.new }
        ensures all { all_local self.new ≡ all_local self.old }
        ensures promised { self.new.latest.promised ≡ self.old.latest.promised }
        ensures fewer { OnOk result
            (length self.new.latest.records + 1 ≡ length self.old.latest.records) }
    {
        let Some(first) = self.latest.records().first() else {
            unreachable!()
        };
        let first = first.copy()?;
        self.file(&first)?;
        self.latest.remove_first();
        Ok(())
    }

    /// Files the records that were put last. Returns `Err` only if out of memory, and then some of them may be filed.
    /// O(k log n + b log m + k^2) for n records, k that were put last, b blocks of these and m in all.
    pub(crate) fn settle(&mut self) -> Result<(), AllocError>
        requires { AreKept self.old }
        ensures kept { AreKept self.new }
        ensures all { all_local self.new ≡ all_local self.old }
        ensures promised { self.new.latest.promised ≡ self.old.latest.promised }
        ensures settled { OnOk result (self.new.latest.records ≡ []) }
    {
        while !self.latest.records().is_empty() {
            self.settle_first()?;
        }
        Ok(())
    }
}

/// The blocks of a live file; none of another record. O(1).
pub(crate) fn live_blocks(announced: &Record) -> &[Block]
    ensures { result.now ≡ live_blocks announced.now }
{
    if !announced.is_deleted() && announced.kind() == Kind::File {
        announced.blocks()
    } else {
        &[]
    }
}

/// The sequence of a record, if there is one. O(1).
pub(crate) fn sequence_of(announced: Option<&Record>) -> Option<u64>
    ensures sequence { result ≡ option_map (λ r. r.sequence) (option_copied announced.entry) }
    ensures fits { IfSome result (λ q. q < 2 ^ 63) }
{
    match announced {
        Some(announced) => Some(announced.sequence()),
        None => None,
    }
}
