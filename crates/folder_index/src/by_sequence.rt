//! Records by sequence number, and the page of those that come after one, limited in records and blocks.
ghost use Rattle.std.specs.Prelude.{◌≡◌, ◌↔◌, ◌<◌, ◌&&◌, ◌||◌, ◌++◌, ◌∷◌, [], ℕ, true, IfOk, IsOk, IsTrue, MatchOption, None, OnErr, OnOk, Some, filter, nat_le, nat_lt, option_copied};
ghost use Rattle.sync_record.specs.Records.{FileRecord};
ghost use Rattle.std.specs.FinMap.{empty, get, insert, remove, values};
ghost use Rattle.folder_core.specs.Reads.{fits_page, max_page_blocks, page_of};
ghost use Rattle.folder_index.specs.Sequences.{IsAdded, IsFull, blocks_in, later_than};

use bep_messages::Items;
use std::alloc::{AllocError, Global};
use std::collections::BTreeMap;
use std::marker::Model;
use std::ops::Bound;
use sync_record::Record;

/// The most blocks in a page of more than one record.
const MAX_PAGE_BLOCKS: usize = 1_000_000;

/// Records by their sequences. Contracts see the map of them.
#[derive(Drop)]
pub struct BySequence {
    alloc: Global,
    records: BTreeMap<u64, Record>,
}

impl Model for BySequence {
    ghost use Rattle.folder_index.specs.Sequences.{Sequenced, AreSequenced, coded_sequenced};
    ghost use Rattle.std.specs.FinMap.{from_sorted};

    ghost Value = { Sequenced };

    ghost coded = { coded_sequenced };

    ghost view = { λ f. from_sorted f.records.entries };

    ghost invariant = { λ f. AreSequenced f.records.entries };
}

impl BySequence {
    /// No records. Does not allocate. O(1).
    pub fn new(alloc: Global) -> BySequence
        ensures { result ≡ empty }
    {
        BySequence {
            alloc,
            records: BTreeMap::new(alloc),
        }
    }

    /// The record of a sequence, if there is one. O(log n) for n records.
    pub fn get(&self, sequence: u64) -> Option<&Record>
        ensures { option_copied result ≡ get self.now sequence }
    {
        self.records.get(&sequence)
    }

    /// Whether each record has a lesser sequence. O(log n) for n records.
    pub fn are_below(&self, sequence: u64) -> bool
        ensures { IsTrue result ↔ ((q : ℕ) (r : FileRecord) → get self.now q ≡ Some r → q < sequence) }
    {
        match self.records.last_key_value() {
            Some((last, _)) => *last < sequence,
            None => true,
        }
    }

    /// Puts a record under its sequence, in place of the one that was there. Returns `Err` only if out of memory, and never
    /// where one was there; then nothing changes. O(log n) for n records.
    pub fn insert(&mut self, announced: Record) -> Result<(), AllocError>
        ensures ok { OnOk result (self.new ≡ insert self.old announced.sequence announced) }
        ensures err { OnErr result (self.new ≡ self.old) }
        ensures absent { OnErr result (get self.old announced.sequence ≡ None) }
    {
        self.records.insert(announced.sequence(), announced)?;
        Ok(())
    }

    /// Takes away the record of a sequence, if there is one. Does not allocate. O(log n) for n records.
    pub fn remove(&mut self, sequence: u64)
        ensures { self.new ≡ remove self.old sequence }
    {
        self.records.remove(&sequence);
    }

    /// The records of greater sequence, in rising sequence: the first `limit` of them, but no more than have 1,000,000 blocks
    /// together, except that one record may have any number; or all where there are fewer. Returns `Err` only if out of
    /// memory. O(log n + p) for n records and p of the page, which are not copied but shared. An empty page does not allocate.
    pub fn page(&self, sequence: u64, limit: usize) -> Result<Items<Record>, AllocError>
        ensures page { IfOk result (λ page. page
            ≡ page_of limit (filter (λ r. nat_lt sequence r.sequence) (values self.now))) }
        ensures none { page_of limit (filter (λ r. nat_lt sequence r.sequence) (values self.now)) ≡ [] →
            IsOk result }
    {
        self.page_with(&[], sequence, limit)
    }

    /// The same of these records and of others, which are given in rising sequence and have greater sequences than these.
    /// O(log n + k + p) for n records, k others and p of the page.
    pub(crate) fn page_with(
        &self,
        others: &[Record],
        sequence: u64,
        limit: usize,
    ) -> Result<Items<Record>, AllocError>
        ensures page { IfOk result (λ page. page ≡ page_of limit
            (later_than sequence (values self.now) ++ later_than sequence others.now)) }
        ensures none { page_of limit
            (later_than sequence (values self.now) ++ later_than sequence others.now) ≡ [] →
            IsOk result }
    {
        let mut page = Vec::new(self.alloc);
        let mut total = 0usize;
        for (_, announced) in self
            .records
            .range((Bound::Excluded(sequence), Bound::Unbounded))
        {
            match add(&mut page, total, limit, announced)? {
                Some(more) => total = more,
                None => return Ok(Items::from_vec(page)),
            }
        }
        for other in others {
            if other.sequence() > sequence {
                match add(&mut page, total, limit, other)? {
                    Some(more) => total = more,
                    None => return Ok(Items::from_vec(page)),
                }
            }
        }
        Ok(Items::from_vec(page))
    }
}

/// Puts a record at the end of a page with so many blocks, and returns how many it has then; `None` where the record doesn't fit.
/// Returns `Err` only if out of memory, and never where the record doesn't fit.
fn add(
    page: &mut Vec<Record>,
    total: usize,
    limit: usize,
    announced: &Record,
) -> Result<Option<usize>, AllocError>
    requires fits { fits_page limit page.old.items ≡ true }
    requires total { total ≡ blocks_in page.old.items }
    ensures added { IfOk result (λ more. MatchOption more
        (IsFull limit page.old.items announced.now page.new.items)
        (λ total. IsAdded limit page.old.items announced.now page.new.items total)) }
    ensures err { OnErr result (fits_page limit (page.old.items ++ announced.now ∷ []) ≡ true) }
{
    let more = total.saturating_add(announced.blocks().len());
    if !fits(page.len() + 1, more, limit) {
        return Ok(None);
    }
    page.push(announced.copy()?)?;
    Ok(Some(more))
}

/// Whether a page may have this many records with this many blocks: one record may have any number.
fn fits(records: usize, blocks: usize, limit: usize) -> bool
    ensures { result ≡ (nat_le records limit &&
        (nat_le blocks max_page_blocks || nat_le records 1)) }
{
    records <= limit && (blocks <= MAX_PAGE_BLOCKS || records <= 1)
}
