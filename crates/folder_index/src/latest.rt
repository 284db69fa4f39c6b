//! This device's records that were put last.
ghost use Rattle.std.specs.Prelude.{◌≡◌, ◌+◌, ◌-◌, ◌<◌, ◌++◌, ◌∷◌, [], OnErr, OnOk, drop, find, length, nat_lt, option_copied};
ghost use Rattle.std.specs.List.{list_all};
ghost use Rattle.folder_index.specs.Latest.{is_at, none_waiting, without_sequence};

use std::alloc::{AllocError, Global};
use std::marker::Model;
use sync_record::Record;

/// Records, and room for more that is promised: to put one there does not allocate. Contracts see the records, and for how
/// many more there is to be room.
#[derive(Drop)]
pub(crate) struct Latest {
    records: Vec<Record>,
    promised: usize,
}

impl Model for Latest {
    ghost use Rattle.folder_index.specs.Latest.{Waiting, coded_waiting};
    ghost use Rattle.std.specs.Prelude.{◌+◌, ◌≤◌, vec_capacity, vec_len};

    ghost Value = { Waiting };

    ghost coded = { coded_waiting };

    ghost view = { λ f. record { records = f.records.items; promised = f.promised } };

    ghost invariant = { λ f. vec_len f.records + f.promised ≤ vec_capacity f.records };
}

impl Latest {
    /// No records, and no room that is promised. Does not allocate. O(1).
    pub(crate) fn new(alloc: Global) -> Latest
        ensures { result ≡ none_waiting }
    {
        Latest {
            records: Vec::new(alloc),
            promised: 0,
        }
    }

    /// The records. O(1).
    pub(crate) fn records(&self) -> &[Record]
        ensures { result.now ≡ self.now.records }
    {
        self.records.as_slice()
    }

    /// The record of a sequence, if there is one. O(k) for k records.
    pub(crate) fn get(&self, sequence: u64) -> Option<&Record>
        ensures { option_copied result ≡ find (is_at sequence) self.now.records }
    {
        self.records
            .iter()
            .find(|announced| announced.sequence() == sequence)
    }

    /// Whether each record has a lesser sequence. O(k) for k records.
    pub(crate) fn are_below(&self, sequence: u64) -> bool
        ensures { result ≡ list_all (λ r. nat_lt r.sequence sequence) self.now.records }
    {
        self.records
            .iter()
            .all(|announced| announced.sequence() < sequence)
    }

    /// Promises room for one more. Returns `Err` only if out of memory, and then nothing changes. O(1), amortized.
    pub(crate) fn reserve(&mut self) -> Result<(), AllocError>
        ensures ok { OnOk result (self.new ≡ record self.old { promised = self.old.promised + 1 }) }
        ensures err { OnErr result (self.new ≡ self.old) }
    {
        let promised = self.promised.checked_add(1).ok_or(AllocError)?;
        self.records.reserve(promised)?;
        self.promised = promised;
        Ok(())
    }

    /// Takes back the promise of room for one. Does not allocate. O(1).
    pub(crate) fn release(&mut self)
        requires { 0 < self.old.promised }
        ensures { self.new ≡ record self.old { promised = self.old.promised - 1 } }
    {
        self.promised -= 1;
    }

    /// Puts a record after the others, in room that is promised. Does not allocate. O(1).
    pub(crate) fn push(&mut self, announced: Record)
        requires { 0 < self.old.promised }
        ensures { self.new
            ≡ record { records = self.old.records ++ announced ∷ []; promised = self.old.promised - 1 } }
    {
        self.records.push_reserved(announced);
        self.promised -= 1;
    }

    /// Takes the first record away. Does not allocate. O(k) for k records.
    pub(crate) fn remove_first(&mut self)
        requires { 0 < length self.old.records }
        ensures { self.new ≡ record self.old { records = drop 1 self.old.records } }
    {
        drop(self.records.remove(0));
    }

    /// Takes the record of a sequence away, if there is one. Does not allocate. O(k) for k records.
    pub(crate) fn remove(&mut self, sequence: u64)
        ensures { self.new ≡ record self.old { records = without_sequence sequence self.old.records } }
    {
        self.records
            .retain(|announced| announced.sequence() != sequence);
    }
}
