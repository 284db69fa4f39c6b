//! The numbers under which the blocks of local records are.
ghost use Rattle.std.specs.Prelude.{◌≡◌, ◌<◌, ◌^◌, IsTrue, OnErr, OnOk, not};
ghost use Rattle.std.specs.FinMap.{contains_key, empty, insert};
ghost use Rattle.folder_index.specs.Numbers.{is_second, number_of, other_number_of};

use std::alloc::{AllocError, Global};
use std::collections::BTreeMap;
use std::marker::Model;

/// Each sequence has two numbers for the blocks of its record, so that the blocks of a record can be put beside those of the
/// one that it takes the place of. Contracts see whether the second number is in use, of the sequences with an entry; of all
/// others it is the first.
#[derive(Drop)]
pub(crate) struct Numbers {
    seconds: BTreeMap<u64, bool>,
}

impl Model for Numbers {
    ghost use Rattle.folder_index.specs.Numbers.{Seconds, coded_seconds};
    ghost use Rattle.std.specs.BTreeMap.{keys};
    ghost use Rattle.std.specs.FinMap.{from_sorted};
    ghost use Rattle.std.specs.List.Sorted.{IsStrictlySortedBy};
    ghost use Rattle.std.specs.Ordering.{nat_cmp};

    ghost Value = { Seconds };

    ghost coded = { coded_seconds };

    ghost view = { λ f. from_sorted f.seconds.entries };

    ghost invariant = { λ f. IsStrictlySortedBy nat_cmp (keys f.seconds) };
}

impl Numbers {
    /// No entries. Does not allocate. O(1).
    pub(crate) fn new(alloc: Global) -> Numbers
        ensures { result ≡ empty }
    {
        Numbers {
            seconds: BTreeMap::new(alloc),
        }
    }

    /// The number of a sequence. O(log n) for n entries.
    pub(crate) fn number(&self, sequence: u64) -> u64
        requires { sequence < 2 ^ 63 }
        ensures { result ≡ number_of self.now sequence }
    {
        2 * sequence + if self.is_second(sequence) { 1 } else { 0 }
    }

    /// The number of a sequence that isn't in use. O(log n) for n entries.
    pub(crate) fn other_number(&self, sequence: u64) -> u64
        requires { sequence < 2 ^ 63 }
        ensures { result ≡ other_number_of self.now sequence }
    {
        2 * sequence + if self.is_second(sequence) { 0 } else { 1 }
    }

    fn is_second(&self, sequence: u64) -> bool
        ensures { result ≡ is_second self.now sequence }
    {
        match self.seconds.get(&sequence) {
            Some(is_second) => *is_second,
            None => false,
        }
    }

    /// Makes an entry for a sequence; its number stays. Returns `Err` only if out of memory, and then nothing changes.
    /// O(log n) for n entries.
    pub(crate) fn keep(&mut self, sequence: u64) -> Result<(), AllocError>
        ensures ok { OnOk result (self.new ≡ insert self.old sequence (is_second self.old sequence)) }
        ensures err { OnErr result (self.new ≡ self.old) }
    {
        let is_second = self.is_second(sequence);
        self.seconds.insert(sequence, is_second)?;
        Ok(())
    }

    /// Takes the other number for a sequence with an entry. Does not allocate. O(log n) for n entries.
    pub(crate) fn turn(&mut self, sequence: u64)
        requires { IsTrue (contains_key self.old sequence) }
        ensures { self.new ≡ insert self.old sequence (not (is_second self.old sequence)) }
    {
        let is_second = self.is_second(sequence);
        if self.seconds.insert(sequence, !is_second).is_err() {
            unreachable!()
        }
    }
}
