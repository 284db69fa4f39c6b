//! The ids of the Requests that wait for their Response, 1,024 at most, and the least id that is free.
ghost use Rattle.std.specs.Prelude.{◌≡◌, ◌≢◌, ℕ, pos, ◌+◌, ◌<◌, ◌≤◌, ◌↔◌, [], true, false, length, IfSome, IfNone, IsNone, OnOk, OnErr};
ghost use Rattle.std.specs.Bool.{OnFalse};
ghost use Rattle.bep_session.specs.Ids.{IsLeastFree, closed, is_open, is_positive, max_asks, opened};

use crate::bits::{BITS, Bits, clear, first_zero, is_set, set};
use std::alloc::{AllocError, Global};
use std::collections::BTreeSet;
use std::marker::Model;

/// The most Requests that wait for their Response at one time.
pub const MAX_ASKS: usize = 1_024;

/// The ids of the Requests that wait for their Response. Contracts see them in rising order.
///
/// The least positive id that isn't open is never above 1,024 while fewer than that are open. So a bit for each of the first
/// 1,024 ids finds it, and opens it without memory; only the ids above, which are booked, stand in a set.
///
/// They are the reader's own, which tells by them whether a Response answers a Request. What came of each Request is in the ask book of
/// `peer_asks`, which the threads that wait share under its lock.
#[derive(Debug, Drop)]
pub(crate) struct OpenIds {
    low: Bits,
    above: BTreeSet<i32>,
    /// How many ids are open.
    len: usize,
}

impl Model for OpenIds {
    ghost use Rattle.std.specs.Prelude.{List, ℤ};

    ghost Value = { List ℤ };

    ghost use Rattle.bep_session.specs.Ids.{IsCounted, ids_of};

    ghost view = { λ o. ids_of o.low o.above.keys };

    ghost invariant = { λ o. IsCounted o.low o.above.keys o.len };
}

impl OpenIds {
    /// No id is open. Does not allocate.
    pub(crate) fn new(alloc: Global) -> OpenIds
        ensures { result ≡ [] }
    {
        OpenIds {
            low: [0; 16],
            above: BTreeSet::new(alloc),
            len: 0,
        }
    }

    /// O(1).
    pub(crate) fn len(&self) -> usize
        ensures { result ≡ length self.now }
    {
        self.len
    }

    /// O(1), or O(log n) for an id above 1,024.
    pub(crate) fn contains(&self, id: i32) -> bool
        ensures { result ≡ is_open self.now id }
    {
        match low_place(id) {
            Some(k) => is_set(&self.low, k),
            None => self.above.contains(&id),
        }
    }

    /// Opens the least positive id that isn't open; `None` where [`MAX_ASKS`] are, and then nothing has changed. Does not allocate.
    /// O(1).
    pub(crate) fn open_least(&mut self) -> Option<i32>
        ensures least { IfSome result (IsLeastFree self.old) }
        ensures opened { IfSome result (λ id. self.new ≡ opened self.old id) }
        ensures none { IsNone result ↔ (max_asks ≤ length self.old) }
        ensures unchanged { IfNone result (self.new ≡ self.old) }
    {
        if self.len >= MAX_ASKS {
            return None;
        }
        let k = first_zero(&self.low)?;
        set(&mut self.low, k);
        self.len += 1;
        Some(k as i32 + 1)
    }

    /// Opens an id. Returns `Err` if allocation fails, which it may only for an id above 1,024; then nothing has changed. O(1), or
    /// O(log n) for an id above 1,024.
    pub(crate) fn insert(&mut self, id: i32) -> Result<(), AllocError>
        requires positive { is_positive id ≡ true }
        requires free { is_open self.old id ≡ false }
        requires room { length self.old < max_asks }
        ensures ok { OnOk result (self.new ≡ opened self.old id) }
        ensures above { OnErr result ((k : ℕ) → k ≤ max_asks → id ≢ pos k) }
        ensures err { OnErr result (self.new ≡ self.old) }
    {
        match low_place(id) {
            Some(k) => set(&mut self.low, k),
            None => {
                if self.above.insert(id).is_err() {
                    return Err(AllocError);
                }
            }
        }
        self.len += 1;
        Ok(())
    }

    /// Frees an id, and returns whether it was open. Does not allocate. O(1), or O(log n) for an id above 1,024.
    pub(crate) fn remove(&mut self, id: i32) -> bool
        ensures was { result ≡ is_open self.old id }
        ensures ids { self.new ≡ closed self.old id }
        ensures absent { OnFalse result (self.new ≡ self.old) }
    {
        let was = match low_place(id) {
            Some(k) => {
                let was = is_set(&self.low, k);
                clear(&mut self.low, k);
                was
            }
            None => self.above.remove(&id),
        };
        if was {
            self.len -= 1;
        }
        was
    }
}

/// The place of the bit of an id, where it has one.
fn low_place(id: i32) -> Option<usize>
    ensures place { IfSome result (λ k. (k < BITS) × (id ≡ pos (k + 1))) }
    ensures none { IfNone result ((k : ℕ) → k < BITS → id ≢ pos (k + 1)) }
{
    if id < 1 || id as usize > BITS {
        return None;
    }
    Some(id as usize - 1)
}
