//! A store that fails one call.
ghost use Rattle.std.specs.Prelude.{◌≡◌, ◌+◌, ◌-◌, ◌^◌, ℕ, min, Option, Some, None, Err, true, false, if◌then◌else◌};
ghost use Rattle.file_store.specs.declared.refusal.StoreRefusal.TheVariants.{StoreFault};
ghost use Rattle.file_store.specs.Failing.{is_next, after_one};
ghost use Rattle.file_store.specs.Refusals.{count_after};
ghost use Rattle.file_store.specs.Trees.{IsTree};

use crate::mem::fault;
use crate::{FileStore, Listing, Stat, StoreRefusal};
use sync_names::SafeName;

/// When a [`FailingStore`] fails its call: before the wrapped store is asked, or after.
#[derive(Clone, Copy, Debug, PartialEq, Eq)]
pub enum FailureTime {
    /// The wrapped store is not asked.
    Before,
    /// The wrapped store does the call, or refuses it, and then the call fails.
    After,
}

/// A store that fails one given call with `StoreFault`, and otherwise does as the store that it wraps. [`FileStore::faults`]
/// is not counted as a call. Each call costs what the wrapped store's does; where it fails before that store is asked, O(1).
#[derive(Drop)]
pub struct FailingStore<S> {
    inner: S,
    left: Option<u64>,
    time: FailureTime,
    faults: u64,
}

impl<S> FailingStore<S> {
    ghost use Rattle.file_store.specs.Failing.{calls_left, failure_time, own_faults, wrapped};

    /// Fails the call after `left` others. Does not allocate.
    pub fn new(inner: S, left: u64, time: FailureTime) -> FailingStore<S>
        ensures inner { wrapped result ≡ inner }
        ensures left { calls_left result ≡ Some left }
        ensures time { failure_time result ≡ time }
        ensures faults { own_faults result ≡ 0 }
    {
        FailingStore {
            inner,
            left: Some(left),
            time,
            faults: 0,
        }
    }

    /// The store that it wraps.
    pub fn into_inner(self) -> S
        ensures { result ≡ wrapped self }
    {
        let FailingStore { inner, .. } = self;
        inner
    }
}

impl<S: FileStore> FileStore for FailingStore<S> {
    ghost use Rattle.file_store.specs.Calls.{Does};
    ghost use Rattle.file_store.specs.Failing.{FailsOne, MayFail, calls_left, own_faults, wrapped};

    ghost keeps = { S.keeps };

    ghost fails = { λ s. MayFail (calls_left s) (S.fails (wrapped s)) };

    ghost tree = { λ s. S.tree (wrapped s) };

    ghost fault_count = { own_faults };

    ghost gives = { λ old call result new. FailsOne old new result (λ answer.
        S.gives (wrapped old) call answer (wrapped new)
        × (S.keeps ≡ true → Does (S.fails (wrapped old)) (S.tree (wrapped old)) call answer (S.tree (wrapped new)))) };

    fn faults(&self) -> u64 {
        // That the wrapped store has a tree is known only after a call of it.
        let _ = self.inner.faults();
        self.faults
    }

    fn list(&mut self) -> Result<Listing, StoreRefusal> {
        let due = is_due(&mut self.left);
        if due && self.time == FailureTime::Before {
            return Err(fail(&self.inner, &mut self.faults));
        }
        let answer = self.inner.list();
        settle(&mut self.faults, due, answer)
    }

    fn stat(&mut self, name: &SafeName) -> Result<Stat, StoreRefusal> {
        let due = is_due(&mut self.left);
        if due && self.time == FailureTime::Before {
            return Err(fail(&self.inner, &mut self.faults));
        }
        let answer = self.inner.stat(name);
        settle(&mut self.faults, due, answer)
    }

    fn read_at(
        &mut self,
        name: &SafeName,
        offset: u64,
        buffer: &mut [u8],
    ) -> Result<usize, StoreRefusal> {
        let due = is_due(&mut self.left);
        if due && self.time == FailureTime::Before {
            return Err(fail(&self.inner, &mut self.faults));
        }
        let answer = self.inner.read_at(name, offset, buffer);
        settle(&mut self.faults, due, answer)
    }

    fn make_temp(&mut self, name: &SafeName) -> Result<(), StoreRefusal> {
        let due = is_due(&mut self.left);
        if due && self.time == FailureTime::Before {
            return Err(fail(&self.inner, &mut self.faults));
        }
        let answer = self.inner.make_temp(name);
        settle(&mut self.faults, due, answer)
    }

    fn write_at(&mut self, name: &SafeName, offset: u64, bytes: &[u8]) -> Result<(), StoreRefusal> {
        let due = is_due(&mut self.left);
        if due && self.time == FailureTime::Before {
            return Err(fail(&self.inner, &mut self.faults));
        }
        let answer = self.inner.write_at(name, offset, bytes);
        settle(&mut self.faults, due, answer)
    }

    fn commit_temp(&mut self, name: &SafeName) -> Result<(), StoreRefusal> {
        let due = is_due(&mut self.left);
        if due && self.time == FailureTime::Before {
            return Err(fail(&self.inner, &mut self.faults));
        }
        let answer = self.inner.commit_temp(name);
        settle(&mut self.faults, due, answer)
    }

    fn drop_temp(&mut self, name: &SafeName) -> Result<(), StoreRefusal> {
        let due = is_due(&mut self.left);
        if due && self.time == FailureTime::Before {
            return Err(fail(&self.inner, &mut self.faults));
        }
        let answer = self.inner.drop_temp(name);
        settle(&mut self.faults, due, answer)
    }

    fn rename(&mut self, from: &SafeName, to: &SafeName) -> Result<(), StoreRefusal> {
        let due = is_due(&mut self.left);
        if due && self.time == FailureTime::Before {
            return Err(fail(&self.inner, &mut self.faults));
        }
        let answer = self.inner.rename(from, to);
        settle(&mut self.faults, due, answer)
    }

    fn remove(&mut self, name: &SafeName) -> Result<(), StoreRefusal> {
        let due = is_due(&mut self.left);
        if due && self.time == FailureTime::Before {
            return Err(fail(&self.inner, &mut self.faults));
        }
        let answer = self.inner.remove(name);
        settle(&mut self.faults, due, answer)
    }

    fn make_dir(&mut self, name: &SafeName) -> Result<(), StoreRefusal> {
        let due = is_due(&mut self.left);
        if due && self.time == FailureTime::Before {
            return Err(fail(&self.inner, &mut self.faults));
        }
        let answer = self.inner.make_dir(name);
        settle(&mut self.faults, due, answer)
    }

    fn remove_dir(&mut self, name: &SafeName) -> Result<(), StoreRefusal> {
        let due = is_due(&mut self.left);
        if due && self.time == FailureTime::Before {
            return Err(fail(&self.inner, &mut self.faults));
        }
        let answer = self.inner.remove_dir(name);
        settle(&mut self.faults, due, answer)
    }
}

/// Whether this call is the one that fails. Counts it.
fn is_due(left: &mut Option<u64>) -> bool
    ensures due { result ≡ is_next left.old }
    ensures counted { left.new ≡ after_one left.old }
{
    match *left {
        Some(0) => {
            *left = None;
            true
        }
        Some(more) => {
            *left = Some(more - 1);
            false
        }
        None => false,
    }
}

/// A fault in place of a call of the wrapped store, which is only asked for its count.
fn fail<S: FileStore>(inner: &S, faults: &mut u64) -> StoreRefusal
    ensures refusal { result ≡ StoreFault }
    ensures counted { faults.new ≡ min (faults.old + 1) (2 ^ 64 - 1) }
    ensures tree { S.keeps ≡ true → IsTree (S.tree inner.now) }
{
    let _ = inner.faults();
    fault(faults)
}

/// The answer of the wrapped store, or a fault in its place where the call is due. A fault is counted.
fn settle<T: Drop>(
    faults: &mut u64,
    due: bool,
    answer: Result<T, StoreRefusal>,
) -> Result<T, StoreRefusal>
    ensures settled { result ≡ (if due then Err StoreFault else answer) }
    ensures counted { faults.new ≡ count_after result faults.old }
{
    if due {
        return Err(fault(faults));
    }
    match answer {
        Err(StoreRefusal::StoreFault) => Err(fault(faults)),
        answer => answer,
    }
}
