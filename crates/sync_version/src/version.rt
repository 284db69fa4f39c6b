//! Version vectors: made from counters, compared, merged, and raised when a device changes a file.
ghost use Rattle.std.specs.Prelude.{◌≡◌, ◌↔◌, [], IfOk, IsOk, IsErrOf, IsTrue};
ghost use Rattle.sync_version.specs.Versions.{IsCanonical, IsGatheredFrom, IsMergeOf, IsRaiseOf, IsRelation, counter};
ghost use Rattle.sync_version.specs.Computed.{from_counters, is_counter_full, merge, raised, relation};

use crate::fault::RaiseFault;
use crate::moment::Moment;
use crate::relation::Relation;
use crate::walk::Walk;
use std::alloc::{AllocError, Global};
use std::cmp::Reverse;
use std::marker::Model;

/// A version vector: how often each device changed a file, as counters under the devices' short ids
/// (Syncthing, "Understanding Synchronization"; Block Exchange Protocol v1, `Vector`).
///
/// Contracts see the pairs of id and counter in strictly rising id, none of the counters 0. Ids and
/// counters are any `u64`; an id that has no counter counts as 0.
#[derive(Debug, Drop)]
pub struct Version {
    counters: Vec<(u64, u64)>,
}

impl Model for Version {
    ghost use Rattle.sync_version.specs.Versions.{Vector, IsCanonical};

    ghost Value = { Vector };

    ghost view = { λ v. v.counters.items };

    ghost invariant = { λ v. IsCanonical v.counters.items };
}

impl Version {
    /// The version of a file that no device has changed: no counter. Does not allocate. O(1).
    pub fn new(alloc: Global) -> Version
        ensures { result ≡ [] }
    {
        Version {
            counters: Vec::new(alloc),
        }
    }

    /// The version with these counters, pairs of id and counter in any order: a 0 is no counter, and of a
    /// repeated id the greatest counts. Returns `Err` if the list could not be allocated, and never for no counter.
    /// O(n log n) time and O(n) memory.
    pub fn from_counters(alloc: Global, counters: &[(u64, u64)]) -> Result<Version, AllocError>
        ensures value { IfOk result (λ v. v ≡ from_counters counters.now) }
        ensures gathered { IfOk result (λ v. IsGatheredFrom counters.now v) }
        ensures free { counters.now ≡ [] → IsOk result }
    {
        let pairs = copied(alloc, counters)?;
        Ok(Version::from_pairs(pairs))
    }

    /// The version with these counters, as [`Version::from_counters`], in the memory of the list itself. Does not
    /// allocate. O(n log n).
    pub fn from_pairs(pairs: Vec<(u64, u64)>) -> Version
        ensures value { result ≡ from_counters pairs.items }
        ensures gathered { IsGatheredFrom pairs.items result }
    {
        let mut kept = pairs;
        kept.retain(|c| c.1 > 0);
        kept.sort_unstable_by_key(|c| (c.0, Reverse(c.1)));
        kept.dedup_by_key(|c| c.0);
        Version { counters: kept }
    }

    /// The pairs of id and counter, in strictly rising id, none of the counters 0. O(1).
    pub fn counters(&self) -> &[(u64, u64)]
        ensures value { result.now ≡ self.now }
        ensures canonical { IsCanonical result.now }
    {
        &self.counters
    }

    /// The counter at an id, 0 where it has none. O(log n).
    pub fn counter(&self, id: u64) -> u64
        ensures { result ≡ counter self.now id }
    {
        match self.counters.binary_search_by_key(&id, |c| c.0) {
            Ok(at) => self.counters[at].1,
            Err(_) => 0,
        }
    }

    /// How this version compares to the other. Does not allocate. O(n + m), one walk over both.
    pub fn relation(&self, other: &Version) -> Relation
        ensures value { result ≡ relation self.now other.now }
        ensures holds { IsRelation result self.now other.now }
    {
        let mut covers = true;
        let mut covered = true;
        for step in self.beside(other) {
            covers = covers && step.theirs <= step.ours;
            covered = covered && step.ours <= step.theirs;
        }
        Relation::by_covering(covers, covered)
    }

    /// The version with the greater of each counter of both, which has seen what either has. Returns `Err` if
    /// it could not be allocated, and never if neither has a counter. O(n + m) time, one walk over both, and one
    /// allocation.
    pub fn merge(&self, other: &Version) -> Result<Version, AllocError>
        ensures value { IfOk result (λ v. v ≡ merge self.now other.now) }
        ensures greatest { IfOk result (λ v. IsMergeOf self.now other.now v) }
        ensures free { self.now ≡ [] → other.now ≡ [] → IsOk result }
    {
        merged(*self.counters.allocator(), self.beside(other))
    }

    /// The version after a change by the device of this short id at this moment: its counter becomes one
    /// more, or the moment if that is greater. Fails with `CounterFull` if its counter is 2^64 - 1, and
    /// otherwise with `OutOfMemory` if the version could not be allocated. O(n) time, one allocation.
    pub fn raised(&self, id: u64, moment: Moment) -> Result<Version, RaiseFault>
        ensures value { IfOk result (λ v. v ≡ raised self.now id moment) }
        ensures raises { IfOk result (λ v. IsRaiseOf self.now id moment v) }
        ensures full { IsErrOf result RaiseFault.CounterFull ↔ IsTrue (is_counter_full self.now id) }
    {
        let next = self
            .counter(id)
            .checked_add(1)
            .ok_or(RaiseFault::CounterFull)?;
        let raised = [(id, next.max(moment.seconds()))];
        let walk = Walk {
            ours: self.counters.as_slice(),
            theirs: &raised,
        };
        Ok(merged(*self.counters.allocator(), walk)?)
    }

    /// The same version once more. Returns `Err` if it could not be allocated, and never if it has no counter. O(n) time
    /// and memory.
    pub fn copy(&self) -> Result<Version, AllocError>
        ensures value { IfOk result (λ v. v ≡ self.now) }
        ensures free { self.now ≡ [] → IsOk result }
    {
        Ok(Version {
            counters: copied(*self.counters.allocator(), &self.counters)?,
        })
    }

    // Both versions' counters, side by side.
    fn beside<'a>(&'a self, other: &'a Version) -> Walk<'a>
        ensures ours { result.ours.now ≡ self.now }
        ensures theirs { result.theirs.now ≡ other.now }
    {
        Walk {
            ours: self.counters.as_slice(),
            theirs: other.counters.as_slice(),
        }
    }
}

// These pairs in a list of their own. Allocates once, and not at all if there is no pair.
fn copied(alloc: Global, pairs: &[(u64, u64)]) -> Result<Vec<(u64, u64)>, AllocError>
    ensures value { IfOk result (λ v. v.items ≡ pairs.now) }
    ensures free { pairs.now ≡ [] → IsOk result }
{
    let mut copy = Vec::with_capacity(alloc, pairs.len())?;
    copy.extend_from_slice(pairs)?;
    Ok(copy)
}

// The greater of each two counters of a walk.
fn merged(alloc: Global, walk: Walk<'_>) -> Result<Version, AllocError>
    ensures value { IfOk result (λ v. v ≡ merge walk.entry.ours.now walk.entry.theirs.now) }
    ensures free { walk.entry.ours.now ≡ [] → walk.entry.theirs.now ≡ [] → IsOk result }
{
    let mut counters = Vec::with_capacity(alloc, walk.ours.len() + walk.theirs.len())?;
    for step in walk {
        counters.push((step.id, step.ours.max(step.theirs)))?;
    }
    Ok(Version { counters })
}

impl PartialEq for Version {
    ghost use Rattle.std.specs.Cmp.{partial_equiv_from_equiv};
    ghost use Rattle.sync_version.specs.Computed.{same_version, same_version_equiv};

    ghost eq = { same_version };

    ghost laws = { partial_equiv_from_equiv same_version_equiv };

    /// Whether both have the same counters. O(n).
    fn eq(&self, other: &Version) -> bool {
        self.counters == other.counters
    }
}

impl Eq for Version {
    ghost use Rattle.sync_version.specs.Computed.{same_version_equiv};

    ghost laws = { same_version_equiv };
}
