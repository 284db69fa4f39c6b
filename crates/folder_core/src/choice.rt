//! The choice of the best among the entries of one name: [`PlainFolder`](crate::PlainFolder) makes it at each read, and an index
//! that keeps it makes it once for each change.
ghost use Rattle.std.specs.Prelude.{◌≡◌, ◌∷◌, ◌<◌, ◌&&◌, [], length, not, IfOk, IfSome, IsTrue, MatchOption, None, option_and_then, option_copied, slice_get};
ghost use Rattle.std.specs.List.{list_any};
ghost use Rattle.sync_record.specs.Contents.{same_content};
ghost use Rattle.sync_record.specs.Preference.{is_preferred};
ghost use Rattle.sync_record.specs.Validity.{is_valid};
ghost use Rattle.sync_version.specs.Computed.{dominates, same_version};
ghost use Rattle.folder_core.specs.Plain.{devices_with, is_undominated};
ghost use Rattle.folder_core.specs.PlainPulls.{best_in};
ghost use Rattle.folder_core.specs.PlainReads.{is_needed_over};

use crate::Announcement;
use std::alloc::{AllocError, Global};
use sync_record::{DeviceId, Record, preferred, same_content};
use sync_version::Relation;

/// Where among the entries of one name the best is: it is valid, no valid one dominates it, and it is preferred to every
/// other such one; `None` if there is none. Does not allocate. O(k^2) for k entries.
pub fn place_of_best(entries: &[Announcement]) -> Option<usize>
    ensures best { option_and_then (λ i. slice_get entries.now i) result ≡ best_in entries.now }
    ensures place { IfSome result (λ i. i < length entries.now) }
{
    if let [only] = entries {
        return place_alone(only);
    }
    let mut place = None;
    let mut best: Option<&Announcement> = None;
    for (i, entry) in entries.iter().enumerate() {
        if is_undominated(entries, &entry.record) && outranks(entry, best) {
            place = Some(i);
            best = Some(entry);
        }
    }
    place
}

/// The same of a name's only entry: it is the best where it is valid. O(1).
fn place_alone(only: &Announcement) -> Option<usize>
    ensures best { option_and_then (λ i. slice_get (only.now ∷ []) i) result ≡ best_in (only.now ∷ []) }
    ensures place { IfSome result (λ i. i < length (only.now ∷ [])) }
{
    if only.record.is_valid() {
        Some(0)
    } else {
        None
    }
}

/// Whether the entry is preferred to the other, or there is no other.
fn outranks(entry: &Announcement, other: Option<&Announcement>) -> bool
    ensures { MatchOption (option_copied other.entry) (IsTrue result)
        (λ e. result ≡ is_preferred (entry.now.device, entry.now.record) (e.device, e.record)) }
{
    match other {
        Some(other) => preferred(
            (&entry.record, &entry.device),
            (&other.record, &other.device),
        ),
        None => true,
    }
}

fn is_undominated(entries: &[Announcement], candidate: &Record) -> bool
    ensures { result ≡ (is_valid candidate.now && not
        (list_any (λ f. is_valid f.record && dominates f.record.version candidate.now.version)
        entries.now)) }
{
    candidate.is_valid() && !is_dominated(entries, candidate)
}

fn is_dominated(entries: &[Announcement], candidate: &Record) -> bool
    ensures { result ≡ list_any (λ f.
        is_valid f.record && dominates f.record.version candidate.now.version) entries.now }
{
    entries
        .iter()
        .any(|entry| dominates(&entry.record, candidate))
}

/// Whether the first record is valid, and its version dominates the other's.
fn dominates(a: &Record, b: &Record) -> bool
    ensures { result ≡ (is_valid a.now && dominates a.now.version b.now.version) }
{
    a.version().relation(b.version()) == Relation::Dominates && a.is_valid()
}

/// The devices whose valid record has the version and the content of the best, in the order of the entries of its name.
/// Returns `Err` only if out of memory. O(k) for k entries.
pub fn devices_with(
    alloc: Global,
    entries: &[Announcement],
    best: &Record,
) -> Result<Vec<DeviceId>, AllocError>
    ensures { IfOk result (λ ds. ds.items ≡ devices_with entries.now best.now) }
{
    entries
        .iter()
        .filter(|entry| has(&entry.record, best))
        .map(|entry| entry.device)
        .collect(alloc)
}

/// Whether the first record is valid and has the version and the content of the other.
fn has(a: &Record, b: &Record) -> bool
    ensures { result ≡ (is_valid a.now && same_version a.now.version b.now.version && same_content
        a.now b.now) }
{
    a.version() == b.version() && a.is_valid() && same_content(a, b)
}

/// Whether a best is needed over this local record: its version is another, or it isn't deleted where there is none. Does
/// not allocate. O(v) for v counters.
pub fn is_needed_over(own: Option<&Record>, best: &Record) -> bool
    ensures { result ≡ is_needed_over (option_copied own.entry) best.now }
{
    match own {
        Some(own) => own.version() != best.version(),
        None => !best.is_deleted(),
    }
}
