//! Older conflict copies, of which only so many are kept.
ghost use Rattle.std.specs.Prelude.{◌≡◌, ◌↔◌, ℕ, IsTrue, List, length, take, true};
ghost use Rattle.file_store.specs.Names.{Name};
ghost use Rattle.file_store.specs.Sequences.{CallsOnly};
ghost use Rattle.sync_pull.specs.Moments.{IsOfPull};
ghost use Rattle.sync_pull.specs.Copies.{AreListedCopies, IsListedCopy, IsRefused, RemovesFiles, TrimsCopies};

use crate::MaxConflicts;
use file_store::laws::listings_are_exact;
use file_store::{FileStore, Gate, GatePlace, Kind, Listed};
use sync_names::{SafeName, is_conflict_copy};

/// Removes older conflict copies of a name, the least by their bytes first, until at most so many are left with the new one.
/// None is removed where any number is kept. What the store refuses to remove stays.
///
/// Allocates only in calls of the store. O(n) for n names that the store has.
pub fn remove_old_copies<S: FileStore, G: Gate>(
    store: &mut S,
    gate: &G,
    name: &SafeName,
    copy: &SafeName,
    max_conflicts: MaxConflicts,
)
    ensures trims { S.keeps ≡ true → TrimsCopies (IsRefused S.gives S.tree) max_conflicts name.now copy.now
        (S.tree store.old) (S.tree store.new) }
    ensures calls { (q : Name) → CallsOnly S.gives (IsOfPull name.now q) store.old store.new }
{
    listings_are_exact();
    let Some(most) = max_conflicts.limit() else {
        return;
    };
    gate.at(GatePlace::StoreRead);
    let Ok(listing) = store.list() else {
        return;
    };
    let entries = listing.entries.as_slice();
    let count = count_old_copies(entries, name, copy);
    let surplus = count.saturating_sub(most.saturating_sub(1));
    remove_first(store, entries, name, copy, surplus);
}

// How many of the entries are of older conflict copies.
fn count_old_copies(entries: &[Listed], name: &SafeName, copy: &SafeName) -> usize
    ensures { (copies : List Name) × AreListedCopies name.now copy.now entries.now copies
        × (result ≡ length copies) }
{
    let mut count = 0usize;
    for listed in entries {
        if is_old_copy(listed, name, copy) {
            count += 1;
        }
    }
    count
}

// Removes the first so many of the entries that are of older conflict copies.
fn remove_first<S: FileStore>(
    store: &mut S,
    entries: &[Listed],
    name: &SafeName,
    copy: &SafeName,
    surplus: usize,
)
    ensures removes { S.keeps ≡ true → (copies : List Name)
        → AreListedCopies name.now copy.now entries.now copies
        → RemovesFiles (IsRefused S.gives S.tree) (take surplus copies) (S.tree store.old) (S.tree store.new) }
    ensures calls { (q : Name) → CallsOnly S.gives (IsOfPull name.now q) store.old store.new }
{
    let mut seen = 0usize;
    for listed in entries {
        if is_old_copy(listed, name, copy) {
            if seen < surplus {
                let _ = store.remove(&listed.name);
            }
            seen += 1;
        }
    }
}

// Whether the entry is a file under the name of another conflict copy than the new one.
fn is_old_copy(listed: &Listed, name: &SafeName, copy: &SafeName) -> bool
    ensures { IsTrue result ↔ IsListedCopy name.now copy.now listed.now }
{
    match listed.kind {
        Kind::File => {
            listed.name.as_str() != copy.as_str() && is_conflict_copy(&listed.name, name)
        }
        Kind::Directory => false,
    }
}
