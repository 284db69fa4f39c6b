//! The names that the folder has and the store has not.
ghost use Rattle.std.specs.Prelude.{◌≡◌, ◌↔◌, [], ◌∷◌, Contains, IfOk, IsTrue, OnOk, map};
ghost use Rattle.std.specs.Cmp.Lexicographic.{slice_cmp};
ghost use Rattle.std.specs.Ordering.{nat_cmp};
ghost use Rattle.file_store.specs.Listings.{AreAscending};
ghost use Rattle.folder_calls.specs.Shared.{Sees};
ghost use Rattle.sync_scan.specs.AllNames.{AddsMissing, AreMissing};

use file_store::{Gate, GatePlace, Listed};
use folder_calls::FolderCalls;
use folder_calls::laws::{histories_may_be_divided, local_records_go_on, views_are_of_folders};
use folder_core::laws::local_records_come_in_pages;
use std::alloc::{AllocError, Global};
use std::cmp::Ordering;
use std::collections::BTreeSet;
use sync_names::SafeName;
use sync_record::Record;

/// How many local records are read at once.
const PAGE_RECORDS: usize = 1000;

/// The names that are not listed and of which the folder has a live local record. O(n log n) for n local records; memory for the
/// names.
pub(crate) fn missing_names<W: FolderCalls, G: Gate>(
    alloc: Global,
    calls: &mut W,
    gate: &G,
    entries: &[Listed],
) -> Result<Vec<SafeName>, AllocError>
    requires { AreAscending (map (λ e. e.name) entries.now) }
    ensures folder { W.folder calls.new ≡ W.folder calls.old }
    ensures sees { Sees (W.view calls.old) (W.view calls.new) }
    ensures missing { IfOk result (λ names. AreMissing (W.view calls.old) (W.view calls.new)
        (map (λ e. e.name) entries.now) names.items) }
{
    views_are_of_folders();
    histories_may_be_divided();
    local_records_go_on();
    local_records_come_in_pages();
    let mut names = BTreeSet::new(alloc);
    let mut cursor = 0;
    loop {
        gate.at(GatePlace::FolderCall);
        let page = calls.local_since(cursor, PAGE_RECORDS)?.value;
        let Some(last) = page.as_slice().last() else {
            return in_order(alloc, names);
        };
        cursor = last.sequence();
        add_missing(&mut names, entries, page.as_slice())?;
    }
}

// The names of a set in their order.
fn in_order(alloc: Global, names: BTreeSet<SafeName>) -> Result<Vec<SafeName>, AllocError>
    ensures { IfOk result (λ list. list.items ≡ names.keys) }
{
    names.into_iter().collect(alloc)
}

// Adds the names of the live records that are not listed.
fn add_missing(
    names: &mut BTreeSet<SafeName>,
    entries: &[Listed],
    records: &[Record],
) -> Result<(), AllocError>
    requires { AreAscending (map (λ e. e.name) entries.now) }
    ensures adds { OnOk result (AddsMissing (map (λ e. e.name) entries.now) records.now
        names.old.keys names.new.keys) }
    ensures order { AreAscending names.old.keys → OnOk result (AreAscending names.new.keys) }
{
    for record in records {
        add_one(names, entries, record)?;
    }
    Ok(())
}

// Adds the name of a record, if it is live and not listed.
fn add_one(
    names: &mut BTreeSet<SafeName>,
    entries: &[Listed],
    record: &Record,
) -> Result<(), AllocError>
    requires { AreAscending (map (λ e. e.name) entries.now) }
    ensures adds { OnOk result (AddsMissing (map (λ e. e.name) entries.now) («record».now ∷ [])
        names.old.keys names.new.keys) }
    ensures order { AreAscending names.old.keys → OnOk result (AreAscending names.new.keys) }
{
    if record.is_deleted() || is_listed(entries, record.name()) {
        return Ok(());
    }
    match names.insert(record.name().copy()?) {
        Ok(_) => Ok(()),
        Err(failed) => Err(AllocError::from(failed)),
    }
}

// Whether a name is listed, by the order of the listing. O(log n).
fn is_listed(entries: &[Listed], name: &SafeName) -> bool
    requires { AreAscending (map (λ e. e.name) entries.now) }
    ensures { IsTrue result ↔ Contains (map (λ e. e.name) entries.now) name.now }
{
    entries
        .binary_search_by(
            |entry: &Listed| -> Ordering
                ensures { result ≡ slice_cmp nat_cmp entry.entry.now.name name.entry.now }
            { entry.name.cmp(name) },
        )
        .is_ok()
}
