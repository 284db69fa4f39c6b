//! What stood in a directory.
ghost use Rattle.std.specs.Prelude.{◌≡◌, ◌++◌, ◌∷◌, [], IfOk, OnOk, map, option_map, length, slice_get, is_none, bytes_eq, true, Any, Contains};
ghost use Rattle.std.specs.List.Sorted.{IsStrictlySortedBy};
ghost use Rattle.std.specs.Cmp.Lexicographic.{slice_cmp};
ghost use Rattle.std.specs.Ordering.{nat_cmp};
ghost use Rattle.std.specs.String.{string_bytes};
ghost use Rattle.folder_look.specs.Tables.{ArePacked, IsOf, changes, facts_of, is_new, name_of, named, no_entries, row_facts, view_of};

use crate::facts::{Entry, EntryKind, Facts};
use std::alloc::{AllocError, Global};
use std::marker::Model;

/// What stood in a directory: its entries, in the order of the bytes of their names. An entry takes 40 bytes, and its name.
#[derive(Drop)]
pub struct Table {
    // The names, one after another.
    names: Vec<u8>,
    rows: Vec<Row>,
}

// An entry: where its name is, and what it is.
#[derive(Clone, Copy)]
struct Row {
    start: u32,
    len: u16,
    kind: EntryKind,
    size: u64,
    modified: i64,
    changed: i64,
    inode: u64,
}

impl Model for Table {
    ghost use Rattle.std.specs.Prelude.{List};
    ghost use Rattle.folder_look.specs.Tables.{IsTable, Named, entries_of};

    ghost Value = { List Named };

    ghost view = { λ table. entries_of table.names.items table.rows.items };

    ghost invariant = { λ table. IsTable table.names.items table.rows.items };
}

impl Row {
    fn facts(&self) -> Facts
        ensures { result ≡ row_facts self.now }
    {
        Facts {
            kind: self.kind,
            size: self.size,
            modified: self.modified,
            changed: self.changed,
            inode: self.inode,
        }
    }
}

// The name of a row.
fn name_of<'a>(names: &'a [u8], row: &Row) -> &'a [u8]
    ensures { result.now ≡ name_of names.now row.now }
{
    let (_, rest) = names.split_at((row.start as usize).min(names.len()));
    let (name, _) = rest.split_at((row.len as usize).min(rest.len()));
    name
}

impl Table {
    /// That of an empty directory. Does not allocate.
    pub fn new(alloc: Global) -> Table
        ensures { result ≡ no_entries }
    {
        Table {
            names: Vec::new(alloc),
            rows: Vec::new(alloc),
        }
    }

    /// Of these entries, each name once, though a directory that changes while it is read may show one twice. Fails only if out of memory, or where the
    /// names have 4 GiB. O(n log n) for n entries.
    pub fn of(alloc: Global, entries: Vec<Entry>) -> Result<Table, AllocError>
        ensures { IfOk result (IsOf entries.items) }
    {
        pack(alloc, in_order(entries)?.as_slice())
    }

    /// How many entries it has. O(1).
    pub fn len(&self) -> usize
        ensures { result ≡ length self.now }
    {
        self.rows.len()
    }

    /// The name of the entry at a place, and what it was.
    pub fn get(&self, place: usize) -> Option<(&[u8], Facts)>
        ensures { option_map (λ e. (e.0.now, e.1)) result ≡ slice_get self.now place }
    {
        let row = self.rows.get(place)?;
        Some((name_of(self.names.as_slice(), row), row.facts()))
    }

    /// What the entry with a name was, if there was one. O(log n) for n entries.
    pub fn find(&self, name: &[u8]) -> Option<Facts>
        ensures { result ≡ facts_of name.now self.now }
    {
        let names = self.names.as_slice();
        match self
            .rows
            .binary_search_by(|row| name_of(names, row).cmp(name))
        {
            Ok(at) => Some(self.rows[at].facts()),
            Err(_) => None,
        }
    }

    // Whether an entry of another table is new, or another one here.
    fn is_news(&self, name: &[u8], facts: Facts) -> bool
        ensures { result ≡ is_new (facts_of name.now self.now) facts }
    {
        match self.find(name) {
            Some(before) => !facts.is(before),
            None => true,
        }
    }

    // Whether no entry has this name.
    fn lacks(&self, name: &[u8]) -> bool
        ensures { result ≡ is_none (facts_of name.now self.now) }
    {
        self.find(name).is_none()
    }

    /// The names that are new in another table of the same directory, or stand for something else there, and those that are gone from it. Fails only if out
    /// of memory. O((n + m) log (n + m)) for n and m entries.
    pub fn changes<'a>(&'a self, alloc: Global, now: &'a Table) -> Result<Vec<&'a [u8]>, AllocError>
        ensures { IfOk result (λ names. map (λ name. name.now) names.items ≡ changes self.now now.now) }
    {
        let mut names = Vec::new(alloc);
        for row in &now.rows {
            let name = name_of(now.names.as_slice(), row);
            if self.is_news(name, row.facts()) {
                names.push(name)?;
            }
        }
        for row in &self.rows {
            let name = name_of(self.names.as_slice(), row);
            if now.lacks(name) {
                names.push(name)?;
            }
        }
        Ok(names)
    }
}

// The entries in the order of their names, each name once.
fn in_order(mut entries: Vec<Entry>) -> Result<Vec<Entry>, AllocError>
    ensures order { IfOk result (λ kept. IsStrictlySortedBy (slice_cmp nat_cmp) (map (λ e. string_bytes e.name) kept.items)) }
    ensures all { IfOk result (λ kept. (e : Entry) → Contains entries.items e → Any (λ k. bytes_eq (string_bytes e.name) (string_bytes k.name) ≡ true) kept.items) }
    ensures no_more { IfOk result (λ kept. (e : Entry) → Contains kept.items e → Contains entries.items e) }
{
    entries.sort_by(|a, b| a.name.cmp(&b.name))?;
    entries.dedup_by(|a, b| a.name == b.name);
    Ok(entries)
}

// The table of entries that are in order.
fn pack(alloc: Global, entries: &[Entry]) -> Result<Table, AllocError>
    requires { IsStrictlySortedBy (slice_cmp nat_cmp) (map (λ e. string_bytes e.name) entries.now) }
    ensures { IfOk result (λ table. table ≡ map view_of entries.now) }
{
    let mut names = Vec::new(alloc);
    let mut rows = Vec::with_capacity(alloc, entries.len())?;
    for entry in entries {
        add(&mut names, &mut rows, entry)?;
    }
    names.shrink_to_fit();
    Ok(Table { names, rows })
}

// Adds an entry.
fn add(names: &mut Vec<u8>, rows: &mut Vec<Row>, entry: &Entry) -> Result<(), AllocError>
    ensures { ArePacked names.old.items rows.old.items → OnOk result (ArePacked names.new.items rows.new.items
        × (map (named names.new.items) rows.new.items ≡ map (named names.old.items) rows.old.items ++ view_of entry.now ∷ [])) }
{
    let name = entry.name.as_bytes();
    let (Ok(start), Ok(len)) = (u32::try_from(names.len()), u16::try_from(name.len())) else {
        return Err(AllocError);
    };
    names.extend_from_slice(name)?;
    let Facts {
        kind,
        size,
        modified,
        changed,
        inode,
    } = entry.facts;
    rows.push(Row {
        start,
        len,
        kind,
        size,
        modified,
        changed,
        inode,
    })?;
    Ok(())
}
