//! The keys of a document that are no keys of their tables.
ghost use Rattle.std.specs.Prelude.{◌≡◌, ◌++◌, ◌==◌, IfErr, IfOk, OnOk, Some};
ghost use Rattle.toml.specs.Data.{as_table, get_member};
ghost use Rattle.toml_writer.specs.Text.{key_text};
ghost use Rattle.toml.specs.View.{items_view, table_view, view};
ghost use Rattle.node_config.specs.Documents.{IsTomlFault};
ghost use Rattle.node_config.specs.Keys.{key_name};
ghost use Rattle.node_config.specs.Lines.{unknown_text};
ghost use Rattle.node_config.specs.Unknowns.{AreUnknownIn, edits_to, first_at, is_key, key_of, near_key, place_of, unknown_in, unknown_in_each, unknown_in_tables, unknown_in_value, unknown_key, unknown_keys};

use crate::document::toml_fault;
use crate::fault::ConfigFault;
use crate::key::{Key, TablePlace};
use crate::values::value_at;
use bep_messages::Text;
use std::alloc::{AllocError, Global};
use std::fmt::{self, Display, Formatter};
use strsim::levenshtein;
use toml::{Table, Value};
use toml_writer::write_key;

/// A key of a table that is none there, and so is ignored. Displayed, it is one line that says so, as `folder 2: rescann is no key, ignored; rescan?`, with the
/// key as TOML writes it.
#[derive(Debug, Drop)]
pub struct UnknownKey {
    /// The table that has it.
    pub place: TablePlace,
    /// How the document writes it.
    pub key: Text,
    /// The key of the table that may have been meant: the first of those nearest to it, of which at most two characters are put in, left out or changed.
    pub near: Option<Key>,
}

impl Display for UnknownKey {
    ghost output = { λ unknown. Some (unknown_text unknown) };

    fn fmt<W: fmt::Write>(&self, f: &mut Formatter<W>) -> fmt::Result {
        let place = self.place;
        let key = WrittenKey { key: &self.key };
        match self.near {
            Some(near) => write!(f, "{place}{key} is no key, ignored; {near}?"),
            None => write!(f, "{place}{key} is no key, ignored"),
        }
    }
}

/// A key as TOML writes it.
#[derive(Clone, Copy)]
struct WrittenKey<'a> {
    key: &'a Text,
}

impl Display for WrittenKey<'_> {
    ghost output = { λ written. Some (key_text written.key.now) };

    fn fmt<W: fmt::Write>(&self, f: &mut Formatter<W>) -> fmt::Result {
        write_key(f, self.key.as_str())
    }
}

/// An array of tables of the document.
#[derive(Clone, Copy)]
enum Tables {
    Folders,
    Peers,
}

impl Tables {
    /// Its key.
    fn key(self) -> Key
        ensures { result ≡ key_of self }
    {
        match self {
            Tables::Folders => Key::Folder,
            Tables::Peers => Key::Peer,
        }
    }

    /// The table of this number, counted from 1.
    fn place(self, number: usize) -> TablePlace
        ensures { result ≡ place_of self number }
    {
        match self {
            Tables::Folders => TablePlace::Folder(number),
            Tables::Peers => TablePlace::Peer(number),
        }
    }
}

/// The keys of a text, which is a TOML document in UTF-8, that [`read_config`](crate::read_config) ignores: each key of the document, then of each
/// `[[folder]]` and of each `[[peer]]`, that is no key of such a table, once. The keys of a table are in the order of their bytes, whatever the order of the
/// lines.
///
/// # Errors
///
/// - [`ConfigFault::NotToml`] if the text is no TOML document.
/// - [`ConfigFault::OutOfMemory`] if memory ran out.
///
/// O(n) time and memory for a text of n bytes.
pub fn unknown_keys(alloc: Global, text: &[u8]) -> Result<Vec<UnknownKey>, ConfigFault>
    ensures ok { IfOk result (λ keys. AreUnknownIn text.now keys.items) }
    ensures err { IfErr result (IsTomlFault text.now) }
{
    match toml::table_from_slice(alloc, text) {
        Ok(document) => Ok(unknown_in_document(alloc, &document)?),
        Err(error) => Err(toml_fault(text, &error)),
    }
}

/// Those of a document.
fn unknown_in_document(alloc: Global, document: &Table) -> Result<Vec<UnknownKey>, AllocError>
    ensures { IfOk result (λ keys. keys.items ≡ unknown_keys (table_view document.now)) }
{
    let mut keys = Vec::new(alloc);
    find_in(alloc, TablePlace::Node, document, &mut keys)?;
    find_in_tables(alloc, Tables::Folders, document, &mut keys)?;
    find_in_tables(alloc, Tables::Peers, document, &mut keys)?;
    Ok(keys)
}

/// Appends those of the tables of an array, where the document has it.
fn find_in_tables(
    alloc: Global,
    tables: Tables,
    document: &Table,
    keys: &mut Vec<UnknownKey>,
) -> Result<(), AllocError>
    ensures { OnOk result (keys.new.items ≡ keys.old.items ++ unknown_in_tables tables (get_member (key_name (key_of tables)) (table_view document.now))) }
{
    match value_at(document, tables.key()) {
        Some(Value::Array(values)) => find_in_each(alloc, tables, values, keys),
        _ => Ok(()),
    }
}

/// Appends those of each of the values that is a table.
fn find_in_each(
    alloc: Global,
    tables: Tables,
    values: &[Value],
    keys: &mut Vec<UnknownKey>,
) -> Result<(), AllocError>
    ensures { OnOk result (keys.new.items ≡ keys.old.items ++ unknown_in_each tables 1 (items_view values.now)) }
{
    for (index, value) in values.iter().enumerate() {
        find_in_value(alloc, tables.place(index + 1), value, keys)?;
    }
    Ok(())
}

/// Appends those of a value, if it is a table.
fn find_in_value(
    alloc: Global,
    place: TablePlace,
    value: &Value,
    keys: &mut Vec<UnknownKey>,
) -> Result<(), AllocError>
    ensures { OnOk result (keys.new.items ≡ keys.old.items ++ unknown_in_value place (as_table (view value.now))) }
{
    match value.as_table() {
        Some(table) => find_in(alloc, place, table, keys),
        None => Ok(()),
    }
}

/// Appends those of a table.
fn find_in(
    alloc: Global,
    place: TablePlace,
    table: &Table,
    keys: &mut Vec<UnknownKey>,
) -> Result<(), AllocError>
    ensures { OnOk result (keys.new.items ≡ keys.old.items ++ unknown_in place (table_view table.now)) }
{
    for (key, _value) in table.iter() {
        if !is_key(place, key.as_str()) {
            keys.push(unknown_key(alloc, place, key.as_str())?)?;
        }
    }
    Ok(())
}

/// Whether the text is a key of the table.
fn is_key(place: TablePlace, text: &str) -> bool
    ensures { result ≡ is_key place text.now }
{
    place.keys().iter().any(|key| key.name() == text)
}

/// What is told of a text that is no key of the table.
fn unknown_key(alloc: Global, place: TablePlace, text: &str) -> Result<UnknownKey, AllocError>
    ensures { IfOk result (λ key. key ≡ unknown_key place text.now) }
{
    Ok(UnknownKey {
        place,
        key: Text::from_str(alloc, text)?,
        near: near_key(alloc, place, text)?,
    })
}

/// The first key of the table to which one edit leads from a text, or else the first to which two do.
fn near_key(alloc: Global, place: TablePlace, text: &str) -> Result<Option<Key>, AllocError>
    ensures { IfOk result (λ key. key ≡ near_key place text.now) }
{
    match first_at(alloc, 1, text, place.keys())? {
        Some(key) => Ok(Some(key)),
        None => first_at(alloc, 2, text, place.keys()),
    }
}

/// The first of the keys to which just so many edits lead from a text.
fn first_at(
    alloc: Global,
    edits: usize,
    text: &str,
    keys: &[Key],
) -> Result<Option<Key>, AllocError>
    ensures { IfOk result (λ key. key ≡ first_at edits text.now keys.now) }
{
    for key in keys {
        if edits_to(alloc, text, *key)? == edits {
            return Ok(Some(*key));
        }
    }
    Ok(None)
}

/// How many edits lead from a text to a key.
fn edits_to(alloc: Global, text: &str, key: Key) -> Result<usize, AllocError>
    ensures { IfOk result (λ edits. edits ≡ edits_to text.now key) }
{
    levenshtein(alloc, text, key.name())
}
