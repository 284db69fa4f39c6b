//! What stood in a folder when it was looked at last.
use folder_look::{Facts, Table};
use std::alloc::{AllocError, Global};
use std::collections::BTreeMap;
use sync_names::{NameFault, SafeName};

/// What stood in a folder when it was looked at last, directory by directory.
#[derive(Drop)]
pub(crate) struct Look {
    pub(crate) alloc: Global,
    // By the directory's name, which is empty for the folder itself.
    pub(crate) directories: BTreeMap<String, Seen>,
}

/// What stood in a directory.
#[derive(Drop)]
pub(crate) struct Seen {
    /// What the directory itself was before it was read; none where that may not tell whether something changed in it since.
    pub(crate) own: Option<Facts>,
    pub(crate) table: Table,
}

/// What a look found of a directory: what stands in it now, or that it is gone.
#[derive(Drop)]
pub(crate) struct Found {
    pub(crate) directory: String,
    pub(crate) seen: Option<Seen>,
}

/// A name of which something changed, and what is there now.
#[derive(Drop)]
pub(crate) struct Change {
    pub(crate) name: SafeName,
    pub(crate) facts: Option<Facts>,
}

impl Look {
    /// Nothing was seen yet.
    pub(crate) fn none(alloc: Global) -> Look {
        Look {
            alloc,
            directories: BTreeMap::new(alloc),
        }
    }

    /// How many entries were seen. O(n) for n directories.
    pub(crate) fn len(&self) -> u64 {
        let mut len = 0u64;
        for seen in self.directories.values() {
            len = len.saturating_add(seen.table.len() as u64);
        }
        len
    }

    /// The names of which something changed: those of entries that are new, gone or others in the directories that were found.
    pub(crate) fn changes(&self, found: &[Found]) -> Result<Vec<Change>, AllocError> {
        let mut changes = Vec::new(self.alloc);
        for found in found {
            let before = self.directories.get(found.directory.as_str());
            add_found(self.alloc, before, found, &mut changes)?;
        }
        Ok(changes)
    }

    /// Takes what was found.
    pub(crate) fn take(&mut self, found: Vec<Found>) -> Result<(), AllocError> {
        for Found { directory, seen } in found {
            match seen {
                Some(seen) => {
                    self.directories.insert(directory, seen)?;
                }
                None => {
                    let _ = self.directories.remove(directory.as_str());
                }
            }
        }
        Ok(())
    }
}

// Adds the safe names of a directory of which something changed since this was seen of it.
fn add_found(
    alloc: Global,
    before: Option<&Seen>,
    found: &Found,
    changes: &mut Vec<Change>,
) -> Result<(), AllocError> {
    let directory = found.directory.as_str();
    let nothing = Table::new(alloc);
    match (before, &found.seen) {
        (Some(before), Some(now)) => add_changes(
            alloc,
            directory,
            &before.table,
            &now.table,
            changes,
        ),
        (Some(before), None) => add_changes(alloc, directory, &before.table, &nothing, changes),
        (None, Some(now)) => add_changes(alloc, directory, &nothing, &now.table, changes),
        (None, None) => Ok(()),
    }
}

// Adds the safe names of a directory of which something changed.
fn add_changes(
    alloc: Global,
    directory: &str,
    before: &Table,
    now: &Table,
    changes: &mut Vec<Change>,
) -> Result<(), AllocError> {
    for last in before.changes(alloc, now)? {
        let Ok(text) = std::str::from_utf8(last) else {
            continue;
        };
        if let Some(name) = safe_name(alloc, directory, text)? {
            let facts = now.find(last);
            changes.push(Change { name, facts })?;
        }
    }
    Ok(())
}

/// The name of what stands in a directory under this one, if it is a safe one.
pub(crate) fn safe_name(
    alloc: Global,
    directory: &str,
    last: &str,
) -> Result<Option<SafeName>, AllocError> {
    let mut name = String::new(alloc);
    push_name(&mut name, directory, last)?;
    match SafeName::parse(alloc, name.as_str()) {
        Ok(name) => Ok(Some(name)),
        Err(NameFault::OutOfMemory) => Err(AllocError),
        Err(_) => Ok(None),
    }
}

/// Appends the name of what stands in a directory under this one; that of the directory where it is empty.
pub(crate) fn push_name(text: &mut String, directory: &str, last: &str) -> Result<(), AllocError> {
    text.push_str(directory)?;
    if !directory.is_empty() && !last.is_empty() {
        text.push('/')?;
    }
    text.push_str(last)?;
    Ok(())
}
