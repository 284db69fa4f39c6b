//! What is known of names that a look may tell: who made it what it is.
use crate::finder::Finder;
use crate::recorded::is_put;
use folder_calls::FolderCalls;
use folder_look::Facts;
use node_context::Host;
use node_files::Marked;
use std::alloc::{AllocError, Global};
use std::collections::BTreeMap;
use sync_names::SafeName;

/// What stood at names when a pull had put it there, or when they were to be scanned: where that is there still, the name is not scanned again.
#[derive(Drop)]
pub(crate) struct Known {
    at: BTreeMap<SafeName, Option<Facts>>,
}

impl Known {
    /// Of no name.
    pub(crate) fn none(alloc: Global) -> Known {
        Known {
            at: BTreeMap::new(alloc),
        }
    }

    /// That is known of the name.
    pub(crate) fn put(&mut self, name: SafeName, facts: Option<Facts>) -> Result<(), AllocError> {
        self.at.insert(name, facts)?;
        Ok(())
    }

    /// Whether just that is known to be at the name.
    pub(crate) fn has(&self, name: &SafeName, facts: Option<Facts>) -> bool {
        match (self.at.get(name), facts) {
            (Some(Some(known)), Some(facts)) => facts.is(*known),
            (Some(None), None) => true,
            _ => false,
        }
    }

    /// Nothing of this name any more.
    pub(crate) fn forget(&mut self, name: &SafeName) {
        let _ = self.at.remove(name);
    }

    /// Nothing any more.
    pub(crate) fn clear(&mut self) {
        self.at.clear();
    }
}

/// Keeps of each name at which a pull has put a file what is there, if it is that file still.
pub(crate) fn know_placed<R: Host, S: Marked, G, W: FolderCalls>(
    known: &mut Known,
    finder: &mut Finder<R, S, G>,
    calls: &mut W,
    placed: Vec<SafeName>,
) -> Result<(), AllocError> {
    for name in placed {
        let Some(record) = calls.local(&name)?.value else {
            continue;
        };
        if let Ok(Some(facts)) = finder.at(&name) {
            if is_put(&record, facts) {
                known.put(name, Some(facts))?;
            }
        }
    }
    Ok(())
}
