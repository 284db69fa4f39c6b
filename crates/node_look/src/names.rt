//! The names of a folder that are to be scanned, now or later, and those of which it is known who made them what they are.
use crate::finder::Finder;
use crate::known::Known;
use crate::look::Change;
use crate::restless::{DueName, RestlessNames};
use node_context::Host;
use node_files::Marked;
use std::alloc::{AllocError, Global};
use std::mem::replace;
use sync_names::SafeName;

/// The names of a folder that are to be scanned, now or later, and those of which it is known who made them what they are.
#[derive(Drop)]
pub(crate) struct Names {
    alloc: Global,
    pub(crate) known: Known,
    restless: RestlessNames,
    // Names that somebody asked to be scanned.
    asked: Vec<SafeName>,
}

impl Names {
    /// None.
    pub(crate) fn none(alloc: Global) -> Names {
        Names {
            alloc,
            known: Known::none(alloc),
            restless: RestlessNames::none(alloc),
            asked: Vec::new(alloc),
        }
    }

    /// These are to be scanned at once.
    pub(crate) fn ask(&mut self, asked: Vec<SafeName>) -> Result<(), AllocError> {
        for name in asked {
            self.asked.push(name)?;
        }
        Ok(())
    }

    /// These changed, but those that are known to be what they are.
    pub(crate) fn add(&mut self, changes: Vec<Change>, now: u64) -> Result<(), AllocError> {
        let mut changes = changes;
        changes.retain(|change| !self.known.has(&change.name, change.facts));
        self.restless.add(changes, now)
    }

    /// These could not be recorded, and are scanned again later, also as they are.
    pub(crate) fn add_left(&mut self, left: Vec<DueName>, now: u64) -> Result<(), AllocError> {
        for one in &left {
            self.known.forget(&one.name);
        }
        self.restless.add_left(left, now)
    }

    /// Takes those that are to be scanned now: that were asked for, and that changed and are quiet, or have changed for long, but those that are known to be
    /// what they are. What is there is known from then on.
    pub(crate) fn settle<R: Host, S: Marked, G>(
        &mut self,
        finder: &mut Finder<R, S, G>,
        now: u64,
    ) -> Result<Vec<DueName>, AllocError> {
        let mut ready = self.restless.settle(finder, now)?;
        ready.retain(|one| !self.known.has(&one.name, one.facts));
        for name in replace(&mut self.asked, Vec::new(self.alloc)) {
            let facts = finder.at(&name).unwrap_or(None);
            ready.push(DueName::now(name, facts))?;
        }
        for one in ready.iter() {
            self.known.put(one.name.copy()?, one.facts)?;
        }
        Ok(ready)
    }
}
