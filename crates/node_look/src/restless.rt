//! Names that changed, and were not scanned since.
use crate::finder::Finder;
use crate::look::Change;
use folder_look::{Facts, Step, Unrest};
use node_context::Host;
use node_files::Marked;
use std::alloc::{AllocError, Global};
use std::mem::replace;
use sync_names::SafeName;

/// After how many milliseconds a name that changed is looked at again.
const AGAIN: u64 = 500;

/// The most milliseconds until a name is scanned again that could not be recorded. Each time they are twice as many, up to this.
const MOST: u64 = 3_600_000;

/// A name that changed.
#[derive(Drop)]
struct Restless {
    name: SafeName,
    unrest: Unrest,
    // When it is looked at again, in milliseconds since an arbitrary start, and how many more it waits if it can't be recorded then.
    due: u64,
    pause: u64,
}

/// A name that is to be scanned now.
#[derive(Drop)]
pub(crate) struct DueName {
    pub(crate) name: SafeName,
    pub(crate) facts: Option<Facts>,
    pub(crate) pause: u64,
    /// Whether it is to be scanned once more.
    pub(crate) is_left: bool,
}

/// The names that changed, and were not scanned since.
#[derive(Drop)]
pub(crate) struct RestlessNames {
    alloc: Global,
    // In the order of the names, each once.
    names: Vec<Restless>,
}

impl RestlessNames {
    /// None.
    pub(crate) fn none(alloc: Global) -> RestlessNames {
        RestlessNames {
            alloc,
            names: Vec::new(alloc),
        }
    }

    /// Adds names that changed now. One that changed before goes on as it was.
    pub(crate) fn add(&mut self, changes: Vec<Change>, now: u64) -> Result<(), AllocError> {
        if changes.is_empty() {
            return Ok(());
        }
        for Change { name, facts } in changes {
            self.push(name, facts, now, AGAIN)?;
        }
        self.keep_order()
    }

    /// Adds names that could not be recorded, to be scanned again after twice the time.
    pub(crate) fn add_left(&mut self, left: Vec<DueName>, now: u64) -> Result<(), AllocError> {
        if left.is_empty() {
            return Ok(());
        }
        for one in left {
            let pause = one.pause.saturating_mul(2).min(MOST);
            self.push(one.name, one.facts, now, pause)?;
        }
        self.keep_order()
    }

    fn keep_order(&mut self) -> Result<(), AllocError> {
        self.names.sort_by(|a, b| a.name.cmp(&b.name))?;
        self.names.dedup_by(|a, b| a.name == b.name);
        Ok(())
    }

    fn push(
        &mut self,
        name: SafeName,
        seen: Option<Facts>,
        now: u64,
        pause: u64,
    ) -> Result<(), AllocError> {
        let unrest = Unrest { seen, since: now };
        let due = now.saturating_add(pause);
        Ok(
            self.names.push(Restless {
                name,
                unrest,
                due,
                pause,
            })?,
        )
    }

    /// Looks at those that are due, and takes those that are to be scanned now.
    pub(crate) fn settle<R: Host, S: Marked, G>(
        &mut self,
        finder: &mut Finder<R, S, G>,
        now: u64,
    ) -> Result<Vec<DueName>, AllocError> {
        let mut ready = Vec::new(self.alloc);
        let names = replace(&mut self.names, Vec::new(self.alloc));
        for one in names {
            if one.due > now {
                self.names.push(one)?;
                continue;
            }
            // (what can't be looked at may be scanned, which says why it can't)
            let facts = finder.at(&one.name).unwrap_or(one.unrest.seen);
            match one.unrest.step(facts, now) {
                Step::Quiet => ready.push(one.ready(facts))?,
                Step::Long => {
                    let name = one.name.copy()?;
                    self.push(name, facts, now, AGAIN)?;
                    ready.push(one.ready(facts))?;
                }
                Step::Waits => {
                    let mut one = one;
                    one.unrest.seen = facts;
                    one.due = now.saturating_add(AGAIN);
                    self.names.push(one)?;
                }
            }
        }
        Ok(ready)
    }
}

impl Restless {
    fn ready(self, facts: Option<Facts>) -> DueName {
        DueName {
            name: self.name,
            facts,
            pause: self.pause,
            is_left: true,
        }
    }
}

impl DueName {
    /// A name that is to be scanned at once, with what is there.
    pub(crate) fn now(name: SafeName, facts: Option<Facts>) -> DueName {
        DueName {
            name,
            facts,
            pause: AGAIN,
            is_left: true,
        }
    }
}
