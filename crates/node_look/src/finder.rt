//! A look at a folder: what stands in its directories now, where that isn't what stood there.
use crate::look::{Found, Look, Seen, push_name};
use file_store::StoreRefusal;
use folder_look::{Entry, EntryKind, Facts, Table};
use node_context::{Context, Host};
use node_files::Marked;
use std::alloc::AllocError;
use std::mem::replace;
use sync_names::{NameFault, SafeName, is_temporary};

/// How long ago, in nanoseconds, a directory must have changed last so that its times tell the next change: file systems keep them in steps, of two seconds at most.
const SETTLED: i64 = 3_000_000_000;

/// What a look goes over.
#[derive(Clone, Copy, Debug, PartialEq, Eq)]
pub(crate) enum Scope {
    /// Directories alone: their times tell what was made, removed and renamed in them.
    Directories,
    /// All entries.
    All,
}

/// Who looks at a folder.
#[derive(Drop)]
pub(crate) struct Finder<'f, 'x, R, S, G> {
    cx: &'f Context<'x, R, G>,
    store: &'f S,
    // The path of the folder.
    root: &'f str,
    // For paths, and for the names in a directory.
    path: String,
    names: Vec<u8>,
}

// What was found.
#[derive(Drop)]
struct Findings {
    found: Vec<Found>,
    // Directories that were not there before, and were not read yet.
    fresh: Vec<String>,
}

impl<'f, 'x, R: Host, S: Marked, G> Finder<'f, 'x, R, S, G> {
    /// One for the folder at a path. Does not allocate.
    pub(crate) fn new(
        cx: &'f Context<'x, R, G>,
        store: &'f S,
        root: &'f str,
    ) -> Finder<'f, 'x, R, S, G> {
        Finder {
            cx,
            store,
            root,
            path: String::new(cx.alloc),
            names: Vec::new(cx.alloc),
        }
    }

    /// What is at a name now. What can't be looked at is a fault.
    pub(crate) fn at(&mut self, name: &SafeName) -> Result<Option<Facts>, StoreRefusal> {
        self.entry_facts("", name.as_str())
    }

    /// What stands in the directories now that isn't what stood there. What can't be looked at stays as it was. Nothing where the node stops.
    pub(crate) fn look(&mut self, look: &Look, scope: Scope) -> Result<Vec<Found>, AllocError> {
        let alloc = self.cx.alloc;
        let mut findings = Findings {
            found: Vec::new(alloc),
            fresh: Vec::new(alloc),
        };
        for (directory, seen) in look.directories.iter() {
            if self.cx.is_stopping() {
                return Ok(Vec::new(alloc));
            }
            self.see(look, directory.as_str(), seen, scope, &mut findings)?;
        }
        if look.directories.is_empty() {
            findings.fresh.push(String::new(alloc))?;
        }
        for _ in 0..u64::MAX {
            let Some(directory) = findings.fresh.pop() else {
                break;
            };
            if self.cx.is_stopping() {
                return Ok(Vec::new(alloc));
            }
            self.see_fresh(look, directory, &mut findings)?;
        }
        Ok(findings.found)
    }

    // Adds what stands in a directory now, if that isn't what stood there.
    fn see(
        &mut self,
        look: &Look,
        directory: &str,
        seen: &Seen,
        scope: Scope,
        findings: &mut Findings,
    ) -> Result<(), AllocError> {
        let own = match self.facts(directory, "") {
            Ok(Some(own)) if own.kind.is(EntryKind::Directory) => own,
            Ok(_) => {
                let directory = String::from_str(self.cx.alloc, directory)?;
                return Ok(
                    findings.found.push(Found {
                        directory,
                        seen: None,
                    })?,
                );
            }
            Err(StoreRefusal::OutOfMemory) => return Err(AllocError),
            Err(_) => return Ok(()),
        };
        let is_same = match seen.own {
            Some(before) => own.is(before),
            None => false,
        };
        if is_same && (scope == Scope::Directories || !self.differs(directory, &seen.table)?) {
            return Ok(());
        }
        match self.read(look, directory, own, findings)? {
            Some(seen) => {
                let directory = String::from_str(self.cx.alloc, directory)?;
                let seen = Some(seen);
                Ok(findings.found.push(Found { directory, seen })?)
            }
            None => Ok(()),
        }
    }

    // Adds what stands in a directory that was not there before. One that can't be read is tried again by the next look.
    fn see_fresh(
        &mut self,
        look: &Look,
        directory: String,
        findings: &mut Findings,
    ) -> Result<(), AllocError> {
        let read = match self.facts(directory.as_str(), "") {
            Ok(Some(own)) if own.kind.is(EntryKind::Directory) => self.read(
                look,
                directory.as_str(),
                own,
                findings,
            )?,
            Ok(_) => return Ok(()),
            Err(StoreRefusal::OutOfMemory) => return Err(AllocError),
            Err(_) => None,
        };
        let seen = match read {
            Some(seen) => seen,
            None => Seen {
                own: None,
                table: Table::new(self.cx.alloc),
            },
        };
        Ok(
            findings.found.push(Found {
                directory,
                seen: Some(seen),
            })?,
        )
    }

    // Whether one of the entries of a directory, which itself did not change, is another one now. (What a directory below it is, its own times tell.)
    fn differs(&mut self, directory: &str, table: &Table) -> Result<bool, AllocError> {
        for place in 0..table.len() {
            let Some((name, before)) = table.get(place) else {
                break;
            };
            if before.kind.is(EntryKind::Directory) {
                continue;
            }
            let Ok(name) = std::str::from_utf8(name) else {
                continue;
            };
            match self.facts(directory, name) {
                Ok(Some(now)) if now.is(before) => {}
                Ok(_) => return Ok(true),
                Err(StoreRefusal::OutOfMemory) => return Err(AllocError),
                Err(_) => {}
            }
        }
        Ok(false)
    }

    // Reads a directory, which is this one itself. Nothing where it can't be read, or what is in it not be looked at.
    fn read(
        &mut self,
        look: &Look,
        directory: &str,
        own: Facts,
        findings: &mut Findings,
    ) -> Result<Option<Seen>, AllocError> {
        let mut names = replace(&mut self.names, Vec::new(self.cx.alloc));
        names.clear();
        self.set_path(directory, "")?;
        let answer = self.store.names_at(self.path.as_str(), &mut names);
        let entries = match answer {
            Ok(()) => self.entries(look, directory, names.as_slice(), findings)?,
            Err(StoreRefusal::OutOfMemory) => return Err(AllocError),
            Err(_) => None,
        };
        self.names = names;
        match entries {
            Some(entries) => Ok(Some(Seen {
                own: if self.is_settled(own) {
                    Some(own)
                } else {
                    None
                },
                table: Table::of(self.cx.alloc, entries)?,
            })),
            None => Ok(None),
        }
    }

    // The entries of a directory that have these names, each ended by the byte 0. Nothing where one can't be looked at.
    fn entries(
        &mut self,
        look: &Look,
        directory: &str,
        names: &[u8],
        findings: &mut Findings,
    ) -> Result<Option<Vec<Entry>>, AllocError> {
        let mut entries = Vec::new(self.cx.alloc);
        for name in names.split(|&byte| byte == 0) {
            let Some(full) = self.scanned_name(directory, name)? else {
                continue;
            };
            let Ok(last) = std::str::from_utf8(name) else {
                continue;
            };
            let facts = match self.entry_facts(directory, last) {
                Ok(Some(facts)) => facts,
                Ok(None) => continue,
                Err(StoreRefusal::OutOfMemory) => return Err(AllocError),
                Err(_) => return Ok(None),
            };
            if facts.kind.is(EntryKind::Directory)
                && look.directories.get(full.as_str()).is_none()
            {
                findings.fresh.push(full)?;
            }
            let name = String::from_str(self.cx.alloc, last)?;
            entries.push(Entry { name, facts })?;
        }
        Ok(Some(entries))
    }

    // The whole name of an entry, if a scan may record it.
    fn scanned_name(&self, directory: &str, name: &[u8]) -> Result<Option<String>, AllocError> {
        let Ok(last) = std::str::from_utf8(name) else {
            return Ok(None);
        };
        if last.is_empty() || is_temporary(last) {
            return Ok(None);
        }
        let mut full = String::new(self.cx.alloc);
        push_name(&mut full, directory, last)?;
        match SafeName::parse(self.cx.alloc, full.as_str()) {
            Ok(_) => Ok(Some(full)),
            Err(NameFault::OutOfMemory) => Err(AllocError),
            Err(_) => Ok(None),
        }
    }

    // What an entry is. Of a directory it counts only which one it is: what is in it, and its times, change without it.
    fn entry_facts(&mut self, directory: &str, last: &str) -> Result<Option<Facts>, StoreRefusal> {
        Ok(match self.facts(directory, last)? {
            Some(facts) if facts.kind.is(EntryKind::Directory) => Some(Facts {
                size: 0,
                modified: 0,
                changed: 0,
                ..facts
            }),
            facts => facts,
        })
    }

    // What the system says of an entry of a directory, or of the directory for an empty name.
    fn facts(&mut self, directory: &str, last: &str) -> Result<Option<Facts>, StoreRefusal> {
        self.set_path(directory, last)?;
        self.store.facts_at(self.path.as_str())
    }

    // (an empty path of the folder is the current directory; a link may lead to the folder, but none is followed below it)
    fn set_path(&mut self, directory: &str, last: &str) -> Result<(), AllocError> {
        self.path.clear();
        if self.root.is_empty() {
            self.path.push('.')?;
        }
        self.path.push_str(self.root)?;
        self.path.push('/')?;
        push_name(&mut self.path, directory, last)
    }

    // Whether the directory changed so long ago that its times tell the next change.
    fn is_settled(&self, own: Facts) -> bool {
        match self.cx.rt.since_1970() {
            Ok(time) => {
                let now = i64::try_from(time.as_nanos()).unwrap_or(0);
                own.changed <= now.saturating_sub(SETTLED)
            }
            Err(_) => false,
        }
    }
}
