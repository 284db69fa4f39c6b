//! What scans and pulls tell who looks at a folder.
use std::alloc::Global;
use std::mem::replace;
use std::sync::{Mutex, Wait};
use sync_names::SafeName;

/// What scans and pulls tell who looks at a folder, and whether it was looked at. Where memory runs out a note is lost: then a file is read once more, or a
/// name waits until it changes again or the next scan of all.
#[derive(Drop)]
pub struct Notes {
    alloc: Global,
    kept: Mutex<LockedNotes>,
}

// What stands under the lock.
#[derive(Drop)]
struct LockedNotes {
    noticed: Noticed,
    is_seen: bool,
}

/// What was told since it was taken last.
#[derive(Drop)]
pub struct Noticed {
    /// Names at which pulls have put files.
    pub placed: Vec<SafeName>,
    /// Names that are to be scanned.
    pub asked: Vec<SafeName>,
}

impl Noticed {
    fn none(alloc: Global) -> Noticed {
        Noticed {
            placed: Vec::new(alloc),
            asked: Vec::new(alloc),
        }
    }
}

impl Notes {
    /// Nothing was told, and nobody looked yet. Does not allocate.
    pub fn new(alloc: Global) -> Notes {
        Notes {
            alloc,
            kept: Mutex::new(LockedNotes {
                noticed: Noticed::none(alloc),
                is_seen: false,
            }),
        }
    }

    /// A pull has put a file at this name.
    pub fn place<R: Wait>(&self, rt: &R, name: &SafeName) {
        if let Ok(name) = name.copy() {
            let mut kept = self.kept.lock(rt);
            let _ = kept.noticed.placed.push(name);
        }
    }

    /// This name is to be scanned.
    pub fn ask<R: Wait>(&self, rt: &R, name: &SafeName) {
        if let Ok(name) = name.copy() {
            let mut kept = self.kept.lock(rt);
            let _ = kept.noticed.asked.push(name);
        }
    }

    /// What was told since this was called last.
    pub fn take<R: Wait>(&self, rt: &R) -> Noticed {
        let mut kept = self.kept.lock(rt);
        replace(&mut kept.noticed, Noticed::none(self.alloc))
    }

    /// The folder was looked at, so that what changes from now on is seen.
    pub fn see<R: Wait>(&self, rt: &R) {
        let mut kept = self.kept.lock(rt);
        kept.is_seen = true;
    }

    /// Whether it was looked at.
    pub fn is_seen<R: Wait>(&self, rt: &R) -> bool {
        let kept = self.kept.lock(rt);
        kept.is_seen
    }
}
