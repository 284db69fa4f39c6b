//! A node's folders on the disk: how each is opened, marked and taken.
ghost use Rattle.std.specs.Prelude.{Bool, ℕ, List, Result, IfErr};
ghost use Rattle.file_dir.specs.declared.marker.LockRefusal.{LockRefusal};
ghost use Rattle.file_store.specs.Refusals.{IsPlain};
ghost use Rattle.file_store.specs.declared.refusal.StoreRefusal.{StoreRefusal};

use crate::seen::{facts_at, names_at};
use file_dir::{DirStore, Habits, LockRefusal, MarkerId, MarkerLock, Skipped};
use file_store::{FileStore, StoreRefusal};
use folder_look::Facts;
use std::alloc::{AllocError, Global};
use std::fs::{File, Files};
use std::io;
use std::sync::{Mutex, Wait};
use std::time::Clock;
use sync_names::SafeName;

/// How the files of a folder are kept of which nothing else was said.
const PLAIN: Habits = Habits {
    keeps_versions: false,
    mode: None,
};

/// Where a node's folders are.
pub trait Stores {
    ghost use Rattle.std.specs.Prelude.{Bool, ℕ, List, Result};
    ghost use Rattle.file_dir.specs.declared.marker.LockRefusal.{LockRefusal};
    ghost use Rattle.file_store.specs.declared.refusal.StoreRefusal.{StoreRefusal};

    /// What a worker reads and writes a folder by.
    type Store: FileStore + Drop;

    /// What opening the folder at a path may answer.
    ghost opens: { List ℕ → Result Self.Store StoreRefusal → Type 0 };

    /// What looking for the marker may answer: the store before, the answer, the store after.
    ghost looks: { Self.Store → Result Bool StoreRefusal → Self.Store → Type 0 };

    /// What taking the folder at a path may answer.
    ghost takes: { Self.Store → List ℕ → Result (Unit {0}) LockRefusal → Self.Store → Type 0 };

    /// From now on the files of the folder at a path are kept like this, by those who open it. Until this is said, no versions are kept, and files are made as
    /// the system makes any. O(n) for n folders.
    fn keep_by(&self, path: &str, habits: Habits) -> Result<(), AllocError>;

    /// The folder at a path, for one more worker. Fails with `StoreFault` where there is none.
    fn open(&self, alloc: Global, path: &str) -> Result<Self::Store, StoreRefusal>
        ensures plain { IfErr result IsPlain }
        ensures opens { opens path.now result };

    /// Whether the folder has its marker. An empty directory, at which a disk is not mounted, has none. Fails with `StoreFault` where that can't be
    /// read.
    fn is_marked(&self, store: &mut Self::Store) -> Result<bool, StoreRefusal>
        ensures plain { IfErr result IsPlain }
        ensures looks { looks store.old result store.new };

    /// The file that is put in place next at this name gets this modification time, if the disk can hold it.
    fn set_modified(
        &self,
        store: &mut Self::Store,
        name: &SafeName,
        seconds: i64,
        nanoseconds: u32,
    ) -> Result<(), AllocError>;

    /// Whether the last `StoreFault` came of a disk that is full, or of a quota.
    fn lacks_room(&self, store: &Self::Store) -> bool;

    /// What the system said where the store's last call was a `StoreFault`, if it came of an error of the system.
    fn last_error(&self, store: &Self::Store) -> Option<io::Error>;

    /// Gives the folder at a path its marker, if it is a new one; takes it, and removes temporary files that an earlier run left, if it has one. Fails
    /// with `StoreFault` where no directory is there, and with `InUse` where another run has it.
    fn begin(&self, alloc: Global, path: &str, is_new: bool) -> Result<(), LockRefusal>;

    /// Takes the folder at a path, which has its marker, for as long as these are kept, or until it is let go of. Does nothing where they have it. Fails with
    /// `InUse` where another run has it, and with `StoreFault` where they have another directory, which was at the path before: until that is let go of.
    fn take(&self, store: &mut Self::Store, path: &str) -> Result<(), LockRefusal>
        ensures { takes store.old path.now result store.new };

    /// Lets go of the folder at a path, if these have it: what is there next may be another directory, on another device.
    fn let_go(&self, path: &str);

    /// Removes the versions of moments before so many seconds since 1970, and returns how many files these were.
    fn remove_versions(&self, store: &mut Self::Store, before: u64) -> Result<usize, StoreRefusal>
        ensures plain { IfErr result IsPlain };

    /// What the store's last listing left out, once.
    fn take_skipped(&self, store: &mut Self::Store) -> Vec<Skipped>;

    /// What the system says of what is at a path, whoever has the folder there; nothing where nothing is. Fails with `StoreFault` where that can't be
    /// found out.
    fn facts_at(&self, path: &str) -> Result<Option<Facts>, StoreRefusal>;

    /// Appends the names in the directory at a path, each ended by the byte 0. Fails with `StoreFault` where it can't be read to its end.
    fn names_at(&self, path: &str, names: &mut Vec<u8>) -> Result<(), StoreRefusal>;
}

/// The folders of a disk.
#[derive(Drop)]
pub struct Disks<'a, R> {
    files: &'a R,
    alloc: Global,
    known: Mutex<Known>,
}

// What is known of a disk's folders.
#[derive(Drop)]
struct Known {
    // Those that these have.
    taken: Vec<Taken>,
    // How the files of some are kept.
    kept: Vec<PathHabits>,
}

// How the files of the folder at a path are kept.
#[derive(Drop)]
struct PathHabits {
    path: String,
    habits: Habits,
}

// A folder that no other run has.
#[derive(Drop)]
struct Taken {
    path: String,
    lock: MarkerLock,
}

impl<'a, R> Disks<'a, R> {
    /// Those of this disk.
    pub fn new(files: &'a R, alloc: Global) -> Disks<'a, R> {
        Disks {
            files,
            alloc,
            known: Mutex::new(Known {
                taken: Vec::new(alloc),
                kept: Vec::new(alloc),
            }),
        }
    }
}

impl<R: Wait> Disks<'_, R> {
    // How the files of the folder at a path are kept.
    fn habits_of(&self, path: &str) -> Habits {
        let known = self.known.lock(self.files);
        for kept in known.kept.iter() {
            if kept.path.as_str() == path {
                return kept.habits;
            }
        }
        PLAIN
    }

    // The marker of the folder at a path that these have, if they have it.
    fn marker_of(&self, path: &str) -> Option<MarkerId> {
        let known = self.known.lock(self.files);
        known
            .taken
            .iter()
            .find(|it| it.path.as_str() == path)
            .map(|it| it.lock.id())
    }
}

impl<'a, R: Files<File = File> + Wait> Disks<'a, R> {
    // Takes the folder at a path, unless these have one there since just now.
    fn take_new(&self, store: &mut DirStore<&'a R>, path: &str) -> Result<(), LockRefusal> {
        let mut known = self.known.lock(self.files);
        if known.taken.iter().any(|it| it.path.as_str() == path) {
            return Ok(());
        }
        let path = String::from_str(self.alloc, path)?;
        let lock = store.lock_marker()?;
        match known.taken.push(Taken { path, lock }) {
            Ok(()) => Ok(()),
            Err(_) => Err(LockRefusal::OutOfMemory),
        }
    }
}

impl<'a, R: Files<File = File> + Clock + Sync + Wait> Stores for Disks<'a, R> {
    type Store = DirStore<&'a R>;

    ghost use Rattle.std.specs.Prelude.{⊤};

    ghost opens = { λ _ _. ⊤ };

    ghost looks = { λ _ _ _. ⊤ };

    ghost takes = { λ _ _ _ _. ⊤ };

    fn keep_by(&self, path: &str, habits: Habits) -> Result<(), AllocError> {
        let mut known = self.known.lock(self.files);
        for kept in known.kept.iter_mut() {
            if kept.path.as_str() == path {
                kept.habits = habits;
                return Ok(());
            }
        }
        let path = String::from_str(self.alloc, path)?;
        known.kept.push(PathHabits { path, habits })?;
        Ok(())
    }

    fn open(&self, alloc: Global, path: &str) -> Result<DirStore<&'a R>, StoreRefusal> {
        DirStore::open(self.files, alloc, path, self.habits_of(path))
    }

    fn is_marked(&self, store: &mut DirStore<&'a R>) -> Result<bool, StoreRefusal> {
        store.has_marker()
    }

    fn set_modified(
        &self,
        store: &mut DirStore<&'a R>,
        name: &SafeName,
        seconds: i64,
        nanoseconds: u32,
    ) -> Result<(), AllocError> {
        store.set_modified(name, seconds, nanoseconds)
    }

    fn lacks_room(&self, store: &DirStore<&'a R>) -> bool {
        store.lacks_room()
    }

    fn last_error(&self, store: &DirStore<&'a R>) -> Option<io::Error> {
        store.last_error()
    }

    fn begin(&self, alloc: Global, path: &str, is_new: bool) -> Result<(), LockRefusal> {
        let mut store = self.open(alloc, path).map_err(refusal_of)?;
        if is_new {
            store.make_marker().map_err(refusal_of)?;
        }
        if store.has_marker().map_err(refusal_of)? {
            self.take(&mut store, path)?;
            store.remove_temps().map_err(refusal_of)?;
        }
        Ok(())
    }

    fn take(&self, store: &mut DirStore<&'a R>, path: &str) -> Result<(), LockRefusal> {
        match self.marker_of(path) {
            Some(id) => require_marked_by(store, id),
            None => self.take_new(store, path),
        }
    }

    fn let_go(&self, path: &str) {
        let mut known = self.known.lock(self.files);
        known.taken.retain(|it| it.path.as_str() != path);
    }

    fn remove_versions(
        &self,
        store: &mut DirStore<&'a R>,
        before: u64,
    ) -> Result<usize, StoreRefusal> {
        store.remove_versions(before)
    }

    fn take_skipped(&self, store: &mut DirStore<&'a R>) -> Vec<Skipped> {
        store.take_skipped()
    }

    fn facts_at(&self, path: &str) -> Result<Option<Facts>, StoreRefusal> {
        facts_at(self.files, path)
    }

    fn names_at(&self, path: &str, names: &mut Vec<u8>) -> Result<(), StoreRefusal> {
        names_at(self.files, path, names)
    }
}

// Fails unless the folder's marker is this one.
fn require_marked_by<R: Files<File = File>>(
    store: &mut DirStore<R>,
    id: MarkerId,
) -> Result<(), LockRefusal> {
    match store.is_marked_by(id).map_err(refusal_of)? {
        true => Ok(()),
        false => Err(LockRefusal::StoreFault),
    }
}

fn refusal_of(refusal: StoreRefusal) -> LockRefusal {
    match refusal {
        StoreRefusal::OutOfMemory => LockRefusal::OutOfMemory,
        _ => LockRefusal::StoreFault,
    }
}
