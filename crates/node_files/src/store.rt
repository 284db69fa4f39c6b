//! The files of a folder, as a worker reads and writes them.
ghost use Rattle.std.specs.Prelude.{◌≡◌, ⊤, false};
ghost use Rattle.file_store.specs.Asked.{Rename};
ghost use Rattle.file_store.specs.Names.{Name};
ghost use Rattle.file_store.specs.Refusals.{count_after};
ghost use Rattle.file_store.specs.Stores.{empty_tree};
ghost use Rattle.node_files.specs.MarkedStores.{AnswersOrEnds};
ghost use Rattle.node_files.specs.Moved.{IsMoved};
ghost use Rattle.node_files.specs.Paths.{path_of};

use crate::ends::Ends;
use crate::marked::{Marked, Whereabouts};
use crate::root::Root;
use crate::stores::Stores;
use file_dir::Skipped;
use file_store::{FileStore, Listing, Stat, StoreRefusal};
use folder_look::Facts;
use std::alloc::Global;
use std::io;
use sync_names::SafeName;

/// The files of a folder, as a worker of a node reads and writes them.
///
/// Where the folder isn't there, has no marker, or another run has it, nothing is changed, and that nothing is at a name is a fault: so nothing is
/// taken for deleted while a disk is away. The folder is looked for again at the next call.
///
/// Each call is the disk's own with its answer, or is refused, and then nothing was called: by the folder that is away, or, of a call that reads or prepares
/// what is put in place, since the node stops, or, of one that changes what is at a name, while that is not to be changed (see [`Ends`]). What puts files in
/// place, moves or removes them is done also once the node stops.
#[derive(Drop)]
pub struct FolderStore<'a, T, S, E> {
    ends: E,
    root: Root<'a, T, S>,
    // The name to which a file was moved last.
    moved: Option<SafeName>,
    faults: u64,
}

impl<'a, T, S, E> FolderStore<'a, T, S, E> {
    /// Those of the folder at this path, which is not opened yet.
    pub fn new(alloc: Global, ends: E, stores: &'a T, path: &'a str) -> FolderStore<'a, T, S, E>
        ensures path { path_of result ≡ path.now }
        ensures ends { result.ends ≡ ends }
    {
        FolderStore {
            ends,
            root: Root::new(alloc, stores, path),
            moved: None,
            faults: 0,
        }
    }
}

impl<T: Stores<Store = S>, S: FileStore + Drop, E> Marked for FolderStore<'_, T, S, E> {
    fn look(&mut self) -> Whereabouts {
        self.root.look()
    }

    fn let_go(&mut self) {
        self.root.let_go();
    }

    fn take_skipped(&mut self) -> Vec<Skipped> {
        self.root.take_skipped()
    }

    fn take_moved(&mut self) -> Option<SafeName> {
        self.moved.take()
    }

    fn set_modified(&mut self, name: &SafeName, seconds: i64, nanoseconds: u32) {
        self.root.set_modified(name, seconds, nanoseconds);
    }

    fn remove_versions(&mut self, before: u64) -> Result<usize, StoreRefusal> {
        self.root.remove_versions(before)
    }

    fn lacks_room(&self) -> bool {
        self.root.lacks_room()
    }

    fn last_error(&self) -> Option<io::Error> {
        self.root.last_error()
    }

    fn facts_at(&self, path: &str) -> Result<Option<Facts>, StoreRefusal> {
        self.root.stores.facts_at(path)
    }

    fn names_at(&self, path: &str, names: &mut Vec<u8>) -> Result<(), StoreRefusal> {
        self.root.stores.names_at(path, names)
    }
}

// The answer, of which a fault is counted.
fn counted<T: Drop>(faults: &mut u64, answer: Result<T, StoreRefusal>) -> Result<T, StoreRefusal>
    ensures same { result ≡ answer }
    ensures counted { faults.new ≡ count_after result faults.old }
{
    if let Err(StoreRefusal::StoreFault) = &answer {
        *faults = faults.saturating_add(1);
    }
    answer
}

// The name to which a file was moved last, after a move to this one, which may be refused.
fn moved_last(
    before: Option<SafeName>,
    to: &SafeName,
    answer: &Result<(), StoreRefusal>,
) -> Option<SafeName>
    ensures { (from : Name) → IsMoved (Rename from to.now) answer.now before result }
{
    match answer {
        // (out of memory, it is not told that it was)
        Ok(()) => to.copy().ok(),
        Err(_) => before,
    }
}

impl<T: Stores<Store = S>, S: FileStore + Drop, E: Ends> FileStore for FolderStore<'_, T, S, E> {
    ghost keeps = { false };

    ghost fails = { λ _. ⊤ };

    ghost tree = { λ _. empty_tree };

    ghost fault_count = { λ s. s.faults };

    ghost use Rattle.node_files.specs.MarkedStores.{AnswersOrEnds};
    ghost use Rattle.node_files.specs.Moved.{IsMoved};

    ghost gives = { λ old call answer new.
        AnswersOrEnds T.opens T.looks T.takes S.gives (E.may_end old.ends) (E.may_hold old.ends) old.root.path.now old.root.store call answer new.root.store
        × IsMoved call answer old.moved new.moved × (new.root.path ≡ old.root.path) × (new.ends ≡ old.ends) };

    fn faults(&self) -> u64 {
        self.faults
    }

    fn list(&mut self) -> Result<Listing, StoreRefusal> {
        if self.ends.is_over() {
            return counted(&mut self.faults, Err(StoreRefusal::StoreFault));
        }
        let answer = self.root.list();
        counted(&mut self.faults, answer)
    }

    fn stat(&mut self, name: &SafeName) -> Result<Stat, StoreRefusal> {
        if self.ends.is_over() {
            return counted(&mut self.faults, Err(StoreRefusal::StoreFault));
        }
        let answer = self.root.stat(name);
        counted(&mut self.faults, answer)
    }

    fn read_at(
        &mut self,
        name: &SafeName,
        offset: u64,
        buffer: &mut [u8],
    ) -> Result<usize, StoreRefusal> {
        if self.ends.is_over() {
            return counted(&mut self.faults, Err(StoreRefusal::StoreFault));
        }
        let answer = self.root.read_at(name, offset, buffer);
        counted(&mut self.faults, answer)
    }

    fn make_temp(&mut self, name: &SafeName) -> Result<(), StoreRefusal> {
        if self.ends.is_over() {
            return counted(&mut self.faults, Err(StoreRefusal::StoreFault));
        }
        let answer = self.root.make_temp(name);
        counted(&mut self.faults, answer)
    }

    fn write_at(&mut self, name: &SafeName, offset: u64, bytes: &[u8]) -> Result<(), StoreRefusal> {
        if self.ends.is_over() {
            return counted(&mut self.faults, Err(StoreRefusal::StoreFault));
        }
        let answer = self.root.write_at(name, offset, bytes);
        counted(&mut self.faults, answer)
    }

    fn commit_temp(&mut self, name: &SafeName) -> Result<(), StoreRefusal> {
        if !self.ends.is_ready(name) {
            return counted(&mut self.faults, Err(StoreRefusal::StoreFault));
        }
        let answer = self.root.commit_temp(name);
        counted(&mut self.faults, answer)
    }

    fn drop_temp(&mut self, name: &SafeName) -> Result<(), StoreRefusal> {
        let answer = self.root.drop_temp(name);
        counted(&mut self.faults, answer)
    }

    fn rename(&mut self, from: &SafeName, to: &SafeName) -> Result<(), StoreRefusal> {
        if !self.ends.is_ready(from) {
            return counted(&mut self.faults, Err(StoreRefusal::StoreFault));
        }
        let answer = self.root.rename(from, to);
        let moved = self.moved.take();
        self.moved = moved_last(moved, to, &answer);
        counted(&mut self.faults, answer)
    }

    fn remove(&mut self, name: &SafeName) -> Result<(), StoreRefusal> {
        if !self.ends.is_ready(name) {
            return counted(&mut self.faults, Err(StoreRefusal::StoreFault));
        }
        let answer = self.root.remove(name);
        counted(&mut self.faults, answer)
    }

    fn make_dir(&mut self, name: &SafeName) -> Result<(), StoreRefusal> {
        if !self.ends.is_ready(name) {
            return counted(&mut self.faults, Err(StoreRefusal::StoreFault));
        }
        let answer = self.root.make_dir(name);
        counted(&mut self.faults, answer)
    }

    fn remove_dir(&mut self, name: &SafeName) -> Result<(), StoreRefusal> {
        if !self.ends.is_ready(name) {
            return counted(&mut self.faults, Err(StoreRefusal::StoreFault));
        }
        let answer = self.root.remove_dir(name);
        counted(&mut self.faults, answer)
    }
}
