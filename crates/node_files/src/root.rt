//! The files of a folder that may be away: what is changed, and that nothing is at a name, counts only under its marker.
ghost use Rattle.std.specs.Prelude.{◌≡◌, ◌≢◌, ◌≤◌, ℕ, List, false, Err, IfErr, IfOk, length, None, true};
ghost use Rattle.file_store.specs.Asked.{CommitTemp, DropTemp, ListAll, MakeDir, MakeTemp, ReadAt, Remove, RemoveDir, Rename, StatAt, WriteAt};
ghost use Rattle.file_store.specs.Listings.{IsInOrder};
ghost use Rattle.file_store.specs.Refusals.{IsPlain};
ghost use Rattle.file_store.specs.declared.refusal.StoreRefusal.TheVariants.{BadParent, NotEmpty};
ghost use Rattle.node_files.specs.MarkedStores.{Answers, IsAway, IsOpened, IsThere, Passes, Refuses, tells_absence};

use crate::marked::Whereabouts;
use crate::stores::Stores;
use file_dir::{LockRefusal, Skipped};
use file_store::{FileStore, Listing, Stat, StoreRefusal};
use std::alloc::Global;
use std::io;
use sync_names::SafeName;

/// The directory of a folder.
#[derive(Drop)]
pub(crate) struct Root<'a, T, S> {
    alloc: Global,
    pub(crate) stores: &'a T,
    pub(crate) path: &'a str,
    // What it is read and written by, once it was there.
    pub(crate) store: Option<S>,
    // Whether another run had it when it was last looked for.
    pub(crate) is_in_use: bool,
}

impl<'a, T, S> Root<'a, T, S> {
    /// The directory at this path, which isn't opened yet.
    pub(crate) fn new(alloc: Global, stores: &'a T, path: &'a str) -> Root<'a, T, S>
        ensures path { result.path.now ≡ path.now }
        ensures store { result.store ≡ None }
    {
        Root {
            alloc,
            stores,
            path,
            store: None,
            is_in_use: false,
        }
    }
}

impl<T: Stores<Store = S>, S: FileStore + Drop> Root<'_, T, S> {
    // What the directory is read and written by, which is put back afterwards.
    fn opened(&mut self) -> Result<S, StoreRefusal>
        ensures opened { IfOk result (IsOpened T.opens self.old.path.now self.old.store) }
        ensures refused { IfErr result (λ refusal. Refuses T.opens T.looks T.takes self.old.path.now self.old.store false refusal self.new.store) }
        ensures plain { IfErr result IsPlain }
        ensures left { self.new ≡ record self.old { store = None } }
    {
        match self.store.take() {
            Some(store) => Ok(store),
            None => self.stores.open(self.alloc, self.path),
        }
    }

    // The same store, if the directory is there, with its marker, and no other run has it.
    fn there(&mut self, mut store: S) -> Result<S, StoreRefusal>
        ensures there { IfOk result (IsThere T.looks T.takes self.old.path.now store) }
        ensures away { IfErr result (IsAway T.looks T.takes self.old.path.now store) }
        ensures plain { IfErr result IsPlain }
        ensures path { self.new.path ≡ self.old.path }
        ensures left { self.new.store ≡ self.old.store }
    {
        self.is_in_use = false;
        match self.stores.is_marked(&mut store) {
            Ok(true) => {}
            Ok(false) => return Err(StoreRefusal::StoreFault),
            Err(refusal) => return Err(refusal),
        }
        match self.stores.take(&mut store, self.path) {
            Ok(()) => Ok(store),
            Err(LockRefusal::InUse) => {
                self.is_in_use = true;
                Err(StoreRefusal::StoreFault)
            }
            Err(LockRefusal::StoreFault) => Err(StoreRefusal::StoreFault),
            Err(LockRefusal::OutOfMemory) => Err(StoreRefusal::OutOfMemory),
        }
    }

    // What the directory is changed by, where it is there.
    fn opened_there(&mut self) -> Result<S, StoreRefusal>
        ensures there { IfOk result (λ t. (s : S) × IsOpened T.opens self.old.path.now self.old.store s × IsThere T.looks T.takes self.old.path.now s t) }
        ensures refused { IfErr result (λ refusal. Refuses T.opens T.looks T.takes self.old.path.now self.old.store true refusal self.new.store) }
        ensures plain { IfErr result IsPlain }
        ensures path { self.new.path ≡ self.old.path }
    {
        let store = self.opened()?;
        self.there(store)
    }

    // What the store said, which tells that something is not there, if the directory is there afterwards.
    fn if_there<X: Drop>(
        &mut self,
        store: S,
        said: Result<X, StoreRefusal>,
    ) -> Result<X, StoreRefusal>
        requires opened { self.old.store ≡ None }
        requires plain { IfErr said IsPlain }
        ensures passes { Passes T.looks T.takes true self.old.path.now store said result self.new.store }
        ensures plain { IfErr result IsPlain }
        ensures path { self.new.path ≡ self.old.path }
    {
        match self.there(store) {
            Ok(store) => {
                self.store = Some(store);
                said
            }
            Err(refusal) => Err(refusal),
        }
    }

    /// Where the directory is now.
    pub(crate) fn look(&mut self) -> Whereabouts {
        match self.opened_there() {
            Ok(store) => {
                self.store = Some(store);
                Whereabouts::There
            }
            Err(StoreRefusal::OutOfMemory) => Whereabouts::Unknown,
            Err(_) if self.is_in_use => Whereabouts::InUse,
            Err(_) => Whereabouts::Away,
        }
    }

    /// The directory isn't there, and who looks at it knows: what is at its path next is taken anew.
    pub(crate) fn let_go(&mut self) {
        self.store = None;
        self.stores.let_go(self.path);
    }

    /// What the last listing left out, once.
    pub(crate) fn take_skipped(&mut self) -> Vec<Skipped> {
        match &mut self.store {
            Some(store) => self.stores.take_skipped(store),
            None => Vec::new(self.alloc),
        }
    }

    /// The file that is put in place next at this name gets this modification time, as far as the folder can.
    pub(crate) fn set_modified(&mut self, name: &SafeName, seconds: i64, nanoseconds: u32) {
        if let Ok(mut store) = self.opened() {
            // (out of memory, it gets the time at which it is written)
            let _ = self
                .stores
                .set_modified(&mut store, name, seconds, nanoseconds);
            self.store = Some(store);
        }
    }

    /// Removes the versions of moments before so many seconds since 1970, if the directory is there. Returns how many files these were.
    pub(crate) fn remove_versions(&mut self, before: u64) -> Result<usize, StoreRefusal>
        ensures plain { IfErr result IsPlain }
        ensures path { self.new.path ≡ self.old.path }
    {
        let mut store = self.opened_there()?;
        let answer = self.stores.remove_versions(&mut store, before);
        self.store = Some(store);
        answer
    }

    /// Whether the last `StoreFault` came of a disk that is full, or of a quota.
    pub(crate) fn lacks_room(&self) -> bool {
        match &self.store {
            Some(store) => self.stores.lacks_room(store),
            None => false,
        }
    }

    /// What the system said where the last call was a `StoreFault`, if it came of an error of the system.
    pub(crate) fn last_error(&self) -> Option<io::Error> {
        match &self.store {
            Some(store) => self.stores.last_error(store),
            None => None,
        }
    }

    /// What is in the directory, if it is there afterwards.
    pub(crate) fn list(&mut self) -> Result<Listing, StoreRefusal>
        ensures order { IfOk result IsInOrder }
        ensures refusals { IfErr result IsPlain }
        ensures answers { Answers T.opens T.looks T.takes S.gives self.old.path.now self.old.store ListAll result self.new.store }
        ensures path { self.new.path ≡ self.old.path }
    {
        let mut store = self.opened()?;
        match store.list() {
            Ok(listing) => self.if_there(store, Ok(listing)),
            Err(refusal) => {
                self.store = Some(store);
                Err(refusal)
            }
        }
    }

    /// What is at a name; that nothing is there counts only if the directory is.
    pub(crate) fn stat(&mut self, name: &SafeName) -> Result<Stat, StoreRefusal>
        ensures refusals { IfErr result IsPlain }
        ensures answers { Answers T.opens T.looks T.takes S.gives self.old.path.now self.old.store (StatAt name.now) result self.new.store }
        ensures path { self.new.path ≡ self.old.path }
    {
        let mut store = self.opened()?;
        let answer = store.stat(name);
        if is_missing(&answer) {
            return self.if_there(store, answer);
        }
        self.store = Some(store);
        answer
    }

    /// Reads bytes of a file.
    pub(crate) fn read_at(
        &mut self,
        name: &SafeName,
        offset: u64,
        buffer: &mut [u8],
    ) -> Result<usize, StoreRefusal>
        ensures bound { IfOk result (λ k. k ≤ length buffer.new) }
        ensures refusals { IfErr result IsPlain }
        ensures answers { Answers T.opens T.looks T.takes S.gives self.old.path.now self.old.store (ReadAt name.now offset buffer.old buffer.new) result self.new.store }
        ensures path { self.new.path ≡ self.old.path }
    {
        let mut store = self.opened()?;
        let answer = store.read_at(name, offset, buffer);
        self.store = Some(store);
        answer
    }

    /// Makes an empty temporary file.
    pub(crate) fn make_temp(&mut self, name: &SafeName) -> Result<(), StoreRefusal>
        ensures refusals { result ≢ Err NotEmpty }
        ensures answers { Answers T.opens T.looks T.takes S.gives self.old.path.now self.old.store (MakeTemp name.now) result self.new.store }
        ensures path { self.new.path ≡ self.old.path }
    {
        let mut store = self.opened_there()?;
        let answer = store.make_temp(name);
        self.store = Some(store);
        answer
    }

    /// Writes bytes to it.
    pub(crate) fn write_at(
        &mut self,
        name: &SafeName,
        offset: u64,
        bytes: &[u8],
    ) -> Result<(), StoreRefusal>
        ensures refusals { IfErr result IsPlain }
        ensures answers { Answers T.opens T.looks T.takes S.gives self.old.path.now self.old.store (WriteAt name.now offset bytes.now) result self.new.store }
        ensures path { self.new.path ≡ self.old.path }
    {
        let mut store = self.opened()?;
        let answer = store.write_at(name, offset, bytes);
        self.store = Some(store);
        answer
    }

    /// Puts it in place.
    pub(crate) fn commit_temp(&mut self, name: &SafeName) -> Result<(), StoreRefusal>
        ensures refusals { IfErr result IsPlain }
        ensures answers { Answers T.opens T.looks T.takes S.gives self.old.path.now self.old.store (CommitTemp name.now) result self.new.store }
        ensures path { self.new.path ≡ self.old.path }
    {
        let mut store = self.opened_there()?;
        let answer = store.commit_temp(name);
        self.store = Some(store);
        answer
    }

    /// Removes it.
    pub(crate) fn drop_temp(&mut self, name: &SafeName) -> Result<(), StoreRefusal>
        ensures refusals { IfErr result IsPlain }
        ensures answers { Answers T.opens T.looks T.takes S.gives self.old.path.now self.old.store (DropTemp name.now) result self.new.store }
        ensures path { self.new.path ≡ self.old.path }
    {
        let mut store = self.opened()?;
        let answer = store.drop_temp(name);
        self.store = Some(store);
        answer
    }

    /// Moves a file.
    pub(crate) fn rename(&mut self, from: &SafeName, to: &SafeName) -> Result<(), StoreRefusal>
        ensures refusals { result ≢ Err NotEmpty }
        ensures answers { Answers T.opens T.looks T.takes S.gives self.old.path.now self.old.store (Rename from.now to.now) result self.new.store }
        ensures path { self.new.path ≡ self.old.path }
    {
        let mut store = self.opened_there()?;
        let answer = store.rename(from, to);
        self.store = Some(store);
        answer
    }

    /// Removes a file.
    pub(crate) fn remove(&mut self, name: &SafeName) -> Result<(), StoreRefusal>
        ensures refusals { IfErr result IsPlain }
        ensures answers { Answers T.opens T.looks T.takes S.gives self.old.path.now self.old.store (Remove name.now) result self.new.store }
        ensures path { self.new.path ≡ self.old.path }
    {
        let mut store = self.opened_there()?;
        let answer = store.remove(name);
        self.store = Some(store);
        answer
    }

    /// Makes a directory.
    pub(crate) fn make_dir(&mut self, name: &SafeName) -> Result<(), StoreRefusal>
        ensures refusals { result ≢ Err NotEmpty }
        ensures answers { Answers T.opens T.looks T.takes S.gives self.old.path.now self.old.store (MakeDir name.now) result self.new.store }
        ensures path { self.new.path ≡ self.old.path }
    {
        let mut store = self.opened_there()?;
        let answer = store.make_dir(name);
        self.store = Some(store);
        answer
    }

    /// Removes a directory.
    pub(crate) fn remove_dir(&mut self, name: &SafeName) -> Result<(), StoreRefusal>
        ensures refusals { result ≢ Err BadParent }
        ensures answers { Answers T.opens T.looks T.takes S.gives self.old.path.now self.old.store (RemoveDir name.now) result self.new.store }
        ensures path { self.new.path ≡ self.old.path }
    {
        let mut store = self.opened_there()?;
        let answer = store.remove_dir(name);
        self.store = Some(store);
        answer
    }
}

// Whether nothing is at the name.
fn is_missing(answer: &Result<Stat, StoreRefusal>) -> bool
    ensures { (name : List ℕ) → result ≡ tells_absence (StatAt name) answer.now }
{
    match answer {
        Ok(Stat::Missing) => true,
        Ok(Stat::File(_, _)) => false,
        Ok(Stat::Directory) => false,
        Ok(Stat::Other) => false,
        Err(_) => false,
    }
}
