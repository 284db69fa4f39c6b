//! A store in memory.
ghost use Rattle.std.specs.Prelude.{◌≡◌, ◌⊎◌, ◌+◌, ◌-◌, ◌^◌, ℕ, List, [], true, false, min, take, drop, length, Option, Some, None, is_some, option_copied, IsTrue, IsSome};
ghost use Rattle.file_store.specs.declared.refusal.StoreRefusal.TheVariants.{StoreFault};
ghost use Rattle.file_store.specs.declared.node.Node.TheVariants.{Directory, File};
ghost use Rattle.file_store.specs.Calls.{stat_of};
ghost use Rattle.file_store.specs.Maps.{found_at, put_at};
ghost use Rattle.file_store.specs.Names.{Name, is_parent};
ghost use Rattle.file_store.specs.Trees.{AreGrounded, IsTree, is_directory, is_file, tree_of};

use crate::missing::has_bad_parent;
use crate::name_map::NameMap;
use crate::parents::parent_of;
use crate::{Content, FileStore, Listing, Node, Stat, StoreRefusal, changes};
use std::alloc::Global;
use sync_names::SafeName;
use sync_version::Moment;

/// A store in memory. A file that it commits was modified at 1970-01-01T00:00:00Z, until [`MemStore::set_modified`] says otherwise.
///
/// Below, n is how many names and temporary files there are, and d how many parents of a name are missing.
#[derive(Drop)]
pub struct MemStore {
    alloc: Global,
    names: NameMap<Node>,
    temps: NameMap<Content>,
    faults: u64,
    ghost sound: { IsTree (tree_of (found_at names) (found_at temps)) },
}

impl MemStore {
    ghost use Rattle.file_store.specs.Stores.{empty_tree, mem_faults, mem_tree};
    ghost use Rattle.file_store.specs.Trees.{modified_at};

    /// An empty store. Does not allocate.
    pub fn new(alloc: Global) -> MemStore
        ensures tree { mem_tree result ≡ empty_tree }
        ensures faults { mem_faults result ≡ 0 }
    {
        MemStore {
            alloc,
            names: NameMap::new(alloc),
            temps: NameMap::new(alloc),
            faults: 0,
        }
    }

    /// Says that the file at a name was modified at this moment. Returns whether a file is there; if none is, nothing changes. Does
    /// not allocate. O(log n).
    pub fn set_modified(&mut self, name: &SafeName, moment: Moment) -> bool
        ensures result { result ≡ is_file ((mem_tree self.old).names name.now) }
        ensures tree { mem_tree self.new
            ≡ tree_of (modified_at name.now moment (mem_tree self.old).names) (mem_tree self.old).temps }
        ensures faults { mem_faults self.new ≡ mem_faults self.old }
    {
        self.names.set_modified(name.as_str(), moment)
    }
}

impl FileStore for MemStore {
    ghost use Rattle.std.specs.Prelude.{true};
    ghost use Rattle.file_store.specs.Stores.{mem_faults, mem_gives, mem_tree};

    ghost keeps = { true };

    ghost fails = { λ _. ⊥ };

    ghost tree = { mem_tree };

    ghost fault_count = { mem_faults };

    ghost gives = { mem_gives };

    /// O(1).
    fn faults(&self) -> u64 {
        self.faults
    }

    /// O(n), and a copy of each name.
    fn list(&mut self) -> Result<Listing, StoreRefusal> {
        Ok(self.names.list(self.alloc)?)
    }

    /// Does not allocate. O(log n).
    fn stat(&mut self, name: &SafeName) -> Result<Stat, StoreRefusal> {
        Ok(stat_of(self.names.get(name.as_str())))
    }

    /// Does not allocate. O(log n), and O(m) for m bytes that are read.
    fn read_at(
        &mut self,
        name: &SafeName,
        offset: u64,
        buffer: &mut [u8],
    ) -> Result<usize, StoreRefusal> {
        match self.names.get(name.as_str()) {
            Some(Node::File(content, _)) => Ok(content.read_at(offset as usize, buffer)),
            _ => Ok(0),
        }
    }

    /// O((d + 1) log n).
    fn make_temp(&mut self, name: &SafeName) -> Result<(), StoreRefusal> {
        let name = name.as_str();
        if has_bad_parent(&self.names, name) {
            return Err(StoreRefusal::BadParent);
        }
        changes::make_temp(self.alloc, &mut self.names, &mut self.temps, name)?;
        Ok(())
    }

    /// O(log n), and O(m) for m bytes that are written; amortized, also for the bytes of a gap.
    fn write_at(&mut self, name: &SafeName, offset: u64, bytes: &[u8]) -> Result<(), StoreRefusal> {
        match self.temps.write_at(name.as_str(), offset as usize, bytes) {
            Some(Ok(())) => Ok(()),
            Some(Err(_)) => Err(StoreRefusal::OutOfMemory),
            None => Err(fault(&mut self.faults)),
        }
    }

    /// O(log n), whatever the size of the file.
    fn commit_temp(&mut self, name: &SafeName) -> Result<(), StoreRefusal> {
        let name = name.as_str();
        if !self.temps.contains(name) {
            return Err(fault(&mut self.faults));
        }
        if is_directory(self.names.get(name)) {
            return Err(fault(&mut self.faults));
        }
        changes::commit_temp(self.alloc, &mut self.names, &mut self.temps, name)?;
        Ok(())
    }

    /// Does not allocate. O(log n).
    fn drop_temp(&mut self, name: &SafeName) -> Result<(), StoreRefusal> {
        self.temps.remove(name.as_str());
        Ok(())
    }

    /// O((d + 1) log n), whatever the size of the file.
    fn rename(&mut self, from: &SafeName, to: &SafeName) -> Result<(), StoreRefusal> {
        let (from, to) = (from.as_str(), to.as_str());
        if has_bad_parent(&self.names, to) {
            return Err(StoreRefusal::BadParent);
        }
        if !can_move(&self.names, from, to) {
            return Err(fault(&mut self.faults));
        }
        changes::rename(self.alloc, &mut self.names, from, to)?;
        Ok(())
    }

    /// Does not allocate. O(log n).
    fn remove(&mut self, name: &SafeName) -> Result<(), StoreRefusal> {
        if !is_file(self.names.get(name.as_str())) {
            return Err(fault(&mut self.faults));
        }
        self.names.remove(name.as_str());
        Ok(())
    }

    /// O((d + 1) log n).
    fn make_dir(&mut self, name: &SafeName) -> Result<(), StoreRefusal> {
        let name = name.as_str();
        if has_bad_parent(&self.names, name) {
            return Err(StoreRefusal::BadParent);
        }
        if self.names.contains(name) {
            return Err(fault(&mut self.faults));
        }
        changes::make_dir(self.alloc, &mut self.names, name)?;
        Ok(())
    }

    /// Does not allocate. O(n): it looks for what is in the directory among all names.
    fn remove_dir(&mut self, name: &SafeName) -> Result<(), StoreRefusal> {
        let name = name.as_str();
        if !is_directory(self.names.get(name)) {
            return Err(fault(&mut self.faults));
        }
        if self.names.has_below(name) || self.temps.has_below(name) {
            return Err(StoreRefusal::NotEmpty);
        }
        self.names.remove(name);
        Ok(())
    }
}

/// A fault, which is counted.
pub(crate) fn fault(faults: &mut u64) -> StoreRefusal
    ensures refusal { result ≡ StoreFault }
    ensures counted { faults.new ≡ min (faults.old + 1) (2 ^ 64 - 1) }
{
    *faults = faults.saturating_add(1);
    StoreRefusal::StoreFault
}

fn stat_of(node: Option<&Node>) -> Stat
    ensures { result ≡ stat_of (option_copied node.entry) }
{
    match node {
        None => Stat::Missing,
        Some(Node::Directory) => Stat::Directory,
        Some(Node::File(content, modified)) => Stat::File(content.len() as u64, *modified),
    }
}

fn is_file(node: Option<&Node>) -> bool
    ensures { result ≡ is_file (option_copied node.entry) }
{
    matches!(node, Some(Node::File(..)))
}

fn is_directory(node: Option<&Node>) -> bool
    ensures { result ≡ is_directory (option_copied node.entry) }
{
    matches!(node, Some(Node::Directory))
}

/// Whether a file is at `from`, nothing is at `to`, and the parents of `to`, of which none is a file, are there.
fn can_move(names: &NameMap<Node>, from: &str, to: &str) -> bool
    requires grounded { AreGrounded (found_at names.now) (found_at names.now) }
    requires free { (p : Name) → is_parent p to.now ≡ true → is_file (found_at names.now p) ≡ false }
    ensures file { IsTrue result → is_file (found_at names.now from.now) ≡ true }
    ensures room { IsTrue result → found_at names.now to.now ≡ None }
    ensures parents { IsTrue result → (p : Name) → is_parent p to.now ≡ true → found_at names.now p ≡ Some Directory }
    ensures refused { result ≡ false → (is_file (found_at names.now from.now) ≡ false) ⊎ IsSome (found_at names.now to.now)
        ⊎ ((p : Name) × (is_parent p to.now ≡ true) × (found_at names.now p ≡ None)) }
{
    if !is_file(names.get(from)) {
        return false;
    }
    if names.contains(to) {
        return false;
    }
    !misses_parent(names, to)
}

/// Whether a parent of the name is missing, where none is a file.
fn misses_parent(names: &NameMap<Node>, name: &str) -> bool
    requires grounded { AreGrounded (found_at names.now) (found_at names.now) }
    requires free { (p : Name) → is_parent p name.now ≡ true → is_file (found_at names.now p) ≡ false }
    ensures missing { IsTrue result → (p : Name) × (is_parent p name.now ≡ true) × (found_at names.now p ≡ None) }
    ensures there { result ≡ false → (p : Name) → is_parent p name.now ≡ true → found_at names.now p ≡ Some Directory }
{
    match parent_of(name) {
        Some(parent) => !names.contains(parent),
        None => false,
    }
}
