//! Values by name.
ghost use Rattle.std.specs.Prelude.{◌≡◌, ◌≢◌, ◌<◌, ◌+◌, length, true, false, IfErr, IfOk, IfSome, IsTrue, List, ℕ, Option, Some, None, is_some, IsSome, unwrap_or, [], if◌then◌else◌, MatchResult, MatchOption, option_copied};
ghost use Rattle.file_store.specs.Contents.{overwritten};
ghost use Rattle.file_store.specs.Listings.{IsListing};
ghost use Rattle.file_store.specs.Maps.{found_at, put_at};
ghost use Rattle.file_store.specs.Names.{Name, is_parent};
ghost use Rattle.file_store.specs.Trees.{is_file, modified_at};

use crate::listing::{kind_of, safe_name};
use crate::parents::is_below;
use crate::{Content, Listed, Listing, Node};
use std::alloc::{AllocError, Global};
use std::collections::BTreeMap;
use sync_version::Moment;

/// Values by name. Contracts see what is at each name.
#[derive(Drop)]
pub struct NameMap<V> {
    map: BTreeMap<String, V>,
}

impl<V> NameMap<V> {
    /// No values. Does not allocate.
    pub(crate) fn new(alloc: Global) -> NameMap<V>
        ensures { (q : List ℕ) → found_at result q ≡ None }
    {
        NameMap {
            map: BTreeMap::new(alloc),
        }
    }

    /// What is at a name. O(log n).
    pub(crate) fn get(&self, name: &str) -> Option<&V>
        ensures { option_copied result ≡ found_at self.now name.now }
    {
        self.map.get(name)
    }

    /// Whether something is at a name. O(log n).
    pub(crate) fn contains(&self, name: &str) -> bool
        ensures { result ≡ is_some (found_at self.now name.now) }
    {
        self.map.contains_key(name)
    }

    /// Whether something is below a directory. O(n).
    pub(crate) fn has_below(&self, dir: &str) -> bool
        ensures some { IsTrue result → (q : Name) × (is_parent dir.now q ≡ true) × IsSome (found_at self.now q) }
        ensures none { result ≡ false → (q : Name) → is_parent dir.now q ≡ true → found_at self.now q ≡ None }
    {
        for (name, _) in self.map.iter() {
            if is_below(name.as_str(), dir) {
                return true;
            }
        }
        false
    }
}

impl NameMap<Node> {
    /// The safe names among all, with their kinds, in the order of their bytes. O(n), and the test of each name.
    pub(crate) fn list(&self, alloc: Global) -> Result<Listing, AllocError>
        ensures listing { IfOk result (λ listing. IsListing (found_at self.now) listing) }
        ensures failed { IfErr result (λ _. (q : Name) × IsSome (found_at self.now q)) }
    {
        let mut entries = Vec::new(alloc);
        for (text, node) in self.map.iter() {
            if let Some(name) = safe_name(alloc, text.as_str())? {
                entries.push(Listed {
                    name,
                    kind: kind_of(node),
                })?;
            }
        }
        Ok(Listing {
            entries,
            unread: Vec::new(alloc),
        })
    }

    /// Says that the file at a name was modified at this moment. Returns whether a file is there. Does not allocate. O(log n).
    pub(crate) fn set_modified(&mut self, name: &str, moment: Moment) -> bool
        ensures result { result ≡ is_file (found_at self.old name.now) }
        ensures left { found_at self.new ≡ modified_at name.now moment (found_at self.old) }
    {
        match self.map.get_mut(name) {
            Some(node) => node.set_modified(moment),
            None => false,
        }
    }
}

impl<V: Drop> NameMap<V> {
    /// Puts a value at a name, in place of what is there. Out of memory changes nothing. O(log n).
    pub(crate) fn insert(&mut self, alloc: Global, name: &str, value: V) -> Result<(), AllocError>
        ensures { MatchResult result
            (λ _. found_at self.new ≡ put_at name.now (Some value) (found_at self.old))
            (λ _. found_at self.new ≡ found_at self.old) }
    {
        let key = String::from_str(alloc, name)?;
        self.map.insert(key, value)?;
        Ok(())
    }

    /// Takes out what is at a name. O(log n).
    pub(crate) fn remove(&mut self, name: &str) -> Option<V>
        ensures taken { result ≡ found_at self.old name.now }
        ensures left { found_at self.new ≡ put_at name.now None (found_at self.old) }
    {
        self.map.remove(name)
    }

    /// Puts a value in place of what is at a name; where nothing is there, changes nothing. Does not allocate. O(log n).
    pub(crate) fn replace(&mut self, name: &str, value: V)
        ensures { found_at self.new
            ≡ (if is_some (found_at self.old name.now) then put_at name.now (Some value) (found_at self.old) else found_at self.old) }
    {
        if let Some(place) = self.map.get_mut(name) {
            *place = value;
        }
    }
}

impl NameMap<Content> {
    /// Writes a piece to the content at a name, as [`Content::write_at`]; `None` if nothing is there. O(log n), and O(m) for m written
    /// bytes.
    pub(crate) fn write_at(
        &mut self,
        name: &str,
        offset: usize,
        piece: &[u8],
    ) -> Option<Result<(), AllocError>>
        ensures none { MatchOption result (found_at self.old name.now ≡ None) (λ _. IsSome (found_at self.old name.now)) }
        ensures left { MatchOption result
            (found_at self.new ≡ found_at self.old)
            (λ written. MatchResult written
            (λ _. found_at self.new
            ≡ put_at name.now (Some (overwritten (unwrap_or (found_at self.old name.now) []) offset piece.now)) (found_at self.old))
            (λ _. found_at self.new ≡ found_at self.old)) }
        ensures failed { IfSome result (λ written. IfErr written (λ _.
            (piece.now ≢ []) × (length (unwrap_or (found_at self.old name.now) []) < offset + length piece.now))) }
    {
        match self.map.get_mut(name) {
            Some(content) => Some(content.write_at(offset, piece)),
            None => None,
        }
    }
}
