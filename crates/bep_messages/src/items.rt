//! Lists of values, as repeated fields of messages have them; and copies that may run out of memory.
ghost use Rattle.std.specs.Prelude.{◌≡◌, [], ◌∷◌, ◌++◌, IfOk, IsOk, OnOk, OnErr};

use std::alloc::{AllocError, Global};
use std::marker::Model;

/// A list of values. Contracts see the list alone, and not the `Vec` that keeps it.
#[derive(Debug, Drop)]
pub struct Items<T> {
    items: Vec<T>,
}

impl<T> Model for Items<T> {
    ghost use Rattle.std.specs.Prelude.{List};

    ghost Value = { List T };

    ghost view = { λ s. s.items.items };
}

impl<T> Items<T> {
    /// The empty list. Does not allocate.
    pub fn new(alloc: Global) -> Self
        ensures { result ≡ [] }
    {
        Items {
            items: Vec::new(alloc),
        }
    }

    /// The list of a vector's elements. Does not allocate.
    pub fn from_vec(items: Vec<T>) -> Self
        ensures { result ≡ items.items }
    {
        Items { items }
    }

    /// The vector. Does not allocate.
    pub fn into_vec(self) -> Vec<T>
        ensures { result.items ≡ self }
    {
        let Items { items } = self;
        items
    }

    /// The elements. O(1).
    pub fn as_slice(&self) -> &[T]
        ensures { result.now ≡ self.now }
    {
        self.items.as_slice()
    }
}

impl<T: Drop> Items<T> {
    /// Appends an element, in amortized O(1). Fails only if allocation fails, and then the list is as
    /// it was.
    pub fn push(&mut self, item: T) -> Result<(), AllocError>
        ensures ok { OnOk result (self.new ≡ self.old ++ item ∷ []) }
        ensures err { OnErr result (self.new ≡ self.old) }
    {
        self.items.push(item)?;
        Ok(())
    }
}

/// What can be copied, unless allocation fails.
pub trait Copied: Drop {
    /// Which values are copied without memory of their own, as an empty list is: copying these does not allocate.
    ghost needs_no_memory: { Self → Type 0 };

    /// An equal value of its own. Fails only if allocation fails, and never for a value that needs no memory.
    fn copy(&self) -> Result<Self, AllocError>
        ensures value { IfOk result (λ x. x ≡ self.now) }
        ensures memory { needs_no_memory self.now → IsOk result };
}

impl<T: Copy> Items<T> {
    /// The same list once more, of elements that are copied as they are. Returns `Err` if it could not be allocated,
    /// and never for the empty list. O(n) time and memory.
    pub fn to_items(&self) -> Result<Items<T>, AllocError>
        ensures value { IfOk result (λ items. items ≡ self.now) }
        ensures empty { self.now ≡ [] → IsOk result }
    {
        let mut items = Vec::with_capacity(*self.items.allocator(), self.items.len())?;
        items.extend_from_slice(&self.items)?;
        Ok(Items { items })
    }
}

impl<T: Copied> Copied for Items<T> {
    ghost needs_no_memory = { λ items. items ≡ [] };

    fn copy(&self) -> Result<Self, AllocError> {
        let mut items = Vec::with_capacity(*self.items.allocator(), self.items.len())?;
        for item in &self.items {
            items.push(item.copy()?)?;
        }
        Ok(Items { items })
    }
}

impl<T: PartialEq> PartialEq for Items<T> {
    ghost use Rattle.std.specs.Cmp.Lexicographic.{lists_per, pointwise};

    ghost eq = { pointwise T.eq };

    ghost laws = { lists_per T.laws };

    /// Whether both have as many elements, each equal to the other's at its place. Does not allocate. O(n) comparisons.
    fn eq(&self, other: &Items<T>) -> bool {
        self.items == other.items
    }
}

impl<T: Eq> Eq for Items<T> {
    ghost use Rattle.std.specs.Cmp.Lexicographic.{lists_equiv};

    ghost laws = { lists_equiv T.Eq.laws };
}
