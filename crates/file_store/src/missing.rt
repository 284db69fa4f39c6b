//! The parents of a name in a map: whether one is a file, and those that are missing.
ghost use Rattle.std.specs.Prelude.{◌≡◌, ◌⊎◌, ◌&&◌, not, true, false, if◌then◌else◌, List, ℕ, Option, Some, None, IsTrue, MatchResult};
ghost use Rattle.file_store.specs.declared.node.Node.TheVariants.{Directory};
ghost use Rattle.file_store.specs.Maps.{found_at};
ghost use Rattle.file_store.specs.Names.{Name, is_parent};
ghost use Rattle.file_store.specs.Trees.{AreGrounded, is_file, with_parents};

use crate::Node;
use crate::name_map::NameMap;
use crate::parents::parent_of;
use std::alloc::{AllocError, Global};

/// Whether a parent of the name is a file. O(d log n) for d missing parents.
pub(crate) fn has_bad_parent(names: &NameMap<Node>, name: &str) -> bool
    requires grounded { AreGrounded (found_at names.now) (found_at names.now) }
    ensures bad { IsTrue result → (p : Name) × (is_parent p name.now ≡ true) × (is_file (found_at names.now p) ≡ true) }
    ensures good { result ≡ false → (p : Name) → is_parent p name.now ≡ true → is_file (found_at names.now p) ≡ false }
{
    let mut rest = name;
    while let Some(parent) = parent_of(rest) {
        match names.get(parent) {
            Some(Node::File(..)) => return true,
            Some(Node::Directory) => return false,
            None => rest = parent,
        }
    }
    false
}

/// Makes a directory of each missing parent of the name. Out of memory changes nothing. O(d log n) for d missing parents.
pub(crate) fn make_parents(
    alloc: Global,
    names: &mut NameMap<Node>,
    name: &str,
) -> Result<(), AllocError>
    requires grounded { AreGrounded (found_at names.old) (found_at names.old) }
    ensures { MatchResult result
        (λ _. found_at names.new ≡ with_parents name.now (found_at names.old))
        (λ _. found_at names.new ≡ found_at names.old) }
{
    let mut rest = name;
    while let Some(parent) = parent_of(rest) {
        if names.contains(parent) {
            return Ok(());
        }
        if names.insert(alloc, parent, Node::Directory).is_err() {
            remove_parents(names, name, rest);
            return Err(AllocError);
        }
        rest = parent;
    }
    Ok(())
}

/// Removes the parents of the name that are not parents of `top`, which is the name or a parent of it. O(d log n) for d such
/// parents.
pub(crate) fn remove_parents(names: &mut NameMap<Node>, name: &str, top: &str)
    requires top { (top.now ≡ name.now) ⊎ (is_parent top.now name.now ≡ true) }
    ensures { (q : Name) → found_at names.new q
        ≡ (if is_parent q name.now && not (is_parent q top.now) then None else found_at names.old q) }
{
    let mut rest = name;
    while rest.len() > top.len() {
        let Some(parent) = parent_of(rest) else {
            return;
        };
        names.remove(parent);
        rest = parent;
    }
}
