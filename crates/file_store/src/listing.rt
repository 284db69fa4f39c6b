//! What a listing says of a name.
ghost use Rattle.std.specs.Prelude.{◌≡◌, None, is_none, false, IfOk, MatchOption};
ghost use Rattle.file_store.specs.Listings.{kind_of};
ghost use Rattle.sync_names.specs.Refusal.{refusal};

use crate::{Kind, Node};
use std::alloc::{AllocError, Global};
use sync_names::{NameFault, SafeName};

/// A copy of a text as a name, if it is safe.
pub(crate) fn safe_name(alloc: Global, text: &str) -> Result<Option<SafeName>, AllocError>
    ensures { IfOk result (λ found. MatchOption found
        (is_none (refusal text.now) ≡ false)
        (λ name. (refusal text.now ≡ None) × (name ≡ text.now))) }
{
    match SafeName::parse(alloc, text) {
        Ok(name) => Ok(Some(name)),
        Err(NameFault::OutOfMemory) => Err(AllocError),
        Err(_) => Ok(None),
    }
}

/// Whether it is a directory or a file.
pub(crate) fn kind_of(node: &Node) -> Kind
    ensures { result ≡ kind_of node.now }
{
    match node {
        Node::Directory => Kind::Directory,
        Node::File(..) => Kind::File,
    }
}
