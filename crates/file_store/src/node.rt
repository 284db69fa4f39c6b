//! What is at a name.
ghost use Rattle.std.specs.Prelude.{◌≡◌, Some};
ghost use Rattle.file_store.specs.Trees.{is_file, node_modified};

use crate::Content;
use sync_names::SafeName;
use sync_version::Moment;

/// What is at a name.
#[derive(Drop)]
pub enum Node {
    /// A directory.
    Directory,
    /// A file with its bytes, and when it was modified.
    File(Content, Moment),
}

impl Node {
    /// Says that a file was modified at this moment. Returns whether it is a file. O(1).
    pub(crate) fn set_modified(&mut self, moment: Moment) -> bool
        ensures result { result ≡ is_file (Some self.old) }
        ensures changed { Some self.new ≡ node_modified moment (Some self.old) }
    {
        match self {
            Node::Directory => false,
            Node::File(_, modified) => {
                *modified = moment;
                true
            }
        }
    }
}

/// What a store says of a name.
#[derive(Clone, Copy, Debug, PartialEq, Eq)]
pub enum Stat {
    /// Nothing is there.
    Missing,
    /// A directory is there.
    Directory,
    /// A file of so many bytes, and when it was modified: 1970-01-01T00:00:00Z if the store does not know.
    File(u64, Moment),
    /// Something else is there: a symbolic link, a pipe, a socket or a device.
    Other,
}

/// Whether a listed name is that of a directory or of a file.
#[derive(Clone, Copy, Debug, PartialEq, Eq)]
pub enum Kind {
    /// That of a directory.
    Directory,
    /// That of a file.
    File,
}

/// A name of a listing.
#[derive(Debug, Drop)]
pub struct Listed {
    /// The name.
    pub name: SafeName,
    /// What is there.
    pub kind: Kind,
}

/// What a store has, as [`FileStore::list`] returns it.
///
/// [`FileStore::list`]: crate::FileStore::list
#[derive(Debug, Drop)]
pub struct Listing {
    /// The names of files and directories with their kinds, in the order of their bytes, each once.
    pub entries: Vec<Listed>,
    /// The directories whose entries could not all be read, in the order of their bytes, each once. What is below them may be
    /// there though it is not in `entries`; they themselves are in `entries`.
    pub unread: Vec<SafeName>,
}
