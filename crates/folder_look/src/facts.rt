//! What the system says of an entry of a directory.
ghost use Rattle.std.specs.Prelude.{◌≡◌, ◌↔◌, IsTrue};
ghost use Rattle.folder_look.specs.Tables.{are_same, same_kind};

/// What an entry of a directory is.
#[derive(Clone, Copy, Debug)]
pub enum EntryKind {
    /// A file.
    File,
    /// A directory.
    Directory,
    /// Anything else, as a symbolic link.
    Other,
}

/// What the system says of an entry of a directory, without what is in it. Times are in nanoseconds since 1970.
#[derive(Clone, Copy, Debug)]
pub struct Facts {
    /// What it is.
    pub kind: EntryKind,
    /// How many bytes it has.
    pub size: u64,
    /// When its bytes were changed last, as it says.
    pub modified: i64,
    /// When anything of it was.
    pub changed: i64,
    /// Which one it is, whatever its name.
    pub inode: u64,
}

/// An entry of a directory.
#[derive(Drop)]
pub struct Entry {
    /// Its name in the directory.
    pub name: String,
    /// What it is now.
    pub facts: Facts,
}

impl EntryKind {
    /// Whether both are the same. O(1).
    pub fn is(self, other: EntryKind) -> bool
        ensures same { result ≡ same_kind self other }
        ensures as_is { IsTrue result ↔ (self ≡ other) }
    {
        match (self, other) {
            (EntryKind::File, EntryKind::File) => true,
            (EntryKind::Directory, EntryKind::Directory) => true,
            (EntryKind::Other, EntryKind::Other) => true,
            _ => false,
        }
    }
}

impl Facts {
    /// Whether both are the same. O(1).
    pub fn is(self, other: Facts) -> bool
        ensures same { result ≡ are_same self other }
        ensures as_is { IsTrue result ↔ (self ≡ other) }
    {
        self.kind.is(other.kind)
            && self.size == other.size
            && self.modified == other.modified
            && self.changed == other.changed
            && self.inode == other.inode
    }
}
