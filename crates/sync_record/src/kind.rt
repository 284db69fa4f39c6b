//! The kind of a record: a file, a directory, or something else, such as a symlink.
/// What a name is of.
#[derive(Clone, Copy, Debug, PartialEq, Eq)]
pub enum Kind {
    File,
    Directory,
    /// A symlink, or what this version of the protocol does not know.
    Other,
}
