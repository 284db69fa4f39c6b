//! How the files of a folder are kept.

/// How the files of a folder are kept by what changes them.
#[derive(Clone, Copy, Debug, PartialEq, Eq)]
pub struct Habits {
    /// Whether a file that is replaced or removed is kept as a version, below `.stversions`.
    pub keeps_versions: bool,
    /// The permission bits of a file that is put where none was; a directory that is made has those too, and may be searched by whom it may be read by. Without
    /// them both are made as the system makes any. What is put at a file's name has that file's.
    pub mode: Option<u32>,
}
