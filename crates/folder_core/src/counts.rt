//! How many files, directories, deletions, needed names and open pulls a folder has, and its last sequence.
/// How much a folder has.
#[derive(Clone, Copy, Debug, PartialEq, Eq)]
pub struct Counts {
    /// Live local files.
    pub files: u64,
    /// Live local directories.
    pub directories: u64,
    /// Local deletions.
    pub deletions: u64,
    /// Needed names.
    pub needed: u64,
    /// Records of other devices.
    pub others: u64,
    /// Open pulls.
    pub pulls: u64,
    /// The last local sequence.
    pub last: u64,
}
