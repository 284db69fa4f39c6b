//! How many files, directories, deletions, needed names and other devices' records an index has.
ghost use Rattle.std.specs.Prelude.{◌≡◌};

/// How much an index has.
#[derive(Clone, Copy, Debug, PartialEq, Eq)]
pub struct Totals {
    /// Live local files.
    pub files: u64,
    /// Live local directories.
    pub directories: u64,
    /// Local deletions.
    pub deletions: u64,
    /// Needed names.
    pub needed: u64,
    /// Records of other devices.
    pub others: u64,
}

impl Totals {
    ghost use Rattle.folder_index.specs.Groups.{HasRoom, IsChanged, IsSmall};

    /// Nothing. O(1).
    pub(crate) fn none() -> Totals
        ensures { result ≡ record { files = 0; directories = 0; deletions = 0; needed = 0; others = 0 } }
    {
        Totals {
            files: 0,
            directories: 0,
            deletions: 0,
            needed: 0,
            others: 0,
        }
    }

    /// The totals once a part that had `was` has `is`. O(1).
    pub(crate) fn changed(self, was: Totals, is: Totals) -> Totals
        requires room { HasRoom self was }
        requires small { IsSmall was is }
        ensures { IsChanged self was is result }
    {
        Totals {
            files: self.files + is.files - was.files,
            directories: self.directories + is.directories - was.directories,
            deletions: self.deletions + is.deletions - was.deletions,
            needed: self.needed + is.needed - was.needed,
            others: self.others - was.others + is.others,
        }
    }
}
