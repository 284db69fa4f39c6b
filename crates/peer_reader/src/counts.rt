//! What the reader of a connection counted: changes, records with unsafe names, messages for unshared folders.
/// What a reader counted, each up to `u64::MAX`.
#[derive(Clone, Copy, Debug, PartialEq, Eq)]
pub struct ReaderCounts {
    /// Changes that were made.
    pub changes: u64,
    /// Records of these changes that were skipped, since their names are not safe.
    pub skipped: u64,
    /// Messages for folders that are not shared.
    pub unshared: u64,
}

impl ReaderCounts {
    ghost use Rattle.std.specs.Prelude.{◌≡◌};
    ghost use Rattle.peer_reader.specs.Counts.{no_counts, one_change, one_unshared, with_skipped};

    /// Before anything was read.
    pub fn new() -> ReaderCounts
        ensures { result ≡ no_counts }
    {
        ReaderCounts {
            changes: 0,
            skipped: 0,
            unshared: 0,
        }
    }

    pub(crate) fn count_change(&mut self)
        ensures { self.new ≡ one_change self.old }
    {
        self.changes = self.changes.saturating_add(1);
    }

    pub(crate) fn count_skipped(&mut self, skipped: u64)
        ensures { self.new ≡ with_skipped skipped self.old }
    {
        self.skipped = self.skipped.saturating_add(skipped);
    }

    pub(crate) fn count_unshared(&mut self)
        ensures { self.new ≡ one_unshared self.old }
    {
        self.unshared = self.unshared.saturating_add(1);
    }
}
