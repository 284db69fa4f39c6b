//! How two version vectors compare: equal, one dominates the other, or concurrent (a conflict).
ghost use Rattle.std.specs.Prelude.{◌≡◌};
ghost use Rattle.sync_version.specs.Computed.{relation_by};

/// How one version compares to another (Syncthing, "Understanding Synchronization").
#[derive(Clone, Copy, Debug, PartialEq, Eq)]
pub enum Relation {
    /// Both have the same counters.
    Equal,
    /// No counter of the first is smaller, and one is greater: the first has seen all that the second has.
    Dominates,
    /// The second dominates the first.
    Dominated,
    /// Each has a counter that is greater than the other's: two edits that did not see each other.
    Concurrent,
}

impl Relation {
    // The relation of two versions of which the first covers the second, or the second the first, or both, or neither.
    pub(crate) fn by_covering(covers: bool, covered: bool) -> Relation
        ensures { result ≡ relation_by covers covered }
    {
        match (covers, covered) {
            (true, true) => Relation::Equal,
            (true, false) => Relation::Dominates,
            (false, true) => Relation::Dominated,
            (false, false) => Relation::Concurrent,
        }
    }
}
