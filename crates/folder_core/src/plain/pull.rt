//! An open pull of a plain folder: its number, its base and target records, and the record that it will announce.
use super::own::version_of;
use sync_record::Record;

/// An open pull, under its target's name.
#[derive(Debug, Drop)]
pub struct OpenPull {
    /// No two open pulls have the same one.
    pub number: u64,
    /// The local record when it began, if there was one.
    pub base: Option<Record>,
    pub target: Record,
    /// What will be announced at its end, made when its commit was entered, so that the end does not allocate. Only its
    /// sequence is missing.
    pub ready: Option<Record>,
}

impl PartialEq for OpenPull {
    ghost use Rattle.std.specs.Cmp.{partial_equiv_from_equiv};
    ghost use Rattle.folder_core.specs.PlainRestores.{same_pull, same_pull_equiv};

    ghost eq = { same_pull };

    ghost laws = { partial_equiv_from_equiv same_pull_equiv };

    /// Whether the states have the same pull: of its base they have the version, and of what is ready that it is there.
    /// Does not allocate. O(s) for s bytes of both.
    fn eq(&self, other: &OpenPull) -> bool {
        self.number == other.number
            && version_of(self.base.as_ref()) == version_of(other.base.as_ref())
            && self.target == other.target
            && self.ready.is_some() == other.ready.is_some()
    }
}
