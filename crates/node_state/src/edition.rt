//! The version of a state file: 1 or 2.
/// Which version of the state file a text is.
#[derive(Clone, Copy, Debug, PartialEq, Eq)]
pub enum Edition {
    /// Version 1, which has no peers.
    First,
    /// Version 2.
    Second,
}
