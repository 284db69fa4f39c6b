//! What a call of a folder returned, with how long the folder's history was then.
/// What a call returned, and at which point of the history.
#[derive(Debug, PartialEq, Eq, Drop)]
pub struct At<T> {
    /// The number of entries of the history at that point, the call's own among them if it has one.
    pub at: u64,
    pub value: T,
}
