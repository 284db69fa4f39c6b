//! What a scan is made with: threads to hash on, memory, a gate, and the moment that is recorded.
use std::alloc::Global;
use sync_version::Moment;

/// What a scan is made with, the same for all its names.
#[derive(Drop)]
pub(crate) struct Scanning<'a, R, G> {
    /// On whose threads blocks are hashed.
    pub(crate) rt: &'a R,
    pub(crate) alloc: Global,
    /// What is passed before each call of the store and of the folder, and before blocks are hashed.
    pub(crate) gate: &'a G,
    /// When what is found is recorded.
    pub(crate) moment: Moment,
}
