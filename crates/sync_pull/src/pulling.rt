//! What a pull is made with.
use crate::MaxConflicts;
use std::alloc::Global;
use sync_version::Moment;

// What a pull is made with: threads, memory, a gate, the moment, and how many conflict copies are kept.
#[derive(Drop)]
pub(crate) struct Pulling<'a, R, G> {
    pub(crate) rt: &'a R,
    pub(crate) alloc: Global,
    pub(crate) gate: &'a G,
    // It is in the name of a conflict copy.
    pub(crate) moment: Moment,
    pub(crate) max_conflicts: MaxConflicts,
}
