//! What a command is done with.
use std::alloc::Global;
use sync_version::Moment;

/// What a command is done with: threads, memory, and the moment at which it is given.
#[derive(Drop)]
pub(crate) struct CommandContext<'a, T> {
    pub(crate) rt: &'a T,
    pub(crate) alloc: Global,
    pub(crate) moment: Moment,
}
