//! What all threads of a node share.
use crate::connections::Connections;
use crate::event::Event;
use crate::log::Log;
use std::alloc::Global;
use std::sync::Wait;
use std::time::{Clock, Duration};

/// What all threads of a node share, and nothing that one of them changes alone.
#[derive(Drop)]
pub struct Context<'x, R, G> {
    /// The system.
    pub rt: &'x R,
    /// Where memory comes from.
    pub alloc: Global,
    /// Where a test may hold what scanners, pullers and servers do.
    pub gate: &'x G,
    /// What is told.
    pub log: &'x Log,
    /// The connections that are up, and whether the node stops.
    pub connections: &'x Connections,
}

impl<R: Clock + Wait, G> Context<'_, R, G> {
    /// Tells that this happened.
    pub fn tell(&self, event: &Event) {
        self.log.tell(self.rt, event);
    }

    /// Takes note that this happened, without a line.
    pub fn note(&self, event: &Event) {
        self.log.note(self.rt, event);
    }

    /// Whether the node stops.
    pub fn is_stopping(&self) -> bool {
        self.connections.is_stopping(self.rt)
    }

    /// The node stops.
    pub fn stop(&self) {
        self.connections.stop(self.rt);
    }

    /// Whether the run ends.
    pub fn is_quitting(&self) -> bool {
        self.connections.is_quitting(self.rt)
    }

    /// The run ends, and so the node stops.
    pub fn quit(&self) {
        self.connections.quit(self.rt);
    }

    /// Waits for so many seconds, or until the node stops, and returns whether it does.
    pub fn pause(&self, seconds: u64) -> bool {
        self.pause_for(Duration::from_secs(seconds))
    }

    /// Waits for so long, or until the node stops, and returns whether it does.
    pub fn pause_for(&self, time: Duration) -> bool {
        self.connections.pause_for(self.rt, time)
    }
}
