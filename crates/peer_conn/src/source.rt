//! Where what a worker waits for comes from.
ghost use Rattle.std.specs.Prelude.{◌≡◌, None, Option, true};

use crossbeam_channel::{Receiver, RecvTimeoutError};
use std::sync::Wait;
use std::time::{Clock, Duration};

/// Where values come from, one after the other, to a worker that waits for them.
pub trait Source<T> {
    /// What each call gives: what there was before it, the value, or none where no more will come, and what there is after it.
    ghost gives: { Self → Option T → Self → Type 0 };

    /// Waits for the next value, and returns it; `None` where no more will come.
    fn next<R: Wait>(&mut self, rt: &R) -> Option<T>
        ensures { gives self.old result self.new };

    /// Waits until no more will come, or one comes, which is passed over, or this time has passed. Returns whether no more will come.
    fn is_over_within<R: Wait + Clock>(&mut self, rt: &R, time: Duration) -> bool
        ensures { result ≡ true → gives self.old None self.new };
}

impl<T: Drop> Source<T> for Receiver<T> {
    ghost use Rattle.std.specs.Prelude.{⊤};

    ghost gives = { λ _ _ _. ⊤ };

    /// `None` once the other end of the channel was dropped and the channel is empty.
    fn next<R: Wait>(&mut self, rt: &R) -> Option<T> {
        self.recv(rt).ok()
    }

    fn is_over_within<R: Wait + Clock>(&mut self, rt: &R, time: Duration) -> bool {
        match self.recv_timeout(rt, time) {
            Err(RecvTimeoutError::Disconnected) => true,
            _ => false,
        }
    }
}
