//! The start of a connection's workers.
use std::sync::{Condvar, Mutex, Wait};
use std::time::{Clock, Duration};

/// How many workers a connection has.
const WORKERS: u8 = 5;

/// How many seconds a worker waits for the others to begin.
const BEGIN_SECONDS: u64 = 10;

/// Has the workers of a connection begin together or not at all. Where no thread can be made, `join` calls its closures one after
/// the other, and a worker would wait for ever for one that hasn't begun.
#[derive(Drop)]
pub(crate) struct Start {
    state: Mutex<State>,
    changed: Condvar,
}

#[derive(Clone, Copy)]
struct State {
    // How many workers came.
    came: u8,
    // Whether one has waited for too long.
    is_off: bool,
}

impl Start {
    pub(crate) fn new() -> Start {
        Start {
            state: Mutex::new(State {
                came: 0,
                is_off: false,
            }),
            changed: Condvar::new(),
        }
    }

    /// Waits until each worker has called this, and returns `true`; or `false`, to all of them, where one has waited for 10 seconds.
    pub(crate) fn is_on<R: Clock + Wait>(&self, rt: &R) -> bool {
        let mut state = self.state.lock(rt);
        state.came = state.came.saturating_add(1);
        if state.came >= WORKERS {
            self.changed.notify_all();
        }
        let (mut state, waited) = self.changed.wait_timeout_while(
            rt,
            state,
            Duration::from_secs(BEGIN_SECONDS),
            |state| state.came < WORKERS && !state.is_off,
        );
        if waited.timed_out() {
            state.is_off = true;
            self.changed.notify_all();
        }
        !state.is_off
    }
}
