//! When Requests to a peer that says nothing are given up, and when it is asked no more.
ghost use Rattle.std.specs.Prelude.{◌≡◌};
ghost use Rattle.peer_asks.specs.Silence.{after_step, at_first, heard, is_left_alone, is_over, never_silent, silent_once_more};

use std::time::Clock;

/// For how many seconds who asked waits at a time.
pub(crate) const STEP_SECONDS: u64 = 10;

/// After how many of these times without a byte of the peer its Requests are given up: a minute.
const SILENT_STEPS: u32 = 6;

/// After how many without a Response: five minutes.
const UNANSWERED_STEPS: u32 = 30;

/// After how many silences running the peer is left alone.
const MAX_SILENCES: u32 = 3;

/// For how many seconds it is left alone.
const LEFT_ALONE_SECONDS: u64 = 300;

/// For how long somebody has waited since a Response came.
#[derive(Clone, Copy, Debug, PartialEq, Eq)]
pub(crate) struct Patience {
    // How many pieces of bytes had come from the peer after the last time.
    pieces: u64,
    // How many times were waited since a byte came, and since a Response came.
    silent: u32,
    unanswered: u32,
}

impl Patience {
    /// The wait begins, after so many pieces of bytes.
    pub(crate) fn new(pieces: u64) -> Patience
        ensures { result ≡ at_first pieces }
    {
        Patience {
            pieces,
            silent: 0,
            unanswered: 0,
        }
    }

    /// Ten seconds were waited in which no Response came; so many pieces of bytes have come by now. Returns whether that was long enough.
    pub(crate) fn step(&mut self, pieces: u64) -> bool
        ensures stepped { self.new ≡ after_step pieces self.old }
        ensures over { result ≡ is_over self.new }
    {
        self.silent = if pieces == self.pieces {
            self.silent.saturating_add(1)
        } else {
            0
        };
        self.unanswered = self.unanswered.saturating_add(1);
        self.pieces = pieces;
        self.silent >= SILENT_STEPS || self.unanswered >= UNANSWERED_STEPS
    }
}

/// The times at which all Requests to a peer were given up.
#[derive(Clone, Copy, Debug, PartialEq, Eq)]
pub(crate) struct Silences {
    // How many there were, and how many since a Response came.
    pub(crate) count: u64,
    running: u32,
    // Until when the peer is left alone where there were too many, in seconds since an arbitrary start.
    until: u64,
}

impl Silences {
    /// There was none.
    pub(crate) fn none() -> Silences
        ensures { result ≡ never_silent }
    {
        Silences {
            count: 0,
            running: 0,
            until: 0,
        }
    }

    /// There is one at this second.
    pub(crate) fn begin(&mut self, now: u64)
        ensures { self.new ≡ silent_once_more now self.old }
    {
        self.count = self.count.wrapping_add(1);
        self.running = self.running.saturating_add(1);
        self.until = now.saturating_add(LEFT_ALONE_SECONDS);
    }

    /// A Response came, or another connection began.
    pub(crate) fn end(&mut self)
        ensures { self.new ≡ heard self.old }
    {
        self.running = 0;
    }

    /// Whether the peer is asked nothing at this second.
    pub(crate) fn is_left_alone(&self, now: u64) -> bool
        ensures { result ≡ is_left_alone now self.now }
    {
        self.running >= MAX_SILENCES && now < self.until
    }
}

/// The second that it is, since an arbitrary start; the last one that there may be where the clock can't be read, so that nobody is left alone.
pub(crate) fn second_of<R: Clock>(rt: &R) -> u64 {
    match rt.monotonic() {
        Ok(time) => time.as_secs(),
        Err(_) => u64::MAX,
    }
}
