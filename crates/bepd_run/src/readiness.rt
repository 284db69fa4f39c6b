//! Writes with a timeout, to a pipe or terminal whose reader may be slow or gone: they wait by poll, and give up.
ghost use Rattle.std.specs.Prelude.{◌≡◌, ◌≤◌, IfOk};
ghost use Rattle.std.specs.Io.{WritesAtMost};
ghost use Rattle.std.specs.Io.KnownBytes.{WriteAppends};

use mio::unix::SourceFd;
use mio::{Events, Interest, Poll, Token};
use std::alloc::Global;
use std::io::{self, ErrorKind, Write};
use std::net::Net;
use std::os::fd::RawFd;
use std::sync::{Mutex, Wait};
use std::time::Duration;

/// The most bytes of a write. A pipe that is ready takes so many without a wait (`PIPE_BUF`).
const MAX_WRITE: usize = 4_096;

/// How many milliseconds are waited at once until a descriptor is ready.
const STEP: u64 = 100;

/// How many such steps are waited until what can't be written is lost: 4 seconds.
const STEPS: u32 = 40;

/// Whose turn it is to write, of threads whose descriptors may lead to the same pipe: two that see that there is room for one would wait for ever. The value is
/// whether the run ends.
pub(crate) type Turns = Mutex<bool>;

/// How long is waited for a descriptor that isn't ready.
#[derive(Clone, Copy, Debug, PartialEq, Eq)]
pub(crate) enum Patience {
    /// 4 seconds.
    Short,
    /// Until the run ends, and 4 seconds more.
    UntilTheEnd,
}

/// Waits until a descriptor can be written to.
#[derive(Drop)]
pub(crate) struct Readiness {
    poll: Poll,
    events: Events<Global>,
    fd: RawFd,
    patience: Patience,
}

impl Readiness {
    /// Of this descriptor.
    pub(crate) fn new<R: Net>(
        rt: &R,
        alloc: Global,
        fd: RawFd,
        patience: Patience,
    ) -> io::Result<Readiness> {
        Ok(Readiness {
            poll: Poll::new(rt)?,
            events: Events::with_capacity(alloc, 1)?,
            fd,
            patience,
        })
    }

    /// Writes a front of the bytes, of 4,096 at most, once the descriptor is ready. Fails with `WouldBlock` where it doesn't become so in time.
    #[tactic(auto, using(crate::proofs::Waits::write_later))]
    pub(crate) fn write<R: Wait, W: Write>(
        &mut self,
        rt: &R,
        turns: &Turns,
        to: &mut W,
        bytes: &[u8],
    ) -> io::Result<usize>
        ensures bound { WritesAtMost result bytes.now }
        ensures bytes { WriteAppends (W.contents to.old) (W.contents to.new) result bytes.now }
    {
        let mut steps = 0;
        for _ in rt.forever() {
            match self.write_now(rt, turns, to, bytes) {
                Err(error) if is_early(error.kind()) && steps < STEPS => {}
                answer => return answer,
            }
            let is_ending = *turns.lock(rt);
            if is_ending || self.patience == Patience::Short {
                steps += 1;
            }
            self.wait(Duration::from_millis(STEP));
        }
        unreachable!()
    }

    /// Writes a front of the bytes, of 4,096 at most, if the descriptor is ready now, and else fails with `WouldBlock`.
    pub(crate) fn write_now<R: Wait, W: Write>(
        &mut self,
        rt: &R,
        turns: &Turns,
        to: &mut W,
        bytes: &[u8],
    ) -> io::Result<usize>
        ensures bound { WritesAtMost result bytes.now }
        ensures bytes { WriteAppends (W.contents to.old) (W.contents to.new) result bytes.now }
    {
        let _turn = turns.lock(rt);
        if !self.wait(Duration::ZERO) {
            return Err(io::Error::from(ErrorKind::WouldBlock));
        }
        let front = &bytes[..bytes.len().min(MAX_WRITE)];
        to.write(front)
    }

    /// Waits for so long at most until the descriptor is ready; returns whether it is. One whose reader is gone is, since a write then fails at once, and a file
    /// always is.
    fn wait(&mut self, most: Duration) -> bool {
        let mut source = SourceFd(&self.fd);
        // (registered anew each time, since only then what is ready already is reported)
        match self
            .poll
            .registry()
            .register(&mut source, Token(0), Interest::WRITABLE)
        {
            // (a file, for which nothing waits)
            Err(error) if error.kind() == ErrorKind::PermissionDenied => return true,
            Err(_) => return false,
            Ok(()) => {}
        }
        let polled = self.poll.poll(&mut self.events, Some(most));
        let _ = self.poll.registry().deregister(&mut source);
        polled.is_ok() && self.events.iter().next().is_some()
    }
}

/// Whether a write that failed so is to be made again.
fn is_early(kind: ErrorKind) -> bool {
    matches!(kind, ErrorKind::WouldBlock | ErrorKind::Interrupted)
}
