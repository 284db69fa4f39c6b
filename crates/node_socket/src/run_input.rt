//! An input that ends with the run.
use crate::run_end::RunEnd;
use mio::unix::SourceFd;
use mio::{Events, Interest, Poll, Token};
use std::alloc::Global;
use std::io::{self, Read};
use std::net::Net;
use std::os::fd::{AsRawFd, RawFd};
use std::sync::Wait;
use std::time::Duration;

/// How many milliseconds lie between two looks at whether the run ends.
const STEP: u64 = 500;

/// An input, whose end is read once the run ends.
#[derive(Drop)]
pub struct RunInput<'r, 'e, 'i, R, I> {
    rt: &'r R,
    run: &'e RunEnd,
    poll: Poll,
    events: Events<Global>,
    fd: RawFd,
    input: &'i mut I,
}

impl<'r, 'e, 'i, R: Net, I: Read + AsRawFd> RunInput<'r, 'e, 'i, R, I> {
    /// This input, of which nothing was read ahead. Fails where memory or descriptors run out.
    pub fn new(
        rt: &'r R,
        alloc: Global,
        run: &'e RunEnd,
        input: &'i mut I,
    ) -> io::Result<RunInput<'r, 'e, 'i, R, I>> {
        Ok(RunInput {
            rt,
            run,
            poll: Poll::new(rt)?,
            events: Events::with_capacity(alloc, 1)?,
            fd: input.as_raw_fd(),
            input,
        })
    }
}

impl<R: Wait, I> RunInput<'_, '_, '_, R, I> {
    // Waits until something can be read, or the run ends. Returns whether it goes on.
    fn wait(&mut self) -> bool {
        for _ in self.rt.forever() {
            if self.run.is_over(self.rt) {
                return false;
            }
            if self.is_ready() {
                return true;
            }
        }
        unreachable!()
    }

    // Whether something can be read, or that the input has ended, within half a second.
    fn is_ready(&mut self) -> bool {
        let mut source = SourceFd(&self.fd);
        // (registered anew each time, since only then what is ready already is reported)
        match self
            .poll
            .registry()
            .register(&mut source, Token(0), Interest::READABLE)
        {
            Ok(()) => {}
            // (a file, for which nothing waits)
            Err(_) => return true,
        }
        let polled = self
            .poll
            .poll(&mut self.events, Some(Duration::from_millis(STEP)));
        let _ = self.poll.registry().deregister(&mut source);
        polled.is_ok() && self.events.iter().next().is_some()
    }
}

impl<R: Wait, I: Read> Read for RunInput<'_, '_, '_, R, I> {
    fn read(&mut self, buffer: &mut [u8]) -> io::Result<usize> {
        if !self.wait() {
            return Ok(0);
        }
        self.input.read(buffer)
    }
}
