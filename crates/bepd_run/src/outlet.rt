//! What a run writes while its readers may be slow, or gone.
ghost use Rattle.std.specs.Prelude.{◌≡◌, ◌≤◌, ◌+◌, false, true, length, take};
ghost use Rattle.bepd_run.specs.Outlets.{IsNotTold, IsPut, IsTold};

use crate::losses::Losses;
use crate::readiness::{Patience, Readiness, Turns};
use std::alloc::Global;
use std::io::{self, Write};
use std::net::Net;
use std::os::fd::RawFd;
use std::sync::Wait;

/// Where lines go, and what is lost of them.
#[derive(Drop)]
pub(crate) struct Channel {
    alloc: Global,
    readiness: Readiness,
    losses: Losses,
}

impl Channel {
    /// To the descriptor; nothing is lost. Fails where memory or descriptors run out.
    pub(crate) fn new<R: Net>(
        rt: &R,
        alloc: Global,
        fd: RawFd,
        patience: Patience,
    ) -> io::Result<Channel> {
        Ok(Channel {
            alloc,
            readiness: Readiness::new(rt, alloc, fd, patience)?,
            losses: Losses::none(),
        })
    }

    /// Writes a front of the bytes, after what is to be told of those that were lost before; or loses them. Returns how many.
    fn put<R: Wait, W: Write>(&mut self, rt: &R, turns: &Turns, to: &mut W, bytes: &[u8]) -> usize
        ensures bound { result ≤ length bytes.now }
        ensures put { IsPut result bytes.now (W.contents to.old) (W.contents to.new) self.old.losses self.new.losses }
    {
        if self.losses.is_cut {
            let count = line_len(bytes);
            self.losses.lose(&bytes[..count]);
            return count;
        }
        if !self.tell(rt, turns, to) {
            self.losses.lose(bytes);
            return bytes.len();
        }
        match self.readiness.write(rt, turns, to, bytes) {
            Ok(count) if count > 0 => {
                self.losses.write(&bytes[..count]);
                count
            }
            _ => {
                self.losses.lose(bytes);
                bytes.len()
            }
        }
    }

    /// Writes what is to be told of what was lost, if that takes no wait. Returns whether all is told.
    fn tell<R: Wait, W: Write>(&mut self, rt: &R, turns: &Turns, to: &mut W) -> bool
        ensures told { result ≡ true → IsTold (W.contents to.old) (W.contents to.new) self.old.losses self.new.losses }
        ensures not_told { result ≡ false → IsNotTold (W.contents to.old) (W.contents to.new) self.old.losses self.new.losses }
    {
        if self.losses.lines == 0 {
            return true;
        }
        let Ok(notice) = self.losses.notice(self.alloc) else {
            return false;
        };
        let bytes = notice.as_bytes();
        match self.readiness.write_now(rt, turns, to, bytes) {
            Ok(count) if count == bytes.len() => {
                self.losses.clear();
                true
            }
            Ok(count) => {
                self.losses.write(&bytes[..count]);
                false
            }
            Err(_) => false,
        }
    }
}

/// How many bytes the first line has, with its line feed; or all, if none ends.
fn line_len(bytes: &[u8]) -> usize
    ensures { result ≤ length bytes.now }
{
    match bytes.iter().position(|byte| *byte == b'\n') {
        Some(place) => place + 1,
        None => bytes.len(),
    }
}

/// A writer whose bytes are written within 4 seconds, or lost. What is lost is told before the next line that can be written: `(N lines left out)`.
#[derive(Drop)]
pub(crate) struct Outlet<'r, 't, 'w, R, W> {
    rt: &'r R,
    turns: &'t Turns,
    channel: Channel,
    to: &'w mut W,
}

impl<'r, 't, 'w, R, W> Outlet<'r, 't, 'w, R, W> {
    /// To this writer, whose descriptor the channel has.
    pub(crate) fn new(
        rt: &'r R,
        turns: &'t Turns,
        channel: Channel,
        to: &'w mut W,
    ) -> Outlet<'r, 't, 'w, R, W> {
        Outlet {
            rt,
            turns,
            channel,
            to,
        }
    }
}

impl<R: Wait, W: Write> Write for Outlet<'_, '_, '_, R, W> {
    /// Never fails.
    fn write(&mut self, bytes: &[u8]) -> io::Result<usize> {
        Ok(self.channel.put(self.rt, self.turns, self.to, bytes))
    }

    /// Does nothing: what is written is where it is to go.
    fn flush(&mut self) -> io::Result<()> {
        Ok(())
    }
}
