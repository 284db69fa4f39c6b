//! The reader that takes a byte stream in pieces of any length, and gives the frames in it as they become whole.
ghost use Rattle.std.specs.Prelude.{◌≡◌, ◌≢◌, ◌+◌, ◌≤◌, [], None, length, drop, IsOk, OnOk, OnErr, true, false};
ghost use Rattle.bep_frames.specs.State.{start, fed, Gives};

use crate::fault::FrameFault;
use crate::found::{Found, frame_at};
use crate::frame::Frame;
use std::alloc::{AllocError, Global};
use std::marker::Model;

/// The capacity that a reader keeps for the next bytes.
const KEPT_CAPACITY: usize = 65_536;

/// Reads frames from a stream that comes in any pieces (Block Exchange Protocol v1, "Pre-authentication
/// Messages" and "Post-authentication Messages"). Contracts see whether a Hello is due, the bytes
/// after the last frame given, and the fault that was returned, if any.
///
/// Memory: a small multiple of the unread bytes, and 64 KiB.
#[derive(Debug, Drop)]
pub struct FrameReader {
    hello_is_due: bool,
    bytes: Vec<u8>,
    start: usize,
    missing: usize,
    fault: Option<FrameFault>,
}

impl Model for FrameReader {
    ghost use Rattle.bep_frames.specs.State.{State};

    ghost Value = { State };

    ghost use Rattle.std.specs.Prelude.{drop};
    ghost use Rattle.bep_frames.specs.Found.{IsHeld};

    ghost view = { λ r. record { hello = r.hello_is_due; rest = drop r.start r.bytes.items; fault = r.fault } };

    ghost invariant = { λ r. IsHeld r.hello_is_due r.bytes.items r.start r.missing r.fault };
}

impl FrameReader {
    /// A reader of a stream of which nothing was fed yet, where a Hello is due. Does not allocate.
    pub fn new(alloc: Global) -> FrameReader
        ensures { result ≡ start true }
    {
        FrameReader::due(alloc, true)
    }

    /// A reader of a stream of which nothing was fed yet, where no Hello is due. Does not allocate.
    pub fn after_hello(alloc: Global) -> FrameReader
        ensures { result ≡ start false }
    {
        FrameReader::due(alloc, false)
    }

    fn due(alloc: Global, hello_is_due: bool) -> FrameReader
        ensures { result ≡ start hello_is_due }
    {
        FrameReader {
            hello_is_due,
            bytes: Vec::new(alloc),
            start: 0,
            missing: 0,
            fault: None,
        }
    }

    /// Takes the next bytes of the stream; after a fault, drops them.
    ///
    /// Returns `Err` if allocation fails, and then nothing has changed. O(n) amortized.
    pub fn feed(&mut self, piece: &[u8]) -> Result<(), AllocError>
        ensures ok { OnOk result (self.new ≡ fed self.old piece.now) }
        ensures err { OnErr result (self.new ≡ self.old) }
        // For a piece that is dropped, or is empty, nothing is allocated.
        ensures dropped { self.old.fault ≢ None → IsOk result }
        ensures nothing { piece.now ≡ [] → IsOk result }
    {
        if self.fault.is_some() {
            return Ok(());
        }
        self.bytes.extend_from_slice(piece)?;
        self.missing = self.missing.saturating_sub(piece.len());
        Ok(())
    }

    /// The next frame; `None` where there is less than a whole frame and its bytes show no fault.
    ///
    /// A fault is returned as soon as its bytes are there, and then again at each call. `OutOfMemory` is
    /// returned only where a whole Hello, or a whole message of a known type, is first that holds texts, bytes
    /// or messages to be kept; nothing has changed then, and the call may be made again. O(n) in the bytes of
    /// the frame; a frame of which bytes are missing isn't looked at before they are there.
    pub fn next(&mut self) -> Option<Result<Frame, FrameFault>>
        ensures { Gives self.old result self.new }
    {
        if let Some(fault) = self.fault {
            return Some(Err(fault));
        }
        if self.missing > 0 {
            return None;
        }
        let alloc = *self.bytes.allocator();
        match frame_at(alloc, self.hello_is_due, &self.bytes[self.start..]) {
            Ok(Found::Missing(missing)) => {
                self.missing = missing;
                None
            }
            Ok(Found::Whole(frame, left)) => {
                let after = self.bytes.len() - left;
                self.start = cut_front(&mut self.bytes, after);
                self.hello_is_due = false;
                Some(Ok(frame))
            }
            Err(FrameFault::OutOfMemory) => Some(Err(FrameFault::OutOfMemory)),
            Err(fault) => {
                self.fault = Some(fault);
                Some(Err(fault))
            }
        }
    }

    /// How many bytes follow the last frame given; after a fault, how many did when it was returned. O(1).
    pub fn rest(&self) -> usize
        ensures { result ≡ length self.now.rest }
    {
        self.bytes.len() - self.start
    }
}

/// Drops the bytes before a place where they are most of the bytes, and gives memory back. What it moves is
/// less than what it drops.
fn cut_front(bytes: &mut Vec<u8>, from: usize) -> usize
    requires { from ≤ length bytes.old.items }
    ensures kept { drop result bytes.new.items ≡ drop from bytes.old.items }
    ensures within { result ≤ length bytes.new.items }
    // What is left of the bytes that were given is no more than what is unread.
    ensures half { result + result ≤ length bytes.new.items }
{
    let left = bytes.len() - from;
    if from <= left {
        return from;
    }
    bytes.copy_within(from.., 0);
    bytes.truncate(left);
    let kept = left.max(KEPT_CAPACITY);
    if bytes.capacity() / 4 > kept {
        bytes.shrink_to(kept);
    }
    0
}
