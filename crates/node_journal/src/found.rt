//! What stands at an offset of a journal.
ghost use Rattle.std.specs.Prelude.{◌≡◌, ◌+◌, ◌<◌, ◌≤◌, drop, length, IfOk, OnErr};
ghost use Rattle.node_journal.specs.Format.{header_bytes};
ghost use Rattle.node_journal.specs.Reading.{IsWithin, body_at, frame_at, front_len, number32, sized_at};

use crate::frame::Frame;
use crate::header::JournalHeader;
use crate::sum::checksum;
use bep_messages::{MessageFault, ProtoMessage};
use std::alloc::{AllocError, Global};

/// The length of what stands before a frame's message: its length and its checksum.
const FRONT_LEN: usize = 12;

/// What bytes begin with, at their offset of a journal.
#[derive(Debug, Drop)]
pub(crate) enum Found {
    /// Less than a frame.
    Cut,
    /// Bytes that are no frame.
    NoFrame,
    /// A frame, of so many bytes.
    Framed(Frame, usize),
}

/// What stands at an offset of the journal with this header and these bytes. O(n) for a frame of n bytes.
#[tactic(auto, unfolding(crate::specs::Reading::frame_at))]
pub(crate) fn frame_at(
    alloc: Global,
    header: &JournalHeader,
    bytes: &[u8],
    at: usize,
) -> Result<Found, AllocError>
    requires { at ≤ length bytes.now }
    ensures value { IfOk result (λ found. found ≡ frame_at (header_bytes header.now) at (drop at bytes.now)) }
    ensures within { IfOk result (IsWithin (length (drop at bytes.now))) }
    ensures memory { OnErr result (front_len ≤ length (drop at bytes.now)) }
{
    let (_, rest) = bytes.split_at(at);
    if rest.len() < FRONT_LEN {
        return Ok(Found::Cut);
    }
    let (size, after) = rest.split_at(4);
    let (sum, after) = after.split_at(8);
    sized_at(alloc, header, at as u64, number32(size), sum, after)
}

// The number that four bytes are, big-endian.
fn number32(size: &[u8]) -> usize
    requires { length size.now ≡ 4 }
    ensures { result ≡ number32 size.now }
{
    u32::from_be_bytes([size[0], size[1], size[2], size[3]]) as usize
}

// What stands there if the bytes have this length and this checksum before them.
#[tactic(auto, unfolding(crate::specs::Reading::sized_at))]
fn sized_at(
    alloc: Global,
    header: &JournalHeader,
    offset: u64,
    len: usize,
    sum: &[u8],
    after: &[u8],
) -> Result<Found, AllocError>
    ensures value { IfOk result (λ found. found ≡ sized_at (header_bytes header.now) offset len sum.now after.now) }
    ensures within { IfOk result (IsWithin (front_len + length after.now)) }
{
    if len == 0 {
        return Ok(Found::NoFrame);
    }
    if after.len() < len {
        return Ok(Found::Cut);
    }
    let body = &after[..len];
    if checksum(header, offset, body).as_slice() != sum {
        return Ok(Found::NoFrame);
    }
    body_at(alloc, body)
}

// The frame of a body.
#[tactic(auto, unfolding(crate::specs::Reading::body_at))]
fn body_at(alloc: Global, body: &[u8]) -> Result<Found, AllocError>
    ensures value { IfOk result (λ found. found ≡ body_at body.now) }
    ensures within { IfOk result (IsWithin (front_len + length body.now)) }
{
    match Frame::decode(alloc, body) {
        Ok(frame) => Ok(Found::Framed(frame, FRONT_LEN + body.len())),
        Err(MessageFault::OutOfMemory) => Err(AllocError),
        Err(MessageFault::Wire(_)) => Ok(Found::NoFrame),
        Err(MessageFault::NotUtf8) => Ok(Found::NoFrame),
    }
}
