//! All frames of a stream that is given in pieces, up to its end or its first fault.
ghost use Rattle.std.specs.Prelude.{◌≡◌, ◌≤◌, ℕ, List, [], length, IsOk, IfOk, OnOk};
ghost use Rattle.std.specs.List.{flat_map};
ghost use Rattle.bep_frames.specs.Stream.{stream};
ghost use Rattle.bep_frames.specs.State.{fed, remaining, with_front, Stops, EndsAs};

use crate::fault::FrameFault;
use crate::frame::Frame;
use crate::reader::FrameReader;
use std::alloc::{AllocError, Global};

/// A whole stream: its frames in order, and how many bytes follow them, or the fault that these show.
#[derive(Debug, Drop)]
pub struct FrameStream {
    pub frames: Vec<Frame>,
    pub end: Result<usize, FrameFault>,
}

/// The frames of a stream that comes in these pieces, after which nothing comes.
///
/// Returns `Err` if allocation fails, never where no piece has a byte. O(n) in the bytes of the pieces.
pub fn frames_of(
    alloc: Global,
    pieces: &[Vec<u8>],
    hello_is_due: bool,
) -> Result<FrameStream, AllocError>
    // However the stream was cut, the frames are those of its one reading, and so is its end.
    ensures frames { IfOk result (λ s.
        s.frames.items ≡ (stream hello_is_due (flat_map (λ piece. piece.items) pieces.now)).frames) }
    ensures end { IfOk result (λ s.
        EndsAs (stream hello_is_due (flat_map (λ piece. piece.items) pieces.now)).end s.end) }
    // Where no piece has a byte, nothing is allocated.
    ensures none { flat_map (λ piece. piece.items) pieces.now ≡ [] → IsOk result }
{
    let mut reader = if hello_is_due {
        FrameReader::new(alloc)
    } else {
        FrameReader::after_hello(alloc)
    };
    let mut frames = Vec::new(alloc);
    let mut fault = None;
    for piece in pieces {
        reader.feed(piece)?;
        fault = take_all(&mut reader, &mut frames)?;
    }
    let end = match fault {
        None => Ok(reader.rest()),
        Some(fault) => Err(fault),
    };
    Ok(FrameStream { frames, end })
}

/// Takes the frames that are there, until there is none or a fault.
fn take_all(
    reader: &mut FrameReader,
    frames: &mut Vec<Frame>,
) -> Result<Option<FrameFault>, AllocError>
    // Whatever comes then, what was given and what is yet to be given are one stream.
    ensures given { OnOk result ((more : List ℕ) → with_front frames.new.items (remaining (fed reader.new more))
        ≡ with_front frames.old.items (remaining (fed reader.old more))) }
    ensures stops { IfOk result (Stops reader.new) }
    ensures shrinks { length reader.new.rest ≤ length reader.old.rest }
    ensures nothing { reader.old.rest ≡ [] → IsOk result }
{
    while let Some(answer) = reader.next() {
        match answer {
            Ok(frame) => frames.push(frame)?,
            Err(FrameFault::OutOfMemory) => return Err(AllocError),
            Err(fault) => return Ok(Some(fault)),
        }
    }
    Ok(None)
}
