//! The first frame of some bytes: magic bytes, length prefixes and header decoded; or how many bytes are missing.
ghost use Rattle.std.specs.Prelude.{◌≡◌, Err, MatchResult};
ghost use Rattle.bep_messages.specs.Protocol.{hello_table};
ghost use Rattle.bep_frames.specs.Found.{Finds, Fails, IsCut16, Lacks16, TakesMemory16, TakesMemory32};
ghost use Rattle.bep_frames.specs.Memory.{FrameTakesMemory, HelloTakesMemory, MessageTakesMemory};
ghost use Rattle.bep_frames.specs.Reading.{hello_sized, hello_at, message_at, later_at, frame_at};

use crate::carried::{carried, read};
use crate::fault::FrameFault;
use crate::frame::Frame;
use crate::size::{MAX_MESSAGE_BYTES, number16, number32};
use bep_messages::{Header, Hello};
use std::alloc::Global;

/// What a Hello begins with.
pub const MAGIC: [u8; 4] = [0x2E, 0xA7, 0xD9, 0x0B];

/// What a look at some bytes finds.
pub enum Found {
    /// There is no frame and no fault before so many more bytes are there.
    Missing(usize),
    /// A frame, with so many bytes after it.
    Whole(Frame, usize),
}

/// The frame that is first.
pub fn frame_at(alloc: Global, hello_is_due: bool, bytes: &[u8]) -> Result<Found, FrameFault>
    ensures found { MatchResult result (Finds (frame_at hello_is_due) bytes.now) (Fails (frame_at hello_is_due bytes.now)) }
    ensures memory { result ≡ Err FrameFault.OutOfMemory → FrameTakesMemory hello_is_due bytes.now }
{
    if hello_is_due {
        hello_at(alloc, bytes)
    } else {
        later_at(alloc, bytes)
    }
}

fn hello_at(alloc: Global, bytes: &[u8]) -> Result<Found, FrameFault>
    ensures found { MatchResult result (Finds hello_at bytes.now) (Fails (hello_at bytes.now)) }
    ensures memory { result ≡ Err FrameFault.OutOfMemory → HelloTakesMemory bytes.now }
{
    if bytes.len() < 4 {
        return Ok(Found::Missing(4 - bytes.len()));
    }
    let (front, after) = bytes.split_at(4);
    if !front.starts_with(&MAGIC) {
        return Err(FrameFault::BadMagic);
    }
    hello_sized(alloc, after)
}

/// The bytes after their length of 16 bits, and those after them; or how many bytes are missing.
fn sized16(bytes: &[u8]) -> Result<(&[u8], &[u8]), usize>
    ensures { MatchResult result (λ cut. IsCut16 bytes.now cut.0.now cut.1.now) (Lacks16 bytes.now) }
{
    if bytes.len() < 2 {
        return Err(2 - bytes.len());
    }
    let (size, after) = bytes.split_at(2);
    let len = number16(size);
    if after.len() < len {
        return Err(len - after.len());
    }
    Ok(after.split_at(len))
}

fn hello_sized(alloc: Global, bytes: &[u8]) -> Result<Found, FrameFault>
    ensures found { MatchResult result (Finds hello_sized bytes.now) (Fails (hello_sized bytes.now)) }
    ensures memory { result ≡ Err FrameFault.OutOfMemory → TakesMemory16 hello_table bytes.now }
{
    let (body, rest) = match sized16(bytes) {
        Ok(cut) => cut,
        Err(missing) => return Ok(Found::Missing(missing)),
    };
    let hello = read::<Hello>(alloc, body, FrameFault::BadBody)?;
    Ok(Found::Whole(Frame::Hello(hello), rest.len()))
}

fn later_at(alloc: Global, bytes: &[u8]) -> Result<Found, FrameFault>
    ensures found { MatchResult result (Finds later_at bytes.now) (Fails (later_at bytes.now)) }
    ensures memory { result ≡ Err FrameFault.OutOfMemory → MessageTakesMemory bytes.now }
{
    let (text, rest) = match sized16(bytes) {
        Ok(cut) => cut,
        Err(missing) => return Ok(Found::Missing(missing)),
    };
    let header = read::<Header>(alloc, text, FrameFault::BadHeader)?;
    if header.compression != 0 {
        return Err(FrameFault::Compressed);
    }
    message_at(alloc, header.kind, rest)
}

fn message_at(alloc: Global, kind: i32, bytes: &[u8]) -> Result<Found, FrameFault>
    ensures found { MatchResult result (Finds (message_at kind) bytes.now) (Fails (message_at kind bytes.now)) }
    ensures memory { result ≡ Err FrameFault.OutOfMemory → TakesMemory32 kind bytes.now }
{
    if bytes.len() < 4 {
        return Ok(Found::Missing(4 - bytes.len()));
    }
    let (size, after) = bytes.split_at(4);
    let len = number32(size);
    if len > MAX_MESSAGE_BYTES {
        return Err(FrameFault::TooLong);
    }
    if after.len() < len {
        return Ok(Found::Missing(len - after.len()));
    }
    let (body, rest) = after.split_at(len);
    let frame = carried(alloc, kind, body)?;
    Ok(Found::Whole(frame, rest.len()))
}
