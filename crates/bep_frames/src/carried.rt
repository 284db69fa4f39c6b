//! The message of a frame, decoded from its bytes by the type number of its header; one of an unknown type is not read.
ghost use Rattle.std.specs.Prelude.{◌≡◌, ◌≢◌, Err, Ok};
ghost use Rattle.bep_messages.specs.Values.{decoded};
ghost use Rattle.bep_frames.specs.Carried.{carried};
ghost use Rattle.bep_frames.specs.Memory.{BodyTakesMemory};
ghost use Rattle.bep_messages.specs.Memory.{TakesMemory};
ghost use Rattle.bep_frames.specs.Readable.{ReadsAs};

use crate::fault::FrameFault;
use crate::frame::{Frame, Message, each_message};
use bep_messages::{MessageFault, ProtoMessage};
use std::alloc::Global;

/// The message that some bytes are; where they are none, fails with the fault that the caller names.
pub fn read<M: ProtoMessage>(
    alloc: Global,
    bytes: &[u8],
    unreadable: FrameFault,
) -> Result<M, FrameFault>
    requires { unreadable ≢ FrameFault.OutOfMemory }
    ensures read { ReadsAs (decoded M.table M.whole bytes.now) unreadable result }
    ensures memory { result ≡ Err FrameFault.OutOfMemory → TakesMemory M.table bytes.now }
{
    match M::decode(alloc, bytes) {
        Ok(message) => Ok(message),
        Err(MessageFault::OutOfMemory) => Err(FrameFault::OutOfMemory),
        Err(MessageFault::Wire(_) | MessageFault::NotUtf8) => Err(unreadable),
    }
}

fn body<M: ProtoMessage>(alloc: Global, bytes: &[u8]) -> Result<M, FrameFault>
    ensures read { ReadsAs (decoded M.table M.whole bytes.now) FrameFault.BadBody result }
    ensures memory { result ≡ Err FrameFault.OutOfMemory → TakesMemory M.table bytes.now }
{
    read(alloc, bytes, FrameFault::BadBody)
}

/// Reads a message of a known type, or returns that the type is unknown.
macro_rules! read_message {
    (($kind:expr, $alloc:expr, $bytes:expr) $($number:literal $name:ident),*) => {
        match $kind {
            $($number => Message::$name(body($alloc, $bytes)?),)*
            _ => return Ok(Frame::Unknown($kind)),
        }
    };
}

/// What a whole message of this type is.
pub fn carried(alloc: Global, kind: i32, bytes: &[u8]) -> Result<Frame, FrameFault>
    ensures carried { result ≢ Err FrameFault.OutOfMemory → result ≡ carried kind bytes.now }
    ensures memory { result ≡ Err FrameFault.OutOfMemory → BodyTakesMemory kind bytes.now }
{
    Ok(Frame::Message(each_message!(read_message!(kind, alloc, bytes))))
}
