//! The frame of a Response up to its data, so that a block's bytes are written after it without a copy.
ghost use Rattle.std.specs.Prelude.{◌≡◌, ◌+◌, ◌^◌, ◌<◌, ◌≤◌, ◌++◌, [], ◌∷◌, pos, length, IfOk, OnOk, OnErr, IsErrOf, vec_capacity};
ghost use Rattle.std.specs.Int.{w32, to_be_bytes};
ghost use Rattle.bep_messages.specs.Forms.{bytes_form, form};
ghost use Rattle.bep_messages.specs.Protocol.{response_table};
ghost use Rattle.bep_messages.specs.Structs.{response_parts};
ghost use Rattle.bep_frames.specs.declared.frame.Message.TheVariants.{Response as ResponseMessage};
ghost use Rattle.bep_frames.specs.Grammar.{max_message_bytes};
ghost use Rattle.bep_frames.specs.Written.{body_of, message_frame};

use crate::fault::WriteFault;
use crate::size::MAX_MESSAGE_BYTES;
use bep_messages::{Octets, ProtoMessage, Response};
use bep_wire::put_varint;
use std::alloc::{AllocError, Global};

/// The header of a Response, type 4, after its length.
const HEADER: [u8; 4] = [0, 2, 8, 4];

/// The key of a Response's data: field 2, wire type 2.
const DATA_KEY: u64 = 18;

/// Appends the frame of a Response of code 0 up to its data, which are the last bytes of the frame. So a caller can write the data from
/// where they lie, after what this appended, and need not copy them.
///
/// Fails as [`write_frame`](crate::write_frame) does, and then the vector is as it was. O(1), except for the growth.
pub fn write_response_front(
    alloc: Global,
    message: &Response,
    out: &mut Vec<u8>,
) -> Result<(), WriteFault>
    requires { message.now.code ≡ pos 0 }
    ensures ok { OnOk result (out.new.items ++ message.now.payload
        ≡ out.old.items ++ message_frame (ResponseMessage message.now)) }
    ensures short { OnOk result (length (body_of (ResponseMessage message.now)) ≤ max_message_bytes) }
    ensures long { IsErrOf result WriteFault.TooLong →
        max_message_bytes < length (body_of (ResponseMessage message.now)) }
    ensures err { OnErr result (out.new.items ≡ out.old.items) }
    ensures capacity { vec_capacity out.old ≤ vec_capacity out.new }
{
    let fields = fields_front(alloc, message)?;
    let front = frame_front(alloc, fields.as_slice(), message.payload.as_slice().len())?;
    Ok(out.extend_from_slice(front.as_slice())?)
}

/// The frame of a Response up to these fields of it, which so many bytes follow.
fn frame_front(alloc: Global, fields: &[u8], follow: usize) -> Result<Vec<u8>, WriteFault>
    requires { follow ≤ 2 ^ 63 }
    ensures ok { IfOk result (λ front.
        front.items ≡ 0 ∷ 2 ∷ 8 ∷ 4 ∷ to_be_bytes w32 (length fields.now + follow) ++ fields.now) }
    ensures short { OnOk result (length fields.now + follow ≤ max_message_bytes) }
    ensures long { IsErrOf result WriteFault.TooLong → max_message_bytes < length fields.now + follow }
{
    let len = fields.len() + follow;
    if len > MAX_MESSAGE_BYTES {
        return Err(WriteFault::TooLong);
    }
    let mut front = Vec::new(alloc);
    front.extend_from_slice(&HEADER)?;
    front.extend_from_slice(&(len as u32).to_be_bytes())?;
    front.extend_from_slice(fields)?;
    Ok(front)
}

/// The fields of a Response of code 0 up to the data.
fn fields_front(alloc: Global, message: &Response) -> Result<Vec<u8>, AllocError>
    requires { message.now.code ≡ pos 0 }
    ensures { IfOk result (λ front. front.items ++ message.now.payload
        ≡ form response_table (response_parts message.now)) }
{
    let without_data = Response {
        id: message.id,
        payload: Octets::new(alloc),
        code: 0,
    };
    let mut front = Vec::new(alloc);
    without_data.encode(&mut front)?;
    put_data_front(message.payload.as_slice(), &mut front)?;
    Ok(front)
}

/// Appends what a field of these data has before them: nothing where there are none.
fn put_data_front(bytes: &[u8], out: &mut Vec<u8>) -> Result<(), AllocError>
    ensures { OnOk result (out.new.items ++ bytes.now ≡ out.old.items ++ bytes_form 2 bytes.now) }
{
    if bytes.len() == 0 {
        return Ok(());
    }
    put_varint(out, DATA_KEY)?;
    put_varint(out, bytes.len() as u64)
}
