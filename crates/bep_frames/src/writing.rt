//! Frames encoded: a Hello after its magic bytes, and any other message after its header and length, not compressed.
ghost use Rattle.std.specs.Prelude.{◌≡◌, ◌+◌, ◌<◌, ◌≤◌, ◌++◌, pos, true, false, Ok, length, take, OnOk, OnErr, IsErrOf, vec_len, vec_capacity};
ghost use Rattle.bep_messages.specs.Forms.{form};
ghost use Rattle.bep_messages.specs.Protocol.{header_table, hello_table};
ghost use Rattle.bep_messages.specs.Structs.{header, hello};
ghost use Rattle.bep_messages.specs.Values.{decoded};
ghost use Rattle.bep_frames.specs.declared.frame.Frame.TheVariants.{Hello as HelloFrame, Message as MessageFrame};
ghost use Rattle.bep_frames.specs.Grammar.{IsFrame, max_hello_bytes, max_message_bytes};
ghost use Rattle.bep_frames.specs.Written.{sized16, sized32, hello_body, hello_frame, header_form, body_of, later_frame, message_frame};

use crate::fault::WriteFault;
use crate::found::MAGIC;
use crate::frame::{Message, each_message};
use crate::size::{MAX_HELLO_BYTES, MAX_MESSAGE_BYTES};
use bep_messages::{Header, Hello, ProtoMessage};

/// Appends the frame of a Hello (Block Exchange Protocol v1, "Pre-authentication Messages").
///
/// Fails with `TooLong` where the written form of the message has more than [`MAX_HELLO_BYTES`], or with
/// `OutOfMemory`; then the vector is as it was. O(n); the form is made in place.
pub fn write_hello(message: &Hello, out: &mut Vec<u8>) -> Result<(), WriteFault>
    ensures ok { OnOk result (out.new.items ≡ out.old.items ++ hello_frame message.now) }
    ensures short { OnOk result (length (hello_body message.now) ≤ max_hello_bytes) }
    ensures long { IsErrOf result WriteFault.TooLong → max_hello_bytes < length (hello_body message.now) }
    ensures err { OnErr result (out.new.items ≡ out.old.items) }
    // Memory is missing only where the room for the frame was.
    ensures full { IsErrOf result WriteFault.OutOfMemory → vec_capacity out.old < vec_len out.old + length (hello_frame message.now) }
    ensures capacity { vec_capacity out.old ≤ vec_capacity out.new }
    // What is written is read as what was handed in.
    ensures again { OnOk result (IsFrame true (hello_frame message.now) (HelloFrame message.now)) }
{
    let start = out.len();
    let written = put_hello(message, out);
    if written.is_err() {
        out.truncate(start);
    }
    written
}

/// Writes a message by its type.
macro_rules! write_message {
    (($message:expr, $out:expr) $($number:literal $name:ident),*) => {
        match $message {
            $(Message::$name(message) => write_later($number, message, $out),)*
        }
    };
}

/// Appends the frame of any other message (Block Exchange Protocol v1, "Post-authentication Messages"), not
/// compressed.
///
/// Fails with `TooLong` where the written form of the message has more than [`MAX_MESSAGE_BYTES`], or with
/// `OutOfMemory`; then the vector is as it was. O(n); the form is made in place.
pub fn write_frame(message: &Message, out: &mut Vec<u8>) -> Result<(), WriteFault>
    ensures ok { OnOk result (out.new.items ≡ out.old.items ++ message_frame message.now) }
    ensures short { OnOk result (length (body_of message.now) ≤ max_message_bytes) }
    ensures long { IsErrOf result WriteFault.TooLong → max_message_bytes < length (body_of message.now) }
    ensures err { OnErr result (out.new.items ≡ out.old.items) }
    // Memory is missing only where the room for the frame was.
    ensures full { IsErrOf result WriteFault.OutOfMemory → vec_capacity out.old < vec_len out.old + length (message_frame message.now) }
    ensures capacity { vec_capacity out.old ≤ vec_capacity out.new }
    // What is written is read as what was handed in.
    ensures again { OnOk result (IsFrame false (message_frame message.now) (MessageFrame message.now)) }
{
    each_message!(write_message!(message, out))
}

/// Appends the frame of a message of this type, or nothing.
fn write_later<M: ProtoMessage>(kind: u8, message: &M, out: &mut Vec<u8>) -> Result<(), WriteFault>
    requires { kind < 8 }
    ensures ok { OnOk result
        (out.new.items ≡ out.old.items ++ later_frame kind (form M.table (M.parts message.now))) }
    ensures short { OnOk result (length (form M.table (M.parts message.now)) ≤ max_message_bytes) }
    ensures long { IsErrOf result WriteFault.TooLong → max_message_bytes < length (form M.table (M.parts message.now)) }
    ensures err { OnErr result (out.new.items ≡ out.old.items) }
    ensures full { IsErrOf result WriteFault.OutOfMemory →
        vec_capacity out.old < vec_len out.old + length (later_frame kind (form M.table (M.parts message.now))) }
    ensures capacity { vec_capacity out.old ≤ vec_capacity out.new }
    ensures again { OnOk result (decoded M.table M.whole (form M.table (M.parts message.now)) ≡ Ok message.now) }
    ensures header { OnOk result (decoded header_table header (header_form kind)
        ≡ Ok (record { kind = pos kind; compression = pos 0 })) }
{
    let start = out.len();
    let written = put_later(kind, message, out);
    if written.is_err() {
        out.truncate(start);
    }
    written
}

/// Appends the frame of a Hello. After an error a part of it may follow what was there.
fn put_hello(message: &Hello, out: &mut Vec<u8>) -> Result<(), WriteFault>
    ensures ok { OnOk result (out.new.items ≡ out.old.items ++ hello_frame message.now) }
    ensures short { OnOk result (length (hello_body message.now) ≤ max_hello_bytes) }
    ensures long { IsErrOf result WriteFault.TooLong → max_hello_bytes < length (hello_body message.now) }
    ensures err { OnErr result (take (length out.old.items) out.new.items ≡ out.old.items) }
    ensures full { IsErrOf result WriteFault.OutOfMemory → vec_capacity out.old < vec_len out.old + length (hello_frame message.now) }
    ensures capacity { vec_capacity out.old ≤ vec_capacity out.new }
    ensures again { OnOk result (decoded hello_table hello (hello_body message.now) ≡ Ok message.now) }
{
    out.extend_from_slice(&MAGIC)?;
    put_sized16(message, out)
}

/// Appends the frame of a message of this type. After an error a part of it may follow what was there.
fn put_later<M: ProtoMessage>(kind: u8, message: &M, out: &mut Vec<u8>) -> Result<(), WriteFault>
    requires { kind < 8 }
    ensures ok { OnOk result
        (out.new.items ≡ out.old.items ++ later_frame kind (form M.table (M.parts message.now))) }
    ensures short { OnOk result (length (form M.table (M.parts message.now)) ≤ max_message_bytes) }
    ensures long { IsErrOf result WriteFault.TooLong → max_message_bytes < length (form M.table (M.parts message.now)) }
    ensures err { OnErr result (take (length out.old.items) out.new.items ≡ out.old.items) }
    ensures full { IsErrOf result WriteFault.OutOfMemory →
        vec_capacity out.old < vec_len out.old + length (later_frame kind (form M.table (M.parts message.now))) }
    ensures capacity { vec_capacity out.old ≤ vec_capacity out.new }
    ensures again { OnOk result (decoded M.table M.whole (form M.table (M.parts message.now)) ≡ Ok message.now) }
    ensures header { OnOk result (decoded header_table header (header_form kind)
        ≡ Ok (record { kind = pos kind; compression = pos 0 })) }
{
    let header = Header {
        kind: i32::from(kind),
        compression: 0,
    };
    put_sized16(&header, out)?;
    put_sized32(message, out)
}

/// Appends a message after its length in 16 bits. After an error a part of it may follow what was there.
fn put_sized16<M: ProtoMessage>(message: &M, out: &mut Vec<u8>) -> Result<(), WriteFault>
    ensures ok { OnOk result (out.new.items ≡ out.old.items ++ sized16 (form M.table (M.parts message.now))) }
    ensures short { OnOk result (length (form M.table (M.parts message.now)) ≤ max_hello_bytes) }
    ensures long { IsErrOf result WriteFault.TooLong → max_hello_bytes < length (form M.table (M.parts message.now)) }
    ensures err { OnErr result (take (length out.old.items) out.new.items ≡ out.old.items) }
    ensures full { IsErrOf result WriteFault.OutOfMemory →
        vec_capacity out.old < vec_len out.old + length (sized16 (form M.table (M.parts message.now))) }
    ensures capacity { vec_capacity out.old ≤ vec_capacity out.new }
    ensures again { OnOk result (decoded M.table M.whole (form M.table (M.parts message.now)) ≡ Ok message.now) }
{
    let start = out.len();
    out.extend_from_slice(&[0; 2])?;
    message.encode(out)?;
    let len = out.len() - start - 2;
    if len > MAX_HELLO_BYTES {
        return Err(WriteFault::TooLong);
    }
    out[start..start + 2].copy_from_slice(&(len as u16).to_be_bytes());
    Ok(())
}

/// Appends a message after its length in 32 bits. After an error a part of it may follow what was there.
fn put_sized32<M: ProtoMessage>(message: &M, out: &mut Vec<u8>) -> Result<(), WriteFault>
    ensures ok { OnOk result (out.new.items ≡ out.old.items ++ sized32 (form M.table (M.parts message.now))) }
    ensures short { OnOk result (length (form M.table (M.parts message.now)) ≤ max_message_bytes) }
    ensures long { IsErrOf result WriteFault.TooLong → max_message_bytes < length (form M.table (M.parts message.now)) }
    ensures err { OnErr result (take (length out.old.items) out.new.items ≡ out.old.items) }
    ensures full { IsErrOf result WriteFault.OutOfMemory →
        vec_capacity out.old < vec_len out.old + length (sized32 (form M.table (M.parts message.now))) }
    ensures capacity { vec_capacity out.old ≤ vec_capacity out.new }
    ensures again { OnOk result (decoded M.table M.whole (form M.table (M.parts message.now)) ≡ Ok message.now) }
{
    let start = out.len();
    out.extend_from_slice(&[0; 4])?;
    message.encode(out)?;
    let len = out.len() - start - 4;
    if len > MAX_MESSAGE_BYTES {
        return Err(WriteFault::TooLong);
    }
    out[start..start + 4].copy_from_slice(&(len as u32).to_be_bytes());
    Ok(())
}
