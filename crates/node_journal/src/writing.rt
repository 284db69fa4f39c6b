//! A frame, appended to a journal.
ghost use Rattle.std.specs.Prelude.{◌≡◌, ◌≢◌, ◌++◌, ◌+◌, ◌<◌, ◌≤◌, ◌^◌, [], length, take, Ok, IfOk, OnOk, OnErr, IsErrOf, vec_len, vec_capacity};
ghost use Rattle.std.specs.Int.{w32, to_be_bytes};
ghost use Rattle.bep_messages.specs.Values.{decoded};
ghost use Rattle.node_journal.specs.Format.{IsWritable, body_bytes, checksum, frame_body, frame_bytes, header_bytes};
ghost use Rattle.node_journal.specs.Messages.{frame_of};
ghost use Rattle.node_journal.specs.Tables.{frame_table};

use crate::fault::WriteFault;
use crate::frame::Frame;
use crate::header::JournalHeader;
use crate::sum::checksum;
use bep_messages::ProtoMessage;
use std::alloc::{AllocError, Global};

/// Appends a frame that stands at this offset of the journal with this header, counted in bytes from the journal's beginning.
///
/// Fails with `Empty` exactly where the frame says nothing, with `TooLong` exactly where its message has 2^32 bytes or more, and
/// otherwise only with `OutOfMemory`; then the vector has the bytes that it had. O(n) for n bytes, each copied once.
pub fn push_frame(
    header: &JournalHeader,
    offset: u64,
    frame: &Frame,
    out: &mut Vec<u8>,
) -> Result<(), WriteFault>
    ensures ok { OnOk result (out.new.items ≡ out.old.items ++ frame_bytes (header_bytes header.now) offset frame.now) }
    // What is appended is read again, if it stands at this offset.
    ensures again { OnOk result (IsWritable frame.now) }
    ensures empty { IsErrOf result WriteFault.Empty → frame_body frame.now ≡ [] }
    ensures long { IsErrOf result WriteFault.TooLong → 2 ^ 32 ≤ length (frame_body frame.now) }
    ensures err { OnErr result (out.new.items ≡ out.old.items) }
{
    let alloc = *out.allocator();
    let body = body_of(alloc, frame)?;
    if body.is_empty() {
        return Err(WriteFault::Empty);
    }
    let len = body.len();
    if len > 0xffff_ffff {
        return Err(WriteFault::TooLong);
    }
    Ok(push_body(header, offset, &body, out)?)
}

// The message of a frame.
fn body_of(alloc: Global, frame: &Frame) -> Result<Vec<u8>, AllocError>
    ensures value { IfOk result (λ body. body.items ≡ frame_body frame.now) }
    ensures again { OnOk result (decoded frame_table frame_of (frame_body frame.now) ≡ Ok frame.now) }
{
    let mut body = Vec::new(alloc);
    frame.encode(&mut body)?;
    Ok(body)
}

// Appends a body after its length and its checksum.
fn push_body(
    header: &JournalHeader,
    offset: u64,
    body: &[u8],
    out: &mut Vec<u8>,
) -> Result<(), AllocError>
    requires { length body.now < 2 ^ 32 }
    ensures ok { OnOk result (out.new.items ≡ out.old.items ++ body_bytes (header_bytes header.now) offset body.now) }
    ensures err { OnErr result (out.new.items ≡ out.old.items) }
{
    let start = out.len();
    let written = put_body(header, offset, body, out);
    if written.is_err() {
        out.truncate(start);
    }
    written
}

// Appends a body after its length and its checksum. After an error a part of it may follow what was there.
fn put_body(
    header: &JournalHeader,
    offset: u64,
    body: &[u8],
    out: &mut Vec<u8>,
) -> Result<(), AllocError>
    requires { length body.now < 2 ^ 32 }
    ensures ok { OnOk result (out.new.items ≡ out.old.items ++ body_bytes (header_bytes header.now) offset body.now) }
    ensures err { OnErr result (take (length out.old.items) out.new.items ≡ out.old.items) }
{
    out.extend_from_slice(&(body.len() as u32).to_be_bytes())?;
    out.extend_from_slice(&checksum(header, offset, body))?;
    out.extend_from_slice(body)
}
