//! The writer of a connection.
ghost use Rattle.std.specs.Prelude.{◌≡◌, ◌<◌, ◌++◌, [], false, pos, true, Some, IfErr, IfOk, IsErrOf, OnErr, OnOk, length};
ghost use Rattle.std.specs.Io.KnownBytes.{Appends};
ghost use Rattle.bep_frames.specs.Grammar.{max_message_bytes};
ghost use Rattle.bep_frames.specs.Written.{body_of, hello_frame, message_frame};
ghost use Rattle.peer_conn.specs.declared.known.SeatName.TheVariants.{Indexer, Server, Requester};
ghost use Rattle.peer_conn.specs.declared.writer.Filled.TheVariants.{All};
ghost use Rattle.peer_conn.specs.declared.writer.WriterFault.TheVariants.{Frame, Write as WriteFailed};
ghost use Rattle.peer_conn.specs.Words.{all_of, taken_of, IsEndedOf, IsSameQueue, IsSameTaker, IsWhole};
ghost use Rattle.peer_conn.specs.Sending.{HasWritten, IsAll, Stops, StopsAt, StopsOrBegins, data_if, data_of, given_of, lent_of};

use crate::ends::{Ended, Rings, Taker};
use crate::known::Sent;
use bep_frames::{Message, WriteFault, write_frame, write_hello, write_response_front};
use bep_messages::{Hello, Response};
use std::alloc::Global;
use std::io::{self, Write};
use std::sync::Wait;

/// Frames are written together until they have this many bytes.
const BATCH_BYTES: usize = 65_536;

/// The data of a Response are written from where they lie if they have this many bytes; fewer are copied, to go out with other frames.
const LENT_BYTES: usize = 16_384;

/// What a buffer was filled with.
#[derive(Drop)]
enum Filled {
    /// The frames of all that stood in the queue.
    All,
    /// So many frames that they are to be written.
    Enough,
    /// Frames of which the last is this message's, but for its data.
    UpTo(Message),
}

/// Why a writer stopped before it had written all.
#[derive(Debug, Drop)]
pub enum WriterFault {
    /// A message is over the limit, or memory ran out for its frame.
    Frame(WriteFault),
    /// A write failed.
    Write(io::Error),
}

impl From<WriteFault> for WriterFault {
    ghost from_gives = { λ why fault. fault ≡ Frame why };

    fn from(why: WriteFault) -> WriterFault {
        WriterFault::Frame(why)
    }
}

impl From<io::Error> for WriterFault {
    ghost from_gives = { λ error fault. fault ≡ WriteFailed error };

    fn from(error: io::Error) -> WriterFault {
        WriterFault::Write(error)
    }
}

/// Writes a Hello and then the frame of each message that is taken, in order, until each seat has ended or was dropped.
/// Then [`finish_writer`] writes what is left.
///
/// Frames of messages that stand in the queue together go out in one write, up to 64 KiB and the frame that passes it. The data of a
/// Response, from 16 KiB on, go out in a write of their own, from where they lie.
/// Sleeps by the bell while the queue is empty, and ends only where that says that nothing more will be put. Stops with `TooLong` at a message over the limit, or with `OutOfMemory`, once the
/// frames of the messages before it were written; or with the failure of a write. The caller then drops the taker, so that
/// no seat waits for it. O(n) for n bytes written; memory for the greatest frame
/// but a Response's, and 64 KiB.
pub fn run_writer<R: Wait, B: Rings, W: Write>(
    rt: &R,
    alloc: Global,
    hello: &Hello,
    taker: &mut Taker<Message>,
    bell: &mut B,
    writer: &mut W,
) -> Result<(), WriterFault>
    ensures over { OnOk result ((before : B) × B.says before false bell.new) }
    ensures same { IsSameTaker taker.old taker.new }
    ensures written { OnOk result (HasWritten (taken_of taker.old) (taken_of taker.new) (hello_frame hello.now)
        (W.contents writer.old) (W.contents writer.new)) }
    ensures stopped { IfErr result (StopsOrBegins hello.now (taken_of taker.old) (taken_of taker.new)
        (W.contents writer.old) (W.contents writer.new)) }
{
    let mut buffer = Vec::new(alloc);
    write_hello(hello, &mut buffer)?;
    write_out(&mut buffer, writer)?;
    for _ in rt.forever() {
        drain(rt, alloc, taker, &mut buffer, writer)?;
        if !bell.wait(rt) {
            return Ok(());
        }
    }
    unreachable!()
}

/// Takes in what the three seats put in all, and writes the frames of those messages that were not yet taken. It returns
/// `Ok` only where all that the seats put was taken.
///
/// Stops as [`run_writer`] does.
pub fn finish_writer<R: Wait, W: Write>(
    rt: &R,
    alloc: Global,
    taker: &mut Taker<Message>,
    indexer: Ended<Message>,
    server: Ended<Message>,
    requester: Ended<Message>,
    writer: &mut W,
) -> Result<(), WriterFault>
    requires indexer { IsEndedOf taker.old Indexer indexer }
    requires server { IsEndedOf taker.old Server server }
    requires requester { IsEndedOf taker.old Requester requester }
    ensures same { IsSameQueue taker.old taker.new }
    ensures written { OnOk result (HasWritten (taken_of taker.old) (taken_of taker.new) []
        (W.contents writer.old) (W.contents writer.new)) }
    ensures all { OnOk result (IsAll (taken_of taker.new) (all_of indexer) (all_of server) (all_of requester)) }
    ensures stopped { IfErr result (Stops (taken_of taker.old) (taken_of taker.new) []
        (W.contents writer.old) (W.contents writer.new)) }
{
    taker.last(indexer, server, requester);
    let mut buffer = Vec::new(alloc);
    drain(rt, alloc, taker, &mut buffer, writer)
}

/// Takes until the queue is empty, and writes the frames.
fn drain<R: Wait, W: Write>(
    rt: &R,
    alloc: Global,
    taker: &mut Taker<Message>,
    buffer: &mut Vec<u8>,
    writer: &mut W,
) -> Result<(), WriterFault>
    requires empty { buffer.old.items ≡ [] }
    ensures same { IsSameTaker taker.old taker.new }
    ensures emptied { OnOk result (buffer.new.items ≡ []) }
    ensures written { OnOk result (HasWritten (taken_of taker.old) (taken_of taker.new) []
        (W.contents writer.old) (W.contents writer.new)) }
    ensures whole { OnOk result (IsWhole taker.new) }
    ensures stopped { IfErr result (Stops (taken_of taker.old) (taken_of taker.new) []
        (W.contents writer.old) (W.contents writer.new)) }
{
    for _ in rt.forever() {
        match fill(rt, alloc, taker, buffer) {
            Ok(Filled::All) => {
                write_out(buffer, writer)?;
                return Ok(());
            }
            Ok(Filled::Enough) => write_out(buffer, writer)?,
            Ok(Filled::UpTo(message)) => write_with(buffer, data_in(&message), writer)?,
            Err(why) => {
                write_out(buffer, writer)?;
                return Err(WriterFault::Frame(why));
            }
        }
    }
    unreachable!()
}

/// Takes messages and appends their frames, until the queue is empty, the buffer is full enough, or data follow that are not copied.
fn fill<R: Wait>(
    rt: &R,
    alloc: Global,
    taker: &mut Taker<Message>,
    buffer: &mut Vec<u8>,
) -> Result<Filled, WriteFault>
    ensures same { IsSameTaker taker.old taker.new }
    ensures filled { IfOk result (λ filled. HasWritten (taken_of taker.old) (taken_of taker.new) []
        (Some buffer.old.items) (Some (buffer.new.items ++ lent_of filled))) }
    ensures whole { IfOk result (λ filled. filled ≡ All → IsWhole taker.new) }
    ensures stopped { IfErr result (StopsAt (taken_of taker.old) (taken_of taker.new) []
        (Some buffer.old.items) (Some buffer.new.items)) }
{
    for _ in rt.forever() {
        if buffer.len() >= BATCH_BYTES {
            return Ok(Filled::Enough);
        }
        let Some(sent) = taker.take_named(rt) else {
            return Ok(Filled::All);
        };
        if let Some(message) = push_frame(alloc, sent, buffer)? {
            return Ok(Filled::UpTo(message));
        }
    }
    unreachable!()
}

/// Appends the frame of a message, but for its data where they are not to be copied: then the message is returned.
fn push_frame(
    alloc: Global,
    sent: Sent<Message>,
    buffer: &mut Vec<u8>,
) -> Result<Option<Message>, WriteFault>
    ensures pushed { IfOk result (λ lent.
        buffer.new.items ++ given_of lent ≡ buffer.old.items ++ message_frame sent.message) }
    ensures long { IsErrOf result WriteFault.TooLong → max_message_bytes < length (body_of sent.message) }
    ensures kept { OnErr result (buffer.new.items ≡ buffer.old.items) }
{
    let Sent { message, .. } = sent;
    if push_message(alloc, &message, buffer)? {
        return Ok(Some(message));
    }
    Ok(None)
}

/// Appends the frame of a message, but for its data where they are not to be copied. Returns whether they were left out.
fn push_message(alloc: Global, message: &Message, buffer: &mut Vec<u8>) -> Result<bool, WriteFault>
    ensures pushed { IfOk result (λ is_lent. buffer.new.items ++ data_if is_lent message.now
        ≡ buffer.old.items ++ message_frame message.now) }
    ensures long { IsErrOf result WriteFault.TooLong → max_message_bytes < length (body_of message.now) }
    ensures kept { OnErr result (buffer.new.items ≡ buffer.old.items) }
{
    match message {
        Message::Response(response) if is_lent(response) => {
            write_response_front(alloc, response, buffer)?;
            Ok(true)
        }
        _ => {
            write_frame(message, buffer)?;
            Ok(false)
        }
    }
}

/// Whether the data of a Response are to be written from where they lie.
fn is_lent(response: &Response) -> bool
    ensures { result ≡ true → response.now.code ≡ pos 0 }
{
    response.code == 0 && response.payload.as_slice().len() >= LENT_BYTES
}

/// The data that a message ends with.
fn data_in(message: &Message) -> &[u8]
    ensures { result.now ≡ data_of message.now }
{
    match message {
        Message::Response(response) => response.payload.as_slice(),
        _ => &[],
    }
}

/// Writes what the buffer holds, and empties it.
fn write_out<W: Write>(buffer: &mut Vec<u8>, writer: &mut W) -> io::Result<()>
    ensures written { OnOk result (Appends (W.contents writer.old) (W.contents writer.new) buffer.old.items) }
    ensures emptied { OnOk result (buffer.new.items ≡ []) }
{
    writer.write_all(buffer.as_slice())?;
    writer.flush()?;
    buffer.clear();
    Ok(())
}

/// Writes what the buffer holds, and these data after it, and empties the buffer.
fn write_with<W: Write>(buffer: &mut Vec<u8>, data: &[u8], writer: &mut W) -> io::Result<()>
    ensures written { OnOk result (Appends (W.contents writer.old) (W.contents writer.new)
        (buffer.old.items ++ data.now)) }
    ensures emptied { OnOk result (buffer.new.items ≡ []) }
{
    write_out(buffer, writer)?;
    writer.write_all(data)?;
    writer.flush()
}
