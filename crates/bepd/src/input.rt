//! A stream read to its end, or to its first fault.
ghost use Rattle.std.specs.Prelude.{◌≡◌, ◌≢◌, ◌++◌, ◌+◌, ◌<◌, ◌^◌, ℕ, List, IfErr, IfOk, OnOk, Ok, [], false, length};
ghost use Rattle.bepd.specs.Counts.{Reads, input_of};
ghost use Rattle.bepd.specs.Endings.{IsEndOf, TellsFailedRead};
ghost use Rattle.bepd.specs.declared.ending.Ending.TheVariants.{Failed};
ghost use Rattle.bepd.specs.Received.{own_device};
ghost use Rattle.bepd.specs.Progress.{IsReceived, IsReceivedOf, IsRead, Leaves};

use crate::counted::CountedReader;
use crate::ending::{Ending, Failure};
use crate::received::Received;
use bep_frames::{FrameFault, FrameReader};
use folder_core::FolderCore;
use std::alloc::{AllocError, Global};
use std::io::Read;

/// How many bytes are read at once at most.
const PIECE_BYTES: usize = 65_536;

/// The most bytes of an input.
const MAX_INPUT_BYTES: u64 = 0x100_0000_0000;

/// Reads a stream without Hello up to its end or its first fault, and takes its frames.
///
/// Fails with `Read` if a read failed, or if the input has more than 2^40 bytes.
pub(crate) fn read_stream<F: FolderCore, R: Read>(
    alloc: Global,
    folder: &str,
    received: &mut Received<F>,
    reader: &mut CountedReader<R>,
) -> Result<Ending, Failure>
    requires { IsReceived folder.now [] (F.state received.old.folder) received.old.skipped }
    ensures read { IfOk result (λ ending. IsRead folder.now (input_of R.remaining reader.old) (input_of R.remaining reader.new)
        ending (F.state received.new.folder) received.new.skipped) }
    ensures failed { let old = input_of R.remaining reader.old in let new = input_of R.remaining reader.new in
        IfErr result (λ failure. (bytes : List ℕ) × Reads bytes old new × TellsFailedRead (Failed failure) bytes old new) }
    ensures refused { IfErr result (λ failure. failure ≢ Failure.Write) }
{
    let mut frames = FrameReader::after_hello(alloc);
    let mut bytes = make_buffer(alloc, PIECE_BYTES)?;
    let buffer = bytes.as_mut_slice();
    let mut total = 0;
    loop {
        let count = reader.read(buffer)?;
        if count == 0 {
            return Ok(end_of(&frames));
        }
        total += count as u64;
        if total > MAX_INPUT_BYTES {
            return Err(Failure::Read);
        }
        let piece = &buffer[..count];
        if let Some(fault) = take_piece(alloc, folder, received, &mut frames, piece)? {
            return Ok(Ending::Fault(fault));
        }
    }
}

/// A buffer of so many bytes.
fn make_buffer(alloc: Global, size: usize) -> Result<Vec<u8>, AllocError>
    ensures { IfOk result (λ buffer. length buffer.items ≡ size) }
{
    vec![in alloc; 0u8; size]
}

/// How a stream ends when no whole frame and no fault is left.
fn end_of(frames: &FrameReader) -> Ending
    ensures { IsEndOf (Ok frames.now.rest) result }
{
    match frames.rest() {
        0 => Ending::Done,
        rest => Ending::Rest(rest),
    }
}

/// Feeds the next bytes of the stream to the reader, and takes the frames that are whole then.
fn take_piece<F: FolderCore>(
    alloc: Global,
    folder: &str,
    received: &mut Received<F>,
    frames: &mut FrameReader,
    piece: &[u8],
) -> Result<Option<FrameFault>, AllocError>
    requires me { (F.state received.old.folder).me ≡ own_device }
    requires later { frames.old.hello ≡ false }
    requires few { received.old.skipped + length frames.old.rest + length piece.now < 2 ^ 64 }
    ensures received { OnOk result ((bytes : List ℕ) →
        IsReceivedOf folder.now bytes frames.old (F.state received.old.folder) received.old.skipped →
        IsReceivedOf folder.now (bytes ++ piece.now) frames.new (F.state received.new.folder) received.new.skipped) }
    ensures me { OnOk result ((F.state received.new.folder).me ≡ own_device) }
    ensures leaves { IfOk result (Leaves frames.new) }
{
    frames.feed(piece)?;
    take_frames(alloc, folder, received, frames)
}

/// Takes the frames that the reader has, until there is none or a fault.
fn take_frames<F: FolderCore>(
    alloc: Global,
    folder: &str,
    received: &mut Received<F>,
    frames: &mut FrameReader,
) -> Result<Option<FrameFault>, AllocError>
    requires me { (F.state received.old.folder).me ≡ own_device }
    requires later { frames.old.hello ≡ false }
    requires few { received.old.skipped + length frames.old.rest < 2 ^ 64 }
    ensures received { OnOk result ((bytes : List ℕ) →
        IsReceivedOf folder.now bytes frames.old (F.state received.old.folder) received.old.skipped →
        IsReceivedOf folder.now bytes frames.new (F.state received.new.folder) received.new.skipped) }
    ensures me { OnOk result ((F.state received.new.folder).me ≡ own_device) }
    ensures leaves { IfOk result (Leaves frames.new) }
{
    while let Some(answer) = frames.next() {
        match answer {
            Ok(frame) => received.take_frame(alloc, folder, frame)?,
            Err(FrameFault::OutOfMemory) => return Err(AllocError),
            Err(fault) => return Ok(Some(fault)),
        }
    }
    Ok(None)
}
