//! The commands of an input, one after another.
ghost use Rattle.std.specs.Prelude.{◌≡◌, ◌<◌, ◌≤◌, ◌++◌, ◌∷◌, [], ℕ, List, Option, Err, IfErr, IfOk, MatchResult, OnOk, length, take};
ghost use Rattle.std.specs.Io.KnownBytes.{Appends, Consumes, IsAtEnd, Keeps};
ghost use Rattle.bepd_pair.specs.Following.{FollowsLine};
ghost use Rattle.bepd_pair.specs.Input.{HasCome};
ghost use Rattle.bepd_pair.specs.Playing.{FollowsBytes, Plays, WritesUnlessFailed};
ghost use Rattle.bepd_pair.specs.Progress.{HasPlayed};
ghost use Rattle.bepd_pair.specs.Words.{Text};
ghost use Rattle.bepd_pair.specs.declared.peers.Peers.{Peers as AnyPeers};
ghost use Rattle.bepd_pair.specs.declared.playing.PairFailure.TheVariants.{OutOfMemory};

use crate::input::Line;
use crate::peers::Peers;
use std::alloc::{AllocError, Global};
use std::io::{ErrorKind, Read, Write};
use std::thread::Threads;

/// How many bytes are read at once at most.
const PIECE_BYTES: usize = 65_536;

/// The most bytes of an input.
const MAX_INPUT_BYTES: u64 = 0x100_0000_0000;

/// Why commands were not read to their end.
#[derive(Clone, Copy, Debug, PartialEq, Eq)]
pub enum PairFailure {
    /// Memory is out.
    OutOfMemory,
    /// A read failed, or the input has more than 2^40 bytes.
    Read,
    /// A write failed.
    Write,
}

impl From<AllocError> for PairFailure {
    ghost from_gives = { λ _ failure. failure ≡ OutOfMemory };

    fn from(_failed: AllocError) -> PairFailure {
        PairFailure::OutOfMemory
    }
}

/// Reads commands, one a line, does each, and writes what it comes to, until the input ends.
///
/// The peers A and B share a folder; each has a store in memory, which is empty at first, and its end of a connection, over which indexes
/// and blocks go as frames. The moment is 0 at first. What is no command prints `error unknown command` and changes nothing, and so
/// does a line of more than 65,536 bytes.
///
/// Fails if out of memory, if a read fails other than by an interrupt, after which it is tried again, or if a write does; what
/// the commands so far printed is written, unless that failed. The input is read in pieces of 64 KiB. Memory for the peers' files and
/// folders, and for one line and what it prints.
pub fn pair<T: Threads + Sync, R: Read, W: Write>(
    rt: &T,
    alloc: Global,
    reader: &mut R,
    writer: &mut W,
) -> Result<(), PairFailure>
    ensures { Plays result (R.remaining reader.old) (R.remaining reader.new)
        (W.contents writer.old) (W.contents writer.new) }
{
    let mut peers = Peers::new(alloc)?;
    follow(rt, alloc, &mut peers, reader, writer)
}

/// Follows the commands of the input to its end.
fn follow<T: Threads + Sync, R: Read, W: Write>(
    rt: &T,
    alloc: Global,
    peers: &mut Peers,
    reader: &mut R,
    writer: &mut W,
) -> Result<(), PairFailure>
    ensures follows { (bytes : List ℕ) × Consumes (R.remaining reader.old) (R.remaining reader.new) bytes
        × FollowsBytes result peers.old bytes (W.contents writer.old) (W.contents writer.new) }
    ensures whole { OnOk result (IsAtEnd (R.remaining reader.new)) }
{
    let mut line = Line::new(alloc);
    let mut bytes = make_buffer(alloc, PIECE_BYTES)?;
    let buffer = bytes.as_mut_slice();
    let mut total = 0u64;
    for _ in 0..u64::MAX {
        let count = read(reader, buffer)?;
        if count == 0 {
            return end(rt, alloc, peers, &line, writer);
        }
        total = total.saturating_add(count as u64);
        if total > MAX_INPUT_BYTES {
            return Err(PairFailure::Read);
        }
        take(rt, alloc, peers, &mut line, &buffer[..count], writer)?;
    }
    Err(PairFailure::Read)
}

/// A buffer of so many bytes.
fn make_buffer(alloc: Global, size: usize) -> Result<Vec<u8>, AllocError>
    ensures { IfOk result (λ buffer. length buffer.items ≡ size) }
{
    vec![in alloc; 0u8; size]
}

/// Reads the next bytes, after an interrupt again; none at the end.
fn read<R: Read>(reader: &mut R, buffer: &mut [u8]) -> Result<usize, PairFailure>
    ensures { MatchResult result
        (λ count. (count ≤ length buffer.new)
        × Consumes (R.remaining reader.old) (R.remaining reader.new) (take count buffer.new)
        × (count ≡ 0 → 0 < length buffer.new → IsAtEnd (R.remaining reader.new)))
        (λ failure. (failure ≡ PairFailure.Read) × Keeps (R.remaining reader.old) (R.remaining reader.new)) }
{
    for _ in 0..u64::MAX {
        match reader.read(buffer) {
            Ok(count) => return Ok(count),
            Err(error) => {
                if error.kind() != ErrorKind::Interrupted {
                    return Err(PairFailure::Read);
                }
            }
        }
    }
    Err(PairFailure::Read)
}

/// Takes the next bytes of the input, and follows the commands whose lines end there.
fn take<T: Threads + Sync, W: Write>(
    rt: &T,
    alloc: Global,
    peers: &mut Peers,
    line: &mut Line,
    piece: &[u8],
    writer: &mut W,
) -> Result<(), PairFailure>
    ensures taken { OnOk result ((start : AnyPeers) (bytes : List ℕ) (out : Option (List ℕ)) →
        HasPlayed start bytes line.old peers.old out (W.contents writer.old) →
        HasPlayed start (bytes ++ piece.now) line.new peers.new out (W.contents writer.new)) }
    ensures failed { IfErr result (λ failure. (start : AnyPeers) (bytes : List ℕ) (out : Option (List ℕ)) →
        HasPlayed start bytes line.old peers.old out (W.contents writer.old) →
        FollowsBytes (Err failure) start (bytes ++ piece.now) out (W.contents writer.new)) }
{
    for byte in piece {
        take_byte(rt, alloc, peers, line, *byte, writer)?;
    }
    Ok(())
}

/// Takes the next byte of the input. A line feed ends a line, which is followed.
fn take_byte<T: Threads + Sync, W: Write>(
    rt: &T,
    alloc: Global,
    peers: &mut Peers,
    line: &mut Line,
    byte: u8,
    writer: &mut W,
) -> Result<(), PairFailure>
    ensures taken { OnOk result ((start : AnyPeers) (bytes : List ℕ) (out : Option (List ℕ)) →
        HasPlayed start bytes line.old peers.old out (W.contents writer.old) →
        HasPlayed start (bytes ++ byte ∷ []) line.new peers.new out (W.contents writer.new)) }
    ensures failed { IfErr result (λ failure. (start : AnyPeers) (bytes : List ℕ) (out : Option (List ℕ)) →
        HasPlayed start bytes line.old peers.old out (W.contents writer.old) →
        FollowsBytes (Err failure) start bytes out (W.contents writer.new)) }
{
    if byte == b'\n' {
        end_line(rt, alloc, peers, line, writer)?;
        line.clear();
    } else {
        line.push(byte)?;
    }
    Ok(())
}

/// Ends the input: a last line may have no line feed.
fn end<T: Threads + Sync, W: Write>(
    rt: &T,
    alloc: Global,
    peers: &mut Peers,
    line: &Line,
    writer: &mut W,
) -> Result<(), PairFailure>
    ensures { (start : AnyPeers) (bytes : List ℕ) (out : Option (List ℕ)) →
        HasPlayed start bytes line.now peers.old out (W.contents writer.old) →
        FollowsBytes result start bytes out (W.contents writer.new) }
{
    if line.is_empty() {
        return Ok(());
    }
    end_line(rt, alloc, peers, line, writer)
}

/// Follows the line, and writes what it prints.
fn end_line<T: Threads + Sync, W: Write>(
    rt: &T,
    alloc: Global,
    peers: &mut Peers,
    line: &Line,
    writer: &mut W,
) -> Result<(), PairFailure>
    ensures followed { OnOk result ((text : Text) → HasCome line.now text →
        (printed : List ℕ) × FollowsLine text peers.old printed peers.new
        × Appends (W.contents writer.old) (W.contents writer.new) printed) }
    ensures failed { IfErr result (λ failure.
        WritesUnlessFailed (Err failure) [] (W.contents writer.old) (W.contents writer.new)) }
{
    let printed = peers.follow_line(rt, alloc, line.bytes())?;
    write(writer, printed.as_slice())
}

fn write<W: Write>(writer: &mut W, bytes: &[u8]) -> Result<(), PairFailure>
    ensures written { OnOk result (Appends (W.contents writer.old) (W.contents writer.new) bytes.now) }
    ensures failed { IfErr result (λ failure. failure ≡ PairFailure.Write) }
{
    if bytes.is_empty() {
        return Ok(());
    }
    match writer.write_all(bytes) {
        Ok(()) => writer.flush().map_err(|_| PairFailure::Write),
        Err(_) => Err(PairFailure::Write),
    }
}
