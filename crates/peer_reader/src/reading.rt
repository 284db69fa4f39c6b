//! The reader of a connection.
ghost use Rattle.std.specs.Prelude.{◌≡◌, ◌⊎◌, [], All, IfErr, IfOk, OnErr, OnOk, length};
ghost use Rattle.peer_reader.specs.Counts.{no_counts};
ghost use Rattle.peer_reader.specs.Hears.{IsApart};
ghost use Rattle.peer_reader.specs.Reading.{HasFailed, HasHeardAll, HearsPiece, IsOfEvents, OnlyOpens, ReadsTo, StopsIn, StopsInPiece, TimesOut, is_for_now};

use crate::counts::ReaderCounts;
use crate::folder::ReaderFolder;
use crate::hearing::hear;
use crate::inbox::Inbox;
use crate::input::{PeerStream, ReaderClock};
use crate::stop::ReaderStop;
use bep_session::{Event, Session, Tick};
use file_store::Gate;
use folder_calls::FolderCalls;
use folder_calls::laws::changes_are_asked_in_order;
use std::alloc::{AllocError, Global};
use std::io::ErrorKind;
use std::sync::Wait;
use sync_record::DeviceId;
use sync_version::Moment;

/// How many bytes are read at once at most.
const PIECE_BYTES: usize = 65_536;

// Whose changes are made, and with what.
#[derive(Drop)]
struct Hearing<'a, G> {
    alloc: Global,
    peer: DeviceId,
    gate: &'a G,
}

/// How a reader ended.
#[derive(Debug, Drop)]
pub struct ReaderEnd {
    /// Why.
    pub why: ReaderStop,
    /// What it counted.
    pub counts: ReaderCounts,
}

/// Reads the peer's bytes until its stream, or the reading of it, ends, makes the changes of the shared folders that they are, and
/// passes on what else they say. Waits in reads alone.
///
/// The folders are called by [`hear`] alone. Before each piece is fed the ids that `inbox` tells are opened. A read that gives nothing
/// for now (`Interrupted`, `WouldBlock` or `TimedOut`) is made again; after each read the reader ends with `TimedOut` if no whole
/// message was received for 300 seconds. So a socket is given a time limit for reads, of a second say; to end a reader from this
/// side, it is shut down. Where memory runs out, the messages of the last piece may be lost.
///
/// O(n) for n bytes read. Memory: 64 KiB, and that of the session and of one piece's messages.
pub fn run_reader<R: Wait + ReaderClock, I: PeerStream, W: FolderCalls, G: Gate, B: Inbox>(
    rt: &R,
    alloc: Global,
    reader: &mut I,
    peer: DeviceId,
    folders: &mut [ReaderFolder<W>],
    gate: &G,
    inbox: &mut B,
) -> ReaderEnd
    requires { All (IsApart W.view peer) folders.old }
    ensures reads { ReadsTo W.view W.folder peer (I.remaining reader.old) (I.remaining reader.new)
        folders.old result.why folders.new result.counts }
    ensures failed { HasFailed I.fails result.why reader.new }
    ensures timed { TimesOut (R.shows rt.now) (I.remaining reader.old) (I.remaining reader.new) result.why }
{
    let hearing = Hearing { alloc, peer, gate };
    let mut counts = ReaderCounts::new();
    let why = match read_all(rt, &hearing, reader, folders, inbox, &mut counts) {
        Ok(why) => why,
        Err(why) => why,
    };
    ReaderEnd { why, counts }
}

// Reads until there is a reason to end.
fn read_all<R: Wait + ReaderClock, I: PeerStream, W: FolderCalls, G: Gate, B: Inbox>(
    rt: &R,
    hearing: &Hearing<G>,
    reader: &mut I,
    folders: &mut [ReaderFolder<W>],
    inbox: &mut B,
    counts: &mut ReaderCounts,
) -> Result<ReaderStop, ReaderStop>
    requires apart { All (IsApart W.view hearing.now.peer) folders.old }
    requires none { counts.old ≡ no_counts }
    ensures ended { IfOk result (λ why. ReadsTo W.view W.folder hearing.now.peer (I.remaining reader.old) (I.remaining reader.new)
        folders.old why folders.new counts.new) }
    ensures stopped { IfErr result (λ why. ReadsTo W.view W.folder hearing.now.peer (I.remaining reader.old) (I.remaining reader.new)
        folders.old why folders.new counts.new) }
    ensures failed { IfOk result (λ why. HasFailed I.fails why reader.new) }
    ensures timed { IfOk result (TimesOut (R.shows rt.now) (I.remaining reader.old) (I.remaining reader.new)) }
    ensures untimed { IfErr result IsOfEvents }
{
    changes_are_asked_in_order();
    let mut bytes = make_buffer(hearing.alloc)?;
    let buffer = bytes.as_mut_slice();
    let mut moment = rt.moment_after(Moment::new(0).unwrap());
    let mut session = Session::new(hearing.alloc, moment);
    for _ in rt.forever() {
        match reader.read_some(buffer) {
            Ok(0) => return Ok(ReaderStop::InputEnded),
            Ok(count) => {
                moment = rt.moment_after(moment);
                let piece = &buffer[..count];
                hear_piece(hearing, &mut session, folders, inbox, counts, piece, moment)?;
            }
            Err(error) => {
                let kind = error.kind();
                if !is_for_now(kind) {
                    return Ok(ReaderStop::Read(kind));
                }
                moment = rt.moment_after(moment);
            }
        }
        if session.tick(moment) == Tick::TimedOut {
            return Ok(ReaderStop::TimedOut);
        }
    }
    unreachable!()
}

fn make_buffer(alloc: Global) -> Result<Vec<u8>, AllocError>
    ensures { IfOk result (λ buffer. length buffer.items ≡ PIECE_BYTES) }
{
    vec![in alloc; 0u8; PIECE_BYTES]
}

// Whether a read may give something if it is made again.
fn is_for_now(kind: ErrorKind) -> bool
    ensures { result ≡ is_for_now kind }
{
    match kind {
        ErrorKind::Interrupted | ErrorKind::WouldBlock | ErrorKind::TimedOut => true,
        _ => false,
    }
}

// Opens the ids of Requests that went out, feeds the piece, and hears its events.
fn hear_piece<W: FolderCalls, G: Gate, B: Inbox>(
    hearing: &Hearing<G>,
    session: &mut Session,
    folders: &mut [ReaderFolder<W>],
    inbox: &mut B,
    counts: &mut ReaderCounts,
    piece: &[u8],
    moment: Moment,
) -> Result<(), ReaderStop>
    requires { All (IsApart W.view hearing.now.peer) folders.old }
    ensures heard { OnOk result (HearsPiece W.view W.folder hearing.now.peer session.old folders.old counts.old piece.now
        moment session.new folders.new counts.new) }
    ensures stopped { IfErr result (λ why. StopsInPiece W.view W.folder hearing.now.peer session.old folders.old counts.old
        piece.now moment why folders.new counts.new) }
{
    open_asks(session, inbox)?;
    let events = session.feed(piece, moment)?;
    hear_all(hearing, folders, inbox, counts, events)
}

// Opens the ids of Requests that went out.
fn open_asks<B: Inbox>(session: &mut Session, inbox: &mut B) -> Result<(), AllocError>
    ensures { OnOk result (OnlyOpens session.old session.new) }
{
    for _ in 0..u64::MAX {
        let Some(id) = inbox.next_ask() else {
            return Ok(());
        };
        session.book(id)?;
    }
    Ok(())
}

// Hears events, one after another.
fn hear_all<W: FolderCalls, G: Gate, B: Inbox>(
    hearing: &Hearing<G>,
    folders: &mut [ReaderFolder<W>],
    inbox: &mut B,
    counts: &mut ReaderCounts,
    events: Vec<Event>,
) -> Result<(), ReaderStop>
    requires { All (IsApart W.view hearing.now.peer) folders.old }
    ensures heard { OnOk result (HasHeardAll W.view W.folder hearing.now.peer events.items folders.old counts.old
        folders.new counts.new) }
    ensures stopped { IfErr result (λ why. StopsIn W.view W.folder hearing.now.peer events.items folders.old counts.old
        why folders.new counts.new) }
{
    changes_are_asked_in_order();
    for event in events {
        let passed = hear(
            hearing.alloc,
            hearing.gate,
            hearing.peer,
            folders,
            counts,
            event,
        )?;
        inbox.take(passed);
    }
    Ok(())
}
