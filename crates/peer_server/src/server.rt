//! The server of a connection.
ghost use Rattle.std.specs.Prelude.{◌≡◌, MatchResult, Some};
ghost use Rattle.peer_conn.specs.Words.{IsSameEnded, IsSameSeat, all_of, put_of};
ghost use Rattle.peer_server.specs.Served.{Leaves, LeavesOff, PutsAnswer, ServesPeer};
ghost use Rattle.std.specs.List.{AllZip};
ghost use Rattle.peer_server.specs.Answered.{Stays};
ghost use Rattle.peer_server.specs.declared.request.PeerRequest.{PeerRequest};

use crate::answering::respond;
use crate::request::{PeerRequest, ServerFolder};
use bep_frames::Message;
use file_store::{FileStore, Gate};
use folder_calls::FolderCalls;
use peer_conn::{Ended, Seat, Source};
use std::alloc::Global;
use std::sync::Wait;

/// Why a server ended.
#[derive(Clone, Copy, Debug, PartialEq, Eq)]
pub enum ServerEnd {
    /// The other end of the channel of Requests was dropped, and all are answered.
    Closed,
    /// The taker was dropped.
    Gone,
    /// Memory is out.
    OutOfMemory,
}

/// Answers one Request after the other, in the order in which they come, each by [`block_server::answer`] over the folder at its
/// place, or with code 2 and no bytes where no folder is there, and puts each Response by the seat. Sleeps while there is no Request,
/// and while the queue is full.
///
/// The caller makes the channel of Requests, with room for some number of them: so a peer that asks faster than it reads is slowed
/// down, since who receives its Requests then waits for room in the channel. Beside the Responses in the queue and the Requests in the
/// channel one of each is held, a Response of up to 16 MiB.
///
/// It ends with `Closed` once the other end of the channel was dropped and each Request that the channel held is answered; with
/// `Gone` at the first Response that cannot be put, which is dropped; and with `OutOfMemory` where memory runs out, which may be for a
/// Request of a shared folder alone, whose name has the shape of a safe one. The Requests that the channel then holds are dropped.
///
/// Each Request that came is answered once, in the order in which they came, but for the last one where it ends otherwise. O(n) for
/// each Request with n bytes of its name and its part.
pub fn run_server<R: Wait, Q: Source<PeerRequest> + Drop, S: FileStore, W: FolderCalls, G: Gate>(
    rt: &R,
    alloc: Global,
    requests: Q,
    folders: &mut [ServerFolder<S, W>],
    gate: &G,
    seat: Seat<Message>,
) -> (Ended<Message>, ServerEnd)
    ensures same { IsSameEnded seat result.0 }
    ensures serves { (left : Q) × ServesPeer S.keeps S.tree W.folder W.view S.fault_count S.gives Q.gives requests
        left folders.old (put_of seat) (all_of result.0) result.1 folders.new }
    ensures stays { AllZip (Stays S.keeps S.tree W.folder W.view) folders.old folders.new }
{
    let mut seat = seat;
    let mut requests = requests;
    let end = serve_all(rt, alloc, &mut requests, folders, gate, &mut seat);
    (seat.end(), end)
}

// Answers one Request after the other.
fn serve_all<R: Wait, Q: Source<PeerRequest>, S: FileStore, W: FolderCalls, G: Gate>(
    rt: &R,
    alloc: Global,
    requests: &mut Q,
    folders: &mut [ServerFolder<S, W>],
    gate: &G,
    seat: &mut Seat<Message>,
) -> ServerEnd
    ensures same { IsSameSeat seat.old seat.new }
    ensures serves { ServesPeer S.keeps S.tree W.folder W.view S.fault_count S.gives Q.gives requests.old requests.new
        folders.old (put_of seat.old) (put_of seat.new) result folders.new }
{
    for _ in rt.forever() {
        if let Err(end) = serve_next(rt, alloc, requests, folders, gate, seat) {
            return end;
        }
    }
    unreachable!()
}

// Waits for the next Request, and puts its Response.
fn serve_next<R: Wait, Q: Source<PeerRequest>, S: FileStore, W: FolderCalls, G: Gate>(
    rt: &R,
    alloc: Global,
    requests: &mut Q,
    folders: &mut [ServerFolder<S, W>],
    gate: &G,
    seat: &mut Seat<Message>,
) -> Result<(), ServerEnd>
    ensures same { IsSameSeat seat.old seat.new }
    ensures serves { MatchResult result
        (λ _. (asked : PeerRequest) × Q.gives requests.old (Some asked) requests.new
        × PutsAnswer S.keeps S.tree W.folder W.view S.fault_count S.gives asked folders.old
        (put_of seat.old) (put_of seat.new) folders.new)
        (λ end. (put_of seat.new ≡ put_of seat.old) × Leaves S.keeps S.tree W.folder W.view
        S.fault_count S.gives Q.gives requests.old requests.new end folders.old folders.new) }
{
    match requests.next(rt) {
        Some(asked) => serve_request(rt, alloc, folders, gate, seat, &asked),
        None => Err(ServerEnd::Closed),
    }
}

// Puts the Response to the Request.
fn serve_request<R: Wait, S: FileStore, W: FolderCalls, G: Gate>(
    rt: &R,
    alloc: Global,
    folders: &mut [ServerFolder<S, W>],
    gate: &G,
    seat: &mut Seat<Message>,
    asked: &PeerRequest,
) -> Result<(), ServerEnd>
    ensures same { IsSameSeat seat.old seat.new }
    ensures serves { MatchResult result
        (λ _. PutsAnswer S.keeps S.tree W.folder W.view S.fault_count S.gives asked.now folders.old
        (put_of seat.old) (put_of seat.new) folders.new)
        (λ end. (put_of seat.new ≡ put_of seat.old) × LeavesOff S.keeps S.tree W.folder W.view
        S.fault_count S.gives asked.now end folders.old folders.new) }
{
    let Ok(response) = respond(alloc, folders, gate, asked) else {
        return Err(ServerEnd::OutOfMemory);
    };
    match seat.put_wait(rt, Message::Response(response)) {
        Ok(()) => Ok(()),
        Err(_) => Err(ServerEnd::Gone),
    }
}
