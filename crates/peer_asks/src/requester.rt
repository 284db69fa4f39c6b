//! The requester of a connection.
ghost use Rattle.std.specs.Prelude.{◌≡◌, MatchResult};
ghost use Rattle.peer_conn.specs.Words.{IsSameEnded, IsSameSeat, all_of, put_of};
ghost use Rattle.peer_asks.specs.Requests.{Leaves, PutsOne, PutsRequests};

use bep_frames::Message;
use bep_messages::Request;
use peer_conn::{Ended, Seat, Source};
use std::sync::Wait;

/// Why a requester ended.
#[derive(Clone, Copy, Debug, PartialEq, Eq)]
pub enum RequesterEnd {
    /// The other end of the channel of Requests was dropped, and all were put.
    Closed,
    /// The taker was dropped.
    Gone,
}

/// Puts each Request that comes, once, in the order in which they come. Sleeps while there is none, and while the queue is full.
/// Does not allocate.
///
/// It ends with `Closed` where no more will come; with `Gone` at the first Request that cannot be put, which is dropped.
pub fn run_requester<R: Wait, Q: Source<Request> + Drop>(
    rt: &R,
    requests: Q,
    seat: Seat<Message>,
) -> (Ended<Message>, RequesterEnd)
    ensures same { IsSameEnded seat result.0 }
    ensures put { (left : Q) × PutsRequests Q.gives result.1 requests left (put_of seat) (all_of result.0) }
{
    let mut seat = seat;
    let mut requests = requests;
    let end = put_all(rt, &mut requests, &mut seat);
    (seat.end(), end)
}

// Puts each Request until there is a reason to end.
fn put_all<R: Wait, Q: Source<Request>>(
    rt: &R,
    requests: &mut Q,
    seat: &mut Seat<Message>,
) -> RequesterEnd
    ensures same { IsSameSeat seat.old seat.new }
    ensures put { PutsRequests Q.gives result requests.old requests.new (put_of seat.old) (put_of seat.new) }
{
    for _ in rt.forever() {
        if let Err(end) = put_next(rt, requests, seat) {
            return end;
        }
    }
    unreachable!()
}

// Waits for the next Request, and puts it.
fn put_next<R: Wait, Q: Source<Request>>(
    rt: &R,
    requests: &mut Q,
    seat: &mut Seat<Message>,
) -> Result<(), RequesterEnd>
    ensures same { IsSameSeat seat.old seat.new }
    ensures put { MatchResult result
        (λ _. PutsOne Q.gives requests.old requests.new (put_of seat.old) (put_of seat.new))
        (λ end. Leaves Q.gives end requests.old requests.new × (put_of seat.new ≡ put_of seat.old)) }
{
    let Some(request) = requests.next(rt) else {
        return Err(RequesterEnd::Closed);
    };
    match seat.put_wait(rt, Message::Request(request)) {
        Ok(()) => Ok(()),
        Err(_) => Err(RequesterEnd::Gone),
    }
}
