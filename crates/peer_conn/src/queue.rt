//! A new queue of the messages that wait to be written to a peer, with its three seats, its taker and its bell.
ghost use Rattle.std.specs.Prelude.{◌≡◌, ◌<◌, [], IfOk};
ghost use Rattle.peer_conn.specs.declared.known.SeatName.TheVariants.{Indexer, Server, Requester};
ghost use Rattle.peer_conn.specs.Words.{IsNew, IsNewTaker};

use crate::ends::{Bell, Seat, Taker};
use crate::known::{Known, SeatName, Sent};
use crate::rule::{Cuts, InOrder};
use crossbeam_channel::{bounded, bounded_with};
use std::alloc::{AllocError, Global};

/// What leaves this device over one connection, from three seats to one taker.
pub struct OutQueue;

impl OutQueue {
    /// The seats of the indexer, the server and the requester, the taker, and the bell that each put rings, of a queue that holds up to `capacity`
    /// messages. Fails only if out of memory.
    pub fn open<T: Drop>(
        alloc: Global,
        capacity: usize,
    ) -> Result<(Seat<T>, Seat<T>, Seat<T>, Taker<T>, Bell), AllocError>
        requires { 0 < capacity }
        ensures indexer { IfOk result (λ r. IsNew capacity r.3 Indexer r.0) }
        ensures server { IfOk result (λ r. IsNew capacity r.3 Server r.1) }
        ensures requester { IfOk result (λ r. IsNew capacity r.3 Requester r.2) }
        ensures taker { IfOk result (λ r. IsNewTaker r.3) }
    {
        let (sender, receiver, mut token) = bounded_with::<Sent<T>, Known<T>, InOrder, Global>(
            alloc, capacity,
        )?;
        let (bell, rings) = bounded::<(), Global>(alloc, 1)?;
        let second_bell = bell.clone()?;
        let third_bell = bell.clone()?;
        let second_sender = sender.try_clone()?;
        let third_sender = sender.try_clone()?;
        let first = sender.another::<Cuts>(&mut token);
        let second = sender.another::<Cuts>(&mut token);
        let third = sender.another::<Cuts>(&mut token);
        let indexer = Seat {
            name: SeatName::Indexer,
            sender,
            token: first,
            bell,
        };
        let server = Seat {
            name: SeatName::Server,
            sender: second_sender,
            token: second,
            bell: second_bell,
        };
        let requester = Seat {
            name: SeatName::Requester,
            sender: third_sender,
            token: third,
            bell: third_bell,
        };
        let taker = Taker { receiver, token };
        Ok((indexer, server, requester, taker, Bell { rings }))
    }
}
