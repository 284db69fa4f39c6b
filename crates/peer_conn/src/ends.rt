//! The ends of the queue.
ghost use Rattle.std.specs.Prelude.{Bool};
ghost use Rattle.crossbeam_channel.specs.Claims.{view, IsSeatAt};
ghost use Rattle.crossbeam_channel.specs.Ends.{sends_on, receives_on};
ghost use Rattle.peer_conn.specs.Rule.{IsOfSeat, IsOfTaker};

use crate::known::{Known, SeatName, Sent};
use crate::rule::InOrder;
use crossbeam_channel::{Pass, Receiver, RuledReceiver, RuledSender, Sender};
use std::sync::Wait;

/// The right of an end to its place in the queue.
pub type Token<T> = Pass<Sent<T>, Known<T>>;

/// Puts messages under one name. A taker that waits returns once each seat has ended or was dropped.
#[derive(Drop)]
pub struct Seat<T: Drop> {
    pub(crate) name: SeatName,
    pub(crate) sender: RuledSender<Sent<T>, Known<T>, InOrder>,
    pub(crate) token: Token<T>,
    // Rung after each put.
    pub(crate) bell: Sender<()>,
    pub ghost at: { IsSeatAt (sends_on sender) token },
    pub ghost is: { IsOfSeat name (view token) },
}

/// A seat that puts no more.
#[derive(Drop)]
pub struct Ended<T: Drop> {
    pub(crate) name: SeatName,
    pub(crate) sender: RuledSender<Sent<T>, Known<T>, InOrder>,
    pub(crate) token: Token<T>,
    pub ghost at: { IsSeatAt (sends_on sender) token },
    pub ghost is: { IsOfSeat name (view token) },
}

/// Takes the messages of all seats. Once it is dropped, a put returns [`NotPut::Gone`], also one that waits.
#[derive(Drop)]
pub struct Taker<T: Drop> {
    pub(crate) receiver: RuledReceiver<Sent<T>, Known<T>, InOrder>,
    pub(crate) token: Token<T>,
    pub ghost at: { IsSeatAt (receives_on receiver) token },
    pub ghost is: { IsOfTaker (view token) },
}

/// What a taker is woken by.
pub trait Rings {
    /// What each wait says: what there was before it, whether a message was put, and what there is after it.
    ghost says: { Self → Bool → Self → Type 0 };

    /// Sleeps until a message was put, and then returns true; false once each seat has ended or was dropped. It may
    /// return true where the messages that were put have been taken already.
    fn wait<R: Wait>(&mut self, rt: &R) -> bool
        ensures { says self.old result self.new };
}

/// Rung after each put. Takes no processor time while it is waited for.
#[derive(Drop)]
pub struct Bell {
    pub(crate) rings: Receiver<()>,
}

impl Rings for Bell {
    ghost use Rattle.std.specs.Prelude.{⊤};

    ghost says = { λ _ _ _. ⊤ };

    fn wait<R: Wait>(&mut self, rt: &R) -> bool {
        self.rings.recv(rt).is_ok()
    }
}

/// Why a message was not put, with the message.
#[derive(Debug, Drop)]
pub enum NotPut<T> {
    /// The queue held as many messages as it can.
    Full(T),
    /// The taker was dropped.
    Gone(T),
}
