//! Messages put into the queue of what waits to be written to a peer, by the indexer, the server or the requester.
ghost use Rattle.std.specs.Prelude.{◌≡◌, [], ◌∷◌, ◌++◌, OnOk, IfErr};
ghost use Rattle.peer_conn.specs.Words.{put_of, IsSameSeat, IsEndOf, WasFull, message_of, IsFull, IsGone};

use crate::ends::{Ended, NotPut, Seat};
use crate::known::{SeatName, Sent};
use crate::rule::Puts;
use crossbeam_channel::{SendError, TrySendError};
use std::sync::Wait;

impl<T: Drop> Seat<T> {
    /// The name under which it puts.
    pub fn name(&self) -> SeatName
        ensures { result ≡ self.now.name }
    {
        self.name
    }

    /// Puts the message at the back of the queue. Fails with `Full` where the queue was full, and with `Gone` where the
    /// taker was dropped. O(1); does not allocate.
    pub fn put<R: Wait>(&mut self, rt: &R, message: T) -> Result<(), NotPut<T>>
        ensures same { IsSameSeat self.old self.new }
        ensures put { OnOk result (put_of self.new ≡ put_of self.old ++ message ∷ []) }
        ensures back { IfErr result (λ e. (message_of e ≡ message) × (put_of self.new ≡ put_of self.old)) }
        ensures full { IfErr result (λ e. IsFull e → WasFull self.old) }
    {
        let sent = Sent {
            from: self.name,
            message,
        };
        match self
            .sender
            .try_send_as::<Puts, R>(rt, &mut self.token, sent)
        {
            Ok(()) => {
                // A ring that finds no room is one that the taker is still to hear.
                let _ = self.bell.try_send(rt, ());
                Ok(())
            }
            Err(TrySendError::Full(Sent { from: _, message })) => Err(NotPut::Full(message)),
            Err(TrySendError::Disconnected(Sent { from: _, message })) => Err(NotPut::Gone(
                message,
            )),
            Err(TrySendError::OutOfMemory(_)) => unreachable!(),
        }
    }

    /// Puts the message at the back of the queue, and sleeps while the queue is full. Fails only with `Gone`, where the
    /// taker was dropped. Does not allocate.
    pub fn put_wait<R: Wait>(&mut self, rt: &R, message: T) -> Result<(), NotPut<T>>
        ensures same { IsSameSeat self.old self.new }
        ensures put { OnOk result (put_of self.new ≡ put_of self.old ++ message ∷ []) }
        ensures back { IfErr result (λ e. (message_of e ≡ message) × (put_of self.new ≡ put_of self.old)) }
        ensures gone { IfErr result IsGone }
    {
        let name = self.name;
        let sent = Sent {
            from: name,
            message,
        };
        match self.sender.send_as::<Puts, R>(rt, &mut self.token, sent) {
            Ok(()) => {
                let _ = self.bell.try_send(rt, ());
                Ok(())
            }
            Err(SendError::Disconnected(Sent { from: _, message })) => Err(NotPut::Gone(message)),
            Err(SendError::OutOfMemory(_)) => unreachable!(),
        }
    }

    /// The seat, which puts no more.
    pub fn end(self) -> Ended<T>
        ensures { IsEndOf self result }
    {
        let Seat {
            name,
            sender,
            token,
            bell,
        } = self;
        drop(bell);
        Ended {
            name,
            sender,
            token,
        }
    }
}
