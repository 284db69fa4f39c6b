//! Messages taken from the queue of what waits to be written to a peer, first in first out.
ghost use Rattle.std.specs.Prelude.{◌≡◌, [], ◌∷◌, ◌++◌, IfSome, IfNone};
ghost use Rattle.peer_conn.specs.declared.known.SeatName.TheVariants.{Indexer, Server, Requester};
ghost use Rattle.peer_conn.specs.Rule.{account};
ghost use Rattle.peer_conn.specs.Words.{taken_of, ended_of, all_of, IsEndedAt, IsSameTaker, IsSameQueue, IsWhole, IsTaken, IsEndedOf};

use crate::ends::{Ended, Taker};
use crate::known::Sent;
use crate::rule::{Takes, TakesIn};
use std::sync::Wait;

impl<T: Drop> Taker<T> {
    /// The message at the front of the queue with its seat's name, or `None` where the queue was empty. O(1); does not
    /// allocate.
    pub fn take_named<R: Wait>(&mut self, rt: &R) -> Option<Sent<T>>
        ensures same { IsSameTaker self.old self.new }
        ensures some { IfSome result (λ x. taken_of self.new ≡ taken_of self.old ++ x ∷ []) }
        ensures none { IfNone result ((taken_of self.new ≡ taken_of self.old) × IsWhole self.new) }
    {
        match self.receiver.try_recv_as::<Takes, R>(rt, &mut self.token) {
            Ok(sent) => Some(sent),
            Err(_) => None,
        }
    }

    /// The message at the front of the queue, or `None` where the queue was empty. O(1); does not allocate.
    pub fn take<R: Wait>(&mut self, rt: &R) -> Option<T>
        ensures same { IsSameTaker self.old self.new }
        ensures some { IfSome result (IsTaken self.old self.new) }
        ensures none { IfNone result ((taken_of self.new ≡ taken_of self.old) × IsWhole self.new) }
    {
        match self.take_named(rt) {
            Some(Sent { from: _, message }) => Some(message),
            None => None,
        }
    }

    /// Takes in what the three seats put in all. The next take that finds the queue empty has taken all of it.
    pub fn last(&mut self, indexer: Ended<T>, server: Ended<T>, requester: Ended<T>)
        requires indexer { IsEndedOf self.old Indexer indexer }
        requires server { IsEndedOf self.old Server server }
        requires requester { IsEndedOf self.old Requester requester }
        ensures same { IsSameQueue self.old self.new × (taken_of self.new ≡ taken_of self.old) }
        ensures ended { ended_of self.new ≡ account Requester (all_of requester) ∷ account Server (all_of server) ∷ account Indexer (all_of indexer) ∷ ended_of self.old }
    {
        self.take_in(indexer);
        self.take_in(server);
        self.take_in(requester);
    }

    fn take_in(&mut self, ended: Ended<T>)
        requires { IsEndedAt self.old ended }
        ensures same { IsSameQueue self.old self.new × (taken_of self.new ≡ taken_of self.old) }
        ensures ended { ended_of self.new ≡ account ended.name (all_of ended) ∷ ended_of self.old }
    {
        let Ended {
            name: _,
            sender,
            token,
        } = ended;
        sender.absorb::<TakesIn>(&mut self.token, token);
    }
}
