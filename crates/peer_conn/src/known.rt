//! A message with its seat's name, and what the rule of the queue sees of an end.
use std::collections::LinkedList;

/// The worker that puts.
#[derive(Clone, Copy, PartialEq, Eq, Debug, Drop)]
pub enum SeatName {
    /// Puts the ClusterConfig, indexes and Pings of this device.
    Indexer,
    /// Puts Responses to the peer.
    Server,
    /// Puts Requests of this device.
    Requester,
}

/// A message and the seat that put it.
#[derive(Drop)]
pub struct Sent<T> {
    /// The seat.
    pub from: SeatName,
    /// What it put.
    pub message: T,
}

/// All that a seat put, as contracts see it; no value of this is made. One end at a time has it, and only this end may
/// put under the name.
pub struct Account<T> {
    /// The seat.
    pub from: SeatName,
    /// Its messages, in the order in which it put them.
    pub put: LinkedList<T>,
}

/// What an end of the queue knows, as contracts see it; no value of this is made.
pub struct Known<T> {
    /// Whether it may take.
    pub takes: bool,
    /// What it took, in order.
    pub got: LinkedList<Sent<T>>,
    /// The accounts that it has.
    pub accounts: LinkedList<Account<T>>,
}
