//! The rule of the queue, and what its steps tell.
ghost use Rattle.std.specs.Prelude.{ℕ, List};
ghost use Rattle.peer_conn.specs.declared.known.Sent.{Sent};
ghost use Rattle.peer_conn.specs.declared.known.Known.{Known};
ghost use Rattle.peer_conn.specs.Rule.{AlwaysBegins};

use crate::known::{Known, Sent};
use crossbeam_channel::protocol::{Join, Lesson, Outcome, Protocol, Split};

/// The rule: of each seat, what was taken and then what the queue holds is what it put.
pub struct InOrder;

impl<T> Protocol<Sent<T>, Known<T>> for InOrder {
    ghost use Rattle.peer_conn.specs.Rule.{RuleHolds, newcomer};

    ghost holds = { RuleHolds };

    ghost first = { newcomer };
}

/// The steps of a seat: a put, and a put that finds the queue full.
pub struct Puts;

impl<T> Outcome<Sent<T>, Known<T>> for Puts {
    ghost use Rattle.std.specs.Prelude.{◌≡◌};
    ghost use Rattle.peer_conn.specs.Rule.{after_put};

    ghost then = { λ v x w. w ≡ after_put v x };
}

impl<T> Lesson<Sent<T>, Known<T>> for Puts {
    ghost use Rattle.peer_conn.specs.Rule.{Waits};

    ghost fact = { Waits };
}

/// The steps of the taker: a take, and a take that finds the queue empty.
pub struct Takes;

impl<T> Outcome<Sent<T>, Known<T>> for Takes {
    ghost use Rattle.std.specs.Prelude.{◌≡◌};
    ghost use Rattle.peer_conn.specs.Rule.{after_take};

    ghost then = { λ v x w. w ≡ after_take v x };
}

impl<T> Lesson<Sent<T>, Known<T>> for Takes {
    ghost use Rattle.peer_conn.specs.Rule.{Tells};

    ghost fact = { Tells };
}

/// A new end gets the first account.
pub struct Cuts;

impl<T> Split<Known<T>> for Cuts {
    ghost use Rattle.peer_conn.specs.Rule.{left_of, right_of};

    ghost left = { left_of };

    ghost right = { right_of };
}

/// An end takes in the accounts of another.
pub struct TakesIn;

impl<T> Join<Known<T>> for TakesIn {
    ghost use Rattle.peer_conn.specs.Rule.{joined, spent};

    ghost both = { joined };

    ghost spent = { spent };
}

/// A law of the rule: at any time, what was taken of a seat is a beginning of what it put.
pub fn law()
    ensures { (items : List (Sent ℕ)) (views : List (Known ℕ)) → AlwaysBegins items views }
{}
