//! Which names are told by name, and how many are told at once.
ghost use Rattle.std.specs.Prelude.{◌≡◌};
ghost use Rattle.node_context.specs.Tallies.{after_change, due_sum, is_named, left_out, named_before, no_sum, renewed, settled, tallied};

use crate::event::Change;

/// How many names are told by name.
const MOST_NAMES: u64 = 10;

/// In how many seconds these are; and how many lie between two sums, as long as more is needed.
const SECONDS: u64 = 10;

/// How many more names may be told by name, until a second since 1970.
#[derive(Clone, Copy, Debug, PartialEq, Eq)]
pub(crate) struct Names {
    left: u64,
    until: u64,
}

impl Names {
    /// None was told.
    pub(crate) fn none() -> Names
        ensures { result ≡ named_before }
    {
        Names { left: 0, until: 0 }
    }

    // What may be told in this second: of ten seconds that are over, ten more.
    fn renewed(self, now: u64) -> Names
        ensures { result ≡ renewed now self }
    {
        if self.until <= now {
            Names {
                left: MOST_NAMES,
                until: now.saturating_add(SECONDS),
            }
        } else {
            self
        }
    }

    /// Whether one more is told by name in this second, and what may be told then.
    pub(crate) fn take(self, now: u64) -> (bool, Names)
        ensures { result ≡ is_named now self }
    {
        let Names { left, until } = self.renewed(now);
        if left == 0 {
            return (false, Names { left, until });
        }
        (
            true,
            Names {
                left: left - 1,
                until,
            },
        )
    }
}

/// Which names that were left out may be told by name, and how many were not.
#[derive(Clone, Copy, Debug, PartialEq, Eq)]
pub(crate) struct SkipTally {
    names: Names,
    more: u64,
}

impl SkipTally {
    /// None was.
    pub(crate) fn none() -> SkipTally
        ensures { result ≡ record { names = named_before; more = 0 } }
    {
        SkipTally {
            names: Names::none(),
            more: 0,
        }
    }

    /// A name was left out in this second: whether it is told by name, and what isn't told then.
    pub(crate) fn take(self, now: u64) -> (bool, SkipTally)
        ensures { result ≡ left_out self (is_named now self.names) }
    {
        let (is_named, names) = self.names.take(now);
        let more = if is_named {
            self.more
        } else {
            self.more.saturating_add(1)
        };
        (is_named, SkipTally { names, more })
    }

    /// How many were not told by name, which are told now.
    pub(crate) fn settle(self) -> (u64, SkipTally)
        ensures { result ≡ (self.more, record self { more = 0 }) }
    {
        (self.more, SkipTally { more: 0, ..self })
    }
}

/// How many names were pulled, by what that changed.
#[derive(Clone, Copy, Debug, PartialEq, Eq)]
pub(crate) struct Sum {
    pub(crate) got: u64,
    pub(crate) replaced: u64,
    pub(crate) deleted: u64,
    pub(crate) same: u64,
}

impl Sum {
    fn none() -> Sum
        ensures { result ≡ no_sum }
    {
        Sum {
            got: 0,
            replaced: 0,
            deleted: 0,
            same: 0,
        }
    }

    // One more.
    fn after(self, change: Change) -> Sum
        ensures { result ≡ after_change change self }
    {
        let mut sum = self;
        match change {
            Change::Got => sum.got = self.got.saturating_add(1),
            Change::Replaced => sum.replaced = self.replaced.saturating_add(1),
            Change::Deleted => sum.deleted = self.deleted.saturating_add(1),
            Change::Same => sum.same = self.same.saturating_add(1),
        }
        sum
    }
}

/// What was pulled of a folder that isn't told yet.
#[derive(Clone, Copy, Debug, PartialEq, Eq)]
pub(crate) struct Tally {
    names: Names,
    sum: Sum,
    // From when on the sum is told though more is needed, in seconds since 1970.
    due: u64,
}

impl Tally {
    /// Nothing was pulled.
    pub(crate) fn none() -> Tally
        ensures { result ≡ record { names = named_before; sum = no_sum; due = 0 } }
    {
        Tally {
            names: Names::none(),
            sum: Sum::none(),
            due: 0,
        }
    }

    /// A name was pulled in this second: whether it is told by name, and what isn't told then.
    pub(crate) fn take(self, now: u64, change: Change) -> (bool, Tally)
        ensures { result ≡ tallied now change self }
    {
        let (is_named, names) = self.names.take(now);
        if is_named {
            return (true, Tally { names, ..self });
        }
        let due = if self.sum == Sum::none() {
            now.saturating_add(SECONDS)
        } else {
            self.due
        };
        let sum = self.sum.after(change);
        (false, Tally { names, sum, due })
    }

    // How many are told now, a round being over in this second after which so many names are needed.
    fn due_sum(self, now: u64, needed: u64) -> Option<Sum>
        ensures { result ≡ due_sum now needed self }
    {
        if self.sum == Sum::none() || (needed > 0 && now < self.due) {
            None
        } else {
            Some(self.sum)
        }
    }

    /// A round is over in this second, after which so many names are needed: how many are told now, if any are, and what isn't told then.
    pub(crate) fn settle(self, now: u64, needed: u64) -> (Option<Sum>, Tally)
        ensures { result ≡ settled now needed self }
    {
        match self.due_sum(now, needed) {
            Some(sum) => (
                Some(sum),
                Tally {
                    sum: Sum::none(),
                    ..self
                },
            ),
            None => (None, self),
        }
    }
}
