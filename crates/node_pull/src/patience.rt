//! What a fetch does where a peer gave nothing, and how many wait for one.
ghost use Rattle.std.specs.Prelude.{◌≡◌, nat_lt};
ghost use Rattle.node_pull.specs.Waits.{may_wait, next_step, one_less, one_more};

/// How many pullers of a folder may wait for a peer at once; the others go on with what else there is.
const MAX_WAITING: usize = 4;

/// What a fetch does next.
#[derive(Clone, Copy, Debug, PartialEq, Eq)]
pub(crate) enum NextStep {
    /// The device gave nothing.
    GiveUp,
    /// It is asked again.
    AskAgain,
    /// It waits until somebody is connected that has the file.
    Wait,
}

/// What is done after a device gave nothing, by the connection with it before and after, and whether another one that has the file is connected.
///
/// Over a connection that lasted it has answered, or was silent. One that is connected anew is asked again. While it isn't, others are asked, and where none is connected,
/// one is waited for.
pub(crate) fn next_step(before: Option<u64>, after: Option<u64>, is_other_up: bool) -> NextStep
    ensures { result ≡ next_step before after is_other_up }
{
    match after {
        Some(_) if before == after => NextStep::GiveUp,
        Some(_) => NextStep::AskAgain,
        None if is_other_up => NextStep::GiveUp,
        None => NextStep::Wait,
    }
}

/// The pullers of a folder that wait for a peer: four at most.
#[derive(Clone, Copy, Debug, PartialEq, Eq)]
pub(crate) struct Waiting {
    count: usize,
}

impl Waiting {
    pub(crate) fn none() -> Waiting
        ensures { result.count ≡ 0 }
    {
        Waiting { count: 0 }
    }

    /// One more waits, if it may. Returns whether it does.
    pub(crate) fn begin(&mut self) -> bool
        ensures may { result ≡ may_wait self.old.count }
        ensures count { self.new.count ≡ one_more self.old.count }
    {
        if self.count >= MAX_WAITING {
            return false;
        }
        self.count += 1;
        true
    }

    /// One waits no more.
    pub(crate) fn end(&mut self)
        ensures { self.new.count ≡ one_less self.old.count }
    {
        self.count = self.count.saturating_sub(1);
    }

    pub(crate) fn is_any(&self) -> bool
        ensures { result ≡ nat_lt 0 self.now.count }
    {
        self.count > 0
    }
}
