//! Whether two devices have connections as one peer in turn.
ghost use Rattle.std.specs.Prelude.{◌≡◌, true};
ghost use Rattle.node_peer.specs.Arrivals.{after, came, in_turn, is_same, no_arrivals, only};

/// Within how many seconds a device takes its place again that another one took from it, where they do so in turn.
const TURN_SECONDS: u64 = 120;

/// A connection of a peer, and what tells its device from another one: from where it came, and the id of its index.
#[derive(Clone, Copy, Debug)]
pub(crate) struct Arrival {
    /// The bits of an IPv4 address; 0 where there is none.
    pub(crate) from: u32,
    /// The id of the peer's index that its ClusterConfig has first; 0 where it has none.
    pub(crate) index_id: u64,
    /// When it came, in seconds since an arbitrary moment.
    pub(crate) at: u64,
}

/// The last connections of a peer that came from two devices, each of which took the place of the one before it.
#[derive(Clone, Copy, Debug)]
pub(crate) struct Arrivals {
    before: Option<Arrival>,
    last: Option<Arrival>,
}

impl Arrivals {
    /// None came yet.
    pub(crate) fn none() -> Arrivals
        ensures { result ≡ no_arrivals }
    {
        Arrivals {
            before: None,
            last: None,
        }
    }

    /// Takes the next one. Returns the address from which the other device connects, where this one took the place of a connection of that, which had taken that of
    /// one of this device at most two minutes ago. O(1).
    pub(crate) fn take(&mut self, now: Arrival, has_replaced: bool) -> Option<u32>
        ensures turn { result ≡ in_turn has_replaced now self.old }
        ensures left { self.new ≡ came has_replaced now self.old }
    {
        if !has_replaced {
            *self = only(now);
            return None;
        }
        let other = other_of(*self, now);
        *self = after(*self, now);
        other
    }
}

// The address of the device that took the place of one that is back, if there is one.
fn other_of(arrivals: Arrivals, now: Arrival) -> Option<u32>
    ensures { result ≡ in_turn true now arrivals }
{
    let (Some(before), Some(last)) = (arrivals.before, arrivals.last) else {
        return None;
    };
    let is_soon = now.at.saturating_sub(before.at) <= TURN_SECONDS;
    if is_same(before, now) && !is_same(last, now) && is_soon {
        Some(last.from)
    } else {
        None
    }
}

// Whether both are of one device, as far as that can be seen.
fn is_same(one: Arrival, other: Arrival) -> bool
    ensures { result ≡ is_same one other }
{
    one.from == other.from && one.index_id == other.index_id
}

// That it came, and took no place.
fn only(now: Arrival) -> Arrivals
    ensures { result ≡ only now }
{
    Arrivals {
        before: None,
        last: Some(now),
    }
}

// That it came as well.
fn after(arrivals: Arrivals, now: Arrival) -> Arrivals
    ensures { result ≡ after now arrivals }
{
    let before = match arrivals.last {
        Some(last) if is_same(last, now) => arrivals.before,
        last => last,
    };
    Arrivals {
        before,
        last: Some(now),
    }
}
