//! When a Ping is due (nothing was sent for 90 seconds), and when a connection timed out (nothing came for 300).
ghost use Rattle.std.specs.Prelude.{◌≡◌, ◌≤◌, ◌-◌, ◌↔◌, IsTrue};
ghost use Rattle.bep_session.specs.Times.{ping_seconds, timeout_seconds};

use sync_version::Moment;

/// What is due on a connection.
#[derive(Clone, Copy, Debug, PartialEq, Eq)]
pub enum Tick {
    /// Nothing.
    Nothing,
    /// A Ping, since nothing was said for 90 seconds.
    PingDue,
    /// The end of the connection, since no whole frame was received for 300 seconds. Programs report it under the number 52.
    TimedOut,
}

/// Whether a Ping is due (Block Exchange Protocol v1, "Ping"): the last message was said 90 seconds ago, or earlier. Where the
/// clock went back, no time has passed. O(1).
pub fn ping_due(said: Moment, moment: Moment) -> bool
    ensures { IsTrue result ↔ (ping_seconds ≤ moment - said) }
{
    seconds_since(said, moment) >= 90
}

/// Whether a connection has timed out: the last frame was received 300 seconds ago, or earlier. Where the clock went back, no time
/// has passed. O(1).
pub fn timed_out(received: Moment, moment: Moment) -> bool
    ensures { IsTrue result ↔ (timeout_seconds ≤ moment - received) }
{
    seconds_since(received, moment) >= 300
}

fn seconds_since(last: Moment, moment: Moment) -> u64
    ensures { result ≡ moment - last }
{
    moment.seconds().saturating_sub(last.seconds())
}
