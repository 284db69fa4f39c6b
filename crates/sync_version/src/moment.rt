//! Points in time: whole Unix seconds, up to the year 9892.
ghost use Rattle.std.specs.Prelude.{◌≡◌, ◌≤◌, ◌↔◌, IsSome, IfSome};

use std::marker::Model;

/// A moment: whole Unix seconds from 0 to 250,000,000,000 (into the year 9892).
#[derive(Clone, Copy, Debug, PartialEq, Eq, PartialOrd, Ord)]
pub struct Moment {
    seconds: u64,
}

impl Model for Moment {
    ghost use Rattle.std.specs.Prelude.{ℕ, ◌≤◌};
    ghost use Rattle.sync_version.specs.declared.moment.TheConstants.Moment.{MAX_SECONDS};

    ghost Value = { ℕ };

    ghost view = { λ m. m.seconds };

    ghost invariant = { λ m. m.seconds ≤ MAX_SECONDS };

    ghost inverse = { λ n. record { seconds = n } };
}

impl Moment {
    /// The seconds of the last moment.
    pub const MAX_SECONDS: u64 = 250_000_000_000;

    /// The moment of this many seconds; `None` if they are more than [`Moment::MAX_SECONDS`]. O(1).
    pub fn new(seconds: u64) -> Option<Moment>
        ensures range { IsSome result ↔ (seconds ≤ Self.MAX_SECONDS) }
        ensures value { IfSome result (λ m. m ≡ seconds) }
    {
        if seconds > Self::MAX_SECONDS {
            return None;
        }
        Some(Moment { seconds })
    }

    /// The seconds since 1970-01-01T00:00:00Z. O(1).
    pub fn seconds(self) -> u64
        ensures value { result ≡ self }
        ensures range { result ≤ Self.MAX_SECONDS }
    {
        self.seconds
    }
}
