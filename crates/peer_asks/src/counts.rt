//! Counts of Responses that bring no bytes: to an unknown id, late, of a wrong size, or with an error code.
ghost use Rattle.std.specs.Prelude.{◌≡◌};
ghost use Rattle.peer_asks.specs.Counts.{counted, no_counts};

use crate::table::Arrival;

/// What a book counted of Responses that bring no bytes, each up to `u64::MAX`. None of them harms the connection.
#[derive(Clone, Copy, Debug, PartialEq, Eq)]
pub struct AskCounts {
    /// To an id that was not open, as a second Response to one Request.
    pub unknown: u64,
    /// To a Request of which nobody wants the bytes any more.
    pub late: u64,
    /// With no error, and another number of bytes than were asked for.
    pub wrong_size: u64,
    /// With an error of the peer.
    pub refused: u64,
}

impl AskCounts {
    pub(crate) fn new() -> AskCounts
        ensures { result ≡ no_counts }
    {
        AskCounts {
            unknown: 0,
            late: 0,
            wrong_size: 0,
            refused: 0,
        }
    }

    /// Counts what a Response brought.
    pub(crate) fn count(&mut self, arrival: Arrival)
        ensures { self.new ≡ counted arrival self.old }
    {
        match arrival {
            Arrival::Data => {}
            Arrival::Refused => self.refused = self.refused.saturating_add(1),
            Arrival::WrongSize => self.wrong_size = self.wrong_size.saturating_add(1),
            Arrival::Late => self.late = self.late.saturating_add(1),
            Arrival::Unknown => self.unknown = self.unknown.saturating_add(1),
        }
    }
}
