//! What the scan of all names came to.
ghost use Rattle.std.specs.Prelude.{◌≡◌, Some};
ghost use Rattle.sync_scan.specs.Stops.{counted, empty_sum, stop_by, stop_name, stop_number, stop_of};

use crate::Scanned;
use file_store::StoreRefusal;
use folder_calls::ScanRefusal;
use folder_core::ScanAnswer;
use std::fmt::{self, Display, Formatter};
use thiserror::Error;

/// Why the scan of all names stopped before all were scanned. Displayed, it is its name.
#[derive(Clone, Copy, Debug, PartialEq, Eq, Error)]
pub enum ScanStop {
    /// No sequence is left, except those that the open commits will take.
    SequenceFull,
    /// The history has no room, except for what ends the open pulls.
    HistoryFull,
    /// Memory is out.
    OutOfMemory,
    /// The store could not list its names.
    StoreFault,
}

impl ScanStop {
    /// The number under which programs report it: 31, 32, 33 or 40. O(1).
    pub fn number(self) -> u8
        ensures { result ≡ stop_number self }
    {
        match self {
            ScanStop::SequenceFull => 31,
            ScanStop::HistoryFull => 32,
            ScanStop::OutOfMemory => 33,
            ScanStop::StoreFault => 40,
        }
    }
}

impl Display for ScanStop {
    ghost output = { λ stop. Some (stop_name stop) };

    fn fmt<W: fmt::Write>(&self, f: &mut Formatter<W>) -> fmt::Result {
        f.write_str(match self {
            ScanStop::SequenceFull => "SequenceFull",
            ScanStop::HistoryFull => "HistoryFull",
            ScanStop::OutOfMemory => "OutOfMemory",
            ScanStop::StoreFault => "StoreFault",
        })
    }
}

/// What the scan of all names came to: how many names, each number at most `u64::MAX`, and why it stopped early, if it did.
#[derive(Clone, Copy, Debug, PartialEq, Eq)]
pub struct ScanSum {
    /// Names of which a change was recorded.
    pub recorded: u64,
    /// Names that are as the folder has them.
    pub unchanged: u64,
    /// Names of which nothing was recorded for another reason, which does not stop the scan.
    pub other: u64,
    pub stopped: Option<ScanStop>,
}

impl ScanSum {
    /// Before any name was scanned.
    pub(crate) fn new() -> ScanSum
        ensures { result ≡ empty_sum }
    {
        ScanSum {
            recorded: 0,
            unchanged: 0,
            other: 0,
            stopped: None,
        }
    }

    /// The same counts of a scan that stopped early.
    pub(crate) fn stopped_by(self, stop: ScanStop) -> ScanSum
        ensures { result ≡ record self { stopped = Some stop } }
    {
        ScanSum {
            stopped: Some(stop),
            ..self
        }
    }

    /// Counts what the scan of a name came to.
    pub(crate) fn count(&mut self, scanned: &Result<Scanned, StoreRefusal>)
        ensures { self.new ≡ counted self.old scanned.now }
    {
        match scanned {
            Ok(Scanned::Answered(Ok(ScanAnswer::Recorded(_)))) => {
                self.recorded = self.recorded.saturating_add(1);
            }
            Ok(Scanned::Answered(Ok(ScanAnswer::Unchanged))) => {
                self.unchanged = self.unchanged.saturating_add(1);
            }
            _ => match stop_of(scanned) {
                Some(stop) => self.stopped = Some(stop),
                None => self.other = self.other.saturating_add(1),
            },
        }
    }
}

/// Why the scan of all names stops after this one, if it does.
fn stop_of(scanned: &Result<Scanned, StoreRefusal>) -> Option<ScanStop>
    ensures { result ≡ stop_of scanned.now }
{
    match scanned {
        Ok(Scanned::Answered(Err(ScanRefusal::SequenceFull))) => Some(ScanStop::SequenceFull),
        Ok(Scanned::Answered(Err(ScanRefusal::HistoryFull))) => Some(ScanStop::HistoryFull),
        Err(StoreRefusal::OutOfMemory) => Some(ScanStop::OutOfMemory),
        _ => None,
    }
}

/// Why the scan of all names stops if the store refuses to list them.
pub(crate) fn stop_by(refusal: StoreRefusal) -> ScanStop
    ensures { result ≡ stop_by refusal }
{
    match refusal {
        StoreRefusal::OutOfMemory => ScanStop::OutOfMemory,
        _ => ScanStop::StoreFault,
    }
}
