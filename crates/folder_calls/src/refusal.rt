//! What calls of a folder with a history refuse, beside what the folder by itself does.
ghost use Rattle.std.specs.Prelude.{◌≡◌, Some};
ghost use Rattle.folder_calls.specs.Faults.{history_full_name, history_full_number, scan_refusal_name, scan_refusal_number};

use std::fmt::{self, Display, Formatter};
use thiserror::Error;

/// The history has no room for the change and for the entries that end the open pulls; nothing changed. Displayed, it is its
/// name.
#[derive(Clone, Copy, Debug, PartialEq, Eq, Error)]
pub struct HistoryFull;

impl HistoryFull {
    /// The number under which programs report it: 32. O(1).
    pub fn number(self) -> u8
        ensures { result ≡ history_full_number }
    {
        32
    }
}

impl Display for HistoryFull {
    ghost output = { λ _. Some history_full_name };

    fn fmt<W: fmt::Write>(&self, f: &mut Formatter<W>) -> fmt::Result {
        f.write_str("HistoryFull")
    }
}

/// Why a scan was not recorded. Displayed, it is its name.
#[derive(Clone, Copy, Debug, PartialEq, Eq, Error)]
pub enum ScanRefusal {
    /// This device's counter in the local version is 2^64 - 1, and no greater one fits.
    CounterFull,
    /// No sequence is left, except those that the open commits will take.
    SequenceFull,
    /// The history has no room, except for what ends the open pulls.
    HistoryFull,
}

impl ScanRefusal {
    /// The number under which programs report it: 30, 31 or 32. O(1).
    pub fn number(self) -> u8
        ensures { result ≡ scan_refusal_number self }
    {
        match self {
            ScanRefusal::CounterFull => 30,
            ScanRefusal::SequenceFull => 31,
            ScanRefusal::HistoryFull => 32,
        }
    }
}

impl Display for ScanRefusal {
    ghost output = { λ refusal. Some (scan_refusal_name refusal) };

    fn fmt<W: fmt::Write>(&self, f: &mut Formatter<W>) -> fmt::Result {
        f.write_str(match self {
            ScanRefusal::CounterFull => "CounterFull",
            ScanRefusal::SequenceFull => "SequenceFull",
            ScanRefusal::HistoryFull => "HistoryFull",
        })
    }
}
