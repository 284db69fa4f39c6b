//! Why commands are not done.
ghost use Rattle.std.specs.Prelude.{◌≡◌, Some};
ghost use Rattle.bepd_pair.specs.Lines.{refused_text};
ghost use Rattle.bepd_pair.specs.Refusals.{refused_by_memory, refused_name, refused_store};

use file_store::StoreRefusal;
use std::alloc::AllocError;
use std::fmt::{self, Display, Formatter};
use sync_names::NameFault;
use sync_scan::ScanStop;

/// Why a command was not done, or not to its end. Displayed, it is what is printed.
#[derive(Clone, Copy, Debug, PartialEq, Eq)]
pub(crate) enum Refused {
    /// It is none, or does not fit what is there.
    UnknownCommand,
    /// Its name is not safe.
    Name(NameFault),
    /// The scan was stopped.
    Scan(ScanStop),
    /// The history of the other peer's folder is full.
    HistoryFull,
    /// Memory is out.
    OutOfMemory,
}

impl Display for Refused {
    ghost output = { λ refused. Some (refused_text refused) };

    fn fmt<W: fmt::Write>(&self, f: &mut Formatter<W>) -> fmt::Result {
        match self {
            Refused::UnknownCommand => f.write_str("error unknown command"),
            Refused::Name(fault) => write!(f, "error {} {fault}", fault.number()),
            Refused::Scan(stop) => write!(f, "error {} {stop}", stop.number()),
            Refused::HistoryFull => f.write_str("error 32 HistoryFull"),
            Refused::OutOfMemory => f.write_str("error 33 OutOfMemory"),
        }
    }
}

impl From<AllocError> for Refused {
    ghost from_gives = { λ _ refused. refused ≡ refused_by_memory };

    fn from(_failed: AllocError) -> Refused {
        Refused::OutOfMemory
    }
}

impl From<NameFault> for Refused {
    ghost from_gives = { λ fault refused. refused ≡ refused_name fault };

    fn from(fault: NameFault) -> Refused {
        match fault {
            NameFault::OutOfMemory => Refused::OutOfMemory,
            fault => Refused::Name(fault),
        }
    }
}

impl From<StoreRefusal> for Refused {
    ghost from_gives = { λ refusal refused. refused ≡ refused_store refusal };

    fn from(refusal: StoreRefusal) -> Refused {
        match refusal {
            StoreRefusal::OutOfMemory => Refused::OutOfMemory,
            _ => Refused::UnknownCommand,
        }
    }
}
