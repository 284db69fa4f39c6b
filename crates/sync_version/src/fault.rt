//! Why the counter of a version vector is not raised: it is full, or out of memory.
ghost use Rattle.std.specs.Prelude.{◌≡◌, Some};
ghost use Rattle.sync_version.specs.Faults.{fault_name, number_of};
ghost use Rattle.sync_version.specs.declared.fault.RaiseFault.TheVariants.{OutOfMemory};

use std::alloc::AllocError;
use std::fmt::{self, Display, Formatter};
use thiserror::Error;

/// Why a version was not raised. Displayed, it is its name.
#[derive(Clone, Copy, Debug, PartialEq, Eq, Error)]
pub enum RaiseFault {
    /// The device's counter is 2^64 - 1, and no greater one fits.
    CounterFull,
    /// The raised version could not be allocated.
    OutOfMemory,
}

impl RaiseFault {
    /// The number under which programs report the fault: 30 or 33.
    pub fn number(self) -> u8
        ensures { result ≡ number_of self }
    {
        match self {
            RaiseFault::CounterFull => 30,
            RaiseFault::OutOfMemory => 33,
        }
    }
}

impl Display for RaiseFault {
    ghost output = { λ fault. Some (fault_name fault) };

    fn fmt<W: fmt::Write>(&self, f: &mut Formatter<W>) -> fmt::Result {
        f.write_str(match self {
            RaiseFault::CounterFull => "CounterFull",
            RaiseFault::OutOfMemory => "OutOfMemory",
        })
    }
}

impl From<AllocError> for RaiseFault {
    ghost from_gives = { λ _ e. e ≡ OutOfMemory };

    fn from(_failed: AllocError) -> RaiseFault {
        RaiseFault::OutOfMemory
    }
}
