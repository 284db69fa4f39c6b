//! Why a text is no safe name: empty, absolute, a component like `..`, U+0000, not NFC, or internal.
ghost use Rattle.std.specs.Prelude.{◌≡◌, Some};
ghost use Rattle.sync_names.specs.Faults.{fault_name, number_of};
ghost use Rattle.sync_names.specs.declared.fault.NameFault.TheVariants.{OutOfMemory};

use std::alloc::AllocError;
use std::fmt::{self, Display, Formatter};
use thiserror::Error;

/// Why a text is no safe name. Displayed, it is its name.
#[derive(Clone, Copy, Debug, PartialEq, Eq, Error)]
pub enum NameFault {
    /// The text is empty.
    Empty,
    /// The text begins with `/`.
    Absolute,
    /// A component, between slashes, is empty, `.` or `..`.
    BadComponent,
    /// The text contains the character U+0000.
    Nul,
    /// The text isn't in Unicode's normalization form NFC.
    NotNfc,
    /// The name is one that a folder keeps for itself ([`crate::is_internal`]).
    Internal,
    /// The test of the form, or the copy of the text, ran out of memory.
    OutOfMemory,
}

impl NameFault {
    /// The number under which programs report the fault: 20 to 25, or 33 for `OutOfMemory`. O(1).
    pub fn number(self) -> u8
        ensures { result ≡ number_of self }
    {
        match self {
            NameFault::Empty => 20,
            NameFault::Absolute => 21,
            NameFault::BadComponent => 22,
            NameFault::Nul => 23,
            NameFault::NotNfc => 24,
            NameFault::Internal => 25,
            NameFault::OutOfMemory => 33,
        }
    }
}

impl Display for NameFault {
    ghost output = { λ fault. Some (fault_name fault) };

    fn fmt<W: fmt::Write>(&self, f: &mut Formatter<W>) -> fmt::Result {
        f.write_str(match self {
            NameFault::Empty => "Empty",
            NameFault::Absolute => "Absolute",
            NameFault::BadComponent => "BadComponent",
            NameFault::Nul => "Nul",
            NameFault::NotNfc => "NotNfc",
            NameFault::Internal => "Internal",
            NameFault::OutOfMemory => "OutOfMemory",
        })
    }
}

impl From<AllocError> for NameFault {
    ghost from_gives = { λ _ fault. fault ≡ OutOfMemory };

    fn from(_failed: AllocError) -> NameFault {
        NameFault::OutOfMemory
    }
}
