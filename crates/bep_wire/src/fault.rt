//! Why protobuf fields are not decoded: truncated bytes, a varint that is too long, a bad key, a group.
ghost use Rattle.std.specs.Prelude.{◌≡◌, Some};
ghost use Rattle.bep_wire.specs.FaultNames.{wire_fault_name, wire_fault_number, fields_fault_name, fields_fault_number};
ghost use Rattle.bep_wire.specs.declared.fault.FieldsFault.TheVariants.{Wire, OutOfMemory};

use std::alloc::AllocFailed;
use std::fmt::{self, Display, Formatter};
use thiserror::Error;

/// Why no field begins at a place where bytes are left. Displayed, it is its name.
#[derive(Clone, Copy, Debug, PartialEq, Eq, Error)]
pub enum WireFault {
    /// The bytes end before a varint or a value does.
    Truncated,
    /// The tenth byte of a varint says that more follows.
    LongVarint,
    /// The field number is 0 or above `MAX_FIELD_NUMBER`, or the wire type is 6 or 7.
    BadKey,
    /// The wire type is 3 or 4: the groups of older protocols, which are not read.
    Group,
}

impl WireFault {
    /// The number under which programs report the fault, 1 to 4.
    pub fn number(self) -> u8
        ensures { result ≡ wire_fault_number self }
    {
        match self {
            WireFault::Truncated => 1,
            WireFault::LongVarint => 2,
            WireFault::BadKey => 3,
            WireFault::Group => 4,
        }
    }
}

impl Display for WireFault {
    ghost output = { λ fault. Some (wire_fault_name fault) };

    fn fmt<W: fmt::Write>(&self, f: &mut Formatter<W>) -> fmt::Result {
        f.write_str(match self {
            WireFault::Truncated => "Truncated",
            WireFault::LongVarint => "LongVarint",
            WireFault::BadKey => "BadKey",
            WireFault::Group => "Group",
        })
    }
}

/// Why the fields of a byte list were not read. Displayed, it is its name, or that of the bytes' fault.
#[derive(Clone, Copy, Debug, PartialEq, Eq, Error)]
pub enum FieldsFault {
    /// The first fault of the bytes.
    Wire(WireFault),
    /// The list of fields could not grow.
    OutOfMemory,
}

impl FieldsFault {
    /// The number under which programs report the fault: 1 to 4, or 33 for out of memory.
    pub fn number(self) -> u8
        ensures { result ≡ fields_fault_number self }
    {
        match self {
            FieldsFault::Wire(fault) => fault.number(),
            FieldsFault::OutOfMemory => 33,
        }
    }
}

impl Display for FieldsFault {
    ghost output = { λ fault. Some (fields_fault_name fault) };

    fn fmt<W: fmt::Write>(&self, f: &mut Formatter<W>) -> fmt::Result {
        match self {
            FieldsFault::Wire(fault) => fault.fmt(f),
            FieldsFault::OutOfMemory => f.write_str("OutOfMemory"),
        }
    }
}

impl From<WireFault> for FieldsFault {
    ghost from_gives = { λ fault e. e ≡ Wire fault };

    fn from(fault: WireFault) -> FieldsFault {
        FieldsFault::Wire(fault)
    }
}

impl<T: Drop> From<AllocFailed<T>> for FieldsFault {
    ghost from_gives = { λ _ e. e ≡ OutOfMemory };

    fn from(_error: AllocFailed<T>) -> FieldsFault {
        FieldsFault::OutOfMemory
    }
}
