//! Why the bytes of a message are not decoded: they are no protobuf fields, a text isn't UTF-8, or out of memory.
ghost use Rattle.std.specs.Prelude.{◌≡◌, Some};
ghost use Rattle.bep_messages.specs.FaultNames.{message_fault_name, message_fault_number};
ghost use Rattle.bep_messages.specs.declared.fault.MessageFault.TheVariants.{Wire, OutOfMemory};

use bep_wire::WireFault;
use std::alloc::{AllocError, AllocFailed};
use std::fmt::{self, Display, Formatter};
use thiserror::Error;

/// Why bytes are not decoded: their first fault from left to right, or out of memory. Displayed, it is
/// its name, or that of the fault of the fields.
#[derive(Clone, Copy, Debug, PartialEq, Eq, Error)]
pub enum MessageFault {
    /// The bytes, or those of a message in them, are not fields.
    Wire(WireFault),
    /// A text is not UTF-8.
    NotUtf8,
    /// Memory ran out.
    OutOfMemory,
}

impl MessageFault {
    /// The number under which programs report the fault: 1 to 5, or 33 for out of memory.
    pub fn number(self) -> u8
        ensures { result ≡ message_fault_number self }
    {
        match self {
            MessageFault::Wire(fault) => fault.number(),
            MessageFault::NotUtf8 => 5,
            MessageFault::OutOfMemory => 33,
        }
    }
}

impl Display for MessageFault {
    ghost output = { λ fault. Some (message_fault_name fault) };

    fn fmt<W: fmt::Write>(&self, f: &mut Formatter<W>) -> fmt::Result {
        match self {
            MessageFault::Wire(fault) => fault.fmt(f),
            MessageFault::NotUtf8 => f.write_str("NotUtf8"),
            MessageFault::OutOfMemory => f.write_str("OutOfMemory"),
        }
    }
}

impl From<WireFault> for MessageFault {
    ghost from_gives = { λ fault e. e ≡ Wire fault };

    fn from(fault: WireFault) -> MessageFault {
        MessageFault::Wire(fault)
    }
}

impl From<AllocError> for MessageFault {
    ghost from_gives = { λ _ e. e ≡ OutOfMemory };

    fn from(_error: AllocError) -> MessageFault {
        MessageFault::OutOfMemory
    }
}

impl<T: Drop> From<AllocFailed<T>> for MessageFault {
    ghost from_gives = { λ _ e. e ≡ OutOfMemory };

    fn from(_error: AllocFailed<T>) -> MessageFault {
        MessageFault::OutOfMemory
    }
}
