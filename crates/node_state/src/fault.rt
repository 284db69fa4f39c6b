//! Why bytes are not a state file: its first line, a message, a device, a name, records, or an id that is repeated.
ghost use Rattle.std.specs.Prelude.{◌≡◌, Some};
ghost use Rattle.node_state.specs.FaultNames.{state_fault_name, state_fault_number};
ghost use Rattle.node_state.specs.declared.fault.StateFault.TheVariants.{BadState, OutOfMemory};

use bep_messages::MessageFault;
use bep_wire::WireFault;
use std::alloc::{AllocError, AllocFailed};
use std::fmt::{self, Display, Formatter};
use thiserror::Error;

/// Why a text is not a state.
#[derive(Clone, Copy, Debug, PartialEq, Eq)]
pub enum Problem {
    /// It begins otherwise than a state of version 1 or 2.
    Beginning,
    /// What follows the first line is not a message, for this reason.
    Unreadable(MessageFault),
    /// A device has not 32 bytes.
    Device,
    /// The index id of a folder is 0.
    IndexId,
    /// Two folders have the same id.
    RepeatedFolder,
    /// The name of a file is refused.
    Name,
    /// No folder has these records and this last sequence.
    Records,
    /// A folder has two index ids of one peer.
    RepeatedPeer,
}

/// Why a state is not read. Displayed, it is its name.
#[derive(Clone, Copy, Debug, PartialEq, Eq, Error)]
pub enum StateFault {
    /// The bytes are not a state, for this reason.
    BadState(Problem),
    /// Memory ran out.
    OutOfMemory,
}

impl StateFault {
    /// The number under which programs report the fault: 61, or 33 for out of memory.
    pub fn number(self) -> u8
        ensures { result ≡ state_fault_number self }
    {
        match self {
            StateFault::BadState(_) => 61,
            StateFault::OutOfMemory => 33,
        }
    }
}

impl Display for StateFault {
    ghost output = { λ fault. Some (state_fault_name fault) };

    fn fmt<W: fmt::Write>(&self, f: &mut Formatter<W>) -> fmt::Result {
        f.write_str(match self {
            StateFault::BadState(_) => "BadState",
            StateFault::OutOfMemory => "OutOfMemory",
        })
    }
}

impl From<AllocError> for StateFault {
    ghost from_gives = { λ _ e. e ≡ OutOfMemory };

    fn from(_error: AllocError) -> StateFault {
        StateFault::OutOfMemory
    }
}

impl<T: Drop> From<AllocFailed<T>> for StateFault {
    ghost from_gives = { λ _ e. e ≡ OutOfMemory };

    fn from(_error: AllocFailed<T>) -> StateFault {
        StateFault::OutOfMemory
    }
}

impl From<WireFault> for StateFault {
    ghost use Rattle.bep_messages.specs.declared.fault.MessageFault.TheVariants.{Wire};
    ghost use Rattle.node_state.specs.declared.fault.Problem.TheVariants.{Unreadable};

    ghost from_gives = { λ fault e. e ≡ BadState (Unreadable (Wire fault)) };

    fn from(fault: WireFault) -> StateFault {
        StateFault::BadState(Problem::Unreadable(MessageFault::Wire(fault)))
    }
}
