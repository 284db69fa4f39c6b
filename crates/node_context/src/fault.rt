//! Why a node did not run, or what it left is lost.
ghost use Rattle.std.specs.Prelude.{◌≡◌, Some};
ghost use Rattle.node_context.specs.Faults.{node_fault_name, node_fault_number};
ghost use Rattle.node_context.specs.declared.fault.NodeFault.TheVariants.{OutOfMemory};

use std::alloc::{AllocError, AllocFailed};
use std::fmt::{self, Display, Formatter};
use thiserror::Error;

/// Why a node didn't run, or what it left is lost. Displayed, it is its name.
#[derive(Clone, Copy, Debug, PartialEq, Eq, Error)]
pub enum NodeFault {
    /// Memory ran out, or threads did.
    OutOfMemory,
    /// No pass of a folder is left.
    PassesFull,
    /// A folder was named by a place at which there is none.
    NoFolder,
    /// A folder has open pulls.
    OpenPulls,
    /// An address can't be listened on.
    BadAddress,
}

impl NodeFault {
    /// The number under which programs report it: 33, 34, 35, 60 or 62. O(1).
    pub fn number(self) -> u8
        ensures { result ≡ node_fault_number self }
    {
        match self {
            NodeFault::OutOfMemory => 33,
            NodeFault::OpenPulls => 34,
            NodeFault::PassesFull => 35,
            NodeFault::NoFolder => 60,
            NodeFault::BadAddress => 62,
        }
    }
}

impl Display for NodeFault {
    ghost output = { λ fault. Some (node_fault_name fault) };

    fn fmt<W: fmt::Write>(&self, f: &mut Formatter<W>) -> fmt::Result {
        f.write_str(match self {
            NodeFault::OutOfMemory => "OutOfMemory",
            NodeFault::OpenPulls => "Stray",
            NodeFault::PassesFull => "PassesFull",
            NodeFault::NoFolder => "BadConfig",
            NodeFault::BadAddress => "BadAddress",
        })
    }
}

impl From<AllocError> for NodeFault {
    ghost from_gives = { λ _ fault. fault ≡ OutOfMemory };

    fn from(_failed: AllocError) -> NodeFault {
        NodeFault::OutOfMemory
    }
}

impl<T: Drop> From<AllocFailed<T>> for NodeFault {
    ghost from_gives = { λ _ fault. fault ≡ OutOfMemory };

    fn from(_failed: AllocFailed<T>) -> NodeFault {
        NodeFault::OutOfMemory
    }
}
