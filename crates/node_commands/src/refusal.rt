//! Why a command was not done.
use node_context::NodeFault;
use std::alloc::AllocError;
use std::io::{self, Write};
use sync_scan::ScanStop;

/// Why a command was not done, or not to its end.
pub(crate) enum Refusal {
    UnknownCommand,
    UnknownFolder,
    // Its path is no directory, or has no marker.
    FolderMissing,
    Scan(ScanStop),
    // The run ends, and the scan with it.
    Ended,
    Node(NodeFault),
    OutOfMemory,
    Write(io::Error),
}

impl From<AllocError> for Refusal {
    fn from(_failed: AllocError) -> Refusal {
        Refusal::OutOfMemory
    }
}

impl From<NodeFault> for Refusal {
    fn from(fault: NodeFault) -> Refusal {
        Refusal::Node(fault)
    }
}

impl From<io::Error> for Refusal {
    fn from(error: io::Error) -> Refusal {
        Refusal::Write(error)
    }
}

/// Writes why a command was not done, if it was not. Fails where an answer could not be written.
pub(crate) fn tell<O: Write>(answered: Result<(), Refusal>, output: &mut O) -> io::Result<()> {
    match answered {
        Ok(()) => Ok(()),
        Err(Refusal::UnknownCommand) => writeln!(output, "error unknown command"),
        Err(Refusal::UnknownFolder) => writeln!(output, "error unknown folder"),
        Err(Refusal::FolderMissing) => writeln!(output, "error 46 FolderMissing"),
        Err(Refusal::Ended) => writeln!(output, "error stopped: the run ends"),
        Err(Refusal::Scan(stop)) => writeln!(output, "error {} {stop}", stop.number()),
        Err(Refusal::Node(fault)) => writeln!(output, "error {} {fault}", fault.number()),
        Err(Refusal::OutOfMemory) => writeln!(output, "error 33 OutOfMemory"),
        Err(Refusal::Write(error)) => Err(error),
    }
}
