//! Why a run failed: its line on standard error, and its exit status.
ghost use Rattle.std.specs.Prelude.{◌≡◌, Some};
ghost use Rattle.std.specs.IoError.{error_kind};
ghost use Rattle.bepd_run.specs.Failures.{io_failure, restore_failure, run_failure_status, run_failure_text};
ghost use Rattle.bepd_run.specs.declared.failure.RunFailure.TheVariants as failure;

use bep_messages::Text;
use folder_core::RestoreFault;
use node_config::ConfigFault;
use node_context::NodeFault;
use node_state::{Problem, StateFault};
use std::alloc::{AllocError, AllocFailed};
use std::fmt::{self, Display, Formatter};
use std::io;
use thiserror::Error;

/// Why a node did not run, or did not end well. Displayed, it is the line for standard error; for a configuration that is refused a
/// second line names the key, or the line of the file, and what is wrong with it, and further ones each key that is none; for a file, an address, a folder or a state a second line says which one, and what to do.
#[derive(Debug, Drop, Error)]
pub enum RunFailure {
    /// The configuration is refused, or there was no memory for it.
    Config(ConfigFault),
    /// The configuration is refused. This says which of its keys are none.
    ConfigWith(ConfigFault, Text),
    /// The state file is refused, or there was no memory for it.
    State(StateFault),
    /// The state file is refused. This says which one it is, and what to do.
    StateAt(StateFault, Text),
    /// Another run has the state at this path.
    StateInUse(Text),
    /// Another run has the folder at this path.
    FolderInUse(Text),
    /// The node did not begin, or memory ran out.
    Node(NodeFault),
    /// Memory ran out.
    OutOfMemory,
    /// The words for a first configuration, or a certificate, are refused. This says what is wrong.
    Refused(Text),
    /// A file that was to be made is there already: this one.
    Exists(Text),
    /// A folder's path is no directory. This says whose, and what to do.
    NoFolder(Text),
    /// An address can't be read, or not be listened on. This says which one, and why.
    Address(Text),
    /// A file can't be read or written. This says which one, and why.
    File(Text),
    /// A run that was asked for something gave no answer. This says which one, and why.
    NoAnswer(Text),
    /// The answer of a run that was asked for something is an error.
    NotDone,
    /// The same. This says what would help.
    NotDoneWith(Text),
    /// The commands can't be read, or an answer not be written.
    ReadOrWrite,
}

impl RunFailure {
    /// The exit status of a program that ends so: 1 for a configuration or words that are refused, 4 where memory ran out, 6 for a state file that is
    /// refused or that another run has and for a folder that another run has, 7 for an address, 8 where a run gave no answer, 9 where its answer is an error, and 5 for
    /// all else that can't be read or written.
    pub fn status(&self) -> u8
        ensures { result ≡ run_failure_status self.now }
    {
        match self {
            RunFailure::Config(ConfigFault::OutOfMemory) => 4,
            RunFailure::Config(_) => 1,
            RunFailure::ConfigWith(ConfigFault::OutOfMemory, _) => 4,
            RunFailure::ConfigWith(_, _) => 1,
            RunFailure::State(StateFault::OutOfMemory) => 4,
            RunFailure::State(_) => 6,
            RunFailure::StateAt(StateFault::OutOfMemory, _) => 4,
            RunFailure::StateAt(_, _) => 6,
            RunFailure::StateInUse(_) => 6,
            RunFailure::FolderInUse(_) => 6,
            RunFailure::Node(NodeFault::OutOfMemory | NodeFault::PassesFull) => 4,
            RunFailure::Node(NodeFault::NoFolder) => 1,
            RunFailure::Node(NodeFault::BadAddress) => 7,
            RunFailure::Node(NodeFault::OpenPulls) => 5,
            RunFailure::OutOfMemory => 4,
            RunFailure::Refused(_) => 1,
            RunFailure::Exists(_) => 5,
            RunFailure::NoFolder(_) => 5,
            RunFailure::Address(_) => 7,
            RunFailure::File(_) => 5,
            RunFailure::NoAnswer(_) => 8,
            RunFailure::NotDone => 9,
            RunFailure::NotDoneWith(_) => 9,
            RunFailure::ReadOrWrite => 5,
        }
    }
}

impl Display for RunFailure {
    ghost output = { λ failed. Some (run_failure_text failed) };

    fn fmt<W: fmt::Write>(&self, f: &mut Formatter<W>) -> fmt::Result {
        match self {
            RunFailure::Config(fault) => {
                write!(f, "fault {} {}\n{fault}", fault.number(), fault.name())
            }
            RunFailure::ConfigWith(fault, about) => {
                let (number, name) = (fault.number(), fault.name());
                write!(f, "fault {number} {name}\n{fault}\n{}", about.as_str())
            }
            RunFailure::State(fault) => write!(f, "fault {} {fault}", fault.number()),
            RunFailure::Node(fault) => write!(f, "fault {} {fault}", fault.number()),
            RunFailure::StateAt(fault, about) => {
                write!(f, "fault {} {fault}\n{}", fault.number(), about.as_str())
            }
            RunFailure::StateInUse(path) => write!(
                f,
                "fault 63 StateInUse\n{}: another run has it; end that one, or have it do what is wanted by bepd ask",
                path.as_str()
            ),
            RunFailure::FolderInUse(path) => write!(
                f,
                "fault 64 FolderInUse\n{}: another run has it; end that one, or give the folder another path",
                path.as_str()
            ),
            RunFailure::OutOfMemory => f.write_str("fault 33 OutOfMemory"),
            RunFailure::Refused(about) => write!(f, "fault {}", about.as_str()),
            RunFailure::Exists(name) => write!(f, "fault {} is there already", name.as_str()),
            RunFailure::NoFolder(about) => { write!(f, "fault 40 StoreFault\n{}", about.as_str()) }
            RunFailure::Address(about) => write!(f, "fault 62 BadAddress\n{}", about.as_str()),
            RunFailure::File(about) => write!(f, "fault read or write\n{}", about.as_str()),
            RunFailure::NoAnswer(about) => write!(f, "fault no answer\n{}", about.as_str()),
            RunFailure::NotDone => f.write_str("fault not done: the answer says why"),
            RunFailure::NotDoneWith(about) => {
                write!(f, "fault not done: the answer says why\n{}", about.as_str())
            }
            RunFailure::ReadOrWrite => f.write_str("fault read or write"),
        }
    }
}

impl From<ConfigFault> for RunFailure {
    ghost from_gives = { λ fault failed. failed ≡ failure.Config fault };

    fn from(fault: ConfigFault) -> RunFailure {
        RunFailure::Config(fault)
    }
}

impl From<StateFault> for RunFailure {
    ghost from_gives = { λ fault failed. failed ≡ failure.State fault };

    fn from(fault: StateFault) -> RunFailure {
        RunFailure::State(fault)
    }
}

impl From<RestoreFault> for RunFailure {
    ghost from_gives = { λ fault failed. failed ≡ restore_failure fault };

    fn from(fault: RestoreFault) -> RunFailure {
        match fault {
            RestoreFault::BadRecords => {
                RunFailure::State(StateFault::BadState(Problem::Records))
            }
            RestoreFault::OutOfMemory => RunFailure::OutOfMemory,
        }
    }
}

impl From<NodeFault> for RunFailure {
    ghost from_gives = { λ fault failed. failed ≡ failure.Node fault };

    fn from(fault: NodeFault) -> RunFailure {
        RunFailure::Node(fault)
    }
}

impl From<AllocError> for RunFailure {
    ghost from_gives = { λ _ failed. failed ≡ failure.OutOfMemory };

    fn from(_failed: AllocError) -> RunFailure {
        RunFailure::OutOfMemory
    }
}

impl<T: Drop> From<AllocFailed<T>> for RunFailure {
    ghost from_gives = { λ _ failed. failed ≡ failure.OutOfMemory };

    fn from(_failed: AllocFailed<T>) -> RunFailure {
        RunFailure::OutOfMemory
    }
}

impl From<io::Error> for RunFailure {
    ghost from_gives = { λ error failed. failed ≡ io_failure (error_kind error) };

    fn from(error: io::Error) -> RunFailure {
        match error.kind() {
            io::ErrorKind::OutOfMemory => RunFailure::OutOfMemory,
            _ => RunFailure::ReadOrWrite,
        }
    }
}
