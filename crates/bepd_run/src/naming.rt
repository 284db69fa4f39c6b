//! The error messages of a run's failures: which file, configuration key or address each is about, and why.
ghost use Rattle.std.specs.Prelude.{◌≡◌, IfErr, IfOk};
ghost use Rattle.std.specs.IoError.{error_kind};
ghost use Rattle.bepd_run.specs.Addresses.{IsReadAs, IsRefused};
ghost use Rattle.bepd_run.specs.Naming.{IsAt, IsOfAddress, IsOfConfig, IsOfFile};
ghost use Rattle.bepd_run.specs.declared.failure.RunFailure.TheVariants as failure;

use crate::addresses::address_of;
use crate::failure::RunFailure;
use bep_messages::Text;
use node_config::{Config, ConfigFault, PeerAddress, PeerConfig, unknown_keys};
use node_context::NodeFault;
use node_socket::AskFault;
use node_state::StateFault;
use node_threads::{ListenFault, NodeAddress};
use std::alloc::Global;
use std::io::{self, ErrorKind};

/// A file at the path can't be read or written, for this reason of the system.
pub(crate) fn file_failure(alloc: Global, what: &str, path: &str, error: io::Error) -> RunFailure
    ensures named { IsOfFile result }
    ensures memory { error_kind error ≡ ErrorKind.OutOfMemory → result ≡ failure.OutOfMemory }
{
    if error.kind() == ErrorKind::OutOfMemory {
        return RunFailure::OutOfMemory;
    }
    match format!(in alloc; "{what} {path}: {error}") {
        Ok(about) => RunFailure::File(Text::from_string(about)),
        Err(_) => RunFailure::OutOfMemory,
    }
}

/// The configuration with this text is refused for a fault. Each key of it that is none is named with that: it may be the one that is missed.
pub(crate) fn config_failure(alloc: Global, text: &[u8], fault: ConfigFault) -> RunFailure
    ensures { IsOfConfig fault result }
{
    match unknown_lines(alloc, text) {
        Some(about) => RunFailure::ConfigWith(fault, about),
        None => RunFailure::Config(fault),
    }
}

// A line for each key of a configuration's text that is none; nothing where none is such a key, or they can't be found.
fn unknown_lines(alloc: Global, text: &[u8]) -> Option<Text> {
    let keys = unknown_keys(alloc, text).ok()?;
    let mut lines = String::new(alloc);
    for key in keys.as_slice() {
        if !lines.is_empty() {
            lines.push('\n').ok()?;
        }
        let line = format!(in alloc; "{key}").ok()?;
        lines.push_str(line.as_str()).ok()?;
    }
    if lines.is_empty() {
        return None;
    }
    Some(Text::from_string(lines))
}

/// The same failure, of the state at the path, where it is one of a state.
pub(crate) fn at_state(alloc: Global, path: &str, failure: RunFailure) -> RunFailure
    ensures { IsAt failure result }
{
    match failure {
        RunFailure::State(StateFault::BadState(problem)) => {
            match format!(in alloc; "state {path}: {BAD_STATE}") {
                Ok(about) => {
                    let about = Text::from_string(about);
                    RunFailure::StateAt(StateFault::BadState(problem), about)
                }
                Err(_) => RunFailure::OutOfMemory,
            }
        }
        failure => failure,
    }
}

// What to do about a state that is refused.
const BAD_STATE: &str =
    "it is damaged, or not the state of this device: give back the one that was there, or move it away and all is scanned and received anew";

/// How a connection with the peer at a place of the configuration comes about. Fails where its address can't be read.
pub(crate) fn peer_address(
    alloc: Global,
    place: usize,
    peer: &PeerConfig,
) -> Result<NodeAddress, RunFailure>
    ensures read { IfOk result (IsReadAs peer.now.address) }
    ensures refused { IfErr result (IsRefused peer.now.address) }
{
    match address_of(alloc, &peer.address) {
        Ok(address) => Ok(address),
        Err(NodeFault::BadAddress) => Err(address_failure(alloc, place, peer, UNREADABLE)),
        Err(_) => Err(RunFailure::OutOfMemory),
    }
}

// What an address is.
const UNREADABLE: &str =
    "is neither an IPv4 address and a port, as 192.0.2.1:22000, nor localhost and a port, nor unix: and the whole path of a socket, of 107 bytes at most";

/// An address of the configuration can't be listened on.
pub(crate) fn listen_failure(alloc: Global, config: &Config, fault: ListenFault) -> RunFailure {
    let ListenFault::Address { peer, error } = fault else {
        return RunFailure::OutOfMemory;
    };
    let Some(of) = config.peers.as_slice().get(peer) else {
        return RunFailure::OutOfMemory;
    };
    match format!(in alloc; "can't be listened on: {error}") {
        Ok(why) => address_failure(alloc, peer, of, why.as_str()),
        Err(_) => RunFailure::OutOfMemory,
    }
}

// What is wrong with the address of the peer at a place.
fn address_failure(alloc: Global, place: usize, peer: &PeerConfig, why: &str) -> RunFailure
    ensures { IsOfAddress result }
{
    let number = place.saturating_add(1);
    let (key, address) = match &peer.address {
        PeerAddress::Dial(text) => ("dial", text.as_str()),
        PeerAddress::Listen(text) => ("listen", text.as_str()),
    };
    match format!(in alloc; "peer {number}: {key} {address:?} {why}") {
        Ok(about) => RunFailure::Address(Text::from_string(about)),
        Err(_) => RunFailure::OutOfMemory,
    }
}

/// Why no answer came from the run by the configuration, which is to take commands at the path.
pub(crate) fn ask_failure(alloc: Global, path: &str, config: &str, fault: AskFault) -> RunFailure {
    let about = match fault {
        AskFault::NoRun => format!(in alloc;
            "{path}: no run takes commands there: is `bepd run --config {config}` running?"
        ),
        AskFault::LongPath => format!(in alloc;
            "{path}: a socket's path has 107 bytes at most: choose a shorter `state` in {config}, and start the run again"
        ),
        AskFault::Silent => format!(in alloc;
            "{path}: no answer within 10 seconds; what was asked for may still be done"
        ),
        AskFault::Cut => format!(in alloc; "{path}: the run ended before its answer was whole"),
        AskFault::Socket(error) => return file_failure(alloc, "socket", path, error),
        AskFault::OutOfMemory => return RunFailure::OutOfMemory,
    };
    match about {
        Ok(about) => RunFailure::NoAnswer(Text::from_string(about)),
        Err(_) => RunFailure::OutOfMemory,
    }
}

/// No answer came from the run that has the state, since there is no socket at the path.
pub(crate) fn no_socket(alloc: Global, path: &str) -> RunFailure {
    match format!(in alloc;
        "{path}: a run has this state, and takes no commands there: it has just begun, or its socket was removed or could not be made: end it (a kill undoes nothing that it has written), and start it again"
    ) {
        Ok(about) => RunFailure::NoAnswer(Text::from_string(about)),
        Err(_) => RunFailure::OutOfMemory,
    }
}

/// What was asked for can't be written, for this reason of the system.
pub(crate) fn output_failure(alloc: Global, error: io::Error) -> RunFailure {
    file_failure(alloc, "standard", "output", error)
}
