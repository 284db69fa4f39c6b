//! What a check of a configuration tells: unknown keys, and what a run would meet at its state, addresses and folders.
use crate::asked::LONG_PATH;
use crate::begun::told_alone;
use crate::failure::RunFailure;
use crate::files::{StateFiles, directory_of};
use crate::last_run::{LastRun, StatePaths, read_last_run};
use crate::lock::is_locked;
use crate::naming::{at_state, listen_failure, peer_address};
use crate::outlook_folder::folder_stop;
use crate::probing::{can_be_written, is_directory, is_taken};
use bep_messages::Text;
use node_config::{Config, PeerConfig, unknown_keys};
use node_context::Endpoint;
use node_socket::{is_short, socket_path};
use node_threads::{ListenFault, Listener, NodeAddress, UnixSockets};
use std::alloc::{AllocError, Global};
use std::fs::{self, File, Files};
use std::io::{self, Write};
use std::net::{Net, TcpListener, TcpStream};

/// Writes a line for each key of a configuration's text that is none. Fails where the text is no TOML document, if out of memory, and where a write fails.
pub(crate) fn tell_unknown_keys<W: Write>(
    alloc: Global,
    text: &[u8],
    to: &mut W,
) -> Result<(), RunFailure> {
    let keys = unknown_keys(alloc, text)?;
    for key in keys.as_slice() {
        writeln!(to, "{key}")?;
    }
    Ok(())
}

/// Writes a line for each thing that a run of the configuration would meet at its start: a state that can't be kept or that another run has, an address that
/// can't be listened on, a folder that isn't there or can't be written, or has no marker. Returns the failure with which the run would end by then.
///
/// In each directory that is there, a file is made and removed. An address is listened on until all were tried.
pub(crate) fn tell_outlook<R, O>(
    rt: &R,
    alloc: Global,
    config: &Config,
    output: &mut O,
) -> Result<Option<RunFailure>, RunFailure>
where
    R: Files<File = File>
        + Net<Listener = TcpListener, Stream = TcpStream>
        + StateFiles
        + UnixSockets,
    O: Write,
{
    if let Some(about) = told_alone(config) {
        writeln!(output, "{about}")?;
    }
    let known = known_state(rt, alloc, config, output)?;
    tell_page(rt, alloc, config, output)?;
    with_known(rt, alloc, config, known, output)
}

// What is known of the state before a run begins.
#[derive(Drop)]
enum Known {
    // What it has, with its journal.
    Last(LastRun),
    // Why a run would end by it.
    Stop(RunFailure),
}

// Looks at the state.
fn known_state<R: Files<File = File> + StateFiles, O: Write>(
    rt: &R,
    alloc: Global,
    config: &Config,
    output: &mut O,
) -> Result<Known, RunFailure> {
    let path = config.state.as_str();
    if let Some(stop) = state_stop(rt, alloc, path, output)? {
        return Ok(Known::Stop(stop));
    }
    let paths = StatePaths::new(alloc, path)?;
    match read_last_run(rt, alloc, config.device, &paths) {
        Ok(last) => Ok(Known::Last(last)),
        Err(failure) => Ok(Known::Stop(at_state(alloc, path, failure))),
    }
}

// Tells where the page can't be made.
fn tell_page<R: Files<File = File>, O: Write>(
    rt: &R,
    alloc: Global,
    config: &Config,
    output: &mut O,
) -> Result<(), RunFailure> {
    let Some(page) = &config.status else {
        return Ok(());
    };
    let directory = directory_of(page.as_str());
    if !is_directory(rt, directory) {
        writeln!(output, "status: {directory}: no directory is there")?;
    } else if !can_be_written(rt, alloc, directory)? {
        writeln!(output, "status: {directory}: can't be written")?;
    }
    Ok(())
}

// Looks at the addresses and the folders, with what is known of the state. Returns why a run would end, if it would.
fn with_known<R, O>(
    rt: &R,
    alloc: Global,
    config: &Config,
    known: Known,
    output: &mut O,
) -> Result<Option<RunFailure>, RunFailure>
where
    R: Files<File = File>
        + Net<Listener = TcpListener, Stream = TcpStream>
        + StateFiles
        + UnixSockets,
    O: Write,
{
    match known {
        Known::Last(last) => places_stop(rt, alloc, config, Some(&last), output),
        Known::Stop(stop) => {
            let _ = places_stop(rt, alloc, config, None, output)?;
            Ok(Some(stop))
        }
    }
}

// Looks at the addresses, and then at the folders, with what is recorded of them, if that is known. Returns why a run would end by the first of them, if it would.
fn places_stop<R, O>(
    rt: &R,
    alloc: Global,
    config: &Config,
    last: Option<&LastRun>,
    output: &mut O,
) -> Result<Option<RunFailure>, RunFailure>
where
    R: Files<File = File>
        + Net<Listener = TcpListener, Stream = TcpStream>
        + StateFiles
        + UnixSockets,
    O: Write,
{
    let mut stop = addresses_stop(rt, alloc, config, output)?;
    for folder in config.folders.as_slice() {
        let is_over = stop.is_some() || last.is_none();
        let next = folder_stop(rt, alloc, config.device, folder, last, is_over, output)?;
        if stop.is_none() {
            stop = next;
        }
    }
    Ok(stop)
}

// Whether the state can be kept at the path. Returns why a run would end, where it can't.
fn state_stop<R: Files<File = File>, O: Write>(
    rt: &R,
    alloc: Global,
    state: &str,
    output: &mut O,
) -> Result<Option<RunFailure>, RunFailure> {
    let directory = directory_of(state);
    if !is_directory(rt, directory) {
        writeln!(output, "state: {directory}: no directory is there")?;
        return Ok(Some(no_state(alloc, state, "no directory is there")?));
    }
    if !can_be_written(rt, alloc, directory)? {
        writeln!(output, "state: {directory}: can't be written")?;
        return Ok(Some(no_state(alloc, state, "its directory can't be written")?));
    }
    if is_locked(rt, alloc, state)? {
        writeln!(output, "state: {state}: another run has it")?;
        return Ok(Some(RunFailure::StateInUse(Text::from_str(alloc, state)?)));
    }
    tell_socket(rt, alloc, state, output)?;
    Ok(None)
}

// Tells where the socket beside the state can't be made.
fn tell_socket<R: Files, O: Write>(
    rt: &R,
    alloc: Global,
    state: &str,
    output: &mut O,
) -> Result<(), RunFailure> {
    let path = socket_path(alloc, state)?;
    let why = if !is_short(path.as_str()) {
        LONG_PATH
    } else if is_taken(rt, path.as_str()) {
        "something else than a socket is there"
    } else {
        return Ok(());
    };
    let path = path.as_str();
    writeln!(output, "state: {path}: {why}: bepd ask can't reach a run")?;
    Ok(())
}

// The state can't be kept, for this reason.
fn no_state(alloc: Global, state: &str, why: &str) -> Result<RunFailure, AllocError> {
    let about = format!(in alloc; "state {state}: {why}")?;
    Ok(RunFailure::File(Text::from_string(about)))
}

// Listens on each address on which a run would. Returns why it would end, where that fails.
fn addresses_stop<R, O>(
    rt: &R,
    alloc: Global,
    config: &Config,
    output: &mut O,
) -> Result<Option<RunFailure>, RunFailure>
where
    R: Files<File = File> + Net<Listener = TcpListener, Stream = TcpStream> + UnixSockets,
    O: Write,
{
    let (mut listeners, mut stop) = (Vec::new(alloc), None);
    let looked = look_at_all(rt, alloc, config, &mut listeners, &mut stop, output);
    match looked {
        Ok(()) => Ok(stop),
        Err(failure) => Err(failure),
    }
}

// Listens on each of them, and notes why a run would end by the last that fails.
fn look_at_all<R, O>(
    rt: &R,
    alloc: Global,
    config: &Config,
    listeners: &mut Vec<Listener>,
    stop: &mut Option<RunFailure>,
    output: &mut O,
) -> Result<(), RunFailure>
where
    R: Files<File = File> + Net<Listener = TcpListener, Stream = TcpStream> + UnixSockets,
    O: Write,
{
    for (place, peer) in config.peers.as_slice().iter().enumerate() {
        if let Some(error) = listen_fault(rt, alloc, place, peer, listeners, output)? {
            let fault = ListenFault::Address { peer: place, error };
            *stop = Some(listen_failure(alloc, config, fault));
        }
    }
    Ok(())
}

// Listens on the address of a peer, if it has one of this device. Tells and returns why that can't be, if it can't.
fn listen_fault<R, O>(
    rt: &R,
    alloc: Global,
    place: usize,
    peer: &PeerConfig,
    listeners: &mut Vec<Listener>,
    output: &mut O,
) -> Result<Option<io::Error>, RunFailure>
where
    R: Files<File = File> + Net<Listener = TcpListener, Stream = TcpStream> + UnixSockets,
    O: Write,
{
    let NodeAddress::Listen(endpoint) = peer_address(alloc, place, peer)? else {
        return Ok(None);
    };
    match Listener::new(rt, &endpoint) {
        Ok(listener) => {
            remove_socket(rt, &endpoint);
            listeners.push(listener)?;
            Ok(None)
        }
        Err(error) => {
            let (number, kind) = (place.saturating_add(1), error.kind());
            writeln!(output, "peer {number}: listen {endpoint}: {kind}")?;
            Ok(Some(error))
        }
    }
}

// Removes the file of a Unix socket that was made there.
fn remove_socket<R: Files>(rt: &R, endpoint: &Endpoint) {
    if let Endpoint::Unix(path) = endpoint {
        let _ = fs::remove_file(rt, path.as_str());
    }
}
