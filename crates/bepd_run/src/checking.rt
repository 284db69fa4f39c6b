//! What a node would do by a configuration, written without a run.
use crate::failure::RunFailure;
use crate::files::{StateFiles, read_config_file};
use crate::naming::{config_failure, peer_address};
use crate::outlook::{tell_outlook, tell_unknown_keys};
use crate::paths::require_apart;
use crate::placing::placed_config;
use device_text::device_text;
use node_config::{Config, FolderConfig, FolderNumber, Key, PeerAddress, PeerConfig, read_config};
use node_threads::UnixSockets;
use std::alloc::Global;
use std::fs::{File, Files};
use std::io::Write;
use std::net::{Net, TcpListener, TcpStream};

/// Reads the configuration at the path, and writes what a node would do by it: a line for this device, its name and its state file, one for each
/// folder and one for each peer, with each identity in both of its forms, the keys and the paths of the configuration; then one for each key that is none, and one for each thing that a run would
/// meet at its start.
///
/// Fails where [`run_config`](crate::run_config) would by the configuration or an address that can't be read; then nothing is written. Where it would end
/// at its start by something else, this fails in the same way, after all lines.
pub fn check_config<R, O>(
    rt: &R,
    alloc: Global,
    path: &str,
    output: &mut O,
) -> Result<(), RunFailure>
where
    R: Files<File = File>
        + Net<Listener = TcpListener, Stream = TcpStream>
        + StateFiles
        + UnixSockets,
    O: Write,
{
    let text = read_config_file(rt, alloc, path)?;
    let stop = check_text(rt, alloc, path, text.as_slice(), output)?;
    output.flush()?;
    match stop {
        Some(failure) => Err(failure),
        None => Ok(()),
    }
}

// Checks a configuration with this text, at a path. Returns why a run would end at its start, if it would.
fn check_text<R, O>(
    rt: &R,
    alloc: Global,
    path: &str,
    text: &[u8],
    output: &mut O,
) -> Result<Option<RunFailure>, RunFailure>
where
    R: Files<File = File>
        + Net<Listener = TcpListener, Stream = TcpStream>
        + StateFiles
        + UnixSockets,
    O: Write,
{
    let told = match read_config(alloc, text) {
        Ok(config) => config,
        Err(fault) => return Err(config_failure(alloc, text, fault)),
    };
    let config = placed_config(alloc, path, read_config(alloc, text)?)?;
    check_read(rt, alloc, path, text, &told, &config, output)
}

// The same of what was read: as the text has it, and as a run takes it.
fn check_read<R, O>(
    rt: &R,
    alloc: Global,
    path: &str,
    text: &[u8],
    told: &Config,
    config: &Config,
    output: &mut O,
) -> Result<Option<RunFailure>, RunFailure>
where
    R: Files<File = File>
        + Net<Listener = TcpListener, Stream = TcpStream>
        + StateFiles
        + UnixSockets,
    O: Write,
{
    require_apart(rt, alloc, path, config)?;
    require_addresses(alloc, config)?;
    tell(alloc, told, output)?;
    tell_unknown_keys(alloc, text, output)?;
    tell_outlook(rt, alloc, config, output)
}

// Fails where the address of a peer can't be read.
fn require_addresses(alloc: Global, config: &Config) -> Result<(), RunFailure> {
    for (place, peer) in config.peers.as_slice().iter().enumerate() {
        let _ = peer_address(alloc, place, peer)?;
    }
    Ok(())
}

fn tell<O: Write>(alloc: Global, config: &Config, output: &mut O) -> Result<(), RunFailure> {
    let device = hex::encode(alloc, config.device.bytes())?;
    let shown = device_text(alloc, &config.device)?;
    writeln!(output, "device {device} {shown}")?;
    writeln!(output, "name {:?}", config.name.as_str())?;
    writeln!(output, "state {:?}", config.state.as_str())?;
    if let Some(page) = &config.status {
        writeln!(output, "status {:?}", page.as_str())?;
    }
    for folder in config.folders.as_slice() {
        tell_folder(folder, output)?;
    }
    for peer in config.peers.as_slice() {
        tell_peer(alloc, config, peer, output)?;
    }
    Ok(())
}

fn tell_folder<O: Write>(folder: &FolderConfig, output: &mut O) -> Result<(), RunFailure> {
    let (id, path) = (folder.id.as_str(), folder.path.as_str());
    write!(output, "folder {id:?} path {path:?}")?;
    for number in FolderNumber::ALL {
        let key = number.rule().key;
        let value = folder.number(number);
        match number.word_for(value) {
            Some(word) => write!(output, " {key} {word}")?,
            None => write!(output, " {key} {value}")?,
        }
    }
    if let Some(mode) = folder.mode {
        write!(output, " {} {mode:o}", Key::Mode)?;
    }
    writeln!(output)?;
    Ok(())
}

fn tell_peer<O: Write>(
    alloc: Global,
    config: &Config,
    peer: &PeerConfig,
    output: &mut O,
) -> Result<(), RunFailure> {
    let device = hex::encode(alloc, peer.device.bytes())?;
    let shown = device_text(alloc, &peer.device)?;
    let (word, address) = match &peer.address {
        PeerAddress::Dial(text) => ("dial", text.as_str()),
        PeerAddress::Listen(text) => ("listen", text.as_str()),
    };
    write!(output, "peer {device} {shown} {word} {address} folders")?;
    for place in peer.folders.as_slice() {
        if let Some(folder) = config.folders.as_slice().get(*place) {
            write!(output, " {:?}", folder.id.as_str())?;
        }
    }
    writeln!(output)?;
    Ok(())
}
