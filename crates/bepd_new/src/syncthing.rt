//! A configuration for a device with Syncthing as the peer.
use crate::failure::{NewFailure, file_failure};
use crate::fresh::{place_of, write_new};
use crate::numbers::numbers_text;
use crate::purpose::{Link, Way};
use crate::recipe::{TomlString, socket_name, stunnel_text, unit_text};
use bep_messages::Text;
use device_certificate::{CertificateFault, certificate_identity};
use device_text::device_text;
use std::alloc::Global;
use std::fs::{self, File, Files};
use std::io::{Read, Write};
use sync_record::DeviceId;

/// The most bytes of a certificate's file; what follows them isn't read.
const MAX_CERTIFICATE_BYTES: u64 = 1_048_576;

/// How many bytes the path of a Unix socket may have.
const MAX_SOCKET_PATH: usize = 107;

/// The files that are written.
const CONFIG: &str = "config.toml";

const STUNNEL: &str = "stunnel.conf";

const UNIT: &str = "bepd-stunnel.service";

/// The comments of the keys that a link doesn't say.
const MODE: &str = "\
# The permissions of its new files, three octal digits. Where it is left out, the system's.
#mode = \"640\"
";

/// Writes the configuration by which this device keeps a folder alike with one with Syncthing, that of stunnel, and a unit that runs it, to the directory that has
/// both certificates. Writes what was made, and what is to be set at Syncthing, to the output. Nothing is written where one of the files is there already.
pub(crate) fn link_syncthing<R: Files, O: Write>(
    rt: &R,
    alloc: Global,
    directory: &str,
    link: &Link,
    output: &mut O,
) -> Result<(), NewFailure> {
    let place = place_of(rt, alloc, directory)?;
    let place = place.as_str();
    let socket = socket_in(alloc, place, link)?;
    let me = device_in(rt, alloc, place, "cert.pem")?;
    let peer = device_in(rt, alloc, place, "peer.pem")?;
    if me == peer {
        return Err(refused(
            alloc,
            "cert.pem and peer.pem are of one device: peer.pem is to have Syncthing's certificate",
        ));
    }
    let key = format!(in alloc; "{place}/key.pem")?;
    if let Err(error) = fs::metadata(rt, key.as_str()) {
        return Err(file_failure(alloc, "key", key.as_str(), error));
    }
    let folder = folder_path(rt, alloc, link.path)?;
    for name in [CONFIG, STUNNEL, UNIT] {
        let path = format!(in alloc; "{place}/{name}")?;
        if fs::symlink_metadata(rt, path.as_str()).is_ok() {
            return Err(NewFailure::Exists(Text::from_str(alloc, name)?));
        }
    }
    let made = Made {
        place,
        socket: socket.as_str(),
        folder: folder.as_str(),
        me: device_text(alloc, &me)?,
        peer: device_text(alloc, &peer)?,
    };
    let config = config_text(alloc, link, &made)?;
    let stunnel = stunnel_text(alloc, place, &link.way)?;
    let unit = unit_text(alloc, place, &link.way)?;
    for (name, text) in [
        (CONFIG, config.as_str()),
        (STUNNEL, stunnel.as_str()),
        (UNIT, unit.as_str()),
    ] {
        let path = format!(in alloc; "{place}/{name}")?;
        write_new(rt, alloc, path.as_str(), name, text)?;
    }
    tell(alloc, me, peer, link, &made, output)
}

// What is written into the files.
#[derive(Drop)]
struct Made<'a> {
    // The directory.
    place: &'a str,
    // The path of the socket between bepd and stunnel.
    socket: &'a str,
    // That of the folder.
    folder: &'a str,
    // Both identities, as Syncthing shows them.
    me: String,
    peer: String,
}

// The words or a certificate are refused.
fn refused(alloc: Global, why: &str) -> NewFailure {
    match Text::from_str(alloc, why) {
        Ok(why) => NewFailure::Refused(why),
        Err(_) => NewFailure::OutOfMemory,
    }
}

// The path of the socket between bepd and stunnel.
fn socket_in(alloc: Global, place: &str, link: &Link) -> Result<String, NewFailure> {
    if place.chars().any(|char| char.is_control()) {
        return Err(refused(alloc, "the path of the directory has a control character"));
    }
    let socket = format!(in alloc; "{place}/{}", socket_name(&link.way))?;
    if socket.len() > MAX_SOCKET_PATH {
        let why = format!(in alloc;
            "the path of a socket has 107 bytes at most, and {socket} has {}: choose a shorter directory",
            socket.len()
        )?;
        return Err(NewFailure::Refused(Text::from_string(why)));
    }
    Ok(socket)
}

// The device of the certificate in a file of the directory.
fn device_in<R: Files>(
    rt: &R,
    alloc: Global,
    place: &str,
    name: &str,
) -> Result<DeviceId, NewFailure> {
    let path = format!(in alloc; "{place}/{name}")?;
    let mut bytes = Vec::new(alloc);
    let read = match File::open(rt, path.as_str()) {
        Ok(file) => file.take(MAX_CERTIFICATE_BYTES).read_to_end(&mut bytes),
        Err(error) => Err(error),
    };
    if let Err(error) = read {
        return Err(file_failure(alloc, "certificate", path.as_str(), error));
    }
    match certificate_identity(alloc, bytes.as_slice()) {
        Ok(identity) => Ok(DeviceId::new(identity)),
        Err(CertificateFault::OutOfMemory) => Err(NewFailure::OutOfMemory),
        Err(fault) => {
            let why = format!(in alloc; "{path} {fault}")?;
            Err(NewFailure::Refused(Text::from_string(why)))
        }
    }
}

// The path of the folder from the root on. One that is not there is taken as it is, where it is absolute.
fn folder_path<R: Files>(rt: &R, alloc: Global, path: &str) -> Result<String, NewFailure> {
    match rt.canonicalize(alloc, path) {
        Ok(found) => Ok(found.into_string()),
        Err(_) if path.starts_with('/') => Ok(String::from_str(alloc, path)?),
        Err(error) => Err(file_failure(alloc, "folder", path, error)),
    }
}

// The configuration of bepd.
fn config_text(alloc: Global, link: &Link, made: &Made) -> Result<String, NewFailure> {
    let numbers = numbers_text(alloc)?;
    let state = format!(in alloc; "{}/state", made.place)?;
    let address = format!(in alloc; "unix:{}", made.socket)?;
    let (id, path) = (TomlString(link.id), TomlString(made.folder));
    let (state, address) = (TomlString(state.as_str()), TomlString(address.as_str()));
    let key = match link.way {
        Way::Dial(_) => "dial",
        Way::Listen(_) => "listen",
    };
    Ok(format!(in alloc;
        "# The identity of this device: that of cert.pem.\ndevice = \"{}\"\n\
        # The name that peers see.\nname = \"bepd\"\n\
        # Where what was recorded is kept between two runs.\nstate = {state}\n\n\
        # A folder that is kept alike with peers. Its id is the Folder ID at Syncthing.\n[[folder]]\nid = {id}\npath = {path}\n{numbers}{MODE}\n\
        # The device with Syncthing, by way of stunnel: its identity is that of peer.pem.\n[[peer]]\ndevice = \"{}\"\nfolders = [{id}]\n{key} = {address}\n",
        made.me.as_str(),
        made.peer.as_str()
    )?)
}

// Writes what was made, and what is to be done now.
fn tell<O: Write>(
    alloc: Global,
    me: DeviceId,
    peer: DeviceId,
    link: &Link,
    made: &Made,
    output: &mut O,
) -> Result<(), NewFailure> {
    let Made { place, .. } = made;
    let (hex, id) = (hex::encode(alloc, me.bytes())?, made.me.as_str());
    writeln!(output, "device {hex} {id}")?;
    let peers = hex::encode(alloc, peer.bytes())?;
    writeln!(output, "peer {peers} {}", made.peer.as_str())?;
    writeln!(output, "configuration {place}/{CONFIG}")?;
    writeln!(output, "stunnel {place}/{STUNNEL}")?;
    writeln!(output, "unit {place}/{UNIT}")?;
    writeln!(output)?;
    writeln!(output, "At Syncthing, Add Remote Device:")?;
    writeln!(output, "  General, Device ID: {id}")?;
    writeln!(
        output,
        "  Sharing: the folder whose Folder ID is {}",
        link.id
    )?;
    writeln!(output, "  Advanced, Compression: Off")?;
    if let Way::Listen(reach) = link.way {
        writeln!(
            output,
            "  Advanced, Addresses: tcp://{reach}, with the address of this machine in place of 0.0.0.0"
        )?;
    }
    writeln!(
        output,
        "Then here, both for as long as the folder is to be kept alike:"
    )?;
    writeln!(output, "  stunnel4 {place}/{STUNNEL}")?;
    writeln!(output, "  bepd run --config {place}/{CONFIG}")?;
    output.flush()?;
    Ok(())
}
