//! A first configuration.
use crate::failure::{NewFailure, file_failure};
use crate::numbers::numbers_text;
use crate::purpose::{NewWords, Purpose, purpose_of};
use crate::syncthing::link_syncthing;
use bep_messages::Text;
use device_text::device_text;
use std::alloc::Global;
use std::fs::{self, File, Files, OpenOptions};
use std::io::{ErrorKind, Read, Write};
use sync_record::DeviceId;

/// What a first configuration has after its identity, up to the numbers of a folder.
const FOLDER: &str = "\
# The name that peers see.
name = \"device\"
# Where what was recorded is kept between two runs.
state = STATE
# A page for a browser that says how all is. Where it is left out, there is none.
#status = \"/home/me/bepd.html\"

# A folder that is kept alike with peers; as many as you like. Its id is the same on all devices.
#[[folder]]
#id = \"docs\"
#path = \"/home/me/docs\"
";

/// What it has after these.
const PEER: &str = "\
# The permissions of its new files, three octal digits. Where it is left out, the system's.
#mode = \"640\"

# A peer; as many as you like. One of the two devices has `listen`, an address of its own, and the other one `dial`, that address.
#[[peer]]
#device = \"THE IDENTITY OF THE PEER\"
#folders = [\"docs\"]
#listen = \"192.0.2.1:22000\"
";

/// Writes a first configuration to the file `config.toml` in a directory, and the identity of the device and the path of the file to the output.
///
/// As a template it has an identity of its own, from the system's source of random numbers, and what is to be filled in is commented; the directory, and those
/// above it, are made where they are not there. For a device with Syncthing the directory has the certificates of both devices, `cert.pem` and `peer.pem`, and
/// this one's key, `key.pem`: the configuration is whole then, beside it are written the configuration of stunnel and a unit that runs it, and the output says
/// what is to be set at Syncthing.
///
/// Fails where the words or a certificate are refused, and where one of the files that are to be written is there already; then nothing is written.
pub fn new_config<R: Files, O: Write>(
    rt: &R,
    alloc: Global,
    words: &NewWords,
    output: &mut O,
) -> Result<(), NewFailure> {
    match purpose_of(words) {
        Ok(Purpose::Template) => new_template(rt, alloc, words.directory, output),
        Ok(Purpose::Syncthing(link)) => {
            link_syncthing(rt, alloc, words.directory, &link, output)
        }
        Err(fault) => Err(NewFailure::Refused(Text::from_string(format!(in alloc; "{fault}")?))),
    }
}

// Writes a template.
fn new_template<R: Files, O: Write>(
    rt: &R,
    alloc: Global,
    directory: &str,
    output: &mut O,
) -> Result<(), NewFailure> {
    let device = fresh_identity(rt)?;
    make_above(rt, directory);
    if let Err(error) = fs::create_dir(rt, directory) {
        if error.kind() != ErrorKind::AlreadyExists {
            return Err(file_failure(alloc, "directory", directory, error));
        }
    }
    let place = place_of(rt, alloc, directory)?;
    let state = format!(in alloc; "{place}/state")?;
    let state = format!(in alloc; "{state:?}")?;
    let folder = FOLDER.replace(alloc, "STATE", state.as_str())?;
    let numbers = numbers_text(alloc)?;
    let hex = hex::encode(alloc, device.bytes())?;
    let text = format!(in alloc;
        "# The identity of this device. Tell it to its peers.\ndevice = \"{hex}\"\n{folder}{numbers}{PEER}"
    )?;
    let path = format!(in alloc; "{directory}/config.toml")?;
    write_new(rt, alloc, path.as_str(), "config.toml", text.as_str())?;
    let id = device_text(alloc, &device)?;
    writeln!(output, "device {hex} {id}\nconfiguration {path}")?;
    output.flush()?;
    Ok(())
}

/// The canonical path of a directory that is there. (A relative path would be read from the directory of the configuration.)
pub(crate) fn place_of<R: Files>(
    rt: &R,
    alloc: Global,
    directory: &str,
) -> Result<String, NewFailure> {
    match rt.canonicalize(alloc, directory) {
        Ok(place) => Ok(place.into_string()),
        Err(error) => Err(file_failure(alloc, "directory", directory, error)),
    }
}

/// Writes a file that is not there yet.
pub(crate) fn write_new<R: Files>(
    rt: &R,
    alloc: Global,
    path: &str,
    name: &str,
    text: &str,
) -> Result<(), NewFailure> {
    let mut options = OpenOptions::new();
    options.write(true).create_new(true);
    match options.open(rt, path) {
        Ok(mut file) => Ok(file.write_all(text.as_bytes())?),
        Err(error) if error.kind() == ErrorKind::AlreadyExists => {
            Err(NewFailure::Exists(Text::from_str(alloc, name)?))
        }
        Err(error) => Err(file_failure(alloc, "configuration", path, error)),
    }
}

// Makes the directories above a path, where they are not there. What can't be made shows when the path is used.
fn make_above<R: Files>(rt: &R, path: &str) {
    for (place, char) in path.char_indices() {
        if char == '/' && place > 0 {
            if let Some(above) = path.get(..place) {
                let _ = fs::create_dir(rt, above);
            }
        }
    }
}

// An identity that no other device has, from the system's source of random numbers.
fn fresh_identity<R: Files>(rt: &R) -> Result<DeviceId, NewFailure> {
    let mut bytes = [0u8; 32];
    File::open(rt, "/dev/urandom")?.read_exact(&mut bytes)?;
    Ok(DeviceId::new(bytes))
}
