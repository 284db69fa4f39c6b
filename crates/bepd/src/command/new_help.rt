//! The help of `bepd new`.

pub(super) const NEW_ABOUT: &str = "Write a first configuration, with an identity of its own";

pub(super) const NEW_DIRECTORY: &str =
    "The directory of the configuration, made if it is not there";

pub(super) const NEW_SYNCTHING: &str =
    "For a device with Syncthing; DIRECTORY has cert.pem, key.pem and peer.pem";

pub(super) const NEW_DIAL: &str = "Where Syncthing is, if this device makes the connection";

pub(super) const NEW_LISTEN: &str = "Where Syncthing is to connect, if it makes the connection";

pub(super) const NEW_FOLDER: &str = "The folder: its Folder ID at Syncthing, and its path here";

pub(super) const NEW_LONG_ABOUT: &str = "\
Write a first configuration to the file config.toml in a directory.

It has an identity of its own, which no other device has, and what has to be filled in
is commented: the folders and the peers. Output: the identity, which the peers are told,
in hexadecimal digits and as Syncthing shows one, and the path of the file:

    device HEX ID
    configuration PATH

`bepd help run` says what each key is. Such an identity is of no use with a real
Syncthing, which knows a device by its certificate. For one the directory has the
certificates, cert.pem of this device (its key is key.pem) and peer.pem of Syncthing's,
and

    bepd new DIRECTORY --syncthing --dial HOST:PORT --folder ID=PATH

(or --listen ADDRESS:PORT, where Syncthing is to connect) writes the whole
configuration, that of stunnel (stunnel.conf), which makes the line safe, and a unit
that runs it (bepd-stunnel.service), and says what to set at Syncthing. The path of the
folder is absolute, or is there.";

pub(super) const NEW_STATUSES: &str = "\
Exit status; from 1 on a line on standard error says why:
  0  the configuration is written
  1  the command line was refused, or a certificate
  4  `fault 33 OutOfMemory`: memory ran out
  5  `fault FILE is there already`, which stays as it is; or `fault read or write`: the
     directory can't be made, or a file not be read or written";
