//! The texts that a device with Syncthing as the peer takes.
use crate::purpose::Way;
use std::alloc::{AllocError, Global};
use std::fmt::{self, Display, Formatter};
use toml_writer::write_string;

/// The socket at which stunnel takes the connections of bepd, in the directory of the configuration.
const STUNNEL_SOCKET: &str = "stunnel.socket";

/// The socket at which bepd takes those of stunnel.
const BEPD_SOCKET: &str = "bepd.socket";

/// The file of the socket between both, in the directory.
pub(crate) fn socket_name(way: &Way) -> &'static str {
    match way {
        Way::Dial(_) => STUNNEL_SOCKET,
        Way::Listen(_) => BEPD_SOCKET,
    }
}

/// A string of a TOML document.
#[derive(Clone, Copy)]
pub(crate) struct TomlString<'a>(pub(crate) &'a str);

impl Display for TomlString<'_> {
    fn fmt<W: fmt::Write>(&self, f: &mut Formatter<W>) -> fmt::Result {
        write_string(f, self.0)
    }
}

/// The configuration of stunnel, in this directory: TLS with certificates at both ends, each of which the other one knows.
pub(crate) fn stunnel_text(alloc: Global, place: &str, way: &Way) -> Result<String, AllocError> {
    let socket = socket_name(way);
    let ends = match way {
        Way::Dial(reach) => format!(in alloc;
            "client = yes\naccept = {place}/{socket}\nconnect = {reach}\n"
        )?,
        Way::Listen(reach) => format!(in alloc; "accept = {reach}\nconnect = {place}/{socket}\n")?,
    };
    format!(in alloc;
        "; TLS between bepd and Syncthing, by bepd new. Run it beside bepd: stunnel4 {place}/stunnel.conf\n\
        foreground = yes\nsyslog = no\npid =\n\n[syncthing]\n{ends}\
        cert = {place}/cert.pem\nkey = {place}/key.pem\n\
        ; who has another certificate is not let through\nCAfile = {place}/peer.pem\nverifyPeer = yes\nsslVersionMin = TLSv1.3\n"
    )
}

/// A unit of systemd, for a user, that runs stunnel by the configuration in this directory. A socket of its own that stunnel left, as where it was killed, is removed
/// before: stunnel does not begin over one.
pub(crate) fn unit_text(alloc: Global, place: &str, way: &Way) -> Result<String, AllocError> {
    let path = UnitPath(place);
    let before = match way {
        Way::Dial(_) => format!(in alloc; "ExecStartPre=/bin/rm -f \"{path}/{STUNNEL_SOCKET}\"\n")?,
        Way::Listen(_) => String::new(alloc),
    };
    format!(in alloc;
        "[Unit]\nDescription=TLS between bepd and Syncthing\n\n[Service]\nUMask=0077\n{before}\
        ExecStart=/usr/bin/stunnel4 \"{path}/stunnel.conf\"\nRestart=on-failure\nRestartSec=10\n\n\
        [Install]\nWantedBy=default.target\n"
    )
}

// A path in a quoted word of a unit.
#[derive(Clone, Copy)]
struct UnitPath<'a>(&'a str);

impl Display for UnitPath<'_> {
    fn fmt<W: fmt::Write>(&self, f: &mut Formatter<W>) -> fmt::Result {
        for char in self.0.chars() {
            match char {
                '"' | '\\' => write!(f, "\\{char}")?,
                '%' => f.write_str("%%")?,
                '$' => f.write_str("$$")?,
                char => write!(f, "{char}")?,
            }
        }
        Ok(())
    }
}
