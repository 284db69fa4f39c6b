//! Where a socket is.
use bep_messages::Text;
use std::alloc::{AllocError, Global};
use std::fmt::{self, Display, Formatter};
use std::net::SocketAddr;

/// Where a socket is. Displayed, it is as the configuration has it.
#[derive(Debug, Drop)]
pub enum Endpoint {
    /// At an IP address and a port.
    Ip(SocketAddr),
    /// At this path: a Unix socket.
    Unix(Text),
}

impl Endpoint {
    /// A copy. Returns `Err` only if out of memory. O(n) for a path of n bytes.
    pub fn copy(&self, alloc: Global) -> Result<Endpoint, AllocError> {
        match self {
            Endpoint::Ip(address) => Ok(Endpoint::Ip(*address)),
            Endpoint::Unix(path) => Ok(Endpoint::Unix(Text::from_str(alloc, path.as_str())?)),
        }
    }
}

impl Display for Endpoint {
    fn fmt<W: fmt::Write>(&self, f: &mut Formatter<W>) -> fmt::Result {
        match self {
            Endpoint::Ip(address) => write!(f, "{address}"),
            Endpoint::Unix(path) => write!(f, "unix:{}", path.as_str()),
        }
    }
}
