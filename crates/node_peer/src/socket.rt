//! Sockets that take connections, and how one is made: of TCP, or Unix sockets, which are files.
use node_context::Endpoint;
use std::fs::{self, File, Files, Permissions};
use std::io::{self, ErrorKind};
use std::net::{Net, TcpListener, TcpStream};
use std::os::fd::OwnedFd;
use std::os::unix::fs::{FileTypeExt, PermissionsExt};
use std::os::unix::net::{UnixListener, UnixStream};
use std::time::Duration;

/// The permissions of a Unix socket: it is this user's alone. (Those of its directory go before them.)
const SOCKET_MODE: u32 = 0o600;

/// What makes Unix sockets. Each handle that has [`Files`] and [`Net`] does; a node, which is to have no files but its folders', takes it by this trait.
pub trait UnixSockets {
    /// Listens at the path, in place of a socket there at which nobody listens any more. It is a file from then on, which stays.
    fn listen_at(&self, path: &str) -> io::Result<UnixListener>;
}

impl<R: Files<File = File> + Net<Listener = TcpListener, Stream = TcpStream>> UnixSockets for R {
    fn listen_at(&self, path: &str) -> io::Result<UnixListener> {
        if is_left(self, path) {
            let _ = fs::remove_file(self, path);
        }
        let listener = UnixListener::bind(self, path)?;
        fs::set_permissions(self, path, Permissions::from_mode(SOCKET_MODE))?;
        Ok(listener)
    }
}

// Whether a socket is at the path at which nobody listens, as a run leaves it that was killed.
fn is_left<R: Files + Net>(rt: &R, path: &str) -> bool {
    let Ok(found) = fs::symlink_metadata(rt, path) else {
        return false;
    };
    let refused = match UnixStream::connect(rt, path) {
        Ok(_) => false,
        Err(error) => error.kind() == ErrorKind::ConnectionRefused,
    };
    refused && found.file_type().is_socket()
}

/// A socket that takes connections.
#[derive(Drop)]
pub enum Listener {
    /// Of TCP.
    Tcp(TcpListener),
    /// A Unix socket.
    Unix(UnixListener),
}

impl Listener {
    /// Listens there.
    pub fn new<R>(rt: &R, endpoint: &Endpoint) -> io::Result<Listener>
    where
        R: Net<Listener = TcpListener, Stream = TcpStream> + UnixSockets,
    {
        match endpoint {
            Endpoint::Ip(address) => Ok(Listener::Tcp(TcpListener::bind(rt, *address)?)),
            Endpoint::Unix(path) => Ok(Listener::Unix(rt.listen_at(path.as_str())?)),
        }
    }

    /// The next connection.
    pub fn accept(&self) -> io::Result<TcpStream> {
        match self {
            Listener::Tcp(listener) => {
                let (stream, _) = listener.accept()?;
                Ok(stream)
            }
            Listener::Unix(listener) => {
                let (stream, _) = listener.accept()?;
                Ok(stream_of(stream))
            }
        }
    }

    /// Whether a wait for a connection fails with `WouldBlock` in place of waiting.
    pub fn set_nonblocking(&self, is_nonblocking: bool) -> io::Result<()> {
        match self {
            Listener::Tcp(listener) => listener.set_nonblocking(is_nonblocking),
            Listener::Unix(listener) => listener.set_nonblocking(is_nonblocking),
        }
    }

    /// The socket itself once more, by which it is shut down: a wait for a connection ends then.
    pub fn handle(&self) -> io::Result<TcpStream> {
        let socket = match self {
            Listener::Tcp(listener) => OwnedFd::from(listener.try_clone()?),
            Listener::Unix(listener) => OwnedFd::from(listener.try_clone()?),
        };
        Ok(TcpStream::from(socket))
    }
}

/// Makes a connection. One of TCP fails with `TimedOut` where that takes longer than the limit; at a Unix socket there is nothing to wait for.
pub(crate) fn connect<R>(rt: &R, endpoint: &Endpoint, limit: Duration) -> io::Result<TcpStream>
where
    R: Net<Listener = TcpListener, Stream = TcpStream>,
{
    match endpoint {
        Endpoint::Ip(address) => TcpStream::connect_timeout(rt, address, limit),
        Endpoint::Unix(path) => Ok(stream_of(UnixStream::connect(rt, path.as_str())?)),
    }
}

// A Unix socket as a stream: what is done with it here is what the system does with any socket. (It has no IP address, and `set_nodelay` fails.)
fn stream_of(stream: UnixStream) -> TcpStream {
    TcpStream::from(OwnedFd::from(stream))
}
