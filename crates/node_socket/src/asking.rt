//! Asking a run.
ghost use Rattle.std.specs.Prelude.{◌≡◌, ◌≤◌, ◌↔◌, ◌++◌, IfOk, IsTrue, codes, length};
ghost use Rattle.std.specs.String.{string_bytes};
ghost use Rattle.node_socket.specs.Answers.{question};

use std::alloc::{AllocError, Global};
use std::io::{self, ErrorKind, Read, Write};
use std::net::{Net, TcpListener, TcpStream};
use std::os::unix::net::UnixStream;
use std::time::Duration;

/// How many seconds nothing may come of an answer.
const PATIENCE: u64 = 10;

/// The most bytes of a socket's path (`sun_path` of Linux has one more, which is 0).
const MAX_PATH_BYTES: usize = 107;

/// Why a run was not asked, or did not answer.
#[derive(Clone, Copy, Debug)]
pub enum AskFault {
    /// No run takes commands there.
    NoRun,
    /// No socket can have the path.
    LongPath,
    /// The socket can't be used, for this reason of the system.
    Socket(io::Error),
    /// Nothing came of the answer for 10 seconds.
    Silent,
    /// The run ended before its answer was whole, or the answer is no text.
    Cut,
    /// Memory ran out.
    OutOfMemory,
}

impl From<AllocError> for AskFault {
    fn from(_failed: AllocError) -> AskFault {
        AskFault::OutOfMemory
    }
}

/// The path of the socket at which the run that has the state at this path takes commands. Returns `Err` only if out of memory.
pub fn socket_path(alloc: Global, state: &str) -> Result<String, AllocError>
    ensures { IfOk result (λ path. string_bytes path ≡ state.now ++ codes ".socket") }
{
    format!(in alloc; "{state}.socket")
}

/// Whether a socket can have the path: it has 107 bytes at most.
pub fn is_short(path: &str) -> bool
    ensures { IsTrue result ↔ (length path.now ≤ 107) }
{
    path.len() <= MAX_PATH_BYTES
}

/// The line, with its line feed, by which a command is asked for: its word, and the id of a folder if it is about one. Returns `Err` only if out of memory.
pub fn question(alloc: Global, word: &str, folder: Option<&str>) -> Result<String, AllocError>
    ensures { IfOk result (λ line. string_bytes line ≡ question word.now folder.entry) }
{
    match folder {
        Some(folder) => format!(in alloc; "{word} {folder}\n"),
        None => format!(in alloc; "{word}\n"),
    }
}

/// Sends the question to the run that takes commands at the path, and returns what it sends back, up to the end of the connection.
pub fn ask<R: Net<Listener = TcpListener, Stream = TcpStream>>(
    rt: &R,
    alloc: Global,
    path: &str,
    question: &str,
) -> Result<String, AskFault> {
    if !is_short(path) {
        return Err(AskFault::LongPath);
    }
    let mut stream = match UnixStream::connect(rt, path) {
        Ok(stream) => stream,
        Err(error) => return Err(not_connected(error)),
    };
    let patience = Some(Duration::from_secs(PATIENCE));
    stream.set_read_timeout(patience).map_err(AskFault::Socket)?;
    stream
        .set_write_timeout(patience)
        .map_err(AskFault::Socket)?;
    stream.write_all(question.as_bytes()).map_err(not_read)?;
    let mut answer = String::new(alloc);
    stream.read_to_string(&mut answer).map_err(not_read)?;
    Ok(answer)
}

// Nobody is at the socket, or it can't be reached.
fn not_connected(error: io::Error) -> AskFault {
    match error.kind() {
        ErrorKind::NotFound | ErrorKind::ConnectionRefused => AskFault::NoRun,
        _ => AskFault::Socket(error),
    }
}

// The question was not taken, or no whole answer came.
fn not_read(error: io::Error) -> AskFault {
    match error.kind() {
        ErrorKind::OutOfMemory => AskFault::OutOfMemory,
        ErrorKind::WouldBlock | ErrorKind::TimedOut => AskFault::Silent,
        _ => AskFault::Cut,
    }
}
