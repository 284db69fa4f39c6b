//! Taking commands from elsewhere.
ghost use Rattle.std.specs.Prelude.{◌↔◌, IsTrue};
ghost use Rattle.node_socket.specs.Answers.{IsScan};

use crate::answer::END_LINE;
use crate::lines::Asked;
use crate::run_end::RunEnd;
use bep_messages::Text;
use crossbeam_channel::{Sender, TrySendError};
use node_commands::InputLine;
use node_context::Endpoint;
use node_peer::{Listener, UnixSockets};
use std::alloc::Global;
use std::io::{self, BufRead, BufReader, Read, Write};
use std::net::{Net, TcpListener, TcpStream};
use std::sync::Wait;
use std::thread;
use std::time::{Clock, Duration};

/// The most bytes of a line of commands, with its line feed.
const MAX_LINE_BYTES: u64 = 65_537;

/// How many seconds who asks may keep a run waiting, for each read of the question and each write of the answer.
const PATIENCE: u64 = 4;

/// How many seconds are waited where no connection can be taken, as where no more files can be opened.
const PAUSE: u64 = 1;

/// Takes commands at a socket at the path, in place of one that an earlier run left. It is a file that this user alone may use.
pub fn listen<R>(rt: &R, alloc: Global, path: &str) -> io::Result<Listener>
where
    R: Net<Listener = TcpListener, Stream = TcpStream> + UnixSockets,
{
    let endpoint = Endpoint::Unix(Text::from_str(alloc, path)?);
    Listener::new(rt, &endpoint)
}

/// Who answers commands from elsewhere.
#[derive(Clone, Copy)]
pub struct Answerers<'a> {
    /// Who scans for who asks, which may take long.
    pub scans: &'a Sender<Asked>,
    /// Who answers all other commands.
    pub others: &'a Sender<Asked>,
}

/// Takes the command of each connection, one after the other, for whoever answers it, until the run ends or the socket is to be made again. It waits for nobody who answers: where too many
/// commands wait, one more is refused.
pub fn take_asked<R: Clock + Wait>(
    rt: &R,
    alloc: Global,
    listener: &Listener,
    run: &RunEnd,
    answerers: Answerers,
) {
    for _ in rt.forever() {
        let accepted = listener.accept();
        if !run.goes_on(rt) {
            return;
        }
        match accepted {
            Ok(stream) => take(rt, alloc, stream, answerers),
            Err(_) => thread::sleep(rt, Duration::from_secs(PAUSE)),
        }
    }
}

// Takes the command of a connection, if one comes.
fn take<R: Wait>(rt: &R, alloc: Global, stream: TcpStream, answerers: Answerers) {
    let Ok(Some(line)) = question_of(alloc, &stream) else {
        return;
    };
    let answerer = if is_scan(line.as_str()) {
        answerers.scans
    } else {
        answerers.others
    };
    let asked = Asked {
        line: InputLine::Line(line),
        from: Some(stream),
    };
    if let Err(
        TrySendError::Full(
            Asked {
                from: Some(mut stream),
                ..
            },
        ),
    ) = answerer.try_send(rt, asked)
    {
        let _ = stream.write_all(BUSY.as_bytes());
        let _ = stream.write_all(END_LINE.as_bytes());
    }
}

// Whether the line asks for a scan, which may take long.
fn is_scan(line: &str) -> bool
    ensures { IsTrue result ↔ IsScan line.now }
{
    match line.strip_prefix("scan ") {
        Some(_) => true,
        None => false,
    }
}

// What is answered where too many commands wait.
const BUSY: &str = "error busy: too many commands wait for their answers\n";

// The line that comes over a connection; none where the connection ends, or is silent, before its line feed.
fn question_of(alloc: Global, stream: &TcpStream) -> io::Result<Option<String>> {
    let patience = Some(Duration::from_secs(PATIENCE));
    stream.set_read_timeout(patience)?;
    stream.set_write_timeout(patience)?;
    let mut line = Vec::new(alloc);
    let mut reader = BufReader::new(alloc, stream.take(MAX_LINE_BYTES))?;
    reader.read_until(b'\n', &mut line)?;
    let Some(text) = line.as_slice().strip_suffix(b"\n") else {
        return Ok(None);
    };
    // (what is no text is no command)
    Ok(Some(String::from_str(alloc, str::from_utf8(text).unwrap_or(""))?))
}
