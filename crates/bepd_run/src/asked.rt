//! Commands that a run takes: from its standard input, and from the Unix socket beside its state file.
use crate::failure::RunFailure;
use crate::files::StateFiles;
use crossbeam_channel::{Receiver, Sender, bounded};
use node_commands::{InputLine, read_commands};
use node_context::{Event, Log};
use node_socket::{
    Answerers, Asked, RunEnd, RunInput, is_short, listen, pass_on, socket_path, take_asked,
};
use node_threads::{Listener, UnixSockets};
use std::alloc::{AllocError, Global};
use std::io::{self, BufReader, ErrorKind, Read};
use std::net::{Net, TcpListener, TcpStream};
use std::os::fd::AsRawFd;
use std::sync::Wait;
use std::thread::{Threads, join};
use std::time::Clock;

/// How many commands from elsewhere wait for who answers them.
const MAX_WAITING: usize = 64;

/// The ways of the commands to those who answer them: of those of the input, of those that ask for a scan from elsewhere, and of all others from there. None holds up
/// another one.
#[derive(Drop)]
pub(crate) struct Inlets {
    pub(crate) ways: Ways,
    pub(crate) input: Receiver<Asked>,
    pub(crate) scans: Receiver<Asked>,
    pub(crate) others: Receiver<Asked>,
}

impl Inlets {
    /// Empty ones. Fails only if out of memory.
    pub(crate) fn new(alloc: Global) -> Result<Inlets, AllocError> {
        let (to_input, input) = bounded::<Asked, Global>(alloc, 1)?;
        let (to_scans, scans) = bounded::<Asked, Global>(alloc, MAX_WAITING)?;
        let (to_others, others) = bounded::<Asked, Global>(alloc, MAX_WAITING)?;
        let ways = Ways {
            all: [to_input, to_scans, to_others],
        };
        Ok(Inlets {
            ways,
            input,
            scans,
            others,
        })
    }
}

/// To whom commands go.
#[derive(Drop)]
pub(crate) struct Ways {
    // Who answers the input, who scans, and who answers all other commands from elsewhere.
    pub(crate) all: [Sender<Asked>; 3],
}

impl Ways {
    fn input(&self) -> &Sender<Asked> {
        &self.all[0]
    }

    fn elsewhere(&self) -> Answerers<'_> {
        Answerers {
            scans: &self.all[1],
            others: &self.all[2],
        }
    }
}

/// The socket beside a state, where it could be made, and whether the run ends, which shuts it down.
#[derive(Drop)]
pub(crate) struct Socket {
    path: String,
    listener: Option<Listener>,
    pub(crate) run: RunEnd,
}

impl Socket {
    // None could be made at the path.
    fn none(path: String) -> Socket {
        Socket {
            path,
            listener: None,
            run: RunEnd::new(None),
        }
    }

    /// Removes it.
    pub(crate) fn remove<R: StateFiles + Wait>(&self, rt: &R) {
        if self.run.has_socket(rt) {
            rt.remove(self.path.as_str());
        }
    }

    // Makes it again, or tells why it can't be made.
    fn again<R>(&self, rt: &R, alloc: Global, log: &Log) -> Option<Listener>
    where
        R: Clock + Net<Listener = TcpListener, Stream = TcpStream> + UnixSockets + Wait,
    {
        let path = self.path.as_str();
        let made = if is_short(path) {
            open(rt, alloc, path)
        } else {
            Err(io::Error::from(ErrorKind::InvalidInput))
        };
        match made {
            Ok((listener, handle)) => {
                self.run.take_at(rt, Some(handle));
                Some(listener)
            }
            Err(error) => {
                self.run.take_at(rt, None);
                if let Ok(why) = format!(in alloc; "{error}") {
                    log.tell(rt, &Event::NoSocket(path, why.as_str()));
                }
                None
            }
        }
    }
}

/// Makes the socket beside the state at the path, or tells why it can't be made. Fails only if out of memory.
pub(crate) fn listening<R>(
    rt: &R,
    alloc: Global,
    state: &str,
    log: &Log,
) -> Result<Socket, RunFailure>
where
    R: Clock + Net<Listener = TcpListener, Stream = TcpStream> + UnixSockets + Wait,
{
    let path = socket_path(alloc, state)?;
    if !is_short(path.as_str()) {
        log.tell(rt, &Event::NoSocket(path.as_str(), LONG_PATH));
        return Ok(Socket::none(path));
    }
    match open(rt, alloc, path.as_str()) {
        Ok((listener, handle)) => Ok(Socket {
            path,
            listener: Some(listener),
            run: RunEnd::new(Some(handle)),
        }),
        Err(error) if error.kind() == ErrorKind::OutOfMemory => Err(RunFailure::OutOfMemory),
        Err(error) => {
            let why = format!(in alloc; "{error}")?;
            log.tell(rt, &Event::NoSocket(path.as_str(), why.as_str()));
            Ok(Socket::none(path))
        }
    }
}

/// Why no socket can be made at a path.
pub(crate) const LONG_PATH: &str = "a socket's path has 107 bytes at most";

// Listens at the path. Returns the socket's handle too.
fn open<R>(rt: &R, alloc: Global, path: &str) -> io::Result<(Listener, TcpStream)>
where
    R: Net<Listener = TcpListener, Stream = TcpStream> + UnixSockets,
{
    let listener = listen(rt, alloc, path)?;
    let handle = listener.handle()?;
    Ok((listener, handle))
}

/// How many bytes of an input are read at once: what follows its last command is left to whoever reads it next.
const AHEAD: usize = 1;

/// An input, up to the end of the run, and whether it is read.
#[derive(Drop)]
pub(crate) struct Reading<'r, 'e, 'i, R, I> {
    input: BufReader<RunInput<'r, 'e, 'i, R, I>>,
    is_read: bool,
    to: Sender<InputLine>,
    lines: Receiver<InputLine>,
}

/// This input, which is read or not. Fails where memory or descriptors run out.
pub(crate) fn read_of<'r, 'e, 'i, R: Net + Wait, I: Read + AsRawFd>(
    rt: &'r R,
    alloc: Global,
    run: &'e RunEnd,
    input: &'i mut I,
    is_read: bool,
) -> Result<Reading<'r, 'e, 'i, R, I>, RunFailure> {
    let (to, lines) = bounded::<InputLine, Global>(alloc, 1)?;
    let input = BufReader::with_capacity(alloc, AHEAD, RunInput::new(rt, alloc, run, input)?)?;
    Ok(Reading {
        input,
        is_read,
        to,
        lines,
    })
}

/// Takes commands from the socket and from the input, where there are these, until the run ends.
pub(crate) fn take_all<R, I>(
    rt: &R,
    alloc: Global,
    socket: &Socket,
    log: &Log,
    ways: &Ways,
    input: Reading<'_, '_, '_, R, I>,
)
where
    R: Clock
        + Net<Listener = TcpListener, Stream = TcpStream>
        + Sync
        + Threads
        + UnixSockets
        + Wait,
    I: Read + Send,
{
    let ((), ()) = join(
        rt,
        || take_elsewhere(rt, alloc, socket, log, ways),
        || read(rt, alloc, input, ways.input()),
    );
}

// Takes commands from the socket, which is made again where it is gone, until the run ends.
fn take_elsewhere<R>(rt: &R, alloc: Global, socket: &Socket, log: &Log, ways: &Ways)
where
    R: Clock + Net<Listener = TcpListener, Stream = TcpStream> + UnixSockets + Wait,
{
    take_at(rt, alloc, socket.listener.as_ref(), &socket.run, ways);
    for _ in rt.forever() {
        if socket.run.is_over(rt) {
            return;
        }
        let again = socket.again(rt, alloc, log);
        take_at(rt, alloc, again.as_ref(), &socket.run, ways);
    }
}

// Takes commands from a listener, if there is one, until the run ends or another one is to be made.
fn take_at<R: Clock + Wait>(
    rt: &R,
    alloc: Global,
    listener: Option<&Listener>,
    run: &RunEnd,
    ways: &Ways,
) {
    match listener {
        Some(listener) => take_asked(rt, alloc, listener, run, ways.elsewhere()),
        // (a run without commands goes on)
        None => run.wait(rt),
    }
}

// Reads the commands of an input that is read.
fn read<R, I>(rt: &R, alloc: Global, reading: Reading<'_, '_, '_, R, I>, answerer: &Sender<Asked>)
where
    R: Sync + Threads + Wait,
    I: Read + Send,
{
    let Reading {
        mut input,
        is_read,
        to,
        lines,
    } = reading;
    if !is_read {
        return;
    }
    let ((), ()) = join(
        rt,
        || read_commands(rt, alloc, &mut input, to),
        || pass_on(rt, lines, answerer),
    );
}
