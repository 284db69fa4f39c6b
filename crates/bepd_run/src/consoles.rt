//! The consoles of a run: that of its input, and two for what is asked from elsewhere, one of which scans.
ghost use Rattle.std.specs.Thread.{IsSend};

use crate::asked::{Inlets, Reading, Socket, Ways, read_of, take_all};
use crate::failure::RunFailure;
use crate::files::StateFiles;
use crate::nodes::{NextNode, Outside, run_nodes};
use crate::ready::ReadyRun;
use crate::run::RunPlace;
use crossbeam_channel::Receiver;
use node_commands::CommandLines;
use node_config::Config;
use node_context::Event;
use node_files::Stores;
use node_socket::{Asked, AskedLines, Asker, Replies};
use node_threads::{Console, UnixSockets};
use std::alloc::{AllocError, Global};
use std::io::{self, Read, Write};
use std::net::{Net, TcpListener, TcpStream};
use std::os::fd::AsRawFd;
use std::sync::Wait;
use std::thread::{Threads, join};
use std::time::Clock;

/// Where commands come from, but for the input.
#[derive(Drop)]
pub(crate) struct Doors<'d> {
    pub(crate) socket: &'d Socket,
    pub(crate) inlets: Inlets,
}

/// Runs nodes until the commands end. Returns whether all were answered.
pub(crate) fn run_ready<'a, R, T, I, O>(
    rt: &R,
    alloc: Global,
    place: &RunPlace<'a, T>,
    ready: ReadyRun<'a, R>,
    doors: Doors<'_>,
    input: &mut I,
    output: O,
) -> Result<io::Result<()>, RunFailure>
where
    R: Clock
        + Net<Listener = TcpListener, Stream = TcpStream>
        + StateFiles
        + Sync
        + Threads
        + UnixSockets
        + Wait,
    T: Stores + Sync,
    T::Store: Send,
    I: Read + AsRawFd + Send,
    O: Write + Drop + Send,
{
    let reading = read_of(rt, alloc, &doors.socket.run, input, place.reads_input)?;
    run_by(rt, alloc, place, ready, doors, reading, output)
}

// Runs nodes until these commands end. Returns whether all were answered.
fn run_by<'a, R, T, I, O>(
    rt: &R,
    alloc: Global,
    place: &RunPlace<'a, T>,
    ready: ReadyRun<'a, R>,
    doors: Doors<'_>,
    input: Reading<'_, '_, '_, R, I>,
    output: O,
) -> Result<io::Result<()>, RunFailure>
where
    R: Clock
        + Net<Listener = TcpListener, Stream = TcpStream>
        + StateFiles
        + Sync
        + Threads
        + UnixSockets
        + Wait,
    T: Stores + Sync,
    T::Store: Send,
    I: Read + Send,
    O: Write + Drop + Send,
{
    let ReadyRun {
        node,
        journal,
        plans,
    } = ready;
    let outside = Outside {
        stores: place.stores,
        log: place.log,
        journal,
        plans,
        was_behind: false,
    };
    let Doors { socket, inlets } = doors;
    let Inlets {
        ways,
        input: typed,
        scans,
        others,
    } = inlets;
    let desk = Desk {
        ways,
        nobody: Asker::none(),
        scanner: Asker::none(),
        asker: Asker::none(),
    };
    let given = Given {
        typed,
        scans,
        others,
    };
    let consoles = consoles_of(rt, alloc, &desk, given, output)?;
    run_with(
        rt,
        alloc,
        place,
        Begun { node, outside },
        (socket, &desk),
        input,
        consoles,
    )
}

// What the consoles of a run share.
#[derive(Drop)]
struct Desk {
    ways: Ways,
    // Nobody asked for what the input says.
    nobody: Asker,
    // Who asked for the scan that is made.
    scanner: Asker,
    // Who asked for what else is answered.
    asker: Asker,
}

// The lines that each console is given.
#[derive(Drop)]
struct Given {
    typed: Receiver<Asked>,
    scans: Receiver<Asked>,
    others: Receiver<Asked>,
}

// A console of a run.
type RunConsole<'r, 'd, R, O> = Console<AskedLines<'d>, Replies<'r, 'd, R, O>>;

// The consoles of a run. Fails only if out of memory.
fn consoles_of<'r, 'd, R, O: Drop>(
    rt: &'r R,
    alloc: Global,
    desk: &'d Desk,
    given: Given,
    output: O,
) -> Result<Vec<RunConsole<'r, 'd, R, O>>, AllocError> {
    let all = &desk.ways.all;
    let mut consoles = Vec::with_capacity(alloc, 3)?;
    consoles.push(Console {
        lines: AskedLines::new(given.typed, &desk.nobody, all),
        output: Replies::new(rt, &desk.nobody, Some(output)),
    })?;
    consoles.push(Console {
        lines: AskedLines::new(given.scans, &desk.scanner, all),
        output: Replies::new(rt, &desk.scanner, None),
    })?;
    consoles.push(Console {
        lines: AskedLines::new(given.others, &desk.asker, all),
        output: Replies::new(rt, &desk.asker, None),
    })?;
    Ok(consoles)
}

// What runs.
#[derive(Drop)]
struct Begun<'a, T, R> {
    node: NextNode,
    outside: Outside<'a, T, R>,
}

// Takes commands, and runs nodes until they end. Returns whether all were answered.
fn run_with<'a, R, T, I, L, O>(
    rt: &R,
    alloc: Global,
    place: &RunPlace<'a, T>,
    begun: Begun<'a, T, R>,
    doors: (&Socket, &Desk),
    input: Reading<'_, '_, '_, R, I>,
    consoles: Vec<Console<L, O>>,
) -> Result<io::Result<()>, RunFailure>
where
    R: Clock
        + Net<Listener = TcpListener, Stream = TcpStream>
        + StateFiles
        + Sync
        + Threads
        + UnixSockets
        + Wait,
    T: Stores + Sync,
    T::Store: Send,
    I: Read + Send,
    L: CommandLines + Drop + Send,
    O: Write + Drop + Send,
{
    let (socket, desk) = doors;
    let Begun { node, outside } = begun;
    let (config, log) = (place.config, place.log);
    let ((), ended) = join(
        rt,
        || take_all(rt, alloc, socket, log, &desk.ways, input),
        || -> Result<io::Result<()>, RunFailure>
            requires { IsSend T.Store.row }
        {
            let ended = answer_all(rt, alloc, config, node, outside, doors, consoles);
            socket.run.end(rt);
            ended
        },
    );
    ended
}

// Runs nodes until the commands of these consoles end. Nobody waits to give them lines then, since they are gone. Returns whether all were answered.
fn answer_all<R, T, L, O>(
    rt: &R,
    alloc: Global,
    config: &Config,
    node: NextNode,
    outside: Outside<'_, T, R>,
    doors: (&Socket, &Desk),
    consoles: Vec<Console<L, O>>,
) -> Result<io::Result<()>, RunFailure>
where
    R: Clock
        + Net<Listener = TcpListener, Stream = TcpStream>
        + StateFiles
        + Sync
        + Threads
        + UnixSockets
        + Wait,
    T: Stores + Sync,
    T::Store: Send,
    L: CommandLines + Drop + Send,
    O: Write + Drop + Send,
{
    let (socket, desk) = doors;
    let log = outside.log;
    let mut consoles = consoles;
    let all = consoles.as_mut_slice();
    let ended = run_nodes(rt, alloc, config, node, outside, &socket.run, all);
    if ended.is_ok() {
        log.tell(rt, &Event::Ended);
    }
    // (who asked for the end is told that it is there)
    if matches!(&ended, Ok(Ok(()))) {
        desk.asker.finish(rt);
    }
    ended
}
