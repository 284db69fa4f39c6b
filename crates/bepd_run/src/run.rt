//! A run of `bepd run`, from its configuration to its end.
ghost use Rattle.std.specs.Prelude.{◌≡◌, Err, IfErr, IfOk, IsErr, None, OnErr};
ghost use Rattle.std.specs.Thread.{IsSend};

use crate::asked::{Inlets, listening};
use crate::begun::tell_begun;
use crate::consoles::{Doors, run_ready};
use crate::failure::RunFailure;
use crate::files::{StateFiles, read_config_file};
use crate::last_run::StatePaths;
use crate::lock::lock_state;
use crate::naming::config_failure;
use crate::outlet::{Channel, Outlet};
use crate::page::keep_page;
use crate::paths::require_apart;
use crate::placing::placed_config;
use crate::readiness::{Patience, Turns};
use crate::ready::ReadyRun;
use bep_messages::Text;
use node_config::{Config, UnknownKey, read_config, unknown_keys};
use node_context::{Log, LogStyle, ProgressStyle, write_log};
use node_files::Stores;
use node_threads::UnixSockets;
use std::alloc::Global;
use std::fs::{File, Files};
use std::io::{self, Read, Write};
use std::net::{Net, TcpListener, TcpStream};
use std::os::fd::AsRawFd;
use std::sync::Wait;
use std::thread::{Threads, join};
use std::time::Clock;

/// How a run is begun.
#[derive(Clone, Copy, Debug, PartialEq, Eq)]
pub struct RunStyle {
    /// How it is told what happens; none where it is not.
    pub progress: Option<ProgressStyle>,
    /// Whether it follows commands.
    pub reads_input: bool,
    /// Whether a line is told for each name that is pulled or recorded, however many they are.
    pub is_verbose: bool,
}

/// Keeps the folders of the configuration at the path alike with its peers, and answers commands, a line each, until
/// `quit` or the end of the input: then the connections end, and the state file is written. Commands come from the input, if it reads that, and from who
/// [asks](crate::ask_run) at the socket beside the state; where that can't be made, a line says so. What happens until the end is in the journal beside the state, so
/// that a kill undoes nothing: the next run reads both.
///
/// | Command | Answer |
/// |---|---|
/// | `scan F` | `scan F recorded N unchanged N other N` |
/// | `need F` | `need NAME` for each name that the folder F needs, then `end` |
/// | `skipped F` | `skipped NAME: WHY` for each name that the last whole scan left out, then `end` |
/// | `best F` | `best KIND SIZE VERSION NAME` for each name that is needed or has a local record, then `end` |
/// | `local F` | `local KIND SIZE VERSION NAME` for each local record, then `end` |
/// | `conflicts F` | `conflict NAME` for each conflict copy that is there, then `end` |
/// | `folders` | `folder STATE files N directories N need N F` for each folder, then `end`; STATE is `here`, `away`, `held` or `in-use` |
/// | `peers` | `peer ID up` or `peer ID down` for each peer, then `end` |
/// | `status` | how all is, for a person |
/// | `status json` | the same as one JSON document on a line |
/// | `status page` | the same as a page of HTML |
/// | `history F` | `history F changes N open N` |
/// | `verify F` | `verify F yes` or `verify F no` |
///
/// An answer that nobody takes for 4 seconds, or that can't be written, is lost, and so are the lines after it until one can be written again: `(N lines left out)`
/// is written before that. The same holds of what is told on `errors`, which waits for as long as the run goes on and 4 seconds more, with a mebibyte of lines behind it.
/// Neither ends the run.
///
/// What is stored of folders that the configuration lacks is dropped, and so are the records of devices that a folder isn't shared with.
///
/// Fails by the configuration, the state file and the addresses, in this order, before anything is read from or written to a folder or a
/// connection; where the commands can't be read, after the state file is written; and where memory runs out or the
/// state file can't be written, which then is the one of before, with the journal behind it.
///
/// A device is told as `NAME (FRONT OF ID)` where it has given its name. With a style of progress it tells on `errors` what happens, a line each: the time in UTC, and
///
/// | Line | |
/// |---|---|
/// | `bepd vV runs by FILE`, `listening on ADDRESS for ID`, `folder F: N names recorded, in PATH` | it begins |
/// | `folder 1: rescann is no key, ignored; rescan?` | (without the time) the configuration has a key that is none |
/// | `no [[peer]] is in the configuration: ..` | (without the time) it has no peer |
/// | `folder F: nothing is recorded of it, ..` | (without the time) the state has nothing of a folder that a run had |
/// | `connected ID: NAME, PROGRAM VERSION, from ADDRESS (not verified)` | a connection with the peer is up: this is what it says of itself |
/// | `not shared F: ID ..` | the folder isn't kept alike with the peer that is connected, and what to do |
/// | `not reached ID: ADDRESS: WHY; ..` | no connection with the peer can be made; told again where it is for another reason |
/// | `gone ID: WHY` | the connection ended |
/// | `stranger ADDRESS: ..` | it did so before its ClusterConfig came: it was not taken for the peer |
/// | `not taken for ID: ..` | who is connected has this device's own identity |
/// | `waiting for ID: ..` | nobody has connected as the peer for a minute |
/// | `two devices as ID: ..` | connections as the peer come from two devices in turn |
/// | `index of F up to N from ID` | more of the peer's index of the folder F came; only where names are told |
/// | `recorded F NAME` | a change of the name was recorded; of many in ten seconds, the first ten |
/// | `scanned F recorded N unchanged N other N` | a scan that recorded changes, or left names out |
/// | `scanned F ..: stopped` | a scan ended with the run |
/// | `skipped F NAME: WHY` | a scan left the name out, and did not before |
/// | `skipped F: N more; ..` | it left out more than 100 |
/// | `away F: ..`, `back F` | the folder isn't there, has no marker, or another run has it; it is there again |
/// | `held F: ..` | the folder is there, and of the names that are recorded of it none is: it waits for the command `scan F` |
/// | `got F NAME`, `replaced F NAME`, `deleted F NAME` | the best of the name is in place: where nothing was, in place of what was there, or nothing is |
/// | `same F NAME` | what was there is as its best, and stays |
/// | `pulled F, besides: got N, ..` | how many names more; of many in ten seconds, ten are told by name |
/// | `conflict copy F NAME` | what was there before is kept under this name |
/// | `failed F NAME: WHY` | the name could not be pulled; it is tried again, and told again where it is for another reason |
/// | `history full F: ..` | the node ends, and begins anew |
/// | `older state: ..` | a peer was told more than the state has; the node ends, and begins anew, and tells everything again |
/// | `state not written: ..` | the journal can't be written: nothing is put in place, and peers are told nothing; it is tried again within 30 seconds |
/// | `state written again` | it can be |
/// | `no room F: ..` | the disk is full; it is tried again each minute |
/// | `scanning F N of N: N MB read`, `pulling F N of N: N MB came, N kB a second` | how far a scan of all names, or a pull of many, is |
/// | `the input ended, ..` | there are no more commands, and the run ends |
/// | `no commands by PATH: ..` | the socket beside the state can't be made |
/// | `no page at PATH: ..` | the page of the configuration can't be made; it is tried again |
/// | `ended: the state is written` | the run ended |
pub fn run_config<R, T, I, O, E>(
    rt: &R,
    stores: &T,
    path: &str,
    how: RunStyle,
    input: &mut I,
    output: &mut O,
    errors: &mut E,
) -> Result<(), RunFailure>
where
    R: AllocGlobal
        + Clock
        + Files<File = File>
        + Net<Listener = TcpListener, Stream = TcpStream>
        + StateFiles
        + Sync
        + Threads
        + UnixSockets
        + Wait,
    T: Stores + Sync,
    T::Store: Send,
    I: Read + AsRawFd + Send,
    O: Write + AsRawFd + Send,
    E: Write + AsRawFd + Send,
    ensures quiet { how.progress ≡ None → errors.new ≡ errors.old }
{
    let alloc = rt.alloc();
    let Configured { config, unknown } = config_at(rt, alloc, path)?;
    let paths = StatePaths::new(alloc, config.state.as_str())?;
    let _lock = lock_state(rt, alloc, &paths)?;
    let turns = Turns::new(false);
    let answers = Channel::new(rt, alloc, output.as_raw_fd(), Patience::Short)?;
    let inlets = Inlets::new(alloc)?;
    let mut notes = Vec::new(alloc);
    let ready = ReadyRun::new(rt, alloc, stores, &config, &paths, &mut notes)?;
    let log = match how.progress {
        Some(progress) => {
            let is_verbose = how.is_verbose;
            Log::new(
                alloc,
                LogStyle {
                    progress,
                    is_verbose,
                },
            )
        }
        None => Log::quiet(alloc),
    };
    tell_begun(rt, &log, path, &ready.node);
    let place = RunPlace {
        config: &config,
        stores,
        log: &log,
        reads_input: how.reads_input,
    };
    let outward = Outward {
        turns: &turns,
        channel: answers,
        inlets,
    };
    if how.progress.is_none() {
        return end(answer_ready(rt, alloc, &place, ready, input, outward, output));
    }
    let told = Channel::new(rt, alloc, errors.as_raw_fd(), Patience::UntilTheEnd)?;
    let (ended, ()) = join(
        rt,
        || -> Result<io::Result<()>, RunFailure>
            requires { IsSend I.row × IsSend O.row × IsSend T.Store.row }
        {
            let ended = answer_ready(rt, alloc, &place, ready, input, outward, output);
            *turns.lock(rt) = true;
            log.end(rt);
            ended
        },
        || tell_log(
            rt,
            &log,
            unknown.as_slice(),
            notes.as_slice(),
            &turns,
            told,
            errors,
        ),
    );
    end(ended)
}

/// What a run is told, and where it works.
#[derive(Drop)]
pub(crate) struct RunPlace<'a, T> {
    pub(crate) config: &'a Config,
    pub(crate) stores: &'a T,
    pub(crate) log: &'a Log,
    pub(crate) reads_input: bool,
}

// Where answers go, but for their writer, and where commands come from, but for the input.
#[derive(Drop)]
struct Outward<'a> {
    turns: &'a Turns,
    channel: Channel,
    inlets: Inlets,
}

// Runs nodes until the commands end; answers that can't be written are left out. Returns whether all were taken.
fn answer_ready<'a, R, T, I, O>(
    rt: &R,
    alloc: Global,
    place: &RunPlace<'a, T>,
    ready: ReadyRun<'a, R>,
    input: &mut I,
    outward: Outward<'_>,
    output: &mut O,
) -> Result<io::Result<()>, RunFailure>
where
    R: Clock
        + Net<Listener = TcpListener, Stream = TcpStream>
        + StateFiles
        + Sync
        + Threads
        + UnixSockets
        + Wait,
    T: Stores + Sync,
    T::Store: Send,
    I: Read + AsRawFd + Send,
    O: Write + Send,
{
    let Outward {
        turns,
        channel,
        inlets,
    } = outward;
    let output = Outlet::new(rt, turns, channel, output);
    let socket = listening(rt, alloc, place.config.state.as_str(), place.log)?;
    let doors = Doors {
        socket: &socket,
        inlets,
    };
    let ended = run_with_page(rt, alloc, place, ready, doors, input, output);
    socket.remove(rt);
    ended
}

// Runs nodes until the commands end, and keeps the page meanwhile. Returns whether all were answered.
fn run_with_page<'a, R, T, I, O>(
    rt: &R,
    alloc: Global,
    place: &RunPlace<'a, T>,
    ready: ReadyRun<'a, R>,
    doors: Doors<'_>,
    input: &mut I,
    output: O,
) -> Result<io::Result<()>, RunFailure>
where
    R: Clock
        + Net<Listener = TcpListener, Stream = TcpStream>
        + StateFiles
        + Sync
        + Threads
        + UnixSockets
        + Wait,
    T: Stores + Sync,
    T::Store: Send,
    I: Read + AsRawFd + Send,
    O: Write + Drop + Send,
{
    let (config, log) = (place.config, place.log);
    let (ended, ()) = join(
        rt,
        || -> Result<io::Result<()>, RunFailure>
            requires { IsSend I.row × IsSend O.row × IsSend T.Store.row }
        {
            let ended = run_ready(rt, alloc, place, ready, doors, input, output);
            log.end_pauses(rt);
            ended
        },
        || keep_page(rt, alloc, config, log),
    );
    ended
}

// Writes which keys of the configuration are none, the notes, and then what is told; what can't be written is left out.
fn tell_log<R: Wait, E: Write>(
    rt: &R,
    log: &Log,
    unknown: &[UnknownKey],
    notes: &[Text],
    turns: &Turns,
    channel: Channel,
    errors: &mut E,
) {
    let mut errors = Outlet::new(rt, turns, channel, errors);
    for key in unknown {
        let _ = writeln!(errors, "{key}");
    }
    for note in notes {
        let note = note.as_str();
        let _ = writeln!(errors, "{note}");
    }
    write_log(rt, log, &mut errors);
}

// A configuration, and the keys of its document that are none.
#[derive(Drop)]
struct Configured {
    config: Config,
    unknown: Vec<UnknownKey>,
}

fn config_at<R: Files>(rt: &R, alloc: Global, path: &str) -> Result<Configured, RunFailure> {
    let text = read_config_file(rt, alloc, path)?;
    let config = match read_config(alloc, text.as_slice()) {
        Ok(config) => placed_config(alloc, path, config)?,
        Err(fault) => return Err(config_failure(alloc, text.as_slice(), fault)),
    };
    require_apart(rt, alloc, path, &config)?;
    let unknown = unknown_keys(alloc, text.as_slice())?;
    Ok(Configured { config, unknown })
}

// The run ended well where all was answered.
fn end(ended: Result<io::Result<()>, RunFailure>) -> Result<(), RunFailure>
    ensures failed { IfErr ended (λ failure. result ≡ Err failure) }
    ensures not_answered { IfOk ended (λ answered. OnErr answered (IsErr result)) }
{
    let answered = ended?;
    Ok(answered?)
}
