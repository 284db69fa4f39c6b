//! `bepd ask` and `bepd status`: a command sent to a running node by its Unix socket, and the answer that is written.
use crate::failure::RunFailure;
use crate::files::read_config_file;
use crate::lock::is_locked;
use crate::naming::{ask_failure, config_failure, no_socket, output_failure};
use crate::placing::placed_config;
use bep_messages::Text;
use node_config::{Config, read_config};
use node_socket::{Answer, AskFault, ask, question, socket_path};
use std::alloc::{AllocError, Global};
use std::fs::{File, Files};
use std::io::{self, Write};
use std::net::{Net, TcpListener, TcpStream};
use std::sync::Wait;
use std::thread;
use std::time::{Clock, Duration};

/// A command for a run.
#[derive(Clone, Copy, Debug)]
pub struct AskWords<'a> {
    /// The configuration of the run.
    pub config: &'a str,
    /// The word of the command.
    pub command: &'a str,
    /// The folder that it is about.
    pub folder: Option<&'a str>,
    /// Whether it is asked again each second, until it fails.
    pub is_watched: bool,
}

/// Has the run by the configuration do a command, and writes its answer once that is whole; if it is watched, again each second, in place of the answer before.
///
/// Fails where the command has more than one line; by the configuration; with `NoAnswer` where no run is there, where nothing comes for 10 seconds, and where the
/// run ends before its answer is whole; and with `NotDone`, or `NotDoneWith` what would help, where the answer is an error.
pub fn ask_run<R, O>(
    rt: &R,
    alloc: Global,
    words: &AskWords,
    output: &mut O,
) -> Result<(), RunFailure>
where
    R: Clock + Files<File = File> + Net<Listener = TcpListener, Stream = TcpStream> + Wait,
    O: Write,
{
    require_a_line(alloc, words)?;
    let config = config_at(rt, alloc, words.config)?;
    if !words.is_watched {
        return ask_by(rt, alloc, words, &config, b"", output);
    }
    // (a document follows the one before)
    let before: &[u8] = if words.folder.is_none() {
        CLEAR_SCREEN
    } else {
        b""
    };
    for _ in rt.forever() {
        ask_by(rt, alloc, words, &config, before, output)?;
        thread::sleep(rt, Duration::from_secs(1));
    }
    unreachable!()
}

/// Goes to the beginning of a terminal's screen, and clears it (ECMA-48, 8.3.21 and 8.3.39).
const CLEAR_SCREEN: &[u8] = b"\x1b[H\x1b[2J";

// Fails where the words are more than one line.
fn require_a_line(alloc: Global, words: &AskWords) -> Result<(), RunFailure> {
    let folder = words.folder.unwrap_or("");
    if words.command.contains('\n') || folder.contains('\n') {
        let about = Text::from_str(alloc, "a command is one line")?;
        return Err(RunFailure::Refused(about));
    }
    Ok(())
}

// Has the run by this configuration do a command. These bytes are written before the answer.
fn ask_by<R, O>(
    rt: &R,
    alloc: Global,
    words: &AskWords,
    config: &Config,
    before: &[u8],
    output: &mut O,
) -> Result<(), RunFailure>
where
    R: Files<File = File> + Net<Listener = TcpListener, Stream = TcpStream>,
    O: Write,
{
    let path = socket_path(alloc, config.state.as_str())?;
    let read = read_answer(rt, alloc, words, config, path.as_str())?;
    let Some(answer) = Answer::of(read.as_str()) else {
        return Err(ask_failure(alloc, path.as_str(), words.config, AskFault::Cut));
    };
    write_answer(alloc, before, &answer, output)?;
    if is_error(words, &answer) {
        return Err(not_done(alloc, &answer, config));
    }
    Ok(())
}

// Whether an answer says that the command was not done. (That to `status` has names at the beginnings of lines.)
fn is_error(words: &AskWords, answer: &Answer) -> bool {
    if words.command == "status" {
        return answer.text.starts_with("error ");
    }
    answer.is_error()
}

// What the run at the socket sends back.
fn read_answer<R: Files<File = File> + Net<Listener = TcpListener, Stream = TcpStream>>(
    rt: &R,
    alloc: Global,
    words: &AskWords,
    config: &Config,
    path: &str,
) -> Result<String, RunFailure> {
    let question = question(alloc, words.command, words.folder)?;
    match ask(rt, alloc, path, question.as_str()) {
        Ok(read) => Ok(read),
        Err(AskFault::NoRun) if is_locked(rt, alloc, config.state.as_str())? => {
            Err(no_socket(alloc, path))
        }
        Err(fault) => Err(ask_failure(alloc, path, words.config, fault)),
    }
}

// Writes an answer.
fn write_answer<O: Write>(
    alloc: Global,
    before: &[u8],
    answer: &Answer,
    output: &mut O,
) -> Result<(), RunFailure> {
    match put(before, answer, output) {
        Ok(()) => Ok(()),
        Err(error) => Err(output_failure(alloc, error)),
    }
}

fn put<O: Write>(before: &[u8], answer: &Answer, output: &mut O) -> io::Result<()> {
    output.write_all(before)?;
    output.write_all(answer.text.as_bytes())?;
    output.flush()
}

// The answer is an error. What would help is said of a command and of a folder that aren't known.
fn not_done(alloc: Global, answer: &Answer, config: &Config) -> RunFailure {
    let about = match answer.text {
        "error unknown command\n" => about_folders(alloc, COMMANDS, config),
        "error unknown folder\n" => about_folders(alloc, FOLDERS, config),
        "error 46 FolderMissing\n" => String::from_str(alloc, MISSING),
        _ => return RunFailure::NotDone,
    };
    match about {
        Ok(about) => RunFailure::NotDoneWith(Text::from_string(about)),
        Err(_) => RunFailure::OutOfMemory,
    }
}

// What would help who asked for what is no command.
const COMMANDS: &str =
    "`bepd help run` lists the commands; folders, peers, status and quit stand alone, each other one before a folder:";

// What would help who asked for a folder that isn't there.
const FOLDERS: &str = "the folders of the configuration:";

// What would help who asked for a scan of a folder that isn't there.
const MISSING: &str =
    "the folder isn't there, has no .stfolder, or another run has it: `bepd ask folders` and the run's log say which";

// These words, and then the ids of the configuration's folders.
fn about_folders(alloc: Global, words: &str, config: &Config) -> Result<String, AllocError> {
    let mut about = String::from_str(alloc, words)?;
    for folder in config.folders.as_slice() {
        about.push(' ')?;
        about.push_str(folder.id.as_str())?;
    }
    Ok(about)
}

// The configuration at a path.
fn config_at<R: Files>(rt: &R, alloc: Global, config: &str) -> Result<Config, RunFailure> {
    let text = read_config_file(rt, alloc, config)?;
    match read_config(alloc, text.as_slice()) {
        Ok(read) => Ok(placed_config(alloc, config, read)?),
        Err(fault) => Err(config_failure(alloc, text.as_slice(), fault)),
    }
}
