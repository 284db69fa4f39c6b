//! What is answered to commands.
ghost use Rattle.std.specs.Prelude.{◌≡◌, ◌↔◌, IfErr, IfOk, IsTrue, MatchResult, position};
ghost use Rattle.std.specs.IoError.{error_kind};
ghost use Rattle.node_commands.specs.Folders.{IsFolderOf, IsOfNoFolder, has_id, place_of};
ghost use Rattle.node_commands.specs.Read.{AreReadTo, AreReadUntil, FailsAt, IsEnd, IsLast};
ghost use Rattle.node_commands.specs.Refused.{IsCut, Refuses};

use crate::command::Command;
use crate::command_lines::CommandLines;
use crate::lines::{InputLine, is_last};
use crate::listing::{Listed, list, list_needed};
use crate::refusal::{Refusal, tell};
use crate::status::{standing_of, status_of};
use file_store::{FileStore, Gate};
use folder_calls::FolderCalls;
use node_context::{Context, Event, Host, NodeFault, Standing};
use node_files::{Marked, Whereabouts};
use node_folder::{FolderWorker, look_at_folder, release, scan_folder};
use node_status::{Status, json_of, push_page, push_screen};
use std::alloc::Global;
use std::io::{self, Write};
use std::sync::Wait;
use std::time::Duration;
use sync_record::DeviceId;
use sync_scan::ScanSum;

/// The histories of folders.
pub trait Histories {
    /// Whether the history of the folder at a place leads to what it is.
    fn verify(&self, place: usize) -> Result<bool, NodeFault>;
}

/// Who answers the commands.
#[derive(Drop)]
pub struct Answerer<'x, 'h, 'p, V, S, W> {
    /// The folders.
    pub folders: Vec<FolderWorker<'x, S, W>>,
    /// Their histories.
    pub histories: &'h V,
    /// The name of this device.
    pub name: &'p str,
    /// The identities of the peers.
    pub peers: &'p [DeviceId],
}

/// How the commands ended.
#[derive(Clone, Copy, Debug, PartialEq, Eq)]
pub enum CommandsEnd {
    /// They were read up to `quit`, or to their end.
    Read,
    /// The node stopped before.
    Stopped,
}

/// Answers each line of the commands, up to `quit` or their end, or until the node stops, which is looked at before each line, and each second.
/// Fails where a line can't be read, or an answer can't be written.
pub fn answer_commands<R, V, L, S, W, G, O>(
    cx: &Context<R, G>,
    answerer: &mut Answerer<V, S, W>,
    lines: &mut L,
    output: &mut O,
) -> io::Result<CommandsEnd>
where
    R: Host,
    V: Histories,
    L: CommandLines,
    S: FileStore + Marked,
    W: FolderCalls,
    G: Gate,
    O: Write,
    ensures read { IfOk result (λ end. AreReadTo L.gives lines.old end lines.new) }
    ensures failed { IfErr result (λ error. AreReadUntil L.gives lines.old (error_kind error) lines.new) }
{
    for _ in cx.rt.forever() {
        if cx.is_stopping() {
            return Ok(CommandsEnd::Stopped);
        }
        let Some(line) = lines.next_within(cx.rt, Duration::from_secs(1)) else {
            continue;
        };
        if is_last(&line) {
            tell_end(cx, &line);
            return end_at(&line);
        }
        tell(answer_line(cx, answerer, &line, output), output)?;
        output.flush()?;
    }
    unreachable!()
}

// Tells where there are no more commands, though nobody typed `quit`.
fn tell_end<R: Host, G>(cx: &Context<R, G>, line: &InputLine) {
    if let InputLine::End = line {
        cx.tell(&Event::InputEnded);
    }
}

// How the commands end at their last line.
fn end_at(line: &InputLine) -> io::Result<CommandsEnd>
    requires { IsLast line.now }
    ensures ended { IfOk result (λ end. (end ≡ CommandsEnd.Read) × IsEnd line.now) }
    ensures failed { IfErr result (λ error. FailsAt line.now (error_kind error)) }
{
    match line {
        InputLine::Line(_) => Ok(CommandsEnd::Read),
        // (it is no last line)
        InputLine::NoMemory => Ok(CommandsEnd::Read),
        InputLine::End => Ok(CommandsEnd::Read),
        InputLine::Over => Ok(CommandsEnd::Read),
        InputLine::Failed(kind) => Err(io::Error::from(*kind)),
    }
}

// Writes what is answered to a line.
fn answer_line<R, V, S, W, G, O>(
    cx: &Context<R, G>,
    answerer: &mut Answerer<V, S, W>,
    line: &InputLine,
    output: &mut O,
) -> Result<(), Refusal>
where
    R: Host,
    V: Histories,
    S: FileStore + Marked,
    W: FolderCalls,
    G: Gate,
    O: Write,
    ensures { Refuses answerer.old.folders.items line.now result }
{
    match line {
        InputLine::Line(text) => match Command::parse(text.as_str()) {
            Some(command) => answer(cx, answerer, command, output),
            None => Err(Refusal::UnknownCommand),
        },
        InputLine::NoMemory => Err(Refusal::OutOfMemory),
        InputLine::End | InputLine::Over | InputLine::Failed(_) => Ok(()),
    }
}

// Writes what is answered to a command.
fn answer<R, V, S, W, G, O>(
    cx: &Context<R, G>,
    answerer: &mut Answerer<V, S, W>,
    command: Command,
    output: &mut O,
) -> Result<(), Refusal>
where
    R: Host,
    V: Histories,
    S: FileStore + Marked,
    W: FolderCalls,
    G: Gate,
    O: Write,
    ensures { IsOfNoFolder answerer.old.folders.items command.entry → result ≡ Err Refusal.UnknownFolder }
{
    let Answerer {
        folders,
        histories,
        name,
        peers,
    } = answerer;
    let folders = folders.as_mut_slice();
    match command {
        Command::Scan(id) => scan(cx, folder_in(folders, id)?, output),
        Command::Need(id) => list_needed(cx.alloc, &mut folder_in(folders, id)?.calls, output),
        Command::Skipped(id) => list_skipped(cx, folder_in(folders, id)?, output),
        Command::Best(id) => {
            list(
                cx.alloc,
                &mut folder_in(folders, id)?.calls,
                Listed::Bests,
                output,
            )
        }
        Command::Local(id) => {
            list(
                cx.alloc,
                &mut folder_in(folders, id)?.calls,
                Listed::Locals,
                output,
            )
        }
        Command::Conflicts(id) => {
            list(
                cx.alloc,
                &mut folder_in(folders, id)?.calls,
                Listed::Conflicts,
                output,
            )
        }
        Command::Folders => list_folders(cx, folders, output),
        Command::Peers => list_peers(cx, peers, output),
        Command::Status => tell_status(&status_of(cx, name, folders, peers)?, cx.alloc, output),
        Command::StatusJson => tell_json(&status_of(cx, name, folders, peers)?, cx.alloc, output),
        Command::StatusPage => tell_page(&status_of(cx, name, folders, peers)?, cx.alloc, output),
        Command::History(id) => tell_history(folder_in(folders, id)?, output),
        Command::Verify(id) => {
            let place = place_in(folders, id)?;
            let word = if histories.verify(place)? {
                "yes"
            } else {
                "no"
            };
            writeln!(output, "verify {id} {word}")?;
            Ok(())
        }
        Command::Quit => Ok(()),
    }
}

// The first folder of this id.
fn folder_in<'a, 'b, S, W>(
    folders: &'a mut [FolderWorker<'b, S, W>],
    id: &str,
) -> Result<&'a mut FolderWorker<'b, S, W>, Refusal>
    ensures { MatchResult result (λ worker. IsFolderOf id.now folders.old worker.now) (λ refusal. place_of id.now folders.old ≡ Err refusal) }
{
    let place = place_in(folders, id)?;
    Ok(&mut folders[place])
}

// Where it stands among the folders.
fn place_in<S, W>(folders: &[FolderWorker<S, W>], id: &str) -> Result<usize, Refusal>
    ensures { result ≡ place_of id.now folders.now }
{
    match position_of(folders, id) {
        Some(place) => Ok(place),
        None => Err(Refusal::UnknownFolder),
    }
}

// The same, if there is one.
fn position_of<S, W>(folders: &[FolderWorker<S, W>], id: &str) -> Option<usize>
    ensures { result ≡ position (has_id id.now) folders.now }
{
    folders
        .iter()
        .position(|worker| worker.folder.settings.id.as_str() == id)
}

fn scan<R: Host, S: FileStore + Marked, W: FolderCalls, G: Gate, O: Write>(
    cx: &Context<R, G>,
    worker: &mut FolderWorker<S, W>,
    output: &mut O,
) -> Result<(), Refusal> {
    // (that none of its names is there is what who asks for it says)
    if !matches!(
        look_at_folder(cx, worker),
        Whereabouts::There | Whereabouts::Held
    ) {
        return Err(Refusal::FolderMissing);
    }
    let sum = scan_folder(cx, worker, false).sum;
    if is_cut(&sum) && cx.is_quitting() {
        return Err(Refusal::Ended);
    }
    if let Some(stop) = sum.stopped {
        return Err(Refusal::Scan(stop));
    }
    release(cx, worker.folder);
    writeln!(
        output,
        "scan {} recorded {} unchanged {} other {}",
        worker.folder.id(),
        sum.recorded,
        sum.unchanged,
        sum.other
    )?;
    Ok(())
}

// Whether a scan stopped before its end, or left a name out. (Once the run ends, each name that is read is left out.)
fn is_cut(sum: &ScanSum) -> bool
    ensures { IsTrue result ↔ IsCut sum.now }
{
    sum.stopped.is_some() || sum.other > 0
}

// What the last scan left out.
fn list_skipped<R: Host, S, W, G, O: Write>(
    cx: &Context<R, G>,
    worker: &FolderWorker<S, W>,
    output: &mut O,
) -> Result<(), Refusal> {
    let lines = worker.folder.skips.lines(cx.rt)?;
    output.write_all(lines.as_slice())?;
    output.write_all(b"end\n")?;
    Ok(())
}

// Where each folder is, and how much is recorded of it.
fn list_folders<R: Host, S: FileStore + Marked, W: FolderCalls, G, O: Write>(
    cx: &Context<R, G>,
    folders: &mut [FolderWorker<S, W>],
    output: &mut O,
) -> Result<(), Refusal> {
    for worker in folders.iter_mut() {
        let state = match standing_of(cx, worker) {
            Some(Standing::There) => "here",
            Some(Standing::InUse) => "in-use",
            Some(Standing::Away) => "away",
            Some(Standing::Held) => "held",
            None => return Err(Refusal::OutOfMemory),
        };
        let counts = worker.calls.counts().value;
        writeln!(
            output,
            "folder {state} files {} directories {} need {} {}",
            counts.files,
            counts.directories,
            counts.needed,
            worker.folder.id()
        )?;
    }
    output.write_all(b"end\n")?;
    Ok(())
}

fn list_peers<R: Host, G, O: Write>(
    cx: &Context<R, G>,
    peers: &[DeviceId],
    output: &mut O,
) -> Result<(), Refusal> {
    for (place, peer) in peers.iter().enumerate() {
        let id = hex::encode(cx.alloc, peer.bytes())?;
        let state = if cx.connections.is_up(cx.rt, place) {
            "up"
        } else {
            "down"
        };
        writeln!(output, "peer {id} {state}")?;
    }
    output.write_all(b"end\n")?;
    Ok(())
}

// Writes how all is, for a person.
fn tell_status<O: Write>(status: &Status, alloc: Global, output: &mut O) -> Result<(), Refusal> {
    let mut screen = String::new(alloc);
    push_screen(&mut screen, status)?;
    output.write_all(screen.as_bytes())?;
    Ok(())
}

// The same as JSON, on one line.
fn tell_json<O: Write>(status: &Status, alloc: Global, output: &mut O) -> Result<(), Refusal> {
    let json = json_of(alloc, status)?;
    writeln!(output, "{json}")?;
    Ok(())
}

// The same as a page for a browser.
fn tell_page<O: Write>(status: &Status, alloc: Global, output: &mut O) -> Result<(), Refusal> {
    let mut page = String::new(alloc);
    push_page(&mut page, status)?;
    output.write_all(page.as_bytes())?;
    Ok(())
}

fn tell_history<S, W: FolderCalls, O: Write>(
    worker: &mut FolderWorker<S, W>,
    output: &mut O,
) -> Result<(), Refusal> {
    let counts = worker.calls.counts();
    writeln!(
        output,
        "history {} changes {} open {}",
        worker.folder.id(),
        counts.at,
        counts.value.pulls
    )?;
    Ok(())
}
