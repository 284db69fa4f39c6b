//! The threads of a node that answer commands: one for each console.
ghost use Rattle.std.specs.Prelude.{IfOk};
ghost use Rattle.node_commands.specs.Read.{AreReadTo};

use crate::callers::{Lender, SharedHistories, each_caller};
use crate::workers::{FolderFiles, Node, answered_of, devices_of};
use file_store::Gate;
use folder_calls::FolderCalls;
use folder_core::FolderCore;
use folder_shared::{Member, SharedFolder};
use node_commands::{Answerer, CommandLines, CommandsEnd, Histories, answer_commands};
use node_context::{Context, Host, NodeFault};
use std::alloc::Global;
use std::io::{self, ErrorKind, Write};
use std::thread::for_each_mut;

/// Where lines of commands come from, and where what is answered to them goes.
#[derive(Drop)]
pub struct Console<L, O> {
    /// The lines.
    pub lines: L,
    /// The answers.
    pub output: O,
}

/// A console, and how its commands ended.
#[derive(Drop)]
pub(crate) struct Answering<'c, L, O> {
    console: &'c mut Console<L, O>,
    end: io::Result<CommandsEnd>,
}

/// The consoles, of which none was answered yet. Fails only if out of memory.
pub(crate) fn answering_of<'c, L, O>(
    alloc: Global,
    consoles: &'c mut [Console<L, O>],
) -> Result<Vec<Answering<'c, L, O>>, NodeFault> {
    let mut all = Vec::with_capacity(alloc, consoles.len())?;
    let each = consoles.iter_mut();
    for console in each {
        let end = Ok(CommandsEnd::Stopped);
        if all.push(Answering { console, end }).is_err() {
            return Err(NodeFault::OutOfMemory);
        }
    }
    Ok(all)
}

/// Answers the consoles, each on a thread of its own, until the node stops. The run ends once the commands of one of them do.
pub(crate) fn answer_all<'x, R, G, F, C, L, O>(
    cx: &Context<'x, R, G>,
    files: &F,
    shared: &'x [SharedFolder<C>],
    node: Node<'x>,
    all: &mut [Answering<'_, L, O>],
)
where
    R: Host,
    G: Gate + Sync,
    F: FolderFiles + Sync,
    F::Store: Send,
    C: FolderCore + Drop + Send + Sync,
    L: CommandLines + Send,
    O: Write + Send,
{
    let threads = all.len().max(1);
    for_each_mut(
        cx.rt,
        all,
        threads,
        &|_, one| answer(cx, files, shared, node, one),
    );
}

/// How the commands ended: by the first error, if there is one; else read, if those of a console were read to their end.
pub(crate) fn end_of<L, O>(all: &[Answering<'_, L, O>]) -> io::Result<CommandsEnd> {
    let mut end = CommandsEnd::Stopped;
    for one in all {
        match &one.end {
            Ok(CommandsEnd::Read) => end = CommandsEnd::Read,
            Ok(CommandsEnd::Stopped) => {}
            Err(error) => return Err(*error),
        }
    }
    Ok(end)
}

// Answers a console.
fn answer<'x, R, G, F, C, L, O>(
    cx: &Context<'x, R, G>,
    files: &F,
    shared: &'x [SharedFolder<C>],
    node: Node<'x>,
    one: &mut Answering<'_, L, O>,
)
where
    R: Host,
    G: Gate,
    F: FolderFiles,
    C: FolderCore + Drop,
    L: CommandLines,
    O: Write,
    ensures { IfOk one.new.end (λ end. AreReadTo L.gives one.old.console.now.lines end one.new.console.now.lines) }
{
    let end = answer_shared(cx, files, shared, node, one.console);
    if !matches!(&end, Ok(CommandsEnd::Stopped)) {
        cx.quit();
    }
    one.end = end;
}

// Answers a console by a caller of each shared folder.
fn answer_shared<'x, R, G, F, C, L, O>(
    cx: &Context<'x, R, G>,
    files: &F,
    shared: &'x [SharedFolder<C>],
    node: Node<'x>,
    console: &mut Console<L, O>,
) -> io::Result<CommandsEnd>
where
    R: Host,
    G: Gate,
    F: FolderFiles,
    C: FolderCore + Drop,
    L: CommandLines,
    O: Write,
    ensures { IfOk result (λ end. AreReadTo L.gives console.old.lines end console.new.lines) }
{
    let (rt, folders) = (cx.rt, shared);
    let histories = SharedHistories { rt, folders };
    let mut callers = each_caller(rt, cx.alloc, shared).map_err(no_answerer)?;
    answer_by_members(cx, files, &histories, node, callers.as_mut_slice(), console)
}

// Answers a console by these members of the shared folders.
fn answer_by_members<'x, R, G, F, V, C, L, O>(
    cx: &Context<'x, R, G>,
    files: &F,
    histories: &V,
    node: Node<'x>,
    callers: &mut [Member<'x, C, R>],
    console: &mut Console<L, O>,
) -> io::Result<CommandsEnd>
where
    R: Host,
    G: Gate,
    F: FolderFiles,
    V: Histories,
    C: FolderCore + Drop,
    L: CommandLines,
    O: Write,
    ensures { IfOk result (λ end. AreReadTo L.gives console.old.lines end console.new.lines) }
{
    answer_by(cx, files, histories, node, callers, console)
}

// The same by callers, whoever they are.
fn answer_by<'x, R, G, F, V, W, L, O>(
    cx: &Context<'x, R, G>,
    files: &F,
    histories: &V,
    node: Node<'x>,
    callers: &mut [W],
    console: &mut Console<L, O>,
) -> io::Result<CommandsEnd>
where
    R: Host,
    G: Gate,
    F: FolderFiles,
    V: Histories,
    W: FolderCalls,
    L: CommandLines,
    O: Write,
    ensures { IfOk result (λ end. AreReadTo L.gives console.old.lines end console.new.lines) }
{
    let mut callers = Lender::new(cx.rt, cx.alloc, node.keeper, callers).map_err(no_answerer)?;
    let folders = answered_of(cx.alloc, files, node, &mut callers).map_err(no_answerer)?;
    let devices = devices_of(cx.alloc, node.peers)?;
    let mut answerer = Answerer {
        folders,
        histories,
        name: node.name,
        peers: devices.as_slice(),
    };
    answer_commands(cx, &mut answerer, &mut console.lines, &mut console.output)
}

fn no_answerer(_fault: NodeFault) -> io::Error {
    io::Error::from(ErrorKind::OutOfMemory)
}
