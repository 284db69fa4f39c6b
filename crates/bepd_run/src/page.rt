//! The page that a run keeps of how all is.
use crate::files::StateFiles;
use bep_messages::Text;
use node_config::Config;
use node_context::{Event, Log, moment};
use node_socket::{Answer, AskFault, ask, question, socket_path};
use node_status::push_ended_page;
use std::alloc::{AllocError, Global};
use std::io;
use std::net::{Net, TcpListener, TcpStream};
use std::sync::Wait;
use std::time::{Clock, Duration};

/// For how many milliseconds a page is not replaced.
const PAUSE: u64 = 1_000;

/// After how many such pauses it is replaced though nothing changed, so that an old one is known as such.
const MOST_PAUSES: u64 = 60;

/// Keeps the page of a configuration, if it has one, until there are no more events: it is replaced whole, at most once a second, where something happened, and each
/// minute. That it can't be made is told, once until it can be. The last one says that the run has ended.
pub(crate) fn keep_page<R>(rt: &R, alloc: Global, config: &Config, log: &Log)
where
    R: Clock + Net<Listener = TcpListener, Stream = TcpStream> + StateFiles + Wait,
{
    let Some(path) = &config.status else {
        return;
    };
    let (mut seen, mut pauses, mut is_told) = (0, MOST_PAUSES, false);
    for _ in rt.forever() {
        if log.pause_for(rt, Duration::from_millis(PAUSE)) {
            // (that it can't be made was told, or nobody is there any more to whom it could be)
            let _ = put_ended(rt, alloc, config, path);
            return;
        }
        pauses = pauses.saturating_add(1);
        let changes = log.board().lock(rt).changes;
        if changes == seen && pauses < MOST_PAUSES {
            continue;
        }
        match make_page(rt, alloc, config, path) {
            Ok(()) => {
                // (what happens while it is made is in the next one)
                seen = changes;
                pauses = 0;
                is_told = false;
            }
            Err(why) => {
                if !is_told {
                    log.tell(rt, &Event::NoPage(path.as_str(), why.as_str()));
                }
                is_told = true;
            }
        }
    }
}

// Makes the page anew, or says why that can't be done.
fn make_page<R>(rt: &R, alloc: Global, config: &Config, path: &Text) -> Result<(), String>
where
    R: Net<Listener = TcpListener, Stream = TcpStream> + StateFiles,
{
    let made = match page_of(rt, alloc, config) {
        Ok(page) => put(rt, alloc, path.as_str(), page.as_str()),
        Err(why) => Err(why),
    };
    made.map_err(|why| reason(alloc, why))
}

// Why a page can't be made.
#[derive(Clone, Copy)]
enum NoPage {
    // The run did not answer so.
    Unanswered,
    // The system says why.
    Said(io::Error),
    OutOfMemory,
}

impl From<AllocError> for NoPage {
    fn from(_failed: AllocError) -> NoPage {
        NoPage::OutOfMemory
    }
}

fn reason(alloc: Global, why: NoPage) -> String {
    let text = match why {
        NoPage::Unanswered => String::from_str(alloc, "the run gave no answer at its socket"),
        NoPage::Said(error) => format!(in alloc; "{error}"),
        NoPage::OutOfMemory => String::from_str(alloc, "memory ran out"),
    };
    text.unwrap_or(String::new(alloc))
}

// The page that the run gives at its socket.
fn page_of<R>(rt: &R, alloc: Global, config: &Config) -> Result<String, NoPage>
where
    R: Net<Listener = TcpListener, Stream = TcpStream>,
{
    let socket = socket_path(alloc, config.state.as_str())?;
    let question = question(alloc, "status", Some("page"))?;
    let read = match ask(rt, alloc, socket.as_str(), question.as_str()) {
        Ok(read) => read,
        Err(AskFault::Socket(error)) => return Err(NoPage::Said(error)),
        Err(AskFault::OutOfMemory) => return Err(NoPage::OutOfMemory),
        Err(_) => return Err(NoPage::Unanswered),
    };
    match Answer::of(read.as_str()) {
        Some(answer) if !answer.is_error() => Ok(String::from_str(alloc, answer.text)?),
        _ => Err(NoPage::Unanswered),
    }
}

// Puts the page of a run that has ended in place of the last one.
fn put_ended<R: Clock + StateFiles>(
    rt: &R,
    alloc: Global,
    config: &Config,
    path: &Text,
) -> Result<(), NoPage> {
    let device = hex::encode(alloc, config.device.bytes())?;
    let (name, now) = (config.name.as_str(), moment(rt).seconds());
    let mut page = String::new(alloc);
    push_ended_page(&mut page, name, device.as_str(), now)?;
    put(rt, alloc, path.as_str(), page.as_str())
}

/// Under which path a page is made, before it takes the place of the one before. Fails only if out of memory.
pub(crate) fn new_page_path(alloc: Global, path: &str) -> Result<String, AllocError> {
    format!(in alloc; "{path}.new")
}

// Puts a page at its path, in place of the one before.
fn put<R: StateFiles>(rt: &R, alloc: Global, path: &str, page: &str) -> Result<(), NoPage> {
    let new = new_page_path(alloc, path)?;
    rt.replace_file(new.as_str(), path, page.as_bytes())
        .map_err(NoPage::Said)
}
