//! The log of a node: lines of events that wait until they are written on standard error, and what they come to.
use crate::board::{Board, Telling};
use crate::clock::moment;
use crate::event::Event;
use crate::event_line::{push_event, push_line};
use std::alloc::Global;
use std::io::{self, Write};
use std::mem::replace;
use std::sync::{Condvar, Mutex, Wait};
use std::time::{Clock, Duration};
use sync_version::Moment;

/// How many bytes of lines may wait to be written. What happens while there are more is counted, and not told.
const MAX_WAITING: usize = 1_048_576;

/// How it is shown how far a scan or a pull is.
#[derive(Clone, Copy, Debug, PartialEq, Eq)]
pub enum ProgressStyle {
    /// In place, on a terminal, each second.
    InPlace,
    /// By a line, each ten seconds.
    ByLines,
}

impl ProgressStyle {
    // How many seconds lie between two times that it is shown.
    fn seconds(self) -> u64 {
        match self {
            ProgressStyle::InPlace => 1,
            ProgressStyle::ByLines => 10,
        }
    }
}

/// How it is told what happens.
#[derive(Clone, Copy, Debug, PartialEq, Eq)]
pub struct LogStyle {
    /// How it is shown how far something is.
    pub progress: ProgressStyle,
    /// Whether a line is written for each name that is pulled or recorded, however many they are.
    pub is_verbose: bool,
}

/// What the threads of a node tell, until it is written.
#[derive(Drop)]
pub struct Log {
    alloc: Global,
    // `None` where nothing is told.
    style: Option<LogStyle>,
    waiting: Mutex<Waiting>,
    // Notified when there is something to write, and at the end.
    changes: Condvar,
    // Notified when the last node has ended.
    ends: Condvar,
    board: Mutex<Board>,
}

// What waits to be written.
#[derive(Drop)]
struct Waiting {
    lines: Vec<u8>,
    // How far something is, in place.
    far: Vec<u8>,
    // From when on it is told again how far something is, in seconds since 1970.
    next: u64,
    // How many lines are left out.
    lost: u64,
    // Whether the last node has.
    has_no_node: bool,
    is_ended: bool,
}

impl Log {
    /// Takes each event, and tells it so.
    pub fn new(alloc: Global, style: LogStyle) -> Log {
        Log::of(alloc, Some(style))
    }

    /// Has no lines of any.
    pub fn quiet(alloc: Global) -> Log {
        Log::of(alloc, None)
    }

    fn of(alloc: Global, style: Option<LogStyle>) -> Log {
        Log {
            alloc,
            style,
            waiting: Mutex::new(Waiting {
                lines: Vec::new(alloc),
                far: Vec::new(alloc),
                next: 0,
                lost: 0,
                has_no_node: false,
                is_ended: false,
            }),
            changes: Condvar::new(),
            ends: Condvar::new(),
            board: Mutex::new(Board::new(alloc)),
        }
    }

    /// What events came to, for who asks.
    pub fn board(&self) -> &Mutex<Board> {
        &self.board
    }

    /// Takes an event of which no line is written.
    pub fn note<R: Clock + Wait>(&self, rt: &R, event: &Event) {
        let now = moment(rt);
        // (what memory runs out for isn't known to who asks)
        let _ = self.board.lock(rt).take(now.seconds(), event);
    }

    /// Takes an event. Where memory runs out, or too much waits, its line is counted as left out.
    pub fn tell<R: Clock + Wait>(&self, rt: &R, event: &Event) {
        let now = moment(rt);
        let mut board = self.board.lock(rt);
        let _ = board.take(now.seconds(), event);
        let Some(style) = self.style else {
            return;
        };
        let telling = board.telling(now.seconds(), event, style.is_verbose);
        let is_new = match telling {
            Telling::Nothing => false,
            Telling::Line | Telling::Sum(_) | Telling::MoreSkipped(_) => {
                self.waiting.lock(rt).take(&board, now, event, telling);
                true
            }
            Telling::Far { begins } => {
                let mut waiting = self.waiting.lock(rt);
                waiting.is_far_due(style.progress, now, begins)
                    && {
                        waiting.take_far(style.progress, &board, now, event);
                        true
                    }
            }
        };
        drop(board);
        if is_new {
            self.changes.notify_all();
        }
    }

    /// Waits for so long, or until the last node has ended, and returns whether it has.
    pub fn pause_for<R: Clock + Wait>(&self, rt: &R, time: Duration) -> bool {
        let waiting = self.waiting.lock(rt);
        let (waiting, _) = self
            .ends
            .wait_timeout_while(rt, waiting, time, |waiting| !waiting.has_no_node);
        waiting.has_no_node
    }

    /// The last node has ended: no pause lasts.
    pub fn end_pauses<R: Wait>(&self, rt: &R) {
        self.waiting.lock(rt).has_no_node = true;
        self.ends.notify_all();
    }

    /// There are no more events.
    pub fn end<R: Wait>(&self, rt: &R) {
        self.waiting.lock(rt).is_ended = true;
        self.changes.notify_all();
    }
}

impl Waiting {
    fn take(&mut self, board: &Board, now: Moment, event: &Event, telling: Telling) {
        let length = self.lines.len();
        if length > MAX_WAITING {
            self.lost = self.lost.saturating_add(1);
            return;
        }
        if push_line(&mut self.lines, board, now, event, telling).is_err() {
            self.lines.truncate(length);
            self.lost = self.lost.saturating_add(1);
        }
    }

    // Whether it is time to tell how far something is: it has taken long enough since it began, or was told.
    fn is_far_due(&mut self, progress: ProgressStyle, now: Moment, begins: bool) -> bool {
        let seconds = now.seconds();
        let is_due = !begins && seconds >= self.next;
        if begins || is_due {
            self.next = seconds.saturating_add(progress.seconds());
        }
        is_due
    }

    // How far something is.
    fn take_far(&mut self, progress: ProgressStyle, board: &Board, now: Moment, event: &Event) {
        match progress {
            ProgressStyle::InPlace => {
                self.far.clear();
                if push_event(&mut self.far, board, now, event).is_err() {
                    self.far.clear();
                }
            }
            ProgressStyle::ByLines => self.take(board, now, event, Telling::Line),
        }
    }

    fn is_empty(&self) -> bool {
        self.lines.is_empty() && self.far.is_empty() && self.lost == 0
    }
}

/// Writes what a log is told, until it has ended. That it can't be written ends nothing.
pub fn write_log<R: Wait, E: Write>(rt: &R, log: &Log, errors: &mut E) {
    let alloc = log.alloc;
    let mut is_far = false;
    for _ in rt.forever() {
        let waiting = log.waiting.lock(rt);
        let mut waiting = log.changes.wait_while(rt, waiting, |waiting| {
            waiting.is_empty() && !waiting.is_ended
        });
        let is_ended = waiting.is_ended && waiting.is_empty();
        let lines = replace(&mut waiting.lines, Vec::new(alloc));
        let far = replace(&mut waiting.far, Vec::new(alloc));
        let lost = replace(&mut waiting.lost, 0);
        drop(waiting);
        if is_far {
            let _ = errors.write_all(CLEAR_LINE);
        }
        if is_ended {
            return;
        }
        is_far = !far.is_empty();
        let _ = write_taken(errors, lines.as_slice(), far.as_slice(), lost);
    }
}

/// Goes to the beginning of a terminal's line, and clears it (ECMA-48, 8.3.41).
const CLEAR_LINE: &[u8] = b"\r\x1b[K";

fn write_taken<E: Write>(errors: &mut E, lines: &[u8], far: &[u8], lost: u64) -> io::Result<()> {
    errors.write_all(lines)?;
    if lost > 0 {
        writeln!(errors, "({lost} lines left out)")?;
    }
    errors.write_all(far)?;
    errors.flush()
}
