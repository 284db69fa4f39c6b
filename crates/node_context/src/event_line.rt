//! The text of each event, as it is told on standard error.
use crate::VERSION;
use crate::board::{Board, Telling};
use crate::event::Event;
use crate::folder_line::{push_left_out, push_pull_event, push_pulled_sum, push_scan_event};
use crate::peer_line::push_peer_event;
use jiff::Timestamp;
use record_lines::push_text;
use std::io::{self, Write};
use sync_version::Moment;

/// Appends a line: the time in UTC, and what is told.
pub(crate) fn push_line(
    line: &mut Vec<u8>,
    board: &Board,
    now: Moment,
    event: &Event,
    telling: Telling,
) -> io::Result<()> {
    if let Ok(time) = Timestamp::from_second(now.seconds() as i64) {
        write!(line, "{time} ")?;
    }
    match (telling, event) {
        (Telling::Sum(sum), Event::Pull(folder, _)) => push_pulled_sum(line, folder, &sum)?,
        (Telling::MoreSkipped(count), Event::Scan(folder, _)) => push_left_out(
            line, folder, count,
        )?,
        _ => push_event(line, board, now, event)?,
    }
    line.push(b'\n')?;
    Ok(())
}

/// Appends what happened.
pub(crate) fn push_event(
    line: &mut Vec<u8>,
    board: &Board,
    now: Moment,
    event: &Event,
) -> io::Result<()> {
    match event {
        Event::Begun(config) => {
            write!(line, "bepd v{VERSION} runs by ")?;
            Ok(push_text(line, config)?)
        }
        Event::InputEnded => Ok(line.extend_from_slice(INPUT_ENDED)?),
        Event::NoSocket(path, why) => {
            line.extend_from_slice(b"no commands by ")?;
            push_text(line, path)?;
            write!(line, ": {why}: bepd ask can't reach this run")
        }
        Event::NoPage(path, why) => {
            line.extend_from_slice(b"no page at ")?;
            push_text(line, path)?;
            write!(line, ": {why}; it is tried again")
        }
        Event::Ended => Ok(line.extend_from_slice(ENDED)?),
        Event::OlderState => Ok(line.extend_from_slice(OLDER_STATE)?),
        Event::NotKept(why) => {
            line.extend_from_slice(b"state not written: it is tried again")?;
            match why {
                Some(why) => write!(line, ": {why}"),
                None => Ok(()),
            }
        }
        Event::KeptAgain => Ok(line.extend_from_slice(b"state written again")?),
        Event::Peer(peer, event) => push_peer_event(line, board, *peer, event),
        Event::Scan(folder, event) => push_scan_event(line, folder, event),
        Event::Pull(folder, event) => push_pull_event(line, board, now.seconds(), folder, event),
    }
}

const INPUT_ENDED: &[u8] =
    b"the input ended, and so does this run; with --no-input it needs none, and runs on";

const ENDED: &[u8] = b"ended: the state is written";

const OLDER_STATE: &[u8] =
    b"older state: a peer was told more than it has: the node begins anew, and tells all again";
