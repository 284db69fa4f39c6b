//! The text of what happened to a folder.
use crate::board::Board;
use crate::event::{Change, PullEvent, ScanEvent, SkipWhy};
use crate::peer_line::push_device;
use crate::tally::Sum;
use record_lines::{push_name, push_text};
use std::io::{self, Write};
use sync_names::SafeName;
use sync_pull::PullFailure;
use sync_scan::ScanSum;

// How many bytes are told as one MB.
const MEGABYTE: u64 = 1_000_000;

// How many as one kB.
const KILOBYTE: u64 = 1_000;

/// Appends what happened to the files of the folder.
pub(crate) fn push_scan_event(
    line: &mut Vec<u8>,
    folder: &str,
    event: &ScanEvent,
) -> io::Result<()> {
    match event {
        ScanEvent::Keeping(path, count) => {
            let names = if *count == 1 { "name" } else { "names" };
            write!(line, "folder {folder}: {count} {names} recorded, in ")?;
            Ok(push_text(line, path)?)
        }
        ScanEvent::Recorded(name) => push_named(line, "recorded", folder, name),
        ScanEvent::Scanned(sum) => {
            push_sum(line, folder, sum)?;
            push_stop(line, sum)
        }
        ScanEvent::Ended(sum) => {
            push_sum(line, folder, sum)?;
            Ok(line.extend_from_slice(b": stopped")?)
        }
        ScanEvent::At(at, of, bytes) => {
            write!(line, "scanning {folder}")?;
            // (how many names there are is known once the first is scanned)
            if *of > 0 {
                write!(line, " {at} of {of}")?;
            }
            match *bytes / MEGABYTE {
                0 => Ok(()),
                read => write!(line, ": {read} MB read"),
            }
        }
        ScanEvent::Over(_) | ScanEvent::Looked => Ok(()),
        ScanEvent::Skipped(name, why) => push_skipped(line, folder, name, *why),
        ScanEvent::Away(path) => {
            write!(line, "away {folder}: ")?;
            push_text(line, path)?;
            Ok(line.extend_from_slice(b" isn't there, has no .stfolder, or is another one")?)
        }
        ScanEvent::InUse => write!(line, "away {folder}: another run has it"),
        ScanEvent::Back => write!(line, "back {folder}"),
        ScanEvent::Held(path, count) => {
            write!(line, "held {folder}: none of its {count} names is in ")?;
            push_text(line, path)?;
            write!(
                line,
                ": is that right? The command `scan {folder}` says so, and all devices delete them"
            )
        }
        ScanEvent::Emptied(count, days) => {
            write!(
                line,
                "trash {folder}: removed {count}, kept for {days} days"
            )
        }
    }
}

/// Appends what happened to what other devices have of the folder.
pub(crate) fn push_pull_event(
    line: &mut Vec<u8>,
    board: &Board,
    now: u64,
    folder: &str,
    event: &PullEvent,
) -> io::Result<()> {
    match event {
        PullEvent::Received(peer, sequence) => {
            write!(line, "index of {folder} up to {sequence} from ")?;
            push_device(line, board, *peer)
        }
        PullEvent::Pulled(name, change) => push_named(line, change_word(*change), folder, name),
        PullEvent::Kept(name) => push_named(line, "conflict copy", folder, name),
        PullEvent::At(_) | PullEvent::Came(_) => push_far(line, board, now, folder),
        PullEvent::Begun(_) | PullEvent::Over(_) => Ok(()),
        PullEvent::Failed(name, _, _)
        | PullEvent::Refused(name, _)
        | PullEvent::Unsupported(name) => {
            push_named(line, "failed", folder, name)?;
            line.extend_from_slice(b": ")?;
            push_failure(line, event)
        }
        PullEvent::HistoryFull => write!(line, "history full {folder}: the node begins anew"),
        PullEvent::NoRoom => write!(
            line,
            "no room {folder}: the disk is full, or a quota: make room, it is tried again each minute"
        ),
    }
}

fn change_word(change: Change) -> &'static str {
    match change {
        Change::Got => "got",
        Change::Replaced => "replaced",
        Change::Deleted => "deleted",
        Change::Same => "same",
    }
}

// Appends how far the pull of a folder is: names, and bytes, also of a file that is under way.
fn push_far(line: &mut Vec<u8>, board: &Board, now: u64, folder: &str) -> io::Result<()> {
    let Some(told) = board.folder(folder) else {
        return Ok(());
    };
    let doing = &told.doing;
    let of = doing.pulled.saturating_add(doing.needed);
    write!(line, "pulling {folder} {} of {of}", doing.pulled)?;
    match doing.came / MEGABYTE {
        0 => Ok(()),
        came => {
            let rate = doing.rate(now) / KILOBYTE;
            write!(line, ": {came} MB came, {rate} kB a second")
        }
    }
}

/// Appends how many names of the folder were left out that were not told by name.
pub(crate) fn push_left_out(line: &mut Vec<u8>, folder: &str, count: u64) -> io::Result<()> {
    write!(
        line,
        "skipped {folder}: {count} more; the command `skipped {folder}` lists them"
    )
}

/// Appends how many names of the folder were pulled that were not told by name.
pub(crate) fn push_pulled_sum(line: &mut Vec<u8>, folder: &str, sum: &Sum) -> io::Result<()> {
    write!(line, "pulled {folder}, besides:")?;
    let mut is_first = true;
    for (count, word) in [
        (sum.got, "got"),
        (sum.replaced, "replaced"),
        (sum.deleted, "deleted"),
        (sum.same, "same"),
    ] {
        if count > 0 {
            let comma = if is_first { "" } else { "," };
            write!(line, "{comma} {word} {count}")?;
            is_first = false;
        }
    }
    Ok(())
}

/// Appends why a name could not be pulled, where that is what happened.
pub(crate) fn push_failure(line: &mut Vec<u8>, event: &PullEvent) -> io::Result<()> {
    match event {
        PullEvent::Failed(_, why, said) => {
            write!(line, "{} {why}{}", why.number(), advice(*why))?;
            match said {
                Some(error) => write!(line, ": {error}"),
                None => Ok(()),
            }
        }
        PullEvent::Refused(_, why) => write!(line, "{} {why}", why.number()),
        PullEvent::Unsupported(_) => write!(
            line,
            "it is neither a file nor a directory{UNSUPPORTED}"
        ),
        _ => Ok(()),
    }
}

fn push_sum(line: &mut Vec<u8>, folder: &str, sum: &ScanSum) -> io::Result<()> {
    write!(
        line,
        "scanned {folder} recorded {} unchanged {} other {}",
        sum.recorded, sum.unchanged, sum.other
    )
}

fn push_stop(line: &mut Vec<u8>, sum: &ScanSum) -> io::Result<()> {
    match sum.stopped {
        Some(stop) => write!(line, ": {} {stop}", stop.number()),
        None => Ok(()),
    }
}

fn push_skipped(line: &mut Vec<u8>, folder: &str, name: &str, why: SkipWhy) -> io::Result<()> {
    write!(line, "skipped {folder} ")?;
    push_text(line, name)?;
    write!(line, ": {why}")
}

fn push_named(line: &mut Vec<u8>, word: &str, folder: &str, name: &SafeName) -> io::Result<()> {
    write!(line, "{word} {folder} ")?;
    push_name(line, name)?;
    Ok(())
}

// What to do about a name that can't be pulled, after a semicolon, where it takes more than to wait.
fn advice(why: PullFailure) -> &'static str {
    match why {
        PullFailure::LocalChanged =>
            "; what is here changed: it is pulled once the folder was scanned, or once what scans leave out is moved away",
        PullFailure::ConflictNameTaken => "; rename it, or what has the name of its conflict copy",
        PullFailure::NotEmpty =>
            "; the directory is to go, but something is left in it: move that away",
        PullFailure::BadParent =>
            "; a file is in the place of its directory: scan the folder, or rename the file",
        PullFailure::StoreFault | PullFailure::NoSource => "",
    }
}

// The same, of what is neither a file nor a directory.
const UNSUPPORTED: &str =
    "; it is not made here: remove it where it was made, or put a file in its place there";
