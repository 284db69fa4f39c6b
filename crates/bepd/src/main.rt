//! The program `bepd`.
#![tactic(auto)]

mod best;
mod command;
mod counted;
mod ending;
mod input;
mod line;
mod listing;
mod playing;
mod received;
mod run;

use bepd_run::{Disks, ProgressStyle};
use counted::{CountedReader, CountedWriter};
use run::{Started, run};
use std::env::{self, Env};
use std::fs::{File, Files};
use std::io::{self, IsTerminal};
use std::os::fd::{AsRawFd, RawFd};
use std::process::ExitCode;

/// The descriptor of standard input.
const INPUT: RawFd = 0;

/// The descriptor of standard error, the last of the standard streams.
const LAST_STREAM: RawFd = 2;

fn main(rt: HostRuntime) -> ExitCode {
    let held = [closed_stream(&rt), closed_stream(&rt), closed_stream(&rt)];
    let is_closed = matches!(&held[0], Some(file) if file.as_raw_fd() == INPUT);
    let words = words(&rt);
    let mut input = CountedReader::new(rt.reader());
    let mut output = CountedWriter::new(rt.stdout());
    let mut errors = rt.stderr();
    let progress = if errors.is_terminal() {
        ProgressStyle::InPlace
    } else {
        ProgressStyle::ByLines
    };
    let outcome = run(
        &rt,
        &Disks::new(&rt, rt.alloc()),
        &words,
        Started {
            progress,
            has_input: !is_closed,
        },
        &mut input,
        &mut output,
        &mut errors,
    );
    ExitCode::from(outcome.status)
}

/// Opens a directory in the place of a standard stream that is closed, if one is: reads and writes of it fail, as they do of a closed one. A file that is opened later
/// would get the number of the stream, and what is written to it.
fn closed_stream<R: Files<File = File>>(rt: &R) -> Option<File> {
    let held = File::open(rt, "/").ok()?;
    if held.as_raw_fd() <= LAST_STREAM {
        Some(held)
    } else {
        None
    }
}

/// The words of the command line, the program's name first.
fn words<R: Env + AllocGlobal>(rt: &R) -> io::Result<Vec<String>> {
    Ok(env::args(rt)?.collect(rt.alloc())?)
}
