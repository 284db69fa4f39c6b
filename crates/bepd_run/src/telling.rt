//! The error line of a failed run, written to standard error; it is given up after 4 seconds.
ghost use Rattle.std.specs.Prelude.{◌++◌, OnOk, codes};
ghost use Rattle.std.specs.Io.KnownBytes.{Appends};
ghost use Rattle.bepd_run.specs.Failures.{run_failure_text};

use crate::failure::RunFailure;
use crate::readiness::{Patience, Readiness, Turns};
use std::alloc::Global;
use std::io::{self, ErrorKind, Write};
use std::net::Net;
use std::os::fd::AsRawFd;
use std::sync::Wait;

/// Writes the line of a failure. Fails with `WouldBlock` where nobody takes it for 4 seconds. Without memory or a descriptor to wait by, it is waited for until
/// somebody takes it.
pub fn tell_failure<R: Net + Wait, E: Write + AsRawFd>(
    rt: &R,
    alloc: Global,
    failure: &RunFailure,
    errors: &mut E,
) -> io::Result<()>
    ensures { OnOk result (Appends (E.contents errors.old) (E.contents errors.new) (run_failure_text failure.now ++ codes "\n")) }
{
    let Ok(line) = format!(in alloc; "{failure}\n") else {
        return writeln!(errors, "{failure}");
    };
    match Readiness::new(rt, alloc, errors.as_raw_fd(), Patience::Short) {
        Ok(readiness) => write_whole(rt, readiness, errors, line.as_bytes()),
        Err(_) => writeln!(errors, "{failure}"),
    }
}

// Writes all of the bytes.
fn write_whole<R: Wait, W: Write>(
    rt: &R,
    readiness: Readiness,
    to: &mut W,
    bytes: &[u8],
) -> io::Result<()>
    ensures { OnOk result (Appends (W.contents to.old) (W.contents to.new) bytes.now) }
{
    let mut readiness = readiness;
    let turns = Turns::new(false);
    let mut at = 0;
    while at < bytes.len() {
        match readiness.write(rt, &turns, to, &bytes[at..])? {
            0 => return Err(io::Error::from(ErrorKind::WriteZero)),
            count => at += count,
        }
    }
    Ok(())
}
