//! Where answers go.
ghost use Rattle.std.specs.Prelude.{◌≤◌, length};

use crate::answer::END_LINE;
use std::io::{self, Write};
use std::net::{Shutdown, TcpStream};
use std::sync::{Mutex, Wait};

/// The connection of who asked for the command that is answered; none where it came from the input.
#[derive(Drop)]
pub struct Asker {
    stream: Mutex<Option<TcpStream>>,
}

impl Asker {
    /// None.
    pub fn none() -> Asker {
        Asker {
            stream: Mutex::new(None),
        }
    }

    // The next command is of this one.
    pub(crate) fn begin<R: Wait>(&self, rt: &R, from: Option<TcpStream>) {
        *self.stream.lock(rt) = from;
    }

    /// The answer to who asked is whole, and the connection ends. Returns whether there was one.
    pub fn finish<R: Wait>(&self, rt: &R) -> bool {
        let mut asker = self.stream.lock(rt);
        match asker.take() {
            Some(mut stream) => {
                let _ = stream.write_all(END_LINE.as_bytes());
                true
            }
            None => false,
        }
    }
}

/// A writer of answers: they go to who asked, or to the output.
#[derive(Drop)]
pub struct Replies<'r, 'a, R, O> {
    rt: &'r R,
    asker: &'a Asker,
    output: Option<O>,
}

impl<'r, 'a, R, O> Replies<'r, 'a, R, O> {
    /// To who asked, and else to this output, if there is one.
    pub fn new(rt: &'r R, asker: &'a Asker, output: Option<O>) -> Replies<'r, 'a, R, O> {
        Replies { rt, asker, output }
    }
}

impl<R: Wait, O: Write> Write for Replies<'_, '_, R, O> {
    /// Where who asked takes no more, the rest of the answer is left out.
    fn write(&mut self, bytes: &[u8]) -> io::Result<usize> {
        let mut asker = self.asker.stream.lock(self.rt);
        if let Some(stream) = asker.as_mut() {
            return Ok(put(stream, bytes));
        }
        match &mut self.output {
            Some(output) => output.write(bytes),
            None => Ok(bytes.len()),
        }
    }

    /// The answer is whole.
    fn flush(&mut self) -> io::Result<()> {
        if self.asker.finish(self.rt) {
            return Ok(());
        }
        match &mut self.output {
            Some(output) => output.flush(),
            None => Ok(()),
        }
    }
}

// Writes a front of the bytes to a connection, which ends where that fails. Returns how many are written or left out.
fn put(stream: &mut TcpStream, bytes: &[u8]) -> usize
    ensures { result ≤ length bytes.now }
{
    match stream.write(bytes) {
        Ok(count) if count > 0 => count,
        _ => {
            let _ = stream.shutdown(Shutdown::Both);
            bytes.len()
        }
    }
}
