//! The lines of the commands, for each of those who answer them, in the order in which they came.
use crate::replies::Asker;
use crossbeam_channel::{Receiver, RecvTimeoutError, Sender};
use node_commands::{CommandLines, InputLine, is_last};
use std::net::TcpStream;
use std::sync::Wait;
use std::time::{Clock, Duration};

/// A line of the commands, and who asked, where it came from elsewhere.
#[derive(Drop)]
pub struct Asked {
    /// The line.
    pub line: InputLine,
    /// Its connection.
    pub from: Option<TcpStream>,
}

/// The lines that one of those who answer is given, as they come. Who asked for the one that came last is known to the asker.
#[derive(Drop)]
pub struct AskedLines<'a> {
    asked: Receiver<Asked>,
    asker: &'a Asker,
    // The ways to all who answer.
    all: &'a [Sender<Asked>],
}

impl<'a> AskedLines<'a> {
    /// These lines. At the last of them all who answer are told that they are over.
    pub fn new(
        asked: Receiver<Asked>,
        asker: &'a Asker,
        all: &'a [Sender<Asked>],
    ) -> AskedLines<'a> {
        AskedLines { asked, asker, all }
    }
}

impl CommandLines for AskedLines<'_> {
    ghost use Rattle.std.specs.Prelude.{⊤};

    ghost gives = { λ _ _ _. ⊤ };

    fn next_within<R: Wait + Clock>(&mut self, rt: &R, time: Duration) -> Option<InputLine> {
        match self.asked.recv_timeout(rt, time) {
            Ok(Asked { line, from }) => {
                self.asker.begin(rt, from);
                if is_last(&line) {
                    tell_over(rt, self.all);
                }
                Some(line)
            }
            Err(RecvTimeoutError::Disconnected) => Some(InputLine::End),
            Err(RecvTimeoutError::Timeout) => None,
        }
    }
}

// Tells all who answer that the lines are over, so that nobody waits for more. (One that has lines to answer still sees by itself that the run ends.)
fn tell_over<R: Wait>(rt: &R, all: &[Sender<Asked>]) {
    for answerer in all {
        let _ = answerer.try_send(
            rt,
            Asked {
                line: InputLine::Over,
                from: None,
            },
        );
    }
}

/// Passes on the lines of the input, up to their end.
pub fn pass_on<R: Wait>(rt: &R, lines: Receiver<InputLine>, answerer: &Sender<Asked>) {
    for line in lines.iter(rt) {
        if answerer.send(rt, Asked { line, from: None }).is_err() {
            return;
        }
    }
}
