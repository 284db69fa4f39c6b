//! Where the lines of the commands come from.
ghost use Rattle.std.specs.Prelude.{◌≡◌, MatchOption};
ghost use Rattle.node_commands.specs.declared.lines.InputLine.{InputLine as AnyLine};

use crate::lines::InputLine;
use crossbeam_channel::{Receiver, RecvTimeoutError};
use std::sync::Wait;
use std::time::{Clock, Duration};

/// Where the lines of the commands come from, one after another.
pub trait CommandLines {
    ghost use Rattle.node_commands.specs.declared.lines.InputLine.{InputLine as AnyLine};

    /// What may come: what there was before, the line, and what there is after it.
    ghost gives: { Self → AnyLine → Self → Type 0 };

    /// The next line, if one comes within this time; their end, where nobody sends any more.
    fn next_within<R: Wait + Clock>(&mut self, rt: &R, time: Duration) -> Option<InputLine>
        ensures { MatchOption result (self.new ≡ self.old) (λ line. gives self.old line self.new) };
}

impl CommandLines for Receiver<InputLine> {
    ghost use Rattle.std.specs.Prelude.{⊤};

    ghost gives = { λ _ _ _. ⊤ };

    fn next_within<R: Wait + Clock>(&mut self, rt: &R, time: Duration) -> Option<InputLine> {
        match self.recv_timeout(rt, time) {
            Ok(line) => Some(line),
            Err(RecvTimeoutError::Disconnected) => Some(InputLine::End),
            Err(RecvTimeoutError::Timeout) => None,
        }
    }
}
