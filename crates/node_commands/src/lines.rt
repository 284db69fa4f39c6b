//! The lines of the input, before they are commands.
ghost use Rattle.std.specs.Prelude.{◌↔◌, IsTrue};
ghost use Rattle.node_commands.specs.Read.{IsLast};

use crossbeam_channel::Sender;
use std::alloc::Global;
use std::io::{self, BufRead, ErrorKind};
use std::sync::Wait;

/// The most bytes of a line of commands.
const MAX_LINE_BYTES: usize = 65_536;

/// Reads the next line into `line`, in place of what is there, without its line feed. Of a line of more than 65,536 bytes one byte more than
/// so many is kept. Returns `false`, and no line, at the end of the input.
fn read_line<I: BufRead>(input: &mut I, line: &mut Vec<u8>) -> io::Result<bool> {
    line.clear();
    let mut is_begun = false;
    for _ in 0..u64::MAX {
        let buffer = input.fill_buf()?;
        if buffer.is_empty() {
            return Ok(is_begun);
        }
        is_begun = true;
        let end = buffer.iter().position(|byte| *byte == b'\n');
        let count = end.unwrap_or(buffer.len());
        let room = (MAX_LINE_BYTES + 1).saturating_sub(line.len());
        let kept = buffer.get(..count.min(room)).unwrap_or(buffer);
        line.extend_from_slice(kept)?;
        if end.is_some() {
            input.consume(count.saturating_add(1));
            return Ok(true);
        }
        input.consume(count);
    }
    Ok(is_begun)
}

/// What is read of the commands.
#[derive(Debug, Drop)]
pub enum InputLine {
    /// A line without its line feed; one that is too long, or no UTF-8, is as an empty one, which is no command.
    Line(String),
    /// A line for which memory ran out.
    NoMemory,
    /// There are no more.
    End,
    /// Those that someone else gives were read to their end, and so there are no more.
    Over,
    /// They can't be read any more.
    Failed(ErrorKind),
}

/// Whether it is the last that is read: `quit`, the end of the commands, or that they can't be read any more.
pub fn is_last(line: &InputLine) -> bool
    ensures { IsTrue result ↔ IsLast line.now }
{
    match line {
        InputLine::Line(text) => text.as_str() == "quit",
        InputLine::NoMemory => false,
        InputLine::End => true,
        InputLine::Over => true,
        InputLine::Failed(_) => true,
    }
}

// The next line of the commands, kept in `line`, or their end.
fn next_of<I: BufRead>(input: &mut I, line: &mut Vec<u8>, alloc: Global) -> InputLine {
    match read_line(input, line) {
        Ok(false) => return InputLine::End,
        Ok(true) => {}
        Err(error) if error.kind() == ErrorKind::OutOfMemory => return InputLine::NoMemory,
        Err(error) => return InputLine::Failed(error.kind()),
    }
    match String::from_str(alloc, text_of(line.as_slice())) {
        Ok(text) => InputLine::Line(text),
        Err(_) => InputLine::NoMemory,
    }
}

// The text of a line, or an empty one where the line is too long or no UTF-8.
fn text_of(line: &[u8]) -> &str {
    if line.len() > MAX_LINE_BYTES {
        return "";
    }
    str::from_utf8(line).unwrap_or("")
}

/// Reads the commands, a line at a time, for whoever answers them, up to `quit` or their end, or until they can't be read any more.
pub fn read_commands<R: Wait, I: BufRead>(
    rt: &R,
    alloc: Global,
    input: &mut I,
    answerer: Sender<InputLine>,
) {
    let mut line = Vec::new(alloc);
    for _ in rt.forever() {
        let line_read = next_of(input, &mut line, alloc);
        let is_over = is_last(&line_read);
        if answerer.send(rt, line_read).is_err() || is_over {
            return;
        }
    }
}
