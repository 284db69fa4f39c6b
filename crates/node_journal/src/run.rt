//! The frames that were read so far.
ghost use Rattle.std.specs.Prelude.{◌≡◌, ◌+◌, ◌<◌, ◌≤◌, ◌^◌, [], length, OnOk, IfErr};
ghost use Rattle.node_journal.specs.Reading.{end_of, nothing, torn, with_first};
ghost use Rattle.node_journal.specs.Runs.{joined};
ghost use Rattle.node_journal.specs.declared.kept.KeptFrames.{KeptFrames as Kept};

use crate::frame::Frame;
use crate::kept::{JournalEnd, KeptFrames};
use bep_messages::Items;
use std::alloc::{AllocError, Global};

/// The frames from a journal's header up to an offset.
#[derive(Debug, Drop)]
pub(crate) struct Run {
    pub frames: Vec<Frame>,
    /// How many of them count so far: those up to the last whole one.
    pub count: usize,
    /// Where these end.
    pub len: usize,
    /// Where all of them end.
    pub at: usize,
}

/// The end of a journal of which less than a frame is left.
pub(crate) fn end_of(rest: &[u8]) -> JournalEnd
    ensures { result ≡ end_of rest.now }
{
    if rest.is_empty() {
        JournalEnd::Whole
    } else {
        JournalEnd::Torn
    }
}

// The end where frames before it don't count.
fn torn(end: JournalEnd) -> JournalEnd
    ensures { result ≡ torn end }
{
    match end {
        JournalEnd::Whole => JournalEnd::Torn,
        JournalEnd::Torn => JournalEnd::Torn,
        JournalEnd::Broken => JournalEnd::Broken,
    }
}

impl Run {
    /// No frame, at this offset.
    pub(crate) fn new(alloc: Global, at: usize) -> Run
        ensures frames { result.frames.items ≡ [] }
        ensures count { result.count ≡ 0 }
        ensures len { result.len ≡ at }
        ensures at { result.at ≡ at }
    {
        Run {
            frames: Vec::new(alloc),
            count: 0,
            len: at,
            at,
        }
    }

    /// Adds a frame of this size.
    pub(crate) fn push(&mut self, frame: Frame, size: usize) -> Result<(), AllocError>
        requires count { self.old.count ≤ length self.old.frames.items }
        requires fits { self.old.at + size < 2 ^ 64 }
        ensures joined { OnOk result ((k : Kept) →
            joined self.new k ≡ joined self.old (with_first frame self.old.at size k)) }
        ensures count { OnOk result (self.new.count ≤ length self.new.frames.items) }
        ensures at { OnOk result (self.new.at ≡ self.old.at + size) }
    {
        let is_whole = frame.is_whole;
        self.frames.push(frame)?;
        self.at += size;
        if is_whole {
            self.count = self.frames.len();
            self.len = self.at;
        }
        Ok(())
    }

    /// What is read if the journal ends so.
    pub(crate) fn ended(self, end: JournalEnd) -> KeptFrames
        requires { self.count ≤ length self.frames.items }
        ensures { result ≡ joined self (nothing self.at end) }
    {
        let Run {
            mut frames,
            count,
            len,
            at: _,
        } = self;
        let end = if count == frames.len() {
            end
        } else {
            torn(end)
        };
        frames.truncate(count);
        KeptFrames {
            frames: Items::from_vec(frames),
            len,
            end,
        }
    }
}
