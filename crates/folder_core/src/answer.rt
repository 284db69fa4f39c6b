//! What a folder answers to a change: Recorded, Begun, Entered, Done, or why not (Busy, Moved, Superseded, ..).
ghost use Rattle.std.specs.Prelude.{◌≡◌, IfErr, IfOk, IsTrue};
ghost use Rattle.folder_core.specs.Calls.{copy_allocates};

use crate::PullInfo;
use crate::copies::copied_version;
use std::alloc::AllocError;
use sync_version::Version;

/// What a folder answers to a change.
#[derive(Debug, PartialEq, Eq, Drop)]
pub enum Answer {
    /// A commit of the name is open, or a pull where one was to begin.
    Busy,
    /// The local record says it already.
    Unchanged,
    /// This device's counter in the version can't rise.
    CounterFull,
    /// No sequence is left, except those that the open commits will take.
    SequenceFull,
    /// The history has no room, except for what ends the open pulls.
    HistoryFull,
    /// There is no best, the local record is as good, or the best is deleted and there is no local record.
    NotNeeded,
    /// The best is neither a file nor a directory.
    Unsupported,
    /// No pull is open with this number, name and target at this stage.
    Stray,
    /// The local version is no longer the one over which the pull began.
    LocalMoved,
    /// The best is no longer the pull's target.
    Superseded,
    /// The device's records are as it was asked.
    Applied,
    /// The pull is closed.
    Closed,
    /// The local version is not the expected one, but this.
    Moved(Option<Version>),
    /// The change of this device was recorded under this sequence.
    Recorded(u64),
    /// The committed record is the local one, under this sequence.
    Done(u64),
    /// The pull began, and this is its ticket.
    Begun(PullInfo),
    /// The pull's commit was entered, and this is its commit.
    Entered(PullInfo),
}

impl Answer {
    /// The same answer once more. Returns `Err` only if out of memory, and never for an answer without a version or a pull.
    /// O(n) time and memory for n counters, or bytes of the name.
    pub fn copy(&self) -> Result<Answer, AllocError>
        ensures same { IfOk result (λ answer. answer ≡ self.now) }
        ensures memory { IfErr result (λ _. IsTrue (copy_allocates self.now)) }
    {
        Ok(match self {
            Answer::Busy => Answer::Busy,
            Answer::Unchanged => Answer::Unchanged,
            Answer::CounterFull => Answer::CounterFull,
            Answer::SequenceFull => Answer::SequenceFull,
            Answer::HistoryFull => Answer::HistoryFull,
            Answer::NotNeeded => Answer::NotNeeded,
            Answer::Unsupported => Answer::Unsupported,
            Answer::Stray => Answer::Stray,
            Answer::LocalMoved => Answer::LocalMoved,
            Answer::Superseded => Answer::Superseded,
            Answer::Applied => Answer::Applied,
            Answer::Closed => Answer::Closed,
            Answer::Moved(version) => Answer::Moved(copied_version(version.as_ref())?),
            Answer::Recorded(sequence) => Answer::Recorded(*sequence),
            Answer::Done(sequence) => Answer::Done(*sequence),
            Answer::Begun(ticket) => Answer::Begun(ticket.copy()?),
            Answer::Entered(commit) => Answer::Entered(commit.copy()?),
        })
    }
}
