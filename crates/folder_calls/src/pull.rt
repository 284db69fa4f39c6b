//! What the callers of a folder with a history hold of their pulls.
ghost use Rattle.std.specs.Prelude.{◌≡◌, option_copied};

use folder_core::PullInfo;
use std::marker::Model;
use sync_names::SafeName;
use sync_record::Record;

/// An open pull of a folder with a history. Only the folder makes one, when the pull begins, and it must be handed back to end
/// the pull: it is neither copied nor dropped. It holds what the history's entry of that needs, so that ending a pull does
/// not allocate.
#[derive(Debug)]
pub struct PullTicket {
    pub(crate) inner: folder_core::Ticket,
    pub(crate) info: PullInfo,
}

impl Model for PullTicket {
    ghost use Rattle.std.specs.Prelude.{◌≡◌};
    ghost use Rattle.folder_core.specs.declared.pull_info.PullInfo.{PullInfo};

    ghost Value = { PullInfo };

    ghost view = { λ t. t.info };

    ghost invariant = { λ t. t.inner ≡ t.info };
}

impl PullTicket {
    /// Its number; no two open pulls of a folder have the same one. O(1).
    pub fn number(&self) -> u64
        ensures { result ≡ self.now.number }
    {
        self.info.number
    }

    /// Its name. O(1).
    pub fn name(&self) -> &SafeName
        ensures { result.now ≡ self.now.name }
    {
        &self.info.name
    }

    /// The record whose file is fetched. O(1).
    pub fn target(&self) -> &Record
        ensures { result.now ≡ self.now.target }
    {
        &self.info.target
    }

    /// The local record when the pull began, if there was one. O(1).
    pub fn base(&self) -> Option<&Record>
        ensures { option_copied result ≡ self.now.base }
    {
        self.info.base.as_ref()
    }
}

/// An open pull whose commit was entered: until it is finished or aborted nothing else changes the local record of the name.
/// Only the folder makes one, and it must be handed back: it is neither copied nor dropped. It holds what the history's entry
/// of that needs.
#[derive(Debug)]
pub struct PullCommit {
    pub(crate) inner: folder_core::Commit,
    pub(crate) info: PullInfo,
}

impl Model for PullCommit {
    ghost use Rattle.std.specs.Prelude.{◌≡◌};
    ghost use Rattle.folder_core.specs.declared.pull_info.PullInfo.{PullInfo};

    ghost Value = { PullInfo };

    ghost view = { λ c. c.info };

    ghost invariant = { λ c. c.inner ≡ c.info };
}

impl PullCommit {
    /// The number of its pull; no two open pulls of a folder have the same one. O(1).
    pub fn number(&self) -> u64
        ensures { result ≡ self.now.number }
    {
        self.info.number
    }

    /// Its name. O(1).
    pub fn name(&self) -> &SafeName
        ensures { result.now ≡ self.now.name }
    {
        &self.info.name
    }

    /// The record whose file is put in place. O(1).
    pub fn target(&self) -> &Record
        ensures { result.now ≡ self.now.target }
    {
        &self.info.target
    }

    /// The local record when the pull began, which is the local one still, if there was one. O(1).
    pub fn base(&self) -> Option<&Record>
        ensures { option_copied result ≡ self.now.base }
    {
        self.info.base.as_ref()
    }
}

/// What the begin of a pull came to.
#[derive(Debug)]
pub enum BeginAnswer {
    /// The pull is open.
    Begun(PullTicket),
    /// There is no best, the local record is as good, or the best is deleted and there is no local record.
    NotNeeded,
    /// A pull of the name is open already.
    Busy,
    /// The best is live, and neither a file nor a directory.
    Unsupported,
}

/// Why a commit was not entered. Every ticket but a stray one comes back.
#[derive(Debug)]
pub enum EnterRefusal {
    /// No pull is open with the ticket's number, name and target. The ticket is used up.
    Stray,
    /// The local version is no longer the one over which the pull began.
    LocalMoved(PullTicket),
    /// The best of the name no longer has the target's version and content.
    Superseded(PullTicket),
    /// No sequence is left, except those that the open commits will take.
    SequenceFull(PullTicket),
    /// The history has no room, except for what ends the open pulls.
    HistoryFull(PullTicket),
}

/// A commit was not entered, because memory is out. Nothing changed, and the ticket comes back.
#[derive(Debug)]
pub struct EnterAllocError(pub PullTicket);
