//! What pulls come to, and what their callers hold.
ghost use Rattle.std.specs.Prelude.{◌≡◌, Some, option_copied, option_map};
ghost use Rattle.folder_core.specs.Faults.{stray_name, stray_number};

use crate::PullInfo;
use std::fmt::{self, Display, Formatter};
use std::marker::Model;
use sync_names::SafeName;
use sync_record::Record;
use thiserror::Error;

/// An open pull. Its folder makes it when the pull begins, and it must be handed back to end the pull: it is neither
/// copied nor dropped.
#[derive(Debug)]
pub struct Ticket {
    pub(crate) info: PullInfo,
}

impl Model for Ticket {
    ghost use Rattle.folder_core.specs.declared.pull_info.PullInfo.{PullInfo};

    ghost Value = { PullInfo };

    ghost view = { λ t. t.info };
}

impl Ticket {
    /// That of an open pull, for a folder that begins it. O(1).
    pub fn new(info: PullInfo) -> Ticket
        ensures { result ≡ info }
    {
        Ticket { info }
    }

    /// What it says of its pull. O(1).
    pub fn info(&self) -> &PullInfo
        ensures { result.now ≡ self.now }
    {
        &self.info
    }

    /// What it says of its pull, for a folder to which it was handed back. O(1).
    pub fn into_info(self) -> PullInfo
        ensures { result ≡ self }
    {
        let Ticket { info } = self;
        info
    }

    /// Its number; no two open pulls of a folder have the same one. O(1).
    pub fn number(&self) -> u64
        ensures { result ≡ self.now.number }
    {
        self.info.number
    }

    /// Its name. O(1).
    pub fn name(&self) -> &SafeName
        ensures { result.now ≡ self.now.name }
    {
        &self.info.name
    }

    /// The record whose file is fetched. O(1).
    pub fn target(&self) -> &Record
        ensures { result.now ≡ self.now.target }
    {
        &self.info.target
    }

    /// The local record when the pull began, if there was one. O(1).
    pub fn base(&self) -> Option<&Record>
        ensures { option_copied result ≡ self.now.base }
    {
        self.info.base.as_ref()
    }
}

/// An open pull whose commit was entered: until it is finished or aborted nothing else changes the local record of the name.
/// Its folder makes it, and it must be handed back: it is neither copied nor dropped.
#[derive(Debug)]
pub struct Commit {
    pub(crate) info: PullInfo,
}

impl Model for Commit {
    ghost use Rattle.folder_core.specs.declared.pull_info.PullInfo.{PullInfo};

    ghost Value = { PullInfo };

    ghost view = { λ c. c.info };
}

impl Commit {
    /// That of a pull whose commit was entered, for a folder that enters it. O(1).
    pub fn new(info: PullInfo) -> Commit
        ensures { result ≡ info }
    {
        Commit { info }
    }

    /// What it says of its pull. O(1).
    pub fn info(&self) -> &PullInfo
        ensures { result.now ≡ self.now }
    {
        &self.info
    }

    /// What it says of its pull, for a folder to which it was handed back. O(1).
    pub fn into_info(self) -> PullInfo
        ensures { result ≡ self }
    {
        let Commit { info } = self;
        info
    }

    /// The number of its pull. O(1).
    pub fn number(&self) -> u64
        ensures { result ≡ self.now.number }
    {
        self.info.number
    }

    /// Its name. O(1).
    pub fn name(&self) -> &SafeName
        ensures { result.now ≡ self.now.name }
    {
        &self.info.name
    }

    /// The record whose file is put in place. O(1).
    pub fn target(&self) -> &Record
        ensures { result.now ≡ self.now.target }
    {
        &self.info.target
    }

    /// The local record when the pull began, which is the local one still, if there was one. O(1).
    pub fn base(&self) -> Option<&Record>
        ensures { option_copied result ≡ self.now.base }
    {
        self.info.base.as_ref()
    }
}

/// What the begin of a pull came to.
#[derive(Debug)]
pub enum BeginAnswer {
    /// The pull is open.
    Begun(Ticket),
    /// There is no best, the local record is as good, or the best is deleted and there is no local record.
    NotNeeded,
    /// A pull of the name is open already.
    Busy,
    /// The best is live, and neither a file nor a directory.
    Unsupported,
}

/// Why a commit was not entered. Every ticket but a stray one comes back.
#[derive(Debug)]
pub enum EnterFault {
    /// No pull is open with the ticket's number, name and target. The ticket is used up.
    Stray,
    /// The local version is no longer the one over which the pull began.
    LocalMoved(Ticket),
    /// The best of the name no longer has the target's version and content.
    Superseded(Ticket),
    /// No sequence is left, except those that the open commits will take.
    SequenceFull(Ticket),
    /// What the end of the commit needs could not be allocated.
    OutOfMemory(Ticket),
}

/// No pull is open with the commit's number, name and target. The commit is used up, and nothing changed. Displayed, it is
/// its name.
#[derive(Clone, Copy, Debug, PartialEq, Eq, Error)]
pub struct Stray;

impl Stray {
    /// The number under which programs report it: 34. O(1).
    pub fn number(self) -> u8
        ensures { result ≡ stray_number }
    {
        34
    }
}

impl Display for Stray {
    ghost output = { λ _. Some stray_name };

    fn fmt<W: fmt::Write>(&self, f: &mut Formatter<W>) -> fmt::Result {
        f.write_str("Stray")
    }
}
