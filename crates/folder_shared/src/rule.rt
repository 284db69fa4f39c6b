//! The rule of the lock, and what is learned of its steps.
use crate::known::Known;
use crossbeam_channel::protocol::{Join, Lesson, Outcome, Protocol, Split};
use folder_calls::RecordedFolder;
use folder_core::FolderCore;

pub struct OneHistory;

impl<C: FolderCore + Drop> Protocol<RecordedFolder<C>, Known> for OneHistory {
    ghost use Rattle.folder_shared.specs.Rule.{RuleHolds, newcomer};

    ghost holds = { RuleHolds };

    ghost first = { newcomer };
}

/// The first put.
pub struct Opens;

impl<C: FolderCore + Drop> Outcome<RecordedFolder<C>, Known> for Opens {
    ghost use Rattle.folder_shared.specs.Rule.{Opened};

    ghost then = { Opened };
}

impl<C: FolderCore + Drop> Lesson<RecordedFolder<C>, Known> for Opens {
    ghost fact = { λ v items. Unit {0} };
}

/// A take.
pub struct Takes;

impl<C: FolderCore + Drop> Outcome<RecordedFolder<C>, Known> for Takes {
    ghost use Rattle.folder_shared.specs.Rule.{Taken};

    ghost then = { Taken };
}

impl<C: FolderCore + Drop> Lesson<RecordedFolder<C>, Known> for Takes {
    ghost fact = { λ v items. Unit {0} };
}

/// A put.
pub struct Puts;

impl<C: FolderCore + Drop> Outcome<RecordedFolder<C>, Known> for Puts {
    ghost use Rattle.folder_shared.specs.Rule.{PutBack};

    ghost then = { PutBack };
}

impl<C: FolderCore + Drop> Lesson<RecordedFolder<C>, Known> for Puts {
    ghost fact = { λ v items. Unit {0} };
}

/// A put that numbers a pass.
pub struct Numbers;

impl<C: FolderCore + Drop> Outcome<RecordedFolder<C>, Known> for Numbers {
    ghost use Rattle.folder_shared.specs.Rule.{Numbered};

    ghost then = { Numbered };
}

impl<C: FolderCore + Drop> Lesson<RecordedFolder<C>, Known> for Numbers {
    ghost fact = { λ v items. Unit {0} };
}

/// A pass that has made no call.
pub struct Blank;

impl Split<Known> for Blank {
    ghost use Rattle.folder_shared.specs.Rule.{blank_of};

    ghost left = { λ v. v };

    ghost right = { blank_of };
}

/// Two passes put together.
pub struct Both;

impl Join<Known> for Both {
    ghost use Rattle.folder_shared.specs.Rule.{joined, spent};

    ghost both = { joined };

    ghost spent = { spent };
}

/// Two passes that were put together: what they have seen begins one history.
pub struct Compares;

impl<C: FolderCore + Drop> Lesson<RecordedFolder<C>, Known> for Compares {
    ghost use Rattle.folder_shared.specs.Rule.{Agree};

    ghost fact = { Agree };
}

/// Two passes cut apart again. Both have then seen the longer of their histories.
pub struct Apart;

impl Split<Known> for Apart {
    ghost use Rattle.folder_shared.specs.Rule.{left_of, right_of};

    ghost left = { left_of };

    ghost right = { right_of };
}
