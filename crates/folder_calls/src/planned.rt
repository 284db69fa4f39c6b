//! Changes of another caller, which tests plan between the calls of a [`Lone`]. A program plans none.
ghost use Rattle.std.specs.Prelude.{◌≡◌, ◌≤◌, Option, true};
ghost use Rattle.folder_core.specs.Steps.{MayChange};
ghost use Rattle.folder_core.specs.declared.answer.Answer.{Answer as AnswerOf};
ghost use Rattle.folder_calls.specs.LoneStates.{PlanGoesOn, change_of, seen_by};
ghost use Rattle.folder_calls.specs.RecordedFolders.{Appends, IsHistory};

use crate::{Lone, RecordedFolder};
use bep_messages::Items;
use folder_core::{Finding, FolderCore};
use sync_names::SafeName;
use sync_record::{DeviceId, Record};
use sync_version::{Moment, Version};

/// A change that another caller is to make.
#[derive(Debug, Drop)]
pub struct Plan {
    /// Before which call from now on: 1 is the next.
    pub call: u64,
    pub change: Outside,
}

/// A change that another caller makes of the folder.
#[derive(Debug, Drop)]
pub enum Outside {
    /// This is found at the name, where the version was the local one when the scan began.
    ScanFound {
        name: SafeName,
        expected: Option<Version>,
        found: Finding,
        moment: Moment,
    },
    /// Nothing is at the name, where the version was the local one when the scan began.
    ScanGone {
        name: SafeName,
        expected: Option<Version>,
        moment: Moment,
    },
    /// The device announces these records, and no others.
    IndexFull {
        device: DeviceId,
        records: Items<Record>,
    },
    /// The device announces these records too.
    IndexMore {
        device: DeviceId,
        records: Items<Record>,
    },
    /// The device announces nothing.
    Forget {
        device: DeviceId,
    },
}

impl<C: FolderCore> Lone<C> {
    /// Plans the change of another caller for just before a call from now on, where 1 is the next. It takes the place of one
    /// that was planned and not asked for yet. It is appended to the history then if it is accepted, and else nothing is; the
    /// law `planned_changes_are_made_before_their_call` says so.
    pub fn plan(&mut self, call: u64, change: Outside)
        requires call { 1 ≤ call }
        requires may { MayChange self.old.history.opening.me (change_of change) }
        ensures { self.new ≡ record self.old {
          plan = Some (record { call = call; change = change });
          planned = true;
        } }
    {
        self.plan = Some(Plan { call, change });
        self.planned = true;
    }

    // Asks for the planned change if its call is the next one; else it is a call nearer.
    pub(crate) fn go_on(&mut self)
        ensures goes_on { PlanGoesOn self.old.plan self.old self.new }
        ensures seen { seen_by self.new ≡ seen_by self.old }
    {
        match self.plan.take() {
            Some(Plan { call, change }) if call > 1 => {
                self.plan = Some(Plan {
                    call: call - 1,
                    change,
                });
            }
            Some(Plan { call: _, change }) => make_outside(&mut self.recorded, change),
            None => {}
        }
    }
}

// Asks for another caller's change, as one of pass 2: it is appended if it is accepted, and else nothing changes.
fn make_outside<C: FolderCore>(recorded: &mut RecordedFolder<C>, change: Outside)
    requires passes { recorded.old.passes ≡ 2 }
    requires may { MayChange recorded.old.opening.me (change_of change) }
    ensures made { (answer : Option AnswerOf)
        × Appends recorded.old 2 (change_of change) answer recorded.new }
    ensures history { IsHistory recorded.new }
{
    match change {
        Outside::ScanFound {
            name,
            expected,
            found,
            moment,
        } => {
            let _ = recorded.scan_found(2, &name, expected.as_ref(), &found, moment);
        }
        Outside::ScanGone {
            name,
            expected,
            moment,
        } => {
            let _ = recorded.scan_gone(2, &name, expected.as_ref(), moment);
        }
        Outside::IndexFull { device, records } => {
            let _ = recorded.index_full(2, device, records);
        }
        Outside::IndexMore { device, records } => {
            let _ = recorded.index_more(2, device, records);
        }
        Outside::Forget { device } => {
            let _ = recorded.forget(2, device);
        }
    }
}
