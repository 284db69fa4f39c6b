//! The changes of a folder: what a scan found, a peer's Index or IndexUpdate, a device forgotten, the steps of a pull.
ghost use Rattle.std.specs.Prelude.{◌≡◌, ◌↔◌, [], IfOk, IsOk, IsTrue};
ghost use Rattle.sync_record.specs.Devices.{Identity};
ghost use Rattle.folder_core.specs.Steps.{MayChange};
ghost use Rattle.folder_core.specs.declared.change.Change.TheVariants.{Forget, IndexFull, IndexMore};

use crate::copies::copied_version;
use crate::{Finding, PullInfo};
use bep_messages::{Copied, Items};
use std::alloc::AllocError;
use sync_names::SafeName;
use sync_record::laws::same_record_is_equality;
use sync_record::{Assembled, DeviceId, Record};
use sync_version::{Moment, Version};

/// A change that is asked of a folder.
#[derive(Debug, PartialEq, Eq, Drop)]
pub enum Change {
    /// This is found at the name, where the version was the local one when the scan began.
    ScanFound {
        name: SafeName,
        expected: Option<Version>,
        found: Finding,
        moment: Moment,
    },
    /// Nothing is at the name, where the version was the local one when the scan began.
    ScanGone {
        name: SafeName,
        expected: Option<Version>,
        moment: Moment,
    },
    /// The device announces these records, and no others.
    IndexFull {
        device: DeviceId,
        records: Items<Record>,
    },
    /// The device announces these records too.
    IndexMore {
        device: DeviceId,
        records: Items<Record>,
    },
    /// The device announces nothing.
    Forget {
        device: DeviceId,
    },
    /// A pull of the name begins.
    BeginPull {
        name: SafeName,
    },
    /// The ticket's pull enters its commit.
    EnterCommit {
        ticket: PullInfo,
    },
    /// The commit's pull ends, and this is what was put in place.
    Finish {
        commit: PullInfo,
        assembled: Assembled,
    },
    /// The ticket's pull ends, with nothing put in place.
    GiveUp {
        ticket: PullInfo,
    },
    /// The commit's pull ends, with nothing put in place.
    Abort {
        commit: PullInfo,
    },
}

impl Change {
    /// Whether a caller of this device's folder may ask for it: an index is of another device, what is found passes
    /// [`FoundContent::is_recordable`](crate::FoundContent::is_recordable), and what was put in place is the commit's target. Does not
    /// allocate. O(n) for n blocks.
    pub fn is_allowed(&self, me: DeviceId) -> bool
        ensures { IsTrue result ↔ MayChange me self.now }
    {
        match self {
            Change::IndexFull { device, .. }
            | Change::IndexMore { device, .. }
            | Change::Forget { device } => *device != me,
            Change::ScanFound { found, .. } => found.content.is_recordable(),
            Change::Finish { commit, assembled } => {
                same_record_is_equality();
                *assembled.target() == commit.target
            }
            Change::ScanGone { .. }
            | Change::BeginPull { .. }
            | Change::EnterCommit { .. }
            | Change::GiveUp { .. }
            | Change::Abort { .. } => true,
        }
    }

    /// The same change once more. Returns `Err` only if out of memory, and never for `Forget` or an index without records.
    /// O(n) time and memory for n bytes of the name, counters, blocks and records; the records share their memory.
    pub fn copy(&self) -> Result<Change, AllocError>
        ensures same { IfOk result (λ change. change ≡ self.now) }
        ensures forget { (d : Identity) → self.now ≡ Forget d → IsOk result }
        ensures no_records_full { (d : Identity) → self.now ≡ IndexFull d [] → IsOk result }
        ensures no_records_more { (d : Identity) → self.now ≡ IndexMore d [] → IsOk result }
    {
        Ok(match self {
            Change::ScanFound {
                name,
                expected,
                found,
                moment,
            } => Change::ScanFound {
                name: name.copy()?,
                expected: copied_version(expected.as_ref())?,
                found: found.copy()?,
                moment: *moment,
            },
            Change::ScanGone {
                name,
                expected,
                moment,
            } => Change::ScanGone {
                name: name.copy()?,
                expected: copied_version(expected.as_ref())?,
                moment: *moment,
            },
            Change::IndexFull { device, records } => Change::IndexFull {
                device: *device,
                records: records.copy()?,
            },
            Change::IndexMore { device, records } => Change::IndexMore {
                device: *device,
                records: records.copy()?,
            },
            Change::Forget { device } => Change::Forget { device: *device },
            Change::BeginPull { name } => Change::BeginPull { name: name.copy()? },
            Change::EnterCommit { ticket } => Change::EnterCommit {
                ticket: ticket.copy()?,
            },
            Change::Finish { commit, assembled } => Change::Finish {
                commit: commit.copy()?,
                assembled: assembled.copy()?,
            },
            Change::GiveUp { ticket } => Change::GiveUp {
                ticket: ticket.copy()?,
            },
            Change::Abort { commit } => Change::Abort {
                commit: commit.copy()?,
            },
        })
    }
}
