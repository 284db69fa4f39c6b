//! Whether a change would be made now.
ghost use Rattle.std.specs.Prelude.{◌≡◌, ℕ, is_some, option_copied};
ghost use Rattle.folder_core.specs.Steps.{is_accepted, pull_of, step};
ghost use Rattle.folder_core.specs.declared.change.Change.TheVariants.{BeginPull, EnterCommit, ScanFound, ScanGone};

use super::group::entries_of;
use super::own::record_from;
use super::pulls::{best_to_pull, entry_obstacle, has_pull, place_for};
use super::scan::{is_full, is_gone, is_same, scan_obstacle};
use super::{PlainFolder, open_commits};
use crate::{Finding, PullInfo, PullStage};
use sync_names::SafeName;
use sync_version::Version;

impl PlainFolder {
    /// Whether what is found would be recorded. Does not allocate. O(log n + d + k + b) for n records kept, d devices that
    /// announce the name, k open pulls, and b blocks and counters of what is found and of the local record.
    pub(super) fn accepts_found(
        &self,
        name: &SafeName,
        expected: Option<&Version>,
        found: &Finding,
    ) -> bool
        ensures { (moment : ℕ) → result
            ≡ is_accepted (step self.now (ScanFound name.now
            (option_copied expected.entry) found.now moment)).0 }
    {
        let local = record_from(entries_of(self.entries.as_slice(), name), self.me);
        let is_unchanged = is_same(local, &found.content);
        scan_obstacle(
            self.me,
            &self.pulls,
            self.last,
            name,
            local,
            expected,
            is_unchanged,
        )
        .is_none()
    }

    /// Whether it would be recorded that the name is gone. Does not allocate. O(log n + d + k + v) for n records kept, d
    /// devices that announce the name, k open pulls and v counters.
    pub(super) fn accepts_gone(&self, name: &SafeName, expected: Option<&Version>) -> bool
        ensures { (moment : ℕ) → result
            ≡ is_accepted (step self.now (ScanGone name.now
            (option_copied expected.entry) moment)).0 }
    {
        let local = record_from(entries_of(self.entries.as_slice(), name), self.me);
        let is_unchanged = is_gone(local);
        scan_obstacle(
            self.me,
            &self.pulls,
            self.last,
            name,
            local,
            expected,
            is_unchanged,
        )
        .is_none()
    }

    /// Whether a pull of the name would begin. Does not allocate. O(log n + d^2 + k) for n records kept, d devices that
    /// announce the name and k open pulls.
    pub(super) fn accepts_begin(&self, name: &SafeName) -> bool
        ensures { result ≡ is_accepted (step self.now (BeginPull name.now)).0 }
    {
        let announced = entries_of(self.entries.as_slice(), name);
        let local = record_from(announced, self.me);
        best_to_pull(has_pull(&self.pulls, name), announced, local).is_ok()
    }

    /// Whether the ticket's pull would enter its commit. Does not allocate. O(log n + d^2 + k) for n records kept, d devices
    /// that announce the name and k open pulls.
    pub(super) fn accepts_entry(&self, ticket: &PullInfo) -> bool
        ensures { result ≡ is_accepted (step self.now (EnterCommit ticket.now)).0 }
    {
        let Some(place) = place_for(&self.pulls, ticket, PullStage::Pulling) else {
            return false;
        };
        let pull = &self.pulls[place];
        let group = entries_of(self.entries.as_slice(), &ticket.name);
        let local = record_from(group, self.me);
        let is_full = is_full(self.last, open_commits(&self.pulls));
        entry_obstacle(pull, group, local, is_full).is_none()
    }

    /// Whether the pull that is meant is open, at this stage. Does not allocate. O(k) for k open pulls.
    pub(super) fn has_open(&self, info: &PullInfo, stage: PullStage) -> bool
        ensures { result ≡ is_some (pull_of self.now info.now stage) }
    {
        place_for(&self.pulls, info, stage).is_some()
    }
}
