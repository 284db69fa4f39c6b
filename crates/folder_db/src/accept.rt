//! Whether a change would be made now.
ghost use Rattle.std.specs.Prelude.{◌≡◌, ℕ, is_some, option_copied};
ghost use Rattle.folder_core.specs.Steps.{is_accepted, pull_of, step};
ghost use Rattle.folder_core.specs.declared.change.Change.TheVariants.{BeginPull, EnterCommit, ScanFound, ScanGone};

use crate::IndexedFolder;
use folder_core::plain::open_commits;
use folder_core::plain::own::record_from;
use folder_core::plain::pulls::{best_to_pull, entry_obstacle, has_pull, place_for};
use folder_core::plain::scan::{is_full, is_gone, is_same, scan_obstacle};
use folder_core::{Finding, PullInfo, PullStage};
use sync_names::SafeName;
use sync_version::Version;

impl IndexedFolder {
    /// Whether what is found would be recorded. Does not allocate. O(log n + d + k + b) for n names, d devices that announce the
    /// name, k open pulls, and b blocks and counters of what is found and of the local record.
    pub(crate) fn accepts_found(
        &self,
        name: &SafeName,
        expected: Option<&Version>,
        found: &Finding,
    ) -> bool
        ensures { (moment : ℕ) → result
            ≡ is_accepted (step self.now.folder (ScanFound name.now
            (option_copied expected.entry) found.now moment)).0 }
    {
        let me = self.index.me();
        let local = self.index.get(me, name);
        let is_unchanged = is_same(local, &found.content);
        scan_obstacle(
            me,
            &self.pulls,
            self.last,
            name,
            local,
            expected,
            is_unchanged,
        )
        .is_none()
    }

    /// Whether it would be recorded that the name is gone. Does not allocate. O(log n + d + k + v) for n names, d devices that
    /// announce the name, k open pulls and v counters.
    pub(crate) fn accepts_gone(&self, name: &SafeName, expected: Option<&Version>) -> bool
        ensures { (moment : ℕ) → result
            ≡ is_accepted (step self.now.folder (ScanGone name.now
            (option_copied expected.entry) moment)).0 }
    {
        let me = self.index.me();
        let local = self.index.get(me, name);
        let is_unchanged = is_gone(local);
        scan_obstacle(
            me,
            &self.pulls,
            self.last,
            name,
            local,
            expected,
            is_unchanged,
        )
        .is_none()
    }

    /// Whether a pull of the name would begin. Does not allocate. O(log n + d^2 + k) for n names, d devices that announce the
    /// name and k open pulls.
    pub(crate) fn accepts_begin(&self, name: &SafeName) -> bool
        ensures { result ≡ is_accepted (step self.now.folder (BeginPull name.now)).0 }
    {
        let announced = self.index.announcements_of(name);
        let local = record_from(announced, self.index.me());
        best_to_pull(has_pull(&self.pulls, name), announced, local).is_ok()
    }

    /// Whether the ticket's pull would enter its commit. Does not allocate. O(log n + d^2 + k) for n names, d devices that
    /// announce the name and k open pulls.
    pub(crate) fn accepts_entry(&self, ticket: &PullInfo) -> bool
        ensures { result ≡ is_accepted (step self.now.folder (EnterCommit ticket.now)).0 }
    {
        let Some(place) = place_for(&self.pulls, ticket, PullStage::Pulling) else {
            return false;
        };
        let pull = &self.pulls[place];
        let group = self.index.announcements_of(&ticket.name);
        let local = record_from(group, self.index.me());
        let is_full = is_full(self.last, open_commits(&self.pulls));
        entry_obstacle(pull, group, local, is_full).is_none()
    }

    /// Whether the pull that is meant is open, at this stage. Does not allocate. O(k) for k open pulls.
    pub(crate) fn has_open(&self, info: &PullInfo, stage: PullStage) -> bool
        ensures { result ≡ is_some (pull_of self.now.folder info.now stage) }
    {
        place_for(&self.pulls, info, stage).is_some()
    }
}
