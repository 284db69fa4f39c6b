//! A folder of a node, and by what a worker reads and changes it.
ghost use Rattle.std.specs.Prelude.{◌≡◌};

use crate::notes::Notes;
use crate::presence::Presence;
use crate::scan_times::ScanTimes;
use crate::skips::Skips;
use bep_messages::Text;
use folder_look::Looking;
use node_files::{Marked, Whereabouts};
use std::alloc::Global;
use std::sync::Wait;
use sync_pull::MaxConflicts;

/// How a folder is kept.
#[derive(Drop)]
pub struct FolderSettings {
    /// Its id, which is another one than those of the other folders.
    pub id: Text,
    /// Where it is on the disk.
    pub path: Text,
    /// The number of this device's index of it, not 0.
    pub index_id: u64,
    /// How many entries its history takes.
    pub history_limit: u64,
    /// How many conflict copies are kept of a name.
    pub max_conflicts: MaxConflicts,
    /// How many seconds lie between two scans by the clock, or 0 for none.
    pub rescan: u64,
    /// How often it is looked at for what changed.
    pub looking: Looking,
    /// For how many days versions are kept of files that are replaced or removed, or 0 for none.
    pub trash_days: u64,
}

/// A folder of a node, but for its records and its files.
#[derive(Drop)]
pub struct NodeFolder {
    /// How it is kept.
    pub settings: FolderSettings,
    /// When its scans begin.
    pub times: ScanTimes,
    /// What its scans leave out.
    pub skips: Skips,
    /// What its scans and pulls tell who looks at it.
    pub notes: Notes,
    /// Whether it is there, as it was told last.
    pub presence: Presence,
    /// Whether pulls of the last run may have put something in place that wasn't looked at yet, since the folder was away.
    pub is_unsettled: bool,
}

impl NodeFolder {
    /// One that was not scanned yet, and waits where none of its names is there: if it `is_doubted` even of one, else of ten or more. Does not allocate.
    pub fn new(
        alloc: Global,
        settings: FolderSettings,
        is_unsettled: bool,
        is_doubted: bool,
    ) -> NodeFolder
        ensures { result.settings ≡ settings }
    {
        NodeFolder {
            settings,
            times: ScanTimes::new(),
            skips: Skips::new(alloc),
            notes: Notes::new(alloc),
            presence: Presence::new(is_doubted),
            is_unsettled,
        }
    }

    /// Its id.
    pub fn id(&self) -> &str
        ensures { result.now ≡ self.now.settings.id }
    {
        self.settings.id.as_str()
    }
}

/// By what one worker reads and changes a folder.
#[derive(Drop)]
pub struct FolderWorker<'x, S, W> {
    /// The folder.
    pub folder: &'x NodeFolder,
    /// Its files, as the worker reads and writes them.
    pub store: S,
    /// Its records, as the worker reads and changes them.
    pub calls: W,
}

impl<S: Marked, W> FolderWorker<'_, S, W> {
    /// Where the folder is now. One that is to be looked at first, or of whose names nobody knows yet whether they are there, is neither scanned nor pulled.
    pub fn look<R: Wait>(&mut self, rt: &R) -> Whereabouts {
        match self.store.look() {
            Whereabouts::There if self.folder.is_unsettled => Whereabouts::Unsettled,
            Whereabouts::There if !self.folder.presence.is_checked(rt) => Whereabouts::Held,
            at => at,
        }
    }
}
