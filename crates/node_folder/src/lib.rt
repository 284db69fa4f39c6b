//! A folder of a node: by what a worker reads and changes it, when it is scanned, and what scans leave out.
#![tactic(auto)]

mod ends;
mod folder;
mod left_over;
mod notes;
mod presence;
mod scan_times;
mod scanner;
mod schedule;
mod skips;
mod trash;

pub use ends::{GivesUp, WorkerEnds};
pub use folder::{FolderSettings, FolderWorker, NodeFolder};
pub use left_over::{is_left_over, is_recorded};
pub use notes::{Notes, Noticed};
pub use presence::{Presence, is_there, look_at_folder, release};
pub use scan_times::ScanTimes;
pub use scanner::{ScannedFolder, run_scanner, scan_due, scan_folder};
pub use schedule::{FolderScan, ScanOutcome, ScanSchedule, spread};
pub use skips::{LeftOut, Skips};
pub use trash::{TrashSchedule, first_turn};
