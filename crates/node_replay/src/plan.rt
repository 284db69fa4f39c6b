//! A pull of the last run that may have put its target in place: its base version and its target record.
use sync_record::Record;
use sync_version::Version;

/// A pull whose target may have been put in place.
#[derive(Debug, Drop)]
pub struct PullPlan {
    /// The local version over which the pull began; `None` where there was no local record.
    pub base: Option<Version>,
    /// The record whose file was fetched.
    pub target: Record,
}
