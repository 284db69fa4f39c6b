//! When a name that changed is scanned: once it is quiet, or has changed for long.
ghost use Rattle.std.specs.Prelude.{◌≡◌, ◌≢◌, ◌↔◌, ◌≤◌, ◌<◌, ◌+◌, IsTrue};
ghost use Rattle.folder_look.specs.Unrests.{LONGEST};
ghost use Rattle.folder_look.specs.declared.unrest.Step.TheVariants.{Quiet, Long, Waits};

use crate::facts::Facts;

/// After how many milliseconds of change a name is scanned all the same.
const LONGEST: u64 = 30_000;

/// A name that changed, and was not scanned since.
#[derive(Clone, Copy, Debug)]
pub struct Unrest {
    /// What was at the name when it was looked at last, if anything was.
    pub seen: Option<Facts>,
    /// Since when it changes, in milliseconds since an arbitrary start.
    pub since: u64,
}

/// What becomes of it.
#[derive(Clone, Copy, Debug)]
pub enum Step {
    /// It is what it was: it is scanned.
    Quiet,
    /// It has changed for 30 seconds: it is scanned, and looked at again.
    Long,
    /// It changed once more: it is looked at again.
    Waits,
}

impl Unrest {
    /// What becomes of the name, of which that is there now, at this time in milliseconds since the same start. O(1).
    pub fn step(&self, now: Option<Facts>, at: u64) -> Step
        ensures quiet { (result ≡ Quiet) ↔ (now ≡ self.now.seen) }
        ensures long { (result ≡ Long) ↔ ((now ≢ self.now.seen) × (self.now.since + LONGEST ≤ at)) }
        ensures waits { (result ≡ Waits) ↔ ((now ≢ self.now.seen) × (at < self.now.since + LONGEST)) }
    {
        if is_same(self.seen, now) {
            Step::Quiet
        } else if at.saturating_sub(self.since) >= LONGEST {
            Step::Long
        } else {
            Step::Waits
        }
    }
}

/// Whether the same is there, or nothing both times.
fn is_same(before: Option<Facts>, now: Option<Facts>) -> bool
    ensures { IsTrue result ↔ (now ≡ before) }
{
    match (before, now) {
        (None, None) => true,
        (Some(before), Some(now)) => now.is(before),
        _ => false,
    }
}
