//! When the versions of a folder's files are removed.
ghost use Rattle.std.specs.Prelude.{◌≡◌};
ghost use Rattle.node_folder.specs.Trash.{emptied, first_turn, kept_since, next_turn, passed, turn_at};

/// How many seconds lie between two times at which old versions are removed: an hour.
const TURN_SECONDS: u64 = 3_600;

/// Seconds of a day.
const DAY_SECONDS: u64 = 86_400;

/// When old versions are removed next, in seconds from now.
#[derive(Clone, Copy, Debug)]
pub struct TrashSchedule {
    // For how many days versions are kept, or 0 where none are.
    days: u64,
    // How many seconds are left until the next turn.
    left: u64,
}

impl TrashSchedule {
    /// A folder whose versions are kept for so many days, or that keeps none for 0. Its first turn is now.
    pub fn new(days: u64) -> TrashSchedule
        ensures { result ≡ record { days = days; left = 0 } }
    {
        TrashSchedule { days, left: 0 }
    }

    /// How many seconds are left until the next turn; there is none where no versions are kept.
    pub fn left(&self) -> Option<u64>
        ensures { result ≡ next_turn self.now }
    {
        if self.days == 0 {
            None
        } else {
            Some(self.left)
        }
    }

    /// So many seconds passed.
    pub fn pass(&mut self, seconds: u64)
        ensures { self.new ≡ passed seconds self.old }
    {
        self.left = self.left.saturating_sub(seconds);
    }

    /// Takes a turn at so many seconds since 1970, if it has come: then versions of moments before those that are returned are removed, and the next turn is in an hour.
    pub fn take_turn(&mut self, now: u64) -> Option<u64>
        ensures before { result ≡ turn_at now self.old }
        ensures next { self.new ≡ emptied self.old }
    {
        match self.left() {
            Some(0) => {
                self.left = TURN_SECONDS;
                Some(kept_since(self.days, now))
            }
            _ => None,
        }
    }
}

/// The sooner of a scan and the removal of old versions, where there is to be one of them. O(1).
pub fn first_turn(scan: Option<u64>, trash: Option<u64>) -> Option<u64>
    ensures { result ≡ first_turn scan trash }
{
    match (scan, trash) {
        (Some(scan), Some(trash)) => Some(scan.min(trash)),
        (Some(scan), None) => Some(scan),
        (None, trash) => trash,
    }
}

// From which second on versions are kept, where they are for so many days and now is this second.
fn kept_since(days: u64, now: u64) -> u64
    ensures { result ≡ kept_since days now }
{
    now.saturating_sub(days.saturating_mul(DAY_SECONDS))
}
