//! When a folder is scanned next, and how many seconds lie between two scans.
ghost use Rattle.std.specs.Prelude.{◌≡◌, ◌↔◌, IsTrue};
ghost use Rattle.node_folder.specs.Schedules.{by_clock, counted, first_of, later, next_retry, next_scan, outcome_of, settled, spread, unscanned};

use sync_scan::ScanSum;

/// After how many seconds a folder is scanned again of which a scan stopped before its end. Each time that this is so once more they are twice as many, up to
/// an hour.
const SOON_SECONDS: u64 = 10;

/// After how many seconds a folder is looked for again that isn't there.
const AWAY_SECONDS: u64 = 10;

/// After how many seconds it is tried again to scan a folder of which nobody saw yet what stands in it.
const UNSEEN_SECONDS: u64 = 1;

/// From how many seconds between two scans on they lie apart by other times in each folder: an hour.
const SPREAD_SECONDS: u64 = 3_600;

/// The most seconds until such a scan.
const MAX_SOON_SECONDS: u64 = 3_600;

/// What a scan of a folder came to.
#[derive(Clone, Copy, Debug, PartialEq, Eq)]
pub enum ScanOutcome {
    /// It came to its end.
    Whole,
    /// It stopped before its end, or passed over names in a directory that can't be read.
    Partly,
    /// The folder isn't there, or waits.
    Away,
    /// It is there, and nobody looked at it yet.
    Unseen,
}

/// What a scan of all names of a folder came to.
#[derive(Clone, Copy, Debug)]
pub struct FolderScan {
    /// Its counts.
    pub sum: ScanSum,
    /// How many names it looked at. It counts those too that it passed over, since they are in a directory that can't be read.
    pub seen: u64,
}

impl FolderScan {
    /// Whether it came to its end, and looked at each name that it counts. O(1).
    pub fn outcome(&self) -> ScanOutcome
        ensures { result ≡ outcome_of self.now }
    {
        if self.sum.stopped.is_some() || self.seen < self.counted() {
            ScanOutcome::Partly
        } else {
            ScanOutcome::Whole
        }
    }

    // How many names it counts.
    fn counted(&self) -> u64
        ensures { result ≡ counted self.now.sum }
    {
        let ScanSum {
            recorded,
            unchanged,
            other,
            ..
        } = self.sum;
        recorded.saturating_add(unchanged).saturating_add(other)
    }
}

/// When a folder is scanned next, in seconds from now.
#[derive(Clone, Copy, Debug)]
pub struct ScanSchedule {
    // How many lie between two scans, or 0 for none by the clock.
    rescan: u64,
    // How many are left until the next scan, if there is to be one.
    left: Option<u64>,
    // How many were waited before the last scan that was to try again.
    retry: u64,
}

impl ScanSchedule {
    /// A folder that was not scanned yet, and is to be scanned again after so many seconds each time, or never for 0. It is due now.
    pub fn new(rescan: u64) -> ScanSchedule
        ensures { result ≡ unscanned rescan }
    {
        ScanSchedule {
            rescan,
            left: Some(0),
            retry: 0,
        }
    }

    /// Whether it is to be scanned now.
    pub fn is_due(&self) -> bool
        ensures { IsTrue result ↔ (next_scan self.now ≡ Some 0) }
    {
        match self.left {
            Some(left) => left == 0,
            None => false,
        }
    }

    /// How many seconds are left until the next scan, if there is to be one.
    pub fn left(&self) -> Option<u64>
        ensures { result ≡ next_scan self.now }
    {
        self.left
    }

    /// So many seconds passed.
    pub fn pass(&mut self, seconds: u64)
        ensures { self.new ≡ later seconds self.old }
    {
        self.left = match self.left {
            Some(left) => Some(left.saturating_sub(seconds)),
            None => None,
        };
    }

    /// It was scanned, and that came to this. The next scan comes by the clock after a whole scan; after one that stopped, by the clock or after 10 seconds,
    /// then 20, 40 and so on, an hour at most, whichever comes first; where the folder is away, after 10 seconds; and where nobody looked at it yet, after one.
    pub fn settle(&mut self, outcome: ScanOutcome)
        ensures { self.new ≡ settled outcome self.old }
    {
        match outcome {
            ScanOutcome::Whole => {
                self.left = by_clock(self.rescan);
                self.retry = 0;
            }
            ScanOutcome::Partly => {
                self.retry = next_retry(self.retry);
                self.left = Some(first_of(by_clock(self.rescan), self.retry));
            }
            ScanOutcome::Away => self.left = Some(AWAY_SECONDS),
            ScanOutcome::Unseen => self.left = Some(UNSEEN_SECONDS),
        }
    }
}

/// How many seconds lie between two scans of one of many folders, each of which has a number of its own, where this is how many should: from three quarters
/// to five quarters as many, so that not all are scanned at once; just as many below an hour. O(1).
pub fn spread(rescan: u64, number: u64) -> u64
    ensures { result ≡ spread rescan number }
{
    if rescan < SPREAD_SECONDS {
        return rescan;
    }
    let quarter = rescan / 4;
    (rescan - quarter).saturating_add(number % (2 * quarter + 1))
}

// When the next scan by the clock is.
fn by_clock(rescan: u64) -> Option<u64>
    ensures { result ≡ by_clock rescan }
{
    if rescan == 0 { None } else { Some(rescan) }
}

// After how many seconds it is scanned once more, where these were the last time, or 0 for none.
fn next_retry(retry: u64) -> u64
    ensures { result ≡ next_retry retry }
{
    if retry == 0 {
        SOON_SECONDS
    } else {
        retry.saturating_mul(2).min(MAX_SOON_SECONDS)
    }
}

// The sooner of a scan by the clock, if there is one, and one that tries again.
fn first_of(clock: Option<u64>, retry: u64) -> u64
    ensures { result ≡ first_of clock retry }
{
    match clock {
        Some(clock) => clock.min(retry),
        None => retry,
    }
}
