//! The moments of scans: no two of a folder in one second.
use node_context::{Context, moment};
use std::sync::{Mutex, Wait};
use std::time::{Clock, Duration};
use sync_version::Moment;

/// How often a scan looks at the clock for a second that is not the last scan's: for a little more than a second.
const LOOKS: u32 = 12;

/// How many milliseconds lie between two such looks.
const BETWEEN_LOOKS: u64 = 100;

/// When the last scan of a folder began.
///
/// A change raises the counter of its version to the moment of the scan, or by one where it is that already. So what is recorded of one name by two
/// scans in one second would get ahead of the clock; and where a node ends badly and forgets it, it would give the same version to something else.
#[derive(Drop)]
pub struct ScanTimes {
    // In seconds since 1970.
    last: Mutex<u64>,
}

impl ScanTimes {
    /// No scan began yet.
    pub fn new() -> ScanTimes {
        ScanTimes {
            last: Mutex::new(0),
        }
    }

    /// The moment of a scan that begins now, which is not that of the last one: it waits for the next second if need be, unless the node stops or
    /// the clock stands still.
    pub fn next<R: Clock + Wait, G>(&self, cx: &Context<R, G>) -> Moment {
        for _ in 0..LOOKS {
            if let Some(moment) = self.begin(cx.rt) {
                return moment;
            }
            if cx.pause_for(Duration::from_millis(BETWEEN_LOOKS)) {
                break;
            }
        }
        moment(cx.rt)
    }

    /// The moment of the scan of a name that no scan has recorded yet. It does not wait, and the next scan has a later one.
    pub fn of_new<R: Clock + Wait>(&self, rt: &R) -> Moment {
        let mut last = self.last.lock(rt);
        let now = moment(rt);
        *last = now.seconds();
        now
    }

    // The moment of the clock, unless the last scan began at it.
    fn begin<R: Clock + Wait>(&self, rt: &R) -> Option<Moment> {
        let mut last = self.last.lock(rt);
        let now = moment(rt);
        if now.seconds() == *last {
            return None;
        }
        *last = now.seconds();
        Some(now)
    }
}
