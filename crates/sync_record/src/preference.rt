//! Which of two devices' records of a name wins a conflict: live before deleted, then the later time, and so on.
ghost use Rattle.std.specs.Prelude.{◌≡◌};
ghost use Rattle.sync_record.specs.Preference.{is_preferred, preference};

use crate::{DeviceId, Record};
use std::cmp::Ordering;

/// Whether the first of two devices' records of a name is preferred to the second. The first difference decides: live
/// before deleted; the later time; the smaller `modified_by`; the greater list of counters, compared pair by pair, a
/// proper beginning being smaller; the smaller device. Does not allocate. O(n) for n counters.
pub fn preferred(a: (&Record, &DeviceId), b: (&Record, &DeviceId)) -> bool
    ensures { result ≡ is_preferred (a.entry.1.now, a.entry.0.now) (b.entry.1.now, b.entry.0.now) }
{
    preference(a, b).is_gt()
}

fn preference(a: (&Record, &DeviceId), b: (&Record, &DeviceId)) -> Ordering
    ensures { result ≡ preference (a.entry.1.now, a.entry.0.now) (b.entry.1.now, b.entry.0.now) }
{
    let ((ours, device), (theirs, other)) = (a, b);
    let by_device = other.cmp(device);
    let by_counters = ours.version().counters().cmp(theirs.version().counters());
    let by_author = theirs.modified_by().cmp(&ours.modified_by());
    let by_time = ours.modified().cmp(&theirs.modified());
    let by_life = (!ours.is_deleted()).cmp(&!theirs.is_deleted());
    by_life.then(by_time.then(by_author.then(by_counters.then(by_device))))
}
