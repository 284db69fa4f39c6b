//! The counters of two version vectors side by side, in rising id of the devices.
ghost use Rattle.std.specs.Prelude.{◌≡◌};
ghost use Rattle.std.specs.Iterator.{YieldsFirst, item_count};
ghost use Rattle.sync_version.specs.Versions.{IsCanonical};

/// The counters of two versions at one id, 0 if a version has none.
#[derive(Clone, Copy)]
pub struct Step {
    pub id: u64,
    pub ours: u64,
    pub theirs: u64,
}

/// A walk over two lists of counters side by side, in rising id. A step takes O(1).
#[derive(Drop)]
pub struct Walk<'a> {
    pub ours: &'a [(u64, u64)],
    pub theirs: &'a [(u64, u64)],
    ghost ours_canonical: { IsCanonical ours.now },
    ghost theirs_canonical: { IsCanonical theirs.now },
}

impl<'a> Iterator for Walk<'a> {
    type Item = Step;

    ghost use Rattle.sync_version.specs.Walks.{side_by_side};

    ghost next_gives = { YieldsFirst (λ w. side_by_side w.ours.now w.theirs.now) };

    ghost remaining = { item_count (λ w. side_by_side w.ours.now w.theirs.now) };

    fn next(&mut self) -> Option<Step> {
        let id = match (self.ours.first(), self.theirs.first()) {
            (None, None) => return None,
            (Some(ours), None) => ours.0,
            (None, Some(theirs)) => theirs.0,
            (Some(ours), Some(theirs)) => ours.0.min(theirs.0),
        };
        let (ours, rest_of_ours) = Walk::split_at_id(self.ours, id);
        let (theirs, rest_of_theirs) = Walk::split_at_id(self.theirs, id);
        self.ours = rest_of_ours;
        self.theirs = rest_of_theirs;
        Some(Step { id, ours, theirs })
    }
}

impl<'a> Walk<'a> {
    ghost use Rattle.sync_version.specs.Walks.{past, first_at};

    // The first counter's value, if it is at this id, and the counters after it; else 0 and all counters.
    fn split_at_id(counters: &'a [(u64, u64)], id: u64) -> (u64, &'a [(u64, u64)])
        ensures value { result.0 ≡ first_at id counters.now }
        ensures rest { result.1.now ≡ past id counters.now }
    {
        match counters {
            [first, rest @ ..] if first.0 == id => (first.1, rest),
            _ => (0, counters),
        }
    }
}
