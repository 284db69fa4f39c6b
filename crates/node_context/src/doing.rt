//! What a folder is doing, by what was told of it last.
ghost use Rattle.std.specs.Prelude.{◌≡◌};
ghost use Rattle.node_context.specs.Doing.{after_pull, after_scan, idle, rate_of, round_at};

use crate::event::{PullEvent, ScanEvent};
use node_status::Progress;

/// Where a folder was found last.
#[derive(Clone, Copy, Debug, PartialEq, Eq)]
pub enum Standing {
    /// It is there.
    There,
    /// It isn't, or has no marker.
    Away,
    /// Another run has it.
    InUse,
    /// It is there, and none of its names is.
    Held,
}

/// A round of pulls that goes on.
#[derive(Clone, Copy, Debug, PartialEq, Eq)]
pub struct Round {
    /// When it began, in seconds since 1970.
    pub begun: u64,
    /// How many bytes had come by then.
    pub came: u64,
}

/// What a folder is doing.
#[derive(Clone, Copy, Debug, PartialEq, Eq)]
pub struct Doing {
    /// Where it was found last.
    pub standing: Standing,
    /// How far a scan of all names is, while one goes on.
    pub scan: Option<Progress>,
    /// When the last one came to its end, in seconds since 1970.
    pub scanned: Option<u64>,
    /// When it was last looked at for what changed, in seconds since 1970.
    pub looked: Option<u64>,
    /// The round of pulls that goes on.
    pub round: Option<Round>,
    /// How many names are needed, as it was told last.
    pub needed: u64,
    /// How many names were pulled since nothing was needed.
    pub pulled: u64,
    /// How many bytes of files peers gave since then.
    pub came: u64,
    /// Whether a pull had no room on the disk, and none was done since.
    pub has_no_room: bool,
}

impl Doing {
    /// Nothing was told of it yet.
    pub fn idle() -> Doing
        ensures { result ≡ idle }
    {
        Doing {
            standing: Standing::There,
            scan: None,
            scanned: None,
            looked: None,
            round: None,
            needed: 0,
            pulled: 0,
            came: 0,
            has_no_room: false,
        }
    }

    /// How many bytes came in a second, on average, in the round of pulls that goes on.
    pub fn rate(&self, now: u64) -> u64
        ensures { result ≡ rate_of now self.now }
    {
        match self.round {
            Some(round) => {
                let seconds = now.saturating_sub(round.begun).max(1);
                self.came.saturating_sub(round.came) / seconds
            }
            None => 0,
        }
    }

    /// What it is doing after this happened to its files, in this second since 1970.
    pub fn after_scan(self, event: &ScanEvent, now: u64) -> Doing
        ensures { result ≡ after_scan event.now now self }
    {
        let mut next = self;
        match event {
            ScanEvent::At(at, of, _) => next.scan = Some(Progress { at: *at, of: *of }),
            ScanEvent::Over(is_whole) => {
                next.scan = None;
                if *is_whole {
                    next.scanned = Some(now);
                }
            }
            ScanEvent::Looked => next.looked = Some(now),
            ScanEvent::Away(_) => next.standing = Standing::Away,
            ScanEvent::InUse => next.standing = Standing::InUse,
            ScanEvent::Back => next.standing = Standing::There,
            ScanEvent::Held(_, _) => next.standing = Standing::Held,
            ScanEvent::Keeping(_, _)
            | ScanEvent::Recorded(_)
            | ScanEvent::Scanned(_)
            | ScanEvent::Ended(_)
            | ScanEvent::Skipped(_, _)
            | ScanEvent::Emptied(_, _) => {}
        }
        next
    }

    // The round that begins in this second.
    fn round_at(&self, now: u64) -> Round
        ensures { result ≡ round_at now self.now }
    {
        Round {
            begun: now,
            came: self.came,
        }
    }

    /// What it is doing after this happened to what other devices have of it, in this second since 1970.
    pub fn after_pull(self, event: &PullEvent, now: u64) -> Doing
        ensures { result ≡ after_pull event.now now self }
    {
        let mut next = self;
        match event {
            PullEvent::Begun(needed) => {
                next.round = Some(self.round_at(now));
                next.needed = *needed;
            }
            PullEvent::Over(needed) => {
                next.round = None;
                next.needed = *needed;
                if *needed == 0 {
                    next.pulled = 0;
                    next.came = 0;
                    next.has_no_room = false;
                }
            }
            PullEvent::Pulled(_, _) => {
                next.pulled = self.pulled.saturating_add(1);
                next.has_no_room = false;
            }
            PullEvent::At(needed) => next.needed = *needed,
            PullEvent::Came(bytes) => next.came = self.came.saturating_add(*bytes),
            PullEvent::NoRoom => next.has_no_room = true,
            PullEvent::Received(_, _)
            | PullEvent::Kept(_)
            | PullEvent::Failed(_, _, _)
            | PullEvent::Refused(_, _)
            | PullEvent::Unsupported(_)
            | PullEvent::HistoryFull => {}
        }
        next
    }
}
