//! Which name the next puller takes, which are in hand, who waits for a peer, and which files are too large for the disk.
use crate::patience::Waiting;
use crate::rounds::PULLERS;
use std::alloc::{AllocError, Global};
use std::mem::replace;
use std::sync::{Condvar, Mutex, Wait};
use sync_record::Record;

/// What the pullers of a folder share while they pull names of it side by side.
#[derive(Drop)]
pub(crate) struct Turn {
    shared: Mutex<Shared>,
    // Notified when a name is not in hand any more, and when one of them waits for a peer.
    changes: Condvar,
}

// What stands under the lock.
#[derive(Drop)]
struct Shared {
    // The next name that nobody took.
    next: usize,
    // The places of those that somebody pulls.
    in_hand: Vec<usize>,
    waiting: Waiting,
    // Whether somebody pulls what else is needed while others wait.
    is_led: bool,
    // The size of the smallest file for which there was no room.
    too_large: Option<i64>,
}

impl Turn {
    /// The first name is the next, and there is room. Fails only if out of memory.
    pub(crate) fn first(alloc: Global) -> Result<Turn, AllocError> {
        Ok(Turn {
            shared: Mutex::new(Shared {
                next: 0,
                in_hand: Vec::with_capacity(alloc, PULLERS)?,
                waiting: Waiting::none(),
                is_led: false,
                too_large: None,
            }),
            changes: Condvar::new(),
        })
    }

    /// The first of other names is the next. There is no more room than before.
    pub(crate) fn begin<R: Wait>(&self, rt: &R) {
        let mut shared = self.shared.lock(rt);
        shared.next = 0;
        shared.is_led = false;
    }

    /// Takes the place of the next of so many names, if there is one.
    pub(crate) fn take<R: Wait>(&self, rt: &R, count: usize) -> Option<usize> {
        let mut shared = self.shared.lock(rt);
        let place = shared.next;
        if place >= count || shared.in_hand.push(place).is_err() {
            return None;
        }
        shared.next = place.saturating_add(1);
        Some(place)
    }

    /// The name at a place is not in hand any more.
    pub(crate) fn put_back<R: Wait>(&self, rt: &R, place: usize) {
        let mut shared = self.shared.lock(rt);
        shared.in_hand.retain(|other| *other != place);
        drop(shared);
        self.changes.notify_all();
    }

    /// The places of the names that are in hand. Fails only if out of memory.
    pub(crate) fn in_hand<R: Wait>(&self, rt: &R, alloc: Global) -> Result<Vec<usize>, AllocError> {
        let mut places = Vec::new(alloc);
        places.extend_from_slice(self.shared.lock(rt).in_hand.as_slice())?;
        Ok(places)
    }

    /// Whether the caller is the one who pulls what else is needed while others wait: whoever asks first is.
    pub(crate) fn leads<R: Wait>(&self, rt: &R) -> bool {
        !replace(&mut self.shared.lock(rt).is_led, true)
    }

    /// Waits until somebody waits for a peer, or no name is in hand any more. Returns whether somebody does.
    pub(crate) fn is_waited<R: Wait>(&self, rt: &R) -> bool {
        let shared = self.shared.lock(rt);
        let shared = self.changes.wait_while(rt, shared, |shared| {
            !shared.waiting.is_any() && !shared.in_hand.is_empty()
        });
        shared.waiting.is_any()
    }

    /// The caller waits for a peer from now on, if it may. Returns whether it does.
    pub(crate) fn begin_wait<R: Wait>(&self, rt: &R) -> bool {
        let does = self.shared.lock(rt).waiting.begin();
        self.changes.notify_all();
        does
    }

    /// It waits no more.
    pub(crate) fn end_wait<R: Wait>(&self, rt: &R) {
        self.shared.lock(rt).waiting.end();
    }

    /// The disk has no room for this.
    pub(crate) fn lack_room<R: Wait>(&self, rt: &R, best: &Record) {
        let mut shared = self.shared.lock(rt);
        let size = best.size();
        shared.too_large = Some(match shared.too_large {
            Some(least) => least.min(size),
            None => size,
        });
    }

    /// Whether it may have room for this: it had none for a file that is as large, or smaller.
    pub(crate) fn has_room<R: Wait>(&self, rt: &R, best: &Record) -> bool {
        match self.shared.lock(rt).too_large {
            Some(least) => best.is_deleted() || best.size() < least,
            None => true,
        }
    }
}
