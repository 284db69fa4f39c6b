//! What is on the disk of a node's folders, for all its threads.
use crate::claims::may_be_told;
use crate::plans::{PlannedPull, Plans, Readiness};
use std::alloc::{AllocError, Global};
use std::sync::{Condvar, Mutex, Wait};
use std::time::{Clock, Duration};
use sync_names::SafeName;

/// What is on the disk of a node's folders: their records, and the plans of their pulls. One thread, the saver, writes them; the others ask and wait.
#[derive(Drop)]
pub struct Keeper {
    inner: Mutex<Inner>,
    // Notified when something is to be saved, and at the end.
    asked: Condvar,
    // Notified when something was saved, and when it could not be.
    saved: Condvar,
}

// What stands under the lock.
#[derive(Drop)]
struct Inner {
    folders: Vec<KeptFolder>,
    is_asked: bool,
    // Whether a peer says that it was told of more than was on the disk when the node began.
    is_behind: bool,
    is_over: bool,
}

// What is on the disk of a folder.
#[derive(Drop)]
struct KeptFolder {
    // The sequence up to which peers may have been told of its local records before the node began.
    opened: u64,
    // The sequence up to which its local records are.
    kept: u64,
    plans: Plans,
}

impl KeptFolder {
    // A pull with this number began. Without its plan nothing of the folder is put in place any more.
    fn note(&mut self, number: u64, plan: Result<PlannedPull, AllocError>) {
        let noted = match plan {
            Ok(plan) => self.plans.note(number, plan),
            Err(failed) => Err(failed),
        };
        if noted.is_err() {
            self.plans.lose();
        }
    }
}

impl Inner {
    fn readiness(&self, place: usize, name: &SafeName) -> Readiness {
        match self.folders.get(place) {
            Some(folder) => folder.plans.readiness(name),
            None => Readiness::Refused,
        }
    }
}

/// What the saver is to write of a folder's pulls.
#[derive(Drop)]
pub struct Unsaved {
    /// Which batch of plans it is.
    pub batch: u64,
    /// The plans, in the order in which their pulls began.
    pub plans: Vec<PlannedPull>,
}

impl Keeper {
    /// Of folders whose records are on the disk up to these sequences, in their order, each with room for so many open pulls. Peers may be believed all that they
    /// say they were told of them. Fails only if out of memory.
    pub fn new(
        alloc: Global,
        kept: &[u64],
        pulls: usize,
        believes_all: bool,
    ) -> Result<Keeper, AllocError> {
        let mut folders = Vec::with_capacity(alloc, kept.len())?;
        for kept in kept {
            folders.push(KeptFolder {
                opened: if believes_all { u64::MAX } else { *kept },
                kept: *kept,
                plans: Plans::with_capacity(alloc, pulls)?,
            })?;
        }
        Ok(Keeper {
            inner: Mutex::new(Inner {
                folders,
                is_asked: false,
                is_behind: false,
                is_over: false,
            }),
            asked: Condvar::new(),
            saved: Condvar::new(),
        })
    }

    /// The sequence up to which all local records of the folder at a place are on the disk.
    pub fn kept_up_to<R: Wait>(&self, rt: &R, place: usize) -> u64 {
        match self.inner.lock(rt).folders.get(place) {
            Some(folder) => folder.kept,
            None => 0,
        }
    }

    /// Whether a peer may have been told of this device's records of the folder at a place up to `claimed`, of which this node told it up to `told`. If not, the
    /// disk is an older one, and is [behind](Keeper::is_behind).
    pub fn may_be_told<R: Wait>(&self, rt: &R, place: usize, told: u64, claimed: u64) -> bool {
        let mut inner = self.inner.lock(rt);
        let opened = match inner.folders.get(place) {
            Some(folder) => folder.opened,
            None => 0,
        };
        if may_be_told(opened, told, claimed) {
            return true;
        }
        inner.is_behind = true;
        inner.is_asked = true;
        drop(inner);
        self.asked.notify_all();
        false
    }

    /// Whether a peer was told of more than was on the disk when the node began. Then the disk is an older one, put back, say, and what the peer was told can't be
    /// known: it is to be told all, under another index id.
    pub fn is_behind<R: Wait>(&self, rt: &R) -> bool {
        self.inner.lock(rt).is_behind
    }

    /// Asks that what is not on the disk is written soon.
    pub fn ask<R: Wait>(&self, rt: &R) {
        self.inner.lock(rt).is_asked = true;
        self.asked.notify_all();
    }

    /// A pull of the folder at a place began: nothing is put in place for its name before the plan is on the disk.
    pub fn note<R: Wait>(
        &self,
        rt: &R,
        place: usize,
        number: u64,
        plan: Result<PlannedPull, AllocError>,
    ) {
        let mut inner = self.inner.lock(rt);
        if let Some(folder) = inner.folders.get_mut(place) {
            folder.note(number, plan);
        }
        inner.is_asked = true;
        drop(inner);
        self.asked.notify_all();
    }

    /// It ends.
    pub fn end_pull<R: Wait>(&self, rt: &R, place: usize, number: u64) {
        if let Some(folder) = self.inner.lock(rt).folders.get_mut(place) {
            folder.plans.end(number);
        }
    }

    /// Waits until the plan of a name's pull is on the disk, if one is open. Returns `false` where it could not be written, or noted: what was prepared for the name
    /// may not be put in place then.
    pub fn is_ready<R: Wait>(&self, rt: &R, place: usize, name: &SafeName) -> bool {
        let inner = self.inner.lock(rt);
        let inner = self.saved.wait_while(rt, inner, |inner| {
            !inner.is_over && inner.readiness(place, name) == Readiness::Waiting
        });
        inner.readiness(place, name) == Readiness::Ready
    }

    /// Waits until something is to be saved, at most for so long. Returns whether nobody asks any more.
    pub fn wait_for_asks<R: Clock + Wait>(&self, rt: &R, time: Duration) -> bool {
        let inner = self.inner.lock(rt);
        let (mut inner, _) = self.asked.wait_timeout_while(rt, inner, time, |inner| {
            !inner.is_asked && !inner.is_over
        });
        inner.is_asked = false;
        inner.is_over
    }

    /// Waits for so long, or until nobody asks any more. Returns whether that is so.
    pub fn wait_for_end<R: Clock + Wait>(&self, rt: &R, time: Duration) -> bool {
        let inner = self.inner.lock(rt);
        let (inner, _) = self
            .asked
            .wait_timeout_while(rt, inner, time, |inner| !inner.is_over);
        inner.is_over
    }

    /// The plans of the folder at a place that are not on the disk. Fails only if out of memory.
    pub fn unsaved<R: Wait>(
        &self,
        rt: &R,
        alloc: Global,
        place: usize,
    ) -> Result<Unsaved, AllocError> {
        let mut inner = self.inner.lock(rt);
        let Some(folder) = inner.folders.get_mut(place) else {
            return Ok(Unsaved {
                batch: 0,
                plans: Vec::new(alloc),
            });
        };
        let (batch, plans) = folder.plans.begin_batch(alloc)?;
        Ok(Unsaved { batch, plans })
    }

    /// The plans of this batch of the folder at a place are on the disk, and its local records up to this sequence.
    pub fn save<R: Wait>(&self, rt: &R, place: usize, batch: u64, kept: u64) {
        if let Some(folder) = self.inner.lock(rt).folders.get_mut(place) {
            folder.plans.end_batch(batch);
            folder.kept = kept;
        }
        self.saved.notify_all();
    }

    /// Nothing can be written now: who waits puts nothing in place.
    pub fn fail<R: Wait>(&self, rt: &R) {
        for folder in self.inner.lock(rt).folders.iter_mut() {
            folder.plans.fail();
        }
        self.saved.notify_all();
    }

    /// Nobody asks any more.
    pub fn end<R: Wait>(&self, rt: &R) {
        self.inner.lock(rt).is_over = true;
        self.asked.notify_all();
        self.saved.notify_all();
    }
}
