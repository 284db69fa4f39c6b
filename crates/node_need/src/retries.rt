//! When a name that could not be pulled is tried again.
ghost use Rattle.std.specs.Prelude.{◌≡◌, OnErr, OnOk, true, false, not, ◌&&◌, ◌||◌};
ghost use Rattle.node_need.specs.Retries.{AreInOrder, Name, after_asked, begun, is_among, is_as, longer, may_try, only_at, pause_of, put_at, retry_at, room, told_last};

use crate::wanted::Wanted;
use std::alloc::{AllocError, Global};
use std::collections::BTreeMap;
use std::mem::replace;
use sync_names::SafeName;
use sync_pull::PullAnswer;
use sync_record::Record;

/// How many seconds a name is left alone that could not be pulled. Each time that it can't be pulled again these are twice as many.
const FIRST_PAUSE: u32 = 1;

/// The most seconds that a name is left alone.
const MAX_PAUSE: u32 = 256;

/// How many seconds a name is left alone for which the disk had no room.
const ROOM_PAUSE: u32 = 60;

// What is kept of a name that could not be pulled.
#[derive(Drop)]
struct Retry {
    // What was known of it, and told.
    best: Record,
    local: Option<Record>,
    told: Option<PullAnswer>,
    // How many peers of the folder were up.
    up: usize,
    // How many seconds it is left alone after it can't be pulled again, and how many it still is.
    next: u32,
    left: u32,
}

impl Retry {
    // Whether nothing happened at the name since: its best and its local record have the versions that they had.
    fn is_as(&self, wanted: &Wanted) -> bool
        ensures { result ≡ is_as self.now wanted.now }
    {
        let same_local = match &self.local {
            Some(before) => match &wanted.local {
                Some(local) => before.version() == local.version(),
                None => false,
            },
            None => match &wanted.local {
                Some(_) => false,
                None => true,
            },
        };
        same_local && self.best.version() == wanted.best.version()
    }

    // Whether the name may be tried, while so many peers are up. Where it may not, and a second passed, there is one less to wait.
    fn ask(&mut self, wanted: &Wanted, up: usize, is_later: bool) -> bool
        ensures answer { result ≡ may_try wanted.now up (Some self.old) }
        ensures left { Some self.new ≡ after_asked wanted.now up is_later (Some self.old) }
    {
        if self.up != up || !self.is_as(wanted) {
            self.next = FIRST_PAUSE;
            return true;
        }
        if self.left == 0 {
            return true;
        }
        if is_later {
            self.left -= 1;
        }
        false
    }
}

/// Names that could not be pulled. Each is left alone for a second, then for two, four and so on, some minutes at most, until something
/// happens at it, or another number of peers is up; one for which the disk had no room for a minute. So a file that someone is editing, or a full disk,
/// costs no endless downloads, and a history doesn't fill with pulls that fail.
#[derive(Drop)]
pub struct Retries {
    retries: BTreeMap<SafeName, Retry>,
    // Whether the disk had no room in this round, and whether that was told.
    lacks_room: bool,
    is_lack_told: bool,
}

impl Retries {
    /// None. Does not allocate.
    pub fn new(alloc: Global) -> Retries
        ensures none { (q : Name) → retry_at result q ≡ None }
        ensures room { room result ≡ (false, false) }
    {
        Retries {
            retries: BTreeMap::new(alloc),
            lacks_room: false,
            is_lack_told: false,
        }
    }

    /// The disk had no room in this round. Returns whether that is to be told: it is once, until there is room again.
    pub fn lack_room(&mut self) -> bool
        ensures told { result ≡ not (room self.old).1 }
        ensures room { room self.new ≡ (true, true) }
        ensures names { retry_at self.new ≡ retry_at self.old }
    {
        self.lacks_room = true;
        !replace(&mut self.is_lack_told, true)
    }

    /// A round has ended, in which something was pulled or not. Where it was, and the disk had room, it is told when it has none later.
    pub fn end_round(&mut self, has_pulled: bool)
        ensures room { room self.new
            ≡ (false, (room self.old).1 && ((room self.old).0 || not has_pulled)) }
        ensures names { retry_at self.new ≡ retry_at self.old }
    {
        if !replace(&mut self.lacks_room, false) && has_pulled {
            self.is_lack_told = false;
        }
    }

    /// What was told last of the name, if nothing happened at it since. O(log n) for n names.
    pub fn told_of(&self, wanted: &Wanted) -> Option<PullAnswer>
        ensures { result ≡ told_last (retry_at self.now wanted.now.name) wanted.now }
    {
        match self.retries.get(&wanted.name) {
            Some(retry) => {
                if retry.is_as(wanted) {
                    retry.told
                } else {
                    None
                }
            }
            None => None,
        }
    }

    /// Whether the name may be pulled in this round, in which so many peers are up, and which may be a second later than the last one. It may not
    /// while it is left alone: as long as seconds are left, nothing happened at it, and as many peers are up. O(log n) for n names.
    pub fn is_over(&mut self, wanted: &Wanted, up: usize, is_later: bool) -> bool
        ensures answer { result ≡ may_try wanted.now up (retry_at self.old wanted.now.name) }
        ensures left { retry_at self.new
            ≡ put_at wanted.now.name (after_asked wanted.now up is_later (retry_at self.old wanted.now.name)) (retry_at self.old) }
        ensures room { room self.new ≡ room self.old }
    {
        match self.retries.get_mut(&wanted.name) {
            Some(retry) => retry.ask(wanted, up, is_later),
            None => true,
        }
    }

    /// The name could not be pulled, while so many peers were up, or since the disk had no room: it is left alone from now on. Returns `Err` only if
    /// out of memory, and for a name that was not left alone before; then nothing has changed. O(log n) for n names.
    pub fn begin(&mut self, wanted: Wanted, up: usize, lacks_room: bool) -> Result<(), AllocError>
        ensures begun { OnOk result (retry_at self.new
            ≡ put_at wanted.name (Some (begun wanted up lacks_room (pause_of (retry_at self.old wanted.name)))) (retry_at self.old)) }
        ensures err { OnErr result (retry_at self.new ≡ retry_at self.old) }
        ensures full { OnErr result (retry_at self.old wanted.name ≡ None) }
        ensures room { room self.new ≡ room self.old }
    {
        let pause = self.pause_of(&wanted.name);
        let (name, retry) = begun(wanted, up, lacks_room, pause);
        self.retries.insert(name, retry)?;
        Ok(())
    }

    // How many seconds the name is left alone if it can't be pulled now.
    fn pause_of(&self, name: &SafeName) -> u32
        ensures { result ≡ pause_of (retry_at self.now name.now) }
    {
        match self.retries.get(name) {
            Some(retry) => retry.next,
            None => FIRST_PAUSE,
        }
    }

    /// Forgets those of names that are not needed any more: of these, which are in byte order, none. O(n log m) for n names and m needed ones.
    pub fn keep(&mut self, needed: &[SafeName])
        ensures names { AreInOrder needed.now → retry_at self.new ≡ only_at needed.now (retry_at self.old) }
        ensures room { room self.new ≡ room self.old }
    {
        self.retries.retain(|name, _| is_among(needed, name));
    }
}

// The name, and what is kept of it: it is left alone for so many seconds, or for a minute where the disk had no room.
fn begun(wanted: Wanted, up: usize, lacks_room: bool, pause: u32) -> (SafeName, Retry)
    ensures { result ≡ (wanted.name, begun wanted up lacks_room pause) }
{
    let Wanted {
        name,
        best,
        local,
        told,
        ..
    } = wanted;
    let (left, next) = if lacks_room {
        (ROOM_PAUSE, FIRST_PAUSE)
    } else {
        (pause, longer(pause))
    };
    let retry = Retry {
        best,
        local,
        told,
        up,
        next,
        left,
    };
    (name, retry)
}

// How many seconds a name is left alone after so many.
fn longer(pause: u32) -> u32
    ensures { result ≡ longer pause }
{
    pause.saturating_mul(2).min(MAX_PAUSE)
}

// Whether the name is among these, which are in byte order.
fn is_among(names: &[SafeName], name: &SafeName) -> bool
    ensures { AreInOrder names.now → result ≡ is_among names.now name.now }
{
    names.binary_search(name).is_ok()
}
