//! What scans leave out.
use file_dir::Skipped;
use file_store::StoreRefusal;
use node_context::{Connections, Context, Event, ScanEvent, SkipWhy};
use node_files::{Marked, Whereabouts};
use node_status::Noted;
use record_lines::push_text;
use std::alloc::{AllocError, Global};
use std::io::{self, Write};
use std::sync::{Mutex, Wait};
use std::time::Clock;
use sync_names::SafeName;
use sync_scan::{Progress, ScanSum, Scanned};

/// A name that a scan left out.
#[derive(Drop)]
struct Skip {
    // As it can be shown.
    name: String,
    why: SkipWhy,
}

/// What the last whole scan of a folder left out, in the order of the names, for all threads.
#[derive(Drop)]
pub struct Skips {
    alloc: Global,
    last: Mutex<Vec<Skip>>,
}

impl Skips {
    /// Nothing yet.
    pub fn new(alloc: Global) -> Skips {
        Skips {
            alloc,
            last: Mutex::new(Vec::new(alloc)),
        }
    }

    /// A line for each, as the answer to a command. Fails only if out of memory. O(n) for n names.
    pub fn lines<R: Wait>(&self, rt: &R) -> Result<Vec<u8>, AllocError> {
        let mut lines = Vec::new(self.alloc);
        let last = self.last.lock(rt);
        for skip in last.iter() {
            if push_skip(&mut lines, skip).is_err() {
                return Err(AllocError);
            }
        }
        Ok(lines)
    }

    /// The first of them, so many at most, and how many more there are. Fails only if out of memory. O(n) for so many names.
    pub fn noted<R: Wait>(&self, rt: &R, most: usize) -> Result<(Vec<Noted>, u64), AllocError> {
        let mut noted = Vec::new(self.alloc);
        let last = self.last.lock(rt);
        for skip in last.iter().take(most) {
            let why = skip.why;
            noted.push(Noted {
                name: String::from_str(self.alloc, skip.name.as_str())?,
                when: None,
                why: format!(in self.alloc; "{why}")?,
            })?;
        }
        Ok((noted, last.len().saturating_sub(most) as u64))
    }

    /// Takes why a scan of a name alone left it out, which is told where it was not told so before; or that it did not. Where memory for the name runs out, all stays as it
    /// was. O(n) for n names.
    pub fn note<R: Clock + Wait, G>(
        &self,
        cx: &Context<R, G>,
        folder: &str,
        name: &SafeName,
        found: Option<SkipWhy>,
    ) {
        let mut last = self.last.lock(cx.rt);
        let news = match last.binary_search_by(|it| it.name.as_str().cmp(name.as_str())) {
            Ok(place) => renew(&mut last, place, found),
            Err(place) => self.insert(&mut last, place, name, found),
        };
        if let Some(why) = news {
            cx.tell(&Event::Scan(folder, ScanEvent::Skipped(name.as_str(), why)));
        }
    }

    // Puts a name that is left out at its place among the others. Returns why, if it is.
    fn insert(
        &self,
        last: &mut Vec<Skip>,
        place: usize,
        name: &SafeName,
        found: Option<SkipWhy>,
    ) -> Option<SkipWhy> {
        let why = found?;
        if place > last.len() {
            return None;
        }
        match String::from_str(self.alloc, name.as_str()) {
            Ok(name) => last.insert(place, Skip { name, why }).ok().map(|()| why),
            Err(AllocError) => None,
        }
    }

    /// Takes what a scan of the folder left out, and tells the names that were not left out before, or for another reason. Where the scan did not
    /// come to its end, or memory for the names ran out, all stays as it was. O(n log n) for n names.
    pub fn take<R: Clock + Wait, G, S: Marked>(
        &self,
        cx: &Context<R, G>,
        folder: &str,
        store: &mut S,
        left_out: LeftOut<R>,
        sum: &ScanSum,
    ) {
        let listed = store.take_skipped();
        let is_whole = sum.stopped.is_none() && left_out.is_whole();
        if !is_whole || store.look() != Whereabouts::There {
            return;
        }
        let Ok(new) = all_of(self.alloc, listed, left_out.names) else {
            return;
        };
        let mut last = self.last.lock(cx.rt);
        tell_new(cx, folder, last.as_slice(), new.as_slice());
        *last = new;
    }
}

// Takes what a scan came to of the name at this place, which was left out. Returns why it is now, if that is news.
fn renew(last: &mut Vec<Skip>, place: usize, found: Option<SkipWhy>) -> Option<SkipWhy> {
    let skip = last.get_mut(place)?;
    let known = skip.why;
    match known.after_scan(found) {
        Some(why) => {
            skip.why = why;
            if why == known { None } else { Some(why) }
        }
        None => {
            if place < last.len() {
                let _again = last.remove(place);
            }
            None
        }
    }
}

// `skipped NAME: WHY`
fn push_skip(lines: &mut Vec<u8>, skip: &Skip) -> io::Result<()> {
    lines.extend_from_slice(b"skipped ")?;
    push_text(lines, skip.name.as_str())?;
    writeln!(lines, ": {}", skip.why)
}

/// What a scan that is under way left out until now.
#[derive(Drop)]
pub struct LeftOut<'a, R> {
    rt: &'a R,
    alloc: Global,
    connections: &'a Connections,
    names: Vec<Skip>,
    is_out_of_memory: bool,
}

impl<'a, R: Wait> LeftOut<'a, R> {
    /// Nothing yet.
    pub fn new<G>(cx: &Context<'a, R, G>) -> LeftOut<'a, R> {
        LeftOut {
            rt: cx.rt,
            alloc: cx.alloc,
            connections: cx.connections,
            names: Vec::new(cx.alloc),
            is_out_of_memory: false,
        }
    }

    // Whether nothing is missing. (Once the node stops each name is a fault.)
    fn is_whole(&self) -> bool {
        !self.is_out_of_memory && !self.connections.is_stopping(self.rt)
    }

    fn add(&mut self, name: &SafeName, why: SkipWhy) -> Result<(), AllocError> {
        let name = String::from_str(self.alloc, name.as_str())?;
        self.names.push(Skip { name, why })?;
        Ok(())
    }
}

impl<R: Wait> Progress for LeftOut<'_, R> {
    fn hashed(&mut self, _bytes: u64) {}

    fn scanned(&mut self, _names: u64, _listed: u64) {}

    fn came_to(&mut self, name: &SafeName, scanned: &Result<Scanned, StoreRefusal>) {
        if let Some(why) = SkipWhy::of(scanned) {
            if self.is_whole() && self.add(name, why).is_err() {
                self.is_out_of_memory = true;
            }
        }
    }
}

// Both together in the order of the names, each once: what the listing says of it, else what its scan came to.
fn all_of(
    alloc: Global,
    listed: Vec<Skipped>,
    scanned: Vec<Skip>,
) -> Result<Vec<Skip>, AllocError> {
    let mut all = Vec::with_capacity(alloc, listed.len())?;
    for Skipped { name, why } in listed {
        all.push(Skip {
            name,
            why: SkipWhy::Listing(why),
        })?;
    }
    for skip in scanned {
        all.push(skip)?;
    }
    all.sort_by(|a, b| a.name.cmp(&b.name))?;
    all.dedup_by(|a, b| a.name == b.name);
    Ok(all)
}

// Tells the new ones that are not among the old ones, which are in order.
fn tell_new<R: Clock + Wait, G>(cx: &Context<R, G>, folder: &str, old: &[Skip], new: &[Skip]) {
    for skip in new {
        if !is_told(old, skip) {
            cx.tell(&Event::Scan(folder, ScanEvent::Skipped(skip.name.as_str(), skip.why)));
        }
    }
}

// Whether that the name is left out was told, with those that were left out before, which are in order. O(log n).
fn is_told(old: &[Skip], skip: &Skip) -> bool {
    match old.binary_search_by(|it| it.name.cmp(&skip.name)) {
        Ok(at) => skip.why.is_told_by(old[at].why),
        Err(_) => false,
    }
}
