//! A store of files in a folder of a disk.
ghost use Rattle.std.specs.Prelude.{◌≡◌, IfOk, IfErr};
ghost use Rattle.file_store.specs.Refusals.{count_after, IsPlain};

use crate::dir::Dir;
use crate::disk::Disk;
use crate::habits::Habits;
use crate::look::Look;
use crate::opened::Opened;
use crate::skipped::Skipped;
use crate::temps::Writing;
use crate::{LockRefusal, MarkerId, MarkerLock, changes, left, marker, old_versions, temps, walk};
use file_store::{FileStore, Listing, Stat, StoreRefusal};
use std::alloc::{AllocError, Global};
use std::fs::File;
use std::io;
use std::mem::replace;
use std::os::fd::AsRawFd;
use std::rt::Files;
use std::time::{Clock, Duration, SystemTime};
use sync_names::SafeName;

/// A store of files in a folder of a disk.
///
/// Symbolic links are not followed, neither at a name nor at a parent of it; they, pipes, sockets and devices count as
/// nothing, but nothing is put in their place. Several stores may be on one folder. The folder itself may be reached
/// through links. While it is missing, or on another device than when the store was opened, each call returns `StoreFault`.
///
/// What `commit_temp`, `rename`, `remove`, `make_dir` and `remove_dir` have done has reached the disk when they return. A temporary file reaches the disk when `stat` looks at its
/// name.
///
/// Others may change the folder at any time. Of the name that `stat` looked at last, or of which this store moved or removed the file since, `commit_temp` and `remove` return `StoreFault`
/// where something else is there now than then: another file, or the same one, written to or given other permissions. What is there then stays, or is put back where it was written to just while it
/// was replaced or removed. So what somebody writes after a look is not lost, but for a file that is moved over the old one in the moment in which this is replaced, on a file system without
/// hard links, and where a last component has more than 225 bytes.
///
/// A name is reached by its open directory, so whatever becomes a symbolic link meanwhile, nothing is written, renamed or removed where it leads. A directory that is itself moved out of the folder just
/// while something is done in it has that taken back. `/proc` must be mounted, and directories be readable.
///
/// Each call takes two calls of the system for the name's directory, or three for each of its components where another one was used last.
#[derive(Drop)]
pub struct DirStore<R: Files> {
    disk: Disk<R>,
    // The directory that was used last, until a file or a directory was put in place or taken away: a store that waits for the next one keeps none open.
    dir: Option<Dir<R::File>>,
    reading: Option<Opened<R::File>>,
    writing: Writing<R::File>,
    look: Option<Look>,
    // What the last listing left out.
    skipped: Vec<Skipped>,
    faults: u64,
}

impl<R: Files + Drop> DirStore<R> {
    ghost use Rattle.file_dir.specs.Dir.{dir_faults};

    /// A store in the folder at a path, whose files are kept like this; an empty path is the current directory. Removes nothing. Fails with `StoreFault`
    /// if no directory is there.
    pub fn open(
        files: R,
        alloc: Global,
        path: &str,
        habits: Habits,
    ) -> Result<DirStore<R>, StoreRefusal>
        ensures faults { IfOk result (λ store. dir_faults store ≡ 0) }
        ensures refusals { IfErr result IsPlain }
    {
        let disk = Disk::open(files, alloc, path, habits)?;
        Ok(DirStore {
            disk,
            dir: None,
            reading: None,
            writing: Writing::new(),
            look: None,
            skipped: Vec::new(alloc),
            faults: 0,
        })
    }
}

impl<R: Files> DirStore<R>
where
    R::File: AsRawFd,
{
    ghost use Rattle.file_dir.specs.Dir.{dir_faults};

    /// Whether the folder has the marker `.stfolder`, a directory or a file, as Syncthing checks. An empty directory in which a
    /// disk is not mounted has none. Nothing else that the store does depends on it, and it is never listed.
    pub fn has_marker(&mut self) -> Result<bool, StoreRefusal>
        ensures refusals { IfErr result IsPlain }
        ensures counted { dir_faults self.new ≡ count_after result (dir_faults self.old) }
    {
        let answer = marker::has_marker(&self.disk, &mut self.dir);
        settle(&mut self.faults, answer)
    }

    /// Whether the folder's marker is the one that was locked so. Where another directory was put in the folder's place, it has another one, or none. A
    /// marker that could not be opened is taken for the one that is there.
    pub fn is_marked_by(&mut self, id: MarkerId) -> Result<bool, StoreRefusal>
        ensures refusals { IfErr result IsPlain }
        ensures counted { dir_faults self.new ≡ count_after result (dir_faults self.old) }
    {
        let answer = marker::is_marked_by(&self.disk, &mut self.dir, id);
        settle(&mut self.faults, answer)
    }

    /// Makes the marker, a directory, which reaches the disk before this returns. Does nothing if it is there. A fault if
    /// something is at its name that is neither a directory nor a file.
    pub fn make_marker(&mut self) -> Result<(), StoreRefusal>
        ensures refusals { IfErr result IsPlain }
        ensures counted { dir_faults self.new ≡ count_after result (dir_faults self.old) }
    {
        let answer = marker::make_marker(&self.disk, &mut self.dir);
        settle(&mut self.faults, answer)
    }

    /// Removes all temporary files, as those that an earlier run has left, also those that another store on the folder is
    /// writing. What was just replaced or removed is put back where nothing is at its name. Returns how many there were. Those in directories that can't be read stay. After an error some may have been
    /// removed. O(n) for n names in the folder.
    pub fn remove_temps(&mut self) -> Result<usize, StoreRefusal>
        ensures refusals { IfErr result IsPlain }
        ensures counted { dir_faults self.new ≡ count_after result (dir_faults self.old) }
    {
        self.writing = Writing::new();
        let answer = left::remove_temps(&self.disk);
        settle(&mut self.faults, answer)
    }

    /// Removes the versions below `.stversions` of moments before so many seconds since 1970, as their names say, and the directories that are empty then.
    /// Returns how many files were removed. Those without a moment in their name stay, and so do those that can't be removed, and what is in directories
    /// that can't be read. Touches nothing else, and follows no link. After an error some may have been removed. O(n) for n names there.
    pub fn remove_versions(&mut self, before: u64) -> Result<usize, StoreRefusal>
        ensures refusals { IfErr result IsPlain }
        ensures counted { dir_faults self.new ≡ count_after result (dir_faults self.old) }
    {
        let answer = old_versions::remove_versions(&self.disk, before);
        settle(&mut self.faults, answer)
    }
}

impl<R: Files> DirStore<R> {
    /// What the last listing left out, in the order of names; nothing when it is asked again. O(1).
    pub fn take_skipped(&mut self) -> Vec<Skipped> {
        let alloc = self.disk.alloc;
        replace(&mut self.skipped, Vec::new(alloc))
    }

    /// Whether the last fault of a call that writes came of a disk without room. O(1).
    pub fn lacks_room(&self) -> bool {
        self.writing.lacks_room
    }

    /// What the system said where the last call was a `StoreFault`, if it came of an error of the system. (`drop_temp` doesn't count.) O(1).
    pub fn last_error(&self) -> Option<io::Error> {
        self.disk.last_error()
    }

    /// The file that the next `commit_temp` of the name puts in place gets this modification time, in seconds and nanoseconds since 1970. A time
    /// before 1970, and one that the disk can't hold, leaves it as the disk has it.
    pub fn set_modified(
        &mut self,
        name: &SafeName,
        seconds: i64,
        nanoseconds: u32,
    ) -> Result<(), AllocError> {
        self.writing.modified = match time_of(seconds, nanoseconds) {
            Some(time) => Some((String::from_str(self.disk.alloc, name.as_str())?, time)),
            None => None,
        };
        Ok(())
    }
}

impl<R: Files<File = File>> DirStore<R> {
    /// Takes the folder for this run, by a lock of the system in its marker: on the file `bepd.lock`, or on the marker itself where that is a file or
    /// can't be written. The lock ends with what is returned, and with the process. Fails with `InUse` where another run has it. On a disk
    /// without such locks nothing is locked, and this succeeds.
    pub fn lock_marker(&mut self) -> Result<MarkerLock, LockRefusal> {
        marker::lock_marker(&self.disk, &mut self.dir)
    }
}

fn time_of(seconds: i64, nanoseconds: u32) -> Option<SystemTime> {
    let seconds = u64::try_from(seconds).ok()?;
    let since = Duration::from_secs(seconds).checked_add(Duration::from_nanos(u64::from(
        nanoseconds,
    )))?;
    SystemTime::UNIX_EPOCH.checked_add(since)
}

impl<R: Files + Clock> FileStore for DirStore<R>
where
    R::File: AsRawFd,
{
    ghost use Rattle.std.specs.Prelude.{⊤, None, false};
    ghost use Rattle.file_dir.specs.Dir.{dir_faults};
    ghost use Rattle.file_store.specs.Stores.{empty_tree};

    ghost keeps = { false };

    ghost fails = { λ s. ⊤ };

    ghost tree = { λ s. empty_tree };

    ghost fault_count = { dir_faults };

    ghost gives = { λ old call result new. ⊤ };

    fn faults(&self) -> u64 {
        self.faults
    }

    fn list(&mut self) -> Result<Listing, StoreRefusal> {
        self.disk.forget_error();
        let answer = walk::list(&self.disk, &mut self.skipped);
        settle(&mut self.faults, answer)
    }

    fn stat(&mut self, name: &SafeName) -> Result<Stat, StoreRefusal> {
        self.disk.forget_error();
        let answer = temps::stat(
            &self.disk,
            &mut self.dir,
            &mut self.writing,
            &mut self.look,
            name,
        );
        settle(&mut self.faults, answer)
    }

    fn read_at(
        &mut self,
        name: &SafeName,
        offset: u64,
        buffer: &mut [u8],
    ) -> Result<usize, StoreRefusal> {
        self.disk.forget_error();
        let answer = changes::read_at(
            &self.disk,
            &mut self.dir,
            &mut self.reading,
            name.as_str(),
            offset,
            buffer,
        );
        settle(&mut self.faults, answer)
    }

    fn make_temp(&mut self, name: &SafeName) -> Result<(), StoreRefusal> {
        self.disk.forget_error();
        let answer = temps::make_temp(&self.disk, &mut self.dir, &mut self.writing, name);
        settle(&mut self.faults, answer)
    }

    fn write_at(&mut self, name: &SafeName, offset: u64, bytes: &[u8]) -> Result<(), StoreRefusal> {
        self.disk.forget_error();
        let answer = temps::write_at(
            &self.disk,
            &mut self.dir,
            &mut self.writing,
            name,
            offset,
            bytes,
        );
        settle(&mut self.faults, answer)
    }

    fn commit_temp(&mut self, name: &SafeName) -> Result<(), StoreRefusal> {
        self.disk.forget_error();
        self.reading = None;
        let answer = temps::commit_temp(
            &self.disk,
            &mut self.dir,
            &mut self.writing,
            &mut self.look,
            name,
        );
        self.dir = None;
        settle(&mut self.faults, answer)
    }

    fn drop_temp(&mut self, name: &SafeName) -> Result<(), StoreRefusal> {
        let answer = temps::drop_temp(&self.disk, &mut self.dir, &mut self.writing, name);
        self.dir = None;
        settle(&mut self.faults, answer)
    }

    fn rename(&mut self, from: &SafeName, to: &SafeName) -> Result<(), StoreRefusal> {
        self.disk.forget_error();
        let answer = changes::rename(
            &self.disk,
            &mut self.dir,
            &mut self.look,
            from.as_str(),
            to.as_str(),
        );
        self.dir = None;
        settle(&mut self.faults, answer)
    }

    fn remove(&mut self, name: &SafeName) -> Result<(), StoreRefusal> {
        self.disk.forget_error();
        self.reading = None;
        let lacks_room = &mut self.writing.lacks_room;
        let answer = changes::remove(&self.disk, &mut self.dir, &mut self.look, lacks_room, name);
        self.dir = None;
        settle(&mut self.faults, answer)
    }

    fn make_dir(&mut self, name: &SafeName) -> Result<(), StoreRefusal> {
        self.disk.forget_error();
        let lacks_room = &mut self.writing.lacks_room;
        let answer = changes::make_dir(&self.disk, &mut self.dir, lacks_room, name.as_str());
        self.dir = None;
        settle(&mut self.faults, answer)
    }

    fn remove_dir(&mut self, name: &SafeName) -> Result<(), StoreRefusal> {
        self.disk.forget_error();
        let answer = changes::remove_dir(&self.disk, &mut self.dir, &mut self.look, name.as_str());
        self.dir = None;
        settle(&mut self.faults, answer)
    }
}

/// The answer of a call, of which a fault is counted.
fn settle<T>(faults: &mut u64, answer: Result<T, StoreRefusal>) -> Result<T, StoreRefusal>
    ensures answer { result ≡ answer }
    ensures counted { faults.new ≡ count_after answer faults.old }
{
    if let Err(StoreRefusal::StoreFault) = &answer {
        *faults = faults.saturating_add(1);
    }
    answer
}
