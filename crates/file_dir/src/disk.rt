//! The folder on the disk, and what is at the paths below it.
ghost use Rattle.std.specs.Prelude.{◌≡◌, Ok, Err, IfErr, MatchResult};
ghost use Rattle.file_store.specs.Refusals.{IsPlain};
ghost use Rattle.file_store.specs.declared.refusal.StoreRefusal.TheVariants.{StoreFault};

use crate::found::{FileId, Found};
use crate::habits::Habits;
use crate::refuse::{or_fault, or_no_room};
use file_store::StoreRefusal;
use std::alloc::Global;
use std::cell::Cell;
use std::fs;
use std::io::{self, ErrorKind};
use std::os::unix::fs::MetadataExt;
use std::rt::Files;

/// A folder on the disk.
#[derive(Drop)]
pub(crate) struct Disk<R> {
    pub(crate) files: R,
    pub(crate) alloc: Global,
    /// How its files are kept.
    pub(crate) habits: Habits,
    /// The folder's path, with a slash at its end.
    root: String,
    /// The device that the folder was on when it was opened.
    device: u64,
    // What the system said at the last fault that came of an error of it.
    last_error: Cell<Option<io::Error>>,
}

impl<R: Files + Drop> Disk<R> {
    /// The folder at a path, which may be a link to it. Fails with `StoreFault` if there is no directory.
    pub(crate) fn open(
        files: R,
        alloc: Global,
        path: &str,
        habits: Habits,
    ) -> Result<Disk<R>, StoreRefusal>
        ensures { IfErr result IsPlain }
    {
        let mut root = String::from_str(alloc, if path.is_empty() { "." } else { path })?;
        root.push('/')?;
        let metadata = or_fault(fs::metadata(&files, root.as_str()))?;
        Ok(Disk {
            files,
            alloc,
            habits,
            root,
            device: metadata.dev(),
            last_error: Cell::new(None),
        })
    }
}

impl<R> Disk<R> {
    /// A fault of the store in place of any error of the system, which is kept.
    pub(crate) fn or_fault<T>(&self, answer: io::Result<T>) -> Result<T, StoreRefusal>
        ensures value { MatchResult answer (λ value. result ≡ Ok value) (λ _. result ≡ Err StoreFault) }
        ensures refusal { IfErr result (λ refusal. refusal ≡ StoreFault) }
    {
        if let Err(error) = &answer {
            self.last_error.set(Some(*error));
        }
        or_fault(answer)
    }

    /// The same, and it is noted whether the disk has no room, or the user none left on it.
    pub(crate) fn or_no_room<T>(
        &self,
        answer: io::Result<T>,
        lacks_room: &mut bool,
    ) -> Result<T, StoreRefusal>
        ensures value { MatchResult answer (λ value. result ≡ Ok value) (λ _. result ≡ Err StoreFault) }
        ensures refusal { IfErr result (λ refusal. refusal ≡ StoreFault) }
    {
        if let Err(error) = &answer {
            self.last_error.set(Some(*error));
        }
        or_no_room(answer, lacks_room)
    }

    /// What the system said at the last fault that came of an error of it, since that was forgotten.
    pub(crate) fn last_error(&self) -> Option<io::Error> {
        self.last_error.get()
    }

    /// Forgets it.
    pub(crate) fn forget_error(&self) {
        self.last_error.set(None);
    }
}

impl<R: Files> Disk<R> {
    /// The folder's path, with a slash at its end.
    pub(crate) fn root(&self) -> &str {
        self.root.as_str()
    }

    /// What is at a path. A symbolic link at its end is not followed.
    pub(crate) fn look(&self, path: &str) -> Result<Found, StoreRefusal>
        ensures { IfErr result IsPlain }
    {
        match fs::symlink_metadata(&self.files, path) {
            Ok(metadata) => Ok(Found::new(&metadata)),
            Err(error) if error.kind() == ErrorKind::NotFound => Ok(Found::Nothing),
            Err(error) => self.or_fault(Err(error)),
        }
    }

    /// Which directory the folder is. Fails unless it is there, on the device that it was on when it was opened. So a disk that is taken away is
    /// a fault, and not a folder without files.
    pub(crate) fn root_id(&self) -> Result<FileId, StoreRefusal>
        ensures { IfErr result IsPlain }
    {
        let metadata = self.or_fault(fs::metadata(&self.files, self.root.as_str()))?;
        if metadata.is_dir() && metadata.dev() == self.device {
            Ok(FileId::new(&metadata))
        } else {
            Err(StoreRefusal::StoreFault)
        }
    }
}
