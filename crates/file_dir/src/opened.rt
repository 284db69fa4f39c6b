//! A file that stays open from one call to the next.
ghost use Rattle.std.specs.Prelude.{◌≤◌, length, IfOk, IfErr};
ghost use Rattle.file_store.specs.Refusals.{IsPlain};

use crate::disk::Disk;
use crate::found::FileId;
use crate::mode::set_mode;
use crate::refuse::{or_fault, or_no_room};
use file_store::StoreRefusal;
use std::fs::{FileTimes, OpenFile, OpenOptions};
use std::io::{Read, Seek, SeekFrom, Write};
use std::rt::Files;
use std::time::SystemTime;
use sync_blocks::fill;

/// How many bytes are written before they are made to reach the disk, while the next ones are still to come. So the wait at the end is short, and the
/// system doesn't hold a large file in memory that the disk could have been writing.
const UNSYNCED_BYTES: usize = 67_108_864;

/// An open file, its name, and which file it is.
#[derive(Drop)]
pub(crate) struct Opened<F> {
    name: String,
    id: FileId,
    file: F,
    // The mode that it was given last, if it was given one.
    mode: Option<u32>,
    // Whether all that was written since it was opened, and its mode, have reached the disk.
    is_synced: bool,
    // How many bytes were written since the last sync.
    unsynced: usize,
}

/// What a file is opened for.
#[derive(Clone, Copy)]
pub(crate) enum Access {
    Reading,
    Writing,
}

impl<F: Read + Write + Seek + OpenFile + Drop> Opened<F> {
    /// A file that was just opened, if it is a file and, where that is known, the one with that identity: so what was put
    /// at the name after it was looked at is refused.
    pub(crate) fn new(name: String, file: F, id: Option<FileId>) -> Result<Opened<F>, StoreRefusal>
        ensures { IfErr result IsPlain }
    {
        let metadata = or_fault(file.metadata())?;
        let opened = FileId::new(&metadata);
        if !metadata.is_file() {
            return Err(StoreRefusal::StoreFault);
        }
        if id.is_some_and(|id| id != opened) {
            return Err(StoreRefusal::StoreFault);
        }
        Ok(Opened {
            name,
            id: opened,
            file,
            mode: None,
            is_synced: false,
            unsynced: 0,
        })
    }

    /// Whether it was opened at the name.
    pub(crate) fn is_at(&self, name: &str) -> bool {
        self.name.as_str() == name
    }

    /// Whether it was opened at the name and is that file.
    pub(crate) fn is_of(&self, name: &str, id: FileId) -> bool {
        self.id == id && self.is_at(name)
    }

    /// Reads from an offset on until the buffer is full or the file ends.
    pub(crate) fn read_at(&mut self, offset: u64, buffer: &mut [u8]) -> Result<usize, StoreRefusal>
        ensures bound { IfOk result (λ k. k ≤ length buffer.new) }
        ensures refusals { IfErr result IsPlain }
    {
        or_fault(self.file.seek(SeekFrom::Start(offset)))?;
        or_fault(fill(&mut self.file, buffer))
    }

    /// Writes all bytes from an offset on. After each 64 MiB what was written reaches the disk. Notes whether the disk lacks room for it.
    pub(crate) fn write_at(
        &mut self,
        offset: u64,
        bytes: &[u8],
        lacks_room: &mut bool,
    ) -> Result<(), StoreRefusal>
        ensures { IfErr result IsPlain }
    {
        self.is_synced = false;
        or_fault(self.file.seek(SeekFrom::Start(offset)))?;
        or_no_room(self.file.write_all(bytes), lacks_room)?;
        self.unsynced = self.unsynced.saturating_add(bytes.len());
        if self.unsynced >= UNSYNCED_BYTES {
            self.sync(lacks_room)?;
        }
        Ok(())
    }

    /// Gives the file this mode, unless that is the one that it was given last.
    pub(crate) fn set_mode(&mut self, mode: u32) -> Result<(), StoreRefusal>
        ensures { IfErr result IsPlain }
    {
        if self.mode == Some(mode) {
            return Ok(());
        }
        self.is_synced = false;
        set_mode(&self.file, mode)?;
        self.mode = Some(mode);
        Ok(())
    }

    /// Gives the file this modification time, unless it has reached the disk. A time that the file system can't hold is passed over.
    pub(crate) fn set_modified(&mut self, time: SystemTime) {
        if !self.is_synced {
            let _ = self.file.set_times(FileTimes::new().set_modified(time));
        }
    }

    /// Waits until the file's bytes, its mode and its times have reached the disk. Does nothing if they have. Notes whether the disk lacks room for them.
    pub(crate) fn sync(&mut self, lacks_room: &mut bool) -> Result<(), StoreRefusal>
        ensures { IfErr result IsPlain }
    {
        if self.is_synced {
            return Ok(());
        }
        or_no_room(self.file.sync_all(), lacks_room)?;
        self.is_synced = true;
        self.unsynced = 0;
        Ok(())
    }
}

/// Opens the file of a name that was just looked at at a path, unless it is open.
pub(crate) fn reopen<R: Files>(
    disk: &Disk<R>,
    slot: &mut Option<Opened<R::File>>,
    name: &str,
    path: &str,
    id: FileId,
) -> Result<(), StoreRefusal>
    ensures { IfErr result IsPlain }
{
    if slot.as_ref().is_some_and(|opened| opened.is_of(name, id)) {
        return Ok(());
    }
    *slot = None;
    *slot = Some(open(disk, Access::Reading, name, path, id)?);
    Ok(())
}

/// Opens the file of a name that was just looked at at a path.
pub(crate) fn open<R: Files>(
    disk: &Disk<R>,
    access: Access,
    name: &str,
    path: &str,
    id: FileId,
) -> Result<Opened<R::File>, StoreRefusal>
    ensures { IfErr result IsPlain }
{
    let name = String::from_str(disk.alloc, name)?;
    let mut options = OpenOptions::new();
    match access {
        Access::Reading => options.read(true),
        // With reading, so that a pipe in the file's place is opened at once, and refused, and not when it gets a reader.
        Access::Writing => options.read(true).write(true),
    };
    let file = disk.or_fault(options.open(&disk.files, path))?;
    Opened::new(name, file, Some(id))
}
