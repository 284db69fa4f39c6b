//! The files that a node reads and writes.
use crate::failure::RunFailure;
use crate::naming::file_failure;
use node_context::HeldMemory;
use std::alloc::Global;
use std::fs::{self, File, Files, OpenFile, OpenOptions, TryLockError};
use std::io::{self, ErrorKind, Read, Seek, SeekFrom, Write};
use std::os::unix::fs::MetadataExt;

/// The most bytes of a configuration.
const MAX_CONFIG_BYTES: u64 = 16_777_216;

/// The most bytes of a state file, and of its journal.
const MAX_STATE_BYTES: u64 = 1 << 40;

/// The bytes of a configuration; one of more than 16 MiB is cut.
pub(crate) fn read_config_file<R: Files>(
    rt: &R,
    alloc: Global,
    path: &str,
) -> Result<Vec<u8>, RunFailure> {
    match read_front(rt, alloc, path, MAX_CONFIG_BYTES) {
        Ok(bytes) => Ok(bytes),
        Err(error) => Err(file_failure(alloc, "configuration", path, error)),
    }
}

/// The first bytes of a file, so many at most.
pub(crate) fn read_front<R: Files>(
    rt: &R,
    alloc: Global,
    path: &str,
    most: u64,
) -> io::Result<Vec<u8>> {
    let mut bytes = Vec::new(alloc);
    File::open(rt, path)?.take(most).read_to_end(&mut bytes)?;
    Ok(bytes)
}

/// What reads and writes a state file and its journal. Each handle that has [`Files`] does; a thread takes it by this trait.
pub trait StateFiles: HeldMemory {
    /// The bytes of the file at the path; `None` where there is none.
    fn read_file(&self, alloc: Global, path: &str) -> io::Result<Option<Vec<u8>>>;

    /// Makes a file at the path with these bytes, in place of any that is there. They are on the disk, under that name.
    fn make_file(&self, path: &str, bytes: &[u8]) -> io::Result<File>;

    /// Opens the file at the path to write behind so many bytes of it. What follows them is cut.
    fn open_behind(&self, path: &str, len: u64) -> io::Result<File>;

    /// Gives the file at `new` the path, in place of any that is there, so that there is always a whole one. On the disk, too.
    fn put_in_place(&self, new: &str, path: &str) -> io::Result<()>;

    /// Makes a file at `new` with these bytes, and gives it the path, in place of any that is there, so that there is always a whole one. It need not be on the disk.
    fn replace_file(&self, new: &str, path: &str, bytes: &[u8]) -> io::Result<()>;

    /// Removes the file at the path, if one is there.
    fn remove(&self, path: &str);

    /// Whether a directory is at the path, links followed.
    fn is_directory(&self, path: &str) -> bool;

    /// Whether something is at the path, a link not followed.
    fn is_there(&self, path: &str) -> bool;

    /// Whether the open file, which was at the path, was removed.
    fn is_removed(&self, file: &File, path: &str) -> bool;

    /// Opens the file at the path, which is made where there is none, under a lock of the system, for as long as it is open.
    fn lock_file(&self, path: &str) -> Result<File, TryLockError>;
}

impl<R: Files<File = File>> StateFiles for R {
    fn read_file(&self, alloc: Global, path: &str) -> io::Result<Option<Vec<u8>>> {
        match read_front(self, alloc, path, MAX_STATE_BYTES) {
            Ok(bytes) => Ok(Some(bytes)),
            Err(error) if error.kind() == ErrorKind::NotFound => Ok(None),
            Err(error) => Err(error),
        }
    }

    fn make_file(&self, path: &str, bytes: &[u8]) -> io::Result<File> {
        let mut file = File::create(self, path)?;
        file.write_all(bytes)?;
        file.sync_all()?;
        sync_directory_of(self, path)?;
        Ok(file)
    }

    fn open_behind(&self, path: &str, len: u64) -> io::Result<File> {
        let mut options = OpenOptions::new();
        options.write(true);
        let file = options.open(self, path)?;
        if file.metadata()?.len() > len {
            file.set_len(len)?;
            file.sync_all()?;
        }
        Ok(file)
    }

    fn put_in_place(&self, new: &str, path: &str) -> io::Result<()> {
        fs::rename(self, new, path)?;
        sync_directory_of(self, path)
    }

    fn replace_file(&self, new: &str, path: &str, bytes: &[u8]) -> io::Result<()> {
        File::create(self, new)?.write_all(bytes)?;
        fs::rename(self, new, path)
    }

    fn remove(&self, path: &str) {
        // (what stays is taken for nothing)
        let _ = fs::remove_file(self, path);
    }

    fn is_directory(&self, path: &str) -> bool {
        match fs::metadata(self, path) {
            Ok(found) => found.is_dir(),
            Err(_) => false,
        }
    }

    fn is_there(&self, path: &str) -> bool {
        fs::symlink_metadata(self, path).is_ok()
    }

    fn is_removed(&self, file: &File, path: &str) -> bool {
        let Ok(open) = file.metadata() else {
            return false;
        };
        if open.nlink() != 0 {
            return false;
        }
        // (some file systems count no names)
        match fs::symlink_metadata(self, path) {
            Ok(found) => found.ino() != open.ino() || found.dev() != open.dev(),
            Err(_) => true,
        }
    }

    fn lock_file(&self, path: &str) -> Result<File, TryLockError> {
        let mut options = OpenOptions::new();
        options.read(true).write(true).create(true);
        let file = match options.open(self, path) {
            Ok(file) => file,
            Err(error) => return Err(TryLockError::Error(error)),
        };
        file.try_lock()?;
        Ok(file)
    }
}

// What the directory of the path names is on the disk.
fn sync_directory_of<R: Files>(rt: &R, path: &str) -> io::Result<()> {
    File::open(rt, directory_of(path))?.sync_all()?;
    Ok(())
}

/// The path of the directory in which a path is.
pub(crate) fn directory_of(path: &str) -> &str {
    match path.rsplit_once('/') {
        Some(("", _)) => "/",
        Some((directory, _)) => directory,
        None => ".",
    }
}

/// Writes these bytes behind so many of the file. They are on the disk.
pub(crate) fn write_behind(file: &mut File, len: u64, bytes: &[u8]) -> io::Result<()> {
    file.seek(SeekFrom::Start(len))?;
    file.write_all(bytes)?;
    file.sync_data()?;
    Ok(())
}
