//! What the system says of the files of a folder.
ghost use Rattle.std.specs.Prelude.{◌≡◌};
ghost use Rattle.node_files.specs.Times.{time_of};

use file_store::StoreRefusal;
use folder_look::{EntryKind, Facts};
use std::fs::{Files, Metadata, symlink_metadata};
use std::io::{self, ErrorKind, Read};
use std::os::unix::fs::MetadataExt;

/// How many bytes of a directory's names are read at once.
const NAMES: usize = 8_192;

/// Nanoseconds in a second.
const NANOSECONDS: i64 = 1_000_000_000;

/// What the system says of what is at a path; nothing where nothing is.
pub(crate) fn facts_at<R: Files>(files: &R, path: &str) -> Result<Option<Facts>, StoreRefusal> {
    match symlink_metadata(files, path) {
        Ok(metadata) => Ok(Some(facts_of(&metadata))),
        Err(error) => match error.kind() {
            ErrorKind::NotFound | ErrorKind::NotADirectory => Ok(None),
            _ => Err(refusal_of(&error)),
        },
    }
}

/// Appends the names in the directory at a path, each ended by the byte 0.
pub(crate) fn names_at<R: Files>(
    files: &R,
    path: &str,
    names: &mut Vec<u8>,
) -> Result<(), StoreRefusal> {
    let mut buffer = [0u8; NAMES];
    let mut directory = match files.open_dir(path) {
        Ok(directory) => directory,
        Err(error) => return Err(refusal_of(&error)),
    };
    for _ in 0..u64::MAX {
        match directory.read(&mut buffer) {
            Ok(0) => return Ok(()),
            Ok(count) => names.extend_from_slice(&buffer[..count])?,
            Err(error) => return Err(refusal_of(&error)),
        }
    }
    Err(StoreRefusal::StoreFault)
}

fn facts_of(metadata: &Metadata) -> Facts {
    Facts {
        kind: if metadata.is_dir() {
            EntryKind::Directory
        } else if metadata.is_file() {
            EntryKind::File
        } else {
            EntryKind::Other
        },
        size: metadata.len(),
        modified: time_of(metadata.mtime(), metadata.mtime_nsec()),
        changed: time_of(metadata.ctime(), metadata.ctime_nsec()),
        inode: metadata.ino(),
    }
}

/// Nanoseconds since 1970, as far as they fit. O(1).
pub fn time_of(seconds: i64, nanoseconds: i64) -> i64
    ensures { result ≡ time_of seconds nanoseconds }
{
    seconds
        .saturating_mul(NANOSECONDS)
        .saturating_add(nanoseconds)
}

fn refusal_of(error: &io::Error) -> StoreRefusal {
    match error.kind() {
        ErrorKind::OutOfMemory => StoreRefusal::OutOfMemory,
        _ => StoreRefusal::StoreFault,
    }
}
