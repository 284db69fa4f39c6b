//! What is at a path of the disk.
ghost use Rattle.std.specs.Prelude.{◌≡◌};
ghost use Rattle.file_dir.specs.Times.{moment_of};

use std::fs::Metadata;
use std::os::unix::fs::MetadataExt;
use sync_version::Moment;

/// What is at a path of the disk.
#[derive(Clone, Copy)]
pub(crate) enum Found {
    Nothing,
    Directory(FileId),
    File(FileFacts),
    /// A symbolic link.
    Link,
    /// A pipe, a socket or a device.
    Special,
}

/// What the system says of a file: its bytes, when it was modified, its mode, and which file it is.
#[derive(Clone, Copy)]
pub(crate) struct FileFacts {
    pub(crate) len: u64,
    pub(crate) modified: Moment,
    pub(crate) mode: u32,
    pub(crate) id: FileId,
    // When its bytes were changed last, and when anything of it was.
    written: Time,
    changed: Time,
}

/// The seconds since 1970, and nanoseconds.
#[derive(Clone, Copy, PartialEq, Eq)]
struct Time {
    seconds: i64,
    nanoseconds: i64,
}

/// Which file it is, whatever its path.
#[derive(Clone, Copy, PartialEq, Eq)]
pub(crate) struct FileId {
    device: u64,
    inode: u64,
}

impl Found {
    pub(crate) fn new(metadata: &Metadata) -> Found {
        if metadata.is_dir() {
            Found::Directory(FileId::new(metadata))
        } else if metadata.is_file() {
            Found::File(FileFacts {
                len: metadata.len(),
                modified: moment_of(metadata.mtime()),
                mode: metadata.mode(),
                id: FileId::new(metadata),
                written: Time {
                    seconds: metadata.mtime(),
                    nanoseconds: metadata.mtime_nsec(),
                },
                changed: Time {
                    seconds: metadata.ctime(),
                    nanoseconds: metadata.ctime_nsec(),
                },
            })
        } else if metadata.is_symlink() {
            Found::Link
        } else {
            Found::Special
        }
    }

    /// Whether it is what was found before: nothing, or the same file, unchanged.
    pub(crate) fn is_as(&self, before: &Found) -> bool {
        match (self, before) {
            (Found::Nothing, Found::Nothing) => true,
            (Found::File(now), Found::File(before)) => {
                now.has_bytes_of(before) && now.changed == before.changed
            }
            _ => false,
        }
    }
}

impl FileFacts {
    /// Whether it is that file, and its bytes were not changed since, whatever else was.
    pub(crate) fn has_bytes_of(&self, before: &FileFacts) -> bool {
        self.id == before.id && self.len == before.len && self.written == before.written
    }
}

impl FileId {
    pub(crate) fn new(metadata: &Metadata) -> FileId {
        FileId {
            device: metadata.dev(),
            inode: metadata.ino(),
        }
    }
}

/// The moment of so many seconds since 1970-01-01T00:00:00Z; 0 if there is none. O(1).
fn moment_of(seconds: i64) -> Moment
    ensures { result ≡ moment_of seconds }
{
    match u64::try_from(seconds) {
        Ok(seconds) => Moment::new(seconds).unwrap_or(epoch()),
        Err(_) => epoch(),
    }
}

fn epoch() -> Moment
    ensures { result ≡ 0 }
{
    Moment::new(0).unwrap()
}
