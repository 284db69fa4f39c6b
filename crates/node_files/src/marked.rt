//! A folder that may be away for a time.
use file_dir::Skipped;
use file_store::StoreRefusal;
use folder_look::Facts;
use std::io;
use sync_names::SafeName;

/// Where a folder is.
#[derive(Clone, Copy, Debug, PartialEq, Eq)]
pub enum Whereabouts {
    /// It is there, with its marker, and this run has it.
    There,
    /// It isn't there, or has no marker, or another directory is in its place.
    Away,
    /// Another run has it.
    InUse,
    /// It is there again, but what pulls of the last run left in it wasn't looked at yet.
    Unsettled,
    /// It is there, and of the names that are recorded of it none is: it waits until somebody says what that means.
    Held,
    /// Memory ran out before that was known.
    Unknown,
}

/// A folder that may be away for a time.
pub trait Marked {
    /// Where the folder is now.
    fn look(&mut self) -> Whereabouts;

    /// It is known to all who look at the folder that it isn't there: what is at its path next is taken anew. As long as this isn't called, another directory in its
    /// place is away.
    fn let_go(&mut self);

    /// What its last listing left out, once.
    fn take_skipped(&mut self) -> Vec<Skipped>;

    /// The name to which a file was moved last, if one was since this was called last.
    fn take_moved(&mut self) -> Option<SafeName>;

    /// The file that is put in place next at this name gets this modification time, as far as the folder can.
    fn set_modified(&mut self, name: &SafeName, seconds: i64, nanoseconds: u32);

    /// Removes the versions of files that were kept before so many seconds since 1970, if the folder is there. Returns how many these were.
    fn remove_versions(&mut self, before: u64) -> Result<usize, StoreRefusal>;

    /// Whether the last `StoreFault` came of a disk that is full, or of a quota.
    fn lacks_room(&self) -> bool;

    /// What the system said where the last call was a `StoreFault`, if it came of an error of the system.
    fn last_error(&self) -> Option<io::Error>;

    /// What the system says of what is at a path; nothing where nothing is. Fails with `StoreFault` where that can't be found out. It does not look whether
    /// the folder is there.
    fn facts_at(&self, path: &str) -> Result<Option<Facts>, StoreRefusal>;

    /// Appends the names in the directory at a path, each ended by the byte 0. Fails with `StoreFault` where it can't be read to its end.
    fn names_at(&self, path: &str, names: &mut Vec<u8>) -> Result<(), StoreRefusal>;
}
