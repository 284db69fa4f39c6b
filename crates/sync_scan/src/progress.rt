//! The interface that is told of a scan's progress: bytes hashed, names scanned, what each name came to.
use crate::Scanned;
use file_store::StoreRefusal;
use sync_names::SafeName;

/// What is told of a scan while it runs.
pub trait Progress {
    /// So many more bytes were read and hashed.
    fn hashed(&mut self, bytes: u64);

    /// So many names of the listing, which has so many, were scanned.
    fn scanned(&mut self, names: u64, listed: u64);

    /// The scan of this name came to this. It is called once for each name that a scan of all names looks at, in their order, and not for one below a
    /// directory that could not be read.
    fn came_to(&mut self, name: &SafeName, scanned: &Result<Scanned, StoreRefusal>);
}

/// Takes no notice of a scan. It costs nothing.
#[derive(Clone, Copy, Debug, PartialEq, Eq)]
pub struct NoProgress;

impl Progress for NoProgress {
    #[inline]
    fn hashed(&mut self, _bytes: u64) {}

    #[inline]
    fn scanned(&mut self, _names: u64, _listed: u64) {}

    #[inline]
    fn came_to(&mut self, _name: &SafeName, _scanned: &Result<Scanned, StoreRefusal>) {}
}
