//! What a scan finds at a name, and what comes of it: the folder's answer, or skipped, or changing while it is read.
use folder_calls::ScanRefusal;
use folder_core::{Finding, ScanAnswer};

/// What the scan of a name came to.
#[derive(Debug, Drop)]
pub enum Scanned {
    /// The folder was asked to record what was found, and returned this.
    Answered(Result<ScanAnswer, ScanRefusal>),
    /// The folder was not asked: a file of more than [`MAX_FILE_SIZE`] bytes is there, or something that is neither a file nor a
    /// directory is there or in a parent's place.
    ///
    /// [`MAX_FILE_SIZE`]: crate::MAX_FILE_SIZE
    Skipped,
    /// The folder was not asked: the file's size changed while it was read.
    Changing,
}

/// What was found at a name.
#[derive(Debug, Drop)]
pub enum Look {
    /// A file or a directory.
    Found(Finding),
    /// Nothing.
    Gone,
    /// What is not recorded: a file of too many bytes, or neither a file nor a directory.
    Skipped,
    /// A file whose size changed while it was read.
    Changing,
}
