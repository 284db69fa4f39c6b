//! The frames of a journal file that count, where they end, and whether what follows is torn (a kill) or broken.
use crate::frame::Frame;
use bep_messages::Items;

/// What follows the frames of a journal that count.
#[derive(Clone, Copy, Debug, PartialEq, Eq)]
pub enum JournalEnd {
    /// Nothing.
    Whole,
    /// Frames that no whole one follows, or less than a frame: what a kill leaves.
    Torn,
    /// Bytes that are no frame, maybe after such frames.
    Broken,
}

/// The frames of a journal that count.
#[derive(Debug, Drop)]
pub struct KeptFrames {
    /// The frames up to the last one that is whole.
    pub frames: Items<Frame>,
    /// Where they end, in bytes from the journal's beginning: there the next frame is appended.
    pub len: usize,
    pub end: JournalEnd,
}
