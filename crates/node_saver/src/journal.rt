//! The interface of a journal that frames are appended to: append, sync to the disk, take back, fold into less room.
use crate::SaveFault;
use node_journal::Frame;

/// Where frames are appended: a file, or what a test has in its place. What it made of a frame is a value of which nothing else is known.
pub trait FrameJournal {
    ghost use Rattle.std.specs.Prelude.{OnOk};
    ghost use Rattle.node_journal.specs.declared.frame.Frame.{Frame as FrameOf};

    /// This frame was appended to the one, which is then the other.
    ghost appends: { Self → FrameOf → Self → Type 0 };

    /// Appends a frame.
    fn append(&mut self, frame: &Frame) -> Result<(), SaveFault>
        ensures { OnOk result (appends self.old frame.now self.new) };
}

/// A journal on a disk: what is appended counts once it is there.
pub trait DiskJournal: FrameJournal {
    /// What was appended since this was called last is on the disk, and counts. After an error none of it counts.
    fn sync(&mut self) -> Result<(), SaveFault>;

    /// None of what was appended since the last sync will count.
    fn take_back(&mut self);

    /// Whatever is on the disk is written anew in less room, if it has become long. What counts stays the same.
    fn fold(&mut self);

    /// Whether what counted is gone from the disk, though there is a place for it again: only the whole state, written anew, brings it back. It answers so once in a
    /// while, until that is done.
    fn is_gone(&mut self) -> bool;

    /// Which file could not be written last, and why, if one could not and memory was there to say so.
    fn trouble(&self) -> Option<&str>;
}
