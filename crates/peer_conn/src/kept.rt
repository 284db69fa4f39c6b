//! The interface that says which local records are saved: only these are told to a peer.
use folder_calls::FolderCalls;

/// Calls of a folder that say how far this device's records of it are kept. A peer is told of no other: a record that it was told, and that a kill takes
/// back, would be given out twice.
pub trait KeptCalls: FolderCalls {
    ghost use Rattle.std.specs.Prelude.{ℕ};

    /// This sequence was once said of the folder.
    ghost says: { Self.Folder → ℕ → Type 0 };

    /// The sequence up to which all local records are kept. O(1).
    fn kept_up_to(&self) -> u64
        ensures { says (Self.folder self.now) result };

    /// Asks that the others be kept soon, since a peer waits for them.
    fn ask_to_keep(&self);
}
