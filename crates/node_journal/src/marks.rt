//! Which frames of a journal follow a state.
ghost use Rattle.std.specs.Prelude.{◌≡◌, ◌≢◌, ℕ, ◌<◌, ◌≤◌, drop, length, option_copied};
ghost use Rattle.node_journal.specs.Marks.{behind_mark, frames_behind};

use crate::frame::Frame;
use crate::reading::Journal;

/// The frames that follow the state file with this digest: those behind the last one that bears it as its mark, or all where none
/// does and the journal continues that state; `None` where the journal doesn't know the state. Does not allocate. O(n) for n frames.
pub fn frames_behind<'a>(journal: &'a Journal, digest: &[u8; 32]) -> Option<&'a [Frame]>
    ensures { option_copied result ≡ frames_behind digest.now journal.now }
{
    let frames = journal.kept.frames.as_slice();
    match behind_mark(frames, digest) {
        Some(behind) => Some(behind),
        None => {
            if journal.header.state_digest == *digest {
                Some(frames)
            } else {
                None
            }
        }
    }
}

// The frames behind the last one with this mark.
fn behind_mark<'a>(frames: &'a [Frame], digest: &[u8]) -> Option<&'a [Frame]>
    ensures { option_copied result ≡ behind_mark digest.now frames.now }
{
    for at in (0..frames.len()).rev() {
        if frames[at].mark.as_slice() == digest {
            return Some(frames.split_at(at + 1).1);
        }
    }
    None
}
