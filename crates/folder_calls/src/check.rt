//! The check of a history: it is made once more, on a copy of the folder that was opened.
ghost use Rattle.std.specs.Prelude.{◌≡◌, ◌↔◌, [], IfErr, IfOk, IsOk, IsTrue};
ghost use Rattle.std.specs.FinMap.{len};
ghost use Rattle.folder_calls.specs.Histories.{IsReplay, MayFollow, after};

use crate::Entry;
use folder_core::laws::comparison_is_equality;
use folder_core::{FolderCore, PlainFolder, make};
use std::alloc::AllocError;

/// Whether the entries lead from the folder `opening`, which has no open pull, to the folder `end`. They are made one after the
/// other on a copy of `opening`: each is of a pass from 1 to `passes` and a change that its caller may ask for, and there the
/// folder accepts it with just its answer. Returns `Err` only if out of memory; never where there are no entries, or where
/// `opening` has an open pull.
///
/// O(n + c) time and memory for n records of `opening`, which share their memory, and the changes' own cost c on a plain folder
/// with a copy of each.
pub fn replays(
    opening: &PlainFolder,
    entries: &[Entry],
    passes: u64,
    end: &PlainFolder,
) -> Result<bool, AllocError>
    ensures replays { IfOk result (λ yes. IsTrue yes
        ↔ IsReplay passes opening.now entries.now end.now) }
    ensures open { IfErr result (λ _. len opening.now.pulls ≡ 0) }
    ensures nothing { entries.now ≡ [] → IsOk result }
{
    if opening.counts().pulls != 0 {
        return Ok(false);
    }
    if entries.is_empty() {
        return Ok(opening.same_state(end));
    }
    let mut folder = opening.plain_copy()?;
    for entry in entries {
        if !follow(&mut folder, passes, entry)? {
            return Ok(false);
        }
    }
    Ok(folder.same_state(end))
}

// Makes the entry's change, and returns whether the entry may come next. Returns `Err` only if out of memory.
fn follow(folder: &mut PlainFolder, passes: u64, entry: &Entry) -> Result<bool, AllocError>
    ensures follows { IfOk result (λ yes. IsTrue yes ↔ MayFollow passes folder.old entry.now) }
    ensures made { IfOk result (λ yes. IsTrue yes → folder.new ≡ after folder.old entry.now) }
{
    let is_given = 1 <= entry.pass && entry.pass <= passes;
    if !is_given || !entry.change.is_allowed(folder.me()) || !folder.accepts(&entry.change) {
        return Ok(false);
    }
    comparison_is_equality();
    let answer = make(folder, entry.change.copy()?)?;
    Ok(answer == entry.answer)
}
