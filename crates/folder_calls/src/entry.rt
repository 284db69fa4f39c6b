//! An entry of a folder's history: an accepted change, who asked for it, and the answer.
ghost use Rattle.std.specs.Prelude.{◌≡◌, [], false, IfOk, IsOk};
ghost use Rattle.sync_record.specs.Devices.{Identity};
ghost use Rattle.folder_core.specs.Calls.{copy_allocates};
ghost use Rattle.folder_core.specs.declared.change.Change.TheVariants.{Forget, IndexFull, IndexMore};

use folder_core::{Answer, Change};
use std::alloc::AllocError;

/// A change that a folder accepted: whose it was, what was asked, and what was answered.
#[derive(Debug, PartialEq, Eq, Drop)]
pub struct Entry {
    /// The number of the pass by which it was asked, from 1 on.
    pub pass: u64,
    pub change: Change,
    pub answer: Answer,
}

impl Entry {
    /// The same entry once more. Returns `Err` only if out of memory, and never if the change is `Forget` or an index without
    /// records, and the answer says nothing of a version or a pull. O(n) time and memory for the size n of the change and the answer.
    pub fn copy(&self) -> Result<Entry, AllocError>
        ensures same { IfOk result (λ entry. entry ≡ self.now) }
        ensures forget { (d : Identity) → self.now.change ≡ Forget d →
            copy_allocates self.now.answer ≡ false → IsOk result }
        ensures no_records_full { (d : Identity) → self.now.change ≡ IndexFull d [] →
            copy_allocates self.now.answer ≡ false → IsOk result }
        ensures no_records_more { (d : Identity) → self.now.change ≡ IndexMore d [] →
            copy_allocates self.now.answer ≡ false → IsOk result }
    {
        Ok(Entry {
            pass: self.pass,
            change: self.change.copy()?,
            answer: self.answer.copy()?,
        })
    }
}
