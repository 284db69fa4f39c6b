//! The number, name, base and target record of an open pull, as its ticket or its commit has them.
ghost use Rattle.std.specs.Prelude.{◌≡◌, IfOk};

use std::alloc::AllocError;
use sync_names::SafeName;
use sync_record::Record;

/// What is said of an open pull: by the ticket of one that began, and by the commit of one that was entered.
#[derive(Debug, PartialEq, Eq, Drop)]
pub struct PullInfo {
    /// Its number; no two open pulls of a folder have the same one.
    pub number: u64,
    pub name: SafeName,
    /// The local record when it began, if there was one.
    pub base: Option<Record>,
    /// The record whose file is fetched.
    pub target: Record,
}

impl PullInfo {
    /// The same once more. Returns `Err` only if out of memory. O(n) time and memory for n bytes of the name; the
    /// records share their memory.
    pub fn copy(&self) -> Result<PullInfo, AllocError>
        ensures { IfOk result (λ info. info ≡ self.now) }
    {
        let base = match &self.base {
            Some(record) => Some(record.copy()?),
            None => None,
        };
        Ok(PullInfo {
            number: self.number,
            name: self.name.copy()?,
            base,
            target: self.target.copy()?,
        })
    }
}
