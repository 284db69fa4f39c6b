//! A copy of a version vector that may be absent.
ghost use Rattle.std.specs.Prelude.{◌≡◌, IfOk, IsOk, None, option_copied};

use std::alloc::AllocError;
use sync_version::Version;

/// The same version once more, if there is one. Returns `Err` only if out of memory, and never if there is none. O(n) time and
/// memory for n counters.
pub(crate) fn copied_version(version: Option<&Version>) -> Result<Option<Version>, AllocError>
    ensures value { IfOk result (λ copy. copy ≡ option_copied version.entry) }
    ensures none { option_copied version.entry ≡ None → IsOk result }
{
    match version {
        Some(version) => Ok(Some(version.copy()?)),
        None => Ok(None),
    }
}
