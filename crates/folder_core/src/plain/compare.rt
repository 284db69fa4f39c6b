//! Two folders' lists compared.
ghost use Rattle.std.specs.Prelude.{◌≡◌, ◌↔◌, IsTrue, map};
ghost use Rattle.folder_core.specs.Plain.{pulled};

use super::pull::OpenPull;
use crate::Announcement;
use sync_record::laws::same_record_is_equality;
use sync_version::laws::same_counters_are_equal_vectors;

/// Whether both are the same announcements in the same order. Does not allocate. O(s) for s bytes of both.
pub(super) fn same_entries(a: &[Announcement], b: &[Announcement]) -> bool
    ensures { IsTrue result ↔ (a.now ≡ b.now) }
{
    same_record_is_equality();
    a == b
}

/// Whether the states have the same pulls in the same order. Does not allocate. O(s) for s bytes of both.
pub(super) fn same_pulls(a: &[OpenPull], b: &[OpenPull]) -> bool
    ensures { IsTrue result ↔ (map pulled a.now ≡ map pulled b.now) }
{
    same_record_is_equality();
    same_counters_are_equal_vectors();
    a == b
}
