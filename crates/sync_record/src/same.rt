//! Whether two records are equal in their numbers and flags, which are compared before names and blocks.
ghost use Rattle.std.specs.Prelude.{◌≡◌};
ghost use Rattle.sync_record.specs.Same.{same_numbers};

use crate::Record;

/// Whether two records have the same numbers and flags. O(1).
pub(crate) fn same_numbers(a: &Record, b: &Record) -> bool
    ensures { result ≡ same_numbers a.now b.now }
{
    a.fields.plain == b.fields.plain && a.sequence == b.sequence
}
