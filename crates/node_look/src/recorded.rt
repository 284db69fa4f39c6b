//! Whether a file is as its record says, by what the system says of it.
ghost use Rattle.std.specs.Prelude.{◌≡◌};
ghost use Rattle.node_look.specs.Recorded.{is_file_of, is_in, is_put, may_be};

use folder_look::{EntryKind, Facts};
use node_files::time_of;
use sync_record::{Kind, Record};

/// Nanoseconds in a second.
const SECOND: i64 = 1_000_000_000;

/// Whether a file is the one that a pull has put in place for this record: it has its size, and its modification time to the nanosecond.
pub(crate) fn is_put(record: &Record, facts: Facts) -> bool
    ensures { result ≡ is_put «record».now facts }
{
    let (seconds, nanoseconds) = record.modified();
    is_file_of(record, facts) && facts.modified == time_of(seconds, i64::from(nanoseconds))
}

/// Whether what is at a name may be as its record says: a file of its size, with its modification time to the second, or anything that is no file.
pub(crate) fn may_be(record: &Record, facts: Facts) -> bool
    ensures { result ≡ may_be «record».now facts }
{
    let (seconds, _) = record.modified();
    match facts.kind {
        EntryKind::File => is_file_of(record, facts) && is_in(facts.modified, time_of(seconds, 0)),
        EntryKind::Directory => true,
        EntryKind::Other => true,
    }
}

// Whether a time is in the second that begins then.
fn is_in(time: i64, start: i64) -> bool
    ensures { result ≡ is_in time start }
{
    start <= time && time.saturating_sub(start) < SECOND
}

// Whether both are files, of one size.
fn is_file_of(record: &Record, facts: Facts) -> bool
    ensures { result ≡ is_file_of «record».now facts }
{
    !record.is_deleted()
        && record.kind() == Kind::File
        && facts.kind.is(EntryKind::File)
        && u64::try_from(record.size()) == Ok(facts.size)
}
