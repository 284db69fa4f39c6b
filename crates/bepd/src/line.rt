//! The lines of a listing, as bytes that are appended to a buffer.
ghost use Rattle.std.specs.Prelude.{◌≡◌, ◌++◌, OnOk};
ghost use Rattle.bepd.specs.Lines.{best_line, skipped_line};

use itoa::Buffer;
use record_lines::push_record;
use std::alloc::AllocError;
use sync_record::Record;

/// Appends the line of a name's best record: `best KIND SIZE VERSION NAME`. O(n) for n bytes of the line. Returns
/// `Err` only if out of memory.
pub(crate) fn push_best(line: &mut Vec<u8>, record: &Record) -> Result<(), AllocError>
    ensures { OnOk result (line.new.items ≡ line.old.items ++ best_line «record».now) }
{
    line.extend_from_slice(b"best ")?;
    push_record(line, record)?;
    line.push(b'\n')?;
    Ok(())
}

/// Appends the last line: `skipped N`. Returns `Err` only if out of memory.
pub(crate) fn push_skipped(line: &mut Vec<u8>, count: u64) -> Result<(), AllocError>
    ensures { OnOk result (line.new.items ≡ line.old.items ++ skipped_line count) }
{
    line.extend_from_slice(b"skipped ")?;
    let mut digits = Buffer::new();
    line.extend_from_slice(digits.format(count).as_bytes())?;
    line.push(b'\n')?;
    Ok(())
}
