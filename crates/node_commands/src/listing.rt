//! The names and records of a folder, a page at a time.
ghost use Rattle.std.specs.Prelude.{IfOk, IsTrue};
ghost use Rattle.sync_names.specs.Copies.{IsConflictCopy};
ghost use Rattle.sync_record.specs.Records.{Name};

use crate::refusal::Refusal;
use folder_calls::FolderCalls;
use record_lines::{push_name, push_record};
use std::alloc::{AllocError, Global};
use std::io::Write;
use sync_names::{NameFault, SafeName, is_conflict_copy};
use sync_record::Record;

/// How many names are read at once.
const PAGE: usize = 1_000;

/// What is asked of bests.
#[derive(Clone, Copy)]
pub(crate) enum Listed {
    /// Those of names that are needed or have a local record.
    Bests,
    /// The local records.
    Locals,
    /// The conflict copies that are there.
    Conflicts,
}

/// Writes the needed names, and `end`.
pub(crate) fn list_needed<W: FolderCalls, O: Write>(
    alloc: Global,
    calls: &mut W,
    output: &mut O,
) -> Result<(), Refusal> {
    let mut lines = Vec::new(alloc);
    let mut page = calls.need(None, PAGE)?.value;
    for _ in 0..u64::MAX {
        let Some(last) = page.as_slice().last() else {
            break;
        };
        lines.clear();
        for name in page.as_slice() {
            lines.extend_from_slice(b"need ")?;
            push_name(&mut lines, name)?;
            lines.extend_from_slice(b"\n")?;
        }
        output.write_all(lines.as_slice())?;
        page = calls.need(Some(last), PAGE)?.value;
    }
    output.write_all(b"end\n")?;
    Ok(())
}

/// Writes bests, local records or conflict copies, and `end`. (Each local record is of a name that has a best.)
pub(crate) fn list<W: FolderCalls, O: Write>(
    alloc: Global,
    calls: &mut W,
    listed: Listed,
    output: &mut O,
) -> Result<(), Refusal> {
    let mut lines = Vec::new(alloc);
    let mut page = calls.bests(None, PAGE)?.value;
    for _ in 0..u64::MAX {
        let Some(last) = page.as_slice().last() else {
            break;
        };
        lines.clear();
        for best in page.as_slice() {
            let local = calls.local(best.record.name())?.value;
            match (listed, &local) {
                (Listed::Locals, Some(local)) => push_line(&mut lines, "local ", local)?,
                (Listed::Conflicts, Some(local)) => push_conflict(alloc, &mut lines, local)?,
                (Listed::Locals | Listed::Conflicts, None) => {}
                // (a deleted best without a local record isn't needed)
                (Listed::Bests, local) => {
                    if local.is_some() || !best.record.is_deleted() {
                        push_line(&mut lines, "best ", &best.record)?;
                    }
                }
            }
        }
        output.write_all(lines.as_slice())?;
        page = calls.bests(Some(last.record.name()), PAGE)?.value;
    }
    output.write_all(b"end\n")?;
    Ok(())
}

fn push_line(lines: &mut Vec<u8>, word: &str, record: &Record) -> Result<(), AllocError> {
    lines.extend_from_slice(word.as_bytes())?;
    push_record(lines, record)?;
    lines.push(b'\n')?;
    Ok(())
}

// Appends the line of a record, if it is that of a conflict copy that is there.
fn push_conflict(alloc: Global, lines: &mut Vec<u8>, record: &Record) -> Result<(), AllocError> {
    if !record.is_deleted() && is_copy(alloc, record.name())? {
        lines.extend_from_slice(b"conflict ")?;
        push_name(lines, record.name())?;
        lines.push(b'\n')?;
    }
    Ok(())
}

// Whether the name is that of a conflict copy of some name.
fn is_copy(alloc: Global, name: &SafeName) -> Result<bool, AllocError>
    ensures { IfOk result (λ is. IsTrue is → (original : Name) × IsConflictCopy original name.now) }
{
    let Some((front, marked)) = name.as_str().rsplit_once(MARK) else {
        return Ok(false);
    };
    let Some(end) = marked.get(MARK_REST..) else {
        return Ok(false);
    };
    match SafeName::parse(alloc, format!(in alloc; "{front}{end}")?.as_str()) {
        Ok(original) => Ok(is_conflict_copy(name, &original)),
        Err(NameFault::OutOfMemory) => Err(AllocError),
        Err(_) => Ok(false),
    }
}

// What stands in the name of a conflict copy, before the moment and the device.
const MARK: &str = ".sync-conflict-";

// How many bytes these have.
const MARK_REST: usize = 23;
