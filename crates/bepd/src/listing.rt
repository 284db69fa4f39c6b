//! The listing of what was received.
ghost use Rattle.std.specs.Prelude.{◌≡◌, ◌≢◌, ◌++◌, IfErr, OnOk, flat_map};
ghost use Rattle.std.specs.Io.KnownBytes.{Appends};
ghost use Rattle.folder_core.specs.Announced.{IsNamed};
ghost use Rattle.bepd.specs.Endings.{WritesFront, failed_writes_after};
ghost use Rattle.bepd.specs.Lines.{best_line, skipped_line};
ghost use Rattle.bepd.specs.Listing.{best_lines};

use crate::counted::CountedWriter;
use crate::ending::Failure;
use crate::line::{push_best, push_skipped};
use crate::received::Received;
use folder_core::{Best, FolderCore};
use std::alloc::{AllocError, Global};
use std::io::Write;

/// How many bests are read of the folder and written at once.
const PAGE: usize = 1_000;

/// Writes a line for each name that has a best, in byte order, and then how many records were skipped; and flushes the
/// writer. After a failure the lines so far may be written.
///
/// O(n) for n names, and what their lines have, and for each page a search of the folder. Memory for a page of records
/// and lines.
pub(crate) fn write_listing<F: FolderCore, W: Write>(
    alloc: Global,
    received: &Received<F>,
    writer: &mut CountedWriter<W>,
) -> Result<(), Failure>
    requires named { IsNamed (F.state received.now.folder).announced }
    ensures listed { OnOk result (Appends (W.contents writer.old.inner) (W.contents writer.new.inner)
        (best_lines (F.state received.now.folder) ++ skipped_line received.now.skipped)) }
    ensures failed { IfErr result (λ failure. WritesFront failure (best_lines (F.state received.now.folder) ++ skipped_line received.now.skipped)
        (W.contents writer.old.inner) (W.contents writer.new.inner)) }
    ensures refused { IfErr result (λ failure. failure ≢ Failure.Read) }
    ensures counted { writer.new.failed ≡ failed_writes_after result writer.old.failed }
{
    let mut lines = Vec::new(alloc);
    let mut page = received.folder.bests(None, PAGE)?;
    while let Some(last) = page.as_slice().last() {
        lines.clear();
        push_bests(&mut lines, page.as_slice())?;
        writer.write_all(lines.as_slice())?;
        page = received.folder.bests(Some(last.record.name()), PAGE)?;
    }
    lines.clear();
    push_skipped(&mut lines, received.skipped)?;
    writer.write_all(lines.as_slice())?;
    writer.flush()
}

/// Appends the lines of these bests. Returns `Err` only if out of memory.
fn push_bests(lines: &mut Vec<u8>, bests: &[Best]) -> Result<(), AllocError>
    ensures { OnOk result (lines.new.items ≡ lines.old.items ++ flat_map (λ b. best_line b.record) bests.now) }
{
    for best in bests {
        push_best(lines, &best.record)?;
    }
    Ok(())
}
