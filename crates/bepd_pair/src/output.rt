//! What commands print, as lines that are appended to a buffer.
ghost use Rattle.std.specs.Prelude.{◌≡◌, ◌++◌, OnOk, decimal};
ghost use Rattle.bepd_pair.specs.Lines.{answer_text, counts_text, local_line, pull_line, refused_line, scan_line, sync_line};

use crate::command::Side;
use crate::refused::Refused;
use itoa::Buffer;
use record_lines::{push_name, push_record};
use std::alloc::AllocError;
use sync_names::SafeName;
use sync_pull::PullAnswer;
use sync_record::Record;
use sync_scan::ScanSum;

/// Appends the line of a refusal. Returns `Err` only if out of memory, as each of these functions does.
pub(crate) fn push_refused(lines: &mut Vec<u8>, refused: Refused) -> Result<(), AllocError>
    ensures { OnOk result (lines.new.items ≡ lines.old.items ++ refused_line «refused») }
{
    let line = format!(in *lines.allocator(); "{refused}\n")?;
    push_text(lines, line.as_str())
}

/// Appends `scan P recorded R unchanged U other O`.
pub(crate) fn push_scan(lines: &mut Vec<u8>, side: Side, sum: ScanSum) -> Result<(), AllocError>
    ensures { OnOk result (lines.new.items ≡ lines.old.items ++ scan_line side sum) }
{
    push_text(lines, "scan ")?;
    push_text(lines, side.letter())?;
    push_counts(lines, sum)?;
    push_text(lines, "\n")
}

/// Appends ` recorded R unchanged U other O`.
fn push_counts(lines: &mut Vec<u8>, sum: ScanSum) -> Result<(), AllocError>
    ensures { OnOk result (lines.new.items ≡ lines.old.items ++ counts_text sum) }
{
    push_with(lines, " recorded ", sum.recorded)?;
    push_with(lines, " unchanged ", sum.unchanged)?;
    push_with(lines, " other ", sum.other)
}

/// Appends `sync A>B N B>A M`.
pub(crate) fn push_sync(lines: &mut Vec<u8>, to_b: u64, to_a: u64) -> Result<(), AllocError>
    ensures { OnOk result (lines.new.items ≡ lines.old.items ++ sync_line to_b to_a) }
{
    push_text(lines, "sync A>B ")?;
    push_number(lines, to_b)?;
    push_text(lines, " B>A ")?;
    push_number(lines, to_a)?;
    push_text(lines, "\n")
}

/// Appends `pull P ANSWER NAME`.
pub(crate) fn push_pull(
    lines: &mut Vec<u8>,
    side: Side,
    answer: PullAnswer,
    name: &SafeName,
) -> Result<(), AllocError>
    ensures { OnOk result (lines.new.items ≡ lines.old.items ++ pull_line side answer name.now) }
{
    push_text(lines, "pull ")?;
    push_text(lines, side.letter())?;
    push_text(lines, " ")?;
    push_answer(lines, answer)?;
    push_text(lines, " ")?;
    push_name(lines, name)?;
    push_text(lines, "\n")
}

/// Appends `local P KIND SIZE VERSION NAME`.
pub(crate) fn push_local(lines: &mut Vec<u8>, side: Side, record: &Record) -> Result<(), AllocError>
    ensures { OnOk result (lines.new.items ≡ lines.old.items ++ local_line side «record».now) }
{
    push_text(lines, "local ")?;
    push_text(lines, side.letter())?;
    push_text(lines, " ")?;
    push_record(lines, record)?;
    push_text(lines, "\n")
}

fn push_answer(lines: &mut Vec<u8>, answer: PullAnswer) -> Result<(), AllocError>
    ensures { OnOk result (lines.new.items ≡ lines.old.items ++ answer_text answer) }
{
    match answer {
        PullAnswer::Done(sequence) => push_with(lines, "done ", sequence),
        PullAnswer::NotNeeded => push_text(lines, "notneeded"),
        PullAnswer::Busy => push_text(lines, "busy"),
        PullAnswer::Unsupported => push_text(lines, "unsupported"),
        PullAnswer::LocalMoved => push_text(lines, "moved"),
        PullAnswer::Superseded => push_text(lines, "superseded"),
        PullAnswer::Refused(refusal) => push_with(lines, "refused ", u64::from(refusal.number())),
        PullAnswer::Failed(failure) => push_with(lines, "failed ", u64::from(failure.number())),
    }
}

/// Appends a text and a number.
fn push_with(lines: &mut Vec<u8>, text: &str, number: u64) -> Result<(), AllocError>
    ensures { OnOk result (lines.new.items ≡ lines.old.items ++ (text.now ++ decimal number)) }
{
    push_text(lines, text)?;
    push_number(lines, number)
}

fn push_text(lines: &mut Vec<u8>, text: &str) -> Result<(), AllocError>
    ensures { OnOk result (lines.new.items ≡ lines.old.items ++ text.now) }
{
    lines.extend_from_slice(text.as_bytes())
}

fn push_number(lines: &mut Vec<u8>, number: u64) -> Result<(), AllocError>
    ensures { OnOk result (lines.new.items ≡ lines.old.items ++ decimal number) }
{
    let mut digits = Buffer::new();
    lines.extend_from_slice(digits.format(number).as_bytes())
}
