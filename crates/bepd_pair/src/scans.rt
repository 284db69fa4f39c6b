//! Scans of a peer's store, and its local records.
ghost use Rattle.std.specs.Prelude.{◌≡◌, ◌++◌, OnOk, flat_map};
ghost use Rattle.bepd_pair.specs.Following.{PrintsUnlessFull, ShowsRecords};
ghost use Rattle.bepd_pair.specs.Lines.{local_line};
ghost use Rattle.bepd_pair.specs.Scans.{ScansPeer, TellsSum};
ghost use Rattle.sync_scan.specs.declared.sum.ScanSum.{ScanSum as AnySum};

use crate::command::Side;
use crate::context::CommandContext;
use crate::output::{push_local, push_scan};
use crate::peer::Peer;
use crate::refused::Refused;
use bep_messages::Items;
use file_store::OpenGate;
use folder_calls::FolderCalls;
use std::alloc::{AllocError, Global};
use std::thread::Threads;
use sync_record::Record;
use sync_scan::{NoProgress, ScanSum, scan_all};

/// Scans all names, and prints the counts.
pub(crate) fn scan<R: Threads + Sync>(
    cx: &CommandContext<'_, R>,
    peer: &mut Peer,
    lines: &mut Vec<u8>,
) -> Result<(), Refused>
    ensures { (sum : AnySum) × ScansPeer peer.old cx.now.moment sum peer.new
        × TellsSum peer.old.side sum lines.old.items result lines.new.items }
{
    let sum = scan_peer(cx, peer);
    tell_sum(lines, peer.side, sum)
}

fn scan_peer<R: Threads + Sync>(cx: &CommandContext<'_, R>, peer: &mut Peer) -> ScanSum
    ensures { ScansPeer peer.old cx.now.moment result peer.new }
{
    scan_all(
        cx.rt,
        cx.alloc,
        &mut peer.store,
        &mut peer.calls,
        &OpenGate,
        cx.moment,
        &mut NoProgress,
    )
}

/// Prints the counts of a scan, or says what stopped it.
fn tell_sum(lines: &mut Vec<u8>, side: Side, sum: ScanSum) -> Result<(), Refused>
    ensures { TellsSum side sum lines.old.items result lines.new.items }
{
    match sum.stopped {
        Some(stop) => Err(Refused::Scan(stop)),
        None => Ok(push_scan(lines, side, sum)?),
    }
}

/// Prints each local record, in byte order of the names.
pub(crate) fn show(alloc: Global, peer: &mut Peer, lines: &mut Vec<u8>) -> Result<(), Refused>
    ensures others { peer.new ≡ record peer.old { calls = peer.new.calls } }
    ensures printed { PrintsUnlessFull result (ShowsRecords peer.old.side lines.old.items lines.new.items) }
{
    let mut records = local_records(alloc, peer)?;
    records.sort_by(|a, b| a.name().cmp(b.name()))?;
    Ok(push_locals(lines, peer.side, records.as_slice())?)
}

/// Appends the lines of these records.
fn push_locals(lines: &mut Vec<u8>, side: Side, records: &[Record]) -> Result<(), AllocError>
    ensures { OnOk result (lines.new.items ≡ lines.old.items ++ flat_map (local_line side) records.now) }
{
    for local in records {
        push_local(lines, side, local)?;
    }
    Ok(())
}

/// All local records, by pages.
fn local_records(alloc: Global, peer: &mut Peer) -> Result<Vec<Record>, AllocError>
    ensures { peer.new ≡ record peer.old { calls = peer.new.calls } }
{
    let mut records = Vec::new(alloc);
    let mut cursor = 0;
    for _ in 0..u64::MAX {
        let page = peer.calls.local_since(cursor, usize::MAX)?.value;
        let Some(last) = page.as_slice().last() else {
            break;
        };
        cursor = last.sequence();
        add(&mut records, page)?;
    }
    Ok(records)
}

fn add(records: &mut Vec<Record>, page: Items<Record>) -> Result<(), AllocError> {
    let mut page = page.into_vec();
    records.append(&mut page)
}
