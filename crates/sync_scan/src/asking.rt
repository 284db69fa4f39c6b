//! The one change that a scan asks of the folder.
ghost use Rattle.std.specs.Prelude.{◌≡◌, IfErr, IfOk, option_copied, option_map};
ghost use Rattle.sync_scan.specs.Looks.{IsRecordable};
ghost use Rattle.sync_scan.specs.Scans.{AsksFor};

use crate::{Look, Scanned};
use file_store::{Gate, GatePlace};
use folder_calls::FolderCalls;
use std::alloc::AllocError;
use sync_names::SafeName;
use sync_record::Record;
use sync_version::{Moment, Version};

/// Asks the folder to record what was found over the expected version, if it is to be recorded. Fails only if out of memory.
pub(crate) fn ask<W: FolderCalls, G: Gate>(
    calls: &mut W,
    gate: &G,
    name: &SafeName,
    expected: Option<&Version>,
    look: Look,
    moment: Moment,
) -> Result<Scanned, AllocError>
    requires { IsRecordable look }
    ensures folder { W.folder calls.new ≡ W.folder calls.old }
    ensures asks { IfOk result (λ scanned. AsksFor (W.view calls.old) name.now
        (option_copied expected.entry) moment look scanned (W.view calls.new)) }
    ensures out_of_memory { IfErr result (λ _. W.view calls.new ≡ W.view calls.old) }
{
    match look {
        Look::Found(found) => {
            gate.at(GatePlace::FolderCall);
            let reply = calls.scan_found(name, expected, &found, moment)?;
            Ok(Scanned::Answered(reply.value))
        }
        Look::Gone => {
            gate.at(GatePlace::FolderCall);
            let reply = calls.scan_gone(name, expected, moment)?;
            Ok(Scanned::Answered(reply.value))
        }
        Look::Skipped => Ok(Scanned::Skipped),
        Look::Changing => Ok(Scanned::Changing),
    }
}

/// The version of a record, if there is one.
pub(crate) fn version_of(record: Option<&Record>) -> Option<&Version>
    ensures { option_copied result ≡ option_map (λ r. r.version) (option_copied «record».entry) }
{
    match record {
        Some(record) => Some(record.version()),
        None => None,
    }
}
