//! Which part of which file a request asks for.
ghost use Rattle.std.specs.Prelude.{◌≡◌, ◌⊎◌, ◌+◌, ◌^◌, ◌<◌, ◌&&◌, IfOk, IsOk, IsSome, MatchOption, MatchResult, None, Some, false, true};
ghost use Rattle.folder_calls.specs.Shared.{Sees, now};
ghost use Rattle.folder_core.specs.States.{local};
ghost use Rattle.sync_names.specs.Refusal.{refusal, shape_refusal};
ghost use Rattle.sync_record.specs.Infos.{is_natural, natural};
ghost use Rattle.sync_record.specs.Records.{is_live_file};
ghost use Rattle.sync_record.specs.Validity.{is_valid};
ghost use Rattle.block_server.specs.Served.{is_part_of, record_refuses, refused};

use crate::Code;
use bep_messages::Request;
use file_store::{Gate, GatePlace};
use folder_calls::FolderCalls;
use std::alloc::{AllocError, Global};
use sync_names::{NameFault, SafeName};
use sync_record::{Kind, Record};

/// The most bytes that are given at once: 16 MiB.
pub const MAX_PART_SIZE: u32 = 16_777_216;

/// A part of a file.
#[derive(Debug, Drop)]
pub(crate) struct Part {
    pub(crate) name: SafeName,
    /// In bytes.
    pub(crate) offset: u64,
    /// In bytes.
    pub(crate) size: u32,
}

/// What a request asks for, or the code of the first test that refuses it: it asks for a temporary file, its name is not
/// safe, there is no valid live local file of the name, or the file has no such part.
pub(crate) fn asked_part<W: FolderCalls, G: Gate>(
    alloc: Global,
    calls: &mut W,
    gate: &G,
    request: &Request,
) -> Result<Result<Part, Code>, AllocError>
    ensures folder { W.folder calls.new ≡ W.folder calls.old }
    ensures sees { Sees (W.view calls.old) (W.view calls.new) }
    ensures part { IfOk result (λ asked. MatchResult asked
        (λ part. (refused request.now (local (now (W.view calls.new)) request.now.name) ≡ None)
        × (part.name ≡ request.now.name) × (part.offset ≡ natural request.now.offset)
        × (part.size ≡ natural request.now.size) × (part.offset + part.size < 2 ^ 64))
        (λ code. refused request.now (local (now (W.view calls.new)) request.now.name) ≡ Some code)) }
    // Before the name is copied nothing is allocated.
    ensures free { (request.now.from_temporary ≡ true) ⊎ IsSome (shape_refusal request.now.name) →
        IsOk result }
{
    if request.from_temporary {
        return Ok(Err(Code::NoSuchFile));
    }
    let name = match SafeName::parse(alloc, request.name.as_str()) {
        Ok(name) => name,
        Err(NameFault::OutOfMemory) => return Err(AllocError),
        Err(_) => return Ok(Err(Code::InvalidFile)),
    };
    gate.at(GatePlace::FolderCall);
    let local = calls.local(&name)?.value;
    Ok(part_of(name, local, request))
}

// The part of the file that this is the local record of.
fn part_of(name: SafeName, local: Option<Record>, request: &Request) -> Result<Part, Code>
    ensures { MatchResult result
        (λ part. (record_refuses request.now local ≡ None)
        × (part.name ≡ name) × (part.offset ≡ natural request.now.offset)
        × (part.size ≡ natural request.now.size) × (part.offset + part.size < 2 ^ 64))
        (λ code. record_refuses request.now local ≡ Some code) }
{
    let Some(record) = local else {
        return Err(Code::NoSuchFile);
    };
    if !is_servable(&record) {
        return Err(Code::NoSuchFile);
    }
    match range_within(request, record.size()) {
        Some((offset, size)) => Ok(Part { name, offset, size }),
        None => Err(Code::InvalidFile),
    }
}

// Whether parts of it are given: a valid live file.
fn is_servable(record: &Record) -> bool
    ensures { result ≡ (is_valid «record».now && is_live_file «record».now) }
{
    record.is_valid() && !record.is_deleted() && record.kind() == Kind::File
}

// The offset and the size that are asked for, if a file of this size has that part and it isn't too large.
fn range_within(request: &Request, file_size: i64) -> Option<(u64, u32)>
    ensures { MatchOption result (is_part_of request.now file_size ≡ false)
        (λ range. (is_part_of request.now file_size ≡ true)
        × (range.0 ≡ natural request.now.offset) × (range.1 ≡ natural request.now.size)
        × (range.0 + range.1 < 2 ^ 64)) }
{
    let offset = u64::try_from(request.offset).ok()?;
    let size = u32::try_from(request.size).ok()?;
    let file_size = u64::try_from(file_size).unwrap_or(0);
    if size <= MAX_PART_SIZE && offset + u64::from(size) <= file_size {
        Some((offset, size))
    } else {
        None
    }
}
