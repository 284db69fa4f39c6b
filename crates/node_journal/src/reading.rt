//! A journal, read.
ghost use Rattle.std.specs.Prelude.{◌≡◌, ◌++◌, ◌<◌, ◌≤◌, ℕ, List, drop, length, IfNone, IfOk, IfSome, IsErrOf, OnErr};
ghost use Rattle.node_journal.specs.Format.{HasDigests, header_bytes, header_len};
ghost use Rattle.node_journal.specs.Journals.{HasHeader, IsJournal, IsOtherDevice};
ghost use Rattle.node_journal.specs.Reading.{Reads};
ghost use Rattle.node_journal.specs.declared.header.JournalHeader.{JournalHeader as Header};

use crate::fault::JournalFault;
use crate::found::{Found, frame_at};
use crate::header::{FIRST_LINE, HEADER_LEN, JournalHeader};
use crate::kept::{JournalEnd, KeptFrames};
use crate::run::{Run, end_of};
use std::alloc::{AllocError, Global};
use sync_record::DeviceId;

/// What is read of a journal.
#[derive(Debug, Drop)]
pub struct Journal {
    pub header: JournalHeader,
    pub kept: KeptFrames,
}

/// The journal of a device, in the bytes of its file, however a kill or a fault of the disk left them: its header, and the frames up
/// to the last whole one. A frame doesn't count if it is cut, if another checksum belongs to its bytes and its place, or if no whole one
/// follows it; nor do those after one that is cut or has another checksum.
///
/// Fails with `BadHeader` exactly where the bytes begin with no journal's header, with `OtherDevice` exactly where it is another
/// device's, and otherwise only with `OutOfMemory`, and never where nothing follows the header. O(n) for n bytes, each of which is hashed once.
pub fn read_journal(alloc: Global, device: DeviceId, bytes: &[u8]) -> Result<Journal, JournalFault>
    ensures journal { IfOk result (IsJournal device bytes.now) }
    ensures header { IsErrOf result JournalFault.BadHeader → (h : Header) → ¬ (HasHeader h bytes.now) }
    ensures device { IsErrOf result JournalFault.OtherDevice → IsOtherDevice device bytes.now }
    // Memory is only needed where something follows the header.
    ensures memory { IsErrOf result JournalFault.OutOfMemory → header_len < length bytes.now }
{
    let Some(header) = read_header(bytes) else {
        return Err(JournalFault::BadHeader);
    };
    if header.device != device {
        return Err(JournalFault::OtherDevice);
    }
    let kept = read_frames(alloc, &header, bytes)?;
    Ok(Journal { header, kept })
}

// The header that the bytes begin with.
fn read_header(bytes: &[u8]) -> Option<JournalHeader>
    ensures some { IfSome result (λ h. HasHeader h bytes.now) }
    ensures none { IfNone result ((h : Header) → ¬ (HasHeader h bytes.now)) }
{
    if let Some(after) = bytes.strip_prefix(&FIRST_LINE) {
        return header_of(after);
    }
    None
}

// The header of which this follows the first line.
fn header_of(after: &[u8]) -> Option<JournalHeader>
    ensures some { IfSome result (λ h. HasDigests h × ((rest : List ℕ) × (after.now ≡ h.device ++ h.state_digest ++ rest))) }
    ensures none { IfNone result (length after.now < 64) }
{
    if after.len() < 64 {
        return None;
    }
    let (device, after) = after.split_at(32);
    let (state_digest, _) = after.split_at(32);
    Some(JournalHeader {
        device: DeviceId::new(digest_of(device)),
        state_digest: digest_of(state_digest),
    })
}

// These 32 bytes.
fn digest_of(bytes: &[u8]) -> [u8; 32]
    requires { length bytes.now ≡ 32 }
    ensures { result ≡ bytes.now }
{
    let mut digest = [0; 32];
    digest.copy_from_slice(bytes);
    digest
}

// The frames that count.
fn read_frames(
    alloc: Global,
    header: &JournalHeader,
    bytes: &[u8],
) -> Result<KeptFrames, AllocError>
    requires { header_len ≤ length bytes.now }
    ensures kept { IfOk result (Reads (header_bytes header.now) header_len (drop header_len bytes.now)) }
    ensures memory { OnErr result (header_len < length bytes.now) }
{
    let mut run = Run::new(alloc, HEADER_LEN);
    loop {
        match frame_at(alloc, header, bytes, run.at)? {
            Found::Cut => {
                let end = end_of(bytes.split_at(run.at).1);
                return Ok(run.ended(end));
            }
            Found::NoFrame => return Ok(run.ended(JournalEnd::Broken)),
            Found::Framed(frame, size) => run.push(frame, size)?,
        }
    }
}
