//! The header of a journal file: its first line, the device, and the digest of the state file that it continues.
ghost use Rattle.std.specs.Prelude.{◌≡◌, ◌++◌, ◌+◌, ◌<◌, length, take, OnOk, OnErr, vec_capacity, vec_len};
ghost use Rattle.node_journal.specs.Format.{HasDigests, header_bytes, header_len};

use std::alloc::AllocError;
use sync_record::DeviceId;

/// The first line of a journal, with its line feed.
pub(crate) const FIRST_LINE: [u8; 15] = *b"bepd journal 1\n";

/// The length of a header in bytes.
pub const HEADER_LEN: usize = 79;

/// What a journal begins with.
#[derive(Clone, Copy, Debug)]
pub struct JournalHeader {
    /// The device that keeps the journal.
    pub device: DeviceId,
    /// The SHA-256 digest of the state file that the journal continues; of no bytes where there is none.
    pub state_digest: [u8; 32],
}

/// Appends a header: what a journal begins with.
///
/// Fails only if allocation fails, and then the vector has the bytes that it had. O(1), except for the growth.
pub fn push_header(header: &JournalHeader, out: &mut Vec<u8>) -> Result<(), AllocError>
    ensures ok { OnOk result (out.new.items ≡ out.old.items ++ header_bytes header.now) }
    // What is appended is read again, at the beginning of a journal.
    ensures digests { OnOk result (HasDigests header.now) }
    ensures err { OnErr result (out.new.items ≡ out.old.items) }
    // It fails only where room for the header was missing.
    ensures full { OnErr result (vec_capacity out.old < vec_len out.old + header_len) }
{
    let start = out.len();
    let written = put_header(header, out);
    if written.is_err() {
        out.truncate(start);
    }
    written
}

// Appends a header. After an error a part of it may follow what was there.
fn put_header(header: &JournalHeader, out: &mut Vec<u8>) -> Result<(), AllocError>
    ensures ok { OnOk result (out.new.items ≡ out.old.items ++ header_bytes header.now) }
    ensures digests { OnOk result (HasDigests header.now) }
    ensures err { OnErr result (take (length out.old.items) out.new.items ≡ out.old.items) }
    ensures full { OnErr result (vec_capacity out.old < vec_len out.old + header_len) }
{
    let device = header.device.bytes();
    out.extend_from_slice(&FIRST_LINE)?;
    out.extend_from_slice(device)?;
    out.extend_from_slice(&header.state_digest)
}
