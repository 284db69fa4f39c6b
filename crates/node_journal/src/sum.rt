//! The checksum of a frame.
ghost use Rattle.std.specs.Prelude.{◌≡◌, take};
ghost use Rattle.node_journal.specs.Format.{checksum, header_bytes};

use crate::header::{FIRST_LINE, JournalHeader};
use sha2::{Digest, Sha256};

/// The checksum of a frame at an offset of a journal with this header: that of the same body elsewhere is another one. O(n).
#[tactic(auto, unfolding(crate::specs::Format::checksum))]
pub(crate) fn checksum(header: &JournalHeader, offset: u64, body: &[u8]) -> [u8; 8]
    ensures { result ≡ checksum (header_bytes header.now) offset body.now }
{
    let mut hasher = Sha256::new();
    hasher.update(&FIRST_LINE);
    hasher.update(header.device.bytes());
    hasher.update(&header.state_digest);
    hasher.update(&offset.to_be_bytes());
    hasher.update(body);
    first_eight(hasher.finalize())
}

// The first eight bytes of a digest.
fn first_eight(digest: [u8; 32]) -> [u8; 8]
    ensures { result ≡ take 8 digest }
{
    let [a, b, c, d, e, f, g, h, ..] = digest;
    [a, b, c, d, e, f, g, h]
}
