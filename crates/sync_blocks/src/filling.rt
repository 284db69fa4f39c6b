//! Reads from a reader until the buffer is full or the reader ends; interrupted reads are tried again.
ghost use Rattle.std.specs.Prelude.{◌≡◌, ◌<◌, ◌≤◌, take, length, IfErr, IfOk};
ghost use Rattle.std.specs.Io.KnownBytes.{Consumes, IsAtEnd};
ghost use Rattle.sync_blocks.specs.Reading.{TakesFront};

use crate::ReadFault;
use std::io::{ErrorKind, Read};

/// Reads until the buffer is full or the reader is at its end. Returns how many bytes were read.
///
/// Fails with `Read` if a read fails, though an interrupted one is tried again; the reader has then given some of its
/// bytes. Does not allocate.
pub fn fill<R: Read>(reader: &mut R, buffer: &mut [u8]) -> Result<usize, ReadFault>
    ensures bound { IfOk result (λ n. n ≤ length buffer.new) }
    ensures bytes { IfOk result (λ n. Consumes (R.remaining reader.old) (R.remaining reader.new) (take n buffer.new)) }
    ensures end { IfOk result (λ n. n < length buffer.new → IsAtEnd (R.remaining reader.new)) }
    ensures refused { IfErr result (λ fault. fault ≡ ReadFault.Read) }
    ensures taken { TakesFront (R.remaining reader.old) (R.remaining reader.new) }
{
    let mut filled = 0;
    for _ in 0..u64::MAX {
        if filled == buffer.len() {
            return Ok(filled);
        }
        match reader.read(&mut buffer[filled..]) {
            Ok(0) => return Ok(filled),
            Ok(count) => filled += count,
            Err(error) if error.kind() == ErrorKind::Interrupted => {}
            Err(_) => return Err(ReadFault::Read),
        }
    }
    Err(ReadFault::Read)
}
