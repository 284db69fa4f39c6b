//! The bytes of a file that a store keeps in memory, read and written at an offset.
ghost use Rattle.std.specs.Prelude.{◌≡◌, ◌≢◌, ◌<◌, ◌≤◌, IfErr, ◌+◌, ◌-◌, ◌++◌, [], List, ℕ, min, take, drop, length, replicate, MatchResult};
ghost use Rattle.file_store.specs.Contents.{overwritten};

use std::alloc::{AllocError, Global};
use std::marker::Model;

/// The bytes of a file. Contracts see the list alone.
#[derive(Drop)]
pub struct Content {
    bytes: Vec<u8>,
}

impl Model for Content {
    ghost use Rattle.std.specs.Prelude.{List, ℕ};

    ghost Value = { List ℕ };

    ghost view = { λ s. s.bytes.items };
}

impl Content {
    /// No bytes. Does not allocate.
    pub(crate) fn new(alloc: Global) -> Content
        ensures { result ≡ [] }
    {
        Content {
            bytes: Vec::new(alloc),
        }
    }

    /// How many bytes there are. O(1).
    pub(crate) fn len(&self) -> usize
        ensures { result ≡ length self.now }
    {
        self.bytes.len()
    }

    /// Copies as many bytes from an offset on as there are and the buffer takes. Returns how many. O(n) for n copied bytes.
    pub(crate) fn read_at(&self, offset: usize, buffer: &mut [u8]) -> usize
        ensures count { result ≡ min (length buffer.old) (length self.now - offset) }
        ensures copied { take result buffer.new ≡ take result (drop offset self.now) }
        ensures rest { drop result buffer.new ≡ drop result buffer.old }
        ensures bound { result ≤ length buffer.new }
    {
        if self.bytes.len() <= offset {
            return 0;
        }
        let rest = &self.bytes[offset..];
        let count = rest.len().min(buffer.len());
        buffer[..count].copy_from_slice(&rest[..count]);
        count
    }

    /// Writes bytes from an offset on, over those that are there and after them, with 0 in a gap. Out of memory changes
    /// nothing. O(n) for n written bytes, and amortized O(1) a byte that the content grows by.
    pub(crate) fn write_at(&mut self, offset: usize, piece: &[u8]) -> Result<(), AllocError>
        ensures written { MatchResult result (λ _. self.new ≡ overwritten self.old offset piece.now) (λ _. self.new ≡ self.old) }
        ensures failed { IfErr result (λ _. (piece.now ≢ []) × (length self.old < offset + length piece.now)) }
    {
        if piece.is_empty() {
            return Ok(());
        }
        grow(&mut self.bytes, offset, piece.len())?;
        overwrite(&mut self.bytes, offset, piece);
        Ok(())
    }
}

/// Puts 0 at the end until so many bytes can be written from an offset on. Allocates only if there are fewer.
fn grow(bytes: &mut Vec<u8>, offset: usize, count: usize) -> Result<(), AllocError>
    ensures grown { MatchResult result
        (λ _. bytes.new.items ≡ bytes.old.items ++ replicate ((offset + count) - length bytes.old.items) 0)
        (λ _. bytes.new.items ≡ bytes.old.items) }
    ensures failed { IfErr result (λ _. length bytes.old.items < offset + count) }
{
    let len = bytes.len();
    let Some(end) = offset.checked_add(count) else {
        return Err(AllocError);
    };
    if len < end {
        bytes.resize(end, 0)?;
    }
    Ok(())
}

/// Puts a piece in place of as many bytes from an offset on.
fn overwrite(bytes: &mut [u8], offset: usize, piece: &[u8])
    requires within { offset + length piece.now ≤ length bytes.old }
    ensures { bytes.new ≡ take offset bytes.old ++ piece.now ++ drop (offset + length piece.now) bytes.old }
{
    bytes[offset..offset + piece.len()].copy_from_slice(piece);
}
