//! Bytes fields of messages: of any length, and short ones, such as a SHA-256 digest, kept without allocating.
ghost use Rattle.std.specs.Prelude.{◌≡◌, ◌≤◌, [], length, IfOk, IsOk};
ghost use Rattle.bep_messages.specs.declared.octets.TheConstants.{DIGEST_LEN};

use crate::items::Copied;
use smallvec::SmallVec;
use std::alloc::{AllocError, Global};
use std::marker::Model;

/// Bytes. Contracts see the list alone.
#[derive(Debug, Drop)]
pub struct Octets {
    bytes: Vec<u8>,
}

impl Model for Octets {
    ghost use Rattle.std.specs.Prelude.{List, ℕ};

    ghost Value = { List ℕ };

    ghost view = { λ s. s.bytes.items };
}

impl Octets {
    /// No bytes. Does not allocate.
    pub fn new(alloc: Global) -> Self
        ensures { result ≡ [] }
    {
        Octets {
            bytes: Vec::new(alloc),
        }
    }

    /// A copy of bytes. Fails only if allocation fails, and never if there are no bytes.
    pub fn from_slice(alloc: Global, bytes: &[u8]) -> Result<Self, AllocError>
        ensures value { IfOk result (λ s. s ≡ bytes.now) }
        ensures empty { bytes.now ≡ [] → IsOk result }
    {
        if bytes.is_empty() {
            return Ok(Octets::new(alloc));
        }
        Ok(Octets {
            bytes: Vec::from_slice(alloc, bytes)?,
        })
    }

    /// The bytes of a vector. Does not allocate.
    pub fn from_vec(bytes: Vec<u8>) -> Self
        ensures { result ≡ bytes.items }
    {
        Octets { bytes }
    }

    /// The vector. Does not allocate.
    pub fn into_vec(self) -> Vec<u8>
        ensures { result.items ≡ self }
    {
        let Octets { bytes } = self;
        bytes
    }

    /// The bytes. O(1).
    pub fn as_slice(&self) -> &[u8]
        ensures { result.now ≡ self.now }
    {
        &self.bytes
    }
}

impl Copied for Octets {
    ghost needs_no_memory = { λ bytes. bytes ≡ [] };

    fn copy(&self) -> Result<Octets, AllocError> {
        Octets::from_slice(*self.bytes.allocator(), self.bytes.as_slice())
    }
}

/// The length of a SHA-256 digest in bytes. `ShortOctets` keeps so many bytes in place.
pub const DIGEST_LEN: usize = 32;

/// Bytes that are kept without allocating if there are at most `DIGEST_LEN` of them. Contracts see
/// the list alone.
#[derive(Debug, Drop)]
pub struct ShortOctets {
    bytes: SmallVec<u8, DIGEST_LEN>,
}

impl Model for ShortOctets {
    ghost use Rattle.std.specs.Prelude.{List, ℕ};

    ghost Value = { List ℕ };

    ghost view = { λ s. s.bytes.items };
}

impl ShortOctets {
    /// No bytes. Does not allocate.
    pub fn new(alloc: Global) -> Self
        ensures { result ≡ [] }
    {
        ShortOctets {
            bytes: SmallVec::new(alloc),
        }
    }

    /// A copy of bytes. Fails only if allocation fails, and never for up to `DIGEST_LEN` bytes.
    pub fn from_slice(alloc: Global, bytes: &[u8]) -> Result<Self, AllocError>
        ensures ok { IfOk result (λ s. s ≡ bytes.now) }
        ensures short { length bytes.now ≤ DIGEST_LEN → IsOk result }
    {
        Ok(ShortOctets {
            bytes: SmallVec::from_slice(alloc, bytes)?,
        })
    }

    /// The bytes. O(1).
    pub fn as_slice(&self) -> &[u8]
        ensures { result.now ≡ self.now }
    {
        self.bytes.as_slice()
    }
}

impl Copied for ShortOctets {
    ghost needs_no_memory = { λ bytes. length bytes ≤ DIGEST_LEN };

    fn copy(&self) -> Result<ShortOctets, AllocError> {
        ShortOctets::from_slice(*self.bytes.allocator(), self.bytes.as_slice())
    }
}
