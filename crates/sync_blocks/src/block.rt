//! A block of a file: its offset, its size and its SHA-256 digest; and the one block of an empty file.
use sha2::{Digest, Sha256};

/// A run of a file's bytes (Block Exchange Protocol v1, "Fields of the BlockInfo message").
#[derive(Clone, Copy, Debug, PartialEq, Eq)]
pub struct Block {
    /// Where it begins in the file, in bytes.
    pub offset: u64,
    /// How many bytes it has.
    pub size: u32,
    /// Their SHA-256 digest.
    pub hash: [u8; 32],
}

impl Block {
    ghost use Rattle.std.specs.Prelude.{◌≡◌, []};
    ghost use Rattle.sha2.specs.Sha256.{sha256};

    /// The one block of an empty file: it begins at 0, and has no bytes and their digest. Does not allocate. O(1).
    pub fn of_empty_file() -> Block
        ensures { result ≡ record { offset = 0; size = 0; hash = sha256 [] } }
    {
        Block {
            offset: 0,
            size: 0,
            hash: Sha256::digest(&[]),
        }
    }
}
