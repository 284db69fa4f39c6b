//! Whether bytes that were given as a block are the block's: taken, or of a wrong size or hash.
/// What the put of a block's bytes came to.
#[derive(Clone, Copy, Debug, PartialEq, Eq)]
pub enum Put {
    /// They are not as many as the block has.
    WrongSize,
    /// Their SHA-256 digest is not the block's.
    WrongHash,
    /// They are the block's, and the block is put.
    Ok,
}
