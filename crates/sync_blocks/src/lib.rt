//! What a file is made of: its blocks, each with its SHA-256 digest.
#![tactic(auto)]

mod block;
mod fault;
mod filling;
mod hashing;
pub mod laws;
mod reading;
mod size;
mod tiling;

pub use block::Block;
pub use fault::ReadFault;
pub use filling::fill;
pub use hashing::push_blocks;
pub use reading::{blocks_of, group_len};
pub use size::{MAX_BLOCK_SIZE, MIN_BLOCK_SIZE, block_size_for, is_block_size};
pub use tiling::tiles;
