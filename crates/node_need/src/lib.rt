//! What is needed of a folder: in which order its names are pulled, and when one that could not be pulled is tried again.
#![tactic(auto)]

mod order;
mod retries;
mod wanted;

pub use order::PullOrder;
pub use retries::Retries;
pub use wanted::{Miss, Wanted};
