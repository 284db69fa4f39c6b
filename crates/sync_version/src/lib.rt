//! Version vectors and moments of a folder that several devices edit: who has seen whose edit of a file.
#![tactic(auto)]

mod fault;
pub mod laws;
mod moment;
mod relation;
mod version;
mod walk;

pub use fault::RaiseFault;
pub use moment::Moment;
pub use relation::Relation;
pub use version::Version;
