//! The journal of a node: what is kept of its folders since its state file was written, as bytes that are read again wherever
//! a kill cut them.
#![tactic(auto)]

mod fault;
mod found;
mod frame;
mod header;
mod kept;
pub mod laws;
mod marks;
mod part;
mod plan;
mod reading;
mod run;
mod sum;
mod writing;

pub use fault::{JournalFault, WriteFault};
pub use frame::Frame;
pub use header::{HEADER_LEN, JournalHeader, push_header};
pub use kept::{JournalEnd, KeptFrames};
pub use marks::frames_behind;
pub use part::Part;
pub use plan::Plan;
pub use reading::{Journal, read_journal};
pub use writing::push_frame;
