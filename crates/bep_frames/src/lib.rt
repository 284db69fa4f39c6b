//! Frames of the Block Exchange Protocol v1: read from a stream that comes in any pieces, and written.
//!
//! A stream is the spellings of its frames in order, and then a rest that begins with no whole frame
//! (`specs/Grammar.antt`, `specs/Stream.antt`). A rest may show a fault.
//!
//! What the definitions imply is proved in [`laws`].
#![tactic(auto)]

mod carried;
mod fault;
mod found;
mod frame;
mod front;
pub mod laws;
mod reader;
mod run;
mod size;
mod writing;

pub use fault::{FrameFault, WriteFault};
pub use frame::{Frame, Message};
pub use front::write_response_front;
pub use reader::FrameReader;
pub use run::{FrameStream, frames_of};
pub use size::{MAX_HELLO_BYTES, MAX_MESSAGE_BYTES};
pub use writing::{write_frame, write_hello};
