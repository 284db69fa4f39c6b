//! What all threads of a node share: the clock, the log of what is told, the connections that are up, whether a node stops, why it did not run, and how calls are lent.
#![tactic(auto)]

mod board;
mod clock;
mod connections;
mod context;
mod doing;
mod endpoint;
mod event;
mod event_line;
mod fault;
mod folder_line;
mod host;
mod lent;
mod log;
mod memory;
mod peer_line;
mod tally;

pub use board::{Board, FolderBoard, PeerBoard};
pub use clock::moment;
pub use connections::{ConnectionId, Connections};
pub use context::Context;
pub use doing::{Doing, Round, Standing};
pub use endpoint::Endpoint;
pub use event::{Change, Event, Heard, PeerEvent, PullEvent, ScanEvent, ShareGap, SkipWhy};
pub use fault::NodeFault;
pub use host::Host;
pub use lent::{Lent, LentCalls, lend_all, next_of};
pub use log::{Log, LogStyle, ProgressStyle, write_log};
pub use memory::HeldMemory;

/// The version of the program.
pub const VERSION: &str = "0.1.0";
