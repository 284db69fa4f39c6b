//! What leaves this device over one connection.
//!
//! Three workers put messages for one peer: the indexer, the server and the requester. Each has a [`Seat`] of an
//! [`OutQueue`], and one [`Taker`] takes what they put. What was taken of each seat is what it put, in order, whole and
//! once (`specs/Rule.antt`, `specs/Words.antt`). [`run_writer`] writes what it takes as frames.
#![tactic(auto)]

mod config;
mod ends;
mod indexer;
mod kept;
mod known;
mod queue;
mod rule;
mod seats;
mod source;
mod taking;
mod turn;
mod writer;

pub use config::{FolderTold, cluster_config, entry_of, folder_of, start_of};
pub use ends::{Bell, Ended, NotPut, Rings, Seat, Taker};
pub use indexer::{IndexerEnd, IndexerFolder, run_indexer};
pub use kept::KeptCalls;
pub use known::{Account, Known, SeatName, Sent};
pub use queue::OutQueue;
pub use rule::{InOrder, law};
pub use source::Source;
pub use turn::{Turn, TurnEnd, index_turn};
pub use writer::{WriterFault, finish_writer, run_writer};
