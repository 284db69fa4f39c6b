//! The Requests of this device over the connection with a peer, and the blocks that they bring.
//!
//! An [`AskBook`] knows which Requests are under way, and who waits for the Response of each. [`run_requester`] puts them, the reader of
//! the connection hands each Response to the book, and a [`PeerSource`] gives a puller the blocks, of which it asks for many ahead.
#![tactic(auto)]

mod ask;
mod book;
mod counts;
mod fault;
mod lane;
mod peer;
mod requester;
mod silence;
mod sink;
mod source;
mod table;

pub use ask::Ask;
pub use book::{AskBook, AskId};
pub use counts::AskCounts;
pub use fault::AskFault;
pub use peer::{FolderPeer, PeerAsks, PeerBook};
pub use requester::{RequesterEnd, run_requester};
pub use source::PeerSource;
