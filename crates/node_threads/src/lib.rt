//! A node: its folders, its peers, and the threads that work on them.
#![tactic(auto)]

mod answering;
mod callers;
mod folders;
mod peers;
mod run;
mod saver;
mod threads;
mod workers;

pub use answering::Console;
pub use folders::StartFolder;
pub use node_peer::{Listener, UnixSockets};
pub use peers::{ListenFault, Listeners, NodeAddress, NodePeer, Share, listen_all};
pub use run::{NodeEnd, NodeOutside, NodeStart, run_node};
