//! A connection with a peer, put together: its reader, writer, indexer, server and requester, each on a thread of its own.
#![tactic(auto)]

mod channels;
mod end;
mod folders;
mod inbox;
mod jobs;
mod limits;
mod line;
mod link;
mod start;
mod told;

pub use end::LinkEnd;
pub use folders::LinkFolders;
pub use limits::{MAX_QUEUED_REQUESTS, MAX_REQUEST_NAME_BYTES, QUEUE_MESSAGES};
pub use line::Line;
pub use link::{Greeting, Streams, run_link};
pub use told::{Anew, ToldFolders};
