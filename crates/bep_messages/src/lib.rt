//! The messages of the Block Exchange Protocol v1, decoded and encoded by tables of their fields.
//!
//! A message is what its fields make by its table (`specs/Protocol.antt`): each struct here is one, and
//! `ProtoMessage` has `decode` and `encode`. Other crates write messages of their own by the same macros.
#![tactic(auto)]

mod block_info;
mod close;
mod cluster_config;
mod counter;
mod device;
mod download_progress;
mod fault;
mod file_info;
mod folder;
mod header;
mod hello;
mod index;
mod index_update;
mod items;
pub mod kinds;
pub mod laws;
mod message;
pub mod nested;
mod octets;
mod ping;
mod request;
mod response;
pub mod rows;
mod table;
mod text;
mod vector;
mod writer;

pub use block_info::BlockInfo;
pub use close::Close;
pub use cluster_config::ClusterConfig;
pub use counter::Counter;
pub use device::Device;
pub use download_progress::DownloadProgress;
pub use fault::MessageFault;
pub use file_info::FileInfo;
pub use folder::Folder;
pub use header::Header;
pub use hello::Hello;
pub use index::Index;
pub use index_update::IndexUpdate;
pub use items::{Copied, Items};
pub use message::ProtoMessage;
pub use octets::{DIGEST_LEN, Octets, ShortOctets};
pub use ping::Ping;
pub use request::Request;
pub use response::Response;
pub use text::Text;
pub use vector::Vector;
pub use writer::Writer;
