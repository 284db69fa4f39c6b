//! The configuration of a node: which folders it keeps, and with which peers it keeps them alike. It is a TOML document.
//!
//! [`read_config`] reads it; the table of its keys, with the values that each may have, is in `document.rt`.
#![tactic(auto)]

mod address;
mod config;
mod document;
mod fault;
mod folder_numbers;
mod folders;
mod key;
pub mod laws;
mod mode;
mod overlap;
mod path;
mod peers;
mod unknown;
mod values;

pub use address::{Endpoint, read_address, read_endpoint};
pub use config::{Config, FolderConfig, PeerAddress, PeerConfig};
pub use document::read_config;
pub use fault::ConfigFault;
pub use folder_numbers::{FolderNumber, NumberRange, NumberRule};
pub use key::{Key, Problem, TablePlace};
pub use overlap::{
    Overlap, check_page, check_paths, first_overlap, inner_paths_go_on_after_a_slash,
};
pub use unknown::{UnknownKey, unknown_keys};
