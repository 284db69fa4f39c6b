//! What a running node says of itself, as one value, and three ways to show it: as JSON for programs, as lines on a terminal, and as a page in a
//! browser.
//!
//! The lines and the page have the same rows (`specs/Rows.antt`). Nothing here reads a clock or a file.
#![tactic(auto)]

mod document;
pub mod laws;
mod numbers;
mod page;
mod rows;
mod screen;
mod status;
mod times;
mod words;

pub use document::json_of;
pub use page::{begins_as_page, push_ended_page, push_page};
pub use screen::push_screen;
pub use status::{FolderState, FolderStatus, Noted, PeerStatus, Progress, Status};
