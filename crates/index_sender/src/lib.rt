//! A device's index for a peer, page after page: its local records in rising sequence.
//!
//! The definitions in `specs/` say what a page is (`Pages.antt`) and what pages say together (`Overlay.antt`);
//! [`IndexSender`] gives them out.
#![tactic(auto)]

mod infos;
pub mod laws;
mod page;
mod sender;

pub use infos::file_infos;
pub use page::{KeptPage, Page};
pub use sender::{IndexSender, MAX_PAGE_RECORDS};
