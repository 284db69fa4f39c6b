//! What changed in a folder, by what the system says of its files: no content is read.
//!
//! A [`Table`] has, in little memory, what stood in a directory; [`Table::changes`] names exactly the entries that are new, gone or others in
//! another one. [`Unrest`] says when a name that changed is scanned, and [`Looking`] how often a folder is looked at. What is told here only says
//! which names are scanned now: a scan reads them, and records nothing that isn't there.
#![tactic(auto)]

mod facts;
pub mod laws;
mod looking;
mod table;
mod unrest;

pub use facts::{Entry, EntryKind, Facts};
pub use looking::Looking;
pub use table::Table;
pub use unrest::{Step, Unrest};
