//! Files and directories behind one interface.
//!
//! A [`FileStore`] is asked by safe names. What is written goes to a temporary file beside the file, and is put in its place
//! when it is whole. [`MemStore`] keeps everything in memory; [`FailingStore`] fails one call of a store that it wraps.
//! The definitions in `specs/` say what each call does to the tree of what is there (`Calls.antt`).
#![tactic(auto)]

mod changes;
mod content;
mod failing;
mod gate;
pub mod laws;
mod listing;
mod mem;
mod missing;
mod name_map;
mod node;
mod parents;
mod reading;
mod refusal;
mod store;

pub use content::Content;
pub use failing::{FailingStore, FailureTime};
pub use gate::{Gate, GatePlace, OpenGate};
pub use mem::MemStore;
pub use name_map::NameMap;
pub use node::{Kind, Listed, Listing, Node, Stat};
pub use parents::{is_below, parent_of};
pub use reading::read_full;
pub use refusal::StoreRefusal;
pub use store::FileStore;
