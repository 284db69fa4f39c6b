//! Which names may touch a disk, and the names that a folder makes itself.
//!
//! A safe name is relative, has no empty, `.` or `..` component, no NUL, is in Unicode's form NFC and
//! isn't internal (`specs/Safe.antt`). [`SafeName::parse`] is the only way to one, so whatever holds
//! a `SafeName` stays in its folder. [`temp_name`], [`replaced_name`] and [`conflict_name`] make names in the same folder.
#![tactic(auto)]

mod base32;
mod copies;
mod fault;
mod internal;
pub mod laws;
mod made;
mod name;
mod order;
mod text;
mod utc;

pub use copies::is_conflict_copy;
pub use fault::NameFault;
pub use internal::{is_internal, is_temporary};
pub use made::{
    ReplacedName, TempName, conflict_name, replaced_component, replaced_name, temp_name,
};
pub use name::SafeName;
