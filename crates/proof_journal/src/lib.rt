//! Laws of a node's journal: what the saver appended of a folder's own records since a start, and what the next start recovers, are the same.
//!
//! The definitions in `specs/` say what a journal has of a folder (`Appended.antt`), what it is that two folders have the same own records, or
//! one those of an earlier point (`Own.antt`), and what is saved at once (`Batches.antt`).
#![tactic(auto)]

mod appended;
mod begun;
mod recovered;

pub use appended::{
    a_save_is_a_batch, appended_pages_are_in_the_journal, batches_may_have_other_frames,
    given_pages_are_updates, other_frames_tell_none, pages_of_a_start_are_updates,
};
pub use begun::{a_cut_journal_has_what_was_synced, a_start_has_what_was_synced};
pub use recovered::{cut_journals_have_an_earlier_point, saved_records_are_recovered};
