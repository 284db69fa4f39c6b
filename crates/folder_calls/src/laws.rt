//! The laws of histories. A law is a function that does nothing, whose contract says of the definitions in `specs/` what
//! follows from them in plainer words; so a reader who finds a law true of histories knows that the definitions mean it.

mod calls;
mod headline;
mod histories;
mod meetings;
mod planned;
mod pulls;
mod rows;
mod values;
mod workers;

pub use calls::{
    calls_may_be_answered_at_any_point, calls_share_one_history, views_are_of_folders,
};
pub use headline::{
    callers_who_met_know_one_history, each_sequence_is_the_next, finishes_end_pulls,
    no_announced_version_dominates_the_best,
};
pub use histories::{
    commits_are_legal, histories_keep_folders, histories_keep_room, histories_may_be_divided,
    legal_histories_grow, local_records_go_on, own_entries_are_those_of_the_pass,
};
pub use meetings::{callers_who_meet_know_the_longer_history, closing_keeps_what_callers_saw};
pub use planned::{
    calls_without_a_plan_are_the_callers, planned_changes_are_made_before_their_call,
};
pub use pulls::{
    entries_of_pulls_are_of_their_name, pulls_end_over_what_they_began_on, tickets_come_back,
};
pub use rows::histories_in_rows;
pub use values::comparison_is_equality;
pub use workers::{
    answers_are_those_of_the_folder, changes_are_asked_in_order, entries_add_up,
    tickets_are_those_that_were_asked_for,
};
