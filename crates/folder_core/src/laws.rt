//! The laws of a folder. A law is a function that does nothing, whose contract says of the definitions in `specs/` what
//! follows from them in plainer words; so a reader who finds a law true of folders knows that the definitions mean it.

mod announced;
mod answers;
mod best;
mod changes;
mod pulls;
mod reads;
mod restores;
mod rows;
mod runs;
mod scans;
mod values;

pub use announced::{forget_removes, index_full_replaces, index_more_adds, indexes_in_any_order};
pub use answers::{
    begun_pulls_are_of_the_name, entered_commits_are_their_tickets, open_pulls_stay,
    recorded_scans_were_expected, stray_pulls_are_not_open, tickets_come_back,
};
pub use best::{
    best_in_any_order, best_is_preferred, bests_are_listed_once_in_order, devices_have_the_best,
};
pub use changes::{
    callers_ensure_no_more, calls_are_steps, changes_keep_folders, changes_leave_the_rest,
    other_answers_keep_the_state, sequences_stay_distinct,
};
pub use pulls::{
    begin_pull_takes_the_needed, copies_are_due_in_conflict, entering_is_tested_in_order,
    finish_records_the_target, need_is_the_rule, pulls_end_by_their_tickets,
};
pub use reads::{
    bests_come_in_pages, blocks_are_found_where_they_are, local_records_come_in_pages,
    needed_names_come_in_pages, queries_have_replies, reads_follow_the_state,
};
pub use restores::{restored_folders_are_folders, restores_in_rows};
pub use rows::{best_in_rows, changes_in_rows, reads_in_rows};
pub use runs::{changes_are_made_in_order, few_answers_allocate, pulls_end_by_three_changes};
pub use scans::{
    findings_are_tested_in_order, losses_are_tested_in_order, scans_record_what_is_found,
    scans_record_what_is_gone, unchanged_is_what_was_there,
};
pub use values::comparison_is_equality;
