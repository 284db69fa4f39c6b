//! Laws of what the crates of a node mean by their definitions, where a wider or a narrower one would be met by the same code. A law is a
//! function that does nothing, whose contract says of the definitions what follows from them in plainer words.
#![tactic(auto)]

mod choices;
pub mod counting;
mod left;
mod passes;
mod pulls;
mod resumed;
mod rounds;
mod shares;

pub use choices::{new_bests_of_a_folder_are_counted, new_bests_of_an_index_are_counted};
pub use left::{each_folder_is_left_in_its_place, the_last_number_of_a_device_is_kept};
pub use passes::{a_full_folder_has_all_passes, no_pass_is_left_of_a_full_folder};
pub use pulls::{
    PullParts, a_pull_first_asks_to_begin, a_pull_that_ends_had_begun,
    a_refused_pull_answers_its_begin,
};
pub use resumed::{
    a_run_begins_with_its_folders, records_of_shared_devices_stay,
    stored_folders_keep_their_numbers,
};
pub use rounds::{folders_come_back, kept_numbers_come_back};
pub use shares::{each_folder_is_shared_once, the_stored_number_is_told};
