//! A node by a configuration file, whose state is kept in a file between its runs.
#![tactic(auto)]

mod addresses;
mod asked;
mod asking;
mod begun;
mod checking;
mod consoles;
mod failure;
mod files;
mod journal;
mod last_run;
mod lock;
mod losses;
mod marks;
mod naming;
mod nodes;
mod outlet;
mod outlook;
mod outlook_folder;
mod page;
mod paths;
mod placing;
mod plans;
mod probing;
mod readiness;
mod ready;
mod recorded;
mod run;
mod starts;
mod telling;

pub use asking::{AskWords, ask_run};
pub use checking::check_config;
pub use failure::RunFailure;
pub use files::StateFiles;
pub use node_context::ProgressStyle;
pub use node_files::{Disks, Stores};
pub use node_threads::UnixSockets;
pub use run::{RunStyle, run_config};
pub use telling::tell_failure;
