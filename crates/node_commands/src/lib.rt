//! The commands of a node: what is read, and what is answered.
#![tactic(auto)]

mod answer;
mod command;
mod command_lines;
mod lines;
mod listing;
mod refusal;
mod status;

pub use answer::{Answerer, CommandsEnd, Histories, answer_commands};
pub use command_lines::CommandLines;
pub use lines::{InputLine, is_last, read_commands};
