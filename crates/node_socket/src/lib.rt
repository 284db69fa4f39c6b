//! Commands from elsewhere: the socket beside a state at which a run takes them, and how a run is asked there.
//!
//! Who asks sends one line. The answer is lines, and then a line with a full stop alone, after which the connection ends. The answer to `quit` comes once the run has
//! ended.
#![tactic(auto)]

mod answer;
mod asking;
mod lines;
mod replies;
mod run_end;
mod run_input;
mod taking;

pub use answer::Answer;
pub use asking::{AskFault, ask, is_short, question, socket_path};
pub use lines::{Asked, AskedLines, pass_on};
pub use replies::{Asker, Replies};
pub use run_end::RunEnd;
pub use run_input::RunInput;
pub use taking::{Answerers, listen, take_asked};
