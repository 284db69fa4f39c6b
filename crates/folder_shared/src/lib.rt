//! One folder for all threads: under one lock, with one history of its accepted changes.
//!
//! Each caller has a [`Pass`], which knows a beginning of the history with all entries of its own. The rule of the lock
//! (`specs/Rule.antt`) says how these fit together.
#![tactic(auto)]

mod blank;
mod changes;
mod check;
mod folder;
mod known;
mod lock;
mod mark;
mod member;
mod reads;
mod rule;
mod shared;
mod turn;

pub use blank::{BlankRule, Origin};
pub use known::{Known, PassHistory, TokenState};
pub use member::Member;
pub use rule::OneHistory;
pub use shared::{BlankSlot, LockedFolder, Pass, PassCount, PassesFull, SharedFolder};
