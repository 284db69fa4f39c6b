//! What the lock's rule sees of a pass. No value of these is made.
use bep_messages::Items;
use folder_calls::{Entry, History};

/// What a token of the lock is about to do.
pub enum TokenState {
    /// To put the folder under the lock for the first time.
    New,
    /// To take it.
    Idle,
    /// To put it back.
    Holding,
    /// Nothing any more.
    Spent,
}

/// The beginning of the history that a pass has seen.
pub struct PassHistory {
    pub pass: u64,
    pub seen: Items<Entry>,
}

/// What a token of the lock knows.
pub struct Known {
    pub state: TokenState,
    /// The history that it took or put last.
    pub memo: History,
    /// Those of its passes: none, or one, or several while tokens are joined.
    pub histories: Items<PassHistory>,
}
