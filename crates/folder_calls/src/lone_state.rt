//! What a folder with one caller keeps, as contracts see it: the history, how much was seen, and a planned change.
use crate::{History, Plan};

/// What a [`Lone`](crate::Lone) keeps, as contracts see it; no value of it is made.
pub struct LoneState {
    /// The folder's history. The caller is pass 1, and whoever makes what is planned is pass 2.
    pub history: History,
    /// How many of the entries the caller has seen.
    pub seen: u64,
    /// The change that another caller is to make.
    pub plan: Option<Plan>,
    /// Whether a change of another caller was ever planned.
    pub planned: bool,
}
