//! Closed books.
use eu_book::Logged;
use eu_model::{Entry, State, Tally};

/// What a pass logged.
#[derive(Debug, Drop)]
pub struct PassLog {
    /// The number of the pass.
    pub pass: u64,
    /// What it was answered, one after the other.
    pub log: Vec<Logged>,
}

/// A book that was closed, with the logs of its passes, as plain data.
#[derive(Debug, Drop)]
pub struct Closed {
    /// What the registry was before the first entry.
    pub base: State,
    /// The number of the first entry.
    pub first: u64,
    /// The commands that were accepted, with their replies, in their order.
    pub entries: Vec<Entry>,
    /// What the registry was at the end.
    pub end: State,
    /// What all accepted commands did together.
    pub totals: Tally,
    /// The log of each pass, by its number.
    pub logs: Vec<PassLog>,
}
