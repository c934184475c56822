//! What is asked of a registry, and what it answers.

use crate::{Command, Query, Reply, View};

/// What is asked of a registry.
#[derive(Debug, Drop)]
pub enum Ask {
    /// A command.
    Do(Command),
    /// A query.
    See(Query),
}

/// What a registry answers.
#[derive(Debug, Drop)]
pub enum Answer {
    /// To a command.
    Did(Reply),
    /// To a query.
    Saw(View),
}
