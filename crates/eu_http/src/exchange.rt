//! What a request asks of a registry, and what comes of it.

use crate::wanted::Wanted;
use eu_base::Fault;
use eu_model::{Answer, Ask};

/// What a request asks.
#[derive(Debug, Drop)]
pub enum Asked {
    /// Nothing: the policy forbids it, or what it wants is never given.
    Forbidden,
    /// These.
    Asks {
        /// The kind of answer that it wants.
        wanted: Wanted,
        /// What is asked, in order.
        asks: Vec<Ask>,
    },
}

/// What comes of a request.
#[derive(Debug, Drop)]
pub enum Outcome {
    /// It was refused before anything was asked: by its framing, its path, its query or its body.
    Refused(Fault),
    /// The policy forbids it, or what it wants is never given.
    Forbidden,
    /// It was asked.
    Answers {
        /// The kind of answer that it wants.
        wanted: Wanted,
        /// An answer, or the registry's fault, for each ask, in order.
        answers: Vec<Result<Answer, Fault>>,
    },
}
