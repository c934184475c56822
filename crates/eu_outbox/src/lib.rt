//! What waits for a peer, and what is in flight to it.
#![tactic(auto)]

mod outbox;
mod waiting;

pub use outbox::Outbox;
