//! The queue of a peer, replayed: what an auditor keeps of the tasks that wait, and of the batch in flight.
#![tactic(auto)]

mod ages;
mod name;
mod order;
mod plain;
mod queue;
mod waiting;

pub use queue::PeerQueue;
