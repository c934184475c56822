//! Peers: what the clients of a server did is told to other servers, in batches.
#![tactic(auto)]

mod law;
mod peer;
mod turn;

pub use eu_json::ItemAnswer;
pub use law::busy_turns_wait;
pub use peer::{Lost, Peer};
pub use turn::{Turn, replicate_turn};
