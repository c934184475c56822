//! Threads that work for a server: sessions, timers and replicators, each with a pass of its own.
#![tactic(auto)]

mod all;
mod ended;
mod gated;
mod incoming;
mod long;
mod news;
mod operator;
mod replicator;
mod responded;
mod sessions;
mod site;
mod timers;

pub use all::{Job, Work, Worker, run_all};
pub use ended::Ended;
pub use eu_gate::{Gate, Go, News, Point};
pub use eu_hall::{Guest, Happened, Left, Phase, ServerFacts, Unsent, Visit};
pub use incoming::Incoming;
pub use replicator::run_replicator;
pub use sessions::run_sessions;
pub use site::Site;
pub use timers::{Asker, run_bucket, run_evictor, run_threshold, take_turns};
