//! The lease registry, on one thread: each call is a step of the lease machine.
#![tactic(auto)]

mod decide;
mod decision;
mod joins;
mod registry;
mod replies;
mod statuses;
mod step;
mod undo;

pub use eu_store::Snapshot;
pub use registry::Registry;
pub use replies::{Answered, owning_nothing, replies_for, split, told_and_logged};
pub use step::Stepped;
pub use undo::{Clients, EvictionBefore, LeaseBefore, RenewalBefore, Undo};
