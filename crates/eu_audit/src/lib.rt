//! The auditor: decides whether a list of entries that a server wrote is a run of the lease machine. It stands on the definitions alone and
//! chooses no victim.
#![tactic(auto)]

mod auditor;
mod evictions;
mod law;
mod numbers;
mod plain;
mod registry;
mod server;
mod tasks;

pub use auditor::audit;
pub use law::runs_are_plain;
