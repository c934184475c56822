//! Override rows, and evictions: leases that have expired go, and the rows of their ids with them.
#![tactic(auto)]

mod eviction;
mod lots;
mod overrides;

pub use eviction::{Eviction, Removed, run_eviction};
pub use overrides::Overrides;
