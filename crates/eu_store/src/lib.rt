//! The leases that are held, by their keys.
#![tactic(auto)]

mod directory;
mod held;
mod kept;
mod leases;
mod places;
mod rows;
mod snapshot;
mod sweep;
mod table;

pub use held::{Amendment, HeldLease};
pub use leases::{Leases, Place};
pub use snapshot::Snapshot;
pub use sweep::Taking;
