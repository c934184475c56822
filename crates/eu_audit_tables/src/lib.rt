//! The tables of an auditor: the leases that a replayed registry holds, with the numbers of their deadlines, and the override rows.
#![tactic(auto)]

mod deadlines;
mod leases;
mod overrides;

pub use leases::Leases;
pub use overrides::Overrides;
