//! Leases: how long each lasts, and which status its instance is given. And what self-preservation compares: the renewals of the last
//! minute, and the renewal threshold.
#![tactic(auto)]

mod lease;
mod rate;
mod rule;
mod threshold;

pub use lease::Lease;
pub use rate::Rate;
pub use rule::{is_status, override_rule};
pub use threshold::{Threshold, evict_limit};
