//! What each command on one lease changes, told from what an auditor keeps of the lease, of the override row of its id and of the number
//! expected.
#![tactic(auto)]

mod changes;
mod renewals;

pub use changes::{Changed, adopt, cancel, copied, register};
pub use renewals::{expired, renew, set_status, unset_status};
