//! Instances, as they are registered.
use crate::names::Key;
use crate::rest::Rest;
use crate::statuses::Status;
use crate::times::{LeaseSecs, RenewalSecs, Stamp};

/// An instance, as it is registered (`InstanceInfo` in Eureka).
#[derive(Debug, Drop)]
pub struct Instance {
    /// The key of its lease.
    pub key: Key,
    /// Its status, by which clients choose whom to ask.
    pub status: Status,
    /// The status that an operator, or a peer, put over its own; `Unknown` where none was put, or where that is the one.
    pub overridden: Status,
    /// The stamp of its last change.
    pub last_dirty: Stamp,
    /// The duration of its lease.
    pub secs: LeaseSecs,
    /// How often its client means to renew the lease. The registry keeps it and doesn't use it.
    pub interval: RenewalSecs,
    /// What else its client gave.
    pub rest: Rest,
}
