//! A registry with its peers as plain data.

use crate::{Listing, Queues};
use eu_base::{Config, Id, Items, Moment, Status};

/// Override rows, the status that overrides with each id, in their order.
pub type OverrideRows = Items<(Id, Status)>;

/// A registry with its peers as plain data: what decides its next steps, and what is seen of it.
#[derive(Debug, Drop)]
pub struct State {
    /// The settings.
    pub config: Config,
    /// The clients that are expected to send renewals.
    pub expected: u64,
    /// The leases that are held, in key order.
    pub leases: Listing,
    /// The override rows, in the order of their ids.
    pub overrides: OverrideRows,
    /// The renewals of the last whole minute.
    pub last: u64,
    /// The renewals since then.
    pub since: u64,
    /// The moment of the previous eviction, if there was one.
    pub previous: Option<Moment>,
    /// What waits for each peer, by its number; a registry alone has no peers.
    pub queues: Queues,
}
