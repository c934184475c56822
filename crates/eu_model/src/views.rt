//! What is seen of a registry.

use crate::StatusCounts;
use eu_base::{App, Items, Key, SharedInstance};

/// What may be asked of a registry without changing it.
#[derive(Debug, Drop)]
pub enum Query {
    /// One lease, where it is visible.
    One(Key),
    /// Everything that an application holds, expired or not.
    OfApp(App),
    /// Everything that is held, expired or not.
    All,
    /// How many leases are held, expected and renewed.
    Counts,
    /// What a status page tells: those numbers, and how many leases there are of each status.
    Page,
}

/// What a query is answered.
#[derive(Debug, Drop)]
pub enum View {
    /// The lease; none where none is visible.
    One(Option<Listed>),
    /// What the application holds, in key order; empty where it holds nothing.
    OfApp(Listing),
    /// What is held, in key order.
    All(Listing),
    /// The counts.
    Counts(Counts),
    /// The counts, and how many leases are held of each status.
    Page(Counts, StatusCounts),
}

/// The counts of a registry.
#[derive(Clone, Copy, Debug)]
pub struct Counts {
    /// The leases that are held.
    pub held: u64,
    /// The clients that are expected to send renewals.
    pub expected: u64,
    /// The renewals a minute above which eviction is permitted.
    pub threshold: u64,
    /// The renewals of the last whole minute.
    pub last: u64,
    /// Whether eviction is permitted.
    pub permitted: bool,
    /// Whether self-preservation is on.
    pub preservation: bool,
}

/// What an operator watches of a registry.
#[derive(Clone, Copy, Debug)]
pub struct Gauges {
    /// The counts.
    pub counts: Counts,
    /// The leases that are due: those that an eviction may take, where it is permitted.
    pub due: u64,
}

/// The moments of a lease, in milliseconds.
#[derive(Clone, Copy, Debug)]
pub struct Times {
    /// When it was registered.
    pub registered: u64,
    /// The last update: when it was registered or, after a renewal, the renewal's moment and one duration.
    pub updated: u64,
    /// When its instance was first up; 0 where it never was.
    pub up: u64,
}

/// Held leases, in their order.
pub type Listing = Items<Listed>;

/// A held lease, as it is listed.
#[derive(Debug, Drop)]
pub struct Listed {
    /// The instance.
    pub instance: SharedInstance,
    /// Its moments.
    pub times: Times,
}
