//! What is told of a registry and its server.
ghost use Rattle.std.specs.Prelude.{◌≡◌};
ghost use Rattle.eu_admin.specs.Facts.{permission};

use eu_gate::Tally;
use eu_model::{Counts, Gauges, StatusCounts};

/// What is told of a registry and its server at a moment.
#[derive(Clone, Copy, Debug)]
pub struct Facts {
    /// The counts of the registry, and how many leases are due.
    pub gauges: Gauges,
    /// How many leases are held in each status.
    pub statuses: StatusCounts,
    /// What was done since the start.
    pub done: Done,
    /// The connections of the server.
    pub connections: Connections,
    /// How many responses its clients were given.
    pub responses: Tally,
    /// For how long the server has run, in whole seconds.
    pub uptime_secs: u64,
}

/// What a registry did since the start of its server.
#[derive(Clone, Copy, Debug)]
pub struct Done {
    /// The steps: commands that were carried out, whatever came of them.
    pub steps: u64,
    /// The renewals that were counted.
    pub renewed: u64,
    /// The leases that were added.
    pub added: u64,
    /// The leases that were removed, for whatever reason.
    pub removed: u64,
    /// Those of them that were evicted, since they had expired.
    pub evicted: u64,
}

/// The connections of a server.
#[derive(Clone, Copy, Debug)]
pub struct Connections {
    /// Those that are open.
    pub open: u64,
    /// Those that were accepted since the start.
    pub accepted: u64,
    /// Those that were turned away since the start, as too many were open.
    pub refused: u64,
}

/// Why leases that expire are evicted, or are held back.
#[derive(Clone, Copy, Debug, PartialEq, Eq)]
pub enum Permission {
    /// Self-preservation is off: they are evicted, however few renew.
    Off,
    /// Nothing is expected yet, so that the threshold is 0: they are held back.
    NoThreshold,
    /// No more renewals came than the threshold: they are held back.
    TooFew,
    /// More renewals came than the threshold: they are evicted.
    Fine,
}

/// Why evictions are permitted or held back in a registry with these counts (`PeerAwareInstanceRegistryImpl.isLeaseExpirationEnabled` in Eureka). Whether they are
/// permitted is what the counts say; `reasons_are_the_rule` is the law that ties each reason to the numbers.
pub fn why(counts: &Counts) -> Permission
    ensures { result ≡ permission counts.now }
{
    if !counts.preservation {
        return Permission::Off;
    }
    if counts.permitted {
        return Permission::Fine;
    }
    if counts.threshold == 0 {
        return Permission::NoThreshold;
    }
    Permission::TooFew
}
