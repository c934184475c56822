//! The limits, each said once.
ghost use Rattle.std.specs.Prelude.{◌≡◌};
ghost use Rattle.eu_base.specs.Limits as spec;

/// No moment is later, in milliseconds.
pub const LAST_MOMENT: u64 = 1 << 62;

/// How long a lease lasts at most, in seconds: so many that they are less than 2^31 milliseconds.
pub const LONGEST_LEASE: u32 = 2_147_483;

/// The bytes of a name at most.
pub const LONGEST_NAME: usize = 255;

/// The leases that a registry holds at most.
pub const MOST_LEASES: usize = 65_536;

/// The clients that a registry expects at most.
pub const MOST_EXPECTED: u64 = 1 << 40;

/// The renewals of a minute that are counted at most.
pub const MOST_RENEWALS: u64 = 1 << 62;

/// The peers of a registry at most.
pub const MOST_PEERS: u32 = 8;

/// The tasks that wait for a peer at most (`maxElementsInPeerReplicationPool` in Eureka).
pub const MOST_WAITING: usize = 10_000;

/// The tasks of a batch at most (`MAX_BATCH_SIZE` of `ReplicationTaskProcessor` in Eureka).
pub const MOST_SENT: usize = 250;

/// How old a task is at most that is still sent, in milliseconds (`maxTimeForReplication` in Eureka).
pub const TASK_AGE: u64 = 30_000;

/// The entries that a journal keeps at most.
pub const MOST_ENTRIES: usize = 65_536;

/// The commands that a book accepts at most.
pub const MOST_STEPS: u64 = 1 << 62;

/// The passes of a shared book at most.
pub const MOST_PASSES: u64 = 1_024;

/// A law without code: the constants are the numbers that definitions speak of.
pub fn limits_are_one()
    ensures values { (LAST_MOMENT ≡ spec.last_moment) × (LONGEST_LEASE ≡ spec.longest_lease) × (LONGEST_NAME ≡ spec.longest_name) }
    ensures registry { (MOST_LEASES ≡ spec.most_leases) × (MOST_EXPECTED ≡ spec.most_expected) × (MOST_RENEWALS ≡ spec.most_renewals) }
    ensures peers { (MOST_PEERS ≡ spec.most_peers) × (MOST_WAITING ≡ spec.most_waiting) × (MOST_SENT ≡ spec.most_sent) × (TASK_AGE ≡ spec.task_age) }
    ensures book { (MOST_ENTRIES ≡ spec.most_entries) × (MOST_STEPS ≡ spec.most_steps) × (MOST_PASSES ≡ spec.most_passes) }
{}
