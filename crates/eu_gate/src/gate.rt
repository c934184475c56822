//! Gates: what workers pass before they go on.
ghost use Rattle.std.specs.Prelude.{◌≡◌};

use crate::tally::{Responded, Tally};

/// The most loops of a server, each of which serves connections of its own.
pub const MOST_WORKERS: u32 = 16;

/// The workers of sessions that a server has at most beside those: one that accepts connections, one that answers operators, and two for requests that take
/// long. All workers of sessions have the numbers 1 to 20.
pub const OTHER_WORKERS: u32 = 4;

/// The number of the evictor.
pub const EVICTOR: u32 = 21;

/// The number of the bucket's worker.
pub const BUCKET: u32 = 22;

/// The number of the threshold's worker.
pub const THRESHOLD: u32 = 23;

/// The number of the replicator of peer 0. That of peer `p` is greater by `p`.
pub const FIRST_REPLICATOR: u32 = 24;

/// Where a worker stands.
#[derive(Clone, Copy, Debug, PartialEq, Eq)]
pub enum Point {
    /// Before a turn.
    Turn,
    /// Before a read of a connection.
    Read,
    /// Before the flush of a response, which is written.
    Replied,
}

/// What a gate says.
#[derive(Clone, Copy, Debug, PartialEq, Eq)]
pub enum Go {
    /// Go on.
    On,
    /// Go no further. Before a turn it ends the worker, before a read it is a failure of that read, and before a flush it changes
    /// nothing.
    Stop,
}

/// What a turn of the evictor saw and did.
#[derive(Clone, Copy, Debug, PartialEq, Eq)]
pub struct News {
    /// Whether eviction was permitted.
    pub permitted: bool,
    /// The renewals of the last whole minute.
    pub renewals: u64,
    /// The renewals a minute above which eviction is permitted.
    pub threshold: u64,
    /// How many leases were due.
    pub due: u64,
    /// How many were evicted.
    pub evicted: u64,
}

/// What the workers of a server pass before they go on. So a server paces its timers and stops its workers, and a test holds them
/// where it wants them.
pub trait Gate {
    // What holds where it stops a worker. Nothing is to be told of it but where a caller wants that.
    ghost stops: { Self → Type 0 } = { λ _. Unit {0} };

    /// Lets the worker of that number go on from a point, or stops it. It may take as long as it wants.
    fn pass(&self, who: u32, point: Point) -> Go
        ensures { result ≡ Go.Stop → stops self.now };

    /// Hears what a turn of the evictor saw and did. Nothing comes of it but where it is to be told.
    fn hear(&self, _news: News) {}

    /// Hears what a response told that the worker of that number gave a client. Nothing comes of it but where responses are counted.
    fn responded(&self, _who: u32, _told: Responded) {}

    /// Hears that the session is over which the worker of that number serves. Its last response isn't sent yet, so its client can't come back before this is heard.
    fn ended(&self, _who: u32) {}

    /// How many responses clients were given so far; none where they aren't counted.
    fn responses(&self) -> Tally {
        Tally::none()
    }
}
