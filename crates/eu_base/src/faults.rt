//! Faults, each with its number.
ghost use Rattle.std.specs.Prelude.{◌≡◌};
ghost use Rattle.eu_base.specs.Fault.{fault_number};

use std::alloc::{AllocError, AllocFailed};
use thiserror::Error;

/// Why a call is refused. Each fault has a fixed number, by which scripts and responses tell it.
#[derive(Clone, Copy, Debug, Error, PartialEq, Eq)]
pub enum Fault {
    /// A name has no byte.
    #[error("the name is empty")]
    Empty = 1,
    /// A name has more than 255 bytes.
    #[error("the name is longer than 255 bytes")]
    TooLong = 2,
    /// No memory was left. The call changed nothing, unless it says otherwise.
    #[error("out of memory")]
    OutOfMemory = 3,
    /// A percentage above 100.
    #[error("the percentage is above 100")]
    BadPercent = 4,
    /// An interval below 1 s or above 3,600 s.
    #[error("the interval isn't between 1 and 3600 seconds")]
    BadInterval = 5,
    /// A count stands at its limit.
    #[error("a count is at its limit")]
    Exhausted = 6,
    /// The registry holds 65,536 leases.
    #[error("the registry is full")]
    Full = 7,
    /// A batch is in flight.
    #[error("a batch is in flight")]
    Busy = 8,
    /// No unexpired task waits.
    #[error("no task waits")]
    EmptyBatch = 9,
    /// A batch was answered by another number of codes than it has tasks.
    #[error("the number of codes differs from the batch")]
    CountDiffers = 10,
    /// No batch is in flight.
    #[error("no batch is in flight")]
    NoFlight = 11,
    /// 1,024 passes were made.
    #[error("no more passes can be made")]
    TooManyPasses = 12,
    /// Not every pass was handed in.
    #[error("a pass is missing")]
    PassMissing = 13,
    /// A log differs from the journal.
    #[error("a log differs from the journal")]
    Mismatch = 14,
    /// There is no peer of that number.
    #[error("there is no such peer")]
    NoPeer = 15,
    /// A body isn't the JSON text that is asked for.
    #[error("the body isn't the JSON that is asked for")]
    NotJson = 20,
    /// An instance has neither an id nor a host name.
    #[error("the instance id is missing")]
    MissingId = 21,
    /// An instance has no host name.
    #[error("the host name is missing")]
    MissingHost = 22,
    /// An instance has no address.
    #[error("the address is missing")]
    MissingIp = 23,
    /// An instance has no application.
    #[error("the application is missing")]
    MissingApp = 24,
    /// An instance's application isn't that of the path.
    #[error("the application isn't that of the path")]
    WrongApp = 25,
    /// An instance has no data center.
    #[error("the data center is missing")]
    MissingCenter = 26,
    /// An instance's data center has no name.
    #[error("the data center's name is missing")]
    MissingCenterName = 27,
    /// A number isn't whole.
    #[error("a number isn't whole")]
    NotWhole = 28,
    /// A stamp isn't a whole number up to 2^63 - 1.
    #[error("a stamp is out of range")]
    BadStamp = 29,
    /// A duration isn't a whole number up to 2,147,483 s.
    #[error("a duration is out of range")]
    BadDuration = 30,
    /// A body isn't a batch.
    #[error("the body isn't a batch")]
    BadBatch = 31,
    /// A request's head can't be read.
    #[error("the request's head is bad")]
    BadHead = 32,
    /// A request's head is longer than 8,192 bytes, or has more than 64 fields.
    #[error("the request's head is too long")]
    HeadTooLong = 33,
    /// A request's body is longer than its limit.
    #[error("the request's body is too long")]
    BodyTooLong = 34,
    /// A request's body has no length that can be used.
    #[error("the body's length is bad")]
    BadLength = 35,
    /// A chunk of a request's body can't be read.
    #[error("a chunk of the body is bad")]
    BadChunk = 36,
    /// A segment of a path isn't a name.
    #[error("the path is bad")]
    BadPath = 37,
    /// A value of a query is missing or bad.
    #[error("a value of the query is bad")]
    BadValue = 38,
    /// No route has that method and path.
    #[error("there is no such route")]
    NoRoute = 39,
    /// A read failed, or a bound on what is read was passed.
    #[error("a read failed")]
    Read = 40,
    /// A write failed.
    #[error("a write failed")]
    Write = 41,
    /// A body is encoded.
    #[error("the body's encoding isn't identity")]
    BadEncoding = 42,
}

impl Fault {
    /// The fault's number, from 1 to 42. It never changes.
    pub fn number(self) -> u8
        ensures { result ≡ fault_number self }
    {
        self as u8
    }
}

impl From<AllocError> for Fault {
    ghost use Rattle.std.specs.Prelude.{◌≡◌};
    ghost use Rattle.eu_base.specs.declared.faults.Fault.TheVariants.{OutOfMemory};

    ghost from_gives = { λ _ fault. fault ≡ OutOfMemory };

    fn from(_error: AllocError) -> Fault {
        Fault::OutOfMemory
    }
}

impl<T: Drop> From<AllocFailed<T>> for Fault {
    ghost use Rattle.std.specs.Prelude.{◌≡◌};
    ghost use Rattle.eu_base.specs.declared.faults.Fault.TheVariants.{OutOfMemory};

    ghost from_gives = { λ _ fault. fault ≡ OutOfMemory };

    fn from(_error: AllocFailed<T>) -> Fault {
        Fault::OutOfMemory
    }
}
