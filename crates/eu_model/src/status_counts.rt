//! How many leases have each status.
ghost use Rattle.std.specs.Prelude.{◌≡◌, ◌<◌, ◌-◌, ◌^◌};
ghost use Rattle.eu_model.specs.View.{status_counts, with_one_more, with_one_fewer, in_status};

use crate::Listed;
use eu_base::Status;

/// How many leases have each status.
#[derive(Clone, Copy, Debug, PartialEq, Eq)]
pub struct StatusCounts {
    /// Those that are up.
    pub up: u64,
    /// Those that are down.
    pub down: u64,
    /// Those that are starting.
    pub starting: u64,
    /// Those that are out of service.
    pub out_of_service: u64,
    /// Those whose status is unknown.
    pub unknown: u64,
}

impl StatusCounts {
    /// Of these leases. Takes no memory.
    pub fn of(held: &[Listed]) -> StatusCounts
        ensures { result ≡ status_counts held.now }
    {
        let mut counts = StatusCounts {
            up: 0,
            down: 0,
            starting: 0,
            out_of_service: 0,
            unknown: 0,
        };
        for listed in held {
            counts.add(listed.instance.status());
        }
        counts
    }

    /// One lease more of this status.
    pub fn add(&mut self, status: Status)
        requires { in_status self.old status < 2 ^ 64 - 1 }
        ensures { self.new ≡ with_one_more self.old status }
    {
        match status {
            Status::Up => self.up += 1,
            Status::Down => self.down += 1,
            Status::Starting => self.starting += 1,
            Status::OutOfService => self.out_of_service += 1,
            Status::Unknown => self.unknown += 1,
        }
    }

    /// One lease less of this status.
    pub fn remove(&mut self, status: Status)
        requires { 0 < in_status self.old status }
        ensures { self.new ≡ with_one_fewer self.old status }
    {
        match status {
            Status::Up => self.up -= 1,
            Status::Down => self.down -= 1,
            Status::Starting => self.starting -= 1,
            Status::OutOfService => self.out_of_service -= 1,
            Status::Unknown => self.unknown -= 1,
        }
    }
}
