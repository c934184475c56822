//! Moments, stamps and durations.
ghost use Rattle.std.specs.Prelude.{◌≡◌, ◌≤◌, ◌<◌, ◌^◌, SomeIff};

use crate::{LAST_MOMENT, LONGEST_LEASE};
use std::marker::Model;

/// A moment of the handed clock, in milliseconds: 0 to 2^62. Contracts see the number.
#[derive(Clone, Copy, Debug)]
pub struct Moment {
    ms: u64,
}

impl Model for Moment {
    ghost use Rattle.std.specs.Prelude.{ℕ, ◌≤◌};
    ghost use Rattle.eu_base.specs.Limits.{last_moment};

    ghost Value = { ℕ };

    ghost view = { λ m. m.ms };

    ghost invariant = { λ m. m.ms ≤ last_moment };

    ghost inverse = { λ n. record { ms = n } };
}

impl Moment {
    /// The moment of so many milliseconds. None exactly where they are more than 2^62.
    pub fn new(ms: u64) -> Option<Moment>
        ensures { SomeIff result (ms ≤ LAST_MOMENT) ms }
    {
        if ms > LAST_MOMENT {
            return None;
        }
        Some(Moment { ms })
    }

    /// The milliseconds.
    pub fn ms(self) -> u64
        ensures value { result ≡ self }
        ensures bound { result ≤ LAST_MOMENT }
    {
        self.ms
    }
}

/// The stamp of a change that a client made to its instance (`lastDirtyTimestamp` in Eureka): 0 to 2^63 - 1, by a clock of the client's.
/// Contracts see the number.
#[derive(Clone, Copy, Debug)]
pub struct Stamp {
    value: u64,
}

impl Model for Stamp {
    ghost use Rattle.std.specs.Prelude.{ℕ, ◌<◌, ◌^◌};

    ghost Value = { ℕ };

    ghost view = { λ s. s.value };

    ghost invariant = { λ s. s.value < 2 ^ 63 };

    ghost inverse = { λ n. record { value = n } };
}

impl Stamp {
    /// The stamp of that number. None exactly where it is 2^63 or more.
    pub fn new(value: u64) -> Option<Stamp>
        ensures { SomeIff result (value < 2 ^ 63) value }
    {
        if value >= 1 << 63 {
            return None;
        }
        Some(Stamp { value })
    }

    /// The number.
    pub fn value(self) -> u64
        ensures value { result ≡ self }
        ensures bound { result < 2 ^ 63 }
    {
        self.value
    }
}

/// The duration of a lease (`durationInSecs` in Eureka), in seconds: 1 to 2,147,483. Contracts see the number.
#[derive(Clone, Copy, Debug)]
pub struct LeaseSecs {
    secs: u32,
}

impl Model for LeaseSecs {
    ghost use Rattle.std.specs.Prelude.{ℕ, ◌≤◌};
    ghost use Rattle.eu_base.specs.Limits.{longest_lease};

    ghost Value = { ℕ };

    ghost view = { λ s. s.secs };

    ghost invariant = { λ s. (1 ≤ s.secs) × (s.secs ≤ longest_lease) };

    ghost inverse = { λ n. record { secs = n } };
}

impl LeaseSecs {
    /// What a lease lasts where the registration says nothing (`LeaseInfo.DEFAULT_LEASE_DURATION` in Eureka).
    pub const DEFAULT: LeaseSecs = LeaseSecs { secs: 90 };

    /// So many seconds. None exactly where they are 0, or more than 2,147,483.
    pub fn new(secs: u32) -> Option<LeaseSecs>
        ensures { SomeIff result ((1 ≤ secs) × (secs ≤ LONGEST_LEASE)) secs }
    {
        if secs == 0 || secs > LONGEST_LEASE {
            return None;
        }
        Some(LeaseSecs { secs })
    }

    /// The seconds.
    pub fn secs(self) -> u32
        ensures value { result ≡ self }
        ensures bounds { (1 ≤ result) × (result ≤ LONGEST_LEASE) }
    {
        self.secs
    }
}

/// How often a client means to renew its lease (`renewalIntervalInSecs` in Eureka), in seconds: 1 to 2^31 - 1. Contracts see the number.
#[derive(Clone, Copy, Debug)]
pub struct RenewalSecs {
    secs: u32,
}

impl Model for RenewalSecs {
    ghost use Rattle.std.specs.Prelude.{ℕ, ◌≤◌, ◌<◌, ◌^◌};

    ghost Value = { ℕ };

    ghost view = { λ s. s.secs };

    ghost invariant = { λ s. (1 ≤ s.secs) × (s.secs < 2 ^ 31) };

    ghost inverse = { λ n. record { secs = n } };
}

impl RenewalSecs {
    /// What the registration means that says nothing (`LeaseInfo.DEFAULT_LEASE_RENEWAL_INTERVAL` in Eureka).
    pub const DEFAULT: RenewalSecs = RenewalSecs { secs: 30 };

    /// So many seconds. None exactly where they are 0, or 2^31 or more.
    pub fn new(secs: u32) -> Option<RenewalSecs>
        ensures { SomeIff result ((1 ≤ secs) × (secs < 2 ^ 31)) secs }
    {
        if secs == 0 || secs >= 1 << 31 {
            return None;
        }
        Some(RenewalSecs { secs })
    }

    /// The seconds.
    pub fn secs(self) -> u32
        ensures value { result ≡ self }
        ensures bounds { (1 ≤ result) × (result < 2 ^ 31) }
    {
        self.secs
    }
}
