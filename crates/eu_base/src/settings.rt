//! The settings of a registry.
ghost use Rattle.std.specs.Prelude.{◌≡◌, ◌≤◌, ◌<◌, ◌⊎◌, ◌↔◌, SomeIff, IfOk, IfErr, IsTrue};
ghost use Rattle.eu_base.specs.Values.{settings_from};

use crate::faults::Fault;
use std::marker::Model;

/// A percentage: 0 to 100. Contracts see the number.
#[derive(Clone, Copy, Debug)]
pub struct Percent {
    value: u32,
}

impl Model for Percent {
    ghost use Rattle.std.specs.Prelude.{ℕ, ◌≤◌};

    ghost Value = { ℕ };

    ghost view = { λ p. p.value };

    ghost invariant = { λ p. p.value ≤ 100 };

    ghost inverse = { λ n. record { value = n } };
}

impl Percent {
    /// That percentage. None exactly where it is above 100.
    pub fn new(value: u32) -> Option<Percent>
        ensures { SomeIff result (value ≤ 100) value }
    {
        if value > 100 {
            return None;
        }
        Some(Percent { value })
    }

    /// The number.
    pub fn value(self) -> u32
        ensures value { result ≡ self }
        ensures bound { result ≤ 100 }
    {
        self.value
    }
}

/// The seconds between two renewals of a client, as a registry expects them: 1 to 3,600. Contracts see the number.
#[derive(Clone, Copy, Debug)]
pub struct ExpectedRenewalSecs {
    secs: u32,
}

impl Model for ExpectedRenewalSecs {
    ghost use Rattle.std.specs.Prelude.{ℕ, ◌≤◌};

    ghost Value = { ℕ };

    ghost view = { λ s. s.secs };

    ghost invariant = { λ s. (1 ≤ s.secs) × (s.secs ≤ 3600) };

    ghost inverse = { λ n. record { secs = n } };
}

impl ExpectedRenewalSecs {
    /// So many seconds. None exactly where they are 0, or more than 3,600.
    pub fn new(secs: u32) -> Option<ExpectedRenewalSecs>
        ensures { SomeIff result ((1 ≤ secs) × (secs ≤ 3600)) secs }
    {
        if secs == 0 || secs > 3600 {
            return None;
        }
        Some(ExpectedRenewalSecs { secs })
    }

    /// The seconds.
    pub fn secs(self) -> u32
        ensures value { result ≡ self }
        ensures bounds { (1 ≤ result) × (result ≤ 3600) }
    {
        self.secs
    }
}

/// The settings of a registry (`EurekaServerConfig` in Eureka).
#[derive(Clone, Copy, Debug)]
pub struct Config {
    /// Whether self-preservation is on (`enableSelfPreservation`).
    pub preservation: bool,
    /// The share of the expected renewals, in percent, above which eviction goes on (`renewalPercentThreshold`).
    pub percent: Percent,
    /// The seconds between two renewals of a client (`expectedClientRenewalIntervalSeconds`).
    pub interval: ExpectedRenewalSecs,
    /// The milliseconds between two evictions (`evictionIntervalTimerInMs`).
    pub evict_ms: u32,
}

impl Config {
    /// These settings.
    ///
    /// `BadPercent` where the percentage is above 100; else `BadInterval` where the interval isn't from 1 to 3,600 s.
    pub fn new(
        preservation: bool,
        percent: u32,
        interval: u32,
        evict_ms: u32,
    ) -> Result<Config, Fault>
        ensures preservation { IfOk result (λ c. c.preservation ≡ preservation) }
        ensures percent { IfOk result (λ c. c.percent ≡ percent) }
        ensures interval { IfOk result (λ c. c.interval ≡ interval) }
        ensures evict_ms { IfOk result (λ c. c.evict_ms ≡ evict_ms) }

        ensures bad_percent { (result ≡ Err Fault.BadPercent) ↔ (100 < percent) }
        ensures bad_interval { (result ≡ Err Fault.BadInterval) ↔ ((percent ≤ 100) × ((interval < 1) ⊎ (3600 < interval))) }
        ensures no_other { IfErr result (λ f. (f ≡ Fault.BadPercent) ⊎ (f ≡ Fault.BadInterval)) }
    {
        let percent = Percent::new(percent).ok_or(Fault::BadPercent)?;
        let interval = ExpectedRenewalSecs::new(interval).ok_or(Fault::BadInterval)?;
        Ok(Config {
            preservation,
            percent,
            interval,
            evict_ms,
        })
    }

    /// The settings of these values. None exactly where `new` refuses them: the percentage is above 100, or the interval isn't from
    /// 1 to 3,600 s.
    #[tactic(auto, unfolding(crate::specs::Values::settings_from))]
    pub fn of_values(
        preservation: bool,
        percent: u32,
        interval: u32,
        evict_ms: u32,
    ) -> Option<Config>
        ensures { result ≡ settings_from preservation percent interval evict_ms }
    {
        Config::new(preservation, percent, interval, evict_ms).ok()
    }

    /// Whether both are equal in every field. Takes no memory.
    pub fn same(&self, other: &Config) -> bool
        ensures { IsTrue result ↔ (self.now ≡ other.now) }
    {
        self.preservation == other.preservation
            && self.percent.value() == other.percent.value()
            && self.interval.secs() == other.interval.secs()
            && self.evict_ms == other.evict_ms
    }
}
