//! The renewal threshold, and the number of clients that are expected.
ghost use Rattle.std.specs.Prelude.{◌≡◌, ◌≤◌, ◌-◌, ◌*◌, ◌/◌, ◌^◌, ◌↔◌, true, IfOk, IfErr};
ghost use Rattle.eu_model.specs.Machine.{threshold, is_permitted, expected_after};
ghost use Rattle.eu_model.specs.Change.{one_more};

use eu_base::{Config, Fault, MOST_EXPECTED, Percent};
use std::marker::Model;

/// The renewal threshold. It is always that of the number expected; contracts see the settings and this number.
#[derive(Clone, Copy, Debug)]
pub struct Threshold {
    config: Config,
    expected: u64,
    value: u64,
}

impl Model for Threshold {
    ghost use Rattle.eu_lease.specs.Meter.{Expectation, coded_expectation};

    ghost Value = { Expectation };

    ghost coded = { coded_expectation };

    ghost use Rattle.std.specs.Prelude.{◌≡◌, ◌≤◌, ◌^◌};
    ghost use Rattle.eu_model.specs.Machine.{threshold as threshold_at};
    ghost use Rattle.eu_lease.specs.Threshold.{IsUpToDate};

    ghost view = { λ t. record { config = t.config; expected = t.expected } };

    ghost invariant = { IsUpToDate };

    ghost inverse = { λ e. record { config = e.config; expected = e.expected; value = threshold_at e.config e.expected } };

    ghost use Rattle.eu_lease.specs.Threshold.{given_back};

    ghost inverse_ok = { given_back };
}

/// The renewals a minute that so many clients owe, cut to the percentage and then rounded down
/// (`AbstractInstanceRegistry.updateRenewsPerMinThreshold` in Eureka).
fn value_of(config: &Config, expected: u64) -> u64
    requires { expected ≤ MOST_EXPECTED }
    ensures { result ≡ threshold config.now expected }
{
    let percent = u64::from(config.percent.value());
    let interval = u64::from(config.interval.secs());
    expected * 60 * percent / (interval * 100)
}

/// How many of so many leases one eviction may take out: all but the percentage, which is rounded down
/// (`AbstractInstanceRegistry.evict` in Eureka).
pub fn evict_limit(size: usize, percent: Percent) -> usize
    ensures { result ≡ size - size * percent / 100 }
{
    let stay = size as u128 * u128::from(percent.value()) / 100;
    size - stay as usize
}

impl Threshold {
    /// The threshold where so many clients are expected (`PeerAwareInstanceRegistryImpl.openForTraffic` in Eureka).
    pub fn open(config: Config, expected: u32) -> Threshold
        ensures { result ≡ record { config = config; expected = expected } }
    {
        let expected = u64::from(expected);
        let value = value_of(&config, expected);
        Threshold {
            config,
            expected,
            value,
        }
    }

    /// The settings.
    pub fn config(&self) -> Config
        ensures { result ≡ self.now.config }
    {
        self.config
    }

    /// The number of clients that are expected.
    pub fn expected(&self) -> u64
        ensures value { result ≡ self.now.expected }
        ensures bound { result ≤ MOST_EXPECTED }
    {
        self.expected
    }

    /// The renewals a minute above which eviction is permitted (`numberOfRenewsPerMinThreshold` in Eureka).
    pub fn value(&self) -> u64
        ensures { result ≡ threshold self.now.config self.now.expected }
    {
        self.value
    }

    /// Whether eviction is permitted after so many renewals in the last minute: self-preservation is off, or there is a
    /// threshold and they are more than it (`PeerAwareInstanceRegistryImpl.isLeaseExpirationEnabled` in Eureka).
    pub fn permitted(&self, renewals: u64) -> bool
        ensures { result ≡ is_permitted self.now.config self.now.expected renewals }
    {
        !self.config.preservation || (self.value > 0 && renewals > self.value)
    }

    /// How many clients are expected once one more has come: none where none was (`AbstractInstanceRegistry.register` in Eureka).
    /// `Exhausted` exactly where 2^40 are.
    pub fn one_more(&self) -> Result<u64, Fault>
        ensures one_more { IfOk result (λ clients. clients ≡ one_more true self.now.expected) }
        ensures bound { IfOk result (λ clients. clients ≤ MOST_EXPECTED) }
        ensures exhausted { (result ≡ Err Fault.Exhausted) ↔ (self.now.expected ≡ MOST_EXPECTED) }
        ensures no_other { IfErr result (λ f. f ≡ Fault.Exhausted) }
    {
        match self.expected {
            0 => Ok(0),
            MOST_EXPECTED => Err(Fault::Exhausted),
            clients => Ok(clients + 1),
        }
    }

    /// So many clients are expected from now on, at most 2^40. The threshold is computed anew.
    pub fn expect(&mut self, clients: u64)
        requires { clients ≤ MOST_EXPECTED }
        ensures { self.new ≡ record self.old { expected = clients } }
    {
        if clients != self.expected {
            self.expected = clients;
            self.value = value_of(&self.config, clients);
        }
    }

    /// So many clients have left at once, as when an eviction takes their leases: so many fewer are expected, but never fewer than
    /// none (`AbstractInstanceRegistry.internalCancel` in Eureka, which is called for each of them). The threshold is computed anew.
    /// Takes no memory.
    pub fn left_by(&mut self, clients: usize)
        ensures { self.new ≡ record self.old { expected = self.old.expected - clients } }
    {
        self.expected = self.expected.saturating_sub(clients as u64);
        self.value = value_of(&self.config, self.expected);
    }

    /// Counts the clients anew, where so many leases are held: they are expected, where they are more than the percentage of
    /// those that were, or where self-preservation is off.
    pub fn update(&mut self, held: u32)
        ensures { self.new ≡ record self.old { expected = expected_after self.old.config self.old.expected held } }
    {
        let held = u64::from(held);
        let percent = u64::from(self.config.percent.value());
        if percent * self.expected < held * 100 || !self.config.preservation {
            self.expected = held;
        }
        self.value = value_of(&self.config, self.expected);
    }

    /// Takes other settings: the threshold is that of these at once, and the number of clients that are expected stays (Eureka
    /// reads its `EurekaServerConfig` from properties, which may change while it runs). Takes no memory.
    pub fn reconfigure(&mut self, config: Config)
        ensures { self.new ≡ record self.old { config = config } }
    {
        self.config = config;
        self.value = value_of(&self.config, self.expected);
    }
}
