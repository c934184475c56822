//! The numbers of self-preservation and of an eviction.
ghost use Rattle.std.specs.Prelude.{◌≡◌, ℕ, min};
ghost use Rattle.eu_model.specs.Step.{extra_time, number_of_victims};
ghost use Rattle.eu_model.specs.Machine.{threshold, share, is_permitted, expected_after};

use eu_base::{Config, Moment};

/// The renewals a minute above which eviction is permitted.
fn threshold(config: &Config, expected: u64) -> u128
    ensures { result ≡ threshold config.now expected }
{
    let percent = u128::from(config.percent.value());
    let interval = u128::from(config.interval.secs());
    expected as u128 * 60 * percent / (interval * 100)
}

/// Whether eviction is permitted, after so many renewals in the last minute.
pub(crate) fn is_permitted(config: &Config, expected: u64, last: u64) -> bool
    ensures { result ≡ is_permitted config.now expected last }
{
    let threshold = threshold(config, expected);
    !config.preservation || (0 < threshold && threshold < last as u128)
}

/// How many of so many leases one eviction may take.
fn share(config: &Config, held: u64) -> u128
    ensures { result ≡ share config.now held }
{
    let held = held as u128;
    held.saturating_sub(held * u128::from(config.percent.value()) / 100)
}

/// How many leases an eviction may take, of so many that are held. It takes all that are due, where they are no more.
pub(crate) fn most_victims(config: &Config, permitted: bool, held: u64) -> u128
    ensures { (due : ℕ) → min due result ≡ number_of_victims config.now permitted due held }
{
    if permitted { share(config, held) } else { 0 }
}

/// The clients that are expected, after those that are held are counted anew.
pub(crate) fn expected_after(config: &Config, expected: u64, held: u64) -> u64
    ensures { result ≡ expected_after config.now expected held }
{
    let most = u128::from(config.percent.value()) * expected as u128;
    if most < held as u128 * 100 || !config.preservation {
        held
    } else {
        expected
    }
}

/// The extra time that an eviction grants each lease, in milliseconds.
pub(crate) fn extra_time(config: &Config, previous: Option<Moment>, moment: Moment) -> u64
    ensures { result ≡ extra_time config.now previous moment }
{
    match previous {
        Some(previous) => moment
            .ms()
            .saturating_sub(previous.ms())
            .saturating_sub(config.evict_ms as u64),
        None => 0,
    }
}
