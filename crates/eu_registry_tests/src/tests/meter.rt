//! Rates and thresholds, worked out by hand.
use crate::tests::texts::read_opening;
use eu_base::{Config, Fault, Percent};
use eu_fixtures::{Told, cut, first_wrong, number_of, read_config, settings, small_of};
use eu_lease::{Rate, Threshold, evict_limit};
use std::alloc::Global;
use std::test::Fail;

/// A rate and a threshold.
///
/// `open N config T on P I M` begins anew, for N clients and with these settings; `count` counts a renewal; `config T on P I M` changes the settings;
/// `join` has a client come, `left N` has so many leave at once, and `update N` counts the clients anew, where so many hold leases. Then it is told
/// how many clients are expected, the threshold, whether self-preservation is on, and the milliseconds between evictions. `last` tells the renewals
/// of the last minute, `end` those of the minute that ends, and `permitted N` whether eviction is permitted after so many.
#[derive(Clone, Copy)]
struct Meter {
    rate: Rate,
    threshold: Threshold,
}

impl Meter {
    fn new(expected: u32, config: Config) -> Meter {
        Meter {
            rate: Rate::new(),
            threshold: Threshold::open(config, expected),
        }
    }
}

impl Told for Meter {
    fn tell(&mut self, alloc: Global, said: &str, out: &mut String) -> Result<(), Fault> {
        let (verb, rest) = cut(said);
        match verb {
            "open" => {
                let (expected, config) = read_opening(alloc, rest)?;
                *self = Meter::new(expected, config);
            }
            "count" => {
                self.rate.check()?;
                self.rate.count();
            }
            "last" => return Ok(write!(out, "{}", self.rate.last())?),
            "end" => return Ok(write!(out, "{}", self.rate.end_minute())?),
            "config" => self.threshold.reconfigure(read_config(alloc, said)?),
            "join" => {
                let clients = self.threshold.one_more()?;
                self.threshold.expect(clients);
            }
            "left" => self.threshold.left_by(number_of(rest)? as usize),
            "update" => self.threshold.update(small_of(rest)?),
            "permitted" => {
                let permitted = self.threshold.permitted(number_of(rest)?);
                return Ok(write!(out, "{permitted}")?);
            }
            _ => return Err(Fault::BadValue),
        }
        let (expected, value) = (self.threshold.expected(), self.threshold.value());
        let config = self.threshold.config();
        let (preservation, evict_ms) = (config.preservation, config.evict_ms);
        Ok(write!(out, "{expected} {value} {preservation} {evict_ms}")?)
    }
}

const METER: &str = "
    # Renewals are counted by the minute.
    open 0 config 0 on 85 30 60000 = 0 0 true 60000
    count = 0 0 true 60000
    count = 0 0 true 60000
    last = 0
    end = 2
    last = 2
    end = 0
    # A threshold is rounded down: 20 * 60 * 85 / 3000 is 34, and 5 * 60 * 85 / 3000 is 8.5.
    open 20 config 0 on 85 30 60000 = 20 34 true 60000
    open 5 config 0 on 85 30 60000 = 5 8 true 60000
    open 5 config 0 on 0 30 60000 = 5 0 true 60000
    # Clients come and leave. Where none is expected, none is when one comes.
    open 1 config 0 on 85 30 60000 = 1 1 true 60000
    join = 2 3 true 60000
    left 1 = 1 1 true 60000
    left 1 = 0 0 true 60000
    left 1 = 0 0 true 60000
    join = 0 0 true 60000
    # Clients leave at once: 8 * 60 * 85 / 3000 is 13.6.
    open 10 config 0 on 85 30 60000 = 10 17 true 60000
    left 2 = 8 13 true 60000
    left 0 = 8 13 true 60000
    left 9 = 0 0 true 60000
    # A threshold is that of its settings: 10 * 60 * 85 / 3000 is 17, and 10 * 60 * 50 / 1500 is 20.
    open 10 config 0 on 85 30 60000 = 10 17 true 60000
    config 0 on 50 15 0 = 10 20 true 0
    config 0 off 0 3600 7 = 10 0 false 7
    # Eviction is permitted above the threshold, unless that is 0, and without self-preservation.
    open 20 config 0 on 85 30 60000 = 20 34 true 60000
    permitted 34 = false
    permitted 35 = true
    open 20 config 0 on 0 30 60000 = 20 0 true 60000
    permitted 35 = false
    open 20 config 0 off 85 30 60000 = 20 34 false 60000
    permitted 0 = true
    # Clients are counted anew where they are more than the percentage: 17 * 100 = 85 * 20 isn't more, 18 * 100 is.
    open 20 config 0 on 85 30 60000 = 20 34 true 60000
    update 17 = 20 34 true 60000
    update 18 = 18 30 true 60000
";

#[test]
fn renewals_and_clients_are_counted(rt: HostRuntime) -> Result<(), Fail> {
    let mut meter = Meter::new(0, settings()?);
    assert_eq!(rt; first_wrong(rt.alloc(), &mut meter, METER), None);
    Ok(())
}

/// How many of so many leases an eviction may take at that percentage.
fn limit(size: usize, percent: u32) -> Option<usize> {
    let percent = Percent::new(percent)?;
    Some(evict_limit(size, percent))
}

#[test]
fn an_eviction_may_take_all_but_the_percentage(rt: HostRuntime) {
    for (size, percent, most) in [
        (4, 0, 4),
        (4, 100, 0),
        (10, 85, 2),
        (usize::MAX, 0, usize::MAX),
        (usize::MAX, 100, 0),
    ] {
        assert_eq!(rt; limit(size, percent), Some(most));
    }
}
