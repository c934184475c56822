//! Leases, with moments and statuses worked out by hand.
use eu_base::{Fault, LeaseSecs, Status};
use eu_fixtures::{Told, at, cut, first_wrong, moment, number_of, numbered, small_of};
use eu_lease::{Lease, override_rule};
use std::alloc::Global;

/// The lease made anew at a moment, for so many seconds.
fn anew(lease: Lease, words: &str) -> Result<Lease, Fault> {
    let (ms, secs) = numbered(words)?;
    let secs = LeaseSecs::new(small_of(secs)?).ok_or(Fault::BadDuration)?;
    Ok(lease.anew(moment(ms)?, secs))
}

/// A lease. `fresh T` makes it, for the default duration; `renew T` renews it, `up T` has its instance come up, and `anew T SECS` makes it anew. Then it is
/// told when it was registered, when its instance came up, its last update, its deadline, and its duration. `expired T EXTRA` tells whether it has
/// expired, and `times` its moments.
#[derive(Clone, Copy)]
struct Desk {
    lease: Lease,
}

impl Told for Desk {
    fn tell(&mut self, _alloc: Global, said: &str, out: &mut String) -> Result<(), Fault> {
        let (verb, rest) = cut(said);
        let lease = &mut self.lease;
        match verb {
            "fresh" => *lease = Lease::fresh(moment(number_of(rest)?)?, LeaseSecs::DEFAULT),
            "renew" => lease.renew(moment(number_of(rest)?)?),
            "up" => lease.service_up(moment(number_of(rest)?)?),
            "anew" => *lease = anew(*lease, rest)?,
            "expired" => {
                let (ms, extra) = numbered(rest)?;
                let expired = lease.expired(moment(ms)?, number_of(extra)?);
                return Ok(write!(out, "{expired}")?);
            }
            "times" => return Ok(write!(out, "{:?}", lease.times())?),
            _ => return Err(Fault::BadValue),
        }
        let (registered, up, updated) = (lease.registered(), lease.up(), lease.updated());
        let (deadline, secs) = (lease.deadline(), lease.secs().secs());
        Ok(write!(out, "{registered} {up} {updated} {deadline} {secs}")?)
    }
}

/// 18446744073709551615 is 2^64 - 1.
const LASTING: &str = "
    # A fresh lease lasts one duration.
    fresh 0 = 0 0 0 90000 90
    expired 90000 0 = false
    expired 90001 0 = true
    expired 90001 1 = false
    expired 90001 18446744073709551615 = false
    # A renewed lease lasts two.
    renew 30000 = 0 0 120000 210000 90
    expired 210000 0 = false
    expired 210001 0 = true
    # The first moment up is kept, also by a lease that is made anew.
    fresh 5 = 5 0 5 90005 90
    up 7 = 5 7 5 90005 90
    up 9 = 5 7 5 90005 90
    anew 11 30 = 11 7 11 30011 30
    times = Times { registered: 11, updated: 11, up: 7 }
";

#[test]
fn a_lease_lasts_one_duration_and_a_renewed_one_two(rt: HostRuntime) {
    let lease = Lease::fresh(at(0), LeaseSecs::DEFAULT);
    assert_eq!(rt; first_wrong(rt.alloc(), &mut Desk { lease }, LASTING), None);
}

#[test]
fn the_first_rule_decides(rt: HostRuntime) {
    let (up, out, down) = (Status::Up, Status::OutOfService, Status::Down);
    for (own, row, held, replicated, given) in [
        (
            Status::Starting,
            Some(out),
            Some(up),
            false,
            Status::Starting,
        ),
        (up, Some(out), Some(up), false, out),
        (up, None, Some(out), false, out),
        (up, None, Some(out), true, up),
        (up, None, Some(down), false, up),
    ] {
        let rule = override_rule(own, row, held, replicated);
        assert!(rt; rule == given, "{own:?} {row:?} {held:?} {replicated}");
    }
}
