//! Leases that are renewed, and of which the expired are looked for.

use eu_base::{
    App, Fault, Id, Instance, Key, LeaseSecs, Moment, RenewalSecs, Rest, SharedInstance, Stamp,
    Status,
};
use eu_clock::{Chooser, RngChooser};
use eu_hash::HashKey;
use eu_lease::Lease;
use eu_store::{Amendment, HeldLease, Leases};
use std::alloc::Global;

/// A moment at which leases that were made at 0 have expired, and those that were made then have not.
const LATE: u64 = 1_000_000;

fn at(ms: u64) -> Result<Moment, Fault> {
    Moment::new(ms).ok_or(Fault::BadStamp)
}

/// The key of that number, of one of a hundred applications.
fn key(alloc: Global, number: u64) -> Result<Key, Fault> {
    let app = number % 100;
    let app = App::read(alloc, format!(in alloc; "A{app}")?.as_str())?;
    let id = Id::read(alloc, format!(in alloc; "host-{number}")?.as_str())?;
    Ok(Key { app, id })
}

/// Puts a lease of 90 s under a key, made at that moment, where none is held.
fn put(alloc: Global, leases: &mut Leases, key: &Key, moment: Moment) -> Result<(), Fault> {
    leases.reserve()?;
    let instance = Instance {
        key: key.copy(alloc)?,
        status: Status::Up,
        overridden: Status::Unknown,
        last_dirty: Stamp::new(0).ok_or(Fault::BadStamp)?,
        secs: LeaseSecs::DEFAULT,
        interval: RenewalSecs::DEFAULT,
        rest: Rest::of_host(alloc, "h")?,
    };
    let lease = Lease::fresh(moment, instance.secs);
    let held = HeldLease::new(SharedInstance::new(alloc, instance)?, lease);
    let key = key.copy(alloc)?;
    if leases.get(&key).is_none() {
        leases.insert(key, held);
    }
    Ok(())
}

/// The keys of so many numbers.
fn keys(alloc: Global, count: u64) -> Result<Vec<Key>, Fault> {
    let mut keys = Vec::new(alloc);
    for number in 0..count {
        keys.push(key(alloc, number)?)?;
    }
    Ok(keys)
}

/// Renews drawn leases so many times, each time at a later moment.
fn renew(leases: &mut Leases, keys: &[Key], times: u64) -> Result<u64, Fault> {
    let mut chooser = RngChooser::seeded(1);
    let mut renewed: u64 = 0;
    for time in 0..times {
        let drawn = chooser.below(keys.len().max(1) as u64) as usize;
        let Some(key) = keys.get(drawn) else {
            return Ok(renewed);
        };
        let (place, _held) = leases.find(key);
        let moment = at(time)?;
        if leases.amend(key, place, Amendment::Renewed { moment }) {
            renewed = renewed.saturating_add(1);
        }
    }
    Ok(renewed)
}

/// How many renewals of drawn leases found one, where so many are held. `Full` where they are more than 65,536; `OutOfMemory`.
pub fn count_renewed(alloc: Global, count: u64, times: u64) -> Result<u64, Fault> {
    let keys = keys(alloc, count)?;
    let mut leases = Leases::new(alloc, HashKey::new(0, 0));
    for key in &keys {
        put(alloc, &mut leases, key, at(0)?)?;
    }
    renew(&mut leases, &keys, times)
}

/// How many expired leases were found in all, where so many are held, of which the first so many have expired, and they are looked for so
/// many times. `Full` where they are more than 65,536; `OutOfMemory`.
pub fn count_expired(alloc: Global, count: u64, expired: u64, times: u64) -> Result<u64, Fault> {
    let mut leases = Leases::new(alloc, HashKey::new(0, 0));
    for number in 0..count {
        let moment = if number < expired { 0 } else { LATE };
        put(alloc, &mut leases, &key(alloc, number)?, at(moment)?)?;
    }
    let mut found: u64 = 0;
    for _ in 0..times {
        let keys = leases.expired_keys(alloc, at(LATE)?, 0)?;
        found = found.saturating_add(keys.len() as u64);
    }
    Ok(found)
}

/// How many leases the last one of so many snapshots lists, where so many are held, and the same one is renewed before each. 0 where none is taken. `Full` where
/// they are more than 65,536; `OutOfMemory`.
pub fn count_in_snapshots(alloc: Global, count: u64, times: u64) -> Result<u64, Fault> {
    let keys = keys(alloc, count)?;
    let mut leases = Leases::new(alloc, HashKey::new(0, 0));
    for key in &keys {
        put(alloc, &mut leases, key, at(0)?)?;
    }
    let mut last = None;
    for _ in 0..times {
        renew(&mut leases, &keys, 1)?;
        last = Some(leases.snapshot(alloc)?);
    }
    match last {
        Some(snapshot) => Ok(snapshot.listed(alloc)?.len() as u64),
        None => Ok(0),
    }
}
