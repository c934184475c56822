//! The leases of a replayed registry.
ghost use Rattle.std.specs.Prelude.{◌≡◌, ◌↔◌, ◌<◌, ◌^◌, length, filter, min, IsTrue, OnOk, OnErr};
ghost use Rattle.std.specs.Prelude.{map as all};
ghost use Rattle.std.specs.Option.{option_copied};
ghost use Rattle.std.specs.FinMap as map;
ghost use Rattle.eu_model.specs.PlainSteps.{plain_expired};
ghost use Rattle.eu_audit_tables.specs.Counted.{deadline_of};

use crate::deadlines::Deadlines;
use eu_base::{Key, Moment};
use eu_model::{Listed, Times};
use std::alloc::{AllocError, Global};
use std::collections::BTreeMap;
use std::marker::Model;

/// The leases that are held. Contracts see a finite map from keys to what is listed.
///
/// Beside them stands how many have each deadline, so that the number that has expired is told without a look at the others.
#[derive(Debug, Drop)]
pub struct Leases {
    table: BTreeMap<Key, Listed>,
    deadlines: Deadlines,
}

impl Model for Leases {
    ghost use Rattle.std.specs.Prelude.{◌≡◌, ℕ};
    ghost use Rattle.std.specs.FinMap as map;
    ghost use Rattle.std.specs.FinMap.{FinMap};
    ghost use Rattle.eu_base.specs.Values.{key_cmp};
    ghost use Rattle.eu_model.specs.declared.views.Listed.{Listed};
    ghost use Rattle.eu_model.specs.PlainCode.{coded_leases};
    ghost use Rattle.eu_audit_tables.specs.Counted.{counted, held_before};

    ghost Value = { FinMap key_cmp Listed };

    ghost coded = { coded_leases };

    ghost view = { λ a. map.from_entries a.table.entries };

    ghost invariant = { λ a. (limit : ℕ) → counted a.deadlines limit ≡ held_before a.table.entries limit };
}

impl Leases {
    /// No lease. Takes no memory.
    pub fn new(alloc: Global) -> Leases
        ensures { result ≡ map.empty }
    {
        Leases {
            table: BTreeMap::new(alloc),
            deadlines: Deadlines::new(alloc),
        }
    }

    /// How many leases are held.
    pub fn len(&self) -> usize
        ensures value { result ≡ map.len self.now }
        ensures bound { result < 2 ^ 63 }
    {
        self.table.len()
    }

    /// What is held under that key.
    pub fn get(&self, key: &Key) -> Option<&Listed>
        ensures { option_copied result ≡ map.get self.now key.now }
    {
        self.table.get(key)
    }

    /// Puts a lease under that key, in place of the one that is held.
    ///
    /// `AllocError` where no memory is left, and then nothing is held under that key.
    pub fn put(&mut self, key: Key, lease: Listed) -> Result<(), AllocError>
        ensures ok { OnOk result (self.new ≡ map.insert self.old key lease) }
        ensures err { OnErr result (self.new ≡ map.remove self.old key) }
    {
        self.remove(&key);
        let deadline = deadline_of(&lease);
        // fewer than 2^63, and so is each count
        let _held = self.table.len();
        self.deadlines.add(deadline)?;
        let put: Result<_, _> = self.table.insert(key, lease);
        if put.is_err() {
            self.deadlines.take(deadline);
            return Err(AllocError);
        }
        Ok(())
    }

    /// Takes out what is held under that key. Takes no memory.
    pub fn remove(&mut self, key: &Key)
        ensures { self.new ≡ map.remove self.old key.now }
    {
        let Some(lease) = self.table.remove(key) else {
            return;
        };
        self.deadlines.take(deadline_of(&lease));
    }

    /// How many leases have expired at a moment, if each is granted so many extra milliseconds, or `most` where they are more. Goes over
    /// the deadlines from the smallest on, up to the first that isn't over, and only until they are that many.
    pub fn expired(&self, moment: Moment, extra: u64, most: u128) -> u128
        ensures { result ≡ min (length (filter (λ e. plain_expired e.1 moment extra) (map.entries self.now))) most }
    {
        // fewer than 2^63, and so are those that have expired
        let _held = self.table.len();
        self.deadlines
            .number_before(moment.ms().saturating_sub(extra), most)
    }

    /// Whether these are the leases that are held, in key order, each under its instance's key. Takes no memory.
    pub fn same(&self, leases: &[Listed]) -> bool
        ensures { IsTrue result ↔ (map.entries self.now ≡ all (λ l. (l.instance.key, l)) leases.now) }
    {
        let mut left = leases.iter();
        for (key, held) in self.table.iter() {
            let Some(lease) = left.next() else {
                return false;
            };
            if !is_held(key, held, lease) {
                return false;
            }
        }
        left.next().is_none()
    }
}

/// The last moment, in milliseconds, at which a lease hasn't expired.
fn deadline_of(lease: &Listed) -> u128
    ensures { result ≡ deadline_of lease.now }
{
    u128::from(lease.times.updated) + 1000 * u128::from(lease.instance.secs().secs())
}

/// Whether a lease is the one that is held, under its instance's key.
fn is_held(key: &Key, held: &Listed, lease: &Listed) -> bool
    ensures { IsTrue result ↔ ((key.now ≡ lease.now.instance.key) × (held.now ≡ lease.now)) }
{
    *key == *lease.instance.key()
        && held.instance.same(&lease.instance)
        && is_same_time(&held.times, &lease.times)
}

/// Whether both are the same moments.
fn is_same_time(times: &Times, others: &Times) -> bool
    ensures { IsTrue result ↔ (times.now ≡ others.now) }
{
    times.registered == others.registered
        && times.updated == others.updated
        && times.up == others.up
}
