//! How many leases have each deadline.
ghost use Rattle.std.specs.Prelude.{◌≡◌, ℕ, ◌+◌, ◌^◌, ◌<◌, [], min, OnOk, OnErr};
ghost use Rattle.eu_audit_tables.specs.Counted.{counted, count_at, one_before};

use std::alloc::{AllocError, Global};
use std::collections::BTreeMap;
use std::marker::Model;

/// How many have each deadline. Contracts see the deadlines with their counts, the smallest deadline first.
///
/// A deadline, in milliseconds, is the last moment at which a lease hasn't expired.
#[derive(Debug, Drop)]
pub struct Deadlines {
    counts: BTreeMap<u128, u64>,
}

impl Model for Deadlines {
    ghost use Rattle.std.specs.Prelude.{ℕ, List};
    ghost use Rattle.std.specs.Coded.{coded_list, coded×, coded_ℕ};

    ghost Value = { List (ℕ × ℕ) };

    ghost coded = { coded_list (coded× coded_ℕ coded_ℕ) };

    ghost view = { λ d. d.counts.entries };
}

impl Deadlines {
    /// No deadline. Takes no memory.
    pub fn new(alloc: Global) -> Deadlines
        ensures { result ≡ [] }
    {
        Deadlines {
            counts: BTreeMap::new(alloc),
        }
    }

    /// Counts one more with that deadline. `AllocError` where no memory is left, and then nothing changes.
    pub fn add(&mut self, deadline: u128) -> Result<(), AllocError>
        requires { counted self.old (deadline + 1) < 2 ^ 63 }
        ensures ok { OnOk result ((limit : ℕ) → counted self.new limit ≡ counted self.old limit + one_before deadline limit) }
        ensures err { OnErr result (self.new ≡ self.old) }
    {
        let count = self.count(deadline);
        self.counts.insert(deadline, count + 1)?;
        Ok(())
    }

    /// Counts one less with that deadline. Takes no memory.
    pub fn take(&mut self, deadline: u128)
        requires { counted self.old deadline < counted self.old (deadline + 1) }
        ensures { (limit : ℕ) → counted self.new limit + one_before deadline limit ≡ counted self.old limit }
    {
        let count = self.count(deadline);
        if count > 1 {
            let put: Result<_, _> = self.counts.insert(deadline, count - 1);
            put.unwrap();
        } else {
            self.counts.remove(&deadline);
        }
    }

    /// How many have that deadline.
    fn count(&self, deadline: u128) -> u64
        ensures { result ≡ count_at self.now deadline }
    {
        self.counts.get(&deadline).copied().unwrap_or(0)
    }

    /// How many have a deadline before that limit, in milliseconds, or `most` where they are more. Goes over the deadlines from the
    /// smallest on, up to the first that isn't before it, and only until they are that many.
    pub fn number_before(&self, limit: u64, most: u128) -> u128
        requires { counted self.now limit < 2 ^ 63 }
        ensures { result ≡ min (counted self.now limit) most }
    {
        let limit = u128::from(limit);
        let mut total: u64 = 0;
        for (deadline, count) in self.counts.iter() {
            if *deadline >= limit {
                return most.min(total as u128);
            }
            total += *count;
            if total as u128 >= most {
                return most;
            }
        }
        most.min(total as u128)
    }
}
