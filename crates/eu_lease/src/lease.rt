//! A lease by its moments.
ghost use Rattle.std.specs.Prelude.{◌≡◌, ◌*◌, ◌≤◌, ◌^◌};
ghost use Rattle.eu_lease.specs.Term.{fresh, renewed, anew, upped, deadline, is_expired, times_of};

use eu_base::{LeaseSecs, Moment};
use eu_model::Times;
use std::marker::Model;

/// The moments of a lease, in milliseconds, and its duration, in seconds (`Lease` in Eureka). Contracts see them.
#[derive(Clone, Copy, Debug)]
pub struct Lease {
    registered: u64,
    up: u64,
    updated: u64,
    secs: LeaseSecs,
}

impl Model for Lease {
    ghost use Rattle.eu_lease.specs.Term.{Term, IsInRange};

    ghost Value = { Term };

    ghost view = { λ a. record { registered = a.registered; up = a.up; updated = a.updated; secs = a.secs } };

    ghost invariant = { λ a. IsInRange (record { registered = a.registered; up = a.up; updated = a.updated; secs = a.secs }) };

    ghost inverse = { λ a. record { registered = a.registered; up = a.up; updated = a.updated; secs = a.secs } };
}

impl Lease {
    /// A lease that is made now and lasts so long: its last update is now, and its instance was never up (`Lease`'s constructor).
    pub fn fresh(moment: Moment, secs: LeaseSecs) -> Lease
        ensures { result ≡ fresh moment secs }
    {
        let now = moment.ms();
        Lease {
            registered: now,
            up: 0,
            updated: now,
            secs,
        }
    }

    /// The lease made anew, to last so long: only the moment at which its instance was first up stays
    /// (`AbstractInstanceRegistry.register`, which carries `serviceUpTimestamp` over).
    pub fn anew(&self, moment: Moment, secs: LeaseSecs) -> Lease
        ensures { result ≡ anew self.now moment secs }
    {
        Lease {
            up: self.up,
            ..Lease::fresh(moment, secs)
        }
    }

    /// Renews the lease, also where it has expired: its last update is one duration from now (`Lease.renew`, which sets
    /// `lastUpdateTimestamp` to now and the duration).
    pub fn renew(&mut self, moment: Moment)
        ensures { self.new ≡ renewed self.old moment }
    {
        let updated = moment.ms() + self.duration();
        *self = Lease { updated, ..*self };
    }

    /// The instance is up now: the moment is kept, where it is the first. 0 stands for never (`Lease.serviceUp`).
    pub fn service_up(&mut self, moment: Moment)
        ensures { self.new ≡ upped self.old moment }
    {
        if self.up == 0 {
            self.up = moment.ms();
        }
    }

    /// How long it lasts, in milliseconds.
    fn duration(&self) -> u64
        ensures { result ≡ 1000 * self.now.secs }
    {
        1000 * u64::from(self.secs.secs())
    }

    /// The last moment at which the lease hasn't expired: one duration after its last update.
    pub fn deadline(&self) -> u64
        ensures value { result ≡ deadline self.now }
        ensures bound { result ≤ 2 ^ 63 }
    {
        self.duration() + self.updated
    }

    /// Whether the lease has expired, if it is granted some extra milliseconds: strictly after its deadline and them
    /// (`Lease.isExpired`).
    pub fn expired(&self, moment: Moment, extra: u64) -> bool
        ensures { result ≡ is_expired self.now moment extra }
    {
        self.deadline() < moment.ms().saturating_sub(extra)
    }

    /// When it was made, in milliseconds.
    pub fn registered(&self) -> u64
        ensures { result ≡ self.now.registered }
    {
        self.registered
    }

    /// When its instance was first up, in milliseconds; 0 where it never was.
    pub fn up(&self) -> u64
        ensures { result ≡ self.now.up }
    {
        self.times().up
    }

    /// The last update, in milliseconds: when it was made or, after a renewal, one duration after that.
    pub fn updated(&self) -> u64
        ensures { result ≡ self.now.updated }
    {
        self.updated
    }

    /// How long it lasts.
    pub fn secs(&self) -> LeaseSecs
        ensures { result ≡ self.now.secs }
    {
        self.secs
    }

    /// Its moments.
    pub fn times(&self) -> Times
        ensures { result ≡ times_of self.now }
    {
        Times {
            registered: self.registered,
            updated: self.updated,
            up: self.up,
        }
    }
}
