//! Instances whose copies share what their clients gave.
ghost use Rattle.std.specs.Prelude.{◌≡◌, ◌↔◌, IfOk, IsTrue};

use crate::instances::Instance;
use crate::names::Key;
use crate::rest::Rest;
use crate::statuses::Status;
use crate::times::{LeaseSecs, RenewalSecs, Stamp};
use std::alloc::{AllocError, Global};
use std::marker::Model;
use std::sync::Arc;

/// An instance whose copies have in common what its client gave. Its statuses, its stamp and its duration, which change, stand beside that.
/// Contracts see the instance.
#[derive(Debug, Drop)]
pub struct SharedInstance {
    given: Arc<Instance, Global>,
    status: Status,
    overridden: Status,
    last_dirty: Stamp,
    secs: LeaseSecs,
}

impl Model for SharedInstance {
    ghost use Rattle.std.specs.Prelude.{◌≡◌};
    ghost use Rattle.std.specs.Arc.{arc_value};
    ghost use Rattle.eu_base.specs.declared.instances.Instance.{Instance};
    ghost use Rattle.eu_base.specs.contracts.instances.Instance as instance;

    ghost Value = { Instance };

    ghost coded = { instance.the_row.coded };

    ghost view = { λ s. record (arc_value s.given) { status = s.status; overridden = s.overridden; last_dirty = s.last_dirty; secs = s.secs } };
}

impl SharedInstance {
    /// That instance, which its copies share from now on. `AllocError` where no memory is left.
    pub fn new(alloc: Global, instance: Instance) -> Result<SharedInstance, AllocError>
        ensures { IfOk result (λ i. i ≡ instance) }
    {
        let (status, overridden) = (instance.status, instance.overridden);
        let (last_dirty, secs) = (instance.last_dirty, instance.secs);
        Ok(SharedInstance {
            given: Arc::new(alloc, instance)?,
            status,
            overridden,
            last_dirty,
            secs,
        })
    }

    /// The same once more; both share what was given. Takes no memory. `AllocError` where 2^63 do.
    pub fn share(&self) -> Result<SharedInstance, AllocError>
        ensures { IfOk result (λ i. i ≡ self.now) }
    {
        Ok(SharedInstance {
            given: Arc::try_clone(&self.given)?,
            status: self.status,
            overridden: self.overridden,
            last_dirty: self.last_dirty,
            secs: self.secs,
        })
    }

    /// Whether both are equal in every field. Takes no memory.
    pub fn same(&self, other: &SharedInstance) -> bool
        ensures { IsTrue result ↔ (self.now ≡ other.now) }
    {
        self.has_given_of(other) && self.has_changed_as(other)
    }

    /// Whether both have the same key, interval and rest.
    fn has_given_of(&self, other: &SharedInstance) -> bool
        ensures { IsTrue result ↔ ((self.now.key ≡ other.now.key) × (self.now.interval ≡ other.now.interval) × (self.now.rest ≡ other.now.rest)) }
    {
        self.given.key == other.given.key
            && self.given.interval.secs() == other.given.interval.secs()
            && self.given.rest.same(&other.given.rest)
    }

    /// Whether both have the same statuses, stamp and duration.
    fn has_changed_as(&self, other: &SharedInstance) -> bool
        ensures { IsTrue result
            ↔ ((self.now.status ≡ other.now.status) × (self.now.overridden ≡ other.now.overridden) × (self.now.last_dirty ≡ other.now.last_dirty) × (self.now.secs ≡ other.now.secs)) }
    {
        self.status == other.status
            && self.overridden == other.overridden
            && self.last_dirty.value() == other.last_dirty.value()
            && self.secs.secs() == other.secs.secs()
    }

    /// The key of its lease.
    pub fn key(&self) -> &Key
        ensures { result.now ≡ self.now.key }
    {
        &self.given.key
    }

    /// Its status.
    pub fn status(&self) -> Status
        ensures { result ≡ self.now.status }
    {
        self.status
    }

    /// The status that was put over its own.
    pub fn overridden(&self) -> Status
        ensures { result ≡ self.now.overridden }
    {
        self.overridden
    }

    /// The stamp of its last change.
    pub fn last_dirty(&self) -> Stamp
        ensures { result ≡ self.now.last_dirty }
    {
        self.last_dirty
    }

    /// The duration of its lease.
    pub fn secs(&self) -> LeaseSecs
        ensures { result ≡ self.now.secs }
    {
        self.secs
    }

    /// How often its client means to renew the lease.
    pub fn interval(&self) -> RenewalSecs
        ensures { result ≡ self.now.interval }
    {
        self.given.interval
    }

    /// What else its client gave.
    pub fn rest(&self) -> &Rest
        ensures { result.now ≡ self.now.rest }
    {
        &self.given.rest
    }

    /// Puts it in these statuses.
    pub fn set_statuses(&mut self, status: Status, overridden: Status)
        ensures { self.new ≡ record self.old { status = status; overridden = overridden } }
    {
        self.status = status;
        self.overridden = overridden;
    }

    /// Gives it that stamp.
    pub fn set_last_dirty(&mut self, last_dirty: Stamp)
        ensures { self.new ≡ record self.old { last_dirty = last_dirty } }
    {
        self.last_dirty = last_dirty;
    }

    /// Gives its lease that duration.
    pub fn set_secs(&mut self, secs: LeaseSecs)
        ensures { self.new ≡ record self.old { secs = secs } }
    {
        self.secs = secs;
    }
}
