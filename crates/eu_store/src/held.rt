//! What is held under a key.
ghost use Rattle.std.specs.Prelude.{◌≡◌, IfOk, IsTrue, true};
ghost use Rattle.eu_lease.specs.Term.{listed_with};
ghost use Rattle.eu_model.specs.Change.{stamped};
ghost use Rattle.eu_model.specs.PlainSteps.{plain_expired};
ghost use Rattle.eu_store.specs.Brief.{IsShort};
ghost use Rattle.eu_store.specs.Order.{undated};
ghost use Rattle.eu_store.specs.Stored.{amended, deadline_of, term_of};

use eu_base::{Moment, SharedInstance, Stamp, Status};
use eu_lease::Lease;
use eu_model::{Listed, Times};
use std::alloc::AllocError;
use std::marker::Model;
use std::mem;

/// An instance with its lease, which lasts as long as the instance says. Contracts see both as they are listed.
#[derive(Debug, Drop)]
pub struct HeldLease {
    instance: SharedInstance,
    lease: Lease,
}

impl Model for HeldLease {
    ghost use Rattle.std.specs.Prelude.{◌≡◌};
    ghost use Rattle.eu_lease.specs.Term.{listed_with};
    ghost use Rattle.eu_model.specs.declared.views.Listed.{Listed};
    ghost use Rattle.eu_model.specs.contracts.views.Listed as listed;

    ghost Value = { Listed };

    ghost coded = { listed.the_row.coded };

    ghost view = { λ h. listed_with h.instance h.lease };

    ghost invariant = { λ h. h.lease.secs ≡ h.instance.secs };
}

impl HeldLease {
    /// An instance with a lease that lasts as long as the instance says.
    pub fn new(instance: SharedInstance, lease: Lease) -> HeldLease
        requires { lease.secs ≡ instance.secs }
        ensures { result ≡ listed_with instance lease }
    {
        HeldLease { instance, lease }
    }

    /// The instance.
    pub fn instance(&self) -> &SharedInstance
        ensures { result.now ≡ self.now.instance }
    {
        &self.instance
    }

    /// Its lease.
    pub fn lease(&self) -> Lease
        ensures { result ≡ term_of self.now }
    {
        self.lease
    }

    /// The moments of its lease.
    pub fn times(&self) -> Times
        ensures { result ≡ self.now.times }
    {
        self.lease.times()
    }

    /// Whether what its client gave is kept as a text, which has at most so many bytes. Takes no memory.
    pub(crate) fn is_short(&self, most: usize) -> bool
        ensures { result ≡ true → IsShort most self.now.instance }
    {
        match self.instance.rest().kept_text() {
            Some(text) => text.pieces().bytes.len() <= most,
            None => false,
        }
    }

    /// Both once more, as they are listed. `AllocError` where 2^63 share the instance.
    pub fn listed(&self) -> Result<Listed, AllocError>
        ensures { IfOk result (λ l. l ≡ self.now) }
    {
        Ok(Listed {
            instance: self.instance.share()?,
            times: self.times(),
        })
    }

    /// Both, without the last update. `AllocError` where 2^63 share the instance.
    pub(crate) fn undated(&self) -> Result<Listed, AllocError>
        ensures { IfOk result (λ l. l ≡ undated self.now) }
    {
        Ok(Listed {
            instance: self.instance.share()?,
            times: Times {
                updated: 0,
                ..self.times()
            },
        })
    }

    /// The same once more; both share the instance. `AllocError` where 2^63 share it.
    pub fn copy(&self) -> Result<HeldLease, AllocError>
        ensures { IfOk result (λ copy. copy ≡ self.now) }
    {
        Ok(HeldLease {
            instance: self.instance.share()?,
            lease: self.lease,
        })
    }

    /// The last moment at which its lease hasn't expired, in milliseconds.
    pub(crate) fn deadline(&self) -> u64
        ensures { result ≡ deadline_of self.now }
    {
        self.lease.deadline()
    }

    /// Whether its lease has expired, if it is granted some extra milliseconds.
    pub fn expired(&self, moment: Moment, extra: u64) -> bool
        ensures { result ≡ plain_expired self.now moment extra }
    {
        self.lease.expired(moment, extra)
    }

    /// Amends it.
    pub(crate) fn amend(&mut self, amendment: Amendment)
        ensures { self.new ≡ amended amendment self.old }
    {
        match amendment {
            Amendment::Renewed { moment } => self.lease.renew(moment),
            Amendment::InStatuses {
                moment,
                status,
                overridden,
                last_dirty,
                comes_up,
            } => {
                restate(&mut self.instance, status, overridden, last_dirty);
                self.lease.renew(moment);
                if comes_up {
                    self.lease.service_up(moment);
                }
            }
            Amendment::Rejoined {
                status,
                overridden,
                lease,
            } => {
                self.instance.set_statuses(status, overridden);
                self.instance.set_secs(lease.secs());
                self.lease = lease;
            }
            Amendment::Replaced(by) => drop(mem::replace(self, by)),
        }
    }

    /// The instance that it has once it is amended so. `AllocError` where 2^63 share it.
    pub fn instance_amended(&self, amendment: &Amendment) -> Result<SharedInstance, AllocError>
        ensures { IfOk result (λ i. i ≡ (amended amendment.now self.now).instance) }
    {
        if let Amendment::Replaced(by) = amendment {
            return by.instance.share();
        }
        let mut instance = self.instance.share()?;
        match amendment {
            Amendment::InStatuses {
                status,
                overridden,
                last_dirty,
                ..
            } => restate(&mut instance, *status, *overridden, *last_dirty),
            Amendment::Rejoined {
                status,
                overridden,
                lease,
            } => {
                instance.set_statuses(*status, *overridden);
                instance.set_secs(lease.secs());
            }
            _ => {}
        }
        Ok(instance)
    }
}

/// Puts an instance in these statuses; a greater stamp replaces its own.
fn restate(
    instance: &mut SharedInstance,
    status: Status,
    overridden: Status,
    last_dirty: Option<Stamp>,
)
    ensures { instance.new ≡ stamped last_dirty (record instance.old { status = status; overridden = overridden }) }
{
    instance.set_statuses(status, overridden);
    match last_dirty {
        Some(stamp) if stamp.value() > instance.last_dirty().value() => {
            instance.set_last_dirty(stamp)
        }
        _ => {}
    }
}

/// What becomes of a lease that is held.
#[derive(Drop)]
pub enum Amendment {
    /// It is renewed.
    Renewed {
        moment: Moment,
    },
    /// It is renewed, with its instance in these statuses; a greater stamp replaces the held one. Where its instance comes up, the
    /// moment is kept, if it is the first.
    InStatuses {
        moment: Moment,
        status: Status,
        overridden: Status,
        last_dirty: Option<Stamp>,
        comes_up: bool,
    },
    /// It begins anew, and keeps its instance, but for these statuses and the duration, which is the new lease's.
    Rejoined {
        status: Status,
        overridden: Status,
        lease: Lease,
    },
    /// This takes its place.
    Replaced(HeldLease),
}

impl Amendment {
    /// Whether an instance stays as it is, as a heartbeat leaves it. Where this is `false` it may be the same nonetheless.
    pub fn keeps(&self, instance: &SharedInstance) -> bool
        ensures { IsTrue result → (l : Listed) → l.instance ≡ instance.now → (amended self.now l).instance ≡ l.instance }
    {
        match self {
            Amendment::Renewed { .. } => true,
            Amendment::InStatuses {
                status,
                overridden,
                last_dirty,
                ..
            } => {
                *status == instance.status()
                    && *overridden == instance.overridden()
                    && match last_dirty {
                        Some(stamp) => stamp.value() <= instance.last_dirty().value(),
                        None => true,
                    }
            }
            _ => false,
        }
    }

    /// Whether no more of a lease moves than its last update, as where a heartbeat leaves its instance as it was. Where this is `false` the same
    /// may hold nonetheless.
    pub(crate) fn renews(&self, held: &HeldLease) -> bool
        ensures { IsTrue result → undated (amended self.now held.now) ≡ undated held.now }
    {
        match self {
            Amendment::Renewed { .. } => true,
            Amendment::InStatuses { comes_up, .. } => !*comes_up && self.keeps(&held.instance),
            Amendment::Rejoined { .. } | Amendment::Replaced(_) => false,
        }
    }
}
