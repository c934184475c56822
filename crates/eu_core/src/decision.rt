//! What is decided of a command on a lease, and how it is carried out.
ghost use Rattle.std.specs.Prelude.{◌≡◌, ◌<◌, true, false, None, Some, IfOk, IfErr, IsOk, IsTrue, OnErr, OnOk};
ghost use Rattle.std.specs.Option.{option_map};
ghost use Rattle.std.specs.FinMap as map;
ghost use Rattle.eu_model.specs.declared.views.Listed.{Listed};
ghost use Rattle.eu_model.specs.Machine.{with_value};
ghost use Rattle.eu_core.specs.Decided.{begins, is_new, lease_left, new_id};

use eu_base::{Fault, Id, Key, MOST_LEASES, SharedInstance, Status};
use eu_eviction::Overrides;
use eu_model::Reply;
use eu_store::{Amendment, HeldLease, Leases, Place};
use std::alloc::{AllocError, Global};

/// What becomes of the lease of a key.
#[derive(Drop)]
pub enum LeaseChange {
    /// It stays, where one is held.
    Stays,
    /// It is amended, where one is held.
    Amended(Amendment),
    /// It begins.
    Begun(HeldLease),
    /// It ends.
    Ended,
}

impl LeaseChange {
    /// Whether a lease of this instance stays held, with the instance as it is. Where it is `false`, it may be so nonetheless. Takes no memory.
    pub fn keeps(&self, instance: &SharedInstance) -> bool
        ensures { IsTrue result → (l : Listed) → l.instance ≡ instance.now → (after : Listed) × (lease_left self.now (Some l) ≡ Some after) × (after.instance ≡ l.instance) }
    {
        match self {
            LeaseChange::Stays => true,
            LeaseChange::Amended(amendment) => amendment.keeps(instance),
            LeaseChange::Begun(_) | LeaseChange::Ended => false,
        }
    }
}

/// What a command on a lease changes.
#[derive(Drop)]
pub struct Change {
    /// What becomes of the lease.
    pub lease: LeaseChange,
    /// The override row that its id has then.
    pub row: Option<Status>,
    /// How many clients are expected then: at most 2^40.
    pub expected: u64,
    /// Whether a renewal is counted.
    pub counted: bool,
}

/// What a command on a lease does. The rule book calls both a change.
#[derive(Drop)]
pub struct Decision {
    /// What it changes.
    pub change: Change,
    /// The reply.
    pub reply: Reply,
}

/// Has a lease begin under a key that has none, where one more may be held. `OutOfMemory` alone refuses, which changes nothing.
pub fn begin(leases: &mut Leases, alloc: Global, key: &Key, held: HeldLease) -> Result<(), Fault>
    requires new { map.get leases.old.held key.now ≡ None }
    requires few { map.len leases.old.held < MOST_LEASES }
    ensures ok { OnOk result (leases.new.held ≡ map.insert leases.old.held key.now held) }
    ensures no_other { IfErr result (λ f. f ≡ Fault.OutOfMemory) }
    ensures err { OnErr result (leases.new.held ≡ leases.old.held) }
{
    leases.reserve()?;
    leases.insert(key.copy(alloc)?, held);
    Ok(())
}

/// Carries out what becomes of the lease of a key, which was found at that place, but for one that begins. Takes no memory.
#[inline(always)]
pub fn write_lease(leases: &mut Leases, key: &Key, place: Place, change: LeaseChange)
    requires { begins change ≡ false }
    ensures { leases.new.held ≡ with_value leases.old.held key.now (lease_left change (map.get leases.old.held key.now)) }
{
    match change {
        LeaseChange::Stays => {}
        LeaseChange::Amended(amendment) => {
            leases.amend(key, place, amendment);
        }
        LeaseChange::Begun(_) => unreachable!(),
        LeaseChange::Ended => {
            leases.take(key, place);
        }
    }
}

/// A copy of an id, and room for its row, where it is to have one and has none. `AllocError` where no memory is left; no row changes.
#[inline(always)]
pub fn new_id(
    overrides: &mut Overrides,
    alloc: Global,
    id: &Id,
    before: Option<Status>,
    after: Option<Status>,
) -> Result<Option<Box<Id>>, AllocError>
    ensures overrides { overrides.new.rows ≡ overrides.old.rows }
    ensures id { IfOk result (λ new. option_map (λ (b : _). b.value) new ≡ new_id id.now before after) }
    ensures room { OnOk result (is_new before after ≡ true → 0 < overrides.new.room) }
    ensures memory { is_new before after ≡ false → IsOk result }
{
    match (before, after) {
        (None, Some(_)) => {
            overrides.reserve()?;
            Ok(Some(Box::new(alloc, id.copy(alloc)?)?))
        }
        _ => Ok(None),
    }
}

/// Carries out that an id has this row, which had that one before. `new` is its copy, where it had none. Takes no memory.
#[inline(always)]
pub fn write_row(
    overrides: &mut Overrides,
    id: &Id,
    new: Option<Box<Id>>,
    before: Option<Status>,
    after: Option<Status>,
)
    requires before { before ≡ map.get overrides.old.rows id.now }
    requires new { option_map (λ (b : _). b.value) new ≡ new_id id.now before after }
    requires room { is_new before after ≡ true → 0 < overrides.old.room }
    ensures { overrides.new.rows ≡ with_value overrides.old.rows id.now after }
{
    if before == after {
        return;
    }
    match (after, new) {
        (Some(status), Some(new)) => overrides.insert(Box::into_inner(new), status),
        (Some(status), None) => overrides.set(id, status),
        (None, _) => {
            overrides.take(id);
        }
    }
}
