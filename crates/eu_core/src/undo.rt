//! What a step replaces: with its command, enough to lead back to what was before it.
ghost use Rattle.std.specs.Prelude.{◌≡◌, ◌≤◌, map as all, None, IfOk, OnOk};
ghost use Rattle.std.specs.FinMap as map;
ghost use Rattle.std.specs.Option.{option_copied};
ghost use Rattle.eu_model.specs.Machine.{with_value};
ghost use Rattle.eu_store.specs.Removed.{with_values};
ghost use Rattle.eu_store.specs.Stored.{changed};
ghost use Rattle.eu_core.specs.Undone.{retimed};

use crate::decision::{new_id, write_row};
use eu_base::{Config, Id, Key, MOST_EXPECTED, Moment, Status};
use eu_eviction::{Overrides, Removed};
use eu_lease::{Lease, Rate};
use eu_store::{Amendment, HeldLease, Leases};
use std::alloc::{AllocError, Global};
use std::marker::Model;

/// What a step replaced. Memory is taken by each eviction alone.
#[derive(Debug, Drop)]
pub enum Undo {
    /// Nothing: by a command for a peer, which makes no step of a registry.
    Nothing,
    /// By a command that changed the moments of a lease and the counts alone, as a heartbeat mostly does.
    Renewal(RenewalBefore),
    /// By another command on a lease.
    Lease(LeaseBefore),
    /// By an `Evict`.
    Eviction(Box<EvictionBefore>),
    /// By an `EndMinute`: the renewals of the last whole minute, and those since.
    Minute(Rate),
    /// By an `Update`: the number expected.
    Expected(Clients),
    /// By a `Reconfigure`: the settings.
    Settings(Config),
}

/// What a command replaced that changed no more than the moments of a lease and the counts.
#[derive(Clone, Copy, Debug)]
pub struct RenewalBefore {
    /// The lease, with its moments.
    pub lease: Lease,
    /// The renewals of the last whole minute, and those since.
    pub rate: Rate,
}

/// What a command on a lease may replace.
#[derive(Debug, Drop)]
pub struct LeaseBefore {
    /// The lease of its key, where one was held.
    pub held: Option<HeldLease>,
    /// The override row of its id, where it had one.
    pub row: Option<Status>,
    /// How many clients were expected.
    pub expected: Clients,
    /// The renewals of the last whole minute, and those since.
    pub rate: Rate,
}

/// What an eviction replaced.
#[derive(Debug, Drop)]
pub struct EvictionBefore {
    /// The keys of the leases that went.
    pub victims: Vec<Key>,
    /// What stood under these keys.
    pub removed: Removed,
    /// How many clients were expected.
    pub expected: Clients,
    /// The eviction before it.
    pub previous: Option<Moment>,
}

/// So many clients as may be expected: at most 2^40. Contracts see the number.
#[derive(Clone, Copy, Debug)]
pub struct Clients {
    number: u64,
}

impl Model for Clients {
    ghost use Rattle.std.specs.Prelude.{ℕ, ◌≤◌};
    ghost use Rattle.eu_base.specs.Limits.{most_expected};

    ghost Value = { ℕ };

    ghost view = { λ c. c.number };

    ghost invariant = { λ c. c.number ≤ most_expected };

    ghost inverse = { λ n. record { number = n } };
}

impl Clients {
    /// So many clients.
    pub(crate) fn new(number: u64) -> Clients
        requires { number ≤ MOST_EXPECTED }
        ensures { result ≡ number }
    {
        Clients { number }
    }

    /// How many.
    pub(crate) fn number(self) -> u64
        ensures value { result ≡ self }
        ensures bound { result ≤ MOST_EXPECTED }
    {
        self.number
    }
}

/// What is held, once more: it shares its instance. `AllocError` where 2^63 share that.
#[inline(always)]
pub(crate) fn shared(held: Option<&HeldLease>) -> Result<Option<HeldLease>, AllocError>
    ensures { IfOk result (λ copy. copy ≡ option_copied held.entry) }
{
    match held {
        Some(held) => Ok(Some(held.copy()?)),
        None => Ok(None),
    }
}

/// Gives the lease of a key these moments, if it is held. Takes no memory.
pub(crate) fn put_moments(leases: &mut Leases, key: &Key, lease: Lease)
    ensures { leases.new.held ≡ changed (retimed lease) leases.old.held key.now }
{
    let (place, found) = leases.find(key);
    if let Some(held) = found {
        let status = held.instance().status();
        let overridden = held.instance().overridden();
        let amendment = Amendment::Rejoined {
            status,
            overridden,
            lease,
        };
        leases.amend(key, place, amendment);
    }
}

/// Puts a copy of this lease under a key, in place of what is held there; where none is given, what is held there goes. `AllocError` where
/// no memory is left, or no lease more may be held.
pub(crate) fn put_lease(
    leases: &mut Leases,
    alloc: Global,
    key: &Key,
    held: Option<&HeldLease>,
) -> Result<(), AllocError>
    ensures { OnOk result (leases.new.held ≡ with_value leases.old.held key.now (option_copied held.entry)) }
{
    let (place, found) = leases.find(key);
    let is_held = found.is_some();
    match held {
        None => {
            leases.take(key, place);
            Ok(())
        }
        Some(held) if is_held => {
            leases.amend(key, place, Amendment::Replaced(held.copy()?));
            Ok(())
        }
        Some(held) => insert(leases, alloc, key, held.copy()?),
    }
}

/// Puts a lease under a key that has none. `AllocError` where no memory is left, or no lease more may be held.
fn insert(leases: &mut Leases, alloc: Global, key: &Key, held: HeldLease) -> Result<(), AllocError>
    requires { map.get leases.old.held key.now ≡ None }
    ensures { OnOk result (leases.new.held ≡ map.insert leases.old.held key.now held) }
{
    if leases.reserve().is_err() {
        return Err(AllocError);
    }
    leases.insert(key.copy(alloc)?, held);
    Ok(())
}

/// Gives an id this override row, or none. `AllocError` where no memory is left.
pub(crate) fn put_row(
    overrides: &mut Overrides,
    alloc: Global,
    id: &Id,
    row: Option<Status>,
) -> Result<(), AllocError>
    ensures { OnOk result (overrides.new.rows ≡ with_value overrides.old.rows id.now row) }
{
    let before = overrides.get(id);
    let new = new_id(overrides, alloc, id, before, row)?;
    write_row(overrides, id, new, before, row);
    Ok(())
}

/// Puts a copy of each of these leases under its key, the last first.
pub(crate) fn put_leases(
    leases: &mut Leases,
    alloc: Global,
    keys: &[Key],
    held: &[Option<HeldLease>],
) -> Result<(), AllocError>
    ensures { OnOk result (leases.new.held ≡ with_values leases.old.held keys.now held.now) }
{
    let mut left = keys.len().min(held.len());
    while left > 0 {
        left -= 1;
        put_lease(leases, alloc, &keys[left], held[left].as_ref())?;
    }
    Ok(())
}

/// Gives the id of each of these keys its row, the last first.
pub(crate) fn put_rows(
    overrides: &mut Overrides,
    alloc: Global,
    keys: &[Key],
    rows: &[Option<Status>],
) -> Result<(), AllocError>
    ensures { OnOk result (overrides.new.rows ≡ with_values overrides.old.rows (all (λ k. k.id) keys.now) rows.now) }
{
    let mut left = keys.len().min(rows.len());
    while left > 0 {
        left -= 1;
        put_row(overrides, alloc, &keys[left].id, rows[left])?;
    }
    Ok(())
}
