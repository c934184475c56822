//! What renewals change, and statuses that are set or unset.
ghost use Rattle.std.specs.Prelude.{◌≡◌, ◌+◌, ◌*◌, IfOk, Some};
ghost use Rattle.std.specs.Option.{option_copied};
ghost use Rattle.eu_model.specs.Change.{renew_reply, row_of_peer, stamped, renew_as, in_status, out_of_override, uncounted};
ghost use Rattle.eu_model.specs.PlainSteps.{plain_change, raised, plain_renew, plain_set_status, plain_unset_status, plain_seen, plain_expired};
ghost use Rattle.eu_model.specs.Plain.{listed};
ghost use Rattle.eu_model.specs.Machine.{renewed};
ghost use Rattle.eu_audit_changes.specs.Changed.{change_of};

use crate::changes::{Changed, is_status, rule, under_row, up_after};
use eu_base::{LeaseSecs, Moment, SharedInstance, Stamp, Status};
use eu_model::{Listed, Reply, Times};
use std::alloc::AllocError;

/// Whether a lease has expired at a moment, if it is granted so many extra milliseconds. Takes no memory.
pub fn expired(held: &Listed, moment: Moment, extra: u64) -> bool
    ensures { result ≡ plain_expired held.now moment extra }
{
    let secs = u128::from(held.instance.secs().secs());
    let deadline = held.times.updated as u128 + 1000 * secs + extra as u128;
    deadline < moment.ms() as u128
}

/// The lease, where it is visible.
fn seen(permitted: bool, moment: Moment, held: Option<&Listed>) -> Option<&Listed>
    ensures { option_copied result ≡ plain_seen permitted moment (option_copied held.entry) }
{
    match held {
        Some(held) if permitted && expired(held, moment, 0) => None,
        _ => held,
    }
}

/// The moments of a lease that lasts so many seconds, and is renewed.
fn renewed(times: Times, secs: LeaseSecs, moment: Moment) -> Times
    ensures { result ≡ record times { updated = moment + 1000 * secs } }
{
    Times {
        registered: times.registered,
        updated: moment.ms() + 1000 * u64::from(secs.secs()),
        up: times.up,
    }
}

/// The instance, with a greater stamp than the one that it has.
fn stamped(last_dirty: Option<Stamp>, mut instance: SharedInstance) -> SharedInstance
    ensures { result ≡ stamped last_dirty instance }
{
    match last_dirty {
        Some(stamp) if instance.last_dirty().value() < stamp.value() => {
            instance.set_last_dirty(stamp);
            instance
        }
        _ => instance,
    }
}

/// The instance in these statuses.
fn in_statuses(mut instance: SharedInstance, status: Status, overridden: Status) -> SharedInstance
    ensures { result ≡ record instance { status = status; overridden = overridden } }
{
    instance.set_statuses(status, overridden);
    instance
}

/// What a renewal is answered that finds this instance. `AllocError` where 2^63 share an instance.
fn renew_reply(
    last_dirty: Option<Stamp>,
    instance: &SharedInstance,
    replicated: bool,
) -> Result<Reply, AllocError>
    ensures { IfOk result (λ r. r ≡ renew_reply last_dirty instance.now replicated) }
{
    match last_dirty {
        Some(stamp) if instance.last_dirty().value() < stamp.value() => Ok(Reply::Stale),
        Some(stamp) if stamp.value() < instance.last_dirty().value() && replicated => {
            Ok(Reply::Conflict(instance.share()?))
        }
        _ => Ok(Reply::Done),
    }
}

/// The row that a peer's stale renewal brings.
fn row_of_peer(
    reply: &Reply,
    replicated: bool,
    overridden: Option<Status>,
    row: Option<Status>,
) -> Option<Status>
    ensures { result ≡ row_of_peer reply.now replicated overridden row }
{
    let Reply::Stale = reply else {
        return None;
    };
    let Some(overridden) = overridden else {
        return None;
    };
    if !replicated || is_status(overridden, Status::Unknown) {
        return None;
    }
    match row {
        Some(row) if is_status(overridden, row) => None,
        _ => Some(overridden),
    }
}

/// A renewal that gives this status. `AllocError` where 2^63 share an instance.
fn renew_as(
    held: &Listed,
    row: Option<Status>,
    expected: u64,
    last_dirty: Option<Stamp>,
    overridden: Option<Status>,
    replicated: bool,
    moment: Moment,
    status: Status,
) -> Result<Changed, AllocError>
    ensures { IfOk result (λ c. change_of c ≡ plain_change (renew_as (raised held.now) row expected last_dirty overridden replicated moment status)) }
{
    let instance = held.instance.share()?;
    let instance = in_statuses(instance, status, held.instance.overridden());
    let reply = renew_reply(last_dirty, &instance, replicated)?;
    let new_row = row_of_peer(&reply, replicated, overridden, row);
    Ok(Changed {
        lease: Some(Listed {
            instance: under_row(new_row, instance),
            times: renewed(held.times, held.instance.secs(), moment),
        }),
        row: new_row.or(row),
        expected,
        counted: true,
        reply,
    })
}

/// What a renewal at the moment changes, where `held` is the lease, `row` the override row of its id, and so many clients are expected.
/// The sender knows the instance by the stamp `last_dirty`, if it gives one, and by the overridden status, if it gives one. `replicated` says
/// that a peer sends it.
///
/// `AllocError` where 2^63 share an instance.
pub fn renew(
    held: Option<&Listed>,
    row: Option<Status>,
    expected: u64,
    last_dirty: Option<Stamp>,
    overridden: Option<Status>,
    replicated: bool,
    moment: Moment,
) -> Result<Changed, AllocError>
    ensures { IfOk result (λ c. change_of c ≡ plain_renew (option_copied held.entry) row expected last_dirty overridden replicated moment) }
{
    let Some(lease) = held else {
        return Changed::unchanged(held, row, expected, Reply::NotFound);
    };
    let own = lease.instance.status();
    let status = rule(own, row, Some(own), replicated);
    if is_status(status, Status::Unknown) {
        return Changed::unchanged(held, row, expected, Reply::NotFound);
    }
    renew_as(
        lease, row, expected, last_dirty, overridden, replicated, moment, status,
    )
}

/// A lease that is renewed, and nothing else. `AllocError` where 2^63 share an instance.
fn renewed_lease(held: &Listed, moment: Moment) -> Result<Listed, AllocError>
    ensures { IfOk result (λ l. l ≡ listed (renewed (raised held.now) moment)) }
{
    let instance = held.instance.share()?;
    Ok(Listed {
        instance,
        times: renewed(held.times, held.instance.secs(), moment),
    })
}

/// A lease that is renewed, with its instance in a status that is set. `AllocError` where 2^63 share an instance.
fn in_status(
    held: &Listed,
    status: Status,
    last_dirty: Option<Stamp>,
    moment: Moment,
) -> Result<Listed, AllocError>
    ensures { IfOk result (λ l. l ≡ listed (in_status (raised held.now) status last_dirty moment)) }
{
    let instance = in_statuses(held.instance.share()?, status, status);
    let mut times = renewed(held.times, held.instance.secs(), moment);
    times.up = up_after(held.times.up, status, moment);
    Ok(Listed {
        instance: stamped(last_dirty, instance),
        times,
    })
}

/// A lease that is renewed, with nothing that overrides. `AllocError` where 2^63 share an instance.
fn out_of_override(
    held: &Listed,
    suggested: Option<Status>,
    last_dirty: Option<Stamp>,
    moment: Moment,
) -> Result<Listed, AllocError>
    ensures { IfOk result (λ l. l ≡ listed (out_of_override (raised held.now) suggested last_dirty moment)) }
{
    let status = suggested.unwrap_or(Status::Unknown);
    let instance = in_statuses(held.instance.share()?, status, Status::Unknown);
    Ok(Listed {
        instance: stamped(last_dirty, instance),
        times: renewed(held.times, held.instance.secs(), moment),
    })
}

/// A lease of which nothing is counted, with the reply `Done`.
fn done(lease: Listed, row: Option<Status>, expected: u64) -> Changed
    ensures { change_of result ≡ uncounted (Some lease) row expected Reply.Done }
{
    Changed {
        lease: Some(lease),
        row,
        expected,
        counted: false,
        reply: Reply::Done,
    }
}

/// What a status that is set at the moment changes, where `held` is the lease, `row` the override row of its id, and so many clients are
/// expected. `permitted` says that eviction is permitted, so that a lease that has expired isn't visible; `last_dirty` is the stamp of the
/// change, if one is given.
///
/// `AllocError` where 2^63 share an instance.
pub fn set_status(
    permitted: bool,
    held: Option<&Listed>,
    row: Option<Status>,
    expected: u64,
    status: Status,
    last_dirty: Option<Stamp>,
    moment: Moment,
) -> Result<Changed, AllocError>
    ensures { IfOk result (λ c. change_of c ≡ plain_set_status (plain_seen permitted moment (option_copied held.entry)) (option_copied held.entry) row expected status last_dirty moment) }
{
    let Some(lease) = seen(permitted, moment, held) else {
        return Changed::unchanged(held, row, expected, Reply::NotFound);
    };
    if is_status(lease.instance.status(), status) {
        return Ok(done(renewed_lease(lease, moment)?, row, expected));
    }
    let lease = in_status(lease, status, last_dirty, moment)?;
    Ok(done(lease, Some(status), expected))
}

/// What a status that is unset at the moment changes, where `held` is the lease, `row` the override row of its id, and so many clients are
/// expected. `permitted` says that eviction is permitted, so that a lease that has expired isn't visible; `suggested` is the status that
/// the instance may have then, and `last_dirty` the stamp of the change, if they are given.
///
/// `AllocError` where 2^63 share an instance.
pub fn unset_status(
    permitted: bool,
    held: Option<&Listed>,
    row: Option<Status>,
    expected: u64,
    suggested: Option<Status>,
    last_dirty: Option<Stamp>,
    moment: Moment,
) -> Result<Changed, AllocError>
    ensures { IfOk result (λ c. change_of c ≡ plain_unset_status (plain_seen permitted moment (option_copied held.entry)) (option_copied held.entry) row expected suggested last_dirty moment) }
{
    let Some(lease) = seen(permitted, moment, held) else {
        return Changed::unchanged(held, row, expected, Reply::NotFound);
    };
    let lease = match row {
        Some(_) => out_of_override(lease, suggested, last_dirty, moment)?,
        None => renewed_lease(lease, moment)?,
    };
    Ok(done(lease, None, expected))
}
