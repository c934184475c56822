//! What registrations, adoptions and cancels change.
ghost use Rattle.std.specs.Prelude.{◌≡◌, ◌≤◌, ◌^◌, not, is_some, IfOk, true};
ghost use Rattle.std.specs.Option.{option_copied, option_map, option_map_or};
ghost use Rattle.eu_model.specs.Change.{rule, is_status, newer, row_after, row_of, under_row, joined, up_after, one_more, uncounted};
ghost use Rattle.eu_model.specs.PlainSteps.{plain_register, plain_adopt, plain_cancel};
ghost use Rattle.eu_audit_changes.specs.Changed.{change_of, under_listed};

use eu_base::{MOST_EXPECTED, Moment, SharedInstance, Status};
use eu_model::{Listed, Reply, Times};
use std::alloc::AllocError;

/// What a command on one lease leaves at the key of the lease and at its id, and what it is answered.
#[derive(Debug, Drop)]
pub struct Changed {
    /// The lease that is held then, if there is one.
    pub lease: Option<Listed>,
    /// The override row of the id, if there is one then.
    pub row: Option<Status>,
    /// The clients that are expected then.
    pub expected: u64,
    /// Whether a renewal is counted.
    pub counted: bool,
    /// What the command is answered.
    pub reply: Reply,
}

impl Changed {
    /// Nothing changes but, perhaps, the row.
    pub(crate) fn unchanged(
        held: Option<&Listed>,
        row: Option<Status>,
        expected: u64,
        reply: Reply,
    ) -> Result<Changed, AllocError>
        ensures { IfOk result (λ c. change_of c ≡ uncounted (option_copied held.entry) row expected reply) }
    {
        let lease = match held {
            Some(held) => Some(copied(held)?),
            None => None,
        };
        Ok(Changed {
            lease,
            row,
            expected,
            counted: false,
            reply,
        })
    }
}

/// The same lease once more. `AllocError` where 2^63 share an instance.
pub fn copied(held: &Listed) -> Result<Listed, AllocError>
    ensures { IfOk result (λ l. l ≡ held.now) }
{
    Ok(Listed {
        instance: held.instance.share()?,
        times: held.times,
    })
}

/// Whether both are one status.
pub(crate) fn is_status(status: Status, other: Status) -> bool
    ensures { result ≡ is_status status other }
{
    status as u8 == other as u8
}

/// The override rule.
pub(crate) fn rule(
    own: Status,
    row: Option<Status>,
    held: Option<Status>,
    replicated: bool,
) -> Status
    ensures { result ≡ rule own row held replicated }
{
    match own {
        Status::Up | Status::OutOfService => match row {
            Some(status) => status,
            None => match held {
                Some(Status::Up) if !replicated => Status::Up,
                Some(Status::OutOfService) if !replicated => Status::OutOfService,
                _ => own,
            },
        },
        _ => own,
    }
}

/// The row that an overridden status tells: none, where it is UNKNOWN.
fn row_of(overridden: Status) -> Option<Status>
    ensures { result ≡ row_of overridden }
{
    match overridden {
        Status::Unknown => None,
        _ => Some(overridden),
    }
}

/// The row that an instance tells.
fn row_told(instance: &SharedInstance) -> Option<Status>
    ensures { result ≡ row_of instance.now.overridden }
{
    row_of(instance.overridden())
}

/// The row after a registration.
fn row_after(row: Option<Status>, overridden: Status) -> Option<Status>
    ensures { result ≡ row_after row overridden }
{
    match row {
        Some(status) => Some(status),
        None => row_of(overridden),
    }
}

/// The first moment at which the instance was up.
pub(crate) fn up_after(up: u64, status: Status, moment: Moment) -> u64
    ensures { result ≡ up_after up status moment }
{
    match status {
        Status::Up if up == 0 => moment.ms(),
        _ => up,
    }
}

/// The instance of a lease that is held.
fn instance_of(held: Option<&Listed>) -> Option<&SharedInstance>
    ensures { option_copied result ≡ option_map (λ l. l.instance) (option_copied held.entry) }
{
    match held {
        Some(held) => Some(&held.instance),
        None => None,
    }
}

/// The overridden status of the instance that a registration takes.
fn newer_overridden(held: Option<&SharedInstance>, instance: &SharedInstance) -> Status
    ensures { result ≡ (newer (option_copied held.entry) instance.now).overridden }
{
    match held {
        Some(held) if instance.last_dirty().value() < held.last_dirty().value() =>
            held.overridden(),
        _ => instance.overridden(),
    }
}

/// The instance that a registration takes. `AllocError` where 2^63 share an instance.
fn newer(
    held: Option<&SharedInstance>,
    instance: &SharedInstance,
) -> Result<SharedInstance, AllocError>
    ensures { IfOk result (λ i. i ≡ newer (option_copied held.entry) instance.now) }
{
    match held {
        Some(held) if instance.last_dirty().value() < held.last_dirty().value() => {
            let mut chosen = held.share()?;
            chosen.set_secs(instance.secs());
            Ok(chosen)
        }
        _ => instance.share(),
    }
}

/// The instance, where this is the row of its id.
pub(crate) fn under_row(row: Option<Status>, mut instance: SharedInstance) -> SharedInstance
    ensures { result ≡ under_row row instance }
{
    if let Some(status) = row {
        instance.set_statuses(instance.status(), status);
    }
    instance
}

/// The instance that a registration leaves. `AllocError` where 2^63 share an instance.
fn joined(
    held: Option<&SharedInstance>,
    row: Option<Status>,
    instance: &SharedInstance,
    replicated: bool,
) -> Result<SharedInstance, AllocError>
    ensures { IfOk result (λ i. i ≡ joined (option_copied held.entry) row instance.now replicated) }
{
    let new_row = row_after(row, newer_overridden(held, instance));
    let mut left = under_row(new_row, newer(held, instance)?);
    let held_status = match held {
        Some(held) => Some(held.status()),
        None => None,
    };
    let status = rule(left.status(), new_row, held_status, replicated);
    left.set_statuses(status, left.overridden());
    Ok(left)
}

/// When the instance of a lease was first up, and 0 where none is held.
fn first_up(held: Option<&Listed>) -> u64
    ensures { result ≡ option_map_or (λ l. l.times.up) (option_copied held.entry) 0 }
{
    match held {
        Some(held) => held.times.up,
        None => 0,
    }
}

/// Whether no lease is held.
fn is_absent(held: Option<&Listed>) -> bool
    ensures { result ≡ not (is_some (option_copied held.entry)) }
{
    match held {
        Some(_) => false,
        None => true,
    }
}

/// The number expected after a registration.
fn one_more(comes: bool, expected: u64) -> u64
    requires { expected ≤ MOST_EXPECTED }
    ensures { result ≡ one_more comes expected }
{
    if comes && expected > 0 {
        expected + 1
    } else {
        expected
    }
}

/// What a registration of the instance at the moment changes, where `held` is the lease of its key, `row` the override row of its id, and
/// so many clients are expected. `replicated` says that a peer sends it.
///
/// No more than 2^40 clients are expected, which is for the caller to see to. `AllocError` where 2^63 share an instance.
pub fn register(
    held: Option<&Listed>,
    row: Option<Status>,
    expected: u64,
    instance: &SharedInstance,
    replicated: bool,
    moment: Moment,
) -> Result<Changed, AllocError>
    requires { expected ≤ MOST_EXPECTED }
    ensures { IfOk result (λ c. change_of c ≡ plain_register (option_copied held.entry) row expected instance.now replicated moment) }
{
    let before = instance_of(held);
    let fresh = is_absent(held);
    let row_then = row_after(row, newer_overridden(before, instance));
    let left = joined(before, row, instance, replicated)?;
    let times = Times {
        registered: moment.ms(),
        updated: moment.ms(),
        up: up_after(first_up(held), left.status(), moment),
    };
    Ok(Changed {
        lease: Some(Listed {
            instance: left,
            times,
        }),
        row: row_then,
        expected: one_more(fresh, expected),
        counted: false,
        reply: Reply::Registered { fresh },
    })
}

/// The lease, where the row that an adopted instance tells overrides. `AllocError` where 2^63 share an instance.
fn overridden_by(row: Option<Status>, held: Option<&Listed>) -> Result<Option<Listed>, AllocError>
    ensures { IfOk result (λ l. l ≡ option_map (under_listed row) (option_copied held.entry)) }
{
    let Some(held) = held else {
        return Ok(None);
    };
    let instance = under_row(row, held.instance.share()?);
    Ok(Some(Listed {
        instance,
        times: held.times,
    }))
}

/// What an adoption of a peer's instance at the moment changes, where `held` is the lease of its key, `row` the override row of its id,
/// and so many clients are expected.
///
/// No more than 2^40 clients are expected, which is for the caller to see to. `AllocError` where 2^63 share an instance.
pub fn adopt(
    held: Option<&Listed>,
    row: Option<Status>,
    expected: u64,
    instance: &SharedInstance,
    moment: Moment,
) -> Result<Changed, AllocError>
    requires { expected ≤ MOST_EXPECTED }
    ensures { IfOk result (λ c. change_of c ≡ plain_adopt (option_copied held.entry) row expected instance.now moment) }
{
    let own = row_told(instance);
    let held = overridden_by(own, held)?;
    register(held.as_ref(), own.or(row), expected, instance, true, moment)
}

/// What a cancel changes, where `held` is the lease, and so many clients are expected. Takes no memory.
pub fn cancel(held: Option<&Listed>, expected: u64) -> Changed
    ensures { change_of result ≡ plain_cancel (option_copied held.entry) expected }
{
    match held {
        Some(_) => Changed {
            lease: None,
            row: None,
            expected: expected.saturating_sub(1),
            counted: false,
            reply: Reply::Done,
        },
        None => Changed {
            lease: None,
            row: None,
            expected,
            counted: false,
            reply: Reply::NotFound,
        },
    }
}
