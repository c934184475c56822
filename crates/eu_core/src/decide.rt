//! What each command on a lease does to it: a function for each equation of the rule book.
ghost use Rattle.std.specs.Prelude.{◌≡◌, ◌≢◌, ◌≤◌, ◌⊎◌, false, true, Err, IfErr, IfOk, IsOk, None, OnOk, Option, Some};
ghost use Rattle.std.specs.Option.{option_copied};
ghost use Rattle.eu_base.specs.declared.statuses.Status.{Status};
ghost use Rattle.eu_model.specs.declared.views.Listed.{Listed};
ghost use Rattle.eu_model.specs.Answers.{IsRefusal};
ghost use Rattle.eu_model.specs.Change.{renew_reply};
ghost use Rattle.eu_model.specs.PlainSteps.{plain_cancel, plain_renew, plain_set_status, plain_unset_status};
ghost use Rattle.eu_core.specs.Decided.{begins, count_fault, decided, IsChange};

use crate::decision::{Change, Decision, LeaseChange};
use crate::statuses::row_of_peer;
use eu_base::{Fault, Moment, SharedInstance, Stamp, Status};
use eu_lease::{Rate, is_status, override_rule};
use eu_model::Reply;
use eu_store::{Amendment, HeldLease};
use std::alloc::AllocError;

/// What is known beside the lease when a command on it is decided.
#[derive(Clone, Copy)]
pub struct Context {
    /// The override row of its id.
    pub row: Option<Status>,
    /// How many clients are expected.
    pub expected: u64,
    /// The renewals that are counted.
    pub rate: Rate,
}

/// A renewal (`AbstractInstanceRegistry.renew`, and `InstanceResource.renewLease` for the stamps).
#[inline(always)]
pub fn decide_renewal(
    held: Option<&HeldLease>,
    context: Context,
    last_dirty: Option<Stamp>,
    overridden: Option<Status>,
    replicated: bool,
    moment: Moment,
) -> Result<Decision, Fault>
    ensures change { IfOk result (λ d. IsChange d (option_copied held.entry) (plain_renew (option_copied held.entry) context.row context.expected last_dirty overridden replicated moment)) }
    ensures counted { OnOk result (count_fault (plain_renew (option_copied held.entry) context.row context.expected last_dirty overridden replicated moment).counted context.rate.since ≡ None) }
    ensures in_place { IfOk result (λ d. begins d.change.lease ≡ false) }
    ensures few { IfOk result (λ d. d.change.expected ≤ context.expected) }
    ensures frugal { (last_dirty ≡ None) ⊎ (replicated ≡ false) → IfOk result (λ d. d.change.row ≡ context.row) }
    ensures refused { IfErr result (λ f. IsRefusal (count_fault (plain_renew (option_copied held.entry) context.row context.expected last_dirty overridden replicated moment).counted context.rate.since) f) }
    ensures memory { (last_dirty ≡ None) ⊎ (replicated ≡ false) → result ≢ Err Fault.OutOfMemory }
{
    let Some(held) = held else {
        return Ok(unchanged(context, Reply::NotFound));
    };
    let instance = held.instance();
    let own = instance.status();
    let status = override_rule(own, context.row, Some(own), replicated);
    if is_status(status, Status::Unknown) {
        return Ok(unchanged(context, Reply::NotFound));
    }
    context.rate.check()?;
    let reply = renew_reply(instance, status, last_dirty, replicated)?;
    let row_of_peer = row_of_peer(&reply, overridden, context.row, replicated);
    Ok(Decision {
        change: Change {
            lease: LeaseChange::Amended(Amendment::InStatuses {
                moment,
                status,
                overridden: row_of_peer.unwrap_or(instance.overridden()),
                last_dirty: None,
                comes_up: false,
            }),
            row: row_of_peer.or(context.row),
            expected: context.expected,
            counted: true,
        },
        reply,
    })
}

/// The reply to a renewal that gives this instance this status, by the stamp that its sender knows. `AllocError` for a
/// `Conflict` alone, where 2^63 share its instance.
fn renew_reply(
    instance: &SharedInstance,
    status: Status,
    last_dirty: Option<Stamp>,
    replicated: bool,
) -> Result<Reply, AllocError>
    ensures reply { IfOk result (λ reply. reply ≡ renew_reply last_dirty (record instance.now { status = status }) replicated) }
    ensures memory { last_dirty ≡ None → IsOk result }
    ensures client { replicated ≡ false → IsOk result }
{
    let Some(stamp) = last_dirty else {
        return Ok(Reply::Done);
    };
    if stamp.value() > instance.last_dirty().value() {
        return Ok(Reply::Stale);
    }
    if stamp.value() < instance.last_dirty().value() && replicated {
        let mut now = instance.share()?;
        now.set_statuses(status, instance.overridden());
        return Ok(Reply::Conflict(now));
    }
    Ok(Reply::Done)
}

/// A status that is set for a lease that is seen, if it is (`AbstractInstanceRegistry.statusUpdate`).
pub fn decide_status(
    visible: Option<&HeldLease>,
    context: Context,
    status: Status,
    last_dirty: Option<Stamp>,
    moment: Moment,
) -> Decision
    ensures change { (held : Option Listed) → ((l : Listed) → option_copied visible.entry ≡ Some l → held ≡ Some l)
        → IsChange result held (plain_set_status (option_copied visible.entry) held context.row context.expected status last_dirty moment) }
    ensures in_place { begins result.change.lease ≡ false }
    ensures few { result.change.expected ≤ context.expected }
    ensures uncounted { result.change.counted ≡ false }
{
    let Some(visible) = visible else {
        return unchanged(context, Reply::NotFound);
    };
    if is_status(visible.instance().status(), status) {
        return renewed(context, moment);
    }
    Decision {
        change: Change {
            lease: LeaseChange::Amended(Amendment::InStatuses {
                moment,
                status,
                overridden: status,
                last_dirty,
                comes_up: is_status(status, Status::Up),
            }),
            row: Some(status),
            expected: context.expected,
            counted: false,
        },
        reply: Reply::Done,
    }
}

/// An override that is taken back from a lease that is seen, if it is (`AbstractInstanceRegistry.deleteStatusOverride`).
pub fn decide_no_status(
    visible: Option<&HeldLease>,
    context: Context,
    status: Option<Status>,
    last_dirty: Option<Stamp>,
    moment: Moment,
) -> Decision
    ensures change { (held : Option Listed) → ((l : Listed) → option_copied visible.entry ≡ Some l → held ≡ Some l)
        → IsChange result held (plain_unset_status (option_copied visible.entry) held context.row context.expected status last_dirty moment) }
    ensures in_place { begins result.change.lease ≡ false }
    ensures few { result.change.expected ≤ context.expected }
    ensures uncounted { result.change.counted ≡ false }
    ensures frugal { (result.change.row ≡ context.row) ⊎ (result.change.row ≡ None) }
{
    let Some(_seen) = visible else {
        return unchanged(context, Reply::NotFound);
    };
    let Some(_row) = context.row else {
        return renewed(context, moment);
    };
    Decision {
        change: Change {
            lease: LeaseChange::Amended(Amendment::InStatuses {
                moment,
                status: status.unwrap_or(Status::Unknown),
                overridden: Status::Unknown,
                last_dirty,
                comes_up: false,
            }),
            row: None,
            expected: context.expected,
            counted: false,
        },
        reply: Reply::Done,
    }
}

/// A cancel (`AbstractInstanceRegistry.internalCancel`).
#[inline(always)]
pub fn decide_cancel(held: Option<&HeldLease>, context: Context) -> Decision
    ensures change { IsChange result (option_copied held.entry) (plain_cancel (option_copied held.entry) context.expected) }
    ensures in_place { begins result.change.lease ≡ false }
    ensures few { result.change.expected ≤ context.expected }
    ensures uncounted { result.change.counted ≡ false }
    ensures row { result.change.row ≡ None }
{
    match held {
        Some(_) => without_row(
            LeaseChange::Ended,
            context.expected.saturating_sub(1),
            Reply::Done,
        ),
        None => without_row(LeaseChange::Stays, context.expected, Reply::NotFound),
    }
}

/// The lease stays, if one is held, and so does all else.
fn unchanged(context: Context, reply: Reply) -> Decision
    ensures { result ≡ decided LeaseChange.Stays context.row context.expected reply }
{
    Decision {
        change: Change {
            lease: LeaseChange::Stays,
            row: context.row,
            expected: context.expected,
            counted: false,
        },
        reply,
    }
}

/// The lease is renewed, and not counted.
fn renewed(context: Context, moment: Moment) -> Decision
    ensures { result ≡ decided (LeaseChange.Amended (Amendment.Renewed moment)) context.row context.expected Reply.Done }
{
    Decision {
        change: Change {
            lease: LeaseChange::Amended(Amendment::Renewed { moment }),
            row: context.row,
            expected: context.expected,
            counted: false,
        },
        reply: Reply::Done,
    }
}

/// This comes of the lease, and the row of its id goes.
fn without_row(lease: LeaseChange, expected: u64, reply: Reply) -> Decision
    ensures { result ≡ decided lease None expected reply }
{
    Decision {
        change: Change {
            lease,
            row: None,
            expected,
            counted: false,
        },
        reply,
    }
}
