//! What a registration decides.
ghost use Rattle.std.specs.Prelude.{◌≡◌, ◌<◌, ◌≤◌, false, IfOk, None, Some};
ghost use Rattle.std.specs.FinMap as map;
ghost use Rattle.std.specs.FinMap.{FinMap};
ghost use Rattle.std.specs.Option.{option_copied};
ghost use Rattle.eu_base.specs.Values.{key_cmp};
ghost use Rattle.eu_model.specs.declared.views.Listed.{Listed};
ghost use Rattle.eu_model.specs.Change.{up_after};
ghost use Rattle.eu_core.specs.Decided.{begins, IsNew};
ghost use Rattle.eu_core.specs.Joins.{Joins};

use crate::decide::Context;
use crate::decision::{Change, Decision, LeaseChange};
use crate::statuses::judge_statuses;
use eu_base::{MOST_LEASES, Moment, SharedInstance, Status};
use eu_lease::Lease;
use eu_model::Reply;
use eu_store::{Amendment, HeldLease};
use std::alloc::AllocError;

/// A lease that begins with its instance in this status.
fn begun(mut lease: Lease, status: Status, moment: Moment) -> Lease
    ensures { result ≡ record lease { up = up_after lease.up status moment } }
{
    match status {
        Status::Up => lease.service_up(moment),
        _ => {}
    }
    lease
}

/// A registration (`AbstractInstanceRegistry.register`), where as many clients are expected as with this one. `AllocError` where
/// 2^63 share an instance.
pub fn decide_join(
    instance: &SharedInstance,
    held: Option<&HeldLease>,
    context: Context,
    replicated: bool,
    moment: Moment,
) -> Result<Decision, AllocError>
    ensures joins { IfOk result (λ d. Joins d (option_copied held.entry) context.row context.expected instance.now replicated moment) }
    ensures new { IfOk result (λ d. (leases : FinMap key_cmp Listed) → option_copied held.entry ≡ map.get leases instance.now.key → (option_copied held.entry ≡ None → map.len leases < MOST_LEASES) → IsNew leases instance.now.key d.change.lease) }
{
    match held {
        None => join_new(instance, context, replicated, moment),
        Some(held) if instance.last_dirty().value() < held.instance().last_dirty().value() => {
            Ok(join_under(instance, held, context, replicated, moment))
        }
        Some(held) => join_over(instance, held, context, replicated, moment),
    }
}

/// The registration of an instance whose key isn't held. `AllocError` where 2^63 share an instance.
fn join_new(
    instance: &SharedInstance,
    context: Context,
    replicated: bool,
    moment: Moment,
) -> Result<Decision, AllocError>
    ensures joins { IfOk result (λ d. Joins d None context.row context.expected instance.now replicated moment) }
    ensures new { IfOk result (λ d. (leases : FinMap key_cmp Listed) → map.get leases instance.now.key ≡ None → map.len leases < MOST_LEASES → IsNew leases instance.now.key d.change.lease) }
{
    let statuses = judge_statuses(
        instance.status(),
        instance.overridden(),
        context.row,
        None,
        replicated,
    );
    let fresh = Lease::fresh(moment, instance.secs());
    let lease = begun(fresh, statuses.status, moment);
    let mut instance = instance.share()?;
    instance.set_statuses(statuses.status, statuses.overridden);
    let held = HeldLease::new(instance, lease);
    Ok(Decision {
        change: Change {
            lease: LeaseChange::Begun(held),
            row: statuses.row,
            expected: context.expected,
            counted: false,
        },
        reply: Reply::Registered { fresh: true },
    })
}

/// The registration of an instance whose key is held with a stamp that isn't greater. `AllocError` where 2^63 share an instance.
fn join_over(
    instance: &SharedInstance,
    held: &HeldLease,
    context: Context,
    replicated: bool,
    moment: Moment,
) -> Result<Decision, AllocError>
    requires { held.now.instance.last_dirty ≤ instance.now.last_dirty }
    ensures joins { IfOk result (λ d. Joins d (Some held.now) context.row context.expected instance.now replicated moment) }
    ensures in_place { IfOk result (λ d. begins d.change.lease ≡ false) }
{
    let statuses = judge_statuses(
        instance.status(),
        instance.overridden(),
        context.row,
        Some(held.instance().status()),
        replicated,
    );
    let anew = held.lease().anew(moment, instance.secs());
    let lease = begun(anew, statuses.status, moment);
    let mut instance = instance.share()?;
    instance.set_statuses(statuses.status, statuses.overridden);
    let held = HeldLease::new(instance, lease);
    Ok(Decision {
        change: Change {
            lease: LeaseChange::Amended(Amendment::Replaced(held)),
            row: statuses.row,
            expected: context.expected,
            counted: false,
        },
        reply: Reply::Registered { fresh: false },
    })
}

/// The registration of an instance whose key is held with a greater stamp: the held one stays. Takes no memory.
fn join_under(
    newcomer: &SharedInstance,
    held: &HeldLease,
    context: Context,
    replicated: bool,
    moment: Moment,
) -> Decision
    requires { newcomer.now.last_dirty < held.now.instance.last_dirty }
    ensures joins { Joins result (Some held.now) context.row context.expected newcomer.now replicated moment }
    ensures in_place { begins result.change.lease ≡ false }
{
    let own = held.instance();
    let statuses = judge_statuses(
        own.status(),
        own.overridden(),
        context.row,
        Some(own.status()),
        replicated,
    );
    let anew = held.lease().anew(moment, newcomer.secs());
    let lease = begun(anew, statuses.status, moment);
    Decision {
        change: Change {
            lease: LeaseChange::Amended(Amendment::Rejoined {
                status: statuses.status,
                overridden: statuses.overridden,
                lease,
            }),
            row: statuses.row,
            expected: context.expected,
            counted: false,
        },
        reply: Reply::Registered { fresh: false },
    }
}
