//! What a step leaves for each peer.
ghost use Rattle.std.specs.Prelude.{◌≡◌, ℕ, IfOk, Option, Some, None};
ghost use Rattle.std.specs.Option.{option_copied, option_map};
ghost use Rattle.eu_base.specs.declared.instances.Instance as value;
ghost use Rattle.eu_base.specs.declared.statuses.Status as own;
ghost use Rattle.eu_model.specs.Server.{key_of, task_for, task};

use eu_base::{Action, Key, Moment, SharedInstance, Status, Task};
use eu_model::{Command, Reply};
use std::alloc::{AllocError, Global};

/// A task that speaks of what is held under a key. `AllocError` where no memory is left.
fn task(
    alloc: Global,
    action: Action,
    key: &Key,
    status: Option<Status>,
    held: Option<&SharedInstance>,
    moment: Moment,
) -> Result<Option<Task>, AllocError>
    ensures { IfOk result (λ t. t ≡ Some (task action key.now status (option_copied held.entry) moment)) }
{
    let key = key.copy(alloc)?;
    let instance = match held {
        Some(held) => Some(held.share()?),
        None => None,
    };
    Ok(Some(Task {
        action,
        key,
        status,
        instance,
        queued: moment,
    }))
}

/// The status of what is held.
fn status_of(held: Option<&SharedInstance>) -> Option<Status>
    ensures { result ≡ option_map (λ (i : value.Instance). i.status) (option_copied held.entry) }
{
    match held {
        Some(held) => Some(held.status()),
        None => None,
    }
}

/// The task of a registration that is answered so, if there is one. `AllocError` where no memory is left.
fn task_of_registration(
    alloc: Global,
    instance: &SharedInstance,
    replicated: bool,
    moment: Moment,
    reply: &Reply,
    held: Option<&SharedInstance>,
) -> Result<Option<Task>, AllocError>
    ensures { IfOk result (λ t. t ≡ task_for (Command.Register instance.now replicated) moment reply.now (option_copied held.entry)) }
{
    match reply {
        Reply::Registered { .. } if !replicated => {
            task(alloc, Action::Register, instance.key(), None, held, moment)
        }
        _ => Ok(None),
    }
}

/// The task of a renewal that is answered so, if there is one. `AllocError` where no memory is left.
fn task_of_renewal(
    alloc: Global,
    key: &Key,
    replicated: bool,
    moment: Moment,
    reply: &Reply,
    held: Option<&SharedInstance>,
) -> Result<Option<Task>, AllocError>
    ensures { IfOk result (λ t. (last_dirty : Option ℕ) (overridden : Option own.Status) → t ≡ task_for (Command.Renew key.now last_dirty overridden replicated) moment reply.now (option_copied held.entry)) }
{
    match reply {
        Reply::Done | Reply::Stale if !replicated => task(
            alloc,
            Action::Heartbeat,
            key,
            None,
            held,
            moment,
        ),
        _ => Ok(None),
    }
}

/// The task of a cancel that is answered so, if there is one. `AllocError` where no memory is left.
fn task_of_cancel(
    alloc: Global,
    key: &Key,
    replicated: bool,
    moment: Moment,
    reply: &Reply,
) -> Result<Option<Task>, AllocError>
    ensures { IfOk result (λ t. (held : Option value.Instance) → t ≡ task_for (Command.Cancel key.now replicated) moment reply.now held) }
{
    match reply {
        Reply::Done if !replicated => task(alloc, Action::Cancel, key, None, None, moment),
        _ => Ok(None),
    }
}

/// The task of a status that is set, where that is answered so, if there is one. `AllocError` where no memory is left.
fn task_of_status(
    alloc: Global,
    key: &Key,
    status: Status,
    replicated: bool,
    moment: Moment,
    reply: &Reply,
    held: Option<&SharedInstance>,
) -> Result<Option<Task>, AllocError>
    ensures { IfOk result (λ t. (last_dirty : Option ℕ) → t ≡ task_for (Command.SetStatus key.now status last_dirty replicated) moment reply.now (option_copied held.entry)) }
{
    match reply {
        Reply::Done if !replicated => task(
            alloc,
            Action::StatusUpdate,
            key,
            Some(status),
            held,
            moment,
        ),
        _ => Ok(None),
    }
}

/// The task of a status that is unset, where that is answered so, if there is one. `AllocError` where no memory is left.
fn task_of_unset(
    alloc: Global,
    key: &Key,
    replicated: bool,
    moment: Moment,
    reply: &Reply,
    held: Option<&SharedInstance>,
) -> Result<Option<Task>, AllocError>
    ensures { IfOk result (λ t. (suggested : Option own.Status) (last_dirty : Option ℕ) → t ≡ task_for (Command.UnsetStatus key.now suggested last_dirty replicated) moment reply.now (option_copied held.entry)) }
{
    match reply {
        Reply::Done if !replicated => {
            let status = status_of(held);
            task(
                alloc,
                Action::DeleteStatusOverride,
                key,
                status,
                held,
                moment,
            )
        }
        _ => Ok(None),
    }
}

/// The task that a step leaves for each peer, if there is one. `AllocError` where no memory is left.
pub(crate) fn task_for(
    alloc: Global,
    command: &Command,
    moment: Moment,
    reply: &Reply,
    held: Option<&SharedInstance>,
) -> Result<Option<Task>, AllocError>
    ensures { IfOk result (λ t. t ≡ task_for command.now moment reply.now (option_copied held.entry)) }
{
    match command {
        Command::Register {
            instance,
            replicated,
        } => task_of_registration(alloc, instance, *replicated, moment, reply, held),
        Command::Renew {
            key,
            replicated,
            ..
        } => task_of_renewal(alloc, key, *replicated, moment, reply, held),
        Command::Cancel { key, replicated } => {
            task_of_cancel(alloc, key, *replicated, moment, reply)
        }
        Command::SetStatus {
            key,
            status,
            replicated,
            ..
        } => task_of_status(alloc, key, *status, *replicated, moment, reply, held),
        Command::UnsetStatus {
            key,
            replicated,
            ..
        } => task_of_unset(alloc, key, *replicated, moment, reply, held),
        _ => Ok(None),
    }
}

/// The key of the lease that a command names.
pub(crate) fn key_of(command: &Command) -> Option<&Key>
    ensures { option_copied result ≡ key_of command.now }
{
    match command {
        Command::Register { instance, .. } | Command::Adopt { instance } => Some(instance.key()),
        Command::Renew { key, .. }
        | Command::Cancel { key, .. }
        | Command::SetStatus { key, .. }
        | Command::UnsetStatus { key, .. } => Some(key),
        _ => None,
    }
}
