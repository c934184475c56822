//! What tasks ask their receiver for.
ghost use Rattle.std.specs.Prelude.{◌≡◌, map, IfOk};
ghost use Rattle.eu_json.specs.BatchLaw.{asked_by};

use eu_base::{Action, Task};
use eu_model::Command;
use std::alloc::{AllocError, Global};

/// The command that a task asks its receiver for. None where the task lacks what its action needs. `AllocError` where no memory is
/// left.
pub fn command_of(alloc: Global, task: &Task) -> Result<Option<Command>, AllocError>
    ensures { IfOk result (λ c. c ≡ asked_by task.now) }
{
    let replicated = true;
    match (task.action, task.status, &task.instance) {
        (Action::Cancel, _, _) => Ok(Some(Command::Cancel {
            key: task.key.copy(alloc)?,
            replicated,
        })),
        (Action::Register, _, Some(instance)) => Ok(Some(Command::Register {
            instance: instance.share()?,
            replicated,
        })),
        (Action::Heartbeat, _, Some(instance)) => Ok(Some(Command::Renew {
            key: task.key.copy(alloc)?,
            last_dirty: Some(instance.last_dirty()),
            overridden: Some(instance.overridden()),
            replicated,
        })),
        (Action::StatusUpdate, Some(status), Some(instance)) => Ok(Some(Command::SetStatus {
            key: task.key.copy(alloc)?,
            status,
            last_dirty: Some(instance.last_dirty()),
            replicated,
        })),
        (Action::DeleteStatusOverride, status, Some(instance)) => Ok(Some(Command::UnsetStatus {
            key: task.key.copy(alloc)?,
            status,
            last_dirty: Some(instance.last_dirty()),
            replicated,
        })),
        _ => Ok(None),
    }
}

/// The commands of a batch, in order.
pub fn commands_of(alloc: Global, batch: &[Task]) -> Result<Vec<Option<Command>>, AllocError>
    ensures { IfOk result (λ commands. commands.items ≡ map asked_by batch.now) }
{
    let mut commands = Vec::with_capacity(alloc, batch.len())?;
    for task in batch {
        commands.push(command_of(alloc, task)?)?;
    }
    Ok(commands)
}
