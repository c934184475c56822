//! The names of tasks.
ghost use Rattle.std.specs.Prelude.{◌≡◌, IfOk};
ghost use Rattle.eu_base.specs.Values.{place_of_action};
ghost use Rattle.eu_audit_queue.specs.Names.{name_of};

use eu_base::{Action, Key, Task};
use std::alloc::{AllocError, Global};

/// The name of a task, which is its action and its key. Names are in order: by their actions' places, and then by their keys.
#[derive(Debug, Drop, PartialEq, Eq, PartialOrd, Ord, Hash)]
pub(crate) struct Name {
    /// The place of the action among the five, from 0 on.
    action: u8,
    /// The lease of which the task speaks.
    key: Key,
}

impl Name {
    /// The name of a task. `AllocError` where no memory is left.
    pub(crate) fn of(alloc: Global, task: &Task) -> Result<Name, AllocError>
        ensures { IfOk result (λ name. name ≡ name_of task.now) }
    {
        let key = task.key.copy(alloc)?;
        Ok(Name {
            action: place_of(task.action),
            key,
        })
    }
}

/// The place of an action among the five, from 0 on.
fn place_of(action: Action) -> u8
    ensures { result ≡ place_of_action action }
{
    match action {
        Action::Register => 0,
        Action::Heartbeat => 1,
        Action::Cancel => 2,
        Action::StatusUpdate => 3,
        Action::DeleteStatusOverride => 4,
    }
}
