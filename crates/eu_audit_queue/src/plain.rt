//! Whether tasks are plain forms.
ghost use Rattle.std.specs.Prelude.{◌≡◌};
ghost use Rattle.std.specs.List.{list_all};
ghost use Rattle.eu_audit_queue.specs.PlainQueue.{is_plain_task};

use eu_base::{Action, Task};

/// Whether each of the tasks has just what its action has. Takes no memory.
pub(crate) fn are_plain(tasks: &[Task]) -> bool
    ensures { result ≡ list_all is_plain_task tasks.now }
{
    for task in tasks {
        if !is_plain_task(task) {
            return false;
        }
    }
    true
}

/// Whether a task has just what its action has.
fn is_plain_task(task: &Task) -> bool
    ensures { result ≡ is_plain_task task.now }
{
    match (task.action, task.status, &task.instance) {
        (Action::Cancel, None, None) => true,
        (Action::Register | Action::Heartbeat, None, Some(instance)) => *instance.key() == task.key,
        (Action::StatusUpdate | Action::DeleteStatusOverride, Some(_), Some(instance)) => {
            *instance.key() == task.key
        }
        _ => false,
    }
}
