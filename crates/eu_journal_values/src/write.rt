//! Values to JSON.
ghost use Rattle.std.specs.Prelude.{◌≡◌, IfOk};
ghost use Rattle.serde_json.specs.View.{view};
ghost use Rattle.eu_journal_values.specs.Trees.{config_tree, instance_tree, key_tree, optional, status_tree, task_tree, times_tree, whole_number};

use eu_base::{Config, Key, SharedInstance, Stamp, Status, Task};
use eu_model::Times;
use serde_json::{Value, json};
use std::alloc::{AllocError, Global};

/// The JSON of a status. `AllocError` where no memory is left.
pub fn status_value(alloc: Global, status: Status) -> Result<Value, AllocError>
    ensures { IfOk result (λ v. view v ≡ status_tree status) }
{
    json!(in alloc; status.name())
}

/// The JSON of a status that may be there. `AllocError` where no memory is left.
pub fn optional_status_value(alloc: Global, status: Option<Status>) -> Result<Value, AllocError>
    ensures { IfOk result (λ v. view v ≡ optional status_tree status) }
{
    match status {
        Some(status) => status_value(alloc, status),
        None => Ok(Value::Null),
    }
}

/// The JSON of a stamp that may be there.
pub fn optional_stamp_value(stamp: Option<Stamp>) -> Value
    ensures { view result ≡ optional whole_number stamp }
{
    match stamp {
        Some(stamp) => Value::from(stamp.value()),
        None => Value::Null,
    }
}

/// The JSON of a key. `AllocError` where no memory is left.
pub fn key_value(alloc: Global, key: &Key) -> Result<Value, AllocError>
    ensures { IfOk result (λ v. view v ≡ key_tree key.now) }
{
    json!(in alloc; {
        "app": key.app.as_str(),
        "id": key.id.as_str(),
    })
}

/// The JSON of settings. `AllocError` where no memory is left.
pub fn config_value(alloc: Global, config: Config) -> Result<Value, AllocError>
    ensures { IfOk result (λ v. view v ≡ config_tree config) }
{
    json!(in alloc; {
        "evict_ms": config.evict_ms,
        "interval": config.interval.secs(),
        "percent": config.percent.value(),
        "preservation": config.preservation,
    })
}

/// The JSON of a lease's moments. `AllocError` where no memory is left.
pub fn times_value(alloc: Global, times: Times) -> Result<Value, AllocError>
    ensures { IfOk result (λ v. view v ≡ times_tree times) }
{
    json!(in alloc; {
        "registered": times.registered,
        "up": times.up,
        "updated": times.updated,
    })
}

/// The JSON of an instance, but for its rest. `AllocError` where no memory is left.
pub fn instance_value(alloc: Global, instance: &SharedInstance) -> Result<Value, AllocError>
    ensures { IfOk result (λ v. view v ≡ instance_tree instance.now) }
{
    let key = key_value(alloc, instance.key())?;
    json!(in alloc; {
        "dirty": instance.last_dirty().value(),
        "interval": instance.interval().secs(),
        "key": key,
        "overridden": instance.overridden().name(),
        "secs": instance.secs().secs(),
        "status": instance.status().name(),
    })
}

/// The JSON of an instance that may be there, but for its rest. `AllocError` where no memory is left.
pub fn optional_instance_value(
    alloc: Global,
    instance: &Option<SharedInstance>,
) -> Result<Value, AllocError>
    ensures { IfOk result (λ v. view v ≡ optional instance_tree instance.now) }
{
    match instance {
        Some(instance) => instance_value(alloc, instance),
        None => Ok(Value::Null),
    }
}

/// The JSON of a task, but for its instance's rest. `AllocError` where no memory is left.
pub fn task_value(alloc: Global, task: &Task) -> Result<Value, AllocError>
    ensures { IfOk result (λ v. view v ≡ task_tree task.now) }
{
    let instance = optional_instance_value(alloc, &task.instance)?;
    let key = key_value(alloc, &task.key)?;
    let status = optional_status_value(alloc, task.status)?;
    json!(in alloc; {
        "action": task.action.name(),
        "instance": instance,
        "key": key,
        "queued": task.queued.ms(),
        "status": status,
    })
}
