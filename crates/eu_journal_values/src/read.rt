//! Values from JSON.
ghost use Rattle.std.specs.Prelude.{◌≡◌};
ghost use Rattle.serde_json.specs.View.{view};
ghost use Rattle.eu_journal_values.specs.Answered.{Gives};
ghost use Rattle.eu_journal_values.specs.Members.{optional_in};
ghost use Rattle.eu_journal_values.specs.Reading.{app_of, config_from, instance_from, instance_in, key_in, key_of, name_of, optional_instance_in, rest_of, task_of, times_of};
ghost use Rattle.eu_journal_values.specs.Members as members;

use crate::faults::LineFault;
use crate::members::{
    action_in, lease_secs_in, member_in, moment_in, number_in, renewal_secs_in, small_in, stamp_in,
    status_in, text_in, truth_in,
};
use eu_base::{
    App, Config, Fault, Id, Instance, Key, Moment, Rest, SharedInstance, Stamp, Status, Task,
};
use eu_model::Times;
use serde_json::Value;
use std::alloc::Global;

/// The application of that name. `NotALine` where it is no name; `OutOfMemory`.
#[tactic(auto, unfolding(crate::specs::Reading::app_of))]
fn app_of(alloc: Global, text: &str) -> Result<App, LineFault>
    ensures { Gives result (app_of text.now) }
{
    match App::read(alloc, text) {
        Ok(app) => Ok(app),
        Err(Fault::OutOfMemory) => Err(LineFault::OutOfMemory),
        Err(_) => Err(LineFault::NotALine),
    }
}

/// The id of that name. `NotALine` where it is no name; `OutOfMemory`.
pub fn id_of(alloc: Global, text: &str) -> Result<Id, LineFault>
    ensures { Gives result (name_of text.now) }
{
    match Id::read(alloc, text) {
        Ok(id) => Ok(id),
        Err(Fault::OutOfMemory) => Err(LineFault::OutOfMemory),
        Err(_) => Err(LineFault::NotALine),
    }
}

/// The key of an object. `NotALine` where a name is none; `OutOfMemory`.
#[tactic(auto, unfolding(crate::specs::Reading::key_of))]
fn key_of(alloc: Global, object: &Value) -> Result<Key, LineFault>
    ensures { Gives result (key_of (view object.now)) }
{
    let app = app_of(alloc, text_in(object, "app")?)?;
    let id = id_of(alloc, text_in(object, "id")?)?;
    Ok(Key { app, id })
}

/// The key of a member `key`. `NotALine` where it is none; `OutOfMemory`.
#[tactic(auto, unfolding(crate::specs::Reading::key_in))]
pub fn key_in(alloc: Global, object: &Value) -> Result<Key, LineFault>
    ensures { Gives result (key_in (view object.now)) }
{
    key_of(alloc, member_in(object, "key")?)
}

/// The stamp of a member that may be null. `NotALine` where it is neither.
pub fn optional_stamp_in(object: &Value, name: &str) -> Result<Option<Stamp>, LineFault>
    ensures { result ≡ optional_in members.stamp_in name.now (view object.now) }
{
    match member_in(object, name)? {
        Value::Null => Ok(None),
        _ => Ok(Some(stamp_in(object, name)?)),
    }
}

/// The status of a member that may be null. `NotALine` where it is neither.
pub fn optional_status_in(object: &Value, name: &str) -> Result<Option<Status>, LineFault>
    ensures { result ≡ optional_in members.status_in name.now (view object.now) }
{
    match member_in(object, name)? {
        Value::Null => Ok(None),
        _ => Ok(Some(status_in(object, name)?)),
    }
}

/// The settings of an object. `NotALine` where they are none.
#[tactic(auto, unfolding(crate::specs::Reading::config_from))]
pub fn config_from(object: &Value) -> Result<Config, LineFault>
    ensures { result ≡ config_from (view object.now) }
{
    let evict_ms = small_in(object, "evict_ms")?;
    let interval = small_in(object, "interval")?;
    let percent = small_in(object, "percent")?;
    let preservation = truth_in(object, "preservation")?;
    Config::of_values(preservation, percent, interval, evict_ms).ok_or(LineFault::NotALine)
}

/// The moments of a lease. `NotALine` where they are none.
#[tactic(auto, unfolding(crate::specs::Reading::times_of))]
pub fn times_of(object: &Value) -> Result<Times, LineFault>
    ensures { result ≡ times_of (view object.now) }
{
    let registered = number_in(object, "registered")?;
    let up = number_in(object, "up")?;
    let updated = number_in(object, "updated")?;
    Ok(Times {
        registered,
        updated,
        up,
    })
}

/// The rest of an instance. `NotALine` where it isn't an object, or has a number that isn't whole; `OutOfMemory`.
fn rest_of(alloc: Global, value: &Value) -> Result<Rest, LineFault>
    ensures { Gives result (rest_of (view value.now)) }
{
    let copy = value.clone()?;
    let rest = Rest::new(alloc, copy)?;
    rest.ok_or(LineFault::NotALine)
}

/// The instance of an object and its rest. `NotALine` where it is none; `OutOfMemory`.
#[tactic(auto, unfolding(crate::specs::Reading::instance_from))]
pub fn instance_from(
    alloc: Global,
    rest: &Value,
    object: &Value,
) -> Result<SharedInstance, LineFault>
    ensures { Gives result (instance_from (view rest.now) (view object.now)) }
{
    let key = key_in(alloc, object)?;
    let status = status_in(object, "status")?;
    let overridden = status_in(object, "overridden")?;
    let last_dirty = stamp_in(object, "dirty")?;
    let secs = lease_secs_in(object, "secs")?;
    let interval = renewal_secs_in(object, "interval")?;
    let rest = rest_of(alloc, rest)?;
    Ok(SharedInstance::new(
        alloc,
        Instance {
            key,
            status,
            overridden,
            last_dirty,
            secs,
            interval,
            rest,
        },
    )?)
}

/// The instance of a member `instance`, and its rest. `NotALine` where it is none; `OutOfMemory`.
#[tactic(auto, unfolding(crate::specs::Reading::instance_in))]
pub fn instance_in(alloc: Global, rest: &Value, object: &Value) -> Result<SharedInstance, LineFault>
    ensures { Gives result (instance_in (view rest.now) (view object.now)) }
{
    instance_from(alloc, rest, member_in(object, "instance")?)
}

/// The instance of a member `instance` that may be null, and its rest. `NotALine` where it is neither; `OutOfMemory`.
fn optional_instance_in(
    alloc: Global,
    rest: &Value,
    object: &Value,
) -> Result<Option<SharedInstance>, LineFault>
    ensures { Gives result (optional_instance_in (view rest.now) (view object.now)) }
{
    match member_in(object, "instance")? {
        Value::Null => Ok(None),
        _ => Ok(Some(instance_in(alloc, rest, object)?)),
    }
}

/// The task of an object, and its instance's rest. `NotALine` where it is none; `OutOfMemory`.
#[tactic(auto, unfolding(crate::specs::Reading::task_of))]
pub fn task_of(alloc: Global, rest: &Value, object: &Value) -> Result<Task, LineFault>
    ensures { Gives result (task_of (view rest.now) (view object.now)) }
{
    let action = action_in(object, "action")?;
    let key = key_in(alloc, object)?;
    let status = optional_status_in(object, "status")?;
    let instance = optional_instance_in(alloc, rest, object)?;
    let queued = moment_in(object, "queued")?;
    Ok(Task {
        action,
        key,
        status,
        instance,
        queued,
    })
}
