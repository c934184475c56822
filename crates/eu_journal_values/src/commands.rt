//! Commands from JSON, and to JSON.
ghost use Rattle.std.specs.Prelude.{◌≡◌, IfOk, map};
ghost use Rattle.serde_json.specs.Find.{as_array};
ghost use Rattle.serde_json.specs.View.{items_view, view};
ghost use Rattle.eu_journal_values.specs.Answered.{Equals, Gives};
ghost use Rattle.eu_journal_values.specs.Members.{needed};
ghost use Rattle.eu_journal_values.specs.Commands.{adopt_of, below_16, cancel_of, code_of, codes_of, command_named, command_of, drain_of, items_in, landed_of, lease_command, lost_of, reconfigure_of, register_of, renew_of, set_status_of, unset_status_of, codes_tree, command_tree};
ghost use Rattle.eu_journal_values.specs.Trees.{whole_number};

use crate::faults::LineFault;
use crate::members::{member_in, small_in, status_in, text_in, truth_in};
use crate::read::{config_from, instance_in, key_in, optional_stamp_in, optional_status_in};
use crate::write::{
    config_value, instance_value, key_value, optional_stamp_value, optional_status_value,
    status_value,
};
use eu_base::{Codes, Config, Key, SharedInstance, Stamp, Status};
use eu_model::Command;
use serde_json::{Value, json};
use std::alloc::{AllocError, Global};

/// The number, where it is below 2^16. Else `NotALine`.
fn below_16(number: u64) -> Result<u16, LineFault>
    ensures { result ≡ below_16 number }
{
    if number < 1 << 16 {
        Ok(number as u16)
    } else {
        Err(LineFault::NotALine)
    }
}

/// The code of a value. `NotALine` where it is none.
fn code_of(value: &Value) -> Result<u16, LineFault>
    ensures { result ≡ code_of (view value.now) }
{
    let number = value.as_u64().ok_or(LineFault::NotALine)?;
    below_16(number)
}

/// The codes of values, in order. `NotALine` where one is none; `OutOfMemory`.
fn codes_of(alloc: Global, values: &Vec<Value>) -> Result<Codes, LineFault>
    ensures { Gives result (codes_of (items_view values.now.items)) }
{
    let mut codes = Vec::with_capacity(alloc, values.len())?;
    for value in values {
        codes.push(code_of(value)?)?;
    }
    Ok(Codes::new(codes))
}

/// The items of a member. `NotALine` where it is no array.
fn items_in<'v>(object: &'v Value, name: &str) -> Result<&'v Vec<Value>, LineFault>
    ensures { Equals (λ v. items_view v.now.items) result (items_in name.now (view object.now)) }
{
    member_in(object, name)?
        .as_array()
        .ok_or(LineFault::NotALine)
}

/// The registration of an object, and its instance's rest. `NotALine` where it is none; `OutOfMemory`.
#[tactic(auto, unfolding(crate::specs::Commands::register_of))]
fn register_of(alloc: Global, rest: &Value, object: &Value) -> Result<Command, LineFault>
    ensures { Gives result (register_of (view rest.now) (view object.now)) }
{
    let instance = instance_in(alloc, rest, object)?;
    let replicated = truth_in(object, "replicated")?;
    Ok(Command::Register {
        instance,
        replicated,
    })
}

/// The renewal of an object. `NotALine` where it is none; `OutOfMemory`.
#[tactic(auto, unfolding(crate::specs::Commands::renew_of))]
fn renew_of(alloc: Global, object: &Value) -> Result<Command, LineFault>
    ensures { Gives result (renew_of (view object.now)) }
{
    let key = key_in(alloc, object)?;
    let last_dirty = optional_stamp_in(object, "dirty")?;
    let overridden = optional_status_in(object, "overridden")?;
    let replicated = truth_in(object, "replicated")?;
    Ok(Command::Renew {
        key,
        last_dirty,
        overridden,
        replicated,
    })
}

/// The cancel of an object. `NotALine` where it is none; `OutOfMemory`.
#[tactic(auto, unfolding(crate::specs::Commands::cancel_of))]
fn cancel_of(alloc: Global, object: &Value) -> Result<Command, LineFault>
    ensures { Gives result (cancel_of (view object.now)) }
{
    let key = key_in(alloc, object)?;
    let replicated = truth_in(object, "replicated")?;
    Ok(Command::Cancel { key, replicated })
}

/// The status that an object sets. `NotALine` where it sets none; `OutOfMemory`.
#[tactic(auto, unfolding(crate::specs::Commands::set_status_of))]
fn set_status_of(alloc: Global, object: &Value) -> Result<Command, LineFault>
    ensures { Gives result (set_status_of (view object.now)) }
{
    let key = key_in(alloc, object)?;
    let status = status_in(object, "status")?;
    let last_dirty = optional_stamp_in(object, "dirty")?;
    let replicated = truth_in(object, "replicated")?;
    Ok(Command::SetStatus {
        key,
        status,
        last_dirty,
        replicated,
    })
}

/// The override that an object takes back. `NotALine` where it takes none back; `OutOfMemory`.
#[tactic(auto, unfolding(crate::specs::Commands::unset_status_of))]
fn unset_status_of(alloc: Global, object: &Value) -> Result<Command, LineFault>
    ensures { Gives result (unset_status_of (view object.now)) }
{
    let key = key_in(alloc, object)?;
    let status = optional_status_in(object, "status")?;
    let last_dirty = optional_stamp_in(object, "dirty")?;
    let replicated = truth_in(object, "replicated")?;
    Ok(Command::UnsetStatus {
        key,
        status,
        last_dirty,
        replicated,
    })
}

/// The adoption of an object, and its instance's rest. `NotALine` where it is none; `OutOfMemory`.
#[tactic(auto, unfolding(crate::specs::Commands::adopt_of))]
fn adopt_of(alloc: Global, rest: &Value, object: &Value) -> Result<Command, LineFault>
    ensures { Gives result (adopt_of (view rest.now) (view object.now)) }
{
    let instance = instance_in(alloc, rest, object)?;
    Ok(Command::Adopt { instance })
}

/// The change of the settings of an object. `NotALine` where it is none.
#[tactic(auto, unfolding(crate::specs::Commands::reconfigure_of))]
fn reconfigure_of(object: &Value) -> Result<Command, LineFault>
    ensures { Gives result (reconfigure_of (view object.now)) }
{
    let config = config_from(member_in(object, "settings")?)?;
    Ok(Command::Reconfigure { config })
}

/// The drain of an object. `NotALine` where it is none.
#[tactic(auto, unfolding(crate::specs::Commands::drain_of))]
fn drain_of(object: &Value) -> Result<Command, LineFault>
    ensures { Gives result (drain_of (view object.now)) }
{
    let peer = small_in(object, "peer")?;
    Ok(Command::Drain { peer })
}

/// The landing of an object. `NotALine` where it is none; `OutOfMemory`.
#[tactic(auto, unfolding(crate::specs::Commands::landed_of))]
fn landed_of(alloc: Global, object: &Value) -> Result<Command, LineFault>
    ensures { Gives result (landed_of (view object.now)) }
{
    let peer = small_in(object, "peer")?;
    let codes = codes_of(alloc, items_in(object, "codes")?)?;
    Ok(Command::Landed { peer, codes })
}

/// The loss of an object. `NotALine` where it is none.
#[tactic(auto, unfolding(crate::specs::Commands::lost_of))]
fn lost_of(object: &Value) -> Result<Command, LineFault>
    ensures { Gives result (lost_of (view object.now)) }
{
    let peer = small_in(object, "peer")?;
    Ok(Command::Lost { peer })
}

/// The command of that name about a lease. `NotALine` where it is none; `OutOfMemory`.
fn lease_command(
    alloc: Global,
    name: &str,
    rest: &Value,
    object: &Value,
) -> Result<Command, LineFault>
    ensures { Gives result (lease_command name.now (view rest.now) (view object.now)) }
{
    match name {
        "Register" => register_of(alloc, rest, object),
        "Renew" => renew_of(alloc, object),
        "Cancel" => cancel_of(alloc, object),
        "SetStatus" => set_status_of(alloc, object),
        "UnsetStatus" => unset_status_of(alloc, object),
        "Adopt" => adopt_of(alloc, rest, object),
        _ => Err(LineFault::NotALine),
    }
}

/// The command of that name. `NotALine` where it is none; `OutOfMemory`.
fn command_named(
    alloc: Global,
    name: &str,
    rest: &Value,
    object: &Value,
) -> Result<Command, LineFault>
    ensures { Gives result (command_named name.now (view rest.now) (view object.now)) }
{
    match name {
        "Roll" => Ok(Command::EndMinute),
        "Update" => Ok(Command::Update),
        "Reconfigure" => reconfigure_of(object),
        "Evict" => Ok(Command::Evict),
        "Drain" => drain_of(object),
        "Landed" => landed_of(alloc, object),
        "Lost" => lost_of(object),
        _ => lease_command(alloc, name, rest, object),
    }
}

/// The command of an object, and its instance's rest. `NotALine` where it is none; `OutOfMemory`.
#[tactic(auto, unfolding(crate::specs::Commands::command_of))]
pub fn command_of(alloc: Global, rest: &Value, object: &Value) -> Result<Command, LineFault>
    ensures { Gives result (command_of (view rest.now) (view object.now)) }
{
    let name = text_in(object, "name")?;
    command_named(alloc, name, rest, object)
}

/// The JSON of a registration. `AllocError` where no memory is left.
fn register_value(
    alloc: Global,
    instance: &SharedInstance,
    replicated: bool,
) -> Result<Value, AllocError>
    ensures { IfOk result (λ v. view v ≡ command_tree (Command.Register instance.now replicated)) }
{
    let instance = instance_value(alloc, instance)?;
    json!(in alloc; {
        "instance": instance,
        "name": "Register",
        "replicated": replicated,
    })
}

/// The JSON of a renewal. `AllocError` where no memory is left.
fn renew_value(
    alloc: Global,
    key: &Key,
    last_dirty: Option<Stamp>,
    overridden: Option<Status>,
    replicated: bool,
) -> Result<Value, AllocError>
    ensures { IfOk result (λ v. view v ≡ command_tree (Command.Renew key.now last_dirty overridden replicated)) }
{
    let key = key_value(alloc, key)?;
    let overridden = optional_status_value(alloc, overridden)?;
    json!(in alloc; {
        "dirty": optional_stamp_value(last_dirty),
        "key": key,
        "name": "Renew",
        "overridden": overridden,
        "replicated": replicated,
    })
}

/// The JSON of a cancel. `AllocError` where no memory is left.
fn cancel_value(alloc: Global, key: &Key, replicated: bool) -> Result<Value, AllocError>
    ensures { IfOk result (λ v. view v ≡ command_tree (Command.Cancel key.now replicated)) }
{
    let key = key_value(alloc, key)?;
    json!(in alloc; {
        "key": key,
        "name": "Cancel",
        "replicated": replicated,
    })
}

/// The JSON of a status that is set. `AllocError` where no memory is left.
fn set_status_value(
    alloc: Global,
    key: &Key,
    status: Status,
    last_dirty: Option<Stamp>,
    replicated: bool,
) -> Result<Value, AllocError>
    ensures { IfOk result (λ v. view v ≡ command_tree (Command.SetStatus key.now status last_dirty replicated)) }
{
    let key = key_value(alloc, key)?;
    let status = status_value(alloc, status)?;
    json!(in alloc; {
        "dirty": optional_stamp_value(last_dirty),
        "key": key,
        "name": "SetStatus",
        "replicated": replicated,
        "status": status,
    })
}

/// The JSON of an override that is taken back. `AllocError` where no memory is left.
fn unset_status_value(
    alloc: Global,
    key: &Key,
    status: Option<Status>,
    last_dirty: Option<Stamp>,
    replicated: bool,
) -> Result<Value, AllocError>
    ensures { IfOk result (λ v. view v ≡ command_tree (Command.UnsetStatus key.now status last_dirty replicated)) }
{
    let key = key_value(alloc, key)?;
    let status = optional_status_value(alloc, status)?;
    json!(in alloc; {
        "dirty": optional_stamp_value(last_dirty),
        "key": key,
        "name": "UnsetStatus",
        "replicated": replicated,
        "status": status,
    })
}

/// The JSON of an adoption. `AllocError` where no memory is left.
fn adopt_value(alloc: Global, instance: &SharedInstance) -> Result<Value, AllocError>
    ensures { IfOk result (λ v. view v ≡ command_tree (Command.Adopt instance.now)) }
{
    let instance = instance_value(alloc, instance)?;
    json!(in alloc; {
        "instance": instance,
        "name": "Adopt",
    })
}

/// The JSON of a change of the settings. `AllocError` where no memory is left.
fn reconfigure_value(alloc: Global, config: Config) -> Result<Value, AllocError>
    ensures { IfOk result (λ v. view v ≡ command_tree (Command.Reconfigure config)) }
{
    let settings = config_value(alloc, config)?;
    json!(in alloc; {
        "name": "Reconfigure",
        "settings": settings,
    })
}

/// The numbers of codes. `AllocError` where no memory is left.
fn code_values(alloc: Global, codes: &[u16]) -> Result<Vec<Value>, AllocError>
    ensures { IfOk result (λ v. map view v.items ≡ map whole_number codes.now) }
{
    let mut values = Vec::with_capacity(alloc, codes.len())?;
    for code in codes {
        values.push(Value::from(*code))?;
    }
    Ok(values)
}

/// The JSON of a batch that has landed. `AllocError` where no memory is left.
fn landed_value(alloc: Global, peer: u32, codes: &Codes) -> Result<Value, AllocError>
    ensures { IfOk result (λ v. view v ≡ command_tree (Command.Landed peer codes.now)) }
{
    let codes = Value::Array(code_values(alloc, codes.as_slice())?);
    json!(in alloc; {
        "codes": codes,
        "name": "Landed",
        "peer": peer,
    })
}

/// The JSON of a command, but for its instance's rest. `AllocError` where no memory is left.
pub fn command_value(alloc: Global, command: &Command) -> Result<Value, AllocError>
    ensures { IfOk result (λ v. view v ≡ command_tree command.now) }
{
    match command {
        Command::Register {
            instance,
            replicated,
        } => register_value(alloc, instance, *replicated),
        Command::Renew {
            key,
            last_dirty,
            overridden,
            replicated,
        } => renew_value(alloc, key, *last_dirty, *overridden, *replicated),
        Command::Cancel { key, replicated } => cancel_value(alloc, key, *replicated),
        Command::SetStatus {
            key,
            status,
            last_dirty,
            replicated,
        } => set_status_value(alloc, key, *status, *last_dirty, *replicated),
        Command::UnsetStatus {
            key,
            status,
            last_dirty,
            replicated,
        } => unset_status_value(alloc, key, *status, *last_dirty, *replicated),
        Command::Adopt { instance } => adopt_value(alloc, instance),
        Command::EndMinute => json!(in alloc; { "name": "Roll" }),
        Command::Update => json!(in alloc; { "name": "Update" }),
        Command::Reconfigure { config } => reconfigure_value(alloc, *config),
        Command::Evict => json!(in alloc; { "name": "Evict" }),
        Command::Drain { peer } => json!(in alloc; { "name": "Drain", "peer": *peer }),
        Command::Landed { peer, codes } => landed_value(alloc, *peer, codes),
        Command::Lost { peer } => json!(in alloc; { "name": "Lost", "peer": *peer }),
    }
}
