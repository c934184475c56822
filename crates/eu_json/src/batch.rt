//! Batches of tasks from JSON.
ghost use Rattle.std.specs.Prelude.{◌≡◌, ◌≢◌, [], codes, ok_or, option_and_then, Err, IfErr, IsOk, Ok, OnOk};
ghost use Rattle.std.specs.Option.{option_map};
ghost use Rattle.std.specs.Str.{str_to_ascii_uppercase};
ghost use Rattle.serde_json.specs.Find.{as_array, get};
ghost use Rattle.serde_json.specs.View.{items_view, view};
ghost use Rattle.eu_json.specs.Batch.{action_in, app_within, batch_of, command_of, commands_in, last_dirty_in, given, instance_in, items_in, key_in, name_within, of_item, of_items, of_text, stamp_given, status_given, status_needed};
ghost use Rattle.eu_json.specs.Parts.{BatchFits, InfoFits, InfosFit, stands};
ghost use Rattle.eu_json.specs.Tree.{text_at};
ghost use Rattle.eu_base.specs.Limits.{most_sent};
ghost use Rattle.eu_base.specs.Gives.{Gives, result_map};

use crate::judge::judge_object;
use crate::members::{take, text_at};
use crate::numbers::stamp_in;
use crate::read::{is_whole, of_object, parse};
use crate::statuses::status_in;
use eu_base::{
    Action, App, Fault, Id, Key, LONGEST_NAME, MOST_SENT, Moment, SharedInstance, Stamp, Status,
};
use eu_model::Command;
use serde_json::Value;
use std::alloc::Global;

/// A member that is there and isn't null.
fn given(member: Option<&Value>) -> Option<&Value>
    ensures { option_map (λ v. view v.now) result ≡ given (option_map (λ v. view v.now) member.entry) }
{
    match member {
        None | Some(Value::Null) => None,
        Some(value) => Some(value),
    }
}

/// The stamp of an item, if one is given. `BadStamp` where it is none.
fn last_dirty_in(item: &Value, moment: Moment) -> Result<Option<Stamp>, Fault>
    ensures said { result ≡ last_dirty_in moment (view item.now) }
    ensures memory { result ≢ Err Fault.OutOfMemory }
{
    let Some(member) = given(item.get("lastDirtyTimestamp")) else {
        return Ok(None);
    };
    let stamp = stamp_in(moment, Some(member))?;
    Ok(Some(stamp))
}

/// The status that a member names, if one is given; `Unknown` where it names none.
fn status_given(member: Option<&Value>) -> Option<Status>
    ensures { result ≡ status_given (option_map (λ v. view v.now) member.entry) }
{
    let member = given(member)?;
    Some(status_in(Status::Unknown, Some(member)))
}

/// The status that a member names. `BadBatch` where it names none.
fn status_needed(member: Option<&Value>) -> Result<Status, Fault>
    ensures said { result ≡ status_needed (option_map (λ v. view v.now) member.entry) }
    ensures memory { result ≢ Err Fault.OutOfMemory }
{
    let Some(text) = member.and_then(Value::as_str) else {
        return Err(Fault::BadBatch);
    };
    Status::read_any_case(text).ok_or(Fault::BadBatch)
}

/// The action of an item. `BadBatch` where it names none.
fn action_in(item: &Value) -> Result<Action, Fault>
    ensures said { result ≡ action_in (view item.now) }
    ensures memory { result ≢ Err Fault.OutOfMemory }
{
    Action::read(text_at(item, "action")).ok_or(Fault::BadBatch)
}

/// The application of that name. `BadBatch` where it is no name; `OutOfMemory`.
#[tactic(auto, unfolding(crate::specs::Batch::app_within))]
fn app_within(alloc: Global, text: &str) -> Result<App, Fault>
    ensures said { Gives result (app_within text.now) }
    ensures memory { result ≡ Err Fault.OutOfMemory → IsOk (app_within text.now) }
{
    match App::read(alloc, text) {
        Ok(app) => Ok(app),
        Err(Fault::OutOfMemory) => Err(Fault::OutOfMemory),
        Err(_) => Err(Fault::BadBatch),
    }
}

/// The id of that name. `BadBatch` where it is no name; `OutOfMemory`.
fn id_within(alloc: Global, text: &str) -> Result<Id, Fault>
    ensures said { Gives result (name_within text.now) }
    ensures memory { result ≡ Err Fault.OutOfMemory → IsOk (name_within text.now) }
{
    match Id::read(alloc, text) {
        Ok(id) => Ok(id),
        Err(Fault::OutOfMemory) => Err(Fault::OutOfMemory),
        Err(_) => Err(Fault::BadBatch),
    }
}

/// The lease of which an item speaks. `BadBatch` where a name is none; `OutOfMemory`.
#[tactic(auto, unfolding(crate::specs::Batch::key_in))]
fn key_in(alloc: Global, item: &Value) -> Result<Key, Fault>
    ensures { Gives result (key_in (view item.now)) }
{
    let app = app_within(alloc, text_at(item, "appName"))?;
    let id = id_within(alloc, text_at(item, "id"))?;
    Ok(Key { app, id })
}

/// The instance of an item, with the faults of `read_instance`.
fn instance_in(
    alloc: Global,
    item: Value,
    app: &App,
    moment: Moment,
) -> Result<SharedInstance, Fault>
    requires { InfoFits (view item) }
    ensures { Gives result (instance_in app.now moment (get (codes "instanceInfo") (view item))) }
{
    let Some(instance) = take(item, "instanceInfo") else {
        return Err(Fault::NotJson);
    };
    if !instance.is_object() {
        return Err(Fault::NotJson);
    }
    if !is_whole(&instance) {
        return Err(Fault::NotWhole);
    }
    of_object(alloc, instance, app, moment)
}

/// The registration that an item asks for, of an instance of that application.
#[tactic(auto, unfolding(crate::specs::Batch::command_of))]
fn register_of(alloc: Global, item: Value, key: Key, moment: Moment) -> Result<Command, Fault>
    requires { InfoFits (view item) }
    ensures { Gives result (command_of moment (view item) key Action.Register) }
{
    let instance = instance_in(alloc, item, &key.app, moment)?;
    Ok(Command::Register {
        instance,
        replicated: true,
    })
}

/// The renewal that an item asks for.
#[tactic(auto, unfolding(crate::specs::Batch::command_of))]
fn renew_of(item: &Value, key: Key, moment: Moment) -> Result<Command, Fault>
    ensures { Gives result (command_of moment (view item.now) key Action.Heartbeat) }
{
    let last_dirty = last_dirty_in(item, moment)?;
    Ok(Command::Renew {
        key,
        last_dirty,
        overridden: status_given(item.get("overriddenStatus")),
        replicated: true,
    })
}

/// The override that an item asks for.
#[tactic(auto, unfolding(crate::specs::Batch::command_of))]
fn set_status_of(item: &Value, key: Key, moment: Moment) -> Result<Command, Fault>
    ensures { Gives result (command_of moment (view item.now) key Action.StatusUpdate) }
{
    let status = status_needed(item.get("status"))?;
    let last_dirty = last_dirty_in(item, moment)?;
    Ok(Command::SetStatus {
        key,
        status,
        last_dirty,
        replicated: true,
    })
}

/// The end of an override that an item asks for.
#[tactic(auto, unfolding(crate::specs::Batch::command_of))]
fn unset_status_of(item: &Value, key: Key, moment: Moment) -> Result<Command, Fault>
    ensures { Gives result (command_of moment (view item.now) key Action.DeleteStatusOverride) }
{
    let last_dirty = last_dirty_in(item, moment)?;
    Ok(Command::UnsetStatus {
        key,
        status: status_given(item.get("status")),
        last_dirty,
        replicated: true,
    })
}

/// What an item asks for.
#[tactic(auto, unfolding(crate::specs::Batch::of_item, crate::specs::Batch::command_of))]
fn of_item(alloc: Global, item: Value, moment: Moment) -> Result<Command, Fault>
    requires { InfoFits (view item) }
    ensures { Gives result (of_item moment (view item)) }
{
    let action = action_in(&item)?;
    let key = key_in(alloc, &item)?;
    match action {
        Action::Register => register_of(alloc, item, key, moment),
        Action::Heartbeat => renew_of(&item, key, moment),
        Action::Cancel => Ok(Command::Cancel {
            key,
            replicated: true,
        }),
        Action::StatusUpdate => set_status_of(&item, key, moment),
        Action::DeleteStatusOverride => unset_status_of(&item, key, moment),
    }
}

/// `BadBatch` where a text is no name.
fn judge_name(text: &str) -> Result<(), Fault>
    ensures ok { OnOk result (name_within text.now ≡ Ok text.now) }
    ensures err { IfErr result (λ f. name_within text.now ≡ Err f) }
    ensures memory { result ≢ Err Fault.OutOfMemory }
{
    if text.is_empty() || text.len() > LONGEST_NAME {
        return Err(Fault::BadBatch);
    }
    Ok(())
}

/// `BadBatch` where an item's application or id is no name.
#[tactic(auto, unfolding(crate::specs::Batch::key_in, crate::specs::Batch::app_within))]
fn judge_key(item: &Value) -> Result<(), Fault>
    ensures ok { OnOk result (key_in (view item.now) ≡ Ok (record { app = str_to_ascii_uppercase (text_at (codes "appName") (view item.now)); id = text_at (codes "id") (view item.now) })) }
    ensures err { IfErr result (λ f. key_in (view item.now) ≡ Err f) }
    ensures memory { result ≢ Err Fault.OutOfMemory }
{
    judge_name(text_at(item, "appName"))?;
    judge_name(text_at(item, "id"))
}

/// What is wrong with the instance of an item: the first fault of `instance_in`.
fn judge_instance(item: &Value, moment: Moment) -> Result<(), Fault>
    requires { InfoFits (view item.now) }
    ensures said { result ≡ stands (instance_in (str_to_ascii_uppercase (text_at (codes "appName") (view item.now))) moment (get (codes "instanceInfo") (view item.now))) }
    ensures memory { result ≢ Err Fault.OutOfMemory }
{
    let Some(instance) = item.get("instanceInfo") else {
        return Err(Fault::NotJson);
    };
    if !instance.is_object() {
        return Err(Fault::NotJson);
    }
    if !is_whole(instance) {
        return Err(Fault::NotWhole);
    }
    judge_object(instance, text_at(item, "appName"), moment)
}

/// What is wrong with an item: the first fault of `of_item`. Takes no memory.
#[tactic(auto, unfolding(crate::specs::Batch::of_item, crate::specs::Batch::command_of))]
fn judge_item(item: &Value, moment: Moment) -> Result<(), Fault>
    requires { InfoFits (view item.now) }
    ensures said { result ≡ stands (of_item moment (view item.now)) }
    ensures memory { result ≢ Err Fault.OutOfMemory }
{
    let action = action_in(item)?;
    judge_key(item)?;
    match action {
        Action::Register => judge_instance(item, moment)?,
        Action::Cancel => {}
        Action::StatusUpdate => {
            status_needed(item.get("status"))?;
            last_dirty_in(item, moment)?;
        }
        Action::Heartbeat | Action::DeleteStatusOverride => {
            last_dirty_in(item, moment)?;
        }
    }
    Ok(())
}

/// What is wrong with the first item with which something is. Takes no memory.
fn judge_items(items: &[Value], moment: Moment) -> Result<(), Fault>
    requires { InfosFit (items_view items.now) }
    ensures said { result ≡ stands (of_items moment (items_view items.now)) }
    ensures memory { result ≢ Err Fault.OutOfMemory }
{
    for item in items {
        judge_item(item, moment)?;
    }
    Ok(())
}

/// What each item asks for, in order.
fn of_items(alloc: Global, items: Vec<Value>, moment: Moment) -> Result<Vec<Command>, Fault>
    requires { InfosFit (items_view items.items) }
    ensures { Gives (result_map (λ v. v.items) result) (of_items moment (items_view items.items)) }
{
    let mut commands = Vec::with_capacity(alloc, items.len())?;
    for item in items {
        commands.push(of_item(alloc, item, moment)?)?;
    }
    Ok(commands)
}

/// The items of an array. None where it isn't one.
fn array_of(value: Value) -> Option<Vec<Value>>
    ensures { option_map (λ v. items_view v.items) result ≡ as_array (view value) }
{
    match value {
        Value::Array(items) => Some(items),
        other => {
            drop(other);
            None
        }
    }
}

/// The items of a body. `BadBatch` where its member `replicationList` isn't a list of at most `MOST_SENT`.
fn items_in(body: Value) -> Result<Vec<Value>, Fault>
    ensures said { result_map (λ v. items_view v.items) result ≡ items_in (view body) }
    ensures memory { result ≢ Err Fault.OutOfMemory }
{
    let Some(list) = take(body, "replicationList") else {
        return Err(Fault::BadBatch);
    };
    let Some(items) = array_of(list) else {
        return Err(Fault::BadBatch);
    };
    if items.len() > MOST_SENT {
        return Err(Fault::BadBatch);
    }
    Ok(items)
}

/// The commands of a body that was read as JSON, else the first fault of what stands inside, which is told before any memory is
/// taken.
fn commands_in(alloc: Global, body: Value, moment: Moment) -> Result<Vec<Command>, Fault>
    requires { BatchFits (view body) }
    ensures said { Gives (result_map (λ v. v.items) result) (commands_in moment (view body)) }
    ensures memory { result ≡ Err Fault.OutOfMemory → IsOk (commands_in moment (view body)) }
{
    let items = items_in(body)?;
    judge_items(items.as_slice(), moment)?;
    of_items(alloc, items, moment)
}

/// The commands of a text, else the first fault of what stands inside.
#[tactic(auto, unfolding(crate::specs::Batch::of_text))]
fn of_text(alloc: Global, text: &str, moment: Moment) -> Result<Vec<Command>, Fault>
    ensures said { Gives (result_map (λ v. v.items) result) (of_text moment text.now) }
    ensures memory { result ≡ Err Fault.OutOfMemory → text.now ≢ [] }
{
    let body = match parse(alloc, text) {
        Ok(body) => body,
        Err(Fault::OutOfMemory) => return Err(Fault::OutOfMemory),
        Err(_) => return Err(Fault::BadBatch),
    };
    commands_in(alloc, body, moment)
}

/// The commands that the body of a batch asks for at a moment, in order (`PeerReplicationResource.batchReplication` and
/// `ReplicationList` in Eureka; JSON by RFC 8259). Each is a peer's: it is replicated.
///
/// The body is an object whose member `replicationList` is a list of 0 to 250 items. An item is an object with these members, of
/// which those that its action doesn't need aren't read:
///
/// - `action` is a text, one of `Register`, `Heartbeat`, `Cancel`, `StatusUpdate` and `DeleteStatusOverride`;
/// - `appName` and `id` are texts that name the lease, of 1 to 255 bytes each. The ASCII letters of an application are put in
///   capitals;
/// - `instanceInfo`, for a `Register`, is the instance. It is read as `read_instance` reads one for that application, and has
///   its own id: `id` is checked as a name alone;
/// - `lastDirtyTimestamp`, for a `Heartbeat`, a `StatusUpdate` and a `DeleteStatusOverride`, is a stamp, as a number or a text
///   of 1 to 19 digits; absent or null there is none;
/// - `overriddenStatus`, for a `Heartbeat`, is a status: absent or null there is none, `Unknown` where it is anything else than
///   one of the five;
/// - `status`, for a `DeleteStatusOverride`, is read in the same way; for a `StatusUpdate` it has to be one of the five, whatever
///   the case of its ASCII letters.
///
/// A `Heartbeat` asks for a `Renew`, a `StatusUpdate` for a `SetStatus`, a `DeleteStatusOverride` for an `UnsetStatus`.
///
/// `BadBatch` where the text isn't JSON or nests deeper than 127, where it isn't such a body, and where an instance has a fault by
/// `read_instance`. `OutOfMemory` comes where no memory is left to parse the text; one without a byte needs none. Once it is
/// parsed, it comes only where nothing is wrong with the body (`commands_in`).
pub fn read_batch(alloc: Global, text: &str, moment: Moment) -> Result<Vec<Command>, Fault>
    ensures said { Gives (result_map (λ v. v.items) result) (batch_of moment text.now) }
    ensures memory { result ≡ Err Fault.OutOfMemory → text.now ≢ [] }
{
    match of_text(alloc, text, moment) {
        Ok(commands) => Ok(commands),
        Err(Fault::OutOfMemory) => Err(Fault::OutOfMemory),
        Err(_) => Err(Fault::BadBatch),
    }
}
