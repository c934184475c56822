//! An instance from JSON.
ghost use Rattle.std.specs.Prelude.{◌≡◌, ◌≢◌, ◌⊎◌, ◌<◌, [], codes, length, not, Err, IfErr, IfOk, IsOk, MatchResult, Ok, OnOk, Some, None};
ghost use Rattle.std.specs.Option.{option_map};
ghost use Rattle.serde_json.specs.Read.{read};
ghost use Rattle.serde_json.specs.View.{view, members_view};
ghost use Rattle.serde_json.specs.Written.{has_float};
ghost use Rattle.eu_text.specs.Fit.{is_fit};
ghost use Rattle.eu_base.specs.Rest.{IsRest};
ghost use Rattle.eu_base.specs.Gives.{Gives, result_map};
ghost use Rattle.eu_json.specs.Parts.{BodyFits, FitsIfWhole};
ghost use Rattle.eu_json.specs.Reading.{instance_of, is_own, lease_member, of_body, of_object, own_names, rest_of, short};
ghost use Rattle.eu_json.specs.Tree.{but_members};

use crate::checks::{check_address, check_app, check_center, name_of};
use crate::members::take;
use crate::numbers::{interval_in, secs_in, stamp_in};
use crate::statuses::{overridden_at, status_in};
use eu_base::{App, Fault, Id, Instance, Key, LONGEST_NAME, Moment, Rest, SharedInstance, Status};
use eu_text::{Member, is_fit, members_of};
use serde_json::{Map, Value};
use std::alloc::{AllocError, Global};

/// The JSON of a text. `NotJson` where it is none, and `OutOfMemory`, which a text without a byte never is.
pub fn parse(alloc: Global, text: &str) -> Result<Value, Fault>
    ensures memory { result ≡ Err Fault.OutOfMemory → text.now ≢ [] }
    ensures filled { OnOk result (text.now ≢ []) }
    ensures said { MatchResult result (λ v. read text.now ≡ Some (view v)) (λ f. (f ≡ Fault.OutOfMemory) ⊎ ((f ≡ Fault.NotJson) × (read text.now ≡ None))) }
{
    if text.is_empty() {
        return Err(Fault::NotJson);
    }
    match Value::from_str(alloc, text) {
        Ok(body) => Ok(body),
        Err(error) if error.is_memory() => Err(Fault::OutOfMemory),
        Err(_) => Err(Fault::NotJson),
    }
}

/// Whether the numbers of a tree that was read are whole, so that it can be kept. Takes no memory.
pub fn is_whole(value: &Value) -> bool
    requires { FitsIfWhole (view value.now) }
    ensures whole { result ≡ not (has_float (view value.now)) }
    ensures fit { result ≡ is_fit (view value.now) }
{
    is_fit(value)
}

/// A member of the lease's information, where that is an object.
pub fn lease_member<'v>(instance: &'v Value, name: &str) -> Option<&'v Value>
    ensures { option_map (λ v. view v.now) result ≡ lease_member name.now (view instance.now) }
{
    instance.get("leaseInfo")?.get(name)
}

/// What the lease's information says of how long the lease lasts, and of how often it is renewed, where that is an object.
fn lease_members(instance: &Value) -> (Option<&Value>, Option<&Value>)
    ensures secs { option_map (λ v. view v.now) result.0 ≡ lease_member (codes "durationInSecs") (view instance.now) }
    ensures interval { option_map (λ v. view v.now) result.1 ≡ lease_member (codes "renewalIntervalInSecs") (view instance.now) }
{
    match instance.get("leaseInfo") {
        Some(lease) => (
            lease.get("durationInSecs"),
            lease.get("renewalIntervalInSecs"),
        ),
        None => (None, None),
    }
}

/// `TooLong` where a name has more than 255 bytes.
pub fn check_len(name: &str) -> Result<(), Fault>
    ensures said { result_map (λ _. name.now) result ≡ short name.now }
    ensures memory { result ≢ Err Fault.OutOfMemory }
{
    if name.len() > LONGEST_NAME {
        return Err(Fault::TooLong);
    }
    Ok(())
}

/// The id of that name, which is one. The only fault is want of memory.
fn id_of(alloc: Global, name: &str) -> Result<Id, Fault>
    requires filled { 0 < length name.now }
    requires short { short name.now ≡ Ok name.now }
    ensures id { IfOk result (λ id. id ≡ name.now) }
    ensures memory { IfErr result (λ f. f ≡ Fault.OutOfMemory) }
{
    Id::read(alloc, name)
}

/// Whether the registry writes the member of that name itself.
#[tactic(auto, unfolding(crate::specs::Reading::is_own))]
fn is_own(name: &str) -> bool
    ensures { result ≡ is_own name.now }
{
    match name {
        "instanceId"
        | "app"
        | "status"
        | "overriddenStatus"
        | "overriddenstatus"
        | "lastDirtyTimestamp"
        | "leaseInfo" => true,
        _ => false,
    }
}

/// The members of an object but those that the registry writes itself, in their order. `AllocError` where no memory is left.
fn others_of(alloc: Global, members: Map<String, Value>) -> Result<Vec<Member>, AllocError>
    ensures { IfOk result (λ others. members_view others.items ≡ but_members own_names (members_view members.entries)) }
{
    let mut others = Vec::with_capacity(alloc, members.len())?;
    for member in members {
        if !is_own(member.0.as_str()) {
            others.push(member)?;
        }
    }
    Ok(others)
}

/// The members that the registry keeps as they came: all but those that it writes itself. `AllocError` where no memory is left.
fn rest_of(alloc: Global, instance: Value) -> Result<Rest, AllocError>
    requires { IsRest (view instance) }
    ensures { IfOk result (λ r. r ≡ rest_of (view instance)) }
{
    let members = members_of(instance).unwrap();
    let others = others_of(alloc, members)?;
    Rest::of_entries(alloc, others)
}

/// The instance of an object whose numbers are all whole. What is wrong with it is told before any memory is taken.
#[tactic(auto, unfolding(crate::specs::Reading::of_object))]
pub fn of_object(
    alloc: Global,
    instance: Value,
    app: &App,
    moment: Moment,
) -> Result<SharedInstance, Fault>
    requires { IsRest (view instance) }
    ensures said { Gives result (of_object app.now moment (view instance)) }
    ensures memory { result ≡ Err Fault.OutOfMemory → IsOk (of_object app.now moment (view instance)) }
{
    let name = name_of(&instance)?;
    check_address(&instance)?;
    check_app(&instance, app.as_str())?;
    check_center(&instance)?;
    check_len(name)?;
    let last_dirty = stamp_in(moment, instance.get("lastDirtyTimestamp"))?;
    let (secs, interval) = lease_members(&instance);
    let secs = secs_in(secs)?;
    let interval = interval_in(interval);
    let status = status_in(Status::Up, instance.get("status"));
    let overridden = status_in(Status::Unknown, overridden_at(&instance));
    let id = id_of(alloc, name)?;
    let app = app.copy(alloc)?;
    let rest = rest_of(alloc, instance)?;
    let key = Key { app, id };
    let instance = Instance {
        key,
        status,
        overridden,
        last_dirty,
        secs,
        interval,
        rest,
    };
    Ok(SharedInstance::new(alloc, instance)?)
}

/// The instance of a body that was read as JSON, with the faults of `read_instance`. What is wrong with it is told before any
/// memory is taken.
fn of_body(alloc: Global, body: Value, app: &App, moment: Moment) -> Result<SharedInstance, Fault>
    requires { BodyFits (view body) }
    ensures said { Gives result (of_body app.now moment (Some (view body))) }
    ensures memory { result ≡ Err Fault.OutOfMemory → IsOk (of_body app.now moment (Some (view body))) }
{
    let whole = is_whole(&body);
    let Some(instance) = take(body, "instance") else {
        return Err(Fault::NotJson);
    };
    if !instance.is_object() {
        return Err(Fault::NotJson);
    }
    if !whole {
        return Err(Fault::NotWhole);
    }
    of_object(alloc, instance, app, moment)
}

/// The instance that the body of a registration says for an application at a moment (`ApplicationResource.addInstance` and
/// `InstanceInfo` in Eureka; JSON by RFC 8259).
///
/// The body is an object with a member `instance`, which is an object. Of a name that stands twice in one object the last
/// value counts. A text is blank where its member is absent, isn't a text or has no byte. Of the members of `instance`
///
/// - `instanceId` names the lease, or `hostName` where that is blank;
/// - `app` is `app`, whatever the case of its ASCII letters;
/// - `status` is one of the five statuses, whatever the case of its ASCII letters: `Up` where it is absent or null, `Unknown`
///   where it is anything else;
/// - `overriddenStatus`, or `overriddenstatus` where that is absent, is read in the same way, and `Unknown` where it is absent
///   or null;
/// - `lastDirtyTimestamp` is a stamp, as a number or a text of 1 to 19 digits; absent or null it is the moment;
/// - `leaseInfo`, where it is an object, has `durationInSecs`, the seconds that the lease lasts, as a number or a text of 1 to
///   10 digits (`LeaseSecs::DEFAULT` where it is absent, null or not above 0), and `renewalIntervalInSecs`, the seconds
///   between renewals (`RenewalSecs::DEFAULT` where it isn't a whole number from 1 to 2^31 - 1);
/// - every other member, `hostName`, `ipAddr` and `dataCenterInfo` too, is kept as it is given, in `rest`.
///
/// The first of these faults that holds is told:
///
/// - `NotJson`: the text isn't JSON, or nests deeper than 127, or isn't an object with a member `instance` that is one;
/// - `NotWhole`: a number anywhere in the text has a fraction or an exponent, is `-0`, or fits neither a `u64` nor an `i64`;
/// - `MissingId`: `instanceId` and `hostName` are blank;
/// - `MissingHost`, `MissingIp`, `MissingApp`: `hostName`, `ipAddr`, `app` is blank;
/// - `WrongApp`: `app` is another application;
/// - `MissingCenter`: `dataCenterInfo` isn't an object;
/// - `MissingCenterName`: its member `name` isn't a text;
/// - `TooLong`: the id has more than 255 bytes;
/// - `BadStamp`: `lastDirtyTimestamp` isn't a stamp, as above;
/// - `BadDuration`: `durationInSecs` is neither of the two, or above 2,147,483.
///
/// `OutOfMemory` comes where no memory is left to parse the text, which one without a byte doesn't need, so that nothing is known
/// of what it says; and later only where none of these faults holds.
pub fn read_instance(
    alloc: Global,
    text: &str,
    app: &App,
    moment: Moment,
) -> Result<SharedInstance, Fault>
    ensures said { Gives result (instance_of app.now moment text.now) }
    ensures memory { result ≡ Err Fault.OutOfMemory → text.now ≢ [] }
{
    let body = parse(alloc, text)?;
    of_body(alloc, body, app, moment)
}
