//! What must stand in an instance.
ghost use Rattle.std.specs.Prelude.{◌≡◌, ◌≢◌, ◌<◌, length, Err, IfOk};
ghost use Rattle.std.specs.Str.{str_to_ascii_uppercase};
ghost use Rattle.serde_json.specs.View.{view};
ghost use Rattle.eu_base.specs.Gives.{result_map};
ghost use Rattle.eu_json.specs.Reading.{address_stands, app_stands, center_stands, name_of};

use crate::members::text_at;
use crate::statuses::alike;
use eu_base::Fault;
use serde_json::Value;

/// The name of the instance's lease: its id, or its host's name where that is blank.
///
/// `MissingId` where both are blank, `MissingHost` where the host's name is.
pub fn name_of(instance: &Value) -> Result<&str, Fault>
    ensures name { result_map (λ name. name.now) result ≡ name_of (view instance.now) }
    ensures filled { IfOk result (λ name. 0 < length name.now) }
    ensures memory { result ≢ Err Fault.OutOfMemory }
{
    let id = text_at(instance, "instanceId");
    let host = text_at(instance, "hostName");
    match (host.is_empty(), id.is_empty()) {
        (true, true) => Err(Fault::MissingId),
        (true, false) => Err(Fault::MissingHost),
        (false, true) => Ok(host),
        (false, false) => Ok(id),
    }
}

/// `MissingIp` where the address is blank.
pub fn check_address(instance: &Value) -> Result<(), Fault>
    ensures said { result ≡ address_stands (view instance.now) }
    ensures memory { result ≢ Err Fault.OutOfMemory }
{
    if text_at(instance, "ipAddr").is_empty() {
        return Err(Fault::MissingIp);
    }
    Ok(())
}

/// `MissingApp` where the application is blank, `WrongApp` where it isn't `app`, whatever the case of its ASCII letters.
#[tactic(auto, using(crate::proofs::CaseLemmas::alike_upper))]
pub fn check_app(instance: &Value, app: &str) -> Result<(), Fault>
    ensures said { result ≡ app_stands app.now (view instance.now) }
    ensures cased { result ≡ app_stands (str_to_ascii_uppercase app.now) (view instance.now) }
    ensures memory { result ≢ Err Fault.OutOfMemory }
{
    let given = text_at(instance, "app");
    if given.is_empty() {
        return Err(Fault::MissingApp);
    }
    if !alike(given, app) {
        return Err(Fault::WrongApp);
    }
    Ok(())
}

/// `MissingCenter` where the data center isn't an object, `MissingCenterName` where its name isn't a text.
pub fn check_center(instance: &Value) -> Result<(), Fault>
    ensures said { result ≡ center_stands (view instance.now) }
    ensures memory { result ≢ Err Fault.OutOfMemory }
{
    let Some(center) = instance.get("dataCenterInfo") else {
        return Err(Fault::MissingCenter);
    };
    if !center.is_object() {
        return Err(Fault::MissingCenter);
    }
    match center.get("name").and_then(Value::as_str) {
        Some(_) => Ok(()),
        None => Err(Fault::MissingCenterName),
    }
}
