//! Statuses that members write.
ghost use Rattle.std.specs.Prelude.{◌≡◌};
ghost use Rattle.std.specs.Option.{option_map};
ghost use Rattle.std.specs.Str.{str_to_ascii_uppercase};
ghost use Rattle.serde_json.specs.View.{view};
ghost use Rattle.eu_base.specs.Values.{status_of};
ghost use Rattle.eu_json.specs.Reading.{alike, overridden_at, status_in, status_named};

use eu_base::Status;
use serde_json::Value;

/// Whether the texts differ at most in the case of ASCII letters.
pub fn alike(left: &str, right: &str) -> bool
    ensures { result ≡ alike left.now right.now }
{
    left.eq_ignore_ascii_case(right)
}

/// The status of that name, whatever the case of its ASCII letters. `Unknown` for any other text.
fn status_named(text: &str) -> Status
    ensures { result ≡ status_named text.now }
{
    Status::read_any_case(text).unwrap_or(Status::Unknown)
}

/// The status that a member names. `default` where it is absent or null, and `Unknown` where it names none.
pub fn status_in(default: Status, member: Option<&Value>) -> Status
    ensures { result ≡ status_in default (option_map (λ v. view v.now) member.entry) }
{
    match member {
        None | Some(Value::Null) => default,
        Some(Value::String(text)) => status_named(text.as_str()),
        Some(Value::Bool(_) | Value::Number(_) | Value::Array(_) | Value::Object(_)) => {
            Status::Unknown
        }
    }
}

/// The member of the overridden status, in either spelling.
pub fn overridden_at(instance: &Value) -> Option<&Value>
    ensures { option_map (λ v. view v.now) result ≡ overridden_at (view instance.now) }
{
    match instance.get("overriddenStatus") {
        Some(member) => Some(member),
        None => instance.get("overriddenstatus"),
    }
}
