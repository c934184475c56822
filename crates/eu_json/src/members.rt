//! Members of a JSON object.
ghost use Rattle.std.specs.Prelude.{◌≡◌};
ghost use Rattle.std.specs.Option.{option_map};
ghost use Rattle.serde_json.specs.Find.{get};
ghost use Rattle.serde_json.specs.View.{view};
ghost use Rattle.eu_json.specs.Tree.{text_at};

use serde_json::Value;

/// The text of a member; no byte where it is absent or no text.
pub fn text_at<'v>(object: &'v Value, name: &str) -> &'v str
    ensures { result.now ≡ text_at name.now (view object.now) }
{
    object.get(name).and_then(Value::as_str).unwrap_or("")
}

/// Takes a member out of an object.
pub fn take(object: Value, name: &str) -> Option<Value>
    ensures { option_map view result ≡ get name.now (view object) }
{
    match object {
        Value::Object(mut members) => members.remove(name),
        other => {
            drop(other);
            None
        }
    }
}
