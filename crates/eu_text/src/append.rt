//! Pieces of JSON text that are appended.
ghost use Rattle.std.specs.Prelude.{◌≡◌, ◌++◌, ◌∷◌, false, ℕ, List, IsTrue, OnOk, string_bytes};
ghost use Rattle.json.specs.Print.{escape, quoted};
ghost use Rattle.serde_json.specs.Data.{string};
ghost use Rattle.serde_json.specs.View.{view};
ghost use Rattle.serde_json.specs.Written.{compact_text, has_float};
ghost use Rattle.eu_text.specs.Text.{led_member};

use json::Writer;
use serde_json::Value;
use std::alloc::{AllocError, Global};
use std::mem;

/// Whether a text has no byte that is escaped.
fn is_plain(text: &[u8]) -> bool
    ensures { IsTrue result → escape text.now ≡ text.now }
{
    for byte in text {
        if *byte < 32 || *byte == b'"' || *byte == b'\\' {
            return false;
        }
    }
    true
}

/// Appends a text in quotes, with its escapes, to bytes.
pub fn append_quoted(alloc: Global, out: &mut Vec<u8>, text: &str) -> Result<(), AllocError>
    ensures { OnOk result (out.new.items ≡ out.old.items ++ quoted text.now) }
{
    if !is_plain(text.as_bytes()) {
        return append_escaped(alloc, out, text);
    }
    out.push(b'"')?;
    out.extend_from_slice(text.as_bytes())?;
    out.push(b'"')?;
    Ok(())
}

/// Appends a text in quotes, with its escapes, by the writer of `json`, which clears memory ahead.
#[cold]
fn append_escaped(alloc: Global, out: &mut Vec<u8>, text: &str) -> Result<(), AllocError>
    ensures { OnOk result (out.new.items ≡ out.old.items ++ quoted text.now) }
{
    let mut writer = Writer::new(mem::replace(out, Vec::new(alloc)));
    writer.string(text)?;
    *out = writer.into_inner();
    Ok(())
}

/// Appends a text in quotes, with its escapes.
pub(crate) fn push_quoted(alloc: Global, out: &mut String, text: &str) -> Result<(), AllocError>
    ensures { OnOk result (string_bytes out.new ≡ string_bytes out.old ++ quoted text.now) }
{
    if !is_plain(text.as_bytes()) {
        let escaped = Value::String(String::from_str(alloc, text)?).to_string(alloc)?;
        return out.push_str(escaped.as_str());
    }
    out.push_str("\"")?;
    out.push_str(text)?;
    out.push_str("\"")?;
    Ok(())
}

/// Appends a value.
pub(crate) fn push_value(alloc: Global, out: &mut String, value: &Value) -> Result<(), AllocError>
    requires { has_float (view value.now) ≡ false }
    ensures { OnOk result (string_bytes out.new ≡ string_bytes out.old ++ compact_text (view value.now)) }
{
    if let Value::String(text) = value {
        return push_quoted(alloc, out, text.as_str());
    }
    let text = value.to_string(alloc)?;
    out.push_str(text.as_str())
}

/// Appends a member, with a comma before it.
pub(crate) fn push_member(
    alloc: Global,
    out: &mut String,
    name: &str,
    value: &Value,
) -> Result<(), AllocError>
    requires { has_float (view value.now) ≡ false }
    ensures { OnOk result (string_bytes out.new ≡ string_bytes out.old ++ led_member name.now (view value.now)) }
{
    out.push_str(",")?;
    push_quoted(alloc, out, name)?;
    out.push_str(":")?;
    push_value(alloc, out, value)
}
