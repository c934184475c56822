//! Lines at the end of a text.
ghost use Rattle.std.specs.Prelude.{◌≡◌, ◌≤◌, ◌++◌, ◌∷◌, [], false, Some, IfOk, OnOk, string_bytes};
ghost use Rattle.std.specs.Str.{IsUtf8};
ghost use Rattle.serde_json.specs.Data.{depth};
ghost use Rattle.serde_json.specs.Read.{max_depth, read};
ghost use Rattle.serde_json.specs.View.{view};
ghost use Rattle.serde_json.specs.Written.{compact_text, has_float};

use serde_json::Value;
use std::alloc::{AllocError, Global};

/// The text of a line, without its end. `AllocError` where no memory is left.
fn text_of(alloc: Global, line: &Value) -> Result<String, AllocError>
    requires { has_float (view line.now) ≡ false }
    ensures text { IfOk result (λ s. string_bytes s ≡ compact_text (view line.now)) }
    ensures utf8 { OnOk result (IsUtf8 (compact_text (view line.now))) }
    ensures back { OnOk result (depth (view line.now) ≤ max_depth → read (compact_text (view line.now)) ≡ Some (view line.now)) }
{
    let text = line.to_string(alloc)?;
    let _bytes = text.as_str().as_bytes();
    Ok(text)
}

/// Puts a line at the end. `AllocError` where no memory is left.
pub fn push_line(alloc: Global, out: &mut String, line: &Value) -> Result<(), AllocError>
    requires { has_float (view line.now) ≡ false }
    ensures text { OnOk result (string_bytes out.new ≡ string_bytes out.old ++ (compact_text (view line.now) ++ 10 ∷ [])) }
    ensures utf8 { OnOk result (IsUtf8 (compact_text (view line.now))) }
    ensures back { OnOk result (depth (view line.now) ≤ max_depth → read (compact_text (view line.now)) ≡ Some (view line.now)) }
{
    let text = text_of(alloc, line)?;
    out.push_str(text.as_str())?;
    out.push_str("\n")
}
