//! An object's text with other members put between its own.
ghost use Rattle.std.specs.Prelude.{◌≡◌, ◌≤◌, ◌+◌, ◌++◌, ◌∷◌, ℕ, List, length, take, drop, IfOk, OnOk};
ghost use Rattle.json.specs.Print.{quoted};

use crate::append::append_quoted;
use crate::cut::Cut;
use std::alloc::{AllocError, Global};

/// Appends the members up to a name, and what leads to the value that is put there. Tells what is left behind the name.
pub fn append_piece<'p>(
    out: &mut Vec<u8>,
    rest: &'p [u8],
    cut: Cut,
    lead: &str,
) -> Result<&'p [u8], AllocError>
    requires { cut.before + cut.named ≤ length rest.now }
    ensures out { OnOk result ((s : List ℕ) → out.new.items ++ s ≡ out.old.items ++ (take cut.before rest.now ++ (lead.now ++ s))) }
    ensures left { IfOk result (λ r. r.now ≡ drop (cut.before + cut.named) rest.now) }
{
    out.extend_from_slice(&rest[..cut.before])?;
    out.extend_from_slice(lead.as_bytes())?;
    Ok(&rest[cut.before + cut.named..])
}

/// Appends the members up to a name, and a member of that name that is a text. Tells what is left behind the name.
pub fn append_text<'p>(
    alloc: Global,
    out: &mut Vec<u8>,
    rest: &'p [u8],
    cut: Cut,
    lead: &str,
    text: &str,
) -> Result<&'p [u8], AllocError>
    requires { cut.before + cut.named ≤ length rest.now }
    ensures out { OnOk result ((s : List ℕ) → out.new.items ++ s ≡ out.old.items ++ (take cut.before rest.now ++ (lead.now ++ (quoted text.now ++ s)))) }
    ensures left { IfOk result (λ r. r.now ≡ drop (cut.before + cut.named) rest.now) }
{
    let left = append_piece(out, rest, cut, lead)?;
    append_quoted(alloc, out, text)?;
    Ok(left)
}
