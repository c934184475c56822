//! The text of members, cut at the registry's own names.
ghost use Rattle.std.specs.Prelude.{◌≡◌, ◌+◌, ◌++◌, false, length, IfOk, OnOk, string_bytes};
ghost use Rattle.serde_json.specs.Data.{no_members};
ghost use Rattle.serde_json.specs.View.{members_view};
ghost use Rattle.serde_json.specs.Written.{members_have_float};
ghost use Rattle.eu_text.specs.Object.{cut_list, own_names};
ghost use Rattle.eu_text.specs.Text.{led, before, named, behind, cuts_of};

use crate::append::push_member;
use serde_json::Value;
use std::alloc::{AllocError, Global};
use std::cmp::Ordering;

/// A member of an object: its name and its value.
pub type Member = (String, Value);

/// Where a name cuts the text of members.
#[derive(Clone, Copy, Debug)]
pub struct Cut {
    /// How long the text before it is, from the cut before, in bytes.
    pub before: usize,
    /// How long the text of the member is that has this name: 0 where none has.
    pub named: usize,
}

/// Where the registry's own names cut the text of members, in their order.
#[derive(Clone, Copy, Debug)]
pub struct Cuts {
    /// `app`
    pub app: Cut,
    /// `instanceId`
    pub instance_id: Cut,
    /// `lastDirtyTimestamp`
    pub last_dirty: Cut,
    /// `leaseInfo`
    pub lease: Cut,
    /// `overriddenStatus`
    pub overridden: Cut,
    /// `status`
    pub status: Cut,
}

/// Appends the members before a name, and tells which are left.
fn append_before<'e>(
    alloc: Global,
    out: &mut String,
    entries: &'e [Member],
    name: &str,
) -> Result<&'e [Member], AllocError>
    requires { members_have_float (members_view entries.now) ≡ false }
    ensures text { IfOk result (λ left. string_bytes out.new ++ led (members_view left.now) ≡ string_bytes out.old ++ led (members_view entries.now)) }
    ensures len { OnOk result (length (string_bytes out.new) ≡ length (string_bytes out.old) + length (led (before name.now (members_view entries.now)))) }
    ensures none { IfOk result (λ left. before name.now (members_view left.now) ≡ no_members) }
    ensures named { IfOk result (λ left. named name.now (members_view left.now) ≡ named name.now (members_view entries.now)) }
    ensures behind { IfOk result (λ left. behind name.now (members_view left.now) ≡ behind name.now (members_view entries.now)) }
    ensures whole { IfOk result (λ left. members_have_float (members_view left.now) ≡ false) }
{
    let mut left = entries;
    while let Some((entry, others)) = left.split_first() {
        match name.cmp(entry.0.as_str()) {
            Ordering::Greater => push_member(alloc, out, entry.0.as_str(), &entry.1)?,
            Ordering::Equal | Ordering::Less => break,
        }
        left = others;
    }
    Ok(left)
}

/// Appends the first member where it has that name, and tells which are left. None stands before the name.
fn append_named<'e>(
    alloc: Global,
    out: &mut String,
    entries: &'e [Member],
    name: &str,
) -> Result<&'e [Member], AllocError>
    requires first { before name.now (members_view entries.now) ≡ no_members }
    requires whole { members_have_float (members_view entries.now) ≡ false }
    ensures text { IfOk result (λ left. string_bytes out.new ++ led (members_view left.now) ≡ string_bytes out.old ++ led (members_view entries.now)) }
    ensures len { OnOk result (length (string_bytes out.new) ≡ length (string_bytes out.old) + length (led (named name.now (members_view entries.now)))) }
    ensures left { IfOk result (λ left. members_view left.now ≡ behind name.now (members_view entries.now)) }
    ensures whole { IfOk result (λ left. members_have_float (members_view left.now) ≡ false) }
{
    match entries.split_first() {
        Some((entry, others)) if name.cmp(entry.0.as_str()) == Ordering::Equal => {
            push_member(alloc, out, entry.0.as_str(), &entry.1)?;
            Ok(others)
        }
        _ => Ok(entries),
    }
}

/// Appends the members up to a name, and the one that has it. Tells where it cuts, and which are left.
fn cut_at<'e>(
    alloc: Global,
    out: &mut String,
    entries: &'e [Member],
    name: &str,
) -> Result<(Cut, &'e [Member]), AllocError>
    requires { members_have_float (members_view entries.now) ≡ false }
    ensures text { IfOk result (λ p. string_bytes out.new ++ led (members_view p.1.now) ≡ string_bytes out.old ++ led (members_view entries.now)) }
    ensures cut { IfOk result (λ p. p.0 ≡ record { before = length (led (before name.now (members_view entries.now))); named = length (led (named name.now (members_view entries.now))) }) }
    ensures left { IfOk result (λ p. members_view p.1.now ≡ behind name.now (members_view entries.now)) }
    ensures whole { IfOk result (λ p. members_have_float (members_view p.1.now) ≡ false) }
{
    let start = out.len();
    let left = append_before(alloc, out, entries, name)?;
    let middle = out.len();
    let left = append_named(alloc, out, left, name)?;
    let cut = Cut {
        before: middle - start,
        named: out.len() - middle,
    };
    Ok((cut, left))
}

/// Appends members, each with a comma before it, and tells where the registry's own names cut their text.
pub fn push_members(alloc: Global, out: &mut String, entries: &[Member]) -> Result<Cuts, AllocError>
    requires { members_have_float (members_view entries.now) ≡ false }
    ensures text { OnOk result (string_bytes out.new ≡ string_bytes out.old ++ led (members_view entries.now)) }
    ensures cuts { IfOk result (λ cuts. cut_list cuts ≡ cuts_of own_names (members_view entries.now)) }
{
    let (app, left) = cut_at(alloc, out, entries, "app")?;
    let (instance_id, left) = cut_at(alloc, out, left, "instanceId")?;
    let (last_dirty, left) = cut_at(alloc, out, left, "lastDirtyTimestamp")?;
    let (lease, left) = cut_at(alloc, out, left, "leaseInfo")?;
    let (overridden, left) = cut_at(alloc, out, left, "overriddenStatus")?;
    let (status, left) = cut_at(alloc, out, left, "status")?;
    for entry in left {
        push_member(alloc, out, entry.0.as_str(), &entry.1)?;
    }
    Ok(Cuts {
        app,
        instance_id,
        last_dirty,
        lease,
        overridden,
        status,
    })
}
