//! What a client gave of its instance beside what the registry reads.
ghost use Rattle.std.specs.Prelude.{◌≡◌, ◌↔◌, false, true, IfOk, IfSome, IsSome, IsTrue, None, OnOk, ℕ, List};
ghost use Rattle.std.specs.Option.{option_map};
ghost use Rattle.serde_json.specs.Data.{object, put, string};
ghost use Rattle.serde_json.specs.View.{view as tree_of, members_view};
ghost use Rattle.serde_json.specs.Written.{has_float};
ghost use Rattle.eu_text.specs.Fit.{is_fit};
ghost use Rattle.eu_base.specs.Rest.{IsRest, rest_of_host};

use crate::hosts::host_of;
use eu_text::{Member, ObjectText, is_fit, members_of};
use serde_json::{Map, Value, json};
use std::alloc::{AllocError, Global};
use std::marker::Model;

/// How the members are kept.
#[derive(Debug, Drop)]
enum Members {
    /// Those of a host of that name: they are the same for every host but for its name, which is all that is kept.
    OfHost(String),
    /// Others, as their text.
    AsText(Box<ObjectText, Global>),
}

/// The members of an instance that the registry keeps as they came: a JSON object whose numbers are all whole. Contracts see
/// the tree. They never change.
#[derive(Debug, Drop)]
pub struct Rest {
    members: Members,
}

impl Model for Rest {
    ghost use Rattle.std.specs.Prelude.{◌≡◌, true};
    ghost use Rattle.serde_json.specs.Data.{Data};
    ghost use Rattle.eu_text.specs.Fit.{is_fit};
    ghost use Rattle.eu_text.specs.Tree.{coded_tree};
    ghost use Rattle.eu_base.specs.Members.{tree_of_members, IsApart};

    ghost Value = { Data };

    ghost coded = { coded_tree };

    ghost view = { λ r. tree_of_members r.members };

    ghost invariant = { λ r. IsApart r.members × (is_fit (tree_of_members r.members) ≡ true) };
}

impl Rest {
    /// The members of that value. None exactly where it isn't an object, has a number anywhere that isn't whole, nests deeper than
    /// 127 levels, or has members anywhere that aren't in the order of their names, as all that is read are. `AllocError` where no memory is left.
    pub fn new(alloc: Global, value: Value) -> Result<Option<Rest>, AllocError>
        ensures some { IfOk result (λ o. IfSome o (λ r. r ≡ tree_of value)) }
        ensures found { IfOk result (λ o. IsSome o ↔ IsRest (tree_of value)) }
    {
        if !value.is_object() || !is_fit(&value) {
            return Ok(None);
        }
        Ok(Some(Rest::of_fit(alloc, value)?))
    }

    /// The members of a value that is known to be such an object, so that it isn't looked through. `AllocError` where no memory is left.
    fn of_fit(alloc: Global, value: Value) -> Result<Rest, AllocError>
        requires { IsRest (tree_of value) }
        ensures { IfOk result (λ r. r ≡ tree_of value) }
    {
        let members = members_of(value).unwrap();
        let entries = entries_of(alloc, members)?;
        Rest::of_entries(alloc, entries)
    }

    /// The object with these members, which are known to fit, so that they aren't looked through. `AllocError` where no memory is left.
    pub fn of_entries(alloc: Global, entries: Vec<Member>) -> Result<Rest, AllocError>
        requires { is_fit (object (members_view entries.items)) ≡ true }
        ensures { IfOk result (λ r. r ≡ object (members_view entries.items)) }
    {
        if let Some(host) = host_of(entries.as_slice()) {
            return Rest::of_host(alloc, host);
        }
        let text = ObjectText::new(alloc, entries.as_slice())?;
        let text = Box::new(alloc, text)?;
        Ok(Rest {
            members: Members::AsText(text),
        })
    }

    /// What a client at that host gives at least: its host name, an address and a data center of its own. `AllocError` where no
    /// memory is left.
    pub fn of_host(alloc: Global, host: &str) -> Result<Rest, AllocError>
        ensures { IfOk result (λ r. r ≡ rest_of_host host.now) }
    {
        Ok(Rest {
            members: Members::OfHost(String::from_str(alloc, host)?),
        })
    }

    /// The members, by their names, once more. `AllocError` where no memory is left.
    pub fn to_members(&self, alloc: Global) -> Result<Map<String, Value>, AllocError>
        ensures tree { IfOk result (λ members. object (members_view members.entries) ≡ self.now) }
        ensures whole { has_float self.now ≡ false }
        ensures fit { is_fit self.now ≡ true }
    {
        match &self.members {
            Members::OfHost(host) => members_of_host(alloc, host),
            Members::AsText(text) => text.to_members(alloc),
        }
    }

    /// The text of the members, where that is kept. Takes no memory.
    pub fn kept_text(&self) -> Option<&ObjectText>
        ensures { IfSome result (λ text. text.now ≡ self.now) }
    {
        match &self.members {
            Members::OfHost(_) => None,
            Members::AsText(text) => Some(text),
        }
    }

    /// The text of the members, made anew. `AllocError` where no memory is left.
    pub fn to_text(&self, alloc: Global) -> Result<ObjectText, AllocError>
        ensures { IfOk result (λ text. text ≡ self.now) }
    {
        let members = self.to_members(alloc)?;
        let entries = entries_of(alloc, members)?;
        ObjectText::new(alloc, entries.as_slice())
    }

    /// Whether both are equal in every member. Takes no memory.
    pub fn same(&self, other: &Rest) -> bool
        ensures { IsTrue result ↔ (self.now ≡ other.now) }
    {
        match (&self.members, &other.members) {
            (Members::OfHost(host), Members::OfHost(theirs)) => host.as_str() == theirs.as_str(),
            (Members::AsText(text), Members::AsText(theirs)) => text.same(theirs),
            _ => false,
        }
    }
}

/// The members as a list, in their order.
fn entries_of(alloc: Global, members: Map<String, Value>) -> Result<Vec<Member>, AllocError>
    ensures { IfOk result (λ v. v.items ≡ members.entries) }
{
    let mut entries = Vec::with_capacity(alloc, members.len())?;
    for entry in members {
        entries.push(entry)?;
    }
    Ok(entries)
}

/// Puts a member.
fn insert(
    alloc: Global,
    members: &mut Map<String, Value>,
    name: &str,
    value: Value,
) -> Result<(), AllocError>
    ensures { OnOk result (members_view members.new.entries ≡ put name.now (tree_of value) (members_view members.old.entries)) }
{
    let name = String::from_str(alloc, name)?;
    members.insert(name, value)?;
    Ok(())
}

/// Puts a member that is a text.
fn insert_text(
    alloc: Global,
    members: &mut Map<String, Value>,
    name: &str,
    text: &str,
) -> Result<(), AllocError>
    ensures { OnOk result (members_view members.new.entries ≡ put name.now (string text.now) (members_view members.old.entries)) }
{
    let value = Value::String(String::from_str(alloc, text)?);
    insert(alloc, members, name, value)
}

/// The members of a host of that name.
fn members_of_host(alloc: Global, host: &str) -> Result<Map<String, Value>, AllocError>
    ensures { IfOk result (λ members. object (members_view members.entries) ≡ rest_of_host host.now) }
{
    let mut members = Map::new(alloc);
    insert(
        alloc,
        &mut members,
        "dataCenterInfo",
        json!(in alloc; { "name": "MyOwn" })?,
    )?;
    insert_text(alloc, &mut members, "hostName", host)?;
    insert_text(alloc, &mut members, "ipAddr", "0.0.0.0")?;
    Ok(members)
}
