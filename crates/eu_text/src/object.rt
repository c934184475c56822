//! An object as its text.
ghost use Rattle.std.specs.Prelude.{◌≡◌, ◌≢◌, ◌↔◌, ◌∷◌, ℕ, List, true, Some, IfOk, IsTrue, string_bytes};
ghost use Rattle.std.specs.Option.{option_map};
ghost use Rattle.serde_json.specs.Data.{object, Members};
ghost use Rattle.serde_json.specs.Read.{read};
ghost use Rattle.serde_json.specs.Find.{as_object};
ghost use Rattle.serde_json.specs.View.{view as tree_of, members_view};
ghost use Rattle.eu_text.specs.Fit.{is_fit};
ghost use Rattle.eu_text.specs.Object.{IsTextOf};

use crate::cut::{Cuts, Member, push_members};
use serde_json::{Map, Value};
use std::alloc::{AllocError, Global};
use std::marker::Model;

/// A JSON object as the text of its members. Contracts see the tree.
#[derive(Debug, Drop)]
pub struct ObjectText {
    /// The members, each with a comma before it.
    text: String,
    cuts: Cuts,
}

impl Model for ObjectText {
    ghost use Rattle.std.specs.Prelude.{string_bytes};
    ghost use Rattle.serde_json.specs.Data.{Data};
    ghost use Rattle.eu_text.specs.Tree.{coded_tree};
    ghost use Rattle.eu_text.specs.Object.{IsObjectText, tree_of_text};

    ghost Value = { Data };

    ghost coded = { coded_tree };

    ghost view = { λ t. tree_of_text (string_bytes t.text) };

    ghost invariant = { λ t. IsObjectText (string_bytes t.text) t.cuts };
}

/// The text of an object's members, to be written.
#[derive(Clone, Copy)]
pub struct Pieces<'t> {
    /// The members, each with a comma before it.
    pub bytes: &'t [u8],
    /// Where the registry's own names cut them.
    pub cuts: Cuts,
}

impl ObjectText {
    /// The object with these members. `AllocError` where no memory is left.
    pub fn new(alloc: Global, entries: &[Member]) -> Result<ObjectText, AllocError>
        requires { is_fit (object (members_view entries.now)) ≡ true }
        ensures { IfOk result (λ t. t ≡ object (members_view entries.now)) }
    {
        let mut text = String::with_capacity(alloc, 512)?;
        let cuts = push_members(alloc, &mut text, entries)?;
        text.shrink_to_fit();
        Ok(ObjectText { text, cuts })
    }

    /// The text, and where it is cut.
    pub fn pieces(&self) -> Pieces<'_>
        ensures { (ms : Members) × (self.now ≡ object ms) × IsTextOf result.bytes.now result.cuts ms }
    {
        Pieces {
            bytes: self.text.as_bytes(),
            cuts: self.cuts,
        }
    }

    /// The members, by their names, read of the text. `AllocError` where no memory is left.
    pub fn to_members(&self, alloc: Global) -> Result<Map<String, Value>, AllocError>
        ensures { IfOk result (λ members. object (members_view members.entries) ≡ self.now) }
    {
        let text = self.with_brackets(alloc)?;
        let value = match Value::from_str(alloc, text.as_str()) {
            Ok(value) => value,
            Err(_) => return Err(AllocError),
        };
        Ok(members_of(value).unwrap())
    }

    /// The JSON text of the object. `AllocError` where no memory is left.
    fn with_brackets(&self, alloc: Global) -> Result<String, AllocError>
        ensures { IfOk result (λ text. (ms : Members) × (self.now ≡ object ms) × (read (string_bytes text) ≡ Some (object ms))) }
    {
        let members = without_comma(self.text.as_str());
        let mut text = String::with_capacity(alloc, self.text.len())?;
        text.push_str("{")?;
        text.push_str(members)?;
        text.push_str("}")?;
        Ok(text)
    }

    /// Whether both are the same object. Takes no memory.
    pub fn same(&self, other: &ObjectText) -> bool
        ensures { IsTrue result ↔ (self.now ≡ other.now) }
    {
        self.text.as_str() == other.text.as_str()
    }
}

/// The text without the comma that it begins with, if it does.
fn without_comma(text: &str) -> &str
    ensures led { (rest : List ℕ) → text.now ≡ 44 ∷ rest → result.now ≡ rest }
    ensures unled { ((rest : List ℕ) → text.now ≢ 44 ∷ rest) → result.now ≡ text.now }
{
    match text.strip_prefix(',') {
        Some(rest) => rest,
        None => text,
    }
}

/// The members of that value, where it is an object.
pub fn members_of(value: Value) -> Option<Map<String, Value>>
    ensures { option_map (λ m. members_view m.entries) result ≡ as_object (tree_of value) }
{
    match value {
        Value::Object(members) => Some(members),
        other => {
            drop(other);
            None
        }
    }
}
