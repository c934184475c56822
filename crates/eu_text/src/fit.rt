//! Which JSON trees can be kept as their text.
ghost use Rattle.std.specs.Prelude.{◌≡◌, None, string_bytes};
ghost use Rattle.std.specs.Option.{option_map};
ghost use Rattle.serde_json.specs.View.{view as tree_of, number_view, items_view, members_view};
ghost use Rattle.eu_text.specs.Fit as spec;

use serde_json::{Map, Number, Value};

/// How deep JSON may nest that is read.
const MOST_NESTING: usize = 127;

/// Whether a tree can be kept as its text: it nests no deeper than 127 levels, and its numbers are whole. (The members of an object
/// that was read stand in the order of their names, each once: that is tested, too.) Takes no memory.
pub fn is_fit(value: &Value) -> bool
    ensures { result ≡ spec.is_fit (tree_of value.now) }
{
    fits(value, MOST_NESTING)
}

/// The same of a tree that may nest at most so deep.
#[cycle(fits)]
fn fits(value: &Value, depth: usize) -> bool
    ensures { result ≡ spec.fits depth (tree_of value.now) }
{
    match value {
        Value::Null | Value::Bool(_) | Value::String(_) => true,
        Value::Number(number) => is_whole(number),
        Value::Array(items) => depth > 0 && items_fit(items, depth - 1),
        Value::Object(members) => depth > 0 && members_fit(members, depth - 1),
    }
}

fn is_whole(number: &Number) -> bool
    ensures { result ≡ spec.is_whole (number_view number.now) }
{
    match (number.as_u64(), number.as_i64()) {
        (Some(_number), _) => true,
        (None, Some(number)) => number < 0,
        (None, None) => false,
    }
}

#[cycle(fits)]
fn items_fit(items: &Vec<Value>, depth: usize) -> bool
    ensures { result ≡ spec.items_fit depth (items_view items.now.items) }
{
    for item in items {
        if !fits(item, depth) {
            return false;
        }
    }
    true
}

/// Whether a name stands behind another, or is the first.
fn follows(last: Option<&String>, name: &String) -> bool
    ensures { result ≡ spec.follows (option_map (λ (l : _). string_bytes l.now) last.entry) (string_bytes name.now) }
{
    match last {
        Some(last) => last < name,
        None => true,
    }
}

#[cycle(fits)]
fn members_fit(members: &Map<String, Value>, depth: usize) -> bool
    ensures { result ≡ spec.members_fit depth None (members_view members.now.entries) }
{
    let mut last = None;
    for (name, member) in members {
        if !follows(last, name) || !fits(member, depth) {
            return false;
        }
        last = Some(name);
    }
    true
}
