//! The members that a client at a host gives.
ghost use Rattle.std.specs.Prelude.{◌≡◌, ◌≢◌, ◌↔◌, ℕ, List, IsTrue, IfSome, None, codes};
ghost use Rattle.serde_json.specs.Data.{object, string};
ghost use Rattle.serde_json.specs.View.{view as tree_of, members_view};
ghost use Rattle.eu_base.specs.Rest.{rest_of_host, center_of_host, named_tree};

use eu_text::Member;
use serde_json::Value;

/// The host whose members these are. None where they are no host's.
pub fn host_of(entries: &[Member]) -> Option<&str>
    ensures some { IfSome result (λ host. object (members_view entries.now) ≡ rest_of_host host.now) }
    ensures none { result ≡ None → (host : List ℕ) → object (members_view entries.now) ≢ rest_of_host host }
{
    let [center, host, address] = entries else {
        return None;
    };
    if !is_center(center) {
        return None;
    }
    if !is_text(address, "ipAddr", "0.0.0.0") {
        return None;
    }
    text_of(host, "hostName")
}

/// Whether a member is the data center of a host.
fn is_center(member: &Member) -> bool
    ensures { IsTrue result ↔ (named_tree member.now ≡ (codes "dataCenterInfo", center_of_host)) }
{
    member.0.as_str() == "dataCenterInfo" && is_own_center(&member.1)
}

/// Whether a value is a data center of the client's own.
fn is_own_center(value: &Value) -> bool
    ensures { IsTrue result ↔ (tree_of value.now ≡ center_of_host) }
{
    let Value::Object(members) = value else {
        return false;
    };
    let mut left = members.iter();
    match left.next() {
        Some((name, value)) if name.as_str() == "name" && is_string(value, "MyOwn") => {
            left.next().is_none()
        }
        _ => false,
    }
}

/// The text that a member is, where it has that name, and is one.
fn text_of<'m>(member: &'m Member, name: &str) -> Option<&'m str>
    ensures some { IfSome result (λ text. named_tree member.now ≡ (name.now, string text.now)) }
    ensures none { result ≡ None → (text : List ℕ) → named_tree member.now ≢ (name.now, string text) }
{
    match member {
        (their_name, Value::String(text)) if their_name.as_str() == name => Some(text.as_str()),
        _ => None,
    }
}

/// Whether a member has that name, and is that text.
fn is_text(member: &Member, name: &str, text: &str) -> bool
    ensures { IsTrue result ↔ (named_tree member.now ≡ (name.now, string text.now)) }
{
    member.0.as_str() == name && is_string(&member.1, text)
}

/// Whether a value is that text.
fn is_string(value: &Value, text: &str) -> bool
    ensures { IsTrue result ↔ (tree_of value.now ≡ string text.now) }
{
    match value {
        Value::String(theirs) => theirs.as_str() == text,
        _ => false,
    }
}
