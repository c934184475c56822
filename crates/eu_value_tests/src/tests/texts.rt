//! Objects of JSON that are kept as their text, and numbers in digits, with texts written by hand (RFC 8259).
use eu_base::{Fault, Rest, read_digits};
use eu_fixtures::pause_or_go_on;
use eu_text::{Cut, append_piece, append_quoted, append_text};
use serde_json::Value;
use std::alloc::{AllocError, Global};

/// What is kept of the object that a text says.
fn kept(alloc: Global, text: &str) -> Result<Rest, Fault> {
    pause_or_go_on(alloc);
    let value = Value::from_str(alloc, text);
    pause_or_go_on(alloc);
    let value = value.map_err(|_| Fault::NotJson)?;
    let rest = Rest::new(alloc, value)?;
    rest.ok_or(Fault::NotWhole)
}

/// Whether what is kept of a text is these bytes.
pub fn is_kept_as(alloc: Global, text: &str, bytes: &str) -> Result<bool, Fault> {
    let rest = kept(alloc, text)?;
    let same = match rest.kept_text() {
        Some(object) => object.pieces().bytes == bytes.as_bytes(),
        None => false,
    };
    drop(rest);
    Ok(same)
}

#[test]
fn members_are_kept_in_order_with_a_comma_before_each(rt: HostRuntime) {
    let text = "{ \"b\": [1, {\"x\": null}], \"a\": \"q\\\"\\u0001\" }";
    let bytes = ",\"a\":\"q\\\"\\u0001\",\"b\":[1,{\"x\":null}]";
    assert!(rt; is_kept_as(rt.alloc(), text, bytes) == Ok(true));
    assert!(rt; is_kept_as(rt.alloc(), "{}", "") == Ok(true));
    assert!(rt; is_kept_as(rt.alloc(), "{\"a\":1.5}", "") == Err(Fault::NotWhole));
}

/// Whether both are kept as the same text.
fn have_one_text(one: &Rest, other: &Rest) -> bool {
    match (one.kept_text(), other.kept_text()) {
        (Some(one), Some(other)) => one.same(other),
        _ => false,
    }
}

/// Whether both texts say the same object.
fn are_same(alloc: Global, one: &str, other: &str) -> Result<bool, Fault> {
    let one = kept(alloc, one)?;
    let other = kept(alloc, other)?;
    Ok(have_one_text(&one, &other))
}

#[test]
fn texts_are_the_same_where_their_trees_are(rt: HostRuntime) {
    let one = "{\"a\":1,\"b\":[]}";
    assert!(rt; are_same(rt.alloc(), one, "{ \"b\" : [ ] , \"a\" : 1 }") == Ok(true));
    assert!(rt; are_same(rt.alloc(), one, "{\"a\":2,\"b\":[]}") == Ok(false));
}

/// How many members are read again of what is kept of a text.
pub fn read_again(alloc: Global, text: &str) -> Result<usize, Fault> {
    let rest = kept(alloc, text)?;
    Ok(rest.to_members(alloc)?.len())
}

#[test]
fn what_is_kept_is_read_again(rt: HostRuntime) {
    assert!(rt; read_again(rt.alloc(), "{\"a\":1,\"b\":{\"c\":2}}") == Ok(2));
}

/// The members of a text with another application, and those of a text with a status in place of the last.
fn put(alloc: Global, out: &mut Vec<u8>) -> Result<(), AllocError> {
    let app = Cut {
        before: 6,
        named: 8,
    };
    let text = b",\"a\":1,\"app\":2,\"m\":3";
    let left = append_text(alloc, out, text, app, ",\"app\":", "A\"")?;
    out.extend_from_slice(left)?;
    let last = Cut {
        before: 0,
        named: 6,
    };
    let left = append_piece(out, b",\"z\":4", last, ",\"status\":5")?;
    out.extend_from_slice(left)
}

/// Whether they stand where they belong then.
pub fn is_put(alloc: Global) -> Result<bool, Fault> {
    let mut out = Vec::new(alloc);
    put(alloc, &mut out)?;
    let text = ",\"a\":1,\"app\":\"A\\\"\",\"m\":3,\"status\":5";
    Ok(out.as_slice() == text.as_bytes())
}

#[test]
fn own_members_are_put_in_their_places(rt: HostRuntime) {
    assert!(rt; is_put(rt.alloc()) == Ok(true));
}

/// Whether a text is quoted so.
pub fn is_quoted_as(alloc: Global, text: &str, quoted: &str) -> Result<bool, Fault> {
    let mut out = Vec::new(alloc);
    append_quoted(alloc, &mut out, text)?;
    Ok(out.as_slice() == quoted.as_bytes())
}

#[test]
fn texts_are_quoted_with_their_escapes(rt: HostRuntime) {
    assert!(rt; is_quoted_as(rt.alloc(), "aé", "\"aé\"") == Ok(true));
    assert!(rt; is_quoted_as(rt.alloc(), "a\"\\\n", "\"a\\\"\\\\\\n\"") == Ok(true));
}

#[test]
fn digits_are_a_number(rt: HostRuntime) {
    assert!(rt; read_digits(b"0042") == Some(42));
    assert!(rt; read_digits(b"9999999999999999999") == Some(9_999_999_999_999_999_999));
    assert!(rt; read_digits(b"00000000000000000001").is_none());
    assert!(rt; read_digits(b"+1").is_none());
    assert!(rt; read_digits(b"") == Some(0));
}
