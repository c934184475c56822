//! What the fields of a head say.
ghost use Rattle.std.specs.Prelude.{◌≡◌, ◌∷◌, ◌++◌, [], ◌≤◌, ◌<◌, List, ℕ, length, map, if◌then◌else◌, Some, None, All, codes, IfOk, OnOk, bytes_eq};
ghost use Rattle.std.specs.List.{list_all, list_any};
ghost use Rattle.std.specs.Str.Parse.{digits_value};
ghost use Rattle.httparse.specs.Spans.{IsHeaderWithin, header_bytes};
ghost use Rattle.eu_framing.specs.Fields.{values_of, is_length, one_length, one_coding, has_member, is_same_text, stated_by, has_host, within_limit, framing_of, closes, is_replicated, origins_of, IsWithin};
ghost use Rattle.eu_framing.specs.Said.{IsSaid};

use crate::MAX_BODY;
use crate::lists::has_member;
use eu_base::{Fault, read_digits};
use httparse::spans::HeaderSpan;
use std::alloc::{AllocError, Global};

/// How a body is framed.
#[derive(Clone, Copy, Debug, PartialEq, Eq)]
pub enum Framing {
    /// There is none.
    NoBody,
    /// It has so many bytes.
    Sized(u64),
    /// It comes in chunks.
    Chunked,
}

/// The values that the fields of one name have.
#[derive(Clone, Copy)]
pub enum Said<'b> {
    Never,
    Once(&'b [u8]),
    Often,
}

impl<'b> Said<'b> {
    /// One more value.
    fn and(self, value: &'b [u8]) -> Said<'b>
        ensures { (before : List (List ℕ)) → IsSaid self.entry before → IsSaid result (before ++ value.now ∷ []) }
    {
        match self {
            Said::Never => Said::Once(value),
            Said::Once(_) => Said::Often,
            Said::Often => Said::Often,
        }
    }
}

/// Whether the two texts are one, whatever the case of their ASCII letters.
pub fn is_same_text(a: &[u8], b: &[u8]) -> bool
    ensures { result ≡ is_same_text a.now b.now }
{
    a.eq_ignore_ascii_case(b)
}

/// What the fields of a name say, at most one value of it.
fn find_said<'b>(text: &'b [u8], headers: &[HeaderSpan], name: &[u8]) -> Said<'b>
    requires { All (IsHeaderWithin (length text.now)) headers.now }
    ensures { IsSaid result (values_of name.now (map (header_bytes text.now) headers.now)) }
{
    let mut found = Said::Never;
    for header in headers {
        if is_same_text(header.name.of(text), name) {
            found = found.and(header.value.of(text));
        }
    }
    found
}

/// Whether some field of a name is a list with that member, whatever the case of its ASCII letters.
fn is_listed(text: &[u8], headers: &[HeaderSpan], name: &[u8], member: &[u8]) -> bool
    requires { All (IsHeaderWithin (length text.now)) headers.now }
    ensures { result ≡ list_any (λ v. has_member v member.now) (values_of name.now (map (header_bytes text.now) headers.now)) }
{
    let mut found = false;
    for header in headers {
        if is_same_text(header.name.of(text), name) {
            found |= has_member(header.value.of(text), member);
        }
    }
    found
}

/// Whether some field of a name has exactly that value.
fn has_value(text: &[u8], headers: &[HeaderSpan], name: &[u8], value: &[u8]) -> bool
    requires { All (IsHeaderWithin (length text.now)) headers.now }
    ensures { result ≡ list_any (λ v. bytes_eq v value.now) (values_of name.now (map (header_bytes text.now) headers.now)) }
{
    let mut found = false;
    for header in headers {
        if is_same_text(header.name.of(text), name) {
            found |= header.value.of(text) == value;
        }
    }
    found
}

/// Puts the value of a field behind those that were found, if the field has that name. `AllocError` where there is no memory for it.
#[tactic(auto, unfolding(crate::specs::Fields::values_of))]
fn add_named(
    alloc: Global,
    found: &mut Vec<Vec<u8>>,
    text: &[u8],
    header: &HeaderSpan,
    name: &[u8],
) -> Result<(), AllocError>
    requires { IsHeaderWithin (length text.now) header.now }
    ensures { OnOk result (map (λ v. v.items) found.new.items ≡ map (λ v. v.items) found.old.items ++ values_of name.now (header_bytes text.now header.now ∷ [])) }
{
    if !is_same_text(header.name.of(text), name) {
        return Ok(());
    }
    let value = Vec::from_slice(alloc, header.value.of(text))?;
    found.push(value)?;
    Ok(())
}

/// The values of the fields of a name, in order. `AllocError` where there is no memory for them.
fn find_values(
    alloc: Global,
    text: &[u8],
    headers: &[HeaderSpan],
    name: &[u8],
) -> Result<Vec<Vec<u8>>, AllocError>
    requires { All (IsHeaderWithin (length text.now)) headers.now }
    ensures { IfOk result (λ found. map (λ v. v.items) found.items ≡ values_of name.now (map (header_bytes text.now) headers.now)) }
{
    let mut found = Vec::new(alloc);
    for header in headers {
        add_named(alloc, &mut found, text, header, name)?;
    }
    Ok(found)
}

/// Whether each field of a name has exactly that value.
fn all_have_value(text: &[u8], headers: &[HeaderSpan], name: &[u8], value: &[u8]) -> bool
    requires { All (IsHeaderWithin (length text.now)) headers.now }
    ensures { result ≡ list_all (λ v. bytes_eq v value.now) (values_of name.now (map (header_bytes text.now) headers.now)) }
{
    let mut all = true;
    for header in headers {
        if is_same_text(header.name.of(text), name) {
            all &= header.value.of(text) == value;
        }
    }
    all
}

/// The number, where the value is 1 to 19 digits.
fn parse_length(value: &[u8]) -> Option<u64>
    ensures { result ≡ (if is_length value.now then Some (digits_value 10 value.now) else None) }
{
    if value.is_empty() {
        return None;
    }
    read_digits(value)
}

/// The framing that a `Content-Length` states. `BadLength` comes where it isn't 1 to 19 digits.
fn sized(value: &[u8]) -> Result<Framing, Fault>
    ensures { result ≡ one_length value.now }
{
    match parse_length(value) {
        Some(len) => Ok(Framing::Sized(len)),
        None => Err(Fault::BadLength),
    }
}

/// The framing that a `Transfer-Encoding` states. `BadLength` comes where it isn't `chunked`, or not of HTTP/1.1.
fn coded(minor: u8, value: &[u8]) -> Result<Framing, Fault>
    ensures { result ≡ one_coding minor value.now }
{
    if is_same_text(value, b"chunked") && minor == 1 {
        Ok(Framing::Chunked)
    } else {
        Err(Fault::BadLength)
    }
}

/// The framing that both fields state. `BadLength` comes where there are several of them, or one in another form.
fn stated(minor: u8, lengths: Said<'_>, codings: Said<'_>) -> Result<Framing, Fault>
    ensures { (ls cs : List (List ℕ)) → IsSaid lengths.entry ls → IsSaid codings.entry cs → result ≡ stated_by minor ls cs }
{
    match (lengths, codings) {
        (Said::Never, Said::Never) => Ok(Framing::NoBody),
        (Said::Once(value), Said::Never) => sized(value),
        (Said::Never, Said::Once(value)) => coded(minor, value),
        _ => Err(Fault::BadLength),
    }
}

/// Whether a head has the `Host` that it needs.
fn has_host(minor: u8, hosts: Said<'_>) -> bool
    ensures { (vs : List (List ℕ)) → IsSaid hosts.entry vs → result ≡ has_host minor vs }
{
    match hosts {
        Said::Once(_) => true,
        _ => minor != 1,
    }
}

/// The framing, where a stated length is within the limit; else `BodyTooLong`.
fn within_limit(framing: Framing) -> Result<Framing, Fault>
    ensures value { result ≡ within_limit framing }
    ensures within { IfOk result IsWithin }
{
    match framing {
        Framing::Sized(len) if len > MAX_BODY as u64 => Err(Fault::BodyTooLong),
        _ => Ok(framing),
    }
}

/// How the body of a head is framed, or the first fault of its fields.
pub fn find_framing(minor: u8, text: &[u8], headers: &[HeaderSpan]) -> Result<Framing, Fault>
    requires { All (IsHeaderWithin (length text.now)) headers.now }
    ensures value { result ≡ framing_of minor (map (header_bytes text.now) headers.now) }
    ensures within { IfOk result IsWithin }
{
    if !has_host(minor, find_said(text, headers, b"host")) {
        return Err(Fault::BadHead);
    }
    let lengths = find_said(text, headers, b"content-length");
    let codings = find_said(text, headers, b"transfer-encoding");
    let framing = stated(minor, lengths, codings)?;
    if !all_have_value(text, headers, b"content-encoding", b"identity") {
        return Err(Fault::BadEncoding);
    }
    within_limit(framing)
}

/// Whether the connection is to end after the request.
pub fn find_closes(minor: u8, text: &[u8], headers: &[HeaderSpan]) -> bool
    requires { All (IsHeaderWithin (length text.now)) headers.now }
    ensures { result ≡ closes minor (map (header_bytes text.now) headers.now) }
{
    is_listed(text, headers, b"connection", b"close") || minor == 0
}

/// Whether another server sent the request on.
pub fn find_replicated(text: &[u8], headers: &[HeaderSpan]) -> bool
    requires { All (IsHeaderWithin (length text.now)) headers.now }
    ensures { result ≡ is_replicated (map (header_bytes text.now) headers.now) }
{
    has_value(text, headers, b"x-netflix-discovery-replication", b"true")
}

/// The values of the `Origin` fields, in order. Takes no memory where there is none; `AllocError` where there is none left for them.
pub fn find_origins(
    alloc: Global,
    text: &[u8],
    headers: &[HeaderSpan],
) -> Result<Vec<Vec<u8>>, AllocError>
    requires { All (IsHeaderWithin (length text.now)) headers.now }
    ensures { IfOk result (λ found. map (λ v. v.items) found.items ≡ origins_of (map (header_bytes text.now) headers.now)) }
{
    find_values(alloc, text, headers, b"origin")
}
