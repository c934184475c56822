//! Rows of text: what is sent, ` => `, and what is to come of it.
//!
//! Each character of what is sent stands for the byte of its number. `‹3 ab›` stands for `ababab`, and within it `⟨3 a⟩` for `aaa`.
use crate::tests::decided::is_decided;
use crate::tests::ends::ends;
use crate::tests::fakes::told;
use crate::tests::smuggling::is_read;
use eu_base::Fault;
use eu_fixtures::{BAD_CHUNK, BAD_HEAD, Torn, written_out};
use std::alloc::Global;

/// What is looked at of what comes of it.
#[derive(Clone, Copy)]
pub enum Way {
    /// What a session of it tells.
    Told,
    /// The same, read at once and byte by byte.
    ToldTwice,
    /// The answer to its first request, which is to come with its last byte.
    End,
    /// The word for the refusal by which a session answers it, which is to come with its last byte.
    Decided,
    /// Each of its requests: one of the answers that the standard leaves.
    Standard,
    /// The same, but none of them.
    Otherwise,
}

/// The bytes of what is sent.
fn bytes_of(alloc: Global, sent: &str) -> Result<Vec<u8>, Fault> {
    let sent = written_out(alloc, sent, '⟨', '⟩')?;
    let sent = written_out(alloc, &sent, '‹', '›')?;
    if sent.is_ascii() {
        return Ok(sent.into_bytes());
    }
    let mut bytes = Vec::new(alloc);
    for letter in sent.chars() {
        match u8::try_from(u32::from(letter)) {
            Ok(byte) => bytes.push(byte)?,
            Err(_) => return Err(Fault::BadValue),
        }
    }
    Ok(bytes)
}

/// The word for a fault: the status by which it is answered, and its number.
pub fn word_of(fault: Fault) -> &'static str {
    match fault {
        Fault::BadHead => "400 (32)",
        Fault::BadLength => "400 (35)",
        Fault::BadChunk => "400 (36)",
        Fault::BodyTooLong => "413 (34)",
        Fault::BadEncoding => "415 (42)",
        Fault::HeadTooLong => "431 (33)",
        Fault::Read => "failed",
        _ => "other",
    }
}

/// The response that a word stands for.
pub fn response_of(word: &str) -> &'static str {
    match word {
        "400 (32)" => BAD_HEAD,
        "400 (35)" => {
            "HTTP/1.1 400 Bad Request\r\nContent-Type: application/json\r\nContent-Length: 12\r\nConnection: close\r\n\r\n{\"fault\":35}"
        }
        "400 (36)" => BAD_CHUNK,
        "413 (34)" => {
            "HTTP/1.1 413 Payload Too Large\r\nContent-Type: application/json\r\nContent-Length: 12\r\nConnection: close\r\n\r\n{\"fault\":34}"
        }
        "415 (42)" => {
            "HTTP/1.1 415 Unsupported Media Type\r\nContent-Type: application/json\r\nContent-Length: 12\r\nConnection: close\r\n\r\n{\"fault\":42}"
        }
        "431 (33)" => {
            "HTTP/1.1 431 Request Header Fields Too Large\r\nContent-Type: application/json\r\nContent-Length: 12\r\nConnection: close\r\n\r\n{\"fault\":33}"
        }
        _ => "?",
    }
}

/// Whether a session told that; a word stands for what it tells whose only request is refused before anything is asked.
pub fn is_so(told: &str, wanted: &str) -> bool {
    told == wanted || told.strip_prefix("requests 1 next 1000 ") == Some(response_of(wanted))
}

/// Whether a session of some bytes, in pieces of a size, tells that.
fn is_told(alloc: Global, bytes: &[u8], size: usize, wanted: &str) -> Result<bool, Fault> {
    let told = told(alloc, &mut Torn::steady(bytes, size))?;
    Ok(is_so(&told, wanted))
}

/// The same, at once and byte by byte.
pub fn is_told_twice(alloc: Global, bytes: &[u8], wanted: &str) -> Result<bool, Fault> {
    Ok(is_told(alloc, bytes, usize::MAX, wanted)? && is_told(alloc, bytes, 1, wanted)?)
}

/// Whether that comes of it.
fn comes(alloc: Global, way: Way, bytes: &[u8], wanted: &str) -> Result<bool, Fault> {
    match way {
        Way::Told => is_told(alloc, bytes, usize::MAX, wanted),
        Way::ToldTwice => is_told_twice(alloc, bytes, wanted),
        Way::End => Ok(ends(alloc, bytes, wanted)),
        Way::Decided => is_decided(alloc, bytes, wanted),
        Way::Standard => is_read(alloc, bytes, wanted, true),
        Way::Otherwise => is_read(alloc, bytes, wanted, false),
    }
}

fn is_right(alloc: Global, way: Way, row: &str) -> Result<bool, Fault> {
    let (sent, wanted) = row.split_once(" => ").ok_or(Fault::BadValue)?;
    let bytes = bytes_of(alloc, sent)?;
    comes(alloc, way, &bytes, wanted)
}

/// The number, from 0, of the first row of which something else comes. None where there is no such row.
pub fn first_wrong(alloc: Global, way: Way, rows: &[&str]) -> Option<usize> {
    for (number, row) in rows.iter().enumerate() {
        if is_right(alloc, way, row) != Ok(true) {
            return Some(number);
        }
    }
    None
}
