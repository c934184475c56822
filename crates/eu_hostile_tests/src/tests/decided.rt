//! Refusals that the bytes have decided: each is answered at the last byte that it takes, also where the next read fails, and no earlier.
use crate::tests::fakes::told;
use crate::tests::rows::{Way, first_wrong, is_so};
use eu_base::Fault;
use eu_fixtures::Torn;
use std::alloc::Global;
use std::io::ErrorKind;

/// Heads, up to their empty line, of which no byte behind is looked at.
const HEADS: [&str; 17] = [
    "G(T /a HTTP/1.1\r\nHost: x\r\n\r\n => 400 (32)",
    "GET /a HTTP/1.1\r\nHost : x\r\n\r\n => 400 (32)",
    "GET /a HTTP/1.1\r\nHost: x\r\nX: y\0\r\n\r\n => 400 (32)",
    "GET /a HTTP/1.1\r\nHost: x\r\nHost: y\r\n\r\n => 400 (32)",
    "POST /a HTTP/1.1\r\nHost: x\r\nContent-Length: +5\r\n\r\n => 400 (35)",
    "POST /a HTTP/1.1\r\nHost: x\r\nContent-Length: 00000000000000000005\r\n\r\n => 400 (35)",
    "POST /a HTTP/1.1\r\nHost: x\r\nContent-Length: 5\r\nContent-Length: 5\r\n\r\n => 400 (35)",
    "POST /a HTTP/1.1\r\nHost: x\r\nContent-Length: 1048577\r\n\r\n => 413 (34)",
    "POST /a HTTP/1.1\r\nHost: x\r\nTransfer-Encoding: gzip\r\n\r\n => 400 (35)",
    "POST /a HTTP/1.1\r\nHost: x\r\nTransfer-Encoding: gzip, chunked\r\n\r\n => 400 (35)",
    "POST /a HTTP/1.1\r\nHost: x\r\nTransfer-Encoding: chunked\r\nTransfer-Encoding: chunked\r\n\r\n => 400 (35)",
    "POST /a HTTP/1.1\r\nHost: x\r\nTransfer-Encoding: chunked\r\nContent-Length: 5\r\n\r\n => 400 (35)",
    "POST /a HTTP/1.0\r\nTransfer-Encoding: chunked\r\n\r\n => 400 (35)",
    "POST /a HTTP/1.1\r\nHost: x\r\nContent-Encoding: gzip\r\n\r\n => 415 (42)",
    "POST /a HTTP/1.1\r\nHost: x\r\nContent-Encoding: gzip\r\nContent-Length: 5\r\n\r\n => 415 (42)",
    "POST /a HTTP/1.1\r\nHost: x\r\nContent-Encoding: gzip\r\nTransfer-Encoding: chunked\r\n\r\n => 415 (42)",
    "POST /a HTTP/1.1\r\nHost: x\r\nContent-Encoding: identity\r\nContent-Encoding: Identity\r\n\r\n => 415 (42)",
];

/// Chunked bodies, up to the end of a chunk line, to the first wrong byte behind a chunk's data, or to the empty line of a trailer.
const CHUNKS: [&str; 11] = [
    "POST /a HTTP/1.1\r\nHost: x\r\nTransfer-Encoding: chunked\r\n\r\n5g\r\n => 400 (36)",
    "POST /a HTTP/1.1\r\nHost: x\r\nTransfer-Encoding: chunked\r\n\r\n00000000000000005\r\n => 400 (36)",
    "POST /a HTTP/1.1\r\nHost: x\r\nTransfer-Encoding: chunked\r\n\r\n100001\r\n => 413 (34)",
    "POST /a HTTP/1.1\r\nHost: x\r\nTransfer-Encoding: chunked\r\n\r\nffffffffffffffff\r\n => 413 (34)",
    "POST /a HTTP/1.1\r\nHost: x\r\nTransfer-Encoding: chunked\r\n\r\n5\r\nhello\r\nFFFFC\r\n => 413 (34)",
    "POST /a HTTP/1.1\r\nHost: x\r\nTransfer-Encoding: chunked\r\n\r\n5\r\nhelloX => 400 (36)",
    "POST /a HTTP/1.1\r\nHost: x\r\nTransfer-Encoding: chunked\r\n\r\n5\r\nhello\n => 400 (36)",
    "POST /a HTTP/1.1\r\nHost: x\r\nTransfer-Encoding: chunked\r\n\r\n5\r\nhello\r\r => 400 (36)",
    "POST /a HTTP/1.1\r\nHost: x\r\nTransfer-Encoding: chunked\r\n\r\n0\r\nX : y\r\n\r\n => 400 (36)",
    "POST /a HTTP/1.1\r\nHost: x\r\nTransfer-Encoding: chunked\r\n\r\n0\r\nX: y\0\r\n\r\n => 400 (36)",
    "POST /a HTTP/1.1\r\nHost: x\r\nTransfer-Encoding: chunked\r\n\r\n5\r\nhello\r\n0\r\n y\r\n\r\n => 400 (36)",
];

/// What a session tells of a text that is read by 4,096 bytes, where the read behind it fails.
fn told_before_a_failed_read(alloc: Global, text: &[u8]) -> Result<String, Fault> {
    let fails_at = text.len().div_ceil(4_096);
    told(
        alloc,
        &mut Torn::new(text, 4_096, fails_at, ErrorKind::Other),
    )
}

/// Whether a session refuses a text with its last byte, and not without it.
pub fn is_decided(alloc: Global, text: &[u8], word: &str) -> Result<bool, Fault> {
    let (_, front) = text.split_last().ok_or(Fault::BadValue)?;
    let cut = told_before_a_failed_read(alloc, front)?;
    let whole = told_before_a_failed_read(alloc, text)?;
    Ok(cut.as_str() == "fault 40 next 1000 " && is_so(&whole, word))
}

#[test]
fn heads_are_refused_at_their_empty_line(rt: HostRuntime) {
    assert_eq!(rt; first_wrong(rt.alloc(), Way::End, &HEADS), None);
    assert_eq!(rt; first_wrong(rt.alloc(), Way::Decided, &HEADS), None);
}

#[test]
fn chunks_are_refused_at_their_last_byte(rt: HostRuntime) {
    assert_eq!(rt; first_wrong(rt.alloc(), Way::End, &CHUNKS), None);
    assert_eq!(rt; first_wrong(rt.alloc(), Way::Decided, &CHUNKS), None);
}

const LONG: [&str; 7] = [
    // heads of 8,192 bytes that aren't whole
    "GET /‹8187 a› => 431 (33)",
    "GET /a HTTP/1.1\r\nHost: x\r\nX: ‹8163 y› => 431 (33)",
    "GET /a HTTP/1.1\r\nHost: x\r\nX: ‹8161 y›\r\n => 431 (33)",
    "‹4096 \r\n› => 431 (33)",
    // one of 65 fields
    "GET /a HTTP/1.1\r\nHost: x\r\n‹64 X: y\r\n›\r\n => 431 (33)",
    // a trailer of 8,192 bytes that isn't whole, and one of 65 fields
    "POST /a HTTP/1.1\r\nHost: x\r\nTransfer-Encoding: chunked\r\n\r\n0\r\nX: ‹8189 y› => 400 (36)",
    "POST /a HTTP/1.1\r\nHost: x\r\nTransfer-Encoding: chunked\r\n\r\n0\r\n‹65 X: y\r\n›\r\n => 400 (36)",
];

#[test]
fn sessions_refuse_what_is_too_long_before_the_next_read(rt: HostRuntime) {
    assert_eq!(rt; first_wrong(rt.alloc(), Way::Decided, &LONG), None);
}

/// Chunked bodies of 4,194,304 bytes that aren't whole.
const BOUNDED: [&str; 7] = [
    // the bound cuts a chunk line, or the data of a chunk
    "POST /a HTTP/1.1\r\nHost: x\r\nTransfer-Encoding: chunked\r\n\r\n5;⟨62 a⟩‹65535 ⟨64 a⟩› => 413 (34)",
    "POST /a HTTP/1.1\r\nHost: x\r\nTransfer-Encoding: chunked\r\n\r\n‹4095 1;⟨1017 a⟩\r\nx\r\n›400\r\n‹1019 x› => 413 (34)",
    // it cuts a trailer, or comes behind a chunk
    "POST /a HTTP/1.1\r\nHost: x\r\nTransfer-Encoding: chunked\r\n\r\n‹4095 1;⟨1017 a⟩\r\nx\r\n›0\r\nX: ‹1018 y› => 413 (34)",
    "POST /a HTTP/1.1\r\nHost: x\r\nTransfer-Encoding: chunked\r\n\r\n‹4096 1;⟨1017 a⟩\r\nx\r\n› => 413 (34)",
    // the bound comes behind the data of a chunk
    "POST /a HTTP/1.1\r\nHost: x\r\nTransfer-Encoding: chunked\r\n\r\n‹4095 1;⟨1017 a⟩\r\nx\r\n›3fb\r\n‹1019 x› => 413 (34)",
    // it comes behind the byte after the data, which is its CR, or isn't
    "POST /a HTTP/1.1\r\nHost: x\r\nTransfer-Encoding: chunked\r\n\r\n‹4095 1;⟨1017 a⟩\r\nx\r\n›3fa\r\n‹1018 x›\r => 413 (34)",
    "POST /a HTTP/1.1\r\nHost: x\r\nTransfer-Encoding: chunked\r\n\r\n‹4095 1;⟨1017 a⟩\r\nx\r\n›3fa\r\n‹1018 x›X => 413 (34)",
];

#[test]
fn sessions_refuse_a_line_or_data_at_their_bound_before_the_next_read(rt: HostRuntime) {
    assert_eq!(rt; first_wrong(rt.alloc(), Way::Decided, &BOUNDED[..2]), None);
}

#[test]
fn sessions_refuse_a_trailer_or_its_lack_at_their_bound_before_the_next_read(rt: HostRuntime) {
    assert_eq!(rt; first_wrong(rt.alloc(), Way::Decided, &BOUNDED[2..4]), None);
}

#[test]
fn sessions_refuse_data_without_its_end_at_their_bound_before_the_next_read(rt: HostRuntime) {
    assert_eq!(rt; first_wrong(rt.alloc(), Way::Decided, &BOUNDED[4..]), None);
}

/// Chunked bodies with room for a chunk and its end, which isn't CR LF: the first of the two bytes is another, or the second, at the bound.
const BAD_ENDS: [&str; 2] = [
    "POST /a HTTP/1.1\r\nHost: x\r\nTransfer-Encoding: chunked\r\n\r\n‹4095 1;⟨1017 a⟩\r\nx\r\n›3f9\r\n‹1017 x›X => 400 (36)",
    "POST /a HTTP/1.1\r\nHost: x\r\nTransfer-Encoding: chunked\r\n\r\n‹4095 1;⟨1017 a⟩\r\nx\r\n›3f9\r\n‹1017 x›\rX => 400 (36)",
];

#[test]
fn sessions_refuse_a_wrong_end_of_data_up_to_the_bound_before_the_next_read(rt: HostRuntime) {
    assert_eq!(rt; first_wrong(rt.alloc(), Way::Decided, &BAD_ENDS), None);
}
