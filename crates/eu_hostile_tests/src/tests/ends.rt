//! Requests whose lines end with a bare LF: each is answered at its last byte, and no later.
use crate::tests::rows::{Way, first_wrong, word_of};
use eu_fixtures::{Parts, Torn};
use eu_framing::{EMPTY_ROOM, Inbox, read_request};
use eu_stream::Source;
use std::alloc::Global;
use std::io::ErrorKind;

const HEADS: [&str; 9] = [
    "GET /a HTTP/1.1\nHost: x\n\n => taken",
    "\nGET /a HTTP/1.1\nHost: x\n\n => taken",
    "\r\n\n\nGET /a HTTP/1.1\r\nHost: x\nX: y\n\r\n => taken",
    "GET /a HTTP/1.1\nHost: x\r\n\n => taken",
    "GET /a HTTP/1.0\n\n => taken",
    "POST /a HTTP/1.1\nHost: x\nContent-Length: 5\n\nhello => taken",
    "GET /a HTTP/1.1\n\n => 400 (32)",
    "GET /a\n\n => 400 (32)",
    "POST /a HTTP/1.1\nHost: x\nContent-Length: x\n\n => 400 (35)",
];

const CHUNK_LINES: [&str; 5] = [
    "POST /a HTTP/1.1\nHost: x\nTransfer-Encoding: chunked\n\n5\n => 400 (36)",
    "POST /a HTTP/1.1\nHost: x\nTransfer-Encoding: chunked\n\n5;a=b\n => 400 (36)",
    "POST /a HTTP/1.1\nHost: x\nTransfer-Encoding: chunked\n\n\n => 400 (36)",
    "POST /a HTTP/1.1\nHost: x\nTransfer-Encoding: chunked\n\n5\r\nhello\r\n3\n => 400 (36)",
    "POST /a HTTP/1.1\nHost: x\nTransfer-Encoding: chunked\n\n5\r\nhello\r\n0\n => 400 (36)",
];

const TRAILERS: [&str; 7] = [
    "POST /a HTTP/1.1\nHost: x\nTransfer-Encoding: chunked\n\n5\r\nhello\r\n0\r\n\n => taken",
    "POST /a HTTP/1.1\nHost: x\nTransfer-Encoding: chunked\n\n0\r\nX: y\n\n => taken",
    "POST /a HTTP/1.1\nHost: x\nTransfer-Encoding: chunked\n\n0\r\nX: y\r\nZ: w\n\r\n => taken",
    "POST /a HTTP/1.1\nHost: x\nTransfer-Encoding: chunked\n\n0\r\nX: y\r\n\n => taken",
    "POST /a HTTP/1.1\nHost: x\nTransfer-Encoding: chunked\n\n0\r\nX : y\n\n => 400 (36)",
    "POST /a HTTP/1.1\nHost: x\nTransfer-Encoding: chunked\n\n0\r\nX: y\n z\n\n => 400 (36)",
    "POST /a HTTP/1.1\nHost: x\nTransfer-Encoding: chunked\n\n0\r\nX\n\n => 400 (36)",
];

/// The word for the fault of the first request of a reader, or for none.
fn word_by<R: Source>(alloc: Global, reader: &mut R) -> &'static str {
    let mut inbox = Inbox::new(alloc);
    let mut room = EMPTY_ROOM;
    match read_request(alloc, reader, &mut inbox, &mut room) {
        Err(fault) => word_of(fault),
        _ => "taken",
    }
}

/// Whether the first request of a text, which ends with it, is answered at its last byte, and no later: where it comes byte by byte, and where
/// it is cut; the read behind its bytes fails.
pub fn ends(alloc: Global, text: &[u8], word: &str) -> bool {
    for count in 0..text.len() {
        let (first, second) = (&text[..count], &text[count..]);
        let before = word_by(alloc, &mut Torn::new(first, 1, count, ErrorKind::Other));
        let behind = word_by(alloc, &mut Parts::failing(first, second));
        if before != "failed" || behind != word {
            return false;
        }
    }
    word_by(alloc, &mut Torn::new(text, 1, text.len(), ErrorKind::Other)) == word
}

#[test]
fn heads_end_with_their_empty_line(rt: HostRuntime) {
    assert_eq!(rt; first_wrong(rt.alloc(), Way::End, &HEADS), None);
}

#[test]
fn chunk_lines_end_with_their_line_end(rt: HostRuntime) {
    assert_eq!(rt; first_wrong(rt.alloc(), Way::End, &CHUNK_LINES), None);
}

#[test]
fn trailers_end_with_their_empty_line(rt: HostRuntime) {
    assert_eq!(rt; first_wrong(rt.alloc(), Way::End, &TRAILERS), None);
}
