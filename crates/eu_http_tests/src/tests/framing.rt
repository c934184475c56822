use eu_base::Fault;
use eu_fixtures::Parts;
use eu_framing::{
    EMPTY_ROOM, Inbox, MAX_FIELDS, MAX_HEAD, MAX_RAW, MAX_TRAILER, Request, read_request,
};
use eu_stream::Source;
use std::alloc::{AllocError, Global};

const INSTANCE: &[u8] =
    b"{\"instance\":{\"instanceId\":\"i1\",\"hostName\":\"h\",\"app\":\"a\",\"ipAddr\":\"10.0.0.1\",\"status\":\"UP\",\"lastDirtyTimestamp\":\"5\",\"dataCenterInfo\":{\"name\":\"MyOwn\"}}}";

pub const TWO_MORE: &[u8] =
    b"GET /eureka/apps/A/i1 HTTP/1.1\r\nHost: x\r\n\r\nGET /eureka/apps/delta HTTP/1.1\r\nHost: x\r\n\r\n";

/// Writes these parts, one after another.
fn push_each(text: &mut Vec<u8>, parts: &[&[u8]]) -> Result<(), AllocError> {
    for part in parts {
        text.extend_from_slice(part)?;
    }
    Ok(())
}

/// These parts, one after another.
fn joined(alloc: Global, parts: &[&[u8]]) -> Result<Vec<u8>, AllocError> {
    let mut text = Vec::new(alloc);
    push_each(&mut text, parts)?;
    Ok(text)
}

/// The three requests, the first with a length.
pub fn with_length(alloc: Global) -> Result<Vec<u8>, AllocError> {
    let head =
        b"POST /eureka/v2/apps/a HTTP/1.1\r\nHost: x\r\nContent-Length: 150\r\n\r\n".as_slice();
    joined(alloc, &[head, INSTANCE, TWO_MORE])
}

/// The three requests, the first with one chunk.
pub fn with_chunks(alloc: Global) -> Result<Vec<u8>, AllocError> {
    let head =
        b"POST /eureka/v2/apps/a HTTP/1.1\r\nHost: x\r\nTransfer-Encoding: chunked\r\n\r\n96\r\n".as_slice();
    let end = b"\r\n0\r\n\r\n".as_slice();
    joined(alloc, &[head, INSTANCE, end, TWO_MORE])
}

/// Whether a request has that method, target and body.
pub fn is_request(request: &Request, method: &str, target: &str, body: &[u8]) -> bool {
    request.method.as_str() == method
        && request.target.as_str() == target
        && request.body.as_slice() == body
}

/// Whether the next request is this one.
fn is_next<R: Source>(
    alloc: Global,
    reader: &mut R,
    inbox: &mut Inbox,
    method: &str,
    target: &str,
    body: &[u8],
) -> bool {
    let mut room = EMPTY_ROOM;
    match read_request(alloc, reader, inbox, &mut room) {
        Ok(Some(request)) => is_request(&request, method, target, body),
        _ => false,
    }
}

/// The method, the target and the body of the three requests.
pub const THREE: [(&str, &str, &[u8]); 3] = [
    ("POST", "/eureka/v2/apps/a", INSTANCE),
    ("GET", "/eureka/apps/A/i1", b""),
    ("GET", "/eureka/apps/delta", b""),
];

/// Whether the next requests are the three.
fn are_next<R: Source>(alloc: Global, reader: &mut R, inbox: &mut Inbox) -> bool {
    for (method, target, body) in &THREE {
        if !is_next(alloc, reader, inbox, method, target, body) {
            return false;
        }
    }
    true
}

/// Whether no request is left.
fn is_end<R: Source>(alloc: Global, reader: &mut R, inbox: &mut Inbox) -> bool {
    let mut room = EMPTY_ROOM;
    matches!(read_request(alloc, reader, inbox, &mut room), Ok(None))
}

/// Whether the reader gives the three requests, and then the end.
fn are_the_three<R: Source + Drop>(alloc: Global, mut reader: R) -> bool {
    let mut inbox = Inbox::new(alloc);
    are_next(alloc, &mut reader, &mut inbox) && is_end(alloc, &mut reader, &mut inbox)
}

/// The fault that the first request of a reader has.
fn fault_of<R: Source + Drop>(alloc: Global, mut reader: R) -> Option<Fault> {
    let mut inbox = Inbox::new(alloc);
    let mut room = EMPTY_ROOM;
    match read_request(alloc, &mut reader, &mut inbox, &mut room) {
        Err(fault) => Some(fault),
        _ => None,
    }
}

/// The first place where a text has to be cut to give other requests.
fn wrong_cut(alloc: Global, text: &[u8]) -> Option<usize> {
    for cut in 0..text.len() {
        let parts = Parts::ending(&text[..cut], &text[cut..]);
        if !are_the_three(alloc, parts) {
            return Some(cut);
        }
    }
    None
}

/// Whether a text gives the three requests with any cut, and byte by byte.
fn is_cut_freely(alloc: Global, text: Result<Vec<u8>, AllocError>) -> Result<bool, AllocError> {
    let text = text?;
    let is_whole = are_the_three(alloc, Parts::new(&text, 1, false));
    Ok(is_whole && wrong_cut(alloc, &text).is_none())
}

#[test]
fn any_cut_gives_the_same_requests(rt: HostRuntime) {
    let alloc = rt.alloc();
    assert!(rt; is_cut_freely(alloc, with_length(alloc)) == Ok(true));
    assert!(rt; is_cut_freely(alloc, with_chunks(alloc)) == Ok(true));
}

/// Whether a text has that fault, read at once and so many bytes at a time.
fn is_fault(alloc: Global, text: &[u8], size: usize, fault: Option<Fault>) -> bool {
    fault_of(alloc, text) == fault && fault_of(alloc, Parts::new(text, size, false)) == fault
}

/// The same of a text that is made first.
fn is_fault_of(
    alloc: Global,
    text: Result<Vec<u8>, AllocError>,
    size: usize,
    fault: Option<Fault>,
) -> Result<bool, AllocError> {
    let text = text?;
    Ok(is_fault(alloc, &text, size, fault))
}

/// The fault of a text that is made first, read at once.
fn fault_at_once(
    alloc: Global,
    text: Result<Vec<u8>, AllocError>,
) -> Result<Option<Fault>, AllocError> {
    let text = text?;
    Ok(fault_of(alloc, text.as_slice()))
}

/// Texts, and the fault of each.
pub const FAULTS: [(&[u8], Fault); 23] = [
    (b"GET / HTTP/1.1\r\nHost: x\r\n", Fault::BadHead),
    (b"\r", Fault::BadHead),
    (b"GET / HTTP/1.1\r\n\r\n", Fault::BadHead),
    (
        b"GET / HTTP/1.1\r\nHost: x\r\nhost: x\r\n\r\n",
        Fault::BadHead,
    ),
    (b"GET / HTTP/2.0\r\nHost: x\r\n\r\n", Fault::BadHead),
    (b"GET /\xff HTTP/1.1\r\nHost: x\r\n\r\n", Fault::BadHead),
    (
        b"POST / HTTP/1.1\r\nHost: x\r\nContent-Length: 1\r\nContent-Length: 1\r\n\r\na",
        Fault::BadLength,
    ),
    (
        b"POST / HTTP/1.1\r\nHost: x\r\nContent-Length: 5\r\nTransfer-Encoding: chunked\r\n\r\n0\r\n\r\n",
        Fault::BadLength,
    ),
    (
        b"POST / HTTP/1.1\r\nHost: x\r\nContent-Length: +1\r\n\r\na",
        Fault::BadLength,
    ),
    (
        b"POST / HTTP/1.1\r\nHost: x\r\nContent-Length: 00000000000000000001\r\n\r\na",
        Fault::BadLength,
    ),
    (
        b"POST / HTTP/1.1\r\nHost: x\r\nTransfer-Encoding: gzip\r\n\r\n",
        Fault::BadLength,
    ),
    (
        b"POST / HTTP/1.0\r\nTransfer-Encoding: chunked\r\n\r\n0\r\n\r\n",
        Fault::BadLength,
    ),
    (
        b"POST / HTTP/1.1\r\nHost: x\r\nContent-Length: 5\r\n\r\nabcd",
        Fault::BadLength,
    ),
    (
        b"POST / HTTP/1.1\r\nHost: x\r\nContent-Encoding: Identity\r\n\r\n",
        Fault::BadEncoding,
    ),
    (
        b"POST / HTTP/1.1\r\nHost: x\r\nContent-Encoding: identity\r\nContent-Encoding: gzip\r\n\r\n",
        Fault::BadEncoding,
    ),
    (
        b"POST / HTTP/1.1\r\nHost: x\r\nTransfer-Encoding: chunked\r\n\r\n100001\r\n",
        Fault::BodyTooLong,
    ),
    (
        b"POST / HTTP/1.1\r\nHost: x\r\nTransfer-Encoding: chunked\r\n\r\nzz\r\n",
        Fault::BadChunk,
    ),
    (
        b"POST / HTTP/1.1\r\nHost: x\r\nTransfer-Encoding: chunked\r\n\r\n1\r\nabc",
        Fault::BadChunk,
    ),
    (
        b"POST / HTTP/1.1\r\nHost: x\r\nTransfer-Encoding: chunked\r\n\r\n1\r\na\n",
        Fault::BadChunk,
    ),
    (
        b"POST / HTTP/1.1\r\nHost: x\r\nTransfer-Encoding: chunked\r\n\r\n4\r\nabc",
        Fault::BadChunk,
    ),
    (
        b"POST / HTTP/1.1\r\nHost: x\r\nTransfer-Encoding: chunked\r\n\r\n0",
        Fault::BadChunk,
    ),
    (
        b"POST / HTTP/1.1\r\nHost: x\r\nTransfer-Encoding: chunked\r\n\r\n0\r\n",
        Fault::BadChunk,
    ),
    (
        b"POST / HTTP/1.1\r\nHost: x\r\nTransfer-Encoding: chunked\r\n\r\n0\r\na b: c\r\n\r\n",
        Fault::BadChunk,
    ),
];

#[test]
fn each_fault_has_its_cause(rt: HostRuntime) {
    for (text, fault) in &FAULTS {
        assert!(rt; is_fault(rt.alloc(), text, 1, Some(*fault)), "{fault:?}");
    }
}

#[test]
fn a_declared_length_is_judged_before_the_body_comes(rt: HostRuntime) {
    let long = b"POST / HTTP/1.1\r\nHost: x\r\nContent-Length: 1048577\r\n\r\n".as_slice();
    assert!(rt; fault_of(rt.alloc(), Parts::failing(long, b"")) == Some(Fault::BodyTooLong));
    let most = b"POST / HTTP/1.1\r\nHost: x\r\nContent-Length: 1048576\r\n\r\n".as_slice();
    assert!(rt; fault_of(rt.alloc(), Parts::failing(most, b"")) == Some(Fault::Read));
}

/// Requests in two pieces, with the body of each.
const PIECES: [(&[u8], &[u8], &str); 4] = [
    (b"\r\nGET / HTTP/1.1\r\nHo", b"st: x\r\n\r\n", ""),
    (
        b"PUT / HTTP/1.1\r\nHost: x\r\nContent-Length: 3\r\n\r\na",
        b"bc",
        "abc",
    ),
    (
        b"PUT / HTTP/1.1\nHost: x\nTransfer-Encoding: Chunked\n\n1;a\r\na\r\n2\r",
        b"\nbc\r\n0\r\nend: x\r\n\r\n",
        "abc",
    ),
    (
        b"PUT / HTTP/1.1\r\nHost: x\r\nTransfer-Encoding: chunked\r\n\r\n3\r\nabc\r\n",
        b"0\r\n\r\n",
        "abc",
    ),
];

/// Whether the next request has that body.
fn has_body<R: Source>(alloc: Global, reader: &mut R, inbox: &mut Inbox, body: &str) -> bool {
    let mut room = EMPTY_ROOM;
    match read_request(alloc, reader, inbox, &mut room) {
        Ok(Some(request)) => request.body.as_slice() == body.as_bytes(),
        _ => false,
    }
}

/// Whether two pieces are a request with that body, and no more is read for it.
fn is_read_alone(alloc: Global, first: &[u8], second: &[u8], body: &str) -> bool {
    let mut reader = Parts::failing(first, second);
    let mut inbox = Inbox::new(alloc);
    has_body(alloc, &mut reader, &mut inbox, body)
        && inbox.as_slice().is_empty()
        && fault_of(alloc, reader) == Some(Fault::Read)
}

#[test]
fn no_byte_behind_a_request_is_waited_for(rt: HostRuntime) {
    for (first, second, body) in &PIECES {
        assert!(rt; is_read_alone(rt.alloc(), first, second, body), "at {body}");
    }
}

/// What the fields say of the connection and the sender.
fn says(alloc: Global, text: &[u8]) -> Option<(u8, bool, bool)> {
    let mut reader = text;
    let mut inbox = Inbox::new(alloc);
    let mut room = EMPTY_ROOM;
    match read_request(alloc, &mut reader, &mut inbox, &mut room) {
        Ok(Some(request)) => Some((request.minor, request.closes, request.replicated)),
        _ => None,
    }
}

/// Heads, with what their fields say.
const HEADS: [(&[u8], u8, bool, bool); 6] = [
    (
        b"GET / HTTP/1.1\r\nHost: x\r\nConnection: keep-alive\r\n\r\n",
        1,
        false,
        false,
    ),
    (
        b"GET / HTTP/1.1\r\nHost: x\r\nconnection: Close\r\n\r\n",
        1,
        true,
        false,
    ),
    (
        b"GET / HTTP/1.1\r\nHost: x\r\nConnection: keep-alive ,\tClose, x\r\n\r\n",
        1,
        true,
        false,
    ),
    (b"GET / HTTP/1.0\r\n\r\n", 0, true, false),
    (
        b"GET / HTTP/1.1\r\nHost: x\r\nX-Netflix-Discovery-Replication: true\r\n\r\n",
        1,
        false,
        true,
    ),
    (
        b"GET / HTTP/1.1\r\nHost: x\r\nx-netflix-discovery-replication: True\r\nContent-Encoding: identity\r\nContent-Encoding: identity\r\n\r\n",
        1,
        false,
        false,
    ),
];

#[test]
fn fields_tell_of_the_connection(rt: HostRuntime) {
    for (text, minor, closes, replicated) in &HEADS {
        assert!(rt; says(rt.alloc(), text) == Some((*minor, *closes, *replicated)));
    }
}

/// Whether the bytes end before a request.
fn ends(alloc: Global, text: &[u8]) -> bool {
    let mut reader = text;
    let mut inbox = Inbox::new(alloc);
    is_end(alloc, &mut reader, &mut inbox)
}

/// Targets, with the path and the query of each.
const TARGETS: [(&str, &str, &str); 4] = [
    ("/eureka/apps/A/i1", "/eureka/apps/A/i1", ""),
    ("/status?value=UP", "/status", "value=UP"),
    ("http://h/a?b?c", "http://h/a", "b?c"),
    ("?", "", ""),
];

/// Whether a request has that path and that query.
fn is_for(request: &Request, path: &str, query: &str) -> bool {
    request.parts() == (path, query)
}

/// Whether the request of a text has that path and that query.
fn asks_for(alloc: Global, text: &str, path: &str, query: &str) -> bool {
    let mut reader = Parts::ending(text.as_bytes(), b"");
    let mut inbox = Inbox::new(alloc);
    let mut room = EMPTY_ROOM;
    match read_request(alloc, &mut reader, &mut inbox, &mut room) {
        Ok(Some(request)) => is_for(&request, path, query),
        _ => false,
    }
}

/// Whether a target has that path and that query.
fn is_split(alloc: Global, target: &str, path: &str, query: &str) -> Result<bool, AllocError> {
    let text = format!(in alloc; "GET {target} HTTP/1.0\r\n\r\n")?;
    Ok(asks_for(alloc, &text, path, query))
}

#[test]
fn a_target_is_a_path_and_a_query(rt: HostRuntime) {
    for (target, path, query) in &TARGETS {
        assert!(rt;
            is_split(rt.alloc(), target, path, query) == Ok(true),
            "at {target}"
        );
    }
}

#[test]
fn the_end_is_no_fault(rt: HostRuntime) {
    assert!(rt; ends(rt.alloc(), b""));
    assert!(rt; ends(rt.alloc(), b"\r\n\n\r\n"));
    assert!(rt; fault_of(rt.alloc(), Parts::failing(b"", b"")) == Some(Fault::Read));
}

/// A head with so many bytes.
fn head_of(alloc: Global, len: usize) -> Result<Vec<u8>, AllocError> {
    let mut text = Vec::from_slice(alloc, b"GET / HTTP/1.1\r\nHost: ".as_slice())?;
    text.resize(len.saturating_sub(4), b'x')?;
    text.extend_from_slice(b"\r\n\r\n")?;
    Ok(text)
}

/// Writes a part so many times.
fn push_times(text: &mut Vec<u8>, part: &[u8], times: usize) -> Result<(), AllocError> {
    for _time in 0..times {
        text.extend_from_slice(part)?;
    }
    Ok(())
}

/// A head with so many fields.
fn fields_of(alloc: Global, count: usize) -> Result<Vec<u8>, AllocError> {
    let mut text = Vec::from_slice(alloc, b"GET / HTTP/1.1\r\nHost: x\r\n".as_slice())?;
    push_times(&mut text, b"a:b\r\n", count.saturating_sub(1))?;
    text.extend_from_slice(b"\r\n")?;
    Ok(text)
}

#[test]
fn heads_are_taken_up_to_their_limits(rt: HostRuntime) {
    let alloc = rt.alloc();
    let long = Some(Fault::HeadTooLong);
    assert!(rt; is_fault_of(alloc, head_of(alloc, MAX_HEAD), 1, None) == Ok(true));
    assert!(rt; is_fault_of(alloc, head_of(alloc, MAX_HEAD + 1), 1, long) == Ok(true));
    assert!(rt; fault_at_once(alloc, fields_of(alloc, MAX_FIELDS)) == Ok(None));
    assert!(rt; fault_at_once(alloc, fields_of(alloc, MAX_FIELDS + 1)) == Ok(long));
}

/// A chunked request with so many chunks of one byte each.
pub fn chunks_of(alloc: Global, count: usize) -> Result<Vec<u8>, AllocError> {
    let head = b"PUT / HTTP/1.1\r\nHost: x\r\nTransfer-Encoding: chunked\r\n\r\n";
    let mut text = Vec::from_slice(alloc, head.as_slice())?;
    push_times(&mut text, b"1\r\na\r\n", count)?;
    text.extend_from_slice(b"0\r\n\r\n")?;
    Ok(text)
}

#[test]
fn many_chunks_are_taken_in_time(rt: HostRuntime) {
    let alloc = rt.alloc();
    let long = Some(Fault::BodyTooLong);
    assert!(rt; is_fault_of(alloc, chunks_of(alloc, 600_000), 100, None) == Ok(true));
    assert!(rt; fault_at_once(alloc, chunks_of(alloc, 700_000)) == Ok(long));
}

/// A chunked request of which so many bytes have come, all of the first chunk line.
fn line_of(alloc: Global, len: usize) -> Result<Vec<u8>, AllocError> {
    let head = b"PUT / HTTP/1.1\r\nHost: x\r\nTransfer-Encoding: chunked\r\n\r\n1;";
    let mut text = Vec::from_slice(alloc, head.as_slice())?;
    text.resize(text.len().saturating_add(len.saturating_sub(2)), b'x')?;
    Ok(text)
}

#[test]
fn a_raw_body_is_too_long_once_its_limit_has_come(rt: HostRuntime) {
    let alloc = rt.alloc();
    let long = Some(Fault::BodyTooLong);
    assert!(rt; fault_at_once(alloc, line_of(alloc, MAX_RAW)) == Ok(long));
    let bad = Some(Fault::BadChunk);
    assert!(rt; is_fault_of(alloc, line_of(alloc, MAX_RAW - 1), 100, bad) == Ok(true));
}

/// Ends a chunk, and writes so many fields of a trailer, which are as long as a trailer may be and don't end it.
fn push_fields(text: &mut Vec<u8>, fields: usize) -> Result<(), AllocError> {
    text.extend_from_slice(b"\r\na\r\n0\r\n")?;
    push_times(text, b"a:b\r\n", fields.saturating_sub(1))?;
    text.extend_from_slice(b"a:")?;
    let rest = (MAX_TRAILER + 1).saturating_sub(fields.saturating_mul(5));
    text.resize(text.len().saturating_add(rest), b'x')?;
    text.extend_from_slice(b"\r\n")
}

/// A chunked request whose raw body may have so many bytes behind its last chunk line, with so many fields there.
fn trailer_of(alloc: Global, room: usize, fields: usize) -> Result<Vec<u8>, AllocError> {
    let mut text = line_of(alloc, MAX_RAW.saturating_sub(room).saturating_sub(8))?;
    push_fields(&mut text, fields)?;
    Ok(text)
}

/// The room behind the last chunk line and the fields there, with the fault of such a request.
const TRAILERS: [(usize, usize, Fault); 3] = [
    (MAX_TRAILER, MAX_FIELDS, Fault::BodyTooLong),
    (MAX_TRAILER, MAX_FIELDS + 1, Fault::BadChunk),
    (MAX_TRAILER + 1, MAX_FIELDS, Fault::BadChunk),
];

#[test]
fn a_trailer_with_too_many_fields_is_no_long_body(rt: HostRuntime) {
    let alloc = rt.alloc();
    for (room, fields, fault) in &TRAILERS {
        assert!(rt;
            fault_at_once(alloc, trailer_of(alloc, *room, *fields)) == Ok(Some(*fault)),
            "{fields} fields"
        );
    }
}
