//! Heads, trailers and bodies that are too long, and those that are just short enough.
use crate::tests::rows::{Way, first_wrong};

const MESSAGES: [&str; 8] = [
    // the value of a field, its name, and the white space before its value (RFC 9110, section 5.4: any fault of the client's)
    "GET /a HTTP/1.1\r\nHost: x\r\nX: ‹8192 y›\r\n\r\n => 431 (33)",
    "GET /a HTTP/1.1\r\nHost: x\r\n‹8192 X›: y\r\n\r\n => 431 (33)",
    "GET /a HTTP/1.1\r\nHost: x\r\nX:‹8192  ›y\r\n\r\n => 431 (33)",
    // many fields
    "GET /a HTTP/1.1\r\nHost: x\r\n‹64 X: y\r\n›\r\n => 431 (33)",
    // empty lines before a head, of which one at least is to be passed over
    "‹4096 \r\n›GET /a HTTP/1.1\r\nHost: x\r\n\r\n => 431 (33)",
    // a trailer
    "POST /a HTTP/1.1\r\nHost: x\r\nTransfer-Encoding: chunked\r\n\r\n0\r\nX: ‹8192 y›\r\n\r\n => 400 (36)",
    // a target and a method (RFC 9112, section 3, asks for 414 and 501)
    "GET /‹8192 a› HTTP/1.1\r\nHost: x\r\n\r\n => 431 (33)",
    "‹8192 G› /a HTTP/1.1\r\nHost: x\r\n\r\n => 431 (33)",
];

#[test]
fn what_is_too_long_is_refused(rt: HostRuntime) {
    assert_eq!(rt; first_wrong(rt.alloc(), Way::ToldTwice, &MESSAGES), None);
}

/// Request lines and trailers that are just short enough, with a request behind each: no route has either path.
const TAKEN: [&str; 3] = [
    // a request line of 8,000 bytes, which is to be taken (RFC 9112, section 3)
    "GET /‹7986 a› HTTP/1.1\r\nHost: x\r\n\r\nGET /b HTTP/1.1\r\nHost: x\r\n\r\n => requests 2 next 1002 HTTP/1.1 404 Not Found\r\nContent-Length: 0\r\n\r\nHTTP/1.1 404 Not Found\r\nContent-Length: 0\r\n\r\n",
    // trailers of 64 fields and of 8,192 bytes
    "POST /a HTTP/1.1\r\nHost: x\r\nTransfer-Encoding: chunked\r\n\r\n0\r\n‹64 X: y\r\n›\r\nGET /b HTTP/1.1\r\nHost: x\r\n\r\n => requests 2 next 1002 HTTP/1.1 404 Not Found\r\nContent-Length: 0\r\n\r\nHTTP/1.1 404 Not Found\r\nContent-Length: 0\r\n\r\n",
    "POST /a HTTP/1.1\r\nHost: x\r\nTransfer-Encoding: chunked\r\n\r\n0\r\nX: ‹8185 y›\r\n\r\nGET /b HTTP/1.1\r\nHost: x\r\n\r\n => requests 2 next 1002 HTTP/1.1 404 Not Found\r\nContent-Length: 0\r\n\r\nHTTP/1.1 404 Not Found\r\nContent-Length: 0\r\n\r\n",
];

#[test]
fn what_is_just_short_enough_is_taken(rt: HostRuntime) {
    assert_eq!(rt; first_wrong(rt.alloc(), Way::ToldTwice, &TAKEN), None);
}

/// The same of bodies.
const BODIES: [&str; 4] = [
    // 1,048,576 bytes with a length, in one chunk, and in chunks of 64 bytes
    "POST /a HTTP/1.1\r\nHost: x\r\nContent-Length: 1048576\r\n\r\n‹16384 ⟨64 x⟩›GET /b HTTP/1.1\r\nHost: x\r\n\r\n => requests 2 next 1002 HTTP/1.1 404 Not Found\r\nContent-Length: 0\r\n\r\nHTTP/1.1 404 Not Found\r\nContent-Length: 0\r\n\r\n",
    "POST /a HTTP/1.1\r\nHost: x\r\nTransfer-Encoding: chunked\r\n\r\n100000\r\n‹16384 ⟨64 x⟩›\r\n0\r\n\r\nGET /b HTTP/1.1\r\nHost: x\r\n\r\n => requests 2 next 1002 HTTP/1.1 404 Not Found\r\nContent-Length: 0\r\n\r\nHTTP/1.1 404 Not Found\r\nContent-Length: 0\r\n\r\n",
    "POST /a HTTP/1.1\r\nHost: x\r\nTransfer-Encoding: chunked\r\n\r\n‹16384 40\r\n⟨64 x⟩\r\n›0\r\n\r\nGET /b HTTP/1.1\r\nHost: x\r\n\r\n => requests 2 next 1002 HTTP/1.1 404 Not Found\r\nContent-Length: 0\r\n\r\nHTTP/1.1 404 Not Found\r\nContent-Length: 0\r\n\r\n",
    // chunks of 4,194,304 bytes as they are sent: the last line has an extension of 4,194,298 bytes
    "POST /a HTTP/1.1\r\nHost: x\r\nTransfer-Encoding: chunked\r\n\r\n0;⟨58 x⟩‹65535 ⟨64 x⟩›\r\n\r\nGET /b HTTP/1.1\r\nHost: x\r\n\r\n => requests 2 next 1002 HTTP/1.1 404 Not Found\r\nContent-Length: 0\r\n\r\nHTTP/1.1 404 Not Found\r\nContent-Length: 0\r\n\r\n",
];

#[test]
fn a_body_that_is_just_short_enough_is_taken(rt: HostRuntime) {
    assert_eq!(rt; first_wrong(rt.alloc(), Way::Told, &BODIES), None);
}
