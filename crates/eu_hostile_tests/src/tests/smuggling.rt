//! Messages on which readers of HTTP are known to differ: what is made of each, request by request and by a session.
use crate::tests::fakes::{came_of, told};
use crate::tests::rows::{Way, first_wrong, response_of, word_of};
use crate::tests::tables::{
    CHUNKS, CODINGS, CONNECTIONS, DIFFERENCES, FIELDS, LENGTHS, LINES, TARGETS,
};
use eu_base::Fault;
use eu_fixtures::{Brittle, LAST_MISSING, MISSING, Torn, push_each};
use eu_framing::{EMPTY_ROOM, Inbox, Request, Room, read_request};
use eu_stream::Source;
use std::alloc::{AllocError, Global};
use std::io::ErrorKind;

/// What is made of a message, in words, and what a session of it is to write.
#[derive(Drop)]
struct Made {
    words: String,
    responses: String,
}

/// Adds a request.
fn add_request(made: &mut Made, request: &Request) -> Result<(), AllocError> {
    let body = str::from_utf8(&request.body).unwrap_or("?");
    let end = if request.closes { "; close" } else { "; " };
    push_each(
        &mut made.words,
        &[
            request.method.as_str(),
            " ",
            request.target.as_str(),
            " ",
            body,
            end,
        ],
    )?;
    made.responses.push_str(if request.closes {
        LAST_MISSING
    } else {
        MISSING
    })
}

/// Adds the next request of a reader, or why there is none; whether another may follow.
fn add_next<R: Source>(
    alloc: Global,
    reader: &mut R,
    inbox: &mut Inbox,
    room: &mut Room,
    made: &mut Made,
) -> Result<bool, AllocError> {
    match read_request(alloc, reader, inbox, room) {
        Ok(Some(request)) => {
            let closes = request.closes;
            let added = add_request(made, &request);
            drop(request);
            added?;
            Ok(!closes)
        }
        Ok(None) => {
            made.words.push_str("end")?;
            Ok(false)
        }
        Err(fault) => {
            made.words.push_str(word_of(fault))?;
            made.responses.push_str(response_of(word_of(fault)))?;
            Ok(false)
        }
    }
}

/// What is made of the bytes of a reader, of which no message has more than eight requests.
fn made_of<R: Source>(alloc: Global, reader: &mut R) -> Result<Made, AllocError> {
    let mut made = Made {
        words: String::new(alloc),
        responses: String::new(alloc),
    };
    let mut inbox = Inbox::new(alloc);
    let mut room = EMPTY_ROOM;
    for _ in 0..9 {
        if !add_next(alloc, reader, &mut inbox, &mut room, &mut made)? {
            break;
        }
    }
    Ok(made)
}

/// Whether that is made of a message, read by pieces of a size, and a session of it answers so and asks nothing.
fn is_made(alloc: Global, message: &[u8], size: usize, words: &str) -> Result<bool, Fault> {
    let made = made_of(alloc, &mut Torn::steady(message, size))?;
    let mut reader = message;
    let came = came_of(alloc, &mut reader, Brittle::steady(alloc))?;
    let is_answered = came.end.is_ok() && came.writer.text() == made.responses.as_str();
    Ok(is_answered && came.desk.asked.is_empty() && made.words.as_str() == words)
}

/// Whether an answer is one of those that the standard leaves.
fn is_left(ours: &str, left: &str) -> bool {
    for answer in left.split(" | ") {
        if ours.starts_with(answer) {
            return true;
        }
    }
    false
}

/// Whether a message is read as its row says, at once and byte by byte, and as the standard asks, or otherwise.
pub fn is_read(
    alloc: Global,
    message: &[u8],
    answers: &str,
    is_standard: bool,
) -> Result<bool, Fault> {
    let (left, ours) = answers.split_once(" => ").ok_or(Fault::BadValue)?;
    let is_made = is_made(alloc, message, usize::MAX, ours)? && is_made(alloc, message, 1, ours)?;
    Ok(is_made && is_left(ours, left) == is_standard)
}

#[test]
fn messages_are_read_as_the_standard_asks(rt: HostRuntime) {
    let tables = [
        ("request lines", LINES.as_slice()),
        ("targets and hosts", TARGETS.as_slice()),
        ("fields", FIELDS.as_slice()),
        ("connections", CONNECTIONS.as_slice()),
        ("lengths", LENGTHS.as_slice()),
        ("codings", CODINGS.as_slice()),
        ("chunks", CHUNKS.as_slice()),
    ];
    for (name, rows) in tables {
        assert_eq!(rt;
            first_wrong(rt.alloc(), Way::Standard, rows),
            None,
            "{name}"
        );
    }
}

#[test]
fn these_are_read_otherwise_than_the_standard_asks(rt: HostRuntime) {
    assert_eq!(rt; first_wrong(rt.alloc(), Way::Otherwise, &DIFFERENCES), None);
}

/// A message whose body is held back until the server says `100`, and how many bytes its head has.
type HeldBack = (&'static str, usize);

const HELD_BACK: [HeldBack; 2] = [
    (
        "POST /a HTTP/1.1\r\nHost: x\r\nExpect: 100-continue\r\nContent-Length: 5\r\n\r\nhello",
        70,
    ),
    (
        "POST /a HTTP/1.1\r\nHost: x\r\nExpect: 100-continue\r\nTransfer-Encoding: chunked\r\n\r\n5\r\nhello\r\n0\r\n\r\n",
        79,
    ),
];

/// What is told where the read behind the head fails, and the one behind the body: one response, once it has come.
const AWAITED: [(usize, &str); 2] = [
    (1, "fault 40 next 1000 "),
    (
        2,
        "fault 40 next 1001 HTTP/1.1 404 Not Found\r\nContent-Length: 0\r\n\r\n",
    ),
];

/// Whether that is told where such a read fails.
fn is_awaited(alloc: Global, held_back: &HeldBack, awaited: &(usize, &str)) -> Result<bool, Fault> {
    let ((text, size), (fails_at, wanted)) = (*held_back, *awaited);
    let mut reader = Torn::new(text.as_bytes(), size, fails_at, ErrorKind::Other);
    Ok(told(alloc, &mut reader)?.as_str() == wanted)
}

#[test]
fn nothing_is_answered_before_a_body_that_is_held_back(rt: HostRuntime) {
    for held_back in &HELD_BACK {
        assert!(rt; is_awaited(rt.alloc(), held_back, &AWAITED[0]) == Ok(true));
        assert!(rt; is_awaited(rt.alloc(), held_back, &AWAITED[1]) == Ok(true));
    }
}

/// A message with an answer that isn't its, and with its own answer, which isn't the one that is left.
const WRONG: [&str; 2] = [
    "GET /a HTTP/1.1\r\nHost: x\r\n\r\n => 400 => 400 (32)",
    "GET /a HTTP/1.1\r\nHost: x\r\n\r\n => 400 => GET /a ; end",
];

#[test]
fn a_wrong_row_is_told(rt: HostRuntime) {
    assert_eq!(rt;
        first_wrong(rt.alloc(), Way::Standard, &WRONG[..1]),
        Some(0)
    );
    assert_eq!(rt;
        first_wrong(rt.alloc(), Way::Standard, &WRONG[1..]),
        Some(0)
    );
    assert_eq!(rt; first_wrong(rt.alloc(), Way::Otherwise, &WRONG[1..]), None);
}
