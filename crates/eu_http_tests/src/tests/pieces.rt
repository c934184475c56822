//! Requests that come byte by byte, where the reader fails before each byte, as one does that waits for it: then each call goes on where the
//! last one stopped.
ghost use Rattle.std.specs.Prelude.{None};

use crate::tests::framing::{THREE, TWO_MORE, chunks_of, is_request, with_chunks, with_length};
use eu_base::Fault;
use eu_framing::{EMPTY_ROOM, Inbox, Request, Room, read_request};
use eu_stream::{ReadFault, Source};
use std::alloc::{AllocError, Global};

/// Gives a text, one byte a read, and fails before each byte, once, and then at each read.
#[derive(Drop)]
struct Drip<'a> {
    /// What it hasn't given.
    rest: &'a [u8],
    /// How many reads it was asked for.
    reads: u64,
    /// The next read gives a byte.
    gives: bool,
    has_failed: bool,
}

impl<'a> Drip<'a> {
    fn new(text: &'a [u8]) -> Drip<'a> {
        Drip {
            rest: text,
            reads: 0,
            gives: false,
            has_failed: false,
        }
    }
}

impl Source for Drip<'_> {
    ghost stream = { λ _. 0 };

    ghost remaining = { λ _. None };

    ghost failed = { λ s. s.has_failed };

    fn read_some(&mut self, buffer: &mut [u8]) -> Result<usize, ReadFault> {
        self.reads = self.reads.saturating_add(1);
        if !self.gives || self.rest.is_empty() {
            self.gives = true;
            self.has_failed = true;
            return Err(ReadFault);
        }
        self.gives = false;
        let count = buffer.len().min(1);
        buffer[..count].copy_from_slice(&self.rest[..count]);
        self.rest = &self.rest[count..];
        Ok(count)
    }
}

/// The answer of the first call that waits no more. A call gives one byte at most, so as many calls as bytes and one are enough.
fn next_of(
    alloc: Global,
    drip: &mut Drip<'_>,
    inbox: &mut Inbox,
    room: &mut Room,
) -> Result<Option<Request>, Fault> {
    for _call in 0..=drip.rest.len() {
        match read_request(alloc, drip, inbox, room) {
            Err(Fault::Read) => {}
            answer => return answer,
        }
    }
    Err(Fault::Read)
}

/// Whether the next request is this one, and is answered when so many bytes are left to come.
fn is_next_at(
    alloc: Global,
    drip: &mut Drip<'_>,
    inbox: &mut Inbox,
    request: &(&str, &str, &[u8]),
    left: usize,
) -> bool {
    let mut room = EMPTY_ROOM;
    let (method, target, body) = request;
    match next_of(alloc, drip, inbox, &mut room) {
        Ok(Some(request)) => {
            is_request(&request, method, target, body)
                && drip.rest.len() == left
                && inbox.as_slice().is_empty()
        }
        _ => false,
    }
}

/// Whether a text is the three requests, each answered at its last byte.
fn are_the_three(alloc: Global, text: Result<Vec<u8>, AllocError>) -> Result<bool, AllocError> {
    let text = text?;
    let mut drip = Drip::new(&text);
    let mut inbox = Inbox::new(alloc);
    let [first, second, third] = &THREE;
    Ok(
        is_next_at(alloc, &mut drip, &mut inbox, first, TWO_MORE.len())
            && is_next_at(alloc, &mut drip, &mut inbox, second, 44)
            && is_next_at(alloc, &mut drip, &mut inbox, third, 0),
    )
}

#[test]
fn requests_in_drips_are_answered_at_their_last_byte(rt: HostRuntime) {
    let alloc = rt.alloc();
    assert!(rt; are_the_three(alloc, with_length(alloc)) == Ok(true));
    assert!(rt; are_the_three(alloc, with_chunks(alloc)) == Ok(true));
}

/// Texts that are answered at their last byte, with the body, or the fault.
const ANSWERED: [(&[u8], Result<&[u8], Fault>); 12] = [
    (b"\r\nGET / HTTP/1.1\nHost: x\r\n\n", Ok(b"")),
    (
        b"PUT / HTTP/1.1\r\nHost: x\r\nContent-Length: 3\r\n\r\nabc",
        Ok(b"abc"),
    ),
    (
        b"PUT / HTTP/1.1\nHost: x\nTransfer-Encoding: chunked\n\n1;a\r\na\r\n2\r\nbc\r\n0\r\nend: x\r\n\r\n",
        Ok(b"abc"),
    ),
    (
        b"PUT / HTTP/1.1\nHost: x\nTransfer-Encoding: chunked\n\n3\r\na\nb\r\n00\r\n\n",
        Ok(b"a\nb"),
    ),
    (b"GET / HTTP/1.1\r\n\r\n", Err(Fault::BadHead)),
    (
        b"PUT / HTTP/1.1\r\nHost: x\r\nContent-Length: x\r\n\r\n",
        Err(Fault::BadLength),
    ),
    (
        b"PUT / HTTP/1.1\r\nHost: x\r\nContent-Length: 1048577\r\n\r\n",
        Err(Fault::BodyTooLong),
    ),
    (
        b"PUT / HTTP/1.1\nHost: x\nTransfer-Encoding: chunked\n\n1\r\na\r\nx\r\n",
        Err(Fault::BadChunk),
    ),
    (
        b"PUT / HTTP/1.1\nHost: x\nTransfer-Encoding: chunked\n\n1\r\na\r\n1\r\nab",
        Err(Fault::BadChunk),
    ),
    (
        b"PUT / HTTP/1.1\nHost: x\nTransfer-Encoding: chunked\n\n1\r\na\r\n1\r\na\ra",
        Err(Fault::BadChunk),
    ),
    (
        b"PUT / HTTP/1.1\nHost: x\nTransfer-Encoding: chunked\n\n1\r\na\r\n100000\r\n",
        Err(Fault::BodyTooLong),
    ),
    (
        b"PUT / HTTP/1.1\nHost: x\nTransfer-Encoding: chunked\n\n1\r\na\r\n0\r\nX : y\r\n\r\n",
        Err(Fault::BadChunk),
    ),
];

/// Whether an answer is that body, or that fault.
fn is_answer(answer: Result<Option<Request>, Fault>, wanted: &Result<&[u8], Fault>) -> bool {
    match (answer, wanted) {
        (Ok(Some(request)), Ok(body)) => request.body.as_slice() == *body,
        (Err(fault), Err(wanted)) => fault == *wanted,
        _ => false,
    }
}

/// Whether a text is answered so, once all of it has come.
fn is_answered(alloc: Global, text: &[u8], wanted: &Result<&[u8], Fault>) -> bool {
    let mut drip = Drip::new(text);
    let mut inbox = Inbox::new(alloc);
    let mut room = EMPTY_ROOM;
    let answer = next_of(alloc, &mut drip, &mut inbox, &mut room);
    is_answer(answer, wanted) && drip.rest.is_empty()
}

#[test]
fn drips_are_answered_at_the_last_byte_that_is_needed(rt: HostRuntime) {
    for (text, wanted) in &ANSWERED {
        assert!(rt; is_answered(rt.alloc(), text, wanted));
    }
}

/// How many bytes the body of so many chunks has, and by how many reads it came.
fn reads_of_chunks(alloc: Global, count: usize) -> Result<(usize, u64), Fault> {
    let text = chunks_of(alloc, count)?;
    let mut drip = Drip::new(&text);
    let mut inbox = Inbox::new(alloc);
    let mut room = EMPTY_ROOM;
    match next_of(alloc, &mut drip, &mut inbox, &mut room)? {
        Some(request) => Ok((request.body.len(), drip.reads)),
        None => Err(Fault::BadHead),
    }
}

#[test]
fn many_chunks_in_drips_are_taken_in_time(rt: HostRuntime) {
    assert!(rt; reads_of_chunks(rt.alloc(), 65_536) == Ok((65_536, 786_552)));
}

/// Memory of an inbox that holds nothing is given back; that of one which holds bytes is kept.
fn released(alloc: Global, text: &[u8]) -> (usize, bool) {
    let mut inbox = Inbox::new(alloc);
    let mut room = EMPTY_ROOM;
    let mut reader = Drip::new(text);
    let answer = next_of(alloc, &mut reader, &mut inbox, &mut room);
    drop(answer);
    inbox.release(alloc);
    (inbox.as_slice().len(), inbox.capacity() == 0)
}

#[test]
fn an_empty_inbox_gives_its_memory_back(rt: HostRuntime) {
    let alloc = rt.alloc();
    assert!(rt; released(alloc, b"GET / HTTP/1.1\r\nHost: x\r\n\r\n") == (0, true));
    assert!(rt; released(alloc, b"GET / HTTP/1.1\r\nHost") == (20, false));
}

/// A request whose body waits for its last line, behind one chunk of 65,000 bytes.
fn large_chunk(alloc: Global) -> Result<Vec<u8>, AllocError> {
    let head = b"PUT / HTTP/1.1\r\nHost: x\r\nTransfer-Encoding: chunked\r\n\r\nfde8\r\n";
    let mut text = Vec::from_slice(alloc, head.as_slice())?;
    text.resize(text.len().saturating_add(65_000), b'x')?;
    text.extend_from_slice(b"\r\n")?;
    Ok(text)
}

/// How many bytes an inbox holds that waits there, and whether its memory is said to be as much and that of the body.
fn held_in_a_body(alloc: Global) -> Result<(usize, bool), AllocError> {
    let text = large_chunk(alloc)?;
    let mut inbox = Inbox::new(alloc);
    let mut room = EMPTY_ROOM;
    let mut reader = Drip::new(&text);
    let answer = next_of(alloc, &mut reader, &mut inbox, &mut room);
    drop(answer);
    let held = inbox.as_slice().len();
    Ok((held, inbox.capacity() >= held.saturating_add(65_000)))
}

#[test]
fn the_memory_of_a_body_that_waits_is_counted(rt: HostRuntime) {
    assert!(rt; held_in_a_body(rt.alloc()) == Ok((65_063, true)));
}
