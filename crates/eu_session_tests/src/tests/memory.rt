//! Want of memory. In a usual run no allocation is refused; `tools/sweep_memory.sh` refuses one after another.
use crate::tests::books::{USUAL, opened, request_of};
use eu_base::Fault;
use eu_book::Book;
use eu_fixtures::{MISSING, clock, pause_or_go_on};
use eu_http::Policy;
use eu_routes::Routes;
use eu_session::{SessionFault, SessionRoom, serve_session};
use eu_stream::Writing;
use std::alloc::{AllocError, Global};

/// The response where a desk finds no memory.
const UNAVAILABLE: &str =
    "HTTP/1.1 503 Service Unavailable\r\nContent-Type: application/json\r\nContent-Length: 11\r\n\r\n{\"fault\":3}";

/// The response where the session finds none, and nothing was done.
const LAST: &str =
    "HTTP/1.1 503 Service Unavailable\r\nContent-Type: application/json\r\nContent-Length: 11\r\nConnection: close\r\n\r\n{\"fault\":3}";

/// How a batch of one item is answered for which it finds none.
const ITEM_UNAVAILABLE: &str = r#"{"responseList":[{"statusCode":503}]}"#;

/// How a session ended, and what it wrote.
#[derive(Drop)]
struct Said {
    ended: Result<u32, SessionFault>,
    out: Vec<u8>,
}

impl Said {
    fn text(&self) -> &str {
        str::from_utf8(&self.out).unwrap_or("?")
    }
}

/// A session with a reader, a writer and a clock of its own. With `is_refused`, refusals that had paused go on while it lasts, and then pause again.
fn say(
    alloc: Global,
    routes: &Routes,
    book: &mut Book,
    text: &str,
    is_refused: bool,
) -> Result<Said, Fault> {
    let mut room = SessionRoom::new(alloc);
    let mut clock = clock(alloc, &[1000, 1001, 1002])?;
    let mut out = Vec::with_capacity(alloc, 4096)?;
    let mut reader = text.as_bytes();
    let mut writer = Writing::new(&mut out);
    if is_refused {
        pause_or_go_on(alloc);
    }
    let ended = serve_session(
        alloc,
        routes,
        &Policy::open(),
        &mut room,
        book,
        &mut clock,
        &mut reader,
        &mut writer,
    );
    if is_refused {
        pause_or_go_on(alloc);
    }
    drop(clock);
    Ok(Said { ended, out })
}

/// A registration, a look at its lease and a renewal.
const REQUESTS: &str =
    "POST /eureka/v2/apps/a HTTP/1.1\r\nHost: x\r\nContent-Length: 150\r\n\r\n{\"instance\":{\"instanceId\":\"i1\",\"hostName\":\"h\",\"app\":\"a\",\"ipAddr\":\"10.0.0.1\",\"status\":\"UP\",\"lastDirtyTimestamp\":\"5\",\"dataCenterInfo\":{\"name\":\"MyOwn\"}}}GET /eureka/apps/A/i1 HTTP/1.1\r\nHost: x\r\n\r\nPUT /eureka/apps/A/i1 HTTP/1.1\r\nHost: x\r\n\r\n";

/// What they are answered.
const RESPONSES: [&str; 3] = [
    "HTTP/1.1 204 No Content\r\n\r\n",
    "HTTP/1.1 200 OK\r\nContent-Type: application/json\r\nContent-Length: 345\r\n\r\n{\"instance\":{\"app\":\"A\",\"dataCenterInfo\":{\"name\":\"MyOwn\"},\"hostName\":\"h\",\"instanceId\":\"i1\",\"ipAddr\":\"10.0.0.1\",\"lastDirtyTimestamp\":\"5\",\"leaseInfo\":{\"durationInSecs\":90,\"evictionTimestamp\":0,\"lastRenewalTimestamp\":1000,\"registrationTimestamp\":1000,\"renewalIntervalInSecs\":30,\"serviceUpTimestamp\":1000},\"overriddenStatus\":\"UNKNOWN\",\"status\":\"UP\"}}",
    "HTTP/1.1 200 OK\r\nContent-Length: 0\r\n\r\n",
];

/// How many whole responses were written, some of which want of memory may have brought; none where something else was.
fn responses(text: &str) -> Option<u32> {
    let mut rest = text;
    let mut count = 0u32;
    for response in RESPONSES {
        let or_refused = rest
            .strip_prefix(UNAVAILABLE)
            .or(rest.strip_prefix(MISSING));
        match rest.strip_prefix(response).or(or_refused) {
            Some(others) => rest = others,
            None => break,
        }
        count = count.saturating_add(1);
    }
    if rest.is_empty() { Some(count) } else { None }
}

/// Whether want of memory ended a session behind whole responses, and no more was done than their commands; or those of one request more, where
/// nothing tells that there was no memory.
fn is_ended(text: &str, steps: u64) -> bool {
    let (before, most) = match text.strip_suffix(LAST) {
        Some(before) => (before, 0u64),
        None => (text, 1),
    };
    match responses(before) {
        Some(count) => count < 3 && steps <= most + u64::from(count),
        None => false,
    }
}

/// Whether a session of three requests answered them all, or was ended by want of memory.
fn is_served(said: &Said, steps: u64) -> bool {
    match said.ended {
        Ok(3) => responses(said.text()) == Some(3) && steps <= 2,
        Err(SessionFault::OutOfMemory) => is_ended(said.text(), steps),
        _ => false,
    }
}

fn is_played(alloc: Global) -> Result<bool, Fault> {
    let mut book = opened(alloc, USUAL)?;
    let routes = Routes::new(alloc)?;
    let said = say(alloc, &routes, &mut book, REQUESTS, false)?;
    Ok(is_served(&said, book.totals().steps))
}

/// Whether a session is so, at the second try where there was no memory to begin the first.
fn is_so(alloc: Global) -> Result<bool, Fault> {
    match is_played(alloc) {
        Err(Fault::OutOfMemory) => is_played(alloc),
        answer => answer,
    }
}

#[test]
fn memory_http(rt: HostRuntime) {
    assert!(rt; is_so(rt.alloc()) == Ok(true));
    assert!(rt; is_so(rt.alloc()) == Ok(true));
}

/// A book, another that is told the same, and the routes.
#[derive(Drop)]
struct Twins {
    tried: Book,
    other: Book,
    routes: Routes,
}

/// Everything that a book holds, as a text.
fn held(alloc: Global, book: &Book) -> Result<String, AllocError> {
    let state = book.state(alloc)?;
    let base = book.base(alloc)?;
    let (first, entries, totals) = (book.first(), book.entries(), book.totals());
    let text = format!(in alloc; "{state:?} {base:?} {first} {entries:?} {totals:?}");
    drop((base, state));
    text
}

fn are_same(alloc: Global, twins: &Twins) -> Result<bool, AllocError> {
    let one = held(alloc, &twins.tried)?;
    let other = held(alloc, &twins.other)?;
    Ok(one.as_str() == other.as_str())
}

/// Whether the desk found no memory, for the request or for the one item of its batch.
fn is_wanting(text: &str) -> bool {
    text == UNAVAILABLE || text.ends_with(ITEM_UNAVAILABLE)
}

/// Whether a session ended by a fault without a response.
fn is_silent(said: &Said) -> bool {
    said.ended.is_err() && said.out.is_empty()
}

/// Whether a session found no memory, and wrote nothing but what tells so. `Mismatch` where it ended otherwise than it may.
fn found_none(said: &Said) -> Result<bool, Fault> {
    match said.ended {
        Ok(1) => Ok(is_wanting(said.text())),
        Err(SessionFault::OutOfMemory) if is_silent(said) || said.text() == LAST => Ok(true),
        _ => Err(Fault::Mismatch),
    }
}

/// What a request is answered where there is memory, at the second try where the first found none, if that changed nothing. None where the session
/// ended without a response, as it does exactly where the command stands. `Mismatch` where the book changed otherwise.
fn answer(alloc: Global, twins: &mut Twins, request: &str) -> Result<Option<Said>, Fault> {
    let said = say(alloc, &twins.routes, &mut twins.tried, request, true)?;
    if !found_none(&said)? {
        return Ok(Some(said));
    }
    let is_silent = is_silent(&said);
    drop(said);
    let is_done = twins.tried.totals().steps != twins.other.totals().steps;
    if is_silent != is_done {
        return Err(Fault::Mismatch);
    }
    if is_done {
        return Ok(None);
    }
    if !are_same(alloc, twins)? {
        return Err(Fault::Mismatch);
    }
    let again = say(alloc, &twins.routes, &mut twins.tried, request, false)?;
    Ok(Some(again))
}

/// Whether a request is answered by both books alike, with that head, and both are the same then.
fn is_answered(alloc: Global, twins: &mut Twins, request: &str, head: &str) -> Result<bool, Fault> {
    let answer = answer(alloc, twins, request)?;
    let other = say(alloc, &twins.routes, &mut twins.other, request, false)?;
    let is_alike = match answer {
        Some(said) => said.text() == other.text(),
        None => true,
    };
    let has_head = other.text().starts_with(head);
    drop(other);
    Ok(is_alike && has_head && are_same(alloc, twins)?)
}

/// Requests, each with how its answer begins; the last four begin with none.
const ROWS: [&str; 19] = [
    "POST /eureka/apps/A HTTP/1.1\r\nHost: x\r\nTransfer-Encoding: chunked\r\n\r\n96\r\n{\"instance\":{\"instanceId\":\"i1\",\"hostName\":\"h\",\"app\":\"a\",\"ipAddr\":\"10.0.0.1\",\"status\":\"UP\",\"lastDirtyTimestamp\":\"5\",\"dataCenterInfo\":{\"name\":\"MyOwn\"}}}\r\n0\r\n\r\n = HTTP/1.1 204 No Content\r\n\r\n",
    "POST /eureka/peerreplication/batch/ {\"replicationList\":[{\"action\":\"Heartbeat\",\"appName\":\"A\",\"id\":\"i1\",\"lastDirtyTimestamp\":\"4\"}]} = HTTP/1.1 200 OK\r\n",
    "GET /eureka/apps/A/%69%31 = HTTP/1.1 200 OK\r\n",
    "GET /eureka/apps/A = HTTP/1.1 200 OK\r\n",
    "GET /eureka/apps = HTTP/1.1 200 OK\r\n",
    "GET /eureka/status = HTTP/1.1 200 OK\r\n",
    "PUT /eureka/apps/A/i1/status?value=OUT_OF_SERVICE&lastDirtyTimestamp=6 = HTTP/1.1 200 OK\r\n",
    "PUT /eureka/apps/A/i1?lastDirtyTimestamp=6&overriddenstatus=OUT_OF_SERVICE = HTTP/1.1 200 OK\r\n",
    "DELETE /eureka/apps/A/i1/status?value=UP = HTTP/1.1 200 OK\r\n",
    "PUT /eureka/config?preservation=on&percent=50&interval=15&evictMs=60000 = HTTP/1.1 200 OK\r\n",
    "PUT /eureka/config?preservation=on&percent=101&interval=15&evictMs=60000 = HTTP/1.1 400 Bad Request\r\n",
    "GET /eureka/apps/delta = HTTP/1.1 403 Forbidden\r\n",
    "DELETE /eureka/apps/A/i1 HTTP/1.1\r\nHost: x\r\nOrigin: https://site.example\r\nOrigin: null\r\n\r\n = HTTP/1.1 403 Forbidden\r\n",
    "DELETE /eureka/apps/A/i1 = HTTP/1.1 200 OK\r\n",
    "GET /eureka/apps/A/i1 = HTTP/1.1 404 Not Found\r\n",
    "GET /eureka/apps HTTP/1.1\r\n\r\n = HTTP/1.1 400 Bad Request\r\n",
    "POST /eureka/apps/A HTTP/1.1\r\nHost: x\r\nContent-Length: 1048577\r\n\r\n = HTTP/1.1 413 Payload Too Large\r\n",
    "POST /eureka/apps/A HTTP/1.1\r\nHost: x\r\nContent-Encoding: gzip\r\n\r\n = HTTP/1.1 415 Unsupported Media Type\r\n",
    "POST /eureka/apps/A HTTP/1.1\r\nHost: x\r\nTransfer-Encoding: chunked\r\n\r\nzz\r\n = HTTP/1.1 400 Bad Request\r\n",
];

/// Whether each request is answered so.
fn are_answered(alloc: Global, twins: &mut Twins) -> Result<bool, Fault> {
    for row in &ROWS {
        let (words, head) = row.split_once(" = ").ok_or(Fault::BadValue)?;
        let request = request_of(alloc, words)?;
        if !is_answered(alloc, twins, &request, head)? {
            return Ok(false);
        }
    }
    Ok(true)
}

fn each_request(alloc: Global) -> Result<bool, Fault> {
    pause_or_go_on(alloc);
    let mut twins = Twins {
        tried: opened(alloc, USUAL)?,
        other: opened(alloc, USUAL)?,
        routes: Routes::new(alloc)?,
    };
    let answered = are_answered(alloc, &mut twins);
    drop(twins);
    answered
}

#[test]
fn memory_requests(rt: HostRuntime) {
    assert!(rt; each_request(rt.alloc()) == Ok(true));
}
