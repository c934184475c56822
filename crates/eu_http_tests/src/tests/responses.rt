//! Requests as clients send them, and responses byte for byte.
use eu_base::{App, Config, Fault, Instance, Key, Keys, SharedInstance, Stamp, Status};
use eu_fixtures::{MISSING, REGISTRATION, moment, push_each};
use eu_framing::{EMPTY_ROOM, Inbox, Request, read_request};
use eu_http::{Asked, Outcome, Policy, Wanted, answer, answer_without_memory, asks};
use eu_json::read_instance;
use eu_model::{
    Answer, Ask, Command, Counts, Listed, Listing, Query, Reply, StatusCounts, Times, View,
};
use eu_routes::Routes;
use std::alloc::{AllocError, Global};

/// The instance that `REGISTRATION` says, at 1000.
pub fn instance(alloc: Global) -> Result<SharedInstance, Fault> {
    let now = moment(1000)?;
    let app = App::read(alloc, "A")?;
    read_instance(alloc, REGISTRATION, &app, now)
}

fn listed(alloc: Global) -> Result<Listed, Fault> {
    let instance = instance(alloc)?;
    Ok(Listed {
        instance,
        times: Times {
            registered: 1000,
            updated: 1000,
            up: 1000,
        },
    })
}

fn listing(alloc: Global, held: bool) -> Result<Listing, Fault> {
    let mut leases = Vec::new(alloc);
    if held {
        let listed = listed(alloc)?;
        leases.push(listed)?;
    }
    Ok(Listing::new(leases))
}

/// The bytes of a head and a body.
fn sent(alloc: Global, line: &str, field: &str, body: &[u8]) -> Result<Vec<u8>, AllocError> {
    let head = [line, " HTTP/1.1\r\nHost: x\r\n", field, "Content-Length: "];
    let mut text = String::new(alloc);
    push_each(&mut text, &head)?;
    let len = body.len();
    write!(text, "{len}\r\n\r\n")?;
    let mut bytes = text.into_bytes();
    bytes.extend_from_slice(body)?;
    Ok(bytes)
}

/// The request of a head and a body.
fn request(alloc: Global, line: &str, field: &str, body: &[u8]) -> Result<Request, Fault> {
    let bytes = sent(alloc, line, field, body)?;
    let mut reader = bytes.as_slice();
    let mut inbox = Inbox::new(alloc);
    let mut room = EMPTY_ROOM;
    read_request(alloc, &mut reader, &mut inbox, &mut room)?.ok_or(Fault::BadHead)
}

/// Writes a key behind a word.
fn tell_key(out: &mut String, word: &str, key: &Key) -> Result<(), AllocError> {
    push_each(out, &[word, " ", key.app.as_str(), " ", key.id.as_str()])
}

fn tell_stamp(out: &mut String, stamp: Option<Stamp>) -> Result<(), AllocError> {
    match stamp {
        Some(stamp) => {
            let value = stamp.value();
            write!(out, " {value}")
        }
        None => out.push_str(" -"),
    }
}

fn tell_status(out: &mut String, status: Option<Status>) -> Result<(), AllocError> {
    out.push_str(" ")?;
    out.push_str(status.map_or("-", Status::name))
}

/// Writes whether a peer sends a command.
fn tell_sender(out: &mut String, replicated: bool) -> Result<(), AllocError> {
    out.push_str(if replicated { " r" } else { " c" })
}

/// Writes a word, a key, a status and a stamp.
fn tell_status_of(
    out: &mut String,
    word: &str,
    key: &Key,
    status: Option<Status>,
    last_dirty: Option<Stamp>,
) -> Result<(), AllocError> {
    tell_key(out, word, key)?;
    tell_status(out, status)?;
    tell_stamp(out, last_dirty)
}

/// Writes an override, or the end of one, as words.
fn tell_override(out: &mut String, command: &Command) -> Result<(), AllocError> {
    match command {
        Command::SetStatus {
            key,
            status,
            last_dirty,
            ..
        } => tell_status_of(out, "set", key, Some(*status), *last_dirty),
        Command::UnsetStatus {
            key,
            status,
            last_dirty,
            ..
        } => tell_status_of(out, "unset", key, *status, *last_dirty),
        _ => out.push_str("other"),
    }
}

/// Writes a word, a key and a stamp.
fn tell_stamp_of(
    out: &mut String,
    word: &str,
    key: &Key,
    last_dirty: Option<Stamp>,
) -> Result<(), AllocError> {
    tell_key(out, word, key)?;
    tell_stamp(out, last_dirty)
}

/// Writes settings as words.
fn tell_settings(out: &mut String, config: &Config) -> Result<(), AllocError> {
    let (preservation, percent) = (config.preservation, config.percent.value());
    let (interval, evict_ms) = (config.interval.secs(), config.evict_ms);
    write!(out, "config {preservation} {percent} {interval} {evict_ms}")
}

/// Writes a command as words, all but its sender.
fn tell_change(out: &mut String, command: &Command) -> Result<(), AllocError> {
    match command {
        Command::Register { instance, .. } => {
            tell_stamp_of(out, "register", instance.key(), Some(instance.last_dirty()))
        }
        Command::Renew {
            key,
            last_dirty,
            overridden,
            ..
        } => {
            tell_stamp_of(out, "renew", key, *last_dirty)?;
            tell_status(out, *overridden)
        }
        Command::Cancel { key, .. } => tell_key(out, "cancel", key),
        Command::Reconfigure { config } => tell_settings(out, config),
        _ => tell_override(out, command),
    }
}

/// Whether a peer sends a command.
fn is_replicated(command: &Command) -> bool {
    match command {
        Command::Register { replicated, .. } => *replicated,
        Command::Renew { replicated, .. } => *replicated,
        Command::Cancel { replicated, .. } => *replicated,
        Command::SetStatus { replicated, .. } => *replicated,
        Command::UnsetStatus { replicated, .. } => *replicated,
        _ => false,
    }
}

/// Writes a command as words; `r` ends it where a peer sends it, else `c`.
fn tell_command(out: &mut String, command: &Command) -> Result<(), AllocError> {
    tell_change(out, command)?;
    tell_sender(out, is_replicated(command))
}

fn tell_query(out: &mut String, query: &Query) -> Result<(), AllocError> {
    match query {
        Query::One(key) => tell_key(out, "one", key),
        Query::OfApp(app) => {
            out.push_str("of ")?;
            out.push_str(app.as_str())
        }
        Query::All => out.push_str("all"),
        Query::Counts => out.push_str("counts"),
        Query::Page => out.push_str("page"),
    }
}

/// Writes one ask as words.
fn tell_ask(out: &mut String, ask: &Ask) -> Result<(), AllocError> {
    match ask {
        Ask::Do(command) => tell_command(out, command),
        Ask::See(query) => tell_query(out, query),
    }
}

/// Writes asks as words, each ended by a semicolon.
fn tell_asks(out: &mut String, asks: &[Ask]) -> Result<(), AllocError> {
    for ask in asks {
        tell_ask(out, ask)?;
        out.push_str(";")?;
    }
    Ok(())
}

/// Writes what is asked as words.
fn tell(out: &mut String, asked: &Asked) -> Result<(), AllocError> {
    match asked {
        Asked::Asks { wanted: _, asks } => tell_asks(out, asks),
        _ => out.push_str("forbidden"),
    }
}

/// What is asked, as words.
fn words(alloc: Global, asked: Asked) -> Result<String, AllocError> {
    let mut out = String::new(alloc);
    let told = tell(&mut out, &asked);
    drop(asked);
    told?;
    Ok(out)
}

/// What a request asks at 1000, as words.
fn request_told(alloc: Global, request: &Request) -> Result<String, Fault> {
    let asked = asked(alloc, request)?;
    Ok(words(alloc, asked)?)
}

/// The same of the request of a head and a body.
fn told(alloc: Global, line: &str, field: &str, body: &[u8]) -> Result<String, Fault> {
    let request = request(alloc, line, field, body)?;
    let told = request_told(alloc, &request);
    drop(request);
    told
}

/// Whether such a request asks that.
pub fn is_asked(alloc: Global, line: &str, field: &str, body: &str, asks: &str) -> bool {
    match told(alloc, line, field, body.as_bytes()) {
        Ok(told) => told.as_str() == asks,
        Err(_) => false,
    }
}

/// Whether the request of a line and a body asks nothing, by that fault.
pub fn is_refused(alloc: Global, line: &str, body: &[u8], fault: Fault) -> bool {
    told(alloc, line, "", body).err() == Some(fault)
}

/// Whether that is the response, for what came of a request.
pub fn is_said(alloc: Global, outcome: Outcome, close: bool, text: &str) -> bool {
    let response = answer(alloc, &outcome, close);
    drop(outcome);
    match response {
        Ok(bytes) => bytes.as_slice() == text.as_bytes(),
        Err(_) => false,
    }
}

/// What a request asks at 1000.
fn asked(alloc: Global, request: &Request) -> Result<Asked, Fault> {
    let now = moment(1000)?;
    let routes = Routes::new(alloc)?;
    let asked = asks(alloc, &routes, &Policy::open(), request, now);
    drop(routes);
    asked
}

/// The kind of answer that the request of a line and a body wants.
fn wanted(alloc: Global, line: &str, body: &[u8]) -> Result<Option<Wanted>, Fault> {
    let request = request(alloc, line, "", body)?;
    let asked = asked(alloc, &request);
    drop(request);
    Ok(match asked? {
        Asked::Asks { wanted, asks: _ } => Some(wanted),
        Asked::Forbidden => None,
    })
}

/// What comes of the request of a line with these answers. A batch has no item.
pub fn came(
    alloc: Global,
    line: &str,
    answers: Vec<Result<Answer, Fault>>,
) -> Result<Outcome, Fault> {
    let body = br#"{"replicationList":[]}"#;
    Ok(match wanted(alloc, line, body)? {
        Some(wanted) => Outcome::Answers { wanted, answers },
        None => Outcome::Forbidden,
    })
}

/// What comes of it with this answer alone.
fn only(alloc: Global, line: &str, answer: Result<Answer, Fault>) -> Result<Outcome, Fault> {
    let mut answers = Vec::new(alloc);
    answers.push(answer)?;
    came(alloc, line, answers)
}

/// Whether that is the response, where an answer is the only one.
pub fn is_answered(alloc: Global, line: &str, answer: Result<Answer, Fault>, text: &str) -> bool {
    let outcome = only(alloc, line, answer).unwrap_or(Outcome::Forbidden);
    is_said(alloc, outcome, false, text)
}

fn did(alloc: Global, reply: Reply, text: &str) -> bool {
    is_answered(alloc, "PUT /eureka/apps/A/i1", Ok(Answer::Did(reply)), text)
}

/// Lines of requests, with what they ask.
const LINES: [(&str, &str); 11] = [
    (
        "PUT /eureka/apps/A/i1?lastDirtyTimestamp=7&overriddenstatus=down",
        "renew A i1 7 DOWN c;",
    ),
    ("PUT /eureka/v2/apps/a/i1", "renew A i1 - - c;"),
    ("DELETE /eureka/apps/A/i1", "cancel A i1 c;"),
    (
        "PUT /eureka/v2/apps/A/i1/status?value=OUT_OF_SERVICE&lastDirtyTimestamp=9",
        "set A i1 OUT_OF_SERVICE 9 c;",
    ),
    (
        "DELETE /eureka/v2/apps/A/i1/status?value=up",
        "unset A i1 UP - c;",
    ),
    ("GET /eureka/apps/", "all;"),
    ("GET /eureka/apps/a", "of A;"),
    ("GET /eureka/apps/A/i1", "one A i1;"),
    ("GET /eureka/apps/delta", "forbidden"),
    ("GET /eureka/status", "page;"),
    (
        "PUT /eureka/config?preservation=off&percent=85&interval=15&evictMs=60000",
        "config false 85 15 60000 c;",
    ),
];

#[test]
fn each_line_asks(rt: HostRuntime) {
    for (line, asks) in &LINES {
        assert!(rt; is_asked(rt.alloc(), line, "", "", asks), "at {line}");
    }
}

#[test]
fn a_body_registers(rt: HostRuntime) {
    let line = "POST /eureka/v2/apps/a";
    let field = "x-netflix-discovery-replication: true\r\n";
    assert!(rt; is_asked(rt.alloc(), line, field, REGISTRATION, "register A i1 5 r;"));
}

/// Lines and bodies of requests, with their first fault.
const FAULTS: [(&str, &str, Fault); 10] = [
    ("POST /eureka/apps", "{", Fault::NoRoute),
    (
        "PATCH /eureka/apps/%FF/i1?lastDirtyTimestamp=x",
        "{",
        Fault::NoRoute,
    ),
    (
        "PUT /eureka/apps/%FF/i1?lastDirtyTimestamp=x",
        "{",
        Fault::BadPath,
    ),
    (
        "PUT /eureka/apps/A/i1?lastDirtyTimestamp=x",
        "{",
        Fault::BadValue,
    ),
    ("PUT /eureka/apps/A/i1/status", "", Fault::BadValue),
    (
        "PUT /eureka/config?preservation=on&percent=101&interval=30&evictMs=60000",
        "",
        Fault::BadValue,
    ),
    ("GET /eureka/config", "", Fault::NoRoute),
    ("POST /eureka/apps/%FF", "{", Fault::BadPath),
    ("POST /eureka/apps/A", "{", Fault::NotJson),
    ("POST /eureka/apps/B", REGISTRATION, Fault::WrongApp),
];

#[test]
fn the_first_fault_is_told(rt: HostRuntime) {
    for (line, body, fault) in &FAULTS {
        assert!(rt;
            is_refused(rt.alloc(), line, body.as_bytes(), *fault),
            "at {line}"
        );
    }
    assert!(rt; is_refused(rt.alloc(), "POST /eureka/apps/A", b"\xFF", Fault::NotJson));
}

#[test]
fn replies_are_written(rt: HostRuntime) {
    let alloc = rt.alloc();
    let fresh = Reply::Registered { fresh: true };
    assert!(rt; did(alloc, fresh, "HTTP/1.1 204 No Content\r\n\r\n"));
    let done = "HTTP/1.1 200 OK\r\nContent-Length: 0\r\n\r\n";
    assert!(rt; did(alloc, Reply::Done, done));
    assert!(rt; did(alloc, Reply::NotFound, MISSING));
    assert!(rt; did(alloc, Reply::Stale, MISSING));
    assert!(rt; did(alloc, Reply::Last(3), MISSING));
    let nobody = Keys::new(Vec::new(alloc));
    assert!(rt; did(alloc, Reply::Evicted(nobody), MISSING));
}

/// The answer that an instance conflicts with one that is held.
pub fn conflict(alloc: Global) -> Result<Answer, Fault> {
    let held = instance(alloc)?;
    Ok(Answer::Did(Reply::Conflict(held)))
}

#[test]
fn a_conflict_is_written(rt: HostRuntime) {
    let text =
        "HTTP/1.1 409 Conflict\r\nContent-Type: application/json\r\nContent-Length: 240\r\n\r\n{\"instance\":{\"app\":\"A\",\"dataCenterInfo\":{\"name\":\"MyOwn\"},\"hostName\":\"h\",\"instanceId\":\"i1\",\"ipAddr\":\"10.0.0.1\",\"lastDirtyTimestamp\":\"5\",\"leaseInfo\":{\"durationInSecs\":90,\"renewalIntervalInSecs\":30},\"overriddenStatus\":\"UNKNOWN\",\"status\":\"UP\"}}";
    let conflict = conflict(rt.alloc());
    assert!(rt; is_answered(rt.alloc(), "PUT /eureka/apps/A/i1", conflict, text));
}

fn one(alloc: Global) -> Result<Answer, Fault> {
    let one = listed(alloc)?;
    Ok(Answer::Saw(View::One(Some(one))))
}

fn nothing(alloc: Global) -> Result<Answer, Fault> {
    let nothing = listing(alloc, false)?;
    Ok(Answer::Saw(View::All(nothing)))
}

fn of_app(alloc: Global, held: bool) -> Result<Answer, Fault> {
    let listing = listing(alloc, held)?;
    Ok(Answer::Saw(View::OfApp(listing)))
}

#[test]
fn one_lease_is_written(rt: HostRuntime) {
    let alloc = rt.alloc();
    let line = "GET /eureka/apps/A/i1";
    let text =
        "HTTP/1.1 200 OK\r\nContent-Type: application/json\r\nContent-Length: 345\r\n\r\n{\"instance\":{\"app\":\"A\",\"dataCenterInfo\":{\"name\":\"MyOwn\"},\"hostName\":\"h\",\"instanceId\":\"i1\",\"ipAddr\":\"10.0.0.1\",\"lastDirtyTimestamp\":\"5\",\"leaseInfo\":{\"durationInSecs\":90,\"evictionTimestamp\":0,\"lastRenewalTimestamp\":1000,\"registrationTimestamp\":1000,\"renewalIntervalInSecs\":30,\"serviceUpTimestamp\":1000},\"overriddenStatus\":\"UNKNOWN\",\"status\":\"UP\"}}";
    assert!(rt; is_answered(alloc, line, one(alloc), text));
    let nobody = Ok(Answer::Saw(View::One(None)));
    assert!(rt; is_answered(alloc, line, nobody, MISSING));
}

#[test]
fn listings_are_written(rt: HostRuntime) {
    let alloc = rt.alloc();
    let text =
        "HTTP/1.1 200 OK\r\nContent-Type: application/json\r\nContent-Length: 77\r\n\r\n{\"applications\":{\"application\":[],\"apps__hashcode\":\"\",\"versions__delta\":\"1\"}}";
    assert!(rt; is_answered(alloc, "GET /eureka/apps/", nothing(alloc), text));
    let line = "GET /eureka/apps/A";
    let text =
        "HTTP/1.1 200 OK\r\nContent-Type: application/json\r\nContent-Length: 374\r\n\r\n{\"application\":{\"instance\":[{\"app\":\"A\",\"dataCenterInfo\":{\"name\":\"MyOwn\"},\"hostName\":\"h\",\"instanceId\":\"i1\",\"ipAddr\":\"10.0.0.1\",\"lastDirtyTimestamp\":\"5\",\"leaseInfo\":{\"durationInSecs\":90,\"evictionTimestamp\":0,\"lastRenewalTimestamp\":1000,\"registrationTimestamp\":1000,\"renewalIntervalInSecs\":30,\"serviceUpTimestamp\":1000},\"overriddenStatus\":\"UNKNOWN\",\"status\":\"UP\"}],\"name\":\"A\"}}";
    assert!(rt; is_answered(alloc, line, of_app(alloc, true), text));
    assert!(rt; is_answered(alloc, line, of_app(alloc, false), MISSING));
}

#[test]
fn views_that_were_not_asked_for_are_missing(rt: HostRuntime) {
    let alloc = rt.alloc();
    assert!(rt; is_answered(alloc, "GET /eureka/apps/A", one(alloc), MISSING));
    assert!(rt; is_answered(alloc, "GET /eureka/v2/status", nothing(alloc), MISSING));
    assert!(rt; is_answered(alloc, "DELETE /eureka/apps/A/i1", nothing(alloc), MISSING));
}

/// The page of a registry that holds one lease.
fn views(alloc: Global) -> Result<Outcome, Fault> {
    let counts = Counts {
        held: 1,
        expected: 2,
        threshold: 3,
        last: 0,
        permitted: false,
        preservation: true,
    };
    let statuses = StatusCounts {
        up: 1,
        down: 0,
        starting: 0,
        out_of_service: 0,
        unknown: 0,
    };
    let mut answers = Vec::new(alloc);
    answers.push(Ok(Answer::Saw(View::Page(counts, statuses))))?;
    came(alloc, "GET /eureka/status", answers)
}

#[test]
fn a_status_page_is_written(rt: HostRuntime) {
    let page = views(rt.alloc()).unwrap_or(Outcome::Forbidden);
    let text =
        "HTTP/1.1 200 OK\r\nContent-Type: text/plain; charset=utf-8\r\nContent-Length: 81\r\nConnection: close\r\n\r\nheld 1\nexpected 2\nthreshold 3\nlast 0\npreservation on\npermitted no\nstatuses UP_1_\n";
    assert!(rt; is_said(rt.alloc(), page, true, text));
}

/// Faults, with the responses that tell them before the connection ends.
const REFUSALS: [(Fault, &str); 5] = [
    (
        Fault::NoRoute,
        "HTTP/1.1 404 Not Found\r\nContent-Length: 0\r\nConnection: close\r\n\r\n",
    ),
    (
        Fault::BodyTooLong,
        "HTTP/1.1 413 Payload Too Large\r\nContent-Type: application/json\r\nContent-Length: 12\r\nConnection: close\r\n\r\n{\"fault\":34}",
    ),
    (
        Fault::BadEncoding,
        "HTTP/1.1 415 Unsupported Media Type\r\nContent-Type: application/json\r\nContent-Length: 12\r\nConnection: close\r\n\r\n{\"fault\":42}",
    ),
    (
        Fault::HeadTooLong,
        "HTTP/1.1 431 Request Header Fields Too Large\r\nContent-Type: application/json\r\nContent-Length: 12\r\nConnection: close\r\n\r\n{\"fault\":33}",
    ),
    (
        Fault::TooLong,
        "HTTP/1.1 400 Bad Request\r\nContent-Type: application/json\r\nContent-Length: 11\r\nConnection: close\r\n\r\n{\"fault\":2}",
    ),
];

#[test]
fn refusals_are_written(rt: HostRuntime) {
    let alloc = rt.alloc();
    let line = "GET /eureka/apps/A";
    for (fault, text) in &REFUSALS {
        let refused = Outcome::Refused(*fault);
        assert!(rt; is_said(alloc, refused, true, text), "at {fault:?}");
    }
    let forbidden = "HTTP/1.1 403 Forbidden\r\nContent-Length: 0\r\n\r\n";
    assert!(rt; is_said(alloc, Outcome::Forbidden, false, forbidden));
    let full =
        "HTTP/1.1 503 Service Unavailable\r\nContent-Type: application/json\r\nContent-Length: 11\r\n\r\n{\"fault\":7}";
    assert!(rt; is_answered(alloc, line, Err(Fault::Full), full));
}

const WITHOUT_MEMORY: &[u8] =
    b"HTTP/1.1 503 Service Unavailable\r\nContent-Type: application/json\r\nContent-Length: 11\r\nConnection: close\r\n\r\n{\"fault\":3}";

#[test]
fn without_memory_a_request_is_refused(rt: HostRuntime) {
    assert!(rt; answer_without_memory() == WITHOUT_MEMORY);
}
