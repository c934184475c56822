//! Sessions with a desk that finds all done, and what they tell, byte for byte.
use crate::tests::books::{USUAL, opened};
use crate::tests::told::{spelled, told};
use eu_base::{App, Fault, Moment};
use eu_clock::ListClock;
use eu_fixtures::{Parts, REGISTRATION, done, joined};
use eu_json::read_instance;
use eu_model::{Answer, Ask, Command, Desk, Listed, Query, Times, View};
use eu_session::{SessionFault, sessions_are_runs};
use eu_stream::Source;
use std::alloc::{AllocError, Global};
use std::test::Fail;

/// Has every lease and finds all done, but for the faults that it has first, and writes what it is asked.
#[derive(Drop)]
struct Noting<'f> {
    faults: &'f [Fault],
    asked: String,
}

impl Desk for Noting<'_> {
    ghost asked = { λ _ _ _ _ _. Unit {0} };

    fn ask(&mut self, alloc: Global, ask: Ask, moment: Moment) -> Result<Answer, Fault> {
        let reply = done(&ask);
        let noted = note(&mut self.asked, &ask, moment.ms());
        drop(ask);
        noted?;
        if let Some((fault, others)) = self.faults.split_first() {
            self.faults = others;
            return Err(*fault);
        }
        match reply {
            Some(reply) => Ok(Answer::Did(reply)),
            None => Ok(Answer::Saw(View::One(Some(listed(alloc)?)))),
        }
    }
}

/// Writes an ask with its moment: a registration of a client, a look at a lease, or another.
fn note(out: &mut String, ask: &Ask, ms: u64) -> Result<(), AllocError> {
    match ask {
        Ask::Do(
            Command::Register {
                instance,
                replicated: false,
            },
        ) => write!(out, "register {} at {ms};", instance.last_dirty().value()),
        Ask::See(Query::One(key)) => {
            write!(out, "{} {} at {ms};", key.app.as_str(), key.id.as_str())
        }
        _ => write!(out, "other at {ms};"),
    }
}

fn listed(alloc: Global) -> Result<Listed, Fault> {
    let moment = Moment::new(1000).ok_or(Fault::BadValue)?;
    let app = App::read(alloc, "A")?;
    let times = Times {
        registered: 1000,
        updated: 1000,
        up: 1000,
    };
    let instance = read_instance(alloc, REGISTRATION, &app, moment)?;
    Ok(Listed { instance, times })
}

/// What is told of a session with a desk that has these faults, and what the desk was asked.
fn noted<R: Source>(
    alloc: Global,
    faults: &[Fault],
    reader: &mut R,
    most: usize,
) -> Result<String, Fault> {
    let mut desk = Noting {
        faults,
        asked: String::new(alloc),
    };
    let mut told = told(alloc, &mut desk, reader, most)?;
    told.push_str(desk.asked.as_str())?;
    Ok(told)
}

/// Whether that is told of a session of a text with a desk that has these faults: the text stands first in the row.
fn is_noted(alloc: Global, faults: &[Fault], row: &str) -> Result<bool, Fault> {
    let row = spelled(alloc, row)?;
    let (text, wanted) = row.split_once(" = ").ok_or(Fault::BadValue)?;
    let told = noted(alloc, faults, &mut text.as_bytes(), usize::MAX)?;
    Ok(told.as_str() == wanted)
}

const ENDS: [&str; 7] = [
    // with a request that closes it
    "DELETE /eureka/apps/A/i1 HTTP/1.0¶¶PUT /eureka/apps/A/i1 HTTP/1.1¶Host: x¶¶ = requests 1 next 1001 HTTP/1.1 200 OK¶Content-Length: 0¶Connection: close¶¶other at 1000;",
    "DELETE /eureka/apps/A/i1 HTTP/1.1¶Host: x¶Connection: Close¶¶PUT /eureka/apps/A/i1 HTTP/1.1¶Host: x¶¶ = requests 1 next 1001 HTTP/1.1 200 OK¶Content-Length: 0¶Connection: close¶¶other at 1000;",
    // before a request
    " = requests 0 next 1000 ",
    "¶¶ = requests 0 next 1000 ",
    "PUT /eureka/apps/A/i1 HTTP/1.1¶Host: x¶¶ = requests 1 next 1001 HTTP/1.1 200 OK¶Content-Length: 0¶¶other at 1000;",
    // with a body that is too long, which counts as a request
    r#"PUT /eureka/apps/A/i1 HTTP/1.1¶Host: x¶¶POST /eureka/apps/a HTTP/1.1¶Host: x¶Content-Length: 1048577¶¶PUT /eureka/apps/A/i1 HTTP/1.1¶Host: x¶¶ = requests 2 next 1001 HTTP/1.1 200 OK¶Content-Length: 0¶¶HTTP/1.1 413 Payload Too Large¶Content-Type: application/json¶Content-Length: 12¶Connection: close¶¶{"fault":34}other at 1000;"#,
    // with the hundredth request
    "‹101 PUT /eureka/apps/A/i1 HTTP/1.1¶Host: x¶¶› = requests 100 next 1002 ‹99 HTTP/1.1 200 OK¶Content-Length: 0¶¶›HTTP/1.1 200 OK¶Content-Length: 0¶Connection: close¶¶other at 1000;other at 1001;‹98 other at 1002;›",
];

#[test]
fn a_session_ends(rt: HostRuntime) {
    for row in &ENDS {
        assert!(rt; is_noted(rt.alloc(), &[], row) == Ok(true), "{row}");
    }
}

const FAULTS: &str =
    r#"GET /eureka/peers HTTP/1.1¶Host: x¶¶PUT /eureka/apps/%FF/i1 HTTP/1.1¶Host: x¶¶PUT /eureka/apps/A/i1 HTTP/1.1¶Host: x¶¶PUT /eureka/apps/A/i1 HTTP/1.1¶Host: x¶¶ = requests 4 next 1002 HTTP/1.1 404 Not Found¶Content-Length: 0¶¶HTTP/1.1 400 Bad Request¶Content-Type: application/json¶Content-Length: 12¶¶{"fault":37}HTTP/1.1 503 Service Unavailable¶Content-Type: application/json¶Content-Length: 11¶¶{"fault":3}HTTP/1.1 503 Service Unavailable¶Content-Type: application/json¶Content-Length: 11¶¶{"fault":7}other at 1002;other at 1002;"#;

#[test]
fn a_fault_behind_the_framing_goes_on(rt: HostRuntime) {
    let faults = [Fault::OutOfMemory, Fault::Full];
    assert!(rt; is_noted(rt.alloc(), faults.as_slice(), FAULTS) == Ok(true));
}

/// A registration, a look at its lease and a request that is forbidden: the body has a length, or one chunk.
const REGISTERED: [&str; 2] = [
    "POST /eureka/v2/apps/a HTTP/1.1\r\nHost: x\r\nContent-Length: 150\r\n\r\n{\"instance\":{\"instanceId\":\"i1\",\"hostName\":\"h\",\"app\":\"a\",\"ipAddr\":\"10.0.0.1\",\"status\":\"UP\",\"lastDirtyTimestamp\":\"5\",\"dataCenterInfo\":{\"name\":\"MyOwn\"}}}GET /eureka/apps/A/i1 HTTP/1.1\r\nHost: x\r\n\r\nGET /eureka/apps/delta HTTP/1.1\r\nHost: x\r\n\r\n",
    "POST /eureka/v2/apps/a HTTP/1.1\r\nHost: x\r\nTransfer-Encoding: chunked\r\n\r\n96\r\n{\"instance\":{\"instanceId\":\"i1\",\"hostName\":\"h\",\"app\":\"a\",\"ipAddr\":\"10.0.0.1\",\"status\":\"UP\",\"lastDirtyTimestamp\":\"5\",\"dataCenterInfo\":{\"name\":\"MyOwn\"}}}\r\n0\r\n\r\nGET /eureka/apps/A/i1 HTTP/1.1\r\nHost: x\r\n\r\nGET /eureka/apps/delta HTTP/1.1\r\nHost: x\r\n\r\n",
];

/// What is told of them.
const SHOWN: &str =
    "requests 3 next 1002 HTTP/1.1 204 No Content\r\n\r\nHTTP/1.1 200 OK\r\nContent-Type: application/json\r\nContent-Length: 345\r\n\r\n{\"instance\":{\"app\":\"A\",\"dataCenterInfo\":{\"name\":\"MyOwn\"},\"hostName\":\"h\",\"instanceId\":\"i1\",\"ipAddr\":\"10.0.0.1\",\"lastDirtyTimestamp\":\"5\",\"leaseInfo\":{\"durationInSecs\":90,\"evictionTimestamp\":0,\"lastRenewalTimestamp\":1000,\"registrationTimestamp\":1000,\"renewalIntervalInSecs\":30,\"serviceUpTimestamp\":1000},\"overriddenStatus\":\"UNKNOWN\",\"status\":\"UP\"}}HTTP/1.1 403 Forbidden\r\nContent-Length: 0\r\n\r\n";

/// Whether that is told where a text is cut.
fn is_shown<D: Desk>(alloc: Global, desk: &mut D, text: &str, at: usize) -> Result<bool, Fault> {
    let (first, second) = text.as_bytes().split_at_checked(at).ok_or(Fault::BadValue)?;
    let told = told(alloc, desk, &mut Parts::ending(first, second), usize::MAX)?;
    Ok(told.as_str() == SHOWN)
}

/// Whether that is told by a book.
fn is_shown_by_a_book(alloc: Global, text: &str, at: usize) -> Result<bool, Fault> {
    let mut book = opened(alloc, USUAL)?;
    let is_shown = is_shown(alloc, &mut book, text, at);
    drop(book);
    is_shown
}

/// Whether that is told by a desk and by a book, and the desk was asked for both.
fn is_cut(alloc: Global, text: &str, at: usize) -> Result<bool, Fault> {
    let mut desk = Noting {
        faults: &[],
        asked: String::new(alloc),
    };
    let is_shown = is_shown(alloc, &mut desk, text, at)?;
    let is_asked = desk.asked.as_str() == "register 5 at 1000;A i1 at 1001;";
    Ok(is_shown && is_asked && is_shown_by_a_book(alloc, text, at)?)
}

/// The first place where a text is cut otherwise.
fn wrong_cut(alloc: Global, text: &str) -> Option<usize> {
    for at in 0..text.len() {
        if is_cut(alloc, text, at) != Ok(true) {
            return Some(at);
        }
    }
    None
}

#[test]
fn any_cut_gives_the_same_session(rt: HostRuntime) {
    for text in &REGISTERED {
        assert_eq!(rt; wrong_cut(rt.alloc(), text), None);
    }
    sessions_are_runs::<ListClock>();
}

#[test]
fn a_reader_fails(rt: HostRuntime) -> Result<(), Fail> {
    let text =
        b"PUT /eureka/apps/A/i1 HTTP/1.1\r\nHost: x\r\n\r\nPUT /eureka/apps/A/i1 HTTP/1.1\r\n";
    let mut reader = Parts::failing(text, b"");
    let told = noted(rt.alloc(), &[], &mut reader, usize::MAX)?;
    assert_eq!(rt;
        told.as_str(),
        "fault 40 next 1001 HTTP/1.1 200 OK\r\nContent-Length: 0\r\n\r\nother at 1000;"
    );
    Ok(())
}

/// A renewal, and a body that is too long.
const BOTH: &[u8] =
    b"PUT /eureka/apps/A/i1 HTTP/1.1\r\nHost: x\r\n\r\nPOST /eureka/apps/a HTTP/1.1\r\nHost: x\r\nContent-Length: 1048577\r\n\r\n";

/// What they are answered.
const ANSWERS: &str =
    "HTTP/1.1 200 OK\r\nContent-Length: 0\r\n\r\nHTTP/1.1 413 Payload Too Large\r\nContent-Type: application/json\r\nContent-Length: 12\r\nConnection: close\r\n\r\n{\"fault\":34}";

/// Whether a session of both has written of their answers what the writer held, and failed.
fn is_full(alloc: Global, most: usize) -> Result<bool, Fault> {
    let (written, _) = ANSWERS.split_at_checked(most).ok_or(Fault::BadValue)?;
    let wanted = joined(alloc, &["fault 41 next 1001 ", written, "other at 1000;"])?;
    let mut reader = BOTH;
    Ok(noted(alloc, &[], &mut reader, most)? == wanted)
}

#[test]
fn a_writer_fails(rt: HostRuntime) {
    for most in 0..=ANSWERS.len() {
        assert!(rt; is_full(rt.alloc(), most) == Ok(true), "at {most}");
    }
}

#[test]
fn faults_have_their_numbers(rt: HostRuntime) {
    assert!(rt; SessionFault::Read.fault().number() == 40);
    assert!(rt; SessionFault::Write.fault().number() == 41);
    assert!(rt; SessionFault::OutOfMemory.fault().number() == 3);
}
