//! Batches as peers send them, and what they are answered, byte for byte.
use crate::tests::responses::{came, conflict, is_answered, is_asked, is_refused, is_said};
use eu_base::Fault;
use eu_fixtures::{ITEM_DONE, ITEM_MISSING};
use eu_http::Outcome;
use eu_model::{Answer, Reply, View};
use std::alloc::{AllocError, Global};

/// Where peers send their batches.
const LINE: &str = "POST /eureka/peerreplication/batch/";

/// Whether that is the response to a batch of one command, which was done.
fn did(alloc: Global, reply: Reply, text: &str) -> bool {
    is_answered(alloc, LINE, Ok(Answer::Did(reply)), text)
}

/// Batches, with what they ask.
const BATCHES: [(&str, &str); 4] = [
    (
        r#"{"replicationList":[{"action":"Heartbeat","appName":"A","id":"zz"}]}"#,
        "renew A zz - - r;",
    ),
    (
        r#"{"replicationList":[{"action":"Cancel","appName":"a","id":"i1"},{"action":"StatusUpdate","appName":"A","id":"i2","status":"DOWN","lastDirtyTimestamp":"9"},{"action":"Heartbeat","appName":"A","id":"i1","lastDirtyTimestamp":"7","overriddenStatus":"UP"},{"action":"DeleteStatusOverride","appName":"A","id":"i2"}]}"#,
        "cancel A i1 r;set A i2 DOWN 9 r;renew A i1 7 UP r;unset A i2 - - r;",
    ),
    (
        r#"{"replicationList":[{"action":"Register","appName":"a","id":"x","instanceInfo":{"instanceId":"i1","hostName":"h","app":"a","ipAddr":"10.0.0.1","dataCenterInfo":{"name":"MyOwn"}}}]}"#,
        "register A i1 1000 r;",
    ),
    (r#"{"replicationList":[]}"#, ""),
];

#[test]
fn a_batch_asks_its_commands_in_order(rt: HostRuntime) {
    for (body, asks) in &BATCHES {
        assert!(rt; is_asked(rt.alloc(), LINE, "", body, asks), "at {body}");
    }
    let field = "x-netflix-discovery-replication: true\r\n";
    let line = "POST /eureka/v2/peerreplication/batch?value=gone";
    assert!(rt; is_asked(rt.alloc(), line, field, r#"{"replicationList":[]}"#, ""));
}

/// Bodies that are no batch.
const NO_BATCHES: [&str; 5] = [
    "",
    "{",
    "[]",
    r#"{"instance":{}}"#,
    r#"{"replicationList":[{"action":"Cancel","appName":"A","id":"i1"},{"action":"Evict","appName":"A","id":"i1"}]}"#,
];

#[test]
fn what_is_no_batch_is_refused(rt: HostRuntime) {
    for body in &NO_BATCHES {
        assert!(rt;
            is_refused(rt.alloc(), LINE, body.as_bytes(), Fault::BadBatch),
            "at {body}"
        );
    }
    assert!(rt; is_refused(rt.alloc(), LINE, b"\xFF", Fault::BadBatch));
}

/// Lines beside the one that a batch is sent by.
const OTHER_LINES: [&str; 3] = [
    "GET /eureka/peerreplication/batch",
    "PUT /eureka/peerreplication/batch",
    "POST /eureka/peerreplication/batch/1",
];

#[test]
fn batches_have_one_route(rt: HostRuntime) {
    for line in &OTHER_LINES {
        assert!(rt;
            is_refused(rt.alloc(), line, b"{", Fault::NoRoute),
            "at {line}"
        );
    }
}

const REFUSED: &str =
    "HTTP/1.1 200 OK\r\nContent-Type: application/json\r\nContent-Length: 37\r\n\r\n{\"responseList\":[{\"statusCode\":503}]}";

#[test]
fn a_batch_is_answered(rt: HostRuntime) {
    let alloc = rt.alloc();
    let refused =
        "HTTP/1.1 400 Bad Request\r\nContent-Type: application/json\r\nContent-Length: 12\r\n\r\n{\"fault\":31}";
    assert!(rt; is_said(alloc, Outcome::Refused(Fault::BadBatch), false, refused));
    let nothing =
        "HTTP/1.1 200 OK\r\nContent-Type: application/json\r\nContent-Length: 19\r\n\r\n{\"responseList\":[]}";
    let none = came(alloc, LINE, Vec::new(alloc)).unwrap_or(Outcome::Forbidden);
    assert!(rt; is_said(alloc, none, false, nothing));
}

#[test]
fn each_reply_has_its_status(rt: HostRuntime) {
    let alloc = rt.alloc();
    assert!(rt; did(alloc, Reply::Registered { fresh: true }, ITEM_DONE));
    assert!(rt; did(alloc, Reply::Registered { fresh: false }, ITEM_DONE));
    assert!(rt; did(alloc, Reply::Done, ITEM_DONE));
    assert!(rt; did(alloc, Reply::NotFound, ITEM_MISSING));
    assert!(rt; did(alloc, Reply::Stale, ITEM_MISSING));
    assert!(rt; did(alloc, Reply::Last(3), ITEM_MISSING));
}

#[test]
fn what_is_no_reply_has_its_status(rt: HostRuntime) {
    let alloc = rt.alloc();
    let seen = Ok(Answer::Saw(View::One(None)));
    assert!(rt; is_answered(alloc, LINE, seen, ITEM_MISSING));
    assert!(rt; is_answered(alloc, LINE, Err(Fault::Full), REFUSED));
    assert!(rt; is_answered(alloc, LINE, Err(Fault::Exhausted), REFUSED));
    assert!(rt; is_answered(alloc, LINE, Err(Fault::OutOfMemory), REFUSED));
}

#[test]
fn a_conflict_tells_what_is_held(rt: HostRuntime) {
    let text =
        "HTTP/1.1 200 OK\r\nContent-Type: application/json\r\nContent-Length: 282\r\n\r\n{\"responseList\":[{\"responseEntity\":{\"app\":\"A\",\"dataCenterInfo\":{\"name\":\"MyOwn\"},\"hostName\":\"h\",\"instanceId\":\"i1\",\"ipAddr\":\"10.0.0.1\",\"lastDirtyTimestamp\":\"5\",\"leaseInfo\":{\"durationInSecs\":90,\"renewalIntervalInSecs\":30},\"overriddenStatus\":\"UNKNOWN\",\"status\":\"UP\"},\"statusCode\":409}]}";
    assert!(rt; is_answered(rt.alloc(), LINE, conflict(rt.alloc()), text));
}

/// Adds an answer.
fn push(
    answers: &mut Vec<Result<Answer, Fault>>,
    answer: Result<Answer, Fault>,
) -> Result<(), AllocError> {
    answers.push(answer)?;
    Ok(())
}

/// Adds a refusal and two replies.
fn push_three(answers: &mut Vec<Result<Answer, Fault>>) -> Result<(), AllocError> {
    push(answers, Err(Fault::Full))?;
    push(answers, Ok(Answer::Did(Reply::NotFound)))?;
    push(answers, Ok(Answer::Did(Reply::Done)))
}

/// A refusal and two replies.
fn three(alloc: Global) -> Result<Outcome, Fault> {
    let mut answers = Vec::new(alloc);
    push_three(&mut answers)?;
    came(alloc, LINE, answers)
}

#[test]
fn items_are_answered_in_order(rt: HostRuntime) {
    let three = three(rt.alloc()).unwrap_or(Outcome::Forbidden);
    let text =
        "HTTP/1.1 200 OK\r\nContent-Type: application/json\r\nContent-Length: 75\r\n\r\n{\"responseList\":[{\"statusCode\":503},{\"statusCode\":404},{\"statusCode\":200}]}";
    assert!(rt; is_said(rt.alloc(), three, false, text));
}
