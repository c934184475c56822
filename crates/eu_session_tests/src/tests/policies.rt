//! Sessions by the policies that a server may have: which requests are taken, and which are forbidden and ask nothing.
use crate::tests::books::{USUAL, first_wrong, first_wrong_by};
use eu_base::Fault;
use eu_framing::MAX_BODY;
use eu_http::Policy;
use std::alloc::Global;

/// What a page has a browser send, whatever it asks, and where it came from is told or not.
const PAGES: &str = r#"register = HTTP/1.1 204 No Content¶¶
DELETE /eureka/apps/A/i1 HTTP/1.1¶Host: x¶Origin: https://site.example¶¶ = HTTP/1.1 403 Forbidden¶Content-Length: 0¶¶
POST /eureka/peerreplication/batch/ HTTP/1.1¶Host: x¶Origin: null¶Content-Type: text/plain¶Content-Length: 67¶¶{"replicationList":[{"action":"Cancel","appName":"A","id":"i1"}]}¶ = HTTP/1.1 403 Forbidden¶Content-Length: 0¶¶
GET /eureka/apps HTTP/1.1¶Host: x¶ORIGIN:¶¶ = HTTP/1.1 403 Forbidden¶Content-Length: 0¶¶
OPTIONS /eureka/apps/A/i1 HTTP/1.1¶Host: x¶Origin: https://site.example¶Access-Control-Request-Method: DELETE¶¶ = HTTP/1.1 403 Forbidden¶Content-Length: 0¶¶
GET /eureka/nowhere HTTP/1.1¶Host: x¶Origin: https://site.example¶¶ = HTTP/1.1 403 Forbidden¶Content-Length: 0¶¶
PUT /eureka/apps/A/i1 HTTP/1.1¶Host: x¶¶ = HTTP/1.1 200 OK¶Content-Length: 0¶¶
steps = 2"#;

#[test]
fn a_page_asks_nothing(rt: HostRuntime) {
    assert_eq!(rt; first_wrong(rt.alloc(), USUAL, PAGES), Ok(None));
}

/// The place from 1 of the first wrong line of a text, by a policy that was made so.
fn first_wrong_with(
    alloc: Global,
    accepts_peers: bool,
    most_body: usize,
    origin: Option<&str>,
    text: &str,
) -> Result<Option<usize>, Fault> {
    let policy = Policy::new(alloc, accepts_peers, most_body, origin)?;
    let wrong = first_wrong_by(alloc, &policy, USUAL, text);
    drop(policy);
    wrong
}

/// A site whose pages may ask: each field has to be it, byte by byte.
const SITE: &str = r#"register = HTTP/1.1 204 No Content¶¶
PUT /eureka/apps/A/i1 HTTP/1.1¶Host: x¶Origin: https://site.example¶¶ = HTTP/1.1 200 OK¶Content-Length: 0¶¶
PUT /eureka/apps/A/i1 HTTP/1.1¶Host: x¶Origin: https://site.example.evil.example¶¶ = HTTP/1.1 403 Forbidden¶Content-Length: 0¶¶
PUT /eureka/apps/A/i1 HTTP/1.1¶Host: x¶Origin: https://site.exampl¶¶ = HTTP/1.1 403 Forbidden¶Content-Length: 0¶¶
PUT /eureka/apps/A/i1 HTTP/1.1¶Host: x¶Origin: https://site.example:8080¶¶ = HTTP/1.1 403 Forbidden¶Content-Length: 0¶¶
PUT /eureka/apps/A/i1 HTTP/1.1¶Host: x¶Origin: https://SITE.example¶¶ = HTTP/1.1 403 Forbidden¶Content-Length: 0¶¶
PUT /eureka/apps/A/i1 HTTP/1.1¶Host: x¶Origin: null¶¶ = HTTP/1.1 403 Forbidden¶Content-Length: 0¶¶
PUT /eureka/apps/A/i1 HTTP/1.1¶Host: x¶Origin: https://site.example¶origin: https://site.example¶¶ = HTTP/1.1 200 OK¶Content-Length: 0¶¶
PUT /eureka/apps/A/i1 HTTP/1.1¶Host: x¶Origin: https://site.example¶Origin: https://other.example¶¶ = HTTP/1.1 403 Forbidden¶Content-Length: 0¶¶
PUT /eureka/apps/A/i1 HTTP/1.1¶Host: x¶Origin: https://other.example¶Origin: https://site.example¶¶ = HTTP/1.1 403 Forbidden¶Content-Length: 0¶¶
PUT /eureka/apps/A/i1 HTTP/1.1¶Host: x¶Referer: https://other.example/page¶¶ = HTTP/1.1 200 OK¶Content-Length: 0¶¶
PUT /eureka/apps/A/i1 HTTP/1.1¶Host: x¶¶ = HTTP/1.1 200 OK¶Content-Length: 0¶¶
steps = 5"#;

#[test]
fn pages_of_one_site_may_ask(rt: HostRuntime) {
    let wrong = first_wrong_with(
        rt.alloc(),
        true,
        MAX_BODY,
        Some("https://site.example"),
        SITE,
    );
    assert_eq!(rt; wrong, Ok(None));
}

/// What only peers send, and the same of a client.
const PEERS: &str = r#"register = HTTP/1.1 204 No Content¶¶
PUT /eureka/apps/A/i1 HTTP/1.1¶Host: x¶x-netflix-discovery-replication: true¶¶ = HTTP/1.1 403 Forbidden¶Content-Length: 0¶¶
PUT /eureka/apps/A/i1 HTTP/1.1¶Host: x¶x-netflix-discovery-replication: TRUE¶¶ = HTTP/1.1 200 OK¶Content-Length: 0¶¶
PUT /eureka/apps/A/i1 HTTP/1.1¶Host: x¶¶ = HTTP/1.1 200 OK¶Content-Length: 0¶¶
GET /eureka/apps/A/i1 HTTP/1.1¶Host: x¶x-netflix-discovery-replication: true¶¶ = HTTP/1.1 403 Forbidden¶Content-Length: 0¶¶
POST /eureka/peerreplication/batch/ {"replicationList":[]} = HTTP/1.1 403 Forbidden¶Content-Length: 0¶¶
POST /eureka/v2/peerreplication/batch {"replicationList":[{"action":"Cancel","appName":"A","id":"i1"}]} = HTTP/1.1 403 Forbidden¶Content-Length: 0¶¶
POST http://host/eureka/peerreplication/batch?x { = HTTP/1.1 403 Forbidden¶Content-Length: 0¶¶
PUT /eureka/peerreplication/batch {"replicationList":[{"action":"Cancel","appName":"A","id":"i1"}]} = HTTP/1.1 404 Not Found¶Content-Length: 0¶¶
POST /eureka/peerreplication/batches {"replicationList":[{"action":"Cancel","appName":"A","id":"i1"}]} = HTTP/1.1 404 Not Found¶Content-Length: 0¶¶
GET /eureka/apps/A/i1 HTTP/1.1¶Host: x¶Origin: https://site.example¶¶ = HTTP/1.1 403 Forbidden¶Content-Length: 0¶¶
steps = 3"#;

#[test]
fn a_server_without_peers_takes_nothing_of_theirs(rt: HostRuntime) {
    assert_eq!(rt;
        first_wrong_with(rt.alloc(), false, MAX_BODY, None, PEERS),
        Ok(None)
    );
}

/// Where nothing else is said, peers are heard.
const HEARD: &str = r#"register = HTTP/1.1 204 No Content¶¶
PUT /eureka/apps/A/i1 HTTP/1.1¶Host: x¶x-netflix-discovery-replication: true¶¶ = HTTP/1.1 200 OK¶Content-Length: 0¶¶
POST /eureka/peerreplication/batch/ {"replicationList":[]} = HTTP/1.1 200 OK¶Content-Type: application/json¶Content-Length: 19¶¶{"responseList":[]}
POST /eureka/peerreplication/batch/ {"replicationList":[{"action":"Cancel","appName":"A","id":"i1"}]} = HTTP/1.1 200 OK¶Content-Type: application/json¶Content-Length: 37¶¶{"responseList":[{"statusCode":200}]}
steps = 3"#;

#[test]
fn peers_are_heard_unless_it_is_said(rt: HostRuntime) {
    assert_eq!(rt; first_wrong(rt.alloc(), USUAL, HEARD), Ok(None));
}

/// Where a body may have 22 bytes: one of 23 is refused whatever it would ask, also where it came in chunks, and the session goes on. What is forbidden is told first.
const SHORT: &str =
    r#"POST /eureka/peerreplication/batch/ {"replicationList":[]} = HTTP/1.1 200 OK¶Content-Type: application/json¶Content-Length: 19¶¶{"responseList":[]}
POST /eureka/peerreplication/batch/ {"replicationList":[] } = HTTP/1.1 413 Payload Too Large¶Content-Type: application/json¶Content-Length: 12¶¶{"fault":34}
PUT /eureka/apps/A/i1 {"replicationList":[] } = HTTP/1.1 413 Payload Too Large¶Content-Type: application/json¶Content-Length: 12¶¶{"fault":34}
GET /eureka/nowhere {"replicationList":[] } = HTTP/1.1 413 Payload Too Large¶Content-Type: application/json¶Content-Length: 12¶¶{"fault":34}
POST /eureka/apps/A HTTP/1.1¶Host: x¶Transfer-Encoding: chunked¶¶10¶0123456789abcdef¶7¶0123456¶0¶¶ = HTTP/1.1 413 Payload Too Large¶Content-Type: application/json¶Content-Length: 12¶¶{"fault":34}
POST /eureka/apps/A HTTP/1.1¶Host: x¶Transfer-Encoding: chunked¶¶10¶0123456789abcdef¶6¶012345¶0¶¶ = HTTP/1.1 400 Bad Request¶Content-Type: application/json¶Content-Length: 12¶¶{"fault":20}
POST /eureka/apps/A HTTP/1.1¶Host: x¶Origin: null¶Content-Length: 24¶¶{"replicationList":[]}¶ = HTTP/1.1 403 Forbidden¶Content-Length: 0¶¶
steps = 0"#;

#[test]
fn bodies_are_as_short_as_the_policy_says(rt: HostRuntime) {
    assert_eq!(rt;
        first_wrong_with(rt.alloc(), true, 22, None, SHORT),
        Ok(None)
    );
}

/// A server that warms up lists nothing, and takes all else.
const WARMING: &str = r#"register = HTTP/1.1 204 No Content¶¶
GET /eureka/apps HTTP/1.1¶Host: x¶¶ = HTTP/1.1 403 Forbidden¶Content-Length: 0¶¶
GET /eureka/v2/apps/?x HTTP/1.1¶Host: x¶¶ = HTTP/1.1 403 Forbidden¶Content-Length: 0¶¶
GET /eureka/apps/A HTTP/1.1¶Host: x¶¶ = HTTP/1.1 403 Forbidden¶Content-Length: 0¶¶
GET http://host/eureka/apps/%41/ HTTP/1.1¶Host: x¶¶ = HTTP/1.1 403 Forbidden¶Content-Length: 0¶¶
GET /eureka/apps/delta HTTP/1.1¶Host: x¶¶ = HTTP/1.1 403 Forbidden¶Content-Length: 0¶¶
PUT /eureka/apps HTTP/1.1¶Host: x¶¶ = HTTP/1.1 404 Not Found¶Content-Length: 0¶¶
PUT /eureka/apps/A/i1 HTTP/1.1¶Host: x¶Origin: https://site.example¶¶ = HTTP/1.1 200 OK¶Content-Length: 0¶¶
PUT /eureka/apps/A/i1 HTTP/1.1¶Host: x¶Origin: https://other.example¶¶ = HTTP/1.1 403 Forbidden¶Content-Length: 0¶¶
POST /eureka/peerreplication/batch/ {"replicationList":[]} = HTTP/1.1 403 Forbidden¶Content-Length: 0¶¶
PUT /eureka/apps/A/i1 HTTP/1.1¶Host: x¶¶ = HTTP/1.1 200 OK¶Content-Length: 0¶¶
DELETE /eureka/apps/A/i1 HTTP/1.1¶Host: x¶¶ = HTTP/1.1 200 OK¶Content-Length: 0¶¶
steps = 4"#;

/// The place from 1 of the first wrong line of a text, while a server warms up that takes no requests of peers, and those of one site.
fn first_wrong_while_warming(alloc: Global, text: &str) -> Result<Option<usize>, Fault> {
    let policy = Policy::new(alloc, false, MAX_BODY, Some("https://site.example"))?;
    let warm_policy = policy.while_warming(alloc)?;
    drop(policy);
    let wrong = first_wrong_by(alloc, &warm_policy, USUAL, text);
    drop(warm_policy);
    wrong
}

#[test]
fn a_server_that_warms_up_lists_nothing(rt: HostRuntime) {
    assert_eq!(rt; first_wrong_while_warming(rt.alloc(), WARMING), Ok(None));
}
