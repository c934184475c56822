//! Sessions with a registry, as clients hold them.
use crate::tests::books::{USUAL, first_wrong};

/// An empty registry lists nobody, and refuses a registration of another application, a leave and a body that is too long.
const EMPTY: &str =
    r#"GET /eureka/apps/ = HTTP/1.1 200 OK¶Content-Type: application/json¶Content-Length: 77¶¶{"applications":{"application":[],"apps__hashcode":"","versions__delta":"1"}}
POST /eureka/apps/B {"instance":{"instanceId":"i1","hostName":"h","app":"a","ipAddr":"10.0.0.1","status":"UP","lastDirtyTimestamp":"5","dataCenterInfo":{"name":"MyOwn"}}} = HTTP/1.1 400 Bad Request¶Content-Type: application/json¶Content-Length: 12¶¶{"fault":25}
DELETE /eureka/apps/A/i1 = HTTP/1.1 404 Not Found¶Content-Length: 0¶¶
POST /eureka/apps/a HTTP/1.1¶Host: x¶Content-Length: 1048577¶¶ = requests 1 next 1000 HTTP/1.1 413 Payload Too Large¶Content-Type: application/json¶Content-Length: 12¶Connection: close¶¶{"fault":34}
steps = 1"#;

#[test]
fn an_empty_registry_is_asked(rt: HostRuntime) {
    assert_eq!(rt; first_wrong(rt.alloc(), USUAL, EMPTY), Ok(None));
}

const HELD: &str = r#"register = HTTP/1.1 204 No Content¶¶
GET /eureka/apps/ = HTTP/1.1 200 OK¶Content-Type: application/json¶Content-Length: 440¶¶{"applications":{"application":[{"instance":[{"app":"A","dataCenterInfo":{"name":"MyOwn"},"hostName":"h","instanceId":"i1","ipAddr":"10.0.0.1","lastDirtyTimestamp":"5","leaseInfo":{"durationInSecs":90,"evictionTimestamp":0,"lastRenewalTimestamp":1000,"registrationTimestamp":1000,"renewalIntervalInSecs":30,"serviceUpTimestamp":1000},"overriddenStatus":"UNKNOWN","status":"UP"}],"name":"A"}],"apps__hashcode":"UP_1_","versions__delta":"1"}}
GET /eureka/apps/A = HTTP/1.1 200 OK¶Content-Type: application/json¶Content-Length: 374¶¶{"application":{"instance":[{"app":"A","dataCenterInfo":{"name":"MyOwn"},"hostName":"h","instanceId":"i1","ipAddr":"10.0.0.1","lastDirtyTimestamp":"5","leaseInfo":{"durationInSecs":90,"evictionTimestamp":0,"lastRenewalTimestamp":1000,"registrationTimestamp":1000,"renewalIntervalInSecs":30,"serviceUpTimestamp":1000},"overriddenStatus":"UNKNOWN","status":"UP"}],"name":"A"}}
GET /eureka/status = HTTP/1.1 200 OK¶Content-Type: text/plain; charset=utf-8¶Content-Length: 81¶¶held 1␤expected 0␤threshold 0␤last 0␤preservation on␤permitted no␤statuses UP_1_␤
steps = 1"#;

#[test]
fn what_is_held_is_listed(rt: HostRuntime) {
    assert_eq!(rt; first_wrong(rt.alloc(), USUAL, HELD), Ok(None));
}

const TARGETS: &str = r#"register = HTTP/1.1 204 No Content¶¶
GET /eureka/apps/delta = HTTP/1.1 403 Forbidden¶Content-Length: 0¶¶
GET /eureka/apps/%64elta = HTTP/1.1 404 Not Found¶Content-Length: 0¶¶
GET /eureka/apps/DELTA = HTTP/1.1 404 Not Found¶Content-Length: 0¶¶
PUT http://host/eureka/apps/A/i1 = HTTP/1.1 200 OK¶Content-Length: 0¶¶
PUT HTTPS://host:8761/eureka/v2/apps/a/i1/ = HTTP/1.1 200 OK¶Content-Length: 0¶¶
PUT /eureka/apps/%61/i%31 = HTTP/1.1 200 OK¶Content-Length: 0¶¶
PUT /eureka/apps/A/i1/other = HTTP/1.1 404 Not Found¶Content-Length: 0¶¶
PUT /other/apps/A/i1 = HTTP/1.1 404 Not Found¶Content-Length: 0¶¶
PATCH /eureka/apps/A/i1 = HTTP/1.1 404 Not Found¶Content-Length: 0¶¶
PUT /eureka/apps/A/i1?lastDirtyTimestamp=x = HTTP/1.1 400 Bad Request¶Content-Type: application/json¶Content-Length: 12¶¶{"fault":38}
PUT /eureka/apps/A/i1?lastDirtyTimestamp= = HTTP/1.1 200 OK¶Content-Length: 0¶¶
PUT /eureka/apps/A/i1/status?value=out_of_service = HTTP/1.1 200 OK¶Content-Length: 0¶¶
PUT /eureka/apps/A/i1/status = HTTP/1.1 400 Bad Request¶Content-Type: application/json¶Content-Length: 12¶¶{"fault":38}
DELETE /eureka/apps/A/i1/status?value=up = HTTP/1.1 200 OK¶Content-Length: 0¶¶
DELETE /eureka/apps/A/i1 = HTTP/1.1 200 OK¶Content-Length: 0¶¶
DELETE /eureka/apps/A/i1 = HTTP/1.1 404 Not Found¶Content-Length: 0¶¶"#;

#[test]
fn targets_are_read_as_clients_write_them(rt: HostRuntime) {
    assert_eq!(rt; first_wrong(rt.alloc(), USUAL, TARGETS), Ok(None));
}

/// Once the journal is full, the lease is shown, and a renewal is answered as ever.
const FULL: &str = r#"register = HTTP/1.1 204 No Content¶¶
minutes = 65536
GET /eureka/apps/A/i1 = HTTP/1.1 200 OK¶Content-Type: application/json¶Content-Length: 345¶¶{"instance":{"app":"A","dataCenterInfo":{"name":"MyOwn"},"hostName":"h","instanceId":"i1","ipAddr":"10.0.0.1","lastDirtyTimestamp":"5","leaseInfo":{"durationInSecs":90,"evictionTimestamp":0,"lastRenewalTimestamp":1000,"registrationTimestamp":1000,"renewalIntervalInSecs":30,"serviceUpTimestamp":1000},"overriddenStatus":"UNKNOWN","status":"UP"}}
PUT /eureka/apps/A/i1 = HTTP/1.1 200 OK¶Content-Length: 0¶¶
steps = 65537"#;

#[test]
fn a_full_journal_is_no_end(rt: HostRuntime) {
    assert_eq!(rt; first_wrong(rt.alloc(), USUAL, FULL), Ok(None));
}
