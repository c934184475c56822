//! Requests that are refused for their head, their framing or their body: the desk isn't asked.
use crate::tests::rows::{Way, first_wrong};

/// Heads, with what follows them.
const HEADS: [&str; 7] = [
    "POST /eureka/apps/a HTTP/1.1\r\nHost: x\r\nContent-Length: 2\r\nContent-Length: 2\r\n\r\n{} => 400 (35)",
    "POST /eureka/apps/a HTTP/1.1\r\nHost: x\r\nContent-Length: 2\r\nContent-Length: 3\r\n\r\n{}} => 400 (35)",
    "POST /eureka/apps/a HTTP/1.1\r\nHost: x\r\nContent-Encoding: gzip\r\nContent-Length: 2\r\n\r\n{} => 415 (42)",
    "POST /eureka/apps/a HTTP/1.1\r\nHost: x\r\nContent-Encoding: gzip\r\nTransfer-Encoding: chunked\r\n\r\n0\r\n\r\n => 415 (42)",
    // 8,192 bytes of a head that isn't whole, a head of 65 fields, and one of 64, which is taken
    "GET /eureka/apps HTTP/1.1\r\nHost: x\r\nX: ‹8153 y› => 431 (33)",
    "GET /eureka/apps/A/i1 HTTP/1.1\r\nHost: x\r\n‹64 X: y\r\n›\r\n => 431 (33)",
    "GET /eureka/apps/A/i1 HTTP/1.1\r\nHost: x\r\n‹63 X: y\r\n›\r\n => requests 1 next 1001 HTTP/1.1 200 OK\r\nContent-Type: application/json\r\nContent-Length: 345\r\n\r\n{\"instance\":{\"app\":\"A\",\"dataCenterInfo\":{\"name\":\"MyOwn\"},\"hostName\":\"h\",\"instanceId\":\"i1\",\"ipAddr\":\"10.0.0.1\",\"lastDirtyTimestamp\":\"5\",\"leaseInfo\":{\"durationInSecs\":90,\"evictionTimestamp\":0,\"lastRenewalTimestamp\":1000,\"registrationTimestamp\":1000,\"renewalIntervalInSecs\":30,\"serviceUpTimestamp\":1000},\"overriddenStatus\":\"UNKNOWN\",\"status\":\"UP\"}}look i1 at 1000;",
];

#[test]
fn heads_are_refused(rt: HostRuntime) {
    assert_eq!(rt; first_wrong(rt.alloc(), Way::Told, &HEADS), None);
}

/// Registrations, behind which a session goes on.
const BODIES: [&str; 9] = [
    // bytes that aren't UTF-8, or none
    "POST /eureka/apps/a HTTP/1.1\r\nHost: x\r\nContent-Length: 150\r\n\r\n{\"instance\":{\"instanceId\":\"i1\",\"hostName\":\"\u{ff}\",\"app\":\"a\",\"ipAddr\":\"10.0.0.1\",\"status\":\"UP\",\"lastDirtyTimestamp\":\"5\",\"dataCenterInfo\":{\"name\":\"MyOwn\"}}} => requests 1 next 1001 HTTP/1.1 400 Bad Request\r\nContent-Type: application/json\r\nContent-Length: 12\r\n\r\n{\"fault\":20}",
    "POST /eureka/apps/a HTTP/1.1\r\nHost: x\r\nContent-Length: 1\r\n\r\n\u{c3} => requests 1 next 1001 HTTP/1.1 400 Bad Request\r\nContent-Type: application/json\r\nContent-Length: 12\r\n\r\n{\"fault\":20}",
    "POST /eureka/apps/a HTTP/1.1\r\nHost: x\r\nContent-Length: 0\r\n\r\n => requests 1 next 1001 HTTP/1.1 400 Bad Request\r\nContent-Type: application/json\r\nContent-Length: 12\r\n\r\n{\"fault\":20}",
    // a number that isn't whole; a stamp and a duration past their limits, and both at them
    "POST /eureka/apps/a HTTP/1.1\r\nHost: x\r\nContent-Length: 158\r\n\r\n{\"instance\":{\"instanceId\":\"i1\",\"hostName\":\"h\",\"app\":\"a\",\"ipAddr\":\"10.0.0.1\",\"status\":\"UP\",\"lastDirtyTimestamp\":\"5\",\"dataCenterInfo\":{\"name\":\"MyOwn\"},\"x\":1.5}} => requests 1 next 1001 HTTP/1.1 400 Bad Request\r\nContent-Type: application/json\r\nContent-Length: 12\r\n\r\n{\"fault\":28}",
    "POST /eureka/apps/a HTTP/1.1\r\nHost: x\r\nContent-Length: 168\r\n\r\n{\"instance\":{\"instanceId\":\"i1\",\"hostName\":\"h\",\"app\":\"a\",\"ipAddr\":\"10.0.0.1\",\"status\":\"UP\",\"lastDirtyTimestamp\":\"9223372036854775808\",\"dataCenterInfo\":{\"name\":\"MyOwn\"}}} => requests 1 next 1001 HTTP/1.1 400 Bad Request\r\nContent-Type: application/json\r\nContent-Length: 12\r\n\r\n{\"fault\":29}",
    "POST /eureka/apps/a HTTP/1.1\r\nHost: x\r\nContent-Length: 189\r\n\r\n{\"instance\":{\"instanceId\":\"i1\",\"hostName\":\"h\",\"app\":\"a\",\"ipAddr\":\"10.0.0.1\",\"status\":\"UP\",\"lastDirtyTimestamp\":\"5\",\"dataCenterInfo\":{\"name\":\"MyOwn\"},\"leaseInfo\":{\"durationInSecs\":2147484}}} => requests 1 next 1001 HTTP/1.1 400 Bad Request\r\nContent-Type: application/json\r\nContent-Length: 12\r\n\r\n{\"fault\":30}",
    "POST /eureka/apps/a HTTP/1.1\r\nHost: x\r\nContent-Length: 175\r\n\r\n{\"instance\":{\"instanceId\":\"i1\",\"hostName\":\"h\",\"app\":\"a\",\"ipAddr\":\"10.0.0.1\",\"status\":\"UP\",\"lastDirtyTimestamp\":\"9223372036854775807\",\"dataCenterInfo\":{\"name\":\"MyOwn\"},\"x\":15}} => requests 1 next 1001 HTTP/1.1 204 No Content\r\n\r\nregister 9223372036854775807 at 1000;",
    "POST /eureka/apps/a HTTP/1.1\r\nHost: x\r\nContent-Length: 189\r\n\r\n{\"instance\":{\"instanceId\":\"i1\",\"hostName\":\"h\",\"app\":\"a\",\"ipAddr\":\"10.0.0.1\",\"status\":\"UP\",\"lastDirtyTimestamp\":\"5\",\"dataCenterInfo\":{\"name\":\"MyOwn\"},\"leaseInfo\":{\"durationInSecs\":2147483}}} => requests 1 next 1001 HTTP/1.1 204 No Content\r\n\r\nregister 5 at 1000;",
    // an instance that is 200 arrays, one in another
    "POST /eureka/apps/a HTTP/1.1\r\nHost: x\r\nContent-Length: 413\r\n\r\n{\"instance\":‹200 [›‹200 ]›} => requests 1 next 1001 HTTP/1.1 400 Bad Request\r\nContent-Type: application/json\r\nContent-Length: 12\r\n\r\n{\"fault\":20}",
];

#[test]
fn bodies_are_refused(rt: HostRuntime) {
    assert_eq!(rt; first_wrong(rt.alloc(), Way::Told, &BODIES), None);
}
