//! Messages of HTTP, and the JSON in them.
use crate::texts::joined;
use std::alloc::{AllocError, Global};

/// What a client sends at least of an instance, i1 of application A, with a status and a stamp.
pub const REGISTRATION: &str =
    r#"{"instance":{"instanceId":"i1","hostName":"h","app":"a","ipAddr":"10.0.0.1","status":"UP","lastDirtyTimestamp":"5","dataCenterInfo":{"name":"MyOwn"}}}"#;

/// The same, as it is listed, where it was registered at 1000.
pub const LISTED: &str =
    r#"{"instance":{"app":"A","dataCenterInfo":{"name":"MyOwn"},"hostName":"h","instanceId":"i1","ipAddr":"10.0.0.1","lastDirtyTimestamp":"5","leaseInfo":{"durationInSecs":90,"evictionTimestamp":0,"lastRenewalTimestamp":1000,"registrationTimestamp":1000,"renewalIntervalInSecs":30,"serviceUpTimestamp":1000},"overriddenStatus":"UNKNOWN","status":"UP"}}"#;

/// What a look at its lease is answered then, but for the content.
const LOOKED: &str =
    "HTTP/1.1 200 OK\r\nContent-Type: application/json\r\nContent-Length: 345\r\n\r\n";

/// What a look at its lease is answered then.
pub fn looked(alloc: Global) -> Result<String, AllocError> {
    joined(alloc, &[LOOKED, LISTED])
}

/// A renewal of its lease.
pub const RENEWAL: &str = "PUT /eureka/apps/A/i1 HTTP/1.1\r\nHost: x\r\n\r\n";

/// What a registration is answered.
pub const REGISTERED: &str = "HTTP/1.1 204 No Content\r\n\r\n";

/// What a request is answered that names nothing.
pub const MISSING: &str = "HTTP/1.1 404 Not Found\r\nContent-Length: 0\r\n\r\n";

/// The same in the last response of a connection.
pub const LAST_MISSING: &str =
    "HTTP/1.1 404 Not Found\r\nContent-Length: 0\r\nConnection: close\r\n\r\n";

/// What a request is answered that is never granted.
pub const FORBIDDEN: &str = "HTTP/1.1 403 Forbidden\r\nContent-Length: 0\r\n\r\n";

/// What a head is answered that isn't one, or is cut.
pub const BAD_HEAD: &str =
    "HTTP/1.1 400 Bad Request\r\nContent-Type: application/json\r\nContent-Length: 12\r\nConnection: close\r\n\r\n{\"fault\":32}";

/// What a body in chunks is answered that isn't one, or is cut.
pub const BAD_CHUNK: &str =
    "HTTP/1.1 400 Bad Request\r\nContent-Type: application/json\r\nContent-Length: 12\r\nConnection: close\r\n\r\n{\"fault\":36}";

/// What a batch is answered whose one task is done.
pub const ITEM_DONE: &str =
    "HTTP/1.1 200 OK\r\nContent-Type: application/json\r\nContent-Length: 37\r\n\r\n{\"responseList\":[{\"statusCode\":200}]}";

/// What a batch is answered whose one task names nothing.
pub const ITEM_MISSING: &str =
    "HTTP/1.1 200 OK\r\nContent-Type: application/json\r\nContent-Length: 37\r\n\r\n{\"responseList\":[{\"statusCode\":404}]}";
