//! Sessions that change the settings of a registry while it runs.
use crate::tests::books::{TEN, first_wrong};

/// At 50% the threshold is 10 * 60 * 50 / 3000, at 85% it is 10 * 60 * 85 / 3000, and at that with a renewal each 15 s 10 * 60 * 85 / 1500.
const CHANGES: &str =
    r#"GET /eureka/status = HTTP/1.1 200 OK¶Content-Type: text/plain; charset=utf-8¶Content-Length: 78¶¶held 0␤expected 10␤threshold 10␤last 0␤preservation on␤permitted no␤statuses ␤
PUT /eureka/config?preservation=on&percent=101&interval=30&evictMs=60000 = HTTP/1.1 400 Bad Request¶Content-Type: application/json¶Content-Length: 12¶¶{"fault":38}
GET /eureka/status = HTTP/1.1 200 OK¶Content-Type: text/plain; charset=utf-8¶Content-Length: 78¶¶held 0␤expected 10␤threshold 10␤last 0␤preservation on␤permitted no␤statuses ␤
PUT /eureka/config?preservation=on&percent=85&interval=30&evictMs=60000 = HTTP/1.1 200 OK¶Content-Length: 0¶¶
GET /eureka/status = HTTP/1.1 200 OK¶Content-Type: text/plain; charset=utf-8¶Content-Length: 78¶¶held 0␤expected 10␤threshold 17␤last 0␤preservation on␤permitted no␤statuses ␤
PUT /eureka/v2/config/?evictMs=0&interval=15&percent=85&preservation=off = HTTP/1.1 200 OK¶Content-Length: 0¶¶
GET /eureka/v2/status = HTTP/1.1 200 OK¶Content-Type: text/plain; charset=utf-8¶Content-Length: 80¶¶held 0␤expected 10␤threshold 34␤last 0␤preservation off␤permitted yes␤statuses ␤
GET /eureka/config = HTTP/1.1 404 Not Found¶Content-Length: 0¶¶
steps = 2"#;

#[test]
fn settings_change_while_the_registry_runs(rt: HostRuntime) {
    assert_eq!(rt; first_wrong(rt.alloc(), TEN, CHANGES), Ok(None));
}

/// Where one of the four values is missing or bad, nothing is asked.
const BAD: &str =
    r#"PUT /eureka/config = HTTP/1.1 400 Bad Request¶Content-Type: application/json¶Content-Length: 12¶¶{"fault":38}
PUT /eureka/config?percent=85&interval=30&evictMs=60000 = HTTP/1.1 400 Bad Request¶Content-Type: application/json¶Content-Length: 12¶¶{"fault":38}
PUT /eureka/config?preservation=on&interval=30&evictMs=60000 = HTTP/1.1 400 Bad Request¶Content-Type: application/json¶Content-Length: 12¶¶{"fault":38}
PUT /eureka/config?preservation=on&percent=85&evictMs=60000 = HTTP/1.1 400 Bad Request¶Content-Type: application/json¶Content-Length: 12¶¶{"fault":38}
PUT /eureka/config?preservation=on&percent=85&interval=30 = HTTP/1.1 400 Bad Request¶Content-Type: application/json¶Content-Length: 12¶¶{"fault":38}
PUT /eureka/v2/config?preservation=on&percent=85&interval=0&evictMs=60000 = HTTP/1.1 400 Bad Request¶Content-Type: application/json¶Content-Length: 12¶¶{"fault":38}
PUT /eureka/config?preservation=on&percent=85&interval=30&evictMs=4294967296 = HTTP/1.1 400 Bad Request¶Content-Type: application/json¶Content-Length: 12¶¶{"fault":38}
GET /eureka/status = HTTP/1.1 200 OK¶Content-Type: text/plain; charset=utf-8¶Content-Length: 78¶¶held 0␤expected 10␤threshold 10␤last 0␤preservation on␤permitted no␤statuses ␤
steps = 0"#;

#[test]
fn bad_settings_ask_nothing(rt: HostRuntime) {
    assert_eq!(rt; first_wrong(rt.alloc(), TEN, BAD), Ok(None));
}
