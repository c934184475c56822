//! Batches of peers, as sessions with a book answer them.
use crate::tests::books::{PEER, USUAL, first_wrong};

/// An instance is renewed that nobody has, by one item and by many: an answer has 18 bytes for each item, a comma between two of them, and 19.
const NOBODY: [&str; 5] = [
    r#"POST /eureka/peerreplication/batch/ {"replicationList":[{"action":"Heartbeat","appName":"A","id":"zz"}]} = HTTP/1.1 200 OK¶Content-Type: application/json¶Content-Length: 37¶¶{"responseList":[{"statusCode":404}]}
steps = 1"#,
    r#"POST /eureka/peerreplication/batch/ {"replicationList":[‹100 {"action":"Heartbeat","appName":"A","id":"zz"},›{"action":"Heartbeat","appName":"A","id":"zz"}]} = HTTP/1.1 200 OK¶Content-Type: application/json¶Content-Length: 1937¶¶{"responseList":[‹100 {"statusCode":404},›{"statusCode":404}]}
steps = 101"#,
    r#"POST /eureka/peerreplication/batch/ {"replicationList":[‹199 {"action":"Heartbeat","appName":"A","id":"zz"},›{"action":"Heartbeat","appName":"A","id":"zz"}]} = HTTP/1.1 200 OK¶Content-Type: application/json¶Content-Length: 3818¶¶{"responseList":[‹199 {"statusCode":404},›{"statusCode":404}]}
steps = 200"#,
    r#"POST /eureka/peerreplication/batch/ {"replicationList":[‹248 {"action":"Heartbeat","appName":"A","id":"zz"},›{"action":"Heartbeat","appName":"A","id":"zz"}]} = HTTP/1.1 200 OK¶Content-Type: application/json¶Content-Length: 4749¶¶{"responseList":[‹248 {"statusCode":404},›{"statusCode":404}]}
steps = 249"#,
    r#"POST /eureka/peerreplication/batch/ {"replicationList":[‹249 {"action":"Heartbeat","appName":"A","id":"zz"},›{"action":"Heartbeat","appName":"A","id":"zz"}]} = HTTP/1.1 200 OK¶Content-Type: application/json¶Content-Length: 4768¶¶{"responseList":[‹249 {"statusCode":404},›{"statusCode":404}]}
steps = 250"#,
];

#[test]
fn batches_are_answered_item_by_item(rt: HostRuntime) {
    for text in &NOBODY {
        assert_eq!(rt; first_wrong(rt.alloc(), USUAL, text), Ok(None), "{text}");
    }
}

const OLDER: &str = r#"register = HTTP/1.1 204 No Content¶¶
POST /eureka/peerreplication/batch/ {"replicationList":[{"action":"Heartbeat","appName":"A","id":"i1","lastDirtyTimestamp":"4"}]} = HTTP/1.1 200 OK¶Content-Type: application/json¶Content-Length: 282¶¶{"responseList":[{"responseEntity":{"app":"A","dataCenterInfo":{"name":"MyOwn"},"hostName":"h","instanceId":"i1","ipAddr":"10.0.0.1","lastDirtyTimestamp":"5","leaseInfo":{"durationInSecs":90,"renewalIntervalInSecs":30},"overriddenStatus":"UNKNOWN","status":"UP"},"statusCode":409}]}
steps = 2"#;

#[test]
fn an_older_stamp_is_told_what_is_held(rt: HostRuntime) {
    assert_eq!(rt; first_wrong(rt.alloc(), USUAL, OLDER), Ok(None));
}

/// A batch that is empty, and two that are bad.
const IDLE: &str = r#"register = HTTP/1.1 204 No Content¶¶
POST /eureka/peerreplication/batch/ {"replicationList":[]} = HTTP/1.1 200 OK¶Content-Type: application/json¶Content-Length: 19¶¶{"responseList":[]}
steps = 1
GET /eureka/apps/A/i1 = HTTP/1.1 200 OK¶Content-Type: application/json¶Content-Length: 345¶¶{"instance":{"app":"A","dataCenterInfo":{"name":"MyOwn"},"hostName":"h","instanceId":"i1","ipAddr":"10.0.0.1","lastDirtyTimestamp":"5","leaseInfo":{"durationInSecs":90,"evictionTimestamp":0,"lastRenewalTimestamp":1000,"registrationTimestamp":1000,"renewalIntervalInSecs":30,"serviceUpTimestamp":1000},"overriddenStatus":"UNKNOWN","status":"UP"}}
POST /eureka/peerreplication/batch/ { = HTTP/1.1 400 Bad Request¶Content-Type: application/json¶Content-Length: 12¶¶{"fault":31}
steps = 1
POST /eureka/peerreplication/batch/ {"replicationList":[{"action":"Cancel","appName":"A","id":"i1"},{"action":"Evict","appName":"A","id":"i1"}]} = HTTP/1.1 400 Bad Request¶Content-Type: application/json¶Content-Length: 12¶¶{"fault":31}
steps = 1
GET /eureka/apps/A/i1 = HTTP/1.1 200 OK¶Content-Type: application/json¶Content-Length: 345¶¶{"instance":{"app":"A","dataCenterInfo":{"name":"MyOwn"},"hostName":"h","instanceId":"i1","ipAddr":"10.0.0.1","lastDirtyTimestamp":"5","leaseInfo":{"durationInSecs":90,"evictionTimestamp":0,"lastRenewalTimestamp":1000,"registrationTimestamp":1000,"renewalIntervalInSecs":30,"serviceUpTimestamp":1000},"overriddenStatus":"UNKNOWN","status":"UP"}}"#;

#[test]
fn an_empty_or_bad_batch_changes_nothing(rt: HostRuntime) {
    assert_eq!(rt; first_wrong(rt.alloc(), USUAL, IDLE), Ok(None));
}

const ORDERED: &str = r#"register = HTTP/1.1 204 No Content¶¶
POST /eureka/peerreplication/batch/ {"replicationList":[{"action":"Cancel","appName":"a","id":"i1"},{"action":"Heartbeat","appName":"A","id":"i1"}]} = HTTP/1.1 200 OK¶Content-Type: application/json¶Content-Length: 56¶¶{"responseList":[{"statusCode":200},{"statusCode":404}]}
steps = 3"#;

#[test]
fn the_items_of_a_batch_are_taken_in_order(rt: HostRuntime) {
    assert_eq!(rt; first_wrong(rt.alloc(), USUAL, ORDERED), Ok(None));
}

/// The client comes by a batch, and renews itself.
const SENT: &str =
    r#"POST /eureka/peerreplication/batch/ {"replicationList":[{"action":"Register","appName":"A","id":"i1","instanceInfo":{"instanceId":"i1","hostName":"h","app":"a","ipAddr":"10.0.0.1","dataCenterInfo":{"name":"MyOwn"}}}]} = HTTP/1.1 200 OK¶Content-Type: application/json¶Content-Length: 37¶¶{"responseList":[{"statusCode":200}]}
drain = refused 9
PUT /eureka/apps/A/i1 = HTTP/1.1 200 OK¶Content-Length: 0¶¶
drain = Batch Heartbeat i1"#;

#[test]
fn what_a_peer_sends_is_queued_for_nobody(rt: HostRuntime) {
    assert_eq!(rt; first_wrong(rt.alloc(), PEER, SENT), Ok(None));
}
