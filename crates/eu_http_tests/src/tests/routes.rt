//! Requests with what each asks for, by the table of routes, and the values of queries.
use eu_base::{App, Config, Fault, Key, Stamp, Status};
use eu_fixtures::joined;
use eu_model::Command;
use eu_routes::{Route, Routes, read_stamp};
use std::alloc::{AllocError, Global};

/// Writes a verb and a name.
fn tell_app(text: &mut String, verb: &str, app: &App) -> Result<(), AllocError> {
    write!(text, "{verb} {}", app.as_str())
}

/// Writes a verb and a key.
fn tell_key(text: &mut String, verb: &str, key: &Key) -> Result<(), AllocError> {
    write!(text, "{verb} {} {}", key.app.as_str(), key.id.as_str())
}

fn number(stamp: &Option<Stamp>) -> Option<u64> {
    stamp.map(|stamp| stamp.value())
}

/// Writes the number of a stamp, or that there is none.
fn tell_stamp(text: &mut String, stamp: &Option<Stamp>) -> Result<(), AllocError> {
    let number = number(stamp);
    write!(text, " {number:?}")
}

/// Writes a status, or that there is none.
fn tell_status(text: &mut String, status: &Option<Status>) -> Result<(), AllocError> {
    write!(text, " {status:?}")
}

/// Writes settings.
fn tell_settings(text: &mut String, config: &Config) -> Result<(), AllocError> {
    let (preservation, percent) = (config.preservation, config.percent.value());
    let (interval, evict_ms) = (config.interval.secs(), config.evict_ms);
    write!(
        text,
        "config {preservation} {percent} {interval} {evict_ms}"
    )
}

/// Writes a command of a route, field by field.
fn tell_command(text: &mut String, command: &Command) -> Result<(), AllocError> {
    match command {
        Command::SetStatus {
            key,
            status,
            last_dirty,
            ..
        } => {
            tell_key(text, "set", key)?;
            write!(text, " {status:?}")?;
            tell_stamp(text, last_dirty)
        }
        Command::UnsetStatus {
            key,
            status,
            last_dirty,
            ..
        } => {
            tell_key(text, "unset", key)?;
            tell_status(text, status)?;
            tell_stamp(text, last_dirty)
        }
        Command::Cancel { key, .. } => tell_key(text, "cancel", key),
        Command::Renew {
            key,
            last_dirty,
            overridden,
            ..
        } => {
            tell_key(text, "renew", key)?;
            tell_stamp(text, last_dirty)?;
            tell_status(text, overridden)
        }
        Command::Reconfigure { config } => tell_settings(text, config),
        _ => Ok(()),
    }
}

/// Writes what a route asks for, field by field.
fn tell(text: &mut String, route: &Route) -> Result<(), AllocError> {
    match route {
        Route::Register(app) => tell_app(text, "register", app),
        Route::All => text.push_str("all"),
        Route::OfApp(app) => tell_app(text, "app", app),
        Route::Delta => text.push_str("delta"),
        Route::Batch => text.push_str("batch"),
        Route::StatusPage => text.push_str("page"),
        Route::One(key) => tell_key(text, "one", key),
        Route::Do(command) => tell_command(text, command),
    }
}

/// What a route asks for, field by field.
pub fn words(alloc: Global, route: Route) -> Result<String, AllocError> {
    let mut text = String::new(alloc);
    let told = tell(&mut text, &route);
    drop(route);
    told?;
    Ok(text)
}

/// The route of a request.
fn route_of(alloc: Global, method: &str, path: &str, query: &str) -> Result<Route, Fault> {
    let routes = Routes::new(alloc)?;
    let route = routes.find(alloc, method, path, query, false);
    drop(routes);
    route
}

/// What a request asks for, field by field.
fn told(alloc: Global, method: &str, path: &str, query: &str) -> Result<String, Fault> {
    let route = route_of(alloc, method, path, query)?;
    Ok(words(alloc, route)?)
}

/// Whether a request asks for that.
fn is_told(alloc: Global, method: &str, path: &str, query: &str, wanted: &str) -> bool {
    match told(alloc, method, path, query) {
        Ok(told) => told.as_str() == wanted,
        Err(_) => false,
    }
}

/// The fault that a request has.
fn fault_of(alloc: Global, method: &str, path: &str, query: &str) -> Option<Fault> {
    route_of(alloc, method, path, query).err()
}

/// Methods, pages and queries, with what they ask for.
pub const ROWS: [(&str, &str, &str, &str); 16] = [
    ("POST", "apps/a", "", "register A"),
    ("POST", "apps/delta", "", "register DELTA"),
    ("PUT", "apps/a/i1", "", "renew A i1 None None"),
    (
        "PUT",
        "apps/a/i1",
        "lastDirtyTimestamp=5&overriddenstatus=UNKNOWN",
        "renew A i1 Some(5) Some(Unknown)",
    ),
    ("DELETE", "apps/a/i1", "", "cancel A i1"),
    (
        "PUT",
        "apps/a/i1/status",
        "value=OUT_OF_SERVICE",
        "set A i1 OutOfService None",
    ),
    (
        "PUT",
        "apps/a/i1/status",
        "value=DOWN&lastDirtyTimestamp=7",
        "set A i1 Down Some(7)",
    ),
    ("DELETE", "apps/a/i1/status", "", "unset A i1 None None"),
    (
        "DELETE",
        "apps/a/i1/status",
        "lastDirtyTimestamp=0&value=UP",
        "unset A i1 Some(Up) Some(0)",
    ),
    ("GET", "apps", "", "all"),
    ("GET", "apps/a", "", "app A"),
    ("GET", "apps/a/i1", "", "one A i1"),
    ("GET", "apps/delta", "", "delta"),
    ("GET", "apps/delta/i1", "", "one DELTA i1"),
    ("GET", "status", "", "page"),
    (
        "PUT",
        "config",
        "preservation=on&percent=85&interval=30&evictMs=60000",
        "config true 85 30 60000",
    ),
];

/// What stands before a page.
const PREFIXES: [&str; 6] = [
    "/eureka/v2/",
    "/eureka/",
    "http://host:8080/eureka/v2/",
    "HTTP://host/eureka/",
    "https://host/eureka/",
    "HttpS:///eureka/v2/",
];

/// Whether a page asks for that, behind a prefix and with that end.
fn is_page_told(
    alloc: Global,
    row: &(&str, &str, &str, &str),
    prefix: &str,
    end: &str,
) -> Result<bool, AllocError> {
    let (method, page, query, wanted) = *row;
    let path = joined(alloc, &[prefix, page, end])?;
    Ok(is_told(alloc, method, &path, query, wanted))
}

/// Whether a page asks for that behind a prefix, with a slash at its end and without.
fn is_row_told(alloc: Global, row: &(&str, &str, &str, &str), prefix: &str) -> bool {
    is_page_told(alloc, row, prefix, "") == Ok(true)
        && is_page_told(alloc, row, prefix, "/") == Ok(true)
}

#[test]
fn each_row_has_its_route(rt: HostRuntime) {
    for row in &ROWS {
        for prefix in &PREFIXES {
            assert!(rt;
                is_row_told(rt.alloc(), row, prefix),
                "at {prefix}{}",
                row.1
            );
        }
    }
}

/// Methods and paths that have no route.
const NO_ROUTES: [(&str, &str); 37] = [
    ("HEAD", "/eureka/apps"),
    ("get", "/eureka/apps"),
    ("POST", "/eureka/apps"),
    ("PUT", "/eureka/apps/a"),
    ("POST", "/eureka/apps/a/i"),
    ("GET", "/eureka/apps/a/i/status"),
    ("PUT", "/eureka/status"),
    ("GET", "/eureka/config"),
    ("POST", "/eureka/v2/config"),
    ("DELETE", "/eureka/config"),
    ("put", "/eureka/config"),
    ("PUT", "/eureka/Config"),
    ("PUT", "/eureka/config/x"),
    ("PUT", "/eureka/apps/config"),
    ("GET", "/eureka/apps//x"),
    ("GET", "/eureka/apps/x//"),
    ("GET", "/eureka/apps//"),
    ("GET", "/eureka//apps"),
    ("GET", "/eureka/apps/a/b/c"),
    ("PUT", "/eureka/apps/a/b/status/c"),
    ("PUT", "/eureka/apps/a/b/Status"),
    ("GET", "/eureka/%61pps"),
    ("GET", "/Eureka/apps"),
    ("GET", "/eureka/v1/apps"),
    ("GET", "/eureka/v2"),
    ("GET", "/eureka"),
    ("GET", "/"),
    ("GET", ""),
    ("OPTIONS", "*"),
    ("GET", "eureka/apps"),
    ("GET", "http://host"),
    ("GET", "http://"),
    ("GET", "https:/eureka/apps"),
    ("GET", "ftp://host/eureka/apps"),
    ("GET", "http://http://host/eureka/apps"),
    ("GET", "é/eureka/apps"),
    ("GET", "htté://eureka/apps"),
];

#[test]
fn other_requests_have_no_route(rt: HostRuntime) {
    let alloc = rt.alloc();
    for (method, path) in &NO_ROUTES {
        assert!(rt;
            fault_of(alloc, method, path, "") == Some(Fault::NoRoute),
            "at {method} {path}"
        );
    }
}

/// Paths and queries of batches.
const BATCHES: [(&str, &str); 5] = [
    ("/eureka/peerreplication/batch", ""),
    ("/eureka/peerreplication/batch/", ""),
    ("/eureka/v2/peerreplication/batch", "value=gone"),
    ("/eureka/v2/peerreplication/batch/", "lastDirtyTimestamp=x"),
    ("HTTP://host:8080/eureka/peerreplication/batch", ""),
];

#[test]
fn batches_are_posted(rt: HostRuntime) {
    let alloc = rt.alloc();
    for (path, query) in &BATCHES {
        assert!(rt; is_told(alloc, "POST", path, query, "batch"), "at {path}");
    }
}

/// Methods and paths that are like a batch's and have no route.
const NO_BATCHES: [(&str, &str); 13] = [
    ("GET", "/eureka/peerreplication/batch"),
    ("PUT", "/eureka/v2/peerreplication/batch"),
    ("DELETE", "/eureka/peerreplication/batch/"),
    ("post", "/eureka/peerreplication/batch"),
    ("POST", "/eureka/peerreplication/b%61tch"),
    ("POST", "/eureka/peerreplication%2Fbatch"),
    ("POST", "/eureka/peerreplication/Batch"),
    ("POST", "/eureka/peerreplication/batch//"),
    ("POST", "/eureka/peerreplication/batch/a"),
    ("POST", "/eureka/peerreplication"),
    ("POST", "/eureka/apps/peerreplication/batch"),
    ("POST", "/peerreplication/batch"),
    ("POST", "peerreplication/batch"),
];

#[test]
fn other_batches_have_no_route(rt: HostRuntime) {
    let alloc = rt.alloc();
    for (method, path) in &NO_BATCHES {
        assert!(rt;
            fault_of(alloc, method, path, "") == Some(Fault::NoRoute),
            "at {method} {path}"
        );
    }
}

/// Paths with escapes, with what they ask for.
const ESCAPED: [(&str, &str); 9] = [
    ("/eureka/apps/a/i%2F1", "one A i/1"),
    ("/eureka/apps/%2f", "app /"),
    ("/eureka/apps/%64elta", "app DELTA"),
    ("/eureka/apps/Delta", "app DELTA"),
    ("/eureka/apps/a+b/i+1", "one A+B i+1"),
    ("/eureka/apps/a%20b/%2B", "one A B +"),
    ("/eureka/apps/caf%C3%A9/%zz%4", "one CAFé %zz%4"),
    ("/eureka/apps/é/É", "one é É"),
    ("/eureka/apps/%41/a%3Fb", "one A a?b"),
];

#[test]
fn segments_are_decoded_after_routing(rt: HostRuntime) {
    let alloc = rt.alloc();
    for (path, wanted) in &ESCAPED {
        assert!(rt; is_told(alloc, "GET", path, "", wanted), "at {path}");
    }
}

/// Paths whose escapes are no text.
const NO_TEXTS: [&str; 4] = [
    "/eureka/apps/%FF",
    "/eureka/apps/%FF/i",
    "/eureka/apps/a/%C3",
    "/eureka/apps/a/%ED%A0%80",
];

#[test]
fn segments_that_are_no_text_are_refused(rt: HostRuntime) {
    let alloc = rt.alloc();
    for path in &NO_TEXTS {
        assert!(rt;
            fault_of(alloc, "GET", path, "") == Some(Fault::BadPath),
            "at {path}"
        );
    }
}

/// What stands before and behind 254 bytes of a name, with the fault of such a path.
const ENDS: [(&str, &str, Option<Fault>); 4] = [
    ("/eureka/apps/a", "/i", None),
    ("/eureka/apps/a/", "i", None),
    ("/eureka/apps/ab", "/i", Some(Fault::BadPath)),
    ("/eureka/apps/a/", "%69%69", Some(Fault::BadPath)),
];

/// The fault of a path that has 127 letters of two bytes each between these texts.
fn fault_between(alloc: Global, before: &str, behind: &str) -> Result<Option<Fault>, AllocError> {
    let letters = "%c3%A9".repeat(alloc, 127)?;
    let path = joined(alloc, &[before, &letters, behind])?;
    Ok(fault_of(alloc, "GET", &path, ""))
}

#[test]
fn names_have_up_to_255_bytes(rt: HostRuntime) {
    let alloc = rt.alloc();
    for (before, behind, fault) in &ENDS {
        assert!(rt;
            fault_between(alloc, before, behind) == Ok(*fault),
            "at {before} {behind}"
        );
    }
}

/// Queries of renewals, with what they ask for.
const QUERIES: [(&str, &str); 11] = [
    (
        "overriddenstatus=out_of_service",
        "renew A i None Some(OutOfService)",
    ),
    ("lastDirtyTimestamp=", "renew A i None None"),
    ("lastDirtyTimestamp", "renew A i None None"),
    (
        "lastDirtyTimestamp=&lastDirtyTimestamp=5",
        "renew A i None None",
    ),
    (
        "lastDirtyTimestamp=5&lastDirtyTimestamp=x",
        "renew A i Some(5) None",
    ),
    (
        "overriddenstatus=UP&overriddenstatus=gone",
        "renew A i None Some(Up)",
    ),
    ("lastdirtytimestamp=5&value=gone&x", "renew A i None None"),
    ("&&lastDirtyTimestamp=05&", "renew A i Some(5) None"),
    ("last%44irtyTimestamp=%35%36", "renew A i Some(56) None"),
    (
        "lastDirtyTimestamp=9223372036854775807",
        "renew A i Some(9223372036854775807) None",
    ),
    ("%FF=5&+lastDirtyTimestamp=6&=7", "renew A i None None"),
];

#[test]
fn values_are_read_from_the_query(rt: HostRuntime) {
    let alloc = rt.alloc();
    for (query, wanted) in &QUERIES {
        assert!(rt;
            is_told(alloc, "PUT", "/eureka/apps/a/i", query, wanted),
            "at {query}"
        );
    }
}

/// The path of a lease.
const LEASE: &str = "/eureka/apps/a/i";

/// The path of its status.
const STATUS: &str = "/eureka/apps/a/i/status";

/// Methods, paths and queries with a bad value.
const BAD_VALUES: [(&str, &str, &str); 20] = [
    ("PUT", LEASE, "lastDirtyTimestamp=+5"),
    ("PUT", LEASE, "lastDirtyTimestamp=%2B5"),
    ("PUT", LEASE, "lastDirtyTimestamp=-5"),
    ("PUT", LEASE, "lastDirtyTimestamp=5.0"),
    ("PUT", LEASE, "lastDirtyTimestamp=9223372036854775808"),
    ("PUT", LEASE, "lastDirtyTimestamp=00000000000000000005"),
    ("PUT", LEASE, "lastDirtyTimestamp=x&lastDirtyTimestamp=5"),
    ("PUT", LEASE, "overriddenstatus="),
    ("PUT", LEASE, "overriddenstatus"),
    ("PUT", LEASE, "overriddenstatus=UP+"),
    ("PUT", LEASE, "overriddenstatus=%55P%00"),
    ("PUT", STATUS, ""),
    ("PUT", STATUS, "value="),
    ("PUT", STATUS, "value=&value=UP"),
    ("PUT", STATUS, "Value=UP"),
    ("PUT", STATUS, "value=gone"),
    ("PUT", STATUS, "value=UP&lastDirtyTimestamp=x"),
    ("DELETE", STATUS, "value="),
    ("DELETE", STATUS, "value=gone"),
    ("DELETE", STATUS, "lastDirtyTimestamp=x"),
];

#[test]
fn bad_values_are_refused(rt: HostRuntime) {
    let alloc = rt.alloc();
    for (method, path, query) in &BAD_VALUES {
        assert!(rt;
            fault_of(alloc, method, path, query) == Some(Fault::BadValue),
            "at {method} {path} {query}"
        );
    }
    assert!(rt; is_told(alloc, "PUT", STATUS, "value=%75p", "set A i Up None"));
}

/// Methods and paths, with the fault that they have where each value is bad.
const FIRST_FAULTS: [(&str, &str, Option<Fault>); 9] = [
    ("GET", "/eureka/apps/%FF/i/status", Some(Fault::NoRoute)),
    ("POST", "/eureka/apps/a/i", Some(Fault::NoRoute)),
    ("PUT", "/eureka/apps/%FF/i", Some(Fault::BadPath)),
    ("PUT", "/eureka/apps/a/%FF", Some(Fault::BadPath)),
    ("PUT", "/eureka/apps/a/%FF/status", Some(Fault::BadPath)),
    ("DELETE", "/eureka/apps/%FF/i/status", Some(Fault::BadPath)),
    ("PUT", "/eureka/apps/a/i", Some(Fault::BadValue)),
    ("GET", "/eureka/apps/a/i", None),
    ("DELETE", "/eureka/apps/a/i", None),
];

#[test]
fn faults_have_an_order(rt: HostRuntime) {
    let alloc = rt.alloc();
    let bad = "lastDirtyTimestamp=x&value=x&overriddenstatus=x";
    for (method, path, fault) in &FIRST_FAULTS {
        assert!(rt;
            fault_of(alloc, method, path, bad) == *fault,
            "at {method} {path}"
        );
    }
}

/// Queries of settings, with what they ask for.
const SETTINGS: [(&str, &str); 4] = [
    (
        "preservation=off&percent=0&interval=1&evictMs=0",
        "config false 0 1 0",
    ),
    (
        "evictMs=4294967295&interval=3600&percent=100&preservation=on",
        "config true 100 3600 4294967295",
    ),
    (
        "preservation=%6Fn&percent=0000000085&interval=030&evictMs=%36&x=1",
        "config true 85 30 6",
    ),
    (
        "preservation=on&preservation=gone&percent=85&percent=101&interval=30&evictMs=1&evictMs=",
        "config true 85 30 1",
    ),
];

#[test]
fn settings_are_read_from_the_query(rt: HostRuntime) {
    let alloc = rt.alloc();
    for (query, wanted) in &SETTINGS {
        assert!(rt;
            is_told(alloc, "PUT", "/eureka/config", query, wanted),
            "at {query}"
        );
    }
}

/// Queries without a value of the settings, or with one that is bad.
const BAD_SETTINGS: [&str; 20] = [
    "",
    "percent=85&interval=30&evictMs=60000",
    "preservation=on&interval=30&evictMs=60000",
    "preservation=on&percent=85&evictMs=60000",
    "preservation=on&percent=85&interval=30",
    "preservation=&percent=85&interval=30&evictMs=60000",
    "preservation=ON&percent=85&interval=30&evictMs=60000",
    "preservation=true&percent=85&interval=30&evictMs=60000",
    "preservation=on&percent=&interval=30&evictMs=60000",
    "preservation=on&percent=101&interval=30&evictMs=60000",
    "preservation=on&percent=%2B85&interval=30&evictMs=60000",
    "preservation=on&percent=00000000085&interval=30&evictMs=60000",
    "preservation=on&percent=8.5&interval=30&evictMs=60000",
    "preservation=on&percent=85&interval=0&evictMs=60000",
    "preservation=on&percent=85&interval=3601&evictMs=60000",
    "preservation=on&percent=85&interval=-1&evictMs=60000",
    "preservation=on&percent=85&interval=30&evictMs=4294967296",
    "preservation=on&percent=85&interval=30&evictMs=",
    "preservation=on&percent=85&interval=30&evictms=60000",
    "preservation=on&percent=101&percent=85&interval=30&evictMs=60000",
];

#[test]
fn bad_settings_are_refused(rt: HostRuntime) {
    let alloc = rt.alloc();
    for query in &BAD_SETTINGS {
        assert!(rt;
            fault_of(alloc, "PUT", "/eureka/v2/config", query) == Some(Fault::BadValue),
            "at {query}"
        );
        assert!(rt;
            fault_of(alloc, "GET", "/eureka/config", query) == Some(Fault::NoRoute),
            "at {query}"
        );
    }
}

/// Texts, with the stamp that each is.
const STAMPS: [(&str, Option<u64>); 12] = [
    ("0", Some(0)),
    ("0000000000000000007", Some(7)),
    ("9223372036854775807", Some(9_223_372_036_854_775_807)),
    ("9223372036854775808", None),
    ("9999999999999999999", None),
    ("00000000000000000007", None),
    ("", None),
    ("+7", None),
    ("-7", None),
    (" 7", None),
    ("7x", None),
    ("٧", None),
];

#[test]
fn stamps_are_read(rt: HostRuntime) {
    for (text, wanted) in &STAMPS {
        assert!(rt; number(&read_stamp(text)) == *wanted, "at {text}");
    }
}

/// Texts, with the status that each is.
const STATUSES: [(&str, Option<Status>); 9] = [
    ("UP", Some(Status::Up)),
    ("down", Some(Status::Down)),
    ("Starting", Some(Status::Starting)),
    ("out_OF_service", Some(Status::OutOfService)),
    ("UNKNOWN", Some(Status::Unknown)),
    ("", None),
    ("UP ", None),
    ("OUT-OF-SERVICE", None),
    ("ſtarting", None),
];

#[test]
fn statuses_are_read(rt: HostRuntime) {
    for (text, wanted) in &STATUSES {
        assert!(rt; Status::read_any_case(text) == *wanted, "at {text}");
    }
}
