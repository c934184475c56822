//! Whole runs of servers, with clients.
use crate::tests::client::Step;
use crate::tests::files::{Place, holds_each};
use crate::tests::runs::{first_wrong, plays};
use eu_clock::FirstChooser;
use eu_fixtures::settings;
use eu_http::Policy;
use eu_options::{Serving, connections_within};
use eu_program::serve;
use libc::types::rlimit;
use libc::{RLIMIT_NOFILE, getrlimit};
use std::alloc::{AllocError, Global};
use std::net::{IpAddr, Ipv4Addr, Net, TcpListener, TcpStream};
use std::sync::{Mutex, Wait};
use std::test::Fail;
use std::thread::Threads;
use std::time::Clock;

/// This machine alone.
const LOCALHOST: IpAddr = IpAddr::V4(Ipv4Addr::LOCALHOST);

/// A server of no session, on that port.
fn idle(port: u16) -> Serving {
    Serving {
        port,
        bind: LOCALHOST,
        admin_port: None,
        admin_bind: LOCALHOST,
        sessions: Some(0),
        workers: 2,
        expected: 1,
        connections: 100,
        idle_ms: 90_000,
        request_ms: 10_000,
        warm_up_ms: 0,
        until_input_ends: false,
        is_quiet: false,
        accepts_peers: true,
        most_body: 1_048_576,
    }
}

/// One that is done has exit status 0, and one whose port is taken another.
#[test]
fn a_server_of_no_session_ends_at_once(rt: HostRuntime) -> Result<(), Fail> {
    let config = settings()?;
    assert!(rt; serve(&rt, config, idle(0), Policy::open(), None, FirstChooser) == 0);
    let taken = TcpListener::bind(&rt, "127.0.0.1:0")?;
    let port = taken.local_addr()?.port();
    assert!(rt; serve(&rt, config, idle(port), Policy::open(), None, FirstChooser) == 3);
    Ok(())
}

/// Servers at the address that they are given, and at that of the machine alone where they are given none.
const BOUND: &str =
    r#"eureka serve --port 0 --sessions 0 = 0 "served 0\n" "listening on 127.0.0.1:*\n"
eureka serve --port 0 --sessions 0 --admin-port 0 --admin-bind 127.0.0.3 = 0 "served 0\n" "listening on 127.0.0.1:*\nadmin on 127.0.0.3:*\n"
eureka serve --port 0 --sessions 0 --bind 127.0.0.2 = 0 "served 0\n" "listening on 127.0.0.2:*\n"
eureka serve --port 0 --sessions 0 --bind 0.0.0.0 --seed system = 0 "served 0\n" "seed 3\nlistening on 0.0.0.0:*\n""#;

#[test]
fn a_server_listens_at_its_address(rt: HostRuntime) {
    assert_eq!(rt; plays(&rt, rt.alloc(), BOUND, &[]), None);
}

/// A look at the status page, and the page where nothing is held.
const LOOK: &str = "GET /eureka/status HTTP/1.1\r\nHost: x\r\nConnection: close\r\n\r\n";

const LOOKED: &str =
    "HTTP/1.1 200 OK\r\nContent-Type: text/plain; charset=utf-8\r\nContent-Length: 79\r\nConnection: close\r\n\r\nheld 0\nexpected 7\nthreshold 10\nlast 0\npreservation off\npermitted yes\nstatuses \n";

/// The page where two of four leases have gone: 7 + 4 - 2 are expected.
const TWO_LEFT: &str =
    "HTTP/1.1 200 OK\r\nContent-Type: text/plain; charset=utf-8\r\nContent-Length: 84\r\nConnection: close\r\n\r\nheld 2\nexpected 9\nthreshold 13\nlast 0\npreservation off\npermitted yes\nstatuses UP_2_\n";

/// A renewal of a lease that isn't there.
const RENEWAL: &str = "PUT /eureka/apps/A/zz HTTP/1.1\r\nHost: x\r\nConnection: close\r\n\r\n";

/// A request for what is held of A, expired or not.
const LIST: &str = "GET /eureka/apps/A HTTP/1.1\r\nHost: x\r\nConnection: close\r\n\r\n";

/// Requests by which clients register for a second, and how their answer begins.
const I0: &str =
    "POST /eureka/apps/a HTTP/1.1\r\nHost: x\r\nConnection: close\r\nContent-Length: 183\r\n\r\n{\"instance\":{\"instanceId\":\"i0\",\"hostName\":\"h\",\"app\":\"a\",\"ipAddr\":\"10.0.0.1\",\"status\":\"UP\",\"lastDirtyTimestamp\":\"5\",\"dataCenterInfo\":{\"name\":\"MyOwn\"},\"leaseInfo\":{\"durationInSecs\":1}}}";

const I1: &str =
    "POST /eureka/apps/a HTTP/1.1\r\nHost: x\r\nConnection: close\r\nContent-Length: 183\r\n\r\n{\"instance\":{\"instanceId\":\"i1\",\"hostName\":\"h\",\"app\":\"a\",\"ipAddr\":\"10.0.0.1\",\"status\":\"UP\",\"lastDirtyTimestamp\":\"5\",\"dataCenterInfo\":{\"name\":\"MyOwn\"},\"leaseInfo\":{\"durationInSecs\":1}}}";

const I2: &str =
    "POST /eureka/apps/a HTTP/1.1\r\nHost: x\r\nConnection: close\r\nContent-Length: 183\r\n\r\n{\"instance\":{\"instanceId\":\"i2\",\"hostName\":\"h\",\"app\":\"a\",\"ipAddr\":\"10.0.0.1\",\"status\":\"UP\",\"lastDirtyTimestamp\":\"5\",\"dataCenterInfo\":{\"name\":\"MyOwn\"},\"leaseInfo\":{\"durationInSecs\":1}}}";

const I3: &str =
    "POST /eureka/apps/a HTTP/1.1\r\nHost: x\r\nConnection: close\r\nContent-Length: 183\r\n\r\n{\"instance\":{\"instanceId\":\"i3\",\"hostName\":\"h\",\"app\":\"a\",\"ipAddr\":\"10.0.0.1\",\"status\":\"UP\",\"lastDirtyTimestamp\":\"5\",\"dataCenterInfo\":{\"name\":\"MyOwn\"},\"leaseInfo\":{\"durationInSecs\":1}}}";

const DONE: &str = "HTTP/1.1 204 *";

/// Two clients at once: one registers, and what the other renews isn't held.
const TWO: [Step; 7] = [
    Step::Connect,
    Step::Connect,
    Step::Send(0, I1),
    Step::Send(1, RENEWAL),
    Step::Read(0, DONE),
    Step::Read(1, "HTTP/1.1 404 *"),
    Step::Within(5_000),
];

/// The page where one lease is held: 7 + 1 are expected.
const ONE_HELD: &str =
    "HTTP/1.1 200 OK\r\nContent-Type: text/plain; charset=utf-8\r\nContent-Length: 84\r\nConnection: close\r\n\r\nheld 1\nexpected 8\nthreshold 12\nlast 0\npreservation off\npermitted yes\nstatuses UP_1_\n";

/// A client that registers doesn't wait for another, which came before it and is silent.
const PASSED: [Step; 6] = [
    Step::Connect,
    Step::Connect,
    Step::Send(1, I1),
    Step::Read(1, DONE),
    Step::Send(0, LOOK),
    Step::Read(0, ONE_HELD),
];

/// A server's run, and what a client does meanwhile.
type Served = (&'static str, &'static [Step]);

/// The place of the first server of which something else comes, at machines without a file.
fn first_wrong_server<
    R: Threads + Wait + Clock + Net<Listener = TcpListener, Stream = TcpStream> + Sync,
>(rt: &R, alloc: Global, rows: &[Served]) -> Option<usize> {
    let mut number = 0usize;
    for (line, steps) in rows {
        if plays(rt, alloc, line, steps).is_some() {
            return Some(number);
        }
        number = number.saturating_add(1);
    }
    None
}

/// A client that is silent is awaited for no longer than that.
const SILENT: [Step; 3] = [Step::Connect, Step::Read(0, ""), Step::Within(5_000)];

/// A client whose request isn't whole is awaited for no longer than that.
const SLOW: [Step; 4] = [
    Step::Connect,
    Step::Send(0, "GET /eureka"),
    Step::Read(0, "HTTP/1.1 408 *"),
    Step::Within(5_000),
];

/// A client that comes while as many are there as may be is told so, and one that comes later is served.
const CROWDED: [Step; 7] = [
    Step::Connect,
    Step::Connect,
    Step::Read(1, "HTTP/1.1 503 *"),
    Step::Send(0, LOOK),
    Step::Read(0, "HTTP/1.1 200 *"),
    Step::Sleep(3_000),
    Step::Ask(LOOK, "HTTP/1.1 200 *"),
];

/// An operator sees that nothing is listed at first, and a client is told so.
const WARMING_UP: [Step; 2] = [
    Step::Watch(
        "GET /health HTTP/1.1\r\nHost: x\r\n\r\n",
        "HTTP/1.1 200 *warming up\n",
    ),
    Step::Ask(LIST, "HTTP/1.1 403 *"),
];

/// Servers that keep the limits of their connections that they are given.
const LIMITED: [Served; 4] = [
    (
        r#"eureka serve --port 0 --sessions 1 --admin-port 0 --warm-up-ms 60000 = 0 "served 1\n" "listening on 127.0.0.1:*\nadmin on 127.0.0.1:*\n""#,
        &WARMING_UP,
    ),
    (
        r#"eureka serve --port 0 --sessions 1 --idle-ms 200 = 0 "served 1\n" "listening on 127.0.0.1:*\n""#,
        &SILENT,
    ),
    (
        r#"eureka serve --port 0 --sessions 1 --request-ms 200 = 0 "served 1\n" "listening on 127.0.0.1:*\n""#,
        &SLOW,
    ),
    (
        r#"eureka serve --port 0 --sessions 2 --connections 1 = 0 "served 2\n" "listening on 127.0.0.1:*\nconnections refused: 1, as many are open as may be\n""#,
        &CROWDED,
    ),
];

#[test]
fn a_server_keeps_the_limits_of_its_options(rt: HostRuntime) {
    assert_eq!(rt;
        first_wrong_server(&rt, rt.alloc(), LIMITED.as_slice()),
        None
    );
}

/// What a server tells that is asked for a million connections, where the process may have so many descriptors, and operators connect or not.
fn told_of_a_million(
    alloc: Global,
    descriptors: u64,
    has_operators: bool,
) -> Result<String, AllocError> {
    let most = connections_within(1_000_000, descriptors, has_operators);
    if most == 1_000_000 {
        return Ok(String::new(alloc));
    }
    format!(in alloc; "at most {most} connections: the limit of descriptors is {descriptors}\\n")
}

/// Whether a server tells that it has fewer connections than it was asked for, where it has.
fn is_limit_told<
    R: Threads + Wait + Clock + Net<Listener = TcpListener, Stream = TcpStream> + Sync,
>(rt: &R, alloc: Global) -> Result<bool, AllocError> {
    let mut limit = rlimit {
        rlim_cur: 0,
        rlim_max: 0,
    };
    if getrlimit(RLIMIT_NOFILE, &mut limit) != 0 {
        return Ok(true);
    }
    let told = told_of_a_million(alloc, limit.rlim_cur, false)?;
    let line = format!(in alloc;
        "eureka serve --port 0 --sessions 0 --connections 1000000 = 0 \"served 0\\n\" \"listening on 127.0.0.1:*\\n{told}\""
    )?;
    let told = told_of_a_million(alloc, limit.rlim_cur, true)?;
    let beside = format!(in alloc;
        "eureka serve --port 0 --admin-port 0 --sessions 0 --connections 1000000 = 0 \"served 0\\n\" \"listening on 127.0.0.1:*\\nadmin on 127.0.0.1:*\\n{told}\""
    )?;
    Ok(plays(rt, alloc, &line, &[]).is_none() && plays(rt, alloc, &beside, &[]).is_none())
}

#[test]
fn fewer_connections_than_were_asked_for_are_told(rt: HostRuntime) -> Result<(), Fail> {
    assert!(rt; is_limit_told(&rt, rt.alloc())?);
    Ok(())
}

/// A batch of a peer, a cancel that calls itself replicated, and a look at the status page that a page of a site has a browser take.
const BATCH: &str =
    "POST /eureka/peerreplication/batch/ HTTP/1.1\r\nHost: x\r\nConnection: close\r\nContent-Length: 22\r\n\r\n{\"replicationList\":[]}";

const REPLICATED: &str =
    "DELETE /eureka/apps/A/zz HTTP/1.1\r\nHost: x\r\nx-netflix-discovery-replication: true\r\nConnection: close\r\n\r\n";

const OF_A_PAGE: &str =
    "GET /eureka/status HTTP/1.1\r\nHost: x\r\nOrigin: https://site.example\r\nConnection: close\r\n\r\n";

/// The response to what is forbidden.
const FORBIDDEN: &str = "HTTP/1.1 403 Forbidden\r\nContent-Length: 0\r\nConnection: close\r\n\r\n";

/// Peers are heard, and pages are not.
const USUAL_POLICY: [Step; 3] = [
    Step::Ask(BATCH, "HTTP/1.1 200 *"),
    Step::Ask(REPLICATED, "HTTP/1.1 404 *"),
    Step::Ask(OF_A_PAGE, FORBIDDEN),
];

/// The other way round.
const OTHER_POLICY: [Step; 3] = [
    Step::Ask(BATCH, FORBIDDEN),
    Step::Ask(REPLICATED, FORBIDDEN),
    Step::Ask(OF_A_PAGE, "HTTP/1.1 200 *"),
];

/// A body of 22 bytes is one too long.
const SHORT_BODIES: [Step; 1] = [Step::Ask(BATCH, "HTTP/1.1 413 *")];

/// Servers that take the requests that their options say.
const TAKING: [Served; 4] = [
    (
        r#"eureka serve --port 0 --sessions 3 = 0 "served 3\n" "listening on 127.0.0.1:*\n""#,
        &USUAL_POLICY,
    ),
    (
        r#"eureka serve --port 0 --sessions 3 --accept-peers off --allow-origin https://site.example = 0 "served 3\n" "listening on 127.0.0.1:*\n""#,
        &OTHER_POLICY,
    ),
    (
        r#"eureka serve --port 0 --sessions 1 --max-body 21 = 0 "served 1\n" "listening on 127.0.0.1:*\n""#,
        &SHORT_BODIES,
    ),
    (
        r#"eureka serve --port 0 --sessions 3 --max-body 22 = 0 "served 3\n" "listening on 127.0.0.1:*\n""#,
        &USUAL_POLICY,
    ),
];

#[test]
fn a_server_takes_what_its_policy_allows(rt: HostRuntime) {
    assert_eq!(rt;
        first_wrong_server(&rt, rt.alloc(), TAKING.as_slice()),
        None
    );
}

/// Servers that have the settings that they are given, that serve two clients at once, and that have one worker alone.
const SERVED: [Served; 3] = [
    (
        r#"eureka serve --port 0 --sessions 1 --expected 7 --preservation off --percent 50 --interval 20 = 0 "served 1\n" "listening on 127.0.0.1:*\n""#,
        &[Step::Ask(LOOK, LOOKED)],
    ),
    (
        r#"eureka serve --port 0 --sessions 2 = 0 "served 2\n" "listening on 127.0.0.1:*\n""#,
        &TWO,
    ),
    (
        r#"eureka serve --port 0 --sessions 2 --workers 1 --expected 7 --preservation off --percent 50 --interval 20 --evict-ms 4000 --seed 3 --journal kept.journal = 0 "served 2\n" "listening on 127.0.0.1:*\n""#,
        &PASSED,
    ),
];

#[test]
fn a_server_goes_by_its_options(rt: HostRuntime) {
    assert_eq!(rt;
        first_wrong_server(&rt, rt.alloc(), SERVED.as_slice()),
        None
    );
}

/// Settings by which evictions are permitted, and by which they are held back where nobody renews.
const PERMITTED: &str =
    "PUT /eureka/config?preservation=off&percent=85&interval=30&evictMs=500 HTTP/1.1\r\nHost: x\r\nConnection: close\r\n\r\n";

const HELD_BACK: &str =
    "PUT /eureka/config?preservation=on&percent=85&interval=30&evictMs=500 HTTP/1.1\r\nHost: x\r\nConnection: close\r\n\r\n";

/// Self-preservation is put off, and on again.
const PUT_OFF_AND_ON: [Step; 5] = [
    Step::Ask(PERMITTED, "HTTP/1.1 200 *"),
    Step::Sleep(4_000),
    Step::Ask(HELD_BACK, "HTTP/1.1 200 *"),
    Step::Sleep(4_000),
    Step::Ask(LOOK, "HTTP/1.1 200 *"),
];

/// A server that tells both, and one that is quiet.
const TELLING: [Served; 2] = [
    (
        r#"eureka serve --port 0 --sessions 3 --evict-ms 500 = 0 "served 3\n" "listening on 127.0.0.1:*\nevictions permitted: 0 renewals in the last minute, threshold 1\nevictions held back: 0 renewals in the last minute, threshold 1\n""#,
        &PUT_OFF_AND_ON,
    ),
    (
        r#"eureka serve --port 0 --sessions 3 --evict-ms 500 --quiet = 0 "served 3\n" "listening on 127.0.0.1:*\n""#,
        &PUT_OFF_AND_ON,
    ),
];

#[test]
fn a_server_tells_whether_evictions_are_permitted(rt: HostRuntime) {
    assert_eq!(rt;
        first_wrong_server(&rt, rt.alloc(), TELLING.as_slice()),
        None
    );
}

/// While two keep a worker each, four register, and six seconds later just two are held; then the first one is answered.
const SEEDED: [Step; 11] = [
    Step::Connect,
    Step::Connect,
    Step::Ask(I0, DONE),
    Step::Ask(I1, DONE),
    Step::Ask(I2, DONE),
    Step::Ask(I3, DONE),
    Step::Within(5_000),
    Step::Sleep(6_000),
    Step::List(
        LIST,
        &["\"instanceId\":\"i0\"", "\"instanceId\":\"i2\""],
        &["\"instanceId\":\"i1\"", "\"instanceId\":\"i3\""],
    ),
    Step::Send(0, LOOK),
    Step::Read(0, TWO_LEFT),
];

/// The same, where the first in key order have gone.
const FIRST: [Step; 11] = [
    Step::Connect,
    Step::Connect,
    Step::Ask(I0, DONE),
    Step::Ask(I1, DONE),
    Step::Ask(I2, DONE),
    Step::Ask(I3, DONE),
    Step::Within(5_000),
    Step::Sleep(6_000),
    Step::List(
        LIST,
        &["\"instanceId\":\"i2\"", "\"instanceId\":\"i3\""],
        &["\"instanceId\":\"i0\"", "\"instanceId\":\"i1\""],
    ),
    Step::Send(0, LOOK),
    Step::Read(0, TWO_LEFT),
];

/// Servers of seven sessions, three at once, which evict after four seconds: by the words of the seed 3, of the same one from the system, and without
/// a seed. The last one is quiet, the others tell how many have gone.
const EVICTING: [Served; 3] = [
    (
        r#"eureka serve --port 0 --sessions 7 --workers 3 --expected 7 --preservation off --percent 50 --interval 20 --evict-ms 4000 --seed 3 = 0 "served 7\n" "listening on 127.0.0.1:*\nleases evicted: 2 of 4 that were due\n""#,
        &SEEDED,
    ),
    (
        r#"eureka serve --port 0 --sessions 7 --workers 3 --expected 7 --preservation off --percent 50 --interval 20 --evict-ms 4000 --seed system = 0 "served 7\n" "seed 3\nlistening on 127.0.0.1:*\nleases evicted: 2 of 4 that were due\n""#,
        &SEEDED,
    ),
    (
        r#"eureka serve --port 0 --sessions 7 --workers 3 --expected 7 --preservation off --percent 50 --interval 20 --evict-ms 4000 --quiet = 0 "served 7\n" "listening on 127.0.0.1:*\n""#,
        &FIRST,
    ),
];

#[test]
fn a_server_evicts_by_its_seed(rt: HostRuntime) {
    assert_eq!(rt;
        first_wrong_server(&rt, rt.alloc(), EVICTING.as_slice()),
        None
    );
}

/// The first of these, which leaves a journal.
const WITH_JOURNAL: &str =
    r#"eureka serve --port 0 --sessions 7 --workers 3 --expected 7 --preservation off --percent 50 --interval 20 --evict-ms 4000 --seed 3 --journal kept.journal = 0 "served 7\n" "listening on 127.0.0.1:*\nleases evicted: 2 of 4 that were due\n""#;

/// An audit of that.
const AUDIT: &str = r#"eureka audit --journal kept.journal = 0 "audit yes *" """#;

/// Whether what it did is in the journal.
fn is_in_the_journal<
    R: Threads + Wait + Clock + Net<Listener = TcpListener, Stream = TcpStream> + Sync,
>(rt: &R, alloc: Global) -> bool {
    let place: Place = Mutex::new(None);
    let served = first_wrong(rt, alloc, &place, WITH_JOURNAL, SEEDED.as_slice());
    let audited = first_wrong(rt, alloc, &place, AUDIT, &[]);
    let has_each = holds_each(place, ["i0", "i1", "i2", "i3"].as_slice());
    has_each && served.is_none() && audited.is_none()
}

#[test]
fn a_server_with_a_journal_evicts_by_its_seed(rt: HostRuntime) {
    assert!(rt; is_in_the_journal(&rt, rt.alloc()));
}
