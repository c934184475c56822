//! Servers of a few sessions, with a client in the same process.
use crate::tests::client::{Client, Step, Text};
use crate::tests::journals::is_journal;
use eu_accept::Limits;
use eu_base::{Config, Fault, Key};
use eu_clock::FirstChooser;
use eu_fixtures::{LAST_MISSING, MISSING, REGISTRATION as INSTANCE, settings};
use eu_gate::Periods;
use eu_hall::Patience;
use eu_hash::HashKey;
use eu_http::Policy;
use eu_server::{Finished, Plan, serve_book, serve_by, serve_with_journal};
use eu_shared::Blanks;
use eu_stream::Writing;
use libc::net::{SHUT_RDWR, shutdown};
use std::alloc::Global;
use std::marker::Brand;
use std::net::{Net, Shutdown, TcpListener, TcpStream};
use std::os::fd::AsRawFd;
use std::sync::Wait;
use std::test::Fail;
use std::thread::Threads;
use std::time::{Clock, Duration, Instant};
use std::{io, thread};

/// What a server is to leave.
#[derive(Clone, Copy)]
pub enum Way {
    /// How many connections it served.
    Served,
    /// That, and the journal of a registration.
    Journal,
    /// The book of a registration.
    Book,
}

/// Whether a server by a plan writes how many connections it is to serve.
pub fn serves<R: Threads + Wait + Clock + Net + Eprint + Sync>(
    rt: &R,
    alloc: Global,
    listener: &TcpListener,
    plan: &Plan,
) -> Result<bool, Fault> {
    let mut out = Vec::new(alloc);
    serve_by(rt, alloc, listener, plan, FirstChooser, &mut out)?;
    let wanted = format!(in alloc; "served {}\n", plan.sessions)?;
    Ok(out.as_slice() == wanted.as_bytes())
}

/// Whether a server by a plan of one session writes so, and leaves its journal.
fn leaves_journal<R: Threads + Wait + Clock + Net + Eprint + Sync>(
    rt: &R,
    alloc: Global,
    listener: &TcpListener,
    plan: &Plan,
) -> Result<bool, Fault> {
    let mut journal = Vec::new(alloc);
    let mut out = Vec::new(alloc);
    let outcome = serve_with_journal(
        rt,
        alloc,
        listener,
        plan,
        FirstChooser,
        &mut Writing::new(&mut journal),
        &mut out,
    )?;
    drop(outcome);
    Ok(out.as_slice() == b"served 1\n".as_slice() && is_journal(&journal))
}

/// Whether a key is that of A/i1.
fn is_of_the_client(key: &Key) -> bool {
    key.app.as_str() == "A" && key.id.as_str() == "i1"
}

/// Whether a book was served to a client that registered A/i1. Two loops, the door, the two threads of the pool and three timers have a log each, and a
/// server has no peers.
fn is_of_one_client(outcome: &Finished) -> bool {
    let closed = &outcome.closed;
    let leases = closed.end.leases.as_slice();
    let is_held = match leases.first() {
        Some(lease) => is_of_the_client(lease.instance.key()),
        None => false,
    };
    let is_whole = outcome.served == 1 && closed.first == 0 && closed.totals.added == 1;
    let has_logs = closed.logs.len() == 8 && closed.end.queues.as_slice().is_empty();
    is_held && leases.len() == 1 && is_whole && has_logs
}

/// Whether a server by a plan hands back such a book.
fn hands_back<R: Threads + Wait + Clock + Net + Eprint + Sync>(
    rt: &R,
    alloc: Global,
    listener: &TcpListener,
    plan: &Plan,
) -> Result<bool, Fault> {
    let outcome = serve_book::<Brand, R, FirstChooser>(
        rt,
        alloc,
        listener,
        plan,
        FirstChooser,
        Blanks::new(),
    )?;
    let is_so = is_of_one_client(&outcome);
    drop(outcome);
    Ok(is_so)
}

/// Whether a server by a plan leaves what it is to.
fn leaves<R: Threads + Wait + Clock + Net + Eprint + Sync>(
    rt: &R,
    alloc: Global,
    listener: &TcpListener,
    plan: &Plan,
    way: Way,
) -> Result<bool, Fault> {
    match way {
        Way::Served => serves(rt, alloc, listener, plan),
        Way::Journal => leaves_journal(rt, alloc, listener, plan),
        Way::Book => hands_back(rt, alloc, listener, plan),
    }
}

/// Whether a server by a plan leaves what it is to, and the number of the first step that goes otherwise of a client beside it.
fn beside<
    R: Threads + Wait + Clock + Eprint + Sync + Net<Listener = TcpListener, Stream = TcpStream>,
>(
    rt: &R,
    alloc: Global,
    listener: &TcpListener,
    plan: &Plan,
    way: Way,
    client: &mut Client<'_, R>,
    steps: &[Step<'_>],
) -> (Result<bool, Fault>, Option<usize>) {
    thread::join(
        rt,
        || leaves(rt, alloc, listener, plan, way),
        || client.first_wrong(steps),
    )
}

/// Whether a server by a plan, of a port of its own, leaves what it is to, and a client beside it reads what it is to. The connections that the
/// client doesn't leave it has until the server has ended.
pub fn plays<
    R: Threads + Wait + Clock + Eprint + Sync + Net<Listener = TcpListener, Stream = TcpStream>,
>(rt: &R, alloc: Global, plan: &Plan, way: Way, steps: &[Step<'_>]) -> io::Result<bool> {
    let listener = TcpListener::bind(rt, "127.0.0.1:0")?;
    let mut client = Client::new(rt, alloc, listener.local_addr()?)?;
    let (left, wrong) = beside(rt, alloc, &listener, plan, way, &mut client, steps);
    Ok(left == Ok(true) && wrong.is_none())
}

/// For how many milliseconds a server waits for a read, for a write and for all that comes after the last response, and how many bytes of
/// that it drops.
pub type Waits = (u32, u32, u32, usize);

pub const USUAL: Waits = (10_000, 1_000, 100, 65_536);

/// Longer than a client waits: a server ends before its time is up.
const LONG: Waits = (10_000, 1_000, 40_000, 65_536);

/// A plan of so many sessions and so many workers, whose timers are never idle.
pub fn plan(sessions: u32, workers: u32, waits: Waits) -> Result<Plan, Fault> {
    let (read, write, linger, linger_bytes) = waits;
    Ok(Plan {
        config: settings()?,
        expected: 1,
        workers,
        sessions: u64::from(sessions),
        periods: Periods {
            evictor: 1,
            bucket: 1,
            threshold: 1,
        },
        limits: Limits {
            connections: 100,
            bytes: 16_777_216,
            patience: Patience {
                idle: read,
                request: read,
                progress: write,
                response: 60_000,
                linger,
            },
            linger_bytes,
            warm_up_ms: 0,
        },
        input: None,
        is_quiet: true,
        hash_key: HashKey::new(0, 0),
        policy: Policy::open(),
        operators: None,
    })
}

/// The sessions and the workers of a server, for how long it waits, and what a client does beside it.
type Row = (u32, u32, Waits, &'static [Step<'static>]);

/// The place of the first of these servers that goes otherwise.
fn first_wrong<
    R: Threads + Wait + Clock + Eprint + Sync + Net<Listener = TcpListener, Stream = TcpStream>,
>(rt: &R, alloc: Global, rows: &[Row]) -> Result<Option<usize>, Fault> {
    let mut number = 0usize;
    for (sessions, workers, waits, steps) in rows {
        let plan = plan(*sessions, *workers, *waits)?;
        if !plays(rt, alloc, &plan, Way::Served, steps).unwrap_or(false) {
            return Ok(Some(number));
        }
        number = number.saturating_add(1);
    }
    Ok(None)
}

/// A registration of A/i1.
pub const REGISTRATION: Text<'static> = &[
    (
        "POST /eureka/apps/a HTTP/1.1\r\nHost: x\r\nConnection: close\r\nContent-Length: 150\r\n\r\n",
        1,
    ),
    (INSTANCE, 1),
];

pub const REGISTERED: &str = "HTTP/1.1 204 No Content\r\nConnection: close\r\n\r\n";

/// A renewal of a lease that isn't there.
const RENEWAL: Text<'static> = &[(
    "PUT /eureka/apps/A/zz HTTP/1.1\r\nHost: x\r\nConnection: close\r\n\r\n",
    1,
)];

/// A look at the status page.
const LOOK: Text<'static> = &[(
    "GET /eureka/status HTTP/1.1\r\nHost: x\r\nConnection: close\r\n\r\n",
    1,
)];

/// A registration of A/i1 with a member of half a million bytes.
const LARGE: Text<'static> = &[
    (
        "POST /eureka/apps/a HTTP/1.1\r\nHost: x\r\nConnection: close\r\nContent-Length: 500157\r\n\r\n{\"instance\":{\"instanceId\":\"i1\",\"hostName\":\"h\",\"app\":\"a\",\"ipAddr\":\"10.0.0.1\",\"status\":\"UP\",\"lastDirtyTimestamp\":\"5\",\"dataCenterInfo\":{\"name\":\"MyOwn\"},\"x\":\"",
        1,
    ),
    ("0123456789", 50_000),
    ("\"}}", 1),
];

/// A hundred requests for all that is registered: what they are answered is more than the system keeps of a connection, where that is large.
const LISTS: Text<'static> = &[(LIST, 100)];

const LIST: &str = "GET /eureka/apps/ HTTP/1.1\r\nHost: x\r\n\r\n";

/// Servers whose workers are 2, 1, too few, too many and none that is needed.
const SERVED: [Row; 5] = [
    // Two clients at once.
    (
        2,
        2,
        LONG,
        &[
            Step::Connect(2),
            Step::Send(0, REGISTRATION),
            Step::Send(1, RENEWAL),
            Step::Read(0, REGISTERED),
            Step::Read(1, LAST_MISSING),
            Step::Leave(2),
        ],
    ),
    (1_100, 1, USUAL, &[Step::Ask(1_100, RENEWAL, LAST_MISSING)]),
    (1, 0, USUAL, &[Step::Ask(1, RENEWAL, LAST_MISSING)]),
    // Workers that it hasn't aren't waited for.
    (1, 1_000, USUAL, &[Step::Ask(1, RENEWAL, LAST_MISSING)]),
    (0, 2, USUAL, &[]),
];

#[test]
fn clients_are_served(rt: HostRuntime) -> Result<(), Fail> {
    assert_eq!(rt; first_wrong(&rt, rt.alloc(), SERVED.as_slice())?, None);
    Ok(())
}

/// Clients that say nothing, and one that doesn't read; another is answered soon.
const GIVEN_UP: [Row; 2] = [
    (
        3,
        2,
        (400, 1_000, 100, 65_536),
        &[
            Step::Connect(2),
            Step::Ask(1, REGISTRATION, REGISTERED),
            Step::Within(3_000),
        ],
    ),
    (
        3,
        1,
        (10_000, 300, 100, 65_536),
        &[
            Step::Ask(1, LARGE, REGISTERED),
            Step::Connect(1),
            Step::Send(0, LISTS),
            Step::Ask(1, RENEWAL, LAST_MISSING),
            Step::Within(8_000),
        ],
    ),
];

/// What a client is told whose request doesn't come in time (RFC 9110, section 15.5.9).
const SLOW: &str = "HTTP/1.1 408 Request Timeout\r\nContent-Length: 0\r\nConnection: close\r\n\r\n";

/// Half a request, after which nothing comes; and one of which a byte comes now and then: bytes don't prolong its time.
const TOO_SLOW: [Row; 2] = [
    (
        1,
        1,
        (700, 1_000, 100, 65_536),
        &[
            Step::Connect(1),
            Step::Send(0, &[("PUT /eureka/apps/A", 1)]),
            Step::Read(0, SLOW),
            Step::Within(3_000),
        ],
    ),
    (
        1,
        1,
        (700, 1_000, 100, 65_536),
        &[
            Step::Connect(1),
            Step::CutOff(0, &[("x", 1)], 150, 20),
            Step::Within(3_000),
        ],
    ),
];

#[test]
fn a_request_that_is_too_slow_is_given_up(rt: HostRuntime) -> Result<(), Fail> {
    assert_eq!(rt; first_wrong(&rt, rt.alloc(), TOO_SLOW.as_slice())?, None);
    Ok(())
}

/// What a client is told for which there is no room (RFC 9110, section 15.6.4).
const FULL: &str =
    "HTTP/1.1 503 Service Unavailable\r\nContent-Length: 0\r\nRetry-After: 30\r\nConnection: close\r\n\r\n";

/// A server with room for two connections: the next ones are told so, those that are held go on, and once they have left there is room. Who was
/// refused isn't counted as served.
#[test]
fn a_client_is_told_that_there_is_no_room(rt: HostRuntime) -> Result<(), Fail> {
    let mut plan = plan(3, 1, USUAL)?;
    plan.limits.connections = 2;
    let steps = [
        Step::Connect(2),
        Step::Sleep(500),
        Step::Ask(3, RENEWAL, FULL),
        Step::Send(0, RENEWAL),
        Step::Read(0, LAST_MISSING),
        Step::Leave(2),
        Step::Sleep(500),
        Step::Ask(1, RENEWAL, LAST_MISSING),
    ];
    assert!(rt; plays(&rt, rt.alloc(), &plan, Way::Served, steps.as_slice())?);
    Ok(())
}

#[test]
fn clients_that_do_nothing_are_given_up(rt: HostRuntime) -> Result<(), Fail> {
    assert_eq!(rt; first_wrong(&rt, rt.alloc(), GIVEN_UP.as_slice())?, None);
    Ok(())
}

/// A registration with 60,000 bytes more behind it, and a client that dribbles for a second and a half, longer than a server lingers else. Bytes
/// that come one by one count as so many, not as so many reads.
const ANSWERED: [Row; 2] = [
    (
        1,
        2,
        USUAL,
        &[
            Step::Connect(1),
            Step::Send(
                0,
                &[
                    (
                        "POST /eureka/apps/a HTTP/1.1\r\nHost: x\r\nConnection: close\r\nContent-Length: 150\r\n\r\n",
                        1,
                    ),
                    (INSTANCE, 1),
                    ("0123456789", 6_000),
                ],
            ),
            Step::Read(0, REGISTERED),
        ],
    ),
    (
        1,
        2,
        (10_000, 1_000, 40_000, 100),
        &[
            Step::Connect(1),
            Step::Send(0, RENEWAL),
            Step::Dribble(0, &[("x", 1)], 75, 20),
            Step::Read(0, LAST_MISSING),
            Step::Leave(1),
        ],
    ),
];

#[test]
fn a_client_that_sends_more_has_its_answer(rt: HostRuntime) -> Result<(), Fail> {
    assert_eq!(rt; first_wrong(&rt, rt.alloc(), ANSWERED.as_slice())?, None);
    Ok(())
}

const CUT_OFF: [Row; 3] = [
    // It sends requests, and reads no answer.
    (
        1,
        2,
        LONG,
        &[
            Step::Connect(1),
            Step::CutOff(
                0,
                &[(
                    "GET /eureka/status HTTP/1.1\r\nHost: x\r\nConnection: close\r\n\r\n",
                    1_000,
                )],
                2_000,
                0,
            ),
        ],
    ),
    // Its time is up.
    (
        1,
        2,
        USUAL,
        &[
            Step::Connect(1),
            Step::Send(0, RENEWAL),
            Step::CutOff(0, &[("x", 1)], 150, 20),
            Step::Within(1_000),
        ],
    ),
    // More comes than is dropped, long before its time is up.
    (
        1,
        2,
        (10_000, 1_000, 40_000, 20),
        &[
            Step::Connect(1),
            Step::Send(0, RENEWAL),
            Step::CutOff(0, &[("x", 1)], 150, 20),
        ],
    ),
];

#[test]
fn a_client_that_sends_on_is_cut_off(rt: HostRuntime) -> Result<(), Fail> {
    assert_eq!(rt; first_wrong(&rt, rt.alloc(), CUT_OFF.as_slice())?, None);
    Ok(())
}

/// The same renewal, by a client that keeps its connection.
const RENEW: &str = "PUT /eureka/apps/A/zz HTTP/1.1\r\nHost: x\r\n\r\n";

/// A look at an application whose name is encoded, which the pool answers, and that renewal; and what they are answered where none is registered.
const LOOK_AND_RENEWAL: &str =
    "GET /eureka/apps/%41 HTTP/1.1\r\nHost: x\r\n\r\nPUT /eureka/apps/A/zz HTTP/1.1\r\nHost: x\r\n\r\n";

const NONE_AND_MISSING: &str =
    "HTTP/1.1 404 Not Found\r\nContent-Length: 0\r\n\r\nHTTP/1.1 404 Not Found\r\nContent-Length: 0\r\n\r\n";

/// The same look alone.
const BY_CODE: &str = "GET /eureka/apps/%41 HTTP/1.1\r\nHost: x\r\n\r\n";

/// A look at one instance, which a loop answers however long it is.
const ONE: &str = "GET /eureka/apps/A/i1 HTTP/1.1\r\nHost: x\r\n\r\n";

/// A look at all instances, the last request of its connection.
const LAST_LIST: &str = "GET /eureka/apps/ HTTP/1.1\r\nHost: x\r\nConnection: close\r\n\r\n";

/// Clients that keep their connections.
const KEPT_ON: [Row; 4] = [
    // One asks again, and then so often at once that others have their turn between.
    (
        1,
        1,
        LONG,
        &[
            Step::Connect(1),
            Step::Send(0, &[(RENEW, 1)]),
            Step::Next(0, &[(MISSING, 1)]),
            Step::Sleep(50),
            Step::Send(0, &[(RENEW, 1)]),
            Step::Next(0, &[(MISSING, 1)]),
            Step::Send(0, &[(RENEW, 40)]),
            Step::Next(0, &[(MISSING, 40)]),
            Step::Send(0, RENEWAL),
            Step::Read(0, LAST_MISSING),
            Step::Leave(1),
        ],
    ),
    // One asks while its connection is at the pool, and behind what the pool answers.
    (
        1,
        2,
        LONG,
        &[
            Step::Connect(1),
            Step::Send(0, &[(LOOK_AND_RENEWAL, 10)]),
            Step::Send(0, &[(LOOK_AND_RENEWAL, 1)]),
            Step::Send(0, RENEWAL),
            Step::Next(0, &[(NONE_AND_MISSING, 11)]),
            Step::Read(0, LAST_MISSING),
            Step::Leave(1),
        ],
    ),
    // One doesn't take its responses at once: ten of 500,454 bytes by a loop, ten of 500,483 by the pool, and a last one of 500,568. Another is answered meanwhile.
    (
        3,
        1,
        LONG,
        &[
            Step::Ask(1, LARGE, REGISTERED),
            Step::Connect(1),
            Step::Send(
                0,
                &[
                    (ONE, 5),
                    (BY_CODE, 5),
                    (ONE, 5),
                    (BY_CODE, 5),
                    (LAST_LIST, 1),
                ],
            ),
            Step::Ask(1, RENEWAL, LAST_MISSING),
            Step::Sleep(200),
            Step::Length(0, 10_509_938),
            Step::Leave(1),
        ],
    ),
    // One ends its side once it has asked.
    (
        1,
        2,
        LONG,
        &[
            Step::Connect(1),
            Step::Send(0, &[(RENEW, 20)]),
            Step::End(0),
            Step::Next(0, &[(MISSING, 20)]),
            Step::Read(0, ""),
        ],
    ),
];

#[test]
fn clients_keep_their_connections(rt: HostRuntime) -> Result<(), Fail> {
    assert_eq!(rt; first_wrong(&rt, rt.alloc(), KEPT_ON.as_slice())?, None);
    Ok(())
}

/// Half a request, of some 7,000 bytes, and the rest of it.
const HALF: Text<'static> = &[
    ("PUT /eureka/apps/A/zz HTTP/1.1\r\nHost: x\r\nx: ", 1),
    ("0123456789", 700),
];

const REST: Text<'static> = &[("\r\nConnection: close\r\n\r\n", 1)];

/// The one loop may hold 25,000 bytes, and each half of a request takes 16,384 of memory and some more: so the second is closed, and the first is answered once it is whole.
#[test]
fn who_would_hold_too_much_is_closed(rt: HostRuntime) -> Result<(), Fail> {
    let mut plan = plan(3, 1, USUAL)?;
    plan.limits.bytes = 50_000;
    let steps = [
        Step::Connect(2),
        Step::Send(0, HALF),
        Step::Sleep(300),
        Step::Send(1, HALF),
        Step::Read(1, ""),
        Step::Ask(1, RENEWAL, LAST_MISSING),
        Step::Send(0, REST),
        Step::Read(0, LAST_MISSING),
    ];
    assert!(rt; plays(&rt, rt.alloc(), &plan, Way::Served, steps.as_slice())?);
    Ok(())
}

/// A client that has its answer, and says nothing more.
const KEPT: [Row; 1] = [(
    1,
    2,
    (20_000, 1_000, 100, 65_536),
    &[
        Step::Connect(1),
        Step::Send(0, RENEWAL),
        Step::Read(0, LAST_MISSING),
    ],
)];

/// It is left when the time is up, which is shorter than that of a read.
#[test]
fn a_client_that_keeps_its_connection_is_left(rt: HostRuntime) -> Result<(), Fail> {
    let began = Instant::now(&rt)?;
    assert_eq!(rt; first_wrong(&rt, rt.alloc(), KEPT.as_slice())?, None);
    assert!(rt; began.elapsed(&rt)? < Duration::from_secs(10));
    Ok(())
}

/// Ends a listener: whoever accepts there is told that it listens no more (shutdown(2), accept(2) of Linux).
fn end(listener: &TcpListener) {
    let _ = shutdown(listener.as_raw_fd(), SHUT_RDWR);
}

/// Whether a server of two connections ends whose listener has ended once one was served.
fn ends<
    R: Threads + Wait + Clock + Eprint + Sync + Net<Listener = TcpListener, Stream = TcpStream>,
>(rt: &R, alloc: Global, listener: &TcpListener, plan: &Plan) -> io::Result<bool> {
    let mut client = Client::new(rt, alloc, listener.local_addr()?)?;
    let (left, wrong) = thread::join(
        rt,
        || leaves(rt, alloc, listener, plan, Way::Served),
        || {
            let wrong = client.first_wrong(&[Step::Ask(1, REGISTRATION, REGISTERED)]);
            end(listener);
            wrong
        },
    );
    Ok(left == Err(Fault::Read) && wrong.is_none())
}

#[test]
fn a_failed_accept_ends_the_server(rt: HostRuntime) -> Result<(), Fail> {
    let listener = TcpListener::bind(&rt, "127.0.0.1:0")?;
    assert!(rt; ends(&rt, rt.alloc(), &listener, &plan(2, 2, USUAL)?)?);
    Ok(())
}

/// What a client does before the input of a server ends, what it does then, and what the server writes at its end.
type Stop = (
    &'static [Step<'static>],
    &'static [Step<'static>],
    &'static str,
);

/// One is answered, one is idle, and of one half a request has come, which is answered.
const HALF_ASKED: Stop = (
    &[
        Step::Ask(1, REGISTRATION, REGISTERED),
        Step::Connect(2),
        Step::Send(1, HALF),
        Step::Sleep(300),
    ],
    &[
        Step::Sleep(400),
        Step::Send(1, REST),
        Step::Read(1, LAST_MISSING),
    ],
    "served 3\n",
);

/// One sends half a request, and from then on the rest of each with half of the next: it is closed once a whole request and its response had their time.
const ASKS_ON: Stop = (
    &[
        Step::Connect(1),
        Step::Send(0, &[("PUT /eureka/apps/A/zz HTTP/1.1\r\nHost: x\r\n", 1)]),
        Step::Sleep(300),
    ],
    &[Step::CutOff(
        0,
        &[("\r\nPUT /eureka/apps/A/zz HTTP/1.1\r\nHost: x\r\n", 1)],
        60,
        200,
    )],
    "served 1\n",
);

/// Whether a server by a plan stops so at the end of its input.
fn stops<
    R: Threads + Wait + Clock + Eprint + Sync + Net<Listener = TcpListener, Stream = TcpStream>,
>(rt: &R, alloc: Global, plan: &mut Plan, stop: Stop) -> Result<bool, Fail> {
    let (before, then, wanted) = stop;
    let listener = TcpListener::bind(rt, "127.0.0.1:0")?;
    let inputs = TcpListener::bind(rt, "127.0.0.1:0")?;
    let far = TcpStream::connect(rt, inputs.local_addr()?)?;
    let (near, _) = inputs.accept()?;
    plan.input = Some(near.as_raw_fd());
    let mut client = Client::new(rt, alloc, listener.local_addr()?)?;
    let mut out = Vec::new(alloc);
    let (left, is_right) = thread::join(
        rt,
        || serve_by(rt, alloc, &listener, plan, FirstChooser, &mut out),
        || {
            let first = client.first_wrong(before);
            let ended = far.shutdown(Shutdown::Both);
            let second = client.first_wrong(then);
            first.is_none() && ended.is_ok() && second.is_none()
        },
    );
    Ok(left.is_ok() && is_right && out.as_slice() == wanted.as_bytes())
}

/// Also where as many connections as it takes have come before. The one that is idle isn't waited for.
#[test]
fn a_server_ends_at_the_end_of_its_input(rt: HostRuntime) -> Result<(), Fail> {
    for sessions in [u64::MAX, 3] {
        let began = Instant::now(&rt)?;
        let mut plan = plan(0, 2, USUAL)?;
        plan.sessions = sessions;
        assert!(rt;
            stops(&rt, rt.alloc(), &mut plan, HALF_ASKED)?,
            "{sessions} sessions"
        );
        assert!(rt; began.elapsed(&rt)? < Duration::from_secs(8));
    }
    Ok(())
}

#[test]
fn a_server_that_ends_waits_for_one_request_at_most(rt: HostRuntime) -> Result<(), Fail> {
    let mut plan = plan(0, 2, USUAL)?;
    plan.sessions = u64::MAX;
    plan.limits.patience.request = 700;
    plan.limits.patience.response = 300;
    assert!(rt; stops(&rt, rt.alloc(), &mut plan, ASKS_ON)?);
    Ok(())
}

/// Whether preservation is on, the percentage, the interval and the time between evictions.
type Settings = (bool, u32, u32, u32);

fn config(settings: Settings) -> Result<Config, Fault> {
    let (preservation, percent, interval, evict_ms) = settings;
    Config::new(preservation, percent, interval, evict_ms)
}

/// The pages of servers at which nothing is held that expect 70,007 clients (more than one may hold), or nobody: each client renews every 20 s, and
/// half may go.
const PAGE: &str =
    "HTTP/1.1 200 OK\r\nContent-Type: text/plain; charset=utf-8\r\nContent-Length: 87\r\nConnection: close\r\n\r\nheld 0\nexpected 70007\nthreshold 105010\nlast 0\npreservation off\npermitted yes\nstatuses \n";

const PAGE_OF_NOBODY: &str =
    "HTTP/1.1 200 OK\r\nContent-Type: text/plain; charset=utf-8\r\nContent-Length: 78\r\nConnection: close\r\n\r\nheld 0\nexpected 0\nthreshold 0\nlast 0\npreservation off\npermitted yes\nstatuses \n";

/// The settings of an ordinary server, how many clients it expects, its workers and sessions, and what a client does.
type Ordinary = (Settings, u32, u32, u32, &'static [Step<'static>]);

const ORDINARY: [Ordinary; 3] = [
    // Fifteen silent clients are waited for longer than the other one waits here.
    (
        (true, 85, 30, 60_000),
        1,
        16,
        16,
        &[
            Step::Connect(15),
            Step::Ask(1, RENEWAL, LAST_MISSING),
            Step::Within(8_000),
            Step::Leave(15),
        ],
    ),
    // None waits for another one, which says nothing.
    (
        (false, 50, 20, 1_000),
        70_007,
        1,
        2,
        &[
            Step::Connect(2),
            Step::Send(1, LOOK),
            Step::Read(1, PAGE),
            Step::Within(8_000),
            Step::Leave(1),
        ],
    ),
    // Nobody is counted anew within the first quarter of an hour.
    (
        (false, 50, 20, 1_000),
        0,
        1,
        1,
        &[Step::Ask(1, LOOK, PAGE_OF_NOBODY)],
    ),
];

#[test]
fn a_server_has_the_settings_that_it_is_given(rt: HostRuntime) -> Result<(), Fail> {
    for (settings, expected, workers, sessions, steps) in &ORDINARY {
        let plan = Plan::of_server(
            config(*settings)?,
            *expected,
            *workers,
            u64::from(*sessions),
            HashKey::new(0, 0),
        );
        assert!(rt;
            plays(&rt, rt.alloc(), &plan, Way::Served, steps)?,
            "expects {expected}"
        );
    }
    Ok(())
}

/// A registration of A/i1 for a second, its renewal, and the answer.
const FOR_A_SECOND: Text<'static> = &[(
    "POST /eureka/apps/a HTTP/1.1\r\nHost: x\r\nConnection: close\r\nContent-Length: 183\r\n\r\n{\"instance\":{\"instanceId\":\"i1\",\"hostName\":\"h\",\"app\":\"a\",\"ipAddr\":\"10.0.0.1\",\"status\":\"UP\",\"lastDirtyTimestamp\":\"5\",\"dataCenterInfo\":{\"name\":\"MyOwn\"},\"leaseInfo\":{\"durationInSecs\":1}}}",
    1,
)];

const RENEWAL_OF_IT: Text<'static> = &[(
    "PUT /eureka/apps/A/i1 HTTP/1.1\r\nHost: x\r\nConnection: close\r\n\r\n",
    1,
)];

const RENEWED: &str = "HTTP/1.1 200 OK\r\nContent-Length: 0\r\nConnection: close\r\n\r\n";

/// Settings whose interval between two evictions is some fifty days.
const OTHER_SETTINGS: Text<'static> = &[(
    "PUT /eureka/config?preservation=off&percent=85&interval=30&evictMs=4294967295 HTTP/1.1\r\nHost: x\r\nConnection: close\r\n\r\n",
    1,
)];

/// The page where the clients were counted anew, and the minute hasn't ended; and where the lease was evicted, the minute of its renewal has
/// ended, and the clients were counted anew once more.
const COUNTED: &str =
    "HTTP/1.1 200 OK\r\nContent-Type: text/plain; charset=utf-8\r\nContent-Length: 83\r\nConnection: close\r\n\r\nheld 1\nexpected 1\nthreshold 1\nlast 0\npreservation off\npermitted yes\nstatuses UP_1_\n";

const EVICTED: &str =
    "HTTP/1.1 200 OK\r\nContent-Type: text/plain; charset=utf-8\r\nContent-Length: 78\r\nConnection: close\r\n\r\nheld 0\nexpected 0\nthreshold 0\nlast 1\npreservation off\npermitted yes\nstatuses \n";

/// The page of a server that holds nothing, and expects one client: the one that registered was one more, until it was evicted.
const EMPTY: &str =
    "HTTP/1.1 200 OK\r\nContent-Type: text/plain; charset=utf-8\r\nContent-Length: 78\r\nConnection: close\r\n\r\nheld 0\nexpected 1\nthreshold 1\nlast 0\npreservation off\npermitted yes\nstatuses \n";

/// The settings of a server, how many clients it expects, its sessions and workers, the milliseconds between two evictions, two ends of minutes
/// and two counts of the clients, and what a client does.
type Timed = (
    Settings,
    u32,
    u32,
    u32,
    (u64, u64, u64),
    &'static [Step<'static>],
);

const TIMED: [Timed; 3] = [
    // A client renews once, is counted soon, and then finds by a connection that was kept, after two of three workers have left, that it was
    // evicted. It looks in the middle of the second minute, which lasts as short as this.
    (
        (false, 85, 30, 1),
        7,
        4,
        3,
        (1, 4_000, 1),
        &[
            Step::Ask(1, FOR_A_SECOND, REGISTERED),
            Step::Ask(1, RENEWAL_OF_IT, RENEWED),
            Step::Sleep(100),
            Step::Ask(1, LOOK, COUNTED),
            Step::Connect(1),
            Step::Sleep(6_000),
            Step::Send(0, LOOK),
            Step::Read(0, EVICTED),
        ],
    ),
    // One that registers between the first eviction and the second is taken by the second: an eviction that comes in time grants no lease any
    // time. (Where it granted what lies between two evictions, the lease would be there until the third.)
    (
        (false, 85, 30, 60_000),
        1,
        2,
        2,
        (3_000, 900_000, 900_000),
        &[
            Step::Sleep(3_500),
            Step::Ask(1, FOR_A_SECOND, REGISTERED),
            Step::Connect(1),
            Step::Sleep(4_000),
            Step::Send(0, LOOK),
            Step::Read(0, EMPTY),
        ],
    ),
    // The evictor goes on at the pace that the server was started with.
    (
        (false, 85, 30, 500),
        1,
        3,
        2,
        (500, 900_000, 900_000),
        &[
            Step::Ask(1, FOR_A_SECOND, REGISTERED),
            Step::Ask(1, OTHER_SETTINGS, RENEWED),
            Step::Connect(1),
            Step::Sleep(4_000),
            Step::Send(0, LOOK),
            Step::Read(0, EMPTY),
        ],
    ),
];

#[test]
fn timers_evict_and_count_anew(rt: HostRuntime) -> Result<(), Fail> {
    for (settings, expected, sessions, workers, (evictor, bucket, threshold), steps) in &TIMED {
        let mut plan = plan(*sessions, *workers, USUAL)?;
        plan.config = config(*settings)?;
        plan.expected = *expected;
        plan.periods = Periods {
            evictor: *evictor,
            bucket: *bucket,
            threshold: *threshold,
        };
        assert!(rt;
            plays(&rt, rt.alloc(), &plan, Way::Served, steps)?,
            "a turn each {evictor} ms"
        );
    }
    Ok(())
}

/// No minute ends, so the journal doesn't begin anew.
#[test]
fn a_book_is_handed_back_as_it_was_served(rt: HostRuntime) -> Result<(), Fail> {
    let mut plan = plan(1, 2, USUAL)?;
    plan.periods.bucket = 900_000;
    let steps = [Step::Ask(1, REGISTRATION, REGISTERED)];
    assert!(rt; plays(&rt, rt.alloc(), &plan, Way::Book, steps.as_slice())?);
    Ok(())
}
