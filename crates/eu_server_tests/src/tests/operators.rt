//! Servers with an operator beside their client.
use crate::tests::client::{Client, Step, Text};
use crate::tests::servers::{REGISTERED, REGISTRATION, USUAL, plan, serves};
use eu_server::Plan;
use std::alloc::Global;
use std::net::{Net, TcpListener, TcpStream};
use std::sync::Wait;
use std::test::Fail;
use std::thread;
use std::thread::Threads;
use std::time::Clock;

/// What a client does at first, what an operator does then, and what the client does in the end.
type Play = (
    &'static [Step<'static>],
    &'static [Step<'static>],
    &'static [Step<'static>],
);

/// Whether a server by that plan, at which operators connect, serves its sessions, and all read what they are to.
fn plays<
    R: Threads + Wait + Clock + Eprint + Sync + Net<Listener = TcpListener, Stream = TcpStream>,
>(rt: &R, alloc: Global, mut plan: Plan, play: Play) -> Result<bool, Fail> {
    let (before, then, after) = play;
    let listener = TcpListener::bind(rt, "127.0.0.1:0")?;
    let operators = TcpListener::bind(rt, "127.0.0.1:0")?;
    let mut client = Client::new(rt, alloc, listener.local_addr()?)?;
    let mut operator = Client::new(rt, alloc, operators.local_addr()?)?;
    plan.operators = Some(operators);
    let (left, is_right) = thread::join(
        rt,
        || serves(rt, alloc, &listener, &plan),
        || {
            let first = client.first_wrong(before);
            let second = operator.first_wrong(then);
            let third = client.first_wrong(after);
            first.is_none() && second.is_none() && third.is_none()
        },
    );
    Ok(left == Ok(true) && is_right)
}

const HEALTH: Text<'static> = &[("GET /health?x HTTP/1.1\r\nHost: x\r\n\r\n", 1)];

const WELL: &str =
    "HTTP/1.1 200 OK\r\nContent-Type: text/plain; charset=utf-8\r\nContent-Length: 3\r\nCache-Control: no-store\r\nContent-Security-Policy: default-src 'none'; style-src 'unsafe-inline'; base-uri 'none'; form-action 'none'; frame-ancestors 'none'\r\nX-Content-Type-Options: nosniff\r\nConnection: close\r\n\r\nok\n";

/// To a `HEAD` no text is sent.
const HEAD: Text<'static> = &[("HEAD /health HTTP/1.1\r\nHost: x\r\n\r\n", 1)];

const HEAD_ALONE: &str =
    "HTTP/1.1 200 OK\r\nContent-Type: text/plain; charset=utf-8\r\nContent-Length: 3\r\nCache-Control: no-store\r\nContent-Security-Policy: default-src 'none'; style-src 'unsafe-inline'; base-uri 'none'; form-action 'none'; frame-ancestors 'none'\r\nX-Content-Type-Options: nosniff\r\nConnection: close\r\n\r\n";

const WARM: &str =
    "HTTP/1.1 200 OK\r\nContent-Type: text/plain; charset=utf-8\r\nContent-Length: 11\r\nCache-Control: no-store\r\nContent-Security-Policy: default-src 'none'; style-src 'unsafe-inline'; base-uri 'none'; form-action 'none'; frame-ancestors 'none'\r\nX-Content-Type-Options: nosniff\r\nConnection: close\r\n\r\nwarming up\n";

const OTHER_APPLICATION: Text<'static> = &[("GET /apps/b HTTP/1.1\r\nHost: x\r\n\r\n", 1)];

const CLIENTS_PATH: Text<'static> = &[("GET /eureka/apps HTTP/1.1\r\nHost: x\r\n\r\n", 1)];

const NOT_THERE: &str = "HTTP/1.1 404 Not Found\r\nContent-Length: 0\r\nConnection: close\r\n\r\n";

const COMMAND: Text<'static> = &[("DELETE /apps/A HTTP/1.1\r\nHost: x\r\n\r\n", 1)];

const NOT_ALLOWED: &str =
    "HTTP/1.1 405 Method Not Allowed\r\nAllow: GET, HEAD\r\nContent-Length: 0\r\nConnection: close\r\n\r\n";

const NO_REQUEST: Text<'static> = &[("GET\r\n\r\n", 1)];

const BAD: &str = "HTTP/1.1 400 Bad Request\r\nContent-Length: 0\r\nConnection: close\r\n\r\n";

/// Pages and metrics change from second to second, and so does how long they are: of these the front of the head is read, and what stays is found.
const HEAD_OF_METRICS: Text<'static> = &[(
    "HTTP/1.1 200 OK\r\nContent-Type: text/plain; version=0.0.4; charset=utf-8\r\nContent-Length: ",
    1,
)];

const HEAD_OF_PAGE: Text<'static> = &[(
    "HTTP/1.1 200 OK\r\nContent-Type: text/html; charset=utf-8\r\nContent-Length: ",
    1,
)];

/// A registration whose body is no JSON.
const NO_JSON: Text<'static> = &[(
    "POST /eureka/apps/a HTTP/1.1\r\nHost: x\r\nConnection: close\r\nContent-Length: 1\r\n\r\n{",
    1,
)];

const NOT_JSON: &str =
    "HTTP/1.1 400 Bad Request\r\nContent-Type: application/json\r\nContent-Length: 12\r\nConnection: close\r\n\r\n{\"fault\":20}";

/// A client registers, and one is refused; an operator is told of both, and isn't one of those that are served.
const TOLD: Play = (
    &[
        Step::Ask(1, REGISTRATION, REGISTERED),
        Step::Ask(1, NO_JSON, NOT_JSON),
    ],
    &[
        Step::Ask(2, HEALTH, WELL),
        Step::Ask(1, HEAD, HEAD_ALONE),
        Step::Connect(3),
        Step::Send(0, &[("GET / HTTP/1.1\r\nHost: x\r\n\r\n", 1)]),
        Step::Next(0, HEAD_OF_PAGE),
        Step::Finds(
            0,
            &[
                "<h1>Lease registry</h1>\n",
                "<th scope=\"row\">Connections accepted</th><td>2</td>",
                "<tr><td><a href=\"apps/A\">A</a></td><td>1</td><td>1</td></tr>\n",
            ],
        ),
        Step::Send(1, &[("GET /apps/a HTTP/1.1\r\nHost: x\r\n\r\n", 1)]),
        Step::Next(1, HEAD_OF_PAGE),
        Step::Finds(
            1,
            &["<h1>A</h1>\n", "<tr><td>i1</td><td>UP</td><td></td><td>"],
        ),
        Step::Send(2, &[("GET /metrics HTTP/1.1\r\nHost: x\r\n\r\n", 1)]),
        Step::Next(2, HEAD_OF_METRICS),
        Step::Finds(
            2,
            &[
                "\neureka_leases{status=\"UP\"} 1\n",
                "\neureka_leases_added_total 1\n",
                "\neureka_leases_evicted_total 0\n",
                "\neureka_connections_open ",
                "\neureka_connections_accepted_total 2\n",
                "\neureka_connections_refused_total 0\n",
                "\neureka_responses_total{status=\"204\"} 1\n",
                "\neureka_responses_total{status=\"400\"} 1\n",
                "\neureka_responses_total{status=\"200\"} 0\n",
                "\neureka_requests_refused_total{fault=\"20\"} 1\n",
                "\neureka_requests_refused_total{fault=\"32\"} 0\n",
                "\neureka_build_info{version=\"1.0.0\"} 1\n",
            ],
        ),
        Step::Leave(3),
        Step::Ask(1, OTHER_APPLICATION, NOT_THERE),
        Step::Ask(1, CLIENTS_PATH, NOT_THERE),
        Step::Ask(1, COMMAND, NOT_ALLOWED),
        Step::Ask(1, NO_REQUEST, BAD),
    ],
    &[Step::Ask(1, REGISTRATION, REGISTERED)],
);

#[test]
fn an_operator_is_told(rt: HostRuntime) -> Result<(), Fail> {
    assert!(rt; plays(&rt, rt.alloc(), plan(3, 1, USUAL)?, TOLD)?);
    Ok(())
}

const LISTING: Text<'static> = &[(
    "GET /eureka/apps/b HTTP/1.1\r\nHost: x\r\nConnection: close\r\n\r\n",
    1,
)];

const FORBIDDEN: &str = "HTTP/1.1 403 Forbidden\r\nContent-Length: 0\r\nConnection: close\r\n\r\n";

/// While the server warms up a client is refused its listing, and an operator is told; then not.
const WARMS_UP: Play = (
    &[
        Step::Ask(1, REGISTRATION, REGISTERED),
        Step::Ask(1, LISTING, FORBIDDEN),
    ],
    &[
        Step::Ask(1, HEALTH, WARM),
        Step::Sleep(10_500),
        Step::Ask(1, HEALTH, WELL),
    ],
    &[Step::Ask(1, LISTING, NOT_THERE)],
);

#[test]
fn a_server_that_warms_up_lists_nothing(rt: HostRuntime) -> Result<(), Fail> {
    let mut plan = plan(3, 1, USUAL)?;
    plan.limits.warm_up_ms = 10_000;
    assert!(rt; plays(&rt, rt.alloc(), plan, WARMS_UP)?);
    Ok(())
}

/// A registration of a lease of one second.
const SHORT_LEASE: Text<'static> = &[(
    "POST /eureka/apps/a HTTP/1.1\r\nHost: x\r\nConnection: close\r\nContent-Length: 144\r\n\r\n{\"instance\":{\"instanceId\":\"i2\",\"hostName\":\"h\",\"app\":\"a\",\"ipAddr\":\"10.0.0.1\",\"dataCenterInfo\":{\"name\":\"MyOwn\"},\"leaseInfo\":{\"durationInSecs\":1}}}",
    1,
)];

const RENEWAL: Text<'static> = &[(
    "PUT /eureka/apps/A/i1 HTTP/1.1\r\nHost: x\r\nConnection: close\r\n\r\n",
    1,
)];

const RENEWED: &str = "HTTP/1.1 200 OK\r\nContent-Length: 0\r\nConnection: close\r\n\r\n";

/// A listing that a thread of the pool answers.
const LISTING_OF_THE_POOL: Text<'static> = &[(
    "GET /eureka/apps/%62 HTTP/1.1\r\nHost: x\r\nConnection: close\r\n\r\n",
    1,
)];

const TOO_SLOW: &str =
    "HTTP/1.1 408 Request Timeout\r\nContent-Length: 0\r\nConnection: close\r\n\r\n";

const NO_ROOM: &str =
    "HTTP/1.1 503 Service Unavailable\r\nContent-Length: 0\r\nRetry-After: 30\r\nConnection: close\r\n\r\n";

/// Clients of a server that has three connections at most: two register, one for a second; one renews; one asks the pool; one is too slow; and one comes while three
/// are there that say nothing.
const COUNTED: Play = (
    &[
        Step::Ask(1, REGISTRATION, REGISTERED),
        Step::Ask(1, SHORT_LEASE, REGISTERED),
        Step::Ask(1, RENEWAL, RENEWED),
        Step::Ask(1, LISTING_OF_THE_POOL, NOT_THERE),
        Step::Connect(1),
        Step::Send(0, &[("GET /", 1)]),
        Step::Read(0, TOO_SLOW),
        Step::Sleep(500),
        Step::Connect(3),
        Step::Ask(1, RENEWAL, NO_ROOM),
        Step::Sleep(2_500),
    ],
    &[
        Step::Connect(1),
        Step::Send(0, &[("GET", 1)]),
        Step::Read(0, TOO_SLOW),
        Step::Connect(1),
        Step::Send(1, &[("GET /metrics HTTP/1.1\r\nHost: x\r\n\r\n", 1)]),
        Step::Finds(
            1,
            &[
                "\neureka_leases{status=\"UP\"} 1\n",
                "\neureka_renewals_total 1\n",
                "\neureka_leases_added_total 2\n",
                "\neureka_leases_removed_total 1\n",
                "\neureka_leases_evicted_total 1\n",
                "\neureka_connections_open 0\n",
                "\neureka_connections_accepted_total 8\n",
                "\neureka_connections_refused_total 1\n",
                "\neureka_responses_total{status=\"200\"} 1\n",
                "\neureka_responses_total{status=\"204\"} 2\n",
                "\neureka_responses_total{status=\"404\"} 1\n",
                "\neureka_responses_total{status=\"408\"} 1\n",
                "\neureka_responses_total{status=\"503\"} 1\n",
            ],
        ),
    ],
    &[Step::Ask(1, RENEWAL, RENEWED)],
);

#[test]
fn an_operator_is_told_what_was_counted(rt: HostRuntime) -> Result<(), Fail> {
    let mut plan = plan(9, 4, (1_000, 1_000, 100, 65_536))?;
    plan.limits.connections = 3;
    plan.config.preservation = false;
    assert!(rt; plays(&rt, rt.alloc(), plan, COUNTED)?);
    Ok(())
}
