//! A server at the address that the options name.
ghost use Rattle.std.specs.Prelude.{◌≡◌, ◌≢◌, ◌≤◌, ◌⊎◌, Some, None, pos, if◌then◌else◌, OnOk};
ghost use Rattle.eu_accept.specs.Limits.{server_limits};
ghost use Rattle.eu_program.specs.Plans.{end_planned};

use crate::end::End;
use crate::files::create;
use eu_base::{Config, Fault};
use eu_clock::Chooser;
use eu_hash::HashKey;
use eu_http::Policy;
use eu_options::{Serving, connections_within};
use eu_server::{BUCKET_MS, Plan, THRESHOLD_MS, serve_by, serve_with_journal};
use eu_stream::Writing;
use libc::types::rlimit;
use libc::{RLIMIT_NOFILE, getrlimit};
use std::io;
use std::net::{IpAddr, Net, SocketAddr, TcpListener, TcpStream};
use std::os::fd::RawFd;
use std::random::RandomSource;
use std::rt::Files;
use std::sync::Wait;
use std::thread::Threads;
use std::time::Clock;

/// The descriptor of standard input.
const STANDARD_INPUT: RawFd = 0;

/// Listens on that port of that address, and tells on standard error that it listens on it, by these words; or why that failed.
pub fn listen<R: Net<Listener = TcpListener, Stream = TcpStream> + Eprint>(
    rt: &R,
    bind: IpAddr,
    port: u16,
    words: &str,
) -> Option<TcpListener> {
    let wanted = SocketAddr::new(bind, port);
    match TcpListener::bind(rt, wanted) {
        Ok(listener) => {
            let address = listener.local_addr().unwrap_or(wanted);
            let _ = eprintln!(rt; "{words} {address}");
            Some(listener)
        }
        Err(error) => {
            let _ = eprintln!(rt; "{wanted}: {error}");
            None
        }
    }
}

/// Where a server listens: for clients, and for operators, if it does.
#[derive(Drop)]
struct Listeners {
    clients: TcpListener,
    operators: Option<TcpListener>,
}

/// Listens as the options say, and tells so on standard error. None where that failed, and standard error is told why.
fn listen_all<R: Net<Listener = TcpListener, Stream = TcpStream> + Eprint>(
    rt: &R,
    serving: &Serving,
) -> Option<Listeners> {
    let clients = listen(rt, serving.bind, serving.port, "listening on")?;
    let operators = match serving.admin_port {
        Some(port) => Some(listen(rt, serving.admin_bind, port, "admin on")?),
        None => None,
    };
    Some(Listeners { clients, operators })
}

/// How many descriptors this process may have at once. None where the system doesn't tell.
fn descriptors() -> Option<u64> {
    let mut limit = rlimit {
        rlim_cur: 0,
        rlim_max: 0,
    };
    match getrlimit(RLIMIT_NOFILE, &mut limit) {
        0 => Some(limit.rlim_cur),
        _ => None,
    }
}

/// How many connections a server has at most that is asked to have so many: fewer where the process may not have descriptors for all, which
/// standard error is told.
fn most_connections(rt: &impl Eprint, wanted: u32, has_operators: bool) -> u32
    ensures { result ≤ wanted }
{
    let Some(descriptors) = descriptors() else {
        return wanted;
    };
    let most = connections_within(wanted, descriptors, has_operators);
    if most < wanted {
        let _ = eprintln!(rt;
            "at most {most} connections: the limit of descriptors is {descriptors}"
        );
    }
    most
}

/// A key for the tables of a server, which the system draws, and which nobody is told. None where it draws none, and standard error is told
/// why.
fn draw_key<R: RandomSource + Eprint>(rt: &R) -> Option<HashKey> {
    let mut bytes = [0; 16];
    match rt.fill_bytes(&mut bytes) {
        Ok(()) => {
            let words = u128::from_le_bytes(bytes);
            let first = words & 0xFFFF_FFFF_FFFF_FFFF;
            Some(HashKey::new(first as u64, (words >> 64) as u64))
        }
        Err(error) => {
            let _ = eprintln!(rt; "the system draws no key for the tables: {error}");
            None
        }
    }
}

/// The descriptor of standard input, if a server is to end with it.
fn input_of(until_input_ends: bool) -> Option<RawFd>
    ensures { result ≡ (if until_input_ends then Some (pos 0) else None) }
{
    until_input_ends.then_some(STANDARD_INPUT)
}

/// What a server does that has these settings, serves so much as the options say, has so many connections at most, tables that hash by
/// that key, and takes requests by that policy.
fn plan_of(config: Config, serving: Serving, connections: u32, key: HashKey, policy: Policy) -> Plan
    ensures settings { result.config ≡ config }
    ensures expected { result.expected ≡ serving.expected }
    ensures workers { result.workers ≡ serving.workers }
    ensures sessions { result.sessions ≡ end_planned serving.sessions }
    ensures periods { result.periods ≡ record { evictor = config.evict_ms; bucket = BUCKET_MS; threshold = THRESHOLD_MS } }
    ensures connections { result.limits.connections ≡ connections }
    ensures key { result.hash_key ≡ key }
    ensures policy { result.policy ≡ policy }
    ensures idle { result.limits.patience.idle ≡ serving.idle_ms }
    ensures request { result.limits.patience.request ≡ serving.request_ms }
    ensures input { result.input ≡ (if serving.until_input_ends then Some (pos 0) else None) }
    ensures quiet { result.is_quiet ≡ serving.is_quiet }
    ensures operators { result.operators ≡ None }
    ensures limits { result.limits ≡ record server_limits { connections = connections; warm_up_ms = serving.warm_up_ms; patience = record server_limits.patience { idle = serving.idle_ms; request = serving.request_ms } } }
{
    let sessions = match serving.sessions {
        Some(sessions) => u64::from(sessions),
        None => u64::MAX,
    };
    let mut plan = Plan::of_server(config, serving.expected, serving.workers, sessions, key);
    plan.limits.connections = connections as usize;
    plan.limits.patience.idle = serving.idle_ms;
    plan.limits.patience.request = serving.request_ms;
    plan.limits.warm_up_ms = serving.warm_up_ms;
    plan.input = input_of(serving.until_input_ends);
    plan.is_quiet = serving.is_quiet;
    plan.policy = policy;
    plan
}

/// Serves by a plan and writes the book's journal to that file, and gives the exit status. The file is created before a connection is
/// taken.
fn serve_to<
    R: Threads + Wait + Clock + Net + Files + Print + Eprint + AllocGlobal + Sync,
    C: Chooser + Send + Drop,
>(rt: &R, listener: &TcpListener, plan: &Plan, path: &str, chooser: C) -> u8
    ensures { (result ≡ 0) ⊎ (result ≡ 3) }
{
    let Some(mut journal) = create(rt, path) else {
        return End::Failed(Fault::Write).tell(rt);
    };
    let ended = serve_with_journal(
        rt,
        rt.alloc(),
        listener,
        plan,
        chooser,
        &mut Writing::new(&mut journal),
        &mut io::writer(rt),
    );
    End::of_server(ended).tell(rt)
}

/// Serves, and gives the exit status: 0 where as many connections as wanted were served; where no number of them is, it serves on. The journal
/// of the book is written to the file of that path at the end, where one is given. The system draws the key by which its tables hash. Which
/// requests are taken, the policy says.
pub fn serve<
    R: Threads
        + Wait
        + Clock
        + Net<Listener = TcpListener, Stream = TcpStream>
        + Files
        + RandomSource
        + Print
        + Eprint
        + AllocGlobal
        + Sync,
    C: Chooser + Send + Drop,
>(rt: &R, config: Config, serving: Serving, policy: Policy, journal: Option<&str>, chooser: C) -> u8
    ensures { (result ≡ 0) ⊎ (result ≡ 3) }
{
    let Some(key) = draw_key(rt) else {
        return End::Failed(Fault::Read).tell(rt);
    };
    let Some(listeners) = listen_all(rt, &serving) else {
        return End::Failed(Fault::Read).tell(rt);
    };
    let Listeners {
        clients: listener,
        operators,
    } = listeners;
    let connections = most_connections(rt, serving.connections, operators.is_some());
    let mut plan = plan_of(config, serving, connections, key, policy);
    plan.operators = operators;
    if let Some(path) = journal {
        return serve_to(rt, &listener, &plan, path, chooser);
    }
    let ended = serve_by(
        rt,
        rt.alloc(),
        &listener,
        &plan,
        chooser,
        &mut io::writer(rt),
    );
    End::of_server(ended).tell(rt)
}
