//! A server.
ghost use Rattle.std.specs.Prelude.{◌≡◌, ◌≤◌, ◌⊎◌, ◌+◌, ℕ, [], ◌∷◌, ◌++◌, true, false, None, if◌then◌else◌, max, min, take, vec_len, Ok, Err, IfOk, IfErr, OnOk};
ghost use Rattle.std.specs.Vec.{vec_capacity};
ghost use Rattle.std.specs.Io.KnownBytes.{Appends, Keeps};
ghost use Rattle.eu_book.specs.Account.{IsLawful};
ghost use Rattle.eu_book.specs.Peers.{state_of};
ghost use Rattle.eu_accept.specs.Limits.{server_limits};
ghost use Rattle.eu_server.specs.Ends.{IsBegin, IsClose, IsEnd, IsStart};
ghost use Rattle.eu_server.specs.Journal.{IsUntold, closed_text};
ghost use Rattle.eu_server.specs.Loops as spec;
ghost use Rattle.eu_server.specs.Messages.{told_first};
ghost use Rattle.eu_server.specs.Served.{served_text};
ghost use Rattle.eu_server.specs.Staff.{AreSessions, AreTimers, IsReadyFor, IsStaff};
ghost use Rattle.eu_settle.specs.Settled.{IsMismatch, IsSettled};
ghost use Rattle.eu_settle.specs.declared.settling.Mismatch.{Mismatch};
ghost use Rattle.eu_shared.specs.Closing.{account_of};
ghost use Rattle.eu_shared.specs.Shares.{HasNames, HasParts};

use crate::no_peer::NoPeer;
use eu_accept::{Admission, Door, Hand, HandName, Hub, Limits, Loop, Station, Told, can_gather};
use eu_base::{Config, Fault};
use eu_clock::{Chooser, SystemClock};
use eu_gate::{BUCKET_MS, MOST_WORKERS, OTHER_WORKERS, Periods, THRESHOLD_MS};
use eu_hash::HashKey;
use eu_http::Policy;
use eu_journal_text::{WriteError, write_journal};
use eu_routes::Routes;
use eu_settle::{Closed, settle};
use eu_shared::{Blanks, Label, PARTS, Pass, Shared, Unclosed, close};
use eu_stream::Sink;
use eu_workers::{Job, Site, Work, Worker, run_all};
use mio::Poll;
use std::alloc::Global;
use std::io;
use std::io::{ErrorKind, Write};
use std::marker::Brand;
use std::net::{Net, TcpListener};
use std::os::fd::RawFd;
use std::sync::Wait;
use std::thread::Threads;
use std::time::{Clock, Duration};

/// The workers that are timers.
const TIMERS: usize = 3;

/// How long the threads of a server wait for each other before it begins, in milliseconds.
const GATHERING_MS: u64 = 5_000;

/// What a server is to do. `Plan::of_server` is that of an ordinary one.
#[derive(Drop)]
pub struct Plan {
    /// The settings of its registry.
    pub config: Config,
    /// How many clients it expects at first.
    pub expected: u32,
    /// How many loops serve its connections, 1 to 16; 0 counts as 1, and more than 16 as 16.
    pub workers: u32,
    /// After how many connections it ends.
    pub sessions: u64,
    /// The milliseconds between two turns of each timer; 0 counts as 1.
    pub periods: Periods,
    /// How many connections it has at most, and how long it waits for them.
    pub limits: Limits,
    /// The descriptor of a pipe or a socket at whose end the server ends, too, if there is one.
    pub input: Option<RawFd>,
    /// Whether nothing is told on standard error of evictions and of connections that are refused.
    pub is_quiet: bool,
    /// The key by which its tables hash. Clients choose what is hashed, so they aren't to know it.
    pub hash_key: HashKey,
    /// Which requests it takes.
    pub policy: Policy,
    /// Where operators connect, if they do.
    pub operators: Option<TcpListener>,
}

impl Plan {
    /// That of an ordinary server with these settings, which expects so many clients, serves so many connections by so many workers, and has
    /// tables that hash by that key: its evictor takes a turn each `evict_ms` of the settings, the bucket ends a minute each `BUCKET_MS`, the threshold is updated each
    /// `THRESHOLD_MS`, its limits are those of `Limits::of_server`, its policy is that of `Policy::open`, and no operators connect.
    pub fn of_server(
        config: Config,
        expected: u32,
        workers: u32,
        sessions: u64,
        hash_key: HashKey,
    ) -> Plan
        ensures settings { (result.config ≡ config) × (result.expected ≡ expected) × (result.workers ≡ workers) × (result.sessions ≡ sessions) }
        ensures periods { result.periods ≡ record { evictor = config.evict_ms; bucket = BUCKET_MS; threshold = THRESHOLD_MS } }
        ensures limits { result.limits ≡ server_limits }
        ensures input { result.input ≡ None }
        ensures quiet { result.is_quiet ≡ false }
        ensures hash_key { result.hash_key ≡ hash_key }
        ensures policy { (result.policy.accepts_peers ≡ true) × (result.policy.allowed_origin ≡ None) × (result.policy.most_body ≡ 1048576) × (result.policy.lists ≡ true) }
        ensures operators { result.operators ≡ None }
    {
        Plan {
            config,
            expected,
            workers,
            sessions,
            periods: Periods::of_server(config.evict_ms),
            limits: Limits::of_server(),
            input: None,
            is_quiet: false,
            hash_key,
            policy: Policy::open(),
            operators: None,
        }
    }
}

/// How many workers of sessions a server has by a plan of so many: 1 to 16.
fn workers_of(wanted: u32) -> u32
    ensures value { result ≡ max 1 (min wanted MOST_WORKERS) }
    ensures few { result ≤ MOST_WORKERS }
{
    wanted.clamp(1, MOST_WORKERS)
}

/// How many loops a server by a plan has: its workers, and one for operators, where they connect.
fn loops_of(plan: &Plan) -> u32
    ensures { result ≡ spec.loops_of plan.now }
{
    workers_of(plan.workers) + u32::from(plan.operators.is_some())
}

/// What a server by a plan counts at first.
fn admission_of(plan: &Plan) -> Admission
    ensures { result ≡ record { left = plan.now.sessions; came = 0; refused = 0; here = 0; refused_here = 0; operators = 0; loops = spec.loops_of plan.now; is_closed = false; is_stopping = false; has_failed = false } }
{
    Admission::new(plan.sessions, loops_of(plan))
}

/// What a server by a plan has told at first, if it tells anything: without self-preservation evictions are permitted from the start.
fn told_of(plan: &Plan) -> Option<Told>
    ensures { result ≡ told_first plan.now.is_quiet plan.now.config }
{
    if plan.is_quiet {
        return None;
    }
    Some(Told::new(!plan.config.preservation))
}

/// What a server ends by that can't begin, since the system refuses something: `OutOfMemory` where that is memory, else `Read`.
fn fault_of(error: &io::Error) -> Fault
    ensures { (result ≡ Fault.OutOfMemory) ⊎ (result ≡ Fault.Read) }
{
    match error.kind() {
        ErrorKind::OutOfMemory => Fault::OutOfMemory,
        _ => Fault::Read,
    }
}

/// What the threads of a server by a plan share, and what its loops poll with. `Read` where the system refuses something, or the clock can't be
/// read; `OutOfMemory`.
fn open_hub<'a, R: Wait + Clock + Net>(
    rt: &'a R,
    alloc: Global,
    plan: &Plan,
) -> Result<(Hub<'a, R>, Vec<Poll>), Fault>
    ensures loops { IfOk result (λ opened. vec_len opened.1 ≡ spec.loops_of plan.now) }
    ensures fault { IfErr result IsBegin }
{
    let admission = admission_of(plan);
    match Hub::open(
        rt,
        alloc,
        plan.limits,
        plan.periods,
        admission,
        workers_of(plan.workers) as usize,
        told_of(plan),
    ) {
        Ok(opened) => Ok(opened),
        Err(error) => Err(fault_of(&error)),
    }
}

/// A worker of a server, over a book that `K` names.
type ServerWorker<'a, K, R, H> = Worker<K, Station<'a, R>, SystemClock<'a, R>, H, NoPeer>;

/// A worker that is ready for this work, in as many turns as can be counted.
fn job<'a, K: Label, R: Wait + Clock, H: Chooser>(
    rt: &'a R,
    pass: Pass<K>,
    work: Work<Station<'a, R>, H, NoPeer>,
) -> ServerWorker<'a, K, R, H>
    ensures { IsReadyFor work.entry result }
{
    Worker::Ready(Job {
        pass,
        clock: SystemClock::new(rt),
        limit: u64::MAX,
        work,
    })
}

/// Whether a work asks so often that its log is to have its room at once.
fn wants_log<R: Wait + Clock, H>(work: &Work<Station<'_, R>, H, NoPeer>) -> bool {
    match work {
        Work::Sessions { source } => source.visits(),
        _ => false,
    }
}

/// Adds a worker that is ready for this work, with a pass of its own. That of a worker of sessions has room in its log for a whole journal: else
/// no heartbeat would be answered any more where memory is short and each log as long as its room. `OutOfMemory`, and the fault of `Shared::pass`.
fn add<'a, K: Label, R: Wait + Clock, H: Chooser + Drop>(
    workers: &mut Vec<ServerWorker<'a, K, R, H>>,
    rt: &'a R,
    alloc: Global,
    shared: &Shared<K>,
    work: Work<Station<'a, R>, H, NoPeer>,
) -> Result<(), Fault>
    ensures made { OnOk result ((worker : _) × IsReadyFor work.entry worker × (workers.new.items ≡ workers.old.items ++ worker ∷ [])) }
    ensures fault { IfErr result IsStart }
{
    let mut pass = shared.pass(rt, alloc)?;
    if wants_log(&work) {
        pass.reserve_log()?;
    }
    workers.push(job(rt, pass, work))?;
    Ok(())
}

/// Adds a worker of sessions for each of these stations. The faults are those of `add`.
fn add_sessions<'a, K: Label, R: Wait + Clock, H: Chooser + Drop>(
    workers: &mut Vec<ServerWorker<'a, K, R, H>>,
    rt: &'a R,
    alloc: Global,
    shared: &Shared<K>,
    stations: Vec<Station<'a, R>>,
) -> Result<(), Fault>
    ensures made { OnOk result ((sessions : _) × AreSessions (vec_len stations.entry) sessions × (workers.new.items ≡ workers.old.items ++ sessions)) }
    ensures fault { IfErr result IsStart }
{
    for source in stations {
        add(workers, rt, alloc, shared, Work::Sessions { source })?;
    }
    Ok(())
}

/// Adds the evictor, the bucket's and the threshold's worker. The faults are those of `add`.
fn add_timers<'a, K: Label, R: Wait + Clock, H: Chooser + Drop>(
    workers: &mut Vec<ServerWorker<'a, K, R, H>>,
    rt: &'a R,
    alloc: Global,
    shared: &Shared<K>,
    chooser: H,
) -> Result<(), Fault>
    ensures made { OnOk result ((timers : _) × AreTimers chooser timers × (workers.new.items ≡ workers.old.items ++ timers)) }
    ensures fault { IfErr result IsStart }
{
    add(workers, rt, alloc, shared, Work::Evictor { chooser })?;
    add(workers, rt, alloc, shared, Work::Bucket)?;
    add(workers, rt, alloc, shared, Work::Threshold)
}

/// Adds a loop that polls with each of these. An error is the system's or the clock's.
fn add_loops<'a, R: Wait + Clock>(
    stations: &mut Vec<Station<'a, R>>,
    hub: &'a Hub<'a, R>,
    polls: Vec<Poll>,
) -> io::Result<()>
    ensures { OnOk result (vec_len stations.new ≡ vec_len stations.old + vec_len polls) }
{
    for poll in polls {
        let number = stations.len().saturating_sub(1);
        stations.push(Station::Loop(Loop::new(hub, number, poll)?))?;
    }
    Ok(())
}

/// The door of a server, its loops, which poll with these, and the two threads for requests that take long, in this order. An error is the system's or
/// the clock's.
fn make_stations<'a, R: Wait + Clock + Net>(
    hub: &'a Hub<'a, R>,
    listener: &TcpListener,
    plan: &Plan,
    polls: Vec<Poll>,
) -> io::Result<Vec<Station<'a, R>>>
    ensures { IfOk result (λ stations. vec_len stations ≡ vec_len polls + 3) }
{
    let mut stations = Vec::with_capacity(
        hub.alloc,
        polls.len().saturating_add(OTHER_WORKERS as usize),
    )?;
    let operators = plan.operators.as_ref();
    let door = Door::new(hub, listener, operators, plan.input)?;
    stations.push(Station::Door(door))?;
    add_loops(&mut stations, hub, polls)?;
    stations.push(Station::Pool(Hand::new(hub, HandName::First)))?;
    stations.push(Station::Pool(Hand::new(hub, HandName::Second)))?;
    Ok(stations)
}

/// The same, with the fault that a server ends by where they can't be made.
fn stations_of<'a, R: Wait + Clock + Net>(
    hub: &'a Hub<'a, R>,
    listener: &TcpListener,
    plan: &Plan,
    polls: Vec<Poll>,
) -> Result<Vec<Station<'a, R>>, Fault>
    ensures made { IfOk result (λ stations. vec_len stations ≡ vec_len polls + 3) }
    ensures fault { IfErr result IsBegin }
{
    match make_stations(hub, listener, plan, polls) {
        Ok(stations) => Ok(stations),
        Err(error) => Err(fault_of(&error)),
    }
}

/// The workers of a server: those of sessions, one for each of these stations, and then those of the timers. `OutOfMemory`, and the fault of `Shared::pass`.
fn make_workers<'a, K: Label, R: Wait + Clock, H: Chooser + Drop>(
    rt: &'a R,
    alloc: Global,
    shared: &Shared<K>,
    stations: Vec<Station<'a, R>>,
    chooser: H,
) -> Result<Vec<ServerWorker<'a, K, R, H>>, Fault>
    ensures staff { IfOk result (λ staff. IsStaff (vec_len stations.entry) chooser staff.items) }
    ensures fault { IfErr result IsStart }
{
    let mut workers = Vec::with_capacity(alloc, stations.len().saturating_add(TIMERS))?;
    add_sessions(&mut workers, rt, alloc, shared, stations)?;
    add_timers(&mut workers, rt, alloc, shared, chooser)?;
    Ok(workers)
}

/// Takes the passes back, into room that is there. Takes no memory.
fn gather<K: Label, R: Wait + Clock, H: Chooser + Drop>(
    workers: Vec<ServerWorker<'_, K, R, H>>,
    passes: &mut Vec<Pass<K>>,
)
    requires room { vec_len passes.old + vec_len workers ≤ vec_capacity passes.old }
{
    for worker in workers {
        let Worker::Done(pass, _, work) = worker else {
            continue;
        };
        drop(work);
        passes.push_reserved(pass);
    }
}

/// Whether there is a thread for each of so many workers.
fn has_threads<R: Threads + Wait + Clock + Sync>(rt: &R, alloc: Global, workers: usize) -> bool {
    let patience = Duration::from_millis(GATHERING_MS);
    can_gather(rt, alloc, workers, workers, patience).unwrap_or(false)
}

/// Has all workers of a server work until the sessions have ended, once there is a thread for each of them. Gives their passes, room for which is made before any
/// works. `OutOfMemory`, and the faults of `make_workers`: all before any works.
fn run_workers<
    'a,
    K: Label + Send + Sync,
    R: Threads + Wait + Clock + Net + Eprint + Sync,
    H: Chooser + Send + Drop,
>(
    rt: &'a R,
    alloc: Global,
    shared: &Shared<K>,
    hub: &'a Hub<'a, R>,
    policy: &Policy,
    stations: Vec<Station<'a, R>>,
    chooser: H,
) -> Result<Vec<Pass<K>>, Fault>
    ensures { IfErr result IsStart }
{
    let routes = Routes::new(alloc)?;
    let warm_policy = policy.while_warming(alloc)?;
    let mut workers = make_workers(rt, alloc, shared, stations, chooser)?;
    let mut passes = Vec::with_capacity(alloc, workers.len())?;
    if !has_threads(rt, alloc, workers.len()) {
        return Err(Fault::OutOfMemory);
    }
    let site = Site {
        rt,
        alloc,
        shared,
        routes: &routes,
        policy,
        warm_policy: &warm_policy,
        gate: hub,
    };
    run_all(&site, workers.as_mut_slice());
    gather(workers, &mut passes);
    Ok(passes)
}

/// Gives a book back that was closed and is settled: the fault of the close where it wasn't closed, `Mismatch` where a worker didn't
/// log its part of it.
fn judge<K: Label>(closed: Result<Closed, Unclosed<K>>) -> Result<Closed, Fault>
    ensures unclosed { IfErr closed (λ u. result ≡ Err u.fault) }
    ensures settled { IfOk result (λ c. (closed ≡ Ok c) × IsSettled c.first c.logs.items c.entries.items) }
    ensures mismatch { IfOk closed (λ c. IfErr result (λ f. (f ≡ Fault.Mismatch) × ((m : Mismatch) × IsMismatch c.first c.logs.items c.entries.items m.pass m.place))) }
{
    let closed = match closed {
        Ok(closed) => closed,
        Err(unclosed) => return Err(unclosed.fault),
    };
    match settle(&closed) {
        Ok(()) => Ok(closed),
        Err(_) => Err(Fault::Mismatch),
    }
}

/// Closes a book, for which nobody waits any more (`eu_shared::close`), and settles it. The faults are those of `judge`.
fn close_book<K: Label>(
    shared: Shared<K>,
    alloc: Global,
    passes: Vec<Pass<K>>,
) -> Result<Closed, Fault>
    ensures lawful { IfOk result (λ c. IsLawful (account_of c)) }
    ensures plain { IfOk result (λ c. (c.base ≡ state_of (account_of c).base) × (c.end ≡ state_of (account_of c).state)) }
    ensures settled { IfOk result (λ c. IsSettled c.first c.logs.items c.entries.items) }
    ensures fault { IfErr result IsClose }
{
    judge(close(shared, alloc, passes))
}

/// What a server did that came to a good end.
#[derive(Drop)]
pub struct Finished {
    /// How many connections were served.
    pub served: u64,
    /// The book, closed and settled.
    pub closed: Closed,
}

/// Has all workers of a server by this plan work until the sessions have ended, and then closes and settles the book, whether accepting
/// a connection has failed or not. The faults are those of `run_workers` and `close_book`, never that of an accept.
fn serve_and_close<
    'a,
    K: Label + Send + Sync,
    R: Threads + Wait + Clock + Net + Eprint + Sync,
    H: Chooser + Send + Drop,
>(
    rt: &'a R,
    alloc: Global,
    shared: Shared<K>,
    hub: &'a Hub<'a, R>,
    policy: &Policy,
    stations: Vec<Station<'a, R>>,
    chooser: H,
) -> Result<Finished, Fault>
    ensures lawful { IfOk result (λ o. IsLawful (account_of o.closed)) }
    ensures plain { IfOk result (λ o. (o.closed.base ≡ state_of (account_of o.closed).base) × (o.closed.end ≡ state_of (account_of o.closed).state)) }
    ensures settled { IfOk result (λ o. IsSettled o.closed.first o.closed.logs.items o.closed.entries.items) }
    ensures fault { IfErr result (λ f. IsStart f ⊎ IsClose f) }
{
    let passes = run_workers(rt, alloc, &shared, hub, policy, stations, chooser)?;
    let closed = close_book(shared, alloc, passes)?;
    let served = hub.counts().came;
    Ok(Finished { served, closed })
}

/// What a server ends by, of which is known whether accepting a connection has failed: by its other fault, if it has one; else by `Read`,
/// if that has failed.
fn judge_accepts(has_failed: bool, outcome: Result<Finished, Fault>) -> Result<Finished, Fault>
    ensures other { IfErr outcome (λ f. result ≡ Err f) }
    ensures failed { IfOk outcome (λ o. result ≡ (if has_failed then Err Fault.Read else Ok o)) }
{
    let outcome = match outcome {
        Ok(outcome) => outcome,
        Err(fault) => return Err(fault),
    };
    if has_failed {
        return Err(Fault::Read);
    }
    Ok(outcome)
}

/// Serves by a plan, and gives the book, closed and settled, rather than writing a line: its entries lead from the base to the end, and the
/// log of each worker, from the first entry's number on, is its part of them.
///
/// The blanks are four new ledgers of 1,025 parts each, as `Shared::open` takes them. The faults are those of `serve_by`, and come when they
/// do there, but for `Write`: nothing is written.
pub fn serve_book<
    K: Label + Send + Sync,
    R: Threads + Wait + Clock + Net + Eprint + Sync,
    H: Chooser + Send + Drop,
>(
    rt: &R,
    alloc: Global,
    listener: &TcpListener,
    plan: &Plan,
    chooser: H,
    blanks: Blanks,
) -> Result<Finished, Fault>
    requires names { HasNames blanks K.steps K.counted K.added K.removed }
    requires parts { HasParts blanks K.parts × (K.parts ≡ PARTS) }
    ensures lawful { IfOk result (λ o. IsLawful (account_of o.closed)) }
    ensures plain { IfOk result (λ o. (o.closed.base ≡ state_of (account_of o.closed).base) × (o.closed.end ≡ state_of (account_of o.closed).state)) }
    ensures settled { IfOk result (λ o. IsSettled o.closed.first o.closed.logs.items o.closed.entries.items) }
    ensures fault { IfErr result IsEnd }
{
    let shared: Shared<K> = Shared::open(
        alloc,
        plan.config,
        plan.expected,
        0,
        plan.hash_key,
        blanks,
    )?;
    let (hub, polls) = open_hub(rt, alloc, plan)?;
    let stations = stations_of(&hub, listener, plan, polls)?;
    let outcome = serve_and_close(rt, alloc, shared, &hub, &plan.policy, stations, chooser);
    judge_accepts(hub.counts().has_failed, outcome)
}

/// Writes how many connections were served. `Write` where that fails.
fn tell<W: Write>(writer: &mut W, served: u64) -> Result<(), Fault>
    ensures told { OnOk result (Appends (W.contents writer.old) (W.contents writer.new) (served_text served)) }
    ensures err { IfErr result (λ f. f ≡ Fault.Write) }
{
    if writeln!(writer, "served {served}").is_err() || writer.flush().is_err() {
        return Err(Fault::Write);
    }
    Ok(())
}

/// Serves by a plan as `serve_book` does, over a book of its own.
fn serve_new<R: Threads + Wait + Clock + Net + Eprint + Sync, H: Chooser + Send + Drop>(
    rt: &R,
    alloc: Global,
    listener: &TcpListener,
    plan: &Plan,
    chooser: H,
) -> Result<Finished, Fault>
    ensures lawful { IfOk result (λ o. IsLawful (account_of o.closed)) }
    ensures plain { IfOk result (λ o. (o.closed.base ≡ state_of (account_of o.closed).base) × (o.closed.end ≡ state_of (account_of o.closed).state)) }
    ensures settled { IfOk result (λ o. IsSettled o.closed.first o.closed.logs.items o.closed.entries.items) }
    ensures fault { IfErr result IsEnd }
{
    serve_book::<Brand, R, H>(rt, alloc, listener, plan, chooser, Blanks::new())
}

/// Serves so many connections of a listener as the plan says, by its workers, and then writes `served N`, N being how many there were.
///
/// Unless the plan is quiet, standard error is told of each eviction that took leases, of each turn of the evictor at which evictions are permitted and
/// weren't before, or the other way round, and of connections that are refused, at most once a second (`eu_accept::Message`). That no more operators are accepted is told in any case.
///
/// A book is opened with the settings and the number expected, without peers. Each accepted connection is one session of
/// HTTP/1.1 (`eu_session::take_turn`, turn by turn), at the machine's time; which requests are taken, the plan's policy says (`Policy::forbids`), and that no listing is
/// taken for the first `warm_up_ms`. Each belongs to one of the loops, which visits it whenever something has come, or more can be sent; a request that takes
/// long is answered by one of two other threads meanwhile. Where the plan has a listener for operators, their connections belong to a loop of their own: each has one
/// request, which only looks, and counts as none of the sessions. Beside them the evictor takes its turns, by the
/// chooser's words, the bucket ends minutes, and the threshold is updated, each a period apart. Once the sessions have ended, so have these. Then the
/// book is closed, and settled with what each worker logged.
///
/// Where as many connections are open as the plan allows, a further one is told so (503), and isn't counted as served. A connection whose peer is late
/// by the plan's patience is closed; one whose request isn't whole is told so (408). After its last response what still comes is dropped, up to
/// `linger_bytes` and for at most `linger` milliseconds, and the connection is closed (RFC 9112, section 9.6). Where the plan names an input, the server
/// stops at its end: no more is accepted, who is idle is closed, and requests that have begun are answered.
///
/// # Errors
///
/// - `Read` where a connection can't be accepted, for another reason than that it was aborted before, its network failed, a
///   signal came or there is no descriptor; or where the system refuses to tell what has come of connections. No further session begins then; those that
///   began are finished, and the book is closed and settled, before it is told. Also where the machine's clock can't be read at the start, or the input
///   can't be polled.
/// - `OutOfMemory` where there is no memory to open the book or for the workers, or not a thread for each of them, before a connection is accepted; or
///   no memory to close the book.
/// - `PassMissing` and `Mismatch` where the book can't be closed or settled.
/// - `TooManyPasses` by the contract, but 23 passes are made at most.
/// - `Write` where `served N` can't be written or flushed.
///
/// In all cases but the last nothing is written.
pub fn serve_by<
    R: Threads + Wait + Clock + Net + Eprint + Sync,
    H: Chooser + Send + Drop,
    W: Write,
>(
    rt: &R,
    alloc: Global,
    listener: &TcpListener,
    plan: &Plan,
    chooser: H,
    writer: &mut W,
) -> Result<(), Fault>
    ensures told { OnOk result ((n : ℕ) × Appends (W.contents writer.old) (W.contents writer.new) (served_text n)) }
    ensures untold { IfErr result (λ f. (f ≡ Fault.Write) ⊎ (IsEnd f × (writer.new ≡ writer.old))) }
{
    let served = serve_new(rt, alloc, listener, plan, chooser)?.served;
    tell(writer, served)
}

/// Writes the text of a closed book's journal, and flushes it. `OutOfMemory` where there is no memory for the text: nothing was written
/// then. `Write` where a write or the flush failed, now or before: a front of the text was written then.
fn write_closed<J: Sink>(alloc: Global, journal: &mut J, closed: &Closed) -> Result<(), Fault>
    ensures written { OnOk result (Appends (J.contents journal.old) (J.contents journal.new) (closed_text closed.now)) }
    ensures sound { OnOk result (J.failed journal.new ≡ J.failed journal.old) }
    ensures fault { IfErr result (λ f. (f ≡ Fault.OutOfMemory) ⊎ (f ≡ Fault.Write)) }
    ensures memory { result ≡ Err Fault.OutOfMemory → Keeps (J.contents journal.old) (J.contents journal.new) }
    ensures front { result ≡ Err Fault.Write → (k : ℕ) × Appends (J.contents journal.old) (J.contents journal.new) (take k (closed_text closed.now)) }
    ensures failed { result ≡ Err Fault.Write → J.failed journal.new ≡ true }
    ensures same_stream { J.stream journal.new ≡ J.stream journal.old }
{
    let entries = closed.entries.as_slice();
    match write_journal(alloc, journal, &closed.base, entries, &closed.end) {
        Ok(()) => flush(journal),
        Err(WriteError::Write) => Err(Fault::Write),
        Err(WriteError::OutOfMemory) => Err(Fault::OutOfMemory),
    }
}

/// Flushes a writer. `Write` where that fails.
fn flush<J: Sink>(journal: &mut J) -> Result<(), Fault>
    ensures kept { Keeps (J.contents journal.old) (J.contents journal.new) }
    ensures sound { OnOk result (J.failed journal.new ≡ J.failed journal.old) }
    ensures fault { IfErr result (λ f. (f ≡ Fault.Write) × (J.failed journal.new ≡ true)) }
    ensures same_stream { J.stream journal.new ≡ J.stream journal.old }
{
    match journal.flush() {
        Ok(()) => Ok(()),
        Err(_) => Err(Fault::Write),
    }
}

/// Serves by a plan as `serve_by` does, but before `served N` is written, what is left of the journal of the book is written to another
/// writer, and flushed. It gives what was served, and the book, closed and settled, as `serve_book` does.
///
/// What is written there is the text of a journal (`eu_journal_text::journal_text`): the state with which the closed book's journal begins,
/// its entries, and the state with which it ends. The whole text is in memory before it is written.
///
/// # Errors
///
/// Those of `serve_by`, each when it comes there, and `OutOfMemory` also where there is no memory for the text: nothing is written then,
/// neither there nor of `served N`. `Write` comes also where a write or a flush of the journal failed, now or before: then a front of the
/// text was written there, and nothing of `served N`. Where `Write` comes of `served N`, the text was written whole.
pub fn serve_with_journal<
    R: Threads + Wait + Clock + Net + Eprint + Sync,
    H: Chooser + Send + Drop,
    J: Sink,
    W: Write,
>(
    rt: &R,
    alloc: Global,
    listener: &TcpListener,
    plan: &Plan,
    chooser: H,
    journal: &mut J,
    writer: &mut W,
) -> Result<Finished, Fault>
    ensures lawful { IfOk result (λ o. IsLawful (account_of o.closed)) }
    ensures plain { IfOk result (λ o. (o.closed.base ≡ state_of (account_of o.closed).base) × (o.closed.end ≡ state_of (account_of o.closed).state)) }
    ensures settled { IfOk result (λ o. IsSettled o.closed.first o.closed.logs.items o.closed.entries.items) }
    ensures written { IfOk result (λ o. Appends (J.contents journal.old) (J.contents journal.new) (closed_text o.closed)) }
    ensures told { IfOk result (λ o. Appends (W.contents writer.old) (W.contents writer.new) (served_text o.served)) }
    ensures untold { IfErr result (λ f. IsUntold (writer.new ≡ writer.old) (J.failed journal.new) (J.contents journal.old) (J.contents journal.new) f) }
    ensures sound { OnOk result (J.failed journal.new ≡ J.failed journal.old) }
    ensures same_journal { J.stream journal.new ≡ J.stream journal.old }
{
    let outcome = serve_new(rt, alloc, listener, plan, chooser)?;
    write_closed(alloc, journal, &outcome.closed)?;
    tell(writer, outcome.served)?;
    Ok(outcome)
}
