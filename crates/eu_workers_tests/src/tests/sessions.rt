//! Two session workers at once, beside the timers.
ghost use Rattle.std.specs.Prelude.{◌≡◌};
ghost use Rattle.eu_shared.specs.Shares.{HasNames, HasParts};

use crate::tests::hands::{push, push_timers, work_through};
use crate::tests::visits::{Sides, visit};
use eu_base::{Fault, Task};
use eu_clock::{FirstChooser, ListClock};
use eu_fixtures::{REGISTERED, settings};
use eu_hash::HashKey;
use eu_peer::{ItemAnswer, Lost, Peer};
use eu_session::Talk;
use eu_settle::{Closed, settle};
use eu_shared::{Blanks, Label, PARTS, Pass, Shared, close};
use eu_workers::{Ended, Gate, Go, Incoming, Left, Point, Visit, Work, Worker};
use std::alloc::Global;
use std::io::{self, Read};
use std::marker::Brand;
use std::sync::Wait;
use std::sync::atomic::{AtomicBool, AtomicU64, Ordering};
use std::test::Fail;
use std::thread;
use std::thread::Threads;
use std::time::{Clock, Duration};

/// A registration of i1, as far as the middle of its body, and the rest.
const HEAD: &str =
    "POST /eureka/apps/a HTTP/1.1\r\nHost: x\r\nContent-Length: 150\r\n\r\n{\"instance\":{\"instanceId\":\"i1\",\"hostName\":\"h\",";

const REST: &str =
    "\"app\":\"a\",\"ipAddr\":\"10.0.0.1\",\"status\":\"UP\",\"lastDirtyTimestamp\":\"5\",\"dataCenterInfo\":{\"name\":\"MyOwn\"}}}";

/// A listing of all, before anybody has registered.
const LISTING: &str = "GET /eureka/apps/ HTTP/1.1\r\nHost: x\r\n\r\n";

const LISTED: &str =
    "HTTP/1.1 200 OK\r\nContent-Type: application/json\r\nContent-Length: 77\r\n\r\n{\"applications\":{\"application\":[],\"apps__hashcode\":\"\",\"versions__delta\":\"1\"}}";

/// Holds session 1 at its second read until session 2 has replied, and session 2 at its first until session 1 is held; each for at
/// most ten seconds, then it says `Stop`.
#[derive(Drop)]
struct Crossing<'a, R: Clock> {
    rt: &'a R,
    reads: AtomicU64,
    held: AtomicBool,
    replied: AtomicBool,
}

impl<R: Clock> Crossing<'_, R> {
    fn wait_for(&self, flag: &AtomicBool) -> Go {
        for _turn in 0..1_000 {
            if flag.load(Ordering::SeqCst) {
                return Go::On;
            }
            thread::sleep(self.rt, Duration::from_millis(10));
        }
        Go::Stop
    }

    fn hold_one(&self) -> Go {
        if self.reads.fetch_add(1, Ordering::SeqCst) != 1 {
            return Go::On;
        }
        self.held.store(true, Ordering::SeqCst);
        self.wait_for(&self.replied)
    }
}

impl<R: Clock> Gate for Crossing<'_, R> {
    fn pass(&self, who: u32, point: Point) -> Go {
        match (who, point) {
            (1, Point::Read) => self.hold_one(),
            (2, Point::Read) => self.wait_for(&self.held),
            (2, Point::Replied) => {
                self.replied.store(true, Ordering::SeqCst);
                Go::On
            }
            _ => Go::On,
        }
    }
}

/// Bytes that come in two pieces.
#[derive(Drop)]
struct Pieces {
    first: &'static [u8],
    second: &'static [u8],
}

impl Read for Pieces {
    fn read(&mut self, buffer: &mut [u8]) -> io::Result<usize> {
        if self.first.is_empty() {
            self.second.read(buffer)
        } else {
            self.first.read(buffer)
        }
    }
}

/// One connection, whose answers are to be these; a count of those that were.
#[derive(Drop)]
struct Once<'a> {
    connection: Option<Visit<Sides<Pieces, Vec<u8>>, Talk>>,
    answer: &'static str,
    answered: &'a AtomicU64,
}

impl Incoming for Once<'_> {
    type Socket = Sides<Pieces, Vec<u8>>;

    fn next(&mut self) -> Option<Visit<Sides<Pieces, Vec<u8>>, Talk>> {
        self.connection.take()
    }

    fn take_back(&mut self, visit: Visit<Sides<Pieces, Vec<u8>>, Talk>, _left: Left) {
        if visit.guest.socket.writer.as_slice() == self.answer.as_bytes() {
            self.answered.fetch_add(1, Ordering::SeqCst);
        }
    }
}

fn serving<'a>(
    alloc: Global,
    first: &'static str,
    second: &'static str,
    answer: &'static str,
    answered: &'a AtomicU64,
) -> Work<Once<'a>, FirstChooser, Nobody> {
    let pieces = Pieces {
        first: first.as_bytes(),
        second: second.as_bytes(),
    };
    let sides = Sides {
        reader: pieces,
        writer: Vec::new(alloc),
    };
    Work::Sessions {
        source: Once {
            connection: visit(alloc, sides, 8, true).ok(),
            answer,
            answered,
        },
    }
}

/// No peer.
#[derive(Drop)]
struct Nobody;

impl Peer for Nobody {
    ghost use Rattle.std.specs.Prelude.{◌≡◌, None};

    ghost submits = { λ before batch answers after. answers ≡ None };

    fn submit(&mut self, _alloc: Global, _batch: &[Task]) -> Result<Vec<ItemAnswer>, Lost> {
        Err(Lost)
    }
}

type Hand<'a, K> = Worker<K, Once<'a>, ListClock, FirstChooser, Nobody>;

/// Adds two session workers.
fn push_sessions<'a, K: Label, R: Wait>(
    rt: &R,
    alloc: Global,
    shared: &Shared<K>,
    hands: &mut Vec<Hand<'a, K>>,
    answered: &'a AtomicU64,
) -> Result<(), Fault> {
    let first = serving(alloc, HEAD, REST, REGISTERED, answered);
    push(rt, alloc, shared, hands, 9, first)?;
    let second = serving(alloc, LISTING, "", LISTED, answered);
    push(rt, alloc, shared, hands, 9, second)
}

/// Adds two session workers, and each timer's for one turn.
fn push_all<'a, K: Label, R: Wait>(
    rt: &R,
    alloc: Global,
    shared: &Shared<K>,
    hands: &mut Vec<Hand<'a, K>>,
    answered: &'a AtomicU64,
) -> Result<(), Fault> {
    push_sessions(rt, alloc, shared, hands, answered)?;
    push_timers(rt, alloc, shared, hands)
}

/// Two session workers, and each timer's for one turn.
fn hands<'a, K: Label, R: Wait>(
    rt: &R,
    alloc: Global,
    shared: &Shared<K>,
    answered: &'a AtomicU64,
) -> Result<Vec<Hand<'a, K>>, Fault> {
    let mut hands = Vec::new(alloc);
    match push_all(rt, alloc, shared, &mut hands, answered) {
        Ok(()) => Ok(hands),
        Err(fault) => {
            drop(hands);
            Err(fault)
        }
    }
}

/// Keeps the pass of a worker that is done, and counts what it did.
fn keep<K: Label>(
    passes: &mut Vec<Pass<K>>,
    all: &mut Ended,
    hand: Hand<'_, K>,
) -> Result<(), Fault> {
    match hand {
        Worker::Done(pass, ended, work) => {
            drop(work);
            all.turns = all.turns.saturating_add(ended.turns);
            all.refused = all.refused.saturating_add(ended.refused);
            passes.push(pass)?;
        }
        other => drop(other),
    }
    Ok(())
}

/// The same of all workers.
fn keep_all<K: Label>(
    passes: &mut Vec<Pass<K>>,
    all: &mut Ended,
    hands: Vec<Hand<'_, K>>,
) -> Result<(), Fault> {
    for hand in hands {
        keep(passes, all, hand)?;
    }
    Ok(())
}

/// The passes of those that are done, and what they did in all.
fn gather<K: Label>(
    alloc: Global,
    hands: Vec<Hand<'_, K>>,
) -> Result<(Vec<Pass<K>>, Ended), Fault> {
    let mut passes = Vec::new(alloc);
    let mut all = Ended::default();
    match keep_all(&mut passes, &mut all, hands) {
        Ok(()) => Ok((passes, all)),
        Err(fault) => {
            drop(passes);
            Err(fault)
        }
    }
}

/// Whether a closed book is settled.
fn settles(closed: Closed) -> bool {
    let settles = settle(&closed).is_ok();
    drop(closed);
    settles
}

/// Whether the book is settled once it is closed.
fn is_settled<K: Label>(shared: Shared<K>, alloc: Global, passes: Vec<Pass<K>>) -> bool {
    match close(shared, alloc, passes) {
        Ok(closed) => settles(closed),
        Err(unclosed) => {
            drop(unclosed);
            false
        }
    }
}

/// A gate that nobody has passed.
fn new_gate<R: Clock>(rt: &R) -> Crossing<'_, R> {
    Crossing {
        rt,
        reads: AtomicU64::new(0),
        held: AtomicBool::new(false),
        replied: AtomicBool::new(false),
    }
}

/// Has them work at a book that is shared.
fn work<K: Label + Send + Sync, R: Threads + Wait + Clock + Sync>(
    rt: &R,
    alloc: Global,
    shared: &Shared<K>,
    workers: &mut [Hand<'_, K>],
) -> Result<(), Fault> {
    let gate = new_gate(rt);
    let worked = work_through(rt, alloc, shared, &gate, workers);
    drop(gate);
    worked
}

/// The passes of all workers of a book that is shared, and what they did.
fn cross<K: Label + Send + Sync, R: Threads + Wait + Clock + Sync>(
    rt: &R,
    alloc: Global,
    shared: &Shared<K>,
    answered: &AtomicU64,
) -> Result<(Vec<Pass<K>>, Ended), Fault> {
    let mut workers = hands(rt, alloc, shared, answered)?;
    match work(rt, alloc, shared, workers.as_mut_slice()) {
        Ok(()) => gather(alloc, workers),
        Err(fault) => {
            drop(workers);
            Err(fault)
        }
    }
}

/// What all did, how many answers were right, and whether the book was settled, once they work at it.
fn run_on<K: Label + Send + Sync, R: Threads + Wait + Clock + Sync>(
    rt: &R,
    alloc: Global,
    shared: Shared<K>,
) -> Result<(Ended, u64, bool), Fault> {
    let answered = AtomicU64::new(0);
    match cross(rt, alloc, &shared, &answered) {
        Ok((passes, all)) => {
            let right = answered.load(Ordering::SeqCst);
            Ok((all, right, is_settled(shared, alloc, passes)))
        }
        Err(fault) => {
            drop(shared);
            Err(fault)
        }
    }
}

/// The same at a book at which nothing is held.
fn run<K: Label + Send + Sync, R: Threads + Wait + Clock + Sync>(
    rt: &R,
    alloc: Global,
    blanks: Blanks,
) -> Result<(Ended, u64, bool), Fault>
    requires names { HasNames blanks K.steps K.counted K.added K.removed }
    requires parts { HasParts blanks K.parts × (K.parts ≡ PARTS) }
{
    let shared: Shared<K> = Shared::open(alloc, settings()?, 0, 0, HashKey::new(0, 0), blanks)?;
    run_on(rt, alloc, shared)
}

fn ran<R: Threads + Wait + Clock + Sync>(
    rt: &R,
    alloc: Global,
) -> Result<(Ended, u64, bool), Fault> {
    run::<Brand, R>(rt, alloc, Blanks::new())
}

#[test]
fn two_sessions_cross(rt: HostRuntime) -> Result<(), Fail> {
    let (all, right, is_settled) = ran(&rt, rt.alloc())?;
    let five = Ended {
        turns: 5,
        refused: 0,
    };
    assert!(rt; all == five && right == 2 && is_settled);
    Ok(())
}
