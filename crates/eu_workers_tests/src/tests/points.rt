//! The points of the gate that workers pass, with their numbers, and what it does to say `Stop` there.
ghost use Rattle.std.specs.Prelude.{◌≡◌};
ghost use Rattle.eu_shared.specs.Shares.{HasNames, HasParts};

use crate::tests::hands::{push, push_timers, work_through};
use crate::tests::servers::registers;
use crate::tests::visits::{Sides, visit};
use eu_base::{Fault, Task};
use eu_clock::{FirstChooser, ListClock};
use eu_fixtures::settings;
use eu_hash::HashKey;
use eu_model::Command;
use eu_peer::{ItemAnswer, Lost, Peer};
use eu_session::Talk;
use eu_shared::{Blanks, Label, PARTS, Pass, Shared};
use eu_workers::{Ended, Gate, Go, Happened, Incoming, Left, Phase, Point, Visit, Work, Worker};
use std::alloc::Global;
use std::io::{self, ErrorKind, Write};
use std::marker::Brand;
use std::sync::Wait;
use std::sync::atomic::{AtomicU64, Ordering};
use std::test::Fail;
use std::thread::Threads;

const LISTING: &[u8] = b"GET /eureka/apps/ HTTP/1.1\r\nHost: x\r\n\r\n";

/// The same, behind which the session ends.
const LAST: &[u8] = b"GET /eureka/apps/ HTTP/1.1\r\nHost: x\r\nConnection: close\r\n\r\n";

/// A gate that says `Stop` at one point, and counts who passes each, and the writes that came before it was passed for them; and whose session is told as over, and
/// the writes that came before that.
#[derive(Drop)]
struct Counting<'a> {
    stops: Option<Point>,
    turns: AtomicU64,
    reads: AtomicU64,
    replies: AtomicU64,
    writes: &'a AtomicU64,
    early: AtomicU64,
    over: AtomicU64,
    before_end: AtomicU64,
}

/// A digit for each worker that is expected, so that a sum of them tells who passed and how often.
fn digit(who: u32) -> u64 {
    match who {
        1 => 1,
        21 => 10,
        22 => 100,
        23 => 1_000,
        24 => 10_000,
        31 => 100_000,
        _ => 1_000_000,
    }
}

impl Counting<'_> {
    fn count(&self, point: Point) -> &AtomicU64 {
        match point {
            Point::Turn => &self.turns,
            Point::Read => &self.reads,
            Point::Replied => &self.replies,
        }
    }
}

impl Gate for Counting<'_> {
    fn pass(&self, who: u32, point: Point) -> Go {
        self.count(point).fetch_add(digit(who), Ordering::SeqCst);
        if point == Point::Replied {
            let writes = self.writes.load(Ordering::SeqCst);
            self.early.fetch_add(writes, Ordering::SeqCst);
        }
        if self.stops == Some(point) {
            Go::Stop
        } else {
            Go::On
        }
    }

    fn ended(&self, who: u32) {
        self.over.fetch_add(digit(who), Ordering::SeqCst);
        let writes = self.writes.load(Ordering::SeqCst);
        self.before_end.fetch_add(writes, Ordering::SeqCst);
    }
}

/// A writer that keeps what it is given, or that is broken.
#[derive(Drop)]
struct Keeping<'a> {
    kept: Vec<u8>,
    is_broken: bool,
    writes: &'a AtomicU64,
}

impl Write for Keeping<'_> {
    fn write(&mut self, bytes: &[u8]) -> io::Result<usize> {
        if self.is_broken {
            return Err(io::Error::from(ErrorKind::BrokenPipe));
        }
        self.writes.fetch_add(1, Ordering::SeqCst);
        self.kept.extend_from_slice(bytes)?;
        Ok(bytes.len())
    }

    fn flush(&mut self) -> io::Result<()> {
        Ok(())
    }
}

/// One connection, on which a listing is asked for; counts of those that were taken, of those that ended, of those that were answered, and of those that wait
/// for a request behind that.
#[derive(Drop)]
struct Once<'a> {
    connection: Option<Visit<Sides<&'static [u8], Keeping<'a>>, Talk>>,
    taken: &'a AtomicU64,
    ended: &'a AtomicU64,
    answered: &'a AtomicU64,
    waiting: &'a AtomicU64,
}

impl<'a> Incoming for Once<'a> {
    type Socket = Sides<&'static [u8], Keeping<'a>>;

    fn next(&mut self) -> Option<Visit<Sides<&'static [u8], Keeping<'a>>, Talk>> {
        self.taken.fetch_add(1, Ordering::SeqCst);
        self.connection.take()
    }

    fn take_back(&mut self, visit: Visit<Sides<&'static [u8], Keeping<'a>>, Talk>, left: Left) {
        self.ended.fetch_add(1, Ordering::SeqCst);
        if left == Left::Waits(Phase::Idle, Happened::Answered) {
            self.waiting.fetch_add(1, Ordering::SeqCst);
        }
        if visit
            .guest
            .socket
            .writer
            .kept
            .starts_with(b"HTTP/1.1 200 OK")
        {
            self.answered.fetch_add(1, Ordering::SeqCst);
        }
    }
}

/// A peer that loses all that it is sent, and counts it.
#[derive(Drop)]
struct Losing<'a> {
    sent: &'a AtomicU64,
}

impl Peer for Losing<'_> {
    ghost use Rattle.std.specs.Prelude.{◌≡◌, None};

    ghost submits = { λ before batch answers after. answers ≡ None };

    fn submit(&mut self, _alloc: Global, batch: &[Task]) -> Result<Vec<ItemAnswer>, Lost> {
        self.sent.fetch_add(batch.len() as u64, Ordering::SeqCst);
        Err(Lost)
    }
}

/// What was counted beside the gate.
#[derive(Drop)]
struct Counts {
    taken: AtomicU64,
    ended: AtomicU64,
    answered: AtomicU64,
    waiting: AtomicU64,
    writes: AtomicU64,
    sent: AtomicU64,
}

/// What stops or fails: all workers at one point of the gate, or what the session writes to; what its client sends; and whether the connection is read on,
/// once all that came is answered.
#[derive(Clone, Copy)]
struct Trouble {
    stops: Option<Point>,
    is_broken: bool,
    request: &'static [u8],
    reads_on: bool,
}

/// Nothing does.
const NONE: Trouble = Trouble {
    stops: None,
    is_broken: false,
    request: LISTING,
    reads_on: true,
};

/// The gate does, at that point.
fn stops(point: Point) -> Trouble {
    Trouble {
        stops: Some(point),
        ..NONE
    }
}

type Hand<'a, K> = Worker<K, Once<'a>, ListClock, FirstChooser, Losing<'a>>;

/// What all workers did.
#[derive(Clone, Copy, PartialEq, Eq)]
struct Told {
    turns: u64,
    reads: u64,
    replies: u64,
    taken: u64,
    ended: u64,
    answered: u64,
    waiting: u64,
    early: u64,
    /// Whose session was told as over, and the writes that had come by then.
    over: (u64, u64),
    sent: u64,
    /// The peers whose tasks were drained, in the order of the workers: a digit for each, which is its number and one.
    drained: u64,
    all: Ended,
}

/// Adds the replicators of peers 7 and 0.
fn push_replicators<'a, K: Label, R: Wait>(
    rt: &R,
    alloc: Global,
    shared: &Shared<K>,
    hands: &mut Vec<Hand<'a, K>>,
    sent: &'a AtomicU64,
) -> Result<(), Fault> {
    for number in [7, 0] {
        let peer = Losing { sent };
        let work = Work::Replicator { number, peer };
        push(rt, alloc, shared, hands, 1, work)?;
    }
    Ok(())
}

/// One connection, whose writer may be broken.
fn connection(alloc: Global, counts: &Counts, trouble: Trouble) -> Once<'_> {
    let writer = Keeping {
        kept: Vec::new(alloc),
        is_broken: trouble.is_broken,
        writes: &counts.writes,
    };
    let sides = Sides {
        reader: trouble.request,
        writer,
    };
    Once {
        connection: visit(alloc, sides, 8, trouble.reads_on).ok(),
        taken: &counts.taken,
        ended: &counts.ended,
        answered: &counts.answered,
        waiting: &counts.waiting,
    }
}

/// Adds each timer's worker, behind them a session worker, which is numbered 1 all the same, and the replicators of peers 7 and 0.
fn push_all<'a, K: Label, R: Wait>(
    rt: &R,
    alloc: Global,
    shared: &Shared<K>,
    hands: &mut Vec<Hand<'a, K>>,
    counts: &'a Counts,
    trouble: Trouble,
) -> Result<(), Fault> {
    push_timers(rt, alloc, shared, hands)?;
    let source = connection(alloc, counts, trouble);
    push(rt, alloc, shared, hands, 1, Work::Sessions { source })?;
    push_replicators(rt, alloc, shared, hands, &counts.sent)
}

/// The number and one of the peer whose tasks a pass drained first.
fn drained<K: Label>(pass: &Pass<K>) -> Option<u64> {
    match pass.log() {
        [first, ..] => match first.command {
            Command::Drain { peer } => Some(u64::from(peer) + 1),
            _ => None,
        },
        [] => None,
    }
}

/// With a digit more, if there is one.
fn with_digit(digits: u64, digit: Option<u64>) -> u64 {
    match digit {
        Some(digit) => digits.saturating_mul(10).saturating_add(digit),
        None => digits,
    }
}

/// Adds what a worker did.
fn tell<K: Label>(told: &mut Told, hand: Hand<'_, K>) {
    match hand {
        Worker::Done(pass, ended, work) => {
            drop(work);
            told.all.turns = told.all.turns.saturating_add(ended.turns);
            told.all.refused = told.all.refused.saturating_add(ended.refused);
            told.drained = with_digit(told.drained, drained(&pass));
            drop(pass);
        }
        other => drop(other),
    }
}

/// Adds all to a list without workers, and has each work in one turn.
fn run_hands<'a, K: Label + Send + Sync, R: Threads + Wait + Sync>(
    rt: &R,
    alloc: Global,
    shared: &Shared<K>,
    hands: &mut Vec<Hand<'a, K>>,
    gate: &Counting<'_>,
    counts: &'a Counts,
    trouble: Trouble,
) -> Result<(), Fault> {
    push_all(rt, alloc, shared, hands, counts, trouble)?;
    work_through(rt, alloc, shared, gate, hands.as_mut_slice())
}

/// What was counted, before what any worker did.
fn counted(gate: &Counting<'_>, counts: &Counts) -> Told {
    Told {
        turns: gate.turns.load(Ordering::SeqCst),
        reads: gate.reads.load(Ordering::SeqCst),
        replies: gate.replies.load(Ordering::SeqCst),
        taken: counts.taken.load(Ordering::SeqCst),
        ended: counts.ended.load(Ordering::SeqCst),
        early: gate.early.load(Ordering::SeqCst),
        over: (
            gate.over.load(Ordering::SeqCst),
            gate.before_end.load(Ordering::SeqCst),
        ),
        answered: counts.answered.load(Ordering::SeqCst),
        waiting: counts.waiting.load(Ordering::SeqCst),
        sent: counts.sent.load(Ordering::SeqCst),
        drained: 0,
        all: Ended::default(),
    }
}

/// What the workers of a book that is shared did, each in one turn.
fn work<K: Label + Send + Sync, R: Threads + Wait + Sync>(
    rt: &R,
    alloc: Global,
    shared: &Shared<K>,
    gate: &Counting<'_>,
    counts: &Counts,
    trouble: Trouble,
) -> Result<Told, Fault> {
    let mut workers = Vec::new(alloc);
    let ran = run_hands(rt, alloc, shared, &mut workers, gate, counts, trouble);
    let mut told = counted(gate, counts);
    for worker in workers {
        tell(&mut told, worker);
    }
    ran?;
    Ok(told)
}

/// Has a client register, by a new pass.
fn register_client<K: Label, R: Wait>(
    rt: &R,
    alloc: Global,
    shared: &Shared<K>,
) -> Result<(), Fault> {
    let mut pass = shared.pass(rt, alloc)?;
    let is_registered = registers(rt, shared, alloc, &mut pass, "i1");
    drop(pass);
    if is_registered {
        Ok(())
    } else {
        Err(Fault::OutOfMemory)
    }
}

/// The same, once a client has registered, of which eight peers are to be told.
fn work_after<K: Label + Send + Sync, R: Threads + Wait + Sync>(
    rt: &R,
    alloc: Global,
    shared: &Shared<K>,
    trouble: Trouble,
) -> Result<Told, Fault> {
    register_client(rt, alloc, shared)?;
    let counts = Counts {
        taken: AtomicU64::new(0),
        ended: AtomicU64::new(0),
        answered: AtomicU64::new(0),
        waiting: AtomicU64::new(0),
        writes: AtomicU64::new(0),
        sent: AtomicU64::new(0),
    };
    let gate = Counting {
        stops: trouble.stops,
        turns: AtomicU64::new(0),
        reads: AtomicU64::new(0),
        replies: AtomicU64::new(0),
        writes: &counts.writes,
        early: AtomicU64::new(0),
        over: AtomicU64::new(0),
        before_end: AtomicU64::new(0),
    };
    work(rt, alloc, shared, &gate, &counts, trouble)
}

/// The same of a server with as many peers as there may be.
fn run<K: Label + Send + Sync, R: Threads + Wait + Sync>(
    rt: &R,
    alloc: Global,
    blanks: Blanks,
    trouble: Trouble,
) -> Result<Told, Fault>
    requires names { HasNames blanks K.steps K.counted K.added K.removed }
    requires parts { HasParts blanks K.parts × (K.parts ≡ PARTS) }
{
    let shared: Shared<K> = Shared::open(alloc, settings()?, 0, 8, HashKey::new(0, 0), blanks)?;
    let told = work_after(rt, alloc, &shared, trouble);
    drop(shared);
    told
}

fn ran<R: Threads + Wait + Sync>(rt: &R, alloc: Global, trouble: Trouble) -> Result<Told, Fault> {
    run::<Brand, R>(rt, alloc, Blanks::new(), trouble)
}

/// What they do where nothing stops them: each passes the gate before its turn, the session before each of its two reads, of which the
/// second finds the end, and once before its response is sent, before which no write came. Behind it the session is told as over.
const ALL: Told = Told {
    turns: 111_111,
    reads: 2,
    replies: 1,
    taken: 1,
    ended: 1,
    answered: 1,
    waiting: 0,
    early: 0,
    over: (1, 1),
    sent: 2,
    drained: 81,
    all: Ended {
        turns: 6,
        refused: 0,
    },
};

#[test]
fn each_passes_the_gate_by_its_number(rt: HostRuntime) -> Result<(), Fail> {
    let told = ran(&rt, rt.alloc(), NONE)?;
    assert!(rt; told == ALL);
    Ok(())
}

#[test]
fn who_is_stopped_before_a_turn_has_none(rt: HostRuntime) -> Result<(), Fail> {
    let told = ran(&rt, rt.alloc(), stops(Point::Turn))?;
    let nothing = Told {
        turns: 111_111,
        reads: 0,
        replies: 0,
        taken: 0,
        ended: 0,
        answered: 0,
        waiting: 0,
        early: 0,
        over: (0, 0),
        sent: 0,
        drained: 0,
        all: Ended {
            turns: 0,
            refused: 0,
        },
    };
    assert!(rt; told == nothing);
    Ok(())
}

#[test]
fn a_read_that_is_stopped_ends_the_session(rt: HostRuntime) -> Result<(), Fail> {
    let told = ran(&rt, rt.alloc(), stops(Point::Read))?;
    let failed = Told {
        reads: 1,
        replies: 0,
        answered: 0,
        over: (0, 0),
        all: Ended {
            turns: 6,
            refused: 1,
        },
        ..ALL
    };
    assert!(rt; told == failed);
    Ok(())
}

#[test]
fn a_flush_is_not_stopped(rt: HostRuntime) -> Result<(), Fail> {
    let told = ran(&rt, rt.alloc(), stops(Point::Replied))?;
    assert!(rt; told == ALL);
    Ok(())
}

/// A session whose response can't be written has ended by a fault.
#[test]
fn a_write_that_fails_is_refused(rt: HostRuntime) -> Result<(), Fail> {
    let broken = Trouble {
        is_broken: true,
        ..NONE
    };
    let told = ran(&rt, rt.alloc(), broken)?;
    let failed = Told {
        reads: 1,
        answered: 0,
        over: (0, 0),
        all: Ended {
            turns: 6,
            refused: 1,
        },
        ..ALL
    };
    assert!(rt; told == failed);
    Ok(())
}

/// So that its client, which may come back at once, is dealt to the loop that it left.
#[test]
fn a_session_is_told_as_over_before_its_last_response_is_sent(rt: HostRuntime) -> Result<(), Fail> {
    let last = Trouble {
        request: LAST,
        ..NONE
    };
    let told = ran(&rt, rt.alloc(), last)?;
    let over = Told {
        reads: 1,
        over: (1, 0),
        ..ALL
    };
    assert!(rt; told == over);
    Ok(())
}

/// One read has it all: the session isn't over, and waits for its next request.
#[test]
fn a_connection_is_not_read_on_once_all_that_came_is_answered(rt: HostRuntime) -> Result<(), Fail> {
    let resting = Trouble {
        reads_on: false,
        ..NONE
    };
    let told = ran(&rt, rt.alloc(), resting)?;
    let rests = Told {
        reads: 1,
        waiting: 1,
        over: (0, 0),
        ..ALL
    };
    assert!(rt; told == rests);
    Ok(())
}

/// A gate that lets nobody through, and keeps who came, a bit for each number.
#[derive(Drop)]
struct Register {
    came: AtomicU64,
}

impl Gate for Register {
    fn pass(&self, who: u32, _point: Point) -> Go {
        let bit = 1u64.checked_shl(who).unwrap_or(0);
        self.came.fetch_add(bit, Ordering::SeqCst);
        Go::Stop
    }
}

/// Adds as many session workers as a server may have loops of clients, to which no connection comes.
fn push_sixteen<'a, K: Label, R: Wait>(
    rt: &R,
    alloc: Global,
    shared: &Shared<K>,
    hands: &mut Vec<Hand<'a, K>>,
    answered: &'a AtomicU64,
) -> Result<(), Fault> {
    for _worker in 0..16 {
        let source = Once {
            connection: None,
            taken: answered,
            ended: answered,
            answered,
            waiting: answered,
        };
        push(rt, alloc, shared, hands, 1, Work::Sessions { source })?;
    }
    Ok(())
}

/// Adds the sixteen to a list without workers, and has them come to the gate.
fn come_all<'a, K: Label + Send + Sync, R: Threads + Wait + Sync>(
    rt: &R,
    alloc: Global,
    shared: &Shared<K>,
    gate: &Register,
    workers: &mut Vec<Hand<'a, K>>,
    answered: &'a AtomicU64,
) -> Result<(), Fault> {
    push_sixteen(rt, alloc, shared, workers, answered)?;
    work_through(rt, alloc, shared, gate, workers.as_mut_slice())
}

/// By which numbers they come to the gate, a bit for each.
fn come<K: Label + Send + Sync, R: Threads + Wait + Sync>(
    rt: &R,
    alloc: Global,
    shared: &Shared<K>,
) -> Result<u64, Fault> {
    let gate = Register {
        came: AtomicU64::new(0),
    };
    let answered = AtomicU64::new(0);
    let mut workers = Vec::new(alloc);
    let came = come_all(rt, alloc, shared, &gate, &mut workers, &answered);
    drop(workers);
    came?;
    Ok(gate.came.load(Ordering::SeqCst))
}

/// The same of a server that was just opened.
fn come_to<K: Label + Send + Sync, R: Threads + Wait + Sync>(
    rt: &R,
    alloc: Global,
    blanks: Blanks,
) -> Result<u64, Fault>
    requires names { HasNames blanks K.steps K.counted K.added K.removed }
    requires parts { HasParts blanks K.parts × (K.parts ≡ PARTS) }
{
    let shared: Shared<K> = Shared::open(alloc, settings()?, 0, 0, HashKey::new(0, 0), blanks)?;
    let came = come(rt, alloc, &shared);
    drop(shared);
    came
}

fn came<R: Threads + Wait + Sync>(rt: &R, alloc: Global) -> Result<u64, Fault> {
    come_to::<Brand, R>(rt, alloc, Blanks::new())
}

#[test]
fn session_workers_are_numbered_from_1_to_16(rt: HostRuntime) -> Result<(), Fail> {
    assert!(rt; came(&rt, rt.alloc())? == 0b1_1111_1111_1111_1110);
    Ok(())
}
