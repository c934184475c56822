//! Turns of the timers.
ghost use Rattle.std.specs.Prelude.{◌≡◌};
ghost use Rattle.eu_shared.specs.Shares.{HasNames, HasParts};

use crate::tests::trims::first_number;
use eu_base::{Fault, Moment};
use eu_clock::{FirstChooser, ListClock};
use eu_fixtures::settings;
use eu_hash::HashKey;
use eu_http::Policy;
use eu_model::Command;
use eu_routes::Routes;
use eu_shared::{Blanks, Label, PARTS, Pass, Shared, close};
use eu_workers::{Ended, Gate, Go, Point, Site, run_bucket, run_evictor, run_threshold};
use std::alloc::Global;
use std::marker::Brand;
use std::sync::Wait;
use std::test::Fail;

/// A gate that says the same each time.
#[derive(Drop)]
struct Always {
    go: Go,
}

impl Gate for Always {
    fn pass(&self, _who: u32, _point: Point) -> Go {
        self.go
    }
}

/// What came of a worker, and which command its pass was answered first, and at which moment.
#[derive(Clone, Copy, PartialEq, Eq)]
struct Seen {
    ended: Ended,
    logged: &'static str,
    ms: Option<u64>,
}

/// Which of the timers' commands a log begins with.
fn first_logged<K: Label>(pass: &Pass<K>) -> &'static str {
    match pass.log() {
        [] => "nothing",
        [first, ..] => match first.command {
            Command::Evict => "evict",
            Command::EndMinute => "roll",
            Command::Update => "update",
            _ => "another",
        },
    }
}

/// The moment of the first entry of a log.
fn first_moment<K: Label>(pass: &Pass<K>) -> Option<u64> {
    match pass.log() {
        [] => None,
        [first, ..] => Some(first.moment.ms()),
    }
}

fn told<K: Label>(worked: (Pass<K>, Ended)) -> Seen {
    let (pass, ended) = worked;
    let logged = first_logged(&pass);
    let ms = first_moment(&pass);
    drop(pass);
    Seen { ended, logged, ms }
}

/// What the evictor does with so many turns.
fn evicts<K: Label, R: Wait>(
    site: &Site<'_, K, R, Always>,
    clock: &mut ListClock,
    limit: u64,
) -> Result<Seen, Fault> {
    let pass = site.shared.pass(site.rt, site.alloc)?;
    Ok(told(run_evictor(site, pass, clock, &mut FirstChooser, limit)))
}

/// What the bucket's worker does with so many turns.
fn ends_minutes<K: Label, R: Wait>(
    site: &Site<'_, K, R, Always>,
    clock: &mut ListClock,
    limit: u64,
) -> Result<Seen, Fault> {
    let pass = site.shared.pass(site.rt, site.alloc)?;
    Ok(told(run_bucket(site, pass, clock, limit)))
}

/// What the threshold's worker does with so many turns.
fn updates<K: Label, R: Wait>(
    site: &Site<'_, K, R, Always>,
    clock: &mut ListClock,
    limit: u64,
) -> Result<Seen, Fault> {
    let pass = site.shared.pass(site.rt, site.alloc)?;
    Ok(told(run_threshold(site, pass, clock, limit)))
}

/// The most turns of the evictor, the bucket's worker and the threshold's.
#[derive(Clone, Copy)]
struct Limits(u64, u64, u64);

/// What came of each timer's worker.
#[derive(Clone, Copy, PartialEq, Eq)]
struct Timers {
    evictor: Seen,
    bucket: Seen,
    threshold: Seen,
}

/// What each timer's worker does with so many turns.
fn work_at<K: Label, R: Wait>(
    site: &Site<'_, K, R, Always>,
    clock: &mut ListClock,
    limits: Limits,
) -> Result<Timers, Fault> {
    let evictor = evicts(site, clock, limits.0)?;
    let bucket = ends_minutes(site, clock, limits.1)?;
    let threshold = updates(site, clock, limits.2)?;
    Ok(Timers {
        evictor,
        bucket,
        threshold,
    })
}

/// A clock that tells the moments 5, 6 and so on up to 14.
fn ticking(alloc: Global) -> Result<ListClock, Fault> {
    let mut moments = Vec::new(alloc);
    for ms in 5..15 {
        moments.push(Moment::new(ms).ok_or(Fault::BadStamp)?)?;
    }
    Ok(ListClock::new(moments))
}

/// The same for a book that is shared, at the moments of a clock.
fn work_by<K: Label, R: Wait>(
    rt: &R,
    alloc: Global,
    shared: &Shared<K>,
    clock: &mut ListClock,
    go: Go,
    limits: Limits,
) -> Result<Timers, Fault> {
    let routes = Routes::new(alloc)?;
    let policy = Policy::open();
    let site = Site {
        rt,
        alloc,
        shared,
        routes: &routes,
        policy: &policy,
        warm_policy: &policy,
        gate: &Always { go },
    };
    let timers = work_at(&site, clock, limits);
    drop(routes);
    timers
}

/// The same for a book that is shared.
fn work_on<K: Label, R: Wait>(
    rt: &R,
    alloc: Global,
    shared: &Shared<K>,
    go: Go,
    limits: Limits,
) -> Result<Timers, Fault> {
    let mut clock = ticking(alloc)?;
    let timers = work_by(rt, alloc, shared, &mut clock, go, limits);
    drop(clock);
    timers
}

/// The same for a book at which nothing is held.
fn work<K: Label, R: Wait>(
    rt: &R,
    alloc: Global,
    blanks: Blanks,
    go: Go,
    limits: Limits,
) -> Result<Timers, Fault>
    requires names { HasNames blanks K.steps K.counted K.added K.removed }
    requires parts { HasParts blanks K.parts × (K.parts ≡ PARTS) }
{
    let shared: Shared<K> = Shared::open(alloc, settings()?, 0, 0, HashKey::new(0, 0), blanks)?;
    let timers = work_on(rt, alloc, &shared, go, limits);
    drop(shared);
    timers
}

fn worked<R: Wait>(rt: &R, alloc: Global, go: Go, limits: Limits) -> Result<Timers, Fault> {
    work::<Brand, R>(rt, alloc, Blanks::new(), go, limits)
}

/// So many turns, none refused, and what they logged first.
fn saw(turns: u64, logged: &'static str, ms: Option<u64>) -> Seen {
    let ended = Ended { turns, refused: 0 };
    Seen { ended, logged, ms }
}

#[test]
fn one_turn(rt: HostRuntime) -> Result<(), Fail> {
    let seen = worked(&rt, rt.alloc(), Go::On, Limits(1, 1, 1))?;
    let wanted = Timers {
        evictor: saw(1, "evict", Some(5)),
        bucket: saw(1, "roll", Some(6)),
        threshold: saw(1, "update", Some(7)),
    };
    assert!(rt; seen == wanted);
    Ok(())
}

#[test]
fn a_gate_that_stops_leaves_no_turn(rt: HostRuntime) -> Result<(), Fail> {
    let seen = worked(&rt, rt.alloc(), Go::Stop, Limits(1, 1, 1))?;
    let nothing = saw(0, "nothing", None);
    let wanted = Timers {
        evictor: nothing,
        bucket: nothing,
        threshold: nothing,
    };
    assert!(rt; seen == wanted);
    Ok(())
}

#[test]
fn each_takes_all_its_turns(rt: HostRuntime) -> Result<(), Fail> {
    let seen = worked(&rt, rt.alloc(), Go::On, Limits(3, 2, 4))?;
    let wanted = Timers {
        evictor: saw(3, "evict", Some(5)),
        bucket: saw(2, "roll", Some(8)),
        threshold: saw(4, "update", Some(10)),
    };
    assert!(rt; seen == wanted);
    Ok(())
}

#[test]
fn each_goes_on_for_as_long_as_it_may(rt: HostRuntime) -> Result<(), Fail> {
    let seen = worked(&rt, rt.alloc(), Go::On, Limits(12_000, 59, 11_000))?;
    let wanted = Timers {
        evictor: saw(12_000, "evict", Some(5)),
        bucket: saw(59, "roll", Some(14)),
        threshold: saw(11_000, "update", Some(14)),
    };
    assert!(rt; seen == wanted);
    Ok(())
}

/// What is left of many turns of the bucket's worker: its turns, how long its log is and with which entry it begins, and where the
/// journal begins.
#[derive(Clone, Copy, PartialEq, Eq)]
struct Left {
    ended: Ended,
    logged: usize,
    begins: Option<u64>,
    first: u64,
}

/// The first entry of a journal that is closed with these passes.
fn closed_first<K: Label>(
    shared: Shared<K>,
    alloc: Global,
    passes: Vec<Pass<K>>,
) -> Result<u64, Fault> {
    match close(shared, alloc, passes) {
        Ok(closed) => {
            let first = closed.first;
            drop(closed);
            Ok(first)
        }
        Err(unclosed) => {
            let fault = unclosed.fault;
            drop(unclosed);
            Err(fault)
        }
    }
}

/// The first entry of a journal that is closed with one pass.
fn first_entry<K: Label>(shared: Shared<K>, alloc: Global, pass: Pass<K>) -> Result<u64, Fault> {
    match one(alloc, pass) {
        Ok(passes) => closed_first(shared, alloc, passes),
        Err(fault) => {
            drop(shared);
            Err(fault)
        }
    }
}

fn one<K: Label>(alloc: Global, pass: Pass<K>) -> Result<Vec<Pass<K>>, Fault> {
    let mut passes = Vec::new(alloc);
    passes.push(pass)?;
    Ok(passes)
}

/// So many turns of the bucket's worker, and its pass.
fn roll_at<K: Label, R: Wait>(
    site: &Site<'_, K, R, Always>,
    turns: u64,
) -> Result<(Pass<K>, Ended), Fault> {
    let pass = site.shared.pass(site.rt, site.alloc)?;
    let mut clock = ListClock::new(Vec::new(site.alloc));
    let after_minute = run_bucket(site, pass, &mut clock, turns);
    drop(clock);
    Ok(after_minute)
}

/// The same at a book.
fn roll_on<K: Label, R: Wait>(
    rt: &R,
    alloc: Global,
    shared: &Shared<K>,
    turns: u64,
) -> Result<(Pass<K>, Ended), Fault> {
    let routes = Routes::new(alloc)?;
    let policy = Policy::open();
    let site = Site {
        rt,
        alloc,
        shared,
        routes: &routes,
        policy: &policy,
        warm_policy: &policy,
        gate: &Always { go: Go::On },
    };
    let after_minute = roll_at(&site, turns);
    drop(routes);
    after_minute
}

/// What is left of a worker's turns, once its book is closed.
fn leave_by<K: Label>(
    alloc: Global,
    shared: Shared<K>,
    pass: Pass<K>,
    ended: Ended,
) -> Result<Left, Fault> {
    let logged = pass.log().len();
    let begins = first_number(&pass);
    let first = first_entry(shared, alloc, pass)?;
    Ok(Left {
        ended,
        logged,
        begins,
        first,
    })
}

/// What is left of so many turns at a book.
fn leave_of<K: Label, R: Wait>(
    rt: &R,
    alloc: Global,
    turns: u64,
    shared: Shared<K>,
) -> Result<Left, Fault> {
    match roll_on(rt, alloc, &shared, turns) {
        Ok((pass, ended)) => leave_by(alloc, shared, pass, ended),
        Err(fault) => {
            drop(shared);
            Err(fault)
        }
    }
}

/// The same at a book at which nothing is held.
fn leave<K: Label, R: Wait>(
    rt: &R,
    alloc: Global,
    turns: u64,
    blanks: Blanks,
) -> Result<Left, Fault>
    requires names { HasNames blanks K.steps K.counted K.added K.removed }
    requires parts { HasParts blanks K.parts × (K.parts ≡ PARTS) }
{
    let shared: Shared<K> = Shared::open(alloc, settings()?, 0, 0, HashKey::new(0, 0), blanks)?;
    leave_of(rt, alloc, turns, shared)
}

fn left_by<R: Wait>(rt: &R, alloc: Global, turns: u64) -> Result<Left, Fault> {
    leave::<Brand, R>(rt, alloc, turns, Blanks::new())
}

#[test]
fn the_journal_begins_anew_after_each_hour(rt: HostRuntime) -> Result<(), Fail> {
    let cases = [
        (59, 59, Some(0), 0),
        (60, 0, None, 60),
        (119, 59, Some(60), 60),
        (121, 1, Some(120), 120),
        (301, 1, Some(300), 300),
    ];
    for (turns, logged, begins, first) in cases {
        let wanted = Left {
            ended: Ended { turns, refused: 0 },
            logged,
            begins,
            first,
        };
        assert!(rt; left_by(&rt, rt.alloc(), turns)? == wanted, "{turns} turns");
    }
    Ok(())
}
