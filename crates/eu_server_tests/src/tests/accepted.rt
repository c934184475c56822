//! Timers by their pace.

use eu_accept::Pace;
use eu_gate::{BUCKET, EVICTOR, Gate, Go, Periods, Point, THRESHOLD};
use std::io::ErrorKind;
use std::net::{Net, TcpListener, TcpStream};
use std::sync::Wait;
use std::sync::atomic::{AtomicU64, Ordering};
use std::test::Fail;
use std::thread::Threads;
use std::time::{Clock, Duration, Instant};
use std::{io, thread};

#[test]
fn timers_are_paced_until_the_sessions_end(rt: HostRuntime) -> Result<(), Fail> {
    let periods = Periods {
        evictor: 0,
        bucket: 20,
        threshold: 900_000,
    };
    let began = Instant::now(&rt)?;
    let pace = Pace::new(&rt, periods)?;
    assert!(rt;
        pace.pass(BUCKET, Point::Turn) == Go::On && pace.pass(BUCKET, Point::Turn) == Go::On
    );
    assert!(rt; began.elapsed(&rt)? >= Duration::from_millis(40));
    assert!(rt; pace.pass(EVICTOR, Point::Turn) == Go::On && pace.pass(1, Point::Turn) == Go::On);
    pace.end();
    assert!(rt;
        pace.pass(THRESHOLD, Point::Turn) == Go::Stop && pace.pass(1, Point::Turn) == Go::On
    );
    Ok(())
}

/// Ends the sessions of a server after a while, in which its timers have begun to wait.
fn end_soon<R: Wait + Clock>(rt: &R, pace: &Pace<'_, R>) {
    thread::sleep(rt, Duration::from_millis(200));
    pace.end();
}

/// What the bucket's and the threshold's worker are told, which wait at once.
fn pass_two<R: Threads + Wait + Clock + Sync>(rt: &R, pace: &Pace<'_, R>) -> (Go, Go) {
    thread::join(
        rt,
        || pace.pass(BUCKET, Point::Turn),
        || pace.pass(THRESHOLD, Point::Turn),
    )
}

/// The same, and what the evictor is told, which waits with them, where the sessions end meanwhile.
fn pass_three<R: Threads + Wait + Clock + Sync>(rt: &R, pace: &Pace<'_, R>) -> (Go, (Go, Go)) {
    let (_, told) = thread::join(
        rt,
        || end_soon(rt, pace),
        || {
            thread::join(
                rt,
                || pace.pass(EVICTOR, Point::Turn),
                || pass_two(rt, pace),
            )
        },
    );
    told
}

/// All of them are woken: who wasn't would wait for 30 seconds.
#[test]
fn timers_that_wait_are_woken_when_the_sessions_end(rt: HostRuntime) -> Result<(), Fail> {
    let periods = Periods {
        evictor: 30_000,
        bucket: 30_000,
        threshold: 30_000,
    };
    let began = Instant::now(&rt)?;
    let pace = Pace::new(&rt, periods)?;
    assert!(rt; pass_three(&rt, &pace) == (Go::Stop, (Go::Stop, Go::Stop)));
    assert!(rt; began.elapsed(&rt)? < Duration::from_secs(15));
    Ok(())
}

#[test]
fn a_turn_that_was_missed_is_not_caught_up(rt: HostRuntime) -> Result<(), Fail> {
    let periods = Periods {
        evictor: 900_000,
        bucket: 40,
        threshold: 900_000,
    };
    let pace = Pace::new(&rt, periods)?;
    thread::sleep(&rt, Duration::from_millis(130));
    let began = Instant::now(&rt)?;
    assert!(rt;
        pace.pass(BUCKET, Point::Turn) == Go::On && pace.pass(BUCKET, Point::Turn) == Go::On
    );
    assert!(rt; began.elapsed(&rt)? >= Duration::from_millis(40));
    Ok(())
}

/// A machine whose monotonic clock is set forward by so many milliseconds, and can be read so many times more.
#[derive(Drop)]
struct Machine<'a, R: Wait + Clock> {
    rt: &'a R,
    ahead: AtomicU64,
    reads: AtomicU64,
}

impl<'a, R: Wait + Clock> Machine<'a, R> {
    /// One whose clock is right, and can be read as often as a test may.
    fn new(rt: &'a R) -> Machine<'a, R> {
        Machine {
            rt,
            ahead: AtomicU64::new(0),
            reads: AtomicU64::new(u64::MAX),
        }
    }
}

impl<R: Wait + Clock> Wait for Machine<'_, R> {}

impl<R: Wait + Clock> Clock for Machine<'_, R> {
    fn monotonic(&self) -> io::Result<Duration> {
        if self.reads.load(Ordering::SeqCst) == 0 {
            return Err(io::Error::from(ErrorKind::Unsupported));
        }
        self.reads.fetch_sub(1, Ordering::SeqCst);
        let ahead = Duration::from_millis(self.ahead.load(Ordering::SeqCst));
        Ok(self.rt.monotonic()?.saturating_add(ahead))
    }

    fn since_1970(&self) -> io::Result<Duration> {
        self.rt.since_1970()
    }
}

/// A turn is due a period after the last one began, whatever time that took: where the period is over it isn't waited for (the test
/// would not end in time), and where a while of it is left, that is waited for.
#[test]
fn a_turn_is_due_a_period_after_the_last_one_began(rt: HostRuntime) -> Result<(), Fail> {
    let machine = Machine::new(&rt);
    let pace = Pace::new(&machine, Periods::of_server(900_000))?;
    let mut began = Instant::now(&rt)?;
    for late in [900_000, 5_000_000, 900_000] {
        machine.ahead.fetch_add(late, Ordering::SeqCst);
        began = Instant::now(&rt)?;
        assert!(rt; pace.pass(EVICTOR, Point::Turn) == Go::On);
    }
    machine.ahead.fetch_add(899_900, Ordering::SeqCst);
    assert!(rt; pace.pass(EVICTOR, Point::Turn) == Go::On);
    assert!(rt; began.elapsed(&rt)? >= Duration::from_millis(99));
    Ok(())
}

/// What the evictor is told once its period is over, where the clock can be read so many times more.
fn pass_with<R: Wait + Clock>(
    machine: &Machine<'_, R>,
    pace: &Pace<'_, Machine<'_, R>>,
    reads: u64,
) -> Go {
    machine.ahead.fetch_add(900_000, Ordering::SeqCst);
    machine.reads.store(reads, Ordering::SeqCst);
    pace.pass(EVICTOR, Point::Turn)
}

/// Whichever of its reads of the clock fails.
#[test]
fn a_timer_without_a_clock_takes_no_turn(rt: HostRuntime) -> Result<(), Fail> {
    let machine = Machine::new(&rt);
    let pace = Pace::new(&machine, Periods::of_server(0))?;
    assert!(rt; pass_with(&machine, &pace, 1_000) == Go::On);
    let reads = 1_000u64.saturating_sub(machine.reads.load(Ordering::SeqCst));
    assert!(rt; reads >= 2);
    for fewer in 0..reads {
        assert!(rt; pass_with(&machine, &pace, fewer) == Go::Stop);
    }
    assert!(rt; pass_with(&machine, &pace, reads) == Go::On);
    assert!(rt; pace.pass(1, Point::Turn) == Go::On);
    Ok(())
}
