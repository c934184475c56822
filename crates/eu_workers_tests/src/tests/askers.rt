//! Timers whose first ask is refused, and which wait at the gate.
ghost use Rattle.std.specs.Prelude.{◌≡◌};
ghost use Rattle.eu_shared.specs.Shares.{HasNames, HasParts};

use eu_base::{Config, Fault, Moment};
use eu_book::Receipt;
use eu_clock::{Chooser, Clock, FirstChooser, ListClock};
use eu_gate::{Gate, Go, Point, Timer};
use eu_hash::HashKey;
use eu_model::{Command, Gauges};
use eu_shared::{Blanks, Label, PARTS, Seat, Shared};
use eu_workers::{Asker, Ended, take_turns};
use std::alloc::{AllocError, Global};
use std::marker::Brand;
use std::sync::Wait;
use std::sync::atomic::{AtomicU64, Ordering};
use std::test::Fail;

/// A gate that is open.
#[derive(Drop)]
struct Open;

impl Gate for Open {
    fn pass(&self, _who: u32, _point: Point) -> Go {
        Go::On
    }
}

/// A pass that is refused at its first ask, and counts its asks.
#[derive(Drop)]
struct RefusedOnce<'a, K: Label, R: Wait> {
    seat: Seat<'a, K, R>,
    count: u64,
}

impl<K: Label, R: Wait> Asker for RefusedOnce<'_, K, R> {
    ghost pass = { λ r. r.seat.pass };

    fn gauges(&self, alloc: Global, moment: Moment) -> Result<Gauges, AllocError> {
        self.seat.gauges(alloc, moment)
    }

    fn ask_once<C: Chooser>(
        &mut self,
        alloc: Global,
        command: Command,
        moment: Moment,
        chooser: &mut C,
    ) -> Result<Receipt, Fault> {
        self.count = self.count.saturating_add(1);
        if self.count == 1 {
            drop(command);
            return Err(Fault::OutOfMemory);
        }
        self.seat.ask_once(alloc, command, moment, chooser)
    }

    fn end_turn(&mut self, alloc: Global, timer: Timer, turns: u64) -> Result<(), AllocError> {
        self.seat.end_turn(alloc, timer, turns)
    }
}

/// What turns did, how often it was asked in them, and how many answers are logged.
type Done = (Ended, u64, usize);

/// What so many turns of a timer's worker do, at a book that is shared.
fn turns_at<K: Label, R: Wait>(
    rt: &R,
    alloc: Global,
    shared: &Shared<K>,
    timer: Timer,
    limit: u64,
) -> Result<Done, Fault> {
    let pass = shared.pass(rt, alloc)?;
    let seat = Seat { pass, shared, rt };
    let mut asker = RefusedOnce { seat, count: 0 };
    let mut clock = ListClock::new(Vec::new(alloc));
    let mut chooser = FirstChooser;
    let ended = take_turns(
        &Open,
        alloc,
        timer,
        &mut asker,
        &mut clock,
        &mut chooser,
        limit,
    );
    drop(clock);
    let done = (ended, asker.count, asker.seat.pass.log().len());
    drop(asker);
    Ok(done)
}

/// The same at a book at which nothing is held.
fn turns_of<K: Label, R: Wait>(
    rt: &R,
    alloc: Global,
    blanks: Blanks,
    timer: Timer,
    limit: u64,
) -> Result<Done, Fault>
    requires names { HasNames blanks K.steps K.counted K.added K.removed }
    requires parts { HasParts blanks K.parts × (K.parts ≡ PARTS) }
{
    let shared: Shared<K> = Shared::open(
        alloc,
        Config::new(true, 85, 30, 60_000)?,
        0,
        0,
        HashKey::new(0, 0),
        blanks,
    )?;
    let done = turns_at(rt, alloc, &shared, timer, limit);
    drop(shared);
    done
}

fn turns<R: Wait>(rt: &R, alloc: Global, timer: Timer, limit: u64) -> Result<Done, Fault> {
    turns_of::<Brand, R>(rt, alloc, Blanks::new(), timer, limit)
}

/// The turns that follow are asked and answered.
#[test]
fn a_timer_goes_on_after_a_refused_turn(rt: HostRuntime) -> Result<(), Fail> {
    let ended = Ended {
        turns: 3,
        refused: 1,
    };
    for timer in [Timer::Evictor, Timer::Bucket, Timer::Threshold] {
        assert!(rt; turns(&rt, rt.alloc(), timer, 3)? == (ended, 3, 2));
    }
    Ok(())
}

/// A turn that was refused is one of the sixty after which the journal begins anew.
#[test]
fn a_refused_turn_is_one_of_an_hour(rt: HostRuntime) -> Result<(), Fail> {
    for (limit, logged) in [(59, 58), (60, 0), (61, 1)] {
        let ended = Ended {
            turns: limit,
            refused: 1,
        };
        let done = turns(&rt, rt.alloc(), Timer::Bucket, limit)?;
        assert!(rt; done == (ended, limit, logged), "{limit} turns");
    }
    Ok(())
}

/// A gate at which a worker waits for a second, by a clock that shows how many went by.
#[derive(Drop)]
struct Second<'a> {
    ms: &'a AtomicU64,
}

impl Gate for Second<'_> {
    fn pass(&self, _who: u32, _point: Point) -> Go {
        self.ms.fetch_add(1_000, Ordering::SeqCst);
        Go::On
    }
}

/// That clock.
#[derive(Drop)]
struct Hand<'a> {
    ms: &'a AtomicU64,
}

impl Clock for Hand<'_> {
    ghost tells = { λ _ _ _. Unit {0} };

    fn now(&mut self) -> Moment {
        let ms = self.ms.load(Ordering::SeqCst);
        Moment::new(ms).unwrap_or(Moment::new(0).unwrap())
    }
}

/// The moments at which two turns of the evictor ask, where it waits for a second before each.
fn moments_at<K: Label, R: Wait>(
    rt: &R,
    alloc: Global,
    shared: &Shared<K>,
) -> Result<(Option<u64>, Option<u64>), Fault> {
    let ms = AtomicU64::new(0);
    let pass = shared.pass(rt, alloc)?;
    let mut seat = Seat { pass, shared, rt };
    let (gate, mut clock) = (Second { ms: &ms }, Hand { ms: &ms });
    let timer = Timer::Evictor;
    let _ended = take_turns(
        &gate,
        alloc,
        timer,
        &mut seat,
        &mut clock,
        &mut FirstChooser,
        2,
    );
    let moments = match seat.pass.log() {
        [first, second] => (Some(first.moment.ms()), Some(second.moment.ms())),
        _ => (None, None),
    };
    drop(seat);
    Ok(moments)
}

/// The same at a book at which nothing is held.
fn moments_of<K: Label, R: Wait>(
    rt: &R,
    alloc: Global,
    blanks: Blanks,
) -> Result<(Option<u64>, Option<u64>), Fault>
    requires names { HasNames blanks K.steps K.counted K.added K.removed }
    requires parts { HasParts blanks K.parts × (K.parts ≡ PARTS) }
{
    let shared: Shared<K> = Shared::open(
        alloc,
        Config::new(true, 85, 30, 60_000)?,
        0,
        0,
        HashKey::new(0, 0),
        blanks,
    )?;
    let moments = moments_at(rt, alloc, &shared);
    drop(shared);
    moments
}

fn moments<R: Wait>(rt: &R, alloc: Global) -> Result<(Option<u64>, Option<u64>), Fault> {
    moments_of::<Brand, R>(rt, alloc, Blanks::new())
}

/// Not at the moment at which it came to the gate.
#[test]
fn a_timer_asks_at_the_moment_after_its_wait(rt: HostRuntime) -> Result<(), Fail> {
    assert!(rt; moments(&rt, rt.alloc())? == (Some(1_000), Some(2_000)));
    Ok(())
}
