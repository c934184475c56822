//! The gate of a server, which paces its timers.

use crate::bell::{Bell, EndNoted};
use eu_gate::{Gate, Go, Periods, Point, Schedules, Timer};
use std::io;
use std::sync::{Mutex, Wait};
use std::time::{Clock, Instant};

/// Lets each timer take its turns a period apart, by the monotonic clock, until the sessions have ended; lets everybody else go on
/// at once.
///
/// A timer's first turn is due one period after the server began, each next one a period after the last one began: what was
/// missed isn't caught up. Where the clock can't be read any more, a timer takes no further turn.
#[derive(Drop)]
pub struct Pace<'a, R: Wait + Clock> {
    rt: &'a R,
    schedules: Mutex<Schedules>,
    bell: Bell,
}

impl<'a, R: Wait + Clock> Pace<'a, R> {
    /// The gate of a server that begins now. An error is the clock's.
    pub fn new(rt: &'a R, periods: Periods) -> io::Result<Pace<'a, R>> {
        let schedules = Schedules::new(periods, Instant::now(rt)?);
        Ok(Pace {
            rt,
            schedules: Mutex::new(schedules),
            bell: Bell::new(),
        })
    }

    /// Tells the timers that the sessions have ended.
    pub fn end(&self) {
        let ended = EndNoted::note(&mut *self.schedules.lock(self.rt));
        self.bell.ring(ended);
    }

    /// Waits until the next turn of a timer is due, and begins it; `Stop` where the sessions have ended. An error is the clock's, and
    /// begins nothing.
    fn wait_for_turn(&self, timer: Timer) -> io::Result<Go> {
        let now = Instant::now(self.rt)?;
        let schedules = self.schedules.lock(self.rt);
        let left = schedules.left(timer, now);
        let mut schedules = self.bell.wait(self.rt, schedules, left);
        Ok(schedules.turn(timer, Instant::now(self.rt)?))
    }
}

impl<R: Wait + Clock> Gate for Pace<'_, R> {
    fn pass(&self, who: u32, point: Point) -> Go {
        match Timer::of(who) {
            Some(timer) if point == Point::Turn => self.wait_for_turn(timer).unwrap_or(Go::Stop),
            _ => Go::On,
        }
    }
}
