//! The timers of a server: which there are, and how far apart their turns are.
ghost use Rattle.std.specs.Prelude.{◌≡◌, ◌-◌, ◌*◌, if◌then◌else◌, true};
ghost use Rattle.std.specs.Duration.{as_nanos};
ghost use Rattle.eu_gate.specs.Timers.{begun, nanos_left, number_of, paced, schedule_of, timer_of, IsStart};

use crate::gate::{BUCKET, EVICTOR, Go, THRESHOLD};
use std::time::{Duration, Instant};

/// The milliseconds between two ends of minutes (`MeasuredRate` in Eureka).
pub const BUCKET_MS: u64 = 60_000;

/// The milliseconds between two updates of the number expected (`renewalThresholdUpdateIntervalMs` of Eureka's `EurekaServerConfig`).
pub const THRESHOLD_MS: u64 = 900_000;

/// A worker that asks for one command, turn after turn.
#[derive(Clone, Copy, Debug, PartialEq, Eq)]
pub enum Timer {
    /// Evicts.
    Evictor,
    /// Lets a minute of counted renewals end.
    Bucket,
    /// Updates the number expected, and with it the threshold.
    Threshold,
}

impl Timer {
    /// The number of its worker at a gate.
    pub fn number(self) -> u32
        ensures { result ≡ number_of self }
    {
        match self {
            Timer::Evictor => EVICTOR,
            Timer::Bucket => BUCKET,
            Timer::Threshold => THRESHOLD,
        }
    }

    /// The timer whose worker has that number at a gate, or none.
    pub fn of(who: u32) -> Option<Timer>
        ensures { result ≡ timer_of who }
    {
        match who {
            EVICTOR => Some(Timer::Evictor),
            BUCKET => Some(Timer::Bucket),
            THRESHOLD => Some(Timer::Threshold),
            _ => None,
        }
    }
}

/// The milliseconds between two turns of each timer; 0 counts as 1.
#[derive(Clone, Copy, Debug, PartialEq, Eq)]
pub struct Periods {
    /// Between two evictions.
    pub evictor: u64,
    /// Between two ends of minutes.
    pub bucket: u64,
    /// Between two updates of the number expected.
    pub threshold: u64,
}

impl Periods {
    /// Those of a server whose evictions are that many milliseconds apart.
    pub fn of_server(evict_ms: u32) -> Periods
        ensures { result ≡ record { evictor = evict_ms; bucket = 60000; threshold = 900000 } }
    {
        Periods {
            evictor: u64::from(evict_ms),
            bucket: BUCKET_MS,
            threshold: THRESHOLD_MS,
        }
    }
}

/// How long a timer waits still, where its last turn began so long ago: nothing where that is a period or more.
fn left_of(period: Duration, since: Duration) -> Duration
    ensures { as_nanos result ≡ as_nanos period - as_nanos since }
{
    period.saturating_sub(since)
}

/// When a timer takes its turns.
#[derive(Clone, Copy, Debug)]
pub struct Schedule {
    /// How far apart its turns begin.
    pub period: Duration,
    /// When its last turn began, or the server before the first; by the monotonic clock.
    pub began: Instant,
}

impl Schedule {
    /// One that begins at that time, with a period of so many milliseconds, 0 counting as 1.
    fn new(ms: u64, began: Instant) -> Schedule
        ensures period { as_nanos result.period ≡ paced ms * 1000000 }
        ensures began { result.began ≡ began }
    {
        Schedule {
            period: Duration::from_millis(ms.max(1)),
            began,
        }
    }

    /// How long its timer waits still at that time: until a period has passed since its last turn began.
    fn left(&self, now: Instant) -> Duration
        ensures { as_nanos result ≡ nanos_left self.now now }
    {
        left_of(self.period, now.duration_since(self.began))
    }
}

/// When the timers of a server take their turns, and whether its sessions have ended.
#[derive(Clone, Copy, Debug)]
pub struct Schedules {
    /// The sessions have ended, so no timer takes a further turn.
    pub have_ended: bool,
    /// The evictor's.
    pub evictor: Schedule,
    /// The bucket's.
    pub bucket: Schedule,
    /// The threshold's.
    pub threshold: Schedule,
}

impl Schedules {
    /// Those of a server that begins at that time.
    pub fn new(periods: Periods, began: Instant) -> Schedules
        ensures { IsStart periods began result }
    {
        Schedules {
            have_ended: false,
            evictor: Schedule::new(periods.evictor, began),
            bucket: Schedule::new(periods.bucket, began),
            threshold: Schedule::new(periods.threshold, began),
        }
    }

    /// How long a timer waits still for its next turn, at that time.
    pub fn left(&self, timer: Timer, now: Instant) -> Duration
        ensures { as_nanos result ≡ nanos_left (schedule_of timer self.now) now }
    {
        match timer {
            Timer::Evictor => self.evictor.left(now),
            Timer::Bucket => self.bucket.left(now),
            Timer::Threshold => self.threshold.left(now),
        }
    }

    /// Notes that the sessions have ended: no timer takes a further turn.
    pub fn end(&mut self)
        ensures { self.new ≡ record self.old { have_ended = true } }
    {
        self.have_ended = true;
    }

    /// Begins a turn of a timer, at that time, and lets it go on; `Stop` where the sessions have ended, and then nothing changes.
    pub fn turn(&mut self, timer: Timer, now: Instant) -> Go
        ensures go { result ≡ (if self.old.have_ended then Go.Stop else Go.On) }
        ensures turn { self.new ≡ (if self.old.have_ended then self.old else begun timer now self.old) }
    {
        if self.have_ended {
            return Go::Stop;
        }
        self.begin(timer, now);
        Go::On
    }

    /// Begins a turn of a timer, at that time.
    fn begin(&mut self, timer: Timer, now: Instant)
        ensures { self.new ≡ begun timer now self.old }
    {
        match timer {
            Timer::Evictor => self.evictor.began = now,
            Timer::Bucket => self.bucket.began = now,
            Timer::Threshold => self.threshold.began = now,
        }
    }
}
