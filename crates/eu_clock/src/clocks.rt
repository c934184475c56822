//! Clocks.
ghost use Rattle.std.specs.Prelude.{◌≡◌, ℕ};
ghost use Rattle.eu_clock.specs.Moments.{next_moment};

use eu_base::Moment;
use std::marker::Model;
use std::rt;
use std::time::{SystemTime, UNIX_EPOCH};

/// A clock that is asked for the moment.
///
/// `tells s m t` says that a clock in the state `s` may tell the moment `m` and be in the state `t` then. That is a relation,
/// since what a machine's clock tells is no function of any state that a program has.
pub trait Clock {
    ghost tells: { Self → ℕ → Self → Type 0 };

    /// The moment, in milliseconds. It may be before one that was told earlier. Takes no memory.
    fn now(&mut self) -> Moment
        ensures { tells self.old result self.new };
}

/// A clock that tells the moments of a list one after another, then the last one again and again; of an empty list it tells 0.
/// Contracts see the moments that are left.
#[derive(Debug, Drop)]
pub struct ListClock {
    moments: Vec<Moment>,
    next: usize,
}

impl Model for ListClock {
    ghost use Rattle.std.specs.Prelude.{ℕ, List, drop};

    ghost Value = { List ℕ };

    ghost view = { λ a. drop a.next a.moments.items };
}

impl ListClock {
    /// The clock of these moments. Takes no memory.
    pub fn new(moments: Vec<Moment>) -> ListClock
        ensures { result ≡ moments.items }
    {
        ListClock { moments, next: 0 }
    }
}

impl Clock for ListClock {
    ghost tells = { λ left moment after. (moment, after) ≡ next_moment left };

    fn now(&mut self) -> Moment {
        let Some(moment) = self.moments.get(self.next) else {
            return Moment::new(0).unwrap();
        };
        if self.next < self.moments.len() - 1 {
            self.next += 1;
        }
        *moment
    }
}

/// The machine's clock: the milliseconds since 1970, in UTC.
///
/// Where it can't be read, or tells a time before 1970 or beyond 2^62 ms, it tells what it told last, and 0 at first. Contracts see
/// what it told last.
#[derive(Drop)]
pub struct SystemClock<'a, R: rt::Clock> {
    rt: &'a R,
    last: Moment,
}

impl<'a, R: rt::Clock> Model for SystemClock<'a, R> {
    ghost use Rattle.std.specs.Prelude.{ℕ};

    ghost Value = { ℕ };

    ghost view = { λ c. c.last };
}

impl<'a, R: rt::Clock> SystemClock<'a, R> {
    /// The clock of that machine, which told nothing yet. Takes no memory.
    pub fn new(rt: &'a R) -> SystemClock<'a, R>
        ensures { result ≡ 0 }
    {
        SystemClock {
            rt,
            last: Moment::new(0).unwrap(),
        }
    }
}

/// What the machine's clock reads, if that is a moment.
fn read<R: rt::Clock>(rt: &R) -> Option<Moment> {
    let now = SystemTime::now(rt).ok()?;
    let since = now.duration_since(UNIX_EPOCH).ok()?;
    Moment::new(u64::try_from(since.as_millis()).ok()?)
}

/// What the machine tells is no function of anything here: any moment may come.
impl<R: rt::Clock> Clock for SystemClock<'_, R> {
    ghost tells = { λ _ moment after. after ≡ moment };

    fn now(&mut self) -> Moment {
        if let Some(moment) = read(self.rt) {
            self.last = moment;
        }
        self.last
    }
}
