//! What wakes the timers of a server that wait.
ghost use Rattle.std.specs.Prelude.{◌≡◌, true};

use eu_gate::Schedules;
use std::sync::{Condvar, MutexGuard, Wait};
use std::time::{Clock, Duration};

/// That it was noted that the sessions have ended: `EndNoted::note` alone makes one.
#[derive(Drop)]
pub struct EndNoted {
    noted: (),
}

impl EndNoted {
    /// Notes that the sessions have ended: no timer takes a further turn.
    pub fn note(schedules: &mut Schedules) -> EndNoted
        ensures { schedules.new ≡ record schedules.old { have_ended = true } }
    {
        schedules.end();
        EndNoted { noted: () }
    }
}

/// What timers wait at. Who would wake them has to have noted first that the sessions have ended: a timer that is woken before finds
/// nothing noted, and waits on.
#[derive(Drop)]
pub struct Bell {
    condvar: Condvar,
}

impl Bell {
    /// One at which nobody waits.
    pub fn new() -> Bell {
        Bell {
            condvar: Condvar::new(),
        }
    }

    /// Wakes all timers that wait.
    pub fn ring(&self, _ended: EndNoted) {
        self.condvar.notify_all();
    }

    /// Waits so long, or until the sessions have ended. The lock is let go meanwhile.
    pub fn wait<'b, R: Wait + Clock>(
        &self,
        rt: &R,
        schedules: MutexGuard<'b, Schedules>,
        time: Duration,
    ) -> MutexGuard<'b, Schedules> {
        let (schedules, _) = self
            .condvar
            .wait_timeout_while(rt, schedules, time, |schedules| !schedules.have_ended);
        schedules
    }
}
