//! Whether a server has as many threads as it wants.
use std::alloc::{AllocError, Global};
use std::sync::{Condvar, Mutex, Wait};
use std::thread::{Threads, for_each_mut};
use std::time::{Clock, Duration};

/// Who has come of those that are to come.
#[derive(Clone, Copy, Debug)]
struct Arrivals {
    here: usize,
    /// Somebody has left, because not all came in time.
    is_broken_up: bool,
}

/// Where threads wait for each other.
#[derive(Drop)]
struct Gathering {
    wanted: usize,
    patience: Duration,
    arrivals: Mutex<Arrivals>,
    changed: Condvar,
}

impl Gathering {
    /// One to which so many are to come, of whom each waits so long for the others.
    fn new(wanted: usize, patience: Duration) -> Gathering {
        Gathering {
            wanted,
            patience,
            arrivals: Mutex::new(Arrivals {
                here: 0,
                is_broken_up: false,
            }),
            changed: Condvar::new(),
        }
    }

    /// Comes, and waits until all have come, or somebody has left before.
    fn come<R: Wait + Clock>(&self, rt: &R) {
        let mut arrivals = self.arrivals.lock(rt);
        arrivals.here = arrivals.here.saturating_add(1);
        let (mut arrivals, _) = self
            .changed
            .wait_timeout_while(rt, arrivals, self.patience, |arrivals| {
                arrivals.here < self.wanted && !arrivals.is_broken_up
            });
        if arrivals.here < self.wanted {
            arrivals.is_broken_up = true;
        }
        drop(arrivals);
        self.changed.notify_all();
    }

    /// Whether all came while all others were there.
    fn is_complete<R: Wait>(&self, rt: &R) -> bool {
        let arrivals = self.arrivals.lock(rt);
        arrivals.here >= self.wanted && !arrivals.is_broken_up
    }
}

/// Whether so many calls can be made at once, in at most so many threads (0 counts as 1): each waits for so long until all have begun.
/// `AllocError` where there is no memory for a list of them.
///
/// The workers of a server wait for each other. Where two of them shared a thread, one would never begin, and nobody would be told. So a server makes
/// sure first.
pub fn can_gather<R: Threads + Wait + Clock + Sync>(
    rt: &R,
    alloc: Global,
    count: usize,
    threads: usize,
    patience: Duration,
) -> Result<bool, AllocError> {
    let mut places = Vec::new(alloc);
    places.resize(count, ())?;
    let gathering = Gathering::new(count, patience);
    for_each_mut(
        rt,
        places.as_mut_slice(),
        threads.max(1),
        &|_place, _one| gathering.come(rt),
    );
    Ok(gathering.is_complete(rt))
}
