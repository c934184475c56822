//! Connections whose next request takes long.
ghost use Rattle.std.specs.Prelude.{◌≡◌, true, false};
ghost use Rattle.eu_accept.specs.Hands.{after_call, called, noted};

use crate::queue::{Job, Queue};
use eu_hall::Visit;
use std::sync::{Condvar, Mutex, Wait};

/// One of the two threads of a pool.
#[derive(Clone, Copy, Debug, PartialEq, Eq)]
pub enum HandName {
    /// The one that is called first, so that what it needs lies in its core's memory.
    First,
    /// The one that is called while the first one is at work.
    Second,
}

/// Which threads wait to be called.
#[derive(Clone, Copy, Debug)]
pub(crate) struct Waiting {
    pub(crate) first: bool,
    pub(crate) second: bool,
}

impl Waiting {
    /// Notes that a thread waits, or that it doesn't.
    fn note(&mut self, name: HandName, waits: bool)
        ensures { self.new ≡ noted self.old name waits }
    {
        match name {
            HandName::First => self.first = waits,
            HandName::Second => self.second = waits,
        }
    }

    /// Calls one that waits: it waits no more. None where none waits.
    fn call(&mut self) -> Option<HandName>
        ensures called { result ≡ called self.old }
        ensures rest { self.new ≡ after_call self.old }
    {
        let name = if self.first {
            HandName::First
        } else if self.second {
            HandName::Second
        } else {
            return None;
        };
        self.note(name, false);
        Some(name)
    }
}

/// What lies behind the pool's lock.
#[derive(Drop)]
struct Desk {
    queue: Queue,
    waiting: Waiting,
    is_closed: bool,
}

impl Desk {
    /// Whether a thread has to wait, which is noted.
    fn waits(&mut self, name: HandName) -> bool {
        let waits = self.queue.is_empty() && !self.is_closed;
        self.waiting.note(name, waits);
        waits
    }
}

/// Where connections wait for a thread of the pool.
#[derive(Drop)]
pub struct Pool {
    desk: Mutex<Desk>,
    first: Condvar,
    second: Condvar,
}

/// A visit at the pool: one turn, of whatever request, and no more reads than are needed.
pub(crate) fn at_pool<S, T>(visit: Visit<S, T>) -> Visit<S, T>
    ensures { result ≡ record visit { most_turns = 1; leaves_long = false; reads_on = false; sends_on = true } }
{
    Visit {
        most_turns: 1,
        leaves_long: false,
        reads_on: false,
        sends_on: true,
        ..visit
    }
}

impl Pool {
    /// One in whose queue connections wait.
    pub(crate) fn new(queue: Queue) -> Pool {
        Pool {
            desk: Mutex::new(Desk {
                queue,
                waiting: Waiting {
                    first: false,
                    second: false,
                },
                is_closed: false,
            }),
            first: Condvar::new(),
            second: Condvar::new(),
        }
    }

    /// By what a thread is called.
    fn bell(&self, name: HandName) -> &Condvar {
        match name {
            HandName::First => &self.first,
            HandName::Second => &self.second,
        }
    }

    /// Hands a connection in. One for which the queue has no room is given back.
    pub(crate) fn put<R: Wait>(&self, rt: &R, job: Job) -> Result<(), Job> {
        let called = {
            let mut desk = self.desk.lock(rt);
            desk.queue.put(job)?;
            desk.waiting.call()
        };
        if let Some(name) = called {
            self.bell(name).notify_one();
        }
        Ok(())
    }

    /// Waits for a connection, as the thread of that name; none once the pool is closed.
    pub(crate) fn next<R: Wait>(&self, rt: &R, name: HandName) -> Option<Job> {
        let desk = self.desk.lock(rt);
        let mut desk = self
            .bell(name)
            .wait_while(rt, desk, |desk| desk.waits(name));
        desk.queue.take()
    }

    /// Ends its threads, once nothing is left.
    pub(crate) fn close<R: Wait>(&self, rt: &R) {
        self.desk.lock(rt).is_closed = true;
        self.first.notify_all();
        self.second.notify_all();
    }
}
