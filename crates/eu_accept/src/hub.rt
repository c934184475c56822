//! What the threads of a server share beside the book.
ghost use Rattle.std.specs.Prelude.{◌≡◌, IfOk, nat_le, vec_len};
ghost use Rattle.eu_accept.specs.Limits.{server_limits};
ghost use Rattle.eu_accept.specs.Shares.{hall_of, limits_of, places_of, queue_of, share_of};

use crate::admission::{Admission, Entry, SPARE};
use crate::loops::WAKER;
use crate::mail::Mailbox;
use crate::messages::{Message, Told};
use crate::outlet::takes_line_now;
use crate::pace::Pace;
use crate::pool::Pool;
use crate::queue::Queue;
use eu_gate::{Gate, Go, MOST_WORKERS, News, OTHER_WORKERS, Periods, Point, Responded, Tally};
use eu_hall::{Hall, PATIENCE, Patience};
use mio::{Poll, Waker};
use std::alloc::{AllocError, Global};
use std::io;
use std::net::Net;
use std::sync::{Mutex, Wait};
use std::time::Clock;

/// The number of the first loop at the gate, behind that of the door.
const FIRST_LOOP: u32 = 2;

/// How many connections a server has, and how long it waits for them.
#[derive(Clone, Copy, Debug, PartialEq, Eq)]
pub struct Limits {
    /// The most connections at once.
    pub connections: usize,
    /// The most bytes that are kept of connections which wait. Each loop has its part of them, and the pool a part as large.
    pub bytes: usize,
    /// How long a peer is awaited.
    pub patience: Patience,
    /// The most bytes that are read and dropped behind a session.
    pub linger_bytes: usize,
    /// For how long nothing is listed at first, in milliseconds.
    pub warm_up_ms: u32,
}

impl Limits {
    /// The part of the bytes that each of so many loops has, and the pool as much as one of them.
    pub(crate) fn share(&self, loops: usize) -> usize
        ensures { result ≡ share_of self.now loops }
    {
        self.bytes / loops.saturating_add(1)
    }

    /// How many places a loop has: one for each connection, and those of the ones that are refused.
    pub fn places(&self) -> usize
        ensures { result ≡ places_of self.now }
    {
        self.connections.saturating_add(SPARE as usize)
    }

    /// The pool's queue beside so many loops. `AllocError` where there is no memory for it.
    fn queue(&self, alloc: Global, loops: usize) -> Result<Queue, AllocError>
        ensures { IfOk result (λ queue. queue ≡ queue_of self.now loops) }
    {
        Queue::new(alloc, self.places(), self.share(loops))
    }

    /// Those of a server: 10,000 connections, 256 MiB.
    pub fn of_server() -> Limits
        ensures { result ≡ server_limits }
    {
        Limits {
            connections: 10_000,
            bytes: 268_435_456,
            patience: PATIENCE,
            linger_bytes: 65_536,
            warm_up_ms: 0,
        }
    }
}

/// What the door, the loops and the pool of a server share.
#[derive(Drop)]
pub struct Hub<'a, R: Wait + Clock> {
    /// The leave to wait.
    pub rt: &'a R,
    /// Where memory comes from.
    pub alloc: Global,
    /// How many connections there are, and for how long.
    pub limits: Limits,
    /// The mailbox of each loop: those of clients, and behind them that of operators, where there is one.
    pub boxes: Vec<Mailbox>,
    /// How many loops serve clients.
    pub client_loops: usize,
    /// Connections whose next request takes long.
    pub pool: Pool,
    /// What is counted.
    pub admission: Mutex<Admission>,
    /// What paces the timers.
    pub pace: Pace<'a, R>,
    /// What was told of messages, where they are told.
    pub told: Option<Mutex<Told>>,
    /// How many leases were evicted.
    pub evicted: Mutex<u64>,
    /// How many responses clients were given, by each worker of sessions, at its number; at 0 those that loops gave without a turn.
    pub responses: Vec<Mutex<Tally>>,
}

/// A count of responses for each worker of sessions, and one besides. `AllocError` where there is no memory for them.
fn tallies(alloc: Global) -> Result<Vec<Mutex<Tally>>, AllocError> {
    let workers = MOST_WORKERS + OTHER_WORKERS;
    let mut tallies = Vec::new(alloc);
    for _ in 0..=workers {
        tallies.push(Mutex::new(Tally::none()))?;
    }
    Ok(tallies)
}

impl<'a, R: Wait + Clock + Net> Hub<'a, R> {
    /// What the threads of a server share that begins now, with as many loops as the admission says, so many of which serve clients; and what each loop polls with.
    /// Where it is known what was told of messages, they are told from now on. An error is the system's or the clock's; `OutOfMemory` comes where no memory is left.
    pub fn open(
        rt: &'a R,
        alloc: Global,
        limits: Limits,
        periods: Periods,
        admission: Admission,
        client_loops: usize,
        told: Option<Told>,
    ) -> io::Result<(Hub<'a, R>, Vec<Poll>)>
        ensures polls { IfOk result (λ opened. vec_len opened.1 ≡ admission.loops) }
        ensures client_loops { IfOk result (λ opened. opened.0.client_loops ≡ client_loops) }
    {
        let loops = admission.loops;
        let mut polls = Vec::with_capacity(alloc, loops as usize)?;
        let mut boxes = Vec::with_capacity(alloc, loops as usize)?;
        for _ in 0..loops {
            let poll = Poll::new(rt)?;
            let waker = Waker::new(poll.registry(), WAKER)?;
            boxes.push(Mailbox::new(alloc, limits.places(), waker)?)?;
            polls.push(poll)?;
        }
        let hub = Hub {
            rt,
            alloc,
            limits,
            boxes,
            client_loops,
            pool: Pool::new(limits.queue(alloc, loops as usize)?),
            admission: Mutex::new(admission),
            pace: Pace::new(rt, periods)?,
            told: told.map(Mutex::new),
            evicted: Mutex::new(0),
            responses: tallies(alloc)?,
        };
        Ok((hub, polls))
    }
}

impl<'a, R: Wait + Clock> Hub<'a, R> {
    /// The hall of one of its loops, by these limits. `AllocError` where there is no memory for it.
    pub(crate) fn hall<G: Drop>(&self, limits: &Limits) -> Result<Hall<G>, AllocError>
        ensures { IfOk result (λ hall. hall ≡ hall_of limits.now (vec_len self.now.boxes)) }
    {
        let most_bytes = limits.share(self.boxes.len());
        Hall::new(self.alloc, limits.places(), most_bytes)
    }

    /// Whether the loop of that number is that of operators.
    pub(crate) fn is_of_operators(&self, number: usize) -> bool
        ensures { result ≡ nat_le self.now.client_loops number }
    {
        number >= self.client_loops
    }

    /// The limits of the loop of that number: that of operators has no more connections than would be told at another that there is no room, and since each of them
    /// has one request, it waits no longer for its first byte than for the others.
    pub(crate) fn limits_of(&self, number: usize) -> Limits
        ensures { result ≡ limits_of self.now.client_loops number self.now.limits }
    {
        if self.is_of_operators(number) {
            let patience = Patience {
                idle: self.limits.patience.request,
                ..self.limits.patience
            };
            return Limits {
                connections: 0,
                patience,
                ..self.limits
            };
        }
        self.limits
    }

    /// How many leases were evicted.
    pub(crate) fn evicted(&self) -> u64 {
        *self.evicted.lock(self.rt)
    }

    /// Counts leases that were evicted.
    fn count_evicted(&self, evicted: u64) {
        let mut count = self.evicted.lock(self.rt);
        *count = count.saturating_add(evicted);
    }

    /// The mailbox of the loop that is the worker of that number; none where it is no loop.
    fn box_of(&self, who: u32) -> Option<&Mailbox> {
        let number = who.checked_sub(FIRST_LOOP)?;
        self.boxes.get(number as usize)
    }

    /// Counts a response that a client was given, by the worker of that number.
    pub(crate) fn count_response(&self, who: usize, told: Responded) {
        if let Some(tally) = self.responses.get(who) {
            tally.lock(self.rt).count(told);
        }
    }

    /// How many responses clients were given.
    fn all_responses(&self) -> Tally {
        let mut all = Tally::none();
        for tally in &self.responses {
            all.add(&tally.lock(self.rt));
        }
        all
    }

    /// What was counted so far.
    pub fn counts(&self) -> Admission {
        *self.admission.lock(self.rt)
    }

    /// Notes that no more connections are accepted, and wakes all loops.
    pub(crate) fn close_door(&self, has_failed: bool) {
        self.admission.lock(self.rt).close(has_failed);
        self.wake_loops();
    }

    /// Notes that a loop has failed for good: the server stops, and wakes all loops.
    pub(crate) fn fail(&self) {
        self.admission.lock(self.rt).close(true);
        self.stop();
    }

    /// Notes that the server stops, and wakes all loops.
    pub(crate) fn stop(&self) {
        self.admission.lock(self.rt).stop();
        self.wake_loops();
    }

    /// Ends the wait of all loops.
    fn wake_loops(&self) {
        for mailbox in &self.boxes {
            mailbox.wake();
        }
    }

    /// Counts a connection that has come, and tells what becomes of it.
    pub(crate) fn admit(&self) -> Entry {
        let most = self.limits.connections as u64;
        self.admission.lock(self.rt).admit(most)
    }

    /// Counts a connection of an operator, and tells whether it is let in.
    pub(crate) fn admit_operator(&self) -> bool {
        self.admission.lock(self.rt).admit_operator()
    }

    /// Counts a connection out of the loop of that number, which was admitted or refused.
    pub(crate) fn let_out(&self, number: usize, was_refused: bool) {
        let mut admission = self.admission.lock(self.rt);
        if self.is_of_operators(number) {
            admission.let_out_operator();
        } else {
            admission.let_out(was_refused);
        }
    }

    /// Counts a loop out; the last one ends the pool and the timers.
    pub(crate) fn end_loop(&self) {
        let is_last = self.admission.lock(self.rt).end_loop();
        if is_last {
            self.pool.close(self.rt);
            self.pace.end();
        }
    }
}

impl<R: Wait + Clock + Eprint> Hub<'_, R> {
    /// Tells how many connections were refused since that was told before, at that time, in milliseconds: at most once a second, and once standard error takes a line.
    pub(crate) fn tell_refusals(&self, now: u64) {
        let Some(told) = &self.told else {
            return;
        };
        if !takes_line_now() {
            return;
        }
        let refused = self.counts().refused;
        let message = told.lock(self.rt).refusals(refused, now);
        self.tell(message);
    }

    /// Tells a message, if there is one.
    fn tell(&self, message: Option<Message>) {
        if let Some(message) = message {
            message.tell(self.rt);
        }
    }
}

/// The gate of a server's workers: it paces the timers, and tells of evictions.
impl<R: Wait + Clock + Eprint> Gate for Hub<'_, R> {
    fn pass(&self, who: u32, point: Point) -> Go {
        self.pace.pass(who, point)
    }

    fn hear(&self, news: News) {
        self.count_evicted(news.evicted);
        let Some(told) = &self.told else {
            return;
        };
        if !takes_line_now() {
            return;
        }
        let change = told.lock(self.rt).change(&news);
        self.tell(change);
        self.tell(Message::of_pass(&news));
    }

    fn responded(&self, who: u32, told: Responded) {
        self.count_response(who as usize, told);
    }

    fn ended(&self, who: u32) {
        if let Some(mailbox) = self.box_of(who) {
            mailbox.end_early(self.rt);
        }
    }

    fn responses(&self) -> Tally {
        self.all_responses()
    }
}
