//! A loop of a server: it polls its connections, and calls those for which there is something to do.
ghost use Rattle.std.specs.Prelude.{◌≡◌, ◌≤◌, ◌+◌, ◌-◌, ◌^◌, ◌++◌, [], true, false, length, min};

use crate::admission::SPARE;
use crate::behind::drop_what_came;
use crate::calls::{
    Call, NextStep, asks_still, call_anew, call_of, has_work, is_warming, moment_of_sweep,
    next_step, visit_of,
};
use crate::hub::{Hub, Limits};
use crate::mail::Mail;
use crate::queue::Job;
use eu_gate::Responded;
use eu_hall::{Awaited, Guest, Hall, Happened, Left, Phase, ServerFacts, Unsent, Visit};
use eu_session::Talk;
use eu_stream::write_whole;
use mio::net::TcpStream;
use mio::{Events, Interest, Poll, Token};
use std::alloc::{AllocError, Global};
use std::collections::VecDeque;
use std::net::Shutdown;
use std::sync::Wait;
use std::time::{Clock, Duration, Instant};
use std::{io, mem};

/// The token of a loop's waker.
pub const WAKER: Token = Token(usize::MAX);

/// How often a loop looks for connections that are late, in milliseconds.
const SWEEP_MS: u64 = 250;

/// The most events of a poll.
const MOST_EVENTS: usize = 1_024;

/// What a connection is told whose request is too slow (RFC 9110, section 15.5.9).
const SLOW: &str = "HTTP/1.1 408 Request Timeout\r\nContent-Length: 0\r\nConnection: close\r\n\r\n";

/// What a connection is told for which there is no room (RFC 9110, section 15.6.4).
const FULL: &str =
    "HTTP/1.1 503 Service Unavailable\r\nContent-Length: 0\r\nRetry-After: 30\r\nConnection: close\r\n\r\n";

/// A connection.
type Connection = Box<Guest<TcpStream, Talk>>;

/// A loop of a server. It alone has its connections, but for those that are away at a worker.
#[derive(Drop)]
pub struct Loop<'a, R: Wait + Clock> {
    hub: &'a Hub<'a, R>,
    number: usize,
    limits: Limits,
    poll: Poll,
    events: Events,
    hall: Hall<Connection>,
    ready: VecDeque<Call>,
    again: Vec<usize>,
    mail: Vec<Mail>,
    /// The keys of those that are told that there is no room for them.
    refused: Vec<usize>,
    began: Instant,
    now: u64,
    swept: u64,
    is_due: bool,
    /// When it saw that the server stops.
    stopped: Option<u64>,
}

/// A connection that has just come, and whose session begins.
fn guest<S>(alloc: Global, socket: S) -> Guest<S, Talk>
    ensures begins { result ≡ record { socket = socket; talk = result.talk; unsent = record { rest = []; has_failed = false }; has_ended = false; dropped = 0 } }
    ensures inbox { result.talk.inbox ≡ [] }
    ensures served { result.talk.served ≡ 0 }
{
    Guest {
        socket,
        talk: Talk::new(alloc),
        unsent: Unsent::new(alloc),
        has_ended: false,
        dropped: 0,
    }
}

/// The same, on the heap. `AllocError` where no memory is left for it.
fn connection(alloc: Global, socket: TcpStream) -> Result<Connection, AllocError> {
    Ok(Box::new(alloc, guest(alloc, socket))?)
}

/// How many bytes of memory a connection holds: what was read of it, and what is to be sent.
fn held_by<S>(guest: &Guest<S, Talk>) -> usize
    ensures { min (length guest.now.talk.inbox + length guest.now.unsent.rest) (2 ^ 64 - 1) ≤ result }
{
    let unsent = guest.unsent.memory();
    guest.talk.inbox.capacity().saturating_add(unsent)
}

/// Ends the session of a connection by a response that is to be sent. Tells whether there was memory for that.
fn end_by<S, T>(guest: &mut Guest<S, T>, response: &str) -> bool
    ensures ended { guest.new ≡ record guest.old { unsent = guest.new.unsent; has_ended = true } }
    ensures told { result ≡ true → guest.new.unsent.rest ≡ guest.old.unsent.rest ++ response.now }
    ensures sound { result ≡ true → guest.new.unsent.has_failed ≡ guest.old.unsent.has_failed }
    ensures failed { result ≡ false → guest.new.unsent.has_failed ≡ true }
{
    guest.has_ended = true;
    write_whole(&mut guest.unsent, response.as_bytes()).is_ok()
}

/// What a connection is polled for.
fn interest() -> Interest {
    Interest::READABLE.add(Interest::WRITABLE)
}

impl<'a, R: Wait + Clock> Loop<'a, R> {
    /// The loop of that number, which polls so.
    pub fn new(hub: &'a Hub<'a, R>, number: usize, poll: Poll) -> io::Result<Loop<'a, R>> {
        let limits = hub.limits_of(number);
        let most = limits.places();
        Ok(Loop {
            hub,
            number,
            limits,
            poll,
            events: Events::with_capacity(hub.alloc, MOST_EVENTS)?,
            hall: hub.hall(&limits)?,
            ready: VecDeque::with_capacity(hub.alloc, most.saturating_add(MOST_EVENTS))?,
            again: Vec::with_capacity(hub.alloc, most)?,
            mail: Vec::with_capacity(hub.alloc, most)?,
            refused: Vec::with_capacity(hub.alloc, SPARE as usize)?,
            began: Instant::now(hub.rt)?,
            now: 0,
            swept: 0,
            is_due: false,
            stopped: None,
        })
    }

    /// Reads the clock, once a round: the milliseconds since the loop began; as before where the clock can't be read.
    fn look_at_clock(&mut self) {
        if let Ok(time) = self.began.elapsed(self.hub.rt) {
            self.now = u64::try_from(time.as_millis()).unwrap_or(u64::MAX);
        }
    }

    /// Notes that a session is over: the loop can be dealt another one.
    fn end_session(&self) {
        if let Some(mailbox) = self.hub.boxes.get(self.number) {
            mailbox.end_session(self.hub.rt);
        }
    }

    /// Counts a connection out that got no place, and was admitted or refused.
    fn turn_away(&self, was_refused: bool) {
        self.hub.let_out(self.number, was_refused);
        self.end_session();
    }

    /// Forgets that the connection of that key was refused, and tells whether it was.
    fn forget_refused(&mut self, key: usize) -> bool {
        match self.refused.iter().position(|refused| *refused == key) {
            Some(at) => {
                self.refused.swap_remove(at);
                true
            }
            None => false,
        }
    }

    /// Frees the place of a connection of whose peer this was awaited, and closes what stands there.
    fn leave(&mut self, key: usize, phase: Phase) {
        if !self.hall.leave(key) {
            return;
        }
        let was_refused = self.forget_refused(key);
        self.hub.let_out(self.number, was_refused);
        if phase != Phase::Lingering {
            self.end_session();
        }
    }

    /// Closes the connection that stands at that key.
    fn close(&mut self, key: usize) {
        if let Some((guest, awaited)) = self.hall.call(key) {
            drop(guest);
            self.leave(key, awaited.phase);
        }
    }

    /// Puts a connection in its place again, of whose peer this is awaited now. One that would hold too much is closed.
    fn park(&mut self, key: usize, guest: Connection, awaited: Awaited) {
        let mut guest = guest;
        guest.talk.inbox.release(self.hub.alloc);
        guest.unsent.release();
        let bytes = held_by(guest.as_ref());
        if self.hall.come_back(key, guest, awaited, bytes).is_err() {
            self.leave(key, awaited.phase);
        }
    }

    /// Lets what comes behind a session pass, until the peer closes, the time is up, or enough has come.
    fn linger(&mut self, key: usize, guest: Connection, awaited: Awaited) {
        let mut guest = guest;
        if drop_what_came(guest.as_mut(), self.limits.linger_bytes) {
            self.park(key, guest, awaited);
        } else {
            drop(guest);
            self.leave(key, awaited.phase);
        }
    }

    /// Ends what was written of a connection whose session is over, and lingers (RFC 9112, section 9.6).
    fn begin_lingering(&mut self, visit: Visit<TcpStream, Talk>) {
        let Visit {
            key,
            guest,
            awaited,
            ..
        } = visit;
        if guest.socket.shutdown(Shutdown::Write).is_err() {
            drop(guest);
            self.leave(key, awaited.phase);
            return;
        }
        self.end_session();
        let patience = self.limits.patience;
        let awaited = awaited.next(patience, Phase::Lingering, Happened::Nothing, self.now);
        self.linger(key, guest, awaited);
    }

    /// Parks a connection after a visit.
    fn park_after(&mut self, visit: Visit<TcpStream, Talk>, phase: Phase, happened: Happened) {
        let Visit {
            key,
            guest,
            awaited,
            ..
        } = visit;
        let awaited = awaited.next(self.limits.patience, phase, happened, self.now);
        self.park(key, guest, awaited);
    }

    /// Hands a connection to the pool, whose next request takes long. One with which those there would hold too much is closed.
    fn hand_over(&mut self, visit: Visit<TcpStream, Talk>) {
        let key = visit.key;
        let bytes = held_by(visit.guest.as_ref());
        let number = self.number;
        let job = Job {
            number,
            visit,
            bytes,
        };
        if let Err(job) = self.hub.pool.put(self.hub.rt, job) {
            drop(job);
            self.leave(key, Phase::Asking);
        }
    }

    /// Takes a connection back after a visit, which left it so.
    pub(crate) fn take_back(&mut self, visit: Visit<TcpStream, Talk>, left: Left) {
        let key = visit.key;
        match next_step(left) {
            NextStep::Lingers => self.begin_lingering(visit),
            NextStep::Parks(phase, happened) => self.park_after(visit, phase, happened),
            NextStep::ParksForMore(phase, happened) => {
                self.park_after(visit, phase, happened);
                if self.again.push(key).is_err() {
                    self.close(key);
                }
            }
            NextStep::GoesToPool => self.hand_over(visit),
            NextStep::Leaves => {
                drop(visit);
                self.leave(key, Phase::Asking);
            }
        }
    }

    /// Whether the server warms up.
    fn is_warming(&self) -> bool {
        is_warming(self.limits.warm_up_ms, self.now)
    }

    /// How the server fares, where the loop is that of operators.
    fn facts(&self) -> Option<ServerFacts> {
        if !self.hub.is_of_operators(self.number) {
            return None;
        }
        let counts = self.hub.counts();
        Some(ServerFacts {
            open: counts.here,
            accepted: counts.came,
            refused: counts.refused,
            evicted: self.hub.evicted(),
            uptime_ms: self.now,
            is_warming: self.is_warming(),
        })
    }

    /// The next connection for which there is something to do.
    fn next_ready(&mut self) -> Option<Visit<TcpStream, Talk>> {
        for _call in 0..self.ready.len() {
            let call = self.ready.pop_front()?;
            let Some((guest, awaited)) = self.hall.call(call.key) else {
                continue;
            };
            if awaited.phase == Phase::Lingering {
                self.linger(call.key, guest, awaited);
                continue;
            }
            if !has_work(call, guest.as_ref()) {
                self.park(call.key, guest, awaited);
                continue;
            }
            let is_warming = self.is_warming();
            return Some(visit_of(call, guest, awaited, is_warming, self.facts()));
        }
        None
    }

    /// Has a connection polled under the key of its place.
    fn register(&self, guest: &mut Connection, key: usize) -> io::Result<()> {
        let registry = self.poll.registry();
        registry.register(&mut guest.socket, Token(key), interest())
    }

    /// Gives a connection a place, and has it polled, which tells at once what has come of it. It is closed where that fails.
    fn enter(&mut self, guest: Connection, is_refused: bool) {
        let awaited = Awaited::begin(self.limits.patience, Phase::Idle, self.now);
        let Ok(key) = self.hall.enter(guest, awaited) else {
            self.turn_away(is_refused);
            return;
        };
        if is_refused && self.refused.push(key).is_err() {
            self.hall.leave(key);
            self.turn_away(is_refused);
            return;
        }
        let Some((mut guest, awaited)) = self.hall.call(key) else {
            return;
        };
        if self.register(&mut guest, key).is_ok() {
            self.park(key, guest, awaited);
        } else {
            drop(guest);
            self.leave(key, awaited.phase);
        }
    }

    /// Counts what the loop tells a client by itself, by its status.
    fn count_told(&self, status: u16) {
        if !self.hub.is_of_operators(self.number) {
            let fault = None;
            self.hub.count_response(0, Responded { status, fault });
        }
    }

    /// Takes in a connection for which there is no room, to tell it so. It is closed where there is no memory for that.
    fn refuse(&mut self, socket: TcpStream) {
        let Ok(mut guest) = connection(self.hub.alloc, socket) else {
            self.turn_away(true);
            return;
        };
        if end_by(guest.as_mut(), FULL) {
            self.count_told(503);
            self.enter(guest, true);
        } else {
            self.turn_away(true);
        }
    }

    /// Has a connection polled anew, which tells at once what has come of it meanwhile.
    fn poll_anew(&mut self, key: usize) {
        let Some((mut guest, awaited)) = self.hall.call(key) else {
            return;
        };
        let registry = self.poll.registry();
        if registry
            .reregister(&mut guest.socket, Token(key), interest())
            .is_ok()
        {
            self.park(key, guest, awaited);
        } else {
            drop(guest);
            self.leave(key, awaited.phase);
        }
    }

    /// Whether the connection at that key is late, as a sweep would judge it now. Where the server stops, one that is idle isn't late for that: it may have asked
    /// meanwhile.
    fn is_late(&self, key: usize) -> bool {
        let patience = self.limits.patience;
        let judged_by = moment_of_sweep(patience, self.stopped, self.now);
        self.hall.is_late(key, judged_by)
    }

    /// Takes a connection back that was at the pool. It is given up where it is late, since no sweep sees who is away. Else it is visited at once, since events
    /// were passed over meanwhile; where the rest of a request is awaited, once an event tells that some has come.
    fn come_back(&mut self, visit: Visit<TcpStream, Talk>, left: Left) {
        let key = visit.key;
        self.take_back(visit, left);
        if self.is_late(key) {
            self.give_up(key);
        } else if asks_still(left) {
            self.poll_anew(key);
        } else if self.ready.push_back(call_anew(key)).is_err() {
            self.close(key);
        }
    }

    /// Takes one mail.
    fn take_one(&mut self, mail: Mail) {
        match mail {
            Mail::New(socket) => match connection(self.hub.alloc, socket) {
                Ok(guest) => self.enter(guest, false),
                Err(_) => self.turn_away(false),
            },
            Mail::Refused(socket) => self.refuse(socket),
            Mail::Back(visit, left) => self.come_back(visit, left),
        }
    }

    /// Takes what others handed in.
    fn take_mail(&mut self) {
        let mut mail = mem::replace(&mut self.mail, Vec::new(self.hub.alloc));
        if let Some(mailbox) = self.hub.boxes.get(self.number) {
            mailbox.take(self.hub.rt, &mut mail);
        }
        mail.reverse();
        for _one in 0..mail.len() {
            if let Some(one) = mail.pop() {
                self.take_one(one);
            }
        }
        self.mail = mail;
    }

    /// Gives up a connection that is late. One whose request isn't whole is told so, unless its session has ended.
    fn give_up(&mut self, key: usize) {
        let Some((mut guest, awaited)) = self.hall.call(key) else {
            return;
        };
        let is_asked = awaited.phase == Phase::Asking && !guest.has_ended;
        if !is_asked || !end_by(guest.as_mut(), SLOW) {
            drop(guest);
            self.leave(key, awaited.phase);
            return;
        }
        self.count_told(408);
        let awaited = Awaited::begin(self.limits.patience, Phase::Answering, self.now);
        self.park(key, guest, awaited);
        let _ = self.ready.push_back(call_anew(key));
    }

    /// Gives up all that are late, and where the server stops all that are idle; in the end all that are left.
    fn sweep(&mut self, now: u64) {
        let stops = self.hub.counts().is_stopping;
        if stops && self.stopped.is_none() {
            self.stopped = Some(now);
        }
        let judged_by = moment_of_sweep(self.limits.patience, self.stopped, now);
        let mut from = 0;
        for _place in 0..self.limits.places() {
            let Some(key) = self.hall.late(from, judged_by, stops) else {
                break;
            };
            self.give_up(key);
            from = key.saturating_add(1);
        }
        self.swept = now;
        self.is_due = false;
    }

    /// How long a poll waits: not at all where there is something to do at once, else until the next sweep.
    fn time(&self) -> Duration {
        if !self.again.is_empty() || !self.ready.is_empty() {
            return Duration::from_millis(0);
        }
        let since = self.now.saturating_sub(self.swept);
        Duration::from_millis(SWEEP_MS.saturating_sub(since))
    }

    /// Notes for which connections something has come, and tells whether the loop was woken.
    fn note_events(&mut self) -> Result<bool, AllocError> {
        let mut is_woken = false;
        for event in &self.events {
            if event.token() == WAKER {
                is_woken = true;
            } else {
                self.ready.push_back(call_of(event))?;
            }
        }
        Ok(is_woken)
    }

    /// Has those visited that had all their turns, and may have more to do: each once, however often it was visited before.
    fn call_again(&mut self) -> Result<(), AllocError> {
        self.again.sort_unstable();
        self.again.dedup();
        for _key in 0..self.again.len() {
            if let Some(key) = self.again.pop() {
                self.ready.push_back(call_anew(key))?;
            }
        }
        Ok(())
    }

    /// Waits until there is something to do, or the next sweep is due. A sweep that is due comes once all were visited of whom was told before: who has
    /// sent in time isn't late.
    fn round(&mut self) -> io::Result<()> {
        if self.is_due {
            self.sweep(self.now);
        }
        let time = self.time();
        self.poll.poll(&mut self.events, Some(time))?;
        self.look_at_clock();
        let is_woken = self.note_events()?;
        self.call_again()?;
        if is_woken {
            self.take_mail();
        }
        self.is_due = self.now.saturating_sub(self.swept) >= SWEEP_MS;
        Ok(())
    }

    /// Whether all have left, and no more will come.
    fn is_over(&mut self) -> bool {
        if !self.hall.is_empty() || !self.hub.counts().is_closed {
            return false;
        }
        self.take_mail();
        self.hall.is_empty()
    }

    /// The next connection for which there is something to do; none once all have left and no more will come.
    pub(crate) fn next(&mut self) -> Option<Visit<TcpStream, Talk>> {
        for _ in self.hub.rt.forever() {
            let visit = self.next_ready();
            if visit.is_some() {
                return visit;
            }
            if self.is_over() {
                break;
            }
            if self.round().is_err() {
                self.hub.fail();
                break;
            }
        }
        self.hub.end_loop();
        None
    }
}
