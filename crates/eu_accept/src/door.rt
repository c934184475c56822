//! The door of a server, at which connections are accepted.
ghost use Rattle.std.specs.Prelude.{◌≡◌, length};
ghost use Rattle.eu_accept.specs.Passing as spec;
ghost use Rattle.eu_accept.specs.Turns.{IsFewest};

use crate::admission::Entry;
use crate::hub::Hub;
use crate::mail::Mail;
use crate::messages::Message;
use crate::outlet::takes_line_now;
use mio::net::{TcpListener, TcpStream};
use mio::unix::SourceFd;
use mio::{Events, Interest, Poll, Token};
use std::io;
use std::io::ErrorKind;
use std::net::{self, Net};
use std::os::fd::RawFd;
use std::sync::Wait;
use std::time::{Clock, Duration, Instant};

/// How long the door waits before it tries again what may have failed for want of descriptors, in milliseconds.
const TICK_MS: u64 = 250;

/// What an accept came to.
enum Accepted {
    /// A connection.
    One(TcpStream),
    /// None waits, or none can be accepted now.
    Later,
    /// It has failed for good.
    Failed,
}

/// How many connections the door accepts before it looks whether the input has ended.
const MOST_ACCEPTS: u32 = 1_024;

/// The token of the listener.
const LISTENER: Token = Token(0);

/// The token of what ends the server.
const INPUT: Token = Token(1);

/// The token of the listener of operators.
const OPERATORS: Token = Token(2);

/// Accepts the connections of a server, and deals each to the loop with the fewest sessions; those of operators to their own.
#[derive(Drop)]
pub struct Door<'a, R: Wait + Clock> {
    hub: &'a Hub<'a, R>,
    listener: TcpListener,
    operators: Option<TcpListener>,
    poll: Poll,
    events: Events,
    sessions: Vec<u32>,
    has_input: bool,
    is_behind: bool,
    began: Instant,
}

/// Whether an accept that failed by such an error is tried again: none waits; or one was aborted before it was accepted, its network failed, or a
/// signal came (accept(2) of Linux, "Error handling").
fn is_passing(kind: ErrorKind) -> bool
    ensures { result ≡ spec.is_passing kind }
{
    matches!(
        kind,
        ErrorKind::WouldBlock
            | ErrorKind::ConnectionAborted
            | ErrorKind::NetworkDown
            | ErrorKind::NetworkUnreachable
            | ErrorKind::HostUnreachable
            | ErrorKind::Interrupted
    )
}

/// Whether an error of that number of Linux may pass (accept(2), "Error handling"): there is no descriptor (EMFILE 24, ENFILE 23) or no memory
/// (ENOMEM 12, ENOBUFS 105), of which some may be free soon; the connection's network had failed before (ENONET 64, EPROTO 71, ENOPROTOOPT 92,
/// EOPNOTSUPP 95, EHOSTDOWN 112); the connection is forbidden (EPERM 1, EACCES 13); or it is one of those that some kernels tell (ENOSR 63, EPROTONOSUPPORT 93,
/// ESOCKTNOSUPPORT 94, ETIMEDOUT 110).
fn may_pass(number: Option<i32>) -> bool
    ensures { result ≡ spec.may_pass number }
{
    match number {
        Some(1 | 12 | 13 | 23 | 24 | 63 | 64 | 71 | 92 | 93 | 94 | 95 | 105 | 110 | 112) => true,
        _ => false,
    }
}

/// Accepts one connection.
fn accept(listener: &TcpListener) -> Accepted {
    match listener.accept() {
        Ok((stream, _)) => Accepted::One(stream),
        Err(error) => failed(&error),
    }
}

/// A listener that waits no more from now on, and is polled under that token.
fn polled(poll: &Poll, listener: &net::TcpListener, token: Token) -> io::Result<TcpListener> {
    let listener = listener.try_clone()?;
    listener.set_nonblocking(true)?;
    let mut listener = TcpListener::from_std(listener);
    poll.registry()
        .register(&mut listener, token, Interest::READABLE)?;
    Ok(listener)
}

/// What an accept came to that failed so.
fn failed(error: &io::Error) -> Accepted
    ensures { result ≡ spec.accepted_by error.now }
{
    if !is_passing(error.kind()) && !may_pass(error.raw_os_error()) {
        return Accepted::Failed;
    }
    Accepted::Later
}

/// Which of the loops that have so many sessions has the fewest, the first of several. 0 where there is no loop.
#[tactic(auto, using(crate::proofs::TurnLemmas::none_yet, crate::proofs::TurnLemmas::fewer_yet, crate::proofs::TurnLemmas::no_fewer))]
fn fewest(sessions: &[u32]) -> usize
    ensures { IsFewest sessions.now (length sessions.now) result }
{
    let mut found = 0;
    for (number, count) in sessions.iter().enumerate() {
        if *count < sessions[found] {
            found = number;
        }
    }
    found
}

impl<'a, R: Wait + Clock + Net> Door<'a, R> {
    /// The door at a listener, and at that of operators, where there is one: they wait no more from now on. Where an input is named, the server stops at its end: a
    /// pipe or a socket, by its descriptor, that is open as long as the door is. An error is the system's or the clock's; one comes also where the input can't be
    /// polled, as a file.
    pub fn new(
        hub: &'a Hub<'a, R>,
        listener: &net::TcpListener,
        operators: Option<&net::TcpListener>,
        input: Option<RawFd>,
    ) -> io::Result<Door<'a, R>> {
        let poll = Poll::new(hub.rt)?;
        let listener = polled(&poll, listener, LISTENER)?;
        let operators = match operators {
            Some(operators) => Some(polled(&poll, operators, OPERATORS)?),
            None => None,
        };
        if let Some(input) = input {
            poll.registry()
                .register(&mut SourceFd(&input), INPUT, Interest::READABLE)?;
        }
        Ok(Door {
            hub,
            listener,
            operators,
            poll,
            events: Events::with_capacity(hub.alloc, 16)?,
            sessions: Vec::with_capacity(hub.alloc, hub.client_loops)?,
            has_input: input.is_some(),
            is_behind: false,
            began: Instant::now(hub.rt)?,
        })
    }
}

impl<'a, R: Wait + Clock + Eprint> Door<'a, R> {
    /// The number of the loop of clients that has the fewest sessions.
    fn least_busy(&mut self) -> usize {
        self.sessions.clear();
        for mailbox in self.hub.boxes.iter().take(self.hub.client_loops) {
            let _ = self.sessions.push(mailbox.sessions(self.hub.rt));
        }
        fewest(self.sessions.as_slice())
    }

    /// Deals a connection to the loop that has the fewest, which serves it or tells it that there is no room; or drops it.
    fn deal(&mut self, stream: TcpStream) {
        let _ = stream.set_nodelay(true);
        let mail = match self.hub.admit() {
            Entry::Admitted => Mail::New(stream),
            Entry::Refused => Mail::Refused(stream),
            Entry::Dropped => return,
        };
        let number = self.least_busy();
        self.hand_in(number, mail);
    }

    /// Hands a connection that was let in to the loop of that number. One for which that has no room is closed.
    fn hand_in(&self, number: usize, mail: Mail) {
        let Some(mailbox) = self.hub.boxes.get(number) else {
            return;
        };
        let is_refused = matches!(mail, Mail::Refused(_));
        mailbox.begin_session(self.hub.rt);
        if mailbox.put(self.hub.rt, mail).is_err() {
            mailbox.end_session(self.hub.rt);
            self.hub.let_out(number, is_refused);
        }
    }

    /// Hands a connection of an operator to their loop, unless too many are open, or no more are accepted: then it is closed.
    fn deal_operator(&self, stream: TcpStream) {
        let _ = stream.set_nodelay(true);
        if self.hub.admit_operator() {
            self.hand_in(self.hub.client_loops, Mail::New(stream));
        }
    }

    /// The milliseconds since the door was opened; 0 where the clock can't be read.
    fn now(&self) -> u64 {
        match self.began.elapsed(self.hub.rt) {
            Ok(time) => u64::try_from(time.as_millis()).unwrap_or(u64::MAX),
            Err(_) => 0,
        }
    }

    /// Whether a further connection is wanted.
    fn is_open(&self) -> bool {
        self.hub.counts().is_open()
    }

    /// Whether the last poll told that the input has ended.
    fn has_input_ended(&self) -> bool {
        for event in &self.events {
            if event.token() == INPUT && event.is_read_closed() {
                return true;
            }
        }
        false
    }

    /// Accepts what waits, at most `MOST_ACCEPTS`, and tells whether more may wait. An error where accepting has failed for good.
    fn accept_all(&mut self) -> Result<bool, ()> {
        for _accept in 0..MOST_ACCEPTS {
            if !self.is_open() {
                return Ok(false);
            }
            match accept(&self.listener) {
                Accepted::One(stream) => self.deal(stream),
                Accepted::Later => return Ok(false),
                Accepted::Failed => return Err(()),
            }
        }
        Ok(true)
    }

    /// Accepts the connections of operators that wait, at most `MOST_ACCEPTS`, and tells whether more may wait. An error where accepting them has failed for good: clients
    /// are served on.
    fn accept_operators(&self) -> Result<bool, ()> {
        let Some(operators) = &self.operators else {
            return Ok(false);
        };
        for _accept in 0..MOST_ACCEPTS {
            match accept(operators) {
                Accepted::One(stream) => self.deal_operator(stream),
                Accepted::Later => return Ok(false),
                Accepted::Failed => return Err(()),
            }
        }
        Ok(true)
    }

    /// Waits for connections, and accepts them.
    fn round(&mut self) -> Result<(), ()> {
        let time = Duration::from_millis(if self.is_behind { 0 } else { TICK_MS });
        if self.poll.poll(&mut self.events, Some(time)).is_err() {
            return Err(());
        }
        if self.has_input_ended() {
            self.hub.stop();
        }
        let accepted = self.accept_all();
        self.hub.tell_refusals(self.now());
        self.is_behind = accepted?;
        match self.accept_operators() {
            Ok(more) => self.is_behind = self.is_behind || more,
            Err(()) => {
                self.operators = None;
                if takes_line_now() {
                    Message::NoOperators.tell(self.hub.rt);
                }
            }
        }
        Ok(())
    }

    /// Once no more are accepted, sees to the end of the input until the loops have ended.
    fn see_out(&mut self) {
        let time = Duration::from_millis(TICK_MS);
        for _ in self.hub.rt.forever() {
            let is_over = !self.has_input || self.hub.counts().loops == 0;
            if is_over || self.poll.poll(&mut self.events, Some(time)).is_err() {
                return;
            }
            if self.has_input_ended() {
                self.hub.stop();
                return;
            }
        }
    }

    /// Accepts connections until as many came as are wanted, or accepting has failed for good.
    pub(crate) fn run(&mut self) {
        let mut has_failed = false;
        for _ in self.hub.rt.forever() {
            if has_failed || !self.is_open() {
                break;
            }
            has_failed = self.round().is_err();
        }
        self.hub.close_door(has_failed);
        self.see_out();
    }
}
