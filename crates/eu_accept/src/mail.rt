//! What a loop is handed by other threads.
ghost use Rattle.std.specs.Prelude.{◌≡◌, ◌+◌, ◌-◌, ◌^◌, ◌==◌, if◌then◌else◌, min};

use eu_hall::{Left, Visit};
use eu_session::Talk;
use mio::Waker;
use mio::net::TcpStream;
use std::alloc::{AllocError, Global};
use std::mem;
use std::sync::{Mutex, Wait};

/// What a loop is handed.
#[derive(Drop)]
pub(crate) enum Mail {
    /// A connection that has come.
    New(TcpStream),
    /// One for which there is no room, and which is to be told so.
    Refused(TcpStream),
    /// One that was at the pool, and how that left it.
    Back(Visit<TcpStream, Talk>, Left),
}

/// The sessions that a loop was dealt.
#[derive(Clone, Copy, Debug)]
struct Sessions {
    /// How many aren't over.
    running: u32,
    /// How many are over that the loop doesn't know of yet.
    ended_early: u32,
}

impl Sessions {
    /// None.
    fn none() -> Sessions
        ensures { result ≡ record { running = 0; ended_early = 0 } }
    {
        Sessions {
            running: 0,
            ended_early: 0,
        }
    }

    /// Counts one that begins.
    fn begin(&mut self)
        ensures { self.new ≡ record self.old { running = min (self.old.running + 1) (2 ^ 32 - 1) } }
    {
        self.running = self.running.saturating_add(1);
    }

    /// Counts one out that is over, before the loop knows.
    fn end_early(&mut self)
        ensures { self.new ≡ record { running = self.old.running - 1; ended_early = min (self.old.ended_early + 1) (2 ^ 32 - 1) } }
    {
        self.running = self.running.saturating_sub(1);
        self.ended_early = self.ended_early.saturating_add(1);
    }

    /// Notes that the loop knows of one that is over, which is counted out unless one was before.
    fn end(&mut self)
        ensures { self.new ≡ (if self.old.ended_early == 0 then record self.old { running = self.old.running - 1 } else record self.old { ended_early = self.old.ended_early - 1 }) }
    {
        if self.ended_early == 0 {
            self.running = self.running.saturating_sub(1);
        } else {
            self.ended_early -= 1;
        }
    }
}

/// Where a loop is handed something. Its waker ends the loop's wait.
#[derive(Drop)]
pub struct Mailbox {
    mail: Mutex<Vec<Mail>>,
    sessions: Mutex<Sessions>,
    waker: Waker,
}

impl Mailbox {
    /// An empty one, with room for so much mail.
    pub fn new(alloc: Global, most: usize, waker: Waker) -> Result<Mailbox, AllocError> {
        Ok(Mailbox {
            mail: Mutex::new(Vec::with_capacity(alloc, most)?),
            sessions: Mutex::new(Sessions::none()),
            waker,
        })
    }

    /// Hands something in. The loop is woken where there was nothing before. Where there is no room for it, it is dropped.
    pub(crate) fn put<R: Wait>(&self, rt: &R, mail: Mail) -> Result<(), AllocError> {
        let was_empty = {
            let mut held = self.mail.lock(rt);
            let was_empty = held.is_empty();
            held.push(mail)?;
            was_empty
        };
        if was_empty {
            self.wake();
        }
        Ok(())
    }

    /// How many connections the loop was dealt whose sessions aren't over.
    pub(crate) fn sessions<R: Wait>(&self, rt: &R) -> u32 {
        self.sessions.lock(rt).running
    }

    /// Counts a connection that the loop is dealt.
    pub(crate) fn begin_session<R: Wait>(&self, rt: &R) {
        self.sessions.lock(rt).begin();
    }

    /// Counts one out whose session is over, before its last response is sent: the loop calls `end_session` for it later.
    pub(crate) fn end_early<R: Wait>(&self, rt: &R) {
        self.sessions.lock(rt).end_early();
    }

    /// Counts one out whose session is over, unless `end_early` did.
    pub(crate) fn end_session<R: Wait>(&self, rt: &R) {
        self.sessions.lock(rt).end();
    }

    /// Takes all out, in place of an empty list.
    pub(crate) fn take<R: Wait>(&self, rt: &R, into: &mut Vec<Mail>) {
        let mut held = self.mail.lock(rt);
        mem::swap(&mut *held, into);
    }

    /// Ends the loop's wait.
    pub(crate) fn wake(&self) {
        let _ = self.waker.wake();
    }
}
