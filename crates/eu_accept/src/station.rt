//! Where a worker of a server gets its connections from.
ghost use Rattle.std.specs.Prelude.{◌≡◌, true, false};
ghost use Rattle.eu_accept.specs.Stations.{visits_connections};

use crate::door::Door;
use crate::hub::Hub;
use crate::loops::Loop;
use crate::mail::Mail;
use crate::pool::{HandName, at_pool};
use crate::queue::Job;
use eu_hall::{Left, Visit};
use eu_session::Talk;
use eu_workers::Incoming;
use mio::net::TcpStream;
use std::sync::Wait;
use std::time::Clock;

/// A thread of the pool, which has at most one connection, and the number of its loop.
#[derive(Drop)]
pub struct Hand<'a, R: Wait + Clock> {
    hub: &'a Hub<'a, R>,
    name: HandName,
    number: usize,
}

impl<'a, R: Wait + Clock> Hand<'a, R> {
    /// One that has no connection.
    pub fn new(hub: &'a Hub<'a, R>, name: HandName) -> Hand<'a, R> {
        Hand {
            hub,
            name,
            number: 0,
        }
    }

    /// Takes a connection, and tells how it is to be visited.
    fn begin(&mut self, job: Job) -> Visit<TcpStream, Talk>
        ensures number { self.new.number ≡ job.number }
        ensures visit { result ≡ record job.visit { most_turns = 1; leaves_long = false; reads_on = false; sends_on = true } }
    {
        self.number = job.number;
        at_pool(job.visit)
    }

    fn next(&mut self) -> Option<Visit<TcpStream, Talk>> {
        let job = self.hub.pool.next(self.hub.rt, self.name)?;
        Some(self.begin(job))
    }

    fn take_back(&mut self, visit: Visit<TcpStream, Talk>, left: Left) {
        let mut visit = visit;
        visit.guest.unsent.release();
        if let Some(mailbox) = self.hub.boxes.get(self.number) {
            let _ = mailbox.put(self.hub.rt, Mail::Back(visit, left));
        }
    }
}

/// What a worker of a server's sessions does.
#[derive(Drop)]
pub enum Station<'a, R: Wait + Clock> {
    /// Accepts connections, and visits none.
    Door(Door<'a, R>),
    /// Visits the connections of a loop.
    Loop(Loop<'a, R>),
    /// Visits connections whose next request takes long.
    Pool(Hand<'a, R>),
}

impl<'a, R: Wait + Clock> Station<'a, R> {
    /// Whether it visits connections, so that its worker asks the book.
    pub fn visits(&self) -> bool
        ensures { result ≡ visits_connections self.now }
    {
        match self {
            Station::Door(_) => false,
            Station::Loop(_) => true,
            Station::Pool(_) => true,
        }
    }
}

impl<'a, R: Wait + Clock + Eprint> Incoming for Station<'a, R> {
    type Socket = TcpStream;

    fn next(&mut self) -> Option<Visit<TcpStream, Talk>> {
        match self {
            Station::Door(door) => {
                door.run();
                None
            }
            Station::Loop(one) => one.next(),
            Station::Pool(hand) => hand.next(),
        }
    }

    fn take_back(&mut self, visit: Visit<TcpStream, Talk>, left: Left) {
        match self {
            Station::Door(_) => drop(visit),
            Station::Loop(one) => one.take_back(visit, left),
            Station::Pool(hand) => hand.take_back(visit, left),
        }
    }
}
