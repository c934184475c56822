//! What waits for the pool, and how much it holds.
ghost use Rattle.std.specs.Prelude.{◌≡◌, ◌≤◌, ◌<◌, ◌+◌, ◌↔◌, ◌++◌, ◌∷◌, ◌==◌, [], drop, length, MatchOption, IsOk, IfErr, IfOk, OnErr, OnOk};
ghost use Rattle.eu_accept.specs.Queues.{bytes_of};

use eu_hall::Visit;
use eu_session::Talk;
use mio::net::TcpStream;
use std::alloc::{AllocError, Global};
use std::collections::VecDeque;
use std::marker::Model;

/// A connection for the pool.
#[derive(Drop)]
pub(crate) struct Job {
    /// The number of its loop.
    pub(crate) number: usize,
    /// The connection.
    pub(crate) visit: Visit<TcpStream, Talk>,
    /// How many bytes of memory it holds.
    pub(crate) bytes: usize,
}

/// The connections that wait for the pool, first to last. Contracts see them, for how many there is room, and how many bytes they can hold.
#[derive(Drop)]
pub(crate) struct Queue {
    jobs: VecDeque<Job>,
    most: usize,
    bytes: usize,
    most_bytes: usize,
}

impl Model for Queue {
    ghost use Rattle.std.specs.VecDeque.{deque_capacity};
    ghost use Rattle.eu_accept.specs.Queues.{IsKept, Line};

    ghost Value = { Line };

    ghost view = { λ q. record { waits = q.jobs.items; most = q.most; most_bytes = q.most_bytes } };

    ghost invariant = { λ q. IsKept q.jobs.items (deque_capacity q.jobs) q.most q.bytes q.most_bytes };
}

impl Queue {
    /// One in which nothing waits, with room for so many connections, which hold so many bytes at most. It takes the memory for all; no other call takes
    /// any. `AllocError` where there is too little.
    pub(crate) fn new(alloc: Global, most: usize, most_bytes: usize) -> Result<Queue, AllocError>
        ensures { IfOk result (λ queue. queue ≡ record { waits = []; most = most; most_bytes = most_bytes }) }
    {
        Ok(Queue {
            jobs: VecDeque::with_capacity(alloc, most)?,
            most,
            bytes: 0,
            most_bytes,
        })
    }

    /// Whether nothing waits.
    pub(crate) fn is_empty(&self) -> bool
        ensures { result ≡ (length self.now.waits == 0) }
    {
        self.jobs.is_empty()
    }

    /// Puts a connection behind those that wait.
    ///
    /// Where there is no room for it, or where with it they would hold more bytes than the limit, it is given back, and nothing changes.
    #[tactic(auto, using(crate::proofs::QueueLemmas::bytes_more, crate::proofs::QueueLemmas::length_more))]
    pub(crate) fn put(&mut self, job: Job) -> Result<(), Job>
        ensures fits { IsOk result ↔ ((length self.old.waits < self.old.most) × (bytes_of self.old.waits + job.bytes ≤ self.old.most_bytes)) }
        ensures waits { OnOk result (self.new ≡ record self.old { waits = self.old.waits ++ job ∷ [] }) }
        ensures given { IfErr result (λ given. given ≡ job) }
        ensures kept { OnErr result (self.new ≡ self.old) }
    {
        if self.jobs.len() >= self.most || job.bytes > self.most_bytes - self.bytes {
            return Err(job);
        }
        self.bytes += job.bytes;
        self.jobs.push_back_reserved(job);
        Ok(())
    }

    /// Takes out the connection that waits longest, if one waits.
    #[tactic(auto, using(crate::proofs::QueueLemmas::bytes_less))]
    pub(crate) fn take(&mut self) -> Option<Job>
        ensures first { MatchOption result (self.old.waits ≡ []) (λ job. self.old.waits ≡ job ∷ self.new.waits) }
        ensures rest { self.new ≡ record self.old { waits = drop 1 self.old.waits } }
    {
        let job = self.jobs.pop_front()?;
        self.bytes -= job.bytes;
        Some(job)
    }
}
