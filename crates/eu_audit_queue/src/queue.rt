//! The queue of a peer.
ghost use Rattle.std.specs.Prelude.{◌≡◌, ◌↔◌, if◌then◌else◌, Some, None, Ok, IfOk, OnOk, IsTrue};
ghost use Rattle.eu_model.specs.Server.{drained, drain_fault, landed, landed_fault, lost, lost_fault, with_task};
ghost use Rattle.eu_base.specs.declared.faults.Fault.{Fault};
ghost use Rattle.eu_audit_queue.specs.PlainQueue.{is_plain_queue};

use crate::plain::are_plain;
use crate::waiting::Waiting;
use eu_base::{Codes, Fault, MOST_SENT, Moment, Task, Tasks};
use eu_model::Queue;
use std::alloc::{AllocError, Global};
use std::marker::Model;

/// The queue of a peer, replayed: the tasks that wait, first to last, and the batch in flight. A call takes a logarithm of what waits
/// for each task that it puts, sends, gives back or drops. Contracts see the queue.
///
/// Each call that gives `AllocError` leaves the queue open: it is some queue, and not to be asked further.
#[derive(Debug, Drop)]
pub struct PeerQueue {
    waiting: Waiting,
    flight: Tasks,
}

impl Model for PeerQueue {
    ghost use Rattle.std.specs.Prelude.{◌≡◌, true};
    ghost use Rattle.eu_model.specs.declared.queues.Queue.{Queue};
    ghost use Rattle.eu_model.specs.contracts.queues.Queue as queue;
    ghost use Rattle.eu_audit_queue.specs.PlainQueue.{are_apart};

    ghost Value = { Queue };

    ghost coded = { queue.the_row.coded };

    ghost view = { λ q. record { waiting = q.waiting; flight = q.flight } };

    ghost invariant = { λ q. are_apart q.flight ≡ true };
}

impl PeerQueue {
    /// That queue. None where it is no plain form: more than 10,000 tasks wait, more than 250 are in flight, two tasks that wait or
    /// two in flight have one name, or a task hasn't just what its action has. `AllocError` where no memory is left.
    pub fn read(alloc: Global, queue: &Queue) -> Result<Option<PeerQueue>, AllocError>
        ensures { IfOk result (λ found. found ≡ (if is_plain_queue queue.now then Some queue.now else None)) }
    {
        let flight = queue.flight.as_slice();
        if flight.len() > MOST_SENT || !are_plain(flight) || !are_plain(queue.waiting.as_slice()) {
            return Ok(None);
        }
        if Waiting::read(alloc, flight)?.is_none() {
            return Ok(None);
        }
        let flight = queue.flight.copy(alloc)?;
        match Waiting::read(alloc, queue.waiting.as_slice())? {
            Some(waiting) => Ok(Some(PeerQueue { waiting, flight })),
            None => Ok(None),
        }
    }

    /// Puts a copy of a task in the place of the one of its name that waits, else last; where 10,000 wait, the first is dropped then.
    /// `AllocError` where no memory is left.
    pub fn put(&mut self, alloc: Global, task: &Task) -> Result<(), AllocError>
        ensures { OnOk result (self.new ≡ with_task (Some task.now) self.old) }
    {
        self.waiting.put(alloc, task.copy(alloc)?)
    }

    /// Puts the first 250 tasks that wait, and were queued no more than 30 s before the moment, in flight, and drops those that are
    /// older.
    ///
    /// None where that was done. `Busy` exactly where a batch is in flight, else `EmptyBatch` exactly where no such task waits;
    /// nothing has changed then. `AllocError` where no memory is left.
    pub fn drain(&mut self, alloc: Global, moment: Moment) -> Result<Option<Fault>, AllocError>
        ensures fault { IfOk result (λ fault. fault ≡ drain_fault moment self.old) }
        ensures drained { result ≡ Ok None → self.new ≡ drained moment self.old }
        ensures refused { (fault : Fault) → result ≡ Ok (Some fault) → self.new ≡ self.old }
    {
        if !self.flight.as_slice().is_empty() {
            return Ok(Some(Fault::Busy));
        }
        if !self.waiting.any_live(moment) {
            return Ok(Some(Fault::EmptyBatch));
        }
        self.flight = Tasks::new(self.waiting.send(alloc, moment)?);
        Ok(None)
    }

    /// Ends the batch in flight, which was answered by these codes: each heartbeat that was answered 404 is followed by a registration
    /// of its instance, queued at the moment, unless one waits.
    ///
    /// None where that was done. `NoFlight` exactly where no batch is in flight, else `CountDiffers` exactly where the codes aren't as
    /// many as its tasks; nothing has changed then. `AllocError` where no memory is left.
    pub fn land(
        &mut self,
        alloc: Global,
        moment: Moment,
        codes: &Codes,
    ) -> Result<Option<Fault>, AllocError>
        ensures fault { IfOk result (λ fault. fault ≡ landed_fault codes.now self.old) }
        ensures landed { result ≡ Ok None → self.new ≡ landed moment codes.now self.old }
        ensures refused { (fault : Fault) → result ≡ Ok (Some fault) → self.new ≡ self.old }
    {
        let batch = self.flight.as_slice();
        let codes = codes.as_slice();
        if batch.is_empty() {
            return Ok(Some(Fault::NoFlight));
        }
        if codes.len() != batch.len() {
            return Ok(Some(Fault::CountDiffers));
        }
        self.waiting.answer_all(alloc, batch, codes, moment)?;
        self.flight = Tasks::new(Vec::new(alloc));
        Ok(None)
    }

    /// Gives up the batch in flight: those of its tasks that were queued no more than 30 s before the moment, and of whose name none
    /// waits, wait again, before the others; the first of all are dropped until 10,000 wait.
    ///
    /// None where that was done. `NoFlight` exactly where no batch is in flight; nothing has changed then. `AllocError` where no
    /// memory is left.
    pub fn lose(&mut self, alloc: Global, moment: Moment) -> Result<Option<Fault>, AllocError>
        ensures fault { IfOk result (λ fault. fault ≡ lost_fault self.old) }
        ensures lost { result ≡ Ok None → self.new ≡ lost moment self.old }
        ensures refused { (fault : Fault) → result ≡ Ok (Some fault) → self.new ≡ self.old }
    {
        let batch = self.flight.as_slice();
        if batch.is_empty() {
            return Ok(Some(Fault::NoFlight));
        }
        self.waiting.give_back(alloc, batch, moment)?;
        self.flight = Tasks::new(Vec::new(alloc));
        Ok(None)
    }

    /// The tasks in flight. Takes no memory.
    pub fn flight(&self) -> &Tasks
        ensures { result.now ≡ self.now.flight }
    {
        &self.flight
    }

    /// Whether it is that queue. Takes no memory.
    pub fn same(&self, queue: &Queue) -> bool
        ensures { IsTrue result ↔ (self.now ≡ queue.now) }
    {
        self.waiting.same(&queue.waiting) && self.flight.same(&queue.flight)
    }
}
