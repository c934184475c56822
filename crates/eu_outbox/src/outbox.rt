//! The outbox of a peer.
ghost use Rattle.std.specs.Prelude.{◌≡◌, ◌+◌, ◌<◌, ◌≤◌, [], length, replicate, reverse, take, vec_len, IsOk, IfOk, IfErr, OnOk, OnErr};
ghost use Rattle.eu_model.specs.Answers.{IsRefusal};
ghost use Rattle.eu_model.specs.Server.{idle, again, after_codes, after_code, live, put, drained, drain_fault, landed, landed_fault, lost, lost_fault};

use crate::waiting::{Line, parts};
use eu_base::{Action, Fault, MOST_SENT, MOST_WAITING, Moment, Task, Tasks};
use eu_hash::HashKey;
use eu_model::Queue;
use std::alloc::{AllocError, Global};
use std::marker::Model;

/// The tasks that wait for a peer, and the batch that is in flight to it. Contracts see both lists, and how many more tasks can be
/// put without taking memory (`AcceptorExecutor` in Eureka).
#[derive(Debug, Drop)]
pub struct Outbox {
    waiting: Line,
    flight: Vec<Task>,
}

impl Model for Outbox {
    ghost use Rattle.std.specs.Prelude.{length, ◌≤◌};
    ghost use Rattle.eu_outbox.specs.Boxed.{Boxed, coded_boxed};

    ghost Value = { Boxed };

    ghost coded = { coded_boxed };

    ghost use Rattle.eu_outbox.specs.Steps.{IsApart};
    ghost use Rattle.eu_base.specs.Limits.{most_waiting};

    ghost view = { λ o. record { queue = record { waiting = o.waiting.tasks; flight = o.flight.items }; room = o.waiting.room } };

    ghost invariant = { λ o. (length o.waiting.tasks ≤ most_waiting) × IsApart o.flight.items };
}

impl Outbox {
    /// No task; the tasks' names are to be hashed by that key. Takes no memory.
    pub fn new(alloc: Global, hash_key: HashKey) -> Outbox
        ensures { result.queue ≡ idle }
    {
        Outbox {
            waiting: Line::new(alloc, hash_key),
            flight: Vec::new(alloc),
        }
    }

    /// What waits and what is in flight, as plain data. `AllocError` where no memory is left.
    pub fn queue(&self, alloc: Global) -> Result<Queue, AllocError>
        ensures { IfOk result (λ queue. queue ≡ self.now.queue) }
    {
        Ok(Queue {
            waiting: Tasks::new(self.waiting.tasks(alloc)?),
            flight: Tasks::new(copies(alloc, self.flight.as_slice())?),
        })
    }

    /// Makes room for a task, so that it can be put without taking memory. `AllocError` where no memory is left. Neither changes
    /// a task.
    pub fn reserve(&mut self) -> Result<(), AllocError>
        ensures queue { self.new.queue ≡ self.old.queue }
        ensures ready { OnOk result (0 < self.new.room) }
    {
        self.waiting.reserve(1)
    }

    /// Puts a task, queued at the moment: in the place of the one of its name that waits, else last; where 10,000 wait, the first
    /// is dropped then. `AllocError` where there was no room and no memory is left; it changes nothing.
    pub fn put(&mut self, mut task: Task, moment: Moment) -> Result<(), AllocError>
        ensures put { OnOk result (self.new.queue ≡ record self.old.queue { waiting = put (record task { queued = moment }) self.old.queue.waiting }) }
        ensures err { OnErr result (self.new.queue ≡ self.old.queue) }
        ensures succeeds { 0 < self.old.room → IsOk result }
    {
        self.waiting.reserve(1)?;
        task.queued = moment;
        let (name, waiting) = parts(task);
        self.waiting.put(name, waiting);
        Ok(())
    }

    /// Why no batch can go in flight at the moment, if none can: `Busy` where one is in flight, else `EmptyBatch` where no task waits
    /// that was queued no more than 30 s before. Takes no memory.
    pub fn drain_refusal(&self, moment: Moment) -> Option<Fault>
        ensures { result ≡ drain_fault moment self.now.queue }
    {
        if !self.flight.is_empty() {
            return Some(Fault::Busy);
        }
        if !self.waiting.any_live(moment) {
            return Some(Fault::EmptyBatch);
        }
        None
    }

    /// Why the batch in flight can't have been answered by these HTTP statuses, if it can't: `NoFlight` where none is in flight, else
    /// `CountDiffers` where the statuses aren't as many as its tasks. Takes no memory.
    pub fn landed_refusal(&self, codes: &[u16]) -> Option<Fault>
        ensures { result ≡ landed_fault codes.now self.now.queue }
    {
        if self.flight.is_empty() {
            return Some(Fault::NoFlight);
        }
        if codes.len() != self.flight.len() {
            return Some(Fault::CountDiffers);
        }
        None
    }

    /// Why no batch can be lost, if none can: `NoFlight` where none is in flight. Takes no memory.
    pub fn lost_refusal(&self) -> Option<Fault>
        ensures { result ≡ lost_fault self.now.queue }
    {
        if self.flight.is_empty() {
            Some(Fault::NoFlight)
        } else {
            None
        }
    }

    /// Puts the first 250 tasks that wait, and were queued no more than 30 s before the moment, in flight, and gives so many
    /// batches of them, all equal; those that are older are dropped.
    ///
    /// Refused with `Busy` exactly where a batch is in flight, else with `EmptyBatch` exactly where no such task waits, else with
    /// `OutOfMemory`. A refusal changes nothing; the first two take no memory.
    pub fn drain(&mut self, alloc: Global, moment: Moment, copies: u32) -> Result<Vec<Tasks>, Fault>
        ensures drained { OnOk result (self.new.queue ≡ drained moment self.old.queue) }
        ensures batches { IfOk result (λ batches. batches.items ≡ replicate copies self.new.queue.flight) }
        ensures fault { OnOk result (drain_fault moment self.old.queue ≡ None) }
        ensures refused { IfErr result (IsRefusal (drain_fault moment self.old.queue)) }
        ensures err { OnErr result (self.new.queue ≡ self.old.queue) }
    {
        if let Some(fault) = self.drain_refusal(moment) {
            return Err(fault);
        }
        let batches = batches(alloc, &self.waiting, moment, copies)?;
        self.flight.reserve(MOST_SENT)?;
        self.waiting.keep_live(moment);
        self.waiting.send(&mut self.flight);
        Ok(batches)
    }

    /// The batch in flight has landed: the peer answered its tasks by these HTTP statuses, in their order. Each heartbeat that was
    /// answered 404 is followed by a registration of its instance, queued now, unless one of its key waits.
    ///
    /// Refused with `NoFlight` exactly where no batch is in flight, else with `CountDiffers` exactly where the statuses aren't as
    /// many as its tasks, else with `OutOfMemory`. A refusal changes nothing; the first two take no memory.
    pub fn landed(&mut self, codes: &[u16], moment: Moment) -> Result<(), Fault>
        ensures landed { OnOk result (self.new.queue ≡ landed moment codes.now self.old.queue) }
        ensures fault { OnOk result (landed_fault codes.now self.old.queue ≡ None) }
        ensures refused { IfErr result (IsRefusal (landed_fault codes.now self.old.queue)) }
        ensures err { OnErr result (self.new.queue ≡ self.old.queue) }
    {
        if let Some(fault) = self.landed_refusal(codes) {
            return Err(fault);
        }
        self.waiting.reserve(codes.len())?;
        self.flight.reverse();
        answer_all(&mut self.waiting, &mut self.flight, codes, moment);
        Ok(())
    }

    /// The batch in flight was lost: those of its tasks that were queued no more than 30 s before the moment, and of whose name none
    /// waits, wait again, before the others; the first of all are dropped until 10,000 wait.
    ///
    /// Refused with `NoFlight` exactly where no batch is in flight, else with `OutOfMemory`. A refusal changes nothing; the first
    /// takes no memory.
    pub fn lost(&mut self, moment: Moment) -> Result<(), Fault>
        ensures lost { OnOk result (self.new.queue ≡ lost moment self.old.queue) }
        ensures fault { OnOk result (lost_fault self.old.queue ≡ None) }
        ensures refused { IfErr result (IsRefusal (lost_fault self.old.queue)) }
        ensures err { OnErr result (self.new.queue ≡ self.old.queue) }
    {
        if let Some(fault) = self.lost_refusal() {
            return Err(fault);
        }
        self.waiting.reserve(self.flight.len())?;
        self.waiting.give_back_all(&mut self.flight, moment);
        self.waiting.bound();
        Ok(())
    }
}

/// The same tasks once more.
fn copies(alloc: Global, tasks: &[Task]) -> Result<Vec<Task>, AllocError>
    ensures { IfOk result (λ copies. copies.items ≡ tasks.now) }
{
    let mut copies = Vec::with_capacity(alloc, tasks.len())?;
    for task in tasks {
        copies.push(task.copy(alloc)?)?;
    }
    Ok(copies)
}

/// So many batches of the first tasks that aren't too old at the moment.
fn batches(
    alloc: Global,
    waiting: &Line,
    moment: Moment,
    copies: u32,
) -> Result<Vec<Tasks>, AllocError>
    ensures { IfOk result (λ batches. batches.items ≡ replicate copies (take MOST_SENT (live moment waiting.now.tasks))) }
{
    let mut batches = Vec::new(alloc);
    for _ in 0..copies {
        batches.push(Tasks::new(waiting.batch(alloc, moment)?))?;
    }
    Ok(batches)
}

/// Puts the registrations that follow the answers to a batch, which is handed last to first.
fn answer_all(waiting: &mut Line, batch: &mut Vec<Task>, codes: &[u16], moment: Moment)
    requires count { length codes.now ≡ vec_len batch.old }
    requires room { length codes.now ≤ waiting.old.room }
    requires few { length waiting.old.tasks ≤ MOST_WAITING }
    ensures tasks { waiting.new.tasks ≡ after_codes moment (reverse batch.old.items) codes.now waiting.old.tasks }
    ensures few { length waiting.new.tasks ≤ MOST_WAITING }
    ensures none { batch.new.items ≡ [] }
{
    for code in codes {
        let Some(task) = batch.pop() else {
            return;
        };
        answer(waiting, task, *code, moment);
    }
}

/// Puts the registration that follows the answer to a task, where one does.
fn answer(waiting: &mut Line, task: Task, code: u16, moment: Moment)
    requires room { 0 < waiting.old.room }
    requires few { length waiting.old.tasks ≤ MOST_WAITING }
    ensures tasks { waiting.new.tasks ≡ after_code moment task code waiting.old.tasks }
    ensures few { length waiting.new.tasks ≤ MOST_WAITING }
    ensures room { waiting.old.room ≤ waiting.new.room + 1 }
{
    if task.action as u8 != Action::Heartbeat as u8 || code != 404 {
        return;
    }
    let (name, again) = parts(again(task, moment));
    if !waiting.has(&name) {
        waiting.put(name, again);
    }
}

/// The registration that follows a heartbeat.
fn again(mut task: Task, moment: Moment) -> Task
    ensures { result ≡ again moment task }
{
    task.action = Action::Register;
    task.status = None;
    task.queued = moment;
    task
}
