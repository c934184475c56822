//! A state as far as it was read.
ghost use Rattle.std.specs.Prelude.{◌≡◌, ◌++◌, IfOk, None, Some, option_to_list};
ghost use Rattle.eu_journal_values.specs.Answered.{Gives};
ghost use Rattle.eu_model.specs.Server.{idle};
ghost use Rattle.eu_journal_read.specs.Drafts.{begun, flies_more, has_no_peers, state_more, state_of, waits_more};

use eu_base::{Id, Status, Task, Tasks};
use eu_journal::{Head, JournalLine};
use eu_journal_values::LineFault;
use eu_model::{Listed, Listing, OverrideRows, Queue, Queues, State};
use std::alloc::{AllocFailed, Global};
use std::marker::Model;

/// What a peer is to be told, as far as it was read. Contracts see the queue.
#[derive(Drop)]
pub struct QueueDraft {
    waiting: Vec<Task>,
    flight: Vec<Task>,
}

impl Model for QueueDraft {
    ghost use Rattle.eu_model.specs.declared.queues.Queue.{Queue};
    ghost use Rattle.eu_model.specs.contracts.queues.Queue as queue;

    ghost Value = { Queue };

    ghost coded = { queue.the_row.coded };

    ghost view = { λ q. record { waiting = q.waiting.items; flight = q.flight.items } };
}

impl QueueDraft {
    /// Nothing. Takes no memory.
    fn new(alloc: Global) -> QueueDraft
        ensures { result ≡ idle }
    {
        QueueDraft {
            waiting: Vec::new(alloc),
            flight: Vec::new(alloc),
        }
    }

    /// One task more that waits. `NotALine` where a task is in flight already; `OutOfMemory`.
    fn wait(mut self, task: Task) -> Result<QueueDraft, LineFault>
        ensures { Gives result (waits_more (Some self) task) }
    {
        if !self.flight.is_empty() {
            return Err(LineFault::NotALine);
        }
        self.waiting.push(task)?;
        Ok(self)
    }

    /// One task more in flight. `OutOfMemory`.
    fn fly(mut self, task: Task) -> Result<QueueDraft, LineFault>
        ensures { Gives result (flies_more (Some self) task) }
    {
        self.flight.push(task)?;
        Ok(self)
    }

    /// The queue. Takes no memory.
    fn finish(self) -> Queue
        ensures { result ≡ self }
    {
        Queue {
            waiting: Tasks::new(self.waiting),
            flight: Tasks::new(self.flight),
        }
    }
}

/// A state as far as it was read. Contracts see its parts.
#[derive(Drop)]
pub struct StateDraft {
    head: Head,
    leases: Vec<Listed>,
    overrides: Vec<(Id, Status)>,
    queues: Vec<Queue>,
    newest: Option<QueueDraft>,
}

impl Model for StateDraft {
    ghost use Rattle.eu_journal_read.specs.Drafts.{Draft};
    ghost use Rattle.std.specs.Coded.{codes};
    ghost use Rattle.eu_base.specs.contracts.statuses.Status as status;
    ghost use Rattle.eu_journal.specs.contracts.lines.Head as head_line;
    ghost use Rattle.eu_model.specs.contracts.queues.Queue as queue;
    ghost use Rattle.eu_model.specs.contracts.views.Listed as listed;

    ghost Value = { Draft };

    ghost coded = { Prim.hlevel (codes, head_line.the_row.coded, listed.the_row.coded, queue.the_row.coded, status.the_row.coded) };

    ghost view = { λ d. record { head = d.head; leases = d.leases.items; overrides = d.overrides.items; queues = d.queues.items; newest = d.newest } };
}

impl StateDraft {
    /// After the first line. Takes no memory.
    pub fn new(alloc: Global, head: Head) -> StateDraft
        ensures { result ≡ begun head }
    {
        StateDraft {
            head,
            leases: Vec::new(alloc),
            overrides: Vec::new(alloc),
            queues: Vec::new(alloc),
            newest: None,
        }
    }

    /// Whether no peer has begun.
    fn has_no_peers(&self) -> bool
        ensures { result ≡ has_no_peers self.now }
    {
        self.queues.is_empty() && self.newest.is_none()
    }

    /// One lease more. `NotALine` where a row or a peer came; `OutOfMemory`.
    fn lease(mut self, listed: Listed) -> Result<StateDraft, LineFault>
        ensures { Gives result (state_more self (JournalLine.Lease listed)) }
    {
        if !self.overrides.is_empty() || !self.has_no_peers() {
            return Err(LineFault::NotALine);
        }
        self.leases.push(listed)?;
        Ok(self)
    }

    /// One row more. `NotALine` where a peer came; `OutOfMemory`.
    fn row(mut self, id: Id, status: Status) -> Result<StateDraft, LineFault>
        ensures { Gives result (state_more self (JournalLine.Row id status)) }
    {
        if !self.has_no_peers() {
            return Err(LineFault::NotALine);
        }
        self.overrides.push((id, status))?;
        Ok(self)
    }

    /// Puts the newest peer behind the others, where there is one. `AllocFailed` where no memory is left.
    fn settle(self) -> Result<StateDraft, AllocFailed<Queue>>
        ensures { IfOk result (λ d. d ≡ record self { queues = self.queues ++ option_to_list self.newest; newest = None }) }
    {
        let mut settled = self;
        if let Some(queue) = settled.newest.take() {
            settled.queues.push(queue.finish())?;
        }
        Ok(settled)
    }

    /// One peer more. `OutOfMemory`.
    fn peer(self, alloc: Global) -> Result<StateDraft, LineFault>
        ensures { Gives result (state_more self JournalLine.Peer) }
    {
        let mut settled = self.settle()?;
        settled.newest = Some(QueueDraft::new(alloc));
        Ok(settled)
    }

    /// One task more that waits for the newest peer. `NotALine` where there is none, or a task is in flight to it already; `OutOfMemory`.
    fn waiting(mut self, task: Task) -> Result<StateDraft, LineFault>
        ensures { Gives result (state_more self (JournalLine.Waiting task)) }
    {
        let queue = self.newest.take().ok_or(LineFault::NotALine)?;
        self.newest = Some(queue.wait(task)?);
        Ok(self)
    }

    /// One task more in flight to the newest peer. `NotALine` where there is none; `OutOfMemory`.
    fn flight(mut self, task: Task) -> Result<StateDraft, LineFault>
        ensures { Gives result (state_more self (JournalLine.Flight task)) }
    {
        let queue = self.newest.take().ok_or(LineFault::NotALine)?;
        self.newest = Some(queue.fly(task)?);
        Ok(self)
    }

    /// One line more. `NotALine` where it can't follow; `OutOfMemory`.
    pub fn more(self, alloc: Global, line: JournalLine) -> Result<StateDraft, LineFault>
        ensures { Gives result (state_more self line) }
    {
        match line {
            JournalLine::Lease(listed) => self.lease(listed),
            JournalLine::Row { id, status } => self.row(id, status),
            JournalLine::Peer => self.peer(alloc),
            JournalLine::Waiting(task) => self.waiting(task),
            JournalLine::Flight(task) => self.flight(task),
            _ => Err(LineFault::NotALine),
        }
    }

    /// The state. `AllocFailed` where no memory is left.
    pub fn finish(self) -> Result<State, AllocFailed<Queue>>
        ensures { IfOk result (λ s. s ≡ state_of self) }
    {
        let settled = self.settle()?;
        let head = settled.head;
        Ok(State {
            config: head.config,
            expected: head.expected,
            leases: Listing::new(settled.leases),
            overrides: OverrideRows::new(settled.overrides),
            last: head.last,
            since: head.since,
            previous: head.previous,
            queues: Queues::new(settled.queues),
        })
    }
}
