//! A server that is replayed: a registry, and the queues of its peers.
ghost use Rattle.std.specs.Prelude.{◌≡◌, ◌↔◌, map as all, IfOk, IfSome, IsTrue, None, Ok, Some, true, false};
ghost use Rattle.eu_model.specs.State.{server_of_state};
ghost use Rattle.eu_audit.specs.PlainForm.{is_plain_form};
ghost use Rattle.eu_model.specs.Server.{with_task};
ghost use Rattle.eu_audit.specs.PlainRuns.{PlainServerStep, Queued};
ghost use Rattle.eu_audit.specs.Verdict.{Judged, IsListed};

use crate::plain::{read_unordered, same_queues};
use crate::registry::Replica;
use crate::tasks::{key_of, task_for};
use eu_audit_queue::PeerQueue;
use eu_base::{Codes, Moment, Task};
use eu_model::{Command, Entry, Reply, State};
use std::alloc::{AllocError, Global};
use std::marker::Model;

/// The queues with a task put into each. `AllocError` where no memory is left.
fn queues_with(
    alloc: Global,
    mut queues: Vec<PeerQueue>,
    task: &Task,
) -> Result<Vec<PeerQueue>, AllocError>
    ensures { IfOk result (λ rest. rest.items ≡ all (with_task (Some task.now)) queues.items) }
{
    let Some(mut last) = queues.pop() else {
        return Ok(queues);
    };
    last.put(alloc, task)?;
    let mut rest = queues_with(alloc, queues, task)?;
    rest.push(last)?;
    Ok(rest)
}

/// The queues with the task of a step put into each, if there is one. `AllocError` where no memory is left.
fn queued(
    alloc: Global,
    queues: Vec<PeerQueue>,
    task: Option<Task>,
) -> Result<Vec<PeerQueue>, AllocError>
    ensures { IfOk result (λ queued. queued.items ≡ all (with_task task) queues.items) }
{
    match task {
        Some(task) => queues_with(alloc, queues, &task),
        None => Ok(queues),
    }
}

/// A server that is replayed. Contracts see its plain form.
#[derive(Debug, Drop)]
pub(crate) struct ServerReplica {
    registry: Replica,
    queues: Vec<PeerQueue>,
}

impl Model for ServerReplica {
    ghost use Rattle.eu_model.specs.Server.{PlainServer};
    ghost use Rattle.eu_model.specs.PlainCode.{coded_server};

    ghost Value = { PlainServer };

    ghost coded = { coded_server };

    ghost view = { λ s. record { registry = s.registry; queues = s.queues.items } };
}

impl ServerReplica {
    /// Judges a step of the registry.
    fn step_registry(
        self,
        alloc: Global,
        entry: &Entry,
    ) -> Result<Option<ServerReplica>, AllocError>
        ensures { IfOk result (Judged (Queued self entry.now.command entry.now.moment entry.now.reply)) }
    {
        let ServerReplica { registry, queues } = self;
        let Some(registry) = registry.step(alloc, entry)? else {
            return Ok(None);
        };
        let command = &entry.command;
        let held = registry.held(key_of(command));
        let task = task_for(alloc, command, entry.moment, &entry.reply, held)?;
        let queues = queued(alloc, queues, task)?;
        Ok(Some(ServerReplica { registry, queues }))
    }

    /// Judges that the next tasks for a peer went in flight.
    fn drain(
        self,
        alloc: Global,
        peer: u32,
        moment: Moment,
        reply: &Reply,
    ) -> Result<Option<ServerReplica>, AllocError>
        ensures { IfOk result (Judged (PlainServerStep self (Command.Drain peer) moment reply.now)) }
    {
        let ServerReplica {
            registry,
            mut queues,
        } = self;
        let (Reply::Batch(sent), Some(queue)) = (reply, queues.get_mut(peer as usize)) else {
            return Ok(None);
        };
        if queue.drain(alloc, moment)?.is_some() {
            return Ok(None);
        }
        if !sent.same(queue.flight()) {
            return Ok(None);
        }
        Ok(Some(ServerReplica { registry, queues }))
    }

    /// Judges that the batch in flight to a peer has landed.
    fn land(
        self,
        alloc: Global,
        peer: u32,
        moment: Moment,
        codes: &Codes,
        reply: &Reply,
    ) -> Result<Option<ServerReplica>, AllocError>
        ensures { IfOk result (Judged (PlainServerStep self (Command.Landed peer codes.now) moment reply.now)) }
    {
        let ServerReplica {
            registry,
            mut queues,
        } = self;
        let (Reply::Settled, Some(queue)) = (reply, queues.get_mut(peer as usize)) else {
            return Ok(None);
        };
        if queue.land(alloc, moment, codes)?.is_some() {
            return Ok(None);
        }
        Ok(Some(ServerReplica { registry, queues }))
    }

    /// Judges that the batch in flight to a peer was lost.
    fn lose(
        self,
        alloc: Global,
        peer: u32,
        moment: Moment,
        reply: &Reply,
    ) -> Result<Option<ServerReplica>, AllocError>
        ensures { IfOk result (Judged (PlainServerStep self (Command.Lost peer) moment reply.now)) }
    {
        let ServerReplica {
            registry,
            mut queues,
        } = self;
        let (Reply::Settled, Some(queue)) = (reply, queues.get_mut(peer as usize)) else {
            return Ok(None);
        };
        if queue.lose(alloc, moment)?.is_some() {
            return Ok(None);
        }
        Ok(Some(ServerReplica { registry, queues }))
    }

    /// Judges an entry.
    pub(crate) fn step(
        self,
        alloc: Global,
        entry: &Entry,
    ) -> Result<Option<ServerReplica>, AllocError>
        ensures { IfOk result (Judged (PlainServerStep self entry.now.command entry.now.moment entry.now.reply)) }
    {
        let moment = entry.moment;
        let reply = &entry.reply;
        match &entry.command {
            Command::Drain { peer } => self.drain(alloc, *peer, moment, reply),
            Command::Landed { peer, codes } => self.land(alloc, *peer, moment, codes, reply),
            Command::Lost { peer } => self.lose(alloc, *peer, moment, reply),
            _ => self.step_registry(alloc, entry),
        }
    }

    /// The server of plain data, where that is a plain form. `AllocError` where no memory is left.
    pub(crate) fn read(alloc: Global, state: &State) -> Result<Option<ServerReplica>, AllocError>
        ensures some { IfOk result (λ found. IfSome found (λ s. (s ≡ server_of_state state.now) × (is_plain_form state.now ≡ true))) }
        ensures none { result ≡ Ok None → is_plain_form state.now ≡ false }
    {
        let Some(queues) = read_unordered(alloc, state)? else {
            return Ok(None);
        };
        let Some(registry) = Replica::read(alloc, state)? else {
            return Ok(None);
        };
        Ok(Some(ServerReplica { registry, queues }))
    }

    /// Whether plain data lists it.
    pub(crate) fn is_listed(&self, state: &State) -> bool
        ensures { IsTrue result ↔ (IsListed self.now.registry state.now × (self.now.queues ≡ state.now.queues)) }
    {
        self.registry.is_listed(state)
            && same_queues(self.queues.as_slice(), state.queues.as_slice())
    }
}
