//! The outboxes of the peers.
ghost use Rattle.std.specs.Prelude.{◌≡◌, ◌≤◌, Bool, List, [], All, Err, Ok, Option, length, map, option_map, replicate, slice_get, vec_len, IfOk, IfErr, OnOk, OnErr};
ghost use Rattle.std.specs.Vec.{vec_capacity};
ghost use Rattle.eu_base.specs.declared.instances.Instance.{Instance};
ghost use Rattle.eu_base.specs.declared.tasks.Task.{Task};
ghost use Rattle.eu_core.specs.Stepped.{copies_of};
ghost use Rattle.eu_model.specs.Server.{idle, task_for, with_task};
ghost use Rattle.eu_core.specs.Answered.{replies_for, IsAnswered};
ghost use Rattle.eu_book.specs.Account.{queues_fault};
ghost use Rattle.eu_book.specs.Peers.{queues_of, IsReady, QueuesAnswer, told_key};

use crate::tasks::task_for;
use eu_base::{Codes, Fault, Key, MOST_PEERS, Moment, SharedInstance, Tasks};
use eu_core::{Answered, replies_for};
use eu_hash::HashKey;
use eu_model::{Command, Queues, Reply};
use eu_outbox::Outbox;
use std::alloc::{AllocError, Global};
use std::marker::Model;

/// The outboxes of the peers, by their numbers. Contracts see the list.
#[derive(Debug, Drop)]
pub(crate) struct Peers {
    outboxes: Vec<Outbox>,
}

impl Model for Peers {
    ghost use Rattle.std.specs.Prelude.{List, length, ◌≤◌};
    ghost use Rattle.std.specs.Coded.{coded_list};
    ghost use Rattle.eu_outbox.specs.Boxed.{Boxed, coded_boxed};
    ghost use Rattle.eu_base.specs.Limits.{most_peers};

    ghost Value = { List Boxed };

    ghost coded = { coded_list coded_boxed };

    ghost view = { λ p. p.outboxes.items };

    ghost invariant = { λ p. length p.outboxes.items ≤ most_peers };
}

impl Peers {
    /// So many peers, for whom nothing waits; the names of their tasks are to be hashed by that key. `AllocError` where no memory is left.
    pub(crate) fn open(alloc: Global, count: u32, hash_key: HashKey) -> Result<Peers, AllocError>
        requires { count ≤ MOST_PEERS }
        ensures { IfOk result (λ p. queues_of p ≡ replicate count idle) }
    {
        let mut outboxes = Vec::new(alloc);
        for _ in 0..count {
            outboxes.push(Outbox::new(alloc, hash_key))?;
        }
        Ok(Peers { outboxes })
    }

    /// How many there are.
    pub(crate) fn count(&self) -> u32
        ensures { result ≡ length self.now }
    {
        self.outboxes.len() as u32
    }

    /// Makes room in each outbox for a task. `AllocError` where no memory is left; neither changes a queue.
    pub(crate) fn reserve(&mut self) -> Result<(), AllocError>
        ensures queues { queues_of self.new ≡ queues_of self.old }
        ensures ready { OnOk result (All IsReady self.new) }
        ensures count { length self.new ≡ length self.old }
    {
        reserve_all(&mut self.outboxes)
    }

    /// Puts the task of an accepted command into each outbox, if it has one. It is handed as many keys and copies of what is held
    /// as there are peers.
    pub(crate) fn tell(
        &mut self,
        command: &Command,
        reply: &Reply,
        moment: Moment,
        mut keys: Vec<Key>,
        mut held: Vec<SharedInstance>,
    )
        requires ready { All IsReady self.old }
        requires keys { keys.items ≡ copies_of (length self.old) (told_key command.now) }
        ensures { (i : Option Instance) → held.items ≡ copies_of (length self.old) i → queues_of self.new ≡ map (with_task (task_for command.now moment reply.now i)) (queues_of self.old) }
    {
        tell_all(
            &mut self.outboxes,
            command,
            reply,
            moment,
            &mut keys,
            &mut held,
        );
    }

    /// The outbox of a peer, if there is one.
    fn outbox(&self, peer: u32) -> Option<&Outbox>
        ensures { option_map (λ b. b.now.queue) result ≡ slice_get (queues_of self.now) peer }
    {
        self.outboxes.get(peer as usize)
    }

    /// Why the queue of its peer refuses a command, if it does: `NoPeer`, or a fault of the call that it is on the outbox. None
    /// for a command that speaks of no queue. Takes no memory.
    #[inline(always)]
    pub(crate) fn refusal(&self, command: &Command, moment: Moment) -> Option<Fault>
        ensures { result ≡ queues_fault (queues_of self.now) command.now moment }
    {
        match command {
            Command::Drain { peer } => match self.outbox(*peer) {
                Some(outbox) => outbox.drain_refusal(moment),
                None => Some(Fault::NoPeer),
            },
            Command::Landed { peer, codes } => match self.outbox(*peer) {
                Some(outbox) => outbox.landed_refusal(codes.as_slice()),
                None => Some(Fault::NoPeer),
            },
            Command::Lost { peer } => match self.outbox(*peer) {
                Some(outbox) => outbox.lost_refusal(),
                None => Some(Fault::NoPeer),
            },
            _ => None,
        }
    }

    /// The next tasks that wait for a peer go in flight (`Outbox::drain`).
    pub(crate) fn drain(
        &mut self,
        alloc: Global,
        peer: u32,
        moment: Moment,
        logs: bool,
    ) -> Result<Answered, Fault>
        ensures same { IfOk result (IsAnswered logs) }
        ensures ok { IfOk result (λ a. QueuesAnswer self.old (Command.Drain peer) moment (Ok a.reply) self.new) }
        ensures refused { IfErr result (λ f. QueuesAnswer self.old (Command.Drain peer) moment (Err f) self.old) }
        ensures err { OnErr result (queues_of self.new ≡ queues_of self.old) }
    {
        let Some(outbox) = self.outboxes.get_mut(peer as usize) else {
            return Err(Fault::NoPeer);
        };
        if let Some(fault) = outbox.drain_refusal(moment) {
            return Err(fault);
        }
        let room = Vec::with_capacity(alloc, 2)?;
        let batches = outbox.drain(alloc, moment, replies_for(logs))?;
        Ok(batched(batches, room))
    }

    /// The batch in flight to a peer has landed, and was answered by these statuses (`Outbox::landed`).
    pub(crate) fn landed(&mut self, peer: u32, codes: &Codes, moment: Moment) -> Result<(), Fault>
        ensures ok { OnOk result (QueuesAnswer self.old (Command.Landed peer codes.now) moment (Ok Reply.Settled) self.new) }
        ensures refused { IfErr result (λ f. QueuesAnswer self.old (Command.Landed peer codes.now) moment (Err f) self.old) }
        ensures err { OnErr result (queues_of self.new ≡ queues_of self.old) }
    {
        let Some(outbox) = self.outboxes.get_mut(peer as usize) else {
            return Err(Fault::NoPeer);
        };
        outbox.landed(codes.as_slice(), moment)
    }

    /// The batch in flight to a peer was lost (`Outbox::lost`).
    pub(crate) fn lost(&mut self, peer: u32, moment: Moment) -> Result<(), Fault>
        ensures ok { OnOk result (QueuesAnswer self.old (Command.Lost peer) moment (Ok Reply.Settled) self.new) }
        ensures refused { IfErr result (λ f. QueuesAnswer self.old (Command.Lost peer) moment (Err f) self.old) }
        ensures err { OnErr result (queues_of self.new ≡ queues_of self.old) }
    {
        let Some(outbox) = self.outboxes.get_mut(peer as usize) else {
            return Err(Fault::NoPeer);
        };
        outbox.lost(moment)
    }

    /// What waits for each peer, as plain data. `AllocError` where no memory is left.
    pub(crate) fn queues(&self, alloc: Global) -> Result<Queues, AllocError>
        ensures { IfOk result (λ queues. queues ≡ queues_of self.now) }
    {
        let mut queues = Vec::with_capacity(alloc, self.outboxes.len())?;
        for outbox in &self.outboxes {
            queues.push(outbox.queue(alloc)?)?;
        }
        Ok(Queues::new(queues))
    }
}

/// Equal batches, as many as a drain needs (`replies_for`), each for its use; the room is for two replies.
fn batched(mut batches: Vec<Tasks>, mut room: Vec<Reply>) -> Answered
    requires batches { (b : List Task) × (logs : Bool) × (batches.items ≡ replicate (replies_for logs) b) }
    requires room { (room.items ≡ []) × (2 ≤ vec_capacity room) }
    ensures { (b : List Task) (logs : Bool) → batches.items ≡ replicate (replies_for logs) b → (result.reply ≡ Reply.Batch b) × IsAnswered logs result }
{
    match (batches.pop(), batches.pop()) {
        (Some(reply), Some(answer)) => {
            room.push_reserved(Reply::Batch(answer));
            if let Some(logged) = batches.pop() {
                room.push_reserved(Reply::Batch(logged));
            }
            Answered {
                reply: Reply::Batch(reply),
                others: room,
            }
        }
        _ => unreachable!(),
    }
}

/// Makes room in each outbox for a task.
fn reserve_all(outboxes: &mut Vec<Outbox>) -> Result<(), AllocError>
    ensures queues { queues_of outboxes.new.items ≡ queues_of outboxes.old.items }
    ensures length { vec_len outboxes.new ≡ vec_len outboxes.old }
    ensures capacity { vec_capacity outboxes.new ≡ vec_capacity outboxes.old }
    ensures ready { OnOk result (All IsReady outboxes.new.items) }
{
    let Some(mut last) = outboxes.pop() else {
        return Ok(());
    };
    let mine = last.reserve();
    let others = reserve_all(outboxes);
    outboxes.push_reserved(last);
    mine?;
    others
}

/// Puts the task of a command into each outbox, if it has one.
fn tell_all(
    outboxes: &mut Vec<Outbox>,
    command: &Command,
    reply: &Reply,
    moment: Moment,
    keys: &mut Vec<Key>,
    held: &mut Vec<SharedInstance>,
)
    requires ready { All IsReady outboxes.old.items }
    requires keys { keys.old.items ≡ copies_of (vec_len outboxes.old) (told_key command.now) }
    ensures told { (i : Option Instance) → held.old.items ≡ copies_of (vec_len outboxes.old) i → queues_of outboxes.new.items ≡ map (with_task (task_for command.now moment reply.now i)) (queues_of outboxes.old.items) }
    ensures length { vec_len outboxes.new ≡ vec_len outboxes.old }
    ensures capacity { vec_capacity outboxes.new ≡ vec_capacity outboxes.old }
{
    let Some(mut last) = outboxes.pop() else {
        return;
    };
    tell_one(&mut last, command, reply, moment, keys.pop(), held.pop());
    tell_all(outboxes, command, reply, moment, keys, held);
    outboxes.push_reserved(last);
}

/// Puts the task of a command into an outbox, if it has one.
fn tell_one(
    outbox: &mut Outbox,
    command: &Command,
    reply: &Reply,
    moment: Moment,
    key: Option<Key>,
    held: Option<SharedInstance>,
)
    requires ready { IsReady outbox.old }
    requires key { key ≡ told_key command.now }
    ensures { outbox.new.queue ≡ with_task (task_for command.now moment reply.now held) outbox.old.queue }
{
    let Some(key) = key else {
        return;
    };
    if let Some(task) = task_for(command, reply, moment, key, held) {
        outbox.put(task, moment).unwrap();
    }
}
