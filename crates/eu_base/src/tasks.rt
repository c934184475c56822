//! Tasks for peers.
ghost use Rattle.std.specs.Prelude.{◌≡◌, ◌↔◌, IfOk, IsTrue};
ghost use Rattle.eu_base.specs.Values.{action_name, action_of};

use crate::items::Items;
use crate::names::Key;
use crate::shared::SharedInstance;
use crate::statuses::Status;
use crate::times::Moment;
use std::alloc::{AllocError, Global};
use std::marker::Model;

/// What a task does at a peer (`PeerAwareInstanceRegistryImpl.Action` in Eureka).
#[derive(Clone, Copy, Debug, PartialEq, Eq, Hash)]
pub enum Action {
    /// Registers the instance.
    Register,
    /// Renews its lease.
    Heartbeat,
    /// Ends its lease.
    Cancel,
    /// Has a status override its own.
    StatusUpdate,
    /// Takes that back.
    DeleteStatusOverride,
}

impl Action {
    /// The action in Eureka's spelling, as `StatusUpdate`.
    pub fn name(self) -> &'static str
        ensures { result.now ≡ action_name self }
    {
        match self {
            Action::Register => "Register",
            Action::Heartbeat => "Heartbeat",
            Action::Cancel => "Cancel",
            Action::StatusUpdate => "StatusUpdate",
            Action::DeleteStatusOverride => "DeleteStatusOverride",
        }
    }

    /// The action of that name. None for any other text.
    pub fn read(text: &str) -> Option<Action>
        ensures { result ≡ action_of text.now }
    {
        match text {
            "Register" => Some(Action::Register),
            "Heartbeat" => Some(Action::Heartbeat),
            "Cancel" => Some(Action::Cancel),
            "StatusUpdate" => Some(Action::StatusUpdate),
            "DeleteStatusOverride" => Some(Action::DeleteStatusOverride),
            _ => None,
        }
    }
}

/// The name of a task. Of tasks with one name, one waits at most.
#[derive(Debug, Drop, PartialEq, Eq, Hash)]
pub struct TaskName {
    /// What it does.
    pub action: Action,
    /// The lease of which it speaks.
    pub key: Key,
}

/// What a peer is to be told of a lease.
#[derive(Debug, Drop)]
pub struct Task {
    /// What is to be done.
    pub action: Action,
    /// The lease of which it speaks.
    pub key: Key,
    /// The status: of a `StatusUpdate` the one that is set, of a `DeleteStatusOverride` the one that the instance has then.
    pub status: Option<Status>,
    /// The instance that was held then; a `Cancel` has none.
    pub instance: Option<SharedInstance>,
    /// When it was queued, in milliseconds.
    pub queued: Moment,
}

impl Task {
    /// Whether both are equal in every field. Takes no memory.
    pub fn same(&self, other: &Task) -> bool
        ensures { IsTrue result ↔ (self.now ≡ other.now) }
    {
        self.action == other.action
            && self.key == other.key
            && self.status == other.status
            && self.queued.ms() == other.queued.ms()
            && same_or_none(&self.instance, &other.instance)
    }

    /// The same task once more. `AllocError` where no memory is left.
    pub fn copy(&self, alloc: Global) -> Result<Task, AllocError>
        ensures { IfOk result (λ t. t ≡ self.now) }
    {
        let key = self.key.copy(alloc)?;
        let instance = match &self.instance {
            Some(instance) => Some(instance.share()?),
            None => None,
        };
        Ok(Task {
            action: self.action,
            key,
            status: self.status,
            instance,
            queued: self.queued,
        })
    }
}

/// Whether both are equal instances, or neither is there.
fn same_or_none(instance: &Option<SharedInstance>, other: &Option<SharedInstance>) -> bool
    ensures { IsTrue result ↔ (instance.now ≡ other.now) }
{
    match (instance, other) {
        (Some(instance), Some(other)) => instance.same(other),
        (None, None) => true,
        _ => false,
    }
}

/// Tasks, in their order.
pub type Tasks = Items<Task>;

impl Items<Task> {
    /// Whether both are equal in every task. Takes no memory.
    pub fn same(&self, other: &Items<Task>) -> bool
        ensures { IsTrue result ↔ (self.now ≡ other.now) }
    {
        let mut left = other.as_slice().iter();
        for task in self.as_slice() {
            let Some(theirs) = left.next() else {
                return false;
            };
            if !task.same(theirs) {
                return false;
            }
        }
        left.next().is_none()
    }

    /// The same tasks once more. `AllocError` where no memory is left.
    pub fn copy(&self, alloc: Global) -> Result<Items<Task>, AllocError>
        ensures { IfOk result (λ t. t ≡ self.now) }
    {
        let mut tasks = Vec::with_capacity(alloc, self.as_slice().len())?;
        for task in self.as_slice() {
            tasks.push(task.copy(alloc)?)?;
        }
        Ok(Items::new(tasks))
    }
}

/// The HTTP statuses by which a peer answered the tasks of a batch, in their order.
pub type Codes = Items<u16>;

impl Items<u16> {
    /// Whether both are equal in every status. Takes no memory.
    pub fn same(&self, other: &Items<u16>) -> bool
        ensures { IsTrue result ↔ (self.now ≡ other.now) }
    {
        self.as_slice() == other.as_slice()
    }

    /// The same statuses once more. `AllocError` where no memory is left.
    pub fn copy(&self, alloc: Global) -> Result<Items<u16>, AllocError>
        ensures { IfOk result (λ c. c ≡ self.now) }
    {
        let codes = Vec::from_slice(alloc, self.as_slice())?;
        Ok(Items::new(codes))
    }
}
