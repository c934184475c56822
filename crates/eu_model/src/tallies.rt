//! What commands did, in numbers.
ghost use Rattle.std.specs.Prelude.{◌≡◌, ◌+◌, ◌<◌, ◌^◌};
ghost use Rattle.eu_model.specs.Delta.{counted_by, added_by, removed_by, delta, nothing, plus};

use crate::{Command, Reply};

/// What was done, in numbers.
#[derive(Clone, Copy, Debug, PartialEq, Eq)]
pub struct Tally {
    /// The commands that were answered.
    pub steps: u64,
    /// The renewals that were counted.
    pub counted: u64,
    /// The leases that came.
    pub added: u64,
    /// The leases that went: cancelled, or evicted.
    pub removed: u64,
}

impl Tally {
    /// Nothing was done.
    pub fn nothing() -> Tally
        ensures { result ≡ nothing }
    {
        Tally {
            steps: 0,
            counted: 0,
            added: 0,
            removed: 0,
        }
    }

    /// What a command did that was answered so. Takes no memory.
    pub fn of(command: &Command, reply: &Reply) -> Tally
        ensures { result ≡ delta command.now reply.now }
    {
        Tally {
            steps: 1,
            counted: counted_by(command, reply),
            added: added_by(command, reply),
            removed: removed_by(command, reply),
        }
    }

    /// Both together. Takes no memory.
    pub fn plus(self, more: Tally) -> Tally
        requires steps { self.steps + more.steps < 2 ^ 64 }
        requires counted { self.counted + more.counted < 2 ^ 64 }
        requires added { self.added + more.added < 2 ^ 64 }
        requires removed { self.removed + more.removed < 2 ^ 64 }
        ensures { result ≡ plus self more }
    {
        Tally {
            steps: self.steps + more.steps,
            counted: self.counted + more.counted,
            added: self.added + more.added,
            removed: self.removed + more.removed,
        }
    }
}

/// One for a renewal that was counted.
fn counted_by(command: &Command, reply: &Reply) -> u64
    ensures { result ≡ counted_by command.now reply.now }
{
    match command {
        Command::Renew { .. } => match reply {
            Reply::Done | Reply::Stale | Reply::Conflict(_) => 1,
            _ => 0,
        },
        _ => 0,
    }
}

/// One for a lease that came.
fn added_by(command: &Command, reply: &Reply) -> u64
    ensures { result ≡ added_by command.now reply.now }
{
    match command {
        Command::Register { .. } | Command::Adopt { .. } => match reply {
            Reply::Registered { fresh: true } => 1,
            _ => 0,
        },
        _ => 0,
    }
}

/// How many leases went.
fn removed_by(command: &Command, reply: &Reply) -> u64
    ensures { result ≡ removed_by command.now reply.now }
{
    match command {
        Command::Cancel { .. } => match reply {
            Reply::Done => 1,
            _ => 0,
        },
        Command::Evict => match reply {
            Reply::Evicted(victims) => victims.as_slice().len() as u64,
            _ => 0,
        },
        _ => 0,
    }
}
