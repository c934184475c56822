//! Lines to JSON.
ghost use Rattle.std.specs.Prelude.{◌≡◌, false, IfOk};
ghost use Rattle.serde_json.specs.View.{view};
ghost use Rattle.serde_json.specs.Written.{has_float};
ghost use Rattle.eu_journal.specs.Lines.{line_tree};
ghost use Rattle.eu_journal_values.specs.Commands.{command_rest};
ghost use Rattle.eu_journal_values.specs.Trees.{optional, rest_tree, task_rest, whole_number};
ghost use Rattle.eu_journal_values.specs.Replies.{reply_rest};

use crate::lines::{Head, JournalLine};
use eu_base::{Id, Key, Moment, SharedInstance, Status, Task};
use eu_journal_values::{
    command_value, config_value, instance_value, key_value, reply_value, status_value, task_value,
    times_value,
};
use eu_model::{Command, Entry, Listed, Reply};
use serde_json::{Value, json};
use std::alloc::{AllocError, Global};

/// The rest of an instance. `AllocError` where no memory is left.
fn rest_value(alloc: Global, instance: &SharedInstance) -> Result<Value, AllocError>
    ensures tree { IfOk result (λ v. view v ≡ rest_tree instance.now) }
    ensures whole { IfOk result (λ v. has_float (view v) ≡ false) }
{
    let members = instance.rest().to_members(alloc)?;
    Ok(Value::Object(members))
}

/// The rest of a task's instance, where it has one. `AllocError` where no memory is left.
fn task_rest(alloc: Global, task: &Task) -> Result<Value, AllocError>
    ensures tree { IfOk result (λ v. view v ≡ task_rest task.now) }
    ensures whole { IfOk result (λ v. has_float (view v) ≡ false) }
{
    match &task.instance {
        Some(instance) => rest_value(alloc, instance),
        None => Ok(Value::Null),
    }
}

/// The rest of a command's instance, where it has one. `AllocError` where no memory is left.
fn command_rest(alloc: Global, command: &Command) -> Result<Value, AllocError>
    ensures tree { IfOk result (λ v. view v ≡ command_rest command.now) }
    ensures whole { IfOk result (λ v. has_float (view v) ≡ false) }
{
    match command {
        Command::Register { instance, .. } | Command::Adopt { instance } => rest_value(
            alloc, instance,
        ),
        _ => Ok(Value::Null),
    }
}

/// The rest of a reply's instance, where it has one. `AllocError` where no memory is left.
fn reply_rest(alloc: Global, reply: &Reply) -> Result<Value, AllocError>
    ensures tree { IfOk result (λ v. view v ≡ reply_rest reply.now) }
    ensures whole { IfOk result (λ v. has_float (view v) ≡ false) }
{
    match reply {
        Reply::Conflict(held) => rest_value(alloc, held),
        _ => Ok(Value::Null),
    }
}

/// The JSON of a moment that may be there.
fn optional_moment_value(moment: Option<Moment>) -> Value
    ensures { view result ≡ optional whole_number moment }
{
    match moment {
        Some(moment) => Value::from(moment.ms()),
        None => Value::Null,
    }
}

/// The members of the line with which a state begins. `AllocError` where no memory is left.
fn head_members(alloc: Global, head: Head) -> Result<Value, AllocError>
    ensures { IfOk result (λ v. view v ≡ line_tree (JournalLine.Head head)) }
{
    let config = config_value(alloc, head.config)?;
    json!(in alloc; {
        "config": config,
        "expected": head.expected,
        "journal": 1u64,
        "last": head.last,
        "line": "head",
        "previous": optional_moment_value(head.previous),
        "since": head.since,
    })
}

/// The line with which a state begins. `AllocError` where no memory is left.
pub fn head_value(alloc: Global, head: Head) -> Result<Value, AllocError>
    ensures tree { IfOk result (λ v. view v ≡ line_tree (JournalLine.Head head)) }
    ensures whole { IfOk result (λ v. has_float (view v) ≡ false) }
{
    let value = head_members(alloc, head)?;
    Ok(value)
}

/// The line of a lease of a state. `AllocError` where no memory is left.
#[tactic(auto, using(crate::proofs::WholeLemmas::whole_line))]
pub fn lease_value(alloc: Global, listed: &Listed) -> Result<Value, AllocError>
    ensures tree { IfOk result (λ v. view v ≡ line_tree (JournalLine.Lease listed.now)) }
    ensures whole { IfOk result (λ v. has_float (view v) ≡ false) }
{
    let instance = instance_value(alloc, &listed.instance)?;
    let rest = rest_value(alloc, &listed.instance)?;
    let times = times_value(alloc, listed.times)?;
    json!(in alloc; {
        "instance": instance,
        "line": "lease",
        "rest": rest,
        "times": times,
    })
}

/// The line of an override row of a state. `AllocError` where no memory is left.
#[tactic(auto, using(crate::proofs::WholeLemmas::whole_line))]
pub fn row_value(alloc: Global, id: &Id, status: Status) -> Result<Value, AllocError>
    ensures tree { IfOk result (λ v. view v ≡ line_tree (JournalLine.Row id.now status)) }
    ensures whole { IfOk result (λ v. has_float (view v) ≡ false) }
{
    let status = status_value(alloc, status)?;
    json!(in alloc; {
        "id": id.as_str(),
        "line": "row",
        "status": status,
    })
}

/// The line with which what a peer is to be told begins. `AllocError` where no memory is left.
#[tactic(auto, using(crate::proofs::WholeLemmas::whole_line))]
pub fn peer_value(alloc: Global) -> Result<Value, AllocError>
    ensures tree { IfOk result (λ v. view v ≡ line_tree JournalLine.Peer) }
    ensures whole { IfOk result (λ v. has_float (view v) ≡ false) }
{
    json!(in alloc; { "line": "peer" })
}

/// The line of a task that waits for a peer. `AllocError` where no memory is left.
#[tactic(auto, using(crate::proofs::WholeLemmas::whole_line))]
pub fn waiting_value(alloc: Global, task: &Task) -> Result<Value, AllocError>
    ensures tree { IfOk result (λ v. view v ≡ line_tree (JournalLine.Waiting task.now)) }
    ensures whole { IfOk result (λ v. has_float (view v) ≡ false) }
{
    let rest = task_rest(alloc, task)?;
    let task = task_value(alloc, task)?;
    json!(in alloc; {
        "line": "waiting",
        "rest": rest,
        "task": task,
    })
}

/// The line of a task in flight to a peer. `AllocError` where no memory is left.
#[tactic(auto, using(crate::proofs::WholeLemmas::whole_line))]
pub fn flight_value(alloc: Global, task: &Task) -> Result<Value, AllocError>
    ensures tree { IfOk result (λ v. view v ≡ line_tree (JournalLine.Flight task.now)) }
    ensures whole { IfOk result (λ v. has_float (view v) ≡ false) }
{
    let rest = task_rest(alloc, task)?;
    let task = task_value(alloc, task)?;
    json!(in alloc; {
        "line": "flight",
        "rest": rest,
        "task": task,
    })
}

/// The members of the line with which an entry begins. `AllocError` where no memory is left.
fn asked_members(alloc: Global, entry: &Entry, rest: Value) -> Result<Value, AllocError>
    requires { view rest ≡ command_rest entry.now.command }
    ensures { IfOk result (λ v. view v ≡ line_tree (JournalLine.Asked entry.now.pass entry.now.number entry.now.moment entry.now.command)) }
{
    let command = command_value(alloc, &entry.command)?;
    json!(in alloc; {
        "command": command,
        "line": "asked",
        "moment": entry.moment.ms(),
        "number": entry.number,
        "pass": entry.pass,
        "rest": rest,
    })
}

/// The line with which an entry begins: all but its reply. `AllocError` where no memory is left.
pub fn asked_value(alloc: Global, entry: &Entry) -> Result<Value, AllocError>
    ensures tree { IfOk result (λ v. view v ≡ line_tree (JournalLine.Asked entry.now.pass entry.now.number entry.now.moment entry.now.command)) }
    ensures whole { IfOk result (λ v. has_float (view v) ≡ false) }
{
    let rest = command_rest(alloc, &entry.command)?;
    let value = asked_members(alloc, entry, rest)?;
    Ok(value)
}

/// The line of a reply, but for an eviction's victims and a batch's tasks. `AllocError` where no memory is left.
#[tactic(auto, using(crate::proofs::WholeLemmas::whole_line))]
pub fn answered_value(alloc: Global, reply: &Reply) -> Result<Value, AllocError>
    ensures tree { IfOk result (λ v. view v ≡ line_tree (JournalLine.Answered reply.now)) }
    ensures whole { IfOk result (λ v. has_float (view v) ≡ false) }
{
    let rest = reply_rest(alloc, reply)?;
    let reply = reply_value(alloc, reply)?;
    json!(in alloc; {
        "line": "answered",
        "reply": reply,
        "rest": rest,
    })
}

/// The line of a victim of an eviction. `AllocError` where no memory is left.
#[tactic(auto, using(crate::proofs::WholeLemmas::whole_line))]
pub fn victim_value(alloc: Global, key: &Key) -> Result<Value, AllocError>
    ensures tree { IfOk result (λ v. view v ≡ line_tree (JournalLine.Victim key.now)) }
    ensures whole { IfOk result (λ v. has_float (view v) ≡ false) }
{
    let key = key_value(alloc, key)?;
    json!(in alloc; {
        "key": key,
        "line": "victim",
    })
}

/// The line of a task of a batch. `AllocError` where no memory is left.
#[tactic(auto, using(crate::proofs::WholeLemmas::whole_line))]
pub fn sent_value(alloc: Global, task: &Task) -> Result<Value, AllocError>
    ensures tree { IfOk result (λ v. view v ≡ line_tree (JournalLine.Sent task.now)) }
    ensures whole { IfOk result (λ v. has_float (view v) ≡ false) }
{
    let rest = task_rest(alloc, task)?;
    let task = task_value(alloc, task)?;
    json!(in alloc; {
        "line": "sent",
        "rest": rest,
        "task": task,
    })
}

/// The line of a digest. `AllocError` where no memory is left.
#[tactic(auto, using(crate::proofs::WholeLemmas::whole_line))]
pub fn digest_value(alloc: Global, text: &str) -> Result<Value, AllocError>
    ensures tree { IfOk result (λ v. view v ≡ line_tree (JournalLine.Digest text.now)) }
    ensures whole { IfOk result (λ v. has_float (view v) ≡ false) }
{
    json!(in alloc; {
        "line": "digest",
        "sha256": text,
    })
}
