//! Replies to JSON, and back.
ghost use Rattle.std.specs.Prelude.{◌≡◌, IfOk};
ghost use Rattle.serde_json.specs.View.{view};
ghost use Rattle.eu_journal_values.specs.Answered.{Gives};
ghost use Rattle.eu_journal_values.specs.Replies.{conflict_of, expected_of, last_of, registered_of, reply_named, reply_of, reply_tree};

use crate::faults::LineFault;
use crate::members::{number_in, text_in, truth_in};
use crate::read::instance_in;
use crate::write::instance_value;
use eu_base::{Keys, SharedInstance, Tasks};
use eu_model::Reply;
use serde_json::{Value, json};
use std::alloc::{AllocError, Global};

/// The JSON of a conflict. `AllocError` where no memory is left.
fn conflict_value(alloc: Global, held: &SharedInstance) -> Result<Value, AllocError>
    ensures { IfOk result (λ v. view v ≡ reply_tree (Reply.Conflict held.now)) }
{
    let instance = instance_value(alloc, held)?;
    json!(in alloc; {
        "instance": instance,
        "name": "Conflict",
    })
}

/// The JSON of a reply, but for its instance's rest, its victims and its tasks. `AllocError` where no memory is left.
pub fn reply_value(alloc: Global, reply: &Reply) -> Result<Value, AllocError>
    ensures { IfOk result (λ v. view v ≡ reply_tree reply.now) }
{
    match reply {
        Reply::Registered { fresh } => json!(in alloc; { "fresh": *fresh, "name": "Registered" }),
        Reply::Done => json!(in alloc; { "name": "Done" }),
        Reply::NotFound => json!(in alloc; { "name": "NotFound" }),
        Reply::Stale => json!(in alloc; { "name": "Stale" }),
        Reply::Conflict(held) => conflict_value(alloc, held),
        Reply::Last(renewals) => json!(in alloc; { "name": "Last", "renewals": *renewals }),
        Reply::Expected(clients) => json!(in alloc; { "clients": *clients, "name": "Expected" }),
        Reply::Evicted(_) => json!(in alloc; { "name": "Evicted" }),
        Reply::Batch(_) => json!(in alloc; { "name": "Batch" }),
        Reply::Settled => json!(in alloc; { "name": "Settled" }),
    }
}

/// The answer to a registration. `NotALine` where it is none.
#[tactic(auto, unfolding(crate::specs::Replies::registered_of))]
fn registered_of(object: &Value) -> Result<Reply, LineFault>
    ensures { Gives result (registered_of (view object.now)) }
{
    let fresh = truth_in(object, "fresh")?;
    Ok(Reply::Registered { fresh })
}

/// The conflict of an object, and its instance's rest. `NotALine` where it is none; `OutOfMemory`.
#[tactic(auto, unfolding(crate::specs::Replies::conflict_of))]
fn conflict_of(alloc: Global, rest: &Value, object: &Value) -> Result<Reply, LineFault>
    ensures { Gives result (conflict_of (view rest.now) (view object.now)) }
{
    let held = instance_in(alloc, rest, object)?;
    Ok(Reply::Conflict(held))
}

/// The answer to the end of a minute. `NotALine` where it is none.
#[tactic(auto, unfolding(crate::specs::Replies::last_of))]
fn last_of(object: &Value) -> Result<Reply, LineFault>
    ensures { Gives result (last_of (view object.now)) }
{
    let renewals = number_in(object, "renewals")?;
    Ok(Reply::Last(renewals))
}

/// The answer to an update. `NotALine` where it is none.
#[tactic(auto, unfolding(crate::specs::Replies::expected_of))]
fn expected_of(object: &Value) -> Result<Reply, LineFault>
    ensures { Gives result (expected_of (view object.now)) }
{
    let clients = number_in(object, "clients")?;
    Ok(Reply::Expected(clients))
}

/// The reply of that name. `NotALine` where it is none; `OutOfMemory`.
fn reply_named(alloc: Global, name: &str, rest: &Value, object: &Value) -> Result<Reply, LineFault>
    ensures { Gives result (reply_named name.now (view rest.now) (view object.now)) }
{
    match name {
        "Registered" => registered_of(object),
        "Done" => Ok(Reply::Done),
        "NotFound" => Ok(Reply::NotFound),
        "Stale" => Ok(Reply::Stale),
        "Conflict" => conflict_of(alloc, rest, object),
        "Last" => last_of(object),
        "Expected" => expected_of(object),
        "Evicted" => Ok(Reply::Evicted(Keys::new(Vec::new(alloc)))),
        "Batch" => Ok(Reply::Batch(Tasks::new(Vec::new(alloc)))),
        "Settled" => Ok(Reply::Settled),
        _ => Err(LineFault::NotALine),
    }
}

/// The reply of an object, and its instance's rest. `NotALine` where it is none; `OutOfMemory`.
#[tactic(auto, unfolding(crate::specs::Replies::reply_of))]
pub fn reply_of(alloc: Global, rest: &Value, object: &Value) -> Result<Reply, LineFault>
    ensures { Gives result (reply_of (view rest.now) (view object.now)) }
{
    let name = text_in(object, "name")?;
    reply_named(alloc, name, rest, object)
}
