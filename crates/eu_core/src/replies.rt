//! The reply of a command for each of its uses, and copies of the instance that a step leaves.
ghost use Rattle.std.specs.Prelude.{◌≡◌, ℕ, ◌+◌, ◌-◌, Bool, true, false, replicate, IfOk};
ghost use Rattle.std.specs.Option.{option_copied, option_map};
ghost use Rattle.eu_model.specs.declared.views.Listed.{Listed};
ghost use Rattle.eu_model.specs.Owned.{owns_nothing};
ghost use Rattle.eu_core.specs.Answered.{equals_of, for_log, others_of, replies_for, IsAnswered};
ghost use Rattle.eu_core.specs.Decided.{lease_left};
ghost use Rattle.eu_core.specs.Stepped.{copies_of};

use crate::decision::LeaseChange;
use eu_base::SharedInstance;
use eu_model::Reply;
use eu_store::HeldLease;
use std::alloc::{AllocError, Global};

/// What a command is answered: equal replies, each for its use.
#[derive(Debug, Drop)]
pub struct Answered {
    /// The one that a journal keeps.
    pub reply: Reply,
    /// The others, where the reply owns memory: the one that who asked is told and, where they log it, the one that their log keeps. Else
    /// none: it is said once more then, which takes no memory.
    pub others: Vec<Reply>,
}

/// How many replies a command needs: one for a journal, one for who asked, and one more where they log it.
pub fn replies_for(logs: bool) -> u32
    ensures { result ≡ replies_for logs }
{
    if logs { 3 } else { 2 }
}

/// Equal replies that own memory, each for its use. As many are handed in as a command needs (`replies_for`).
pub fn split(mut replies: Vec<Reply>) -> Answered
    requires { (r : Reply) × (logs : Bool) × (replies.items ≡ replicate (replies_for logs) r) }
    ensures { (r : Reply) (logs : Bool) → owns_nothing r ≡ false → replies.items ≡ replicate (replies_for logs) r → (result.reply ≡ r) × IsAnswered logs result }
{
    match replies.pop() {
        Some(reply) => Answered {
            reply,
            others: replies,
        },
        None => unreachable!(),
    }
}

/// A reply that owns no memory, for each of its uses. Takes none.
pub fn owning_nothing(alloc: Global, reply: Reply) -> Answered
    requires { owns_nothing reply ≡ true }
    ensures reply { result.reply ≡ reply }
    ensures answered { (logs : Bool) → IsAnswered logs result }
{
    Answered {
        reply,
        others: Vec::new(alloc),
    }
}

/// The other replies of a command: the one that who asked is told and, where one `logs` it, the one for their log. Takes no memory.
#[inline(always)]
pub fn told_and_logged(reply: &Reply, others: Vec<Reply>, logs: bool) -> (Reply, Option<Reply>)
    requires { others.items ≡ others_of logs reply.now }
    ensures { result ≡ (reply.now, for_log logs reply.now) }
{
    let mut others = others;
    let answer = one_more(reply, &mut others);
    let logged = if logs {
        Some(one_more(reply, &mut others))
    } else {
        None
    };
    (answer, logged)
}

/// One of a reply's equals, or else the reply once more, where it owns no memory.
#[inline(always)]
fn one_more(reply: &Reply, others: &mut Vec<Reply>) -> Reply
    requires { (n : ℕ) × (others.old.items ≡ equals_of (n + 1) reply.now) }
    ensures { (n : ℕ) → others.old.items ≡ equals_of (n + 1) reply.now → (result ≡ reply.now) × (others.new.items ≡ equals_of n reply.now) }
{
    match others.pop() {
        Some(other) => other,
        None => again(reply),
    }
}

/// A reply that owns no memory, once more. Takes none.
fn again(reply: &Reply) -> Reply
    requires { owns_nothing reply.now ≡ true }
    ensures { result ≡ reply.now }
{
    match reply {
        Reply::Registered { fresh } => Reply::Registered { fresh: *fresh },
        Reply::Done => Reply::Done,
        Reply::NotFound => Reply::NotFound,
        Reply::Stale => Reply::Stale,
        Reply::Last(renewals) => Reply::Last(*renewals),
        Reply::Expected(clients) => Reply::Expected(*clients),
        Reply::Settled => Reply::Settled,
        _ => unreachable!(),
    }
}

/// The others of a command's replies, made of the one for its journal. `AllocError` where no memory is left.
#[inline(always)]
pub(crate) fn others_for(alloc: Global, reply: &Reply, logs: bool) -> Result<Vec<Reply>, AllocError>
    ensures { IfOk result (λ o. o.items ≡ others_of logs reply.now) }
{
    match reply {
        Reply::Conflict(_) | Reply::Evicted(_) | Reply::Batch(_) => copies(alloc, reply, logs),
        _ => Ok(Vec::new(alloc)),
    }
}

/// A reply for who asked, and one more where they log it. `AllocError` where no memory is left.
fn copies(alloc: Global, reply: &Reply, logs: bool) -> Result<Vec<Reply>, AllocError>
    ensures { IfOk result (λ o. o.items ≡ replicate (replies_for logs - 1) reply.now) }
{
    let mut copies = Vec::with_capacity(alloc, 2)?;
    copies.push(reply.copy(alloc)?)?;
    if logs {
        copies.push(reply.copy(alloc)?)?;
    }
    Ok(copies)
}

/// So many copies of the instance that is held once a change of a lease is carried out; none where no lease is. `AllocError` where no
/// memory is left.
#[inline(always)]
pub(crate) fn copies_left(
    alloc: Global,
    change: &LeaseChange,
    held: Option<&HeldLease>,
    number: u32,
) -> Result<Vec<SharedInstance>, AllocError>
    ensures { IfOk result (λ v. v.items ≡ copies_of number (option_map (λ (l : Listed). l.instance) (lease_left change.now (option_copied held.entry)))) }
{
    if number == 0 {
        return Ok(Vec::new(alloc));
    }
    made_copies(alloc, change, held, number)
}

/// The same, however many are made.
fn made_copies(
    alloc: Global,
    change: &LeaseChange,
    held: Option<&HeldLease>,
    number: u32,
) -> Result<Vec<SharedInstance>, AllocError>
    ensures { IfOk result (λ v. v.items ≡ copies_of number (option_map (λ (l : Listed). l.instance) (lease_left change.now (option_copied held.entry)))) }
{
    let mut copies = Vec::with_capacity(alloc, number as usize)?;
    for _made in 0..number {
        match instance_left(change, held)? {
            Some(instance) => copies.push(instance)?,
            None => return Ok(copies),
        }
    }
    Ok(copies)
}

/// A copy of the instance that is held once a change of a lease is carried out, if a lease is. `AllocError` where 2^63 share it.
fn instance_left(
    change: &LeaseChange,
    held: Option<&HeldLease>,
) -> Result<Option<SharedInstance>, AllocError>
    ensures { IfOk result (λ left. left ≡ option_map (λ (l : Listed). l.instance) (lease_left change.now (option_copied held.entry))) }
{
    match (change, held) {
        (LeaseChange::Stays, Some(held)) => Ok(Some(held.instance().share()?)),
        (LeaseChange::Amended(amendment), Some(held)) => {
            Ok(Some(held.instance_amended(amendment)?))
        }
        (LeaseChange::Begun(begun), _) => Ok(Some(begun.instance().share()?)),
        _ => Ok(None),
    }
}
