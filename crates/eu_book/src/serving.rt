//! What a registry and the outboxes of its peers answer together.
ghost use Rattle.std.specs.Prelude.{◌≡◌, ◌⊎◌, false, length, None, Some, Ok, replicate, IfOk, IfErr, IfSome, OnErr};
ghost use Rattle.std.specs.Borrow.{Bor};
ghost use Rattle.eu_base.specs.declared.names.Key.{Key};
ghost use Rattle.eu_core.specs.Stepped.{Chooses};
ghost use Rattle.eu_model.specs.Server.{is_for_peers};
ghost use Rattle.eu_model.specs.Answers.{ServerAnswers};
ghost use Rattle.eu_core.specs.Answered.{IsAnswered};
ghost use Rattle.eu_core.specs.Undone.{undone};
ghost use Rattle.eu_book.specs.Peers.{MayRefuse, server_with, told_key};

use crate::peers::Peers;
use crate::tasks::told_key;
use eu_base::{Fault, Key, Moment};
use eu_clock::Chooser;
use eu_core::{Answered, Registry, Stepped, Undo, owning_nothing};
use eu_model::{Command, Reply};
use std::alloc::{AllocError, Global};

/// Answers a command, by a step of the registry or, where it is for a peer, by none. Its reply is there for each use; for a log, where one `logs` it.
#[inline(always)]
pub(crate) fn serve<C: Chooser>(
    alloc: Global,
    registry: &mut Registry,
    peers: &mut Peers,
    command: &Command,
    moment: Moment,
    chooser: &mut C,
    logs: bool,
) -> Result<Stepped, Fault>
    ensures same { IfOk result (λ s. IsAnswered logs s.answered) }
    ensures answers { IfOk result (λ s. ServerAnswers (server_with registry.old peers.old) command.now moment (Ok s.answered.reply) (server_with registry.new peers.new)) }
    ensures chooses { IfOk result (λ s. Chooses C.asks registry.old chooser.old command.now moment s.answered.reply chooser.new) }
    ensures undo { IfOk result (λ s. undone command.now s.undo registry.new ≡ registry.old) }
    ensures refused { IfErr result (λ f. MayRefuse (server_with registry.old peers.old) command.now moment f) }
    ensures err { OnErr result (server_with registry.new peers.new ≡ server_with registry.old peers.old) }
    ensures unasked { OnErr result (chooser.new ≡ chooser.old) }
{
    match command {
        Command::Drain { peer } => Ok(for_peer(alloc, peers.drain(alloc, *peer, moment, logs)?)),
        Command::Landed { peer, codes } => {
            peers.landed(*peer, codes, moment)?;
            Ok(for_peer(alloc, owning_nothing(alloc, Reply::Settled)))
        }
        Command::Lost { peer } => {
            peers.lost(*peer, moment)?;
            Ok(for_peer(alloc, owning_nothing(alloc, Reply::Settled)))
        }
        command => match key_told(command, peers) {
            Some(key) => {
                step_and_tell(alloc, registry, peers, command, key, moment, chooser, logs)
            }
            None => step(alloc, registry, peers, command, moment, chooser, logs),
        },
    }
}

/// What a command for a peer is answered: it makes no step of the registry.
fn for_peer(alloc: Global, answered: Answered) -> Stepped
    ensures answered { result.answered ≡ answered }
    ensures undo { result.undo ≡ Undo.Nothing }
{
    Stepped {
        answered,
        held: Vec::new(alloc),
        undo: Undo::Nothing,
    }
}

/// The key of the lease of which the peers may be told by a command, where there are peers.
fn key_told<'a>(command: &'a Command, peers: &Peers) -> Option<&'a Key>
    ensures some { IfSome result (λ (key : Bor Key). told_key command.entry.now ≡ Some key.now) }
    ensures none { result ≡ None → (told_key command.entry.now ≡ None) ⊎ (length peers.now ≡ 0) }
{
    if peers.count() == 0 {
        return None;
    }
    told_key(command)
}

/// The step of a command of which nobody is told.
#[inline(always)]
fn step<C: Chooser>(
    alloc: Global,
    registry: &mut Registry,
    peers: &Peers,
    command: &Command,
    moment: Moment,
    chooser: &mut C,
    logs: bool,
) -> Result<Stepped, Fault>
    requires kind { is_for_peers command.now ≡ false }
    requires untold { (told_key command.now ≡ None) ⊎ (length peers.now ≡ 0) }
    ensures same { IfOk result (λ s. IsAnswered logs s.answered) }
    ensures answers { IfOk result (λ s. ServerAnswers (server_with registry.old peers.now) command.now moment (Ok s.answered.reply) (server_with registry.new peers.now)) }
    ensures chooses { IfOk result (λ s. Chooses C.asks registry.old chooser.old command.now moment s.answered.reply chooser.new) }
    ensures undo { IfOk result (λ s. undone command.now s.undo registry.new ≡ registry.old) }
    ensures refused { IfErr result (λ f. MayRefuse (server_with registry.old peers.now) command.now moment f) }
    ensures err { OnErr result (registry.new ≡ registry.old) }
    ensures unasked { OnErr result (chooser.new ≡ chooser.old) }
{
    registry.step(alloc, command, moment, logs, 0, chooser)
}

/// The step of a command of which the peers may be told, and what they are told.
fn step_and_tell<C: Chooser>(
    alloc: Global,
    registry: &mut Registry,
    peers: &mut Peers,
    command: &Command,
    key: &Key,
    moment: Moment,
    chooser: &mut C,
    logs: bool,
) -> Result<Stepped, Fault>
    requires kind { is_for_peers command.now ≡ false }
    requires key { told_key command.now ≡ Some key.now }
    ensures same { IfOk result (λ s. IsAnswered logs s.answered) }
    ensures answers { IfOk result (λ s. ServerAnswers (server_with registry.old peers.old) command.now moment (Ok s.answered.reply) (server_with registry.new peers.new)) }
    ensures chooses { IfOk result (λ s. Chooses C.asks registry.old chooser.old command.now moment s.answered.reply chooser.new) }
    ensures undo { IfOk result (λ s. undone command.now s.undo registry.new ≡ registry.old) }
    ensures refused { IfErr result (λ f. MayRefuse (server_with registry.old peers.old) command.now moment f) }
    ensures err { OnErr result (server_with registry.new peers.new ≡ server_with registry.old peers.old) }
    ensures unasked { OnErr result (chooser.new ≡ chooser.old) }
{
    let count = peers.count();
    peers.reserve()?;
    let keys = copies(alloc, key, count)?;
    let stepped = registry.step(alloc, command, moment, logs, count, chooser)?;
    let Stepped {
        answered,
        held,
        undo,
    } = stepped;
    peers.tell(command, &answered.reply, moment, keys, held);
    Ok(Stepped {
        answered,
        held: Vec::new(alloc),
        undo,
    })
}

/// So many copies of a key.
fn copies(alloc: Global, key: &Key, count: u32) -> Result<Vec<Key>, AllocError>
    ensures { IfOk result (λ copies. copies.items ≡ replicate count key.now) }
{
    let mut copies = Vec::with_capacity(alloc, count as usize)?;
    for _ in 0..count {
        copies.push(key.copy(alloc)?)?;
    }
    Ok(copies)
}
