//! What a registry and what waits for its peers are, and what they were before the entries of a journal, as plain data.
ghost use Rattle.std.specs.Prelude.{◌≡◌, length, IfOk, OnOk};
ghost use Rattle.eu_book.specs.Checkpoint.{base_with, IsPaired};
ghost use Rattle.eu_book.specs.Peers.{server_with, state_of};
ghost use Rattle.eu_book.specs.Undone.{undone_all};

use crate::journal::Journal;
use crate::peers::Peers;
use eu_core::{Registry, Undo};
use eu_model::{Entry, Queue, Queues, State};
use std::alloc::{AllocError, Global};

/// A registry and what waits for its peers, as plain data.
pub(crate) fn plain_state(
    alloc: Global,
    registry: &Registry,
    peers: &Peers,
) -> Result<State, AllocError>
    ensures { IfOk result (λ s. s ≡ state_of (server_with registry.now peers.now)) }
{
    let mut state = registry.plain(alloc)?;
    state.queues = peers.queues(alloc)?;
    Ok(state)
}

/// What they were before the entries of their journal, as plain data: made of a copy of the registry.
pub(crate) fn plain_base(
    alloc: Global,
    registry: &Registry,
    journal: &Journal,
) -> Result<State, AllocError>
    requires { IsPaired journal.now }
    ensures { IfOk result (λ s. s ≡ state_of (base_with journal.now registry.now)) }
{
    let mut base = registry.copy(alloc)?;
    undo_all(
        &mut base,
        alloc,
        journal.entries.as_slice(),
        journal.undos.as_slice(),
    )?;
    let mut state = base.plain(alloc)?;
    state.queues = copy(alloc, &journal.queues)?;
    Ok(state)
}

/// Leads a registry back to what it was before these entries, by what the step of each replaced. `AllocError` where no memory is left;
/// then a part is undone.
fn undo_all(
    registry: &mut Registry,
    alloc: Global,
    entries: &[Entry],
    undos: &[Undo],
) -> Result<(), AllocError>
    requires { length undos.now ≡ length entries.now }
    ensures { OnOk result (registry.new ≡ undone_all entries.now undos.now registry.old) }
{
    let mut left = entries.len();
    while left > 0 {
        left -= 1;
        registry.undo(alloc, &entries[left].command, &undos[left])?;
    }
    Ok(())
}

/// The same queues once more.
fn copy(alloc: Global, queues: &Queues) -> Result<Queues, AllocError>
    ensures { IfOk result (λ copy. copy ≡ queues.now) }
{
    let mut copies = Vec::with_capacity(alloc, queues.as_slice().len())?;
    for queue in queues.as_slice() {
        copies.push(Queue {
            waiting: queue.waiting.copy(alloc)?,
            flight: queue.flight.copy(alloc)?,
        })?;
    }
    Ok(Queues::new(copies))
}
