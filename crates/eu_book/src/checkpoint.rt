//! How a journal begins anew.
ghost use Rattle.std.specs.Prelude.{◌≡◌, ◌==◌, length, true, IfOk, OnOk};
ghost use Rattle.eu_base.specs.Limits.{most_entries};
ghost use Rattle.eu_book.specs.Checkpoint.{begun, BeginsAt, HasRoom, IsRoom, IsSame};
ghost use Rattle.eu_book.specs.Peers.{queues_of};

use crate::journal::Journal;
use crate::peers::Peers;
use eu_base::MOST_ENTRIES;
use std::alloc::{AllocError, Global};

/// Has a journal that is room alone begin after so many steps, with what waits for the peers. `AllocError` where no memory is left.
pub(crate) fn prepare(
    room: &mut Journal,
    alloc: Global,
    peers: &Peers,
    steps: u64,
) -> Result<(), AllocError>
    requires { IsRoom room.old }
    ensures { OnOk result (BeginsAt steps (queues_of peers.now) room.new) }
{
    room.queues = peers.queues(alloc)?;
    room.first = steps;
    Ok(())
}

/// Makes room for an entry more: in the journal or, where it has as many as it keeps, in the spare one. That is emptied then, and begins after
/// so many steps. Says whether the journal begins anew. `AllocError` where no memory is left. No entry of the journal changes.
#[inline(always)]
pub(crate) fn make_room(
    alloc: Global,
    journal: &mut Journal,
    spare: &mut Journal,
    peers: &Peers,
    steps: u64,
) -> Result<bool, AllocError>
    ensures same { IsSame journal.new journal.old }
    ensures full { IfOk result (λ anew. anew ≡ (length journal.old.entries.items == most_entries)) }
    ensures next { IfOk result (λ anew. anew ≡ true → BeginsAt steps (queues_of peers.now) spare.new) }
    ensures room { IfOk result (λ anew. HasRoom (begun anew spare.new journal.new)) }
{
    if journal.entries.len() == MOST_ENTRIES {
        spare.entries.clear();
        spare.undos.clear();
        spare.entries.reserve(1)?;
        spare.undos.reserve(1)?;
        prepare(spare, alloc, peers, steps)?;
        return Ok(true);
    }
    journal.entries.reserve(1)?;
    journal.undos.reserve(1)?;
    Ok(false)
}
