//! When the tasks that wait were queued.
ghost use Rattle.std.specs.Prelude.{◌≡◌, ◌<◌, ◌+◌, true, false, not, nat_lt, IfSome, IfNone, OnOk, OnErr, length};
ghost use Rattle.std.specs.BTreeSet.{Updates};
ghost use Rattle.eu_model.specs.Server.{is_old};
ghost use Rattle.eu_audit_queue.specs.Names.{HasOldOnly, HasNoOld, note_of, note_at, note_cmp};

use crate::name::Name;
use eu_base::{Moment, TASK_AGE, Task};
use std::alloc::{AllocError, Global};
use std::collections::BTreeSet;

/// That a task of a name was queued at a moment. Notes are in order: by their moments, and then by their names.
#[derive(Debug, Drop, PartialEq, Eq, PartialOrd, Ord)]
pub(crate) struct Note {
    /// The moment, in milliseconds.
    queued: u64,
    name: Name,
}

/// Notes, the oldest first.
pub(crate) type Ages = BTreeSet<Note>;

/// Notes a task. `AllocError` where no memory is left, and then nothing has changed.
pub(crate) fn remember(ages: &mut Ages, alloc: Global, task: &Task) -> Result<(), AllocError>
    ensures ok { OnOk result (Updates note_cmp ages.old ages.new (note_of task.now) true) }
    ensures err { OnErr result (ages.new ≡ ages.old) }
{
    let name = Name::of(alloc, task)?;
    ages.insert(Note {
        queued: task.queued.ms(),
        name,
    })?;
    Ok(())
}

/// Takes out the note that a task of that name was queued at the moment. Takes no memory.
pub(crate) fn forget(ages: &mut Ages, name: Name, queued: Moment)
    ensures { Updates note_cmp ages.old ages.new (note_at queued name) false }
{
    ages.remove(&Note {
        queued: queued.ms(),
        name,
    });
}

/// Takes out the first note, where its task isn't worth sending any more at the moment, and gives its name. Takes no memory.
pub(crate) fn pop_old(ages: &mut Ages, moment: Moment) -> Option<Name>
    ensures old { IfSome result (λ name. HasOldOnly moment name ages.old ages.new) }
    ensures none { IfNone result (HasNoOld moment ages.old) }
    ensures same { IfNone result (ages.new ≡ ages.old) }
    ensures fewer { IfSome result (λ name. length ages.new.keys < length ages.old.keys) }
{
    let first = ages.first()?;
    if is_recent(first.queued, moment) {
        return None;
    }
    let note = ages.pop_first()?;
    Some(note.name)
}

/// Whether a task is still worth sending at the moment.
pub(crate) fn is_live(task: &Task, moment: Moment) -> bool
    ensures { result ≡ not (is_old moment task.now) }
{
    is_recent(task.queued.ms(), moment)
}

/// Whether a task that was queued at so many milliseconds is still worth sending at the moment.
fn is_recent(queued: u64, moment: Moment) -> bool
    ensures { result ≡ not (nat_lt (queued + TASK_AGE) moment) }
{
    moment.ms().saturating_sub(queued) <= TASK_AGE
}
