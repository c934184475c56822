//! The journal of a book.
ghost use Rattle.std.specs.Prelude.{◌≡◌, ◌++◌, ◌<◌, ◌↔◌, [], length, option_to_list, IfOk, IsSome};
ghost use Rattle.eu_book.specs.Checkpoint.{IsRoom};

use eu_base::{MOST_ENTRIES, Moment};
use eu_core::Undo;
use eu_model::{Command, Entry, Queues, Reply};
use std::alloc::{AllocError, Global};
use std::mem;

/// The last that was told to a registry: its entries are a run of the lease machine from the base. That isn't kept: the registry is
/// led back to it by what the entries replaced.
#[derive(Debug, Drop)]
pub struct Journal {
    /// The number of the first entry: that of the commands that were accepted before the base.
    pub first: u64,
    /// What waited for the peers before the first entry.
    pub(crate) queues: Queues,
    /// The commands that were accepted since, with their replies, in their order.
    pub entries: Vec<Entry>,
    /// What the step of each replaced.
    pub(crate) undos: Vec<Undo>,
}

impl Journal {
    /// Room for a journal that is to begin (`Book::checkpoint_in`): no entries, and room for as many as a book keeps. `AllocError` where no
    /// memory is left.
    pub fn room(alloc: Global) -> Result<Box<Journal>, AllocError>
        ensures { IfOk result (λ room. IsRoom room.value) }
    {
        let journal = Journal::empty(alloc)?;
        Ok(Box::new(alloc, journal)?)
    }

    /// The same, not in a box.
    pub(crate) fn empty(alloc: Global) -> Result<Journal, AllocError>
        ensures { IfOk result IsRoom }
    {
        Ok(Journal {
            first: 0,
            queues: Queues::new(Vec::new(alloc)),
            entries: Vec::with_capacity(alloc, MOST_ENTRIES)?,
            undos: Vec::with_capacity(alloc, MOST_ENTRIES)?,
        })
    }

    /// Takes the last entry out, if one is left, with what its step replaced, and what waited for the peers. Takes no memory.
    pub(crate) fn let_go(&mut self, alloc: Global) -> Dropped
        ensures entry { self.old.entries.items ≡ self.new.entries.items ++ option_to_list result.entry }
        ensures one { IsSome result.entry ↔ (0 < length self.old.entries.items) }
        ensures undo { self.old.undos.items ≡ self.new.undos.items ++ option_to_list result.undo }
        ensures one_undo { IsSome result.undo ↔ (0 < length self.old.undos.items) }
        ensures queues { (result.queues ≡ self.old.queues) × (self.new.queues ≡ []) }
    {
        Dropped {
            entry: self.entries.pop(),
            undo: self.undos.pop(),
            queues: mem::replace(&mut self.queues, Queues::new(Vec::new(alloc))),
        }
    }
}

/// What a book lets go of at once (`Book::let_go`). Whoever holds a lock drops it once that is released.
#[derive(Debug, Drop)]
pub struct Dropped {
    /// The entry, if one was left.
    pub entry: Option<Entry>,
    /// What its step replaced.
    pub(crate) undo: Option<Undo>,
    /// What waited for the peers before the first entry, where the journal has begun anew just now; else nothing.
    pub(crate) queues: Queues,
}

/// What a log of one's own keeps of a command that was accepted: its entry, but for who asked.
#[derive(Debug, Drop)]
pub struct Logged {
    /// The command.
    pub command: Command,
    /// The moment at which it was asked.
    pub moment: Moment,
    /// The reply.
    pub reply: Reply,
    /// The number of its entry in the journal.
    pub number: u64,
}
