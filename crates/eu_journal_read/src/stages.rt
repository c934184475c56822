//! How far a journal was read.
ghost use Rattle.std.specs.Prelude.{◌≡◌, ◌++◌, ◌∷◌, [], ℕ, List, Err, IfOk};
ghost use Rattle.eu_journal_values.specs.Answered.{Gives};
ghost use Rattle.eu_journal_read.specs.Stages.{closed, state_read, take_asked, take_head, take_line, take_of_entry, take_of_state, with_state};

use crate::entries::{Asked, EntryDraft};
use crate::states::StateDraft;
use eu_base::{Key, Task};
use eu_journal::{Head, JournalLine};
use eu_journal_values::LineFault;
use eu_model::{Entry, Reply};
use std::alloc::{AllocFailed, Global};
use std::marker::Model;

/// The base and the entries of a journal, as far as they were read. Contracts see both.
#[derive(Drop)]
pub struct Front {
    base: StateDraft,
    entries: Vec<Entry>,
}

impl Model for Front {
    ghost use Rattle.std.specs.Coded.{codes};
    ghost use Rattle.eu_base.specs.contracts.statuses.Status as status;
    ghost use Rattle.eu_journal.specs.contracts.lines.Head as head_line;
    ghost use Rattle.eu_model.specs.contracts.commands.Entry as entry;
    ghost use Rattle.eu_model.specs.contracts.queues.Queue as queue;
    ghost use Rattle.eu_model.specs.contracts.views.Listed as listed;
    ghost use Rattle.eu_journal_read.specs.Front as front;

    ghost Value = { front.Front };

    ghost coded = { Prim.hlevel (codes, entry.the_row.coded, head_line.the_row.coded, listed.the_row.coded, queue.the_row.coded, status.the_row.coded) };

    ghost view = { λ f. record { base = f.base; entries = f.entries.items } };
}

impl Front {
    /// The base alone. Takes no memory.
    fn new(alloc: Global, base: StateDraft) -> Front
        ensures { result ≡ record { base = base; entries = [] } }
    {
        Front {
            base,
            entries: Vec::new(alloc),
        }
    }

    /// One entry more. `AllocFailed` where no memory is left.
    fn with(mut self, entry: EntryDraft) -> Result<Front, AllocFailed<Entry>>
        ensures { IfOk result (λ f. f ≡ record { base = self.base; entries = self.entries ++ entry ∷ [] }) }
    {
        self.entries.push(entry.finish())?;
        Ok(self)
    }

    /// The base, and the entries. Takes no memory.
    pub fn parts(self) -> (StateDraft, Vec<Entry>)
        ensures base { result.0 ≡ self.base }
        ensures entries { result.1.items ≡ self.entries }
    {
        (self.base, self.entries)
    }
}

/// How far a journal was read.
#[derive(Drop)]
pub enum Stage {
    /// Nothing was.
    Empty,
    /// The base, or some of it.
    Base(StateDraft),
    /// The first line of an entry.
    Asked {
        /// What came before.
        front: Front,
        /// The entry but for its reply.
        asked: Asked,
    },
    /// An entry with its reply, and the victims or the tasks so far.
    Answered {
        /// What came before.
        front: Front,
        /// The entry.
        newest: EntryDraft,
    },
    /// The end, or some of it.
    End {
        /// What came before.
        front: Front,
        /// The end.
        end: StateDraft,
    },
    /// All, with the digest.
    Sealed {
        /// What came before the end.
        front: Front,
        /// The end.
        end: StateDraft,
    },
}

/// The base and the entries before the next line. `NotALine` where an entry lacks its reply, or there is no base; `OutOfMemory`.
fn close(alloc: Global, stage: Stage) -> Result<Front, LineFault>
    ensures { Gives result (closed stage) }
{
    match stage {
        Stage::Base(base) => Ok(Front::new(alloc, base)),
        Stage::Answered { front, newest } => Ok(front.with(newest)?),
        other => {
            drop(other);
            Err(LineFault::NotALine)
        }
    }
}

/// Takes the first line of a state. `NotALine` where it can't follow; `OutOfMemory`.
fn take_head(alloc: Global, stage: Stage, head: Head) -> Result<Stage, LineFault>
    ensures { Gives result (take_head stage head) }
{
    let state = StateDraft::new(alloc, head);
    if let Stage::Empty = stage {
        return Ok(Stage::Base(state));
    }
    let front = close(alloc, stage)?;
    Ok(Stage::End { front, end: state })
}

/// The state that is read, and what came before it where it is the end. `NotALine` where none is.
fn state_read(stage: Stage) -> Result<(Option<Front>, StateDraft), LineFault>
    ensures { result ≡ state_read stage }
{
    match stage {
        Stage::Base(base) => Ok((None, base)),
        Stage::End { front, end } => Ok((Some(front), end)),
        other => {
            drop(other);
            Err(LineFault::NotALine)
        }
    }
}

/// The stage at which this state is read, behind that front where it is the end.
fn with_state(front: Option<Front>, state: StateDraft) -> Stage
    ensures { result ≡ with_state front state }
{
    match front {
        None => Stage::Base(state),
        Some(front) => Stage::End { front, end: state },
    }
}

/// Takes a line of a state after its first. `NotALine` where it can't follow; `OutOfMemory`.
fn take_of_state(alloc: Global, stage: Stage, line: JournalLine) -> Result<Stage, LineFault>
    ensures { Gives result (take_of_state stage line) }
{
    let (front, state) = state_read(stage)?;
    let state = state.more(alloc, line)?;
    Ok(with_state(front, state))
}

/// Takes a victim. `NotALine` where it can't follow; `OutOfMemory`.
fn take_victim(stage: Stage, key: Key) -> Result<Stage, LineFault>
    ensures { Gives result (take_of_entry stage (JournalLine.Victim key)) }
{
    let Stage::Answered { front, newest } = stage else {
        drop(stage);
        return Err(LineFault::NotALine);
    };
    let newest = newest.with_victim(key)?;
    Ok(Stage::Answered { front, newest })
}

/// Takes a task of a batch. `NotALine` where it can't follow; `OutOfMemory`.
fn take_task(stage: Stage, task: Task) -> Result<Stage, LineFault>
    ensures { Gives result (take_of_entry stage (JournalLine.Sent task)) }
{
    let Stage::Answered { front, newest } = stage else {
        drop(stage);
        return Err(LineFault::NotALine);
    };
    let newest = newest.with_task(task)?;
    Ok(Stage::Answered { front, newest })
}

/// Takes the first line of an entry. `NotALine` where it can't follow; `OutOfMemory`.
fn take_asked(alloc: Global, stage: Stage, asked: Asked) -> Result<Stage, LineFault>
    ensures { Gives result (take_asked stage asked) }
{
    let front = close(alloc, stage)?;
    Ok(Stage::Asked { front, asked })
}

/// Takes a reply. `NotALine` where it can't follow.
fn take_answered(alloc: Global, stage: Stage, reply: Reply) -> Result<Stage, LineFault>
    ensures { Gives result (take_line stage (JournalLine.Answered reply)) }
{
    match stage {
        Stage::Asked { front, asked } => Ok(Stage::Answered {
            front,
            newest: EntryDraft::new(alloc, asked, reply),
        }),
        other => {
            drop(other);
            Err(LineFault::NotALine)
        }
    }
}

/// Takes the line of the digest. `NotALine` where it can't follow.
fn take_seal(stage: Stage) -> Result<Stage, LineFault>
    ensures { (text : List ℕ) → Gives result (take_line stage (JournalLine.Digest text)) }
{
    match stage {
        Stage::End { front, end } => Ok(Stage::Sealed { front, end }),
        other => {
            drop(other);
            Err(LineFault::NotALine)
        }
    }
}

/// Takes a line. `NotALine` where it can't follow what was read; `OutOfMemory`.
pub fn take_line(alloc: Global, stage: Stage, line: JournalLine) -> Result<Stage, LineFault>
    ensures { Gives result (take_line stage line) }
{
    match line {
        JournalLine::Head(head) => take_head(alloc, stage, head),
        JournalLine::Asked {
            pass,
            number,
            moment,
            command,
        } => {
            let asked = Asked {
                pass,
                number,
                moment,
                command,
            };
            take_asked(alloc, stage, asked)
        }
        JournalLine::Answered(reply) => take_answered(alloc, stage, reply),
        JournalLine::Victim(key) => take_victim(stage, key),
        JournalLine::Sent(task) => take_task(stage, task),
        JournalLine::Digest(_) => take_seal(stage),
        line => take_of_state(alloc, stage, line),
    }
}
