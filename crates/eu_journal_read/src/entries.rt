//! Entries as far as they were read.
ghost use Rattle.std.specs.Prelude.{◌≡◌};
ghost use Rattle.eu_journal_values.specs.Answered.{Gives};
ghost use Rattle.eu_journal_read.specs.Drafts.{Becomes, answered, completed, entry_more, is_batch, is_eviction};

use eu_base::{Key, Keys, Moment, Task, Tasks};
use eu_journal::JournalLine;
use eu_journal_values::LineFault;
use eu_model::{Command, Entry, Reply};
use std::alloc::Global;
use std::marker::Model;

/// An entry but for its reply.
#[derive(Drop)]
pub struct Asked {
    /// The number of who asked.
    pub pass: u64,
    /// The number of the step, from 0.
    pub number: u64,
    /// The moment at which it was asked.
    pub moment: Moment,
    /// The command.
    pub command: Command,
}

/// An entry as far as it was read. Contracts see the entry.
#[derive(Drop)]
pub struct EntryDraft {
    asked: Asked,
    reply: Reply,
    victims: Vec<Key>,
    tasks: Vec<Task>,
}

impl Model for EntryDraft {
    ghost use Rattle.eu_model.specs.declared.commands.Entry.{Entry};
    ghost use Rattle.eu_model.specs.contracts.commands.Entry as entry;
    ghost use Rattle.eu_journal_read.specs.Drafts.{completed, entry_of};

    ghost Value = { Entry };

    ghost coded = { entry.the_row.coded };

    ghost view = { λ e. entry_of e.asked (completed e.reply e.victims.items e.tasks.items) };
}

impl EntryDraft {
    /// After its second line: of victims and tasks there are none yet. Takes no memory.
    pub fn new(alloc: Global, asked: Asked, reply: Reply) -> EntryDraft
        ensures { result ≡ answered asked reply }
    {
        EntryDraft {
            asked,
            reply,
            victims: Vec::new(alloc),
            tasks: Vec::new(alloc),
        }
    }

    /// One victim more. `NotALine` where the reply is no eviction's; `OutOfMemory`.
    #[tactic(auto, using(crate::proofs::EntryLemmas::no_victim, crate::proofs::EntryLemmas::one_victim))]
    fn victim(&mut self, key: Key) -> Result<(), LineFault>
        ensures { Becomes result self.new (entry_more self.old (JournalLine.Victim key)) }
    {
        if !is_eviction(&self.reply) {
            return Err(LineFault::NotALine);
        }
        self.victims.push(key)?;
        Ok(())
    }

    /// One task more. `NotALine` where the reply is no batch; `OutOfMemory`.
    #[tactic(auto, using(crate::proofs::EntryLemmas::no_task, crate::proofs::EntryLemmas::one_task))]
    fn task(&mut self, task: Task) -> Result<(), LineFault>
        ensures { Becomes result self.new (entry_more self.old (JournalLine.Sent task)) }
    {
        if !is_batch(&self.reply) {
            return Err(LineFault::NotALine);
        }
        self.tasks.push(task)?;
        Ok(())
    }

    /// With one victim more. `NotALine` where the reply is no eviction's; `OutOfMemory`.
    pub fn with_victim(mut self, key: Key) -> Result<EntryDraft, LineFault>
        ensures { Gives result (entry_more self (JournalLine.Victim key)) }
    {
        self.victim(key)?;
        Ok(self)
    }

    /// With one task more. `NotALine` where the reply is no batch; `OutOfMemory`.
    pub fn with_task(mut self, task: Task) -> Result<EntryDraft, LineFault>
        ensures { Gives result (entry_more self (JournalLine.Sent task)) }
    {
        self.task(task)?;
        Ok(self)
    }

    /// The entry. Takes no memory.
    pub fn finish(self) -> Entry
        ensures { result ≡ self }
    {
        let reply = completed(self.reply, self.victims, self.tasks);
        let Asked {
            pass,
            number,
            moment,
            command,
        } = self.asked;
        Entry {
            pass,
            number,
            command,
            moment,
            reply,
        }
    }
}

/// Whether a reply is an eviction's.
fn is_eviction(reply: &Reply) -> bool
    ensures { result ≡ is_eviction reply.now }
{
    matches!(reply, Reply::Evicted(_))
}

/// Whether a reply is a batch.
fn is_batch(reply: &Reply) -> bool
    ensures { result ≡ is_batch reply.now }
{
    matches!(reply, Reply::Batch(_))
}

/// A reply with these victims, or these tasks, if it has such.
fn completed(reply: Reply, victims: Vec<Key>, tasks: Vec<Task>) -> Reply
    ensures { result ≡ completed reply victims.items tasks.items }
{
    if is_eviction(&reply) {
        Reply::Evicted(Keys::new(victims))
    } else if is_batch(&reply) {
        Reply::Batch(Tasks::new(tasks))
    } else {
        reply
    }
}
