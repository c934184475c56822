//! The lines of entries.
ghost use Rattle.std.specs.Prelude.{◌≡◌, ◌++◌, map, OnOk, string_bytes};
ghost use Rattle.std.specs.List.{AllByRecursion};
ghost use Rattle.eu_journal_text.specs.Text.{IsReadBack, entries_lines, entry_lines, line_text, lines_text, reply_lines};

use crate::push::push_line;
use eu_base::{Key, Task};
use eu_journal::{JournalLine, answered_value, asked_value, sent_value, victim_value};
use eu_model::{Entry, Reply};
use std::alloc::{AllocError, Global};

/// Puts a line for each victim at the end.
#[tactic(auto, unfolding(crate::specs::Text::line_text, crate::specs::Text::IsReadBack))]
fn push_victims(alloc: Global, out: &mut String, victims: &[Key]) -> Result<(), AllocError>
    ensures text { OnOk result (string_bytes out.new ≡ string_bytes out.old ++ lines_text (map JournalLine.Victim victims.now)) }
    ensures back { OnOk result (AllByRecursion IsReadBack (map JournalLine.Victim victims.now)) }
{
    for key in victims {
        let line = victim_value(alloc, key)?;
        push_line(alloc, out, &line)?;
    }
    Ok(())
}

/// Puts the line of a task of a batch at the end.
#[tactic(auto, unfolding(crate::specs::Text::line_text, crate::specs::Text::IsReadBack))]
fn push_sent_task(alloc: Global, out: &mut String, task: &Task) -> Result<(), AllocError>
    ensures text { OnOk result (string_bytes out.new ≡ string_bytes out.old ++ line_text (JournalLine.Sent task.now)) }
    ensures back { OnOk result (IsReadBack (JournalLine.Sent task.now)) }
{
    let line = sent_value(alloc, task)?;
    push_line(alloc, out, &line)
}

/// Puts a line for each task of a batch at the end.
fn push_sent(alloc: Global, out: &mut String, tasks: &[Task]) -> Result<(), AllocError>
    ensures text { OnOk result (string_bytes out.new ≡ string_bytes out.old ++ lines_text (map JournalLine.Sent tasks.now)) }
    ensures back { OnOk result (AllByRecursion IsReadBack (map JournalLine.Sent tasks.now)) }
{
    for task in tasks {
        push_sent_task(alloc, out, task)?;
    }
    Ok(())
}

/// Puts the lines of a reply's victims or tasks at the end.
fn push_reply(alloc: Global, out: &mut String, reply: &Reply) -> Result<(), AllocError>
    ensures text { OnOk result (string_bytes out.new ≡ string_bytes out.old ++ lines_text (reply_lines reply.now)) }
    ensures back { OnOk result (AllByRecursion IsReadBack (reply_lines reply.now)) }
{
    match reply {
        Reply::Evicted(victims) => push_victims(alloc, out, victims.as_slice()),
        Reply::Batch(tasks) => push_sent(alloc, out, tasks.as_slice()),
        _ => Ok(()),
    }
}

/// Puts the first line of an entry at the end.
#[tactic(auto, unfolding(crate::specs::Text::line_text, crate::specs::Text::IsReadBack))]
fn push_asked(alloc: Global, out: &mut String, entry: &Entry) -> Result<(), AllocError>
    ensures text { OnOk result (string_bytes out.new ≡ string_bytes out.old ++ line_text (JournalLine.Asked entry.now.pass entry.now.number entry.now.moment entry.now.command)) }
    ensures back { OnOk result (IsReadBack (JournalLine.Asked entry.now.pass entry.now.number entry.now.moment entry.now.command)) }
{
    let line = asked_value(alloc, entry)?;
    push_line(alloc, out, &line)
}

/// Puts the line of a reply at the end.
#[tactic(auto, unfolding(crate::specs::Text::line_text, crate::specs::Text::IsReadBack))]
fn push_answered(alloc: Global, out: &mut String, reply: &Reply) -> Result<(), AllocError>
    ensures text { OnOk result (string_bytes out.new ≡ string_bytes out.old ++ line_text (JournalLine.Answered reply.now)) }
    ensures back { OnOk result (IsReadBack (JournalLine.Answered reply.now)) }
{
    let line = answered_value(alloc, reply)?;
    push_line(alloc, out, &line)
}

/// Puts the lines of an entry at the end.
fn push_entry(alloc: Global, out: &mut String, entry: &Entry) -> Result<(), AllocError>
    ensures text { OnOk result (string_bytes out.new ≡ string_bytes out.old ++ lines_text (entry_lines entry.now)) }
    ensures back { OnOk result (AllByRecursion IsReadBack (entry_lines entry.now)) }
{
    push_asked(alloc, out, entry)?;
    push_answered(alloc, out, &entry.reply)?;
    push_reply(alloc, out, &entry.reply)
}

/// Puts the lines of entries at the end. `AllocError` where no memory is left.
pub fn push_entries(alloc: Global, out: &mut String, entries: &[Entry]) -> Result<(), AllocError>
    ensures text { OnOk result (string_bytes out.new ≡ string_bytes out.old ++ lines_text (entries_lines entries.now)) }
    ensures back { OnOk result (AllByRecursion IsReadBack (entries_lines entries.now)) }
{
    for entry in entries {
        push_entry(alloc, out, entry)?;
    }
    Ok(())
}
