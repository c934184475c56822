//! Audits of journals: whether the entries that a text has are a run of the lease machine.
ghost use Rattle.std.specs.Prelude.{ℕ, Bool, List, ◌≡◌, ◌≢◌, ◌⊎◌, true, Some, OnOk, IfErr};
ghost use Rattle.eu_journal_audit.specs.Audit.{AuditsJournal, Judged, RefusesNone};
ghost use Rattle.eu_journal_read.specs.Said.{SaysJournal};
ghost use Rattle.eu_lines.specs.Script.{Wrote};
ghost use Rattle.eu_model.specs.declared.commands.Entry.{Entry};
ghost use Rattle.eu_model.specs.declared.states.State.{State};

use crate::faults::AuditFault;
use eu_audit::audit;
use eu_journal_read::read_journal;
use eu_script::{Verdict, tell_verdict};
use eu_stream::{Reading, Sink, Source, Writing};
use std::alloc::Global;
use std::io::{Read, Write};

/// Reads a journal, and has an auditor judge it. The faults are those of `read_journal`; `OutOfMemory` also where there is no memory for
/// the audit.
fn judge_journal<R: Source>(alloc: Global, reader: &mut R) -> Result<Verdict, AuditFault>
    ensures judged { Judged (R.remaining reader.old) (R.remaining reader.new) (R.failed reader.new) result }
    ensures refused { IfErr result (λ fault. (text : List ℕ) (base : State) (entries : List Entry) (end : State) → R.remaining reader.old ≡ Some text → SaysJournal text base entries end
        → (fault ≡ AuditFault.OutOfMemory) ⊎ ((fault ≡ AuditFault.Read) × (R.failed reader.new ≡ true))) }
    ensures sound { OnOk result (R.failed reader.new ≡ R.failed reader.old) }
    ensures told { IfErr result (λ fault. fault ≢ AuditFault.Read → R.failed reader.new ≡ R.failed reader.old) }
    ensures same_stream { R.stream reader.new ≡ R.stream reader.old }
{
    let journal = read_journal(alloc, reader)?;
    let entries = journal.entries.as_slice();
    let is_run = audit(alloc, &journal.base, entries, &journal.end)?;
    Ok(Verdict {
        is_run,
        entries: entries.len(),
    })
}

/// Audits a journal: reads it to its end (`eu_journal_read::read_journal`), has an auditor judge it (`eu_audit::audit`), and writes one line,
/// `audit yes N` or `audit no N`, which LF ends; N is how many entries it has. The answer, which is also the result, is whether these are a
/// run of the lease machine from the journal's base to its end.
///
/// `BadLine`, `EndsEarly`, `Read` and `OutOfMemory` come as they do from `read_journal`, and `OutOfMemory` also where there is no memory for the
/// audit or its line; nothing is written before them. `Write` comes where the line's write or its flush failed; a front of it is written then.
pub fn answer_journal_audit<R: Source, W: Sink>(
    alloc: Global,
    reader: &mut R,
    writer: &mut W,
) -> Result<bool, AuditFault>
    ensures audited { Wrote (W.contents writer.old) (W.contents writer.new)
        (AuditsJournal (R.remaining reader.old) (R.remaining reader.new) (R.failed reader.new) (W.failed writer.new) result) }
    ensures refused { RefusesNone (R.remaining reader.old) (R.failed reader.new) (W.failed writer.new) result }
    ensures sound_reader { OnOk result (R.failed reader.new ≡ R.failed reader.old) }
    ensures sound_writer { OnOk result (W.failed writer.new ≡ W.failed writer.old) }
    ensures told_reader { IfErr result (λ fault. fault ≢ AuditFault.Read → R.failed reader.new ≡ R.failed reader.old) }
    ensures told_writer { IfErr result (λ fault. fault ≢ AuditFault.Write → W.failed writer.new ≡ W.failed writer.old) }
    ensures same_reader { R.stream reader.new ≡ R.stream reader.old }
    ensures same_writer { W.stream writer.new ≡ W.stream writer.old }
{
    let verdict = judge_journal(alloc, reader)?;
    tell_verdict(alloc, writer, verdict)?;
    Ok(verdict.is_run)
}

/// Audits a journal as `answer_journal_audit` does, over any reader and writer of std.
///
/// A read, a write or a flush that a signal interrupts is tried up to 16 times. The contracts of std's traits don't tell
/// when a read or a write fails, so this one leaves open whether one did: `answer_journal_audit` tells it exactly.
pub fn run_journal_audit<R: Read, W: Write>(
    alloc: Global,
    reader: &mut R,
    writer: &mut W,
) -> Result<bool, AuditFault>
    ensures { (reader_failed : Bool) × (writer_failed : Bool)
        × Wrote (W.contents writer.old) (W.contents writer.new)
        (AuditsJournal (R.remaining reader.old) (R.remaining reader.new) reader_failed writer_failed result)
        × RefusesNone (R.remaining reader.old) reader_failed writer_failed result }
{
    let mut reading = Reading::new(reader);
    let mut writing = Writing::new(writer);
    answer_journal_audit(alloc, &mut reading, &mut writing)
}
