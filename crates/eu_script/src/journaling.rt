//! Scripts whose journal is written.
ghost use Rattle.std.specs.Prelude.{ℕ, Bool, List, ◌≡◌, ◌≢◌, IfErr, OnOk};
ghost use Rattle.std.specs.Io.KnownBytes.{Consumes};
ghost use Rattle.eu_lines.specs.Script.{Wrote};
ghost use Rattle.eu_script.specs.ScriptDesk.{Writes, text_of};
ghost use Rattle.eu_script.specs.Journal.{JournalRuns};

use crate::desk::ScriptDesk;
use crate::script::answer_whole;
use eu_base::Config;
use eu_clock::Chooser;
use eu_lines::ScriptFault;
use eu_stream::{Reading, Sink, Source, Writing};
use std::alloc::Global;
use std::io::{Read, Write};

/// Writes the text of a desk's journal, and flushes it. The faults are those of `ScriptDesk::write_journal`; `Write` also where the flush failed.
fn leave_journal<J: Sink>(
    alloc: Global,
    desk: &ScriptDesk,
    journal: &mut J,
) -> Result<(), ScriptFault>
    ensures wrote { Wrote (J.contents journal.old) (J.contents journal.new) (Writes (text_of desk.now.book) (J.failed journal.new) result) }
    ensures sound { OnOk result (J.failed journal.new ≡ J.failed journal.old) }
    ensures told { IfErr result (λ fault. fault ≢ ScriptFault.Write → J.failed journal.new ≡ J.failed journal.old) }
    ensures same_stream { J.stream journal.new ≡ J.stream journal.old }
{
    desk.write_journal(alloc, journal)?;
    journal.flush()?;
    Ok(())
}

/// Runs a script as `answer_script` does, and then writes what is left of its journal to another writer, and flushes it.
///
/// What is written there is the text of a journal (`eu_journal_text::journal_text`): the state with which the journal begins, its
/// entries, one for each command that was answered and not refused, and the registry and what waits for its peers as they are at the
/// end. Of more than 65,536 entries these are the last, since the journal begins anew where it is full. A script that doesn't open the
/// registry leaves nothing there. The whole text is in memory before it is written.
///
/// The faults come as they do from `answer_script`, and nothing is written to the journal then. `OutOfMemory` comes also where there
/// is no memory for the journal's text, and nothing is written of it; `Write` also where the journal's write or its flush failed, and
/// a front of the text is written then. In both cases all that the lines print was written before, and the chooser is as they left it.
pub fn answer_script_with_journal<R: Source, W: Sink, J: Sink, C: Chooser>(
    alloc: Global,
    reader: &mut R,
    writer: &mut W,
    journal: &mut J,
    config: Config,
    chooser: &mut C,
) -> Result<(), ScriptFault>
    ensures runs { (read : List ℕ) × Consumes (R.remaining reader.old) (R.remaining reader.new) read
        × Wrote (W.contents writer.old) (W.contents writer.new) (λ out.
        Wrote (J.contents journal.old) (J.contents journal.new)
        (JournalRuns config C.asks chooser.old chooser.new
        (record { read = read; left = R.remaining reader.new; reader_failed = R.failed reader.new; writer_failed = W.failed writer.new }) out (J.failed journal.new) result)) }
    ensures sound_reader { OnOk result (R.failed reader.new ≡ R.failed reader.old) }
    ensures sound_writer { OnOk result (W.failed writer.new ≡ W.failed writer.old) }
    ensures sound_journal { OnOk result (J.failed journal.new ≡ J.failed journal.old) }
    ensures told_reader { IfErr result (λ fault. fault ≢ ScriptFault.Read → R.failed reader.new ≡ R.failed reader.old) }
    ensures told_writer { IfErr result (λ fault. fault ≢ ScriptFault.Write → W.failed writer.new ≡ W.failed writer.old) }
    ensures told_journal { IfErr result (λ fault. fault ≢ ScriptFault.Write → J.failed journal.new ≡ J.failed journal.old) }
    ensures same_reader { R.stream reader.new ≡ R.stream reader.old }
    ensures same_writer { W.stream writer.new ≡ W.stream writer.old }
    ensures same_journal { J.stream journal.new ≡ J.stream journal.old }
{
    let desk = answer_whole(alloc, reader, writer, config, chooser)?;
    leave_journal(alloc, &desk, journal)
}

/// Runs a script as `answer_script_with_journal` does, over any reader and writers of std.
///
/// A read, a write or a flush that a signal interrupts is tried up to 16 times. The contracts of std's traits don't tell
/// when a read or a write fails, so this one leaves open whether one did: `answer_script_with_journal` tells it exactly.
pub fn run_script_with_journal<R: Read, W: Write, J: Write, C: Chooser>(
    alloc: Global,
    reader: &mut R,
    writer: &mut W,
    journal: &mut J,
    config: Config,
    chooser: &mut C,
) -> Result<(), ScriptFault>
    ensures { (read : List ℕ) × Consumes (R.remaining reader.old) (R.remaining reader.new) read
        × (reader_failed : Bool) × (writer_failed : Bool) × (journal_failed : Bool)
        × Wrote (W.contents writer.old) (W.contents writer.new) (λ out.
        Wrote (J.contents journal.old) (J.contents journal.new)
        (JournalRuns config C.asks chooser.old chooser.new
        (record { read = read; left = R.remaining reader.new; reader_failed = reader_failed; writer_failed = writer_failed }) out journal_failed result)) }
{
    let mut reading = Reading::new(reader);
    let mut writing = Writing::new(writer);
    let mut keeping = Writing::new(journal);
    answer_script_with_journal(
        alloc,
        &mut reading,
        &mut writing,
        &mut keeping,
        config,
        chooser,
    )
}
