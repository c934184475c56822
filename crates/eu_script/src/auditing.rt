//! Audits of scripts: whether what a script did is a run of the lease machine.
ghost use Rattle.std.specs.Prelude.{ℕ, Bool, List, ◌≡◌, ◌≢◌, IfErr, OnOk, OnErr, true, take};
ghost use Rattle.std.specs.Io.KnownBytes.{Appends, Consumes};
ghost use Rattle.eu_lines.specs.Script.{Wrote};
ghost use Rattle.eu_script.specs.Audit.{AuditRuns, audit_text};
ghost use Rattle.eu_script.specs.ScriptDesk.{Writes};

use crate::desk::Verdict;
use crate::printing::print_audit;
use crate::script::answer_whole;
use eu_base::Config;
use eu_clock::Chooser;
use eu_lines::ScriptFault;
use eu_stream::{Discarding, Reading, Sink, Source, WriteFault, Writing, write_whole};
use std::alloc::Global;
use std::io::{Read, Write};

/// Writes a text, and flushes it.
fn write_flushed<W: Sink>(writer: &mut W, text: &[u8]) -> Result<(), WriteFault>
    ensures ok { OnOk result (Appends (W.contents writer.old) (W.contents writer.new) text.now) }
    ensures err { OnErr result ((k : ℕ) × Appends (W.contents writer.old) (W.contents writer.new) (take k text.now)) }
    ensures sound { OnOk result (W.failed writer.new ≡ W.failed writer.old) }
    ensures failed { OnErr result (W.failed writer.new ≡ true) }
    ensures same_stream { W.stream writer.new ≡ W.stream writer.old }
{
    write_whole(writer, text)?;
    writer.flush()
}

/// Writes the line of a verdict, and flushes it. `OutOfMemory` comes before anything is written, `Write` where a write or a flush failed.
pub fn tell_verdict<W: Sink>(
    alloc: Global,
    writer: &mut W,
    verdict: Verdict,
) -> Result<(), ScriptFault>
    ensures told { Wrote (W.contents writer.old) (W.contents writer.new) (Writes (audit_text verdict.is_run verdict.entries) (W.failed writer.new) result) }
    ensures sound { OnOk result (W.failed writer.new ≡ W.failed writer.old) }
    ensures told_writer { IfErr result (λ fault. fault ≢ ScriptFault.Write → W.failed writer.new ≡ W.failed writer.old) }
    ensures same_stream { W.stream writer.new ≡ W.stream writer.old }
{
    let mut line = String::new(alloc);
    print_audit(&mut line, verdict.is_run, verdict.entries)?;
    write_flushed(writer, line.as_bytes())?;
    Ok(())
}

/// Audits a script: has a registry with these settings answer its lines as `answer_script` does, but writes none of what they print; then
/// has an auditor judge the registry's journal, and writes one line: `audit yes N` or `audit no N`, which LF ends.
///
/// N is how many entries the journal has: one for each command that was answered and not refused, of more than 65,536 the last ones,
/// since the journal begins anew where it is full. The answer, which is also the result, is whether these are a run of the lease machine
/// from the journal's base to the registry and its peers' queues as they are at the end (`eu_audit::audit`). A script that doesn't open
/// the registry gives `audit yes 0`.
///
/// `BadLine`, `Read` and `OutOfMemory` come as they do from `answer_script`, and `OutOfMemory` also where there is no memory for the
/// audit or its line; nothing is written before them. `Write` comes where the line's write or its flush failed; a front of the line is
/// written then. The chooser is left as `answer_script` leaves it; after `Write` it is as the lines left it.
pub fn answer_audit<R: Source, W: Sink, C: Chooser>(
    alloc: Global,
    reader: &mut R,
    writer: &mut W,
    config: Config,
    chooser: &mut C,
) -> Result<bool, ScriptFault>
    ensures runs { (read : List ℕ) × Consumes (R.remaining reader.old) (R.remaining reader.new) read
        × Wrote (W.contents writer.old) (W.contents writer.new)
        (AuditRuns config C.asks chooser.old chooser.new
        (record { read = read; left = R.remaining reader.new; reader_failed = R.failed reader.new; writer_failed = W.failed writer.new }) result) }
    ensures sound_reader { OnOk result (R.failed reader.new ≡ R.failed reader.old) }
    ensures sound_writer { OnOk result (W.failed writer.new ≡ W.failed writer.old) }
    ensures told_reader { IfErr result (λ fault. fault ≢ ScriptFault.Read → R.failed reader.new ≡ R.failed reader.old) }
    ensures told_writer { IfErr result (λ fault. fault ≢ ScriptFault.Write → W.failed writer.new ≡ W.failed writer.old) }
    ensures same_reader { R.stream reader.new ≡ R.stream reader.old }
    ensures same_writer { W.stream writer.new ≡ W.stream writer.old }
{
    let desk = answer_whole(alloc, reader, &mut Discarding, config, chooser)?;
    let verdict = desk.judge(alloc)?;
    tell_verdict(alloc, writer, verdict)?;
    Ok(verdict.is_run)
}

/// Audits a script as `answer_audit` does, over any reader and writer of std.
///
/// A read, a write or a flush that a signal interrupts is tried up to 16 times. The contracts of std's traits don't tell
/// when a read or a write fails, so this one leaves open whether one did: `answer_audit` tells it exactly.
pub fn run_audit<R: Read, W: Write, C: Chooser>(
    alloc: Global,
    reader: &mut R,
    writer: &mut W,
    config: Config,
    chooser: &mut C,
) -> Result<bool, ScriptFault>
    ensures { (read : List ℕ) × Consumes (R.remaining reader.old) (R.remaining reader.new) read
        × (reader_failed : Bool) × (writer_failed : Bool)
        × Wrote (W.contents writer.old) (W.contents writer.new)
        (AuditRuns config C.asks chooser.old chooser.new
        (record { read = read; left = R.remaining reader.new; reader_failed = reader_failed; writer_failed = writer_failed }) result) }
{
    let mut reading = Reading::new(reader);
    let mut writing = Writing::new(writer);
    answer_audit(alloc, &mut reading, &mut writing, config, chooser)
}
