//! A whole journal from its text.
ghost use Rattle.std.specs.Io.KnownBytes.{Consumes, IsAtEnd};
ghost use Rattle.std.specs.Prelude.{◌≡◌, ◌≢◌, ◌⊎◌, ℕ, List, Some, Err, IfErr, IfOk, OnOk, true};
ghost use Rattle.eu_model.specs.declared.commands.Entry.{Entry};
ghost use Rattle.eu_model.specs.declared.states.State.{State};
ghost use Rattle.eu_journal_read.specs.Drafts.{state_of};
ghost use Rattle.eu_journal_read.specs.Reader.{CameTo, EndsBefore, EndsIn, FailsToRead, IsUnsealed, TellsLine};
ghost use Rattle.eu_journal_read.specs.Said.{SaysJournal, journal_limits};

use crate::faults::JournalFault;
use crate::reader::JournalReader;
use crate::stages::{Front, Stage};
use crate::states::StateDraft;
use eu_lines::{Limits, ScriptFault, answer_lines};
use eu_model::{Entry, Queue, State};
use eu_stream::{Discarding, Source};
use std::alloc::{AllocFailed, Global};

/// A journal that was read.
#[derive(Debug, Drop)]
pub struct Recorded {
    /// The state with which it begins.
    pub base: State,
    /// Its entries.
    pub entries: Vec<Entry>,
    /// The state with which it ends.
    pub end: State,
}

impl Recorded {
    /// The journal of what was read of it. `AllocFailed` where no memory is left.
    fn new(front: Front, end: StateDraft) -> Result<Recorded, AllocFailed<Queue>>
        ensures { IfOk result (λ j. (j.base ≡ state_of front.base) × (j.entries.items ≡ front.entries) × (j.end ≡ state_of end)) }
    {
        let (base, entries) = front.parts();
        Ok(Recorded {
            base: base.finish()?,
            entries,
            end: end.finish()?,
        })
    }
}

/// How long a journal and its lines may be: 2^40 and 2^24 bytes.
fn limits() -> Limits
    ensures { result ≡ journal_limits }
{
    Limits {
        line: 1 << 24,
        text: 1 << 40,
    }
}

/// The stage after all lines of a text. `BadLine` where one can't be taken; `Read` where the reader failed, or the text is too long;
/// `OutOfMemory`.
fn last_stage<R: Source>(alloc: Global, reader: &mut R) -> Result<Stage, ScriptFault>
    ensures came { (read : List ℕ) × Consumes (R.remaining reader.old) (R.remaining reader.new) read × CameTo (R.remaining reader.new) (R.failed reader.new) read result }
    ensures sound { OnOk result (R.failed reader.new ≡ R.failed reader.old) }
    ensures told { IfErr result (λ fault. fault ≢ ScriptFault.Read → R.failed reader.new ≡ R.failed reader.old) }
    ensures same_stream { R.stream reader.new ≡ R.stream reader.old }
{
    let mut lines = JournalReader::new();
    answer_lines(
        alloc,
        limits(),
        reader,
        &mut Discarding,
        &mut lines,
        &mut (),
    )?;
    Ok(lines.stage)
}

/// The journal at the last stage. `EndsEarly` where it isn't the last; `OutOfMemory`.
fn finish(stage: Stage) -> Result<Recorded, JournalFault>
    ensures ok { IfOk result (λ j. EndsIn stage j.base j.entries.items j.end) }
    ensures err { IfErr result (λ fault. (fault ≡ JournalFault.OutOfMemory) ⊎ ((fault ≡ JournalFault.EndsEarly) × IsUnsealed stage)) }
{
    let Stage::Sealed { front, end } = stage else {
        drop(stage);
        return Err(JournalFault::EndsEarly);
    };
    let journal = Recorded::new(front, end)?;
    Ok(journal)
}

/// Reads a journal to the end of its text, by `write_journal`'s form. Lines that are empty are passed over. At most one line is kept beside
/// what was read.
///
/// The answer is right both ways: `Ok` comes only of a text that says this journal, and of a text that says one no fault comes but for want of
/// memory, or as the reader failed.
///
/// `BadLine` tells the first line that can't be taken: it has more than 2^24 bytes, is no line of a journal, can't follow the lines before it,
/// or is the digest of something else than these. `EndsEarly` where the text ends without the line of the digest. `Read` where the reader
/// failed, or the text has more than 2^40 bytes. `OutOfMemory` may come in place of any.
pub fn read_journal<R: Source>(alloc: Global, reader: &mut R) -> Result<Recorded, JournalFault>
    ensures ok { IfOk result (λ j. (text : List ℕ) × Consumes (R.remaining reader.old) (R.remaining reader.new) text × IsAtEnd (R.remaining reader.new) × SaysJournal text j.base j.entries.items j.end) }
    ensures refused { IfErr result (λ fault. (text : List ℕ) (base : State) (entries : List Entry) (end : State) → R.remaining reader.old ≡ Some text → SaysJournal text base entries end
        → (fault ≡ JournalFault.OutOfMemory) ⊎ ((fault ≡ JournalFault.Read) × (R.failed reader.new ≡ true))) }
    ensures bad_line { (n : ℕ) → result ≡ Err (JournalFault.BadLine n) → TellsLine (R.remaining reader.old) (R.remaining reader.new) n }
    ensures early { result ≡ Err JournalFault.EndsEarly → EndsBefore (R.remaining reader.old) (R.remaining reader.new) }
    ensures read { result ≡ Err JournalFault.Read → FailsToRead (R.remaining reader.old) (R.remaining reader.new) (R.failed reader.new) }
    ensures sound { OnOk result (R.failed reader.new ≡ R.failed reader.old) }
    ensures told { IfErr result (λ fault. fault ≢ JournalFault.Read → R.failed reader.new ≡ R.failed reader.old) }
    ensures same_stream { R.stream reader.new ≡ R.stream reader.old }
{
    let stage = last_stage(alloc, reader)?;
    finish(stage)
}
