//! A journal read line by line.
ghost use Rattle.std.specs.Prelude.{◌≡◌, ◌↔◌, ◌++◌, ◌∷◌, [], ℕ, List, Err, IfOk, IsTrue, OnOk};
ghost use Rattle.hex.specs.Hex.{encode_lower};
ghost use Rattle.sha2.specs.Hashers.{Holds256};
ghost use Rattle.sha2.specs.Sha256.{sha256};
ghost use Rattle.eu_lines.specs.Script.{place};
ghost use Rattle.eu_journal_read.specs.Drafts.{Becomes};
ghost use Rattle.eu_journal_read.specs.Reader.{IsFit, Refuses, Takes};
ghost use Rattle.eu_journal_read.specs.Stages.{take_line};
ghost use Rattle.eu_journal_read.specs.Said.{IsReadAs};

use crate::stages::{Stage, take_line};
use eu_journal::JournalLine;
use eu_journal_text::read_line;
use eu_journal_values::LineFault;
use eu_lines::{Answerer, LineError};
use sha2::{Digest, Sha256};
use std::alloc::{AllocError, Global};
use std::{mem, str};

/// Takes the lines of a journal, one after the other.
#[derive(Drop)]
pub struct JournalReader {
    /// How far it was read.
    pub stage: Stage,
    /// Holds what was read, each line with its end.
    hasher: Sha256,
}

impl JournalReader {
    /// Before the first line. Takes no memory.
    pub fn new() -> JournalReader
        ensures stage { result.stage ≡ Stage.Empty }
        ensures told { Holds256 result.hasher [] }
    {
        JournalReader {
            stage: Stage::Empty,
            hasher: Sha256::new(),
        }
    }

    /// Takes a line. `NotALine` where it is none, or can't follow what was read; `OutOfMemory`.
    fn take(&mut self, alloc: Global, text: &[u8]) -> Result<(), LineFault>
        ensures ok { OnOk result (Takes (place self.old tt) text.now [] (place self.new tt)) }
        ensures refused { result ≡ Err LineFault.NotALine → Refuses (place self.old tt) text.now }
    {
        let line = line_of(alloc, text)?;
        check_digest(alloc, &self.hasher, &line)?;
        step(alloc, &mut self.stage, line)?;
        self.hasher.update(text);
        self.hasher.update(b"\n");
        Ok(())
    }
}

/// Takes a line. `NotALine` where it can't follow what was read; `OutOfMemory`.
fn step(alloc: Global, stage: &mut Stage, line: JournalLine) -> Result<(), LineFault>
    ensures { Becomes result stage.new (take_line stage.old line) }
{
    let before = mem::replace(stage, Stage::Empty);
    let after = take_line(alloc, before, line)?;
    drop(mem::replace(stage, after));
    Ok(())
}

/// The line that a text is. `NotALine` where it is none; `OutOfMemory`.
fn line_of(alloc: Global, text: &[u8]) -> Result<JournalLine, LineFault>
    ensures ok { IfOk result (IsReadAs text.now) }
    ensures none { result ≡ Err LineFault.NotALine → (l : JournalLine) → IsReadAs text.now l → ⊥ }
{
    match str::from_utf8(text) {
        Ok(text) => read_line(alloc, text),
        Err(_) => Err(LineFault::NotALine),
    }
}

/// Checks that a line that is a digest is that of what was read. `NotALine` where it isn't; `OutOfMemory`.
fn check_digest(alloc: Global, hasher: &Sha256, line: &JournalLine) -> Result<(), LineFault>
    ensures ok { OnOk result ((prefix : List ℕ) → Holds256 hasher.now prefix → IsFit prefix line.now) }
    ensures none { result ≡ Err LineFault.NotALine → (prefix : List ℕ) → Holds256 hasher.now prefix → IsFit prefix line.now → ⊥ }
{
    match line {
        JournalLine::Digest(digest) if !is_digest(alloc, hasher, digest.as_str())? => {
            Err(LineFault::NotALine)
        }
        _ => Ok(()),
    }
}

/// Whether a text is the digest of what was read. `AllocError` where no memory is left.
fn is_digest(alloc: Global, hasher: &Sha256, digest: &str) -> Result<bool, AllocError>
    ensures { IfOk result (λ fits. (prefix : List ℕ) → Holds256 hasher.now prefix → IsTrue fits ↔ (digest.now ≡ encode_lower (sha256 prefix))) }
{
    let hasher = hasher.clone()?;
    let text = hex::encode(alloc, hasher.finalize())?;
    Ok(digest == text.as_str())
}

impl Answerer<()> for JournalReader {
    ghost answers = { Takes };

    ghost refuses = { Refuses };

    fn answer(
        &mut self,
        alloc: Global,
        _context: &mut (),
        line: &[u8],
        _out: &mut String,
    ) -> Result<(), LineError> {
        match self.take(alloc, line) {
            Ok(()) => Ok(()),
            Err(LineFault::NotALine) => Err(LineError::Bad),
            Err(LineFault::OutOfMemory) => Err(LineError::OutOfMemory),
        }
    }
}
