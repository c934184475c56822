//! A line of a journal from its text.
ghost use Rattle.std.specs.Prelude.{◌≡◌, ◌⊎◌, MatchResult, None, Some};
ghost use Rattle.serde_json.specs.Read.{read};
ghost use Rattle.serde_json.specs.View.{view};
ghost use Rattle.eu_journal_values.specs.Answered.{Gives};
ghost use Rattle.eu_journal_text.specs.Line.{LineTextsComeBack, line_in};

use eu_journal::{JournalLine, line_of};
use eu_journal_values::LineFault;
use serde_json::Value;
use std::alloc::Global;

/// The JSON of a text. `NotALine` where it is none; `OutOfMemory`.
fn parse(alloc: Global, text: &str) -> Result<Value, LineFault>
    ensures { MatchResult result (λ v. read text.now ≡ Some (view v)) (λ f. (f ≡ LineFault.OutOfMemory) ⊎ ((f ≡ LineFault.NotALine) × (read text.now ≡ None))) }
{
    match Value::from_str(alloc, text) {
        Ok(value) => Ok(value),
        Err(error) if error.is_memory() => Err(LineFault::OutOfMemory),
        Err(_) => Err(LineFault::NotALine),
    }
}

/// The line of a journal that a text is, without its end.
///
/// `NotALine` where the text isn't JSON or nests deeper than 127, or where `line_of` refuses its JSON; `OutOfMemory` may come in
/// place of it.
pub fn read_line(alloc: Global, text: &str) -> Result<JournalLine, LineFault>
    ensures { Gives result (line_in text.now) }
{
    let value = parse(alloc, text)?;
    line_of(alloc, &value)
}

/// A law without code: each text whose JSON is that of a line is read as that line; of a reply all but its victims and its tasks, which
/// have lines of their own. That is for every line that the types hold, by the limits of their fields.
pub fn line_texts_come_back()
    ensures { LineTextsComeBack }
{}
